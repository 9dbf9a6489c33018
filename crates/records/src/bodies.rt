ghost use Rattle.std.specs.Prelude.{◌≡◌, ◌∷◌, [], IfOk};
ghost use Rattle.desk_time.specs.Limits.{IsMoment};
ghost use Rattle.serde_json.specs.Data.{object, no_members};
ghost use Rattle.serde_json.specs.View.{view, members_view};
ghost use Rattle.serde_json.specs.Written.{compact_text};
ghost use Rattle.records.specs.Bodies as spec;
ghost use Rattle.records.specs.Lent.{alert_lent, lent, meta_lent, report_lent};

use crate::kinds::{key_of, kind_of};
use crate::lent::{AlertRef, MetaRef, RecordRef, ReportRef};
use asks::{
    Floor, Floors, KeptReply, Members, done_value, with_count, with_digest, with_moment, with_text,
    with_value,
};
use deferrals::Deferral;
use desk_io::{OutOfMemory, Row, Text};
use release_json::{Version, findings_value, release_value};
use serde_json::{Map, Value};
use std::alloc::Global;

// Adds the floor of a person to the members.
fn with_floor(alloc: Global, members: Members, floor: &Floor) -> Result<Members, OutOfMemory>
    ensures { IfOk result (λ all. members_view all.entries ≡ spec.with_floors (members_view members.entries)
        (floor.now ∷ [])) }
{
    let name = String::from_utf8_lossy(alloc, floor.actor.bytes())?;
    with_count(alloc, members, name.as_str(), floor.number)
}

fn floor_members(alloc: Global, floors: &[Floor]) -> Result<Members, OutOfMemory>
    ensures { IfOk result (λ all. members_view all.entries ≡ spec.with_floors no_members floors.now) }
{
    let mut members = Map::new(alloc);
    for floor in floors {
        members = with_floor(alloc, members, floor)?;
    }
    Ok(members)
}

#[tactic(auto, unfolding(crate::specs::Bodies::floors_data))]
fn floors_value(alloc: Global, floors: &Floors) -> Result<Value, OutOfMemory>
    ensures { IfOk result (λ v. view v ≡ spec.floors_data floors.now) }
{
    Ok(Value::Object(floor_members(alloc, floors.as_slice())?))
}

fn meta_members(alloc: Global, version: Version, meta: &MetaRef<'_>) -> Result<Members, OutOfMemory>
    requires { IsMoment meta.now.moment }
    ensures { IfOk result (λ all. members_view all.entries ≡ spec.meta_members version (meta_lent meta.now)) }
{
    let members = with_count(alloc, Map::new(alloc), "events", meta.counters.events)?;
    let floors = floors_value(alloc, meta.floors)?;
    let members = with_value(alloc, members, "floors", floors)?;
    let members = with_count(alloc, members, "next_deferral", meta.counters.next_deferral)?;
    let members = with_count(alloc, members, "next_kept", meta.counters.next_kept)?;
    let members = with_count(alloc, members, "next_release", meta.counters.next_release)?;
    let members = with_count(alloc, members, "next_report", meta.counters.next_report)?;
    let members = with_moment(alloc, members, "now", meta.moment)?;
    with_count(alloc, members, "version", version.number())
}

fn report_members(alloc: Global, report: &ReportRef<'_>) -> Result<Members, OutOfMemory>
    requires { IsMoment report.now.received }
    ensures { IfOk result (λ all. members_view all.entries ≡ spec.report_members (report_lent report.now)) }
{
    let members = with_moment(alloc, Map::new(alloc), "received", report.received)?;
    with_text(alloc, members, "text", report.text.bytes())
}

fn deferral_members(alloc: Global, deferral: &Deferral) -> Result<Members, OutOfMemory>
    requires { IsMoment deferral.now.found }
    ensures { IfOk result (λ all. members_view all.entries ≡ spec.deferral_members deferral.now) }
{
    let members = with_moment(alloc, Map::new(alloc), "found", deferral.found)?;
    let members = with_text(alloc, members, "item", deferral.item.bytes())?;
    with_text(alloc, members, "tail", deferral.tail.bytes())
}

fn reply_value(alloc: Global, kept: &KeptReply) -> Result<Value, OutOfMemory>
    ensures { IfOk result (λ v. view v ≡ object (spec.reply_members kept.now)) }
{
    let done = done_value(alloc, &kept.done)?;
    Ok(Value::Object(with_value(alloc, Map::new(alloc), "done", done)?))
}

fn kept_members(alloc: Global, kept: &KeptReply) -> Result<Members, OutOfMemory>
    requires { IsMoment kept.now.at }
    ensures { IfOk result (λ all. members_view all.entries ≡ spec.kept_members kept.now) }
{
    let members = with_text(alloc, Map::new(alloc), "actor", kept.actor.bytes())?;
    let members = with_moment(alloc, members, "at", kept.at)?;
    let members = with_digest(alloc, members, &kept.digest)?;
    let members = with_count(alloc, members, "number", kept.number)?;
    let reply = reply_value(alloc, kept)?;
    with_value(alloc, members, "reply", reply)
}

fn alert_members(alloc: Global, alert: &AlertRef<'_>) -> Result<Members, OutOfMemory>
    requires { IsMoment alert.now.opened }
    ensures { IfOk result (λ all. members_view all.entries ≡ spec.alert_members (alert_lent alert.now)) }
{
    let acknowledged = Value::Bool(alert.acknowledged);
    let members = with_value(alloc, Map::new(alloc), "acknowledged", acknowledged)?;
    let ever = findings_value(alloc, alert.ever.as_slice())?;
    let members = with_value(alloc, members, "ever", ever)?;
    let failing = findings_value(alloc, alert.failing.as_slice())?;
    let members = with_value(alloc, members, "failing", failing)?;
    let members = with_moment(alloc, members, "opened", alert.opened)?;
    with_count(alloc, members, "version", alert.version)
}

#[tactic(auto, unfolding(crate::specs::Bodies::body_data))]
fn body_value(alloc: Global, version: Version, held: &RecordRef<'_>) -> Result<Value, OutOfMemory>
    requires { spec.HasMoments (lent held.now) }
    ensures { IfOk result (λ v. view v ≡ spec.body_data version (lent held.now)) }
{
    match held {
        RecordRef::Meta(meta) => Ok(Value::Object(meta_members(alloc, version, meta)?)),
        RecordRef::Report(report) => Ok(Value::Object(report_members(alloc, report)?)),
        RecordRef::Deferral(deferral) => Ok(Value::Object(deferral_members(alloc, deferral)?)),
        RecordRef::Release(release) => release_value(alloc, version, release),
        RecordRef::Kept(kept) => Ok(Value::Object(kept_members(alloc, kept)?)),
        RecordRef::Alert(alert) => Ok(Value::Object(alert_members(alloc, alert)?)),
    }
}

#[tactic(auto, using(crate::proofs::Whole::body_is_whole))]
fn body_text(alloc: Global, version: Version, held: &RecordRef<'_>) -> Result<Text, OutOfMemory>
    requires { spec.HasMoments (lent held.now) }
    ensures { IfOk result (λ t. t ≡ compact_text (spec.body_data version (lent held.now))) }
{
    let value = body_value(alloc, version, held)?;
    Ok(Text::from_vec(value.to_vec(alloc)?))
}

/// Converts a record to its row, in this version of rows.
#[tactic(auto, unfolding(crate::specs::Bodies::row_in))]
pub(crate) fn row_in(
    alloc: Global,
    version: Version,
    held: &RecordRef<'_>,
) -> Result<Row, OutOfMemory>
    requires { spec.HasMoments (lent held.now) }
    ensures { IfOk result (λ row. row ≡ spec.row_in version (lent held.now)) }
{
    Ok(Row {
        kind: kind_of(held),
        key: key_of(held),
        body: body_text(alloc, version, held)?,
    })
}

/// Converts a record to its row in the second version, which is the one that the desk writes.
pub fn row_of(alloc: Global, held: &RecordRef<'_>) -> Result<Row, OutOfMemory>
    requires { spec.HasMoments (lent held.now) }
    ensures { IfOk result (λ row. row ≡ spec.row_of (lent held.now)) }
{
    row_in(alloc, Version::Second, held)
}

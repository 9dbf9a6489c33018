ghost use Rattle.std.specs.Prelude.{◌≡◌, map, IfOk, IfSome};
ghost use Rattle.std.specs.Option.{option_copied, option_map};
ghost use Rattle.asks.specs.Canonical.{option_data};
ghost use Rattle.desk_state.specs.Sound.{ReleaseInBounds};
ghost use Rattle.desk_state.specs.Texts.{newest};
ghost use Rattle.desk_time.specs.Limits.{IsMoment};
ghost use Rattle.serde_json.specs.View.{members_view, view};
ghost use Rattle.views.specs.Objects as spec;
ghost use Rattle.views.specs.Shown.{board_shown, flight_shown, pending_shown, release_shown, releases_shown};

use crate::alert_objects::{alert_of, optional_alert};
use crate::phases::phase_value;
use crate::values::{optional_number, with_flag};
use alerts::Alert;
use asks::{Members, text_value, with_count, with_moment, with_text, with_value};
use desk_io::OutOfMemory;
use desk_state::Content;
use plan::{Release, Revision, Signature};
use serde_json::{Map, Value};
use std::alloc::Global;

fn signed_members(alloc: Global, signature: &Signature) -> Result<Members, OutOfMemory>
    requires { IsMoment signature.now.at }
    ensures { IfOk result (λ all. members_view all.entries ≡ spec.signed_members signature.now) }
{
    let members = with_moment(alloc, Map::new(alloc), "at", signature.at)?;
    with_text(alloc, members, "by", signature.actor.bytes())
}

fn optional_signed(alloc: Global, signature: &Option<Signature>) -> Result<Value, OutOfMemory>
    requires { IfSome signature.now (λ s. IsMoment s.at) }
    ensures { IfOk result (λ v. view v ≡ option_data spec.signed_data signature.now) }
{
    match signature {
        None => Ok(Value::Null),
        Some(signature) => Ok(Value::Object(signed_members(alloc, signature)?)),
    }
}

fn pending_members(alloc: Global, revision: &Revision) -> Result<Members, OutOfMemory>
    requires { IfSome revision.now.dispatcher (λ s. IsMoment s.at) }
    ensures { IfOk result (λ all. members_view all.entries ≡ spec.pending_members (pending_shown revision.now)) }
{
    let members = with_flag(alloc, Map::new(alloc), "prepared", revision.prepared)?;
    let members = with_count(alloc, members, "revision", revision.number)?;
    let signed = optional_signed(alloc, &revision.dispatcher)?;
    with_value(alloc, members, "signed", signed)
}

fn pending_value(alloc: Global, revision: &Option<Revision>) -> Result<Value, OutOfMemory>
    requires { IfSome revision.now (λ v. IfSome v.dispatcher (λ s. IsMoment s.at)) }
    ensures { IfOk result (λ v. view v ≡ option_data spec.pending_data (option_map pending_shown revision.now)) }
{
    match revision {
        None => Ok(Value::Null),
        Some(revision) => Ok(Value::Object(pending_members(alloc, revision)?)),
    }
}

fn active_number(revision: &Option<Revision>) -> Option<u64>
    ensures { result ≡ option_map (λ v. v.number) revision.now }
{
    match revision {
        None => None,
        Some(revision) => Some(revision.number),
    }
}

// The newest revision of a release.
fn newest_of(release: &Release) -> Option<&Revision>
    ensures { option_copied result ≡ newest release.now.pending release.now.active }
{
    match (&release.pending, &release.active) {
        (Some(revision), _) | (None, Some(revision)) => Some(revision),
        (None, None) => None,
    }
}

#[tactic(auto, unfolding(crate::specs::Objects::flight_data))]
fn flight_value(alloc: Global, newest: Option<&Revision>) -> Result<Value, OutOfMemory>
    ensures { IfOk result (λ v. view v ≡ spec.flight_data (option_map flight_shown (option_copied newest.entry))) }
{
    match newest {
        None => Ok(Value::Null),
        Some(revision) => text_value(alloc, revision.plan.flight.bytes()),
    }
}

#[tactic(auto, unfolding(crate::specs::Objects::tail_data))]
fn tail_value(alloc: Global, newest: Option<&Revision>) -> Result<Value, OutOfMemory>
    ensures { IfOk result (λ v. view v ≡ spec.tail_data (option_map flight_shown (option_copied newest.entry))) }
{
    match newest {
        None => Ok(Value::Null),
        Some(revision) => text_value(alloc, revision.plan.tail.bytes()),
    }
}

// The active revision, the alert, the dispatcher and the flight.
fn release_front(
    alloc: Global,
    release: &Release,
    alert: Option<&Alert>,
) -> Result<Members, OutOfMemory>
    requires { IfSome (option_copied alert) (λ a. IsMoment a.opened) }
    ensures { IfOk result (λ all. members_view all.entries ≡ spec.release_front
        (release_shown release.now (option_copied alert.entry))) }
{
    let active = optional_number(active_number(&release.active));
    let members = with_value(alloc, Map::new(alloc), "active", active)?;
    let alert = optional_alert(alloc, alert)?;
    let members = with_value(alloc, members, "alert", alert)?;
    let members = with_text(alloc, members, "dispatcher", release.holder.bytes())?;
    let flight = flight_value(alloc, newest_of(release))?;
    with_value(alloc, members, "flight", flight)
}

fn release_members(
    alloc: Global,
    release: &Release,
    alert: Option<&Alert>,
) -> Result<Members, OutOfMemory>
    requires bounds { ReleaseInBounds release.now }
    requires opened { IfSome (option_copied alert) (λ a. IsMoment a.opened) }
    ensures { IfOk result (λ all. members_view all.entries ≡ spec.release_members
        (release_shown release.now (option_copied alert.entry))) }
{
    let members = release_front(alloc, release, alert)?;
    let pending = pending_value(alloc, &release.pending)?;
    let members = with_value(alloc, members, "pending", pending)?;
    let phase = phase_value(alloc, release.phase)?;
    let members = with_value(alloc, members, "phase", phase)?;
    let members = with_count(alloc, members, "release", release.id)?;
    let tail = tail_value(alloc, newest_of(release))?;
    with_value(alloc, members, "tail", tail)
}

#[tactic(auto, unfolding(crate::specs::Objects::release_data))]
fn release_value(
    alloc: Global,
    release: &Release,
    alert: Option<&Alert>,
) -> Result<Value, OutOfMemory>
    requires bounds { ReleaseInBounds release.now }
    requires opened { IfSome (option_copied alert) (λ a. IsMoment a.opened) }
    ensures { IfOk result (λ v. view v ≡ spec.release_data (release_shown release.now (option_copied alert.entry))) }
{
    Ok(Value::Object(release_members(alloc, release, alert)?))
}

fn release_values(alloc: Global, content: &Content) -> Result<Vec<Value>, OutOfMemory>
    ensures { IfOk result (λ values. map view values.items ≡ map spec.release_data
        (releases_shown content.now.state.alerts content.now.state.releases)) }
{
    content.holds();
    let mut values = Vec::new(alloc);
    for release in content.releases().as_slice() {
        values.push(release_value(alloc, release, alert_of(content, release.id))?)?;
    }
    Ok(values)
}

/// The members of the view of all releases.
pub(crate) fn board_members(alloc: Global, content: &Content) -> Result<Members, OutOfMemory>
    ensures { IfOk result (λ all. members_view all.entries ≡ spec.board_members (board_shown content.now.state)) }
{
    content.holds();
    let members = with_moment(alloc, Map::new(alloc), "at", content.moment())?;
    let values = release_values(alloc, content)?;
    with_value(alloc, members, "releases", Value::Array(values))
}

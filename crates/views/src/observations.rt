ghost use Rattle.std.specs.Prelude.{◌≡◌, map, All, IfOk};
ghost use Rattle.desk_time.specs.Limits.{IsMoment};
ghost use Rattle.facts.specs.Reading.{ReadHasMoments, TafHasMoments};
ghost use Rattle.serde_json.specs.View.{members_view, view};
ghost use Rattle.views.specs.Objects as spec;
ghost use Rattle.weather_reports.specs.Parts.{HasMoments as PartHasMoments};

use crate::values::{optional_count, with_flag, with_visibility};
use asks::{Members, with_count, with_moment, with_name, with_text, with_value};
use desk_io::{OutOfMemory, Text};
use facts::Read;
use serde_json::{Map, Value};
use std::alloc::Global;
use weather_reports::{Metar, Part, PartKind, Taf, TafState};

fn metar_front(alloc: Global, id: u64, metar: &Metar) -> Result<Members, OutOfMemory>
    requires { IsMoment metar.now.observed }
    ensures { IfOk result (λ all. members_view all.entries ≡ spec.metar_front id metar.now) }
{
    let ceiling = optional_count(metar.cond.ceiling);
    let members = with_value(alloc, Map::new(alloc), "ceiling_ft", ceiling)?;
    let members = with_flag(alloc, members, "nil", metar.nil)?;
    let members = with_moment(alloc, members, "observed", metar.observed)?;
    with_count(alloc, members, "report", id)
}

fn metar_members(alloc: Global, id: u64, text: &Text, metar: &Metar) -> Result<Members, OutOfMemory>
    requires { IsMoment metar.now.observed }
    ensures { IfOk result (λ all. members_view all.entries ≡ spec.metar_members id text.now metar.now) }
{
    let members = metar_front(alloc, id, metar)?;
    let members = with_flag(alloc, members, "special", metar.special)?;
    let members = with_text(alloc, members, "text", text.bytes())?;
    let members = with_count(alloc, members, "unread", metar.unread as u64)?;
    with_visibility(alloc, members, metar.cond.vis)
}

fn part_kind_name(kind: PartKind) -> &'static str
    ensures { result.now ≡ spec.part_kind_name kind }
{
    match kind {
        PartKind::Base => "base",
        PartKind::From => "from",
        PartKind::Becoming => "becoming",
        PartKind::Tempo => "tempo",
        PartKind::Prob => "prob",
    }
}

fn part_members(alloc: Global, part: &Part) -> Result<Members, OutOfMemory>
    requires { PartHasMoments part.now }
    ensures { IfOk result (λ all. members_view all.entries ≡ spec.part_members part.now) }
{
    let ceiling = optional_count(part.cond.ceiling);
    let members = with_value(alloc, Map::new(alloc), "ceiling_ft", ceiling)?;
    let members = with_moment(alloc, members, "from", part.from)?;
    let members = with_name(alloc, members, "kind", part_kind_name(part.kind))?;
    let members = with_moment(alloc, members, "to", part.to)?;
    with_visibility(alloc, members, part.cond.vis)
}

#[tactic(auto, unfolding(crate::specs::Objects::part_data))]
fn part_value(alloc: Global, part: &Part) -> Result<Value, OutOfMemory>
    requires { PartHasMoments part.now }
    ensures { IfOk result (λ v. view v ≡ spec.part_data part.now) }
{
    Ok(Value::Object(part_members(alloc, part)?))
}

fn part_values(alloc: Global, parts: &[Part]) -> Result<Vec<Value>, OutOfMemory>
    requires { All PartHasMoments parts.now }
    ensures { IfOk result (λ values. map view values.items ≡ map spec.part_data parts.now) }
{
    let mut values = Vec::new(alloc);
    for part in parts {
        values.push(part_value(alloc, part)?)?;
    }
    Ok(values)
}

fn state_name(state: TafState) -> &'static str
    ensures { result.now ≡ spec.state_name state }
{
    match state {
        TafState::Normal => "normal",
        TafState::Nil => "nil",
        TafState::Cancelled => "cancelled",
    }
}

fn taf_front(alloc: Global, taf: &Taf) -> Result<Members, OutOfMemory>
    requires { TafHasMoments taf.now }
    ensures { IfOk result (λ all. members_view all.entries ≡ spec.taf_front taf.now) }
{
    let members = with_moment(alloc, Map::new(alloc), "from", taf.from)?;
    let members = with_moment(alloc, members, "issued", taf.issued)?;
    let parts = part_values(alloc, taf.parts.as_slice())?;
    with_value(alloc, members, "parts", Value::Array(parts))
}

fn taf_members(alloc: Global, id: u64, text: &Text, taf: &Taf) -> Result<Members, OutOfMemory>
    requires { TafHasMoments taf.now }
    ensures { IfOk result (λ all. members_view all.entries ≡ spec.taf_members id text.now taf.now) }
{
    let members = taf_front(alloc, taf)?;
    let members = with_count(alloc, members, "report", id)?;
    let members = with_name(alloc, members, "state", state_name(taf.state))?;
    let members = with_text(alloc, members, "text", text.bytes())?;
    with_moment(alloc, members, "to", taf.to)
}

/// The members of a report with this number and canonical text.
pub(crate) fn read_members(
    alloc: Global,
    id: u64,
    text: &Text,
    read: &Read,
) -> Result<Members, OutOfMemory>
    requires { ReadHasMoments read.now }
    ensures { IfOk result (λ all. members_view all.entries ≡ spec.read_members id text.now read.now) }
{
    match read {
        Read::Metar(metar) => metar_members(alloc, id, text, metar),
        Read::Taf(taf) => taf_members(alloc, id, text, taf),
    }
}

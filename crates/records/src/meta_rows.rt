ghost use Rattle.std.specs.Prelude.{◌≡◌, IfOk};
ghost use Rattle.std.specs.Ordering.{nat_cmp, is_lt};
ghost use Rattle.std.specs.Cmp.Lexicographic.{slice_cmp};
ghost use Rattle.serde_json.specs.View.{view, members_view};
ghost use Rattle.records.specs.Reading as spec;
ghost use Rattle.records.specs.Valid as valid;

use crate::names::is_person;
use crate::record::Meta;
use asks::{Floor, Floors, Members, has_members, id_at, moment_at};
use desk_io::{OutOfMemory, Text};
use desk_state::Counters;
use release_json::Version;
use serde_json::Value;
use std::alloc::Global;

fn request_in(value: &Value) -> Option<u64>
    ensures { result ≡ spec.request_in (view value.now) }
{
    match value.as_u64() {
        Some(number) if number <= 1_000_000_000_000 => Some(number),
        _ => None,
    }
}

fn floor_of(alloc: Global, key: &str, value: &Value) -> Result<Option<Floor>, OutOfMemory>
    ensures { IfOk result (λ floor. floor ≡ spec.floor_of key.now (view value.now)) }
{
    if !is_person(key.as_bytes()) {
        return Ok(None);
    }
    match request_in(value) {
        Some(number) => Ok(Some(Floor {
            actor: Text::of(alloc, key.as_bytes())?,
            number,
        })),
        None => Ok(None),
    }
}

fn floors_in(alloc: Global, members: &Members) -> Result<Option<Floors>, OutOfMemory>
    ensures { IfOk result (λ floors. floors ≡ spec.floors_in (members_view members.now.entries)) }
{
    let mut floors = Floors::new(alloc);
    for (key, value) in members {
        match floor_of(alloc, key.as_str(), value)? {
            Some(floor) => floors.push(floor)?,
            None => return Ok(None),
        }
    }
    Ok(Some(floors))
}

fn is_below(one: &[u8], two: &[u8]) -> bool
    ensures { result ≡ is_lt (slice_cmp nat_cmp one.now two.now) }
{
    one.cmp(two).is_lt()
}

fn are_rising(floors: &[Floor]) -> bool
    ensures { result ≡ valid.are_rising floors.now }
{
    let mut left = floors;
    while let [first, after @ ..] = left {
        if let [second, ..] = after {
            if !is_below(first.actor.bytes(), second.actor.bytes()) {
                return false;
            }
        }
        left = after;
    }
    true
}

fn floors_of(alloc: Global, value: &Value) -> Result<Option<Floors>, OutOfMemory>
    ensures { IfOk result (λ floors. floors ≡ spec.floors_of (view value.now)) }
{
    let Some(members) = value.as_object() else {
        return Ok(None);
    };
    match floors_in(alloc, members)? {
        Some(floors) if are_rising(floors.as_slice()) => Ok(Some(floors)),
        _ => Ok(None),
    }
}

#[tactic(auto, unfolding(crate::specs::Reading::floors_at))]
fn floors_at(alloc: Global, value: &Value) -> Result<Option<Floors>, OutOfMemory>
    ensures { IfOk result (λ floors. floors ≡ spec.floors_at (view value.now)) }
{
    match value.get("floors") {
        Some(found) => floors_of(alloc, found),
        None => Ok(None),
    }
}

#[tactic(auto, unfolding(crate::specs::Reading::counters_at))]
fn counters_at(value: &Value) -> Option<Counters>
    ensures { result ≡ spec.counters_at (view value.now) }
{
    let events = id_at("events", value)?;
    let next_report = id_at("next_report", value)?;
    let next_deferral = id_at("next_deferral", value)?;
    let next_release = id_at("next_release", value)?;
    let next_kept = id_at("next_kept", value)?;
    Some(Counters {
        events,
        next_report,
        next_deferral,
        next_release,
        next_kept,
    })
}

fn is_meta(version: Version, value: &Value) -> bool
    ensures { result ≡ spec.is_meta version (view value.now) }
{
    match id_at("version", value) {
        Some(number) => has_members(8, value) && number == version.number(),
        None => false,
    }
}

/// Reads the moment, the counters and the floors from the JSON of the meta row, in this version of rows. The key must
/// be 0.
pub(crate) fn meta_in(
    alloc: Global,
    version: Version,
    key: u64,
    value: &Value,
) -> Result<Option<Meta>, OutOfMemory>
    ensures { IfOk result (λ meta. meta ≡ spec.meta_in version key (view value.now)) }
{
    if key != 0 {
        return Ok(None);
    }
    let Some(moment) = moment_at("now", value) else {
        return Ok(None);
    };
    let Some(counters) = counters_at(value) else {
        return Ok(None);
    };
    match floors_at(alloc, value)? {
        Some(floors) if is_meta(version, value) => Ok(Some(Meta {
            moment,
            counters,
            floors,
        })),
        _ => Ok(None),
    }
}

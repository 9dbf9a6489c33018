ghost use Rattle.std.specs.Prelude.{◌≡◌, ◌≤◌, length, OnOk};
ghost use Rattle.plan.specs.Check.{IsPlan};
ghost use Rattle.plan.specs.Texts.{HasMoment};
ghost use Rattle.rules.specs.Due as due;
ghost use Rattle.release_index.specs.Bounds.{ReleaseInBounds};
ghost use Rattle.release_index.specs.Entries as spec;

use crate::keys::Key;
use desk_io::OutOfMemory;
use desk_time::Minute;
use facts::fingerprint;
use ops_tables::Settings;
use plan::{
    Alternate, Leg, Phase, Plan, Release, Standing, TakeoffAlternate, is_active, standing_of,
};
use rules::due_minutes;
use std::alloc::Global;

fn push_text(keys: &mut Vec<Key>, id: u64, text: &[u8]) -> Result<(), OutOfMemory>
    ensures { OnOk result (keys.new.items ≡ spec.text_onto id keys.old.items text.now) }
{
    keys.push((fingerprint(text), id))?;
    Ok(())
}

fn push_takeoff(
    keys: &mut Vec<Key>,
    id: u64,
    it: Option<TakeoffAlternate>,
) -> Result<(), OutOfMemory>
    ensures { OnOk result (keys.new.items ≡ spec.takeoff_onto id keys.old.items it) }
{
    match it {
        None => Ok(()),
        Some(it) => push_text(keys, id, &it.station.bytes()),
    }
}

fn push_alternates(keys: &mut Vec<Key>, id: u64, listed: &[Alternate]) -> Result<(), OutOfMemory>
    ensures { OnOk result (keys.new.items ≡ spec.alternates_onto id keys.old.items listed.now) }
{
    for it in listed {
        push_text(keys, id, &it.station.bytes())?;
    }
    Ok(())
}

fn push_leg(keys: &mut Vec<Key>, id: u64, leg: &Leg) -> Result<(), OutOfMemory>
    ensures { OnOk result (keys.new.items ≡ spec.leg_onto id keys.old.items leg.now) }
{
    push_text(keys, id, &leg.from.bytes())?;
    push_text(keys, id, &leg.to.bytes())?;
    push_takeoff(keys, id, leg.takeoff_alternate)?;
    push_alternates(keys, id, leg.alternates.as_slice())
}

fn push_standing(
    keys: &mut Vec<Key>,
    standing: Standing,
    id: u64,
    leg: &Leg,
) -> Result<(), OutOfMemory>
    ensures { OnOk result (keys.new.items ≡ spec.standing_onto standing id keys.old.items leg.now) }
{
    match standing {
        Standing::Ahead | Standing::InFlight => push_leg(keys, id, leg),
        Standing::Flown => Ok(()),
    }
}

fn push_legs(keys: &mut Vec<Key>, id: u64, phase: Phase, legs: &[Leg]) -> Result<(), OutOfMemory>
    requires { length legs.now ≤ 1000 }
    ensures { OnOk result (keys.new.items ≡ spec.legs_onto id phase 1 keys.old.items legs.now) }
{
    for (i, leg) in legs.iter().enumerate() {
        push_standing(keys, standing_of(phase, i as u32 + 1), id, leg)?;
    }
    Ok(())
}

/// Appends the keys of the stations that the release's active plan names in legs not yet flown. A release that isn't
/// active has no keys.
pub(crate) fn push_stations(keys: &mut Vec<Key>, release: &Release) -> Result<(), OutOfMemory>
    requires { ReleaseInBounds release.now }
    ensures { OnOk result (keys.new.items ≡ spec.stations_onto keys.old.items release.now) }
{
    match &release.active {
        None => Ok(()),
        Some(active) => {
            if is_active(release.phase) {
                push_legs(keys, release.id, release.phase, active.plan.legs.as_slice())
            } else {
                Ok(())
            }
        }
    }
}

fn push_minutes(keys: &mut Vec<Key>, id: u64, minutes: &[Minute]) -> Result<(), OutOfMemory>
    ensures { OnOk result (keys.new.items ≡ spec.minutes_onto id keys.old.items minutes.now) }
{
    for minute in minutes {
        keys.push((*minute, id))?;
    }
    Ok(())
}

// Appends the keys of the minutes at which a time rule begins to fail for a plan.
fn push_plan(
    alloc: Global,
    settings: Settings,
    keys: &mut Vec<Key>,
    id: u64,
    phase: Phase,
    plan: &Plan,
) -> Result<(), OutOfMemory>
    requires plan { IsPlan plan.now }
    requires phase { HasMoment phase }
    ensures { OnOk result (keys.new.items
        ≡ spec.minutes_onto id keys.old.items (due.due_minutes plan.now phase settings)) }
{
    let minutes = due_minutes(alloc, plan, phase, settings)?;
    push_minutes(keys, id, minutes.as_slice())
}

/// Appends the keys of the minutes at which a time rule begins to fail for the release's active plan. A release that
/// isn't active has no keys.
pub(crate) fn push_dues(
    alloc: Global,
    settings: Settings,
    keys: &mut Vec<Key>,
    release: &Release,
) -> Result<(), OutOfMemory>
    requires { ReleaseInBounds release.now }
    ensures { OnOk result (keys.new.items ≡ spec.dues_onto settings keys.old.items release.now) }
{
    match &release.active {
        None => Ok(()),
        Some(active) => {
            if is_active(release.phase) {
                push_plan(
                    alloc,
                    settings,
                    keys,
                    release.id,
                    release.phase,
                    &active.plan,
                )
            } else {
                Ok(())
            }
        }
    }
}

/// Appends the key of the aircraft of the release's active plan. A release that isn't active has no key.
pub(crate) fn push_tail(keys: &mut Vec<Key>, release: &Release) -> Result<(), OutOfMemory>
    ensures { OnOk result (keys.new.items ≡ spec.tail_onto keys.old.items release.now) }
{
    match &release.active {
        None => Ok(()),
        Some(active) => {
            if is_active(release.phase) {
                push_text(keys, release.id, active.plan.tail.bytes())
            } else {
                Ok(())
            }
        }
    }
}

ghost use Rattle.std.specs.Prelude.{◌≡◌, ◌≤◌, length, IfOk, OnOk};
ghost use Rattle.plan.specs.Check.{IsPlan};
ghost use Rattle.release_text.specs.Concerned as spec;
ghost use Rattle.release_text.specs.Concerned.{AreOnceEach, stations_from};

use desk_io::{OutOfMemory, Station};
use plan::{Alternate, Leg, Phase, Plan, Standing, TakeoffAlternate, standing_of};
use std::alloc::Global;

fn is_among(stations: &[Station], station: Station) -> bool
    ensures { result ≡ spec.is_among stations.now station }
{
    stations
        .iter()
        .any(|other| other.bytes() == station.bytes())
}

// Adds a station at the end, unless it is already in the list.
fn add(found: &mut Vec<Station>, station: Station) -> Result<(), OutOfMemory>
    ensures { OnOk result (found.new.items ≡ spec.with_station found.old.items station) }
{
    if !is_among(found, station) {
        found.push(station)?;
    }
    Ok(())
}

fn add_takeoff(
    found: &mut Vec<Station>,
    alternate: Option<TakeoffAlternate>,
) -> Result<(), OutOfMemory>
    ensures { OnOk result (found.new.items ≡ spec.with_stations found.old.items (spec.takeoff_station alternate)) }
{
    match alternate {
        None => Ok(()),
        Some(alternate) => add(found, alternate.station),
    }
}

fn add_departure(found: &mut Vec<Station>, leg: &Leg) -> Result<(), OutOfMemory>
    ensures { OnOk result (found.new.items ≡ spec.with_stations found.old.items (spec.departure_stations leg.now)) }
{
    add(found, leg.from)?;
    add_takeoff(found, leg.takeoff_alternate)
}

fn add_alternates(found: &mut Vec<Station>, alternates: &[Alternate]) -> Result<(), OutOfMemory>
    ensures { OnOk result (found.new.items ≡ spec.with_stations found.old.items
        (spec.alternate_stations alternates.now)) }
{
    for alternate in alternates {
        add(found, alternate.station)?;
    }
    Ok(())
}

fn add_arrival(found: &mut Vec<Station>, leg: &Leg) -> Result<(), OutOfMemory>
    ensures { OnOk result (found.new.items ≡ spec.with_stations found.old.items (spec.arrival_stations leg.now)) }
{
    add(found, leg.to)?;
    add_alternates(found, leg.alternates.as_slice())
}

#[tactic(auto, using(crate::proofs::StationLaws::with_more))]
fn add_leg(found: &mut Vec<Station>, standing: Standing, leg: &Leg) -> Result<(), OutOfMemory>
    ensures { OnOk result (found.new.items ≡ spec.with_stations found.old.items (spec.leg_stations standing leg.now)) }
{
    match standing {
        Standing::Ahead => {
            add_departure(found, leg)?;
            add_arrival(found, leg)
        }
        Standing::InFlight => add_arrival(found, leg),
        Standing::Flown => Ok(()),
    }
}

fn add_legs(found: &mut Vec<Station>, phase: Phase, legs: &[Leg]) -> Result<(), OutOfMemory>
    requires { length legs.now ≤ 1000 }
    ensures { OnOk result (found.new.items ≡ spec.with_stations found.old.items (spec.stations_from phase 1 legs.now)) }
{
    for (i, leg) in legs.iter().enumerate() {
        add_leg(found, standing_of(phase, i as u32 + 1), leg)?;
    }
    Ok(())
}

#[tactic(auto, unfolding(crate::specs::Concerned::concerned))]
fn concerned_in_turn(alloc: Global, plan: &Plan, phase: Phase) -> Result<Vec<Station>, OutOfMemory>
    requires { IsPlan plan.now }
    ensures { IfOk result (λ stations. stations.items ≡ spec.concerned plan.now phase) }
{
    let mut found = Vec::new(alloc);
    add_legs(&mut found, phase, plan.legs.as_slice())?;
    Ok(found)
}

/// Returns the stations that a release concerns, without duplicates, in the order of their first place. A leg that
/// hasn't departed concerns its departure and takeoff alternate, then its destination and alternates. The leg in
/// flight concerns its destination and alternates. A flown leg concerns none.
pub fn concerned(alloc: Global, plan: &Plan, phase: Phase) -> Result<Vec<Station>, OutOfMemory>
    requires { IsPlan plan.now }
    ensures value { IfOk result (λ stations. stations.items ≡ spec.concerned plan.now phase) }
    ensures once { IfOk result (λ stations. AreOnceEach (stations_from phase 1 plan.now.legs) stations.items) }
{
    concerned_in_turn(alloc, plan, phase)
}

ghost use Rattle.std.specs.Prelude.{◌≡◌, map, codes, IfOk};
ghost use Rattle.std.specs.List.{AllByRecursion};
ghost use Rattle.serde_json.specs.Data.{put};
ghost use Rattle.serde_json.specs.View.{view, members_view};
ghost use Rattle.plan.specs.Check.{HasMoments};
ghost use Rattle.asks.specs.Canonical as spec;

use crate::members::{Members, with_count, with_moment, with_text, with_value};
use desk_io::OutOfMemory;
use plan::{Alternate, Leg, TakeoffAlternate};
use serde_json::{Map, Value};
use std::alloc::Global;

fn alternate_value(alloc: Global, alternate: &Alternate) -> Result<Value, OutOfMemory>
    ensures { IfOk result (λ v. view v ≡ spec.alternate_data alternate.now) }
{
    let members = with_count(alloc, Map::new(alloc), "fuel", alternate.fuel as u64)?;
    let members = with_count(alloc, members, "minutes", alternate.minutes as u64)?;
    let members = with_text(alloc, members, "station", &alternate.station.bytes())?;
    Ok(Value::Object(members))
}

fn alternate_values(alloc: Global, alternates: &[Alternate]) -> Result<Vec<Value>, OutOfMemory>
    ensures { IfOk result (λ v. map view v.items ≡ map spec.alternate_data alternates.now) }
{
    let mut values = Vec::new(alloc);
    for alternate in alternates {
        values.push(alternate_value(alloc, alternate)?)?;
    }
    Ok(values)
}

fn alternates_value(alloc: Global, alternates: &[Alternate]) -> Result<Value, OutOfMemory>
    ensures { IfOk result (λ v. view v ≡ spec.list_data spec.alternate_data alternates.now) }
{
    Ok(Value::Array(alternate_values(alloc, alternates)?))
}

fn takeoff_value(alloc: Global, takeoff: &TakeoffAlternate) -> Result<Value, OutOfMemory>
    ensures { IfOk result (λ v. view v ≡ spec.takeoff_data takeoff.now) }
{
    let members = with_count(alloc, Map::new(alloc), "minutes", takeoff.minutes as u64)?;
    let members = with_text(alloc, members, "station", &takeoff.station.bytes())?;
    Ok(Value::Object(members))
}

fn takeoff_or_null(alloc: Global, takeoff: &Option<TakeoffAlternate>) -> Result<Value, OutOfMemory>
    ensures { IfOk result (λ v. view v ≡ spec.option_data spec.takeoff_data takeoff.now) }
{
    match takeoff {
        Some(takeoff) => takeoff_value(alloc, takeoff),
        None => Ok(Value::Null),
    }
}

// Adds the airports of a leg.
fn with_airports(alloc: Global, members: Members, leg: &Leg) -> Result<Members, OutOfMemory>
    ensures { IfOk result (λ all. members_view all.entries ≡ put (codes "to") (spec.text_data leg.now.to)
        (put (codes "from") (spec.text_data leg.now.from) (members_view members.entries))) }
{
    let members = with_text(alloc, members, "from", &leg.from.bytes())?;
    with_text(alloc, members, "to", &leg.to.bytes())
}

// Adds the times of a leg.
fn with_times(alloc: Global, members: Members, leg: &Leg) -> Result<Members, OutOfMemory>
    requires { HasMoments leg.now }
    ensures { IfOk result (λ all. members_view all.entries ≡ put (codes "minutes") (spec.count leg.now.minutes)
        (put (codes "etd") (spec.moment_data leg.now.etd) (put (codes "eta") (spec.moment_data leg.now.eta)
        (members_view members.entries)))) }
{
    let members = with_moment(alloc, members, "eta", leg.eta)?;
    let members = with_moment(alloc, members, "etd", leg.etd)?;
    with_count(alloc, members, "minutes", leg.minutes as u64)
}

// Adds the fuel of a leg.
fn with_fuel(alloc: Global, members: Members, leg: &Leg) -> Result<Members, OutOfMemory>
    ensures { IfOk result (λ all. members_view all.entries ≡ put (codes "onboard") (spec.count leg.now.onboard)
        (put (codes "minimum") (spec.count leg.now.minimum) (put (codes "extra") (spec.count leg.now.extra)
        (put (codes "burn") (spec.count leg.now.burn) (members_view members.entries))))) }
{
    let members = with_count(alloc, members, "burn", leg.burn as u64)?;
    let members = with_count(alloc, members, "extra", leg.extra as u64)?;
    let members = with_count(alloc, members, "minimum", leg.minimum as u64)?;
    with_count(alloc, members, "onboard", leg.onboard as u64)
}

// Adds the alternates of a leg.
fn with_alternates(alloc: Global, members: Members, leg: &Leg) -> Result<Members, OutOfMemory>
    ensures { IfOk result (λ all. members_view all.entries ≡ put (codes "takeoff_alternate")
        (spec.option_data spec.takeoff_data leg.now.takeoff_alternate)
        (put (codes "alternates") (spec.list_data spec.alternate_data leg.now.alternates)
        (members_view members.entries))) }
{
    let alternates = alternates_value(alloc, leg.alternates.as_slice())?;
    let members = with_value(alloc, members, "alternates", alternates)?;
    let takeoff = takeoff_or_null(alloc, &leg.takeoff_alternate)?;
    with_value(alloc, members, "takeoff_alternate", takeoff)
}

fn leg_value(alloc: Global, leg: &Leg) -> Result<Value, OutOfMemory>
    requires { HasMoments leg.now }
    ensures { IfOk result (λ v. view v ≡ spec.leg_data leg.now) }
{
    let members = with_airports(alloc, Map::new(alloc), leg)?;
    let members = with_times(alloc, members, leg)?;
    let members = with_fuel(alloc, members, leg)?;
    Ok(Value::Object(with_alternates(alloc, members, leg)?))
}

fn leg_values(alloc: Global, legs: &[Leg]) -> Result<Vec<Value>, OutOfMemory>
    requires { AllByRecursion HasMoments legs.now }
    ensures { IfOk result (λ v. map view v.items ≡ map spec.leg_data legs.now) }
{
    let mut values = Vec::new(alloc);
    for leg in legs {
        values.push(leg_value(alloc, leg)?)?;
    }
    Ok(values)
}

// Returns the JSON list of a plan's legs.
pub(crate) fn legs_value(alloc: Global, legs: &[Leg]) -> Result<Value, OutOfMemory>
    requires { AllByRecursion HasMoments legs.now }
    ensures { IfOk result (λ v. view v ≡ spec.list_data spec.leg_data legs.now) }
{
    Ok(Value::Array(leg_values(alloc, legs)?))
}

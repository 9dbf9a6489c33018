ghost use Rattle.std.specs.Prelude.{◌≡◌, ◌≤◌, length, IfOk, IfSome};
ghost use Rattle.std.specs.List.{AllByRecursion};
ghost use Rattle.desk_time.specs.Limits.{IsMoment};
ghost use Rattle.plan.specs.Check.{HasMoments};
ghost use Rattle.asks.specs.Fields.{each_read};
ghost use Rattle.asks.specs.Legs as spec;

use crate::fields::{amount_at, has_members, list_at, moment_at, station_at};
use compact_json::Json;
use desk_io::{OutOfMemory, Station};
use desk_time::Minute;
use plan::{Alternate, Alternates, Leg, Legs, TakeoffAlternate};
use std::alloc::Global;

// The airports of a leg.
#[derive(Clone, Copy)]
struct Route {
    from: Station,
    to: Station,
}

// The times of a leg.
#[derive(Clone, Copy)]
struct Times {
    etd: Minute,
    eta: Minute,
    minutes: u32,
}

// The fuel of a leg, in pounds.
#[derive(Clone, Copy)]
struct Fuel {
    burn: u32,
    extra: u32,
    minimum: u32,
    onboard: u32,
}

fn alternate_of<'a, V: Json<'a>>(value: V) -> Option<Alternate>
    ensures { result ≡ spec.alternate_of (V.told value) }
{
    let fuel = amount_at("fuel", value)?;
    let minutes = amount_at("minutes", value)?;
    let station = station_at("station", value)?;
    if has_members(3, value) {
        Some(Alternate {
            station,
            minutes,
            fuel,
        })
    } else {
        None
    }
}

fn alternates_of<'a, V: Json<'a>>(
    alloc: Global,
    items: V::Left,
) -> Result<Option<Alternates>, OutOfMemory>
    ensures { IfOk result (λ alternates. alternates ≡ each_read spec.alternate_of (V.left items)) }
{
    let mut left = items;
    let mut alternates = Alternates::new(alloc);
    'items: while let Some(item) = V::next(&mut left) {
        match alternate_of(item) {
            Some(alternate) => alternates.push(alternate)?,
            None => return Ok(None),
        }
    }
    Ok(Some(alternates))
}

fn alternates_at<'a, V: Json<'a>>(
    alloc: Global,
    value: V,
) -> Result<Option<Alternates>, OutOfMemory>
    ensures { IfOk result (λ alternates. alternates ≡ spec.alternates_at (V.told value)) }
{
    match list_at("alternates", value) {
        Some(items) => alternates_of::<V>(alloc, items),
        None => Ok(None),
    }
}

fn takeoff_of<'a, V: Json<'a>>(value: V) -> Option<TakeoffAlternate>
    ensures { result ≡ spec.takeoff_of (V.told value) }
{
    let minutes = amount_at("minutes", value)?;
    let station = station_at("station", value)?;
    if has_members(2, value) {
        Some(TakeoffAlternate { station, minutes })
    } else {
        None
    }
}

fn takeoff_in<'a, V: Json<'a>>(value: V) -> Option<Option<TakeoffAlternate>>
    ensures { result ≡ spec.takeoff_in (V.told value) }
{
    if value.is_null() {
        Some(None)
    } else {
        Some(Some(takeoff_of(value)?))
    }
}

fn takeoff_at<'a, V: Json<'a>>(value: V) -> Option<Option<TakeoffAlternate>>
    ensures { result ≡ spec.takeoff_at (V.told value) }
{
    match value.get("takeoff_alternate") {
        Some(found) => takeoff_in(found),
        None => None,
    }
}

fn route_of<'a, V: Json<'a>>(value: V) -> Option<Route>
    ensures { result ≡ spec.route_of (V.told value) }
{
    let from = station_at("from", value)?;
    let to = station_at("to", value)?;
    Some(Route { from, to })
}

fn times_of<'a, V: Json<'a>>(value: V) -> Option<Times>
    ensures value { result ≡ spec.times_of (V.told value) }
    ensures moments { IfSome result (λ times. IsMoment times.etd × IsMoment times.eta) }
{
    let etd = moment_at("etd", value)?;
    let eta = moment_at("eta", value)?;
    let minutes = amount_at("minutes", value)?;
    Some(Times { etd, eta, minutes })
}

fn fuel_of<'a, V: Json<'a>>(value: V) -> Option<Fuel>
    ensures { result ≡ spec.fuel_of (V.told value) }
{
    let burn = amount_at("burn", value)?;
    let extra = amount_at("extra", value)?;
    let minimum = amount_at("minimum", value)?;
    let onboard = amount_at("onboard", value)?;
    Some(Fuel {
        burn,
        extra,
        minimum,
        onboard,
    })
}

fn leg_with(
    route: Route,
    times: Times,
    fuel: Fuel,
    takeoff_alternate: Option<TakeoffAlternate>,
    alternates: Alternates,
) -> Leg
    ensures { result ≡ spec.leg_with route times fuel takeoff_alternate alternates }
{
    Leg {
        from: route.from,
        to: route.to,
        etd: times.etd,
        eta: times.eta,
        minutes: times.minutes,
        burn: fuel.burn,
        extra: fuel.extra,
        minimum: fuel.minimum,
        onboard: fuel.onboard,
        takeoff_alternate,
        alternates,
    }
}

fn leg_of_parts<'a, V: Json<'a>>(
    alloc: Global,
    value: V,
    route: Route,
    times: Times,
    fuel: Fuel,
) -> Result<Option<Leg>, OutOfMemory>
    requires { IsMoment times.etd × IsMoment times.eta }
    ensures value { IfOk result (λ leg. leg ≡ spec.leg_of_parts (V.told value) route times fuel) }
    ensures moments { IfOk result (λ leg. IfSome leg HasMoments) }
{
    let Some(takeoff) = takeoff_at(value) else {
        return Ok(None);
    };
    match alternates_at(alloc, value)? {
        Some(alternates) if has_members(11, value) => {
            Ok(Some(leg_with(route, times, fuel, takeoff, alternates)))
        }
        _ => Ok(None),
    }
}

fn leg_of<'a, V: Json<'a>>(alloc: Global, value: V) -> Result<Option<Leg>, OutOfMemory>
    ensures value { IfOk result (λ leg. leg ≡ spec.leg_of (V.told value)) }
    ensures moments { IfOk result (λ leg. IfSome leg HasMoments) }
{
    let Some(route) = route_of(value) else {
        return Ok(None);
    };
    let Some(times) = times_of(value) else {
        return Ok(None);
    };
    match fuel_of(value) {
        Some(fuel) => leg_of_parts(alloc, value, route, times, fuel),
        None => Ok(None),
    }
}

fn legs_in<'a, V: Json<'a>>(alloc: Global, items: V::Left) -> Result<Option<Legs>, OutOfMemory>
    ensures value { IfOk result (λ legs. legs ≡ each_read spec.leg_of (V.left items)) }
    ensures moments { IfOk result (λ legs. IfSome legs (AllByRecursion HasMoments)) }
{
    let mut left = items;
    let mut legs = Legs::new(alloc);
    'items: while let Some(item) = V::next(&mut left) {
        match leg_of(alloc, item)? {
            Some(leg) => legs.push(leg)?,
            None => return Ok(None),
        }
    }
    Ok(Some(legs))
}

fn legs_of<'a, V: Json<'a>>(alloc: Global, items: V::Left) -> Result<Option<Legs>, OutOfMemory>
    ensures value { IfOk result (λ legs. legs ≡ spec.legs_of (V.left items)) }
    ensures few { IfOk result (λ legs. IfSome legs (λ all. length all ≤ 1000)) }
    ensures moments { IfOk result (λ legs. IfSome legs (AllByRecursion HasMoments)) }
{
    if V::are_at_most(items, 1000) {
        legs_in::<V>(alloc, items)
    } else {
        Ok(None)
    }
}

/// Reads the legs of a plan, at most 1,000.
pub fn legs_at<'a, V: Json<'a>>(alloc: Global, value: V) -> Result<Option<Legs>, OutOfMemory>
    ensures value { IfOk result (λ legs. legs ≡ spec.legs_at (V.told value)) }
    ensures few { IfOk result (λ legs. IfSome legs (λ all. length all ≤ 1000)) }
    ensures moments { IfOk result (λ legs. IfSome legs (AllByRecursion HasMoments)) }
{
    match list_at("legs", value) {
        Some(items) => legs_of::<V>(alloc, items),
        None => Ok(None),
    }
}

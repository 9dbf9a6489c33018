ghost use Rattle.std.specs.Prelude.{◌≡◌, ◌≤◌, ◌↔◌, length, true, false};
ghost use Rattle.std.specs.Str.{bytes_eq};
ghost use Rattle.plan.specs.Check.{IsPlan};
ghost use Rattle.rules.specs.Touches as spec;
ghost use Rattle.rules.specs.Touches.{
  IgnoresClearing,
  IgnoresDeferral,
  IgnoresReport,
  IgnoresStation,
  IgnoresTail,
  Names,
  ReadsNamed,
  ReadsOpen,
};

use desk_io::Station;
use plan::{Alternate, Leg, Phase, Plan, Standing, TakeoffAlternate, standing_of};

fn is_same(a: Station, b: Station) -> bool
    ensures { result ≡ bytes_eq a b }
{
    a.bytes() == b.bytes()
}

fn is_takeoff_alternate(station: Station, it: Option<TakeoffAlternate>) -> bool
    ensures { result ≡ spec.is_takeoff_alternate station it }
{
    match it {
        None => false,
        Some(it) => is_same(it.station, station),
    }
}

fn lists_station(station: Station, listed: &[Alternate]) -> bool
    ensures { result ≡ spec.lists_station station listed.now }
{
    listed.iter().any(|it| is_same(it.station, station))
}

fn leg_names(station: Station, leg: &Leg) -> bool
    ensures { result ≡ spec.leg_names station leg.now }
{
    is_same(leg.from, station)
        || is_same(leg.to, station)
        || is_takeoff_alternate(station, leg.takeoff_alternate)
        || lists_station(station, leg.alternates.as_slice())
}

fn names_at(standing: Standing, station: Station, leg: &Leg) -> bool
    ensures { result ≡ spec.names_at standing station leg.now }
{
    match standing {
        Standing::Ahead | Standing::InFlight => leg_names(station, leg),
        Standing::Flown => false,
    }
}

fn legs_name(phase: Phase, station: Station, legs: &[Leg]) -> bool
    requires { length legs.now ≤ 1000 }
    ensures { result ≡ spec.legs_name phase station 1 legs.now }
{
    for (i, leg) in legs.iter().enumerate() {
        if names_at(standing_of(phase, i as u32 + 1), station, leg) {
            return true;
        }
    }
    false
}

#[tactic(auto, unfolding(crate::specs::Touches::names_station))]
fn is_named(plan: &Plan, phase: Phase, station: Station) -> bool
    requires { IsPlan plan.now }
    ensures { result ≡ spec.names_station plan.now phase station }
{
    legs_name(phase, station, plan.legs.as_slice())
}

/// Returns true if a leg that isn't flown names the station: as departure, destination, takeoff alternate or
/// alternate. The findings on the plan depend only on the latest reports of the stations that it names. Reports of
/// other stations don't change them. It allocates nothing.
pub fn names_station(plan: &Plan, phase: Phase, station: Station) -> bool
    requires { IsPlan plan.now }
    ensures value { result ≡ spec.names_station plan.now phase station }
    ensures named { (result ≡ true) ↔ Names plan.now phase station }
    ensures reads { ReadsNamed plan.now phase }
    ensures frame { result ≡ false → IgnoresStation plan.now phase station }
    ensures admitted { result ≡ false → IgnoresReport plan.now phase station }
{
    is_named(plan, phase, station)
}

fn has_tail(plan: &Plan, tail: &[u8]) -> bool
    ensures { result ≡ spec.is_of_tail plan.now tail.now }
{
    plan.tail.bytes() == tail
}

/// Returns true if the plan's aircraft has this registration. The findings on the plan depend only on the open
/// deferrals of its aircraft. Deferring and clearing on other aircraft don't change them. It allocates nothing.
pub fn is_of_tail(plan: &Plan, tail: &[u8]) -> bool
    ensures value { result ≡ spec.is_of_tail plan.now tail.now }
    ensures same { (result ≡ true) ↔ (plan.now.tail ≡ tail.now) }
    ensures reads { ReadsOpen plan.now }
    ensures frame { result ≡ false → IgnoresTail plan.now tail.now }
    ensures deferred { result ≡ false → IgnoresDeferral plan.now tail.now }
    ensures cleared { result ≡ false → IgnoresClearing plan.now tail.now }
{
    has_tail(plan, tail)
}

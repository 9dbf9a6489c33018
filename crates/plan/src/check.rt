ghost use Rattle.std.specs.Prelude.{◌≡◌, ◌≤◌, None, length, MatchResult};
ghost use Rattle.std.specs.List.{list_all, list_any};
ghost use Rattle.std.specs.Option.{option_copied};
ghost use Rattle.ops_tables.specs.Tables.{has_airport};
ghost use Rattle.plan.specs.Check as spec;
ghost use Rattle.plan.specs.Check.{plan_fault, IsPlan};

use crate::flights::{Alternate, Leg, Plan, TakeoffAlternate};
use desk_io::Station;
use desk_time::{Minute, PLAN_FIRST, PLAN_LAST};
use ops_tables::Tables;

/// Why a plan is refused.
#[derive(Clone, Copy, Debug, PartialEq, Eq)]
pub enum PlanWhy {
    /// `tails.csv` has no such aircraft.
    UnknownTail,
    /// `actors.csv` has no captain of this name.
    UnknownCaptain,
    /// The plan has no legs or more than eight, or a leg has more than three alternates.
    Count,
    /// An airport of the leg isn't in `airports.csv`.
    NoAirport,
    /// The leg ends where it begins, its takeoff alternate is the departure, or an alternate is the destination or is
    /// listed twice.
    Repeated,
    /// The leg doesn't begin where the leg before it ends.
    Unjoined,
    /// A time, the order of two times, or a number of minutes is outside its limits.
    Times,
    /// An amount of fuel is above 1,000,000 pounds.
    Amount,
    /// An amendment changes the flight number, the kind or, in flight, the aircraft.
    Changed,
    /// An amendment changes or omits a flown leg, or leaves no leg to fly. Or it changes the departure, ETD or
    /// takeoff alternate of the leg in flight.
    Flown,
}

/// The first test that a plan fails.
#[derive(Clone, Copy, Debug, PartialEq, Eq)]
pub struct BadPlan {
    /// The leg that fails, from 1; 0 for a test of the whole plan.
    pub leg: u32,
    /// The test that fails.
    pub why: PlanWhy,
}

pub(crate) fn is_at(a: Station, b: Station) -> bool
    ensures { result ≡ spec.is_at a b }
{
    a.bytes() == b.bytes()
}

fn any_at(station: Station, alternates: &[Alternate]) -> bool
    ensures { result ≡ list_any (spec.is_alternate_at station) alternates.now }
{
    alternates
        .iter()
        .any(|alternate| is_at(alternate.station, station))
}

fn repeats(alternates: &[Alternate]) -> bool
    ensures { result ≡ spec.repeats alternates.now }
{
    let mut left = alternates;
    while let [first, after @ ..] = left {
        if any_at(first.station, after) {
            return true;
        }
        left = after;
    }
    false
}

fn is_takeoff_at(station: Station, alternate: Option<TakeoffAlternate>) -> bool
    ensures { result ≡ spec.is_takeoff_at station alternate }
{
    match alternate {
        None => false,
        Some(alternate) => is_at(alternate.station, station),
    }
}

fn is_repeated(leg: &Leg) -> bool
    ensures { result ≡ spec.is_repeated leg.now }
{
    let alternates = leg.alternates.as_slice();
    is_at(leg.from, leg.to)
        || is_takeoff_at(leg.from, leg.takeoff_alternate)
        || any_at(leg.to, alternates)
        || repeats(alternates)
}

fn is_planned(at: Minute) -> bool
    ensures { result ≡ spec.is_planned at }
{
    PLAN_FIRST <= at && at <= PLAN_LAST
}

fn follows(before: Option<&Leg>, leg: &Leg) -> bool
    ensures { result ≡ spec.follows (option_copied before.entry) leg.now }
{
    match before {
        None => true,
        Some(before) => before.eta <= leg.etd,
    }
}

fn joins(before: Option<&Leg>, leg: &Leg) -> bool
    ensures { result ≡ spec.joins (option_copied before.entry) leg.now }
{
    match before {
        None => true,
        Some(before) => is_at(before.to, leg.from),
    }
}

fn is_airport(tables: &Tables, station: Station) -> bool
    ensures { result ≡ has_airport tables.now station }
{
    tables.airport(station).is_some()
}

fn is_takeoff_airport(tables: &Tables, alternate: Option<TakeoffAlternate>) -> bool
    ensures { result ≡ spec.is_takeoff_airport tables.now alternate }
{
    match alternate {
        None => true,
        Some(alternate) => is_airport(tables, alternate.station),
    }
}

fn are_airports(tables: &Tables, alternates: &[Alternate]) -> bool
    ensures { result ≡ list_all (λ a. has_airport tables.now a.station) alternates.now }
{
    alternates
        .iter()
        .all(|alternate| is_airport(tables, alternate.station))
}

fn has_airports(tables: &Tables, leg: &Leg) -> bool
    ensures { result ≡ spec.has_airports tables.now leg.now }
{
    is_airport(tables, leg.from)
        && is_airport(tables, leg.to)
        && is_takeoff_airport(tables, leg.takeoff_alternate)
        && are_airports(tables, leg.alternates.as_slice())
}

fn is_near(minutes: u32) -> bool
    ensures { result ≡ spec.is_near minutes }
{
    1 <= minutes && minutes <= 600
}

fn is_takeoff_near(alternate: Option<TakeoffAlternate>) -> bool
    ensures { result ≡ spec.is_takeoff_near alternate }
{
    match alternate {
        None => true,
        Some(alternate) => is_near(alternate.minutes),
    }
}

fn has_moments(before: Option<&Leg>, leg: &Leg) -> bool
    ensures { result ≡ spec.has_moments (option_copied before.entry) leg.now }
{
    is_planned(leg.etd) && is_planned(leg.eta) && leg.etd < leg.eta && follows(before, leg)
}

fn has_minutes(leg: &Leg) -> bool
    ensures { result ≡ spec.has_minutes leg.now }
{
    let minutes = leg.minutes as u64;
    1 <= minutes && minutes <= leg.eta.saturating_sub(leg.etd) && minutes <= 1440
}

fn are_near(alternates: &[Alternate]) -> bool
    ensures { result ≡ spec.are_near alternates.now }
{
    alternates
        .iter()
        .all(|alternate| is_near(alternate.minutes))
}

fn has_times(before: Option<&Leg>, leg: &Leg) -> bool
    ensures { result ≡ spec.has_times (option_copied before.entry) leg.now }
{
    has_moments(before, leg)
        && has_minutes(leg)
        && is_takeoff_near(leg.takeoff_alternate)
        && are_near(leg.alternates.as_slice())
}

fn is_amount(pounds: u32) -> bool
    ensures { result ≡ spec.is_amount pounds }
{
    pounds <= 1_000_000
}

fn are_amounts(alternates: &[Alternate]) -> bool
    ensures { result ≡ spec.are_amounts alternates.now }
{
    alternates.iter().all(|alternate| is_amount(alternate.fuel))
}

fn has_amounts(leg: &Leg) -> bool
    ensures { result ≡ spec.has_amounts leg.now }
{
    is_amount(leg.burn)
        && is_amount(leg.extra)
        && is_amount(leg.minimum)
        && is_amount(leg.onboard)
        && are_amounts(leg.alternates.as_slice())
}

fn flight_fault(before: Option<&Leg>, leg: &Leg) -> Option<PlanWhy>
    ensures { result ≡ spec.flight_fault (option_copied before.entry) leg.now }
{
    if !joins(before, leg) {
        Some(PlanWhy::Unjoined)
    } else if !has_times(before, leg) {
        Some(PlanWhy::Times)
    } else if !has_amounts(leg) {
        Some(PlanWhy::Amount)
    } else {
        None
    }
}

fn leg_fault(tables: &Tables, before: Option<&Leg>, leg: &Leg) -> Option<PlanWhy>
    ensures { result ≡ spec.leg_fault tables.now (option_copied before.entry) leg.now }
{
    if !has_airports(tables, leg) {
        Some(PlanWhy::NoAirport)
    } else if leg.alternates.as_slice().len() > 3 {
        Some(PlanWhy::Count)
    } else if is_repeated(leg) {
        Some(PlanWhy::Repeated)
    } else {
        flight_fault(before, leg)
    }
}

fn first_fault(tables: &Tables, legs: &[Leg]) -> Option<BadPlan>
    requires { length legs.now ≤ 1000 }
    ensures { result ≡ spec.first_fault tables.now 1 None legs.now }
{
    let mut before = None;
    for (i, leg) in legs.iter().enumerate() {
        if let Some(why) = leg_fault(tables, before, leg) {
            return Some(BadPlan {
                leg: i as u32 + 1,
                why,
            });
        }
        before = Some(leg);
    }
    None
}

fn whole_fault(tables: &Tables, plan: &Plan) -> Option<PlanWhy>
    ensures { result ≡ spec.whole_fault tables.now plan.now }
{
    let legs = plan.legs.as_slice().len();
    if !tables.has_tail(plan.tail.bytes()) {
        Some(PlanWhy::UnknownTail)
    } else if !tables.has_captain(plan.captain.bytes()) {
        Some(PlanWhy::UnknownCaptain)
    } else if legs < 1 || 8 < legs {
        Some(PlanWhy::Count)
    } else {
        None
    }
}

#[tactic(auto, unfolding(crate::specs::Check::plan_fault))]
fn fault_of(plan: &Plan, tables: &Tables) -> Option<BadPlan>
    requires { length plan.now.legs ≤ 1000 }
    ensures { result ≡ plan_fault tables.now plan.now }
{
    match whole_fault(tables, plan) {
        None => first_fault(tables, plan.legs.as_slice()),
        Some(why) => Some(BadPlan { leg: 0, why }),
    }
}

/// Tests a plan under the tables. The first failed test is the error. The tests of the whole plan come first, as leg
/// 0: the aircraft, the captain, and one to eight legs. Then each leg is tested in turn. Its airports are in the
/// tables. It has at most three alternates. No airport is repeated. It begins where the leg before it ends. Times,
/// minutes and fuel are within their limits. It allocates nothing.
pub fn check_plan(plan: &Plan, tables: &Tables) -> Result<(), BadPlan>
    requires { IsPlan plan.now }
    ensures { MatchResult result (λ _. plan_fault tables.now plan.now ≡ None)
        (λ bad. plan_fault tables.now plan.now ≡ Some bad) }
{
    match fault_of(plan, tables) {
        None => Ok(()),
        Some(bad) => Err(bad),
    }
}

ghost use Rattle.std.specs.Prelude.{◌≡◌, ◌≤◌, length, None, Some, MatchResult, OnOk};
ghost use Rattle.std.specs.List.{slice_get};
ghost use Rattle.std.specs.Option.{option_copied};
ghost use Rattle.plan.specs.Change as spec;
ghost use Rattle.plan.specs.Change.{change_fault, MayFollow};
ghost use Rattle.plan.specs.Check.{IsPlan};
ghost use Rattle.plan.specs.Phases as phases;
ghost use Rattle.plan.specs.Phases.{PhaseFits};

use crate::check::{BadPlan, PlanWhy, is_at};
use crate::flights::{Alternate, Kind, Leg, Plan, TakeoffAlternate};
use crate::release::Phase;

fn is_same_takeoff(a: Option<TakeoffAlternate>, b: Option<TakeoffAlternate>) -> bool
    ensures { result ≡ spec.is_same_takeoff a b }
{
    match (a, b) {
        (None, None) => true,
        (None, Some(_)) | (Some(_), None) => false,
        (Some(a), Some(b)) => is_at(a.station, b.station) && a.minutes == b.minutes,
    }
}

fn is_same_alternate(a: &Alternate, b: &Alternate) -> bool
    ensures { result ≡ spec.is_same_alternate a.now b.now }
{
    is_at(a.station, b.station) && a.minutes == b.minutes && a.fuel == b.fuel
}

fn are_same_alternates(one: &[Alternate], two: &[Alternate]) -> bool
    ensures { result ≡ spec.are_same_alternates one.now two.now }
{
    let mut left = two;
    for a in one {
        match left {
            [] => return false,
            [b, after @ ..] => {
                if !is_same_alternate(a, b) {
                    return false;
                }
                left = after;
            }
        }
    }
    left.is_empty()
}

fn has_same_ends(a: &Leg, b: &Leg) -> bool
    ensures { result ≡ spec.has_same_ends a.now b.now }
{
    is_at(a.from, b.from) && is_at(a.to, b.to)
}

fn has_same_times(a: &Leg, b: &Leg) -> bool
    ensures { result ≡ spec.has_same_times a.now b.now }
{
    a.etd == b.etd && a.eta == b.eta && a.minutes == b.minutes
}

fn has_same_fuel(a: &Leg, b: &Leg) -> bool
    ensures { result ≡ spec.has_same_fuel a.now b.now }
{
    a.burn == b.burn && a.extra == b.extra && a.minimum == b.minimum && a.onboard == b.onboard
}

fn has_same_alternates(a: &Leg, b: &Leg) -> bool
    ensures { result ≡ spec.has_same_alternates a.now b.now }
{
    is_same_takeoff(a.takeoff_alternate, b.takeoff_alternate)
        && are_same_alternates(a.alternates.as_slice(), b.alternates.as_slice())
}

fn is_same_leg(a: &Leg, b: &Leg) -> bool
    ensures { result ≡ spec.is_same_leg a.now b.now }
{
    has_same_ends(a, b) && has_same_times(a, b) && has_same_fuel(a, b) && has_same_alternates(a, b)
}

fn departs_alike(a: &Leg, b: &Leg) -> bool
    ensures { result ≡ spec.departs_alike a.now b.now }
{
    is_at(a.from, b.from)
        && a.etd == b.etd
        && is_same_takeoff(a.takeoff_alternate, b.takeoff_alternate)
}

// Returns the number of the first of the flown legs that the plan changes or omits. Legs are counted from 1.
fn first_changed(flown: &[Leg], legs: &[Leg]) -> Option<u32>
    requires { length flown.now ≤ 1000 }
    ensures { result ≡ spec.first_changed 1 flown.now legs.now }
{
    let mut left = legs;
    for (i, old) in flown.iter().enumerate() {
        match left {
            [] => return Some(i as u32 + 1),
            [leg, after @ ..] => {
                if !is_same_leg(old, leg) {
                    return Some(i as u32 + 1);
                }
                left = after;
            }
        }
    }
    None
}

fn in_flight(phase: Phase) -> Option<u32>
    ensures { result ≡ phases.in_flight phase }
{
    match phase {
        Phase::Flying { leg } => Some(leg),
        Phase::Drafted
        | Phase::Ready
        | Phase::Stopped { .. }
        | Phase::Completed { .. }
        | Phase::Cancelled { .. } => None,
    }
}

fn departed_otherwise(in_flight: Option<u32>, n: u32, old: Option<&Leg>, leg: &Leg) -> Option<u32>
    ensures { result ≡ spec.departed_otherwise in_flight n (option_copied old.entry) leg.now }
{
    match (in_flight, old) {
        (None, _) => None,
        (Some(_), Some(old)) if departs_alike(old, leg) => None,
        (Some(_), _) => Some(n),
    }
}

fn next_fault(in_flight: Option<u32>, n: u32, old: Option<&Leg>, leg: Option<&Leg>) -> Option<u32>
    ensures { result ≡ spec.next_fault in_flight n (option_copied old.entry) (option_copied leg.entry) }
{
    match leg {
        None => Some(n),
        Some(leg) => departed_otherwise(in_flight, n, old, leg),
    }
}

// Returns the number of flown legs: all of them once the release has ended.
fn flown(phase: Phase, legs: &[Leg]) -> usize
    requires { PhaseFits phase legs.now }
    ensures value { result ≡ phases.flown phase legs.now }
    ensures within { result ≤ length legs.now }
{
    match phase {
        Phase::Drafted | Phase::Ready => 0,
        Phase::Flying { leg } => leg as usize - 1,
        Phase::Stopped { next, .. } => next as usize - 1,
        Phase::Completed { .. } | Phase::Cancelled { .. } => legs.len(),
    }
}

fn flown_fault(phase: Phase, old: &[Leg], legs: &[Leg]) -> Option<u32>
    requires few { length old.now ≤ 1000 }
    requires fits { PhaseFits phase old.now }
    ensures { result ≡ spec.flown_fault phase old.now legs.now }
{
    let flown = flown(phase, old);
    match first_changed(&old[..flown], legs) {
        Some(n) => Some(n),
        None => next_fault(
            in_flight(phase),
            flown as u32 + 1,
            old.get(flown),
            legs.get(flown),
        ),
    }
}

fn is_same_kind(a: Kind, b: Kind) -> bool
    ensures { result ≡ spec.is_same_kind a b }
{
    match (a, b) {
        (Kind::Domestic, Kind::Domestic) | (Kind::Flag, Kind::Flag) => true,
        (Kind::Domestic, Kind::Flag) | (Kind::Flag, Kind::Domestic) => false,
    }
}

fn is_changed(phase: Phase, plan: &Plan, old: &Plan) -> bool
    ensures { result ≡ spec.is_changed phase plan.now old.now }
{
    plan.flight.bytes() != old.flight.bytes()
        || !is_same_kind(plan.kind, old.kind)
        || in_flight(phase).is_some() && plan.tail.bytes() != old.tail.bytes()
}

#[tactic(auto, unfolding(crate::specs::Change::change_fault))]
fn fault_of_change(plan: &Plan, old: &Plan, phase: Phase) -> Option<BadPlan>
    requires few { IsPlan old.now }
    requires fits { PhaseFits phase old.now.legs }
    ensures { result ≡ change_fault plan.now old.now phase }
{
    if is_changed(phase, plan, old) {
        return Some(BadPlan {
            leg: 0,
            why: PlanWhy::Changed,
        });
    }
    match flown_fault(phase, old.legs.as_slice(), plan.legs.as_slice()) {
        None => None,
        Some(leg) => Some(BadPlan {
            leg,
            why: PlanWhy::Flown,
        }),
    }
}

/// Tests a plan that amends `old` while the release is in this phase. The first failed test is the error. The flight
/// number and the kind must stay the same, and in flight the aircraft too; this is tested first, as leg 0. Flown legs
/// must stay as they are, and at least one other leg must remain. The leg in flight must keep its departure, ETD and
/// takeoff alternate. It allocates nothing.
pub fn check_change(plan: &Plan, old: &Plan, phase: Phase) -> Result<(), BadPlan>
    requires few { IsPlan old.now }
    requires fits { PhaseFits phase old.now.legs }
    ensures fault { MatchResult result (λ _. change_fault plan.now old.now phase ≡ None)
        (λ bad. change_fault plan.now old.now phase ≡ Some bad) }
    ensures may { OnOk result (MayFollow plan.now old.now phase) }
{
    match fault_of_change(plan, old, phase) {
        None => Ok(()),
        Some(bad) => Err(bad),
    }
}

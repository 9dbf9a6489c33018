ghost use Rattle.std.specs.Prelude.{◌≡◌, ◌≤◌, ◌+◌};
ghost use Rattle.codes.specs.Minima.{is_met, reaches};
ghost use Rattle.desk_io.specs.Pair.{raised};
ghost use Rattle.plan.specs.AlternateNeeds as spec;

use crate::flights::{Kind, Leg};
use codes::{Cond, meets};
use desk_io::{MILE, Pair};

/// The least weather in which a domestic flight needs no alternate: 2,000 feet and 3 statute miles (14 CFR
/// 121.619(a)).
const DOMESTIC_FLOOR: Pair = Pair {
    ceiling: 2_000,
    vis: 3 * MILE,
};

/// The longest scheduled time, in minutes, for which a flag flight may go without an alternate (14 CFR
/// 121.621(a)(1)).
const LONGEST_WITHOUT: u64 = 360;

/// Returns true if a takeoff alternate is needed: the weather at the airport of departure meets none of its landing
/// minima (14 CFR 121.617(a)). It allocates nothing.
#[tactic(auto, unfolding(crate::specs::AlternateNeeds::needs_takeoff))]
pub fn needs_takeoff(cond: Cond, landing: &[Pair]) -> bool
    ensures { result ≡ spec.needs_takeoff cond landing.now }
{
    !meets(cond, landing)
}

fn range(engines: u8, knots: u32) -> u32
    requires { knots ≤ 1_000 }
    ensures { result ≡ spec.range engines knots }
{
    if engines >= 3 { 2 * knots } else { knots }
}

/// Returns true if a takeoff alternate is near enough at the speed with one engine inoperative (14 CFR 121.617(a)).
/// It may be one hour away for an aircraft with two engines, and two hours for one with three or more. `knots` is
/// that speed. `miles` is the distance in nautical miles; an unknown distance is too far. It allocates nothing.
#[tactic(auto, unfolding(crate::specs::AlternateNeeds::in_range))]
pub fn in_range(engines: u8, knots: u32, miles: Option<u32>) -> bool
    requires { knots ≤ 1_000 }
    ensures { result ≡ spec.in_range engines knots miles }
{
    match miles {
        None => false,
        Some(miles) => miles <= range(engines, knots),
    }
}

fn misses(window: Cond, floor: Option<Pair>) -> bool
    ensures { result ≡ spec.misses window floor }
{
    match floor {
        None => true,
        Some(floor) => !window.is_at_least(floor),
    }
}

/// Returns true if the destination needs an alternate. `window` is the worst weather there from one hour before to
/// one hour after the ETA. A domestic flight needs an alternate if that is below 2,000 feet or 3 statute miles (14
/// CFR 121.619(a)). A flag flight needs one if it is scheduled for more than six hours, or the weather is below
/// `floor` or there is none (14 CFR 121.621(a)(1)). An unknown element counts as 0. It allocates nothing.
#[tactic(auto, unfolding(crate::specs::AlternateNeeds::needs_destination))]
pub fn needs_destination(leg: &Leg, kind: Kind, window: Cond, floor: Option<Pair>) -> bool
    ensures { result ≡ spec.needs_destination leg.now kind window floor }
{
    match kind {
        Kind::Domestic => !window.is_at_least(DOMESTIC_FLOOR),
        Kind::Flag => leg.eta.saturating_sub(leg.etd) > LONGEST_WITHOUT || misses(window, floor),
    }
}

// Returns true if an element of the weather is at or above its minimum plus the margin. An unknown element meets only
// 0.
fn reaches_raised(value: Option<u32>, least: u32, margin: u32) -> bool
    ensures { result ≡ reaches value (least + margin) }
{
    let raised = u64::from(least) + u64::from(margin);
    match value {
        None => raised == 0,
        Some(known) => raised <= u64::from(known),
    }
}

fn is_met_raised(cond: Cond, margin: Pair, pair: Pair) -> bool
    ensures { result ≡ is_met cond (raised margin pair) }
{
    reaches_raised(cond.ceiling, pair.ceiling, margin.ceiling)
        && reaches_raised(cond.vis, pair.vis, margin.vis)
}

fn meets_raised(cond: Cond, pairs: &[Pair], margin: Pair) -> bool
    ensures { result ≡ spec.meets_raised cond pairs.now margin }
{
    pairs.iter().any(|pair| is_met_raised(cond, margin, *pair))
}

/// Returns true if the weather is marginal: it meets none of these minima raised by the margin (14 CFR 121.619(a)).
/// It allocates nothing.
#[tactic(auto, unfolding(crate::specs::AlternateNeeds::is_marginal))]
pub fn is_marginal(cond: Cond, pairs: &[Pair], margin: Pair) -> bool
    ensures { result ≡ spec.is_marginal cond pairs.now margin }
{
    !meets_raised(cond, pairs, margin)
}

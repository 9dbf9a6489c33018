ghost use Rattle.std.specs.Prelude.{IsTrue};
ghost use Rattle.std.specs.List.{AllByRecursion};
ghost use Rattle.plan.specs.Check.{HasMoments, IsPlan};
ghost use Rattle.plan.specs.Phases.{PhaseFits};
ghost use Rattle.plan.specs.Texts.{HasMoment};

use desk_time::{FIRST, LAST};
use plan::{Leg, Phase, Plan};

fn has_moments(leg: &Leg) -> bool
    ensures { IsTrue result → HasMoments leg.now }
{
    FIRST <= leg.etd && leg.etd <= LAST && FIRST <= leg.eta && leg.eta <= LAST
}

fn have_moments(legs: &[Leg]) -> bool
    ensures { IsTrue result → AllByRecursion HasMoments legs.now }
{
    let mut left = legs;
    while let [leg, after @ ..] = left {
        if !has_moments(leg) {
            return false;
        }
        left = after;
    }
    true
}

/// Whether a plan has at most 1,000 legs, and the moments of each can be read and shown.
pub fn may_be_checked(plan: &Plan) -> bool
    ensures { IsTrue result → IsPlan plan.now }
{
    let legs = plan.legs.as_slice();
    legs.len() <= 1_000 && have_moments(legs)
}

/// Whether the moment of a phase, if it has one, can be read and shown.
pub fn has_moment(phase: Phase) -> bool
    ensures { IsTrue result → HasMoment phase }
{
    match phase {
        Phase::Drafted | Phase::Ready | Phase::Flying { .. } => true,
        Phase::Stopped { since, .. } => FIRST <= since && since <= LAST,
        Phase::Completed { at } | Phase::Cancelled { at } => FIRST <= at && at <= LAST,
    }
}

/// Whether a plan has the leg that a phase names.
pub fn fits(phase: Phase, legs: &[Leg]) -> bool
    ensures { IsTrue result → PhaseFits phase legs.now }
{
    match phase {
        Phase::Flying { leg } => 1 <= leg && leg as usize <= legs.len(),
        Phase::Stopped { next, .. } => 1 <= next && next as usize <= legs.len(),
        Phase::Drafted | Phase::Ready | Phase::Completed { .. } | Phase::Cancelled { .. } => true,
    }
}

ghost use Rattle.std.specs.Prelude.{◌≡◌, ◌↔◌, None, IfOk, IsTrue};
ghost use Rattle.std.specs.Option.{option_copied};
ghost use Rattle.plan.specs.Check as check;
ghost use Rattle.plan.specs.Check.{IsPlan, plan_fault};
ghost use Rattle.advise.specs.Candidates as spec;
ghost use Rattle.advise.specs.Candidates.{PassesAlone};

use desk_io::OutOfMemory;
use ops_tables::Tables;
use plan::{Alternate, Leg, Plan};
use rules::leg_numbered;
use std::alloc::Global;

/// An alternate that a leg of a plan may list.
#[derive(Clone, Copy, Debug, PartialEq, Eq)]
pub struct Candidate {
    /// The number of the leg, counted from 1.
    pub leg: u32,
    /// The airport, with the flight time and the fuel from the leg's destination.
    pub alternate: Alternate,
}

fn is_near(minutes: u32) -> bool
    ensures { result ≡ check.is_near minutes }
{
    1 <= minutes && minutes <= 600
}

// Returns true if a leg may list the alternate.
fn is_allowed(tables: &Tables, leg: &Leg, it: &Alternate) -> bool
    ensures { result ≡ spec.is_allowed tables.now leg.now it.now }
{
    tables.airport(it.station).is_some()
        && it.station.bytes() != leg.to.bytes()
        && is_near(it.minutes)
        && it.fuel <= 1_000_000
}

fn is_allowed_on(tables: &Tables, it: &Alternate, leg: Option<&Leg>) -> bool
    ensures { result ≡ spec.is_allowed_on tables.now it.now (option_copied leg.entry) }
{
    match leg {
        None => false,
        Some(leg) => is_allowed(tables, leg, it),
    }
}

/// Returns true if a candidate's leg is one of the plan's and may list the alternate: it is an airport other than the
/// leg's destination, its flight time is 1 to 600 minutes, and its fuel is at most 1,000,000 pounds. It allocates
/// nothing.
#[tactic(auto, using(crate::proofs::ListingLaws::passes_alone))]
pub fn is_candidate(tables: &Tables, plan: &Plan, candidate: &Candidate) -> bool
    requires { IsPlan plan.now }
    ensures value { result ≡ spec.is_candidate tables.now plan.now candidate.now }
    ensures alone { plan_fault tables.now plan.now ≡ None
        → IsTrue result ↔ PassesAlone tables.now plan.now candidate.now }
{
    let leg = leg_numbered(plan.legs.as_slice(), candidate.leg);
    is_allowed_on(tables, &candidate.alternate, leg)
}

/// Returns the alternates that are candidates for a leg, in the order of the candidates.
pub(crate) fn choices_for(
    alloc: Global,
    leg: u32,
    candidates: &[Candidate],
) -> Result<Vec<Alternate>, OutOfMemory>
    ensures { IfOk result (λ v. v.items ≡ spec.choices_for leg candidates.now) }
{
    let mut choices = Vec::new(alloc);
    for candidate in candidates {
        if candidate.leg == leg {
            choices.push(candidate.alternate)?;
        }
    }
    Ok(choices)
}

ghost use Rattle.std.specs.Prelude.{◌≡◌, ◌≤◌, length, IfOk};
ghost use Rattle.plan.specs.Check.{IsPlan};
ghost use Rattle.advise.specs.Listing as spec;

use desk_io::{Copied, Listed, OutOfMemory, copied_items};
use plan::{Alternate, Leg, Plan};
use std::alloc::Global;

// Copies a leg, with these alternates if it is the one that gets them.
fn leg_if(alloc: Global, gets: bool, listed: &[Alternate], leg: &Leg) -> Result<Leg, OutOfMemory>
    ensures { IfOk result (λ l. l ≡ spec.leg_if gets listed.now leg.now) }
{
    let mut copy = leg.copy(alloc)?;
    if gets {
        copy.alternates = Listed::from_vec(copied_items(listed, alloc)?);
    }
    Ok(copy)
}

// Copies legs, with these alternates on the leg of a number.
fn legs_with(
    alloc: Global,
    number: u32,
    listed: &[Alternate],
    legs: &[Leg],
) -> Result<Vec<Leg>, OutOfMemory>
    requires { length legs.now ≤ 1000 }
    ensures { IfOk result (λ v. v.items ≡ spec.legs_with number 1 listed.now legs.now) }
{
    let mut copies = Vec::new(alloc);
    for (i, leg) in legs.iter().enumerate() {
        copies.push(leg_if(alloc, number == i as u32 + 1, listed, leg)?)?;
    }
    Ok(copies)
}

/// Copies a plan, with these alternates on the leg of a number, counted from 1, in place of those that the leg lists.
#[tactic(auto, using(crate::proofs::ListingLaws::is_plan))]
pub(crate) fn plan_with(
    alloc: Global,
    plan: &Plan,
    number: u32,
    listed: &[Alternate],
) -> Result<Plan, OutOfMemory>
    requires { IsPlan plan.now }
    ensures value { IfOk result (λ p. p ≡ spec.plan_with plan.now number listed.now) }
    ensures plan { IfOk result IsPlan }
{
    let legs = legs_with(alloc, number, listed, plan.legs.as_slice())?;
    Ok(Plan {
        flight: plan.flight.copy(alloc)?,
        tail: plan.tail.copy(alloc)?,
        kind: plan.kind,
        captain: plan.captain.copy(alloc)?,
        legs: Listed::from_vec(legs),
    })
}

ghost use Rattle.std.specs.Prelude.{◌≡◌, ◌≤◌, ℕ, length, IfOk, IfSome};
ghost use Rattle.std.specs.Option.{option_copied};
ghost use Rattle.ops_tables.specs.Tables.{type_of};
ghost use Rattle.plan.specs.Check.{HasMoments, IsPlan};
ghost use Rattle.rules.specs.Grounds.{deferrals_of, grounds_of, grounds_held};
ghost use Rattle.rules.specs.Judgement.{leg_numbered};
ghost use Rattle.rules.specs.Required as spec;
ghost use Rattle.rules.specs.Required.{IsCompared};

use crate::circumstances::Circumstances;
use crate::evidence::Evidence;
use deferrals::{DEFERRAL_LIMIT, Deferrals};
use desk_io::OutOfMemory;
use facts::Reports;
use ops_tables::Tables;
use plan::{Leg, Phase, Plan, Standing, standing_of};
use std::alloc::Global;

/// Returns the leg of a number, counted from 1, or None if there is no such leg.
pub fn leg_numbered(legs: &[Leg], number: u32) -> Option<&Leg>
    requires { length legs.now ≤ 1000 }
    ensures { option_copied result ≡ leg_numbered number 1 legs.now }
{
    for (i, leg) in legs.iter().enumerate() {
        if number == i as u32 + 1 {
            return Some(leg);
        }
    }
    None
}

// Returns the leg of a number, counted from 1, of a plan whose moments can be written.
fn leg_of(plan: &Plan, number: u32) -> Option<&Leg>
    requires { IsPlan plan.now }
    ensures value { option_copied result ≡ leg_numbered number 1 plan.now.legs }
    ensures moments { IfSome (option_copied result) HasMoments }
{
    leg_numbered(plan.legs.as_slice(), number)
}

// Returns the fuel that a leg which isn't flown requires.
fn required_by(
    alloc: Global,
    plan: &Plan,
    evidence: Evidence<'_>,
    leg: &Leg,
) -> Result<u64, OutOfMemory>
    requires few { length (deferrals_of evidence) ≤ DEFERRAL_LIMIT }
    requires moments { HasMoments leg.now }
    ensures { IfOk result (λ n. n ≡ spec.required_by (type_of (grounds_of evidence.entry).tables plan.now.tail) plan.now
        (grounds_of evidence.entry) leg.now) }
{
    match evidence.tables.type_of(plan.tail.bytes()) {
        None => Ok(0),
        Some(aircraft) => {
            let circumstances = Circumstances::of(alloc, evidence, plan, aircraft)?;
            Ok(circumstances.required_fuel(leg))
        }
    }
}

fn required_at(
    alloc: Global,
    plan: &Plan,
    evidence: Evidence<'_>,
    standing: Standing,
    leg: &Leg,
) -> Result<u64, OutOfMemory>
    requires few { length (deferrals_of evidence) ≤ DEFERRAL_LIMIT }
    requires moments { HasMoments leg.now }
    ensures { IfOk result (λ n. n ≡ spec.required_at (type_of (grounds_of evidence.entry).tables plan.now.tail) plan.now
        (grounds_of evidence.entry) standing leg.now) }
{
    match standing {
        Standing::Ahead | Standing::InFlight => required_by(alloc, plan, evidence, leg),
        Standing::Flown => Ok(0),
    }
}

#[tactic(auto, unfolding(crate::specs::Required::required_of))]
fn required_now(
    alloc: Global,
    plan: &Plan,
    phase: Phase,
    number: u32,
    evidence: Evidence<'_>,
) -> Result<u64, OutOfMemory>
    requires plan { IsPlan plan.now }
    requires few { length (deferrals_of evidence) ≤ DEFERRAL_LIMIT }
    ensures { IfOk result (λ n. n ≡ spec.required_of plan.now phase number (grounds_of evidence.entry)) }
{
    match leg_of(plan, number) {
        None => Ok(0),
        Some(leg) => required_at(alloc, plan, evidence, standing_of(phase, number), leg),
    }
}

/// Returns the fuel that a leg, counted from 1, requires, in pounds: the amount that the rules on fuel compare with the
/// leg's minimum fuel (14 CFR 121.639, 121.645). It is the same at every moment. It is 0 if the leg is flown, if the
/// plan has no such leg, or if the tables don't give the type of the aircraft.
pub fn required_of(
    alloc: Global,
    plan: &Plan,
    phase: Phase,
    leg: u32,
    facts: &Reports,
    deferrals: &Deferrals,
    tables: &Tables,
) -> Result<u64, OutOfMemory>
    requires { IsPlan plan.now }
    ensures value { IfOk result (λ n. (moment : ℕ) → n ≡ spec.required_of plan.now phase leg
        (grounds_held tables.now facts.now.reports deferrals.now.list moment)) }
    ensures compared { IfOk result (λ n. (moment : ℕ) → IsCompared plan.now phase leg
        (grounds_held tables.now facts.now.reports deferrals.now.list moment) n) }
{
    required_now(
        alloc,
        plan,
        phase,
        leg,
        Evidence::held(facts, deferrals, tables, 0),
    )
}

ghost use Rattle.std.specs.Prelude.{◌≡◌, ◌≤◌, ◌+◌, ◌++◌, ◌∷◌, [], length, map, IfOk, IfSome, OnOk, None, Some};
ghost use Rattle.std.specs.List.{AllByRecursion};
ghost use Rattle.std.specs.Option.{option_copied, option_map};
ghost use Rattle.ops_tables.specs.Limits.{FitsType};
ghost use Rattle.plan.specs.Check.{IsPlan};
ghost use Rattle.plan.specs.Findings.{AreInOrder, rules_of_legs};
ghost use Rattle.deferrals.specs.Held.{AreRising};
ghost use Rattle.rules.specs.Grounds.{deferrals_of, grounds_of, grounds_held};
ghost use Rattle.rules.specs.Circumstances.{case_of};
ghost use Rattle.rules.specs.Sights as seen;
ghost use Rattle.rules.specs.Sights.{case_by, IsWithin};
ghost use Rattle.rules.specs.Judgement as spec;
ghost use Rattle.rules.specs.Judgement.{findings_of, IsTrueOf, NamesAll};
ghost use Rattle.rules.specs.Regulation.{FollowRegulation};

use crate::circumstances::Circumstances;
use crate::evidence::Evidence;
use crate::sights::{Sight, sights_of_legs};
use crate::time::Times;
use deferrals::{DEFERRAL_LIMIT, Deferrals};
use desk_io::{Listed, OutOfMemory};
use desk_time::Minute;
use facts::Reports;
use ops_tables::{Tables, TypeRow};
use plan::{Finding, Findings, Phase, Plan, Rule, check_plan, rules_of_legs};
use std::alloc::Global;
use std::sync::ledger::Ledger;
use weather_window::Steps;

// Adds one finding for each place.
fn push_places(
    findings: &mut Findings,
    rule: Rule,
    leg: u32,
    places: &[u64],
) -> Result<(), OutOfMemory>
    ensures { OnOk result (findings.new ≡ findings.old ++ map (spec.finding rule leg) places.now) }
{
    for place in places {
        findings.push(Finding {
            rule,
            leg,
            place: *place,
        })?;
    }
    Ok(())
}

// Adds the findings of one rule, leg by leg.
fn push_rule(findings: &mut Findings, rule: Rule, sights: &[Sight]) -> Result<(), OutOfMemory>
    requires { length sights.now ≤ 1000 }
    ensures { OnOk result (findings.new ≡ findings.old ++ seen.findings_in rule 1 sights.now) }
{
    for (i, sight) in sights.iter().enumerate() {
        push_places(findings, rule, i as u32 + 1, sight.places(rule))?;
    }
    Ok(())
}

// Returns the findings, rule by rule.
fn findings_in(alloc: Global, rules: &[Rule], sights: &[Sight]) -> Result<Findings, OutOfMemory>
    requires { length sights.now ≤ 1000 }
    ensures { IfOk result (λ f. f ≡ seen.findings_in_all rules.now sights.now) }
{
    let mut findings = Listed::new(alloc);
    for rule in rules {
        push_rule(&mut findings, *rule, sights)?;
    }
    Ok(findings)
}

// Returns the findings on the legs of a plan. Without circumstances only the rules of time are judged.
fn findings_of_legs(
    alloc: Global,
    times: &Times,
    circumstances: Option<&Circumstances<'_>>,
    plan: &Plan,
) -> Result<Findings, OutOfMemory>
    requires plan { IsPlan plan.now }
    requires within { IfSome (option_copied circumstances) IsWithin }
    ensures { IfOk result (λ f. f ≡ seen.findings_in_all rules_of_legs
        (seen.sights_from times.now (option_map case_by (option_copied circumstances.entry)) 1 plan.now.legs)) }
{
    let sights = sights_of_legs(alloc, times, circumstances, plan.legs.as_slice())?;
    findings_in(alloc, rules_of_legs(), &sights)
}

// Returns the findings on a plan that passes its tests and whose aircraft has this type.
fn findings_in_case<'a>(
    alloc: Global,
    times: &Times,
    plan: &Plan,
    evidence: Evidence<'a>,
    aircraft: &'a TypeRow,
) -> Result<Findings, OutOfMemory>
    requires plan { IsPlan plan.now }
    requires few { length (deferrals_of evidence) ≤ DEFERRAL_LIMIT }
    requires fits { FitsType aircraft.now }
    ensures { IfOk result (λ f. f ≡ seen.findings_in_all rules_of_legs
        (seen.sights_from times.now (Some (case_of (grounds_of evidence.entry) plan.now aircraft.now)) 1
        plan.now.legs)) }
{
    let circumstances = Circumstances::of(alloc, evidence, plan, aircraft)?;
    findings_of_legs(alloc, times, Some(&circumstances), plan)
}

// Returns the findings on a plan that fails its tests at this leg, or at leg 0 for the whole plan.
fn findings_with_tables(
    alloc: Global,
    times: &Times,
    plan: &Plan,
    leg: u32,
) -> Result<Findings, OutOfMemory>
    requires { IsPlan plan.now }
    ensures { IfOk result (λ f. f ≡ seen.findings_in_all rules_of_legs
        (seen.sights_from times.now None 1 plan.now.legs) ++ spec.finding Rule.No19 leg 0 ∷ []) }
{
    let mut findings = findings_of_legs(alloc, times, None, plan)?;
    findings.push(Finding {
        rule: Rule::No19,
        leg,
        place: 0,
    })?;
    Ok(findings)
}

// Returns the findings on a plan.
fn findings_seen(
    alloc: Global,
    times: &Times,
    plan: &Plan,
    evidence: Evidence<'_>,
) -> Result<Findings, OutOfMemory>
    requires plan { IsPlan plan.now }
    requires few { length (deferrals_of evidence) ≤ DEFERRAL_LIMIT }
    ensures { IfOk result (λ f. f ≡ seen.findings_in_all rules_of_legs
        (seen.sights_from times.now (spec.case_for plan.now (grounds_of evidence.entry)) 1 plan.now.legs) ++
        spec.findings_of_tables plan.now (grounds_of evidence.entry)) }
{
    let tables = evidence.tables;
    match check_plan(plan, tables) {
        Err(bad) => findings_with_tables(alloc, times, plan, bad.leg),
        Ok(()) => match tables.type_of(plan.tail.bytes()) {
            None => findings_with_tables(alloc, times, plan, 0),
            Some(aircraft) => findings_in_case(alloc, times, plan, evidence, aircraft),
        },
    }
}

fn times_of(plan: &Plan, phase: Phase, evidence: &Evidence<'_>) -> Times
    ensures { result ≡ seen.times_of plan.now phase (grounds_of evidence.now) }
{
    Times {
        settings: evidence.tables.settings(),
        flight: plan.kind,
        phase,
        moment: evidence.moment,
    }
}

// Returns the rules that the plan fails in this phase.
fn findings(
    alloc: Global,
    plan: &Plan,
    phase: Phase,
    evidence: Evidence<'_>,
) -> Result<Findings, OutOfMemory>
    requires plan { IsPlan plan.now }
    requires few { length (deferrals_of evidence) ≤ DEFERRAL_LIMIT }
    ensures { IfOk result (λ f. f ≡ findings_of plan.now phase (grounds_of evidence.entry)) }
{
    let times = times_of(plan, phase, &evidence);
    findings_seen(alloc, &times, plan, evidence)
}

/// Returns the rules that a plan fails in a phase, as `judge` does, but with the change in the evidence already made.
/// It counts one step.
#[tactic(auto, using(crate::proofs::Laws::findings_in_order, crate::proofs::Laws::findings_are_true))]
pub fn judge_by<L: Ledger>(
    alloc: Global,
    plan: &Plan,
    phase: Phase,
    evidence: Evidence<'_>,
    steps: &mut Steps<L>,
) -> Result<Findings, OutOfMemory>
    requires plan { IsPlan plan.now }
    requires few { length (deferrals_of evidence) ≤ DEFERRAL_LIMIT }
    requires rising { AreRising (deferrals_of evidence) }
    ensures value { IfOk result (λ f. f ≡ findings_of plan.now phase (grounds_of evidence.entry)) }
    ensures order { IfOk result AreInOrder }
    ensures truth { IfOk result (AllByRecursion (IsTrueOf plan.now phase (grounds_of evidence.entry))) }
    ensures complete { IfOk result (NamesAll plan.now phase (grounds_of evidence.entry)) }
    ensures regulation { IfOk result (FollowRegulation plan.now phase (grounds_of evidence.entry)) }
    ensures steps { steps.new ≡ steps.old + 1 }
{
    steps.tick();
    findings(alloc, plan, phase, evidence)
}

/// Returns the rules that a plan fails in a phase, sorted by rule, leg and place, without duplicates. A rule of time
/// fails for the next leg or the leg in flight if the moment is past its limit (14 CFR 121.593, 121.595). The other
/// rules judge the legs that aren't flown (14 CFR 121.613 to 121.652). Some of these judge only legs that haven't
/// departed. A plan that fails its tests under the tables has one finding for that, besides those of the rules of
/// time. It counts one step.
pub fn judge<'a, L: Ledger>(
    alloc: Global,
    plan: &Plan,
    phase: Phase,
    facts: &'a Reports,
    deferrals: &'a Deferrals,
    tables: &'a Tables,
    moment: Minute,
    steps: &mut Steps<L>,
) -> Result<Findings, OutOfMemory>
    requires { IsPlan plan.now }
    ensures value { IfOk result (λ f. f ≡ findings_of plan.now phase
        (grounds_held tables.now facts.now.reports deferrals.now.list moment)) }
    ensures order { IfOk result AreInOrder }
    ensures truth { IfOk result (AllByRecursion (IsTrueOf plan.now phase
        (grounds_held tables.now facts.now.reports deferrals.now.list moment))) }
    ensures complete { IfOk result (NamesAll plan.now phase (grounds_held tables.now facts.now.reports
        deferrals.now.list moment)) }
    ensures regulation { IfOk result (FollowRegulation plan.now phase (grounds_held tables.now facts.now.reports
        deferrals.now.list moment)) }
    ensures steps { steps.new ≡ steps.old + 1 }
{
    let evidence = Evidence::held(facts, deferrals, tables, moment);
    judge_by(alloc, plan, phase, evidence, steps)
}

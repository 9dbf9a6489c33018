ghost use Rattle.std.specs.Prelude.{◌≡◌, ◌+◌, ◌∷◌, [], ◌≤◌, length, map, IfOk};
ghost use Rattle.std.specs.List.{list_any};
ghost use Rattle.plan.specs.Check.{IsPlan};
ghost use Rattle.advise.specs.Verdicts as spec;

use crate::listing::plan_with;
use crate::search::Verdict;
use deferrals::Deferrals;
use desk_io::OutOfMemory;
use desk_time::Minute;
use facts::Reports;
use ops_tables::Tables;
use plan::{Alternate, Finding, Phase, Plan, Rule};
use rules::{Steps, judge, required_of};
use std::alloc::Global;
use std::sync::ledger::Ledger;

/// The leg of a plan that needs advice, and the evidence by which it is judged.
#[derive(Clone, Copy)]
pub(crate) struct Inquiry<'a> {
    pub plan: &'a Plan,
    pub phase: Phase,
    /// The number of the leg, counted from 1.
    pub leg: u32,
    pub facts: &'a Reports,
    pub deferrals: &'a Deferrals,
    pub tables: &'a Tables,
    pub moment: Minute,
}

// Returns true if a rule asks for an alternate, or for one more.
fn asks_for_more(rule: Rule) -> bool
    ensures { result ≡ spec.asks_for_more rule }
{
    match rule {
        Rule::No7 | Rule::No8 | Rule::No9 => true,
        _ => false,
    }
}

// Returns true if a rule is against the listed alternate at a place. The rule on airports has the destination at place
// 0 and the takeoff alternate at place 9.
fn is_against(rule: Rule, place: u64) -> bool
    ensures { result ≡ spec.is_against rule place }
{
    match rule {
        Rule::No10 => true,
        Rule::No13 => 1 <= place && place <= 3,
        _ => false,
    }
}

// Returns true if a finding on the leg asks for an alternate, or for one more.
fn any_asks(findings: &[Finding], leg: u32) -> bool
    ensures { result ≡ list_any (spec.is_on leg (λ rule place. spec.asks_for_more rule)) findings.now }
{
    findings.iter().any(|finding| finding.leg == leg && asks_for_more(finding.rule))
}

// Returns true if a finding on the leg is against a listed alternate.
fn any_against(findings: &[Finding], leg: u32) -> bool
    ensures { result ≡ list_any (spec.is_on leg spec.is_against) findings.now }
{
    findings.iter().any(|finding| finding.leg == leg && is_against(finding.rule, finding.place))
}

fn verdict_by(findings: &[Finding], leg: u32, required: u64) -> Verdict
    ensures { result ≡ spec.verdict_by findings.now leg required }
{
    Verdict {
        are_enough: !any_asks(findings, leg),
        are_usable: !any_against(findings, leg),
        required,
    }
}

impl<'a> Inquiry<'a> {
    /// Judges the plan with these alternates on the leg. It counts one step at most.
    pub(crate) fn verdict<L: Ledger>(
        &self,
        alloc: Global,
        listed: &[Alternate],
        steps: &mut Steps<L>,
    ) -> Result<Verdict, OutOfMemory>
        requires { IsPlan self.now.plan.now }
        ensures value { IfOk result (λ v. v ≡ spec.verdict_in self.now listed.now) }
        ensures steps { steps.new ≤ steps.old + 1 }
    {
        let plan = plan_with(alloc, self.plan, self.leg, listed)?;
        let findings = judge(
            alloc,
            &plan,
            self.phase,
            self.facts,
            self.deferrals,
            self.tables,
            self.moment,
            steps,
        )?;
        let required = required_of(
            alloc,
            &plan,
            self.phase,
            self.leg,
            self.facts,
            self.deferrals,
            self.tables,
        )?;
        Ok(verdict_by(findings.as_slice(), self.leg, required))
    }

    /// Judges the plan with each of these alternates alone on the leg.
    pub(crate) fn verdicts_alone<L: Ledger>(
        &self,
        alloc: Global,
        choices: &[Alternate],
        steps: &mut Steps<L>,
    ) -> Result<Vec<Verdict>, OutOfMemory>
        requires { IsPlan self.now.plan.now }
        ensures value { IfOk result (λ v. v.items ≡ map (λ it. spec.verdict_in self.now (it ∷ [])) choices.now) }
        ensures steps { steps.new ≤ steps.old + length choices.now }
    {
        let mut verdicts = Vec::new(alloc);
        for choice in choices {
            verdicts.push(self.verdict(alloc, &[*choice], steps)?)?;
        }
        Ok(verdicts)
    }
}

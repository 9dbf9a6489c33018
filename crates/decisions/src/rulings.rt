ghost use Rattle.std.specs.Prelude.{◌≡◌, ◌+◌};
ghost use Rattle.plan.specs.Check.{IsPlan};
ghost use Rattle.rules.specs.Judgement.{findings_of};
ghost use Rattle.desk_state.specs.Decide as spec;
ghost use Rattle.desk_state.specs.State.{grounds_of};
ghost use Rattle.decisions.specs.Answers.{Passes};

use crate::chain::Stop;
use asks::Refusal;
use desk_state::Content;
use plan::{Findings, Phase, Plan};
use rules::{Steps, judge};
use std::alloc::Global;
use std::sync::ledger::Ledger;

fn failing(findings: Findings) -> Result<(), Stop>
    ensures { Passes result (spec.failing findings) }
{
    if findings.as_slice().is_empty() {
        Ok(())
    } else {
        Err(Stop::Refused(Refusal::RuleFails { findings }))
    }
}

/// Judges a plan in a phase by the desk's content. Refuses (17) if it fails a rule.
pub(crate) fn judged<L: Ledger>(
    alloc: Global,
    content: &Content,
    plan: &Plan,
    phase: Phase,
    steps: &mut Steps<L>,
) -> Result<(), Stop>
    requires { IsPlan plan.now }
    ensures passes { Passes result (spec.failing (findings_of plan.now phase (grounds_of content.now.state))) }
    ensures steps { steps.new ≡ steps.old + 1 }
{
    let findings = judge(
        alloc,
        plan,
        phase,
        content.reports(),
        content.deferrals(),
        content.tables(),
        content.moment(),
        steps,
    )?;
    failing(findings)
}

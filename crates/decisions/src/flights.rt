ghost use Rattle.std.specs.Prelude.{◌≡◌, ◌≤◌, ◌<◌, ◌+◌, IsTrue, IfOk, IfSome};
ghost use Rattle.std.specs.Option.{option_copied};
ghost use Rattle.desk_state.specs.Decide as spec;
ghost use Rattle.desk_state.specs.Sound.{ReleaseInBounds, RevisionInBounds};
ghost use Rattle.decisions.specs.Answers.{Answers, Passes};
ghost use Rattle.decisions.specs.Reads.{DecisionAdmitsRead};

use crate::chain::Stop;
use crate::people::is_captain;
use crate::releases::{held, in_phase, not_yours, out_of_phase};
use crate::rulings::judged;
use asks::Done;
use desk_io::{OutOfMemory, Text};
use desk_state::{Content, Decision, Effect};
use desk_time::Minute;
use ops_tables::Actor;
use plan::{Phase, Release, Revision, is_active, is_flying};
use rules::Steps;
use std::alloc::Global;
use std::sync::ledger::Ledger;

fn may_depart(phase: Phase, leg: u32) -> bool
    ensures { result ≡ spec.may_depart phase leg }
{
    match phase {
        Phase::Ready => leg == 1,
        Phase::Stopped { next, .. } => leg == next,
        Phase::Drafted | Phase::Flying { .. } | Phase::Completed { .. } | Phase::Cancelled { .. } =>
            false,
    }
}

// Returns the captain of the active plan, or the holder if there is none.
fn active_captain(release: &Release) -> &Text
    ensures { result.now ≡ spec.captain_or release.now.active release.now.holder }
{
    match &release.active {
        None => &release.holder,
        Some(revision) => &revision.plan.captain,
    }
}

fn flies_by<'a>(person: Option<&Actor>, release: &'a Release) -> &'a Text
    ensures { result.now ≡ spec.flies_by (option_copied person.entry) release.now }
{
    match person {
        Some(person) if is_captain(person.role()) => active_captain(release),
        _ => &release.holder,
    }
}

fn fails_now<L: Ledger>(
    alloc: Global,
    content: &Content,
    release: &Release,
    steps: &mut Steps<L>,
) -> Result<(), Stop>
    requires { ReleaseInBounds release.now }
    ensures passes { Passes result (spec.fails_now content.now.state release.now) }
    ensures steps { steps.new ≤ steps.old + 1 }
{
    match &release.active {
        Some(revision) if is_active(release.phase) => {
            judged(alloc, content, &revision.plan, release.phase, steps)
        }
        _ => Ok(()),
    }
}

fn has_more(release: &Release, leg: u32) -> bool
    requires { IfSome release.now.active RevisionInBounds }
    ensures value { result ≡ spec.has_more release.now leg }
    ensures small { IsTrue result → leg < 1000 }
{
    match &release.active {
        None => false,
        Some(revision) => (leg as usize) < revision.plan.legs.as_slice().len(),
    }
}

fn arrival(
    alloc: Global,
    release: &Release,
    leg: u32,
    moment: Minute,
) -> Result<Decision, OutOfMemory>
    requires { ReleaseInBounds release.now }
    ensures value { IfOk result (λ d. d ≡ spec.arrival (spec.has_more release.now leg) release.now leg moment) }
    ensures read { IfOk result DecisionAdmitsRead }
{
    let made = Done::Release(release.id);
    if has_more(release, leg) {
        let phase = Phase::Stopped {
            next: leg + 1,
            since: moment,
            again: false,
        };
        let stopped = in_phase(alloc, release, phase)?;
        Ok(Decision::Do(made, Effect::put(stopped)))
    } else {
        let completed = in_phase(alloc, release, Phase::Completed { at: moment })?;
        Ok(Decision::Do(made, Effect::put_afresh(completed)))
    }
}

/// Decides a departure. The leg must be the next one, and the active plan must fail no rule.
pub(crate) fn depart<L: Ledger>(
    alloc: Global,
    content: &Content,
    actor: &Text,
    id: u64,
    leg: u32,
    steps: &mut Steps<L>,
) -> Result<Decision, Stop>
    ensures value { Answers (λ d. d) result (spec.decide_depart content.now.state actor.now id leg) }
    ensures read { IfOk result DecisionAdmitsRead }
    ensures steps { steps.new ≤ steps.old + 1 }
{
    let release = held(content, id)?;
    out_of_phase(may_depart(release.phase, leg), release.phase)?;
    let person = content.tables().actor(actor.bytes());
    not_yours(alloc, flies_by(person, release), actor)?;
    fails_now(alloc, content, release, steps)?;
    let made = Done::Release(release.id);
    let departed = in_phase(alloc, release, Phase::Flying { leg })?;
    Ok(Decision::Do(made, Effect::put(departed)))
}

/// Decides the arrival of the leg in flight. After the last leg the release is completed.
pub(crate) fn arrive(
    alloc: Global,
    content: &Content,
    actor: &Text,
    id: u64,
    leg: u32,
) -> Result<Decision, Stop>
    ensures value { Answers (λ d. d) result (spec.decide_arrive content.now.state actor.now id leg) }
    ensures read { IfOk result DecisionAdmitsRead }
{
    let release = held(content, id)?;
    out_of_phase(is_flying(release.phase, leg), release.phase)?;
    let person = content.tables().actor(actor.bytes());
    not_yours(alloc, flies_by(person, release), actor)?;
    Ok(arrival(alloc, release, leg, content.moment())?)
}

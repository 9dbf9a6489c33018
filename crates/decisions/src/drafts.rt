ghost use Rattle.std.specs.Prelude.{◌≡◌, ◌<◌, ◌≤◌, IfOk, IfSome};
ghost use Rattle.std.specs.Option.{option_copied};
ghost use Rattle.plan.specs.Check.{IsPlan, plan_fault};
ghost use Rattle.desk_state.specs.Decide as spec;
ghost use Rattle.desk_state.specs.Texts as texts;
ghost use Rattle.decisions.specs.Answers.{Answers, Passes};
ghost use Rattle.decisions.specs.Newest.{IsNewest, HasNewest};
ghost use Rattle.decisions.specs.Reads.{DecisionAdmitsRead};

use crate::chain::{Stop, refused_if};
use crate::releases::{held, in_phase, not_yours, out_of_phase, pending, with_pending};
use asks::{Done, Refusal};
use desk_io::{Copied, Listed, OutOfMemory, Text};
use desk_state::{Content, Decision, Effect};
use ops_tables::Tables;
use plan::{BadPlan, Phase, Plan, Release, Revision, check_change, check_plan};
use release_index::RELEASE_LIMIT;
use release_text::{attach, revision_digest};
use std::alloc::Global;

fn refused_plan(bad: BadPlan) -> Stop
    ensures { result ≡ Stop.Refused (Refusal.BadPlan bad.leg bad.why) }
{
    Stop::Refused(Refusal::BadPlan {
        leg: bad.leg,
        what: bad.why,
    })
}

fn bad_plan(plan: &Plan, tables: &Tables) -> Result<(), Stop>
    requires { IsPlan plan.now }
    ensures { Passes result (spec.bad_plan (plan_fault tables.now plan.now)) }
{
    match check_plan(plan, tables) {
        Ok(()) => Ok(()),
        Err(bad) => Err(refused_plan(bad)),
    }
}

// Returns the pending revision, or else the active one.
fn newest(release: &Release) -> Option<&Revision>
    requires { HasNewest release.now }
    ensures value { option_copied result ≡ texts.newest release.now.pending release.now.active }
    ensures newest { IfSome (option_copied result) (IsNewest release.now.phase) }
{
    match &release.pending {
        Some(revision) => Some(revision),
        None => release.active.as_ref(),
    }
}

fn bad_change(plan: &Plan, newest: Option<&Revision>, phase: Phase) -> Result<(), Stop>
    requires { IfSome (option_copied newest) (IsNewest phase) }
    ensures { Passes result (spec.bad_change plan.now (option_copied newest.entry) phase) }
{
    match newest {
        None => Ok(()),
        Some(revision) => match check_change(plan, &revision.plan, phase) {
            Ok(()) => Ok(()),
            Err(bad) => Err(refused_plan(bad)),
        },
    }
}

fn newest_number(newest: Option<&Revision>, phase: Phase) -> u64
    requires { IfSome (option_copied newest) (IsNewest phase) }
    ensures value { result ≡ texts.revision_number (option_copied newest.entry) }
    ensures small { result ≤ 999_999_999_999_999 }
{
    match newest {
        None => 0,
        Some(revision) => revision.number,
    }
}

fn may_change(phase: Phase) -> bool
    ensures { result ≡ spec.may_change phase }
{
    match phase {
        Phase::Drafted | Phase::Ready | Phase::Flying { .. } | Phase::Stopped { .. } => true,
        Phase::Completed { .. } | Phase::Cancelled { .. } => false,
    }
}

fn fresh_revision(alloc: Global, number: u64, plan: &Plan) -> Result<Revision, OutOfMemory>
    ensures { IfOk result (λ v. v ≡ spec.fresh_revision number plan.now) }
{
    Ok(Revision {
        number,
        plan: plan.copy(alloc)?,
        prepared: false,
        attached: Listed::new(alloc),
        dispatcher: None,
        captain: None,
        hours: None,
    })
}

fn drafted(alloc: Global, id: u64, actor: &Text, plan: &Plan) -> Result<Release, OutOfMemory>
    ensures { IfOk result (λ r. r ≡ spec.drafted id actor.now plan.now) }
{
    Ok(Release {
        id,
        holder: actor.copy(alloc)?,
        phase: Phase::Drafted,
        pending: Some(fresh_revision(alloc, 1, plan)?),
        active: None,
    })
}

// Returns the revision with the latest weather and no signatures.
fn with_weather(
    alloc: Global,
    content: &Content,
    phase: Phase,
    revision: &Revision,
) -> Result<Revision, OutOfMemory>
    requires { IsPlan revision.now.plan }
    ensures value { IfOk result (λ v. v ≡ spec.with_weather content.now.state phase revision.now) }
    ensures is_plan { IfOk result (λ v. IsPlan v.plan) }
{
    Ok(Revision {
        number: revision.number,
        plan: revision.plan.copy(alloc)?,
        prepared: true,
        attached: attach(alloc, content.reports(), &revision.plan, phase)?,
        dispatcher: None,
        captain: None,
        hours: None,
    })
}

fn releases_full(content: &Content) -> Result<(), Stop>
    ensures { Passes result (spec.releases_full content.now.state) }
{
    let held = content.releases().len();
    refused_if(
        held >= RELEASE_LIMIT,
        Refusal::ReleasesFull { held: held as u64 },
    )
}

/// Decides a draft: files a release of a plan.
pub(crate) fn draft(
    alloc: Global,
    content: &Content,
    actor: &Text,
    plan: &Plan,
) -> Result<Decision, Stop>
    requires { IsPlan plan.now }
    ensures value { Answers (λ d. d) result (spec.decide_draft content.now.state actor.now plan.now) }
    ensures read { IfOk result DecisionAdmitsRead }
{
    bad_plan(plan, content.tables())?;
    releases_full(content)?;
    let id = content.counters().next_release;
    let release = drafted(alloc, id, actor, plan)?;
    Ok(Decision::Do(
        Done::Filed {
            release: id,
            revision: 1,
        },
        Effect::file(release),
    ))
}

/// Decides a preparation: attaches the latest weather to the pending revision, which completes its text.
pub(crate) fn prepare(
    alloc: Global,
    content: &Content,
    actor: &Text,
    id: u64,
) -> Result<Decision, Stop>
    ensures value { Answers (λ d. d) result (spec.decide_prepare content.now.state actor.now id) }
    ensures read { IfOk result DecisionAdmitsRead }
{
    let release = held(content, id)?;
    let revision = pending(release)?;
    not_yours(alloc, &release.holder, actor)?;
    let prepared = with_weather(alloc, content, release.phase, revision)?;
    let digest = revision_digest(alloc, &prepared)?;
    let made = Done::Prepared {
        release: release.id,
        revision: revision.number,
        digest,
    };
    let release = with_pending(alloc, release, prepared)?;
    Ok(Decision::Do(made, Effect::put(release)))
}

/// Decides an amendment: files a plan as the pending revision, under the number after the newest. The active revision
/// stays.
pub(crate) fn amend(
    alloc: Global,
    content: &Content,
    actor: &Text,
    id: u64,
    plan: &Plan,
) -> Result<Decision, Stop>
    requires plan { IsPlan plan.now }
    ensures value { Answers (λ d. d) result (spec.decide_amend content.now.state actor.now id plan.now) }
    ensures read { IfOk result DecisionAdmitsRead }
{
    let release = held(content, id)?;
    out_of_phase(may_change(release.phase), release.phase)?;
    not_yours(alloc, &release.holder, actor)?;
    bad_plan(plan, content.tables())?;
    let newest = newest(release);
    bad_change(plan, newest, release.phase)?;
    let number = newest_number(newest, release.phase) + 1;
    let made = Done::Filed {
        release: release.id,
        revision: number,
    };
    let release = with_pending(alloc, release, fresh_revision(alloc, number, plan)?)?;
    Ok(Decision::Do(made, Effect::put(release)))
}

/// Decides a cancellation.
pub(crate) fn cancel(
    alloc: Global,
    content: &Content,
    actor: &Text,
    id: u64,
) -> Result<Decision, Stop>
    ensures value { Answers (λ d. d) result (spec.decide_cancel content.now.state actor.now id) }
    ensures read { IfOk result DecisionAdmitsRead }
{
    let release = held(content, id)?;
    out_of_phase(may_change(release.phase), release.phase)?;
    not_yours(alloc, &release.holder, actor)?;
    let phase = Phase::Cancelled {
        at: content.moment(),
    };
    let made = Done::Release(release.id);
    let release = in_phase(alloc, release, phase)?;
    Ok(Decision::Do(made, Effect::put_afresh(release)))
}

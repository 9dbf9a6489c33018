ghost use Rattle.std.specs.Prelude.{◌≡◌, ◌≤◌, ◌+◌, IfOk};
ghost use Rattle.plan.specs.Check.{IsPlan};
ghost use Rattle.desk_state.specs.Decide as spec;
ghost use Rattle.decisions.specs.Answers.{Answers, Passes, in_turn};
ghost use Rattle.decisions.specs.Reads.{DecisionAdmitsRead};

use crate::chain::{Stop, refused_if};
use crate::hours::captain_hours;
use crate::releases::{held, not_yours, pending, with_pending};
use crate::rulings::judged;
use asks::{Done, Refusal};
use desk_io::{Copied, OutOfMemory, Text};
use desk_state::{Content, Decision, Effect};
use desk_time::Minute;
use plan::{Phase, Release, Revision, Signature};
use release_text::{newer, revision_digest};
use rules::Steps;
use std::alloc::Global;
use std::sync::ledger::Ledger;

fn once_signed(phase: Phase) -> Phase
    ensures { result ≡ spec.once_signed phase }
{
    match phase {
        Phase::Drafted | Phase::Ready => Phase::Ready,
        Phase::Stopped { next, since, .. } => Phase::Stopped {
            next,
            since,
            again: true,
        },
        Phase::Flying { .. } | Phase::Completed { .. } | Phase::Cancelled { .. } => phase,
    }
}

fn unprepared(revision: &Revision) -> Result<(), Stop>
    ensures { Passes result (spec.unprepared revision.now) }
{
    refused_if(!revision.prepared, Refusal::NotPending { stage: 1 })
}

fn unsigned(revision: &Revision) -> Result<(), Stop>
    ensures { Passes result (spec.unsigned revision.now.dispatcher) }
{
    match &revision.dispatcher {
        None => Err(Stop::Refused(Refusal::NotPending { stage: 2 })),
        Some(_) => Ok(()),
    }
}

fn misnumbered(revision: &Revision, number: u64) -> Result<(), Stop>
    ensures { Passes result (spec.misnumbered revision.now number) }
{
    refused_if(
        revision.number != number,
        Refusal::WrongRevision {
            current: revision.number,
        },
    )
}

fn mistaken_text(alloc: Global, revision: &Revision, digest: &[u8; 32]) -> Result<(), Stop>
    requires { IsPlan revision.now.plan }
    ensures { Passes result (spec.mistaken_text revision.now digest.now) }
{
    let current = revision_digest(alloc, revision)?;
    refused_if(
        current.as_slice() != digest.as_slice(),
        Refusal::WrongText { digest: current },
    )
}

fn signed(revision: &Revision) -> Result<(), Stop>
    ensures { Passes result (spec.signed revision.now.dispatcher) }
{
    match &revision.dispatcher {
        None => Ok(()),
        Some(_) => Err(Stop::Refused(Refusal::AlreadySigned)),
    }
}

fn outdated(content: &Content, release: &Release, revision: &Revision) -> Result<(), Stop>
    requires { IsPlan revision.now.plan }
    ensures { Passes result (spec.outdated content.now.state release.now revision.now) }
{
    match newer(
        content.reports(),
        &revision.plan,
        release.phase,
        &revision.attached,
    ) {
        None => Ok(()),
        Some(report) => Err(Stop::Refused(Refusal::WeatherNewer { report })),
    }
}

fn fails<L: Ledger>(
    alloc: Global,
    content: &Content,
    release: &Release,
    revision: &Revision,
    steps: &mut Steps<L>,
) -> Result<(), Stop>
    requires { IsPlan revision.now.plan }
    ensures passes { Passes result (spec.fails content.now.state release.now revision.now) }
    ensures steps { steps.new ≡ steps.old + 1 }
{
    judged(
        alloc,
        content,
        &revision.plan,
        once_signed(release.phase),
        steps,
    )
}

fn signed_by(
    alloc: Global,
    actor: &Text,
    at: Minute,
    digest: &[u8; 32],
) -> Result<Signature, OutOfMemory>
    ensures { IfOk result (λ s. s ≡ spec.signed_by actor.now at digest.now) }
{
    Ok(Signature {
        actor: actor.copy(alloc)?,
        at,
        digest: *digest,
    })
}

fn with_dispatcher(
    alloc: Global,
    release: &Release,
    revision: &Revision,
    signature: Signature,
) -> Result<Release, OutOfMemory>
    ensures { IfOk result (λ r. r ≡ spec.with_dispatcher release.now revision.now signature) }
{
    let mut signed = revision.copy(alloc)?;
    signed.dispatcher = Some(signature);
    with_pending(alloc, release, signed)
}

fn made_active(
    alloc: Global,
    release: &Release,
    revision: &Revision,
    signature: Signature,
    hours: u32,
) -> Result<Release, OutOfMemory>
    ensures { IfOk result (λ r. r ≡ spec.made_active release.now revision.now signature hours) }
{
    let mut signed = revision.copy(alloc)?;
    signed.captain = Some(signature);
    signed.hours = Some(hours);
    Ok(Release {
        id: release.id,
        holder: release.holder.copy(alloc)?,
        phase: once_signed(release.phase),
        pending: None,
        active: Some(signed),
    })
}

fn filed(release: &Release, revision: &Revision) -> Done
    ensures { result ≡ Done.Filed release.now.id revision.now.number }
{
    Done::Filed {
        release: release.id,
        revision: revision.number,
    }
}

// Refuses unless the pending revision has this number (14) and its text has this digest (15).
fn misnamed(alloc: Global, revision: &Revision, number: u64, digest: &[u8; 32]) -> Result<(), Stop>
    requires { IsPlan revision.now.plan }
    ensures { Passes result (in_turn (spec.misnumbered revision.now number)
        (spec.mistaken_text revision.now digest.now)) }
{
    misnumbered(revision, number)?;
    mistaken_text(alloc, revision, digest)
}

/// Decides the dispatcher's signature: the holder of a release signs the text of its pending revision (14 CFR
/// 121.663).
pub(crate) fn sign<L: Ledger>(
    alloc: Global,
    content: &Content,
    actor: &Text,
    id: u64,
    number: u64,
    digest: &[u8; 32],
    steps: &mut Steps<L>,
) -> Result<Decision, Stop>
    ensures value { Answers (λ d. d) result (spec.decide_sign content.now.state actor.now id number digest.now) }
    ensures read { IfOk result DecisionAdmitsRead }
    ensures steps { steps.new ≤ steps.old + 1 }
{
    let release = held(content, id)?;
    let revision = pending(release)?;
    unprepared(revision)?;
    not_yours(alloc, &release.holder, actor)?;
    misnamed(alloc, revision, number, digest)?;
    signed(revision)?;
    outdated(content, release, revision)?;
    fails(alloc, content, release, revision, steps)?;
    let signature = signed_by(alloc, actor, content.moment(), digest)?;
    let made = filed(release, revision);
    let release = with_dispatcher(alloc, release, revision, signature)?;
    Ok(Decision::Do(made, Effect::put(release)))
}

/// Decides the captain's concurrence: the captain of the pending plan signs its text after the dispatcher (14 CFR
/// 121.663). The revision becomes the active one, with the captain's hours in the type by the tables.
#[tactic(auto, using(crate::proofs::Turns::both_pass))]
pub(crate) fn concur<L: Ledger>(
    alloc: Global,
    content: &Content,
    actor: &Text,
    id: u64,
    number: u64,
    digest: &[u8; 32],
    steps: &mut Steps<L>,
) -> Result<Decision, Stop>
    ensures value { Answers (λ d. d) result (spec.decide_concur content.now.state actor.now id number digest.now) }
    ensures read { IfOk result DecisionAdmitsRead }
    ensures steps { steps.new ≤ steps.old + 1 }
{
    let release = held(content, id)?;
    let revision = pending(release)?;
    unprepared(revision)?;
    unsigned(revision)?;
    not_yours(alloc, &revision.plan.captain, actor)?;
    misnamed(alloc, revision, number, digest)?;
    outdated(content, release, revision)?;
    fails(alloc, content, release, revision, steps)?;
    let signature = signed_by(alloc, actor, content.moment(), digest)?;
    let made = filed(release, revision);
    let hours = captain_hours(content.tables(), &revision.plan);
    let release = made_active(alloc, release, revision, signature, hours)?;
    Ok(Decision::Do(made, Effect::put_afresh(release)))
}

ghost use Rattle.std.specs.Prelude.{◌≡◌, None, Some, IfOk, IfSome};
ghost use Rattle.std.specs.Option.{option_copied};
ghost use Rattle.desk_state.specs.Decide as spec;
ghost use Rattle.desk_state.specs.Sound.{Fits, ReleaseInBounds, RevisionInBounds};
ghost use Rattle.desk_state.specs.State.{release_at};
ghost use Rattle.decisions.specs.Answers.{Answers, Passes};
ghost use Rattle.decisions.specs.Newest.{HasNewest};

use crate::chain::{Stop, refused_if};
use asks::Refusal;
use desk_io::{Copied, OutOfMemory, Text, copied_option};
use desk_state::Content;
use plan::{Phase, Release, Revision};
use std::alloc::Global;

fn find(content: &Content, id: u64) -> Option<&Release>
    ensures value { option_copied result ≡ release_at id content.now.state.releases }
    ensures fits { IfSome (option_copied result) (Fits content.now.state.counters.events) }
    ensures newest { IfSome (option_copied result) HasNewest }
{
    content.holds();
    content.release(id)
}

/// Returns the release with this id. Refuses (10) if there is none.
pub(crate) fn held(content: &Content, id: u64) -> Result<&Release, Stop>
    ensures value { Answers (λ r. r.now) result (spec.held content.now.state id) }
    ensures fits { IfOk result (λ r. Fits content.now.state.counters.events r.now) }
    ensures newest { IfOk result (λ r. HasNewest r.now) }
{
    match find(content, id) {
        None => Err(Stop::Refused(Refusal::NoSuchRelease)),
        Some(release) => Ok(release),
    }
}

/// Returns the pending revision. Refuses (13, stage 0) if there is none.
pub(crate) fn pending(release: &Release) -> Result<&Revision, Stop>
    requires { ReleaseInBounds release.now }
    ensures value { Answers (λ v. v.now) result (spec.pending release.now) }
    ensures bounds { IfOk result (λ v. RevisionInBounds v.now) }
{
    match &release.pending {
        None => Err(Stop::Refused(Refusal::NotPending { stage: 0 })),
        Some(revision) => Ok(revision),
    }
}

/// Refuses (11) unless the caller is this person.
pub(crate) fn not_yours(alloc: Global, person: &Text, actor: &Text) -> Result<(), Stop>
    ensures { Passes result (spec.not_yours person.now actor.now) }
{
    if person.bytes() == actor.bytes() {
        Ok(())
    } else {
        Err(Stop::Refused(Refusal::NotYours {
            holder: person.copy(alloc)?,
        }))
    }
}

/// Refuses (18) unless the phase allows the ask.
pub(crate) fn out_of_phase(allowed: bool, phase: Phase) -> Result<(), Stop>
    ensures { Passes result (spec.out_of_phase allowed phase) }
{
    refused_if(!allowed, Refusal::WrongPhase { phase })
}

/// Returns the release with another pending revision.
pub(crate) fn with_pending(
    alloc: Global,
    release: &Release,
    revision: Revision,
) -> Result<Release, OutOfMemory>
    ensures { IfOk result (λ r. r ≡ record release.now { pending = Some revision }) }
{
    Ok(Release {
        id: release.id,
        holder: release.holder.copy(alloc)?,
        phase: release.phase,
        pending: Some(revision),
        active: copied_option(&release.active, alloc)?,
    })
}

/// Returns the release in another phase, without a pending revision.
pub(crate) fn in_phase(
    alloc: Global,
    release: &Release,
    phase: Phase,
) -> Result<Release, OutOfMemory>
    ensures { IfOk result (λ r. r ≡ record release.now { phase = phase; pending = None }) }
{
    Ok(Release {
        id: release.id,
        holder: release.holder.copy(alloc)?,
        phase,
        pending: None,
        active: copied_option(&release.active, alloc)?,
    })
}

ghost use Rattle.std.specs.Prelude.{◌≡◌, IfOk, IfSome};
ghost use Rattle.plan.specs.Check.{IsPlan};
ghost use Rattle.release_json.specs.Kept as spec;
ghost use Rattle.release_json.specs.Plans.{HasPlans, MayHavePlan};

use desk_io::OutOfMemory;
use plan::{Phase, Release, Revision, Signature};
use release_text::written_text;
use std::alloc::Global;

// Returns true if the phase goes with the presence of a pending and of an active revision.
fn is_phased(phase: Phase, pending: bool, active: bool) -> bool
    ensures { result ≡ spec.is_phased phase pending active }
{
    match phase {
        Phase::Drafted => pending && !active,
        Phase::Ready | Phase::Flying { .. } | Phase::Stopped { .. } => active,
        Phase::Completed { .. } | Phase::Cancelled { .. } => !pending,
    }
}

// Returns true if the leg that a phase names is between 1 and `legs`.
fn phase_fits(phase: Phase, legs: usize) -> bool
    ensures { result ≡ spec.phase_fits phase legs }
{
    match phase {
        Phase::Flying { leg } => 1 <= leg && leg as usize <= legs,
        Phase::Stopped { next, .. } => 1 <= next && next as usize <= legs,
        Phase::Drafted | Phase::Ready | Phase::Completed { .. } | Phase::Cancelled { .. } => true,
    }
}

fn has_legs(phase: Phase, revision: &Option<Revision>) -> bool
    ensures { result ≡ spec.has_legs phase revision.now }
{
    match revision {
        None => true,
        Some(revision) => {
            let legs = revision.plan.legs.as_slice().len();
            1 <= legs && phase_fits(phase, legs)
        }
    }
}

fn are_numbered(pending: &Option<Revision>, active: &Option<Revision>) -> bool
    ensures { result ≡ spec.are_numbered pending.now active.now }
{
    match (pending, active) {
        (None, _) | (Some(_), None) => true,
        (Some(pending), Some(active)) => active.number < pending.number,
    }
}

fn is_shaped(release: &Release) -> bool
    ensures { result ≡ spec.is_shaped release.now }
{
    is_phased(
        release.phase,
        release.pending.is_some(),
        release.active.is_some(),
    ) && are_numbered(&release.pending, &release.active)
        && has_legs(release.phase, &release.pending)
        && has_legs(release.phase, &release.active)
}

fn has_digest(digest: &[u8; 32], signature: &Option<Signature>) -> bool
    ensures { result ≡ spec.has_digest digest.now signature.now }
{
    match signature {
        None => false,
        Some(signature) => signature.digest.as_slice() == digest.as_slice(),
    }
}

// Returns true if an active revision is prepared and has both signatures on its text.
fn bears_both(alloc: Global, revision: &Option<Revision>) -> Result<bool, OutOfMemory>
    requires { MayHavePlan revision.now }
    ensures { IfOk result (λ b. b ≡ spec.bears_both revision.now) }
{
    match revision {
        None => Ok(true),
        Some(revision) if revision.prepared => {
            let written = written_text(alloc, revision)?;
            Ok(
                has_digest(&written.digest, &revision.dispatcher)
                    && has_digest(&written.digest, &revision.captain),
            )
        }
        Some(_) => Ok(false),
    }
}

fn may_be_signed(
    alloc: Global,
    revision: &Revision,
    signature: &Option<Signature>,
) -> Result<bool, OutOfMemory>
    requires { IsPlan revision.now.plan }
    ensures { IfOk result (λ b. b ≡ spec.may_be_signed revision.now signature.now) }
{
    match signature {
        None => Ok(true),
        Some(signature) if revision.prepared => {
            let written = written_text(alloc, revision)?;
            Ok(signature.digest.as_slice() == written.digest.as_slice())
        }
        Some(_) => Ok(false),
    }
}

// Returns true if a pending revision may still be signed. It has no captain's signature and no captain's hours. A
// dispatcher's signature is on its text.
fn waits(alloc: Global, revision: &Option<Revision>) -> Result<bool, OutOfMemory>
    requires { MayHavePlan revision.now }
    ensures { IfOk result (λ b. b ≡ spec.waits revision.now) }
{
    match revision {
        None => Ok(true),
        Some(revision) if revision.captain.is_some() || revision.hours.is_some() => Ok(false),
        Some(revision) => may_be_signed(alloc, revision, &revision.dispatcher),
    }
}

/// Returns true if the phase, the revisions and the signatures of a release agree. Computes the text and the digest
/// of each revision at most once.
#[tactic(auto, unfolding(crate::specs::Kept::is_valid))]
pub(crate) fn is_valid(alloc: Global, release: &Release) -> Result<bool, OutOfMemory>
    requires { HasPlans release.now }
    ensures { IfOk result (λ b. b ≡ spec.is_valid release.now) }
{
    if !is_shaped(release) || !bears_both(alloc, &release.active)? {
        return Ok(false);
    }
    waits(alloc, &release.pending)
}

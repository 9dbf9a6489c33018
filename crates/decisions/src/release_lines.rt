ghost use Rattle.std.specs.Prelude.{◌≡◌, ◌++◌, ◌∷◌, [], true, Some, codes, decimal, IfOk, IfSome, OnOk};
ghost use Rattle.std.specs.List.{concat};
ghost use Rattle.desk_state.specs.Texts as spec;
ghost use Rattle.desk_state.specs.Sound.{ReleaseInBounds, RevisionInBounds};
ghost use Rattle.plan.specs.Texts.{HasMoment, phase_text};
ghost use Rattle.desk_time.specs.Limits.{IsMoment};
ghost use Rattle.release_text.specs.Revisions.{revision_text, revision_digest};

use desk_io::{OutOfMemory, Text, push_all};
use desk_time::show;
use plan::{Release, Revision, Signature, phase_text};
use release_text::{digits_of, written_text};
use std::alloc::Global;

fn push_signature(out: &mut Vec<u8>, signature: &Signature) -> Result<(), OutOfMemory>
    requires { IsMoment signature.now.at }
    ensures { OnOk result (out.new.items ≡ out.old.items ++ spec.signature_text (Some signature.now)) }
{
    push_all(
        out,
        &[b" ", signature.actor.bytes(), b" ", &show(signature.at)],
    )
}

fn push_signed_by(out: &mut Vec<u8>, signature: &Option<Signature>) -> Result<(), OutOfMemory>
    requires { IfSome signature.now (λ s. IsMoment s.at) }
    ensures { OnOk result (out.new.items ≡ out.old.items ++ spec.signature_text signature.now) }
{
    match signature {
        None => Ok(()),
        Some(signature) => push_signature(out, signature),
    }
}

fn push_prepared(alloc: Global, out: &mut Vec<u8>, revision: &Revision) -> Result<(), OutOfMemory>
    requires { RevisionInBounds revision.now }
    ensures { OnOk result (out.new.items ≡ out.old.items ++ spec.prepared_text true revision.now) }
{
    let written = written_text(alloc, revision)?;
    push_all(
        out,
        &[
            b"PENDING ",
            &digits_of(&written.digest),
            b"\n",
            written.text.bytes(),
        ],
    )
}

#[tactic(auto, unfolding(desk_state::specs::Texts::pending_text))]
fn push_pending(
    alloc: Global,
    out: &mut Vec<u8>,
    pending: &Option<Revision>,
) -> Result<(), OutOfMemory>
    requires { IfSome pending.now RevisionInBounds }
    ensures { OnOk result (out.new.items ≡ out.old.items ++ spec.pending_text pending.now) }
{
    match pending {
        Some(revision) if revision.prepared => push_prepared(alloc, out, revision),
        _ => Ok(()),
    }
}

// Writes a captain's hours, and ends the line.
fn push_hours(alloc: Global, out: &mut Vec<u8>, hours: Option<u32>) -> Result<(), OutOfMemory>
    ensures { OnOk result (out.new.items ≡ out.old.items ++ concat
        (codes " HOURS " ∷ spec.hours_text hours ∷ codes "\n" ∷ [])) }
{
    match hours {
        None => push_all(out, &[b" HOURS ", b"-", b"\n"]),
        Some(hours) => {
            let text = hours.to_string(alloc)?;
            push_all(out, &[b" HOURS ", text.as_bytes(), b"\n"])
        }
    }
}

fn push_active_head(
    alloc: Global,
    out: &mut Vec<u8>,
    revision: &Revision,
    digest: &[u8; 32],
) -> Result<(), OutOfMemory>
    requires bounds { RevisionInBounds revision.now }
    requires digest { digest.now ≡ revision_digest revision.now }
    ensures { OnOk result (out.new.items ≡ out.old.items ++ spec.active_head revision.now) }
{
    push_all(out, &[b"ACTIVE ", &digits_of(digest)])?;
    push_signed_by(out, &revision.dispatcher)?;
    push_signed_by(out, &revision.captain)?;
    push_hours(alloc, out, revision.hours)
}

fn push_signed(alloc: Global, out: &mut Vec<u8>, revision: &Revision) -> Result<(), OutOfMemory>
    requires { RevisionInBounds revision.now }
    ensures { OnOk result (out.new.items ≡ out.old.items ++ (spec.active_head revision.now ++ revision_text
        revision.now)) }
{
    let written = written_text(alloc, revision)?;
    push_active_head(alloc, out, revision, &written.digest)?;
    push_all(out, &[written.text.bytes()])
}

#[tactic(auto, unfolding(desk_state::specs::Texts::active_text))]
fn push_active(
    alloc: Global,
    out: &mut Vec<u8>,
    active: &Option<Revision>,
) -> Result<(), OutOfMemory>
    requires { IfSome active.now RevisionInBounds }
    ensures { OnOk result (out.new.items ≡ out.old.items ++ spec.active_text active.now) }
{
    match active {
        None => Ok(()),
        Some(revision) => push_signed(alloc, out, revision),
    }
}

fn push_head(alloc: Global, out: &mut Vec<u8>, release: &Release) -> Result<(), OutOfMemory>
    requires { HasMoment release.now.phase }
    ensures { OnOk result (out.new.items ≡ out.old.items ++ concat
        (codes "RELEASE " ∷ decimal release.now.id ∷ codes " " ∷ phase_text release.now.phase ∷ codes "\n" ∷ [])) }
{
    let id = release.id.to_string(alloc)?;
    let phase = phase_text(alloc, release.phase)?;
    push_all(
        out,
        &[b"RELEASE ", id.as_bytes(), b" ", phase.bytes(), b"\n"],
    )
}

/// Shows a release with the texts of its revisions (14 CFR 121.687). First come its id and its phase. The pending
/// revision, if it is prepared, has its digest and its text. The active revision has its digest, who signed it and
/// when, its captain's hours, and its text.
#[tactic(auto, unfolding(desk_state::specs::Texts::release_view))]
pub fn release_view(alloc: Global, release: &Release) -> Result<Text, OutOfMemory>
    requires { ReleaseInBounds release.now }
    ensures { IfOk result (λ t. t ≡ spec.release_view release.now) }
{
    let mut out = Vec::new(alloc);
    push_head(alloc, &mut out, release)?;
    push_pending(alloc, &mut out, &release.pending)?;
    push_active(alloc, &mut out, &release.active)?;
    Ok(Text::from_vec(out))
}

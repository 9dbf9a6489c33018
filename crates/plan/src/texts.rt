ghost use Rattle.std.specs.Prelude.{◌≡◌, ◌∷◌, [], ◌++◌, codes, decimal, IfOk};
ghost use Rattle.std.specs.List.{concat};
ghost use Rattle.desk_time.specs.Limits.{IsMoment};
ghost use Rattle.desk_time.specs.Moments.{shown};
ghost use Rattle.plan.specs.Texts as spec;

use crate::findings::Finding;
use crate::release::Phase;
use desk_io::{OutOfMemory, Text, push_all};
use desk_time::{Minute, show};
use std::alloc::Global;

/// Writes a finding as `CODE/LEG/PLACE`, for example `121.625/1/1`.
#[tactic(auto, unfolding(crate::specs::Texts::finding_text))]
pub fn finding_text(alloc: Global, finding: &Finding) -> Result<Text, OutOfMemory>
    ensures { IfOk result (λ t. t ≡ spec.finding_text finding.now) }
{
    let leg = finding.leg.to_string(alloc)?;
    let place = finding.place.to_string(alloc)?;
    let mut out = Vec::new(alloc);
    push_all(
        &mut out,
        &[
            finding.rule.code().as_bytes(),
            b"/",
            leg.as_bytes(),
            b"/",
            place.as_bytes(),
        ],
    )?;
    Ok(Text::from_vec(out))
}

fn again_text(again: bool) -> &'static [u8]
    ensures { result.now ≡ spec.again_text again }
{
    if again { b" AGAIN" } else { b"" }
}

fn stopped_text(
    alloc: Global,
    next: u32,
    since: Minute,
    again: bool,
) -> Result<Vec<u8>, OutOfMemory>
    requires { IsMoment since }
    ensures { IfOk result (λ v. v.items ≡ concat (codes "STOPPED " ∷ decimal next ∷ codes " " ∷ shown since ∷
        spec.again_text again ∷ [])) }
{
    let next = next.to_string(alloc)?;
    let mut out = Vec::new(alloc);
    push_all(
        &mut out,
        &[
            b"STOPPED ",
            next.as_bytes(),
            b" ",
            &show(since),
            again_text(again),
        ],
    )?;
    Ok(out)
}

// Writes a word and a moment.
fn ended_text(alloc: Global, word: &[u8], at: Minute) -> Result<Vec<u8>, OutOfMemory>
    requires { IsMoment at }
    ensures { IfOk result (λ v. v.items ≡ word.now ++ shown at) }
{
    let mut out = Vec::from_slice(alloc, word)?;
    out.extend_from_slice(&show(at))?;
    Ok(out)
}

fn flying_text(alloc: Global, leg: u32) -> Result<Vec<u8>, OutOfMemory>
    ensures { IfOk result (λ v. v.items ≡ codes "FLYING " ++ decimal leg) }
{
    let leg = leg.to_string(alloc)?;
    let mut out = Vec::from_slice(alloc, b"FLYING ")?;
    out.extend_from_slice(leg.as_bytes())?;
    Ok(out)
}

/// Writes a phase, for example `FLYING 1`.
#[tactic(auto, unfolding(crate::specs::Texts::phase_text))]
pub fn phase_text(alloc: Global, phase: Phase) -> Result<Text, OutOfMemory>
    requires { spec.HasMoment phase }
    ensures { IfOk result (λ t. t ≡ spec.phase_text phase) }
{
    let text = match phase {
        Phase::Drafted => Vec::from_slice(alloc, b"DRAFTED")?,
        Phase::Ready => Vec::from_slice(alloc, b"READY 1")?,
        Phase::Flying { leg } => flying_text(alloc, leg)?,
        Phase::Stopped { next, since, again } => stopped_text(alloc, next, since, again)?,
        Phase::Completed { at } => ended_text(alloc, b"COMPLETED ", at)?,
        Phase::Cancelled { at } => ended_text(alloc, b"CANCELLED ", at)?,
    };
    Ok(Text::from_vec(text))
}

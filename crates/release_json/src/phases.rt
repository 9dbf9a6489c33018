ghost use Rattle.std.specs.Prelude.{◌≡◌, ◌↔◌, Some};
ghost use Rattle.plan.specs.Texts.{phase_text};
ghost use Rattle.release_json.specs.Phases as spec;

use crate::cuts::{cut, leg_of};
use desk_time::read_minute;
use plan::Phase;

fn ready_of(rest: &[u8]) -> Option<Phase>
    ensures { result ≡ spec.ready_of rest.now }
{
    if rest == b"1".as_slice() {
        Some(Phase::Ready)
    } else {
        None
    }
}

fn flying_of(rest: &[u8]) -> Option<Phase>
    ensures { result ≡ spec.flying_of rest.now }
{
    Some(Phase::Flying { leg: leg_of(rest)? })
}

fn again_of(rest: &[u8]) -> Option<bool>
    ensures { result ≡ spec.again_of rest.now }
{
    if rest == b"".as_slice() {
        Some(false)
    } else if rest == b" AGAIN".as_slice() {
        Some(true)
    } else {
        None
    }
}

fn stopped_before(next: u32, rest: &[u8]) -> Option<Phase>
    ensures { result ≡ spec.stopped_before next rest.now }
{
    if rest.len() < 17 {
        return None;
    }
    let since = read_minute(&rest[..17])?;
    let again = again_of(&rest[17..])?;
    Some(Phase::Stopped { next, since, again })
}

fn stopped_of(rest: &[u8]) -> Option<Phase>
    ensures { result ≡ spec.stopped_of rest.now }
{
    let (next, rest) = cut(b' ', rest)?;
    stopped_before(leg_of(next)?, rest)
}

fn completed_of(rest: &[u8]) -> Option<Phase>
    ensures { result ≡ spec.completed_of rest.now }
{
    Some(Phase::Completed {
        at: read_minute(rest)?,
    })
}

fn cancelled_of(rest: &[u8]) -> Option<Phase>
    ensures { result ≡ spec.cancelled_of rest.now }
{
    Some(Phase::Cancelled {
        at: read_minute(rest)?,
    })
}

fn phase_with(word: &[u8], rest: &[u8]) -> Option<Phase>
    ensures { result ≡ spec.phase_with (word.now, rest.now) }
{
    if word == b"READY".as_slice() {
        ready_of(rest)
    } else if word == b"FLYING".as_slice() {
        flying_of(rest)
    } else if word == b"STOPPED".as_slice() {
        stopped_of(rest)
    } else if word == b"COMPLETED".as_slice() {
        completed_of(rest)
    } else if word == b"CANCELLED".as_slice() {
        cancelled_of(rest)
    } else {
        None
    }
}

#[tactic(auto, unfolding(crate::specs::Phases::phase_of))]
fn phase_of(text: &[u8]) -> Option<Phase>
    ensures { result ≡ spec.phase_of text.now }
{
    match cut(b' ', text) {
        Some((word, rest)) => phase_with(word, rest),
        None => {
            if text == b"DRAFTED".as_slice() {
                Some(Phase::Drafted)
            } else {
                None
            }
        }
    }
}

/// Reads a phase, such as `FLYING 1`. A leg is at most 4,294,967,295, and a moment is from 2000 to 2099.
pub fn read_phase(text: &[u8]) -> Option<Phase>
    ensures value { result ≡ spec.phase_of text.now }
    ensures exact { (p : Phase) → (result ≡ Some p) ↔ (spec.IsPhase p × (text.now ≡ phase_text p)) }
{
    phase_of(text)
}

ghost use Rattle.desk_state.specs.Decide as spec;
ghost use Rattle.decisions.specs.Answers.{Answers, Passes};

use crate::chain::{Stop, refused_if};
use asks::{KeptReply, Refusal, Reply};
use desk_state::Decision;

/// Returns the kept reply if the ask has the same digest. Refuses (4) if it has another one.
pub(crate) fn repeated(reply: &KeptReply, digest: &[u8; 32]) -> Result<Decision, Stop>
    ensures { Answers (λ d. d) result (spec.repeated reply.now digest.now) }
{
    if reply.digest == *digest {
        Ok(Decision::Show(Reply::Done(reply.done)))
    } else {
        Err(Stop::Refused(Refusal::NumberReused { kept: reply.id }))
    }
}

/// Refuses (27) unless the number is above the person's floor.
pub(crate) fn above_floor(floor: Option<u64>, number: u64) -> Result<(), Stop>
    ensures { Passes result (spec.up_to_floor floor number) }
{
    match floor {
        None => Ok(()),
        Some(floor) => refused_if(number <= floor, Refusal::NumberSwept { floor }),
    }
}

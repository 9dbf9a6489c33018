ghost use Rattle.desk_state.specs.Chain as spec;
ghost use Rattle.decisions.specs.Answers.{Passes, IsWant};

use asks::Refusal;
use desk_io::OutOfMemory;

/// Why a test stops a call.
#[derive(Debug, Drop)]
pub enum Stop {
    /// The desk refuses the call.
    Refused(Refusal),
    /// Memory ran out.
    OutOfMemory,
}

impl From<OutOfMemory> for Stop {
    ghost from_gives = { λ _ s. IsWant s };

    fn from(_: OutOfMemory) -> Self {
        Stop::OutOfMemory
    }
}

/// Refuses if `refuses` is true.
pub(crate) fn refused_if(refuses: bool, refusal: Refusal) -> Result<(), Stop>
    ensures { Passes result (spec.refused_if refuses refusal) }
{
    if refuses {
        Err(Stop::Refused(refusal))
    } else {
        Ok(())
    }
}

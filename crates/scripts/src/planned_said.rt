ghost use Rattle.std.specs.Prelude.{◌≡◌, IfOk};
ghost use Rattle.scripts.specs.PlannedRuns as spec;
ghost use Rattle.scripts.specs.PlannedShown.{CanBeSaidOfLine};

use asks::HeldCall;
use desk::said_text;
use desk_io::{OutOfMemory, Text};
use desk_json::{LineRefusal, line_refusal_text};
use desk_state::Said;
use std::alloc::Global;

/// What the desk says to a line of a script of planned redispatches.
#[derive(Debug, Drop)]
pub enum LineSaid {
    /// The reply that a call may get too, or the fault of a malformed line.
    Said(Said),
    /// A refusal that only planned lines get (35 or 36).
    Refused(LineRefusal),
}

/// The outcome of a line.
#[derive(Debug, Drop)]
pub struct LineOutcome {
    /// The number of entries in the history before the line's call, after its tick.
    pub position: u64,
    pub said: LineSaid,
}

/// What a line comes to once its moment has come.
#[derive(Debug, Drop)]
pub enum Came {
    /// The desk says this, and nothing of the history changes.
    Says(LineSaid),
    /// This call is made: that of the line, or the amendment for which a turn stands.
    Makes(HeldCall),
}

/// Writes what the desk says as JSON, without a line feed.
pub(crate) fn line_text(alloc: Global, said: &LineSaid) -> Result<Text, OutOfMemory>
    requires { CanBeSaidOfLine said.now }
    ensures { IfOk result (λ t. t ≡ spec.line_text said.now) }
{
    match said {
        LineSaid::Said(said) => said_text(alloc, said),
        LineSaid::Refused(why) => line_refusal_text(alloc, why),
    }
}

ghost use Rattle.std.specs.Prelude.{◌≤◌, ◌+◌, ◌<◌};
ghost use Rattle.asks.specs.Forms.{CallHasForms};
ghost use Rattle.desk_acceptance.specs.Few.{active_releases, few_for};

use alerts::Notices;
use asks::Call;
use desk::Board;
use desk_io::OutOfMemory;
use desk_time::{LAST, Minute};
use rules::Steps;
use std::alloc::Global;
use std::sync::ledger::Ledger;

/// Makes a tick in lane 3, and returns its notices. Of the active releases it judges each once at most, and no other.
#[tactic(auto, using(crate::proofs::CountLaws::few_ticked))]
pub(crate) fn ticked<L: Ledger>(
    alloc: Global,
    board: &mut Board,
    to: Minute,
    steps: &mut Steps<L>,
) -> Result<Notices, OutOfMemory>
    requires later { board.old.state.moment < to }
    requires within { to ≤ LAST }
    ensures { steps.new ≤ steps.old + active_releases board.old.state }
{
    Ok(board.tick(alloc, 3, to, steps)?.notices)
}

/// Makes a call in lane 3, and returns its notices. A report, a deferral and its clearing make judge each active release once at most, and no
/// other; every other ask two plans at most.
#[tactic(auto, using(crate::proofs::CountLaws::few_judged))]
pub(crate) fn applied<L: Ledger>(
    alloc: Global,
    board: &mut Board,
    call: &Call,
    steps: &mut Steps<L>,
) -> Result<Notices, OutOfMemory>
    requires { CallHasForms call.now }
    ensures { steps.new ≤ steps.old + few_for call.now.ask (active_releases board.old.state) }
{
    Ok(board.apply(alloc, 3, call, steps)?.notices)
}

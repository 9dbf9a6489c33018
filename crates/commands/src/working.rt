ghost use Rattle.std.specs.Prelude.{◌≡◌, ◌≤◌, ℕ, None};
ghost use Rattle.alerts.specs.Ringing.{hung_all};
ghost use Rattle.alerts.specs.Seen.{BellSeen};
ghost use Rattle.commands.specs.Bells.{AreRungOver};
ghost use Rattle.commands.specs.Faults.{Outcome};
ghost use Rattle.commands.specs.Seen.{lent};
ghost use Rattle.commands.specs.Working.{AsksAfter, Opens, since};
ghost use Rattle.scripts.specs.Below.{DeskAt, desk_at, desk_seen, DeskGoesOn, IsBoard};
ghost use Rattle.desk_io.specs.Over.{Over, over};
ghost use Rattle.keeper.specs.Seen.{KeeperSeen, KeeperGoesOn};
ghost use Rattle.ops_tables.specs.Tables.{TableRows};

use crate::fault::Fault;
use alerts::{Bell, Ringer};
use desk_io::Text;
use keeper::Keeper;
use ops_tables::Tables;
use scripts::{Board, Desk, OpenFault, Steps, open};
use std::alloc::Global;
use std::sync::ledger::Ledger;

/// The answer of a command, the board if a desk was opened, the keeper and the ringer.
#[derive(Drop)]
pub(crate) struct Ended<K, B> {
    pub answer: Result<Text, Fault>,
    pub board: Option<Board>,
    pub keeper: K,
    pub ringer: Ringer<B>,
}

/// The result of a command, with the clock and the door.
#[derive(Drop)]
pub(crate) struct Answered<K, B, C, D> {
    pub ended: Ended<K, B>,
    pub clock: C,
    pub door: D,
}

/// The result if no desk was opened.
pub(crate) fn boardless<K: Keeper, B: Bell>(
    answer: Result<Text, Fault>,
    keeper: K,
    ringer: Ringer<B>,
) -> Ended<K, B>
    ensures answer { result.answer ≡ answer }
    ensures none { result.board ≡ None }
    ensures keeper { result.keeper ≡ keeper }
    ensures ringer { result.ringer ≡ ringer }
{
    Ended {
        answer,
        board: None,
        keeper,
        ringer,
    }
}

/// The result of work on a desk: the answer, and the parts of the desk. The board is valid.
pub(crate) fn left<K: Keeper, B: Bell>(answer: Result<Text, Fault>, desk: Desk<K, B>) -> Ended<K, B>
    ensures answer { result.answer ≡ answer }
    ensures board { result.board ≡ Some desk.board }
    ensures holds { IsBoard desk.board.opening desk.board.state }
    ensures keeper { result.keeper ≡ desk.keeper }
    ensures ringer { result.ringer ≡ desk.ringer }
{
    let Desk {
        board,
        keeper,
        ringer,
    } = desk;
    let _ = board.now();
    Ended {
        answer,
        board: Some(board),
        keeper,
        ringer,
    }
}

/// What a desk is opened over.
#[derive(Drop)]
pub(crate) struct Provided<K, B> {
    pub tables: Tables,
    pub keeper: K,
    pub ringer: Ringer<B>,
}

/// The work of a command on an open desk, in this thread.
pub(crate) trait Work<K, B, G, T>: Sized + Drop {
    ghost seen: { K → KeeperSeen };

    ghost heard: { B → BellSeen };

    /// What must hold of the desk's tables and the work before it begins.
    ghost ready: { TableRows → Self → Type 0 };

    /// What the work comes to: the desk before and after, and the answer.
    ghost does: { Self → Over DeskAt → Outcome → Type 0 };

    /// What the work asks of the keeper, as it is seen before and after.
    ghost asks: { Self → KeeperSeen → KeeperSeen → Type 0 };

    /// Does the work. The keeper's faults may be counted from any earlier count.
    fn work(
        self,
        alloc: Global,
        desk: &mut Desk<K, B>,
        gate: &G,
        steps: &mut T,
    ) -> Result<Text, Fault>
        requires { ready desk.old.board.state.tables self }
        ensures does { (less : ℕ) → less ≤ (seen desk.old.keeper).health.faults
            → does self (since less (over (desk_at seen) desk.old desk.new)) result }
        ensures asks { asks self (seen desk.old.keeper) (seen desk.new.keeper) }
        ensures on { DeskGoesOn (desk_seen seen heard desk.old) (desk_seen seen heard desk.new) };
}

/// Opens a desk over the tables and the keeper's rows, and works on it.
pub(crate) fn open_over<K: Keeper, B: Bell, G, L: Ledger, W: Work<K, B, G, Steps<L>>>(
    alloc: Global,
    provided: Provided<K, B>,
    work: W,
    gate: &G,
    steps: &mut Steps<L>,
) -> Ended<K, B>
    requires seen { W.seen ≡ K.seen }
    requires heard { W.heard ≡ B.seen }
    requires ready { W.ready provided.tables work }
    ensures opens { Opens provided.tables (W.does work) (lent K.seen provided.keeper result.keeper)
        result.board result.answer }
    ensures asked { AsksAfter (W.asks work) provided.tables (lent K.seen provided.keeper result.keeper)
        result.board }
    ensures keeper { KeeperGoesOn (K.seen provided.keeper) (K.seen result.keeper) }
    ensures rung { AreRungOver result.board (hung_all B.seen provided.ringer) (hung_all B.seen result.ringer) }
{
    let Provided {
        tables,
        keeper,
        ringer,
    } = provided;
    match open(alloc, tables, keeper, ringer, steps) {
        Ok(mut desk) => {
            let answer = work.work(alloc, &mut desk, gate, steps);
            left(answer, desk)
        }
        Err(
            OpenFault {
                keeper,
                ringer,
                why,
            },
        ) => boardless(Err(Fault::from(why)), keeper, ringer),
    }
}

ghost use Rattle.std.specs.Prelude.{◌≡◌, Some};
ghost use Rattle.alerts.specs.Ringing.{hung_all};
ghost use Rattle.commands.specs.Bells.{AreRungSeated};
ghost use Rattle.commands.specs.Seen.{lent};
ghost use Rattle.commands.specs.Sources.{first_of};
ghost use Rattle.commands.specs.Working.{Opens, RunsSeated, RunsShifts};
ghost use Rattle.scripts.specs.Below.{desk_at, desk_seen, DeskGoesOn, IsBoard};
ghost use Rattle.desk_io.specs.Over.{over};
ghost use Rattle.keeper.specs.Seen.{KeeperGoesOn};
ghost use Rattle.scripts.specs.ShiftLines.{HaveHeardSome};

use crate::fault::Fault;
use crate::sources::first_of;
use crate::working::{Ended, Provided, boardless};
use alerts::{Bell, Ringer};
use desk_io::{Listed, Text};
use keeper::Keeper;
use scripts::{Desk, Gate, OpenFault, Steps, open, shift_text};
use std::alloc::Global;
use std::sync::ledger::Ledger;

// Runs a script of shifts on an open desk. The bells that ring at whoever sits are those of `ringer`.
fn run<K: Keeper, B: Bell, G: Gate, L: Ledger>(
    alloc: Global,
    desk: &mut Desk<K, B>,
    ringer: &mut Ringer<B>,
    script: &[u8],
    gate: &G,
    steps: &mut Steps<L>,
) -> Result<Text, Fault>
    ensures run { RunsSeated desk.old.board.opening script.now (over (desk_at K.seen) desk.old desk.new)
        (hung_all B.seen ringer.old) (hung_all B.seen ringer.new) result }
    ensures hears { HaveHeardSome (hung_all B.seen ringer.old) (hung_all B.seen ringer.new) }
    ensures desk { DeskGoesOn (desk_seen K.seen B.seen desk.old) (desk_seen K.seen B.seen desk.new) }
{
    Ok(Text::from_vec(shift_text(alloc, desk, ringer, script, gate, steps)?))
}

// The result of a run of shifts. The desk's own ringer has no bells and is dropped. The board is valid.
fn left_with<K: Keeper, B: Bell + Drop>(
    answer: Result<Text, Fault>,
    desk: Desk<K, B>,
    ringer: Ringer<B>,
) -> Ended<K, B>
    ensures answer { result.answer ≡ answer }
    ensures board { result.board ≡ Some desk.board }
    ensures holds { IsBoard desk.board.opening desk.board.state }
    ensures keeper { result.keeper ≡ desk.keeper }
    ensures ringer { result.ringer ≡ ringer }
{
    let Desk { board, keeper, .. } = desk;
    let _ = board.now();
    Ended {
        answer,
        board: Some(board),
        keeper,
        ringer,
    }
}

/// Opens a desk without bells over the tables and the keeper's rows, and runs a script of shifts on it. The bells ring
/// at whoever sits at the desks.
pub(crate) fn shifts_over<K: Keeper, B: Bell + Drop, G: Gate, L: Ledger>(
    alloc: Global,
    provided: Provided<K, B>,
    texts: &Listed<Text>,
    gate: &G,
    steps: &mut Steps<L>,
) -> Ended<K, B>
    ensures opens { Opens provided.tables (RunsShifts (first_of texts.now)) (lent K.seen provided.keeper result.keeper)
        result.board result.answer }
    ensures keeper { KeeperGoesOn (K.seen provided.keeper) (K.seen result.keeper) }
    ensures rung { AreRungSeated (first_of texts.now) (lent K.seen provided.keeper result.keeper) result.answer
        result.board (hung_all B.seen provided.ringer) (hung_all B.seen result.ringer) }
{
    let Provided {
        tables,
        keeper,
        mut ringer,
    } = provided;
    let script = first_of(texts.as_slice());
    match open(alloc, tables, keeper, Ringer::<B>::none(alloc), steps) {
        Ok(mut desk) => {
            let answer = run(alloc, &mut desk, &mut ringer, script, gate, steps);
            left_with(answer, desk, ringer)
        }
        Err(OpenFault { keeper, why, .. }) => boardless(Err(Fault::from(why)), keeper, ringer),
    }
}

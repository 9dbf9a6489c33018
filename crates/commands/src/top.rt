ghost use Rattle.std.specs.Prelude.{◌≡◌, ◌≢◌, ◌≤◌, [], ◌∷◌, map, string_bytes, IfSome};
ghost use Rattle.std.specs.List.{Contains};
ghost use Rattle.alerts.specs.Ringing.{dropped_seen};
ghost use Rattle.commands.specs.Bells.{AreHandedBack};
ghost use Rattle.commands.specs.Answers.{AreKeptOver, Blames, EndsProgram, HasDoor, HasSources, Says, Writes};
ghost use Rattle.commands.specs.Complete.{HaveServed, IsValid};
ghost use Rattle.desk_io.specs.Health.{IsSound, IsStill};
ghost use Rattle.desk_io.specs.Over.{over};
ghost use Rattle.keeper.specs.Seen.{KeeperGoesOn};
ghost use Rattle.commands.specs.Seen.{lent, service};
ghost use Rattle.scripts.specs.Below.{IsLeft, TellsRowsOf, IsBoard, State};
ghost use Rattle.desk_net.specs.Seen.{ClockGoesOn};
ghost use Rattle.words.specs.Words.{command_of};

use crate::fault::{Fault, tell};
use crate::rung::{Rung, answer_rung};
use alerts::{Bell, Dropped};
use desk_io::{PutFault, Shelf, Sink, Text};
use desk_net::{Clock, Door};
use keeper::Keeper;
use scripts::{Board, Gate};
use service::Program;
use std::alloc::Global;
use std::sync::Wait;
use std::thread::Threads;

/// How the program ends: its exit status, the board if a desk was opened, and everything that was lent to it. `bells`
/// are those that stayed, in order. `dropped` are those that failed, in order of their places.
#[derive(Drop)]
pub struct Ending<K, C, D, B> {
    pub status: u8,
    pub board: Option<Board>,
    pub keeper: K,
    pub clock: C,
    pub door: D,
    pub bells: Vec<B>,
    pub dropped: Vec<Dropped<B>>,
}

// Writes an answer to the sink, and returns the exit status.
fn write<O: Sink>(alloc: Global, answer: Result<Text, Fault>, out: &mut O) -> u8
    ensures { Writes (over O.seen out.old out.new) answer result }
{
    let Ok(told) = tell(alloc, answer) else {
        return Fault::OutOfMemory.status();
    };
    match out.write(told.text.bytes()) {
        Ok(()) => told.status,
        Err(PutFault::Failed) => Fault::WriteFault.status(),
        Err(PutFault::OutOfMemory) => Fault::OutOfMemory.status(),
    }
}

/// Runs the command in the arguments, writes its result, and returns the program's exit status. `words::Task` lists the
/// commands, and what each prints.
///
/// `weather` reads only its file, and doesn't use the keeper. Any other command reads the thirteen tables, then the
/// sources that it names, each once, whole and in order, and nothing else. Tables and texts are those of the bytes that
/// these reads returned. It loads the keeper's rows, and works on the desk of these rows.
///
/// The first fault in this order is reported. When a step is installed it rings the bells, and meanwhile nothing else
/// is done on the desk. The exit status is:
///
/// - 0: the command was completed, and its result was written.
/// - 2: exactly if the arguments form no command; `error 2 Usage` is written.
/// - 3: only if the last read of the source NAME failed, and the shelf's count of faults rose or is saturated; `error 3
///   ReadFault NAME`.
/// - 4: only if the sink's count of faults rose or is saturated. A prefix of the text was written.
/// - 5: only if the keeper's count of faults rose or is saturated; `error 5 KeeperFault`.
/// - 6: exactly if the table NAME, as it was read, has a bad record, the first of which is NUMBER (the header is 1), or
///   an import lacks its header; `error 6 BadTable NAME NUMBER WHY`.
/// - 7: exactly if the loaded rows aren't those of a desk, if the keeper shows them. `error 7 BadRow KIND KEY WHY` or
///   `error 7 BadPair KIND KEY KIND KEY` is their first fault.
/// - 8: memory ran out, and nothing was written. The changes of a prefix of each script stay, and at most one tick
///   more.
/// - 9: only if the door's count of faults rose or is saturated; `error 9 DoorFault`.
/// - 10: exactly if the reads of the source NAME returned more than 64 MiB; `error 10 InputTooLong NAME`. After a 3, 6
///   or 10 nothing more is read.
/// - 11: only if the clock's count of faults rose or is saturated; `error 11 ClockFault`.
/// - 12: exactly if the plan NAME of `advise` can't be read or fails a test, NUMBER is the first bad record of its
///   candidates NAME, or the file NAME of `check` isn't a plan; `error 12 BadInput NAME NUMBER WHY`. This is tested
///   before the rows are loaded.
///
/// A sound shelf, sink, keeper, door or clock doesn't cause 3, 4, 5, 9 or 11. There are two exceptions: the shelf
/// lacks a source, or the door has fewer links than connections. If nothing is served, or no desk is opened, the
/// clock and the door are returned unchanged.
pub fn desk_main<
    R: Threads + Wait + Sync,
    S: Shelf,
    O: Sink,
    C: Clock + Send + Drop,
    K: Keeper + Send,
    B: Bell + Send + Drop,
    D: Door + Drop + Send,
    G: Gate + Program + Sync,
>(
    rt: &R,
    alloc: Global,
    words: &[String],
    shelf: &mut S,
    out: &mut O,
    clock: C,
    keeper: K,
    door: D,
    gate: &G,
    bells: Vec<B>,
) -> Ending<K, C, D, B>
where
    D::Link: Send,
    // If every external object is sound, with all sources and enough links, the status is 0, 2, 6, 7, 8, 10 or 12. So
    // either the command was completed, or memory ran out, or the arguments or the input are at fault.
    ensures complete { HasSources (S.seen shelf.old) (command_of (map string_bytes words.now))
        → HasDoor (D.seen door) (command_of (map string_bytes words.now))
        → IsSound (O.seen out.old).health → IsSound (K.seen keeper).health → IsSound (C.seen clock).health → Contains
        (0 ∷ 2 ∷ 6 ∷ 7 ∷ 8 ∷ 10 ∷ 12 ∷ []) result.status }
    // If the arguments form a command, everything it reads is valid, and no fault was counted, the status is 0 or 8.
    ensures done { IsValid (S.seen shelf.old) (K.seen keeper).rows (command_of (map string_bytes words.now))
        → HaveServed (over S.seen shelf.old shelf.new) (over O.seen out.old out.new) (lent K.seen keeper result.keeper)
        (service C.seen D.seen D.Link.seen clock result.clock door result.door) → Contains (0 ∷ 8 ∷ []) result.status }
    ensures blames { Blames (HasSources (S.seen shelf.old) (command_of (map string_bytes words.now)))
        (IsSound (O.seen out.old).health) (IsSound (K.seen keeper).health)
        (HasDoor (D.seen door) (command_of (map string_bytes words.now)))
        (IsSound (C.seen clock).health) result.status }
    ensures ends { EndsProgram (Says (over S.seen shelf.old shelf.new)
        (service C.seen D.seen D.Link.seen clock result.clock door result.door)
        (lent K.seen keeper result.keeper) (command_of (map string_bytes words.now)) result.board)
        (over O.seen out.old out.new) result.status }
    // Whatever the status, the clock keeps its moments and never goes back among them. The counts of faults of the
    // clock and of the door never fall. A sound clock stays sound, and its count is unchanged.
    ensures clock { ClockGoesOn (C.seen clock) (C.seen result.clock) }
    // At status 0 the clock's count of faults is unchanged.
    ensures still { result.status ≡ 0 → IsStill (C.seen clock).health (C.seen result.clock).health }
    ensures door { (D.seen door).health.faults ≤ (D.seen result.door).health.faults }
    // The keeper's rows are known exactly if they were known before, and its count never falls. A sound keeper stays
    // sound, and its count is unchanged.
    ensures keeper { KeeperGoesOn (K.seen keeper) (K.seen result.keeper) }
    // A sound keeper never ends a run. Since its count is unchanged, it causes no refusal either.
    ensures steady { IsSound (K.seen keeper).health → result.status ≢ 5 }
    // Whatever the status: without a board the rows, if the keeper shows them, are unchanged. With a board they match
    // its state.
    ensures kept { AreKeptOver (lent K.seen keeper result.keeper) result.board }
    // The board is valid. Its history is legal from its opening state. Each active release carries both signatures on
    // its exact text. It fails no rule, or has one alert that names exactly the rules that it fails. Each part of the
    // state has the form in which its row can be read again.
    ensures board { IfSome result.board (λ b. IsBoard b.opening b.state) }
    // Whatever the status, each bell has heard the notices in the board's history for its desk, in order. A bell of
    // desk `*` has heard all notices. A bell that failed at a notice counted a fault. It is returned in `dropped`,
    // with its place and with how many notices it heard. Without a board no bell was rung.
    //
    // `shifts`: if the run gave its text, each bell has heard the notices of the desks at which its person sat when they
    // were made. The text and the notices are those of one run, over the script that the last reads returned.
    ensures bells { EndsProgram (λ answer. AreHandedBack (over S.seen shelf.old shelf.new)
        (command_of (map string_bytes words.now)) (lent K.seen keeper result.keeper) answer result.board
        (map B.seen bells.items) (map B.seen result.bells.items) (map (dropped_seen B.seen) result.dropped.items))
        (over O.seen out.old out.new) result.status }
    // Rows that a desk left have no fault.
    ensures left { (s : State) → IsLeft s → TellsRowsOf (K.seen keeper).rows s → result.status ≢ 7 }
{
    let Rung {
        answer,
        board,
        keeper,
        clock,
        door,
        bells,
        dropped,
    } = answer_rung(rt, alloc, words, shelf, clock, door, keeper, bells, gate);
    let status = write(alloc, answer, out);
    Ending {
        status,
        board,
        keeper,
        clock,
        door,
        bells,
        dropped,
    }
}

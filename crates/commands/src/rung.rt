ghost use Rattle.std.specs.Prelude.{map, string_bytes};
ghost use Rattle.alerts.specs.Ringing.{dropped_seen};
ghost use Rattle.commands.specs.Answers.{Says};
ghost use Rattle.commands.specs.Bells.{AreHandedBack};
ghost use Rattle.commands.specs.Seen.{lent, service};
ghost use Rattle.desk_io.specs.Over.{over};
ghost use Rattle.words.specs.Words.{command_of};

use crate::commands::answer_to;
use crate::fault::Fault;
use crate::working::{Answered, Ended};
use alerts::{Bell, Dropped, Ringer, Unhung};
use desk_io::{Shelf, Text};
use desk_net::{Clock, Door};
use keeper::Keeper;
use scripts::{Board, Gate};
use service::Program;
use std::alloc::Global;
use std::sync::Wait;
use std::thread::Threads;

/// The answer of a command, the board if a desk was opened, and everything that was lent. `bells` are those that
/// stayed, `dropped` those that failed.
#[derive(Drop)]
pub(crate) struct Rung<K, B, C, D> {
    pub answer: Result<Text, Fault>,
    pub board: Option<Board>,
    pub keeper: K,
    pub clock: C,
    pub door: D,
    pub bells: Vec<B>,
    pub dropped: Vec<Dropped<B>>,
}

/// Runs the command in the arguments. The bells are rung for the notices of the history, in a run of shifts at whoever
/// sits at the desks.
pub(crate) fn answer_rung<
    R: Threads + Wait + Sync,
    S: Shelf,
    K: Keeper + Send,
    B: Bell + Send + Drop,
    C: Clock + Send,
    D: Door + Drop + Send,
    G: Gate + Program + Sync,
>(
    rt: &R,
    alloc: Global,
    words: &[String],
    shelf: &mut S,
    clock: C,
    door: D,
    keeper: K,
    bells: Vec<B>,
    gate: &G,
) -> Rung<K, B, C, D>
where
    D::Link: Send,
    ensures says { Says (over S.seen shelf.old shelf.new)
        (service C.seen D.seen D.Link.seen clock result.clock door result.door)
        (lent K.seen keeper result.keeper) (command_of (map string_bytes words.now))
        result.board result.answer }
    ensures bells { AreHandedBack (over S.seen shelf.old shelf.new) (command_of (map string_bytes words.now))
        (lent K.seen keeper result.keeper) result.answer result.board (map B.seen bells.items)
        (map B.seen result.bells.items) (map (dropped_seen B.seen) result.dropped.items) }
{
    match Ringer::new(alloc, bells) {
        Ok(ringer) => {
            let Answered { ended, clock, door } = answer_to(
                rt, alloc, words, shelf, clock, door, keeper, ringer, gate,
            );
            let Ended {
                answer,
                board,
                keeper,
                ringer,
            } = ended;
            let (bells, dropped) = ringer.finish();
            Rung {
                answer,
                board,
                keeper,
                clock,
                door,
                bells,
                dropped,
            }
        }
        Err(Unhung { bells }) => Rung {
            answer: Err(Fault::OutOfMemory),
            board: None,
            keeper,
            clock,
            door,
            bells,
            dropped: Vec::new(alloc),
        },
    }
}

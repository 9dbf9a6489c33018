ghost use Rattle.std.specs.Prelude.{◌≡◌, [], true, None};
ghost use Rattle.alerts.specs.Ringing.{hung_all};
ghost use Rattle.commands.specs.Bells.{AreRungOver};
ghost use Rattle.commands.specs.Seen.{lent, service};
ghost use Rattle.commands.specs.Working.{EndSays, Opens, Races, Serves, Stays, told_of};
ghost use Rattle.scripts.specs.Below.{shown, desk_at, desk_seen, DeskGoesOn};
ghost use Rattle.desk_io.specs.Over.{over};
ghost use Rattle.keeper.specs.Seen.{KeeperGoesOn};

use crate::fault::Fault;
use crate::working::{Answered, Ended, Provided, boardless, left};
use alerts::Bell;
use connections::ServeEnd;
use desk_io::{Listed, OutOfMemory, Text};
use desk_net::{Clock, Door};
use keeper::Keeper;
use scripts::{Board, Desk, Gate, OpenFault, Raced, Steps, open, race};
use service::{Left, Program, serve_door, stay_at_door};
use std::alloc::Global;
use std::sync::Wait;
use std::sync::ledger::Ledger;
use std::thread::Threads;

/// How many workers serve connections. One more than may be busy, so that one waits at the door.
pub const WORKERS: u32 = 33;

// The text of a race, or out of memory.
fn told_of(text: Result<Text, OutOfMemory>) -> Result<Text, Fault>
    ensures { result ≡ told_of text }
{
    match text {
        Ok(text) => Ok(text),
        Err(OutOfMemory) => Err(Fault::OutOfMemory),
    }
}

// From now on a board without a history stores its entries.
fn holding<K: Keeper, B: Bell>(alloc: Global, mut desk: Desk<K, B>) -> Desk<K, B>
    requires { desk.board.state.entries ≡ [] }
    ensures board { result.board ≡ shown desk.board.opening desk.board.state None true }
    ensures keeper { result.keeper ≡ desk.keeper }
    ensures ringer { result.ringer ≡ desk.ringer }
{
    desk.board.hold_entries(alloc);
    desk
}

/// Opens a desk over the tables and the keeper's rows, and races scripts on it.
pub(crate) fn race_over<
    R: Threads + Wait + Sync,
    K: Keeper + Send,
    B: Bell + Send,
    G: Gate + Program + Sync,
    L: Ledger,
>(
    rt: &R,
    alloc: Global,
    provided: Provided<K, B>,
    texts: &Listed<Text>,
    gate: &G,
    steps: &mut Steps<L>,
) -> Ended<K, B>
    ensures opens { Opens provided.tables (Races texts.now) (lent K.seen provided.keeper result.keeper)
        result.board result.answer }
    ensures keeper { KeeperGoesOn (K.seen provided.keeper) (K.seen result.keeper) }
    ensures rung { AreRungOver result.board (hung_all B.seen provided.ringer) (hung_all B.seen result.ringer) }
{
    let Provided {
        tables,
        keeper,
        ringer,
    } = provided;
    match open(alloc, tables, keeper, ringer, steps) {
        Ok(desk) => {
            let _ = desk.board.now();
            let held = holding(alloc, desk);
            let Raced { desk, text } = race(rt, alloc, held, texts.as_slice(), gate);
            left(told_of(text), desk)
        }
        Err(
            OpenFault {
                keeper,
                ringer,
                why,
            },
        ) => boardless(Err(Fault::from(why)), keeper, ringer),
    }
}

// The closing text after serving, or the fault that ended it.
fn answer_of_end(alloc: Global, end: ServeEnd, board: &Board) -> Result<Text, Fault>
    ensures { EndSays end board.now.state result }
{
    match end {
        ServeEnd::Done => Ok(board.closing(alloc)?),
        ServeEnd::DoorFault => Err(Fault::DoorFault),
        ServeEnd::ClockFault => Err(Fault::ClockFault),
        ServeEnd::OutOfMemory => Err(Fault::OutOfMemory),
    }
}

// The answer after connections were served, with the desk, the clock and the door.
struct Served<K, B, C, D> {
    answer: Result<Text, Fault>,
    desk: Desk<K, B>,
    clock: C,
    door: D,
}

// Serves connections at a port over a desk that was just opened.
fn serve<
    R: Threads + Wait + Sync,
    K: Keeper + Send,
    B: Bell + Send,
    C: Clock + Send,
    D: Door + Drop + Send,
    G: Gate + Program + Sync,
>(
    rt: &R,
    alloc: Global,
    desk: Desk<K, B>,
    port: u16,
    connections: u32,
    clock: C,
    door: D,
    gate: &G,
) -> Served<K, B, C, D>
where
    D::Link: Send,
    requires opened { desk.board.state ≡ desk.board.opening }
    requires none { desk.board.state.entries ≡ [] }
    ensures serves { Serves (service C.seen D.seen D.Link.seen clock result.clock door result.door)
        port connections (over (desk_at K.seen) desk result.desk) result.answer }
    ensures desk { DeskGoesOn (desk_seen K.seen B.seen desk) (desk_seen K.seen B.seen result.desk) }
{
    let Left {
        desk,
        clock,
        door,
        end,
    } = serve_door(rt, alloc, desk, clock, door, gate, port, connections);
    let answer = answer_of_end(alloc, end, &desk.board);
    Served {
        answer,
        desk,
        clock,
        door,
    }
}

/// Opens a desk over the tables and the keeper's rows, and serves connections over it.
pub(crate) fn serve_over<
    R: Threads + Wait + Sync,
    K: Keeper + Send,
    B: Bell + Send,
    C: Clock + Send,
    D: Door + Drop + Send,
    G: Gate + Program + Sync,
    L: Ledger,
>(
    rt: &R,
    alloc: Global,
    provided: Provided<K, B>,
    port: u16,
    connections: u32,
    clock: C,
    door: D,
    gate: &G,
    steps: &mut Steps<L>,
) -> Answered<K, B, C, D>
where
    D::Link: Send,
    ensures opens { Opens provided.tables
        (Serves (service C.seen D.seen D.Link.seen clock result.clock door result.door) port connections)
        (lent K.seen provided.keeper result.ended.keeper) result.ended.board result.ended.answer }
    ensures keeper { KeeperGoesOn (K.seen provided.keeper) (K.seen result.ended.keeper) }
    ensures rung { AreRungOver result.ended.board (hung_all B.seen provided.ringer)
        (hung_all B.seen result.ended.ringer) }
    // If no desk was opened, the clock and the door are unchanged.
    ensures idle { result.ended.board ≡ None → (result.clock ≡ clock) × (result.door ≡ door) }
{
    let Provided {
        tables,
        keeper,
        ringer,
    } = provided;
    match open(alloc, tables, keeper, ringer, steps) {
        Ok(desk) => {
            let _ = desk.board.now();
            let Served {
                answer,
                desk,
                clock,
                door,
            } = serve(rt, alloc, desk, port, connections, clock, door, gate);
            let ended = left(answer, desk);
            Answered { ended, clock, door }
        }
        Err(
            OpenFault {
                keeper,
                ringer,
                why,
            },
        ) => {
            let ended = boardless(Err(Fault::from(why)), keeper, ringer);
            Answered { ended, clock, door }
        }
    }
}

// Serves connections at a port over a desk that was just opened, by workers.
fn stay<
    R: Threads + Wait + Sync,
    K: Keeper + Send,
    B: Bell + Send,
    C: Clock + Send,
    D: Door + Drop + Send,
    G: Gate + Program + Sync,
>(
    rt: &R,
    alloc: Global,
    desk: Desk<K, B>,
    port: u16,
    clock: C,
    door: D,
    gate: &G,
) -> Served<K, B, C, D>
where
    D::Link: Send,
    requires opened { desk.board.state ≡ desk.board.opening }
    requires none { desk.board.state.entries ≡ [] }
    ensures stays { Stays (service C.seen D.seen D.Link.seen clock result.clock door result.door) port
        (over (desk_at K.seen) desk result.desk) result.answer }
    ensures desk { DeskGoesOn (desk_seen K.seen B.seen desk) (desk_seen K.seen B.seen result.desk) }
{
    let Left {
        desk,
        clock,
        door,
        end,
    } = stay_at_door(rt, alloc, desk, clock, door, gate, port, WORKERS);
    let answer = answer_of_end(alloc, end, &desk.board);
    Served {
        answer,
        desk,
        clock,
        door,
    }
}

/// Opens a desk over the tables and the keeper's rows, and serves connections over it by workers.
pub(crate) fn stay_over<
    R: Threads + Wait + Sync,
    K: Keeper + Send,
    B: Bell + Send,
    C: Clock + Send,
    D: Door + Drop + Send,
    G: Gate + Program + Sync,
    L: Ledger,
>(
    rt: &R,
    alloc: Global,
    provided: Provided<K, B>,
    port: u16,
    clock: C,
    door: D,
    gate: &G,
    steps: &mut Steps<L>,
) -> Answered<K, B, C, D>
where
    D::Link: Send,
    ensures opens { Opens provided.tables
        (Stays (service C.seen D.seen D.Link.seen clock result.clock door result.door) port)
        (lent K.seen provided.keeper result.ended.keeper) result.ended.board result.ended.answer }
    ensures keeper { KeeperGoesOn (K.seen provided.keeper) (K.seen result.ended.keeper) }
    ensures rung { AreRungOver result.ended.board (hung_all B.seen provided.ringer)
        (hung_all B.seen result.ended.ringer) }
    // If no desk was opened, the clock and the door are unchanged.
    ensures idle { result.ended.board ≡ None → (result.clock ≡ clock) × (result.door ≡ door) }
{
    let Provided {
        tables,
        keeper,
        ringer,
    } = provided;
    match open(alloc, tables, keeper, ringer, steps) {
        Ok(desk) => {
            let _ = desk.board.now();
            let Served {
                answer,
                desk,
                clock,
                door,
            } = stay(rt, alloc, desk, port, clock, door, gate);
            let ended = left(answer, desk);
            Answered { ended, clock, door }
        }
        Err(
            OpenFault {
                keeper,
                ringer,
                why,
            },
        ) => {
            let ended = boardless(Err(Fault::from(why)), keeper, ringer);
            Answered { ended, clock, door }
        }
    }
}

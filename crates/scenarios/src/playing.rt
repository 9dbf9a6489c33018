use crate::counting::GateThatCounts;
use crate::outside::{CaseClock, CaseDoor, CaseKeeper, CaseShelf};
use alerts::{Bell, Dropped, MemoryBell};
use commands::{Ending, Gate, Program, desk_main};
use desk_io::{MemorySink, Shelf, Sink};
use desk_net::{Clock, Door};
use keeper::Keeper;
use std::alloc::Global;
use std::sync::Wait;
use std::thread::Threads;

/// The arguments, the files and the output of a call.
#[derive(Drop)]
pub struct Command {
    pub words: Vec<String>,
    pub shelf: CaseShelf,
    pub sink: MemorySink,
}

/// The objects that a call takes and returns.
#[derive(Drop)]
pub struct Devices {
    pub keeper: CaseKeeper,
    pub clock: CaseClock,
    pub door: CaseDoor,
    pub bells: Vec<MemoryBell>,
}

/// All with which the program is called.
#[derive(Drop)]
pub struct Outside {
    pub command: Command,
    pub devices: Devices,
}

/// The exit status of the program, whether a board is left, and the objects after the call.
#[derive(Drop)]
pub struct Played {
    pub status: u8,
    pub board: bool,
    pub shelf: CaseShelf,
    pub sink: MemorySink,
    pub clock: CaseClock,
    pub keeper: CaseKeeper,
    pub door: CaseDoor,
    pub bells: Vec<MemoryBell>,
    pub dropped: Vec<Dropped<MemoryBell>>,
    pub gate: GateThatCounts,
}

// The exit status of a command, whether a board is left, and the objects that were returned.
#[derive(Drop)]
struct Came<K, C, D, B> {
    status: u8,
    board: bool,
    keeper: K,
    clock: C,
    door: D,
    bells: Vec<B>,
    dropped: Vec<Dropped<B>>,
}

// Calls the program. Drops the contract of `desk_main` here, over type parameters, so that only this proof pays for
// it.
fn came_of<
    R: Threads + Wait + Sync,
    S: Shelf,
    O: Sink,
    C: Clock + Send + Drop,
    K: Keeper + Send,
    B: Bell + Send + Drop,
    D: Door + Drop + Send,
    G: Gate + Program + Sync,
>(
    rt: &R,
    alloc: Global,
    words: &[String],
    shelf: &mut S,
    out: &mut O,
    clock: C,
    keeper: K,
    door: D,
    gate: &G,
    bells: Vec<B>,
) -> Came<K, C, D, B>
where
    D::Link: Send,
{
    let Ending {
        status,
        board,
        keeper,
        clock,
        door,
        bells,
        dropped,
    } = desk_main(
        rt, alloc, words, shelf, out, clock, keeper, door, gate, bells,
    );
    Came {
        status,
        board: board.is_some(),
        keeper,
        clock,
        door,
        bells,
        dropped,
    }
}

/// Calls the program over objects in memory.
#[tactic(auto, using(alerts::proofs::Crossing::MemoryBell_send, desk_net::proofs::Crossing::MemoryDoor_send))]
pub fn play<R: Threads + Wait + Sync>(rt: &R, alloc: Global, outside: Outside) -> Played {
    let Outside { command, devices } = outside;
    let Command {
        words,
        mut shelf,
        mut sink,
    } = command;
    let Devices {
        keeper,
        clock,
        door,
        bells,
    } = devices;
    let gate = GateThatCounts::new();
    let Came {
        status,
        board,
        keeper,
        clock,
        door,
        bells,
        dropped,
    } = came_of(
        rt, alloc, &words, &mut shelf, &mut sink, clock, keeper, door, &gate, bells,
    );
    Played {
        status,
        board,
        shelf,
        sink,
        clock,
        keeper,
        door,
        bells,
        dropped,
        gate,
    }
}

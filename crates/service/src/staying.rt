ghost use Rattle.std.specs.Prelude.{◌≡◌, ◌+◌, ◌<◌, ◌≤◌, ◌^◌, []};
ghost use Rattle.desk.specs.Seen.{desk_at, desk_seen, DeskGoesOn};
ghost use Rattle.desk_io.specs.Over.{over};
ghost use Rattle.desk_net.specs.Seen.{ClockGoesOn};
ghost use Rattle.service.specs.Staying.{IsStaying};

use crate::counted::Counted;
use crate::doors::Left;
use crate::minutes::Minutes;
use crate::opened::Opened;
use crate::rounds::OnDesk;
use crate::shared::Shared;
use crate::surface::Program;
use alerts::Bell;
use connections::Finished;
use desk::{Desk, Gate};
use desk_net::{Clock, Door};
use keeper::Keeper;
use std::alloc::Global;
use std::marker::Brand;
use std::sync::Wait;
use std::thread::Threads;
use workers::stay;

// As `stay_at_door`, where `A` names the desk and the clock at the opening.
fn stay_from<
    R: Threads + Wait + Sync,
    K: Keeper + Send,
    B: Bell + Send,
    C: Clock + Send,
    D: Door + Drop + Send,
    G: Gate + Program + Sync,
    A: Opened + Send,
>(
    rt: &R,
    alloc: Global,
    desk: Desk<K, B>,
    clock: C,
    door: D,
    gate: &G,
    port: u16,
    workers: u32,
) -> Left<K, B, C, D>
where
    D::Link: Send,
    requires desk { desk_seen K.seen B.seen desk ≡ A.desk }
    requires clock { C.seen clock ≡ A.clock }
    requires opened { desk.board.state ≡ desk.board.opening }
    requires none { desk.board.state.entries ≡ [] }
    requires some { 0 < workers }
    requires few { workers + 1 < 2 ^ 32 }
    ensures stays { IsStaying D D.Link.seen (over D.seen door result.door) (over C.seen clock result.clock)
        (over (desk_at K.seen) desk result.desk) port workers result.end }
    ensures desk { DeskGoesOn (desk_seen K.seen B.seen desk) (desk_seen K.seen B.seen result.desk) }
    ensures clock { ClockGoesOn (C.seen clock) (C.seen result.clock) }
    ensures door { (D.seen door).health.faults ≤ (D.seen result.door).health.faults }
{
    let shared = Shared::<K, B, C, A>::new(desk, clock);
    let counted = Counted::new(gate);
    let way = OnDesk {
        gate,
        surface: &counted,
    };
    let Finished { value, door, end } = stay(
        rt, alloc, shared, &way, &Minutes, door, port, workers,
    );
    let (desk, clock) = value.into_parts();
    Left {
        desk,
        clock,
        door,
        end,
    }
}

/// Serves connections at a port over a desk that was just opened, by workers. Each worker has a thread of its own if
/// the machine provides one, and takes the next connection as soon as its last one has ended. Its number is the lane
/// of all its connections. Each of their calls takes a turn of its own. The gate is called around each connection.
/// Every link is given back. A fault of a link ends that connection only. A fault of the door ends the workers.
///
/// Beside the answers of the desk there are two pages, `/health` and `/metrics`, which need no key. They show the name
/// of the program, what the desk holds, and how many requests got which response.
///
/// Beside them the desk ticks as soon as a minute of its clock begins, in the lane after theirs.
///
/// Everything that was done is in one list, of the desk's history, the clock's answers and the misses. The list
/// contains nothing that no connection and no minute asked for.
pub fn stay_at_door<
    R: Threads + Wait + Sync,
    K: Keeper + Send,
    B: Bell + Send,
    C: Clock + Send,
    D: Door + Drop + Send,
    G: Gate + Program + Sync,
>(
    rt: &R,
    alloc: Global,
    desk: Desk<K, B>,
    clock: C,
    door: D,
    gate: &G,
    port: u16,
    workers: u32,
) -> Left<K, B, C, D>
where
    D::Link: Send,
    requires opened { desk.board.state ≡ desk.board.opening }
    requires none { desk.board.state.entries ≡ [] }
    requires some { 0 < workers }
    requires few { workers + 1 < 2 ^ 32 }
    ensures stays { IsStaying D D.Link.seen (over D.seen door result.door) (over C.seen clock result.clock)
        (over (desk_at K.seen) desk result.desk) port workers result.end }
    ensures desk { DeskGoesOn (desk_seen K.seen B.seen desk) (desk_seen K.seen B.seen result.desk) }
    ensures clock { ClockGoesOn (C.seen clock) (C.seen result.clock) }
    ensures door { (D.seen door).health.faults ≤ (D.seen result.door).health.faults }
{
    stay_from::<R, K, B, C, D, G, Brand>(rt, alloc, desk, clock, door, gate, port, workers)
}

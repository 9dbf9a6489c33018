ghost use Rattle.std.specs.Prelude.{◌≡◌, ◌≢◌, ◌≤◌, []};
ghost use Rattle.connections.specs.Doors.{HasLinks};
ghost use Rattle.connections.specs.declared.doors.ServeEnd.TheVariants as ends;
ghost use Rattle.desk.specs.Seen.{desk_at, desk_seen, DeskGoesOn};
ghost use Rattle.desk_io.specs.Health.{IsSound, IsStill};
ghost use Rattle.desk_io.specs.Over.{over};
ghost use Rattle.desk_net.specs.Seen.{ClockGoesOn};
ghost use Rattle.service.specs.Doors.{IsServing};

use crate::opened::Opened;
use crate::rounds::OnDesk;
use crate::shared::Shared;
use crate::surface::Plain;
use alerts::Bell;
use connections::{Finished, ServeEnd, serve_all};
use desk::{Desk, Gate};
use desk_net::{Clock, Door};
use keeper::Keeper;
use std::alloc::Global;
use std::marker::Brand;
use std::sync::Wait;
use std::thread::Threads;

/// The desk, its clock and the door after connections were served, and how the serving ended.
#[derive(Drop)]
pub struct Left<K, B, C, D> {
    pub desk: Desk<K, B>,
    pub clock: C,
    pub door: D,
    pub end: ServeEnd,
}

// As `serve_door`, where `A` names the desk and the clock at the opening.
fn serve_from<
    R: Threads + Wait + Sync,
    K: Keeper + Send,
    B: Bell + Send,
    C: Clock + Send,
    D: Door + Drop,
    G: Gate + Sync,
    A: Opened + Send,
>(
    rt: &R,
    alloc: Global,
    desk: Desk<K, B>,
    clock: C,
    door: D,
    gate: &G,
    port: u16,
    connections: u32,
) -> Left<K, B, C, D>
where
    D::Link: Send,
    requires desk { desk_seen K.seen B.seen desk ≡ A.desk }
    requires clock { C.seen clock ≡ A.clock }
    requires opened { desk.board.state ≡ desk.board.opening }
    requires none { desk.board.state.entries ≡ [] }
    ensures serves { IsServing D.Link.seen (over D.seen door result.door) (over C.seen clock result.clock)
        (over (desk_at K.seen) desk result.desk) port connections result.end }
    ensures desk { DeskGoesOn (desk_seen K.seen B.seen desk) (desk_seen K.seen B.seen result.desk) }
    ensures clock { ClockGoesOn (C.seen clock) (C.seen result.clock) }
    ensures door { (D.seen door).health.faults ≤ (D.seen result.door).health.faults }
    ensures steady_door { IsSound (D.seen door).health → HasLinks (D.seen door).links connections
        → result.end ≢ ends.DoorFault }
{
    let shared = Shared::<K, B, C, A>::new(desk, clock);
    let way = OnDesk {
        gate,
        surface: &Plain,
    };
    let Finished { value, door, end } = serve_all(rt, alloc, shared, &way, door, port, connections);
    let (desk, clock) = value.into_parts();
    Left {
        desk,
        clock,
        door,
        end,
    }
}

/// Serves connections at a port over a desk that was just opened, in rounds of at most 16 at once. A connection is
/// served from its acceptance, in a thread of its own if the machine provides one. Its lane is its number, from 1.
/// Each of its calls takes a turn of its own. The gate is called around the connection. The links are given back in
/// the order of acceptance. A fault of a link ends that connection only. A fault of the door ends the serving.
///
/// Everything that the connections did is in one list, of the desk's history, the clock's answers and the misses. The
/// list contains nothing that no connection asked for.
pub fn serve_door<
    R: Threads + Wait + Sync,
    K: Keeper + Send,
    B: Bell + Send,
    C: Clock + Send,
    D: Door + Drop,
    G: Gate + Sync,
>(
    rt: &R,
    alloc: Global,
    desk: Desk<K, B>,
    clock: C,
    door: D,
    gate: &G,
    port: u16,
    connections: u32,
) -> Left<K, B, C, D>
where
    D::Link: Send,
    requires opened { desk.board.state ≡ desk.board.opening }
    requires none { desk.board.state.entries ≡ [] }
    ensures serves { IsServing D.Link.seen (over D.seen door result.door) (over C.seen clock result.clock)
        (over (desk_at K.seen) desk result.desk) port connections result.end }
    ensures desk { DeskGoesOn (desk_seen K.seen B.seen desk) (desk_seen K.seen B.seen result.desk) }
    ensures clock { ClockGoesOn (C.seen clock) (C.seen result.clock) }
    // A fault of the clock is always reported: if the serving ends with `Done`, the clock's count is unchanged.
    ensures still { result.end ≡ ends.Done → IsStill (C.seen clock).health (C.seen result.clock).health }
    ensures door { (D.seen door).health.faults ≤ (D.seen result.door).health.faults }
    // A sound clock doesn't end the serving. Neither does a sound door with a link for each connection.
    ensures steady_clock { IsSound (C.seen clock).health → result.end ≢ ends.ClockFault }
    ensures steady_door { IsSound (D.seen door).health → HasLinks (D.seen door).links connections
        → result.end ≢ ends.DoorFault }
{
    serve_from::<R, K, B, C, D, G, Brand>(rt, alloc, desk, clock, door, gate, port, connections)
}

ghost use Rattle.std.specs.Prelude.{◌≡◌, ◌≢◌, ℕ, ◌+◌, ◌*◌, ◌<◌, ◌≤◌, ◌^◌, [], List, false};
ghost use Rattle.std.specs.Vec.{vec_capacity};
ghost use mathlib.Core.List.{IsPrefix};
ghost use Rattle.connections.specs.Doors.{HasLinks};
ghost use Rattle.connections.specs.Rounds.{AreServed, EndsRound, HasNoneFrom, HasServed, IsLast, of_turns};
ghost use Rattle.connections.specs.declared.doors.ServeEnd.TheVariants as ends;
ghost use Rattle.desk_io.specs.Health.{IsSound, RoseOrFull};
ghost use Rattle.desk_io.specs.Over.{over};
ghost use Rattle.desk_net.specs.Seen.{DoorSeen};
ghost use Rattle.turn_lock.specs.Elements.{AddsNoneOf, IsAmong};
ghost use Rattle.turn_lock.specs.Passes.{lock_id, pass_lock, pass_number, pass_numbers, pass_seen, pass_splits};

use crate::doors::{Met, ServeEnd, end_at_door, end_of};
use crate::rounds::{Serving, Visited, give_back, serve_rest};
use desk_net::Door;
use std::alloc::Global;
use std::sync::Wait;
use std::thread::Threads;
use turn_lock::{Listed, OutOfMemoryWith, Pass, TurnLock};

// The most connections of a round, all of which are served at once.
const AT_ONCE: u32 = 16;

/// The result of serving connections: the value, the door, and how the serving ended.
#[derive(Drop)]
pub struct Finished<T, D> {
    pub value: T,
    pub door: D,
    pub end: ServeEnd,
}

// State carried from one round to the next: the door, room for a round's connections, what was met, and pass 0.
#[derive(Drop)]
struct Between<T: Listed, D: Door> {
    door: D,
    room: Vec<Visited<D::Link>>,
    met: Met,
    pass: Pass<T>,
}

// Pass 0 takes a turn and ends it at once. After that it has seen the whole list as of that turn.
fn look<R: Wait, T: Listed>(rt: &R, lock: &TurnLock<T>, pass: Pass<T>) -> Pass<T>
    requires lock { (pass_lock pass ≡ lock_id lock.now) × (pass_number pass ≡ 0) }
    ensures pass { (pass_lock result ≡ pass_lock pass) × (pass_number result ≡ 0) }
    ensures numbers { pass_numbers result ≡ pass_numbers pass }
    ensures splits { pass_splits result ≡ pass_splits pass }
    ensures seen { IsPrefix (pass_seen pass) (pass_seen result) }
    ensures own { AddsNoneOf T.bears (pass_numbers pass) (pass_seen pass) (pass_seen result) }
    ensures none { HasNoneFrom T.bears (pass_splits pass + 1) (pass_seen result) }
{
    let turn = lock.take(rt, pass);
    lock.give(turn)
}

// Serves at most `most` connections in one round, after `before` earlier ones, and gives their links back. Returns
// whether the door failed.
fn serve_round<
    R: Threads + Wait + Sync,
    T: Listed + Send,
    D: Door + Drop,
    W: Serving<T::Element, TurnLock<T>, Pass<T>, D::Link> + Sync,
>(
    rt: &R,
    alloc: Global,
    lock: &TurnLock<T>,
    way: &W,
    between: Between<T, D>,
    before: u32,
    most: u32,
) -> (Between<T, D>, bool)
where
    D::Link: Send,
    requires way { W.sight ≡ of_turns }
    requires lock { (pass_lock between.pass ≡ lock_id lock.now) × (pass_number between.pass ≡ 0) }
    requires lanes { (pass_splits between.pass ≡ before) × (before + most < 2 ^ 32) × (most ≤ 16) }
    requires room { (between.room.items ≡ []) × (most ≤ vec_capacity between.room) }
    ensures pass { (pass_lock result.0.pass ≡ pass_lock between.pass) × (pass_number result.0.pass ≡ 0) }
    ensures room { (result.0.room.items ≡ []) × (vec_capacity result.0.room ≡ vec_capacity between.room) }
    ensures served { (port : ℕ) → (began : DoorSeen D.Link) → (round : ℕ) → before ≡ 16 * round
        → AreServed T.bears W.says port began (D.seen between.door) (pass_seen between.pass)
        (pass_numbers between.pass) (pass_splits between.pass) between.met
        → AreServed T.bears W.says port began (D.seen result.0.door) (pass_seen result.0.pass)
        (pass_numbers result.0.pass) (pass_splits result.0.pass) result.0.met }
    ensures ends { EndsRound (RoseOrFull (D.seen between.door).health.faults (D.seen result.0.door).health.faults)
        (before + most) (pass_splits result.0.pass) result.1 }
    ensures steady { IsSound (D.seen between.door).health → HasLinks (D.seen between.door).links most
        → result.1 ≡ false }
    ensures count { (D.seen between.door).health.faults ≤ (D.seen result.0.door).health.faults }
{
    let Between {
        door,
        room,
        met,
        pass,
    } = between;
    let seen = look(rt, lock, pass);
    let (mut door, mut done, failed, pass) = serve_rest(
        rt, alloc, lock, way, seen, before, most, door, room,
    );
    let met = give_back(&mut door, &mut done, met);
    let between = Between {
        door,
        room: done,
        met,
        pass,
    };
    (between, failed)
}

// Opens the door at a port, and serves connections round by round.
fn serve_rounds<
    R: Threads + Wait + Sync,
    T: Listed + Send,
    D: Door + Drop,
    W: Serving<T::Element, TurnLock<T>, Pass<T>, D::Link> + Sync,
>(
    rt: &R,
    alloc: Global,
    lock: &TurnLock<T>,
    way: &W,
    mut between: Between<T, D>,
    port: u16,
    connections: u32,
) -> (Between<T, D>, ServeEnd)
where
    D::Link: Send,
    requires way { W.sight ≡ of_turns }
    requires lock { (pass_lock between.pass ≡ lock_id lock.now) × (pass_number between.pass ≡ 0) }
    requires first { (pass_splits between.pass ≡ 0) × IsAmong 0 (pass_numbers between.pass) }
    requires none { pass_seen between.pass ≡ [] }
    requires room { (between.room.items ≡ []) × (16 ≤ vec_capacity between.room) }
    requires met { between.met.clock ≡ false }
    ensures pass { (pass_lock result.0.pass ≡ pass_lock between.pass) × (pass_number result.0.pass ≡ 0) }
    ensures run { (list : List T.Element) → IsLast T.bears (pass_seen result.0.pass) (pass_numbers result.0.pass)
        (pass_splits result.0.pass) list
        → HasServed T.bears W.says (over D.seen between.door result.0.door) list port connections result.1 }
    ensures count { (D.seen between.door).health.faults ≤ (D.seen result.0.door).health.faults }
    ensures steady { IsSound (D.seen between.door).health → HasLinks (D.seen between.door).links connections
        → result.1 ≢ ends.DoorFault }
{
    let Ok(()) = between.door.bind(port) else {
        return (between, ServeEnd::DoorFault);
    };
    let mut before = 0;
    while before < connections {
        let most = (connections - before).min(AT_ONCE);
        let (next, failed) = serve_round(rt, alloc, lock, way, between, before, most);
        between = next;
        if failed {
            let end = end_at_door(between.met);
            return (between, end);
        }
        before += most;
    }
    let end = end_of(between.met);
    (between, end)
}

/// Serves connections at a port, in rounds of at most 16 at once. A round ends once all of its connections have
/// ended. Each connection takes turns at a lock around the value. The links are given back in the order in which they
/// came.
///
/// A fault of a link ends that connection only. A fault of the door ends the serving. If memory runs out before the
/// first round, the door isn't opened.
pub fn serve_all<
    R: Threads + Wait + Sync,
    T: Listed + Send,
    D: Door + Drop,
    W: Serving<T::Element, TurnLock<T>, Pass<T>, D::Link> + Sync,
>(rt: &R, alloc: Global, value: T, way: &W, door: D, port: u16, connections: u32) -> Finished<T, D>
where
    D::Link: Send,
    requires way { W.sight ≡ of_turns }
    requires empty { T.list value ≡ [] }
    ensures served { HasServed T.bears W.says (over D.seen door result.door) (T.list result.value) port connections
        result.end }
    ensures count { (D.seen door).health.faults ≤ (D.seen result.door).health.faults }
    // A sound door with a link for each connection doesn't end the serving.
    ensures steady { IsSound (D.seen door).health → HasLinks (D.seen door).links connections
        → result.end ≢ ends.DoorFault }
{
    let end = ServeEnd::OutOfMemory;
    let Ok(room) = Vec::with_capacity(alloc, AT_ONCE as usize) else {
        return Finished { value, door, end };
    };
    let (lock, pass) = match TurnLock::new(alloc, value) {
        Ok(parts) => parts,
        Err(OutOfMemoryWith { value }) => return Finished { value, door, end },
    };
    let met = Met {
        memory: false,
        clock: false,
    };
    let between = Between {
        door,
        room,
        met,
        pass,
    };
    let (between, end) = serve_rounds(rt, alloc, &lock, way, between, port, connections);
    let Between {
        door,
        room: _,
        met: _,
        pass,
    } = between;
    let turn = lock.take(rt, pass);
    let value = lock.finish(turn);
    Finished { value, door, end }
}

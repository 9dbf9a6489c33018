ghost use Rattle.std.specs.Prelude.{◌≡◌, ℕ, ◌+◌, ◌<◌, ◌≤◌, ◌^◌, [], ◌∷◌, List, Some};
ghost use Rattle.connections.specs.Rounds.{HasNoneFrom, IsLast, of_turns};
ghost use Rattle.desk_io.specs.Over.{over};
ghost use Rattle.turn_lock.specs.Elements.{IsAmong};
ghost use Rattle.turn_lock.specs.Passes.{lock_id, pass_lock, pass_number, pass_numbers, pass_seen, pass_splits};
ghost use Rattle.workers.specs.Passages.{worker_of};
ghost use Rattle.workers.specs.Staying as spec;
ghost use Rattle.workers.specs.Staying.{HasStayed};
ghost use Rattle.workers.specs.declared.passages.Passage.TheVariants.{Began};

use crate::beside::{Beside, Closing};
use crate::doorway::Doorway;
use crate::starting::work_all;
use connections::{Finished, ServeEnd, Serving};
use desk_net::Door;
use std::alloc::Global;
use std::sync::Wait;
use std::thread::Threads;
use turn_lock::{Listed, OutOfMemoryWith, Pass, TurnLock};

// Workers end by a fault of the door. Out of memory takes precedence over it.
fn end_of(memory: bool) -> ServeEnd
    ensures { result ≡ spec.end_of memory }
{
    if memory {
        ServeEnd::OutOfMemory
    } else {
        ServeEnd::DoorFault
    }
}

// Runs the workers and the work beside them, and takes the door back at their end.
fn run_at<
    R: Threads + Wait + Sync,
    T: Listed + Send,
    D: Door + Drop + Send,
    W: Serving<T::Element, TurnLock<T>, Pass<T>, D::Link> + Sync,
    B: Beside<T::Element, TurnLock<T>, Pass<T>> + Sync,
>(
    rt: &R,
    alloc: Global,
    lock: &TurnLock<T>,
    way: &W,
    beside: &B,
    pass: Pass<T>,
    doors: TurnLock<Doorway<D>>,
    at_door: Pass<Doorway<D>>,
    workers: u32,
) -> (Pass<T>, D, ServeEnd)
where
    D::Link: Send,
    requires way { W.sight ≡ of_turns }
    requires beside { B.sight ≡ of_turns }
    requires lock { (pass_lock pass ≡ lock_id lock.now) × (pass_number pass ≡ 0) }
    requires first { (pass_splits pass ≡ 0) × IsAmong 0 (pass_numbers pass) }
    requires none { pass_seen pass ≡ [] }
    requires doors { (pass_lock at_door ≡ lock_id doors) × (pass_number at_door ≡ 0) }
    requires first_at_door { (pass_splits at_door ≡ 0) × IsAmong 0 (pass_numbers at_door) }
    requires none_at_door { HasNoneFrom worker_of 1 (pass_seen at_door) }
    requires some { 0 < workers }
    requires few { workers + 1 < 2 ^ 32 }
    ensures pass { (pass_lock result.0 ≡ pass_lock pass) × (pass_number result.0 ≡ 0) }
    ensures run { (first : D) → pass_seen at_door ≡ Began first ∷ [] → (port : ℕ) → (list : List T.Element)
        → (D.seen first).opened_at ≡ Some port
        → IsLast T.bears (pass_seen result.0) (pass_numbers result.0) (pass_splits result.0) list
        → HasStayed D T.bears W.says B.does (over D.seen first result.1) list port workers result.2 }
    ensures count { (first : D) → pass_seen at_door ≡ Began first ∷ []
        → (D.seen first).health.faults ≤ (D.seen result.1).health.faults }
{
    let closing = Closing::new();
    let (pass, at_door) = work_all(
        rt, alloc, lock, way, beside, pass, &doors, at_door, 0, workers, &closing,
    );
    let turn = doors.take(rt, at_door);
    let doorway = doors.finish(turn);
    let (door, memory) = doorway.into_parts();
    (pass, door, end_of(memory))
}

// Runs the workers at an open door.
fn run_workers<
    R: Threads + Wait + Sync,
    T: Listed + Send,
    D: Door + Drop + Send,
    W: Serving<T::Element, TurnLock<T>, Pass<T>, D::Link> + Sync,
    B: Beside<T::Element, TurnLock<T>, Pass<T>> + Sync,
>(
    rt: &R,
    alloc: Global,
    lock: &TurnLock<T>,
    way: &W,
    beside: &B,
    pass: Pass<T>,
    door: D,
    workers: u32,
) -> (Pass<T>, D, ServeEnd)
where
    D::Link: Send,
    requires way { W.sight ≡ of_turns }
    requires beside { B.sight ≡ of_turns }
    requires lock { (pass_lock pass ≡ lock_id lock.now) × (pass_number pass ≡ 0) }
    requires first { (pass_splits pass ≡ 0) × IsAmong 0 (pass_numbers pass) }
    requires none { pass_seen pass ≡ [] }
    requires some { 0 < workers }
    requires few { workers + 1 < 2 ^ 32 }
    ensures pass { (pass_lock result.0 ≡ pass_lock pass) × (pass_number result.0 ≡ 0) }
    ensures run { (port : ℕ) → (list : List T.Element) → (D.seen door).opened_at ≡ Some port
        → IsLast T.bears (pass_seen result.0) (pass_numbers result.0) (pass_splits result.0) list
        → HasStayed D T.bears W.says B.does (over D.seen door result.1) list port workers result.2 }
    ensures count { (D.seen door).health.faults ≤ (D.seen result.1).health.faults }
{
    let doorway = Doorway::new(door);
    match TurnLock::new(alloc, doorway) {
        Ok(parts) => {
            let (doors, at_door) = parts;
            run_at(rt, alloc, lock, way, beside, pass, doors, at_door, workers)
        }
        Err(OutOfMemoryWith { value }) => {
            let (door, _) = value.into_parts();
            (pass, door, ServeEnd::OutOfMemory)
        }
    }
}

// Takes the last turn, and ends the lock.
fn finish<R: Wait, T: Listed, D>(
    rt: &R,
    lock: TurnLock<T>,
    pass: Pass<T>,
    door: D,
    end: ServeEnd,
) -> Finished<T, D>
    requires lock { (pass_lock pass ≡ lock_id lock) × (pass_number pass ≡ 0) }
    ensures last { IsLast T.bears (pass_seen pass) (pass_numbers pass) (pass_splits pass) (T.list result.value) }
    ensures door { result.door ≡ door }
    ensures end { result.end ≡ end }
{
    let turn = lock.take(rt, pass);
    let value = lock.finish(turn);
    Finished { value, door, end }
}

// Opens the door, and runs the workers.
fn stay_locked<
    R: Threads + Wait + Sync,
    T: Listed + Send,
    D: Door + Drop + Send,
    W: Serving<T::Element, TurnLock<T>, Pass<T>, D::Link> + Sync,
    B: Beside<T::Element, TurnLock<T>, Pass<T>> + Sync,
>(
    rt: &R,
    alloc: Global,
    lock: TurnLock<T>,
    pass: Pass<T>,
    way: &W,
    beside: &B,
    mut door: D,
    port: u16,
    workers: u32,
) -> Finished<T, D>
where
    D::Link: Send,
    requires way { W.sight ≡ of_turns }
    requires beside { B.sight ≡ of_turns }
    requires lock { (pass_lock pass ≡ lock_id lock) × (pass_number pass ≡ 0) }
    requires first { (pass_splits pass ≡ 0) × IsAmong 0 (pass_numbers pass) }
    requires none { pass_seen pass ≡ [] }
    requires some { 0 < workers }
    requires few { workers + 1 < 2 ^ 32 }
    ensures stayed { HasStayed D T.bears W.says B.does (over D.seen door result.door) (T.list result.value) port
        workers result.end }
    ensures count { (D.seen door).health.faults ≤ (D.seen result.door).health.faults }
{
    let Ok(()) = door.bind(port) else {
        return finish(rt, lock, pass, door, ServeEnd::DoorFault);
    };
    let (pass, door, end) = run_workers(rt, alloc, &lock, way, beside, pass, door, workers);
    finish(rt, lock, pass, door, end)
}

/// Serves connections at a port by workers, each in a thread of its own if the machine provides one. A worker takes
/// the next connection as soon as its last one has ended. Its number, from 1, is the lane of all its connections.
/// Each link is given back to the door.
///
/// Other work runs beside them in a lane of its own, the one after theirs, until a worker has ended.
///
/// A fault of a link ends that connection only. A fault of the door ends the workers, once their connections have
/// ended. If memory runs out before, the door accepts nothing.
pub fn stay<
    R: Threads + Wait + Sync,
    T: Listed + Send,
    D: Door + Drop + Send,
    W: Serving<T::Element, TurnLock<T>, Pass<T>, D::Link> + Sync,
    B: Beside<T::Element, TurnLock<T>, Pass<T>> + Sync,
>(
    rt: &R,
    alloc: Global,
    value: T,
    way: &W,
    beside: &B,
    door: D,
    port: u16,
    workers: u32,
) -> Finished<T, D>
where
    D::Link: Send,
    requires way { W.sight ≡ of_turns }
    requires beside { B.sight ≡ of_turns }
    requires empty { T.list value ≡ [] }
    requires some { 0 < workers }
    requires few { workers + 1 < 2 ^ 32 }
    ensures stayed { HasStayed D T.bears W.says B.does (over D.seen door result.door) (T.list result.value) port
        workers result.end }
    ensures count { (D.seen door).health.faults ≤ (D.seen result.door).health.faults }
{
    match TurnLock::new(alloc, value) {
        Ok(parts) => {
            let (lock, pass) = parts;
            stay_locked(rt, alloc, lock, pass, way, beside, door, port, workers)
        }
        Err(OutOfMemoryWith { value }) => Finished {
            value,
            door,
            end: ServeEnd::OutOfMemory,
        },
    }
}

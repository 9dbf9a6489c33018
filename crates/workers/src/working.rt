ghost use Rattle.std.specs.Prelude.{◌≡◌};
ghost use mathlib.Core.List.{IsPrefix};
ghost use Rattle.connections.specs.Rounds.{of_turns};
ghost use Rattle.turn_lock.specs.Passes.{lock_id, pass_lock, pass_number, pass_numbers, pass_seen};
ghost use Rattle.workers.specs.Work.{HasWorked, IsLater, Works};

use crate::beside::Closing;
use crate::doorway::Doorway;
use crate::turns::{accept, give_back};
use connections::{Serving, Visited};
use desk_net::Door;
use std::alloc::Global;
use std::sync::Wait;
use turn_lock::{Listed, Pass, TurnLock};

// Serves a connection if the lock is a `TurnLock`.
fn serve_one<R: Wait, T: Listed, N, W: Serving<T::Element, TurnLock<T>, Pass<T>, N>>(
    rt: &R,
    alloc: Global,
    lock: &TurnLock<T>,
    way: &W,
    pass: Pass<T>,
    worker: u32,
    link: N,
) -> (Visited<N>, Pass<T>)
    requires way { W.sight ≡ of_turns }
    requires lock { (pass_lock pass ≡ lock_id lock.now) × (pass_number pass ≡ worker) }
    ensures pass { IsLater pass result.1 }
    ensures says { W.says worker (pass_seen pass) (pass_seen result.1) link result.0.link result.0.served }
{
    way.serve(rt, alloc, lock, pass, worker, link)
}

// Serves the next connection of a worker. Returns whether the worker has ended, because the door has
// failed.
fn serve_next<R: Wait, T: Listed, D: Door, W: Serving<T::Element, TurnLock<T>, Pass<T>, D::Link>>(
    rt: &R,
    alloc: Global,
    lock: &TurnLock<T>,
    way: &W,
    pass: Pass<T>,
    doors: &TurnLock<Doorway<D>>,
    at_door: Pass<Doorway<D>>,
    worker: u32,
) -> (bool, Pass<T>, Pass<Doorway<D>>)
    requires way { W.sight ≡ of_turns }
    requires lock { (pass_lock pass ≡ lock_id lock.now) × (pass_number pass ≡ worker) }
    requires doors { (pass_lock at_door ≡ lock_id doors.now) × (pass_number at_door ≡ worker) }
    ensures pass { IsLater pass result.1 }
    ensures at_door { IsLater at_door result.2 }
    ensures works { Works W.says worker (pass_seen pass) (pass_seen result.1) (pass_seen at_door)
        (pass_seen result.2) result.0 }
{
    let (next, at_door) = accept(rt, doors, at_door, worker);
    match next {
        None => (true, pass, at_door),
        Some(link) => {
            let (visited, pass) = serve_one(rt, alloc, lock, way, pass, worker, link);
            let at_door = give_back(rt, doors, at_door, worker, visited);
            (false, pass, at_door)
        }
    }
}

// Serves one connection after another in the lane of a worker, until the door has failed.
pub(crate) fn work<
    R: Wait,
    T: Listed,
    D: Door,
    W: Serving<T::Element, TurnLock<T>, Pass<T>, D::Link>,
>(
    rt: &R,
    alloc: Global,
    lock: &TurnLock<T>,
    way: &W,
    mut pass: Pass<T>,
    doors: &TurnLock<Doorway<D>>,
    mut at_door: Pass<Doorway<D>>,
    worker: u32,
    closing: &Closing,
) -> (Pass<T>, Pass<Doorway<D>>)
    requires way { W.sight ≡ of_turns }
    requires lock { (pass_lock pass ≡ lock_id lock.now) × (pass_number pass ≡ worker) }
    requires doors { (pass_lock at_door ≡ lock_id doors.now) × (pass_number at_door ≡ worker) }
    ensures pass { IsLater pass result.0 }
    ensures at_door { IsLater at_door result.1 }
    ensures worked { HasWorked W.says worker (pass_seen pass) (pass_seen result.0) (pass_seen at_door)
        (pass_seen result.1) }
{
    for _ in rt.forever() {
        let (ended, own, passed) = serve_next(rt, alloc, lock, way, pass, doors, at_door, worker);
        pass = own;
        at_door = passed;
        if ended {
            closing.close();
            return (pass, at_door);
        }
    }
    unreachable!()
}

ghost use Rattle.std.specs.Prelude.{◌≡◌, ℕ, ◌+◌, ◌<◌, ◌≤◌, ◌^◌, [], List, vec_len};
ghost use Rattle.std.specs.Vec.{vec_capacity};
ghost use Rattle.std.specs.Thread.{IsSend, IsSync};
ghost use mathlib.Core.List.{IsPrefix};
ghost use Rattle.connections.specs.Doors.{Visit};
ghost use Rattle.connections.specs.Rounds.{AreGivenBack, HasAllOf, HasNoneFrom, IsGivenBack, IsRound, Sight, left_by, of_turns};
ghost use Rattle.connections.specs.declared.serving.Served.{Served as ServedAs};
ghost use Rattle.desk_io.specs.Over.{over};
ghost use Rattle.turn_lock.specs.Elements.{AddsNoneOf};
ghost use Rattle.turn_lock.specs.Passes.{lock_id, pass_lock, pass_number, pass_numbers, pass_seen, pass_splits};

use crate::doors::Met;
use crate::serving::Served;
use desk_io::OutOfMemory;
use desk_net::Door;
use std::alloc::Global;
use std::sync::Wait;
use std::thread::{Threads, join};
use turn_lock::{Listed, Pass, TurnLock};

/// A connection that was served: its link as it is now, and how the connection ended.
#[derive(Drop)]
pub struct Visited<N> {
    pub link: N,
    pub served: Served,
}

/// How a connection is served in turns of a lock. The lock and its passes may be of any type: contracts see them only
/// through `sight`.
pub trait Serving<E, K, P, N> {
    ghost sight: { Sight K P E };

    /// What contracts state about a served connection. The arguments are its lane, its pass's list before and after,
    /// its link before and after, and how it ended.
    ghost says: { ℕ → List E → List E → N → N → ServedAs → Type 0 };

    /// Serves a connection in the lane of its pass, and returns the pass.
    fn serve<R: Wait>(
        &self,
        rt: &R,
        alloc: Global,
        lock: &K,
        pass: P,
        lane: u32,
        link: N,
    ) -> (Visited<N>, P)
        requires lock { (sight.lock pass ≡ sight.id lock.now) × (sight.number pass ≡ lane) }
        ensures pass { (sight.lock result.1 ≡ sight.lock pass) × (sight.number result.1 ≡ lane) }
        ensures numbers { sight.numbers result.1 ≡ sight.numbers pass }
        ensures seen { IsPrefix (sight.seen pass) (sight.seen result.1) }
        ensures says { says lane (sight.seen pass) (sight.seen result.1) link result.0.link result.0.served };
}

// Serves a connection if the lock is a `TurnLock`.
fn serve_one<R: Wait, T: Listed, N, W: Serving<T::Element, TurnLock<T>, Pass<T>, N>>(
    rt: &R,
    alloc: Global,
    lock: &TurnLock<T>,
    way: &W,
    pass: Pass<T>,
    lane: u32,
    link: N,
) -> (Visited<N>, Pass<T>)
    requires way { W.sight ≡ of_turns }
    requires lock { (pass_lock pass ≡ lock_id lock.now) × (pass_number pass ≡ lane) }
    ensures pass { (pass_lock result.1 ≡ pass_lock pass) × (pass_number result.1 ≡ lane) }
    ensures numbers { pass_numbers result.1 ≡ pass_numbers pass }
    ensures seen { IsPrefix (pass_seen pass) (pass_seen result.1) }
    ensures says { W.says lane (pass_seen pass) (pass_seen result.1) link result.0.link result.0.served }
{
    way.serve(rt, alloc, lock, pass, lane, link)
}

// Accepts at most `left` links, and serves each in a thread of its own while it waits for the next. `before`
// connections came earlier. Returns the links in reverse order of arrival, and whether the door failed.
pub(crate) fn serve_rest<
    R: Threads + Wait + Sync,
    T: Listed + Send,
    D: Door + Drop,
    W: Serving<T::Element, TurnLock<T>, Pass<T>, D::Link> + Sync,
>(
    rt: &R,
    alloc: Global,
    lock: &TurnLock<T>,
    way: &W,
    mut pass: Pass<T>,
    before: u32,
    left: u32,
    mut door: D,
    done: Vec<Visited<D::Link>>,
) -> (D, Vec<Visited<D::Link>>, bool, Pass<T>)
where
    D::Link: Send,
    requires way { W.sight ≡ of_turns }
    requires lock { (pass_lock pass ≡ lock_id lock.now) × (pass_number pass ≡ 0) }
    requires lanes { (pass_splits pass ≡ before) × (before + left < 2 ^ 32) }
    requires none { HasNoneFrom T.bears (before + 1) (pass_seen pass) }
    requires room { (done.items ≡ []) × (left ≤ vec_capacity done) }
    ensures pass { (pass_lock result.3 ≡ pass_lock pass) × (pass_number result.3 ≡ 0) }
    ensures seen { IsPrefix (pass_seen pass) (pass_seen result.3) }
    ensures among { HasAllOf (pass_numbers pass) (pass_numbers result.3) }
    ensures own { AddsNoneOf T.bears (pass_numbers pass) (pass_seen pass) (pass_seen result.3) }
    ensures round { IsRound T.bears W.says (before + 1) left (over D.seen door result.0) (pass_seen pass)
        (pass_seen result.3) (pass_numbers result.3) (pass_splits result.3) result.1.items result.2 }
    ensures room { vec_capacity result.1 ≡ vec_capacity done }
    ensures many { vec_len result.1 ≤ left }
{
    if left == 0 {
        return (door, done, false, pass);
    }
    let Ok(link) = door.accept() else {
        return (door, done, true, pass);
    };
    let Ok(own) = lock.split(&mut pass) else {
        unreachable!()
    };
    let lane = before + 1;
    let rest = left - 1;
    let ((visited, own), (door, mut done, failed, mut pass)) = join(
        rt,
        move || -> (Visited<D::Link>, Pass<T>)
            requires { IsSync R.row × (W.sight ≡ of_turns) × (pass_lock own ≡ lock_id lock.now)
                × (pass_number own ≡ lane) }
            ensures pass { pass_lock result.1 ≡ pass_lock own }
            ensures numbers { pass_numbers result.1 ≡ pass_numbers own }
            ensures seen { IsPrefix (pass_seen own) (pass_seen result.1) }
            ensures says { W.says lane (pass_seen own) (pass_seen result.1) link result.0.link result.0.served }
        { serve_one(rt, alloc, lock, way, own, lane, link) },
        move || -> (D, Vec<Visited<D::Link>>, bool, Pass<T>)
            requires { IsSync R.row × (W.sight ≡ of_turns) × IsSend T.row × IsSend D.Link.row × IsSync W.row
                × (pass_lock pass ≡ lock_id lock.now) × (pass_number pass ≡ 0) × (pass_splits pass ≡ lane)
                × (lane + rest < 2 ^ 32) × HasNoneFrom T.bears (lane + 1) (pass_seen pass) × (done.items ≡ [])
                × (rest ≤ vec_capacity done) }
            ensures pass { (pass_lock result.3 ≡ pass_lock pass) × (pass_number result.3 ≡ 0) }
            ensures seen { IsPrefix (pass_seen pass) (pass_seen result.3) }
            ensures among { HasAllOf (pass_numbers pass) (pass_numbers result.3) }
            ensures own { AddsNoneOf T.bears (pass_numbers pass) (pass_seen pass) (pass_seen result.3) }
            ensures round { IsRound T.bears W.says (lane + 1) rest (over D.seen door result.0) (pass_seen pass)
                (pass_seen result.3) (pass_numbers result.3) (pass_splits result.3) result.1.items result.2 }
            ensures room { vec_capacity result.1 ≡ vec_capacity done }
            ensures many { vec_len result.1 ≤ rest }
        { serve_rest(rt, alloc, lock, way, pass, lane, rest, door, done) },
    );
    lock.join(&mut pass, own);
    done.push_reserved(visited);
    (door, done, failed, pass)
}

// Gives a link back to the door. A link that can't be given back counts as out of memory.
fn give_one<D: Door>(door: &mut D, visited: Visited<D::Link>, met: Met) -> Met
    ensures given { IsGivenBack (D.seen door.old) (D.seen door.new) met visited result }
    ensures port { (D.seen door.new).opened_at ≡ (D.seen door.old).opened_at }
    ensures health { (D.seen door.new).health ≡ (D.seen door.old).health }
{
    let Visited { link, served } = visited;
    match door.done(link) {
        Ok(()) => met.after(served),
        Err(OutOfMemory) => met.after(Served::OutOfMemory),
    }
}

// Gives links back to the door, starting with the last of the list.
pub(crate) fn give_back<D: Door>(door: &mut D, done: &mut Vec<Visited<D::Link>>, met: Met) -> Met
    ensures back { (vs : List (Visit D.Link)) → done.old.items ≡ left_by vs
        → AreGivenBack (D.seen door.old) (D.seen door.new) met vs result }
    ensures empty { done.new.items ≡ [] }
    ensures room { vec_capacity done.new ≡ vec_capacity done.old }
    ensures port { (D.seen door.new).opened_at ≡ (D.seen door.old).opened_at }
    ensures health { (D.seen door.new).health ≡ (D.seen door.old).health }
{
    let Some(visited) = done.pop() else {
        return met;
    };
    let next = give_one(door, visited, met);
    give_back(door, done, next)
}

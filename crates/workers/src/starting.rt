ghost use Rattle.std.specs.Prelude.{◌≡◌, ℕ, ◌+◌, ◌<◌, ◌^◌, [], List};
ghost use Rattle.std.specs.Thread.{IsSend, IsSync};
ghost use Rattle.connections.specs.Rounds.{HasNoneFrom, of_turns};
ghost use Rattle.turn_lock.specs.Passes.{lock_id, pass_lock, pass_number, pass_numbers, pass_seen, pass_splits};
ghost use Rattle.workers.specs.Passages.{worker_of};
ghost use Rattle.workers.specs.Work.{HasWorked, HaveWorked, IsLater, TakesLanes};

use crate::beside::{Beside, Closing, run_beside};
use crate::doorway::Doorway;
use crate::passes::part;
use crate::working::work;
use connections::Serving;
use desk_net::Door;
use std::alloc::Global;
use std::sync::Wait;
use std::thread::{Threads, join};
use turn_lock::{Listed, Pass, TurnLock};

// Runs `left` workers after `before` earlier ones, each in a thread of its own, and the work beside them, until all
// have ended.
pub(crate) fn work_all<
    R: Threads + Wait + Sync,
    T: Listed + Send,
    D: Door + Drop + Send,
    W: Serving<T::Element, TurnLock<T>, Pass<T>, D::Link> + Sync,
    B: Beside<T::Element, TurnLock<T>, Pass<T>> + Sync,
>(
    rt: &R,
    alloc: Global,
    lock: &TurnLock<T>,
    way: &W,
    beside: &B,
    mut pass: Pass<T>,
    doors: &TurnLock<Doorway<D>>,
    mut at_door: Pass<Doorway<D>>,
    before: u32,
    left: u32,
    closing: &Closing,
) -> (Pass<T>, Pass<Doorway<D>>)
where
    D::Link: Send,
    requires way { W.sight ≡ of_turns }
    requires beside { B.sight ≡ of_turns }
    requires lock { (pass_lock pass ≡ lock_id lock.now) × (pass_number pass ≡ 0) }
    requires doors { (pass_lock at_door ≡ lock_id doors.now) × (pass_number at_door ≡ 0) }
    requires lanes { (pass_splits pass ≡ before) × (pass_splits at_door ≡ before) × (before + left + 1 < 2 ^ 32) }
    requires none { HasNoneFrom T.bears (before + 1) (pass_seen pass) }
    requires none_at_door { HasNoneFrom worker_of (before + 1) (pass_seen at_door) }
    ensures pass { (pass_lock result.0 ≡ pass_lock pass) × (pass_number result.0 ≡ 0) }
    ensures at_door { (pass_lock result.1 ≡ pass_lock at_door) × (pass_number result.1 ≡ 0) }
    ensures takes { TakesLanes T.bears (pass_seen pass) (pass_seen result.0) (pass_numbers pass)
        (pass_numbers result.0) (pass_splits pass) (pass_splits result.0) (before + 1) (left + 1) }
    ensures takes_at_door { TakesLanes worker_of (pass_seen at_door) (pass_seen result.1) (pass_numbers at_door)
        (pass_numbers result.1) (pass_splits at_door) (pass_splits result.1) (before + 1) left }
    ensures worked { HaveWorked T.bears W.says B.does (before + 1) left (pass_seen result.0)
        (pass_seen result.1) }
{
    if left == 0 {
        let pass = run_beside(rt, alloc, lock, beside, pass, before, closing);
        return (pass, at_door);
    }
    let own = part(lock, &mut pass, before);
    let own_at_door = part(doors, &mut at_door, before);
    let worker = before + 1;
    let rest = left - 1;
    let ((own, own_at_door), (mut pass, mut at_door)) = join(
        rt,
        move || -> (Pass<T>, Pass<Doorway<D>>)
            requires { IsSync R.row × (W.sight ≡ of_turns) × (pass_lock own ≡ lock_id lock.now)
                × (pass_number own ≡ worker) × (pass_lock own_at_door ≡ lock_id doors.now)
                × (pass_number own_at_door ≡ worker) }
            ensures pass { IsLater own result.0 }
            ensures at_door { IsLater own_at_door result.1 }
            ensures worked { HasWorked W.says worker (pass_seen own) (pass_seen result.0) (pass_seen own_at_door)
                (pass_seen result.1) }
        {
            work(
                rt,
                alloc,
                lock,
                way,
                own,
                doors,
                own_at_door,
                worker,
                closing,
            )
        },
        move || -> (Pass<T>, Pass<Doorway<D>>)
            requires { IsSync R.row × (W.sight ≡ of_turns) × (B.sight ≡ of_turns) × IsSend T.row × IsSend D.row
                × IsSend D.Link.row × IsSync W.row × IsSync B.row
                × (pass_lock pass ≡ lock_id lock.now) × (pass_number pass ≡ 0)
                × (pass_lock at_door ≡ lock_id doors.now) × (pass_number at_door ≡ 0)
                × (pass_splits pass ≡ worker) × (pass_splits at_door ≡ worker) × (worker + rest + 1 < 2 ^ 32)
                × HasNoneFrom T.bears (worker + 1) (pass_seen pass)
                × HasNoneFrom worker_of (worker + 1) (pass_seen at_door) }
            ensures pass { (pass_lock result.0 ≡ pass_lock pass) × (pass_number result.0 ≡ 0) }
            ensures at_door { (pass_lock result.1 ≡ pass_lock at_door) × (pass_number result.1 ≡ 0) }
            ensures takes { TakesLanes T.bears (pass_seen pass) (pass_seen result.0) (pass_numbers pass)
                (pass_numbers result.0) (pass_splits pass) (pass_splits result.0) (worker + 1) (rest + 1) }
            ensures takes_at_door { TakesLanes worker_of (pass_seen at_door) (pass_seen result.1)
                (pass_numbers at_door) (pass_numbers result.1) (pass_splits at_door) (pass_splits result.1)
                (worker + 1) rest }
            ensures worked { HaveWorked T.bears W.says B.does (worker + 1) rest (pass_seen result.0)
                (pass_seen result.1) }
        {
            work_all(
                rt, alloc, lock, way, beside, pass, doors, at_door, worker, rest, closing,
            )
        },
    );
    lock.join(&mut pass, own);
    doors.join(&mut at_door, own_at_door);
    (pass, at_door)
}

ghost use Rattle.std.specs.Prelude.{◌≡◌, ℕ, ◌+◌, ◌<◌, ◌^◌, [], List};
ghost use mathlib.Core.List.{IsPrefix};
ghost use Rattle.connections.specs.Rounds.{HasNoneFrom, Sight, of_turns};
ghost use Rattle.turn_lock.specs.Passes.{lock_id, pass_lock, pass_number, pass_numbers, pass_seen, pass_splits};
ghost use Rattle.workers.specs.Work.{IsBeside, IsLater, TakesLanes};

use crate::passes::part;
use std::alloc::Global;
use std::sync::Wait;
use std::sync::atomic::{AtomicU64, Ordering};
use std::time::Duration;
use turn_lock::{Listed, Pass, TurnLock};

/// Tells the work beside the workers that they end.
#[derive(Drop)]
pub struct Closing {
    word: AtomicU64,
}

impl Closing {
    pub(crate) fn new() -> Closing {
        Closing {
            word: AtomicU64::new(0),
        }
    }

    pub(crate) fn close(&self) {
        self.word.store(1, Ordering::SeqCst);
        self.word.wake_all();
    }

    /// Returns whether a worker has ended.
    pub fn is_closed(&self) -> bool {
        self.word.load(Ordering::SeqCst) != 0
    }

    /// Waits until a worker has ended, at most for this time. May return earlier.
    pub fn wait<R: Wait>(&self, rt: &R, longest: Duration) {
        self.word.park_timeout(rt, 0, longest);
    }
}

/// Work that runs beside the workers, in turns of the same lock and in a lane of its own. The lock and its passes may
/// be of any type: contracts see them only through `sight`.
pub trait Beside<E, K, P> {
    ghost sight: { Sight K P E };

    /// What contracts state about the work. The arguments are its lane, and its pass's list before and after.
    ghost does: { ℕ → List E → List E → Type 0 };

    /// Works in the lane of the pass until a worker has ended, and returns the pass.
    fn run<R: Wait>(
        &self,
        rt: &R,
        alloc: Global,
        lock: &K,
        pass: P,
        lane: u32,
        closing: &Closing,
    ) -> P
        requires lock { (sight.lock pass ≡ sight.id lock.now) × (sight.number pass ≡ lane) }
        ensures pass { (sight.lock result ≡ sight.lock pass) × (sight.number result ≡ lane) }
        ensures numbers { sight.numbers result ≡ sight.numbers pass }
        ensures seen { IsPrefix (sight.seen pass) (sight.seen result) }
        ensures does { does lane (sight.seen pass) (sight.seen result) };
}

// Runs the work if the lock is a `TurnLock`.
fn run_one<R: Wait, T: Listed, B: Beside<T::Element, TurnLock<T>, Pass<T>>>(
    rt: &R,
    alloc: Global,
    lock: &TurnLock<T>,
    beside: &B,
    pass: Pass<T>,
    lane: u32,
    closing: &Closing,
) -> Pass<T>
    requires beside { B.sight ≡ of_turns }
    requires lock { (pass_lock pass ≡ lock_id lock.now) × (pass_number pass ≡ lane) }
    ensures pass { IsLater pass result }
    ensures does { B.does lane (pass_seen pass) (pass_seen result) }
{
    beside.run(rt, alloc, lock, pass, lane, closing)
}

// Runs the work beside `before` workers, in the next lane.
pub(crate) fn run_beside<R: Wait, T: Listed, B: Beside<T::Element, TurnLock<T>, Pass<T>>>(
    rt: &R,
    alloc: Global,
    lock: &TurnLock<T>,
    beside: &B,
    mut pass: Pass<T>,
    before: u32,
    closing: &Closing,
) -> Pass<T>
    requires beside { B.sight ≡ of_turns }
    requires lock { (pass_lock pass ≡ lock_id lock.now) × (pass_number pass ≡ 0) }
    requires lanes { (pass_splits pass ≡ before) × (before + 1 < 2 ^ 32) }
    requires none { HasNoneFrom T.bears (before + 1) (pass_seen pass) }
    ensures pass { (pass_lock result ≡ pass_lock pass) × (pass_number result ≡ 0) }
    ensures takes { TakesLanes T.bears (pass_seen pass) (pass_seen result) (pass_numbers pass) (pass_numbers result)
        (pass_splits pass) (pass_splits result) (before + 1) 1 }
    ensures beside { IsBeside T.bears B.does (before + 1) (pass_seen result) }
{
    let own = part(lock, &mut pass, before);
    let own = run_one(rt, alloc, lock, beside, own, before + 1, closing);
    lock.join(&mut pass, own);
    pass
}

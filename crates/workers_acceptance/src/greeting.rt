ghost use Rattle.std.specs.Prelude.{◌≡◌, ◌++◌, ◌∷◌, [], if◌then◌else◌};
ghost use mathlib.Core.List.{IsPrefix};
ghost use Rattle.turn_lock.specs.Passes.{lock_id, pass_lock, pass_number, pass_numbers, pass_seen};

use crate::tally::Tally;
use connections::{Served, Serving, Visited};
use desk_io::PutFault;
use desk_net::Link;
use std::alloc::Global;
use std::sync::Wait;
use turn_lock::{Pass, TurnLock};
use workers::{Beside, Closing};

// Counts a connection in a turn of its own.
fn count<R: Wait>(rt: &R, lock: &TurnLock<Tally>, pass: Pass<Tally>, lane: u32) -> Pass<Tally>
    requires { (pass_lock pass ≡ lock_id lock.now) × (pass_number pass ≡ lane) }
    ensures pass { (pass_lock result ≡ pass_lock pass) × (pass_number result ≡ lane) }
    ensures numbers { pass_numbers result ≡ pass_numbers pass }
    ensures seen { IsPrefix (pass_seen pass) (pass_seen result) }
{
    let mut turn = lock.take(rt, pass);
    let _ = turn.value().add(lane);
    lock.give(turn)
}

fn greet<N: Link>(link: &mut N) -> Served {
    match link.write(b"hello") {
        Ok(()) => Served::Ended,
        Err(PutFault::Failed) => Served::WriteFault,
        Err(PutFault::OutOfMemory) => Served::OutOfMemory,
    }
}

/// Counts each connection, and greets its peer.
#[derive(Drop)]
pub struct Greeting;

impl<N: Link> Serving<u32, TurnLock<Tally>, Pass<Tally>, N> for Greeting {
    ghost use Rattle.connections.specs.Rounds.{of_turns};

    ghost sight = { of_turns };

    ghost says = { λ lane before seen came went how. Unit {0} };

    fn serve<R: Wait>(
        &self,
        rt: &R,
        alloc: Global,
        lock: &TurnLock<Tally>,
        pass: Pass<Tally>,
        lane: u32,
        mut link: N,
    ) -> (Visited<N>, Pass<Tally>)
        requires lock { (pass_lock pass ≡ lock_id lock.now) × (pass_number pass ≡ lane) }
        ensures pass { (pass_lock result.1 ≡ pass_lock pass) × (pass_number result.1 ≡ lane) }
        ensures numbers { pass_numbers result.1 ≡ pass_numbers pass }
        ensures seen { IsPrefix (pass_seen pass) (pass_seen result.1) }
    {
        let _ = alloc;
        let pass = count(rt, lock, pass, lane);
        let served = greet(&mut link);
        link.end();
        (Visited { link, served }, pass)
    }
}

/// Does nothing beside the workers.
#[derive(Drop)]
pub struct Nothing;

impl Beside<u32, TurnLock<Tally>, Pass<Tally>> for Nothing {
    ghost use Rattle.connections.specs.Rounds.{of_turns};

    ghost sight = { of_turns };

    ghost does = { λ lane before seen. Unit {0} };

    fn run<R: Wait>(
        &self,
        _rt: &R,
        _alloc: Global,
        lock: &TurnLock<Tally>,
        pass: Pass<Tally>,
        lane: u32,
        _closing: &Closing,
    ) -> Pass<Tally>
        requires lock { (pass_lock pass ≡ lock_id lock.now) × (pass_number pass ≡ lane) }
        ensures pass { (pass_lock result ≡ pass_lock pass) × (pass_number result ≡ lane) }
        ensures numbers { pass_numbers result ≡ pass_numbers pass }
        ensures seen { IsPrefix (pass_seen pass) (pass_seen result) }
    {
        pass
    }
}

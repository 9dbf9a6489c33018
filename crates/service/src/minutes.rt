ghost use Rattle.std.specs.Prelude.{◌≡◌, ◌<◌, IfOk};
ghost use mathlib.Core.List.{IsPrefix};
ghost use Rattle.service.specs.Minutes.{HasTicked};
ghost use Rattle.turn_lock.specs.Passes.{lock_id, pass_lock, pass_number, pass_numbers, pass_seen};

use crate::events::Event;
use crate::opened::Opened;
use crate::pages::nobodys_call;
use crate::shared::Shared;
use crate::turn_answers::answer_in_turn;
use alerts::Bell;
use desk_net::Clock;
use keeper::Keeper;
use rules::Steps;
use std::alloc::Global;
use std::marker::Brand;
use std::sync::Wait;
use std::sync::ledger::{Blank, Ledger};
use std::time::Duration;
use turn_lock::{Pass, TurnLock};
use workers::{Beside, Closing};

// How often the clock is asked for its moment.
const SECONDS: u64 = 1;

/// Ticks as soon as a minute of the desk's clock begins, in a lane of its own, until a worker has ended.
///
/// Every second a person whom no desk knows makes a call. The desk ticks first if its clock's moment is later than the
/// desk's. Then it refuses the call, which changes nothing. If the clock fails, that is counted, and the clock is asked
/// again a second later.
#[derive(Drop)]
pub struct Minutes;

// Makes one tick after another.
fn tick_counted<R: Wait, K: Keeper, B: Bell, C: Clock, A: Opened, L: Ledger>(
    rt: &R,
    alloc: Global,
    lock: &TurnLock<Shared<K, B, C, A>>,
    mut pass: Pass<Shared<K, B, C, A>>,
    lane: u32,
    closing: &Closing,
    blank: Blank,
) -> Pass<Shared<K, B, C, A>>
    requires name { blank.name ≡ L.name }
    requires parts { blank.parts ≡ L.parts }
    requires some { 0 < blank.parts }
    requires lock { (pass_lock pass ≡ lock_id lock.now) × (pass_number pass ≡ lane) }
    ensures pass { (pass_lock result ≡ pass_lock pass) × (pass_number result ≡ lane) }
    ensures numbers { pass_numbers result ≡ pass_numbers pass }
    ensures seen { IsPrefix (pass_seen pass) (pass_seen result) }
    ensures ticked { HasTicked A.desk.opening A.clock.dial lane (pass_seen pass) (pass_seen result) }
{
    let call = nobodys_call(alloc);
    let mut steps = Steps::<L>::new(blank);
    for _ in rt.forever() {
        if closing.is_closed() {
            return pass;
        }
        let (_, next) = answer_in_turn(rt, alloc, lock, pass, lane, &call, &mut steps);
        pass = next;
        closing.wait(rt, Duration::from_secs(SECONDS));
    }
    unreachable!()
}

// The same without counting the plans that it judges.
fn tick_own<R: Wait, K: Keeper, B: Bell, C: Clock, A: Opened>(
    rt: &R,
    alloc: Global,
    lock: &TurnLock<Shared<K, B, C, A>>,
    pass: Pass<Shared<K, B, C, A>>,
    lane: u32,
    closing: &Closing,
) -> Pass<Shared<K, B, C, A>>
    requires lock { (pass_lock pass ≡ lock_id lock.now) × (pass_number pass ≡ lane) }
    ensures pass { (pass_lock result ≡ pass_lock pass) × (pass_number result ≡ lane) }
    ensures numbers { pass_numbers result ≡ pass_numbers pass }
    ensures seen { IsPrefix (pass_seen pass) (pass_seen result) }
    ensures ticked { HasTicked A.desk.opening A.clock.dial lane (pass_seen pass) (pass_seen result) }
{
    tick_counted::<R, K, B, C, A, Brand>(rt, alloc, lock, pass, lane, closing, Blank::new(1))
}

impl<K: Keeper, B: Bell, C: Clock, A: Opened> Beside<
    Event,
    TurnLock<Shared<K, B, C, A>>,
    Pass<Shared<K, B, C, A>>,
> for Minutes {
    ghost use Rattle.connections.specs.Rounds.{of_turns};
    ghost use Rattle.service.specs.Minutes.{HasTicked};

    ghost sight = { of_turns };

    ghost does = { λ lane before seen. HasTicked A.desk.opening A.clock.dial lane before seen };

    fn run<R: Wait>(
        &self,
        rt: &R,
        alloc: Global,
        lock: &TurnLock<Shared<K, B, C, A>>,
        pass: Pass<Shared<K, B, C, A>>,
        lane: u32,
        closing: &Closing,
    ) -> Pass<Shared<K, B, C, A>>
        requires lock { (pass_lock pass ≡ lock_id lock.now) × (pass_number pass ≡ lane) }
        ensures pass { (pass_lock result ≡ pass_lock pass) × (pass_number result ≡ lane) }
        ensures numbers { pass_numbers result ≡ pass_numbers pass }
        ensures seen { IsPrefix (pass_seen pass) (pass_seen result) }
        ensures does { HasTicked A.desk.opening A.clock.dial lane (pass_seen pass) (pass_seen result) }
    {
        tick_own(rt, alloc, lock, pass, lane, closing)
    }
}

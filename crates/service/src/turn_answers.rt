ghost use Rattle.std.specs.Prelude.{◌≡◌, ◌≢◌, Err, IfOk};
ghost use mathlib.Core.List.{IsPrefix};
ghost use Rattle.asks.specs.Forms.{CallHasForms};
ghost use Rattle.connections.specs.declared.answers.Unanswered.TheVariants.{ClockFault as ByClock};
ghost use Rattle.desk.specs.Shown.{IsShown};
ghost use Rattle.desk_io.specs.Health.{IsSound};
ghost use Rattle.desk_time.specs.Limits.{IsMoment};
ghost use Rattle.service.specs.Looks.{LooksOnce};
ghost use Rattle.service.specs.Shared.{IsSharedList};
ghost use Rattle.service.specs.Turns.{ComesOnce};
ghost use Rattle.turn_lock.specs.Passes.{lock_id, pass_lock, pass_number, pass_numbers, pass_seen};

use crate::gauges::Gauges;
use crate::opened::Opened;
use crate::shared::Shared;
use alerts::Bell;
use asks::Call;
use connections::Unanswered;
use desk::Answered;
use desk_net::Clock;
use keeper::Keeper;
use rules::Steps;
use std::alloc::Global;
use std::sync::Wait;
use std::sync::ledger::Ledger;
use turn_lock::{Pass, TurnLock};

/// Takes a turn at the lock, and answers a call in it at the clock's moment.
pub fn answer_in_turn<R: Wait, K: Keeper, B: Bell, C: Clock, A: Opened, L: Ledger>(
    rt: &R,
    alloc: Global,
    lock: &TurnLock<Shared<K, B, C, A>>,
    pass: Pass<Shared<K, B, C, A>>,
    lane: u32,
    call: &Call,
    steps: &mut Steps<L>,
) -> (Result<Answered, Unanswered>, Pass<Shared<K, B, C, A>>)
    requires lock { pass_lock pass ≡ lock_id lock.now }
    requires lane { pass_number pass ≡ lane }
    requires call { CallHasForms call.now }
    ensures pass { (pass_lock result.1 ≡ pass_lock pass) × (pass_number result.1 ≡ lane) }
    ensures numbers { pass_numbers result.1 ≡ pass_numbers pass }
    ensures seen { IsPrefix (pass_seen pass) (pass_seen result.1) }
    ensures comes { ComesOnce A.desk.opening A.clock.dial lane (pass_seen pass) (pass_seen result.1) call.now result.0 }
    // The pass has now seen the list of a shared desk: a legal history, the clock's answers, and misses whose counts
    // rise.
    ensures shared { IsSharedList A.desk A.clock (pass_seen result.1) }
    ensures shown { IfOk result.0 (λ a. IsShown a.outcome) }
    ensures steady { IsSound A.clock.health → result.0 ≢ Err ByClock }
{
    let mut turn = lock.take(rt, pass);
    let answered = turn.value().answer(alloc, lane, call, steps);
    (answered, lock.give(turn))
}

/// Takes a turn at the lock, makes the call of nobody in it at the clock's moment, and measures the desk.
pub(crate) fn look_in_turn<R: Wait, K: Keeper, B: Bell, C: Clock, A: Opened, L: Ledger>(
    rt: &R,
    alloc: Global,
    lock: &TurnLock<Shared<K, B, C, A>>,
    pass: Pass<Shared<K, B, C, A>>,
    lane: u32,
    steps: &mut Steps<L>,
) -> (Result<Gauges, Unanswered>, Pass<Shared<K, B, C, A>>)
    requires lock { pass_lock pass ≡ lock_id lock.now }
    requires lane { pass_number pass ≡ lane }
    ensures pass { (pass_lock result.1 ≡ pass_lock pass) × (pass_number result.1 ≡ lane) }
    ensures numbers { pass_numbers result.1 ≡ pass_numbers pass }
    ensures seen { IsPrefix (pass_seen pass) (pass_seen result.1) }
    ensures comes { LooksOnce A.desk.opening A.clock.dial lane (pass_seen pass) (pass_seen result.1) result.0 }
    ensures shared { IsSharedList A.desk A.clock (pass_seen result.1) }
    ensures moment { IfOk result.0 (λ g. IsMoment g.at) }
    ensures steady { IsSound A.clock.health → result.0 ≢ Err ByClock }
{
    let mut turn = lock.take(rt, pass);
    let looked = turn.value().look(alloc, lane, steps);
    (looked, lock.give(turn))
}

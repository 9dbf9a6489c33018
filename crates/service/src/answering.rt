ghost use Rattle.std.specs.Prelude.{◌≡◌, ◌≢◌, ◌<◌, ◌^◌, ◌++◌, ◌∷◌, [], Err, IfOk, IfErr, Some, length, option_to_list};
ghost use Rattle.asks.specs.Forms.{CallHasForms};
ghost use Rattle.desk.specs.Seen.{desk_seen, DeskGoesOn};
ghost use Rattle.desk.specs.Shown.{IsShown};
ghost use Rattle.desk_io.specs.Health.{IsStill};
ghost use Rattle.desk_net.specs.Clocks.{StandsAt, turned};
ghost use Rattle.desk_net.specs.Seen.{ClockGoesOn};
ghost use Rattle.desk_time.specs.Limits.{IsMoment};
ghost use Rattle.service.specs.Events.{miss, missed};
ghost use Rattle.service.specs.Shared.{parts_seen};
ghost use Rattle.service.specs.Turns.{GoesInTurn, HasNoMoment, missed_by};
ghost use Rattle.connections.specs.declared.answers.Unanswered.TheVariants.{ClockFault as ByClock};
ghost use Rattle.service.specs.declared.events.Event.TheVariants.{Told};
ghost use Rattle.service.specs.declared.misses.MissOf.TheVariants as of;

use crate::event_list::Events;
use crate::misses::{Miss, MissOf};
use alerts::Bell;
use asks::{Call, Refusal, Reply};
use connections::Unanswered;
use desk::{Answered, Desk, answer};
use desk_net::Clock;
use desk_state::Said;
use desk_time::Minute;
use keeper::Keeper;
use rules::Steps;
use std::alloc::Global;
use std::sync::ledger::Ledger;

// The miss that goes with a refusal `Unkept`. Other answers have none.
fn missed_by_said(lane: u32, said: &Said) -> Option<Miss>
    ensures { option_to_list result ≡ missed_by lane said.now }
{
    match said {
        Said::Reply(Reply::Refused(Refusal::Unkept { faults })) => Some(Miss {
            lane,
            source: MissOf::Keeper,
            faults: *faults,
        }),
        _ => None,
    }
}

// Adds the miss that goes with an answer, if any.
fn add_miss(events: &mut Events, lane: u32, said: &Said)
    requires { length events.old < 2 ^ 63 }
    ensures { events.new ≡ events.old ++ missed (missed_by lane said.now) }
{
    if let Some(miss) = missed_by_said(lane, said) {
        events.missed(miss);
    }
}

// The miss of a clock that failed.
fn missed_by_clock(lane: u32, faults: u64) -> Miss
    ensures { result ≡ miss lane of.Clock faults }
{
    Miss {
        lane,
        source: MissOf::Clock,
        faults,
    }
}

// Asks the clock for the moment, and adds its answer or its miss. If the clock's count is saturated, a miss would have
// no count of its own, so the clock isn't asked. Then the result is out of memory.
fn moment_of<C: Clock>(clock: &mut C, events: &mut Events, lane: u32) -> Result<Minute, Unanswered>
    requires { length events.old < 2 ^ 62 }
    ensures ok { IfOk result (λ at. IsMoment at × StandsAt (C.seen clock.old).dial at
        × ((C.seen clock.new).dial ≡ turned (C.seen clock.old).dial)) }
    ensures asked { IfOk result (λ at. (C.seen clock.new).answers ≡ (C.seen clock.old).answers ++ Some at ∷ []) }
    ensures told { IfOk result (λ at. events.new ≡ events.old ++ Told lane at ∷ []) }
    ensures err { IfErr result (λ why. HasNoMoment lane (C.seen clock.old) (C.seen clock.new) events.old events.new
        why) }
    ensures clock { ClockGoesOn (C.seen clock.old) (C.seen clock.new) }
    ensures still { result ≢ Err ByClock → IsStill (C.seen clock.old).health (C.seen clock.new).health }
{
    if clock.faults() == u64::MAX {
        return Err(Unanswered::OutOfMemory);
    }
    if let Ok(at) = clock.now() {
        events.told(lane, at);
        return Ok(at);
    }
    events.missed(missed_by_clock(lane, clock.faults()));
    Err(Unanswered::ClockFault)
}

/// Answers a call of a lane at the clock's moment, over the parts of a shared desk.
pub(crate) fn answer_over<K: Keeper, B: Bell, C: Clock, L: Ledger>(
    alloc: Global,
    desk: &mut Desk<K, B>,
    clock: &mut C,
    events: &mut Events,
    lane: u32,
    call: &Call,
    steps: &mut Steps<L>,
) -> Result<Answered, Unanswered>
    requires call { CallHasForms call.now }
    requires few { length events.old < 2 ^ 62 }
    ensures goes { GoesInTurn lane call.now (parts_seen K.seen B.seen C.seen desk.old clock.old events.old)
        (parts_seen K.seen B.seen C.seen desk.new clock.new events.new) result }
    ensures shown { IfOk result (λ a. IsShown a.outcome) }
    ensures desk { DeskGoesOn (desk_seen K.seen B.seen desk.old) (desk_seen K.seen B.seen desk.new) }
    ensures clock { ClockGoesOn (C.seen clock.old) (C.seen clock.new) }
    ensures still { result ≢ Err ByClock → IsStill (C.seen clock.old).health (C.seen clock.new).health }
{
    let at = moment_of(clock, events, lane)?;
    let held = desk.board.entries();
    let answered = answer(alloc, desk, lane, at, call, steps);
    events.entered(&desk.board, held);
    let answered = answered?;
    add_miss(events, lane, &answered.outcome.said);
    Ok(answered)
}

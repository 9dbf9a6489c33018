ghost use Rattle.std.specs.Prelude.{◌≡◌, ◌≢◌, false, Err, IfOk};
ghost use Rattle.asks.specs.Forms.{CallHasForms};
ghost use Rattle.connections.specs.Connections.{Answers};
ghost use Rattle.connections.specs.declared.answers.Unanswered.TheVariants.{ClockFault as ByClock};
ghost use Rattle.desk.specs.Seen.{desk_at, desk_seen, DeskGoesOn};
ghost use Rattle.desk_io.specs.Health.{IsSound, IsStill};
ghost use Rattle.desk_io.specs.Over.{over};
ghost use Rattle.desk_net.specs.Seen.{ClockGoesOn};
ghost use Rattle.http.specs.StatusCode.{IsStatusCode};
ghost use Rattle.service.specs.Alone.{GoesOver};
ghost use Rattle.service.specs.Connections.{Responds, in_lane};
ghost use Rattle.service.specs.Forms.{RequestedHasForms};
ghost use Rattle.service.specs.Requested as spec;

use crate::requested::{Requested, requested_by};
use crate::responding::{response_to, response_without, text_of};
use crate::responses::Response;
use alerts::Bell;
use asks::Call;
use connections::Unanswered;
use desk::{Desk, answer};
use desk_http::{Patterns, Wire};
use desk_io::{OutOfMemory, Text};
use desk_net::Clock;
use keeper::Keeper;
use rules::Steps;
use std::alloc::Global;
use std::sync::ledger::Ledger;

// Makes a call at the clock's moment.
fn respond_to_call<K: Keeper, B: Bell, C: Clock, L: Ledger>(
    alloc: Global,
    desk: &mut Desk<K, B>,
    lane: u32,
    clock: &mut C,
    wire: &Wire,
    call: &Call,
    steps: &mut Steps<L>,
) -> Result<Response, Unanswered>
    requires asked { spec.requested_by wire.now ≡ Requested.Call call.now }
    requires forms { CallHasForms call.now }
    ensures responds { Responds false lane
        (GoesOver lane (over C.seen clock.old clock.new) (over (desk_at K.seen) desk.old desk.new)) wire.now result }
    ensures code { IfOk result (λ r. IsStatusCode r.status) }
    ensures desk { DeskGoesOn (desk_seen K.seen B.seen desk.old) (desk_seen K.seen B.seen desk.new) }
    ensures clock { ClockGoesOn (C.seen clock.old) (C.seen clock.new) }
    ensures still { result ≢ Err ByClock → IsStill (C.seen clock.old).health (C.seen clock.new).health }
    ensures steady { IsSound (C.seen clock.old).health → result ≢ Err ByClock }
{
    let Ok(at) = clock.now() else {
        return Err(Unanswered::ClockFault);
    };
    match answer(alloc, desk, lane, at, call, steps) {
        Ok(answered) => response_to(alloc, &answered.outcome.said),
        Err(OutOfMemory) => Err(Unanswered::OutOfMemory),
    }
}

// The response to a request that was read.
fn respond<K: Keeper, B: Bell, C: Clock, L: Ledger>(
    alloc: Global,
    desk: &mut Desk<K, B>,
    lane: u32,
    clock: &mut C,
    wire: &Wire,
    requested: &Requested,
    steps: &mut Steps<L>,
) -> Result<Response, Unanswered>
    requires asked { requested.now ≡ spec.requested_by wire.now }
    requires forms { RequestedHasForms requested.now }
    ensures responds { Responds false lane
        (GoesOver lane (over C.seen clock.old clock.new) (over (desk_at K.seen) desk.old desk.new)) wire.now result }
    ensures code { IfOk result (λ r. IsStatusCode r.status) }
    ensures desk { DeskGoesOn (desk_seen K.seen B.seen desk.old) (desk_seen K.seen B.seen desk.new) }
    ensures clock { ClockGoesOn (C.seen clock.old) (C.seen clock.new) }
    ensures still { result ≢ Err ByClock → IsStill (C.seen clock.old).health (C.seen clock.new).health }
    ensures steady { IsSound (C.seen clock.old).health → result ≢ Err ByClock }
{
    if let Requested::Call(call) = requested {
        return respond_to_call(alloc, desk, lane, clock, wire, call, steps);
    }
    match response_without(alloc, requested) {
        Ok(response) => Ok(response),
        Err(OutOfMemory) => Err(Unanswered::OutOfMemory),
    }
}

/// Answers a request over a desk that isn't shared. Returns the bytes of the response.
pub fn exchange<K: Keeper, B: Bell, C: Clock, L: Ledger>(
    alloc: Global,
    desk: &mut Desk<K, B>,
    lane: u32,
    clock: &mut C,
    patterns: &Patterns,
    wire: &Wire,
    steps: &mut Steps<L>,
) -> Result<Text, Unanswered>
    ensures answers { Answers (in_lane false lane)
        (GoesOver lane (over C.seen clock.old clock.new) (over (desk_at K.seen) desk.old desk.new)) wire.now result }
    ensures desk { DeskGoesOn (desk_seen K.seen B.seen desk.old) (desk_seen K.seen B.seen desk.new) }
    ensures clock { ClockGoesOn (C.seen clock.old) (C.seen clock.new) }
    ensures still { result ≢ Err ByClock → IsStill (C.seen clock.old).health (C.seen clock.new).health }
    // Over a sound clock, only out of memory leaves a request without a response.
    ensures steady { IsSound (C.seen clock.old).health → result ≢ Err ByClock }
{
    match requested_by(alloc, patterns, wire) {
        Ok(requested) => {
            let responded = respond(alloc, desk, lane, clock, wire, &requested, steps);
            text_of(alloc, responded)
        }
        Err(OutOfMemory) => Err(Unanswered::OutOfMemory),
    }
}

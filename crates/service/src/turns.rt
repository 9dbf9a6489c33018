ghost use Rattle.std.specs.Prelude.{◌≡◌, ◌≢◌, Err, IfOk, Some};
ghost use mathlib.Core.List.{IsPrefix};
ghost use Rattle.connections.specs.Connections.{Answers, IsConnection, IsStep};
ghost use Rattle.connections.specs.Crossed.{CrossedTo, IsConnectionBy, IsStepBy};
ghost use Rattle.connections.specs.Writing.{WroteTo};
ghost use Rattle.connections.specs.declared.answers.Unanswered.TheVariants.{ClockFault as ByClock};
ghost use Rattle.connections.specs.declared.serving.Served.TheVariants as ended;
ghost use Rattle.desk_http.specs.Requests.{unused};
ghost use Rattle.asks.specs.Forms.{CallHasForms};
ghost use Rattle.desk_io.specs.Health.{IsSound};
ghost use Rattle.desk_io.specs.Over.{over};
ghost use Rattle.desk_net.specs.Seen.{LinkGoesOn};
ghost use Rattle.desk_net.specs.Streams.{unread};
ghost use Rattle.http.specs.StatusCode.{IsStatusCode};
ghost use Rattle.service.specs.Connections.{Responds, in_lane};
ghost use Rattle.service.specs.Forms.{RequestedHasForms, WantedHasForms};
ghost use Rattle.desk_time.specs.Limits.{IsMoment};
ghost use Rattle.service.specs.Looks.{IsPageOf};
ghost use Rattle.service.specs.Wanted.{wanted_by};
ghost use Rattle.service.specs.declared.requested.Requested.TheVariants as requested;
ghost use Rattle.service.specs.Turning.{GoesInTurns};
ghost use Rattle.service.specs.Shared.{IsSharedList};
ghost use Rattle.turn_lock.specs.Passes.{lock_id, pass_lock, pass_number, pass_numbers, pass_seen};

use crate::gauges::Gauges;
use crate::opened::Opened;
use crate::pages::{Page, page_of};
use crate::requested::Requested;
use crate::responding::{response_to, response_without, text_of};
use crate::responses::Response;
use crate::shared::Shared;
use crate::surface::Surface;
use crate::turn_answers::{answer_in_turn, look_in_turn};
use crate::wanted::{Wanted, wanted_by};
use alerts::Bell;
use asks::Call;
use connections::{Served, Unanswered, end_without, write_answer};
use desk_http::{Buffer, Patterns, Wire, next_request};
use desk_io::{OutOfMemory, Text};
use desk_net::{Clock, Link};
use keeper::Keeper;
use rules::Steps;
use std::alloc::Global;
use std::sync::Wait;
use std::sync::ledger::Ledger;
use turn_lock::{Pass, TurnLock};

// Answers a call in a turn of its own.
fn respond_to_call_in_turn<R: Wait, K: Keeper, B: Bell, C: Clock, A: Opened, S: Surface, L: Ledger>(
    rt: &R,
    alloc: Global,
    lock: &TurnLock<Shared<K, B, C, A>>,
    pass: Pass<Shared<K, B, C, A>>,
    lane: u32,
    surface: &S,
    wire: &Wire,
    call: &Call,
    steps: &mut Steps<L>,
) -> (Result<Response, Unanswered>, Pass<Shared<K, B, C, A>>)
    requires lock { (pass_lock pass ≡ lock_id lock.now) × (pass_number pass ≡ lane) }
    requires asked { wanted_by S.pages wire.now ≡ Wanted.Asked (requested.Call call.now) }
    requires forms { CallHasForms call.now }
    ensures pass { (pass_lock result.1 ≡ pass_lock pass) × (pass_number result.1 ≡ lane) }
    ensures numbers { pass_numbers result.1 ≡ pass_numbers pass }
    ensures seen { IsPrefix (pass_seen pass) (pass_seen result.1) }
    ensures shared { IsSharedList A.desk A.clock (pass_seen pass)
        → IsSharedList A.desk A.clock (pass_seen result.1) }
    ensures responds { Responds S.pages lane
        (GoesInTurns S.pages A.desk.opening A.clock.dial lane (pass_seen pass) (pass_seen result.1)) wire.now result.0 }
    ensures code { IfOk result.0 (λ r. IsStatusCode r.status) }
    ensures steady { IsSound A.clock.health → result.0 ≢ Err ByClock }
{
    let (answered, pass) = answer_in_turn(rt, alloc, lock, pass, lane, call, steps);
    match answered {
        Ok(answered) => {
            surface.said(&answered.outcome.said);
            (response_to(alloc, &answered.outcome.said), pass)
        }
        Err(why) => (Err(why), pass),
    }
}

// The response to a request that was read. Only a call takes a turn.
fn respond_in_turn<R: Wait, K: Keeper, B: Bell, C: Clock, A: Opened, S: Surface, L: Ledger>(
    rt: &R,
    alloc: Global,
    lock: &TurnLock<Shared<K, B, C, A>>,
    pass: Pass<Shared<K, B, C, A>>,
    lane: u32,
    surface: &S,
    wire: &Wire,
    requested: &Requested,
    steps: &mut Steps<L>,
) -> (Result<Response, Unanswered>, Pass<Shared<K, B, C, A>>)
    requires lock { (pass_lock pass ≡ lock_id lock.now) × (pass_number pass ≡ lane) }
    requires asked { wanted_by S.pages wire.now ≡ Wanted.Asked requested.now }
    requires forms { RequestedHasForms requested.now }
    ensures pass { (pass_lock result.1 ≡ pass_lock pass) × (pass_number result.1 ≡ lane) }
    ensures numbers { pass_numbers result.1 ≡ pass_numbers pass }
    ensures seen { IsPrefix (pass_seen pass) (pass_seen result.1) }
    ensures shared { IsSharedList A.desk A.clock (pass_seen pass)
        → IsSharedList A.desk A.clock (pass_seen result.1) }
    ensures responds { Responds S.pages lane
        (GoesInTurns S.pages A.desk.opening A.clock.dial lane (pass_seen pass) (pass_seen result.1)) wire.now result.0 }
    ensures code { IfOk result.0 (λ r. IsStatusCode r.status) }
    ensures steady { IsSound A.clock.health → result.0 ≢ Err ByClock }
{
    if let Requested::Call(call) = requested {
        return respond_to_call_in_turn(rt, alloc, lock, pass, lane, surface, wire, call, steps);
    }
    match response_without(alloc, requested) {
        Ok(response) => (Ok(response), pass),
        Err(OutOfMemory) => (Err(Unanswered::OutOfMemory), pass),
    }
}

// The page, if there is memory for it.
fn page_shown<S: Surface>(
    alloc: Global,
    surface: &S,
    page: Page,
    gauges: &Gauges,
) -> Result<Response, OutOfMemory>
    requires { IsMoment gauges.now.at }
    ensures shown { IfOk result (IsPageOf page gauges.now) }
    ensures code { IfOk result (λ r. IsStatusCode r.status) }
{
    let meters = surface.meters(alloc)?;
    page_of(alloc, page, surface.name(), meters.bytes(), gauges)
}

// Shows a page. The desk is looked at in a turn of its own.
fn respond_with_page<R: Wait, K: Keeper, B: Bell, C: Clock, A: Opened, S: Surface, L: Ledger>(
    rt: &R,
    alloc: Global,
    lock: &TurnLock<Shared<K, B, C, A>>,
    pass: Pass<Shared<K, B, C, A>>,
    lane: u32,
    surface: &S,
    wire: &Wire,
    page: Page,
    steps: &mut Steps<L>,
) -> (Result<Response, Unanswered>, Pass<Shared<K, B, C, A>>)
    requires lock { (pass_lock pass ≡ lock_id lock.now) × (pass_number pass ≡ lane) }
    requires asked { wanted_by S.pages wire.now ≡ Wanted.Page page }
    ensures pass { (pass_lock result.1 ≡ pass_lock pass) × (pass_number result.1 ≡ lane) }
    ensures numbers { pass_numbers result.1 ≡ pass_numbers pass }
    ensures seen { IsPrefix (pass_seen pass) (pass_seen result.1) }
    ensures shared { IsSharedList A.desk A.clock (pass_seen pass)
        → IsSharedList A.desk A.clock (pass_seen result.1) }
    ensures responds { Responds S.pages lane
        (GoesInTurns S.pages A.desk.opening A.clock.dial lane (pass_seen pass) (pass_seen result.1)) wire.now result.0 }
    ensures code { IfOk result.0 (λ r. IsStatusCode r.status) }
    ensures steady { IsSound A.clock.health → result.0 ≢ Err ByClock }
{
    let (looked, pass) = look_in_turn(rt, alloc, lock, pass, lane, steps);
    match looked {
        Ok(gauges) => match page_shown(alloc, surface, page, &gauges) {
            Ok(response) => (Ok(response), pass),
            Err(OutOfMemory) => (Err(Unanswered::OutOfMemory), pass),
        },
        Err(why) => (Err(why), pass),
    }
}

// The response to what a request wants.
fn respond_as_wanted<R: Wait, K: Keeper, B: Bell, C: Clock, A: Opened, S: Surface, L: Ledger>(
    rt: &R,
    alloc: Global,
    lock: &TurnLock<Shared<K, B, C, A>>,
    pass: Pass<Shared<K, B, C, A>>,
    lane: u32,
    surface: &S,
    wire: &Wire,
    wanted: &Wanted,
    steps: &mut Steps<L>,
) -> (Result<Response, Unanswered>, Pass<Shared<K, B, C, A>>)
    requires lock { (pass_lock pass ≡ lock_id lock.now) × (pass_number pass ≡ lane) }
    requires asked { wanted.now ≡ wanted_by S.pages wire.now }
    requires forms { WantedHasForms wanted.now }
    ensures pass { (pass_lock result.1 ≡ pass_lock pass) × (pass_number result.1 ≡ lane) }
    ensures numbers { pass_numbers result.1 ≡ pass_numbers pass }
    ensures seen { IsPrefix (pass_seen pass) (pass_seen result.1) }
    ensures shared { IsSharedList A.desk A.clock (pass_seen pass)
        → IsSharedList A.desk A.clock (pass_seen result.1) }
    ensures responds { Responds S.pages lane
        (GoesInTurns S.pages A.desk.opening A.clock.dial lane (pass_seen pass) (pass_seen result.1)) wire.now result.0 }
    ensures code { IfOk result.0 (λ r. IsStatusCode r.status) }
    ensures steady { IsSound A.clock.health → result.0 ≢ Err ByClock }
{
    match wanted {
        Wanted::Asked(requested) => respond_in_turn(
            rt, alloc, lock, pass, lane, surface, wire, requested, steps,
        ),
        Wanted::Page(page) => respond_with_page(
            rt, alloc, lock, pass, lane, surface, wire, *page, steps,
        ),
    }
}

// The status of a response, or of the error that is written in its place.
fn status_in(responded: &Result<Response, Unanswered>) -> u16 {
    match responded {
        Ok(response) => response.status,
        Err(Unanswered::ClockFault) => 503,
        Err(Unanswered::OutOfMemory) => 500,
    }
}

// The bytes of the response to a request.
fn exchange_in_turn<R: Wait, K: Keeper, B: Bell, C: Clock, A: Opened, S: Surface, L: Ledger>(
    rt: &R,
    alloc: Global,
    lock: &TurnLock<Shared<K, B, C, A>>,
    pass: Pass<Shared<K, B, C, A>>,
    lane: u32,
    surface: &S,
    patterns: &Patterns,
    wire: &Wire,
    steps: &mut Steps<L>,
) -> (Result<Text, Unanswered>, Pass<Shared<K, B, C, A>>)
    requires lock { (pass_lock pass ≡ lock_id lock.now) × (pass_number pass ≡ lane) }
    ensures pass { (pass_lock result.1 ≡ pass_lock pass) × (pass_number result.1 ≡ lane) }
    ensures numbers { pass_numbers result.1 ≡ pass_numbers pass }
    ensures seen { IsPrefix (pass_seen pass) (pass_seen result.1) }
    ensures shared { IsSharedList A.desk A.clock (pass_seen pass)
        → IsSharedList A.desk A.clock (pass_seen result.1) }
    ensures answers { Answers (in_lane S.pages lane)
        (GoesInTurns S.pages A.desk.opening A.clock.dial lane (pass_seen pass) (pass_seen result.1)) wire.now result.0 }
    ensures steady { IsSound A.clock.health → result.0 ≢ Err ByClock }
{
    match wanted_by(alloc, surface.has_pages(), patterns, wire) {
        Ok(wanted) => {
            let (responded, pass) = respond_as_wanted(
                rt, alloc, lock, pass, lane, surface, wire, &wanted, steps,
            );
            surface.count(&wanted, status_in(&responded));
            (text_of(alloc, responded), pass)
        }
        Err(OutOfMemory) => (Err(Unanswered::OutOfMemory), pass),
    }
}

// Serves the next request, or ends the connection.
fn serve_next_in_turn<
    R: Wait,
    K: Keeper,
    B: Bell,
    N: Link,
    C: Clock,
    A: Opened,
    S: Surface,
    L: Ledger,
>(
    rt: &R,
    alloc: Global,
    lock: &TurnLock<Shared<K, B, C, A>>,
    pass: Pass<Shared<K, B, C, A>>,
    lane: u32,
    surface: &S,
    link: &mut N,
    patterns: &Patterns,
    buffer: &mut Buffer,
    steps: &mut Steps<L>,
) -> (Option<Served>, Pass<Shared<K, B, C, A>>)
    requires lock { (pass_lock pass ≡ lock_id lock.now) × (pass_number pass ≡ lane) }
    ensures pass { (pass_lock result.1 ≡ pass_lock pass) × (pass_number result.1 ≡ lane) }
    ensures numbers { pass_numbers result.1 ≡ pass_numbers pass }
    ensures seen { IsPrefix (pass_seen pass) (pass_seen result.1) }
    ensures shared { IsSharedList A.desk A.clock (pass_seen pass)
        → IsSharedList A.desk A.clock (pass_seen result.1) }
    ensures serves { WroteTo (over N.seen link.old link.new) (λ failed. IsStep (in_lane S.pages lane)
        (GoesInTurns S.pages A.desk.opening A.clock.dial lane (pass_seen pass) (pass_seen result.1)) failed
        (unused buffer.old (unread (N.seen link.old).stream)) (unused buffer.new (unread (N.seen link.new).stream))
        (unread (N.seen link.new).stream) result.0) }
    ensures crosses { CrossedTo (over N.seen link.old link.new) (λ failed. IsStepBy (in_lane S.pages lane)
        (GoesInTurns S.pages A.desk.opening A.clock.dial lane (pass_seen pass) (pass_seen result.1)) failed
        buffer.old buffer.new result.0) }
    ensures link { LinkGoesOn (N.seen link.old) (N.seen link.new) }
    ensures steady { IsSound A.clock.health → result.0 ≢ Some ended.ClockFault }
{
    match next_request(alloc, link, buffer) {
        Ok(wire) => {
            let (answered, pass) = exchange_in_turn(
                rt, alloc, lock, pass, lane, surface, patterns, &wire, steps,
            );
            (write_answer(link, &answered, wire.last), pass)
        }
        Err(fault) => (Some(end_without(link, fault)), pass),
    }
}

/// Serves a connection over a shared desk: answers its requests in order until the connection ends. Each call takes a
/// turn at the lock, and is made at the moment that the clock returns in that turn.
///
/// The bytes written are the responses to the requests in the link's input. Each reply has a place in the list that
/// the pass has seen at the end. The places are in order, after the list that the pass had seen before. The clock's
/// answer is at that place. The reply is the answer in the state there at that moment, and the events that it adds
/// follow.
///
/// The lane has added nothing else, except at the end: a clock that failed leaves its miss there. If memory ran out,
/// at most an answer of the clock and a tick are left. If the list before is that of a shared desk, a legal history
/// with the clock's answers and the misses, so is the list at the end.
pub fn serve_turns<
    R: Wait,
    K: Keeper,
    B: Bell,
    N: Link,
    C: Clock,
    A: Opened,
    S: Surface,
    L: Ledger,
>(
    rt: &R,
    alloc: Global,
    lock: &TurnLock<Shared<K, B, C, A>>,
    mut pass: Pass<Shared<K, B, C, A>>,
    lane: u32,
    surface: &S,
    link: &mut N,
    steps: &mut Steps<L>,
) -> (Served, Pass<Shared<K, B, C, A>>)
    requires lock { (pass_lock pass ≡ lock_id lock.now) × (pass_number pass ≡ lane) }
    ensures pass { (pass_lock result.1 ≡ pass_lock pass) × (pass_number result.1 ≡ lane) }
    ensures numbers { pass_numbers result.1 ≡ pass_numbers pass }
    ensures seen { IsPrefix (pass_seen pass) (pass_seen result.1) }
    ensures shared { IsSharedList A.desk A.clock (pass_seen pass)
        → IsSharedList A.desk A.clock (pass_seen result.1) }
    ensures serves { WroteTo (over N.seen link.old link.new) (λ failed. IsConnection (in_lane S.pages lane)
        (GoesInTurns S.pages A.desk.opening A.clock.dial lane (pass_seen pass) (pass_seen result.1)) failed
        (unread (N.seen link.old).stream) (unread (N.seen link.new).stream) result.0) }
    // The same of every link, by the record of what crossed it.
    ensures crosses { CrossedTo (over N.seen link.old link.new) (λ failed. IsConnectionBy (in_lane S.pages lane)
        (GoesInTurns S.pages A.desk.opening A.clock.dial lane (pass_seen pass) (pass_seen result.1)) failed result.0) }
    ensures link { LinkGoesOn (N.seen link.old) (N.seen link.new) }
    // A sound clock doesn't end the connection, and neither does a sound link.
    ensures steady_clock { IsSound A.clock.health → result.0 ≢ ended.ClockFault }
    ensures steady_link { IsSound (N.seen link.old).health
        → (result.0 ≢ ended.ReadFault) × (result.0 ≢ ended.WriteFault) }
{
    let Ok(patterns) = Patterns::new(alloc) else {
        return (Served::OutOfMemory, pass);
    };
    let mut buffer = Buffer::new(alloc);
    for _ in rt.forever() {
        let (ended, next) = serve_next_in_turn(
            rt,
            alloc,
            lock,
            pass,
            lane,
            surface,
            link,
            &patterns,
            &mut buffer,
            steps,
        );
        pass = next;
        if let Some(served) = ended {
            return (served, pass);
        }
    }
    unreachable!()
}

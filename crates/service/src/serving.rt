ghost use Rattle.std.specs.Prelude.{◌≡◌, ◌≢◌, Some};
ghost use Rattle.connections.specs.declared.serving.Served.TheVariants as ended;
ghost use Rattle.desk.specs.Seen.{desk_at, desk_seen, DeskGoesOn};
ghost use Rattle.desk_io.specs.Health.{IsSound, IsStill};
ghost use Rattle.desk_io.specs.Over.{over};
ghost use Rattle.desk_net.specs.Seen.{ClockGoesOn, LinkGoesOn};
ghost use Rattle.service.specs.Alone.{ServesLink, ServesStep};

use crate::exchange::exchange;
use alerts::Bell;
use connections::{Served, end_without, write_answer};
use desk::Desk;
use desk_http::{Buffer, Patterns, next_request};
use desk_net::{Clock, Link};
use keeper::Keeper;
use rules::Steps;
use std::alloc::Global;
use std::sync::Wait;
use std::sync::ledger::Ledger;

// Serves the next request, or ends the connection.
fn serve_next<K: Keeper, B: Bell, N: Link, C: Clock, L: Ledger>(
    alloc: Global,
    desk: &mut Desk<K, B>,
    lane: u32,
    link: &mut N,
    clock: &mut C,
    patterns: &Patterns,
    buffer: &mut Buffer,
    steps: &mut Steps<L>,
) -> Option<Served>
    ensures serves { ServesStep lane (over N.seen link.old link.new) (over C.seen clock.old clock.new)
        (over (desk_at K.seen) desk.old desk.new) buffer.old buffer.new result }
    ensures desk { DeskGoesOn (desk_seen K.seen B.seen desk.old) (desk_seen K.seen B.seen desk.new) }
    ensures clock { ClockGoesOn (C.seen clock.old) (C.seen clock.new) }
    ensures still { result ≢ Some ended.ClockFault → result ≢ Some ended.OutOfMemory → IsStill (C.seen clock.old).health
        (C.seen clock.new).health }
    ensures link { LinkGoesOn (N.seen link.old) (N.seen link.new) }
{
    match next_request(alloc, link, buffer) {
        Ok(wire) => {
            let answered = exchange(alloc, desk, lane, clock, patterns, &wire, steps);
            write_answer(link, &answered, wire.last)
        }
        Err(fault) => Some(end_without(link, fault)),
    }
}

/// Serves a connection over a desk that isn't shared: answers its requests in order until the connection ends. Each
/// call is made at the moment that the clock returns for it. Between two requests the wait may be unlimited.
///
/// The bytes written are the responses to the requests in the link's input. A request that is refused as malformed
/// gets a response that ends the connection. Only the last response may be cut or missing, if the link failed while
/// it was written or memory ran out. After a fault of reading, all requests that were read whole have been answered.
pub fn serve_link<R: Wait, K: Keeper, B: Bell, N: Link, C: Clock, L: Ledger>(
    rt: &R,
    alloc: Global,
    desk: &mut Desk<K, B>,
    lane: u32,
    link: &mut N,
    clock: &mut C,
    steps: &mut Steps<L>,
) -> Served
    ensures serves { ServesLink lane (over N.seen link.old link.new) (over C.seen clock.old clock.new)
        (over (desk_at K.seen) desk.old desk.new) result }
    ensures desk { DeskGoesOn (desk_seen K.seen B.seen desk.old) (desk_seen K.seen B.seen desk.new) }
    ensures clock { ClockGoesOn (C.seen clock.old) (C.seen clock.new) }
    // A fault of the clock ends the connection with `ClockFault` or `OutOfMemory`. If it ends otherwise, the clock's
    // count is unchanged.
    ensures still { result ≢ ended.ClockFault → result ≢ ended.OutOfMemory → IsStill (C.seen clock.old).health
        (C.seen clock.new).health }
    ensures link { LinkGoesOn (N.seen link.old) (N.seen link.new) }
    // A sound clock doesn't end the connection, and neither does a sound link.
    ensures steady_clock { IsSound (C.seen clock.old).health → result ≢ ended.ClockFault }
    ensures steady_link { IsSound (N.seen link.old).health → (result ≢ ended.ReadFault) × (result ≢ ended.WriteFault) }
{
    let Ok(patterns) = Patterns::new(alloc) else {
        return Served::OutOfMemory;
    };
    let mut buffer = Buffer::new(alloc);
    for _ in rt.forever() {
        if let Some(served) = serve_next(
            alloc,
            desk,
            lane,
            link,
            clock,
            &patterns,
            &mut buffer,
            steps,
        ) {
            return served;
        }
    }
    unreachable!()
}

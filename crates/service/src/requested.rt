ghost use Rattle.std.specs.Prelude.{◌≡◌, IfOk};
ghost use Rattle.desk_json.specs.Faults.{call_or_fault};
ghost use Rattle.service.specs.Requested as spec;
ghost use Rattle.asks.specs.Forms.{AskHasForms, IsShort};
ghost use Rattle.service.specs.Forms.{RequestedHasForms, RouteHasForms};

use asks::{Ask, BadCall, Call};
use desk_http::{Patterns, RouteFault, Routed, Wire, route};
use desk_io::{OutOfMemory, Text};
use desk_json::{CallFault, read_call};
use std::alloc::Global;
use std::str;

/// What a request asks of the desk.
#[derive(Debug, Drop)]
pub enum Requested {
    /// A call.
    Call(Call),
    /// A body that is no call, with its first fault.
    Bad(BadCall),
    /// A path that names nothing.
    NoRoute,
    /// A path that takes the other method.
    WrongMethod,
}

fn is_short(text: &[u8]) -> bool
    ensures { result ≡ spec.is_short text.now }
{
    match str::from_utf8(text) {
        Ok(_) => text.len() <= 64,
        Err(_) => false,
    }
}

// The actor or the key of a view. A text that isn't UTF-8 or has more than 64 bytes counts as empty.
#[tactic(auto, using(crate::proofs::RouteForms::short_short))]
fn short_or_empty(alloc: Global, text: &[u8]) -> Result<Text, OutOfMemory>
    ensures exact { IfOk result (λ t. t ≡ spec.short_or_empty text.now) }
    ensures form { IfOk result IsShort }
{
    if is_short(text) {
        Text::of(alloc, text)
    } else {
        Text::of(alloc, b"")
    }
}

// A view, with the actor and the key from the request's head.
fn view_by(alloc: Global, wire: &Wire, ask: Ask) -> Result<Requested, OutOfMemory>
    requires { AskHasForms ask }
    ensures asked { IfOk result (λ r. r ≡ spec.viewed wire.now ask) }
    ensures forms { IfOk result RequestedHasForms }
{
    let actor = short_or_empty(alloc, wire.actor.bytes())?;
    let key = short_or_empty(alloc, wire.key.bytes())?;
    Ok(Requested::Call(Call {
        actor,
        key,
        number: 0,
        ask,
    }))
}

// The call in a body, or the body's first fault.
fn of_text(alloc: Global, body: &[u8]) -> Result<Requested, OutOfMemory>
    ensures asked { IfOk result (λ r. r ≡ spec.of_text (call_or_fault body.now)) }
    ensures forms { IfOk result RequestedHasForms }
{
    match read_call(alloc, body) {
        Ok(call) => Ok(Requested::Call(call)),
        Err(CallFault::Bad(fault)) => Ok(Requested::Bad(fault)),
        Err(CallFault::OutOfMemory) => Err(OutOfMemory),
    }
}

fn asked_by(alloc: Global, wire: &Wire, routed: Routed) -> Result<Requested, OutOfMemory>
    requires { RouteHasForms routed }
    ensures asked { IfOk result (λ r. r ≡ spec.asked_by wire.now routed) }
    ensures forms { IfOk result RequestedHasForms }
{
    match routed {
        Routed::Post => of_text(alloc, wire.body.bytes()),
        Routed::Board => view_by(alloc, wire, Ask::ViewBoard),
        Routed::Alerts => view_by(alloc, wire, Ask::ViewAlerts),
        Routed::Release(release) => view_by(alloc, wire, Ask::ViewRelease { release }),
        Routed::Weather(station) => view_by(alloc, wire, Ask::ViewWeather { station }),
        Routed::Deferred(tail) => view_by(alloc, wire, Ask::ViewDeferred { tail }),
    }
}

/// What a request asks of the desk. The path is checked before the method. A view has the actor and the key from the
/// request's head, and the number 0.
#[tactic(auto, unfolding(crate::specs::Requested::requested_by))]
pub fn requested_by(
    alloc: Global,
    patterns: &Patterns,
    wire: &Wire,
) -> Result<Requested, OutOfMemory>
    ensures asked { IfOk result (λ r. r ≡ spec.requested_by wire.now) }
    ensures forms { IfOk result RequestedHasForms }
{
    match route(alloc, patterns, wire) {
        Ok(routed) => asked_by(alloc, wire, routed),
        Err(RouteFault::NoRoute) => Ok(Requested::NoRoute),
        Err(RouteFault::WrongMethod) => Ok(Requested::WrongMethod),
        Err(RouteFault::OutOfMemory) => Err(OutOfMemory),
    }
}

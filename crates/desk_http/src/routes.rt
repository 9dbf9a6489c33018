ghost use Rattle.std.specs.Prelude.{◌≡◌, ◌==◌, IfOk, not};
ghost use Rattle.std.specs.List.{list_any};
ghost use Rattle.std.specs.Option.{option_map};
ghost use Rattle.std.specs.Str.{is_utf8};
ghost use Rattle.desk_http.specs.Names as names;
ghost use Rattle.desk_http.specs.Routes as spec;
ghost use Rattle.desk_http.specs.Routes.{Routes};
ghost use Rattle.desk_http.specs.declared.routes.RouteFault.TheVariants.{OutOfMemory as RouteMemory};

use crate::Wire;
use crate::digits::{has_length, number_of};
use crate::router::{Named, Patterns};
use desk_io::{OutOfMemory, Station, Text};
use std::alloc::Global;
use std::str;

/// What a request asks for.
#[derive(Debug, Drop)]
pub enum Routed {
    /// `POST /call`: the call in the body.
    Post,
    /// `GET /board`: the board.
    Board,
    /// `GET /alerts`: the alerts.
    Alerts,
    /// `GET /release/{id}`: a release by its number.
    Release(u64),
    /// `GET /weather/{station}`: the weather of a station.
    Weather(Station),
    /// `GET /deferred/{tail}`: the deferred items of an aircraft.
    Deferred(Text),
}

/// Why a request has no route.
#[derive(Clone, Copy, Debug, PartialEq, Eq)]
pub enum RouteFault {
    /// The path has no route.
    NoRoute,
    /// The path has a route, but with the other method.
    WrongMethod,
    /// Memory ran out.
    OutOfMemory,
}

impl From<OutOfMemory> for RouteFault {
    ghost from_gives = { λ _ e. e ≡ RouteMemory };

    fn from(_: OutOfMemory) -> Self {
        RouteFault::OutOfMemory
    }
}

// The rest of a path after a prefix.
fn after<'a>(front: &[u8], path: &'a [u8]) -> Option<&'a [u8]>
    ensures { option_map (λ rest. rest.now) result ≡ spec.after front.now path.now }
{
    path.strip_prefix(front)
}

fn rest_after<'a>(front: &[u8], path: &'a [u8]) -> &'a [u8]
    ensures { result.now ≡ names.rest_after front.now path.now }
{
    match after(front, path) {
        Some(rest) => rest,
        None => &[],
    }
}

fn release_route(id: &[u8]) -> Option<Routed>
    ensures { result ≡ spec.release_route id.now }
{
    match number_of(10, id) {
        Some(number) => Some(Routed::Release(number)),
        None => None,
    }
}

fn weather_route(name: &[u8]) -> Option<Routed>
    ensures { result ≡ spec.weather_route name.now }
{
    match Station::read(name) {
        Some(station) => Some(Routed::Weather(station)),
        None => None,
    }
}

fn has_slash(text: &[u8]) -> bool
    ensures { result ≡ list_any (λ b. b == 47) text.now }
{
    text.iter().any(|b| *b == b'/')
}

fn is_tail(tail: &[u8]) -> bool
    ensures { result ≡ spec.is_tail tail.now }
{
    has_length(8, tail) && !has_slash(tail)
}

fn deferred_route(alloc: Global, tail: &[u8]) -> Result<Option<Routed>, OutOfMemory>
    ensures { IfOk result (λ r. r ≡ spec.deferred_route tail.now) }
{
    if is_tail(tail) {
        Ok(Some(Routed::Deferred(Text::of(alloc, tail)?)))
    } else {
        Ok(None)
    }
}

// The route of this name, with its parameter from the path.
fn named_route(
    alloc: Global,
    name: Option<Named>,
    path: &[u8],
) -> Result<Option<Routed>, OutOfMemory>
    ensures { IfOk result (λ r. r ≡ names.named_route name path.now) }
{
    let Some(name) = name else {
        return Ok(None);
    };
    match name {
        Named::ToCall => Ok(Some(Routed::Post)),
        Named::ToBoard => Ok(Some(Routed::Board)),
        Named::ToAlerts => Ok(Some(Routed::Alerts)),
        Named::ToRelease => Ok(release_route(rest_after(b"/release/", path))),
        Named::ToWeather => Ok(weather_route(rest_after(b"/weather/", path))),
        Named::ToDeferred => deferred_route(alloc, rest_after(b"/deferred/", path)),
    }
}

fn route_in(alloc: Global, patterns: &Patterns, path: &str) -> Result<Option<Routed>, OutOfMemory>
    ensures { IfOk result (λ r. r ≡ spec.route_in path.now) }
{
    named_route(alloc, patterns.name_of(path), path.as_bytes())
}

#[tactic(auto, unfolding(crate::specs::Routes::route_of))]
fn route_of(alloc: Global, patterns: &Patterns, path: &[u8]) -> Result<Option<Routed>, OutOfMemory>
    ensures { IfOk result (λ r. r ≡ spec.route_of path.now) }
{
    match str::from_utf8(path) {
        Ok(text) => route_in(alloc, patterns, text),
        Err(_) => Ok(None),
    }
}

fn takes(get: bool, route: &Routed) -> bool
    ensures { result ≡ spec.takes get route.now }
{
    match route {
        Routed::Post => !get,
        Routed::Board
        | Routed::Alerts
        | Routed::Release(_)
        | Routed::Weather(_)
        | Routed::Deferred(_) => get,
    }
}

/// Finds what a request asks for. A path without a route is `NoRoute` with any method. A path whose route has the
/// other method is `WrongMethod`.
pub fn route(alloc: Global, patterns: &Patterns, wire: &Wire) -> Result<Routed, RouteFault>
    ensures { Routes (spec.routed wire.now) result }
{
    let Some(route) = route_of(alloc, patterns, wire.path.bytes())? else {
        return Err(RouteFault::NoRoute);
    };
    if takes(wire.get, &route) {
        Ok(route)
    } else {
        Err(RouteFault::WrongMethod)
    }
}

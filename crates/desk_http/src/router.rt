ghost use Rattle.std.specs.Prelude.{◌≡◌, IfOk};
ghost use Rattle.matchit.specs.Router.{rename, map_key};
ghost use Rattle.matchit.specs.Seek.{first};
ghost use Rattle.desk_http.specs.Names.{patterns};

use desk_io::OutOfMemory;
use matchit::{InsertError, Router};
use std::alloc::Global;
use std::marker::Model;

/// The routes by their path patterns, whatever their parameters.
#[derive(Clone, Copy)]
pub(crate) enum Named {
    /// `/call`
    ToCall,
    /// `/board`
    ToBoard,
    /// `/alerts`
    ToAlerts,
    /// `/release/{id}`
    ToRelease,
    /// `/weather/{station}`
    ToWeather,
    /// `/deferred/{tail}`
    ToDeferred,
}

fn router_of_routes(alloc: Global) -> Result<Router<Named>, InsertError>
    ensures { IfOk result (λ r. rename (λ e. e.value) r ≡ patterns) }
{
    let mut router = Router::new(alloc);
    router.insert("/call", Named::ToCall)?;
    router.insert("/board", Named::ToBoard)?;
    router.insert("/alerts", Named::ToAlerts)?;
    router.insert("/release/{id}", Named::ToRelease)?;
    router.insert("/weather/{station}", Named::ToWeather)?;
    router.insert("/deferred/{tail}", Named::ToDeferred)?;
    Ok(router)
}

fn found(router: &Router<Named>, path: &str) -> Option<Named>
    ensures { result ≡ map_key (λ e. e.value) (first router.now path.now) }
{
    match router.at(path) {
        Ok(found) => Some(*found.value),
        Err(_) => None,
    }
}

/// The path patterns of all routes. Create them once, for many requests.
#[derive(Drop)]
pub struct Patterns {
    router: Router<Named>,
}

impl Model for Patterns {
    ghost use Rattle.std.specs.Prelude.{◌≡◌};
    ghost use Rattle.matchit.specs.Router.{rename};
    ghost use Rattle.desk_http.specs.Names.{patterns};

    ghost Value = { Unit {0} };

    ghost view = { λ _. tt };

    ghost invariant = { λ p. rename (λ e. e.value) p.router ≡ patterns };
}

impl Patterns {
    /// Creates the patterns of all routes.
    pub fn new(alloc: Global) -> Result<Patterns, OutOfMemory> {
        match router_of_routes(alloc) {
            Ok(router) => Ok(Patterns { router }),
            Err(_) => Err(OutOfMemory),
        }
    }

    /// Finds the route whose pattern matches a path.
    pub(crate) fn name_of(&self, path: &str) -> Option<Named>
        ensures { result ≡ first patterns path.now }
    {
        found(&self.router, path)
    }
}

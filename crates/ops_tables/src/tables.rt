ghost use Rattle.std.specs.Prelude.{◌≡◌, ◌≤◌, [], All, IfSome, IsSome, is_some};
ghost use Rattle.std.specs.Option.{option_copied};
ghost use Rattle.ops_tables.specs.Limits.{FitsSettings, FitsAirport, FitsApproach, FitsAlternate, FitsType, FitsItem};
ghost use Rattle.ops_tables.specs.Limits.{FitsActor};
ghost use Rattle.ops_tables.specs.Keys.{AreNew, is_same_actor};
ghost use Rattle.ops_tables.specs.Linked.{AreLinked};
ghost use Rattle.ops_tables.specs.Named.{AreNamed};
ghost use Rattle.ops_tables.specs.Shown.{shown};
ghost use Rattle.ops_tables.specs.Tables.{airport_of, tail_named, type_of, may_use, miles_of, route_free, item_of, are_paired, actor_of, hours_of, has_captain, approaches_of, alternates_of};

use crate::group::Group;
use crate::loading::Loading;
use crate::lookups::{
    actor_in, airport_in, captain_in, hours_in, is_paired_in, is_route_in, is_used_in, item_in,
    miles_in, tail_in, type_in,
};
use crate::{Actor, Airport, AlternateRow, Approach, MelRow, Settings, TypeRow};
use desk_io::Station;
use std::marker::Model;

/// The operations tables. Each column has its form and range. No two rows of a table have the same key. Each airport,
/// type, item and captain that a row names is in its own table. Contracts model each table as its rows in the order
/// of the file.
#[derive(Drop)]
pub struct Tables {
    loaded: Loading,
}

impl Model for Tables {
    ghost use Rattle.ops_tables.specs.Tables.{TableRows};
    ghost use Rattle.ops_tables.specs.Shown.{shown};
    ghost use Rattle.ops_tables.specs.Linked.{AreLinked};
    ghost use Rattle.ops_tables.specs.Named.{AreNamed};

    ghost Value = { TableRows };

    ghost view = { λ t. shown t.loaded };

    ghost invariant = { λ t. AreLinked (shown t.loaded) × AreNamed (shown t.loaded) };
}

impl Tables {
    /// Takes the tables that were loaded.
    pub fn of(loaded: Loading) -> Tables
        requires linked { AreLinked (shown loaded) }
        requires named { AreNamed (shown loaded) }
        ensures { result ≡ shown loaded }
    {
        Tables { loaded }
    }

    /// Proves that the names of aircraft, items and people have their forms, and that captains' hours are in range.
    /// It does nothing at run time.
    pub fn are_named(&self)
        ensures { AreNamed self.now }
    {
        let _ = &self.loaded;
    }

    /// Returns the settings of the airline.
    pub fn settings(&self) -> Settings
        ensures value { result ≡ self.now.settings }
        ensures within { FitsSettings result }
    {
        self.loaded.settings
    }

    /// Returns the airport of this station.
    pub fn airport(&self, s: Station) -> Option<Airport>
        ensures value { result ≡ airport_of self.now s }
        ensures within { IfSome result FitsAirport }
    {
        airport_in(&self.loaded.airports, s).copied()
    }

    /// Returns true if `tails.csv` has an aircraft of this registration.
    pub fn has_tail(&self, tail: &[u8]) -> bool
        ensures { result ≡ is_some (tail_named self.now tail.now) }
    {
        tail_in(&self.loaded.tails, tail).is_some()
    }

    /// Returns the type of an aircraft.
    pub fn type_of(&self, tail: &[u8]) -> Option<&TypeRow>
        ensures value { option_copied result ≡ type_of self.now tail.now }
        ensures within { IfSome result (λ r. FitsType r.now) }
        ensures known { IsSome (tail_named self.now tail.now) → IsSome result }
    {
        match tail_in(&self.loaded.tails, tail) {
            None => None,
            Some(row) => type_in(&self.loaded.types, row.kind.bytes()),
        }
    }

    /// Returns true if the type may use the airport.
    pub fn may_use(&self, kind: &[u8], s: Station) -> bool
        ensures { result ≡ may_use self.now kind.now s }
    {
        is_used_in(&self.loaded.uses, kind, s)
    }

    /// Returns the distance from one airport to another, in nautical miles. The opposite direction needs a row of its
    /// own.
    pub fn miles(&self, from: Station, to: Station) -> Option<u32>
        ensures value { result ≡ miles_of self.now from to }
        ensures within { IfSome result (λ miles. miles ≤ 20000) }
    {
        miles_in(&self.loaded.distances, from, to)
    }

    /// Returns true if a flag flight on this route may go without an alternate (14 CFR 121.621(a)(2)). The opposite
    /// direction needs a row of its own.
    pub fn route_free(&self, from: Station, to: Station) -> bool
        ensures { result ≡ route_free self.now from to }
    {
        is_route_in(&self.loaded.routes, from, to)
    }

    /// Returns an item of a type's minimum equipment list.
    pub fn item(&self, kind: &[u8], item: &[u8]) -> Option<&MelRow>
        ensures value { option_copied result ≡ item_of self.now kind.now item.now }
        ensures within { IfSome result (λ r. FitsItem r.now) }
    {
        item_in(&self.loaded.mel, kind, item)
    }

    /// Returns true if two items of a type may not be deferred together. Their order doesn't matter.
    pub fn paired(&self, kind: &[u8], one: &[u8], two: &[u8]) -> bool
        ensures { result ≡ are_paired self.now kind.now one.now two.now }
    {
        is_paired_in(&self.loaded.pairs, kind, one, two)
            || is_paired_in(&self.loaded.pairs, kind, two, one)
    }

    /// Returns all people in the order of `actors.csv`. No two of them have the same name. It allocates nothing.
    pub fn actors(&self) -> &[Actor]
        ensures rows { result.now ≡ self.now.actors }
        ensures distinct { AreNew is_same_actor [] self.now.actors }
    {
        self.loaded.actors.are_distinct();
        self.loaded.actors.rows()
    }

    /// Returns the person of this name.
    pub fn actor(&self, name: &[u8]) -> Option<&Actor>
        ensures value { option_copied result ≡ actor_of self.now name.now }
        ensures within { IfSome result (λ a. FitsActor a.now) }
    {
        actor_in(&self.loaded.actors, name)
    }

    /// Returns true if `actors.csv` has a person of this name with role C, so that he may be the pilot in command.
    pub fn has_captain(&self, name: &[u8]) -> bool
        ensures { result ≡ has_captain self.now name.now }
    {
        captain_in(&self.loaded.actors, name)
    }

    /// Returns the hours of a captain as pilot in command in a type (14 CFR 121.652); 0 if there is no row. It
    /// allocates nothing.
    pub fn hours(&self, captain: &[u8], kind: &[u8]) -> u32
        ensures value { result ≡ hours_of self.now captain.now kind.now }
        ensures within { result ≤ 100_000 }
    {
        hours_in(&self.loaded.hours, captain, kind)
    }

    /// Returns the approaches of a station in the order of the file. The group may be empty.
    pub fn approaches(&self, s: Station) -> Group<'_, Approach>
        ensures value { result ≡ approaches_of self.now s }
        ensures within { All FitsApproach result }
    {
        self.loaded.approaches.at(&s.bytes())
    }

    /// Returns the alternate minima of a station that has its own, in the order of the file. The group may be empty.
    pub fn alternates(&self, s: Station) -> Group<'_, AlternateRow>
        ensures value { result ≡ alternates_of self.now s }
        ensures within { All FitsAlternate result }
    {
        self.loaded.alternates.at(&s.bytes())
    }
}

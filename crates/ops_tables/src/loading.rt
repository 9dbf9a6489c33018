ghost use Rattle.std.specs.Prelude.{◌≡◌};
ghost use Rattle.ops_tables.specs.Tables.{has_airport, has_type, has_item, has_captain};
ghost use Rattle.ops_tables.specs.Shown.{shown};

use crate::grouped::Grouped;
use crate::lookups::{airport_in, captain_in, item_in, type_in};
use crate::{
    Actor, Airport, AlternateRow, Approach, CaptainHours, Distance, ItemPair, MelRow, Route,
    Settings, Tail, TypeRow, Use,
};
use desk_io::Station;

/// The thirteen tables while they are loaded. Each is filled as a whole.
#[derive(Drop)]
pub struct Loading {
    pub settings: Settings,
    pub airports: Grouped<Airport, 48>,
    pub approaches: Grouped<Approach, 4>,
    pub alternates: Grouped<AlternateRow, 4>,
    pub types: Grouped<TypeRow, 48>,
    pub tails: Grouped<Tail, 48>,
    pub uses: Grouped<Use, 48>,
    pub distances: Grouped<Distance, 48>,
    pub routes: Grouped<Route, 48>,
    pub mel: Grouped<MelRow, 48>,
    pub pairs: Grouped<ItemPair, 48>,
    pub actors: Grouped<Actor, 48>,
    pub hours: Grouped<CaptainHours, 48>,
}

impl Loading {
    /// Returns true if `airports.csv` has this station.
    pub fn has_airport(&self, s: Station) -> bool
        ensures { result ≡ has_airport (shown self.now) s }
    {
        airport_in(&self.airports, s).is_some()
    }

    /// Returns true if `types.csv` has a type of this name.
    pub fn has_type(&self, kind: &[u8]) -> bool
        ensures { result ≡ has_type (shown self.now) kind.now }
    {
        type_in(&self.types, kind).is_some()
    }

    /// Returns true if `mel.csv` has this item for the type.
    pub fn has_item(&self, kind: &[u8], item: &[u8]) -> bool
        ensures { result ≡ has_item (shown self.now) kind.now item.now }
    {
        item_in(&self.mel, kind, item).is_some()
    }

    /// Returns true if `actors.csv` has a person of this name with role C, so that he may be the pilot in command.
    pub fn has_captain(&self, name: &[u8]) -> bool
        ensures { result ≡ has_captain (shown self.now) name.now }
    {
        captain_in(&self.actors, name)
    }
}

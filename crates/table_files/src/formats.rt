ghost use Rattle.std.specs.Prelude.{◌≡◌};
ghost use Rattle.table_files.specs.Files as files;
ghost use Rattle.table_files.specs.Told as told;

use crate::reading::{FileRow, Layout};
use crate::records::{
    actor_row, airport_row, alternate_row, approach_row, distance_row, hours_row, item_row,
    pair_row, route_row, tail_row, type_row, use_row,
};
use desk_io::{OutOfMemory, Text};
use ops_tables::{
    Actor, Airport, AlternateRow, Approach, CaptainHours, Distance, ItemPair, Loading, MelRow,
    Route, Tail, TypeRow, Use,
};
use std::alloc::Global;

impl FileRow<48> for Airport {
    ghost table = { files.airports };

    ghost told = { told.airport_told };

    fn layout() -> Layout {
        Layout {
            columns: &["station", "conus", "circle"],
            limit: 5_000,
        }
    }

    fn of_fields(_: Global, fields: &[Text]) -> Result<Option<Airport>, OutOfMemory> {
        Ok(airport_row(fields))
    }

    fn is_linked(&self, _: &Loading) -> bool {
        true
    }
}

impl FileRow<4> for Approach {
    ghost table = { files.approaches };

    ghost told = { told.approach_told };

    fn layout() -> Layout {
        Layout {
            columns: &[
                "station",
                "name",
                "runway",
                "capability",
                "height",
                "ceiling",
                "vis16",
            ],
            limit: 50_000,
        }
    }

    fn of_fields(_: Global, fields: &[Text]) -> Result<Option<Approach>, OutOfMemory> {
        Ok(approach_row(fields))
    }

    fn is_linked(&self, loaded: &Loading) -> bool {
        loaded.has_airport(self.station)
    }
}

impl FileRow<4> for AlternateRow {
    ghost table = { files.alternates };

    ghost told = { told.alternate_told };

    fn layout() -> Layout {
        Layout {
            columns: &["station", "ceiling", "vis16"],
            limit: 20_000,
        }
    }

    fn of_fields(_: Global, fields: &[Text]) -> Result<Option<AlternateRow>, OutOfMemory> {
        Ok(alternate_row(fields))
    }

    fn is_linked(&self, loaded: &Loading) -> bool {
        loaded.has_airport(self.station)
    }
}

impl FileRow<48> for TypeRow {
    ghost table = { files.types };

    ghost told = { told.type_told };

    fn layout() -> Layout {
        Layout {
            columns: &[
                "kind",
                "engines",
                "oei_knots",
                "cruise_pph",
                "hold_pph",
                "capabilities",
            ],
            limit: 200,
        }
    }

    fn of_fields(alloc: Global, fields: &[Text]) -> Result<Option<TypeRow>, OutOfMemory> {
        type_row(alloc, fields)
    }

    fn is_linked(&self, _: &Loading) -> bool {
        true
    }
}

impl FileRow<48> for Tail {
    ghost table = { files.tails };

    ghost told = { told.tail_told };

    fn layout() -> Layout {
        Layout {
            columns: &["tail", "kind"],
            limit: 5_000,
        }
    }

    fn of_fields(_: Global, fields: &[Text]) -> Result<Option<Tail>, OutOfMemory> {
        Ok(tail_row(fields))
    }

    fn is_linked(&self, loaded: &Loading) -> bool {
        loaded.has_type(self.kind.bytes())
    }
}

impl FileRow<48> for Use {
    ghost table = { files.uses };

    ghost told = { told.use_told };

    fn layout() -> Layout {
        Layout {
            columns: &["kind", "station"],
            limit: 200_000,
        }
    }

    fn of_fields(_: Global, fields: &[Text]) -> Result<Option<Use>, OutOfMemory> {
        Ok(use_row(fields))
    }

    fn is_linked(&self, loaded: &Loading) -> bool {
        loaded.has_type(self.kind.bytes()) && loaded.has_airport(self.station)
    }
}

impl FileRow<48> for Distance {
    ghost table = { files.distances };

    ghost told = { told.distance_told };

    fn layout() -> Layout {
        Layout {
            columns: &["from", "to", "miles"],
            limit: 200_000,
        }
    }

    fn of_fields(_: Global, fields: &[Text]) -> Result<Option<Distance>, OutOfMemory> {
        Ok(distance_row(fields))
    }

    fn is_linked(&self, loaded: &Loading) -> bool {
        loaded.has_airport(self.from) && loaded.has_airport(self.to)
    }
}

impl FileRow<48> for Route {
    ghost table = { files.routes };

    ghost told = { told.route_told };

    fn layout() -> Layout {
        Layout {
            columns: &["from", "to"],
            limit: 50_000,
        }
    }

    fn of_fields(_: Global, fields: &[Text]) -> Result<Option<Route>, OutOfMemory> {
        Ok(route_row(fields))
    }

    fn is_linked(&self, loaded: &Loading) -> bool {
        loaded.has_airport(self.from) && loaded.has_airport(self.to)
    }
}

impl FileRow<48> for MelRow {
    ghost table = { files.mel };

    ghost told = { told.item_told };

    fn layout() -> Layout {
        Layout {
            columns: &[
                "kind",
                "item",
                "category",
                "days",
                "capability",
                "extra_fuel",
                "flag_ok",
                "max_minutes",
            ],
            limit: 50_000,
        }
    }

    fn of_fields(_: Global, fields: &[Text]) -> Result<Option<MelRow>, OutOfMemory> {
        Ok(item_row(fields))
    }

    fn is_linked(&self, loaded: &Loading) -> bool {
        loaded.has_type(self.kind.bytes())
    }
}

impl FileRow<48> for ItemPair {
    ghost table = { files.pairs };

    ghost told = { told.pair_told };

    fn layout() -> Layout {
        Layout {
            columns: &["kind", "item", "other"],
            limit: 50_000,
        }
    }

    fn of_fields(alloc: Global, fields: &[Text]) -> Result<Option<ItemPair>, OutOfMemory> {
        pair_row(alloc, fields)
    }

    fn is_linked(&self, loaded: &Loading) -> bool {
        loaded.has_type(self.kind())
            && loaded.has_item(self.kind(), self.item())
            && loaded.has_item(self.kind(), self.other())
    }
}

impl FileRow<48> for Actor {
    ghost table = { files.actors };

    ghost told = { told.actor_told };

    fn layout() -> Layout {
        Layout {
            columns: &["name", "key", "role"],
            limit: 5_000,
        }
    }

    fn of_fields(alloc: Global, fields: &[Text]) -> Result<Option<Actor>, OutOfMemory> {
        actor_row(alloc, fields)
    }

    fn is_linked(&self, _: &Loading) -> bool {
        true
    }
}

impl FileRow<48> for CaptainHours {
    ghost table = { files.hours };

    ghost told = { told.hours_told };

    fn layout() -> Layout {
        Layout {
            columns: &["captain", "kind", "hours"],
            limit: 20_000,
        }
    }

    fn of_fields(alloc: Global, fields: &[Text]) -> Result<Option<CaptainHours>, OutOfMemory> {
        hours_row(alloc, fields)
    }

    fn is_linked(&self, loaded: &Loading) -> bool {
        loaded.has_captain(self.captain()) && loaded.has_type(self.kind())
    }
}

ghost use Rattle.std.specs.Prelude.{◌≡◌, ◌≤◌, IfOk, OnOk};
ghost use Rattle.ops_tables.specs.Limits.{FitsSettings};
ghost use Rattle.ops_tables.specs.Shown.{shown};
ghost use Rattle.table_files.specs.Files.{with_file, no_rows};
ghost use Rattle.table_files.specs.Filling.{Fills, Places};
ghost use Rattle.table_files.specs.declared.files.File.TheVariants as file;

use crate::faults::BadRecord;
use crate::files::File;
use crate::reading::read_rows;
use crate::settings::read_settings;
use desk_io::{OutOfMemory, Text};
use ops_tables::{Grouped, Loading, Row, Settings};
use std::alloc::Global;

/// Returns tables without rows; every setting is 0.
pub(crate) fn unread(alloc: Global) -> Loading
    ensures value { shown result ≡ no_rows }
    ensures settings { FitsSettings result.settings }
{
    Loading {
        settings: Settings {
            hold_minutes: 0,
            marginal_ceiling: 0,
            single_ceiling: 0,
            double_ceiling: 0,
            marginal_vis16: 0,
            single_vis16: 0,
            double_vis16: 0,
            late_off: 0,
            late_on: 0,
        },
        airports: Grouped::new(alloc),
        approaches: Grouped::new(alloc),
        alternates: Grouped::new(alloc),
        types: Grouped::new(alloc),
        tails: Grouped::new(alloc),
        uses: Grouped::new(alloc),
        distances: Grouped::new(alloc),
        routes: Grouped::new(alloc),
        mel: Grouped::new(alloc),
        pairs: Grouped::new(alloc),
        actors: Grouped::new(alloc),
        hours: Grouped::new(alloc),
    }
}

// Stores the rows of a table, unless a record is bad.
fn place_rows<R: Row<N>, const N: usize>(
    rows: &mut Grouped<R, N>,
    read: Result<Grouped<R, N>, BadRecord>,
) -> Result<(), BadRecord>
    ensures { Places read result rows.old rows.new }
{
    match read {
        Ok(more) => {
            *rows = more;
            Ok(())
        }
        Err(bad) => Err(bad),
    }
}

fn fill_settings(
    alloc: Global,
    text: &[u8],
    loaded: &mut Loading,
) -> Result<Result<(), BadRecord>, OutOfMemory>
    ensures value { IfOk result
        (λ made. Fills text.now (with_file file.Settings (shown loaded.old)) made (shown loaded.new)) }
    ensures settings { FitsSettings loaded.old.settings → OnOk result (FitsSettings loaded.new.settings) }
{
    match read_settings(alloc, text)? {
        Ok(settings) => {
            loaded.settings = settings;
            Ok(Ok(()))
        }
        Err(bad) => Ok(Err(bad)),
    }
}

/// Reads one table from its text, after the tables before it in the order of files.
pub(crate) fn fill(
    alloc: Global,
    file: File,
    text: Text,
    loaded: &mut Loading,
) -> Result<Result<(), BadRecord>, OutOfMemory>
    ensures value { IfOk result (λ made. Fills text (with_file file (shown loaded.old)) made (shown loaded.new)) }
    ensures settings { FitsSettings loaded.old.settings → OnOk result (FitsSettings loaded.new.settings) }
{
    match file {
        File::Settings => fill_settings(alloc, text.bytes(), loaded),
        File::Airports => {
            let read = read_rows(alloc, text, loaded)?;
            Ok(place_rows(&mut loaded.airports, read))
        }
        File::Approaches => {
            let read = read_rows(alloc, text, loaded)?;
            Ok(place_rows(&mut loaded.approaches, read))
        }
        File::Alternates => {
            let read = read_rows(alloc, text, loaded)?;
            Ok(place_rows(&mut loaded.alternates, read))
        }
        File::Types => {
            let read = read_rows(alloc, text, loaded)?;
            Ok(place_rows(&mut loaded.types, read))
        }
        File::Tails => {
            let read = read_rows(alloc, text, loaded)?;
            Ok(place_rows(&mut loaded.tails, read))
        }
        File::Uses => {
            let read = read_rows(alloc, text, loaded)?;
            Ok(place_rows(&mut loaded.uses, read))
        }
        File::Distances => {
            let read = read_rows(alloc, text, loaded)?;
            Ok(place_rows(&mut loaded.distances, read))
        }
        File::Routes => {
            let read = read_rows(alloc, text, loaded)?;
            Ok(place_rows(&mut loaded.routes, read))
        }
        File::Mel => {
            let read = read_rows(alloc, text, loaded)?;
            Ok(place_rows(&mut loaded.mel, read))
        }
        File::Pairs => {
            let read = read_rows(alloc, text, loaded)?;
            Ok(place_rows(&mut loaded.pairs, read))
        }
        File::Actors => {
            let read = read_rows(alloc, text, loaded)?;
            Ok(place_rows(&mut loaded.actors, read))
        }
        File::Hours => {
            let read = read_rows(alloc, text, loaded)?;
            Ok(place_rows(&mut loaded.hours, read))
        }
    }
}

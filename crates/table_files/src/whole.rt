ghost use Rattle.std.specs.Prelude.{◌≡◌, IfOk, OnOk, IfErr};
ghost use Rattle.desk_io.specs.Health.{IsSound};
ghost use Rattle.desk_io.specs.Seen.{ShelfGoesOn};
ghost use Rattle.ops_tables.specs.Limits.{FitsSettings};
ghost use Rattle.table_files.specs.Files.{name_of};
ghost use Rattle.table_files.specs.Whole.{ReadsText, ReadsFile, ReadsTables, StopsAtMissing, IsMissing};
ghost use Rattle.table_files.specs.Whole.{HoldsFile, HoldsFiles, RoseAt};
ghost use Rattle.table_files.specs.declared.faults.TableFault.TheVariants as fault;
ghost use Rattle.ops_tables.specs.Shown.{shown};

use crate::faults::{BadRecord, BadTable, TableFault};
use crate::files::{FILES, File};
use crate::filling::{fill, unread};
use desk_io::{OutOfMemory, Shelf, Text, WholeFault, read_whole};
use ops_tables::{Loading, Tables};
use std::alloc::Global;

impl From<OutOfMemory> for TableFault {
    ghost from_gives = { λ _ e. e ≡ fault.OutOfMemory };

    fn from(_: OutOfMemory) -> Self {
        TableFault::OutOfMemory
    }
}

fn name_text(alloc: Global, file: File) -> Result<Text, OutOfMemory>
    ensures { IfOk result (λ name. name ≡ name_of file) }
{
    Text::of(alloc, file.name().as_bytes())
}

fn bad_table(alloc: Global, file: File, bad: BadRecord) -> Result<BadTable, OutOfMemory>
    ensures { IfOk result (λ table. table ≡ record { name = name_of file; line = bad.line; why = bad.why }) }
{
    Ok(BadTable {
        name: name_text(alloc, file)?,
        line: bad.line,
        why: bad.why,
    })
}

// Reads the whole text of a file.
fn read_text<S: Shelf>(alloc: Global, shelf: &mut S, file: File) -> Result<Text, TableFault>
    ensures reads { ReadsText (S.seen shelf.old).sources (S.seen shelf.old).reads (S.seen shelf.new).reads file result }
    ensures on { ShelfGoesOn (HoldsFile (S.seen shelf.old) file) (S.seen shelf.old) (S.seen shelf.new) }
    ensures missing { IsSound (S.seen shelf.old).health → IfErr result (IsMissing (S.seen shelf.old).sources file) }
    ensures cause { IfErr result (RoseAt (S.seen shelf.old).health (S.seen shelf.new).health) }
{
    match read_whole(alloc, shelf, file.name()) {
        Ok(text) => Ok(text),
        Err(WholeFault::ReadFault) => Err(TableFault::ReadFault(name_text(alloc, file)?)),
        Err(WholeFault::TooLong) => Err(TableFault::TooLong(name_text(alloc, file)?)),
        Err(WholeFault::OutOfMemory) => Err(TableFault::OutOfMemory),
    }
}

// Reads the table of one more file.
#[tactic(auto, using(crate::proofs::GoodFiles::file_gives))]
fn read_file<S: Shelf>(
    alloc: Global,
    shelf: &mut S,
    file: File,
    loaded: &mut Loading,
) -> Result<(), TableFault>
    ensures reads { ReadsFile (S.seen shelf.old).sources (S.seen shelf.old).reads (S.seen shelf.new).reads file
        (shown loaded.old) result (shown loaded.new) }
    ensures settings { FitsSettings loaded.old.settings → OnOk result (FitsSettings loaded.new.settings) }
    ensures on { ShelfGoesOn (HoldsFile (S.seen shelf.old) file) (S.seen shelf.old) (S.seen shelf.new) }
    ensures missing { IsSound (S.seen shelf.old).health → IfErr result (IsMissing (S.seen shelf.old).sources file) }
    ensures cause { IfErr result (RoseAt (S.seen shelf.old).health (S.seen shelf.new).health) }
{
    let text = read_text(alloc, shelf, file)?;
    match fill(alloc, file, text, loaded)? {
        Ok(()) => Ok(()),
        Err(bad) => Err(TableFault::Bad(bad_table(alloc, file, bad)?)),
    }
}

/// Reads the thirteen tables of a shelf, file by file, each once and from its start to its end, and nothing else. The
/// tables are those of the bytes that these reads returned. `Bad` is the first bad record in the order of the files.
/// `TooLong` means that the reads of a file returned more than 64 MiB, after the tables before it were good.
/// `ReadFault` means that a read failed, and that the shelf's count of faults rose or is full. A sound shelf returns it
/// only for a file that it doesn't hold, after the tables before it were good. `ReadFault` and `TooLong` carry the
/// file's name. After a fault nothing more is read.
pub fn read_tables<S: Shelf>(alloc: Global, shelf: &mut S) -> Result<Tables, TableFault>
    ensures tables { ReadsTables (S.seen shelf.old).sources (S.seen shelf.old).reads (S.seen shelf.new).reads result }
    ensures on { ShelfGoesOn (HoldsFiles (S.seen shelf.old)) (S.seen shelf.old) (S.seen shelf.new) }
    ensures missing { IsSound (S.seen shelf.old).health → IfErr result
        (StopsAtMissing (S.seen shelf.old).sources (S.seen shelf.old).reads (S.seen shelf.new).reads) }
    ensures cause { IfErr result (RoseAt (S.seen shelf.old).health (S.seen shelf.new).health) }
{
    let mut loaded = unread(alloc);
    for file in &FILES {
        read_file(alloc, shelf, *file, &mut loaded)?;
    }
    Ok(Tables::of(loaded))
}

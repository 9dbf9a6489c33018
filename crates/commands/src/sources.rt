ghost use Rattle.std.specs.Prelude.{◌≡◌, map, string_bytes};
ghost use Rattle.commands.specs.Sources as spec;
ghost use Rattle.commands.specs.Sources.{ReadsFiles, ReadsSource, ReadsSources};
ghost use Rattle.desk_io.specs.Over.{over};
ghost use Rattle.desk_io.specs.Seen.{Holds, ShelfGoesOn};
ghost use Rattle.table_files.specs.Whole.{HoldsFiles};

use crate::fault::Fault;
use desk_io::{Listed, Shelf, Text, WholeFault, read_whole};
use ops_tables::Tables;
use std::alloc::Global;
use table_files::read_tables;

/// Reads the whole source of a name, from its start to its end, and nothing else.
pub(crate) fn read_source<S: Shelf>(alloc: Global, shelf: &mut S, name: &str) -> Result<Text, Fault>
    ensures read { ReadsSource (over S.seen shelf.old shelf.new) name.now result }
    ensures on { ShelfGoesOn (Holds (S.seen shelf.old) name.now) (S.seen shelf.old) (S.seen shelf.new) }
{
    match read_whole(alloc, shelf, name) {
        Ok(text) => Ok(text),
        Err(WholeFault::ReadFault) => Err(Fault::ReadFault(Text::of(alloc, name.as_bytes())?)),
        Err(WholeFault::TooLong) => Err(Fault::InputTooLong(Text::of(alloc, name.as_bytes())?)),
        Err(WholeFault::OutOfMemory) => Err(Fault::OutOfMemory),
    }
}

/// Reads the whole sources of names, each once and in order, and nothing else. Or returns the first fault.
pub(crate) fn read_sources<S: Shelf>(
    alloc: Global,
    shelf: &mut S,
    names: &[String],
) -> Result<Listed<Text>, Fault>
    ensures { ReadsSources (over S.seen shelf.old shelf.new) (map string_bytes names.now) result }
{
    let mut texts = Listed::new(alloc);
    for name in names {
        match read_source(alloc, shelf, name.as_str()) {
            Ok(text) => texts.push(text)?,
            Err(fault) => return Err(fault),
        }
    }
    Ok(texts)
}

/// The first text, for a command that reads one source.
pub(crate) fn first_of(texts: &[Text]) -> &[u8]
    ensures { result.now ≡ spec.first_of texts.now }
{
    match texts {
        [] => &[],
        [text, ..] => text.bytes(),
    }
}

/// The second text, for a command that reads two sources.
pub(crate) fn second_of(texts: &[Text]) -> &[u8]
    ensures { result.now ≡ spec.second_of texts.now }
{
    match texts {
        [] => &[],
        [_] => &[],
        [_, text, ..] => text.bytes(),
    }
}

/// The name of the source, for a command that reads one.
pub(crate) fn first_name(names: &[String]) -> &str
    ensures { result.now ≡ spec.first_of (map string_bytes names.now) }
{
    match names {
        [] => "",
        [name, ..] => name.as_str(),
    }
}

/// The name of the second source, for a command that reads two.
pub(crate) fn second_name(names: &[String]) -> &str
    ensures { result.now ≡ spec.second_of (map string_bytes names.now) }
{
    match names {
        [] => "",
        [_] => "",
        [_, name, ..] => name.as_str(),
    }
}

/// Reads the thirteen tables, each once and in order, and nothing else.
pub(crate) fn read_files<S: Shelf>(alloc: Global, shelf: &mut S) -> Result<Tables, Fault>
    ensures read { ReadsFiles (over S.seen shelf.old shelf.new) (S.seen shelf.new).reads result }
    ensures on { ShelfGoesOn (HoldsFiles (S.seen shelf.old)) (S.seen shelf.old) (S.seen shelf.new) }
{
    match read_tables(alloc, shelf) {
        Ok(tables) => Ok(tables),
        Err(fault) => Err(Fault::from(fault)),
    }
}

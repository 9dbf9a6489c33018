use crate::fails::failing;
use crate::fault::CaseFault;
use crate::outside::CaseShelf;
use crate::play::Play;
use crate::texts::text_of;
use desk_io::{MemoryShelf, Shelf, Text, read_whole};
use serde_json::{Map, Value};
use std::alloc::Global;

// The names of the thirteen tables.
const TABLES: [&str; 13] = [
    "settings.csv",
    "airports.csv",
    "approaches.csv",
    "alternates.csv",
    "types.csv",
    "tails.csv",
    "uses.csv",
    "distances.csv",
    "routes.csv",
    "mel.csv",
    "pairs.csv",
    "actors.csv",
    "hours.csv",
];

type Sources = Vec<(Text, Text)>;

fn push_source<'a, F: Shelf>(
    play: &Play<'a>,
    files: &mut F,
    sources: &mut Sources,
    name: &str,
    value: &'a Value,
) -> Result<(), CaseFault<'a>> {
    let text = text_of(play, files, value)?;
    let name = Text::of(play.alloc, name.as_bytes())?;
    sources.push((name, Text::from_vec(text)))?;
    Ok(())
}

fn push_sources<'a, F: Shelf>(
    play: &Play<'a>,
    files: &mut F,
    sources: &mut Sources,
    members: &'a Map<String, Value>,
) -> Result<(), CaseFault<'a>> {
    for (name, value) in members.iter() {
        push_source(play, files, sources, name.as_str(), value)?;
    }
    Ok(())
}

fn push_table<'a, F: Shelf>(
    alloc: Global,
    files: &mut F,
    sources: &mut Sources,
    folder: &'a str,
    name: &str,
) -> Result<(), CaseFault<'a>> {
    let path = format!(in alloc; "{folder}/{name}")?;
    match read_whole(alloc, files, path.as_str()) {
        Ok(whole) => {
            sources.push((Text::of(alloc, name.as_bytes())?, whole))?;
            Ok(())
        }
        Err(fault) => Err(CaseFault::of_file(fault, folder)),
    }
}

fn push_folder<'a, F: Shelf>(
    alloc: Global,
    files: &mut F,
    sources: &mut Sources,
    folder: &'a str,
) -> Result<(), CaseFault<'a>> {
    for name in &TABLES {
        push_table(alloc, files, sources, folder, name)?;
    }
    Ok(())
}

fn push_all_of<'a, F: Shelf>(
    play: &Play<'a>,
    files: &mut F,
    sources: &mut Sources,
    key: &'static str,
) -> Result<(), CaseFault<'a>> {
    match play.part(key) {
        None => Ok(()),
        Some(Value::String(folder)) => push_folder(play.alloc, files, sources, folder.as_str()),
        Some(Value::Object(members)) => push_sources(play, files, sources, members),
        Some(_) => Err(CaseFault::Unread(key)),
    }
}

/// The shelf of a play. If two sources have the same name, the first counts.
pub fn shelf_of<'a, F: Shelf>(play: &Play<'a>, files: &mut F) -> Result<CaseShelf, CaseFault<'a>> {
    let mut sources = Vec::new(play.alloc);
    push_all_of(play, files, &mut sources, "sources")?;
    push_all_of(play, files, &mut sources, "tables")?;
    let shelf = MemoryShelf::new(sources, failing(play, "shelf")?);
    Ok(CaseShelf::new(shelf))
}

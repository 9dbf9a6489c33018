use crate::fields::{bytes_at, is_written, text_at};
use crate::written::bad_table_text;
use desk_io::{MemoryShelf, OutOfMemory, Shelf, Text, WholeFault, read_whole};
use ops_tables::Tables;
use serde_json::Value;
use std::alloc::Global;
use table_files::{TableFault, read_tables};

/// Files with their names.
pub type Files = Vec<(Text, Text)>;

/// The names of the thirteen tables.
pub const NAMES: [&str; 13] = [
    "settings.csv",
    "airports.csv",
    "approaches.csv",
    "alternates.csv",
    "types.csv",
    "tails.csv",
    "uses.csv",
    "distances.csv",
    "routes.csv",
    "mel.csv",
    "pairs.csv",
    "actors.csv",
    "hours.csv",
];

// `hours.csv` without rows, which names no captain.
const NO_HOURS: &[u8] = b"captain,kind,hours\n";

/// Reads the tables of the small airline from a shelf.
pub fn small_files<S: Shelf>(alloc: Global, shelf: &mut S) -> Result<Files, WholeFault> {
    let mut files = Vec::new(alloc);
    for name in &NAMES {
        let text = read_whole(alloc, shelf, name)?;
        push_file(alloc, &mut files, name, text.bytes())?;
    }
    Ok(files)
}

/// Adds a file.
pub fn push_file(
    alloc: Global,
    files: &mut Files,
    name: &str,
    text: &[u8],
) -> Result<(), OutOfMemory> {
    let name = Text::of(alloc, name.as_bytes())?;
    files.push((name, Text::of(alloc, text)?))?;
    Ok(())
}

/// Adds copies of files. If two files have the same name, the first counts.
pub fn push_files(alloc: Global, files: &mut Files, more: &Files) -> Result<(), OutOfMemory> {
    for (name, text) in more {
        files.push((
            Text::of(alloc, name.bytes())?,
            Text::of(alloc, text.bytes())?,
        ))?;
    }
    Ok(())
}

/// The tables in files, or their first fault.
pub fn tables_of(alloc: Global, files: Files) -> Result<Tables, TableFault> {
    let mut shelf = MemoryShelf::new(files, Vec::new(alloc));
    read_tables(alloc, &mut shelf)
}

// The first fault of tables as JSON, or null if they are valid.
fn fault_text(alloc: Global, read: Result<Tables, TableFault>) -> Result<String, OutOfMemory> {
    match read {
        Ok(_) => Ok(String::from_str(alloc, "null")?),
        Err(TableFault::Bad(bad)) => bad_table_text(alloc, &bad),
        Err(TableFault::OutOfMemory) => Err(OutOfMemory),
        Err(_) => Ok(String::from_str(alloc, "")?),
    }
}

/// Checks a case with the keys `name`, `data_hex` and `bad`: the first fault of the small tables, if this one
/// replaces that of its name. Unless it is `hours.csv`, that table has no rows.
pub fn faults(alloc: Global, case: &Value, small: &Files) -> Result<bool, OutOfMemory> {
    let Some(name) = text_at(case, "name") else {
        return Ok(false);
    };
    let Some(text) = bytes_at(alloc, case, "data_hex")? else {
        return Ok(false);
    };
    let mut files = Vec::new(alloc);
    push_file(alloc, &mut files, name, &text)?;
    push_file(alloc, &mut files, "hours.csv", NO_HOURS)?;
    push_files(alloc, &mut files, small)?;
    let fault = fault_text(alloc, tables_of(alloc, files))?;
    is_written(alloc, case, "bad", &fault)
}

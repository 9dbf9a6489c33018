//! A small airline for tests: its thirteen tables, a script and reports, and whether plans and phases can be checked.
#![tactic(auto)]

mod plans;
mod reports;
mod scripts;

use desk_io::{MemoryShelf, OutOfMemory, Text, push_all};
use ops_tables::Tables;
pub use plans::{fits, has_moment, may_be_checked};
pub use reports::{DAY, admit, reports_of};
pub use scripts::{SIGNED, push_script, script_of};
use std::alloc::Global;
use table_files::{TableFault, read_tables};

// The name and the lines of each table. A line of dashes separates two tables.
const SMALL: &str =
    "settings.csv\nname,value\nhold_minutes,60\nmarginal_ceiling,200\nsingle_ceiling,400\ndouble_ceiling,200\nmarginal_vis16,8\nsingle_vis16,16\ndouble_vis16,8\nlate_off,60\nlate_on,30\n--\n\
    airports.csv\nstation,conus,circle\nKBOS,1,0\nKJFK,1,0\nKPHL,1,0\nEGLL,0,0\nEINN,0,0\n--\n\
    approaches.csv\nstation,name,runway,capability,height,ceiling,vis16\nKBOS,ILS04R,04R,ILS,200,200,8\nKJFK,ILS22L,22L,ILS,200,200,8\nKPHL,ILS27R,27R,ILS,200,200,8\nKPHL,RNV09R,09R,GPS,400,400,16\nEGLL,ILS27L,27L,ILS,200,200,8\nEINN,ILS24,24,ILS,200,200,8\n--\n\
    alternates.csv\nstation,ceiling,vis16\nEINN,600,32\n--\n\
    types.csv\nkind,engines,oei_knots,cruise_pph,hold_pph,capabilities\nA320,2,400,6000,5000,ILS GPS\nB763,2,420,11500,9001,ILS GPS\n--\n\
    tails.csv\ntail,kind\nN801DK,A320\nN901DK,B763\n--\n\
    uses.csv\nkind,station\nA320,KBOS\nA320,KJFK\nA320,KPHL\nB763,KBOS\nB763,KJFK\nB763,KPHL\nB763,EGLL\nB763,EINN\n--\n\
    distances.csv\nfrom,to,miles\nKBOS,KJFK,162\n--\n\
    routes.csv\nfrom,to\n--\n\
    mel.csv\nkind,item,category,days,capability,extra_fuel,flag_ok,max_minutes\nA320,34-1,B,0,,0,1,0\nA320,22-1,C,0,ILS,0,1,0\n--\n\
    pairs.csv\nkind,item,other\nA320,22-1,34-1\n--\n\
    actors.csv\nname,key,role\nD1,kD1,D\nD2,kD2,D\nC7,kC7,C\nC9,kC9,C\nF1,kF1,F\nM1,kM1,M\nS1,kS1,S\n--\n\
    hours.csv\ncaptain,kind,hours\nC7,A320,250\nC7,B763,400\n";

/// Adds the files of the small airline. If two sources have the same name, the first counts.
pub fn push_small(alloc: Global, sources: &mut Vec<(Text, Text)>) -> Result<(), OutOfMemory> {
    for table in SMALL.split("--\n") {
        if let Some((name, lines)) = table.split_once("\n") {
            let name = Text::of(alloc, name.as_bytes())?;
            sources.push((name, Text::of(alloc, lines.as_bytes())?))?;
        }
    }
    Ok(())
}

/// The lines of a table of the small airline.
pub fn lines_of(name: &str) -> &'static str {
    SMALL
        .split("--\n")
        .filter_map(|table| table.split_once("\n"))
        .find(|(other, _)| *other == name)
        .map_or("", |(_, lines)| lines)
}

// The header of a table of the small airline and then other records.
fn text_with(alloc: Global, other: &str, records: &[u8]) -> Result<Text, OutOfMemory> {
    let header = match lines_of(other).split_once("\n") {
        Some((header, _)) => header,
        None => "",
    };
    let mut text = Vec::new(alloc);
    push_all(&mut text, &[header.as_bytes()])?;
    push_all(&mut text, &[b"\n", records])?;
    Ok(Text::from_vec(text))
}

/// The files of the small airline, with other records under the header of one table.
pub fn shelf_of(alloc: Global, other: &str, records: &[u8]) -> Result<MemoryShelf, OutOfMemory> {
    let text = text_with(alloc, other, records)?;
    let mut sources = Vec::new(alloc);
    sources.push((Text::of(alloc, other.as_bytes())?, text))?;
    push_small(alloc, &mut sources)?;
    Ok(MemoryShelf::new(sources, Vec::new(alloc)))
}

/// The tables of the small airline, with other records in one of them.
pub fn tables_of(alloc: Global, other: &str, records: &[u8]) -> Result<Tables, TableFault> {
    let mut shelf = shelf_of(alloc, other, records)?;
    read_tables(alloc, &mut shelf)
}

/// The tables of the small airline.
pub fn small_tables(alloc: Global) -> Result<Tables, TableFault> {
    tables_of(alloc, "routes.csv", b"")
}

/// Whether a test holds for the tables of the small airline, with other records in one of them.
pub fn holds_with(
    alloc: Global,
    other: &str,
    records: &[u8],
    test: fn(Global, &Tables) -> Result<bool, OutOfMemory>,
) -> Result<bool, TableFault>
    requires { IsAlwaysCallable test }
{
    let tables = tables_of(alloc, other, records)?;
    Ok(test(alloc, &tables)?)
}

/// Whether a test holds for the tables of the small airline.
pub fn holds(
    alloc: Global,
    test: fn(Global, &Tables) -> Result<bool, OutOfMemory>,
) -> Result<bool, TableFault>
    requires { IsAlwaysCallable test }
{
    holds_with(alloc, "routes.csv", b"", test)
}

use desk_io::{MemoryShelf, OutOfMemory, Station, Text, push_all};
use ops_tables::Tables;
use small_airline::{lines_of, push_small, shelf_of};
use std::alloc::Global;
use std::test::Fail;
use table_files::{TableFault, TableWhy, read_tables};

// Adds records, each with its number between two texts.
fn push_numbered(
    alloc: Global,
    out: &mut Vec<u8>,
    before: &[u8],
    from: u32,
    to: u32,
    after: &[u8],
) -> Result<(), OutOfMemory> {
    for number in from..to {
        let digits = number.to_string(alloc)?;
        push_all(out, &[before, digits.as_bytes(), after, b"\n"])?;
    }
    Ok(())
}

// Whether a table that goes on to that line goes over its limit there.
fn is_over_limit(
    alloc: Global,
    name: &str,
    before: &[u8],
    after: &[u8],
    line: u32,
) -> Result<bool, OutOfMemory> {
    let mut records = Vec::new(alloc);
    push_numbered(alloc, &mut records, before, 1, line, after)?;
    let mut shelf = shelf_of(alloc, name, &records)?;
    match read_tables(alloc, &mut shelf) {
        Err(TableFault::Bad(bad)) => Ok(
            bad.name.bytes() == name.as_bytes()
                && bad.line == line
                && bad.why == TableWhy::OverLimit,
        ),
        _ => Ok(false),
    }
}

// What a type has behind its name.
const FEATURES: &[u8] = b",2,400,6000,5000,ILS GPS";

#[test]
fn no_table_goes_over_its_limit(rt: HostRuntime) -> Result<(), Fail> {
    let alloc = rt.alloc();
    assert!(rt; is_over_limit(alloc, "types.csv", b"T", FEATURES, 202)?);
    assert!(rt; is_over_limit(alloc, "tails.csv", b"N", b",A320", 5_002)?);
    Ok(())
}

// 1,000 airports beside the small ones.
fn push_airports(
    alloc: Global,
    out: &mut Vec<u8>,
    before: &[u8],
    after: &[u8],
) -> Result<(), OutOfMemory> {
    for letter in [b"K".as_slice(), b"L"] {
        let mut name = Vec::from_slice(alloc, before)?;
        name.extend_from_slice(letter)?;
        push_numbered(alloc, out, &name, 100, 600, after)?;
    }
    Ok(())
}

fn push_uses_of(alloc: Global, out: &mut Vec<u8>, number: u32) -> Result<(), OutOfMemory> {
    let kind = format!(in alloc; "T{number},")?;
    push_airports(alloc, out, kind.as_bytes(), b"")
}

// 200 types, those of the small airline and 198 more, may use 1,000 airports each.
fn all_uses(alloc: Global) -> Result<Vec<u8>, OutOfMemory> {
    let mut uses = Vec::from_slice(alloc, b"kind,station\n")?;
    push_airports(alloc, &mut uses, b"A320,", b"")?;
    push_airports(alloc, &mut uses, b"B763,", b"")?;
    for number in 0..198_u32 {
        push_uses_of(alloc, &mut uses, number)?;
    }
    Ok(uses)
}

fn all_airports(alloc: Global) -> Result<Vec<u8>, OutOfMemory> {
    let mut airports = Vec::from_slice(alloc, lines_of("airports.csv").as_bytes())?;
    push_airports(alloc, &mut airports, b"", b",1,0")?;
    Ok(airports)
}

fn all_types(alloc: Global) -> Result<Vec<u8>, OutOfMemory> {
    let mut types = Vec::from_slice(alloc, lines_of("types.csv").as_bytes())?;
    push_numbered(alloc, &mut types, b"T", 0, 198, FEATURES)?;
    Ok(types)
}

fn push_source(
    alloc: Global,
    sources: &mut Vec<(Text, Text)>,
    name: &[u8],
    text: Vec<u8>,
) -> Result<(), OutOfMemory> {
    let name = Text::of(alloc, name)?;
    sources.push((name, Text::from_vec(text)))?;
    Ok(())
}

fn large_shelf(alloc: Global) -> Result<MemoryShelf, OutOfMemory> {
    let mut sources = Vec::new(alloc);
    push_source(alloc, &mut sources, b"airports.csv", all_airports(alloc)?)?;
    push_source(alloc, &mut sources, b"types.csv", all_types(alloc)?)?;
    push_source(alloc, &mut sources, b"uses.csv", all_uses(alloc)?)?;
    push_small(alloc, &mut sources)?;
    Ok(MemoryShelf::new(sources, Vec::new(alloc)))
}

fn is_used(tables: &Tables, kind: &[u8], name: &[u8]) -> bool {
    match Station::read(name) {
        Some(station) => tables.may_use(kind, station),
        None => false,
    }
}

// Whether the large tables are read and have their last row, and none beside.
fn large_tables_are_read(alloc: Global) -> Result<bool, TableFault> {
    let mut shelf = large_shelf(alloc)?;
    let tables = read_tables(alloc, &mut shelf)?;
    Ok(is_used(&tables, b"T197", b"L599") && !is_used(&tables, b"T197", b"KBOS"))
}

#[test]
fn a_table_at_its_limit_is_read(rt: HostRuntime) {
    assert!(rt; matches!(large_tables_are_read(rt.alloc()), Ok(true)));
}

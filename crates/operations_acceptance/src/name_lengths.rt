use desk_io::{MemoryShelf, OutOfMemory, Text};
use ops_tables::{Role, Tables};
use small_airline::push_small;
use std::alloc::Global;
use std::test::Fail;
use table_files::{TableFault, read_tables};

// Names that are as short as they may be, as long, and of each length at which a row begins to hold them elsewhere.
const TYPES: &str = "kind,engines,oei_knots,cruise_pph,hold_pph,capabilities\n\
    A320,2,400,6000,5000,ILS GPS\n\
    B763,2,420,11500,9001,ILS GPS\n\
    A,2,1,1,1,\n\
    A3205678,2,1,1,1,\n";

const ITEMS: &str = "kind,item,category,days,capability,extra_fuel,flag_ok,max_minutes\n\
    A320,34-1,B,0,,0,1,0\n\
    A320,22-1,C,0,ILS,0,1,0\n\
    A,1,B,0,,0,1,0\n\
    A,2,B,0,,0,1,0\n\
    A320,34-15678,B,0,,0,1,0\n\
    A320,22-15678,B,0,,0,1,0\n\
    A320,22-156789,B,0,,0,1,0\n\
    A3205678,34-1567890123456,B,0,,0,1,0\n\
    A3205678,22-1567890123456,B,0,,0,1,0\n";

const PAIRS: &str = "kind,item,other\n\
    A,1,2\n\
    A320,34-15678,22-15678\n\
    A320,34-15678,22-156789\n\
    A3205678,34-1567890123456,22-1567890123456\n";

const PEOPLE: &str = "name,key,role\n\
    C7,kC7,C\n\
    Hayes,k,C\n\
    Hayes6,k,C\n\
    A,k,S\n\
    Bob,1234567890123456,D\n\
    Bob4,1234567890123456,M\n\
    Abcdefghijklmnop,!234567890123456789012345678901234567890123456789012345678901~34,C\n";

const HOURS: &str = "captain,kind,hours\n\
    C7,A,1\n\
    Hayes,A3205678,99\n\
    Hayes6,A3205678,250\n\
    Abcdefghijklmnop,A,2\n\
    Abcdefghijklmnop,A3205678,100000\n";

fn push(
    alloc: Global,
    sources: &mut Vec<(Text, Text)>,
    name: &str,
    text: &str,
) -> Result<(), OutOfMemory> {
    let name = Text::of(alloc, name.as_bytes())?;
    sources.push((name, Text::of(alloc, text.as_bytes())?))?;
    Ok(())
}

fn shelf(alloc: Global) -> Result<MemoryShelf, OutOfMemory> {
    let mut sources = Vec::new(alloc);
    push(alloc, &mut sources, "types.csv", TYPES)?;
    push(alloc, &mut sources, "mel.csv", ITEMS)?;
    push(alloc, &mut sources, "pairs.csv", PAIRS)?;
    push(alloc, &mut sources, "actors.csv", PEOPLE)?;
    push(alloc, &mut sources, "hours.csv", HOURS)?;
    push_small(alloc, &mut sources)?;
    Ok(MemoryShelf::new(sources, Vec::new(alloc)))
}

fn is_known(tables: &Tables, name: &[u8], key: &[u8], role: Role) -> bool {
    match tables.actor(name) {
        Some(person) => person.name() == name && person.key() == key && person.role() == role,
        None => false,
    }
}

fn has_people(tables: &Tables) -> bool {
    let longest = b"!234567890123456789012345678901234567890123456789012345678901~34";
    is_known(tables, b"A", b"k", Role::S)
        && is_known(tables, b"Bob", b"1234567890123456", Role::D)
        && is_known(tables, b"Bob4", b"1234567890123456", Role::M)
        && is_known(tables, b"Abcdefghijklmnop", longest, Role::C)
        && tables.actor(b"Abcdefghijklmno").is_none()
        && tables.actor(b"Bo").is_none()
}

fn has_pairs(tables: &Tables) -> bool {
    tables.paired(b"A", b"2", b"1")
        && tables.paired(b"A320", b"34-15678", b"22-15678")
        && tables.paired(b"A320", b"22-156789", b"34-15678")
        && tables.paired(b"A3205678", b"34-1567890123456", b"22-1567890123456")
        && !tables.paired(b"A320", b"22-15678", b"22-156789")
        && !tables.paired(b"A", b"1", b"")
}

fn has_hours(tables: &Tables) -> bool {
    tables.hours(b"C7", b"A") == 1
        && tables.hours(b"Hayes", b"A3205678") == 99
        && tables.hours(b"Hayes6", b"A3205678") == 250
        && tables.hours(b"Abcdefghijklmnop", b"A") == 2
        && tables.hours(b"Abcdefghijklmnop", b"A3205678") == 100_000
        && tables.hours(b"C7", b"A3205678") == 0
}

fn are_found(alloc: Global) -> Result<bool, TableFault> {
    let mut shelf = shelf(alloc)?;
    let tables = read_tables(alloc, &mut shelf)?;
    Ok(has_people(&tables) && has_pairs(&tables) && has_hours(&tables))
}

#[test]
fn names_of_any_length_are_found(rt: HostRuntime) -> Result<(), Fail> {
    assert!(rt; are_found(rt.alloc())?);
    Ok(())
}

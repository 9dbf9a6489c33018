use desk_io::{OutOfMemory, Station};
use ops_tables::{Category, Role, Tables};
use small_airline::holds_with;
use std::alloc::Global;
use std::test::Fail;

fn has_stations(tables: &Tables, boston: Station, kennedy: Station) -> bool {
    tables.settings().hold_minutes == 60
        && matches!(tables.airport(boston), Some(airport) if airport.conus)
        && tables.miles(boston, kennedy) == Some(162)
        && tables.miles(kennedy, boston).is_none()
        && tables.route_free(kennedy, boston)
        && !tables.route_free(boston, kennedy)
}

fn has_minima(tables: &Tables, philadelphia: Station, shannon: Station) -> bool {
    tables.approaches(philadelphia).len() == 2
        && tables.alternates(shannon).len() == 1
        && tables.alternates(philadelphia).is_empty()
}

fn has_aircraft(tables: &Tables, philadelphia: Station, shannon: Station) -> bool {
    matches!(tables.type_of(b"N901DK"), Some(row) if row.hold_pph == 9_001)
        && tables.type_of(b"N902DK").is_none()
        && tables.may_use(b"A320", philadelphia)
        && !tables.may_use(b"A320", shannon)
}

fn has_items_and_people(tables: &Tables) -> bool {
    matches!(tables.item(b"A320", b"22-1"), Some(row) if row.category == Category::C)
        && tables.item(b"B763", b"22-1").is_none()
        && tables.paired(b"A320", b"34-1", b"22-1")
        && !tables.paired(b"B763", b"34-1", b"22-1")
        && matches!(tables.actor(b"C7"), Some(person) if person.role() == Role::C)
        && tables.actor(b"C8").is_none()
}

fn has_hours(tables: &Tables) -> bool {
    tables.hours(b"C7", b"A320") == 250
        && tables.hours(b"C7", b"B763") == 400
        && tables.hours(b"C9", b"A320") == 0
        && tables.hours(b"A320", b"C7") == 0
}

fn has_captains(tables: &Tables) -> bool {
    tables.has_captain(b"C9") && !tables.has_captain(b"D1") && !tables.has_captain(b"C8")
}

fn has_all(tables: &Tables) -> Option<[bool; 6]> {
    let boston = Station::read(b"KBOS")?;
    let kennedy = Station::read(b"KJFK")?;
    let philadelphia = Station::read(b"KPHL")?;
    let shannon = Station::read(b"EINN")?;
    Some([
        has_stations(tables, boston, kennedy),
        has_minima(tables, philadelphia, shannon),
        has_aircraft(tables, philadelphia, shannon),
        has_items_and_people(tables),
        has_hours(tables),
        has_captains(tables),
    ])
}

fn are_looked_up(_: Global, tables: &Tables) -> Result<bool, OutOfMemory> {
    Ok(has_all(tables) == Some([true; 6]))
}

#[test]
fn rows_are_found_in_tables(rt: HostRuntime) -> Result<(), Fail> {
    assert!(rt; holds_with(rt.alloc(), "routes.csv", b"KJFK,KBOS\n", are_looked_up)?);
    Ok(())
}

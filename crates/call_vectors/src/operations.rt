ghost use Rattle.std.specs.Prelude.{◌≤◌, IfOk, IfSome};
ghost use Rattle.desk_io.specs.Pair.{AreWithin};

use crate::fields::{
    is_written, items_at, number_at, number_within, small_number_at, text_at, truth_at,
};
use crate::tables::{Files, NAMES, push_file, tables_of};
use crate::written::{option_pair_text, pairs_text};
use airport_minima::{alternate_pairs, flag_floor, landing, raised};
use desk_io::{Listed, OutOfMemory, Pair, Pairs, Station, Text, push_all};
use ops_tables::{Lost, Tables, TypeRow};
use plan::{Alternate, Alternates, Basis, Leg, required};
use serde_json::Value;
use std::alloc::Global;
use table_files::TableFault;

// The first line of a text.
fn header_of(text: &[u8]) -> &[u8] {
    match text.iter().position(|byte| *byte == b'\n') {
        Some(end) => &text[..end],
        None => text,
    }
}

/// Adds the tables that a case gives.
pub fn push_given(alloc: Global, files: &mut Files, tables: &Value) -> Result<(), OutOfMemory> {
    for name in &NAMES {
        if let Some(text) = text_at(tables, name) {
            push_file(alloc, files, name, text.as_bytes())?;
        }
    }
    Ok(())
}

// Adds an aircraft N1 of this type.
fn push_tail(alloc: Global, files: &mut Files, kind: &str) -> Result<(), OutOfMemory> {
    let mut text = Vec::new(alloc);
    push_all(&mut text, &[b"tail,kind\nN1,", kind.as_bytes(), b"\n"])?;
    push_file(alloc, files, "tails.csv", &text)
}

// Adds the other tables without rows. If two files have the same name, the first counts.
fn push_empty(alloc: Global, files: &mut Files, small: &Files) -> Result<(), OutOfMemory> {
    for (name, text) in small {
        let header = Text::of(alloc, header_of(text.bytes()))?;
        files.push((Text::of(alloc, name.bytes())?, header))?;
    }
    Ok(())
}

// The tables of a case, with an aircraft N1 of the case's type.
fn tables_in(alloc: Global, case: &Value, small: &Files) -> Result<Option<Tables>, OutOfMemory> {
    let Some(given) = case.get("tables") else {
        return Ok(None);
    };
    let Some(kind) = text_at(case, "kind") else {
        return Ok(None);
    };
    let mut files = Vec::new(alloc);
    push_given(alloc, &mut files, given)?;
    push_tail(alloc, &mut files, kind)?;
    push_empty(alloc, &mut files, small)?;
    match tables_of(alloc, files) {
        Ok(tables) => Ok(Some(tables)),
        Err(TableFault::OutOfMemory) => Err(OutOfMemory),
        Err(_) => Ok(None),
    }
}

fn lost_in(alloc: Global, case: &Value) -> Result<Lost, OutOfMemory> {
    let mut lost = Listed::new(alloc);
    for name in items_at(case, "lost") {
        if let Some(name) = name.as_str() {
            lost.push(Text::of(alloc, name.as_bytes())?)?;
        }
    }
    Ok(lost)
}

fn station_at(case: &Value, key: &str) -> Option<Station> {
    Station::read(text_at(case, key)?.as_bytes())
}

fn has_landing(
    alloc: Global,
    case: &Value,
    tables: &Tables,
    kind: &TypeRow,
    station: Station,
    lost: &Lost,
) -> Result<bool, OutOfMemory> {
    let pairs = landing(alloc, tables, kind, station, lost)?;
    is_written(
        alloc,
        case,
        "landing",
        &pairs_text(alloc, pairs.as_slice())?,
    )
}

fn has_alternates(
    alloc: Global,
    case: &Value,
    tables: &Tables,
    kind: &TypeRow,
    station: Station,
    lost: &Lost,
) -> Result<bool, OutOfMemory> {
    let pairs = alternate_pairs(alloc, tables, kind, station, lost)?;
    is_written(
        alloc,
        case,
        "alternate_pairs",
        &pairs_text(alloc, pairs.as_slice())?,
    )
}

// Whether the landing minima, raised within the alternate minima (14 CFR 121.652), are those that the case expects.
fn is_raised(
    alloc: Global,
    case: &Value,
    landing: &Pairs,
    alternate: &Pairs,
) -> Result<bool, OutOfMemory>
    requires { AreWithin 20_000 16_093_440 landing.now }
{
    let pairs = raised(alloc, landing, alternate)?;
    is_written(alloc, case, "raised", &pairs_text(alloc, pairs.as_slice())?)
}

fn has_raised(
    alloc: Global,
    case: &Value,
    tables: &Tables,
    kind: &TypeRow,
    station: Station,
    lost: &Lost,
) -> Result<bool, OutOfMemory> {
    let minima = landing(alloc, tables, kind, station, lost)?;
    let alternate = alternate_pairs(alloc, tables, kind, station, lost)?;
    is_raised(alloc, case, &minima, &alternate)
}

fn has_minima(
    alloc: Global,
    case: &Value,
    tables: &Tables,
    station: Station,
    lost: &Lost,
) -> Result<bool, OutOfMemory> {
    let Some(kind) = tables.type_of(b"N1") else {
        return Ok(false);
    };
    let floor = option_pair_text(alloc, flag_floor(tables, kind, station, lost))?;
    Ok(
        has_landing(alloc, case, tables, kind, station, lost)?
            && has_alternates(alloc, case, tables, kind, station, lost)?
            && has_raised(alloc, case, tables, kind, station, lost)?
            && is_written(alloc, case, "flag_floor", &floor)?,
    )
}

fn pair_of(item: &Value) -> Option<Pair>
    ensures { IfSome result (λ pair. (pair.ceiling ≤ 20_000) × (pair.vis ≤ 16_093_440)) }
{
    let parts = item.as_array()?;
    let [ceiling, vis] = parts.as_slice() else {
        return None;
    };
    Some(Pair {
        ceiling: number_within(ceiling, 20_000)? as u32,
        vis: number_within(vis, 16_093_440)? as u32,
    })
}

// The minima at a key: pairs of feet and millimetres. Items that are no such pair are skipped.
fn pairs_at(alloc: Global, case: &Value, key: &str) -> Result<Pairs, OutOfMemory>
    ensures { IfOk result (λ pairs. AreWithin 20_000 16_093_440 pairs) }
{
    let mut pairs = Listed::new(alloc);
    for item in items_at(case, key) {
        if let Some(pair) = pair_of(item) {
            pairs.push(pair)?;
        }
    }
    Ok(pairs)
}

/// Checks a case with the keys `landing`, `alternate` and `raised`.
pub fn raises(alloc: Global, case: &Value) -> Result<bool, OutOfMemory> {
    let landing = pairs_at(alloc, case, "landing")?;
    let alternate = pairs_at(alloc, case, "alternate")?;
    is_raised(alloc, case, &landing, &alternate)
}

/// Checks a case with the keys `tables`, `kind`, `station`, `lost`, `landing`, `alternate_pairs`, `flag_floor` and
/// `raised`.
pub fn minima(alloc: Global, case: &Value, small: &Files) -> Result<bool, OutOfMemory> {
    let Some(station) = station_at(case, "station") else {
        return Ok(false);
    };
    let Some(tables) = tables_in(alloc, case, small)? else {
        return Ok(false);
    };
    let lost = lost_in(alloc, case)?;
    has_minima(alloc, case, &tables, station, &lost)
}

fn basis_of(case: &Value) -> Option<Basis> {
    let name = text_at(case, "basis")?;
    if name == "Domestic" {
        Some(Basis::Domestic)
    } else if name == "Flag" {
        Some(Basis::Flag)
    } else if name == "NoAlternate" {
        Some(Basis::NoAlternate)
    } else {
        None
    }
}

fn alternate_of(value: &Value) -> Option<Alternate> {
    Some(Alternate {
        station: station_at(value, "station")?,
        minutes: small_number_at(value, "minutes")?,
        fuel: small_number_at(value, "fuel")?,
    })
}

/// The alternates at the key `alternates`.
pub fn alternates_in(alloc: Global, case: &Value) -> Result<Alternates, OutOfMemory> {
    let mut alternates = Listed::new(alloc);
    for value in items_at(case, "alternates") {
        if let Some(alternate) = alternate_of(value) {
            alternates.push(alternate)?;
        }
    }
    Ok(alternates)
}

// A leg with the fuel, in pounds, and the minutes of a case.
fn leg_of(case: &Value, alternates: Alternates) -> Option<Leg> {
    let station = Station::read(b"KJFK")?;
    Some(Leg {
        from: station,
        to: station,
        etd: 0,
        eta: 0,
        minutes: small_number_at(case, "minutes")?,
        burn: small_number_at(case, "burn")?,
        extra: small_number_at(case, "extra")?,
        minimum: 0,
        onboard: 0,
        takeoff_alternate: None,
        alternates,
    })
}

fn fuel_of(case: &Value, leg: &Leg) -> Option<u64> {
    let basis = basis_of(case)?;
    let counted = truth_at(case, "counted")?;
    let cruise = small_number_at(case, "cruise_pph")?;
    let hold = small_number_at(case, "hold_pph")?;
    let extra_fuel = number_at(case, "extra_fuel", 5_000_000_000)?;
    Some(required(leg, basis, counted, cruise, hold, extra_fuel))
}

/// Checks a case with the keys `burn`, `extra`, `minutes`, `alternates`, `basis`, `counted`, `cruise_pph`,
/// `hold_pph`, `extra_fuel` and `required`.
pub fn fuel(alloc: Global, case: &Value) -> Result<bool, OutOfMemory> {
    let Some(leg) = leg_of(case, alternates_in(alloc, case)?) else {
        return Ok(false);
    };
    let fuel = fuel_of(case, &leg);
    Ok(fuel.is_some() && fuel == number_at(case, "required", u64::MAX))
}

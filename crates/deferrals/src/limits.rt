ghost use Rattle.std.specs.Prelude.{◌≡◌, ◌≤◌, length, map, All, IfOk};
ghost use Rattle.std.specs.List.{sum};
ghost use Rattle.ops_tables.specs.Limits.{FitsItem};
ghost use Rattle.deferrals.specs.Fuel.{AddsFuel};
ghost use Rattle.deferrals.specs.Limits as spec;

use crate::by_tail::is_of;
use crate::held::{DEFERRAL_LIMIT, Deferrals};
use crate::items::Deferral;
use desk_io::{Listed, OutOfMemory, Text};
use ops_tables::{Lost, MelRow, Tables, has_name};
use std::alloc::Global;

/// What the open deferrals of an aircraft cost its flights.
#[derive(Debug, Drop)]
pub struct Limits {
    /// The additional fuel of each leg, in pounds.
    pub extra_fuel: u64,
    /// The lost capabilities without duplicates, in the order of deferral.
    pub lost: Lost,
}

/// Returns the deferrals of the list that belong to the aircraft, in the order of the list.
pub fn open_on<'a>(
    alloc: Global,
    list: &'a [Deferral],
    tail: &[u8],
) -> Result<Vec<&'a Deferral>, OutOfMemory>
    ensures value { IfOk result (λ v. map (λ d. d.now) v.items ≡ spec.open_on tail.now list.now) }
    ensures count { IfOk result (λ v. length v.items ≤ length list.now) }
{
    let mut open = Vec::new(alloc);
    for deferral in list {
        if is_of(tail, deferral) {
            open.push(deferral)?;
        }
    }
    Ok(open)
}

// Returns the rows of the deferred items, in the order of deferral. An item that the type's list lacks is skipped.
fn rows_of<'a>(
    alloc: Global,
    tables: &'a Tables,
    kind: &[u8],
    deferred: &[&Deferral],
) -> Result<Vec<&'a MelRow>, OutOfMemory>
    ensures value { IfOk result (λ v. map (λ row. row.now) v.items
        ≡ spec.rows_of tables.now kind.now (map (λ d. d.now) deferred.now)) }
    ensures count { IfOk result (λ v. length v.items ≤ length deferred.now) }
    ensures within { IfOk result (λ v. All (λ row. FitsItem row.now) v.items) }
{
    let mut rows = Vec::new(alloc);
    for deferral in deferred {
        if let Some(row) = tables.item(kind, deferral.item.bytes()) {
            rows.push(row)?;
        }
    }
    Ok(rows)
}

fn extra_fuel(rows: &[&MelRow]) -> u64
    requires count { length rows.now ≤ DEFERRAL_LIMIT }
    requires fits { All (λ row. FitsItem row.now) rows.now }
    ensures value { result ≡ sum (map (λ row. row.extra_fuel) (map (λ row. row.now) rows.now)) }
    ensures within { result ≤ 5_000_000_000 }
{
    let mut pounds = 0;
    for row in rows {
        pounds += u64::from(row.extra_fuel);
    }
    pounds
}

// Returns true if the row takes away a capability that isn't in the list of lost ones yet.
fn loses_more(row: &MelRow, lost: &Lost) -> bool
    ensures { result ≡ spec.loses_more row.now.capability lost.now }
{
    let capability = row.capability.bytes();
    !capability.is_empty() && !has_name(lost, capability)
}

// Returns the capabilities that the rows take away, in order, without duplicates.
fn lost_by(alloc: Global, rows: &[&MelRow]) -> Result<Lost, OutOfMemory>
    ensures { IfOk result (λ lost. lost ≡ spec.once (spec.capabilities_of (map (λ row. row.now) rows.now))) }
{
    let mut lost = Listed::new(alloc);
    for row in rows {
        if loses_more(row, &lost) {
            lost.push(Text::of(alloc, row.capability.bytes())?)?;
        }
    }
    Ok(lost)
}

fn limits_by(
    alloc: Global,
    deferred: &[&Deferral],
    kind: &[u8],
    tables: &Tables,
) -> Result<Limits, OutOfMemory>
    requires { length deferred.now ≤ DEFERRAL_LIMIT }
    ensures value { IfOk result (λ limits. limits ≡ spec.limits_by
        (spec.rows_of tables.now kind.now (map (λ d. d.now) deferred.now))) }
    ensures within { IfOk result (λ limits. limits.extra_fuel ≤ 5_000_000_000) }
{
    let rows = rows_of(alloc, tables, kind, deferred)?;
    Ok(Limits {
        extra_fuel: extra_fuel(&rows),
        lost: lost_by(alloc, &rows)?,
    })
}

/// Returns what deferred items cost an aircraft of a known type (14 CFR 121.628). It is the sum of their extra fuel
/// in pounds, and the lost capabilities without duplicates, in the order of deferral. An item that the type's list
/// lacks costs nothing. An item whose capability is empty takes none away.
#[tactic(auto, using(crate::proofs::FuelLaws::adds_fuel))]
pub fn limits_on(
    alloc: Global,
    deferred: &[&Deferral],
    kind: &[u8],
    tables: &Tables,
) -> Result<Limits, OutOfMemory>
    requires { length deferred.now ≤ DEFERRAL_LIMIT }
    ensures value { IfOk result (λ limits. limits ≡ spec.limits_by
        (spec.rows_of tables.now kind.now (map (λ d. d.now) deferred.now))) }
    ensures adds { IfOk result (λ limits. AddsFuel (spec.rows_of tables.now kind.now (map (λ d. d.now) deferred.now))
        limits.extra_fuel) }
    ensures within { IfOk result (λ limits. limits.extra_fuel ≤ 5_000_000_000) }
{
    limits_by(alloc, deferred, kind, tables)
}

/// Returns what the open deferrals cost an aircraft, as `limits_on` does for its type. If the aircraft's type isn't
/// known, they cost nothing.
#[tactic(auto, unfolding(crate::specs::Limits::limits))]
pub fn limits_of(
    alloc: Global,
    list: &Deferrals,
    tail: &[u8],
    tables: &Tables,
) -> Result<Limits, OutOfMemory>
    ensures value { IfOk result (λ limits. limits ≡ spec.limits tables.now tail.now list.now.list) }
    ensures within { IfOk result (λ limits. limits.extra_fuel ≤ 5_000_000_000) }
{
    match tables.type_of(tail) {
        None => limits_on(alloc, &[], b"", tables),
        Some(kind) => {
            let open = list.open_on(alloc, tail)?;
            limits_on(alloc, &open, kind.kind.bytes(), tables)
        }
    }
}

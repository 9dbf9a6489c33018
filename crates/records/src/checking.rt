ghost use Rattle.std.specs.Prelude.{◌≡◌, ◌++◌, ◌∷◌, [], All, length, map, IfOk, OnOk, MatchResult};
ghost use Rattle.records.specs.Checks as spec;
ghost use Rattle.records.specs.Faults.{IsWithin};
ghost use Rattle.records.specs.Marks.{marks_of as spec_marks_of};
ghost use Rattle.records.specs.Reading as reading;
ghost use Rattle.records.specs.Valid.{IsRecord};

use crate::faults::{Fault, RowWhy, RowsFault};
use crate::fitting::fit;
use crate::marks::{Marks, index_of, marks_of};
use crate::reading::{RowFault, read_in, record_with};
use crate::record::Record;
use desk_io::{Copied, OutOfMemory, Row};
use release_json::Version;
use std::alloc::Global;

fn bad_row(alloc: Global, row: &Row, why: RowWhy) -> RowsFault
    ensures { spec.OrMemory (RowsFault.BadRow row.now why) result }
{
    match row.copy(alloc) {
        Ok(row) => RowsFault::BadRow { row, why },
        Err(OutOfMemory) => RowsFault::OutOfMemory,
    }
}

fn copied_pair(alloc: Global, one: &Row, two: &Row) -> Result<RowsFault, OutOfMemory>
    ensures { IfOk result (λ fault. fault ≡ RowsFault.BadPair one.now two.now) }
{
    Ok(RowsFault::BadPair {
        one: one.copy(alloc)?,
        two: two.copy(alloc)?,
    })
}

fn pair_fault(alloc: Global, one: &Row, two: &Row) -> RowsFault
    ensures { spec.OrMemory (RowsFault.BadPair one.now two.now) result }
{
    match copied_pair(alloc, one, two) {
        Ok(fault) => fault,
        Err(OutOfMemory) => RowsFault::OutOfMemory,
    }
}

// Returns the fault, with copies of the rows at its places. If memory runs out, it returns that instead.
fn fault_at(alloc: Global, rows: &[Row], fault: Fault) -> RowsFault
    requires { IsWithin (length rows.now) fault }
    ensures { spec.Names rows.now fault result }
{
    match fault {
        Fault::Bad { place, why } => bad_row(alloc, &rows[place], why),
        Fault::Pair { one, two } => pair_fault(alloc, &rows[one], &rows[two]),
    }
}

fn record_of_row(alloc: Global, version: Version, row: &Row) -> Result<Record, RowsFault>
    ensures { MatchResult result (spec.IsReadOf version row.now) (spec.IsUnread version row.now) }
{
    match read_in(alloc, version, row) {
        Ok(record) => Ok(record),
        Err(RowFault::NotCanonical) => Err(bad_row(alloc, row, RowWhy::NotCanonical)),
        Err(RowFault::OutOfMemory) => Err(RowsFault::OutOfMemory),
    }
}

fn push(records: &mut Vec<Record>, found: Record) -> Result<(), OutOfMemory>
    ensures { OnOk result (records.new.items ≡ records.old.items ++ found ∷ []) }
{
    records.push(found)?;
    Ok(())
}

// Returns true if a row is the meta row of the first version.
#[tactic(auto, unfolding(crate::specs::Reading::is_old_meta))]
fn is_old_meta(alloc: Global, row: &Row) -> Result<bool, OutOfMemory>
    ensures { IfOk result (λ b. b ≡ reading.is_old_meta row.now) }
{
    if row.kind != 0 {
        return Ok(false);
    }
    match record_with(alloc, Version::First, row)? {
        Some(_) => Ok(true),
        None => Ok(false),
    }
}

// Returns true if rows are of the first version.
fn are_old(alloc: Global, rows: &[Row]) -> Result<bool, OutOfMemory>
    ensures { IfOk result (λ b. b ≡ reading.are_old rows.now) }
{
    for row in rows {
        if is_old_meta(alloc, row)? {
            return Ok(true);
        }
    }
    Ok(false)
}

fn version_if(is_old: bool) -> Version
    ensures { result ≡ reading.version_if is_old }
{
    if is_old {
        Version::First
    } else {
        Version::Second
    }
}

// Reads the rows in order, in their version. Stops at the first row that isn't the row of a valid record.
fn read_rows(alloc: Global, version: Version, rows: &[Row]) -> Result<Vec<Record>, RowsFault>
    requires { version ≡ reading.version_of rows.now }
    ensures { MatchResult result (λ records. spec.AreRowsOf version rows.now records.items) (spec.IsFaultOf rows.now) }
{
    let mut records = Vec::new(alloc);
    for row in rows {
        let found = record_of_row(alloc, version, row)?;
        push(&mut records, found)?;
    }
    Ok(records)
}

fn all_marks(alloc: Global, records: &[Record]) -> Result<Vec<Marks>, OutOfMemory>
    requires { All IsRecord records.now }
    ensures { IfOk result (λ marks. marks.items ≡ map spec_marks_of records.now) }
{
    let mut marks = Vec::new(alloc);
    for record in records {
        marks.push(marks_of(alloc, record)?)?;
    }
    Ok(marks)
}

// Tests whether records fit together.
fn check(alloc: Global, records: &[Record]) -> Result<Result<(), Fault>, OutOfMemory>
    requires { All IsRecord records.now }
    ensures { IfOk result (λ answer. spec.IsFitting records.now answer) }
{
    let marks = all_marks(alloc, records)?;
    let firsts = index_of(alloc, &marks)?;
    Ok(fit(records, &marks, &firsts))
}

fn fitted(alloc: Global, rows: &[Row], records: Vec<Record>) -> Result<Vec<Record>, RowsFault>
    requires { spec.AreRowsOf (reading.version_of rows.now) rows.now records.items }
    ensures { MatchResult result (λ fitting. spec.IsDesk rows.now fitting.items) (spec.IsFaultOf rows.now) }
{
    match check(alloc, &records)? {
        Ok(()) => Ok(records),
        Err(fault) => Err(fault_at(alloc, rows, fault)),
    }
}

// Reads and tests rows whose version is known.
fn fitted_in(alloc: Global, is_old: bool, rows: &[Row]) -> Result<Vec<Record>, RowsFault>
    requires { is_old ≡ reading.are_old rows.now }
    ensures { MatchResult result (λ fitting. spec.IsDesk rows.now fitting.items) (spec.IsFaultOf rows.now) }
{
    let records = read_rows(alloc, version_if(is_old), rows)?;
    fitted(alloc, rows, records)
}

/// The records of rows that passed all tests.
#[derive(Drop)]
pub struct Checked {
    /// One record for each row, in order.
    pub records: Vec<Record>,
    /// True if the rows are of the first version.
    pub is_old: bool,
}

/// Reads rows, and tests that each is the row of a valid record and that all fit together. Without rows, there are no
/// records. The rows are of the first version if one of them is the meta row of that version, and otherwise of the
/// second. Returns the first of these faults:
///
/// - `NotCanonical`: the first row that isn't the row of any valid record in that version.
/// - `NoMeta`: the first row, if no row is the meta row.
/// - `OverLimit`: the first row that is one too many of its kind, or that counts too many events.
/// - `Orphan`: the first alert without a release.
/// - `BadPair`: the first row that conflicts with an earlier one, and the earliest such one.
/// - `BadPair`: the first row that is ahead of the counters of the meta row, and the meta row.
pub fn check_rows(alloc: Global, rows: &[Row]) -> Result<Checked, RowsFault>
    ensures { MatchResult result (spec.IsChecked rows.now) (spec.IsFaultOf rows.now) }
{
    let is_old = are_old(alloc, rows)?;
    let records = fitted_in(alloc, is_old, rows)?;
    Ok(Checked { records, is_old })
}

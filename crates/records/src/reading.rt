ghost use Rattle.std.specs.Prelude.{◌≡◌, IfOk, IfSome};
ghost use Rattle.std.specs.Option.{option_map};
ghost use Rattle.release_json.specs.Releases.{release_of};
ghost use Rattle.records.specs.Bodies.{HasMoments, row_in as spec_row_in, row_of as spec_row_of};
ghost use Rattle.records.specs.Valid.{IsRecord, SaysRecord};
ghost use Rattle.records.specs.declared.record.Record.{Record as Held};
ghost use Rattle.serde_json.specs.View.{view};
ghost use Rattle.records.specs.Reading as spec;
ghost use Rattle.records.specs.Reading.{record_of, ReadsRow, IsAgain};

use crate::alert_rows::alert_of;
use crate::bodies::row_in;
use crate::kept_rows::{deferral_of, kept_of, report_of};
use crate::meta_rows::meta_in;
use crate::record::Record;
use asks::data_of;
use desk_io::{OutOfMemory, Row};
use release_json::{Version, read_release};
use serde_json::Value;
use std::alloc::Global;

/// Why a row can't be read.
#[derive(Clone, Copy, Debug, PartialEq, Eq)]
pub enum RowFault {
    /// It isn't the row of any valid record.
    NotCanonical,
    /// Memory ran out.
    OutOfMemory,
}

impl From<OutOfMemory> for RowFault {
    ghost use Rattle.records.specs.declared.reading.RowFault.TheVariants.{OutOfMemory as RowMemory};

    ghost from_gives = { λ _ e. e ≡ RowMemory };

    fn from(_: OutOfMemory) -> Self {
        RowFault::OutOfMemory
    }
}

fn meta(
    alloc: Global,
    version: Version,
    key: u64,
    value: &Value,
) -> Result<Option<Record>, OutOfMemory>
    ensures { IfOk result (λ r. r ≡ option_map Record.Meta (spec.meta_in version key (view value.now))) }
{
    match meta_in(alloc, version, key, value)? {
        Some(meta) => Ok(Some(Record::Meta(meta))),
        None => Ok(None),
    }
}

fn report(alloc: Global, id: u64, value: &Value) -> Result<Option<Record>, OutOfMemory>
    ensures { IfOk result (λ r. r ≡ option_map Record.Report (spec.report_of id (view value.now))) }
{
    match report_of(alloc, id, value)? {
        Some(report) => Ok(Some(Record::Report(report))),
        None => Ok(None),
    }
}

fn deferral(alloc: Global, id: u64, value: &Value) -> Result<Option<Record>, OutOfMemory>
    ensures { IfOk result (λ r. r ≡ option_map Record.Deferral (spec.deferral_of id (view value.now))) }
{
    match deferral_of(alloc, id, value)? {
        Some(deferral) => Ok(Some(Record::Deferral(deferral))),
        None => Ok(None),
    }
}

fn release(
    alloc: Global,
    version: Version,
    id: u64,
    value: &Value,
) -> Result<Option<Record>, OutOfMemory>
    ensures { IfOk result (λ r. r ≡ option_map Record.Release (release_of version id (view value.now))) }
{
    match read_release(alloc, version, id, value)? {
        Some(release) => Ok(Some(Record::Release(release))),
        None => Ok(None),
    }
}

fn kept(alloc: Global, id: u64, value: &Value) -> Result<Option<Record>, OutOfMemory>
    ensures { IfOk result (λ r. r ≡ option_map Record.Kept (spec.kept_of id (view value.now))) }
{
    match kept_of(alloc, id, value)? {
        Some(kept) => Ok(Some(Record::Kept(kept))),
        None => Ok(None),
    }
}

fn alert(alloc: Global, id: u64, value: &Value) -> Result<Option<Record>, OutOfMemory>
    ensures { IfOk result (λ r. r ≡ option_map Record.Alert (spec.alert_of id (view value.now))) }
{
    match alert_of(alloc, id, value)? {
        Some(alert) => Ok(Some(Record::Alert(alert))),
        None => Ok(None),
    }
}

fn record_in(
    alloc: Global,
    version: Version,
    kind: u8,
    id: u64,
    value: &Value,
) -> Result<Option<Record>, OutOfMemory>
    ensures { IfOk result (λ r. r ≡ spec.record_in version kind id (view value.now)) }
{
    match kind {
        0 => meta(alloc, version, id, value),
        1 => report(alloc, id, value),
        2 => deferral(alloc, id, value),
        3 => release(alloc, version, id, value),
        4 => kept(alloc, id, value),
        5 => alert(alloc, id, value),
        _ => Ok(None),
    }
}

// Reads a record by its kind, its key, which is at most 10^15, and its body.
#[tactic(auto, unfolding(crate::specs::Reading::record_of))]
fn record_of(
    alloc: Global,
    version: Version,
    kind: u8,
    key: u64,
    value: &Value,
) -> Result<Option<Record>, OutOfMemory>
    ensures { IfOk result (λ r. r ≡ record_of version kind key (view value.now)) }
{
    if key <= 1_000_000_000_000_000 {
        record_in(alloc, version, kind, key, value)
    } else {
        Ok(None)
    }
}

// Reads the record of a row, with any white space and any order of the keys in its JSON.
#[tactic(auto, unfolding(crate::specs::Reading::found_in))]
fn found_in(alloc: Global, version: Version, row: &Row) -> Result<Option<Record>, OutOfMemory>
    ensures { IfOk result (λ r. r ≡ spec.found_in version row.now) }
{
    match data_of(alloc, row.body.bytes())? {
        Some(value) => record_of(alloc, version, row.kind, row.key, &value),
        None => Ok(None),
    }
}

#[tactic(auto, using(crate::proofs::RowLaws::found_moments))]
fn shown_in(alloc: Global, version: Version, row: &Row) -> Result<Option<Record>, OutOfMemory>
    ensures value { IfOk result (λ r. r ≡ spec.found_in version row.now) }
    ensures moments { IfOk result (λ r. IfSome r HasMoments) }
{
    found_in(alloc, version, row)
}

fn is_same_row(one: &Row, two: &Row) -> bool
    ensures { result ≡ spec.is_same_row one.now two.now }
{
    one.kind == two.kind && one.key == two.key && one.body.bytes() == two.body.bytes()
}

fn if_has(
    alloc: Global,
    version: Version,
    row: &Row,
    found: Record,
) -> Result<Option<Record>, OutOfMemory>
    requires { HasMoments found }
    ensures { IfOk result (λ r. r ≡ spec.if_has version row.now found) }
{
    if is_same_row(&row_in(alloc, version, &found.lent())?, row) {
        Ok(Some(found))
    } else {
        Ok(None)
    }
}

/// Reads the record of a row. The row must be byte for byte the one that the desk writes in this version.
#[tactic(auto, unfolding(crate::specs::Reading::record_with))]
pub(crate) fn record_with(
    alloc: Global,
    version: Version,
    row: &Row,
) -> Result<Option<Record>, OutOfMemory>
    ensures { IfOk result (λ r. r ≡ spec.record_with version row.now) }
{
    match shown_in(alloc, version, row)? {
        Some(record) => if_has(alloc, version, row, record),
        None => Ok(None),
    }
}

/// Reads the record of a row in this version.
pub(crate) fn read_in(alloc: Global, version: Version, row: &Row) -> Result<Record, RowFault>
    ensures reads { ReadsRow version row.now result }
    ensures again { (r : Held) → IsRecord r → SaysRecord version r → spec_row_in version r ≡ row.now
        → IsAgain r result }
{
    match record_with(alloc, version, row)? {
        Some(record) => Ok(record),
        None => Err(RowFault::NotCanonical),
    }
}

/// Reads a row of the second version, and returns the only valid record with that row. Returns `NotCanonical` exactly
/// if there is no such record.
pub fn read_row(alloc: Global, row: &Row) -> Result<Record, RowFault>
    ensures reads { ReadsRow Version.Second row.now result }
    ensures again { (r : Held) → IsRecord r → spec_row_of r ≡ row.now → IsAgain r result }
{
    read_in(alloc, Version::Second, row)
}

/// Reads a row of the first version, and returns the only valid record with that row. A release has no captain's
/// hours. Returns `NotCanonical` exactly if there is no such record.
pub fn read_old_row(alloc: Global, row: &Row) -> Result<Record, RowFault>
    ensures reads { ReadsRow Version.First row.now result }
    ensures again { (r : Held) → IsRecord r → SaysRecord Version.First r → spec_row_in Version.First r ≡ row.now
        → IsAgain r result }
{
    read_in(alloc, Version::First, row)
}

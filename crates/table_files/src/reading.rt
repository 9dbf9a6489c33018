ghost use Rattle.std.specs.Prelude.{◌≡◌, ◌≤◌, ◌+◌, ◌++◌, [], List, ℕ, ◌<◌, length, map, All, Ok};
ghost use Rattle.std.specs.Prelude.{IfOk, OnOk, IfSome};
ghost use Rattle.csv_text.specs.Records.{AreRecordsOf, HasGiven};
ghost use Rattle.ops_tables.specs.Shown.{shown};
ghost use Rattle.table_files.specs.Filling.{Gives};
ghost use Rattle.table_files.specs.Passes as passes;
ghost use Rattle.table_files.specs.Reading as spec;
ghost use Rattle.table_files.specs.Reading.{IsToldByFirst, Table};

use crate::faults::{BadRecord, TableWhy};
use csv_text::Records;
use desk_io::{OutOfMemory, Text};
use ops_tables::{Grouped, Loading, Row};
use std::alloc::Global;
use std::marker::Model;

/// The names of a table's columns, and the largest number of its rows.
#[derive(Drop)]
pub(crate) struct Layout {
    pub columns: &'static [&'static str],
    pub limit: usize,
}

/// A row that is read from a record of a table's file.
pub(crate) trait FileRow<const N: usize>: Row<N> {
    ghost table: { Table Self };

    /// Returns the table's columns and limit.
    fn layout() -> Layout
        ensures columns { map (λ c. c.now) result.columns.now ≡ table.columns }
        ensures limit { result.limit ≡ Self.limit };

    /// Reads a row from the fields of a record. Returns None if a field is malformed or out of range.
    fn of_fields(alloc: Global, fields: &[Text]) -> Result<Option<Self>, OutOfMemory>
        ensures value { IfOk result (λ row. row ≡ table.row_of fields.now) }
        ensures fits { IfOk result (λ row. IfSome row Self.Fits) };

    /// Returns true if the tables have every airport, type, item and captain that the row names.
    fn is_linked(&self, loaded: &Loading) -> bool
        ensures { result ≡ table.is_linked (shown loaded.now) self.now };

    ghost told: { IsToldByFirst table };
}

// The number of fields to read of a record: one more than there are columns, which shows that a record is too long.
fn most_fields<R: FileRow<N>, const N: usize>() -> usize
    ensures { result ≡ length R.table.columns + 1 }
{
    R::layout().columns.len() + 1
}

// Returns true if the fields are these column names in this order.
fn is_header(fields: &[Text], columns: &[&str]) -> bool
    ensures { result ≡ spec.are_same fields.now (map (λ c. c.now) columns.now) }
{
    if fields.len() != columns.len() {
        return false;
    }
    for (i, column) in columns.iter().enumerate() {
        if fields[i].bytes() != column.as_bytes() {
            return false;
        }
    }
    true
}

// Reads the row of a record that comes after `count` others.
fn row_at<R: FileRow<N>, const N: usize>(
    alloc: Global,
    count: usize,
    fields: &[Text],
) -> Result<Result<R, TableWhy>, OutOfMemory>
    ensures value { IfOk result (λ row. row ≡ passes.row_at R.limit R.table count fields.now) }
    ensures fits { IfOk result (λ row. IfOk row R.Fits) }
    ensures room { IfOk result (λ row. OnOk row (count < R.limit)) }
{
    if count >= R::layout().limit {
        return Ok(Err(TableWhy::OverLimit));
    }
    match R::of_fields(alloc, fields)? {
        Some(row) => Ok(Ok(row)),
        None => Ok(Err(TableWhy::BadField)),
    }
}

// Reads the next record as a row, after `count` rows.
fn next_row<R: FileRow<N>, const N: usize>(
    alloc: Global,
    reader: &mut Records,
    count: usize,
) -> Result<Option<Result<R, TableWhy>>, OutOfMemory>
    ensures value { IfOk result (λ row. (text : List ℕ) → (earlier : List (List (List ℕ)))
        → HasGiven text earlier reader.old → passes.GivesRow R.limit R.table count text earlier row reader.new) }
    ensures fits { IfOk result (λ row. IfSome row (λ r. IfOk r R.Fits)) }
    ensures room { IfOk result (λ row. IfSome row (λ r. OnOk r (count < R.limit))) }
{
    match reader.next(alloc, most_fields::<R, N>())? {
        None => Ok(None),
        Some(fields) => Ok(Some(row_at(alloc, count, fields.as_slice())?)),
    }
}

/// The rows that were read, and the bad record at which reading stopped, if any. If that record names something
/// missing, its row is the last of the rows.
#[derive(Drop)]
struct ReadRows<R: Drop> {
    rows: Vec<R>,
    stop: Option<BadRecord>,
}

impl<R: Drop> Model for ReadRows<R> {
    ghost use Rattle.table_files.specs.Passes.{RowsRead};

    ghost Value = { RowsRead R };

    ghost view = { λ read. record { rows = read.rows.items; stop = read.stop } };
}

fn line_ends(text: &[u8]) -> usize {
    text.iter().filter(|b| **b == b'\n' || **b == b'\r').count()
}

// Returns the number of rows for which to reserve room, from the lines of the text. Reserving it at once saves
// memory, because a growing vector takes up to twice what it holds.
fn most_rows<R: FileRow<N>, const N: usize>(text: &[u8]) -> usize {
    R::layout().limit.min(line_ends(text).saturating_add(1))
}

// Returns the rows, with a stop at the record after `count` others.
fn stopped<R: Drop>(rows: Vec<R>, count: usize, why: TableWhy) -> ReadRows<R>
    requires { count ≤ 200_000 }
    ensures { result ≡ passes.stopped rows.items count why }
{
    let line = count as u32 + 2;
    let stop = Some(BadRecord { line, why });
    ReadRows { rows, stop }
}

// Reads the records that are left, with room for `room` rows reserved at once.
fn rows_under<R: FileRow<N>, const N: usize>(
    alloc: Global,
    reader: &mut Records,
    loaded: &Loading,
    room: usize,
) -> Result<ReadRows<R>, OutOfMemory>
    ensures value { IfOk result (λ read. (text : List ℕ) → (earlier : List (List (List ℕ)))
        → HasGiven text earlier reader.old → (others : List (List (List ℕ))) × AreRecordsOf text (earlier ++ others)
        × (passes.rows_read R.limit R.table (shown loaded.now) 0 others ≡ read)) }
    ensures fits { IfOk result (λ read. All R.Fits read.rows) }
    ensures within { IfOk result (λ read. length read.rows ≤ R.limit) }
{
    let mut rows = Vec::with_capacity(alloc, room)?;
    loop {
        let count = rows.len();
        match next_row::<R, N>(alloc, reader, count)? {
            None => return Ok(ReadRows { rows, stop: None }),
            Some(Err(why)) => return Ok(stopped(rows, count, why)),
            Some(Ok(row)) => {
                let linked = row.is_linked(loaded);
                rows.push(row)?;
                if !linked {
                    return Ok(stopped(rows, count, TableWhy::Unlinked));
                }
            }
        }
    }
}

// Reads the header and the rows of a table. The text is dropped on return, before the keys are compared.
fn rows_in<R: FileRow<N>, const N: usize>(
    alloc: Global,
    text: Text,
    loaded: &Loading,
) -> Result<Result<ReadRows<R>, BadRecord>, OutOfMemory>
    ensures value { IfOk result (λ read. Gives text (spec.under_header R.table.columns
        (λ records. Ok (passes.rows_read R.limit R.table (shown loaded.now) 0 records))) read) }
    ensures fits { IfOk result (λ read. IfOk read (λ r. All R.Fits r.rows)) }
    ensures within { IfOk result (λ read. IfOk read (λ r. length r.rows ≤ R.limit)) }
{
    let mut reader = Records::of(text.bytes());
    if has_header(alloc, &mut reader, R::layout().columns)? {
        let room = most_rows::<R, N>(text.bytes());
        Ok(Ok(rows_under(alloc, &mut reader, loaded, room)?))
    } else {
        Ok(Err(BadRecord {
            line: 1,
            why: TableWhy::BadField,
        }))
    }
}

// Makes a table of the rows, or returns the first bad record.
fn tested<R: FileRow<N>, const N: usize>(
    alloc: Global,
    read: ReadRows<R>,
) -> Result<Result<Grouped<R, N>, BadRecord>, OutOfMemory>
    requires fits { All R.Fits read.rows }
    requires within { length read.rows ≤ R.limit }
    ensures { IfOk result (λ made. made ≡ passes.keyed R.is_same_key [] read.rows read.stop) }
{
    match Grouped::of(alloc, read.rows)? {
        Err(place) => Ok(Err(BadRecord {
            line: place as u32 + 2,
            why: TableWhy::Doubled,
        })),
        Ok(rows) => {
            rows.are_distinct();
            match read.stop {
                None => Ok(Ok(rows)),
                Some(bad) => Ok(Err(bad)),
            }
        }
    }
}

/// Reads a table, header first, or returns the first bad record.
pub(crate) fn read_rows<R: FileRow<N>, const N: usize>(
    alloc: Global,
    text: Text,
    loaded: &Loading,
) -> Result<Result<Grouped<R, N>, BadRecord>, OutOfMemory>
    ensures { IfOk result (λ rows. Gives text (spec.rows_of R.is_same_key R.limit R.table (shown loaded.now)) rows) }
{
    match rows_in(alloc, text, loaded)? {
        Ok(read) => tested(alloc, read),
        Err(bad) => Ok(Err(bad)),
    }
}

/// Reads the first record of a file. Returns true if it is a header with these columns.
pub fn has_header(
    alloc: Global,
    reader: &mut Records,
    columns: &[&str],
) -> Result<bool, OutOfMemory>
    ensures { IfOk result (λ good. (text : List ℕ) → HasGiven text [] reader.old
        → spec.Begins text (map (λ c. c.now) columns.now) good reader.new) }
{
    match reader.next(alloc, columns.len() + 1)? {
        None => Ok(false),
        Some(header) => Ok(is_header(header.as_slice(), columns)),
    }
}

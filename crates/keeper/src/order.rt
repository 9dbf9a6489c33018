ghost use Rattle.std.specs.Prelude.{◌≡◌, ◌+◌, ◌++◌, ◌<◌, ◌≤◌, take, drop, insert, Option, IsTrue, IfOk, length, if◌then◌else◌, vec_len};
ghost use Rattle.std.specs.List.{cons_option};
ghost use Rattle.std.specs.List.Sorted.{IsPermutation, IsSortedBy};
ghost use Rattle.std.specs.Vec.{vec_capacity};
ghost use Rattle.desk_io.specs.declared.rows.Row.{Row as ARow};
ghost use Rattle.desk_io.specs.Rows.{is_row, rows_of, changed_by};
ghost use Rattle.keeper.specs.Order as spec;
ghost use Rattle.keeper.specs.Kept.{AreSame};

use desk_io::{Change, Copied, OutOfMemory, Row};
use std::alloc::Global;

// The row precedes that kind and key.
fn is_below(row: &Row, kind: u8, key: u64) -> bool
    ensures { result ≡ spec.is_below kind key row.now }
{
    row.kind < kind || (row.kind == kind && row.key < key)
}

fn rises_from(first: &Row, rest: &[Row]) -> bool
    ensures { result ≡ spec.rises_from first.now rest.now }
{
    let mut last = first;
    for row in rest {
        if !is_below(last, row.kind, row.key) {
            return false;
        }
        last = row;
    }
    true
}

fn rises(rows: &[Row]) -> bool
    ensures { result ≡ spec.rising rows.now }
{
    match rows {
        [] => true,
        [first, rest @ ..] => rises_from(first, rest),
    }
}

/// Returns true if the rows strictly increase by kind, then key. No two then have the same kind and key.
pub fn is_rising(rows: &[Row]) -> bool
    ensures value { result ≡ spec.rising rows.now }
    ensures apart { IsTrue result → spec.AreApart rows.now }
{
    rises(rows)
}

fn sort(rows: &mut Vec<Row>)
    ensures moved { IsPermutation rows.old.items rows.new.items }
    ensures sorted { IsSortedBy (λ (a : ARow) (b : ARow). spec.is_below b.kind b.key a) rows.new.items }
{
    rows.sort_unstable_by_key(|row| (row.kind, row.key));
}

/// Sorts rows by kind, then key. Allocates nothing.
pub fn put_in_order(rows: &mut Vec<Row>)
    requires { spec.AreApart rows.old.items }
    ensures same { AreSame (rows_of rows.new.items) (rows_of rows.old.items) }
    ensures rising { IsTrue (spec.rising rows.new.items) }
    ensures already { IsTrue (spec.rising rows.old.items) → rows.new.items ≡ rows.old.items }
{
    sort(rows);
}

// How many rows precede a kind and key, and whether the next row has them.
fn place_of(rows: &[Row], kind: u8, key: u64) -> (usize, bool)
    requires { IsTrue (spec.rising rows.now) }
    ensures within { result.0 + (if result.1 then 1 else 0) ≤ length rows.now }
    ensures place { (put : Option ARow) → spec.put_at kind key put rows.now ≡
        take result.0 rows.now ++ cons_option put (drop (result.0 + (if result.1 then 1 else 0)) rows.now) }
{
    let place = rows.partition_point(
        |row: &Row| -> bool
            ensures { result ≡ spec.is_below kind key row.now }
        { is_below(row, kind, key) },
    );
    (place, stands_at(rows, place, kind, key))
}

fn insert_reserved(rows: &mut Vec<Row>, place: usize, row: Row)
    requires within { place ≤ length rows.old.items }
    requires room { vec_len rows.old < vec_capacity rows.old }
    ensures items { rows.new.items ≡ insert rows.old.items place row }
    ensures len { vec_len rows.new ≡ vec_len rows.old + 1 }
    ensures capacity { vec_capacity rows.old ≤ vec_capacity rows.new }
{
    match rows.insert(place, row) {
        Ok(()) => {}
        Err(_) => unreachable!(),
    }
}

fn is_of(row: &Row, kind: u8, key: u64) -> bool
    ensures { result ≡ is_row kind key row.now }
{
    row.kind == kind && row.key == key
}

// The row at that place has that kind and key.
fn stands_at(rows: &[Row], place: usize, kind: u8, key: u64) -> bool
    ensures { result ≡ spec.stands_at place kind key rows.now }
{
    match rows.get(place) {
        None => false,
        Some(row) => is_of(row, kind, key),
    }
}

// Stores the row `put` under a kind and key, or removes the row there if `put` is None. Room for one more row must be
// reserved.
#[tactic(auto, using(crate::proofs::Places::replaced))]
fn put_at(rows: &mut Vec<Row>, kind: u8, key: u64, put: Option<Row>)
    requires rising { IsTrue (spec.rising rows.old.items) }
    requires room { vec_len rows.old < vec_capacity rows.old }
    ensures items { rows.new.items ≡ spec.put_at kind key put rows.old.items }
    ensures len { vec_len rows.new ≤ vec_len rows.old + 1 }
    ensures capacity { vec_capacity rows.old ≤ vec_capacity rows.new }
{
    let (place, found) = place_of(rows, kind, key);
    match (put, found) {
        (Some(row), true) => rows[place] = row,
        (Some(row), false) => insert_reserved(rows, place, row),
        (None, true) => {
            let _ = rows.remove(place);
        }
        (None, false) => {}
    }
}

fn make(rows: &mut Vec<Row>, change: Change)
    requires rising { IsTrue (spec.rising rows.old.items) }
    requires room { vec_len rows.old < vec_capacity rows.old }
    ensures items { rows.new.items ≡ spec.list_changed change rows.old.items }
    ensures rising { IsTrue (spec.rising rows.new.items) }
    ensures len { vec_len rows.new ≤ vec_len rows.old + 1 }
    ensures capacity { vec_capacity rows.old ≤ vec_capacity rows.new }
{
    match change {
        Change::Put(row) => put_at(rows, row.kind, row.key, Some(row)),
        Change::Remove { kind, key } => put_at(rows, kind, key, None),
    }
}

fn make_each(rows: &mut Vec<Row>, changes: Vec<Change>)
    requires rising { IsTrue (spec.rising rows.old.items) }
    requires room { vec_len rows.old + length changes.items ≤ vec_capacity rows.old }
    ensures items { rows.new.items ≡ spec.list_changed_by changes.items rows.old.items }
    ensures rising { IsTrue (spec.rising rows.new.items) }
{
    for change in changes {
        make(rows, change);
    }
}

/// Applies changes in order to sorted rows. Room for one more row per change must be reserved. Allocates nothing.
#[tactic(auto, using(crate::proofs::OrderLaws::same_changed))]
pub fn make_all(rows: &mut Vec<Row>, changes: Vec<Change>)
    requires rising { IsTrue (spec.rising rows.old.items) }
    requires room { vec_len rows.old + length changes.items ≤ vec_capacity rows.old }
    ensures same { AreSame (rows_of rows.new.items) (changed_by changes.items (rows_of rows.old.items)) }
    ensures rising { IsTrue (spec.rising rows.new.items) }
{
    make_each(rows, changes);
}

fn copied(change: &Change, alloc: Global) -> Result<Change, OutOfMemory>
    ensures { IfOk result (λ copy. copy ≡ change.now) }
{
    match change {
        Change::Put(row) => Ok(Change::Put(row.copy(alloc)?)),
        Change::Remove { kind, key } => Ok(Change::Remove {
            kind: *kind,
            key: *key,
        }),
    }
}

/// Copies changes, in order.
pub fn copied_changes(changes: &[Change], alloc: Global) -> Result<Vec<Change>, OutOfMemory>
    ensures { IfOk result (λ copies. copies.items ≡ changes.now) }
{
    let mut copies = Vec::new(alloc);
    for change in changes {
        copies.push(copied(change, alloc)?)?;
    }
    Ok(copies)
}

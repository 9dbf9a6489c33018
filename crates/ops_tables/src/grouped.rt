ghost use Rattle.std.specs.Prelude.{◌≡◌, ◌≤◌, [], List, ℕ, Bool, true, All, IfOk, IfSome, MatchResult, length, find, take, nat_le};
ghost use Rattle.std.specs.List.{list_any};
ghost use Rattle.std.specs.Option.{option_copied};
ghost use Rattle.std.specs.Str.{bytes_eq};
ghost use Rattle.ops_tables.specs.Grouped as spec;
ghost use Rattle.ops_tables.specs.Grouped.{rows_at, group_name};
ghost use Rattle.ops_tables.specs.Keys.{AreNew};
ghost use Rattle.ops_tables.specs.Order.{IsOrder, IsFirstDoubled};

use crate::group::Group;
use crate::order::{first_doubled, order_of, places_at};
use crate::packed::write;
use desk_io::OutOfMemory;
use std::alloc::Global;
use std::marker::Model;

/// A group name: the first sixteen bytes of each of the three parts of a key.
pub(crate) type GroupName = [u8; 48];

fn front(part: &[u8]) -> &[u8]
    ensures value { result.now ≡ take 16 part.now }
    ensures bound { length result.now ≤ 16 }
{
    if part.len() > 16 { &part[..16] } else { part }
}

/// Returns the group name of a key. A part that a key doesn't have is empty.
#[tactic(auto, unfolding(crate::specs::Grouped::group_name))]
pub(crate) fn group_name(first: &[u8], second: &[u8], third: &[u8]) -> GroupName
    ensures { result ≡ spec.group_name first.now second.now third.now }
{
    let mut name = [0; 48];
    let over = &mut name[..];
    write(over, 0, front(first));
    write(over, 16, front(second));
    write(over, 32, front(third));
    name
}

/// A row of a table. Its group has a name of N bytes. Rows with the same key are in the same group.
pub trait Row<const N: usize>: Sized + Drop {
    ghost name: { Self → List ℕ };

    ghost is_same_key: { Self → Self → Bool };

    /// The form and range of each column.
    ghost Fits: { Self → Type 0 };

    /// The largest number of rows of the table.
    ghost limit: { ℕ };

    /// Returns the name of the row's group.
    fn group_name(&self) -> [u8; N]
        ensures { result ≡ name self.now };

    /// Returns true if `other` has the same key.
    fn has_key_of(&self, other: &Self) -> bool
        ensures { result ≡ is_same_key self.now other.now };

    ghost same_group: { (a : Self) → (b : Self) → is_same_key a b ≡ true → bytes_eq (name b) (name a) ≡ true };

    ghost bounded: { nat_le limit 200_000 ≡ true };

    ghost short: { nat_le N 48 ≡ true };
}

/// A row that is looked up by the parts of its key. Parts that its key doesn't have are empty.
pub(crate) trait Keyed: Row<48> {
    ghost is_of: { List ℕ → List ℕ → List ℕ → Self → Bool };

    /// Returns true if these are the parts of the row's key.
    fn is_of(&self, first: &[u8], second: &[u8], third: &[u8]) -> bool
        ensures { result ≡ is_of first.now second.now third.now self.now };

    ghost in_group: { (a b c : List ℕ) → (r : Self) → is_of a b c r ≡ true
        → bytes_eq (Self.Row.name r) (group_name a b c) ≡ true };
}

/// A table whose rows are looked up by their keys. No two rows have the same key. Contracts model it as the list of
/// the rows, in the order of the file.
#[derive(Drop)]
pub struct Grouped<R: Row<N>, const N: usize> {
    rows: Vec<R>,
    order: Vec<u32>,
}

impl<R: Row<N>, const N: usize> Model for Grouped<R, N> {
    ghost use Rattle.std.specs.Prelude.{List};
    ghost use Rattle.ops_tables.specs.Grouped.{IsTable};

    ghost Value = { List R };

    ghost view = { λ g. g.rows.items };

    ghost invariant = { λ g. IsTable N R.name R.is_same_key R.Fits R.limit g.rows.items g.order.items };
}

// Returns the rows of the group with this name.
fn group_in<'a, R: Row<N>, const N: usize>(
    rows: &'a [R],
    order: &'a [u32],
    name: &[u8; N],
) -> Group<'a, R>
    requires size { N ≤ 48 }
    requires order { IsOrder N R.name rows.now order.now }
    ensures { result ≡ rows_at R.name name.now rows.now }
{
    Group::of(rows, places_at(rows, order, name))
}

impl<R: Row<N>, const N: usize> Grouped<R, N> {
    /// Makes a table without rows.
    pub fn new(alloc: Global) -> Grouped<R, N>
        ensures { result ≡ [] }
    {
        Grouped {
            rows: Vec::new(alloc),
            order: Vec::new(alloc),
        }
    }

    /// Returns all rows, in the order of the file.
    pub fn rows(&self) -> &[R]
        ensures { result.now ≡ self.now }
    {
        self.rows.as_slice()
    }

    /// Makes a table of these rows. The inner error is the index of the first row whose key an earlier row has.
    pub fn of(alloc: Global, rows: Vec<R>) -> Result<Result<Grouped<R, N>, usize>, OutOfMemory>
        requires fits { All R.Fits rows.items }
        requires within { length rows.items ≤ R.limit }
        ensures { IfOk result (λ made. MatchResult made (λ g. g ≡ rows.items)
            (λ place. IsFirstDoubled R.is_same_key rows.items place)) }
    {
        let order = order_of(alloc, &rows)?;
        match first_doubled(&rows, &order) {
            None => Ok(Ok(Grouped { rows, order })),
            Some(place) => Ok(Err(place)),
        }
    }

    /// Proves that no two rows have the same key. It does nothing at run time.
    pub fn are_distinct(&self)
        ensures { AreNew R.is_same_key [] self.now }
    {
        let _ = &self.rows;
    }

    /// Returns the rows of the group with this name, in the order of the file.
    pub(crate) fn at(&self, name: &[u8; N]) -> Group<'_, R>
        ensures value { result ≡ rows_at R.name name.now self.now }
        ensures fits { All R.Fits result }
    {
        group_in(&self.rows, &self.order, name)
    }
}

// Returns the first row of the group that has this key.
fn found_in<'a, R: Keyed>(
    group: &Group<'a, R>,
    first: &[u8],
    second: &[u8],
    third: &[u8],
) -> Option<&'a R>
    ensures { option_copied result ≡ find (R.is_of first.now second.now third.now) group.now }
{
    for place in 0..group.len() {
        let row = group.row(place);
        if row.is_of(first, second, third) {
            return Some(row);
        }
    }
    None
}

/// Returns the row that has this key.
pub(crate) fn found<'a, R: Keyed>(
    rows: &'a Grouped<R, 48>,
    first: &[u8],
    second: &[u8],
    third: &[u8],
) -> Option<&'a R>
    ensures value { option_copied result ≡ find (R.is_of first.now second.now third.now) rows.now }
    ensures fits { IfSome result (λ r. R.Row.Fits r.now) }
{
    found_in(
        &rows.at(&group_name(first, second, third)),
        first,
        second,
        third,
    )
}

/// Returns true if a row has this key.
pub(crate) fn has<R: Keyed>(
    rows: &Grouped<R, 48>,
    first: &[u8],
    second: &[u8],
    third: &[u8],
) -> bool
    ensures { result ≡ list_any (R.is_of first.now second.now third.now) rows.now }
{
    found(rows, first, second, third).is_some()
}

ghost use Rattle.std.specs.Prelude.{◌≡◌, ◌<◌, ◌≤◌, ◌&&◌, [], length, drop, nat_lt, slice_get, IfOk, MatchOption};
ghost use Rattle.std.specs.List.{list_any};
ghost use Rattle.std.specs.Ordering.{nat_cmp, is_lt};
ghost use Rattle.std.specs.Cmp.Lexicographic.{slice_cmp};
ghost use Rattle.std.specs.Str.{bytes_eq};
ghost use Rattle.ops_tables.specs.Keys.{AreNew};
ghost use Rattle.ops_tables.specs.Order as spec;
ghost use Rattle.ops_tables.specs.Order.{IsOrder, IsFirstDoubled};

use crate::grouped::Row;
use desk_io::OutOfMemory;
use std::alloc::Global;

// Returns the group name of the row at this index, or zeros if there is no such row.
fn name_at<R: Row<N>, const N: usize>(rows: &[R], place: u32) -> [u8; N]
    ensures { result ≡ spec.name_at N R.name rows.now place }
{
    match rows.get(place as usize) {
        None => [0; N],
        Some(row) => row.group_name(),
    }
}

fn is_before<R: Row<N>, const N: usize>(rows: &[R], place: u32, name: &[u8; N]) -> bool
    ensures { result ≡ is_lt (slice_cmp nat_cmp (spec.name_at N R.name rows.now place) name.now) }
{
    name_at(rows, place).cmp(name).is_lt()
}

fn is_named<R: Row<N>, const N: usize>(rows: &[R], place: u32, name: &[u8; N]) -> bool
    ensures { result ≡ bytes_eq (spec.name_at N R.name rows.now place) name.now }
{
    name_at(rows, place) == *name
}

fn places<R: Row<N>, const N: usize>(alloc: Global, rows: &[R]) -> Result<Vec<u32>, OutOfMemory>
    requires { length rows.now ≤ 200_000 }
    ensures { IfOk result (λ places. places.items ≡ spec.places_from 0 rows.now) }
{
    let mut places = Vec::with_capacity(alloc, rows.len())?;
    for (place, _) in rows.iter().enumerate() {
        places.push(place as u32)?;
    }
    Ok(places)
}

/// Returns the indices of the rows, sorted by group name. Rows of one group keep their order.
pub(crate) fn order_of<R: Row<N>, const N: usize>(
    alloc: Global,
    rows: &[R],
) -> Result<Vec<u32>, OutOfMemory>
    requires size { N ≤ 48 }
    requires count { length rows.now ≤ 200_000 }
    ensures { IfOk result (λ order. IsOrder N R.name rows.now order.items) }
{
    let mut order = places(alloc, rows)?;
    order.sort_by_key(
        |place: &u32| -> [u8; N]
            ensures { result ≡ spec.name_at N R.name rows.entry.now place.now }
        { name_at(rows, *place) },
    )?;
    Ok(order)
}

fn after(places: &[u32], start: usize) -> &[u32]
    requires { start ≤ length places.now }
    ensures { result.now ≡ drop start places.now }
{
    &places[start..]
}

/// Finds the indices of the rows of one group by binary search.
pub(crate) fn places_at<'a, R: Row<N>, const N: usize>(
    rows: &[R],
    order: &'a [u32],
    name: &[u8; N],
) -> &'a [u32]
    requires size { N ≤ 48 }
    requires order { IsOrder N R.name rows.now order.now }
    ensures { result.now ≡ spec.places_at N R.name rows.now name.now order.now }
{
    let start = order.partition_point(
        |place: &u32| -> bool
            ensures { result
                ≡ is_lt (slice_cmp nat_cmp (spec.name_at N R.name rows.entry.now place.now) name.entry.now) }
        { is_before(rows, *place, name) },
    );
    let rest = after(order, start);
    let count = rest.partition_point(
        |place: &u32| -> bool
            ensures { result ≡ bytes_eq (spec.name_at N R.name rows.entry.now place.now) name.entry.now }
        { is_named(rows, *place, name) },
    );
    &rest[..count]
}

fn is_same_at<R: Row<N>, const N: usize>(rows: &[R], row: &R, place: u32) -> bool
    ensures { result ≡ spec.is_same_as R.is_same_key row.now (slice_get rows.now place) }
{
    match rows.get(place as usize) {
        None => false,
        Some(other) => row.has_key_of(other),
    }
}

// Returns true if a row at one of these indices, below `place`, has the same key as `row`.
fn has_earlier<R: Row<N>, const N: usize>(rows: &[R], places: &[u32], row: &R, place: usize) -> bool
    ensures { result ≡ list_any (λ other. nat_lt other place
        && spec.is_same_as R.is_same_key row.now (slice_get rows.now other)) places.now }
{
    for other in places {
        if (*other as usize) < place && is_same_at(rows, row, *other) {
            return true;
        }
    }
    false
}

// Returns true if an earlier row has the key of the row at this index.
fn is_doubled<R: Row<N>, const N: usize>(rows: &[R], order: &[u32], place: usize) -> bool
    requires size { N ≤ 48 }
    requires order { IsOrder N R.name rows.now order.now }
    requires within { place < length rows.now }
    ensures { result ≡ spec.is_doubled R.is_same_key rows.now place }
{
    let row = &rows[place];
    has_earlier(rows, places_at(rows, order, &row.group_name()), row, place)
}

/// Returns the index of the first row whose key an earlier row has.
pub(crate) fn first_doubled<R: Row<N>, const N: usize>(rows: &[R], order: &[u32]) -> Option<usize>
    requires size { N ≤ 48 }
    requires order { IsOrder N R.name rows.now order.now }
    ensures { MatchOption result (AreNew R.is_same_key [] rows.now)
        (λ place. IsFirstDoubled R.is_same_key rows.now place) }
{
    for place in 0..rows.len() {
        if is_doubled(rows, order, place) {
            return Some(place);
        }
    }
    None
}

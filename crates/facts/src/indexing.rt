ghost use Rattle.std.specs.Prelude.{◌≡◌, map, IfOk};
ghost use Rattle.std.specs.List.Sorted.{IsStrictlySortedBy};
ghost use Rattle.std.specs.Map.{keys_of};
ghost use Rattle.facts.specs.Index.{AreKeysOf, IsLatestIndex, key_entry, station_entry};

use crate::index::Places;
use crate::report::Report;
use crate::same::key_of;
use crate::sweeping::index_latest;
use desk_io::{Keys, OutOfMemory, Sorted};
use desk_time::Minute;
use std::alloc::Global;

fn listed_stations(alloc: Global, held: &[Report]) -> Result<Vec<([u8; 4], ())>, OutOfMemory>
    ensures { IfOk result (λ keys. keys.items ≡ map station_entry held.now) }
{
    let mut keys = Vec::with_capacity(alloc, held.len())?;
    for report in held {
        keys.push((report.station().bytes(), ()))?;
    }
    Ok(keys)
}

fn listed_keys(alloc: Global, held: &[Report]) -> Result<Vec<((Minute, u64, u64), ())>, OutOfMemory>
    ensures { IfOk result (λ keys. keys.items ≡ map key_entry held.now) }
{
    let mut keys = Vec::with_capacity(alloc, held.len())?;
    for report in held {
        keys.push((key_of(report), ()))?;
    }
    Ok(keys)
}

// Entries of these keys, all with the same value.
fn valued<K: Ord + Copy + Drop, V: Copy + Drop>(
    alloc: Global,
    keys: &[(K, ())],
    value: V,
) -> Result<Sorted<K, V>, OutOfMemory>
    requires { IsStrictlySortedBy K.cmp (keys_of keys.now) }
    ensures { IfOk result (λ entries. keys_of entries.entries ≡ keys_of keys.now) }
{
    let mut held = Vec::with_capacity(alloc, keys.len())?;
    for key in keys {
        held.push((key.0, value))?;
    }
    Ok(Sorted::from_vec(held))
}

/// Builds the index of the latest reports by station. Sorts the stations once.
pub(crate) fn latest_index(
    alloc: Global,
    held: &[Report],
) -> Result<Sorted<[u8; 4], Places>, OutOfMemory>
    ensures { IfOk result (λ stations. IsLatestIndex stations.entries held.now) }
{
    let keys = Keys::from_vec(listed_stations(alloc, held)?);
    let nowhere = Places {
        observation: None,
        forecast: None,
    };
    let mut stations = valued(alloc, keys.as_slice(), nowhere)?;
    index_latest(&mut stations, held);
    Ok(stations)
}

/// Builds the keys of these reports. Sorts them once.
pub(crate) fn keys_of_reports(
    alloc: Global,
    held: &[Report],
) -> Result<Keys<(Minute, u64, u64)>, OutOfMemory>
    ensures { IfOk result (λ keys. AreKeysOf held.now keys.keys) }
{
    let keys = listed_keys(alloc, held)?;
    Ok(Keys::from_vec(keys))
}

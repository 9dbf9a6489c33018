ghost use Rattle.std.specs.Prelude.{◌≡◌, ◌≤◌, ◌+◌, ◌-◌, ◌||◌, ℕ, filter, length, OnOk};
ghost use Rattle.std.specs.List.{AllByRecursion, slice_get};
ghost use Rattle.std.specs.Map.{keys_of};
ghost use Rattle.release_index.specs.Bounds.{ReleaseInBounds};
ghost use Rattle.release_index.specs.Chosen as spec;
ghost use Rattle.release_index.specs.Entries.{dues_onto, stations_onto, tail_onto};
ghost use Rattle.release_index.specs.Index.{IsIndexOf};
ghost use Rattle.release_index.specs.Touched.{held_where, is_among, touched_at, touched_by, touched_on};

use crate::keys::Key;
use desk_io::{ById, Keys, OutOfMemory, Station};
use desk_time::Minute;
use facts::fingerprint;
use ops_tables::Settings;
use plan::{Release, is_active};
use rules::{is_of_tail, names_station, next_due_by};

fn is_touched_at(station: Station, release: &Release) -> bool
    requires { ReleaseInBounds release.now }
    ensures { result ≡ touched_at station release.now }
{
    match &release.active {
        None => false,
        Some(active) => {
            is_active(release.phase) && names_station(&active.plan, release.phase, station)
        }
    }
}

fn is_touched_on(tail: &[u8], release: &Release) -> bool
    ensures { result ≡ touched_on tail.now release.now }
{
    match &release.active {
        None => false,
        Some(active) => is_active(release.phase) && is_of_tail(&active.plan, tail),
    }
}

fn leads_at(held: &ById<Release>, station: Station, key: Key) -> bool
    requires { AllByRecursion ReleaseInBounds held.now.list }
    ensures { result ≡ spec.leads_where (touched_at station) held.now.list key }
{
    match held.get(key.1) {
        None => false,
        Some(release) => is_touched_at(station, release),
    }
}

fn leads_on(held: &ById<Release>, tail: &[u8], key: Key) -> bool
    ensures { result ≡ spec.leads_where (touched_on tail.now) held.now.list key }
{
    match held.get(key.1) {
        None => false,
        Some(release) => is_touched_on(tail, release),
    }
}

fn is_due_at(settings: Settings, moment: Minute, minute: Minute, release: &Release) -> bool
    requires { ReleaseInBounds release.now }
    ensures { result ≡ spec.due_at settings moment minute release.now }
{
    match &release.active {
        None => false,
        Some(active) => {
            is_active(release.phase)
                && is_at_minute(
                    minute,
                    next_due_by(&active.plan, release.phase, settings, moment),
                )
        }
    }
}

fn is_at_minute(minute: Minute, due: Option<Minute>) -> bool
    ensures { result ≡ spec.is_at_minute minute due }
{
    match due {
        None => false,
        Some(due) => due == minute,
    }
}

fn leads_by(held: &ById<Release>, settings: Settings, moment: Minute, key: Key) -> bool
    requires { AllByRecursion ReleaseInBounds held.now.list }
    ensures { result ≡ spec.leads_by settings moment held.now.list key }
{
    match held.get(key.1) {
        None => false,
        Some(release) => is_due_at(settings, moment, key.0, release),
    }
}

// Appends the id of each key whose minute is the next at which a time rule begins to fail for its release. So a
// release with several due minutes is appended once.
fn push_by(
    ids: &mut Vec<u64>,
    held: &ById<Release>,
    run: &[(Key, ())],
    settings: Settings,
    moment: Minute,
) -> Result<(), OutOfMemory>
    requires { AllByRecursion ReleaseInBounds held.now.list }
    ensures { OnOk result (ids.new.items ≡ spec.chosen_onto (spec.leads_by settings moment held.now.list)
        ids.old.items (keys_of run.now)) }
{
    for entry in run {
        let key = entry.0;
        if leads_by(held, settings, moment, key) {
            ids.push(key.1)?;
        }
    }
    Ok(())
}

// Appends the id of each key whose release the station touches. Tests the release, because fingerprints may collide.
fn push_at(
    ids: &mut Vec<u64>,
    held: &ById<Release>,
    run: &[(Key, ())],
    station: Station,
) -> Result<(), OutOfMemory>
    requires { AllByRecursion ReleaseInBounds held.now.list }
    ensures { OnOk result (ids.new.items ≡ spec.chosen_onto (spec.leads_where (touched_at station) held.now.list)
        ids.old.items (keys_of run.now)) }
{
    for entry in run {
        let key = entry.0;
        if leads_at(held, station, key) {
            ids.push(key.1)?;
        }
    }
    Ok(())
}

// Appends the id of each key whose release the aircraft touches. Tests the release, because fingerprints may collide.
fn push_on(
    ids: &mut Vec<u64>,
    held: &ById<Release>,
    run: &[(Key, ())],
    tail: &[u8],
) -> Result<(), OutOfMemory>
    ensures { OnOk result (ids.new.items ≡ spec.chosen_onto (spec.leads_where (touched_on tail.now) held.now.list)
        ids.old.items (keys_of run.now)) }
{
    for entry in run {
        let key = entry.0;
        if leads_on(held, tail, key) {
            ids.push(key.1)?;
        }
    }
    Ok(())
}

// Returns the id of the last release, or 0 if there is none.
fn last_id(held: &[Release]) -> u64
    ensures { result ≡ spec.id_or_none (slice_get held.now (length held.now - 1)) }
{
    match held.last() {
        None => 0,
        Some(release) => release.id,
    }
}

/// Appends the ids of the releases that a station touches, found through the index by stations.
pub(crate) fn find_at(
    ids: &mut Vec<u64>,
    held: &ById<Release>,
    index: &Keys<Key>,
    station: Station,
) -> Result<(), OutOfMemory>
    requires each { AllByRecursion ReleaseInBounds held.now.list }
    requires index { IsIndexOf stations_onto index.now.keys held.now.list }
    ensures touched { OnOk result ((id : ℕ) → is_among ids.new.items id
        ≡ (is_among ids.old.items id || held_where (touched_at station) id held.now.list)) }
    ensures few { OnOk result (length ids.new.items
        ≤ length ids.old.items + length (filter (touched_at station) held.now.list)) }
{
    let _ = index.as_slice();
    let number = fingerprint(&station.bytes());
    let last = last_id(held.as_slice());
    push_at(ids, held, index.run(&(number, 0), &(number, last)), station)
}

/// Appends the ids of the releases that an aircraft touches, found through the index by aircraft.
pub(crate) fn find_on(
    ids: &mut Vec<u64>,
    held: &ById<Release>,
    index: &Keys<Key>,
    tail: &[u8],
) -> Result<(), OutOfMemory>
    requires index { IsIndexOf tail_onto index.now.keys held.now.list }
    ensures touched { OnOk result ((id : ℕ) → is_among ids.new.items id
        ≡ (is_among ids.old.items id || held_where (touched_on tail.now) id held.now.list)) }
    ensures few { OnOk result (length ids.new.items
        ≤ length ids.old.items + length (filter (touched_on tail.now) held.now.list)) }
{
    let _ = index.as_slice();
    let number = fingerprint(tail);
    let last = last_id(held.as_slice());
    push_on(ids, held, index.run(&(number, 0), &(number, last)), tail)
}

/// Appends the ids of the releases for which a time rule begins to fail after `moment` and at or before `minute`.
/// Reads only the keys of those minutes in the index.
pub(crate) fn find_by(
    ids: &mut Vec<u64>,
    held: &ById<Release>,
    index: &Keys<Key>,
    settings: Settings,
    moment: Minute,
    minute: Minute,
) -> Result<(), OutOfMemory>
    requires each { AllByRecursion ReleaseInBounds held.now.list }
    requires index { IsIndexOf (dues_onto settings) index.now.keys held.now.list }
    ensures touched { OnOk result ((id : ℕ) → is_among ids.new.items id
        ≡ (is_among ids.old.items id || held_where (touched_by settings moment minute) id held.now.list)) }
    ensures few { OnOk result (length ids.new.items
        ≤ length ids.old.items + length (filter (touched_by settings moment minute) held.now.list)) }
{
    let _ = index.as_slice();
    let first = moment.saturating_add(1);
    let last = last_id(held.as_slice());
    push_by(
        ids,
        held,
        index.run(&(first, 0), &(minute, last)),
        settings,
        moment,
    )
}

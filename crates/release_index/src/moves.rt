ghost use Rattle.std.specs.Prelude.{◌≡◌, ◌≤◌, ◌&&◌, ◌||◌, [], length, not, ℕ, IfOk, IfSome, OnOk};
ghost use Rattle.std.specs.List.{AllByRecursion};
ghost use Rattle.std.specs.Option.{option_copied};
ghost use Rattle.std.specs.BTreeMap.{is_at};
ghost use Rattle.facts.specs.Index.{key_cmp};
ghost use Rattle.desk_io.specs.Keys.{is_held};
ghost use Rattle.release_index.specs.Bounds.{ReleaseInBounds};
ghost use Rattle.release_index.specs.Changes as changes;
ghost use Rattle.release_index.specs.Changes.{MayChange};
ghost use Rattle.release_index.specs.Index as spec;
ghost use Rattle.release_index.specs.Index.{IsIndexOf, IsMove};

use crate::change::OnReleases;
use crate::entries::{push_dues, push_stations, push_tail};
use crate::keys::{Key, enter, set_of};
use desk_io::{ById, Keys, OutOfMemory};
use ops_tables::Settings;
use plan::Release;
use std::alloc::Global;

/// The property by which an index looks up releases.
#[derive(Clone, Copy)]
pub(crate) enum By {
    /// The stations that their plans name.
    Station,
    /// The registration of their aircraft.
    Tail,
    /// The minutes at which a time rule begins to fail for them.
    Due,
}

/// The keys that a change removes from an index and adds to it.
#[derive(Drop)]
pub(crate) struct Move {
    /// The keys to remove, unless they are also to be added.
    pub(crate) leaving: Vec<Key>,
    /// The keys to add.
    pub(crate) coming: Vec<Key>,
}

fn push_keys(
    alloc: Global,
    by: By,
    settings: Settings,
    keys: &mut Vec<Key>,
    release: &Release,
) -> Result<(), OutOfMemory>
    requires { ReleaseInBounds release.now }
    ensures { OnOk result (keys.new.items ≡ spec.onto_by by settings keys.old.items release.now) }
{
    match by {
        By::Station => push_stations(keys, release),
        By::Tail => push_tail(keys, release),
        By::Due => push_dues(alloc, settings, keys, release),
    }
}

/// Returns the keys of a release in one index. Without a release, there are none.
pub(crate) fn keys_of(
    alloc: Global,
    by: By,
    settings: Settings,
    release: Option<&Release>,
) -> Result<Vec<Key>, OutOfMemory>
    requires { IfSome (option_copied release) ReleaseInBounds }
    ensures { IfOk result (λ keys. keys.items ≡ spec.keys_of (spec.onto_by by settings) (option_copied release.entry)) }
{
    let mut keys = Vec::new(alloc);
    match release {
        None => {}
        Some(release) => push_keys(alloc, by, settings, &mut keys, release)?,
    }
    Ok(keys)
}

fn all_keys(
    alloc: Global,
    by: By,
    settings: Settings,
    list: &[Release],
) -> Result<Vec<Key>, OutOfMemory>
    requires { AllByRecursion ReleaseInBounds list.now }
    ensures { IfOk result (λ keys. keys.items ≡ spec.all_onto (spec.onto_by by settings) [] list.now) }
{
    let mut keys = Vec::new(alloc);
    for release in list {
        push_keys(alloc, by, settings, &mut keys, release)?;
    }
    Ok(keys)
}

/// Builds an index of releases, sorting the keys once.
pub(crate) fn index_of(
    alloc: Global,
    by: By,
    settings: Settings,
    list: &[Release],
) -> Result<Keys<Key>, OutOfMemory>
    requires { AllByRecursion ReleaseInBounds list.now }
    ensures { IfOk result (λ set. IsIndexOf (spec.onto_by by settings) set.keys list.now) }
{
    let keys = all_keys(alloc, by, settings, list)?;
    set_of(alloc, keys.as_slice())
}

// Returns the release that a change removes or replaces.
fn old_of<'a>(held: &'a ById<Release>, on: &OnReleases) -> Option<&'a Release>
    ensures { option_copied result ≡ changes.old_of on.now held.now.list }
{
    match on {
        OnReleases::Nothing | OnReleases::File(_) => None,
        OnReleases::Put(release) => held.get(release.id),
        OnReleases::Remove { release } => held.get(*release),
    }
}

// Returns the release that a change adds or puts in place of another.
fn fresh_of(on: &OnReleases) -> Option<&Release>
    ensures { option_copied result ≡ changes.fresh_of on.now }
{
    match on {
        OnReleases::Nothing | OnReleases::Remove { .. } => None,
        OnReleases::File(release) | OnReleases::Put(release) => Some(release),
    }
}

/// Computes the keys that a change removes from an index and adds to it.
pub(crate) fn move_of(
    alloc: Global,
    by: By,
    settings: Settings,
    held: &ById<Release>,
    on: &OnReleases,
) -> Result<Move, OutOfMemory>
    requires may { MayChange on.now held.now.list }
    requires each { AllByRecursion ReleaseInBounds held.now.list }
    ensures { IfOk result (IsMove by settings on.now held.now.list) }
{
    let leaving = keys_of(alloc, by, settings, old_of(held, on))?;
    let coming = keys_of(alloc, by, settings, fresh_of(on))?;
    Ok(Move { leaving, coming })
}

// Removes the key from the index, unless it is also to be added. Allocates no memory.
fn leave_unless(index: &mut Keys<Key>, key: &Key, coming: &[Key])
    ensures each { (q : ℕ × ℕ) → is_held key_cmp q index.new.keys
        ≡ ((not (is_at (key_cmp q) key.now) || is_held key_cmp q coming.now) && is_held key_cmp q index.old.keys) }
    ensures room { index.old.room ≤ index.new.room }
{
    if !coming.contains(key) {
        let _ = index.take(key);
    }
}

// Removes keys from the index, except those that are also to be added. Allocates no memory.
fn leave_others(index: &mut Keys<Key>, leaving: &[Key], coming: &[Key])
    ensures each { (q : ℕ × ℕ) → is_held key_cmp q index.new.keys
        ≡ ((not (is_held key_cmp q leaving.now) || is_held key_cmp q coming.now) && is_held key_cmp q index.old.keys) }
    ensures room { index.old.room ≤ index.new.room }
{
    for key in leaving {
        leave_unless(index, key, coming);
    }
}

/// Applies a move to an index that has room for the keys to add. A key that is both removed and added stays in place.
/// Allocates no memory.
pub(crate) fn turn(index: &mut Keys<Key>, by: &Move)
    requires { length by.now.coming.items ≤ index.old.room }
    ensures { (q : ℕ × ℕ) → is_held key_cmp q index.new.keys ≡ (is_held key_cmp q by.now.coming.items
        || (not (is_held key_cmp q by.now.leaving.items) && is_held key_cmp q index.old.keys)) }
{
    leave_others(index, &by.leaving, &by.coming);
    enter(index, &by.coming);
}

ghost use Rattle.std.specs.Prelude.{◌≡◌, ◌≤◌, ◌||◌, length, ℕ, IfOk};
ghost use Rattle.std.specs.Map.{keys_of};
ghost use Rattle.facts.specs.Index.{key_cmp};
ghost use Rattle.desk_io.specs.Keys.{is_held};

use desk_io::{Keys, OutOfMemory};
use std::alloc::Global;

/// An index key: what touches a release, and the release's id. The first number is the fingerprint of a station or of
/// a registration, or a minute.
pub(crate) type Key = (u64, u64);

/// Adds the keys to a set, using reserved room. Allocates no memory.
pub(crate) fn enter(held: &mut Keys<Key>, coming: &[Key])
    requires room { length coming.now ≤ held.old.room }
    ensures { (q : ℕ × ℕ) → is_held key_cmp q held.new.keys
        ≡ (is_held key_cmp q coming.now || is_held key_cmp q held.old.keys) }
{
    for key in coming {
        held.put_reserved(*key);
    }
}

// Turns keys into the entries that a set is built from.
fn entries_of(alloc: Global, keys: &[Key]) -> Result<Vec<(Key, ())>, OutOfMemory>
    ensures { IfOk result (λ entries. keys_of entries.items ≡ keys.now) }
{
    let mut entries = Vec::with_capacity(alloc, keys.len())?;
    for key in keys {
        entries.push((*key, ()))?;
    }
    Ok(entries)
}

/// Builds a set from keys, sorting them once.
pub(crate) fn set_of(alloc: Global, keys: &[Key]) -> Result<Keys<Key>, OutOfMemory>
    ensures { IfOk result (λ set. (q : ℕ × ℕ) → is_held key_cmp q set.keys ≡ is_held key_cmp q keys.now) }
{
    let entries = entries_of(alloc, keys)?;
    Ok(Keys::from_vec(entries))
}

ghost use Rattle.std.specs.Prelude.{◌≡◌, ◌≤◌, ◌+◌, ◌&&◌, ◌||◌, [], Bool, OnOk, filter, length, not};
ghost use Rattle.std.specs.List.Sorted.{IsStrictlySortedBy};
ghost use Rattle.std.specs.Map.{keys_of};
ghost use Rattle.std.specs.BTreeMap.{is_at};
ghost use Rattle.std.specs.Fn.{ComputesKey};
ghost use Rattle.std.specs.Ordering.{is_ge};
ghost use Rattle.desk_io.specs.Keys.{is_held};
ghost use Rattle.desk_io.specs.Sorted.{within};

use crate::faults::OutOfMemory;
use crate::vector::Sorted;
use std::alloc::Global;
use std::marker::Model;

/// A set of keys, stored in a vector in increasing order. Contracts model the keys in order and the spare capacity.
/// Only `reserve` allocates memory.
#[derive(Drop)]
pub struct Keys<K: Ord> {
    held: Sorted<K, ()>,
}

impl<K: Ord> Model for Keys<K> {
    ghost use Rattle.desk_io.specs.Keys.{KeySet, keys_in};

    ghost Value = { KeySet K };

    ghost view = { λ s. keys_in s.held };
}

impl<K: Ord + Drop> Keys<K> {
    /// Creates an empty set.
    pub fn new(alloc: Global) -> Keys<K>
        ensures { result.keys ≡ [] }
    {
        Keys {
            held: Sorted::new(alloc),
        }
    }

    /// Returns the keys in order.
    pub fn as_slice(&self) -> &[(K, ())]
        ensures value { keys_of result.now ≡ self.now.keys }
        ensures sorted { IsStrictlySortedBy K.cmp (keys_of result.now) }
    {
        self.held.as_slice()
    }

    /// Returns true if the set contains this key.
    pub fn has(&self, key: &K) -> bool
        ensures { result ≡ is_held K.cmp key.now self.now.keys }
    {
        self.held.get(key).is_some()
    }

    /// Returns the keys from `low` to `high`, both included, in order.
    pub fn run(&self, low: &K, high: &K) -> &[(K, ())]
        ensures value { keys_of result.now ≡ filter (within K.cmp low.now high.now) self.now.keys }
        ensures sorted { IsStrictlySortedBy K.cmp (keys_of result.now) }
    {
        self.held.run(low, high)
    }

    /// Reserves room for `more` additional keys. Keys and room that were there remain, even if memory runs out.
    pub fn reserve(&mut self, more: usize) -> Result<(), OutOfMemory>
        ensures same { self.new.keys ≡ self.old.keys }
        ensures kept { self.old.room ≤ self.new.room }
        ensures room { OnOk result (more ≤ self.new.room) }
    {
        self.held.reserve(more)
    }

    /// Adds the key. Room for one key must be reserved.
    pub fn put_reserved(&mut self, key: K)
        requires room { 1 ≤ self.old.room }
        ensures each { (q : K) → is_held K.cmp q self.new.keys
            ≡ (is_at (K.cmp q) key || is_held K.cmp q self.old.keys) }
        ensures room { self.old.room ≤ self.new.room + 1 }
    {
        self.held.put_reserved(key, ());
    }

    /// Removes the key, and returns whether it was present.
    pub fn take(&mut self, key: &K) -> bool
        ensures value { result ≡ is_held K.cmp key.now self.old.keys }
        ensures each { (q : K) → is_held K.cmp q self.new.keys
            ≡ (not (is_at (K.cmp q) key.now) && is_held K.cmp q self.old.keys) }
        ensures room { self.old.room ≤ self.new.room }
    {
        self.held.remove(key).is_some()
    }
}

impl<K: Ord + Drop> Keys<K> {
    /// Builds a set from the keys of a vector. Sorts them in place and drops duplicates.
    pub fn from_vec(keys: Vec<(K, ())>) -> Keys<K>
        ensures { (q : K) → is_held K.cmp q result.keys ≡ is_held K.cmp q (keys_of keys.items) }
    {
        let mut rising = keys;
        rising.sort_unstable();
        rising.dedup();
        Keys {
            held: Sorted::from_vec(rising),
        }
    }

    /// Returns the keys at or above `low`, in order.
    pub fn from(&self, low: &K) -> &[(K, ())]
        ensures value { keys_of result.now ≡ filter (λ k. is_ge (K.cmp k low.now)) self.now.keys }
        ensures sorted { IsStrictlySortedBy K.cmp (keys_of result.now) }
    {
        self.held.from(low)
    }

    /// Keeps only the keys that pass the test.
    pub fn retain<F: FnMut(&(K, ())) -> bool>(&mut self, test: F)
        requires { F.IsAlwaysCallable test }
        ensures keys { (p : K → Bool) → ComputesKey F.FnMut (λ e. p e.0) test
            → self.new.keys ≡ filter p self.old.keys }
        ensures room { self.old.room ≤ self.new.room }
    {
        self.held.retain(test);
    }
}

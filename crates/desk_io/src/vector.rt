ghost use Rattle.std.specs.Prelude.{◌≡◌, ◌≤◌, ◌+◌, [], Bool, IfOk, IfErr, OnOk, filter, if◌then◌else◌, None, Some};
ghost use Rattle.std.specs.Option.{option_copied, option_map};
ghost use Rattle.std.specs.Fn.{ComputesKey};
ghost use Rattle.std.specs.List.Sorted.{IsStrictlySortedBy};
ghost use Rattle.std.specs.Map.{lookup, keys_of, remove_entry};
ghost use Rattle.std.specs.BTreeMap.{insert_entry, is_at};
ghost use Rattle.std.specs.Ordering.{is_ge, is_le, is_lt};
ghost use Rattle.desk_io.specs.Sorted.{IsFoundAt, IsGapAt, if_below, within};

use crate::faults::OutOfMemory;
use std::alloc::Global;
use std::cmp::Ordering;
use std::marker::Model;

/// A sorted map: values looked up by key, stored in a vector in increasing order of the keys. No key occurs twice.
/// Contracts model the entries in order and the spare capacity. Only `reserve` allocates memory.
#[derive(Drop)]
pub struct Sorted<K: Ord, V> {
    held: Vec<(K, V)>,
}

impl<K: Ord, V> Model for Sorted<K, V> {
    ghost use Rattle.std.specs.List.Sorted.{IsStrictlySortedBy};
    ghost use Rattle.std.specs.Map.{keys_of};
    ghost use Rattle.desk_io.specs.Sorted.{Entries, entries_in};

    ghost Value = { Entries K V };

    ghost view = { λ s. entries_in s.held };

    ghost invariant = { λ s. IsStrictlySortedBy K.cmp (keys_of s.held.items) };
}

// The entries with keys at or above `low`, found by binary search.
fn not_below<'a, K: Ord, V>(entries: &'a [(K, V)], low: &K) -> &'a [(K, V)]
    requires { IsStrictlySortedBy K.cmp (keys_of entries.now) }
    ensures value { result.now ≡ filter (λ e. is_ge (K.cmp e.0 low.now)) entries.now }
    ensures sorted { IsStrictlySortedBy K.cmp (keys_of result.now) }
{
    let place = entries.partition_point(
        |entry: &(K, V)| -> bool
            ensures { result ≡ is_lt (K.cmp entry.now.0 low.entry.now) }
        { entry.0.cmp(low).is_lt() },
    );
    &entries[place..]
}

// The entries with keys at or below `high`, found by binary search.
fn not_above<'a, K: Ord, V>(entries: &'a [(K, V)], high: &K) -> &'a [(K, V)]
    requires { IsStrictlySortedBy K.cmp (keys_of entries.now) }
    ensures value { result.now ≡ filter (λ e. is_le (K.cmp e.0 high.now)) entries.now }
    ensures sorted { IsStrictlySortedBy K.cmp (keys_of result.now) }
{
    let place = entries.partition_point(
        |entry: &(K, V)| -> bool
            ensures { result ≡ is_le (K.cmp entry.now.0 high.entry.now) }
        { entry.0.cmp(high).is_le() },
    );
    &entries[..place]
}

impl<K: Ord + Drop, V: Drop> Sorted<K, V> {
    /// Creates an empty map.
    pub fn new(alloc: Global) -> Sorted<K, V>
        ensures { result.entries ≡ [] }
    {
        Sorted {
            held: Vec::new(alloc),
        }
    }

    /// Returns the entries in order of their keys.
    pub fn as_slice(&self) -> &[(K, V)]
        ensures value { result.now ≡ self.now.entries }
        ensures sorted { IsStrictlySortedBy K.cmp (keys_of result.now) }
    {
        &self.held
    }

    /// Looks up the value of this key by binary search.
    pub fn get(&self, key: &K) -> Option<&V>
        ensures { option_copied result ≡ lookup (is_at (K.cmp key.now)) self.now.entries }
    {
        match self.place(key) {
            Ok(i) => Some(&self.held[i].1),
            Err(_) => None,
        }
    }

    /// Returns the entries with keys from `low` to `high`, both included, in order.
    pub fn run(&self, low: &K, high: &K) -> &[(K, V)]
        ensures value { result.now ≡ filter (λ e. within K.cmp low.now high.now e.0) self.now.entries }
        ensures sorted { IsStrictlySortedBy K.cmp (keys_of result.now) }
    {
        not_above(not_below(self.as_slice(), low), high)
    }

    /// Reserves room for `more` additional keys. Entries and room that were there remain, even if memory runs out.
    pub fn reserve(&mut self, more: usize) -> Result<(), OutOfMemory>
        ensures same { self.new.entries ≡ self.old.entries }
        ensures kept { self.old.room ≤ self.new.room }
        ensures room { OnOk result (more ≤ self.new.room) }
    {
        self.held.reserve(more)?;
        Ok(())
    }

    /// Inserts the key and its value, or replaces the value of a key that is present. Room for one key must be
    /// reserved.
    pub fn put_reserved(&mut self, key: K, value: V)
        requires room { 1 ≤ self.old.room }
        ensures entries { self.new.entries ≡ insert_entry K.cmp self.old.entries key value }
        ensures each { (q : K) → lookup (is_at (K.cmp q)) self.new.entries
            ≡ (if is_at (K.cmp q) key then Some value else lookup (is_at (K.cmp q)) self.old.entries) }
        ensures room { self.old.room ≤ self.new.room + 1 }
    {
        match self.place(&key) {
            Ok(i) => self.held[i].1 = value,
            Err(i) => match self.held.insert(i, (key, value)) {
                Ok(()) => {}
                Err(_) => unreachable!(),
            },
        }
    }

    /// Removes the key and returns its value.
    pub fn remove(&mut self, key: &K) -> Option<V>
        ensures value { result ≡ lookup (is_at (K.cmp key.now)) self.old.entries }
        ensures entries { self.new.entries ≡ remove_entry (is_at (K.cmp key.now)) self.old.entries }
        ensures each { (q : K) → lookup (is_at (K.cmp q)) self.new.entries
            ≡ (if is_at (K.cmp q) key.now then None else lookup (is_at (K.cmp q)) self.old.entries) }
        ensures room { self.old.room ≤ self.new.room }
    {
        match self.place(key) {
            Ok(i) => Some(self.held.remove(i).1),
            Err(_) => None,
        }
    }

    /// Replaces the value of a key that is present. Otherwise nothing changes.
    pub fn replace(&mut self, key: &K, value: V)
        ensures keys { keys_of self.new.entries ≡ keys_of self.old.entries }
        ensures each { (q : K) → lookup (is_at (K.cmp q)) self.new.entries
            ≡ (if is_at (K.cmp q) key.now then option_map (λ _. value)
            (lookup (is_at (K.cmp q)) self.old.entries) else lookup (is_at (K.cmp q)) self.old.entries) }
    {
        if let Ok(i) = self.place(key) {
            self.held[i].1 = value;
        }
    }

    /// Sets the value of every key.
    pub fn set_all(&mut self, value: V)
    where
        V: Copy,
        ensures keys { keys_of self.new.entries ≡ keys_of self.old.entries }
        ensures each { (q : K) → lookup (is_at (K.cmp q)) self.new.entries
            ≡ option_map (λ _. value) (lookup (is_at (K.cmp q)) self.old.entries) }
    {
        for place in 0..self.held.len() {
            self.held[place].1 = value;
        }
    }

    // `Ok` holds the index of the key, `Err` the index at which to insert it.
    fn place(&self, key: &K) -> Result<usize, usize>
        ensures found { IfOk result (IsFoundAt K.cmp key.now self.now.entries) }
        ensures absent { IfErr result (IsGapAt K.cmp key.now self.now.entries) }
    {
        self.held.binary_search_by(
            |entry: &(K, V)| -> Ordering
                ensures { result ≡ K.cmp entry.now.0 key.entry.now }
            { entry.0.cmp(key) },
        )
    }
}

impl<K: Ord + Drop> Sorted<K, usize> {
    /// Removes each entry whose value is at or above the limit.
    pub fn keep_below(&mut self, limit: usize)
        ensures { (q : K) → lookup (is_at (K.cmp q)) self.new.entries
            ≡ if_below limit (lookup (is_at (K.cmp q)) self.old.entries) }
    {
        let mut to = 0;
        for from in 0..self.held.len() {
            if self.held[from].1 < limit {
                self.held.swap(to, from);
                to += 1;
            }
        }
        self.held.truncate(to);
    }
}

impl<K: Ord + Drop, V: Drop> Sorted<K, V> {
    /// Wraps a vector whose keys strictly increase.
    pub fn from_vec(held: Vec<(K, V)>) -> Sorted<K, V>
        requires { IsStrictlySortedBy K.cmp (keys_of held.items) }
        ensures { result.entries ≡ held.items }
    {
        Sorted { held }
    }

    /// Returns the entries with keys at or above `low`, in order.
    pub fn from(&self, low: &K) -> &[(K, V)]
        ensures value { result.now ≡ filter (λ e. is_ge (K.cmp e.0 low.now)) self.now.entries }
        ensures sorted { IsStrictlySortedBy K.cmp (keys_of result.now) }
    {
        not_below(self.as_slice(), low)
    }

    /// Keeps only the entries that pass the test.
    pub fn retain<F: FnMut(&(K, V)) -> bool>(&mut self, test: F)
        requires { F.IsAlwaysCallable test }
        ensures entries { (p : K × V → Bool) → ComputesKey F.FnMut p test
            → self.new.entries ≡ filter p self.old.entries }
        ensures room { self.old.room ≤ self.new.room }
    {
        self.held.retain(test);
    }
}

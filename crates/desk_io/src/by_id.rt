ghost use Rattle.std.specs.Prelude.{◌≡◌, ◌≤◌, ◌<◌, ◌+◌, ◌==◌, ◌++◌, ◌∷◌, [], ℕ, Bool, All, find, position, filter, length, IfSome, IfOk, IfErr, OnOk, OnErr};
ghost use Rattle.std.specs.List.{list_any};
ghost use Rattle.std.specs.Option.{option_copied};
ghost use Rattle.std.specs.Fn.{ComputesKey};
ghost use Rattle.desk_io.specs.ById as spec;
ghost use Rattle.desk_io.specs.ById.{AreRising, has_id, IsFoundAt, IsGapAt};

use crate::faults::OutOfMemory;
use std::alloc::Global;
use std::marker::Model;

/// A value with a numeric id.
pub trait HasId: Sized + Drop {
    ghost id_of: { Self → ℕ };

    /// Returns the id.
    fn id(&self) -> u64
        ensures { result ≡ id_of self.now };
}

/// Values looked up by id, stored in a vector in increasing order of the ids. No two values share an id. Contracts
/// model the values in order and the spare capacity. Only `reserve` allocates memory.
#[derive(Drop)]
pub struct ById<T: HasId> {
    held: Vec<T>,
}

impl<T: HasId> Model for ById<T> {
    ghost use Rattle.desk_io.specs.ById.{Ordered, ordered_in, AreRising};

    ghost Value = { Ordered T };

    ghost view = { λ s. ordered_in s.held };

    ghost invariant = { λ s. AreRising T.id_of s.held.items };
}

impl<T: HasId> ById<T> {
    /// Creates an empty collection.
    pub fn new(alloc: Global) -> ById<T>
        ensures { result.list ≡ [] }
    {
        ById {
            held: Vec::new(alloc),
        }
    }

    /// Wraps a vector whose ids strictly increase.
    pub fn from_vec(held: Vec<T>) -> ById<T>
        requires { AreRising T.id_of held.items }
        ensures { result.list ≡ held.items }
    {
        ById { held }
    }

    /// Returns the values in order of their ids.
    pub fn as_slice(&self) -> &[T]
        ensures value { result.now ≡ self.now.list }
        ensures rising { AreRising T.id_of self.now.list }
    {
        &self.held
    }

    /// Returns the number of values.
    pub fn len(&self) -> usize
        ensures { result ≡ length self.now.list }
    {
        self.held.len()
    }

    /// Returns true if there are no values.
    pub fn is_empty(&self) -> bool
        ensures { result ≡ (length self.now.list == 0) }
    {
        self.held.is_empty()
    }

    /// Looks up the value with this id by binary search.
    pub fn get(&self, id: u64) -> Option<&T>
        ensures { option_copied result ≡ find (has_id T.id_of id) self.now.list }
    {
        match self.place(id) {
            Ok(i) => Some(&self.held[i]),
            Err(_) => None,
        }
    }

    /// Returns the index of the value with this id.
    pub fn position_of(&self, id: u64) -> Option<usize>
        ensures value { result ≡ position (has_id T.id_of id) self.now.list }
        ensures within { IfSome result (λ i. i < length self.now.list) }
    {
        match self.place(id) {
            Ok(i) => Some(i),
            Err(_) => None,
        }
    }

    /// Returns true if a value has this id.
    pub fn has(&self, id: u64) -> bool
        ensures { result ≡ list_any (has_id T.id_of id) self.now.list }
    {
        self.get(id).is_some()
    }

    /// Reserves room for `more` additional values. If memory runs out, nothing changes.
    pub fn reserve(&mut self, more: usize) -> Result<(), OutOfMemory>
        ensures same { self.new.list ≡ self.old.list }
        ensures kept { self.old.room ≤ self.new.room }
        ensures ok { OnOk result (more ≤ self.new.room) }
        ensures err { OnErr result (self.new ≡ self.old) }
    {
        self.held.reserve(more)?;
        Ok(())
    }

    /// Appends a value, using reserved room. Its id must be above all others.
    pub fn push_reserved(&mut self, value: T)
        requires newest { All (λ x. T.id_of x < T.id_of value) self.old.list }
        requires room { 1 ≤ self.old.room }
        ensures list { self.new.list ≡ self.old.list ++ value ∷ [] }
        ensures room { self.new.room + 1 ≡ self.old.room }
    {
        self.held.push_reserved(value);
    }

    /// Inserts a value, or replaces the value with the same id. Room for one value must be reserved.
    pub fn put_reserved(&mut self, value: T)
        requires room { 1 ≤ self.old.room }
        ensures list { self.new.list ≡ spec.put T.id_of value self.old.list }
        ensures room { self.old.room ≤ self.new.room + 1 }
    {
        match self.place(value.id()) {
            Ok(i) => self.held[i] = value,
            Err(i) => match self.held.insert(i, value) {
                Ok(()) => {}
                Err(_) => unreachable!(),
            },
        }
    }

    /// Replaces the value with the same id. Without such a value, nothing changes.
    pub fn replace(&mut self, value: T)
        ensures list { self.new.list ≡ spec.replaced T.id_of value self.old.list }
        ensures room { self.new.room ≡ self.old.room }
    {
        if let Ok(i) = self.place(value.id()) {
            self.held[i] = value;
        }
    }

    /// Removes the value with this id and returns it.
    pub fn take(&mut self, id: u64) -> Option<T>
        ensures value { result ≡ find (has_id T.id_of id) self.old.list }
        ensures list { self.new.list ≡ spec.without T.id_of id self.old.list }
        ensures room { self.old.room ≤ self.new.room }
        ensures freed { IfSome result (λ _. self.old.room + 1 ≡ self.new.room) }
    {
        match self.place(id) {
            Ok(i) => Some(self.held.remove(i)),
            Err(_) => None,
        }
    }

    /// Keeps only the values that pass the test.
    pub fn retain<F: FnMut(&T) -> bool>(&mut self, test: F)
        requires { F.IsAlwaysCallable test }
        ensures list { (p : T → Bool) → ComputesKey F.FnMut p test
            → self.new.list ≡ filter p self.old.list }
        ensures room { self.old.room ≤ self.new.room }
    {
        self.held.retain(test);
    }

    // `Ok` holds the index of the value with this id, `Err` the index at which to insert it.
    fn place(&self, id: u64) -> Result<usize, usize>
        ensures found { IfOk result (IsFoundAt T.id_of id self.now.list) }
        ensures absent { IfErr result (IsGapAt T.id_of id self.now.list) }
        ensures rising { AreRising T.id_of self.now.list }
    {
        self.held.binary_search_by_key(&id, |value| value.id())
    }
}

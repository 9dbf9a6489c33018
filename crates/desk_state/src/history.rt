ghost use Rattle.std.specs.Prelude.{◌≡◌, ◌<◌, ◌||◌, ◌==◌, [], ◌∷◌, ◌++◌, length, false, IsTrue, slice_get, Some, OnOk};
ghost use Rattle.desk_state.specs.History.{entries_with};

use crate::entry::Entry;
use crate::past::Past;
use desk_io::OutOfMemory;
use std::alloc::Global;
use std::marker::Model;

/// The entries of the history, in order. At run time it either stores the entries or only counts them. Contracts
/// model all entries, whether room for one more is reserved, and whether entries are stored.
#[derive(Drop)]
pub struct History {
    // The entries, if they are stored.
    held: Option<Vec<Entry>>,
    count: usize,
    past: Past,
    room: bool,
}

impl Model for History {
    ghost use Rattle.std.specs.Prelude.{◌≡◌, ◌<◌, true, length, is_some, IfSome, vec_len};
    ghost use Rattle.std.specs.Vec.{vec_capacity};
    ghost use Rattle.desk_state.specs.History.{Entries, entries_with};

    ghost Value = { Entries };

    ghost view = { λ h. entries_with h.past.list h.room (is_some h.held) };

    ghost invariant = { λ h. (h.count ≡ length h.past.list) × IfSome h.held (λ v. v.items ≡ h.past.list)
        × (h.room ≡ true → h.count < 18_446_744_073_709_551_615)
        × (h.room ≡ true → IfSome h.held (λ v. vec_len v < vec_capacity v)) };
}

impl History {
    /// Creates an empty history that only counts its entries. Allocates no memory.
    pub fn new() -> History
        ensures { result ≡ entries_with [] false false }
    {
        History {
            held: None,
            count: 0,
            past: Past::new(),
            room: false,
        }
    }

    /// Returns the number of entries.
    pub fn len(&self) -> usize
        ensures { result ≡ length self.now.list }
    {
        self.count
    }

    /// Returns true if the entries are stored.
    pub fn is_listed(&self) -> bool
        ensures { result ≡ self.now.listed }
    {
        self.held.is_some()
    }

    /// Returns an entry, counted from 0. The entries must be stored.
    pub fn get(&self, i: usize) -> &Entry
        requires bound { i < length self.now.list }
        requires listed { IsTrue self.now.listed }
        ensures { slice_get self.now.list i ≡ Some result.now }
    {
        match &self.held {
            Some(held) => &held[i],
            None => unreachable!(),
        }
    }

    /// If the history is empty, stores its entries from now on. Otherwise it stores or counts them as before.
    /// Discards reserved room, and allocates no memory.
    pub fn hold_entries(&mut self, alloc: Global)
        ensures { self.new ≡ entries_with self.old.list false (self.old.listed || (length self.old.list == 0)) }
    {
        self.room = false;
        if self.count == 0 {
            self.held = Some(Vec::new(alloc));
        }
    }

    /// Reserves room for one more entry.
    pub fn reserve(&mut self) -> Result<(), OutOfMemory>
        ensures same { self.new.list ≡ self.old.list }
        ensures listed { self.new.listed ≡ self.old.listed }
        ensures room { OnOk result (IsTrue self.new.room) }
    {
        if self.count == usize::MAX {
            return Err(OutOfMemory);
        }
        if let Some(held) = &mut self.held {
            held.reserve(1)?;
        }
        self.room = true;
        Ok(())
    }

    /// Appends an entry, using reserved room. Allocates no memory.
    pub fn push_reserved(&mut self, entered: Entry)
        requires { IsTrue self.old.room }
        ensures { self.new ≡ entries_with (self.old.list ++ entered ∷ []) false self.old.listed }
    {
        self.room = false;
        self.count += 1;
        self.past = Past::with(&self.past, &entered);
        match &mut self.held {
            Some(held) => held.push_reserved(entered),
            None => {}
        }
    }
}

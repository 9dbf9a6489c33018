ghost use Rattle.std.specs.Prelude.{◌≡◌, ◌≤◌, ◌<◌, ◌++◌, ◌∷◌, [], length, map, true, false, find, position, remove, is_some, IfNone, IfSome, IfOk, OnOk, OnErr};
ghost use Rattle.std.specs.List.{list_any};
ghost use Rattle.std.specs.Option.{option_copied};
ghost use Rattle.deferrals.specs.Held.{AreRising, IsNewest, has_id, without};
ghost use Rattle.deferrals.specs.Limits.{open_on};

use crate::by_tail::{TailKey, all_keys, deferral_of, key_of, open_among, position_of};
use crate::items::Deferral;
use desk_io::{Keys, OutOfMemory};
use std::alloc::Global;
use std::marker::Model;

/// The largest number of open deferrals.
pub const DEFERRAL_LIMIT: usize = 50_000;

/// The open deferrals in increasing order of their ids. Contracts model them as a list, and whether room for one more
/// is reserved.
#[derive(Drop)]
pub struct Deferrals {
    held: Vec<Deferral>,
    // One key for each deferral.
    by_tail: Keys<TailKey>,
    room: bool,
}

impl Model for Deferrals {
    ghost use Rattle.std.specs.Prelude.{◌≡◌, ◌≤◌, ◌<◌, true, vec_len, vec_capacity};
    ghost use Rattle.deferrals.specs.ByTail.{AreKeysOf};
    ghost use Rattle.deferrals.specs.Held.{OpenDeferrals, AreRising};

    ghost Value = { OpenDeferrals };

    ghost view = { λ d. record { list = d.held.items; room = d.room } };

    ghost invariant = { λ d. (vec_len d.held ≤ 50_000) × AreRising d.held.items
        × AreKeysOf d.held.items d.by_tail.keys × (d.room ≡ true → 1 ≤ d.by_tail.room)
        × (d.room ≡ true → vec_len d.held < vec_capacity d.held) };
}

// Returns the index of the deferral of this id.
fn place_of(held: &[Deferral], id: u64) -> Option<usize>
    requires { AreRising held.now }
    ensures place { result ≡ position (has_id id) held.now }
    ensures answer { list_any (has_id id) held.now ≡ is_some result }
    ensures none { IfNone result (without id held.now ≡ held.now) }
    ensures found { IfSome result (λ i. (i < length held.now) × (without id held.now ≡ remove held.now i)) }
{
    position_of(held, id)
}

impl Deferrals {
    /// Makes an empty list without reserved room. It allocates nothing.
    pub fn new(alloc: Global) -> Deferrals
        ensures { result ≡ record { list = []; room = false } }
    {
        Deferrals {
            held: Vec::new(alloc),
            by_tail: Keys::new(alloc),
            room: false,
        }
    }

    /// Takes a vector in which the ids increase, without reserved room. The keys of the aircraft are sorted once.
    pub fn from_vec(alloc: Global, held: Vec<Deferral>) -> Result<Deferrals, OutOfMemory>
        requires rising { AreRising held.items }
        requires few { length held.items ≤ DEFERRAL_LIMIT }
        ensures { IfOk result (λ made. made ≡ record { list = held.items; room = false }) }
    {
        let by_tail = all_keys(alloc, held.as_slice())?;
        Ok(Deferrals {
            held,
            by_tail,
            room: false,
        })
    }

    /// Returns the open deferrals in the order of their ids. It allocates nothing.
    pub fn as_slice(&self) -> &[Deferral]
        ensures list { result.now ≡ self.now.list }
        ensures count { length self.now.list ≤ DEFERRAL_LIMIT }
        ensures rising { AreRising self.now.list }
    {
        self.held.as_slice()
    }

    /// Returns the open deferrals of an aircraft in the order of their ids. It finds them by binary search.
    pub fn open_on(&self, alloc: Global, tail: &[u8]) -> Result<Vec<&Deferral>, OutOfMemory>
        ensures value { IfOk result (λ v. map (λ d. d.now) v.items ≡ open_on tail.now self.now.list) }
        ensures count { IfOk result (λ v. length v.items ≤ length self.now.list) }
        ensures limit { length self.now.list ≤ DEFERRAL_LIMIT }
    {
        open_among(alloc, self.held.as_slice(), &self.by_tail, tail)
    }

    /// Returns the deferral of this id, by binary search. It allocates nothing.
    pub fn get(&self, id: u64) -> Option<&Deferral>
        ensures { option_copied result ≡ find (has_id id) self.now.list }
    {
        deferral_of(self.held.as_slice(), id)
    }

    /// Returns true if the deferral of this id is open. It uses binary search and allocates nothing.
    pub fn has(&self, id: u64) -> bool
        ensures { result ≡ list_any (has_id id) self.now.list }
    {
        place_of(self.held.as_slice(), id).is_some()
    }

    /// Reserves room for one more deferral. If memory runs out, nothing changes.
    pub fn reserve(&mut self) -> Result<(), OutOfMemory>
        ensures ok { OnOk result (self.new ≡ record { list = self.old.list; room = true }) }
        ensures err { OnErr result (self.new ≡ self.old) }
    {
        self.held.reserve(1)?;
        self.by_tail.reserve(1)?;
        self.room = true;
        Ok(())
    }

    /// Adds a deferral at the end, in the reserved room, which is then used up. It allocates nothing.
    pub fn add(&mut self, deferral: Deferral)
        requires room { self.old.room ≡ true }
        requires count { length self.old.list < DEFERRAL_LIMIT }
        requires newest { IsNewest deferral.id self.old.list }
        ensures { self.new ≡ record { list = self.old.list ++ deferral ∷ []; room = false } }
    {
        self.room = false;
        self.by_tail.put_reserved(key_of(&deferral));
        self.held.push_reserved(deferral);
    }

    /// Removes the deferral of this id. Returns false if there is none. The reserved room stays. It allocates
    /// nothing.
    pub fn clear(&mut self, id: u64) -> bool
        ensures answer { result ≡ list_any (has_id id) self.old.list }
        ensures after { self.new ≡ record { list = without id self.old.list; room = self.old.room } }
    {
        match place_of(&self.held, id) {
            None => false,
            Some(place) => {
                let gone = self.held.remove(place);
                let _ = self.by_tail.take(&key_of(&gone));
                true
            }
        }
    }
}

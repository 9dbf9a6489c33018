ghost use Rattle.std.specs.Prelude.{◌≡◌, ◌≤◌, ◌<◌, ◌+◌, ◌||◌, ℕ, [], filter, length, IfOk, IfSome, IsSome, IsTrue, None, Option, Some, OnOk, vec_len};
ghost use Rattle.std.specs.List.{AllByRecursion};
ghost use Rattle.std.specs.List.Sorted.{IsStrictlySortedBy};
ghost use Rattle.std.specs.BTreeMap.{is_at};
ghost use Rattle.std.specs.Map.{keys_of};
ghost use Rattle.std.specs.Ordering.{is_ge};
ghost use Rattle.std.specs.Vec.{vec_capacity};
ghost use Rattle.desk_io.specs.Keys.{is_held};
ghost use Rattle.kept_replies.specs.ByPerson as spec;
ghost use Rattle.kept_replies.specs.ByPerson.{HasOne, HaveOne, HasSameKeys, IsSpare, IsChangedAt, IsPut, IsKept, AreKept, at_place, in_set, keys_under, under};
ghost use Rattle.kept_replies.specs.Index.{Key, key_cmp, leads_to};

use crate::requests::keep_leading;
use asks::KeptReply;
use desk_io::{ById, Keys, OutOfMemory, Sorted};
use std::alloc::Global;
use std::marker::Model;

/// Keys of replies, in one set for each fingerprint of a name. Adding a key moves only keys of the same set.
/// Contracts model the keys under each fingerprint, and whether room for one more key is reserved.
#[derive(Drop)]
pub(crate) struct ByPerson {
    // The index of the set of a fingerprint.
    places: Sorted<u64, usize>,
    sets: Vec<Keys<(u64, u64, u64)>>,
    // A set for the next new fingerprint.
    spare: Option<Keys<(u64, u64, u64)>>,
    // The set that got the last key. It may have no room.
    last: Option<usize>,
    room: bool,
}

impl Model for ByPerson {
    ghost use Rattle.std.specs.Prelude.{vec_len};
    ghost use Rattle.std.specs.Vec.{vec_capacity};
    ghost use Rattle.kept_replies.specs.ByPerson.{PersonKeys, AreByPerson};

    ghost Value = { PersonKeys };

    ghost view = { λ r. record { places = r.places.entries; sets = r.sets.items; room = r.room } };

    ghost invariant = { λ r. AreByPerson r.places.entries r.places.room r.sets.items (vec_len r.sets)
        (vec_capacity r.sets) r.spare r.last r.room };
}

fn place_of(places: &Sorted<u64, usize>, mark: u64) -> Option<usize>
    ensures { result ≡ spec.place_of places.now.entries mark }
{
    places.get(&mark).copied()
}

// Returns the keys of the set at this index that are at or above `low`.
fn from_at<'a>(
    sets: &'a [Keys<(u64, u64, u64)>],
    place: usize,
    low: &(u64, u64, u64),
) -> &'a [((u64, u64, u64), ())]
    requires { place < length sets.now }
    ensures value { keys_of result.now ≡ filter (λ k. is_ge (key_cmp k low.now)) (at_place sets.now place) }
    ensures sorted { IsStrictlySortedBy key_cmp (keys_of result.now) }
{
    sets[place].from(low)
}

// Adds the key to the set at this index.
fn put_at(sets: &mut Vec<Keys<(u64, u64, u64)>>, place: usize, key: (u64, u64, u64))
    requires within { place < length sets.old.items }
    requires room { AllByRecursion HasOne sets.old.items }
    ensures { IsChangedAt (IsPut key) place sets.old.items sets.new.items }
{
    let set = &mut sets[place];
    set.put_reserved(key);
}

// Reserves room for one more key in the set at this index.
fn reserve_at(sets: &mut Vec<Keys<(u64, u64, u64)>>, place: usize) -> Result<(), OutOfMemory>
    requires within { place < length sets.old.items }
    requires have { HaveOne (Some place) sets.old.items }
    ensures same { IsChangedAt HasSameKeys place sets.old.items sets.new.items }
    ensures ok { OnOk result (HaveOne None sets.new.items) }
{
    let set = &mut sets[place];
    set.reserve(1)
}

// Removes the keys of the set at this index whose reply is gone.
fn keep_at(sets: &mut Vec<Keys<(u64, u64, u64)>>, place: usize, kept: &ById<KeptReply>)
    requires { place < length sets.old.items }
    ensures kept { IsChangedAt (IsKept (leads_to kept.now.list)) place sets.old.items sets.new.items }
    ensures many { vec_len sets.new ≡ vec_len sets.old }
    ensures capacity { vec_capacity sets.new ≡ vec_capacity sets.old }
{
    let set = &mut sets[place];
    keep_leading(set, kept);
}

fn keep_all(sets: &mut Vec<Keys<(u64, u64, u64)>>, kept: &ById<KeptReply>)
    ensures kept { AreKept (leads_to kept.now.list) sets.old.items sets.new.items }
    ensures many { vec_len sets.new ≡ vec_len sets.old }
    ensures capacity { vec_capacity sets.new ≡ vec_capacity sets.old }
{
    for place in 0..sets.len() {
        keep_at(sets, place, kept);
    }
}

// Reserves room for one more key in the set that may have none.
fn widen(sets: &mut Vec<Keys<(u64, u64, u64)>>, last: Option<usize>) -> Result<(), OutOfMemory>
    requires within { IfSome last (λ i. i < length sets.old.items) }
    requires have { HaveOne last sets.old.items }
    ensures same { (o : Option ℕ) → in_set sets.new.items o ≡ in_set sets.old.items o }
    ensures many { length sets.new.items ≡ length sets.old.items }
    ensures ok { OnOk result (HaveOne None sets.new.items) }
    ensures have { HaveOne last sets.new.items }
{
    match last {
        None => Ok(()),
        Some(place) => reserve_at(sets, place),
    }
}

fn spare_set(alloc: Global) -> Result<Keys<(u64, u64, u64)>, OutOfMemory>
    ensures { IfOk result IsSpare }
{
    let mut set = Keys::new(alloc);
    set.reserve(1)?;
    Ok(set)
}

fn provide(alloc: Global, spare: &mut Option<Keys<(u64, u64, u64)>>) -> Result<(), OutOfMemory>
    requires { IfSome spare.old IsSpare }
    ensures empty { IfSome spare.new IsSpare }
    ensures ok { OnOk result (IsSome spare.new) }
{
    if spare.is_none() {
        *spare = Some(spare_set(alloc)?);
    }
    Ok(())
}

// Adds the spare set at the end and returns its index.
fn add(sets: &mut Vec<Keys<(u64, u64, u64)>>, spare: &mut Option<Keys<(u64, u64, u64)>>) -> usize
    requires room { vec_len sets.old < vec_capacity sets.old }
    requires have { AllByRecursion HasOne sets.old.items }
    requires some { IsSome spare.old }
    requires empty { IfSome spare.old IsSpare }
    ensures place { result ≡ length sets.old.items }
    ensures many { length sets.new.items ≡ length sets.old.items + 1 }
    ensures have { AllByRecursion HasOne sets.new.items }
    ensures last { at_place sets.new.items result ≡ [] }
    ensures same { (i : ℕ) → i < length sets.old.items → at_place sets.new.items i ≡ at_place sets.old.items i }
    ensures spare { spare.new ≡ None }
{
    let place = sets.len();
    match spare.take() {
        Some(set) => sets.push_reserved(set),
        None => unreachable!(),
    }
    place
}

// Returns the index of the set of a fingerprint. A fingerprint without a set gets the spare set.
fn place_for(
    places: &mut Sorted<u64, usize>,
    sets: &mut Vec<Keys<(u64, u64, u64)>>,
    spare: &mut Option<Keys<(u64, u64, u64)>>,
    mark: u64,
) -> usize
    requires within { (m : ℕ) → IfSome (spec.place_of places.old.entries m) (λ i. i < length sets.old.items) }
    requires have { AllByRecursion HasOne sets.old.items }
    requires places { 1 ≤ places.old.room }
    requires room { vec_len sets.old < vec_capacity sets.old }
    requires some { IsSome spare.old }
    requires empty { IfSome spare.old IsSpare }
    ensures place { spec.place_of places.new.entries mark ≡ Some result }
    ensures within { (m : ℕ) → IfSome (spec.place_of places.new.entries m) (λ i. i < length sets.new.items) }
    ensures have { AllByRecursion HasOne sets.new.items }
    ensures empty { IfSome spare.new IsSpare }
    ensures under { (m : ℕ) → under places.new.entries sets.new.items m
        ≡ under places.old.entries sets.old.items m }
{
    if let Some(place) = place_of(places, mark) {
        return place;
    }
    let place = add(sets, spare);
    places.put_reserved(mark, place);
    place
}

impl ByPerson {
    /// Makes an index without keys and without reserved room. It allocates nothing.
    pub(crate) fn new(alloc: Global) -> ByPerson
        ensures { (m : ℕ) → keys_under result m ≡ [] }
    {
        ByPerson {
            places: Sorted::new(alloc),
            sets: Vec::new(alloc),
            spare: None,
            last: None,
            room: false,
        }
    }

    /// Returns the keys under the fingerprint of `low` that are at or above it, in order. It uses binary search.
    pub(crate) fn from(&self, low: &(u64, u64, u64)) -> &[((u64, u64, u64), ())]
        ensures value { keys_of result.now ≡ filter (λ k. is_ge (key_cmp k low.now)) (keys_under self.now low.now.0) }
        ensures sorted { IsStrictlySortedBy key_cmp (keys_of result.now) }
    {
        match place_of(&self.places, low.0) {
            None => &[],
            Some(place) => from_at(&self.sets, place, low),
        }
    }

    /// Reserves room for one more key.
    pub(crate) fn reserve(&mut self, alloc: Global) -> Result<(), OutOfMemory>
        ensures same { (m : ℕ) → keys_under self.new m ≡ keys_under self.old m }
        ensures kept { IsTrue self.old.room → IsTrue self.new.room }
        ensures room { OnOk result (IsTrue self.new.room) }
    {
        if self.room {
            return Ok(());
        }
        widen(&mut self.sets, self.last)?;
        self.last = None;
        self.places.reserve(1)?;
        self.sets.reserve(1)?;
        provide(alloc, &mut self.spare)?;
        self.room = true;
        Ok(())
    }

    /// Adds the key in the reserved room, which is then used up. It allocates nothing.
    pub(crate) fn put_reserved(&mut self, key: (u64, u64, u64))
        requires { IsTrue self.old.room }
        ensures { (q : Key) → is_held key_cmp q (keys_under self.new q.0)
            ≡ (is_at (key_cmp q) key || is_held key_cmp q (keys_under self.old q.0)) }
    {
        let place = place_for(&mut self.places, &mut self.sets, &mut self.spare, key.0);
        put_at(&mut self.sets, place, key);
        self.last = Some(place);
        self.room = false;
    }

    /// Removes the keys whose reply is gone. It allocates nothing.
    pub(crate) fn keep_leading(&mut self, kept: &ById<KeptReply>)
        ensures under { (m : ℕ) → keys_under self.new m ≡ filter (leads_to kept.now.list) (keys_under self.old m) }
        ensures room { self.new.room ≡ self.old.room }
    {
        keep_all(&mut self.sets, kept);
    }

    /// Makes an index of these keys.
    pub(crate) fn from_keys(
        alloc: Global,
        keys: &[((u64, u64, u64), ())],
    ) -> Result<ByPerson, OutOfMemory>
        ensures { IfOk result (λ r. (q : Key) → is_held key_cmp q (keys_under r q.0)
            ≡ is_held key_cmp q (keys_of keys.now)) }
    {
        let mut made = ByPerson::new(alloc);
        for pair in keys {
            made.reserve(alloc)?;
            made.put_reserved(pair.0);
        }
        Ok(made)
    }
}

ghost use Rattle.std.specs.Prelude.{◌≡◌, ◌-◌, List, ℕ, find, length, map, nat_lt, position, option_to_list, IfOk};
ghost use Rattle.std.specs.List.{slice_get};
ghost use Rattle.std.specs.Map.{keys_of};
ghost use Rattle.std.specs.Option.{option_copied};
ghost use Rattle.deferrals.specs.ByTail as spec;
ghost use Rattle.deferrals.specs.ByTail.{AreKeysOf};
ghost use Rattle.deferrals.specs.Held.{AreRising, has_id};
ghost use Rattle.deferrals.specs.Limits.{is_of, open_on};

use crate::items::Deferral;
use desk_io::{Keys, OutOfMemory};
use std::alloc::Global;

/// The number of an aircraft's registration and the id of a deferral.
pub(crate) type TailKey = (u64, u64);

pub(crate) fn is_of(tail: &[u8], deferral: &Deferral) -> bool
    ensures { result ≡ is_of tail.now deferral.now }
{
    deferral.tail.bytes() == tail
}

/// Returns the number made of the last eight bytes of a registration.
#[tactic(auto, unfolding(crate::specs::ByTail::tail_number))]
pub(crate) fn tail_number(tail: &[u8]) -> u64
    ensures { result ≡ spec.tail_number tail.now }
{
    let mut number: u64 = 0;
    for byte in tail {
        number = number.wrapping_mul(256).wrapping_add(*byte as u64);
    }
    number
}

pub(crate) fn key_of(deferral: &Deferral) -> TailKey
    ensures { result ≡ spec.key_of deferral.now }
{
    (tail_number(deferral.tail.bytes()), deferral.id)
}

fn listed_keys(alloc: Global, held: &[Deferral]) -> Result<Vec<(TailKey, ())>, OutOfMemory>
    ensures { IfOk result (λ keys. keys.items ≡ map spec.entry_of held.now) }
{
    let mut keys = Vec::with_capacity(alloc, held.len())?;
    for deferral in held {
        keys.push((key_of(deferral), ()))?;
    }
    Ok(keys)
}

/// Returns the keys of the deferrals, sorted once.
pub(crate) fn all_keys(alloc: Global, held: &[Deferral]) -> Result<Keys<TailKey>, OutOfMemory>
    ensures { IfOk result (λ keys. AreKeysOf held.now keys.keys) }
{
    Ok(Keys::from_vec(listed_keys(alloc, held)?))
}

// Returns the index of the first deferral whose id is at least this, by binary search.
fn place_from(held: &[Deferral], id: u64) -> usize
    requires { AreRising held.now }
    ensures place { spec.place_if id result (slice_get held.now result) ≡ position (has_id id) held.now }
    ensures open { (tail : List ℕ) → spec.open_if tail id (slice_get held.now result)
        ≡ spec.open_as tail id held.now }
{
    held.partition_point(
        |deferral: &Deferral| -> bool
            ensures { result ≡ nat_lt deferral.now.id id }
        { deferral.id < id },
    )
}

/// Finds the index of a deferral by its id, by binary search.
pub(crate) fn position_of(held: &[Deferral], id: u64) -> Option<usize>
    requires { AreRising held.now }
    ensures { result ≡ position (has_id id) held.now }
{
    let place = place_from(held, id);
    let deferral = held.get(place)?;
    if deferral.id == id { Some(place) } else { None }
}

fn standing_at(held: &[Deferral], place: usize) -> Option<&Deferral>
    ensures { option_copied result ≡ slice_get held.now place }
{
    held.get(place)
}

/// Finds a deferral by its id, by binary search.
#[tactic(auto, using(crate::proofs::Without::placed_none))]
pub(crate) fn deferral_of(held: &[Deferral], id: u64) -> Option<&Deferral>
    requires { AreRising held.now }
    ensures { option_copied result ≡ find (has_id id) held.now }
{
    let place = position_of(held, id)?;
    standing_at(held, place)
}

// Returns the deferral of this id if it belongs to the aircraft.
fn open_as<'a>(held: &'a [Deferral], id: u64, tail: &[u8]) -> Option<&'a Deferral>
    requires { AreRising held.now }
    ensures { option_to_list (option_copied result) ≡ spec.open_as tail.now id held.now }
{
    let deferral = held.get(place_from(held, id))?;
    if deferral.id == id && is_of(tail, deferral) {
        Some(deferral)
    } else {
        None
    }
}

fn open_by<'a>(
    alloc: Global,
    held: &'a [Deferral],
    keys: &[(TailKey, ())],
    tail: &[u8],
) -> Result<Vec<&'a Deferral>, OutOfMemory>
    requires { AreRising held.now }
    ensures { IfOk result (λ v. map (λ d. d.now) v.items ≡ spec.open_by tail.now held.now (keys_of keys.now)) }
{
    let mut open = Vec::new(alloc);
    for entry in keys {
        if let Some(deferral) = open_as(held, entry.0.1, tail) {
            open.push(deferral)?;
        }
    }
    Ok(open)
}

// Returns the last id; 0 if there is no deferral.
fn last_id(held: &[Deferral]) -> u64
    ensures { result ≡ spec.id_or_none (slice_get held.now (length held.now - 1)) }
{
    match held.last() {
        None => 0,
        Some(deferral) => deferral.id,
    }
}

/// Returns the open deferrals of an aircraft in the order of their ids, by their keys.
pub(crate) fn open_among<'a>(
    alloc: Global,
    held: &'a [Deferral],
    by_tail: &Keys<TailKey>,
    tail: &[u8],
) -> Result<Vec<&'a Deferral>, OutOfMemory>
    requires rising { AreRising held.now }
    requires keys { AreKeysOf held.now by_tail.now.keys }
    ensures { IfOk result (λ v. map (λ d. d.now) v.items ≡ open_on tail.now held.now) }
{
    let number = tail_number(tail);
    let run = by_tail.run(&(number, 0), &(number, last_id(held)));
    open_by(alloc, held, run, tail)
}

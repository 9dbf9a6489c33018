ghost use Rattle.std.specs.Prelude.{◌≡◌, ◌+◌, ◌≤◌, ℕ, length, if◌then◌else◌, OnOk};
ghost use Rattle.std.specs.Ordering.{nat_cmp};
ghost use Rattle.std.specs.Cmp.Lexicographic.{slice_cmp};
ghost use Rattle.asks.specs.Forms.{FloorsRise};
ghost use Rattle.decisions.specs.Floors as spec;
ghost use Rattle.desk_state.specs.Requests as requests;

use asks::Floor;
use desk_io::{Copied, OutOfMemory, Text};
use std::alloc::Global;
use std::cmp::Ordering;

// Finds the place of a person's floor by binary search, or the place at which to insert it. The flag is true if it
// was found.
fn place_of(floors: &[Floor], actor: &[u8]) -> (usize, bool)
    requires { FloorsRise floors.now }
    ensures within { result.0 + (if result.1 then 1 else 0) ≤ length floors.now }
    ensures place { (number : ℕ) → requests.raised_to actor.now number floors.now
        ≡ spec.raised_at result.0 result.1 actor.now number floors.now }
{
    match floors.binary_search_by(
        |floor: &Floor| -> Ordering
            ensures { result ≡ slice_cmp nat_cmp floor.now.actor actor.entry.now }
        { floor.actor.bytes().cmp(actor) },
    ) {
        Ok(i) => (i, true),
        Err(i) => (i, false),
    }
}

/// Raises the floor of a person to at least this number. The floors stay in byte order of the names.
pub(crate) fn raise(
    alloc: Global,
    floors: &mut Vec<Floor>,
    actor: &Text,
    number: u64,
) -> Result<(), OutOfMemory>
    requires { FloorsRise floors.old.items }
    ensures { OnOk result (floors.new.items ≡ requests.raised_to actor.now number floors.old.items) }
{
    let (place, found) = place_of(floors, actor.bytes());
    if found {
        let floor = &mut floors[place];
        floor.number = floor.number.max(number);
    } else {
        let actor = actor.copy(alloc)?;
        floors.insert(place, Floor { actor, number })?;
    }
    Ok(())
}

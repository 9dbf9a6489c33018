ghost use Rattle.std.specs.Prelude.{◌≡◌};
ghost use Rattle.std.specs.List.{find, slice_get};
ghost use Rattle.std.specs.Option.{option_and_then, option_copied};
ghost use Rattle.std.specs.Ordering.{nat_cmp};
ghost use Rattle.std.specs.Cmp.Lexicographic.{slice_cmp};
ghost use Rattle.std.specs.Str.{bytes_eq};
ghost use Rattle.kept_replies.specs.Requests as spec;
ghost use Rattle.kept_replies.specs.Requests.{FloorsRise};

use asks::Floor;
use std::cmp::Ordering;

fn place_of_actor(floors: &[Floor], actor: &[u8]) -> Option<usize>
    requires { FloorsRise floors.now }
    ensures { option_and_then (slice_get floors.now) result ≡ find (λ f. bytes_eq f.actor actor.now) floors.now }
{
    floors
        .binary_search_by(
            |floor: &Floor| -> Ordering
                ensures { result ≡ slice_cmp nat_cmp floor.now.actor actor.entry.now }
            { floor.actor.bytes().cmp(actor) },
        )
        .ok()
}

// Returns the floor at this index.
fn at_place(floors: &[Floor], place: Option<usize>) -> Option<&Floor>
    ensures { option_copied result ≡ option_and_then (slice_get floors.now) place }
{
    floors.get(place?)
}

/// Returns the floor of a person, by binary search.
pub(crate) fn floor_at(floors: &[Floor], actor: &[u8]) -> Option<u64>
    requires { FloorsRise floors.now }
    ensures { result ≡ spec.floor_at actor.now floors.now }
{
    let place = place_of_actor(floors, actor);
    let floor = at_place(floors, place)?;
    Some(floor.number)
}

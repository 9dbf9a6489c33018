ghost use Rattle.std.specs.Prelude.{◌∷◌, []};

use desk_io::Event;
use desk_time::Minute;

// A clock's answer to one call: a moment, or None for a failure.
#[derive(Drop)]
pub(crate) struct Answered(pub(crate) Option<Minute>);

impl Event<Option<Minute>> for Answered {
    ghost told = { λ a. a.0 ∷ [] };
}

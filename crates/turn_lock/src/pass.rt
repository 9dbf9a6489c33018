ghost use Rattle.turn_lock.specs.Views.{IsIdle, HasSlot};

use crate::listed::Listed;
use crate::view::View;
use atomic_table::Seat;

/// The right to take turns at one lock.
#[derive(Drop)]
pub struct Pass<T: Listed> {
    pub(crate) seat: Seat<Option<T>, View<T::Element>>,
    pub(crate) splits: u64,
    ghost idle: { IsIdle seat.me splits },
}

// The seat of a turn. It is separate from the value, so that borrowing the value leaves it alone.
pub(crate) struct Place<T: Listed> {
    pub(crate) seat: Seat<Option<T>, View<T::Element>>,
    pub(crate) splits: u64,
    ghost out: { HasSlot seat.me splits },
}

/// A turn in progress, with the lock's value.
pub struct Turn<T: Listed> {
    pub(crate) place: Place<T>,
    pub(crate) value: T,
}

impl<T: Listed> Turn<T> {
    ghost use Rattle.std.specs.Prelude.{◌≡◌};
    ghost use Rattle.std.specs.Borrow.{Lends, sem};
    ghost use Rattle.turn_lock.specs.contracts.pass.Turn.{the_row};
    ghost use Rattle.turn_lock.specs.Passes.{turn_value, with_value};

    /// Returns the value for reading and changing.
    pub fn value(&mut self) -> &mut T
        ensures* writes_back { sem 𝓛 (Lends (the_row T.row T.Element.row T.Listed) T.row self.entry
            result (with_value self.old)) }
        ensures value { result.now ≡ turn_value self.old }
    {
        &mut self.value
    }
}

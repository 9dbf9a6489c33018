//! What a pass learns from each kind of step.
use crate::listed::Listed;
use crate::view::View;
use atomic_table::{Join, Play, Split};

/// A step that draws a ticket.
pub struct Draw;

impl<T, E> Play<Option<T>, View<E>> for Draw {
    ghost use Rattle.turn_lock.specs.Plays.{Draws};

    ghost then = { Draws };
}

/// A step that reads which ticket is served. If it is the pass's own, the pass takes out the slot with the value.
pub struct Look;

impl<T: Listed> Play<Option<T>, View<T::Element>> for Look {
    ghost use Rattle.turn_lock.specs.Plays.{Looks};

    ghost then = { Looks T.list T.bears };
}

/// A step that counts the list of the value in the slot.
pub struct Count;

impl<T: Listed> Play<Option<T>, View<T::Element>> for Count {
    ghost use Rattle.turn_lock.specs.Plays.{Counts};

    ghost then = { Counts T.list };
}

/// A step that serves the next ticket and puts the slot back.
pub struct ServeNext;

impl<T, E> Play<Option<T>, View<E>> for ServeNext {
    ghost use Rattle.turn_lock.specs.Plays.{Serves};

    ghost then = { Serves };
}

/// A step that reads what the pass's last join left.
pub struct Compare;

impl<T: Listed> Play<Option<T>, View<T::Element>> for Compare {
    ghost use Rattle.turn_lock.specs.Plays.{Compares};

    ghost then = { Compares T.bears };
}

/// A step that puts the empty slot back.
pub struct Lower;

impl<T, E> Play<Option<T>, View<E>> for Lower {
    ghost use Rattle.turn_lock.specs.Plays.{Lowers};

    ghost then = { Lowers };
}

/// A step that takes the empty slot out.
pub struct Lift;

impl<T, E> Play<Option<T>, View<E>> for Lift {
    ghost use Rattle.turn_lock.specs.Plays.{Lifts};

    ghost then = { Lifts };
}

/// A split that gives a number to a new pass.
pub struct Part;

impl<E> Split<View<E>> for Part {
    ghost use Rattle.turn_lock.specs.Views.{parting, parted};

    ghost left = { parting };

    ghost right = { parted };
}

/// A join that takes another pass in.
pub struct TakeIn;

impl<E> Join<View<E>> for TakeIn {
    ghost use Rattle.turn_lock.specs.Views.{joined, spent};

    ghost both = { joined };

    ghost spent = { spent };
}

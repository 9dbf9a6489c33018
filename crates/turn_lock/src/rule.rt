use crate::listed::Listed;
use crate::view::View;
use atomic_table::TableRule;
use std::marker::PhantomData;

/// The rule of the table: turns are taken in the order of tickets.
pub struct Turns<T> {
    of: PhantomData<T>,
}

impl<T: Listed> TableRule<Option<T>, View<T::Element>, ()> for Turns<T> {
    ghost use Rattle.turn_lock.specs.Rule.{IsOrderly};
    ghost use Rattle.turn_lock.specs.Views.{opening_view};

    ghost holds = { λ _. IsOrderly T.list T.bears };

    ghost first = { λ _. opening_view };
}

ghost use Rattle.std.specs.Prelude.{◌≡◌};

use crate::listed::Listed;
use crate::pass::{Pass, Place, Turn};
use crate::plays::{Compare, Count, Draw, Lift, Look, Lower, Part, ServeNext, TakeIn};
use crate::rule::Turns;
use crate::sleepers::Sleepers;
use crate::view::View;
use atomic_table::Table;
use desk_io::OutOfMemory;
use std::alloc::Global;
use std::sync::Wait;

// Indexes of the table's words: the length of the list, and how many tickets were drawn and served.
const LENGTH: usize = 0;

const DRAWN: usize = 1;

const SERVED: usize = 2;

/// A lock around a value.
pub struct TurnLock<T: Listed> {
    table: Table<Option<T>, View<T::Element>, (), Turns<T>, Global>,
    sleepers: Sleepers,
    ghost sized: { (table.shared.table_id.words ≡ 3) × (table.shared.table_id.slots ≡ 1) },
}

/// Memory ran out, and the value is handed back.
#[derive(Drop)]
pub struct OutOfMemoryWith<T> {
    pub value: T,
}

impl<T: Listed> TurnLock<T> {
    ghost use Rattle.std.specs.Prelude.{ℕ, ◌+◌, ◌^◌, ◌<◌, ◌++◌, ◌∷◌, [], IfOk, IfErr, OnOk, OnErr};
    ghost use mathlib.Core.List.{IsPrefix};
    ghost use Rattle.turn_lock.specs.Elements.{AddsNoneOf, Continues, EachBears, HasNoneAbove};
    ghost use Rattle.turn_lock.specs.Passes.{IsNewPass, IsPassOf, IsSamePass, IsTurnOf, TakesIn, lock_id};
    ghost use Rattle.turn_lock.specs.Passes.{pass_lock, pass_number, pass_numbers, pass_seen, pass_splits};
    ghost use Rattle.turn_lock.specs.Passes.{turn_lock, turn_number, turn_taken, turn_value};

    /// Creates a lock with this value, and its first pass, number 0. Every element of the value's list must carry the
    /// number 0.
    pub fn new(alloc: Global, value: T) -> Result<(TurnLock<T>, Pass<T>), OutOfMemoryWith<T>>
        requires { EachBears T.bears 0 (T.list value) }
        ensures ok { IfOk result (λ r. IsNewPass (lock_id r.0) 0 (T.list value) r.1) }
        ensures err { IfErr result (λ e. e.value ≡ value) }
    {
        let Ok((table, mut seat)) = Table::vacant(alloc, &[0, 1, 0], 1, &()) else {
            return Err(OutOfMemoryWith { value });
        };
        table.shared.load::<Lift>(&mut seat, SERVED);
        let sleepers = Sleepers::new();
        let lock = TurnLock { table, sleepers };
        let pass = lock.give(Turn {
            place: Place { seat, splits: 0 },
            value,
        });
        Ok((lock, pass))
    }

    /// Creates a pass with the next number, which has seen what `pass` has seen. Only pass 0 can be split. The error
    /// means that all 64-bit numbers are used up. Allocates nothing.
    pub fn split(&self, pass: &mut Pass<T>) -> Result<Pass<T>, OutOfMemory>
        requires lock { pass_lock pass.old ≡ lock_id self.now }
        requires first { pass_number pass.old ≡ 0 }
        ensures part { IfOk result (IsNewPass (pass_lock pass.old) (pass_splits pass.old + 1) (pass_seen pass.old)) }
        ensures ok { OnOk result (pass_splits pass.new ≡ pass_splits pass.old + 1) }
        ensures kept { IsSamePass pass.old pass.new }
        ensures err { OnErr result (pass.new ≡ pass.old) }
        ensures full { OnErr result (pass_splits pass.old + 1 ≡ 2 ^ 64) }
    {
        if pass.splits == u64::MAX {
            return Err(OutOfMemory);
        }
        let seat = self.table.shared.split_seat::<Part>(&mut pass.seat);
        pass.splits += 1;
        Ok(Pass { seat, splits: 0 })
    }

    /// Takes the pass `other` into `pass`. Of the two prefixes that they have seen, the longer one remains. It adds
    /// no element of a pass's own numbers to what that pass had seen.
    pub fn join(&self, pass: &mut Pass<T>, other: Pass<T>)
        requires lock { pass_lock pass.old ≡ lock_id self.now }
        requires other { pass_lock other ≡ lock_id self.now }
        ensures takes_in { TakesIn pass.old other pass.new }
        ensures this { IsPrefix (pass_seen pass.old) (pass_seen pass.new) }
        ensures that { IsPrefix (pass_seen other) (pass_seen pass.new) }
        ensures own_this { AddsNoneOf T.bears (pass_numbers pass.old) (pass_seen pass.old) (pass_seen pass.new) }
        ensures own_that { AddsNoneOf T.bears (pass_numbers other) (pass_seen other) (pass_seen pass.new) }
    {
        let Pass {
            seat: other_seat,
            splits: _,
        } = other;
        let shared = &self.table.shared;
        shared.join_seat::<TakeIn>(&mut pass.seat, other_seat);
        shared.load::<Compare>(&mut pass.seat, SERVED);
    }

    /// Waits for the pass's turn. The list may have grown since the pass saw it, but by no element of the pass's
    /// numbers. If this is pass 0, no element carries a number that it hasn't given out.
    pub fn take<R: Wait>(&self, rt: &R, pass: Pass<T>) -> Turn<T>
        requires { pass_lock pass ≡ lock_id self.now }
        ensures turn { IsTurnOf pass result }
        ensures taken { T.list (turn_value result) ≡ turn_taken result }
        ensures seen { IsPrefix (pass_seen pass) (turn_taken result) }
        ensures own { AddsNoneOf T.bears (pass_numbers pass) (pass_seen pass) (turn_taken result) }
        ensures given { pass_number pass ≡ 0 → HasNoneAbove T.bears (pass_splits pass) (turn_taken result) }
    {
        let Pass { mut seat, splits } = pass;
        let shared = &self.table.shared;
        let ticket = shared.fetch_add::<Draw>(&mut seat, DRAWN, 1);
        for _ in rt.forever() {
            let rung = self.sleepers.rung(ticket);
            let served = shared.load::<Look>(&mut seat, SERVED);
            if served == ticket {
                let value = shared.exchange(&mut seat, 0, None).unwrap();
                return Turn {
                    place: Place { seat, splits },
                    value,
                };
            }
            self.sleepers.sleep(rt, ticket, rung);
        }
        unreachable!()
    }

    /// Ends the turn. During the turn, the value's list may have grown only by elements that carry the pass's number.
    pub fn give(&self, turn: Turn<T>) -> Pass<T>
        requires lock { turn_lock turn ≡ lock_id self.now }
        requires list { Continues T.bears (turn_number turn) (turn_taken turn) (T.list (turn_value turn)) }
        ensures pass { IsPassOf turn result }
        ensures seen { pass_seen result ≡ T.list (turn_value turn) }
    {
        let Turn { place, value } = turn;
        let Place { mut seat, splits } = place;
        let shared = &self.table.shared;
        let length = value.length();
        match shared.exchange(&mut seat, 0, Some(value)) {
            None => {}
            Some(_) => unreachable!(),
        }
        shared.store::<Count>(&mut seat, LENGTH, length);
        let served = shared.fetch_add::<ServeNext>(&mut seat, SERVED, 1);
        self.sleepers.ring(served.wrapping_add(1));
        Pass { seat, splits }
    }

    /// Ends the lock, and returns the value of the turn. Allocates nothing, and waits for no other pass.
    pub fn finish(self, turn: Turn<T>) -> T
        requires { turn_lock turn ≡ lock_id self }
        ensures { result ≡ turn_value turn }
    {
        let Turn { place, value } = turn;
        let Place {
            mut seat,
            splits: _,
        } = place;
        let TurnLock { table, sleepers: _ } = self;
        table.shared.load::<Lower>(&mut seat, SERVED);
        let mut closed = table.close_with(seat);
        match closed.take(0) {
            None => {}
            Some(_) => unreachable!(),
        }
        closed.free();
        value
    }
}

ghost use Rattle.std.specs.Prelude.{◌≡◌, ◌≤◌, [], length, IfOk, OnErr, MatchBool};
ghost use Rattle.std.specs.List.{AllByRecursion};
ghost use Rattle.desk_json.specs.Faults.{line_or_fault};
ghost use Rattle.desk.specs.Run as spec;
ghost use Rattle.desk.specs.Run.{items_of, lines_of, lane_with};
ghost use Rattle.desk_state.specs.Repeats.{IsAskable};
ghost use Rattle.desk.specs.Merge.{HasBegun, TakesTurn};
ghost use Rattle.desk.specs.Seen.{desk_seen, DeskGoesOn};
ghost use Rattle.desk.specs.Shown.{IsShown};

use crate::settling::Desk;
use crate::turns::outcome;
use alerts::Bell;
use asks::HeldCall;
use desk_io::{LineFeeds, OutOfMemory, Run, runs_between};
use desk_json::{CallFault, read_line};
use desk_state::{Item, Outcome};
use keeper::Keeper;
use std::alloc::Global;
use std::marker::Model;

/// The items of a script in order, and their outcomes so far.
#[derive(Drop)]
pub struct Lane {
    items: Vec<Item>,
    outcomes: Vec<Outcome>,
}

impl Model for Lane {
    ghost use Rattle.std.specs.List.{AllByRecursion};
    ghost use Rattle.desk.specs.Run.{LaneShown, lane_with};
    ghost use Rattle.desk_state.specs.Repeats.{IsAskable};
    ghost use Rattle.desk.specs.Shown.{IsShown};

    ghost Value = { LaneShown };

    ghost view = { λ l. lane_with l.items.items l.outcomes.items };

    ghost invariant = { λ l. AllByRecursion IsAskable l.items.items × AllByRecursion IsShown l.outcomes.items };
}

/// Reads a line of a script: a call at a moment, or the line's first fault.
pub(crate) fn read_item(alloc: Global, line: &[u8]) -> Result<Item, OutOfMemory>
    ensures value { IfOk result (λ i. i ≡ spec.item_of (line_or_fault line.now)) }
    ensures form { IfOk result IsAskable }
{
    match read_line(alloc, line) {
        Ok((at, call)) => Ok(Item::Call {
            at,
            call: HeldCall::of(alloc, call)?,
        }),
        Err(CallFault::Bad(fault)) => Ok(Item::Bad(fault)),
        Err(CallFault::OutOfMemory) => Err(OutOfMemory),
    }
}

fn items_in(alloc: Global, lines: &[Run<'_>]) -> Result<Vec<Item>, OutOfMemory>
    ensures items { IfOk result (λ v. v.items ≡ items_of lines.now) }
    ensures form { IfOk result (λ v. AllByRecursion IsAskable v.items) }
{
    let mut items = Vec::new(alloc);
    for line in lines {
        items.push(read_item(alloc, line.bytes())?)?;
    }
    Ok(items)
}

impl Lane {
    /// The lane of a script: an item for each nonempty line, and no outcome yet.
    pub fn of(alloc: Global, script: &[u8]) -> Result<Lane, OutOfMemory>
        ensures { IfOk result (λ l. l ≡ lane_with (items_of (lines_of script.now)) []) }
    {
        let lines = runs_between::<LineFeeds>(alloc, script)?;
        let items = items_in(alloc, &lines)?;
        Ok(Lane {
            items,
            outcomes: Vec::new(alloc),
        })
    }

    /// The outcomes so far, in the order of the items.
    pub fn outcomes(&self) -> &[Outcome]
        ensures made { result.now ≡ self.now.outcomes }
        ensures shown { AllByRecursion IsShown result.now }
    {
        &self.outcomes
    }

    pub(crate) fn items(&self) -> &[Item]
        ensures items { result.now ≡ self.now.items }
        ensures form { AllByRecursion IsAskable result.now }
    {
        &self.items
    }

    /// Answers the lane's next item. Returns whether there was one. Room for the outcome is reserved before the item
    /// is answered, so that no answer is lost if memory runs out.
    pub(crate) fn take_turn<K: Keeper, B: Bell>(
        &mut self,
        alloc: Global,
        desk: &mut Desk<K, B>,
        number: u32,
    ) -> Result<bool, OutOfMemory>
        ensures taken { IfOk result (λ went. MatchBool went
            (TakesTurn number self.old self.new (desk_seen K.seen B.seen desk.old) (desk_seen K.seen B.seen desk.new))
            ((self.new ≡ self.old) × (desk.new ≡ desk.old))) }
        ensures same { OnErr result (self.new ≡ self.old) }
        ensures err { OnErr result (HasBegun number self.old desk.old.board.state desk.new.board.state) }
        ensures on { DeskGoesOn (desk_seen K.seen B.seen desk.old) (desk_seen K.seen B.seen desk.new) }
    {
        let done = self.outcomes.len();
        if done >= self.items.len() {
            return Ok(false);
        }
        self.outcomes.reserve(1)?;
        let outcome = outcome(alloc, desk, number, &self.items[done])?;
        match self.outcomes.push(outcome) {
            Ok(()) => Ok(true),
            Err(_) => unreachable!(),
        }
    }

    /// The number of items that have an outcome.
    pub(crate) fn done(&self) -> usize
        ensures { result ≡ length self.now.outcomes }
    {
        self.outcomes.len()
    }
}

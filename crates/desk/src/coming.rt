ghost use Rattle.std.specs.Prelude.{◌≡◌, List, IfOk, IfSome, length};
ghost use Rattle.desk.specs.Items.{Comes};
ghost use Rattle.desk.specs.Run.{items_of};
ghost use Rattle.desk_state.specs.Repeats.{IsAskable};
ghost use Rattle.desk_state.specs.declared.lanes.Item.{Item as AnItem};

use crate::lanes::read_item;
use desk_io::{OutOfMemory, Run};
use desk_state::Item;
use std::alloc::Global;

/// A sequence of items, each produced when it is needed.
pub(crate) trait Items {
    /// The remaining items.
    ghost left: { Self → List AnItem };

    /// The number of remaining items.
    fn how_many(&self) -> usize
        ensures { result ≡ length (left self.now) };

    /// Returns the next item, or none after the last.
    fn next(&mut self, alloc: Global) -> Result<Option<Item>, OutOfMemory>
        ensures comes { IfOk result (λ o. Comes o (left self.old) (left self.new)) }
        ensures form { IfOk result (λ o. IfSome o IsAskable) };
}

/// The remaining lines of a script. Each is read when it is needed.
#[derive(Drop)]
pub(crate) struct Lines<'a> {
    left: &'a [Run<'a>],
}

impl<'a> Lines<'a> {
    /// Starts with all lines.
    pub(crate) fn of(lines: &'a [Run<'a>]) -> Lines<'a>
        ensures { result.left.now ≡ lines.now }
    {
        Lines { left: lines }
    }
}

impl<'a> Items for Lines<'a> {
    ghost left = { λ lines. items_of lines.left.now };

    fn how_many(&self) -> usize {
        self.left.len()
    }

    fn next(&mut self, alloc: Global) -> Result<Option<Item>, OutOfMemory> {
        let left = self.left;
        let [line, rest @ ..] = left else {
            return Ok(None);
        };
        let item = read_item(alloc, line.bytes())?;
        self.left = rest;
        Ok(Some(item))
    }
}

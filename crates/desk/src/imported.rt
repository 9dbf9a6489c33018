ghost use Rattle.std.specs.Prelude.{◌≡◌, IfOk, OnErr};
ghost use Rattle.std.specs.List.{AllByRecursion};
ghost use Rattle.desk.specs.InPart.{AreGivenInPart};
ghost use Rattle.desk.specs.Items.{items_of_lines};
ghost use Rattle.desk.specs.Keeping.{kept_at};
ghost use Rattle.desk.specs.Run as spec;
ghost use Rattle.desk.specs.Run.{IsRunOf};
ghost use Rattle.desk.specs.Seen.{desk_seen, DeskGoesOn};
ghost use Rattle.desk_state.specs.Repeats.{IsAskable};
ghost use Rattle.imports.specs.Records.{HasForms};

use crate::coming::Items;
use crate::gates::Gate;
use crate::run::text_of_items;
use crate::settling::Desk;
use alerts::Bell;
use desk_io::OutOfMemory;
use desk_state::Item;
use imports::Line;
use keeper::Keeper;
use rules::Steps;
use std::alloc::Global;
use std::marker::Model;
use std::sync::ledger::Ledger;
use std::vec::IntoIter;

fn item_of(line: Line) -> Item
    requires { HasForms line }
    ensures item { result ≡ spec.item_of line }
    ensures form { IsAskable result }
{
    match line {
        Ok((at, call)) => Item::Call { at, call },
        Err(fault) => Item::Bad(fault),
    }
}

/// The remaining records of an import, in order.
#[derive(Drop)]
struct Records {
    left: IntoIter<Line>,
}

impl Model for Records {
    ghost use Rattle.std.specs.Prelude.{◌≡◌, List, length};
    ghost use Rattle.std.specs.List.{AllByRecursion};
    ghost use Rattle.std.specs.Vec.Iter.{into_iter_items, into_iter_len};
    ghost use Rattle.imports.specs.Records.{HasForms, Line as ALine};

    ghost Value = { List ALine };

    ghost view = { λ r. into_iter_items r.left };

    ghost invariant = { λ r. AllByRecursion HasForms (into_iter_items r.left)
        × (into_iter_len r.left ≡ length (into_iter_items r.left)) };
}

impl Records {
    fn of(lines: Vec<Line>) -> Records
        requires { AllByRecursion HasForms lines.items }
        ensures { result ≡ lines.items }
    {
        Records {
            left: lines.into_iter(),
        }
    }
}

impl Items for Records {
    ghost left = { items_of_lines };

    fn how_many(&self) -> usize {
        self.left.len()
    }

    fn next(&mut self, _alloc: Global) -> Result<Option<Item>, OutOfMemory> {
        match self.left.next() {
            Some(line) => Ok(Some(item_of(line))),
            None => Ok(None),
        }
    }
}

/// Answers the records of an import one by one. Returns the text: a line for each record, then the closing text with
/// the board and the weather.
pub fn text_of_import<K: Keeper, B: Bell, G: Gate, L: Ledger>(
    alloc: Global,
    desk: &mut Desk<K, B>,
    lines: Vec<Line>,
    gate: &G,
    steps: &mut Steps<L>,
) -> Result<Vec<u8>, OutOfMemory>
    requires { AllByRecursion HasForms lines.items }
    ensures run { IfOk result (λ v. IsRunOf (kept_at (K.seen desk.old.keeper))
        (kept_at (K.seen desk.new.keeper)) desk.old.board.state (items_of_lines lines.items)
        desk.new.board.state v.items) }
    // If memory runs out, a prefix of the records was answered. Of the next record at most the tick was made.
    ensures err { OnErr result (AreGivenInPart 1 (kept_at (K.seen desk.old.keeper))
        (kept_at (K.seen desk.new.keeper)) desk.old.board.state (items_of_lines lines.items)
        desk.new.board.state) }
    ensures on { DeskGoesOn (desk_seen K.seen B.seen desk.old) (desk_seen K.seen B.seen desk.new) }
{
    let mut records = Records::of(lines);
    text_of_items(alloc, desk, &mut records, gate, steps)
}

ghost use Rattle.std.specs.Prelude.{◌≡◌, ◌<◌, IfOk, OnErr};
ghost use Rattle.desk.specs.InPart.{MayHaveBegun};
ghost use Rattle.desk.specs.Merge.{IsTurn};
ghost use Rattle.desk.specs.Seen.{desk_seen, DeskGoesOn};
ghost use Rattle.desk.specs.Shown.{IsShown};
ghost use Rattle.desk_state.specs.Repeats.{IsAskable};

use crate::run::{answer_item, outcome_of};
use crate::settling::Desk;
use alerts::Bell;
use desk_io::OutOfMemory;
use desk_state::{Item, Outcome};
use keeper::Keeper;
use rules::Steps;
use std::alloc::Global;
use std::marker::Brand;
use std::sync::ledger::{Blank, Ledger};

fn outcome_with<K: Keeper, B: Bell, L: Ledger>(
    alloc: Global,
    desk: &mut Desk<K, B>,
    lane: u32,
    item: &Item,
    blank: Blank,
) -> Result<Outcome, OutOfMemory>
    requires name { blank.name ≡ L.name }
    requires parts { blank.parts ≡ L.parts }
    requires some { 0 < blank.parts }
    requires askable { IsAskable item.now }
    ensures turn { IfOk result
        (λ o. IsTurn lane item.now (desk_seen K.seen B.seen desk.old) (desk_seen K.seen B.seen desk.new) o) }
    ensures shown { IfOk result IsShown }
    ensures err { OnErr result (MayHaveBegun lane item.now desk.old.board.state desk.new.board.state) }
    ensures on { DeskGoesOn (desk_seen K.seen B.seen desk.old) (desk_seen K.seen B.seen desk.new) }
{
    let mut steps = Steps::<L>::new(blank);
    let answered = answer_item(alloc, desk, lane, item, &mut steps)?;
    Ok(outcome_of(answered))
}

/// Answers an item of a lane, without counting the plans that it judges.
pub(crate) fn outcome<K: Keeper, B: Bell>(
    alloc: Global,
    desk: &mut Desk<K, B>,
    lane: u32,
    item: &Item,
) -> Result<Outcome, OutOfMemory>
    requires { IsAskable item.now }
    ensures turn { IfOk result
        (λ o. IsTurn lane item.now (desk_seen K.seen B.seen desk.old) (desk_seen K.seen B.seen desk.new) o) }
    ensures shown { IfOk result IsShown }
    ensures err { OnErr result (MayHaveBegun lane item.now desk.old.board.state desk.new.board.state) }
    ensures on { DeskGoesOn (desk_seen K.seen B.seen desk.old) (desk_seen K.seen B.seen desk.new) }
{
    outcome_with::<K, B, Brand>(alloc, desk, lane, item, Blank::new(1))
}

ghost use Rattle.std.specs.Prelude.{◌≡◌, ◌++◌, [], IfOk, OnErr, OnOk};
ghost use Rattle.desk_state.specs.Texts.{closing};
ghost use Rattle.desk.specs.InPart.{AreGivenInPart, IsRunInPart, MayHaveBegun};
ghost use Rattle.desk.specs.Keeping.{bad_given, kept_at};
ghost use Rattle.desk.specs.Run as spec;
ghost use Rattle.desk.specs.Run.{IsRun, IsRunOf};
ghost use Rattle.desk.specs.Seen.{desk_seen, DeskGoesOn};
ghost use Rattle.desk.specs.Settled.{AnswersItem};
ghost use Rattle.desk_state.specs.Repeats.{IsAskable};
ghost use Rattle.desk.specs.Shown.{IsShown, CanBeSaid};

use crate::answering::{Answered, answer};
use crate::coming::{Items, Lines};
use crate::gates::Gate;
use crate::settling::Desk;
use alerts::{Bell, Notices};
use asks::BadCall;
use board::Board;
use desk_io::{Copied, LineFeeds, OutOfMemory, Text, runs_between};
use desk_json::{bad_text, reply_text};
use desk_state::{Item, Outcome, Said};
use keeper::Keeper;
use rules::Steps;
use std::alloc::Global;
use std::sync::ledger::Ledger;

// The lane of a run that has only one.
pub(crate) const LANE: u32 = 1;

fn bad_line(alloc: Global, board: &Board, fault: &BadCall) -> Result<Answered, OutOfMemory>
    ensures outcome { IfOk result (λ a. a.outcome ≡ (bad_given board.now.state fault.now).outcome) }
    ensures ticked { IfOk result (λ a. a.ticked ≡ []) }
    ensures called { IfOk result (λ a. a.called ≡ []) }
    ensures shown { IfOk result (λ a. IsShown a.outcome) }
{
    let fault = fault.copy(alloc)?;
    Ok(Answered {
        outcome: Outcome {
            position: board.entries() as u64,
            said: Said::Bad(fault),
        },
        ticked: Notices::new(alloc),
        called: Notices::new(alloc),
    })
}

/// Answers an item of a lane: its call, or the fault of a malformed line, which changes nothing. If memory runs out, at
/// most the tick that comes before the call was made.
pub fn answer_item<K: Keeper, B: Bell, L: Ledger>(
    alloc: Global,
    desk: &mut Desk<K, B>,
    lane: u32,
    item: &Item,
    steps: &mut Steps<L>,
) -> Result<Answered, OutOfMemory>
    requires { IsAskable item.now }
    ensures given { IfOk result
        (λ a. AnswersItem lane item.now (desk_seen K.seen B.seen desk.old) (desk_seen K.seen B.seen desk.new) a) }
    ensures shown { IfOk result (λ a. IsShown a.outcome) }
    ensures err { OnErr result (MayHaveBegun lane item.now desk.old.board.state desk.new.board.state) }
    ensures on { DeskGoesOn (desk_seen K.seen B.seen desk.old) (desk_seen K.seen B.seen desk.new) }
{
    match item {
        Item::Call { at, call } => answer(alloc, desk, lane, *at, call.get(), steps),
        Item::Bad(fault) => bad_line(alloc, &desk.board, fault),
    }
}

/// Answers an item in lane 1, between the two callbacks of the gate. `number` counts the items from 1.
pub(crate) fn answer_passed<K: Keeper, B: Bell, G: Gate, L: Ledger>(
    alloc: Global,
    desk: &mut Desk<K, B>,
    item: &Item,
    number: u32,
    gate: &G,
    steps: &mut Steps<L>,
) -> Result<Answered, OutOfMemory>
    requires { IsAskable item.now }
    ensures given { IfOk result
        (λ a. AnswersItem 1 item.now (desk_seen K.seen B.seen desk.old) (desk_seen K.seen B.seen desk.new) a) }
    ensures shown { IfOk result (λ a. IsShown a.outcome) }
    ensures err { OnErr result (MayHaveBegun 1 item.now desk.old.board.state desk.new.board.state) }
    ensures on { DeskGoesOn (desk_seen K.seen B.seen desk.old) (desk_seen K.seen B.seen desk.new) }
{
    gate.before(LANE, number);
    let answered = answer_item(alloc, desk, LANE, item, steps);
    gate.after(LANE, number);
    answered
}

pub(crate) fn outcome_of(answered: Answered) -> Outcome
    ensures { result ≡ answered.outcome }
{
    let Answered { outcome, .. } = answered;
    outcome
}

/// The JSON of a reply, or of the fault of a malformed line. It is one line, without the line feed.
pub fn said_text(alloc: Global, said: &Said) -> Result<Text, OutOfMemory>
    requires { CanBeSaid said.now }
    ensures { IfOk result (λ text. text ≡ spec.said_text said.now) }
{
    match said {
        Said::Reply(reply) => reply_text(alloc, reply),
        Said::Bad(fault) => bad_text(alloc, fault),
    }
}

fn push_outcome(alloc: Global, out: &mut Vec<u8>, outcome: &Outcome) -> Result<(), OutOfMemory>
    requires { IsShown outcome.now }
    ensures { OnOk result (out.new.items ≡ out.old.items ++ spec.outcome_text outcome.now) }
{
    out.extend_from_slice(said_text(alloc, &outcome.said)?.bytes())?;
    out.push(b'\n')?;
    Ok(())
}

pub(crate) fn push_closing(
    alloc: Global,
    board: &Board,
    out: &mut Vec<u8>,
) -> Result<(), OutOfMemory>
    ensures { OnOk result (out.new.items ≡ out.old.items ++ closing board.now.state) }
{
    let text = board.closing(alloc)?;
    out.extend_from_slice(text.bytes())?;
    Ok(())
}

/// Answers items one by one. Returns the text of the run: a line for each item, then the closing text. Each outcome
/// is written and dropped before the next item.
pub(crate) fn text_of_items<K: Keeper, B: Bell, G: Gate, L: Ledger, I: Items>(
    alloc: Global,
    desk: &mut Desk<K, B>,
    items: &mut I,
    gate: &G,
    steps: &mut Steps<L>,
) -> Result<Vec<u8>, OutOfMemory>
    ensures run { IfOk result (λ v. IsRunOf (kept_at (K.seen desk.old.keeper))
        (kept_at (K.seen desk.new.keeper)) desk.old.board.state (I.left items.old) desk.new.board.state v.items) }
    ensures err { OnErr result (AreGivenInPart LANE (kept_at (K.seen desk.old.keeper))
        (kept_at (K.seen desk.new.keeper)) desk.old.board.state (I.left items.old) desk.new.board.state) }
    ensures on { DeskGoesOn (desk_seen K.seen B.seen desk.old) (desk_seen K.seen B.seen desk.new) }
{
    gate.expects(items.how_many() as u64);
    let mut number = 1u32;
    let mut out = Vec::new(alloc);
    while let Some(item) = items.next(alloc)? {
        let answered = answer_passed(alloc, desk, &item, number, gate, steps)?;
        push_outcome(alloc, &mut out, &answered.outcome)?;
        number = number.saturating_add(1);
    }
    push_closing(alloc, &desk.board, &mut out)?;
    Ok(out)
}

/// Runs a script from the desk's present state. Returns the text: a line for each nonempty line of the script, then
/// the closing text with the board and the weather.
pub fn text_from<K: Keeper, B: Bell, G: Gate, L: Ledger>(
    alloc: Global,
    desk: &mut Desk<K, B>,
    script: &[u8],
    gate: &G,
    steps: &mut Steps<L>,
) -> Result<Vec<u8>, OutOfMemory>
    ensures run { IfOk result (λ v. IsRun (kept_at (K.seen desk.old.keeper))
        (kept_at (K.seen desk.new.keeper)) desk.old.board.state script.now desk.new.board.state v.items) }
    // If memory runs out, a prefix of the lines was answered. Of the next line at most the tick was made.
    ensures err { OnErr result (IsRunInPart (kept_at (K.seen desk.old.keeper))
        (kept_at (K.seen desk.new.keeper)) desk.old.board.state script.now desk.new.board.state) }
    ensures on { DeskGoesOn (desk_seen K.seen B.seen desk.old) (desk_seen K.seen B.seen desk.new) }
{
    let lines = runs_between::<LineFeeds>(alloc, script)?;
    let mut items = Lines::of(&lines);
    text_of_items(alloc, desk, &mut items, gate, steps)
}

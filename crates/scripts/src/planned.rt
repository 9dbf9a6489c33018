ghost use Rattle.std.specs.Prelude.{◌≡◌, ◌∷◌, ◌++◌, [], IfOk, OnErr, OnOk};
ghost use Rattle.std.specs.List.{AllByRecursion};
ghost use Rattle.desk.specs.Keeping.{kept_at};
ghost use Rattle.desk.specs.Seen.{desk_seen, DeskGoesOn};
ghost use Rattle.desk_json.specs.PlannedLines.{PlannedHasForms, planned_or_fault};
ghost use Rattle.desk_state.specs.PlanHistory.{AreReplacedInTurn};
ghost use Rattle.desk_state.specs.Texts.{closing};
ghost use Rattle.redispatch.specs.Filed.{HasFormedPlan};
ghost use Rattle.scripts.specs.PlannedAnswers.{IsLineAnswered};
ghost use Rattle.scripts.specs.PlannedHistory.{IsPlanned};
ghost use Rattle.scripts.specs.PlannedRuns as spec;
ghost use Rattle.scripts.specs.PlannedRuns.{IsPlannedInPart, IsPlannedInPartOf, IsPlannedRunOf};
ghost use Rattle.scripts.specs.PlannedShown.{CanBeSaidOfLine, IsLineFormed};

use crate::planned_lines::answer_line;
use crate::planned_said::{LineOutcome, LineSaid, line_text};
use alerts::Bell;
use asks::BadCall;
use desk::{Board, Desk, Gate};
use desk_io::{LineFeeds, OutOfMemory, Run, runs_between};
use desk_json::{CallFault, PlannedLine, read_planned};
use desk_state::Said;
use keeper::Keeper;
use redispatch::Planned;
use rules::Steps;
use std::alloc::Global;
use std::sync::ledger::Ledger;

// The lane of a script.
const LANE: u32 = 1;

// A line, or the first fault of a malformed one.
type Item = Result<PlannedLine, BadCall>;

fn read_item(alloc: Global, line: &[u8]) -> Result<Item, OutOfMemory>
    ensures value { IfOk result (λ i. i ≡ planned_or_fault line.now) }
    ensures forms { IfOk result (λ i. IfOk i PlannedHasForms) }
{
    match read_planned(alloc, line) {
        Ok(line) => Ok(Ok(line)),
        Err(CallFault::Bad(fault)) => Ok(Err(fault)),
        Err(CallFault::OutOfMemory) => Err(OutOfMemory),
    }
}

fn bad_line(board: &Board, fault: BadCall) -> LineOutcome
    ensures outcome { result ≡ (spec.bad_line board.now.state fault).outcome }
    ensures shown { CanBeSaidOfLine result.said }
{
    LineOutcome {
        position: board.entries() as u64,
        said: LineSaid::Said(Said::Bad(fault)),
    }
}

fn answer_well<K: Keeper, B: Bell, L: Ledger>(
    alloc: Global,
    desk: &mut Desk<K, B>,
    planned: &mut Planned,
    line: PlannedLine,
    steps: &mut Steps<L>,
) -> Result<LineOutcome, OutOfMemory>
    requires forms { PlannedHasForms line }
    requires plans { AllByRecursion HasFormedPlan planned.old }
    ensures answered { IfOk result (λ o. IsLineAnswered (kept_at (K.seen desk.old.keeper))
        (kept_at (K.seen desk.new.keeper)) desk.old.board.state planned.old (Ok line)
        desk.new.board.state planned.new o) }
    ensures shown { IfOk result (λ o. CanBeSaidOfLine o.said) }
    ensures err { OnErr result (spec.MayHaveBegunLine (Ok line ∷ []) desk.old.board.state desk.new.board.state) }
    ensures on { DeskGoesOn (desk_seen K.seen B.seen desk.old) (desk_seen K.seen B.seen desk.new) }
{
    let answered = answer_line(alloc, desk, planned, line, steps)?;
    Ok(answered.outcome)
}

// Answers a line, or returns the fault of a malformed one.
fn answer_item<K: Keeper, B: Bell, L: Ledger>(
    alloc: Global,
    desk: &mut Desk<K, B>,
    planned: &mut Planned,
    item: Item,
    steps: &mut Steps<L>,
) -> Result<LineOutcome, OutOfMemory>
    requires forms { IfOk item PlannedHasForms }
    requires plans { AllByRecursion HasFormedPlan planned.old }
    ensures answered { IfOk result (λ o. IsLineAnswered (kept_at (K.seen desk.old.keeper))
        (kept_at (K.seen desk.new.keeper)) desk.old.board.state planned.old item
        desk.new.board.state planned.new o) }
    ensures shown { IfOk result (λ o. CanBeSaidOfLine o.said) }
    ensures err { OnErr result (spec.MayHaveBegunLine (item ∷ []) desk.old.board.state desk.new.board.state) }
    ensures on { DeskGoesOn (desk_seen K.seen B.seen desk.old) (desk_seen K.seen B.seen desk.new) }
{
    match item {
        Ok(line) => answer_well(alloc, desk, planned, line, steps),
        Err(fault) => Ok(bad_line(&desk.board, fault)),
    }
}

// Answers an item between the two callbacks of the gate.
fn answer_passed<K: Keeper, B: Bell, G: Gate, L: Ledger>(
    alloc: Global,
    desk: &mut Desk<K, B>,
    planned: &mut Planned,
    item: Item,
    number: u32,
    gate: &G,
    steps: &mut Steps<L>,
) -> Result<LineOutcome, OutOfMemory>
    requires forms { IfOk item PlannedHasForms }
    requires plans { AllByRecursion HasFormedPlan planned.old }
    ensures answered { IfOk result (λ o. IsLineAnswered (kept_at (K.seen desk.old.keeper))
        (kept_at (K.seen desk.new.keeper)) desk.old.board.state planned.old item
        desk.new.board.state planned.new o) }
    ensures shown { IfOk result (λ o. CanBeSaidOfLine o.said) }
    ensures err { OnErr result (spec.MayHaveBegunLine (item ∷ []) desk.old.board.state desk.new.board.state) }
    ensures on { DeskGoesOn (desk_seen K.seen B.seen desk.old) (desk_seen K.seen B.seen desk.new) }
{
    gate.before(LANE, number);
    let outcome = answer_item(alloc, desk, planned, item, steps);
    gate.after(LANE, number);
    outcome
}

fn push_outcome(alloc: Global, out: &mut Vec<u8>, outcome: &LineOutcome) -> Result<(), OutOfMemory>
    requires { CanBeSaidOfLine outcome.now.said }
    ensures { OnOk result (out.new.items ≡ out.old.items ++ spec.outcome_text outcome.now) }
{
    out.extend_from_slice(line_text(alloc, &outcome.said)?.bytes())?;
    out.push(b'\n')?;
    Ok(())
}

// Drops an outcome in a function of its own, which keeps the caller's proof small.
fn drop_outcome(_: LineOutcome) {}

// Writes an outcome, and drops it.
fn push_line(alloc: Global, out: &mut Vec<u8>, outcome: LineOutcome) -> Result<(), OutOfMemory>
    requires { CanBeSaidOfLine outcome.said }
    ensures { OnOk result (out.new.items ≡ out.old.items ++ spec.outcome_text outcome) }
{
    let pushed = push_outcome(alloc, out, &outcome);
    drop_outcome(outcome);
    pushed
}

fn push_closing(alloc: Global, board: &Board, out: &mut Vec<u8>) -> Result<(), OutOfMemory>
    ensures { OnOk result (out.new.items ≡ out.old.items ++ closing board.now.state) }
{
    let text = board.closing(alloc)?;
    out.extend_from_slice(text.bytes())?;
    Ok(())
}

// Answers lines one by one. Each outcome is written and dropped before the next line.
fn text_of_lines<K: Keeper, B: Bell, G: Gate, L: Ledger>(
    alloc: Global,
    desk: &mut Desk<K, B>,
    lines: &[Run<'_>],
    gate: &G,
    steps: &mut Steps<L>,
) -> Result<Vec<u8>, OutOfMemory>
    ensures run { IfOk result (λ v. IsPlannedRunOf (kept_at (K.seen desk.old.keeper))
        (kept_at (K.seen desk.new.keeper)) desk.old.board.state (spec.planned_items lines.now)
        desk.new.board.state v.items) }
    ensures forms { OnOk result (AllByRecursion IsLineFormed (spec.planned_items lines.now)) }
    ensures err { OnErr result (IsPlannedInPartOf (kept_at (K.seen desk.old.keeper))
        (kept_at (K.seen desk.new.keeper)) desk.old.board.state (spec.planned_items lines.now)
        desk.new.board.state) }
    ensures on { DeskGoesOn (desk_seen K.seen B.seen desk.old) (desk_seen K.seen B.seen desk.new) }
{
    gate.expects(lines.len() as u64);
    let mut planned = Planned::new(alloc);
    let mut number = 1u32;
    let mut out = Vec::new(alloc);
    for line in lines {
        let item = read_item(alloc, line.bytes())?;
        let outcome = answer_passed(alloc, desk, &mut planned, item, number, gate, steps)?;
        push_line(alloc, &mut out, outcome)?;
        number = number.saturating_add(1);
    }
    push_closing(alloc, &desk.board, &mut out)?;
    Ok(out)
}

// States what always holds of a board's active plans.
fn see_plans(board: &Board)
    ensures { AreReplacedInTurn board.now.opening board.now.state.entries }
{
    let _ = board.now();
}

/// Runs a script of planned redispatches (14 CFR 121.631) from the desk's present state. Its lines make calls, file
/// final plans, judge them beside the active plans, and take them up in flight. Nothing is filed before the first
/// line, and what is filed is dropped after the last. Returns the text: a line for each nonempty line of the script,
/// then the closing text with the board and the weather.
pub fn planned_text<K: Keeper, B: Bell, G: Gate, L: Ledger>(
    alloc: Global,
    desk: &mut Desk<K, B>,
    script: &[u8],
    gate: &G,
    steps: &mut Steps<L>,
) -> Result<Vec<u8>, OutOfMemory>
    // Each line gets the answer that its state and the plans filed so far determine. The keeper's commits are those of
    // the lines, in order. A step is refused as `Unkept` exactly if its commit failed. One history has the outcomes of all
    // lines, each by its position in it. A turn with a new number is accepted only if its final plan fails no rule then.
    ensures run { IfOk result (λ v. IsPlanned (kept_at (K.seen desk.old.keeper))
        (kept_at (K.seen desk.new.keeper)) desk.old.board.state script.now desk.new.board.state v.items) }
    // If memory runs out, a prefix of the lines was answered, with its commits. Of the next line at most the tick was
    // made.
    ensures err { OnErr result (IsPlannedInPart (kept_at (K.seen desk.old.keeper))
        (kept_at (K.seen desk.new.keeper)) desk.old.board.state script.now desk.new.board.state) }
    // An active plan changes only at a concurrence, at which no rule fails against the new plan.
    ensures plans { AreReplacedInTurn desk.new.board.opening desk.new.board.state.entries }
    ensures on { DeskGoesOn (desk_seen K.seen B.seen desk.old) (desk_seen K.seen B.seen desk.new) }
{
    let _ = desk.board.now();
    let lines = runs_between::<LineFeeds>(alloc, script)?;
    let text = text_of_lines(alloc, desk, &lines, gate, steps);
    see_plans(&desk.board);
    text
}

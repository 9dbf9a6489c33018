ghost use Rattle.std.specs.Prelude.{◌≡◌, ◌≤◌, ◌∷◌, [], length, IfOk, IfSome, None, Ok, OnErr, is_some, true};
ghost use Rattle.std.specs.List.{AllByRecursion};
ghost use Rattle.asks.specs.Ranges.{ReplyHasMoment};
ghost use Rattle.asks.specs.Forms.{CallHasForms};
ghost use Rattle.desk.specs.Keeping.{Asks, Counted, CountedOnce};
ghost use Rattle.desk.specs.Seen.{desk_seen, DeskGoesOn};
ghost use Rattle.desk.specs.Settled.{MayHaveTicked};
ghost use Rattle.desk_json.specs.PlannedLines.{PlannedHasForms};
ghost use Rattle.desk_state.specs.Lanes as lanes;
ghost use Rattle.redispatch.specs.Filed.{HasFormedPlan};
ghost use Rattle.scripts.specs.PlannedAnswers.{IsLineGiven, IsNotDone, IsSaidOf, IsTicked, choice_of};
ghost use Rattle.scripts.specs.PlannedRuns as spec;
ghost use Rattle.scripts.specs.PlannedShown.{CanBeDone, CanBeSaidOfLine};
ghost use Rattle.scripts.specs.PlannedTests.{comes_to};
ghost use Rattle.scripts.specs.declared.planned_said.Came.TheVariants.{Makes};

use crate::planned_said::{Came, LineOutcome, LineSaid};
use crate::planned_tests::come;
use alerts::Bell;
use asks::{Call, Reply};
use desk::{Board, Desk, Settled, make_call, make_tick};
use desk_io::OutOfMemory;
use desk_json::PlannedLine;
use desk_state::Said;
use desk_time::{LAST, Minute};
use keeper::Keeper;
use redispatch::Planned;
use rules::Steps;
use std::alloc::Global;
use std::sync::ledger::Ledger;

// The lane of a script.
const LANE: u32 = 1;

/// The answer to a line. If the keeper failed to store the tick or the call, `tick` or `call` is its count of faults.
#[derive(Drop)]
pub(crate) struct LineAnswered {
    pub outcome: LineOutcome,
    pub tick: Option<u64>,
    pub call: Option<u64>,
}

// The result of the tick before a line. If the keeper failed to store it, `fault` is the keeper's count of faults.
#[derive(Drop)]
struct Ticked {
    reply: Option<Reply>,
    fault: Option<u64>,
}

// The answer to a line after its tick. If the keeper failed to store the call, `fault` is its count of faults.
#[derive(Drop)]
struct LineMade {
    outcome: LineOutcome,
    fault: Option<u64>,
}

fn line_at(line: &PlannedLine) -> Minute
    ensures { result ≡ spec.line_at line.now }
{
    match line {
        PlannedLine::Asked { at, .. }
        | PlannedLine::File { at, .. }
        | PlannedLine::Check { at, .. }
        | PlannedLine::Turn { at, .. } => *at,
    }
}

// Ticks to the moment of a line, if it is later than the desk's.
fn tick_first<K: Keeper, B: Bell, L: Ledger>(
    alloc: Global,
    desk: &mut Desk<K, B>,
    at: Minute,
    steps: &mut Steps<L>,
) -> Result<Ticked, OutOfMemory>
    requires { at ≤ LAST }
    ensures ticked { IfOk result (λ r. IsTicked r.reply desk.new.board.state
        (spec.ticked_before r.fault desk.old.board.state at)) }
    ensures refused { IfOk result (λ r. IfSome r.reply IsNotDone) }
    ensures shown { IfOk result (λ r. IfSome r.reply ReplyHasMoment) }
    ensures count { IfOk result (λ r. CountedOnce (K.seen desk.old.keeper).health.faults r.fault
        (K.seen desk.new.keeper).health.faults) }
    ensures asks { IfOk result (λ r. Asks (K.seen desk.old.keeper) (K.seen desk.new.keeper)
        (spec.asked_before r.fault desk.old.board.state at)) }
    ensures may { IfOk result (λ r. MayHaveTicked 1 at desk.old.board.state desk.new.board.state) }
    ensures err { OnErr result (desk.new.board.state ≡ desk.old.board.state) }
    ensures on { DeskGoesOn (desk_seen K.seen B.seen desk.old) (desk_seen K.seen B.seen desk.new) }
{
    if desk.board.now() < at {
        let Settled { reply, fault, .. } = make_tick(alloc, desk, LANE, at, steps)?;
        Ok(Ticked { reply, fault })
    } else {
        Ok(Ticked {
            reply: None,
            fault: None,
        })
    }
}

// A call always has a reply.
fn said_of(reply: Option<Reply>) -> LineSaid
    requires replied { is_some reply ≡ true }
    requires shown { IfSome reply ReplyHasMoment }
    ensures said { result ≡ LineSaid.Said (lanes.said_of reply) }
    ensures shown { CanBeSaidOfLine result }
{
    match reply {
        Some(reply) => LineSaid::Said(Said::Reply(reply)),
        None => unreachable!(),
    }
}

// Makes a call in the desk's present state.
fn made<K: Keeper, B: Bell, L: Ledger>(
    alloc: Global,
    desk: &mut Desk<K, B>,
    call: &Call,
    steps: &mut Steps<L>,
) -> Result<LineMade, OutOfMemory>
    requires { CallHasForms call.now }
    ensures given { IfOk result (λ r. IsLineGiven r.outcome desk.new.board.state
        (spec.made_of r.fault desk.old.board.state (Makes call.now))) }
    ensures shown { IfOk result (λ r. CanBeSaidOfLine r.outcome.said) }
    ensures count { IfOk result (λ r. CountedOnce (K.seen desk.old.keeper).health.faults r.fault
        (K.seen desk.new.keeper).health.faults) }
    ensures asks { IfOk result (λ r. Asks (K.seen desk.old.keeper) (K.seen desk.new.keeper)
        (spec.asked_of r.fault desk.old.board.state (Makes call.now))) }
    ensures err { OnErr result (desk.new.board.state ≡ desk.old.board.state) }
    ensures on { DeskGoesOn (desk_seen K.seen B.seen desk.old) (desk_seen K.seen B.seen desk.new) }
{
    let position = desk.board.entries() as u64;
    let Settled { reply, fault, .. } = make_call(alloc, desk, LANE, call, steps)?;
    let said = said_of(reply);
    Ok(LineMade {
        outcome: LineOutcome { position, said },
        fault,
    })
}

fn said_at(board: &Board, said: LineSaid) -> LineMade
    ensures position { result.outcome.position ≡ length board.now.state.entries }
    ensures said { result.outcome.said ≡ said }
    ensures fault { result.fault ≡ None }
{
    LineMade {
        outcome: LineOutcome {
            position: board.entries() as u64,
            said,
        },
        fault: None,
    }
}

// Says what a line came to, or makes its call.
fn done<K: Keeper, B: Bell, L: Ledger>(
    alloc: Global,
    desk: &mut Desk<K, B>,
    came: Came,
    steps: &mut Steps<L>,
) -> Result<LineMade, OutOfMemory>
    requires { CanBeDone came }
    ensures given { IfOk result (λ r. IsLineGiven r.outcome desk.new.board.state
        (spec.made_of r.fault desk.old.board.state came)) }
    ensures says { IfOk result (λ r. IsSaidOf came r.outcome.said) }
    ensures shown { IfOk result (λ r. CanBeSaidOfLine r.outcome.said) }
    ensures count { IfOk result (λ r. CountedOnce (K.seen desk.old.keeper).health.faults r.fault
        (K.seen desk.new.keeper).health.faults) }
    ensures asks { IfOk result (λ r. Asks (K.seen desk.old.keeper) (K.seen desk.new.keeper)
        (spec.asked_of r.fault desk.old.board.state came)) }
    ensures err { OnErr result (desk.new.board.state ≡ desk.old.board.state) }
    ensures on { DeskGoesOn (desk_seen K.seen B.seen desk.old) (desk_seen K.seen B.seen desk.new) }
{
    match came {
        Came::Says(said) => Ok(said_at(&desk.board, said)),
        Came::Makes(call) => made(alloc, desk, call.get(), steps),
    }
}

// Answers a line whose moment has come.
fn come_and_done<K: Keeper, B: Bell, L: Ledger>(
    alloc: Global,
    desk: &mut Desk<K, B>,
    planned: &mut Planned,
    line: PlannedLine,
    steps: &mut Steps<L>,
) -> Result<LineMade, OutOfMemory>
    requires forms { PlannedHasForms line }
    requires plans { AllByRecursion HasFormedPlan planned.old }
    ensures given { IfOk result (λ r. IsLineGiven r.outcome desk.new.board.state (spec.made_of r.fault
        desk.old.board.state (comes_to desk.old.board.state planned.old line))) }
    ensures filed { IfOk result (λ r. planned.new ≡ spec.filed_by_line line r.outcome.said planned.old) }
    ensures shown { IfOk result (λ r. CanBeSaidOfLine r.outcome.said) }
    ensures count { IfOk result (λ r. CountedOnce (K.seen desk.old.keeper).health.faults r.fault
        (K.seen desk.new.keeper).health.faults) }
    ensures asks { IfOk result (λ r. Asks (K.seen desk.old.keeper) (K.seen desk.new.keeper)
        (spec.asked_of r.fault desk.old.board.state (comes_to desk.old.board.state planned.old line))) }
    ensures err { OnErr result (desk.new.board.state ≡ desk.old.board.state) }
    ensures on { DeskGoesOn (desk_seen K.seen B.seen desk.old) (desk_seen K.seen B.seen desk.new) }
{
    let came = come(alloc, &desk.board, planned, line, steps)?;
    done(alloc, desk, came, steps)
}

// Answers a line after its tick. If the tick was refused, the line gets the tick's reply.
fn once_ticked<K: Keeper, B: Bell, L: Ledger>(
    alloc: Global,
    desk: &mut Desk<K, B>,
    planned: &mut Planned,
    reply: Option<Reply>,
    line: PlannedLine,
    steps: &mut Steps<L>,
) -> Result<LineMade, OutOfMemory>
    requires forms { PlannedHasForms line }
    requires plans { AllByRecursion HasFormedPlan planned.old }
    requires shown { IfSome reply ReplyHasMoment }
    requires refused { IfSome reply IsNotDone }
    ensures given { IfOk result (λ r. IsLineGiven r.outcome desk.new.board.state (spec.once_ticked r.fault reply
        desk.old.board.state (comes_to desk.old.board.state planned.old line))) }
    ensures filed { IfOk result (λ r. planned.new ≡ spec.filed_by_line line r.outcome.said planned.old) }
    ensures shown { IfOk result (λ r. CanBeSaidOfLine r.outcome.said) }
    ensures count { IfOk result (λ r. CountedOnce (K.seen desk.old.keeper).health.faults r.fault
        (K.seen desk.new.keeper).health.faults) }
    ensures asks { IfOk result (λ r. Asks (K.seen desk.old.keeper) (K.seen desk.new.keeper)
        (spec.asked_once r.fault reply desk.old.board.state
        (comes_to desk.old.board.state planned.old line))) }
    ensures err { OnErr result (desk.new.board.state ≡ desk.old.board.state) }
    ensures on { DeskGoesOn (desk_seen K.seen B.seen desk.old) (desk_seen K.seen B.seen desk.new) }
{
    match reply {
        Some(reply) => Ok(said_at(&desk.board, LineSaid::Said(Said::Reply(reply)))),
        None => come_and_done(alloc, desk, planned, line, steps),
    }
}

/// Answers a line: the desk ticks to its moment, if that is later than the desk's, and then the line is answered by
/// what it comes to. If memory runs out, at most the tick was made.
pub(crate) fn answer_line<K: Keeper, B: Bell, L: Ledger>(
    alloc: Global,
    desk: &mut Desk<K, B>,
    planned: &mut Planned,
    line: PlannedLine,
    steps: &mut Steps<L>,
) -> Result<LineAnswered, OutOfMemory>
    requires forms { PlannedHasForms line }
    requires plans { AllByRecursion HasFormedPlan planned.old }
    ensures given { IfOk result (λ r. IsLineGiven r.outcome desk.new.board.state
        (spec.line_with (choice_of r) desk.old.board.state planned.old (Ok line))) }
    ensures filed { IfOk result (λ r. planned.new ≡ spec.filed_by_line line r.outcome.said planned.old) }
    ensures shown { IfOk result (λ r. CanBeSaidOfLine r.outcome.said) }
    ensures count { IfOk result (λ r. Counted (K.seen desk.old.keeper).health.faults (choice_of r ∷ [])
        (K.seen desk.new.keeper).health.faults) }
    ensures asks { IfOk result (λ r. Asks (K.seen desk.old.keeper) (K.seen desk.new.keeper)
        (spec.asked_line (choice_of r) desk.old.board.state planned.old (Ok line))) }
    ensures err { OnErr result (MayHaveTicked 1 (spec.line_at line) desk.old.board.state desk.new.board.state) }
    ensures on { DeskGoesOn (desk_seen K.seen B.seen desk.old) (desk_seen K.seen B.seen desk.new) }
{
    let at = line_at(&line);
    let Ticked { reply, fault } = tick_first(alloc, desk, at, steps)?;
    let made = once_ticked(alloc, desk, planned, reply, line, steps)?;
    Ok(LineAnswered {
        outcome: made.outcome,
        tick: fault,
        call: made.fault,
    })
}

ghost use Rattle.std.specs.Prelude.{◌≡◌, ◌+◌, ◌≤◌, ◌++◌, true, Some, is_some, IfOk, IfSome, IsTrue, OnOk};
ghost use Rattle.std.specs.List.{AllByRecursion};
ghost use Rattle.std.specs.Option.{option_copied};
ghost use Rattle.asks.specs.Forms.{CallHasForms, HasForms};
ghost use Rattle.asks.specs.Ranges.{RefusalHasMoment};
ghost use Rattle.desk_json.specs.PlannedLines.{PlannedHasForms};
ghost use Rattle.desk_state.specs.Decide as tests;
ghost use Rattle.desk_state.specs.People as people;
ghost use Rattle.desk_state.specs.State.{grounds_of, release_at};
ghost use Rattle.desk_state.specs.Texts as texts;
ghost use Rattle.plan.specs.Phases.{is_active};
ghost use Rattle.plan.specs.Texts.{HasMoment};
ghost use Rattle.redispatch.specs.Filed.{HasFormedPlan, filed_for, final_plan};
ghost use Rattle.redispatch.specs.Filing.{HasPlanInForce};
ghost use Rattle.redispatch.specs.Turns.{turned};
ghost use Rattle.scripts.specs.PlannedRuns.{filed_if, is_done};
ghost use Rattle.scripts.specs.PlannedShown.{CanBeDone, CanBeSaidOfLine, IsFiledBy};
ghost use Rattle.scripts.specs.PlannedTests as spec;
ghost use Rattle.scripts.specs.declared.planned_said.Came.TheVariants.{Makes, Says};

use crate::planned_said::{Came, LineSaid};
use crate::senders::mistaken;
use asks::{Ask, Call, Done, HeldCall, Refusal, Reply};
use desk::Board;
use desk_io::{Copied, OutOfMemory, Text, push_all};
use desk_json::{LineRefusal, PlannedLine};
use desk_state::Said;
use ops_tables::{Actor, Role};
use plan::{BadPlan, Finding, Findings, Phase, Plan, Release, finding_text, is_active, is_flying};
use redispatch::{Both, FileFault, Planned};
use rules::Steps;
use std::alloc::Global;
use std::sync::ledger::Ledger;

fn replies(reply: Reply) -> LineSaid
    ensures { result ≡ spec.replies reply }
{
    LineSaid::Said(Said::Reply(reply))
}

fn refused(refusal: Refusal) -> LineSaid
    ensures { result ≡ spec.replies (Reply.Refused refusal) }
{
    replies(Reply::Refused(refusal))
}

fn is_dispatcher(role: Role) -> bool
    ensures { result ≡ people.is_dispatcher role }
{
    match role {
        Role::D => true,
        Role::C | Role::F | Role::M | Role::S => false,
    }
}

// Refuses (3) anyone but a dispatcher.
fn not_his_line(person: Option<&Actor>) -> Option<Refusal>
    ensures value { result ≡ spec.not_his_line (option_copied person.entry) }
    ensures shown { IfSome result RefusalHasMoment }
{
    match person {
        Some(person) if is_dispatcher(person.role()) => None,
        _ => Some(Refusal::NotYourRole),
    }
}

// Refuses a caller whose name is unknown (1) or whose key is wrong (2).
fn unknown(board: &Board, actor: &Text, key: &Text) -> Option<Refusal>
    ensures value { result ≡ spec.unknown board.now.state actor.now key.now }
    ensures shown { IfSome result RefusalHasMoment }
{
    mistaken(board.tables().actor(actor.bytes()), key.bytes())
}

// Refuses the same callers, and anyone but a dispatcher (3).
fn no_dispatcher(board: &Board, actor: &Text, key: &Text) -> Option<Refusal>
    ensures value { result ≡ spec.no_dispatcher board.now.state actor.now key.now }
    ensures shown { IfSome result RefusalHasMoment }
{
    match unknown(board, actor, key) {
        Some(refusal) => Some(refusal),
        None => not_his_line(board.tables().actor(actor.bytes())),
    }
}

// Returns the release with this id.
fn held(board: &Board, id: u64) -> Option<&Release>
    ensures value { option_copied result ≡ release_at id board.now.state.releases }
    ensures id { IfSome (option_copied result) (λ r. r.id ≡ id) }
    ensures plan { IfSome (option_copied result) HasPlanInForce }
    ensures moment { IfSome (option_copied result) (λ r. HasMoment r.phase) }
{
    let _ = board.now();
    board.release(id)
}

// Refuses (18) a line that the phase of its release doesn't allow.
fn wrong_phase(phase: Phase) -> LineSaid
    requires { HasMoment phase }
    ensures said { result ≡ spec.replies (Reply.Refused (Refusal.WrongPhase phase)) }
    ensures shown { CanBeSaidOfLine result }
{
    refused(Refusal::WrongPhase { phase })
}

// Refuses (11) anyone but the dispatcher who holds the release.
fn not_yours(alloc: Global, release: &Release, actor: &Text) -> Result<Option<Refusal>, OutOfMemory>
    ensures value { IfOk result (λ o. o ≡ tests.not_yours release.now.holder actor.now) }
    ensures shown { IfOk result (λ o. IfSome o RefusalHasMoment) }
{
    if release.holder.bytes() == actor.bytes() {
        return Ok(None);
    }
    Ok(Some(Refusal::NotYours {
        holder: release.holder.copy(alloc)?,
    }))
}

fn bad_plan(bad: BadPlan) -> LineSaid
    ensures { result ≡ spec.replies (Reply.Refused (Refusal.BadPlan bad.leg bad.why)) }
{
    refused(Refusal::BadPlan {
        leg: bad.leg,
        what: bad.why,
    })
}

// Files a final plan of an active release (12).
fn file_plan(
    board: &Board,
    planned: &mut Planned,
    release: &Release,
    leg: u32,
    last: Plan,
) -> Result<LineSaid, OutOfMemory>
    requires plan { HasPlanInForce release.now }
    requires active { IsTrue (is_active release.now.phase) }
    requires forms { HasForms last }
    ensures said { IfOk result (λ x. Says x ≡ spec.unless
        (spec.bad_final board.now.state.tables release.now.phase release.now.active leg last)
        (Says (spec.replies (Reply.Done (Done.Release release.now.id))))) }
    ensures shown { IfOk result CanBeSaidOfLine }
    ensures filed { IfOk result (λ x. planned.new
        ≡ filed_if (is_done x) (final_plan release.now.id leg last) planned.old) }
{
    match planned.file(release, leg, last, board.tables()) {
        Ok(()) => Ok(replies(Reply::Done(Done::Release(release.id)))),
        Err(FileFault::NotActive) => unreachable!(),
        Err(FileFault::Bad(bad)) => Ok(bad_plan(bad)),
        Err(FileFault::OutOfMemory) => Err(OutOfMemory),
    }
}

fn file_for(
    alloc: Global,
    board: &Board,
    planned: &mut Planned,
    actor: &Text,
    release: &Release,
    leg: u32,
    last: Plan,
) -> Result<LineSaid, OutOfMemory>
    requires plan { HasPlanInForce release.now }
    requires moment { HasMoment release.now.phase }
    requires forms { HasForms last }
    ensures said { IfOk result (λ x. Says x ≡ spec.file_for board.now.state actor.now leg last release.now) }
    ensures shown { IfOk result CanBeSaidOfLine }
    ensures filed { IfOk result (λ x. planned.new
        ≡ filed_if (is_done x) (final_plan release.now.id leg last) planned.old) }
{
    if !is_active(release.phase) {
        return Ok(wrong_phase(release.phase));
    }
    match not_yours(alloc, release, actor)? {
        Some(refusal) => Ok(refused(refusal)),
        None => file_plan(board, planned, release, leg, last),
    }
}

// Files a final plan, or returns the first refusal.
fn file(
    alloc: Global,
    board: &Board,
    planned: &mut Planned,
    actor: &Text,
    key: &Text,
    id: u64,
    leg: u32,
    last: Plan,
) -> Result<LineSaid, OutOfMemory>
    requires { HasForms last }
    ensures said { IfOk result (λ x. Says x ≡ spec.file board.now.state actor.now key.now id leg last) }
    ensures shown { IfOk result CanBeSaidOfLine }
    ensures filed { IfOk result (λ x. planned.new
        ≡ filed_if (is_done x) (final_plan id leg last) planned.old) }
{
    if let Some(refusal) = no_dispatcher(board, actor, key) {
        return Ok(refused(refusal));
    }
    match held(board, id) {
        None => Ok(refused(Refusal::NoSuchRelease)),
        Some(release) => file_for(alloc, board, planned, actor, release, leg, last),
    }
}

fn push_spaced(alloc: Global, out: &mut Vec<u8>, findings: &[Finding]) -> Result<(), OutOfMemory>
    ensures { OnOk result (out.new.items ≡ out.old.items ++ texts.spaced_findings findings.now) }
{
    for finding in findings {
        let text = finding_text(alloc, finding)?;
        push_all(out, &[b" ", text.bytes()])?;
    }
    Ok(())
}

// Writes findings, each after a blank, or " none".
#[tactic(auto, unfolding(desk_state::specs::Texts::findings_text))]
fn findings_text(alloc: Global, findings: &[Finding]) -> Result<Vec<u8>, OutOfMemory>
    ensures { IfOk result (λ v. v.items ≡ texts.findings_text findings.now) }
{
    let mut out = Vec::new(alloc);
    if findings.is_empty() {
        out.extend_from_slice(b" none")?;
    } else {
        push_spaced(alloc, &mut out, findings)?;
    }
    Ok(out)
}

fn push_head(alloc: Global, out: &mut Vec<u8>, id: u64, leg: u32) -> Result<(), OutOfMemory>
    ensures { OnOk result (out.new.items ≡ out.old.items ++ spec.check_head id leg) }
{
    let release = id.to_string(alloc)?;
    let leg = leg.to_string(alloc)?;
    push_all(
        out,
        &[
            b"PLANNED ",
            release.as_bytes(),
            b" LEG ",
            leg.as_bytes(),
            b"\n",
        ],
    )
}

// Writes what a check shows: the release and the leg, then what each plan fails.
#[tactic(auto, unfolding(crate::specs::PlannedTests::check_text))]
fn check_text(
    alloc: Global,
    id: u64,
    leg: u32,
    initial: &[Finding],
    last: &[Finding],
) -> Result<Text, OutOfMemory>
    ensures { IfOk result (λ t. t ≡ spec.check_text id leg initial.now last.now) }
{
    let initial = findings_text(alloc, initial)?;
    let last = findings_text(alloc, last)?;
    let mut out = Vec::new(alloc);
    push_head(alloc, &mut out, id, leg)?;
    push_all(&mut out, &[b"INITIAL", &initial, b"\nFINAL", &last, b"\n"])?;
    Ok(Text::from_vec(out))
}

// Judges both plans of an active release at the desk's moment.
fn judged<L: Ledger>(
    alloc: Global,
    board: &Board,
    planned: &Planned,
    release: &Release,
    steps: &mut Steps<L>,
) -> Result<Both, OutOfMemory>
    requires plan { HasPlanInForce release.now }
    requires active { IsTrue (is_active release.now.phase) }
    requires filed { is_some (filed_for release.now.id planned.now) ≡ true }
    ensures initial { IfOk result (λ both. both.initial
        ≡ spec.initial_findings (grounds_of board.now.state) release.now.phase release.now.active) }
    ensures last { IfOk result (λ both. IfSome (filed_for release.now.id planned.now)
        (λ f. both.last ≡ spec.final_findings (grounds_of board.now.state) f)) }
    ensures steps { steps.new ≡ steps.old + 2 }
{
    let tables = board.tables();
    let now = board.now();
    planned.judge_both(
        alloc,
        release,
        board.reports(),
        board.deferrals(),
        tables,
        now,
        steps,
    )
}

// Shows what both plans of a release fail.
fn shown<L: Ledger>(
    alloc: Global,
    board: &Board,
    planned: &Planned,
    release: &Release,
    leg: u32,
    last: &Plan,
    steps: &mut Steps<L>,
) -> Result<LineSaid, OutOfMemory>
    requires plan { HasPlanInForce release.now }
    requires active { IsTrue (is_active release.now.phase) }
    requires filed { filed_for release.now.id planned.now ≡ Some (final_plan release.now.id leg last.now) }
    ensures said { IfOk result (λ x. x ≡ spec.replies (Reply.Seen (spec.check_text release.now.id leg
        (spec.initial_findings (grounds_of board.now.state) release.now.phase release.now.active)
        (spec.final_findings (grounds_of board.now.state) (final_plan release.now.id leg last.now))))) }
    ensures shown { IfOk result CanBeSaidOfLine }
    ensures steps { steps.new ≡ steps.old + 2 }
{
    let both = judged(alloc, board, planned, release, steps)?;
    let text = check_text(
        alloc,
        release.id,
        leg,
        both.initial.as_slice(),
        both.last.as_slice(),
    )?;
    Ok(replies(Reply::Seen(text)))
}

// Checks a release that is held: a final plan must be filed (35), and the release must be active (18).
fn check_for<L: Ledger>(
    alloc: Global,
    board: &Board,
    planned: &Planned,
    release: &Release,
    steps: &mut Steps<L>,
) -> Result<LineSaid, OutOfMemory>
    requires plan { HasPlanInForce release.now }
    requires moment { HasMoment release.now.phase }
    ensures said { IfOk result (λ x. Says x
        ≡ spec.check_for board.now.state planned.now release.now.id release.now) }
    ensures shown { IfOk result CanBeSaidOfLine }
    ensures steps { steps.new ≤ steps.old + 2 }
{
    let Some((leg, last)) = planned.find(release.id) else {
        return Ok(LineSaid::Refused(LineRefusal::NotPlanned));
    };
    if !is_active(release.phase) {
        return Ok(wrong_phase(release.phase));
    }
    shown(alloc, board, planned, release, leg, last, steps)
}

// Shows what a check finds, or returns the first refusal.
fn check<L: Ledger>(
    alloc: Global,
    board: &Board,
    planned: &Planned,
    actor: &Text,
    key: &Text,
    id: u64,
    steps: &mut Steps<L>,
) -> Result<LineSaid, OutOfMemory>
    ensures said { IfOk result (λ x. Says x ≡ spec.check board.now.state planned.now actor.now key.now id) }
    ensures shown { IfOk result CanBeSaidOfLine }
    ensures steps { steps.new ≤ steps.old + 2 }
{
    if let Some(refusal) = unknown(board, actor, key) {
        return Ok(refused(refusal));
    }
    match held(board, id) {
        None => Ok(refused(Refusal::NoSuchRelease)),
        Some(release) => check_for(alloc, board, planned, release, steps),
    }
}

// Refuses (36) a final plan that fails rules.
fn failing(findings: Findings) -> Option<LineSaid>
    ensures value { result ≡ spec.failing findings }
    ensures shown { IfSome result CanBeSaidOfLine }
{
    if findings.as_slice().is_empty() {
        None
    } else {
        Some(LineSaid::Refused(LineRefusal::FinalFails { findings }))
    }
}

// Tests a turn with a new number: the leg must be in flight (18), the caller must hold the release (11), and the final
// plan must fail no rule (36).
fn turn_refusal<L: Ledger>(
    alloc: Global,
    board: &Board,
    planned: &Planned,
    release: &Release,
    leg: u32,
    last: &Plan,
    actor: &Text,
    steps: &mut Steps<L>,
) -> Result<Option<LineSaid>, OutOfMemory>
    requires plan { HasPlanInForce release.now }
    requires moment { HasMoment release.now.phase }
    requires filed { filed_for release.now.id planned.now ≡ Some (final_plan release.now.id leg last.now) }
    ensures value { IfOk result (λ o. o ≡ spec.turn_refusal board.now.state actor.now release.now
        (final_plan release.now.id leg last.now)) }
    ensures shown { IfOk result (λ o. IfSome o CanBeSaidOfLine) }
    ensures steps { steps.new ≤ steps.old + 2 }
{
    if !is_flying(release.phase, leg) {
        return Ok(Some(wrong_phase(release.phase)));
    }
    if let Some(refusal) = not_yours(alloc, release, actor)? {
        return Ok(Some(refused(refusal)));
    }
    let both = judged(alloc, board, planned, release, steps)?;
    Ok(failing(both.last))
}

// Returns the amendment for which a turn's call stands.
fn amends(
    alloc: Global,
    planned: &Planned,
    call: &Call,
    id: u64,
    leg: u32,
    last: &Plan,
) -> Result<Came, OutOfMemory>
    requires ask { call.now.ask ≡ Ask.Prepare id }
    requires forms { CallHasForms call.now }
    requires plans { AllByRecursion HasFormedPlan planned.now }
    requires filed { filed_for id planned.now ≡ Some (final_plan id leg last.now) }
    ensures value { IfOk result (λ c. c ≡ Makes (turned call.now id (final_plan id leg last.now))) }
    ensures done { IfOk result CanBeDone }
{
    match planned.amendment(alloc, call)? {
        Some(amendment) => Ok(Came::Makes(HeldCall::of(alloc, amendment)?)),
        None => unreachable!(),
    }
}

// Tests a turn of a release that is held, and returns the refusal or the amendment. A final plan must be filed (35).
fn turn_for<L: Ledger>(
    alloc: Global,
    board: &Board,
    planned: &Planned,
    call: &Call,
    release: &Release,
    steps: &mut Steps<L>,
) -> Result<Came, OutOfMemory>
    requires ask { call.now.ask ≡ Ask.Prepare release.now.id }
    requires forms { CallHasForms call.now }
    requires plans { AllByRecursion HasFormedPlan planned.now }
    requires plan { HasPlanInForce release.now }
    requires moment { HasMoment release.now.phase }
    ensures value { IfOk result (λ c. c
        ≡ spec.turn_for board.now.state planned.now call.now release.now.id release.now) }
    ensures done { IfOk result CanBeDone }
    ensures steps { steps.new ≤ steps.old + 2 }
{
    let Some((leg, last)) = planned.find(release.id) else {
        return Ok(Came::Says(LineSaid::Refused(LineRefusal::NotPlanned)));
    };
    if board.kept(call.actor.bytes(), call.number) {
        return amends(alloc, planned, call, release.id, leg, last);
    }
    match turn_refusal(
        alloc,
        board,
        planned,
        release,
        leg,
        last,
        &call.actor,
        steps,
    )? {
        Some(said) => Ok(Came::Says(said)),
        None => amends(alloc, planned, call, release.id, leg, last),
    }
}

// Tests a turn, and returns the first refusal or the amendment.
fn turn<L: Ledger>(
    alloc: Global,
    board: &Board,
    planned: &Planned,
    call: &Call,
    id: u64,
    steps: &mut Steps<L>,
) -> Result<Came, OutOfMemory>
    requires ask { call.now.ask ≡ Ask.Prepare id }
    requires forms { CallHasForms call.now }
    requires plans { AllByRecursion HasFormedPlan planned.now }
    ensures value { IfOk result (λ c. c ≡ spec.turn board.now.state planned.now call.now id) }
    ensures done { IfOk result CanBeDone }
    ensures steps { steps.new ≤ steps.old + 2 }
{
    if let Some(refusal) = no_dispatcher(board, &call.actor, &call.key) {
        return Ok(Came::Says(refused(refusal)));
    }
    match held(board, id) {
        None => Ok(Came::Says(refused(Refusal::NoSuchRelease))),
        Some(release) => turn_for(alloc, board, planned, call, release, steps),
    }
}

fn says(said: LineSaid) -> Came
    ensures { result ≡ Says said }
{
    Came::Says(said)
}

fn turn_call(actor: Text, key: Text, number: u64, id: u64) -> Call
    ensures { result ≡ spec.turn_call actor key number id }
{
    Call {
        actor,
        key,
        number,
        ask: Ask::Prepare { release: id },
    }
}

/// Returns what a line comes to in the desk's present state, and files the plan of a line that files one. If memory
/// runs out, nothing is filed. `steps` counts the plans that are judged.
#[tactic(auto, unfolding(crate::specs::PlannedTests::comes_to))]
pub(crate) fn come<L: Ledger>(
    alloc: Global,
    board: &Board,
    planned: &mut Planned,
    line: PlannedLine,
    steps: &mut Steps<L>,
) -> Result<Came, OutOfMemory>
    requires forms { PlannedHasForms line }
    requires plans { AllByRecursion HasFormedPlan planned.old }
    ensures came { IfOk result (λ c. c ≡ spec.comes_to board.now.state planned.old line) }
    ensures filed { IfOk result (λ c. IsFiledBy line c planned.old planned.new) }
    ensures done { IfOk result CanBeDone }
    ensures steps { steps.new ≤ steps.old + 2 }
{
    match line {
        PlannedLine::Asked { at: _, call } => Ok(Came::Makes(HeldCall::of(alloc, call)?)),
        PlannedLine::File {
            at: _,
            actor,
            key,
            release,
            leg,
            plan,
        } => Ok(says(file(alloc, board, planned, &actor, &key, release, leg, plan)?)),
        PlannedLine::Check {
            at: _,
            actor,
            key,
            release,
        } => Ok(says(check(alloc, board, planned, &actor, &key, release, steps)?)),
        PlannedLine::Turn {
            at: _,
            actor,
            key,
            number,
            release,
        } => {
            let call = turn_call(actor, key, number, release);
            turn(alloc, board, planned, &call, release, steps)
        }
    }
}

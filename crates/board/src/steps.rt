ghost use Rattle.std.specs.Prelude.{◌≡◌, ◌≤◌, ◌+◌, [], length, None, Some, IfOk, OnOk};
ghost use Rattle.std.specs.Option.{option_map};
ghost use Rattle.desk_state.specs.Counting.{count_touched, most_judged, most_ticked};
ghost use Rattle.desk_state.specs.Effects.{tick};
ghost use Rattle.desk_state.specs.Events as events;
ghost use Rattle.desk_state.specs.Events.{effected, alert_changes};
ghost use Rattle.desk_state.specs.State.{is_full, is_full_for};
ghost use Rattle.desk_state.specs.Step as step;
ghost use Rattle.desk_state.specs.Step.{do_call, answer_call, tick_to};
ghost use Rattle.desk_state.specs.Sound.{IsLater, EffectFits, Sound};
ghost use Rattle.asks.specs.Forms.{CallHasForms};
ghost use Rattle.desk_state.specs.Holds.{Holds};
ghost use Rattle.desk_state.specs.Install.{MayBeMade, room_of, with_events};
ghost use Rattle.row_changes.specs.Changes as kept_rows;
ghost use Rattle.desk_state.specs.State.{State};
ghost use Rattle.board.specs.Prepare.{IsStepped, MayInstall, KeepsRows, IsRecordedOf};

use crate::prepared::Prepared;
use alert_judging::{notices_of, touched_changes};
use alerts::Notices;
use asks::{Call, Done, KeptReply, Refusal, Reply, ask_digest};
use decisions::{Stop, decide, mistaken};
use desk_io::{Change, Copied, OutOfMemory, Text};
use desk_state::{AlertChange, Alerted, Content, Decision, Effect, Entry, Event, What};
use desk_time::Minute;
use row_changes::event_changes;
use rules::Steps;
use std::alloc::Global;
use std::sync::ledger::Ledger;

/// The alerts that an event changes, and the notices about them.
#[derive(Drop)]
struct Judged {
    changes: Vec<AlertChange>,
    notices: Notices,
}

/// What an event leaves behind: its entry in the history, and the reply to keep if it is an accepted command.
#[derive(Drop)]
struct Recorded {
    entered: Entry,
    kept: Option<KeptReply>,
}

fn without_key(alloc: Global, call: &Call) -> Result<Call, OutOfMemory>
    ensures { IfOk result (λ c. c ≡ step.without_key call.now) }
{
    Ok(Call {
        actor: call.actor.copy(alloc)?,
        key: Text::from_vec(Vec::new(alloc)),
        number: call.number,
        ask: call.ask.copy(alloc)?,
    })
}

fn entry_of(alloc: Global, lane: u32, call: &Call, done: Done) -> Result<Entry, OutOfMemory>
    ensures { IfOk result (λ e. e ≡ step.entry lane (What.Asked (step.without_key call.now) (Reply.Done done))) }
{
    Ok(Entry {
        lane,
        what: What::Asked {
            call: without_key(alloc, call)?,
            reply: Reply::Done(done),
        },
    })
}

fn tick_entry(lane: u32, to: Minute) -> Entry
    ensures { result ≡ step.entry lane (What.Tick to) }
{
    Entry {
        lane,
        what: What::Tick { to },
    }
}

fn moment_after(content: &Content, effect: &Effect) -> Minute
    ensures { result ≡ (effected effect.now content.now.state).moment }
{
    match effect.moment {
        Some(to) => to,
        None => content.moment(),
    }
}

#[tactic(auto, using(asks::proofs::AskForms::call_from_forms))]
fn kept_reply(
    alloc: Global,
    content: &Content,
    effect: &Effect,
    call: &Call,
    done: Done,
) -> Result<KeptReply, OutOfMemory>
    requires { CallHasForms call.now }
    ensures { IfOk result (λ k. k ≡ step.kept_reply (effected effect.now content.now.state)
        (step.without_key call.now) done) }
{
    Ok(KeptReply {
        id: content.counters().next_kept,
        actor: call.actor.copy(alloc)?,
        number: call.number,
        digest: ask_digest(alloc, &call.ask)?,
        at: moment_after(content, effect),
        done,
    })
}

fn record_call(
    alloc: Global,
    content: &Content,
    lane: u32,
    call: &Call,
    done: Done,
    effect: &Effect,
) -> Result<Recorded, OutOfMemory>
    requires { CallHasForms call.now }
    ensures entered { IfOk result (λ r. r.entered ≡ step.entry lane
        (What.Asked (step.without_key call.now) (Reply.Done done))) }
    ensures kept { IfOk result (λ r. r.kept ≡ step.kept_of (effected effect.now content.now.state)
        (What.Asked (step.without_key call.now) (Reply.Done done))) }
{
    Ok(Recorded {
        entered: entry_of(alloc, lane, call, done)?,
        kept: Some(kept_reply(alloc, content, effect, call, done)?),
    })
}

fn stay(alloc: Global, reply: Reply) -> Prepared
    ensures reply { result.reply ≡ Some reply }
    ensures notices { result.notices ≡ [] }
    ensures event { result.event ≡ None }
    ensures rows { (s : State) → KeepsRows s result }
{
    Prepared {
        reply: Some(reply),
        notices: Notices::new(alloc),
        event: None,
        changes: Vec::new(alloc),
    }
}

fn planned(
    reply: Option<Reply>,
    effect: Effect,
    judged: Judged,
    recorded: Recorded,
    changes: Vec<Change>,
) -> Prepared
    ensures reply { result.reply ≡ reply }
    ensures notices { result.notices ≡ judged.notices }
    ensures changes { result.changes ≡ changes }
    ensures event { result.event ≡ Some (record {
      effect = effect;
      changes = judged.changes;
      entered = recorded.entered;
      kept = recorded.kept;
    }) }
{
    Prepared {
        reply,
        notices: judged.notices,
        event: Some(Event {
            effect,
            changes: judged.changes,
            entered: recorded.entered,
            kept: recorded.kept,
        }),
        changes,
    }
}

// Returns the changes that an event makes to the rows.
fn rows_of(
    alloc: Global,
    content: &Content,
    effect: &Effect,
    judged: &Judged,
    recorded: &Recorded,
) -> Result<Vec<Change>, OutOfMemory>
    requires fits { EffectFits content.now.state effect.now }
    requires changes { judged.now.changes.items ≡ alert_changes effect.now content.now.state }
    requires recorded { IsRecordedOf content.now.state effect.now recorded.now }
    ensures { IfOk result (λ rows. rows.items ≡ kept_rows.event_changes
        content.now.state effect.now recorded.now.entered) }
{
    event_changes(
        alloc,
        content,
        effect,
        &recorded.entered,
        recorded.kept.as_ref(),
        &judged.changes,
    )
}

fn full_reply(content: &Content) -> Reply
    ensures { result ≡ step.full_reply content.now.state }
{
    Reply::Refused(Refusal::HistoryFull {
        entries: content.history().len() as u64,
        kept: content.replies().len() as u64,
        events: content.counters().events,
    })
}

// Judges the releases that an effect touches, as they are after it, and reserves all memory that the event needs. The
// state doesn't change.
fn judge_touched<L: Ledger>(
    alloc: Global,
    held: &mut Alerted,
    effect: &Effect,
    steps: &mut Steps<L>,
) -> Result<Judged, OutOfMemory>
    requires fits { EffectFits held.old.state effect.now }
    requires may { MayBeMade held.old.state effect.now }
    ensures same { held.new.state ≡ held.old.state }
    ensures listed { held.new.listed ≡ held.old.listed }
    ensures changes { IfOk result (λ j. j.changes.items ≡ alert_changes effect.now held.old.state) }
    ensures notices { IfOk result (λ j. j.notices ≡ events.notices_of
        (alert_changes effect.now held.old.state)) }
    ensures room { IfOk result (λ j. held.new.room ≡ Some (room_of effect.now (length j.changes.items))) }
    ensures steps { steps.new ≤ steps.old + count_touched held.old.state effect.now }
{
    let changes = touched_changes(alloc, held, effect, steps)?;
    let notices = notices_of(alloc, &changes)?;
    held.reserve(alloc, effect, changes.len())?;
    Ok(Judged { changes, notices })
}

// Judges the releases that an effect touches, and returns the changes to the rows as well.
fn work_out<L: Ledger>(
    alloc: Global,
    held: &mut Alerted,
    effect: &Effect,
    recorded: &Recorded,
    steps: &mut Steps<L>,
) -> Result<(Judged, Vec<Change>), OutOfMemory>
    requires fits { EffectFits held.old.state effect.now }
    requires may { MayBeMade held.old.state effect.now }
    requires recorded { IsRecordedOf held.old.state effect.now recorded.now }
    ensures same { held.new.state ≡ held.old.state }
    ensures listed { held.new.listed ≡ held.old.listed }
    ensures changes { IfOk result (λ w. w.0.changes.items ≡ alert_changes effect.now held.old.state) }
    ensures notices { IfOk result (λ w. w.0.notices ≡ events.notices_of
        (alert_changes effect.now held.old.state)) }
    ensures room { IfOk result (λ w. held.new.room ≡ Some (room_of effect.now (length w.0.changes.items))) }
    ensures rows { IfOk result (λ w. w.1.items ≡ kept_rows.event_changes
        held.new.state effect.now recorded.now.entered) }
    ensures steps { steps.new ≤ steps.old + count_touched held.old.state effect.now }
{
    let judged = judge_touched(alloc, held, effect, steps)?;
    let changes = rows_of(alloc, held.content(), effect, &judged, recorded)?;
    Ok((judged, changes))
}

// Drops both in a function of its own, which keeps the caller's proof small.
fn let_go(_: Effect, _: Recorded) {}

// Returns the reply of an accepted call. A tick has none.
fn replied(done: Option<Done>) -> Option<Reply>
    ensures { result ≡ option_map Reply.Done done }
{
    match done {
        None => None,
        Some(done) => Some(Reply::Done(done)),
    }
}

// Prepares an event, given its effect and what it leaves behind.
fn prepare_event<L: Ledger>(
    alloc: Global,
    held: &mut Alerted,
    done: Option<Done>,
    effect: Effect,
    recorded: Recorded,
    steps: &mut Steps<L>,
) -> Result<Prepared, OutOfMemory>
    requires fits { EffectFits held.old.state effect }
    requires may { MayBeMade held.old.state effect }
    requires recorded { IsRecordedOf held.old.state effect recorded }
    ensures same { held.new.state ≡ held.old.state }
    ensures listed { held.new.listed ≡ held.old.listed }
    ensures stepped { IfOk result (λ p. IsStepped held.old.state p
        (step.after_event held.old.state (option_map Reply.Done done) effect recorded.entered)) }
    ensures may { IfOk result (λ p. MayInstall held.new p.event) }
    ensures rows { IfOk result (λ p. KeepsRows held.old.state p) }
    ensures steps { steps.new ≤ steps.old + count_touched held.old.state effect }
{
    let content = held.content();
    content.holds();
    match work_out(alloc, held, &effect, &recorded, steps) {
        Ok((judged, changes)) => { Ok(planned(replied(done), effect, judged, recorded, changes)) }
        Err(OutOfMemory) => {
            let_go(effect, recorded);
            Err(OutOfMemory)
        }
    }
}

// Prepares an accepted call.
fn prepare_accepted<L: Ledger>(
    alloc: Global,
    held: &mut Alerted,
    lane: u32,
    call: &Call,
    done: Done,
    effect: Effect,
    steps: &mut Steps<L>,
) -> Result<Prepared, OutOfMemory>
    requires fits { EffectFits held.old.state effect }
    requires call { CallHasForms call.now }
    requires may { MayBeMade held.old.state effect }
    ensures same { held.new.state ≡ held.old.state }
    ensures listed { held.new.listed ≡ held.old.listed }
    ensures stepped { IfOk result (λ p. IsStepped held.old.state p
        (step.accepted held.old.state lane call.now done effect)) }
    ensures may { IfOk result (λ p. MayInstall held.new p.event) }
    ensures rows { IfOk result (λ p. KeepsRows held.old.state p) }
    ensures steps { steps.new ≤ steps.old + count_touched held.old.state effect }
{
    match record_call(alloc, held.content(), lane, call, done, &effect) {
        Ok(recorded) => prepare_event(alloc, held, Some(done), effect, recorded, steps),
        Err(OutOfMemory) => {
            drop_effect(effect);
            Err(OutOfMemory)
        }
    }
}

// Drops an effect in a function of its own, which keeps the caller's proof small.
fn drop_effect(_: Effect) {}

#[tactic(auto, unfolding(crate::specs::Prepare::installed))]
fn prepare_entered<L: Ledger>(
    alloc: Global,
    held: &mut Alerted,
    lane: u32,
    call: &Call,
    done: Done,
    effect: Effect,
    steps: &mut Steps<L>,
) -> Result<Prepared, OutOfMemory>
    requires fits { EffectFits held.old.state effect }
    requires call { CallHasForms call.now }
    requires may { MayBeMade held.old.state effect }
    ensures same { held.new.state ≡ held.old.state }
    ensures listed { held.new.listed ≡ held.old.listed }
    ensures stepped { IfOk result (λ p. IsStepped held.old.state p
        (step.enter (is_full_for held.old.state call.now.ask)
        held.old.state lane call.now done effect)) }
    ensures may { IfOk result (λ p. MayInstall held.new p.event) }
    ensures rows { IfOk result (λ p. KeepsRows held.old.state p) }
    ensures steps { steps.new ≤ steps.old + count_touched held.old.state effect }
{
    if held.content().is_full_for(&call.ask) {
        drop_effect(effect);
        return Ok(stay(alloc, full_reply(held.content())));
    }
    prepare_accepted(alloc, held, lane, call, done, effect, steps)
}

// Prepares a call whose name and key are right, and reserves all memory that it needs. The state doesn't change.
#[tactic(auto, unfolding(desk_state::specs::Step::do_call, crate::specs::Prepare::installed), using(crate::proofs::Counted::one_counted))]
fn prepare_call<L: Ledger>(
    alloc: Global,
    held: &mut Alerted,
    lane: u32,
    call: &Call,
    steps: &mut Steps<L>,
) -> Result<Prepared, OutOfMemory>
    requires call { CallHasForms call.now }
    ensures same { held.new.state ≡ held.old.state }
    ensures listed { held.new.listed ≡ held.old.listed }
    ensures stepped { IfOk result (λ p. IsStepped held.old.state p
        (do_call held.old.state lane call.now)) }
    ensures may { IfOk result (λ p. MayInstall held.new p.event) }
    ensures rows { IfOk result (λ p. KeepsRows held.old.state p) }
    ensures steps { steps.new ≤ steps.old + most_judged held.old.state call.now.ask }
{
    let content = held.content();
    content.holds();
    match decide(alloc, content, call, steps) {
        Ok(Decision::Do(done, effect)) => {
            prepare_entered(alloc, held, lane, call, done, effect, steps)
        }
        Ok(Decision::Show(reply)) => Ok(stay(alloc, reply)),
        Err(Stop::Refused(refusal)) => Ok(stay(alloc, Reply::Refused(refusal))),
        Err(Stop::OutOfMemory) => Err(OutOfMemory),
    }
}

/// Prepares a call. Checks the person's name and key first.
#[tactic(auto, unfolding(desk_state::specs::Step::answer_call, crate::specs::Prepare::installed))]
pub fn prepare_answer<L: Ledger>(
    alloc: Global,
    held: &mut Alerted,
    lane: u32,
    call: &Call,
    steps: &mut Steps<L>,
) -> Result<Prepared, OutOfMemory>
    requires call { CallHasForms call.now }
    ensures same { held.new.state ≡ held.old.state }
    ensures listed { held.new.listed ≡ held.old.listed }
    ensures stepped { IfOk result (λ p. IsStepped held.old.state p
        (answer_call held.old.state lane call.now)) }
    ensures may { IfOk result (λ p. MayInstall held.new p.event) }
    ensures rows { IfOk result (λ p. KeepsRows held.old.state p) }
    ensures steps { steps.new ≤ steps.old + most_judged held.old.state call.now.ask }
{
    match mistaken(
        held.content().tables().actor(call.actor.bytes()),
        call.key.bytes(),
    ) {
        Some(refusal) => Ok(stay(alloc, Reply::Refused(refusal))),
        None => prepare_call(alloc, held, lane, call, steps),
    }
}

#[tactic(auto, using(desk_state::proofs::CountLaws::tick_judges))]
fn prepare_ticked<L: Ledger>(
    alloc: Global,
    held: &mut Alerted,
    lane: u32,
    to: Minute,
    steps: &mut Steps<L>,
) -> Result<Prepared, OutOfMemory>
    requires moment { IsLater held.old.state.moment to }
    ensures same { held.new.state ≡ held.old.state }
    ensures listed { held.new.listed ≡ held.old.listed }
    ensures stepped { IfOk result (λ p. IsStepped held.old.state p
        (step.ticked held.old.state lane to)) }
    ensures may { IfOk result (λ p. MayInstall held.new p.event) }
    ensures rows { IfOk result (λ p. KeepsRows held.old.state p) }
    ensures steps { steps.new ≤ steps.old + most_ticked held.old.state to }
{
    let recorded = Recorded {
        entered: tick_entry(lane, to),
        kept: None,
    };
    prepare_event(alloc, held, None, Effect::tick(to), recorded, steps)
}

/// Prepares a tick to a later moment, and reserves all memory that it needs. The state doesn't change.
#[tactic(auto, unfolding(desk_state::specs::Step::tick_to, crate::specs::Prepare::installed))]
pub fn prepare_tick<L: Ledger>(
    alloc: Global,
    held: &mut Alerted,
    lane: u32,
    to: Minute,
    steps: &mut Steps<L>,
) -> Result<Prepared, OutOfMemory>
    requires moment { IsLater held.old.state.moment to }
    ensures same { held.new.state ≡ held.old.state }
    ensures listed { held.new.listed ≡ held.old.listed }
    ensures stepped { IfOk result (λ p. IsStepped held.old.state p (tick_to held.old.state lane to)) }
    ensures may { IfOk result (λ p. MayInstall held.new p.event) }
    ensures rows { IfOk result (λ p. KeepsRows held.old.state p) }
    ensures steps { steps.new ≤ steps.old + most_ticked held.old.state to }
{
    if held.content().is_full() {
        return Ok(stay(alloc, full_reply(held.content())));
    }
    prepare_ticked(alloc, held, lane, to, steps)
}

/// Installs a prepared event. Allocates no memory.
pub fn install(held: &mut Alerted, event: Option<Event>)
    requires may { MayInstall held.old event }
    requires sound { Sound (with_events event held.old.state) }
    requires holds { Holds (with_events event held.old.state) }
    ensures state { held.new.state ≡ with_events event held.old.state }
    ensures listed { held.new.listed ≡ held.old.listed }
{
    if let Some(event) = event {
        held.install(event);
    }
}

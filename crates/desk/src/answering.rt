ghost use Rattle.std.specs.Prelude.{◌≡◌, ◌<◌, ◌≤◌, ◌+◌, [], ◌∷◌, None, Some, false, true, is_some, IfOk, IfSome, OnErr};
ghost use Rattle.asks.specs.Ranges.{ReplyHasMoment};
ghost use Rattle.asks.specs.declared.kept.KeptReply.{KeptReply as AKept};
ghost use Rattle.asks.specs.Forms.{CallHasForms};
ghost use Rattle.desk_io.specs.Health.{IsSound, IsStill};
ghost use Rattle.desk_state.specs.Counting.{most_judged, most_ticked};
ghost use Rattle.desk_state.specs.Lanes as lanes;
ghost use Rattle.desk_state.specs.Repeats.{MayAsk, IsKeptFor};
ghost use Rattle.desk_state.specs.Step.{answer_call, tick_to};
ghost use Rattle.desk.specs.Again.{AllMayComeAgain};
ghost use Rattle.desk.specs.Counted as counted;
ghost use Rattle.desk.specs.Counted.{most_answered};
ghost use Rattle.desk.specs.Keeping as spec;
ghost use Rattle.desk.specs.Keeping.{adds, AreNow, Asks, Counted, CountedOnce};
ghost use Rattle.desk.specs.Seen.{desk_seen, DeskGoesOn};
ghost use Rattle.desk.specs.Settled.{IsSettled, MayHaveTicked, choice_of, Gives, AnswersCall, IsSaid, done_again};
ghost use Rattle.desk.specs.Shown.{IsShown, CanBeSaid};

use crate::settling::{Desk, Settled, settle, stayed};
use alerts::{Bell, Notices};
use asks::{Call, Refusal, Reply};
use desk_io::OutOfMemory;
use desk_state::{Outcome, Said};
use desk_time::{LAST, Minute};
use keeper::Keeper;
use rules::Steps;
use std::alloc::Global;
use std::sync::ledger::Ledger;

/// The answer to an item, and the notices about alerts that it caused.
#[derive(Debug, Drop)]
pub struct Answered {
    pub outcome: Outcome,
    /// The notices of the tick that came before the call.
    pub ticked: Notices,
    /// The notices of the call itself.
    pub called: Notices,
}

/// The answer to a call. If the keeper failed to store the tick or the call, `tick` or `call` is its count of faults.
#[derive(Drop)]
pub(crate) struct AnsweredWith {
    pub answered: Answered,
    pub tick: Option<u64>,
    pub call: Option<u64>,
}

/// Makes a call in the desk's present state, whatever its moment. The keeper stores its changes before they are
/// installed. If memory runs out, nothing changes.
pub fn make_call<K: Keeper, B: Bell, L: Ledger>(
    alloc: Global,
    desk: &mut Desk<K, B>,
    lane: u32,
    call: &Call,
    steps: &mut Steps<L>,
) -> Result<Settled, OutOfMemory>
    requires { CallHasForms call.now }
    ensures settled { IfOk result (λ r. IsSettled r desk.new.board.state
        (spec.made_with r.fault lane desk.old.board.state call.now)) }
    ensures shown { IfOk result (λ r. IfSome r.reply ReplyHasMoment) }
    ensures replied { IfOk result (λ r. is_some r.reply ≡ true) }
    ensures err { OnErr result (desk.new.board.state ≡ desk.old.board.state) }
    ensures on { DeskGoesOn (desk_seen K.seen B.seen desk.old) (desk_seen K.seen B.seen desk.new) }
    ensures count { IfOk result (λ r. CountedOnce (K.seen desk.old.keeper).health.faults r.fault
        (K.seen desk.new.keeper).health.faults) }
    ensures asks { IfOk result (λ r. Asks (K.seen desk.old.keeper) (K.seen desk.new.keeper)
        (spec.asked_if (adds desk.old.board.state (answer_call desk.old.board.state lane call.now)) r.fault)) }
    ensures still { adds desk.old.board.state (answer_call desk.old.board.state lane call.now) ≡ false
        → desk.new.keeper ≡ desk.old.keeper }
    ensures steps { steps.new ≤ steps.old + most_judged desk.old.board.state call.now.ask }
{
    let _ = desk.board.now();
    let prepared = desk.board.prepare_change(alloc, lane, call, steps)?;
    settle(alloc, desk, prepared)
}

/// Ticks to a later moment. The step has a reply only if the tick is refused (24 `HistoryFull`) or the keeper fails
/// (26 `Unkept`); then the state is as before. If memory runs out, nothing changes.
pub fn make_tick<K: Keeper, B: Bell, L: Ledger>(
    alloc: Global,
    desk: &mut Desk<K, B>,
    lane: u32,
    to: Minute,
    steps: &mut Steps<L>,
) -> Result<Settled, OutOfMemory>
    requires later { desk.old.board.state.moment < to }
    requires within { to ≤ LAST }
    ensures settled { IfOk result (λ r. IsSettled r desk.new.board.state
        (spec.ticked_with r.fault lane desk.old.board.state to)) }
    ensures shown { IfOk result (λ r. IfSome r.reply ReplyHasMoment) }
    ensures err { OnErr result (desk.new.board.state ≡ desk.old.board.state) }
    ensures on { DeskGoesOn (desk_seen K.seen B.seen desk.old) (desk_seen K.seen B.seen desk.new) }
    ensures count { IfOk result (λ r. CountedOnce (K.seen desk.old.keeper).health.faults r.fault
        (K.seen desk.new.keeper).health.faults) }
    ensures asks { IfOk result (λ r. Asks (K.seen desk.old.keeper) (K.seen desk.new.keeper)
        (spec.asked_if (adds desk.old.board.state (tick_to desk.old.board.state lane to)) r.fault)) }
    ensures told { IfOk result (λ r. IfSome r.fault (λ n. r.reply ≡ Some (Reply.Refused (Refusal.Unkept n)))) }
    ensures steps { steps.new ≤ steps.old + most_ticked desk.old.board.state to }
{
    let _ = desk.board.now();
    let prepared = desk.board.prepare_tick(alloc, lane, to, steps)?;
    settle(alloc, desk, prepared)
}

// Makes a call after its tick. If the tick was refused, the call gets the tick's reply.
fn once_ticked<K: Keeper, B: Bell, L: Ledger>(
    alloc: Global,
    desk: &mut Desk<K, B>,
    lane: u32,
    refused: Option<Reply>,
    call: &Call,
    steps: &mut Steps<L>,
) -> Result<Settled, OutOfMemory>
    requires call { CallHasForms call.now }
    requires shown { IfSome refused ReplyHasMoment }
    ensures settled { IfOk result (λ r. IsSettled r desk.new.board.state
        (spec.once_ticked r.fault lane refused desk.old.board.state call.now)) }
    ensures shown { IfOk result (λ r. IfSome r.reply ReplyHasMoment) }
    ensures replied { IfOk result (λ r. is_some r.reply ≡ true) }
    ensures count { IfOk result (λ r. CountedOnce (K.seen desk.old.keeper).health.faults r.fault
        (K.seen desk.new.keeper).health.faults) }
    ensures err { OnErr result (desk.new.board.state ≡ desk.old.board.state) }
    ensures on { DeskGoesOn (desk_seen K.seen B.seen desk.old) (desk_seen K.seen B.seen desk.new) }
    ensures asks { IfOk result (λ r. Asks (K.seen desk.old.keeper) (K.seen desk.new.keeper)
        (spec.asked_once refused r.fault lane desk.old.board.state call.now)) }
    ensures stays { IfOk result (λ r. IfSome refused
        (λ reply. (r.fault ≡ None) × IsStill (K.seen desk.old.keeper).health (K.seen desk.new.keeper).health)) }
    ensures steps { steps.new ≤ steps.old + counted.most_once_ticked refused desk.old.board.state call.now.ask }
{
    match refused {
        None => make_call(alloc, desk, lane, call, steps),
        Some(reply) => Ok(stayed(alloc, reply)),
    }
}

// A call always has a reply. Only an allowed tick has none.
fn said_of(reply: Option<Reply>) -> Said
    requires replied { is_some reply ≡ true }
    requires shown { IfSome reply ReplyHasMoment }
    ensures said { result ≡ lanes.said_of reply }
    ensures shown { CanBeSaid result }
{
    match reply {
        Some(reply) => Said::Reply(reply),
        None => unreachable!(),
    }
}

// The answer to a call, from the results of its tick and of the call itself.
fn joined(position: u64, ticked: Notices, tick: Option<u64>, settled: Settled) -> AnsweredWith
    requires replied { is_some settled.reply ≡ true }
    requires shown { IfSome settled.reply ReplyHasMoment }
    ensures position { result.answered.outcome.position ≡ position }
    ensures said { result.answered.outcome.said ≡ lanes.said_of settled.reply }
    ensures shown { IsShown result.answered.outcome }
    ensures ticked { result.answered.ticked ≡ ticked }
    ensures called { result.answered.called ≡ settled.notices }
    ensures tick { result.tick ≡ tick }
    ensures call { result.call ≡ settled.fault }
{
    let Settled {
        reply,
        notices,
        fault,
    } = settled;
    AnsweredWith {
        answered: Answered {
            outcome: Outcome {
                position,
                said: said_of(reply),
            },
            ticked,
            called: notices,
        },
        tick,
        call: fault,
    }
}

// Answers a call whose moment has come. It needs no tick.
fn answer_now<K: Keeper, B: Bell, L: Ledger>(
    alloc: Global,
    desk: &mut Desk<K, B>,
    lane: u32,
    call: &Call,
    steps: &mut Steps<L>,
) -> Result<AnsweredWith, OutOfMemory>
    requires { CallHasForms call.now }
    ensures given { IfOk result (λ j. Gives
        (spec.given [] desk.old.board.state (spec.made_with j.call lane desk.old.board.state call.now))
        desk.new.board.state j.answered) }
    ensures shown { IfOk result (λ j. IsShown j.answered.outcome) }
    ensures count { IfOk result (λ j. Counted (K.seen desk.old.keeper).health.faults (choice_of j ∷ [])
        (K.seen desk.new.keeper).health.faults) }
    ensures err { OnErr result (desk.new.board.state ≡ desk.old.board.state) }
    ensures on { DeskGoesOn (desk_seen K.seen B.seen desk.old) (desk_seen K.seen B.seen desk.new) }
    ensures exact { IfOk result (λ j. AreNow (K.seen desk.new.keeper).health.faults (choice_of j)) }
    ensures asks { IfOk result (λ j. Asks (K.seen desk.old.keeper) (K.seen desk.new.keeper)
        (spec.asked_once None j.call lane desk.old.board.state call.now)) }
    ensures still { adds desk.old.board.state (answer_call desk.old.board.state lane call.now) ≡ false
        → desk.new.keeper ≡ desk.old.keeper }
    ensures steps { steps.new ≤ steps.old + most_judged desk.old.board.state call.now.ask }
{
    let position = desk.board.entries() as u64;
    let settled = make_call(alloc, desk, lane, call, steps)?;
    Ok(joined(position, Notices::new(alloc), None, settled))
}

// Answers a call with a later moment: the desk ticks to that moment, then makes the call.
fn answer_late<K: Keeper, B: Bell, L: Ledger>(
    alloc: Global,
    desk: &mut Desk<K, B>,
    lane: u32,
    at: Minute,
    call: &Call,
    steps: &mut Steps<L>,
) -> Result<AnsweredWith, OutOfMemory>
    requires after { desk.old.board.state.moment < at }
    requires within { at ≤ LAST }
    requires call { CallHasForms call.now }
    ensures given { IfOk result (λ j. Gives
        (spec.made_after j.call lane (spec.ticked_with j.tick lane desk.old.board.state at) call.now)
        desk.new.board.state j.answered) }
    ensures shown { IfOk result (λ j. IsShown j.answered.outcome) }
    ensures count { IfOk result (λ j. Counted (K.seen desk.old.keeper).health.faults (choice_of j ∷ [])
        (K.seen desk.new.keeper).health.faults) }
    ensures err { OnErr result (MayHaveTicked lane at desk.old.board.state desk.new.board.state) }
    ensures on { DeskGoesOn (desk_seen K.seen B.seen desk.old) (desk_seen K.seen B.seen desk.new) }
    ensures asks { IfOk result (λ j. Asks (K.seen desk.old.keeper) (K.seen desk.new.keeper)
        (spec.asked_late (choice_of j) lane desk.old.board.state at call.now)) }
    ensures exact { IfOk result (λ j. AreNow (K.seen desk.new.keeper).health.faults (choice_of j)) }
    ensures steps { steps.new ≤ steps.old + counted.most_if_late true lane desk.old.board.state at call.now.ask }
{
    let Settled {
        reply,
        notices,
        fault,
    } = make_tick(alloc, desk, lane, at, steps)?;
    let position = desk.board.entries() as u64;
    let settled = once_ticked(alloc, desk, lane, reply, call, steps)?;
    Ok(joined(position, notices, fault, settled))
}

/// Answers a call of a lane at a moment. If the moment is later than the desk's, the desk ticks to it first. The
/// keeper stores the changes of each step before the step is installed.
#[tactic(auto, unfolding(crate::specs::Keeping::answer_with, crate::specs::Keeping::asked_with))]
pub(crate) fn answer_with<K: Keeper, B: Bell, L: Ledger>(
    alloc: Global,
    desk: &mut Desk<K, B>,
    lane: u32,
    at: Minute,
    call: &Call,
    steps: &mut Steps<L>,
) -> Result<AnsweredWith, OutOfMemory>
    requires within { at ≤ LAST }
    requires call { CallHasForms call.now }
    ensures given { IfOk result (λ j. Gives
        (spec.answer_with (choice_of j) lane desk.old.board.state at call.now) desk.new.board.state j.answered) }
    ensures shown { IfOk result (λ j. IsShown j.answered.outcome) }
    ensures count { IfOk result (λ j. Counted (K.seen desk.old.keeper).health.faults (choice_of j ∷ [])
        (K.seen desk.new.keeper).health.faults) }
    ensures err { OnErr result (MayHaveTicked lane at desk.old.board.state desk.new.board.state) }
    ensures on { DeskGoesOn (desk_seen K.seen B.seen desk.old) (desk_seen K.seen B.seen desk.new) }
    ensures exact { IfOk result (λ j. AreNow (K.seen desk.new.keeper).health.faults (choice_of j)) }
    ensures asks { IfOk result (λ j. Asks (K.seen desk.old.keeper) (K.seen desk.new.keeper)
        (spec.asked_with (choice_of j) lane desk.old.board.state at call.now)) }
    ensures still { at ≤ desk.old.board.state.moment → adds desk.old.board.state
        (answer_call desk.old.board.state lane call.now) ≡ false → desk.new.keeper ≡ desk.old.keeper }
    ensures steps { steps.new ≤ steps.old + most_answered lane desk.old.board.state at call.now.ask }
{
    if desk.board.now() < at {
        answer_late(alloc, desk, lane, at, call, steps)
    } else {
        answer_now(alloc, desk, lane, call, steps)
    }
}

/// Answers a call of a lane at a moment. If the moment is later than the desk's, the desk ticks to it first. The
/// keeper stores the changes of each step before the step is installed.
///
/// If the keeper fails, the step changes nothing, and the call is refused with the keeper's count of faults (26
/// `Unkept`). If memory runs out, the call changes nothing, but its tick may have been made.
pub fn answer<K: Keeper, B: Bell, L: Ledger>(
    alloc: Global,
    desk: &mut Desk<K, B>,
    lane: u32,
    moment: Minute,
    call: &Call,
    steps: &mut Steps<L>,
) -> Result<Answered, OutOfMemory>
    requires within { moment ≤ LAST }
    requires call { CallHasForms call.now }
    // The answer follows from where the keeper failed. The counts in refusals (26 `Unkept`) rise strictly. The tick
    // and the call each request a commit if they add an entry, which fails exactly if its step is refused so. Nothing
    // else requests one.
    ensures given { IfOk result
        (λ a. AnswersCall lane moment call.now (desk_seen K.seen B.seen desk.old)
        (desk_seen K.seen B.seen desk.new) a) }
    // A sound keeper causes no refusal.
    ensures quiet { IsSound (K.seen desk.old.keeper).health
        → IfOk result (λ a. IsSaid (lanes.answer lane desk.old.board.state moment call.now) desk.new.board.state a) }
    // A repeated command gets its original reply, whether or not the keeper fails.
    ensures again { (k : AKept) → moment ≤ desk.old.board.state.moment → MayAsk desk.old.board.state call.now
        → IsKeptFor desk.old.board.state call.now k
        → IfOk result (λ a. IsSaid (done_again k desk.old.board.state) desk.new.board.state a) }
    // A repeated command with a later moment gets its original reply too, if the tick to that moment was installed.
    ensures late { (k : AKept) → desk.old.board.state.moment < moment → desk.new.board.state.moment ≡ moment
        → MayAsk desk.old.board.state call.now → IsKeptFor desk.old.board.state call.now k
        → IfOk result
        (λ a. IsSaid (done_again k (tick_to desk.old.board.state lane moment).state) desk.new.board.state a) }
    // Until a sweep, every command whose reply is stored may come again: the repeat changes no state and no other
    // outcome.
    ensures kept { IfOk result (λ a. AllMayComeAgain desk.new.board.state) }
    ensures shown { IfOk result (λ a. IsShown a.outcome) }
    ensures err { OnErr result (MayHaveTicked lane moment desk.old.board.state desk.new.board.state) }
    ensures on { DeskGoesOn (desk_seen K.seen B.seen desk.old) (desk_seen K.seen B.seen desk.new) }
    // A call that changes nothing, at a moment that has come, leaves the keeper untouched.
    ensures still { moment ≤ desk.old.board.state.moment → adds desk.old.board.state
        (answer_call desk.old.board.state lane call.now) ≡ false → desk.new.keeper ≡ desk.old.keeper }
    // `steps` counts the plans judged: at most as many as the tick and the call may judge together.
    ensures steps { steps.new ≤ steps.old + most_answered lane desk.old.board.state moment call.now.ask }
{
    let judged = answer_with(alloc, desk, lane, moment, call, steps)?;
    let _ = desk.board.now();
    Ok(judged.answered)
}

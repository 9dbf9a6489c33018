ghost use Rattle.std.specs.Prelude.{◌≡◌, ◌≤◌, IfOk, OnOk};
ghost use Rattle.std.specs.Option.{option_copied};
ghost use Rattle.asks.specs.Forms.{CallHasForms};
ghost use Rattle.asks.specs.Ranges.{RefusalHasMoment};
ghost use Rattle.desk_json.specs.Shifts.{shift_or_fault};
ghost use Rattle.desk_time.specs.Limits.{IsMoment};
ghost use Rattle.relief.specs.Handovers.{after_one};
ghost use Rattle.relief.specs.Roster.{desks_in, desks_of};
ghost use Rattle.scripts.specs.Routes as spec;
ghost use Rattle.scripts.specs.Forms.{CanBeTaken, IsReplyTo};

use crate::senders::{is_dispatcher_role, is_view, key_refusal, sender_refusal};
use asks::{Call, HeldCall, Refusal, Reply};
use desk_io::{OutOfMemory, Text};
use desk_json::{
    CallFault, Deal, LineRefusal, ShiftLine, line_refusal_text, read_shift, reply_text, seated_text,
};
use desk_state::Item;
use desk_time::Minute;
use ops_tables::{Actor, Tables};
use relief::{Handover, ReliefFault, Roster};
use std::alloc::Global;

/// What a line of a shift script comes to.
#[derive(Drop)]
pub(crate) enum Routed {
    /// The line is answered on the board, as this item.
    ToBoard(Item),
    /// The line gets this reply at once. It makes no tick and no entry.
    Replied(Text),
}

fn refused(alloc: Global, why: Refusal) -> Result<Routed, OutOfMemory>
    requires { RefusalHasMoment why }
    ensures value { IfOk result (λ r. r ≡ spec.refused why) }
    ensures form { IfOk result CanBeTaken }
{
    Ok(Routed::Replied(reply_text(alloc, &Reply::Refused(why))?))
}

fn relief_refusal(alloc: Global, refusal: &LineRefusal) -> Result<Routed, OutOfMemory>
    ensures value { IfOk result (λ r. r ≡ spec.refused_line refusal.now) }
    ensures form { IfOk result CanBeTaken }
{
    Ok(Routed::Replied(line_refusal_text(alloc, refusal)?))
}

// The reply to a handover, or to a call for a desk, that is refused.
fn not_relieved(alloc: Global, fault: ReliefFault) -> Result<Routed, OutOfMemory>
    ensures value { IsReplyTo fault result }
    ensures form { IfOk result CanBeTaken }
{
    match fault {
        ReliefFault::NotSitting { sitter } => {
            relief_refusal(alloc, &LineRefusal::NotSitting { sitter })
        }
        ReliefFault::NoSuchDesk => relief_refusal(alloc, &LineRefusal::NoSuchDesk),
        ReliefFault::NotOffered { offered } => {
            relief_refusal(alloc, &LineRefusal::NotOffered { offered })
        }
        ReliefFault::BadRelief => relief_refusal(alloc, &LineRefusal::BadRelief),
        ReliefFault::OutOfMemory => Err(OutOfMemory),
    }
}

fn as_it_is(alloc: Global, at: Minute, call: Call) -> Result<Routed, OutOfMemory>
    requires within { IsMoment at }
    requires call { CallHasForms call }
    ensures value { IfOk result (λ r. r ≡ spec.as_it_is at call) }
    ensures form { IfOk result CanBeTaken }
{
    let call = HeldCall::of(alloc, call)?;
    Ok(Routed::ToBoard(Item::Call { at, call }))
}

// Makes a call for a desk, at which its actor must sit.
fn at_desk(
    alloc: Global,
    tables: &Tables,
    roster: &Roster,
    at: Minute,
    desk: &[u8],
    call: &Call,
) -> Result<Routed, OutOfMemory>
    requires desks { desks_in roster.now ≡ desks_of tables.now }
    requires within { IsMoment at }
    requires call { CallHasForms call.now }
    ensures value { IfOk result (λ r. r ≡ spec.at_desk tables.now roster.now at desk.now call.now) }
    ensures form { IfOk result CanBeTaken }
{
    match roster.translate(alloc, call, desk, tables) {
        Ok(call) => as_it_is(alloc, at, call),
        Err(fault) => not_relieved(alloc, fault),
    }
}

fn by_dispatcher(
    alloc: Global,
    tables: &Tables,
    roster: &Roster,
    at: Minute,
    call: Call,
    desk: Option<Text>,
) -> Result<Routed, OutOfMemory>
    requires desks { desks_in roster.now ≡ desks_of tables.now }
    requires within { IsMoment at }
    requires call { CallHasForms call }
    ensures value { IfOk result (λ r. r ≡ spec.by_dispatcher tables.now roster.now at call desk) }
    ensures form { IfOk result CanBeTaken }
{
    match desk {
        Some(desk) => at_desk(alloc, tables, roster, at, desk.bytes(), &call),
        None => {
            if is_view(&call.ask) {
                as_it_is(alloc, at, call)
            } else {
                at_desk(alloc, tables, roster, at, call.actor.bytes(), &call)
            }
        }
    }
}

fn by_another(
    alloc: Global,
    person: &Actor,
    at: Minute,
    call: Call,
    desk: Option<Text>,
) -> Result<Routed, OutOfMemory>
    requires within { IsMoment at }
    requires call { CallHasForms call }
    ensures value { IfOk result (λ r. r ≡ spec.by_another person.now at call desk) }
    ensures form { IfOk result CanBeTaken }
{
    match desk {
        None => as_it_is(alloc, at, call),
        Some(_) => match key_refusal(person, call.key.bytes()) {
            Some(refusal) => refused(alloc, refusal),
            None => refused(alloc, Refusal::NotYourRole),
        },
    }
}

fn by_person(
    alloc: Global,
    person: &Actor,
    tables: &Tables,
    roster: &Roster,
    at: Minute,
    call: Call,
    desk: Option<Text>,
) -> Result<Routed, OutOfMemory>
    requires desks { desks_in roster.now ≡ desks_of tables.now }
    requires within { IsMoment at }
    requires call { CallHasForms call }
    ensures value { IfOk result (λ r. r ≡ spec.by_person person.now tables.now roster.now at call desk) }
    ensures form { IfOk result CanBeTaken }
{
    if !is_dispatcher_role(person.role()) {
        return by_another(alloc, person, at, call, desk);
    }
    match key_refusal(person, call.key.bytes()) {
        Some(refusal) => refused(alloc, refusal),
        None => by_dispatcher(alloc, tables, roster, at, call, desk),
    }
}

fn asked(
    alloc: Global,
    tables: &Tables,
    roster: &Roster,
    at: Minute,
    call: Call,
    desk: Option<Text>,
) -> Result<Routed, OutOfMemory>
    requires desks { desks_in roster.now ≡ desks_of tables.now }
    requires within { IsMoment at }
    requires call { CallHasForms call }
    ensures value { IfOk result (λ r. r ≡ spec.asked tables.now roster.now at call desk) }
    ensures form { IfOk result CanBeTaken }
{
    match tables.actor(call.actor.bytes()) {
        None => as_it_is(alloc, at, call),
        Some(person) => by_person(alloc, person, tables, roster, at, call, desk),
    }
}

fn handover_of(actor: Text, deal: Deal) -> Handover
    ensures { result ≡ spec.handover_of actor deal }
{
    match deal {
        Deal::Offer { desk, to } => Handover::Offer { actor, desk, to },
        Deal::Accept { desk } => Handover::Accept { actor, desk },
    }
}

fn seated_at(alloc: Global, desk: &[u8], actor: &[u8]) -> Result<Routed, OutOfMemory>
    ensures value { IfOk result (λ r. r ≡ spec.seated_at desk.now actor.now) }
    ensures form { IfOk result CanBeTaken }
{
    Ok(Routed::Replied(seated_text(alloc, desk, actor)?))
}

// The reply to an accepted handover.
fn seated(alloc: Global, handover: &Handover) -> Result<Routed, OutOfMemory>
    ensures value { IfOk result (λ r. r ≡ spec.seated handover.now) }
    ensures form { IfOk result CanBeTaken }
{
    match handover {
        Handover::Offer { actor, desk, .. } => seated_at(alloc, desk.bytes(), actor.bytes()),
        Handover::Accept { actor, desk } => seated_at(alloc, desk.bytes(), actor.bytes()),
    }
}

fn handed_over(
    alloc: Global,
    tables: &Tables,
    roster: &mut Roster,
    handover: &Handover,
) -> Result<Routed, OutOfMemory>
    ensures value { IfOk result (λ r. r ≡ spec.handed_over tables.now roster.old handover.now) }
    ensures form { IfOk result CanBeTaken }
    ensures roster { OnOk result (roster.new ≡ after_one tables.now roster.old handover.now) }
    ensures desks { desks_in roster.new ≡ desks_in roster.old }
{
    match roster.hand_over(alloc, handover, tables) {
        Ok(()) => seated(alloc, handover),
        Err(fault) => not_relieved(alloc, fault),
    }
}

fn relieved(
    alloc: Global,
    tables: &Tables,
    roster: &mut Roster,
    key: &[u8],
    actor: Text,
    deal: Deal,
) -> Result<Routed, OutOfMemory>
    ensures value { IfOk result (λ r. r ≡ spec.relieved tables.now roster.old key.now actor deal) }
    ensures form { IfOk result CanBeTaken }
    ensures roster { OnOk result (roster.new ≡ spec.after_maybe tables.now roster.old
        (spec.relief_in tables.now key.now actor deal)) }
    ensures desks { desks_in roster.new ≡ desks_in roster.old }
{
    match sender_refusal(tables.actor(actor.bytes()), key) {
        Some(refusal) => refused(alloc, refusal),
        None => handed_over(alloc, tables, roster, &handover_of(actor, deal)),
    }
}

/// Returns what a line comes to, and makes its handover, if it has one.
#[tactic(auto, unfolding(crate::specs::Routes::route, crate::specs::Routes::handover_in))]
pub(crate) fn route(
    alloc: Global,
    tables: &Tables,
    roster: &mut Roster,
    line: &[u8],
) -> Result<Routed, OutOfMemory>
    requires { desks_in roster.old ≡ desks_of tables.now }
    ensures value { IfOk result (λ r. r ≡ spec.route tables.now roster.old line.now) }
    ensures form { IfOk result CanBeTaken }
    ensures roster { OnOk result (roster.new ≡ spec.roster_after tables.now roster.old line.now) }
    ensures desks { desks_in roster.new ≡ desks_in roster.old }
{
    match read_shift(alloc, line) {
        Ok(ShiftLine::Asked { at, call, desk }) => asked(alloc, tables, roster, at, call, desk),
        Ok(
            ShiftLine::Relief {
                actor,
                key,
                deal,
                ..
            },
        ) => relieved(alloc, tables, roster, key.bytes(), actor, deal),
        Err(CallFault::Bad(fault)) => Ok(Routed::ToBoard(Item::Bad(fault))),
        Err(CallFault::OutOfMemory) => Err(OutOfMemory),
    }
}

ghost use Rattle.std.specs.Prelude.{◌≡◌, IfOk};
ghost use Rattle.compact_json.specs.Elements.{data_at};
ghost use Rattle.desk_json.specs.Faults.{Answers, NamesExtraOf, NamesUnreadOf};
ghost use Rattle.desk_json.specs.Calls.{IsFound};
ghost use Rattle.desk_json.specs.Shifts as spec;
ghost use Rattle.desk_json.specs.Shifts.{deal_kind_of, shift_or_fault, may_have, IsUnreadOfShift};
ghost use Rattle.desk_json.specs.Shifts.{IsShiftOf, ShiftHasForms, IsShiftAgain};

use crate::bad_call::{CallFault, bad, lack};
use crate::fields::{moment_of, object_at, short_of};
use crate::keys::{DealKind, Object, only_keys};
use crate::lines::call_by;
use crate::senders::sender_of;
use asks::{Call, CallWhy, document_of, text_at};
use compact_json::Element;
use desk_io::Text;
use desk_time::Minute;
use std::alloc::Global;

/// What a dispatcher does to hand over a desk, or to take it over. Names have at most 64 bytes.
#[derive(Debug, Drop)]
pub enum Deal {
    /// Offers this desk to another dispatcher.
    Offer { desk: Text, to: Text },
    /// Takes this desk, which was offered.
    Accept { desk: Text },
}

/// A line of a script of shifts.
#[derive(Debug, Drop)]
pub enum ShiftLine {
    /// A call at a moment, maybe for a desk.
    Asked {
        at: Minute,
        call: Call,
        /// The desk that the line names, at most 64 bytes.
        desk: Option<Text>,
    },
    /// A desk is offered or accepted.
    Relief {
        at: Minute,
        /// The person's name, at most 64 bytes.
        actor: Text,
        /// The person's key, at most 64 bytes.
        key: Text,
        deal: Deal,
    },
}

fn deal_kind_of(name: &str) -> Option<DealKind>
    ensures { result ≡ deal_kind_of name.now }
{
    match name {
        "offer" => Some(DealKind::Offer),
        "accept" => Some(DealKind::Accept),
        _ => None,
    }
}

fn deal_of_kind(alloc: Global, kind: DealKind, value: Element<'_>) -> Result<Deal, CallFault>
    ensures { Answers (spec.deal_of_kind kind (data_at value.entry)) result }
{
    let desk = short_of(alloc, "desk", value)?;
    match kind {
        DealKind::Offer => short_of(alloc, "to", value).map(|to| Deal::Offer { desk, to }),
        DealKind::Accept => Ok(Deal::Accept { desk }),
    }
}

// Reads the deal of an object, or returns its first fault.
fn deal_or_fault(alloc: Global, value: Element<'_>) -> Result<Deal, CallFault>
    ensures { Answers (spec.deal_or_fault (data_at value.entry)) result }
{
    let Some(name) = text_at("do", value) else {
        return Err(lack(alloc, "do", value));
    };
    let Some(kind) = deal_kind_of(name) else {
        return Err(bad(alloc, CallWhy::UnknownAsk, "do"));
    };
    only_keys(alloc, Object::Deal(kind), value)?;
    deal_of_kind(alloc, kind, value)
}

// Reads the desk that a line names, if it names one.
fn desk_of(alloc: Global, value: Element<'_>) -> Result<Option<Text>, CallFault>
    ensures { Answers (spec.desk_of (data_at value.entry)) result }
{
    match value.get("desk") {
        Some(_) => Ok(Some(short_of(alloc, "desk", value)?)),
        None => Ok(None),
    }
}

fn asked_fields(alloc: Global, value: Element<'_>) -> Result<ShiftLine, CallFault>
    ensures { Answers (spec.asked_fields (data_at value.entry)) result }
{
    let actor = short_of(alloc, "actor", value)?;
    let Some(ask) = object_at("ask", value) else {
        return Err(lack(alloc, "ask", value));
    };
    let at = moment_of(alloc, "at", value)?;
    let desk = desk_of(alloc, value)?;
    let call = call_by(alloc, actor, ask, value)?;
    Ok(ShiftLine::Asked { at, call, desk })
}

fn relief_fields(alloc: Global, value: Element<'_>) -> Result<ShiftLine, CallFault>
    ensures { Answers (spec.relief_fields (data_at value.entry)) result }
{
    let sender = sender_of(alloc, value)?;
    let Some(relief) = object_at("relief", value) else {
        return Err(lack(alloc, "relief", value));
    };
    let deal = deal_or_fault(alloc, relief)?;
    Ok(ShiftLine::Relief {
        at: sender.at,
        actor: sender.actor,
        key: sender.key,
        deal,
    })
}

fn shift_in(alloc: Global, value: Element<'_>) -> Result<ShiftLine, CallFault>
    ensures { Answers (spec.shift_in (data_at value.entry)) result }
{
    match value.get("relief") {
        Some(_) => {
            only_keys(alloc, Object::Relief, value)?;
            relief_fields(alloc, value)
        }
        None => {
            only_keys(alloc, Object::Shift, value)?;
            asked_fields(alloc, value)
        }
    }
}

#[tactic(auto, unfolding(crate::specs::Shifts::shift_or_fault))]
fn shift_in_text(alloc: Global, line: &[u8]) -> Result<ShiftLine, CallFault>
    ensures answer { Answers (shift_or_fault line.now) result }
    ensures forms { IfOk result ShiftHasForms }
{
    match document_of(alloc, line)? {
        Some(document) => shift_in(alloc, document.root()),
        None => Err(bad(alloc, CallWhy::NotJson, "")),
    }
}

/// Reads a line of a script of shifts. A line is a relief line exactly if it is an object with the key `relief`. Its
/// other keys are `actor`, `at` and `key`. Any other line is like that of `read_line`, maybe with the key `desk` added.
pub fn read_shift(alloc: Global, line: &[u8]) -> Result<ShiftLine, CallFault>
    ensures answer { Answers (shift_or_fault line.now) result }
    // The fault names the smallest unexpected key, because JSON is read with its keys in byte order.
    ensures extra { NamesExtraOf may_have line.now result }
    // Without an unexpected key, it names the smallest top-level key that is missing or has a bad value.
    ensures unread { NamesUnreadOf may_have IsUnreadOfShift line.now result }
    // A line is read exactly if the text has its fields and nothing else.
    ensures found { IsFound (IsShiftOf line.now) result }
    // A line without the keys `relief` and `desk` is read as by `read_line`.
    ensures as_line { spec.IsLine line.now result }
    // Texts are UTF-8 and numbers are within their limits, so the line can be written and read back.
    ensures forms { IfOk result ShiftHasForms }
    // The JSON of a line is read back as that line.
    ensures again { IsShiftAgain line.now result }
{
    shift_in_text(alloc, line)
}

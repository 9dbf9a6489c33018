ghost use Rattle.std.specs.Prelude.{◌≡◌, IfOk};
ghost use Rattle.compact_json.specs.Elements.{data_at};
ghost use Rattle.desk_json.specs.Faults.{Answers, NamesExtraOf, NamesUnreadOf};
ghost use Rattle.desk_json.specs.Calls.{IsFound};
ghost use Rattle.desk_json.specs.PlannedLines as spec;
ghost use Rattle.desk_json.specs.PlannedLines.{planned_kind_of, planned_or_fault, may_have, IsUnreadOfPlanned};
ghost use Rattle.desk_json.specs.PlannedLines.{IsPlannedOf, PlannedHasForms, IsPlannedAgain};

use crate::asked::release_of;
use crate::bad_call::{CallFault, bad, found, lack};
use crate::fields::{object_at, plan_of};
use crate::keys::{Object, PlannedKind, only_keys};
use crate::lines::{line_fields, number_of};
use crate::senders::{Sender, sender_of};
use asks::{Call, CallWhy, amount_at, document_of, text_at};
use compact_json::Element;
use desk_io::Text;
use desk_time::Minute;
use plan::Plan;
use std::alloc::Global;

/// A line of a script of planned redispatches (14 CFR 121.631). Names and keys have at most 64 bytes.
#[derive(Debug, Drop)]
pub enum PlannedLine {
    /// A call at a moment.
    Asked {
        at: Minute,
        call: Call,
    },
    /// Files a final plan, to be taken up on a leg of a release.
    File {
        at: Minute,
        /// The person's name.
        actor: Text,
        /// The person's key.
        key: Text,
        release: u64,
        /// The number of the leg as the line has it, up to 4,294,967,295.
        leg: u32,
        plan: Plan,
    },
    /// Judges a release and the final plan that is filed for it.
    Check {
        at: Minute,
        /// The person's name.
        actor: Text,
        /// The person's key.
        key: Text,
        release: u64,
    },
    /// Amends a release in flight with the final plan that is filed for it.
    Turn {
        at: Minute,
        /// The person's name.
        actor: Text,
        /// The person's key.
        key: Text,
        /// The person's own number for the request, at most 10^12.
        number: u64,
        release: u64,
    },
}

fn planned_kind_of(name: &str) -> Option<PlannedKind>
    ensures { result ≡ planned_kind_of name.now }
{
    match name {
        "file" => Some(PlannedKind::File),
        "check" => Some(PlannedKind::Check),
        _ => None,
    }
}

fn is_turn(planned: Element<'_>) -> bool
    ensures { result ≡ spec.is_turn (data_at planned.entry) }
{
    match text_at("do", planned) {
        Some(name) => name == "turn",
        None => false,
    }
}

fn file_of(alloc: Global, sender: Sender, value: Element<'_>) -> Result<PlannedLine, CallFault>
    ensures { Answers (spec.filed_of_kind sender PlannedKind.File (data_at value.entry)) result }
{
    let leg = found(alloc, "leg", value, amount_at("leg", value))?;
    let plan = plan_of(alloc, "plan", value)?;
    let release = release_of(alloc, value)?;
    Ok(PlannedLine::File {
        at: sender.at,
        actor: sender.actor,
        key: sender.key,
        release,
        leg,
        plan,
    })
}

fn check_of(alloc: Global, sender: Sender, value: Element<'_>) -> Result<PlannedLine, CallFault>
    ensures { Answers (spec.filed_of_kind sender PlannedKind.Check (data_at value.entry)) result }
{
    let release = release_of(alloc, value)?;
    Ok(PlannedLine::Check {
        at: sender.at,
        actor: sender.actor,
        key: sender.key,
        release,
    })
}

// Reads what a line files or checks, or returns its first fault.
fn filed_or_fault(
    alloc: Global,
    sender: Sender,
    value: Element<'_>,
) -> Result<PlannedLine, CallFault>
    ensures { Answers (spec.filed_or_fault sender (data_at value.entry)) result }
{
    let Some(name) = text_at("do", value) else {
        return Err(lack(alloc, "do", value));
    };
    let Some(kind) = planned_kind_of(name) else {
        return Err(bad(alloc, CallWhy::UnknownAsk, "do"));
    };
    only_keys(alloc, Object::Filed(kind), value)?;
    match kind {
        PlannedKind::File => file_of(alloc, sender, value),
        PlannedKind::Check => check_of(alloc, sender, value),
    }
}

fn filed_fields(alloc: Global, value: Element<'_>) -> Result<PlannedLine, CallFault>
    ensures { Answers (spec.filed_fields (data_at value.entry)) result }
{
    let sender = sender_of(alloc, value)?;
    match object_at("planned", value) {
        Some(planned) => filed_or_fault(alloc, sender, planned),
        None => Err(lack(alloc, "planned", value)),
    }
}

// Reads the release of a turn.
fn turned_of(alloc: Global, planned: Element<'_>) -> Result<u64, CallFault>
    ensures { Answers (spec.turned_of (data_at planned.entry)) result }
{
    only_keys(alloc, Object::Turned, planned)?;
    release_of(alloc, planned)
}

fn turn_fields(alloc: Global, value: Element<'_>) -> Result<PlannedLine, CallFault>
    ensures { Answers (spec.turn_fields (data_at value.entry)) result }
{
    let sender = sender_of(alloc, value)?;
    let number = number_of(alloc, value)?;
    let Some(planned) = object_at("planned", value) else {
        return Err(lack(alloc, "planned", value));
    };
    let release = turned_of(alloc, planned)?;
    Ok(PlannedLine::Turn {
        at: sender.at,
        actor: sender.actor,
        key: sender.key,
        number,
        release,
    })
}

fn asked_fields(alloc: Global, value: Element<'_>) -> Result<PlannedLine, CallFault>
    ensures { Answers (spec.asked_fields (data_at value.entry)) result }
{
    let (at, call) = line_fields(alloc, value)?;
    Ok(PlannedLine::Asked { at, call })
}

fn planned_in(alloc: Global, value: Element<'_>) -> Result<PlannedLine, CallFault>
    ensures { Answers (spec.planned_in (data_at value.entry)) result }
{
    match value.get("planned") {
        None => {
            only_keys(alloc, Object::Line, value)?;
            asked_fields(alloc, value)
        }
        Some(planned) if is_turn(planned) => {
            only_keys(alloc, Object::Turn, value)?;
            turn_fields(alloc, value)
        }
        Some(_) => {
            only_keys(alloc, Object::Planned, value)?;
            filed_fields(alloc, value)
        }
    }
}

#[tactic(auto, unfolding(crate::specs::PlannedLines::planned_or_fault))]
fn planned_in_text(alloc: Global, line: &[u8]) -> Result<PlannedLine, CallFault>
    ensures answer { Answers (planned_or_fault line.now) result }
    ensures forms { IfOk result PlannedHasForms }
{
    match document_of(alloc, line)? {
        Some(document) => planned_in(alloc, document.root()),
        None => Err(bad(alloc, CallWhy::NotJson, "")),
    }
}

/// Reads a line of a script of planned redispatches. A line is a planned line exactly if it is an object with the key
/// `planned`. Its other keys are `actor`, `at` and `key`, and for a turn `number`. Any other line is that of
/// `read_line`.
pub fn read_planned(alloc: Global, line: &[u8]) -> Result<PlannedLine, CallFault>
    ensures answer { Answers (planned_or_fault line.now) result }
    // The fault names the smallest unexpected key, because JSON is read with its keys in byte order.
    ensures extra { NamesExtraOf may_have line.now result }
    // Without an unexpected key, it names the smallest top-level key that is missing or has a bad value.
    ensures unread { NamesUnreadOf may_have IsUnreadOfPlanned line.now result }
    // A line is read exactly if the text has its fields and nothing else.
    ensures found { IsFound (IsPlannedOf line.now) result }
    // A line without the key `planned` is read as by `read_line`.
    ensures as_line { spec.IsLine line.now result }
    // Texts are UTF-8 and numbers are within their limits, so the line can be written and read back.
    ensures forms { IfOk result PlannedHasForms }
    // The JSON of a line is read back as that line.
    ensures again { IsPlannedAgain line.now result }
{
    planned_in_text(alloc, line)
}

ghost use Rattle.std.specs.Prelude.{◌≡◌};
ghost use Rattle.std.specs.Option.{option_map};
ghost use Rattle.compact_json.specs.Elements.{data_at, keys_left};
ghost use Rattle.desk_json.specs.Keys as spec;
ghost use Rattle.desk_json.specs.Faults.{kind_of, Answers};

use crate::bad_call::{CallFault, bad};
use asks::CallWhy;
use compact_json::{Element, Keys};
use std::alloc::Global;

/// The kinds of asks.
#[derive(Clone, Copy)]
pub(crate) enum AskKind {
    Admit,
    Defer,
    Clear,
    Draft,
    Prepare,
    Sign,
    Concur,
    Amend,
    Cancel,
    Depart,
    Arrive,
    Acknowledge,
    Purge,
    Sweep,
    Board,
    Alerts,
    Release,
    Weather,
    Deferred,
}

/// The kinds of the `relief` of a line.
#[derive(Clone, Copy)]
pub(crate) enum DealKind {
    Offer,
    Accept,
}

/// The kinds of the `planned` of a line, besides a turn.
#[derive(Clone, Copy)]
pub(crate) enum PlannedKind {
    File,
    Check,
}

/// An object with its own set of keys.
#[derive(Clone, Copy)]
pub(crate) enum Object {
    /// A call.
    Call,
    /// A line of a script: a call at a moment.
    Line,
    /// A line of a script of shifts, unless it is a relief line: a call at a moment, maybe for a desk.
    Shift,
    /// A relief line.
    Relief,
    /// A planned line, unless it is a turn.
    Planned,
    /// A planned line that is a turn.
    Turn,
    /// The `ask` of a call.
    Asked(AskKind),
    /// The `relief` of a relief line.
    Deal(DealKind),
    /// The `planned` of a planned line, unless it is a turn.
    Filed(PlannedKind),
    /// The `planned` of a turn.
    Turned,
}

fn is_asked(kind: AskKind, key: &str) -> bool
    ensures { result ≡ spec.is_asked kind key.now }
{
    match kind {
        AskKind::Admit => key == "text",
        AskKind::Defer => key == "found" || key == "item" || key == "tail",
        AskKind::Clear => key == "deferral",
        AskKind::Draft => key == "plan",
        AskKind::Sign | AskKind::Concur => {
            key == "digest" || key == "release" || key == "revision"
        }
        AskKind::Amend => key == "plan" || key == "release",
        AskKind::Depart | AskKind::Arrive => key == "leg" || key == "release",
        AskKind::Acknowledge => key == "release" || key == "version",
        AskKind::Prepare | AskKind::Cancel | AskKind::Purge | AskKind::Release => key == "release",
        AskKind::Sweep => key == "before",
        AskKind::Board | AskKind::Alerts => false,
        AskKind::Weather => key == "station",
        AskKind::Deferred => key == "tail",
    }
}

fn is_call_key(key: &str) -> bool
    ensures { result ≡ spec.is_call_key key.now }
{
    key == "actor" || key == "ask" || key == "key" || key == "number"
}

fn is_signed_key(key: &str) -> bool
    ensures { result ≡ spec.is_signed_key key.now }
{
    key == "actor" || key == "at" || key == "key"
}

fn is_dealt(kind: DealKind, key: &str) -> bool
    ensures { result ≡ spec.is_dealt kind key.now }
{
    match kind {
        DealKind::Offer => key == "desk" || key == "to",
        DealKind::Accept => key == "desk",
    }
}

fn is_filed(kind: PlannedKind, key: &str) -> bool
    ensures { result ≡ spec.is_filed kind key.now }
{
    match kind {
        PlannedKind::File => key == "leg" || key == "plan" || key == "release",
        PlannedKind::Check => key == "release",
    }
}

fn is_key(object: Object, key: &str) -> bool
    ensures { result ≡ spec.is_key object key.now }
{
    match object {
        Object::Call => is_call_key(key),
        Object::Line => key == "at" || is_call_key(key),
        Object::Shift => key == "desk" || (key == "at" || is_call_key(key)),
        Object::Relief => key == "relief" || is_signed_key(key),
        Object::Planned => key == "planned" || is_signed_key(key),
        Object::Turn => key == "number" || (key == "planned" || is_signed_key(key)),
        Object::Asked(kind) => key == "do" || is_asked(kind, key),
        Object::Deal(kind) => key == "do" || is_dealt(kind, key),
        Object::Filed(kind) => key == "do" || is_filed(kind, key),
        Object::Turned => key == "do" || key == "release",
    }
}

// Returns the smallest unexpected key in byte order.
fn first_extra<'a>(object: Object, keys: Keys<'a>) -> Option<&'a str>
    ensures { option_map (λ s. s.now) result ≡ spec.first_extra object (keys_left keys.entry) }
{
    let mut left = keys;
    'keys: while let Some(key) = left.next() {
        if !is_key(object, key) {
            return Some(key);
        }
    }
    None
}

/// Returns a fault if the value isn't an object, or has an unexpected key.
pub(crate) fn only_keys(alloc: Global, object: Object, value: Element<'_>) -> Result<(), CallFault>
    ensures { Answers (spec.only_keys object (data_at value.entry)) result }
{
    let Some(keys) = value.keys() else {
        return Err(bad(alloc, CallWhy::NotObject, ""));
    };
    match first_extra(object, keys) {
        Some(key) => Err(bad(alloc, CallWhy::Extra, key)),
        None => Ok(()),
    }
}

/// Returns the kind of ask with this name.
pub(crate) fn kind_of(name: &str) -> Option<AskKind>
    ensures { result ≡ kind_of name.now }
{
    match name {
        "admit" => Some(AskKind::Admit),
        "draft" => Some(AskKind::Draft),
        "amend" => Some(AskKind::Amend),
        "defer" => Some(AskKind::Defer),
        "clear" => Some(AskKind::Clear),
        "deferred" => Some(AskKind::Deferred),
        "prepare" => Some(AskKind::Prepare),
        "sign" => Some(AskKind::Sign),
        "concur" => Some(AskKind::Concur),
        "cancel" => Some(AskKind::Cancel),
        "depart" => Some(AskKind::Depart),
        "arrive" => Some(AskKind::Arrive),
        "acknowledge" => Some(AskKind::Acknowledge),
        "purge" => Some(AskKind::Purge),
        "sweep" => Some(AskKind::Sweep),
        "board" => Some(AskKind::Board),
        "alerts" => Some(AskKind::Alerts),
        "release" => Some(AskKind::Release),
        "weather" => Some(AskKind::Weather),
        _ => None,
    }
}

ghost use Rattle.std.specs.Prelude.{◌≡◌, codes, IfOk};
ghost use Rattle.compact_json.specs.Elements.{data_at};
ghost use Rattle.desk_time.specs.Limits.{IsMoment};
ghost use Rattle.asks.specs.Forms.{CallHasForms};
ghost use Rattle.desk_json.specs.Keys.{is_call_key, is_line_key, need};
ghost use Rattle.desk_json.specs.Faults as spec;
ghost use Rattle.desk_json.specs.Faults.{call_or_fault, line_or_fault, Answers};
ghost use Rattle.desk_json.specs.Faults.{IsUnreadOfCall, IsUnreadOfLine, NamesExtra, NamesUnread};
ghost use Rattle.desk_json.specs.Calls.{IsFound, IsCallOf, IsLineOf};
ghost use Rattle.desk_json.specs.Canonical.{LineHasForms, IsLineAgain, IsCallAgain};

use crate::asked::ask_or_fault;
use crate::bad_call::{CallFault, bad, found, lack};
use crate::fields::{moment_of, object_at, short_of};
use crate::keys::{Object, only_keys};
use asks::{Call, CallWhy, document_of, number_at};
use compact_json::Element;
use desk_io::Text;
use desk_time::Minute;
use std::alloc::Global;

/// Reads the number of a request.
pub(crate) fn number_of(alloc: Global, value: Element<'_>) -> Result<u64, CallFault>
    ensures { Answers (need spec.request_at (codes "number") (data_at value.entry)) result }
{
    let number = number_at("number", 1_000_000_000_000, value);
    found(alloc, "number", value, number)
}

/// Reads the key, the number and the ask of a call whose other keys are read already.
pub(crate) fn call_by(
    alloc: Global,
    actor: Text,
    ask: Element<'_>,
    value: Element<'_>,
) -> Result<Call, CallFault>
    ensures { Answers (spec.call_by actor (data_at ask.entry) (data_at value.entry)) result }
{
    let key = short_of(alloc, "key", value)?;
    let number = number_of(alloc, value)?;
    let ask = ask_or_fault(alloc, ask)?;
    Ok(Call {
        actor,
        key,
        number,
        ask,
    })
}

fn call_in(alloc: Global, value: Element<'_>) -> Result<Call, CallFault>
    ensures { Answers (spec.call_in (data_at value.entry)) result }
{
    only_keys(alloc, Object::Call, value)?;
    let actor = short_of(alloc, "actor", value)?;
    match object_at("ask", value) {
        Some(ask) => call_by(alloc, actor, ask, value),
        None => Err(lack(alloc, "ask", value)),
    }
}

/// Reads the keys of a line, and then its ask.
pub(crate) fn line_fields(alloc: Global, value: Element<'_>) -> Result<(Minute, Call), CallFault>
    ensures { Answers (spec.line_fields (data_at value.entry)) result }
{
    let actor = short_of(alloc, "actor", value)?;
    let Some(ask) = object_at("ask", value) else {
        return Err(lack(alloc, "ask", value));
    };
    let at = moment_of(alloc, "at", value)?;
    Ok((at, call_by(alloc, actor, ask, value)?))
}

fn line_in(alloc: Global, value: Element<'_>) -> Result<(Minute, Call), CallFault>
    ensures { Answers (spec.line_in (data_at value.entry)) result }
{
    only_keys(alloc, Object::Line, value)?;
    line_fields(alloc, value)
}

#[tactic(auto, unfolding(crate::specs::Faults::call_or_fault))]
fn call_in_text(alloc: Global, bytes: &[u8]) -> Result<Call, CallFault>
    ensures answer { Answers (call_or_fault bytes.now) result }
    ensures forms { IfOk result CallHasForms }
{
    match document_of(alloc, bytes)? {
        Some(document) => call_in(alloc, document.root()),
        None => Err(bad(alloc, CallWhy::NotJson, "")),
    }
}

#[tactic(auto, unfolding(crate::specs::Faults::line_or_fault))]
fn line_in_text(alloc: Global, line: &[u8]) -> Result<(Minute, Call), CallFault>
    ensures answer { Answers (line_or_fault line.now) result }
    ensures forms { IfOk result LineHasForms }
{
    match document_of(alloc, line)? {
        Some(document) => line_in(alloc, document.root()),
        None => Err(bad(alloc, CallWhy::NotJson, "")),
    }
}

/// Reads the call in the body of a request. It is a JSON object with exactly the keys `actor`, `ask`, `key` and
/// `number`, each with a value of its form. Otherwise returns the first fault, unless memory runs out.
pub fn read_call(alloc: Global, bytes: &[u8]) -> Result<Call, CallFault>
    ensures answer { Answers (call_or_fault bytes.now) result }
    // The fault names the smallest unexpected key, because JSON is read with its keys in byte order.
    ensures extra { NamesExtra is_call_key bytes.now result }
    // Without an unexpected key, it names the smallest top-level key that is missing or has a bad value.
    ensures unread { NamesUnread is_call_key IsUnreadOfCall bytes.now result }
    // A call is read exactly if the text has its fields and nothing else.
    ensures found { IsFound (IsCallOf bytes.now) result }
    // Texts are UTF-8 and numbers are within their limits, so the ask can be written and read back.
    ensures forms { IfOk result CallHasForms }
    // The JSON of a call is read back as that call.
    ensures again { IsCallAgain bytes.now result }
{
    call_in_text(alloc, bytes)
}

/// Reads the moment and the call of a line of a script. The line is like the body of a request, with the key `at`
/// added.
pub fn read_line(alloc: Global, line: &[u8]) -> Result<(Minute, Call), CallFault>
    ensures answer { Answers (line_or_fault line.now) result }
    // The fault names the smallest unexpected key. `proofs/Least.antt` proves this for the keys of an ask, too.
    ensures extra { NamesExtra is_line_key line.now result }
    // Without an unexpected key, it names the smallest top-level key that is missing or has a bad value.
    ensures unread { NamesUnread is_line_key IsUnreadOfLine line.now result }
    // A line is read exactly if the text has its fields and nothing else.
    ensures found { IsFound (IsLineOf line.now) result }
    ensures range { IfOk result (λ p. IsMoment p.0) }
    // Texts are UTF-8 and numbers are within their limits, so the ask can be written and read back.
    ensures forms { IfOk result (λ p. CallHasForms p.1) }
    // The JSON of a moment and a call is read back as these.
    ensures again { IsLineAgain line.now result }
{
    line_in_text(alloc, line)
}

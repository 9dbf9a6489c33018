ghost use Rattle.std.specs.Prelude.{◌≡◌, ◌↔◌, ℕ, Ok, IfOk};
ghost use Rattle.asks.specs.declared.call.Call.{Call as ACall};
ghost use Rattle.imports.specs.Records as spec;
ghost use Rattle.imports.specs.Records.{HasForms, IsRecordOf};

use crate::fields::{is_short, is_text};
use asks::{Ask, BadCall, Call, CallWhy, HeldCall};
use desk_io::{OutOfMemory, Text};
use desk_time::{Minute, read_minute, read_number};
use std::alloc::Global;

/// The moment and the call of a record, or its first fault.
pub type Line = Result<(Minute, HeldCall), BadCall>;

fn bad(alloc: Global, why: CallWhy, key: &str) -> Result<Line, OutOfMemory>
    ensures value { IfOk result (λ line. line ≡ spec.bad why key.now) }
    ensures forms { IfOk result HasForms }
{
    let key = Text::of(alloc, key.as_bytes())?;
    Ok(Err(BadCall { why, key }))
}

fn bad_value(alloc: Global, key: &str) -> Result<Line, OutOfMemory>
    ensures value { IfOk result (λ line. line ≡ spec.bad CallWhy.BadValue key.now) }
    ensures forms { IfOk result HasForms }
{
    bad(alloc, CallWhy::BadValue, key)
}

// Returns a person's call that admits a report.
fn admit_of(
    alloc: Global,
    actor: &[u8],
    key: &[u8],
    number: u64,
    text: &[u8],
) -> Result<Call, OutOfMemory>
    ensures { IfOk result (λ call. call ≡ spec.admit_of actor.now key.now number text.now) }
{
    Ok(Call {
        actor: Text::of(alloc, actor)?,
        key: Text::of(alloc, key)?,
        number,
        ask: Ask::Admit {
            text: Text::of(alloc, text)?,
        },
    })
}

// Reads a line of five fields.
fn line_of(
    alloc: Global,
    actor: &[u8],
    key: &[u8],
    number: &[u8],
    at: &[u8],
    text: &[u8],
) -> Result<Line, OutOfMemory>
    ensures value { IfOk result (λ line. line ≡ spec.line_of actor.now key.now number.now at.now text.now) }
    ensures forms { IfOk result HasForms }
{
    if !is_short(actor) {
        return bad_value(alloc, "actor");
    }
    if !is_short(key) {
        return bad_value(alloc, "key");
    }
    let Some(number) = read_number(1_000_000_000_000, number) else {
        return bad_value(alloc, "number");
    };
    let Some(at) = read_minute(at) else {
        return bad_value(alloc, "at");
    };
    if !is_text(text) {
        return bad_value(alloc, "text");
    }
    let call = admit_of(alloc, actor, key, number, text)?;
    Ok(Ok((at, HeldCall::of(alloc, call)?)))
}

fn record_or_fault(alloc: Global, fields: &[Text]) -> Result<Line, OutOfMemory>
    ensures value { IfOk result (λ line. line ≡ spec.record_or_fault fields.now) }
    ensures forms { IfOk result HasForms }
{
    match fields {
        [actor, key, number, at, text] => line_of(
            alloc,
            actor.bytes(),
            key.bytes(),
            number.bytes(),
            at.bytes(),
            text.bytes(),
        ),
        _ => bad(alloc, CallWhy::Missing, "record"),
    }
}

/// Reads the moment and the call of a record with the fields `actor,key,number,at,text`. The call admits the text.
/// The fault is that there aren't five fields, or the first malformed field.
pub fn read_record(alloc: Global, fields: &[Text]) -> Result<Line, OutOfMemory>
    ensures value { IfOk result (λ line. line ≡ spec.record_or_fault fields.now) }
    // A record is read as a call exactly if it is the record that is written for that call.
    ensures exact { IfOk result (λ line. (at : ℕ) → (call : ACall)
        → (line ≡ Ok (at, call)) ↔ IsRecordOf at call fields.now) }
    ensures forms { IfOk result HasForms }
{
    record_or_fault(alloc, fields)
}

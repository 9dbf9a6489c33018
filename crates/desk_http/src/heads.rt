ghost use Rattle.std.specs.Prelude.{◌≡◌, ◌==◌, IfOk, position, take};
ghost use Rattle.httparse.specs.Spans.{span_bytes};
ghost use Rattle.desk_http.specs.Heads as spec;
ghost use Rattle.desk_http.specs.Heads.{fields_at};

use crate::fields::{body_length, closes, first_spans, first_value, part};
use crate::{Asked, WireFault};
use desk_io::{OutOfMemory, Text};
use httparse::spans::{HeaderSpan, RequestSpans};
use std::alloc::Global;

/// The largest body, in bytes: 1 MiB.
pub const BODY_LIMIT: u64 = 1_048_576;

fn question_mark(target: &[u8]) -> Option<usize>
    ensures { result ≡ position (λ b. b == 63) target.now }
{
    target.iter().position(|b| *b == b'?')
}

fn path_of(target: &[u8]) -> &[u8]
    ensures { result.now ≡ spec.path_of target.now }
{
    match question_mark(target) {
        None => target,
        Some(place) => &target[..place],
    }
}

fn got(method: &[u8]) -> Option<bool>
    ensures { result ≡ spec.got method.now }
{
    if method == b"GET".as_slice() {
        Some(true)
    } else if method == b"POST".as_slice() {
        Some(false)
    } else {
        None
    }
}

fn is_last(bytes: &[u8], minor: u8, spans: &[HeaderSpan]) -> bool
    ensures { result ≡ spec.is_last minor (fields_at bytes.now spans.now) }
{
    minor == 0 || closes(bytes, spans)
}

fn asked_with(
    alloc: Global,
    bytes: &[u8],
    get: bool,
    length: u64,
    head: &RequestSpans,
    spans: &[HeaderSpan],
) -> Result<Asked, OutOfMemory>
    ensures { IfOk result (λ a. a ≡ spec.asked_with get length (span_bytes bytes.now head.now.path) head.now.version
        (fields_at bytes.now spans.now)) }
{
    let path = Text::of(alloc, path_of(part(bytes, head.path)))?;
    let actor = Text::of(alloc, first_value(bytes, b"Desk-Actor", spans))?;
    let key = Text::of(alloc, first_value(bytes, b"Desk-Key", spans))?;
    Ok(Asked {
        get,
        path,
        actor,
        key,
        length,
        last: is_last(bytes, head.version, spans),
    })
}

fn asked_by(
    alloc: Global,
    bytes: &[u8],
    head: &RequestSpans,
    spans: &[HeaderSpan],
) -> Result<Result<Asked, WireFault>, OutOfMemory>
    ensures limit { IfOk result spec.IsWithinLimit }
    ensures value { IfOk result (λ r. r ≡ spec.asked_by (spec.got (span_bytes bytes.now head.now.method))
        (span_bytes bytes.now head.now.path) head.now.version (fields_at bytes.now spans.now)) }
{
    let Some(get) = got(part(bytes, head.method)) else {
        return Ok(Err(WireFault::WrongMethod));
    };
    let Some(length) = body_length(bytes, get, spans) else {
        return Ok(Err(WireFault::NoLength));
    };
    if length > BODY_LIMIT {
        return Ok(Err(WireFault::TooLarge));
    }
    Ok(Ok(asked_with(alloc, bytes, get, length, head, spans)?))
}

/// Checks a whole head, and returns what it asks for. The faults are checked in the order `WrongMethod`, `NoLength`,
/// `TooLarge`. `bytes`, `head` and `spans` are those of `front_of`.
#[tactic(auto, unfolding(crate::specs::Heads::asked))]
pub fn asked(
    alloc: Global,
    bytes: &[u8],
    head: &RequestSpans,
    spans: &[HeaderSpan],
) -> Result<Result<Asked, WireFault>, OutOfMemory>
    ensures limit { IfOk result spec.IsWithinLimit }
    ensures value { IfOk result (λ r. r ≡ spec.asked (span_bytes bytes.now head.now.method)
        (span_bytes bytes.now head.now.path) head.now.version (fields_at bytes.now (take head.now.headers spans.now))) }
{
    asked_by(alloc, bytes, head, first_spans(spans, head.headers))
}

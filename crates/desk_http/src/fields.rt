ghost use Rattle.std.specs.Prelude.{◌≡◌, ◌≤◌, codes, length, take, slice_range};
ghost use Rattle.std.specs.List.{list_any};
ghost use Rattle.std.specs.Str.{str_eq_ignore_ascii_case};
ghost use Rattle.httparse.specs.Spans.{span_bytes, header_bytes};
ghost use Rattle.desk_http.specs.Heads as spec;
ghost use Rattle.desk_http.specs.Heads.{fields_at};

use crate::digits::number_of;
use httparse::spans::{HeaderSpan, Span};

/// The first `count` bytes, or all of them if there are fewer.
pub(crate) fn front(bytes: &[u8], count: usize) -> &[u8]
    ensures value { result.now ≡ take count bytes.now }
    ensures short { length result.now ≤ count }
{
    if count < bytes.len() {
        &bytes[..count]
    } else {
        bytes
    }
}

/// The bytes that a span covers.
pub(crate) fn part(bytes: &[u8], span: Span) -> &[u8]
    ensures { result.now ≡ span_bytes bytes.now span }
{
    if span.start < bytes.len() {
        front(&bytes[span.start..], span.end.saturating_sub(span.start))
    } else {
        &[]
    }
}

/// The first `count` spans, or all of them if there are fewer.
pub(crate) fn first_spans(spans: &[HeaderSpan], count: usize) -> &[HeaderSpan]
    ensures { result.now ≡ take count spans.now }
{
    if count < spans.len() {
        &spans[..count]
    } else {
        spans
    }
}

// Compares two texts, ignoring the case of ASCII letters.
fn is_same(one: &[u8], two: &[u8]) -> bool
    ensures { result ≡ str_eq_ignore_ascii_case one.now two.now }
{
    one.eq_ignore_ascii_case(two)
}

fn is_named(bytes: &[u8], name: &[u8], span: &HeaderSpan) -> bool
    ensures { result ≡ spec.is_named name.now (header_bytes bytes.now span.now) }
{
    is_same(part(bytes, span.name), name)
}

/// The fields from the first one with this name on.
pub(crate) fn from_first<'a>(bytes: &[u8], name: &[u8], spans: &'a [HeaderSpan]) -> &'a [HeaderSpan]
    ensures { fields_at bytes.now result.now ≡ spec.from_first name.now (fields_at bytes.now spans.now) }
{
    let mut rest = spans;
    while let [span, after @ ..] = rest {
        if is_named(bytes, name, span) {
            return rest;
        }
        rest = after;
    }
    rest
}

/// The value of the first field with this name, or nothing.
pub(crate) fn first_value<'a>(bytes: &'a [u8], name: &[u8], spans: &[HeaderSpan]) -> &'a [u8]
    ensures { result.now ≡ spec.first_value name.now (fields_at bytes.now spans.now) }
{
    match from_first(bytes, name, spans) {
        [] => &[],
        [span, ..] => part(bytes, span.value),
    }
}

fn has_field(bytes: &[u8], name: &[u8], spans: &[HeaderSpan]) -> bool
    ensures { result ≡ spec.has_field name.now (fields_at bytes.now spans.now) }
{
    match from_first(bytes, name, spans) {
        [] => false,
        [_, ..] => true,
    }
}

// The length in the only Content-Length, of 1 to 7 digits. `spans` begins with the first Content-Length. A GET may
// lack one.
fn stated_length(bytes: &[u8], get: bool, spans: &[HeaderSpan]) -> Option<u64>
    ensures { result ≡ spec.stated_length get (fields_at bytes.now spans.now) }
{
    match spans {
        [] => { if get { Some(0) } else { None } }
        [span, rest @ ..] => {
            if has_field(bytes, b"Content-Length", rest) {
                None
            } else {
                number_of(7, part(bytes, span.value))
            }
        }
    }
}

/// The length of the body (RFC 9112, section 6). None if it isn't stated as it must be, or if there is a transfer
/// coding.
pub(crate) fn body_length(bytes: &[u8], get: bool, spans: &[HeaderSpan]) -> Option<u64>
    ensures { result ≡ spec.body_length get (fields_at bytes.now spans.now) }
{
    if has_field(bytes, b"Transfer-Encoding", spans) {
        None
    } else {
        stated_length(bytes, get, from_first(bytes, b"Content-Length", spans))
    }
}

fn is_closing(bytes: &[u8], span: &HeaderSpan) -> bool
    ensures { result ≡ spec.is_closing (header_bytes bytes.now span.now) }
{
    is_named(bytes, b"Connection", span) && is_same(part(bytes, span.value), b"close")
}

/// Returns true if some Connection field is `close`.
pub(crate) fn closes(bytes: &[u8], spans: &[HeaderSpan]) -> bool
    ensures { result ≡ list_any spec.is_closing (fields_at bytes.now spans.now) }
{
    for span in spans {
        if is_closing(bytes, span) {
            return true;
        }
    }
    false
}

ghost use Rattle.std.specs.Prelude.{◌≡◌, ◌<◌, ◌≤◌, ◌+◌, ◌-◌, length, drop, slice_range, IfOk, OnOk, OnErr};
ghost use Rattle.desk_io.specs.Health.{HasCause};
ghost use Rattle.desk_net.specs.Seen.{LinkGoesOn};
ghost use Rattle.desk_net.specs.Streams.{unread, OnlyRead};
ghost use Rattle.desk_http.specs.Reading as spec;
ghost use Rattle.desk_http.specs.Reading.{input_of};
ghost use Rattle.desk_http.specs.Requests.{NextCrossed, NextRequest, unused, wire_of, AnswersUnused};

use crate::reading::{head_bytes, read_head, read_up_to};
use crate::{Asked, Buffer, FIELD_ROOM, Wire, WireFault, asked};
use desk_io::{OutOfMemory, Text};
use desk_net::Link;
use httparse::spans::{EMPTY_HEADER_SPAN, HeaderSpan};
use std::alloc::Global;

// Makes room for the fields of a head.
fn make_room(spans: &mut Vec<HeaderSpan>) -> Result<(), OutOfMemory>
    ensures { OnOk result (FIELD_ROOM ≤ length spans.new.items) }
{
    if spans.len() < FIELD_ROOM {
        spans.resize(FIELD_ROOM, EMPTY_HEADER_SPAN)?;
    }
    Ok(())
}

// Reads a whole head, and returns what it asks for and where it ends.
fn begin<N: Link>(
    alloc: Global,
    link: &mut N,
    bytes: &mut Vec<u8>,
    spans: &mut [HeaderSpan],
) -> Result<(Asked, usize), WireFault>
    requires { FIELD_ROOM ≤ length spans.old }
    ensures next { spec.Begun (input_of (N.seen link.old)) (input_of (N.seen link.new))
        bytes.old.items bytes.new.items result }
    ensures same { OnlyRead (N.seen link.old).stream (N.seen link.new).stream }
    ensures on { LinkGoesOn (N.seen link.old) (N.seen link.new) }
    ensures cause { HasCause WireFault.ReadFault (N.seen link.old).health (N.seen link.new).health result }
{
    let head = read_head(link, bytes, spans)?;
    match asked(alloc, head_bytes(bytes), &head, spans)? {
        Ok(asked) => Ok((asked, head.len)),
        Err(fault) => Err(fault),
    }
}

// Drops the first `count` bytes. Allocates nothing.
fn cut(bytes: &mut Vec<u8>, count: usize)
    requires { count ≤ length bytes.old.items }
    ensures { bytes.new.items ≡ drop count bytes.old.items }
{
    let left = bytes.len() - count;
    bytes.rotate_left(count);
    bytes.truncate(left);
}

// Returns the request whose body is between two places, and drops all bytes up to the end of the body.
fn finish(
    alloc: Global,
    bytes: &mut Vec<u8>,
    asked: Asked,
    start: usize,
    end: usize,
) -> Result<Wire, OutOfMemory>
    requires order { start ≤ end }
    requires within { end ≤ length bytes.old.items }
    ensures wire { IfOk result (λ w. w ≡ wire_of asked (slice_range bytes.old.items start end)) }
    ensures left { OnOk result (bytes.new.items ≡ drop end bytes.old.items) }
    ensures err { OnErr result (bytes.new.items ≡ bytes.old.items) }
{
    let body = Text::of(alloc, &bytes[start..end])?;
    cut(bytes, end);
    let Asked {
        get,
        path,
        actor,
        key,
        length: _,
        last,
    } = asked;
    Ok(Wire {
        get,
        path,
        actor,
        key,
        body,
        last,
    })
}

fn request_in<N: Link>(
    alloc: Global,
    link: &mut N,
    bytes: &mut Vec<u8>,
    spans: &mut [HeaderSpan],
) -> Result<Wire, WireFault>
    requires { FIELD_ROOM ≤ length spans.old }
    ensures next { spec.Nexts (input_of (N.seen link.old)) (input_of (N.seen link.new))
        bytes.old.items bytes.new.items result }
    ensures same { OnlyRead (N.seen link.old).stream (N.seen link.new).stream }
    ensures on { LinkGoesOn (N.seen link.old) (N.seen link.new) }
    ensures cause { HasCause WireFault.ReadFault (N.seen link.old).health (N.seen link.new).health result }
{
    let (asked, start) = begin(alloc, link, bytes, spans)?;
    let end = start + asked.length as usize;
    if !read_up_to(link, bytes, end)? {
        return Err(WireFault::Cut);
    }
    Ok(finish(alloc, bytes, asked, start, end)?)
}

/// Reads the next request of a connection (RFC 9112, sections 2 to 6). It's the first request in the unused bytes:
/// those in the buffer, and then those still to be read. Bytes after the request stay unused. The sizes of the reads
/// make no difference.
///
/// `End` means that there are no unused bytes, and `Cut` that they end within a request. `TooLarge` means that the
/// first `HEAD_LIMIT` bytes contain no whole head. `BadHead` means that the bytes can't become a head, whatever
/// follows. It may replace `Cut` and `TooLarge` when it applies as well.
///
/// A whole head is checked before the rest of its body is awaited. The checks are for `WrongMethod`, then for
/// `NoLength`, and then for `TooLarge`, a body of more than `BODY_LIMIT` bytes.
///
/// `ReadFault` means that the link failed and counted a fault, before a whole request was read. Nothing is written.
/// Don't use the buffer after a fault.
///
/// The record of what crossed the link gains the pieces that the reads returned, and nothing else. They are the bytes
/// of which all this is said (`crossed`), over every link.
pub fn next_request<N: Link>(
    alloc: Global,
    link: &mut N,
    buffer: &mut Buffer,
) -> Result<Wire, WireFault>
    ensures next { NextRequest (unread (N.seen link.old).stream) (unread (N.seen link.new).stream)
        buffer.old buffer.new result }
    ensures crossed { NextCrossed (N.seen link.old).crossed (N.seen link.new).crossed buffer.old buffer.new result }
    ensures answers { AnswersUnused (unused buffer.old (unread (N.seen link.old).stream))
        (unused buffer.new (unread (N.seen link.new).stream)) result }
    ensures same { OnlyRead (N.seen link.old).stream (N.seen link.new).stream }
    ensures on { LinkGoesOn (N.seen link.old) (N.seen link.new) }
    ensures cause { HasCause WireFault.ReadFault (N.seen link.old).health (N.seen link.new).health result }
{
    make_room(&mut buffer.spans)?;
    request_in(alloc, link, &mut buffer.bytes, &mut buffer.spans)
}

ghost use Rattle.std.specs.Prelude.{◌≡◌, ◌<◌, ◌≤◌, ◌+◌, length, take, drop, IfOk, IfErr, OnErr, MatchResult};
ghost use Rattle.desk_io.specs.Health.{HasCause, HasFailed};
ghost use Rattle.desk_net.specs.Seen.{LinkGoesOn};
ghost use Rattle.desk_net.specs.Streams.{OnlyRead};
ghost use Rattle.desk_http.specs.Heads.{head_limit};
ghost use Rattle.desk_http.specs.Reading as spec;
ghost use Rattle.desk_http.specs.Reading.{input_of, FoundEnd, Grows, IsRead};
ghost use Rattle.desk_http.specs.Requests.{IsOutside};

use crate::fields::front;
use crate::{FIELD_ROOM, Front, HEAD_LIMIT, WireFault, front_of};
use desk_io::{Failed, OutOfMemory};
use desk_net::Link;
use httparse::spans::{HeaderSpan, RequestSpans};

// The number of bytes requested per read.
const PIECE: usize = 4096;

// Reads some bytes and returns their number, which is 0 exactly at the end.
fn read_piece<N: Link>(link: &mut N, into: &mut [u8]) -> Result<usize, Failed>
    requires { 0 < length into.old }
    ensures bound { IfOk result (λ n. n ≤ length into.old) }
    ensures given { IfOk result
        (λ n. IsRead (input_of (N.seen link.old)) (take n into.new) (input_of (N.seen link.new))) }
    ensures at_end { IfOk result
        (λ n. n ≡ 0 → FoundEnd (input_of (N.seen link.old)) (input_of (N.seen link.new))) }
    ensures stays { OnErr result (input_of (N.seen link.new) ≡ input_of (N.seen link.old)) }
    ensures same { OnlyRead (N.seen link.old).stream (N.seen link.new).stream }
    ensures on { LinkGoesOn (N.seen link.old) (N.seen link.new) }
    ensures cause { OnErr result (HasFailed (N.seen link.old).health (N.seen link.new).health) }
{
    link.read(into)
}

// Adds room after the kept bytes, and returns how many are kept.
fn add_room(bytes: &mut Vec<u8>) -> Result<usize, OutOfMemory>
    ensures kept { IfOk result (λ kept. kept ≡ length bytes.old.items) }
    ensures front { IfOk result (λ kept. take kept bytes.new.items ≡ bytes.old.items) }
    ensures room { IfOk result (λ kept. kept < length bytes.new.items) }
    ensures err { OnErr result (bytes.new.items ≡ bytes.old.items) }
{
    let kept = bytes.len();
    bytes.resize(kept + PIECE, 0)?;
    Ok(kept)
}

// Reads some bytes over those from index `kept` on. Returns their number, which is 0 exactly at the end.
fn read_after<N: Link>(link: &mut N, bytes: &mut Vec<u8>, kept: usize) -> Result<usize, Failed>
    requires { kept < length bytes.old.items }
    ensures front { take kept bytes.new.items ≡ take kept bytes.old.items }
    ensures bound { IfOk result (λ n. kept + n ≤ length bytes.new.items) }
    ensures given { IfOk result (λ n. IsRead (input_of (N.seen link.old)) (take n (drop kept bytes.new.items))
        (input_of (N.seen link.new))) }
    ensures at_end { IfOk result
        (λ n. n ≡ 0 → FoundEnd (input_of (N.seen link.old)) (input_of (N.seen link.new))) }
    ensures stays { OnErr result (input_of (N.seen link.new) ≡ input_of (N.seen link.old)) }
    ensures same { OnlyRead (N.seen link.old).stream (N.seen link.new).stream }
    ensures on { LinkGoesOn (N.seen link.old) (N.seen link.new) }
    ensures cause { OnErr result (HasFailed (N.seen link.old).health (N.seen link.new).health) }
{
    read_piece(link, &mut bytes[kept..])
}

/// Reads some bytes and appends them to those kept. Returns their number, which is 0 exactly at the end.
pub(crate) fn read_more<N: Link>(link: &mut N, bytes: &mut Vec<u8>) -> Result<usize, WireFault>
    ensures more { IfOk result (λ _. Grows (input_of (N.seen link.old)) (input_of (N.seen link.new))
        bytes.old.items bytes.new.items) }
    ensures count { IfOk result (λ n. length bytes.new.items ≡ length bytes.old.items + n) }
    ensures at_end { IfOk result
        (λ n. n ≡ 0 → FoundEnd (input_of (N.seen link.old)) (input_of (N.seen link.new))) }
    ensures outside { IfErr result IsOutside }
    ensures none { OnErr result (spec.ReadsNone (input_of (N.seen link.old)) (input_of (N.seen link.new))
        bytes.old.items bytes.new.items) }
    ensures same { OnlyRead (N.seen link.old).stream (N.seen link.new).stream }
    ensures on { LinkGoesOn (N.seen link.old) (N.seen link.new) }
    ensures cause { HasCause WireFault.ReadFault (N.seen link.old).health (N.seen link.new).health result }
{
    let kept = add_room(bytes)?;
    match read_after(link, bytes, kept) {
        Ok(count) => {
            bytes.truncate(kept + count);
            Ok(count)
        }
        Err(fault) => {
            bytes.truncate(kept);
            Err(WireFault::from(fault))
        }
    }
}

/// The bytes that may contain a head.
pub(crate) fn head_bytes(bytes: &[u8]) -> &[u8]
    ensures value { result.now ≡ take head_limit bytes.now }
    ensures short { length result.now ≤ head_limit }
{
    front(bytes, HEAD_LIMIT)
}

/// Reads until the kept bytes begin with a whole head, and returns the places of its parts.
pub(crate) fn read_head<N: Link>(
    link: &mut N,
    bytes: &mut Vec<u8>,
    spans: &mut [HeaderSpan],
) -> Result<RequestSpans, WireFault>
    requires { FIELD_ROOM ≤ length spans.old }
    ensures next { spec.ReadsHead (input_of (N.seen link.old)) (input_of (N.seen link.new))
        bytes.old.items bytes.new.items spans.new result }
    ensures same { OnlyRead (N.seen link.old).stream (N.seen link.new).stream }
    ensures on { LinkGoesOn (N.seen link.old) (N.seen link.new) }
    ensures cause { HasCause WireFault.ReadFault (N.seen link.old).health (N.seen link.new).health result }
{
    loop {
        match front_of(head_bytes(bytes), spans) {
            Front::Whole(head) => return Ok(head),
            Front::Never => return Err(WireFault::BadHead),
            Front::More => {}
        }
        if bytes.len() >= HEAD_LIMIT {
            return Err(WireFault::TooLarge);
        }
        if read_more(link, bytes)? == 0 {
            return Err(if bytes.as_slice().is_empty() {
                WireFault::End
            } else {
                WireFault::Cut
            });
        }
    }
}

/// Reads until at least `count` bytes are kept. Returns false if the input ends before.
pub(crate) fn read_up_to<N: Link>(
    link: &mut N,
    bytes: &mut Vec<u8>,
    count: usize,
) -> Result<bool, WireFault>
    ensures read { Grows (input_of (N.seen link.old)) (input_of (N.seen link.new)) bytes.old.items bytes.new.items }
    ensures next { MatchResult result
        (spec.IsUpTo count (input_of (N.seen link.old)) (input_of (N.seen link.new)) bytes.new.items)
        (spec.FallsShort count bytes.new.items) }
    ensures same { OnlyRead (N.seen link.old).stream (N.seen link.new).stream }
    ensures on { LinkGoesOn (N.seen link.old) (N.seen link.new) }
    ensures cause { HasCause WireFault.ReadFault (N.seen link.old).health (N.seen link.new).health result }
{
    while bytes.len() < count {
        if read_more(link, bytes)? == 0 {
            return Ok(false);
        }
    }
    Ok(true)
}

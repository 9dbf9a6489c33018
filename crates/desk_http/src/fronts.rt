ghost use Rattle.std.specs.Prelude.{◌≡◌, ◌≤◌, length};
ghost use Rattle.httparse.specs.Spans.{IsRequestWithin};
ghost use Rattle.desk_http.specs.Heads.{IsFront, head_limit};

use httparse::spans::{HeaderSpan, RequestSpans, parse_request};
use httparse::{Error, Status};

/// The largest head, in bytes: 16 KiB.
pub const HEAD_LIMIT: usize = 16_384;

/// Room for the fields of any head within the limit. The shortest field has three bytes.
pub const FIELD_ROOM: usize = 5462;

/// What the first bytes of a stream contain.
#[derive(Clone, Copy, Debug)]
pub enum Front {
    /// A whole head, with the places of its parts.
    Whole(RequestSpans),
    /// No whole head yet.
    More,
    /// No head, whatever follows.
    Never,
}

/// Looks for a head in at most `HEAD_LIMIT` bytes. Writes the places of its fields to the front of `spans`, which
/// must have room for `FIELD_ROOM` of them.
pub fn front_of(bytes: &[u8], spans: &mut [HeaderSpan]) -> Front
    requires room { FIELD_ROOM ≤ length spans.old }
    requires short { length bytes.now ≤ head_limit }
    ensures { IsFront bytes.now spans.new result }
{
    match parse_request(bytes, spans) {
        Ok(Status::Complete(head)) => Front::Whole(head),
        Ok(Status::Partial) => Front::More,
        Err(Error::TooManyHeaders) => Front::Never,
        Err(_) => Front::Never,
    }
}

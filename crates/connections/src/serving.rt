ghost use Rattle.std.specs.Prelude.{◌≡◌};
ghost use Rattle.desk_io.specs.Over.{over};
ghost use Rattle.desk_net.specs.Seen.{LinkGoesOn};
ghost use Rattle.desk_net.specs.Streams.{unread};
ghost use Rattle.connections.specs.Crossed.{TookTo};
ghost use Rattle.connections.specs.Writing.{EndsAs, EndsWithout, WritesAll, WritesAnswer, WroteTo};

use crate::answers::{
    Unanswered, bad_head_answer, clock_fault_answer, no_length_answer, out_of_memory_answer,
    too_large_answer, wrong_method_answer,
};
use desk_http::WireFault;
use desk_io::{PutFault, Text};
use desk_net::Link;

/// How a connection ended.
#[derive(Clone, Copy, Debug, PartialEq, Eq)]
pub enum Served {
    /// The link ended before any byte of a further request, or after the response to a last request.
    Ended,
    /// The link ended within a request.
    Cut,
    /// The bytes can't become a head.
    BadHead,
    /// There is no whole head within the limit of a head, or a head states a body above the limit.
    TooLarge,
    /// The head doesn't state the length of the body as it must.
    NoLength,
    /// The method is neither GET nor POST.
    WrongMethod,
    /// The link failed during a read.
    ReadFault,
    /// The link failed while a response was written.
    WriteFault,
    /// The clock failed.
    ClockFault,
    /// Memory ran out.
    OutOfMemory,
}

// Writes the response that ends a connection. If the link fails here, the connection still ends for the same reason.
fn end_by<N: Link>(link: &mut N, text: &[u8], served: Served) -> Served
    ensures wrote { WroteTo (over N.seen link.old link.new) (λ failed. EndsAs failed served text.now result) }
    ensures crossed { TookTo (over N.seen link.old link.new) (λ failed. EndsAs failed served text.now result) }
    ensures link { LinkGoesOn (N.seen link.old) (N.seen link.new) }
    ensures left { unread (N.seen link.new).stream ≡ unread (N.seen link.old).stream }
{
    match link.write(text) {
        Ok(()) => served,
        Err(PutFault::Failed) => served,
        Err(PutFault::OutOfMemory) => Served::OutOfMemory,
    }
}

/// Ends a connection after no further request was read. Writes a response if the request was refused or memory ran
/// out. The record of what crossed the link gains at most this one piece (`crossed`), over every link.
pub fn end_without<N: Link>(link: &mut N, fault: WireFault) -> Served
    ensures wrote { WroteTo (over N.seen link.old link.new) (λ failed. EndsWithout failed fault result) }
    ensures crossed { TookTo (over N.seen link.old link.new) (λ failed. EndsWithout failed fault result) }
    ensures link { LinkGoesOn (N.seen link.old) (N.seen link.new) }
    ensures left { unread (N.seen link.new).stream ≡ unread (N.seen link.old).stream }
{
    match fault {
        WireFault::End => Served::Ended,
        WireFault::Cut => Served::Cut,
        WireFault::ReadFault => Served::ReadFault,
        WireFault::BadHead => end_by(link, bad_head_answer(), Served::BadHead),
        WireFault::TooLarge => end_by(link, too_large_answer(), Served::TooLarge),
        WireFault::NoLength => end_by(link, no_length_answer(), Served::NoLength),
        WireFault::WrongMethod => end_by(link, wrong_method_answer(), Served::WrongMethod),
        WireFault::OutOfMemory => end_by(link, out_of_memory_answer(), Served::OutOfMemory),
    }
}

// Writes a response. Returns how the connection ended, if writing failed or the request was the last.
fn write_response<N: Link>(link: &mut N, bytes: &[u8], last: bool) -> Option<Served>
    ensures wrote { WroteTo (over N.seen link.old link.new) (λ failed. WritesAll failed bytes.now last result) }
    ensures crossed { TookTo (over N.seen link.old link.new) (λ failed. WritesAll failed bytes.now last result) }
    ensures link { LinkGoesOn (N.seen link.old) (N.seen link.new) }
    ensures left { unread (N.seen link.new).stream ≡ unread (N.seen link.old).stream }
{
    match link.write(bytes) {
        Ok(()) if last => Some(Served::Ended),
        Ok(()) => None,
        Err(PutFault::Failed) => Some(Served::WriteFault),
        Err(PutFault::OutOfMemory) => Some(Served::OutOfMemory),
    }
}

/// Writes the response to a request, or an error response if there is none. Returns how the connection ended, if it
/// did. The record of what crossed the link gains at most this one piece (`crossed`), over every link.
pub fn write_answer<N: Link>(
    link: &mut N,
    answered: &Result<Text, Unanswered>,
    last: bool,
) -> Option<Served>
    ensures wrote { WroteTo (over N.seen link.old link.new)
        (λ failed. WritesAnswer failed answered.now last result) }
    ensures crossed { TookTo (over N.seen link.old link.new)
        (λ failed. WritesAnswer failed answered.now last result) }
    ensures link { LinkGoesOn (N.seen link.old) (N.seen link.new) }
    ensures left { unread (N.seen link.new).stream ≡ unread (N.seen link.old).stream }
{
    match answered {
        Ok(text) => write_response(link, text.bytes(), last),
        Err(Unanswered::ClockFault) => {
            Some(end_by(link, clock_fault_answer(), Served::ClockFault))
        }
        Err(Unanswered::OutOfMemory) => Some(end_by(
            link,
            out_of_memory_answer(),
            Served::OutOfMemory,
        )),
    }
}

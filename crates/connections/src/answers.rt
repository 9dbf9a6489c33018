ghost use Rattle.std.specs.Prelude.{◌≡◌};
ghost use Rattle.connections.specs.Connections as spec;
ghost use Rattle.connections.specs.declared.answers.Unanswered.TheVariants.{OutOfMemory as NoMemory};

use desk_io::OutOfMemory;
use std::alloc::AllocError;

/// Why a request has no response.
#[derive(Clone, Copy, Debug, PartialEq, Eq)]
pub enum Unanswered {
    /// The clock failed, and counted the fault.
    ClockFault,
    /// Memory ran out.
    OutOfMemory,
}

impl From<OutOfMemory> for Unanswered {
    ghost from_gives = { λ _ e. e ≡ NoMemory };

    fn from(_: OutOfMemory) -> Self {
        Unanswered::OutOfMemory
    }
}

impl From<AllocError> for Unanswered {
    ghost from_gives = { λ _ e. e ≡ NoMemory };

    fn from(_: AllocError) -> Self {
        Unanswered::OutOfMemory
    }
}

// The responses that end a connection are constants, so writing them needs no memory for their text.

#[tactic(auto, unfolding(desk_http::specs::Responses::typed_response))]
pub fn bad_head_answer() -> &'static [u8]
    ensures { result.now ≡ spec.bad_head_answer }
{
    b"HTTP/1.1 400 Bad Request\r\nContent-Type: application/json\r\nContent-Length: 19\r\n\r\n{\"error\":\"BadHead\"}"
}

#[tactic(auto, unfolding(desk_http::specs::Responses::typed_response))]
pub fn too_large_answer() -> &'static [u8]
    ensures { result.now ≡ spec.too_large_answer }
{
    b"HTTP/1.1 413 Payload Too Large\r\nContent-Type: application/json\r\nContent-Length: 20\r\n\r\n{\"error\":\"TooLarge\"}"
}

#[tactic(auto, unfolding(desk_http::specs::Responses::typed_response))]
pub fn no_length_answer() -> &'static [u8]
    ensures { result.now ≡ spec.no_length_answer }
{
    b"HTTP/1.1 411 Length Required\r\nContent-Type: application/json\r\nContent-Length: 20\r\n\r\n{\"error\":\"NoLength\"}"
}

#[tactic(auto, unfolding(desk_http::specs::Responses::typed_response))]
pub fn wrong_method_answer() -> &'static [u8]
    ensures { result.now ≡ spec.wrong_method_answer }
{
    b"HTTP/1.1 405 Method Not Allowed\r\nContent-Type: application/json\r\nContent-Length: 23\r\n\r\n{\"error\":\"WrongMethod\"}"
}

#[tactic(auto, unfolding(desk_http::specs::Responses::typed_response))]
pub fn clock_fault_answer() -> &'static [u8]
    ensures { result.now ≡ spec.clock_fault_answer }
{
    b"HTTP/1.1 503 Service Unavailable\r\nContent-Type: application/json\r\nContent-Length: 22\r\n\r\n{\"error\":\"ClockFault\"}"
}

#[tactic(auto, unfolding(desk_http::specs::Responses::typed_response))]
pub fn out_of_memory_answer() -> &'static [u8]
    ensures { result.now ≡ spec.out_of_memory_answer }
{
    b"HTTP/1.1 500 Internal Server Error\r\nContent-Type: application/json\r\nContent-Length: 23\r\n\r\n{\"error\":\"OutOfMemory\"}"
}

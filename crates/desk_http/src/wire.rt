ghost use Rattle.std.specs.Prelude.{◌≡◌};
ghost use Rattle.desk_http.specs.declared.wire.WireFault.TheVariants.{OutOfMemory as WireMemory, ReadFault as WireRead};

use desk_io::{Failed, OutOfMemory, Text};
use std::alloc::AllocError;

/// A request that was read.
#[derive(Debug, Drop)]
pub struct Wire {
    /// True for GET, false for POST.
    pub get: bool,
    /// The request target before its first question mark.
    pub path: Text,
    /// The value of the first Desk-Actor, or nothing.
    pub actor: Text,
    /// The value of the first Desk-Key, or nothing.
    pub key: Text,
    /// The body, of Content-Length bytes.
    pub body: Text,
    /// Whether the connection ends after this request.
    pub last: bool,
}

/// What a whole head asks for, before its body is read.
#[derive(Debug, Drop)]
pub struct Asked {
    /// True for GET, false for POST.
    pub get: bool,
    /// The request target before its first question mark.
    pub path: Text,
    /// The value of the first Desk-Actor, or nothing.
    pub actor: Text,
    /// The value of the first Desk-Key, or nothing.
    pub key: Text,
    /// The length of the body in bytes.
    pub length: u64,
    /// Whether the connection ends after this request.
    pub last: bool,
}

/// Why no request was read.
#[derive(Clone, Copy, Debug, PartialEq, Eq)]
pub enum WireFault {
    /// The link ended before any byte of a request.
    End,
    /// The link ended within a request.
    Cut,
    /// The bytes can't become a head, whatever follows them.
    BadHead,
    /// The first `HEAD_LIMIT` bytes contain no whole head, or a whole head states a body of more than `BODY_LIMIT`
    /// bytes.
    TooLarge,
    /// The head doesn't state the length of the body as it must.
    NoLength,
    /// The method is neither GET nor POST.
    WrongMethod,
    /// The link failed, and counted the fault.
    ReadFault,
    /// Memory ran out.
    OutOfMemory,
}

impl From<OutOfMemory> for WireFault {
    ghost from_gives = { λ _ e. e ≡ WireMemory };

    fn from(_: OutOfMemory) -> Self {
        WireFault::OutOfMemory
    }
}

impl From<AllocError> for WireFault {
    ghost from_gives = { λ _ e. e ≡ WireMemory };

    fn from(_: AllocError) -> Self {
        WireFault::OutOfMemory
    }
}

impl From<Failed> for WireFault {
    ghost from_gives = { λ _ e. e ≡ WireRead };

    fn from(_: Failed) -> Self {
        WireFault::ReadFault
    }
}

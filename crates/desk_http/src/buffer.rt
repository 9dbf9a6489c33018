ghost use Rattle.std.specs.Prelude.{◌≡◌, []};

use httparse::spans::HeaderSpan;
use std::alloc::Global;
use std::marker::Model;

/// Bytes that were read and belong to no request yet. Contracts model the list of them.
#[derive(Debug, Drop)]
pub struct Buffer {
    pub(crate) bytes: Vec<u8>,
    // Room for the places of a head's fields, empty until the first request.
    pub(crate) spans: Vec<HeaderSpan>,
}

impl Model for Buffer {
    ghost use Rattle.std.specs.Prelude.{List, ℕ};

    ghost Value = { List ℕ };

    ghost view = { λ b. b.bytes.items };
}

impl Buffer {
    /// Creates an empty buffer. Allocates nothing.
    pub fn new(alloc: Global) -> Buffer
        ensures { result ≡ [] }
    {
        Buffer {
            bytes: Vec::new(alloc),
            spans: Vec::new(alloc),
        }
    }
}

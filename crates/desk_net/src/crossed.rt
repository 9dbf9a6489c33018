ghost use Rattle.std.specs.Prelude.{◌∷◌, [], take};
ghost use Rattle.desk_net.specs.declared.crossed.Crossed.TheVariants.{Came, Took};

use desk_io::{Event, Record, Text};

/// What crossed a link in one call. Contracts list these values, and code makes none.
#[derive(Debug, Drop)]
pub enum Crossed {
    /// The bytes that a read returned. They are empty exactly at the end of the input.
    Came(Text),
    /// The bytes that a write accepted.
    Took(Text),
}

/// A link that passes a door, for the record of its links.
#[derive(Drop)]
pub struct Passing<'a, L> {
    pub link: &'a L,
}

impl<'a, L> Event<L> for Passing<'a, L> {
    ghost told = { λ p. p.link.now ∷ [] };
}

// A read, which filled the front of a buffer.
#[derive(Drop)]
pub(crate) struct Received<'a> {
    pub(crate) into: &'a [u8],
    pub(crate) count: usize,
}

impl<'a> Event<Crossed> for Received<'a> {
    ghost told = { λ r. Came (take r.count r.into.now) ∷ [] };
}

// A write that accepted these bytes.
#[derive(Drop)]
pub(crate) struct Written<'a> {
    pub(crate) bytes: &'a [u8],
}

impl<'a> Event<Crossed> for Written<'a> {
    ghost told = { λ w. Took w.bytes.now ∷ [] };
}

// Bytes that a stream accepted at once.
#[derive(Drop)]
pub(crate) struct Piece<'a> {
    pub(crate) bytes: &'a [u8],
}

impl<'a> Event<u8> for Piece<'a> {
    ghost told = { λ p. p.bytes.now };
}

// A write that accepted the recorded bytes.
#[derive(Drop)]
pub(crate) struct Sent<'a> {
    pub(crate) taken: &'a Record<u8>,
}

impl<'a> Event<Crossed> for Sent<'a> {
    ghost told = { λ s. Took s.taken.now.list ∷ [] };
}

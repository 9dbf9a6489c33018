use desk_io::{Copied, OutOfMemory, Text};
use std::alloc::Global;

/// Why a text isn't a call.
#[derive(Clone, Copy, Debug, PartialEq, Eq)]
pub enum CallWhy {
    /// The bytes aren't JSON (RFC 8259).
    NotJson,
    /// The JSON isn't an object.
    NotObject,
    /// An object has a key that it may not have.
    Extra,
    /// A key is missing.
    Missing,
    /// The value of a key is malformed or out of range.
    BadValue,
    /// No ask has this name.
    UnknownAsk,
}

/// The first fault of a text that isn't a call.
#[derive(Debug, Drop)]
pub struct BadCall {
    /// What is wrong.
    pub why: CallWhy,
    /// The key at which the text is wrong; empty if the fault isn't at a key.
    pub key: Text,
}

impl Copied for BadCall {
    fn copy(&self, alloc: Global) -> Result<BadCall, OutOfMemory> {
        Ok(BadCall {
            why: self.why,
            key: self.key.copy(alloc)?,
        })
    }
}

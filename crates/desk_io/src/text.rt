ghost use Rattle.std.specs.Prelude.{◌≡◌, IfOk};

use crate::{Copied, OutOfMemory};
use std::alloc::Global;
use std::marker::Model;

/// An owned byte string. Contracts model it as the list of its bytes.
#[derive(Debug, Drop)]
pub struct Text {
    bytes: Vec<u8>,
}

impl Model for Text {
    ghost use Rattle.std.specs.Prelude.{List, ℕ};

    ghost Value = { List ℕ };

    ghost view = { λ t. t.bytes.items };
}

impl Text {
    /// Copies these bytes into a new text.
    pub fn of(alloc: Global, bytes: &[u8]) -> Result<Text, OutOfMemory>
        ensures { IfOk result (λ t. t ≡ bytes.now) }
    {
        let bytes = Vec::from_slice(alloc, bytes)?;
        Ok(Text { bytes })
    }

    /// Wraps a vector without copying or allocating.
    pub fn from_vec(bytes: Vec<u8>) -> Text
        ensures { result ≡ bytes.items }
    {
        Text { bytes }
    }

    /// Returns the bytes.
    pub fn bytes(&self) -> &[u8]
        ensures { result.now ≡ self.now }
    {
        &self.bytes
    }
}

impl Copied for Text {
    fn copy(&self, alloc: Global) -> Result<Text, OutOfMemory> {
        Text::of(alloc, &self.bytes)
    }
}

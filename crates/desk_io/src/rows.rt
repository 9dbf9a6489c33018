ghost use Rattle.std.specs.Prelude.{◌≡◌};

use crate::{Copied, OutOfMemory, Text};
use std::alloc::Global;

/// A stored row: a body under a kind and a key.
#[derive(Debug, Drop)]
pub struct Row {
    /// The kind of record that the body encodes.
    pub kind: u8,
    /// The row's key among the rows of its kind.
    pub key: u64,
    /// The encoded record.
    pub body: Text,
}

/// A change to one stored row.
#[derive(Debug, Drop)]
pub enum Change {
    /// Stores the row, replacing any row with the same kind and key.
    Put(Row),
    /// Removes the row with this kind and key, if there is one.
    Remove { kind: u8, key: u64 },
}

impl Copied for Row {
    fn copy(&self, alloc: Global) -> Result<Row, OutOfMemory> {
        Ok(Row {
            kind: self.kind,
            key: self.key,
            body: self.body.copy(alloc)?,
        })
    }
}

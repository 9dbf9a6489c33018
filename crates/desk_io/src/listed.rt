ghost use Rattle.std.specs.Prelude.{◌≡◌, ◌++◌, ◌∷◌, [], IfOk, OnOk, OnErr};

use crate::OutOfMemory;
use std::alloc::Global;
use std::marker::Model;

/// A value that can be copied, unless memory runs out.
pub trait Copied: Sized + Drop {
    /// Returns an equal value.
    fn copy(&self, alloc: Global) -> Result<Self, OutOfMemory>
        ensures { IfOk result (λ copy. copy ≡ self.now) };
}

/// A list that grows at its end. Contracts model it as the list of its items.
#[derive(Debug, Drop)]
pub struct Listed<T> {
    held: Vec<T>,
}

impl<T> Model for Listed<T> {
    ghost use Rattle.std.specs.Prelude.{List};

    ghost Value = { List T };

    ghost view = { λ t. t.held.items };
}

impl<T: Drop> Listed<T> {
    /// Creates an empty list. Allocates nothing.
    pub fn new(alloc: Global) -> Listed<T>
        ensures { result ≡ [] }
    {
        Listed {
            held: Vec::new(alloc),
        }
    }

    /// Wraps a vector without copying or allocating.
    pub fn from_vec(held: Vec<T>) -> Listed<T>
        ensures { result ≡ held.items }
    {
        Listed { held }
    }

    /// Appends an item. If memory runs out, the list is unchanged and the item is dropped.
    pub fn push(&mut self, item: T) -> Result<(), OutOfMemory>
        ensures ok { OnOk result (self.new ≡ self.old ++ item ∷ []) }
        ensures err { OnErr result (self.new ≡ self.old) }
    {
        match self.held.push(item) {
            Ok(()) => Ok(()),
            Err(_) => Err(OutOfMemory),
        }
    }

    /// Returns the items in order.
    pub fn as_slice(&self) -> &[T]
        ensures { result.now ≡ self.now }
    {
        self.held.as_slice()
    }
}

/// Copies the item of an option, if it holds one.
pub fn copied_option<T: Copied>(held: &Option<T>, alloc: Global) -> Result<Option<T>, OutOfMemory>
    ensures { IfOk result (λ copy. copy ≡ held.now) }
{
    match held {
        None => Ok(None),
        Some(item) => Ok(Some(item.copy(alloc)?)),
    }
}

/// Copies the items of a slice, in order.
pub fn copied_items<T: Copied>(items: &[T], alloc: Global) -> Result<Vec<T>, OutOfMemory>
    ensures { IfOk result (λ copies. copies.items ≡ items.now) }
{
    let mut copies = Vec::new(alloc);
    for item in items {
        copies.push(item.copy(alloc)?)?;
    }
    Ok(copies)
}

impl<T: Copied> Copied for Listed<T> {
    fn copy(&self, alloc: Global) -> Result<Listed<T>, OutOfMemory> {
        Ok(Listed::from_vec(copied_items(self.as_slice(), alloc)?))
    }
}

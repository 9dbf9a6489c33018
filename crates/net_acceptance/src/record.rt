ghost use Rattle.std.specs.Prelude.{◌≡◌, ◌++◌, ◌∷◌, [], OnOk, OnErr};

use desk_io::OutOfMemory;
use std::alloc::Global;
use turn_lock::Listed;

/// An item, and the lane that it came by.
#[derive(Clone, Copy, Drop)]
pub struct Mark {
    pub lane: u32,
    pub item: u64,
}

/// All items so far.
#[derive(Drop)]
pub struct Record {
    pub marks: Vec<Mark>,
}

impl Listed for Record {
    type Element = Mark;

    ghost list = { λ r. r.marks.items };

    ghost bears = { λ m. m.lane };

    fn length(&self) -> u64 {
        self.marks.len() as u64
    }
}

impl Record {
    /// No items. It takes no memory.
    pub fn new(alloc: Global) -> Record
        ensures { result.marks.items ≡ [] }
    {
        Record {
            marks: Vec::new(alloc),
        }
    }

    /// Adds an item at the end.
    pub fn add(&mut self, mark: Mark) -> Result<(), OutOfMemory>
        ensures ok { OnOk result (self.new.marks.items ≡ self.old.marks.items ++ mark ∷ []) }
        ensures err { OnErr result (self.new.marks.items ≡ self.old.marks.items) }
    {
        self.marks.push(mark)?;
        Ok(())
    }
}

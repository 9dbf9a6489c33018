ghost use Rattle.std.specs.Prelude.{◌≡◌, ◌++◌, ◌∷◌, [], OnErr, OnOk};

use desk_io::OutOfMemory;
use std::alloc::Global;
use turn_lock::Listed;

/// The lanes of all connections so far.
#[derive(Drop)]
pub struct Tally {
    pub lanes: Vec<u32>,
}

impl Listed for Tally {
    type Element = u32;

    ghost list = { λ t. t.lanes.items };

    ghost bears = { λ lane. lane };

    fn length(&self) -> u64 {
        self.lanes.len() as u64
    }
}

impl Tally {
    /// Starts without a connection. Allocates nothing.
    pub fn new(alloc: Global) -> Tally
        ensures { result.lanes.items ≡ [] }
    {
        Tally {
            lanes: Vec::new(alloc),
        }
    }

    /// Counts a connection of a lane.
    pub fn add(&mut self, lane: u32) -> Result<(), OutOfMemory>
        ensures ok { OnOk result (self.new.lanes.items ≡ self.old.lanes.items ++ lane ∷ []) }
        ensures err { OnErr result (self.new.lanes.items ≡ self.old.lanes.items) }
    {
        self.lanes.push(lane)?;
        Ok(())
    }
}

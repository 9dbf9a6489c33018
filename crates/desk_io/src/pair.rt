ghost use Rattle.std.specs.Prelude.{◌≡◌, ◌+◌, ◌^◌, ◌<◌};
ghost use Rattle.desk_io.specs.Pair as spec;

use crate::faults::OutOfMemory;
use crate::listed::{Copied, Listed};
use std::alloc::Global;

/// Millimetres in a statute mile.
pub const MILE: u32 = 1_609_344;

/// Weather minima: a ceiling in feet and a visibility in millimetres (14 CFR 121.613, 121.625).
#[derive(Clone, Copy, Debug, PartialEq, Eq)]
pub struct Pair {
    /// The ceiling in feet.
    pub ceiling: u32,
    /// The visibility in millimetres.
    pub vis: u32,
}

/// Alternative minima, in order. The weather must meet at least one of them.
pub type Pairs = Listed<Pair>;

impl Pair {
    /// Adds `by.ceiling` feet to the ceiling and `by.vis` millimetres to the visibility.
    pub fn raised(self, by: Pair) -> Pair
        requires ceiling { self.ceiling + by.ceiling < 2 ^ 32 }
        requires vis { self.vis + by.vis < 2 ^ 32 }
        ensures { result ≡ spec.raised by self }
    {
        Pair {
            ceiling: self.ceiling + by.ceiling,
            vis: self.vis + by.vis,
        }
    }

    /// Combines the higher ceiling with the higher visibility.
    pub fn higher(self, other: Pair) -> Pair
        ensures { result ≡ spec.higher self other }
    {
        Pair {
            ceiling: self.ceiling.max(other.ceiling),
            vis: self.vis.max(other.vis),
        }
    }
}

impl Copied for Pair {
    fn copy(&self, _alloc: Global) -> Result<Pair, OutOfMemory> {
        Ok(*self)
    }
}

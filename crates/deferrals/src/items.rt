ghost use Rattle.std.specs.Prelude.{◌≡◌, ◌≤◌, ◌<◌, ◌^◌};
ghost use Rattle.deferrals.specs.Due as spec;
ghost use Rattle.deferrals.specs.Due.{EndsRepair};

use desk_io::{Copied, OutOfMemory, Text};
use desk_time::{LAST, Minute, SHOWN_LAST};
use ops_tables::{Category, MelRow};
use std::alloc::Global;

/// An inoperative item of an aircraft whose repair is deferred (14 CFR 121.628).
#[derive(Debug, Drop)]
pub struct Deferral {
    /// The number of the deferral.
    pub id: u64,
    /// The registration of the aircraft.
    pub tail: Text,
    /// The name of the item in the minimum equipment list.
    pub item: Text,
    /// When the fault was found.
    pub found: Minute,
}

impl Copied for Deferral {
    fn copy(&self, alloc: Global) -> Result<Deferral, OutOfMemory> {
        Ok(Deferral {
            id: self.id,
            tail: self.tail.copy(alloc)?,
            item: self.item.copy(alloc)?,
            found: self.found,
        })
    }
}

// Returns the number of days that the row's category allows for the repair.
fn days_allowed(row: &MelRow) -> u64
    ensures value { result ≡ spec.days_allowed row.now.category row.now.days }
    ensures bound { result < 2 ^ 32 }
{
    match row.category {
        Category::A => u64::from(row.days),
        Category::B => 3,
        Category::C => 10,
        Category::D => 120,
    }
}

/// Returns the moment by which a deferred item must be repaired: the start of the day after the last allowed day. The
/// allowed days are counted from the day after the fault was found. It allocates nothing.
#[tactic(auto, using(crate::proofs::DueLaws::due_ends_repair))]
pub fn due(row: &MelRow, found: Minute) -> Minute
    requires { found ≤ LAST }
    ensures value { result ≡ spec.due row.now found }
    ensures days { EndsRepair row.now found result }
    ensures later { found < result }
    ensures shown { row.now.days ≤ 365 → result ≤ SHOWN_LAST }
{
    1440 * (found / 1440 + 1 + days_allowed(row))
}

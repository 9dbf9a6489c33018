ghost use Rattle.std.specs.Prelude.{◌≡◌, Bool, IfOk};

use crate::wanted::Wanted;
use desk_io::{OutOfMemory, Text};
use desk_state::Said;
use std::alloc::Global;

/// The program that serves. Contracts know nothing of it.
pub trait Program {
    /// Returns the program's version and commit, as plain text.
    fn name(&self) -> &[u8];

    /// Returns how many workers have a connection.
    fn busy(&self) -> u64;
}

/// What a service offers beside the answers of its desk. Contracts know only whether it has pages.
pub trait Surface {
    /// Whether it has pages.
    ghost pages: { Bool };

    /// Returns whether it has pages.
    fn has_pages(&self) -> bool
        ensures { result ≡ pages };

    /// Returns the name of the program, which a page shows.
    fn name(&self) -> &[u8];

    /// Counts a response to what was wanted, by its status.
    fn count(&self, wanted: &Wanted, status: u16);

    /// Counts the answer to a call.
    fn said(&self, said: &Said);

    /// Returns what was counted, in the text format of Prometheus.
    fn meters(&self, alloc: Global) -> Result<Text, OutOfMemory>;
}

/// Answers of the desk alone.
#[derive(Drop)]
pub(crate) struct Plain;

impl Surface for Plain {
    ghost use Rattle.std.specs.Prelude.{false};

    ghost pages = { false };

    fn has_pages(&self) -> bool
        ensures { result ≡ false }
    {
        false
    }

    fn name(&self) -> &[u8] {
        &[]
    }

    fn count(&self, _wanted: &Wanted, _status: u16) {}

    fn said(&self, _said: &Said) {}

    fn meters(&self, alloc: Global) -> Result<Text, OutOfMemory> {
        Text::of(alloc, b"")
    }
}

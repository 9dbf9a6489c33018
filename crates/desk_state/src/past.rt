ghost use Rattle.std.specs.Prelude.{◌≡◌, List, [], ◌∷◌, ◌++◌};
ghost use Rattle.std.specs.Borrow.{ftrue};
ghost use Rattle.desk_state.specs.declared.entry.Entry.{Entry};

use crate::entry::Entry;
use std::marker::Model;

/// Entries that exist only in contracts. They take no bytes, and code can't read them.
#[derive(Drop)]
pub struct Past {
    pub ghost list: { List Entry },
}

impl Model for Past {
    ghost also_owns = { λ _. ftrue };
}

// Safe: a value owns nothing.
unsafe impl Send for Past {}

impl Past {
    /// No entries.
    pub(crate) fn new() -> Past
        ensures { result.list ≡ [] }
    {
        Past {}
    }

    /// These entries and one more.
    pub(crate) fn with(_before: &Past, _entered: &Entry) -> Past
        ensures { result.list ≡ _before.now.list ++ _entered.now ∷ [] }
    {
        Past {}
    }
}

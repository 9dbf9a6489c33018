ghost use Rattle.std.specs.Prelude.{◌≡◌, ◌++◌, ◌∷◌, [], None, Some, IsTrue, IfOk, OnOk, OnErr, MatchResult};
ghost use Rattle.desk_io.specs.Health.{HasCause};
ghost use Rattle.desk_io.specs.Planned.{after};
ghost use Rattle.keeper.specs.Account.{AddsCommit};
ghost use Rattle.keeper.specs.Order.{rising};
ghost use Rattle.keeper.specs.Kept.{Lists, Leads};
ghost use Rattle.keeper.specs.Seen.{KeeperSeen, KeeperGoesOn};
ghost use Rattle.keeper.specs.declared.account.AccountEntry.TheVariants.{Load};
ghost use Rattle.keeper.specs.declared.keeping.KeepFault.TheVariants.{Failed as KeepFailed, OutOfMemory as KeepMemory};

use desk_io::{Change, OutOfMemory, Row};
use std::alloc::{AllocError, AllocFailed, Global};

/// Why rows weren't loaded or committed.
#[derive(Clone, Copy, Debug, PartialEq, Eq)]
pub enum KeepFault {
    /// The keeper failed, and counted the fault.
    Failed,
    /// Memory ran out. No row was changed.
    OutOfMemory,
}

impl From<OutOfMemory> for KeepFault {
    ghost from_gives = { λ _ e. e ≡ KeepMemory };

    fn from(_: OutOfMemory) -> Self {
        KeepFault::OutOfMemory
    }
}

impl From<AllocError> for KeepFault {
    ghost from_gives = { λ _ e. e ≡ KeepMemory };

    fn from(_: AllocError) -> Self {
        KeepFault::OutOfMemory
    }
}

impl<T: Drop> From<AllocFailed<T>> for KeepFault {
    ghost from_gives = { λ _ e. e ≡ KeepMemory };

    fn from(_: AllocFailed<T>) -> Self {
        KeepFault::OutOfMemory
    }
}

/// Stores rows, each under a kind and a key. A keeper may need a load before it accepts a commit.
pub trait Keeper {
    /// The rows, if contracts know them. The rows of a keeper over a real file are unknown. Then, for every keeper, the
    /// number of commits that were requested, all loads and commits so far, in order and with their outcomes, and the
    /// keeper's health.
    ghost seen: { Self → KeeperSeen };

    /// Returns all rows in order of kind, then key. No two have the same kind and key.
    fn load(&mut self, alloc: Global) -> Result<Vec<Row>, KeepFault>
        ensures rising { IfOk result (λ rows. IsTrue (rising rows.items)) }
        ensures rows { IfOk result (λ rows. Lists (seen self.old).rows rows.items) }
        ensures same { (seen self.new).rows ≡ (seen self.old).rows }
        ensures none { (seen self.new).commits ≡ (seen self.old).commits }
        ensures account { MatchResult result
            (λ rows. (seen self.new).account ≡ (seen self.old).account ++ Load (Some rows.items) ∷ [])
            (λ _. (seen self.new).account ≡ (seen self.old).account ++ Load None ∷ []) }
        ensures on { KeeperGoesOn (seen self.old) (seen self.new) }
        ensures cause { HasCause KeepFailed (seen self.old).health (seen self.new).health result };

    /// Applies all changes in order, or none of them.
    fn commit(&mut self, alloc: Global, changes: &[Change]) -> Result<(), KeepFault>
        ensures ok { OnOk result (Leads (seen self.old).rows changes.now (seen self.new).rows) }
        ensures err { OnErr result ((seen self.new).rows ≡ (seen self.old).rows) }
        ensures one { (seen self.new).commits ≡ after (seen self.old).commits }
        ensures account { AddsCommit (seen self.old).account (seen self.new).account changes.now result }
        ensures on { KeeperGoesOn (seen self.old) (seen self.new) }
        ensures cause { HasCause KeepFailed (seen self.old).health (seen self.new).health result };

    /// Returns the number of failures so far. It never falls.
    fn faults(&self) -> u64
        ensures { result ≡ (seen self.now).health.faults };
}

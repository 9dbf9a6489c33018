ghost use Rattle.std.specs.Prelude.{◌≡◌, ◌++◌, ◌∷◌, [], None, Some, IsTrue, IfOk, OnOk, OnErr, IsErrOf, MatchResult};
ghost use Rattle.desk_io.specs.Health.{HasCause};
ghost use Rattle.desk_io.specs.Planned.{is_planned, after};
ghost use Rattle.desk_io.specs.Rows.{changed_by, rows_of};
ghost use Rattle.keeper.specs.Account.{AddsCommit, count_of, kept_by};
ghost use Rattle.keeper.specs.Order.{rising, AreApart};
ghost use Rattle.keeper.specs.Kept.{AreSame, Lists, Leads, Fails};
ghost use Rattle.keeper.specs.Seen.{KeeperGoesOn};
ghost use Rattle.keeper.specs.declared.account.AccountEntry.TheVariants.{Commit, Load};
ghost use Rattle.keeper.specs.declared.account.Outcome.TheVariants.{Refused};
ghost use Rattle.keeper.specs.declared.keeping.KeepFault.TheVariants.{Failed as KeepFailed};

use crate::account::Begun;
use crate::order::{copied_changes, make_all, put_in_order};
use crate::{AccountEntry, Committed, KeepFault, Keeper, Loaded, NotLoaded, Outcome};
use desk_io::{Change, OutOfMemory, Record, Row, copied_items};
use std::alloc::Global;

/// Rows in memory. Commits are numbered from 0, and a commit whose number is in `fail` fails and changes nothing.
/// With an empty `fail` the keeper is sound. It needs no load, and may be loaded again at any time. Its rows are those
/// with which it began, changed by exactly the commits that its account calls done.
#[derive(Drop)]
pub struct MemoryKeeper {
    rows: Vec<Row>,
    fail: Vec<u64>,
    calls: u64,
    faults: u64,
    began: Record<Row>,
    account: Record<AccountEntry>,
    ghost in_order: { IsTrue (rising rows.items) },
    ghost agrees: { AreSame (rows_of rows.items) (kept_by account.list (rows_of began.list)) },
    ghost counted: { calls ≡ count_of account.list },
}

impl MemoryKeeper {
    /// Creates a keeper of these rows, of which no two may have the same kind and key. Sorts them in place and
    /// allocates nothing.
    #[tactic(auto, using(crate::proofs::AccountLaws::kept_none, crate::proofs::AccountLaws::count_none))]
    pub fn new(mut rows: Vec<Row>, fail: Vec<u64>) -> Self
        requires { AreApart rows.items }
        ensures same { AreSame (rows_of result.rows.items) (rows_of rows.items) }
        ensures rising { IsTrue (rising result.rows.items) }
        // Rows that are in order already stay as they are.
        ensures already { IsTrue (rising rows.items) → result.rows.items ≡ rows.items }
        ensures fail { result.fail.items ≡ fail.items }
        ensures calls { result.calls ≡ 0 }
        ensures faults { result.faults ≡ 0 }
        ensures began { result.began.list ≡ result.rows.items }
        ensures account { result.account.list ≡ [] }
    {
        put_in_order(&mut rows);
        let began = Record::of(&Begun { rows: &rows });
        MemoryKeeper {
            rows,
            fail,
            calls: 0,
            faults: 0,
            began,
            account: Record::new(),
        }
    }

    /// Returns the rows in order of kind, then key.
    pub fn rows(&self) -> &[Row]
        ensures rows { result.now ≡ self.now.rows.items }
        ensures rising { IsTrue (rising result.now) }
        // They are the first rows, changed by the commits that were done.
        ensures kept { AreSame (rows_of result.now) (kept_by self.now.account.list (rows_of self.now.began.list)) }
    {
        &self.rows
    }
}

// Applies all changes to sorted rows, in order, or none of them if memory runs out.
fn apply(rows: &mut Vec<Row>, alloc: Global, changes: &[Change]) -> Result<(), OutOfMemory>
    requires { IsTrue (rising rows.old.items) }
    ensures ok { OnOk result
        (AreSame (rows_of rows.new.items) (changed_by changes.now (rows_of rows.old.items))) }
    ensures err { OnErr result (rows.new.items ≡ rows.old.items) }
    ensures rising { IsTrue (rising rows.new.items) }
{
    let changes = copied_changes(changes, alloc)?;
    rows.reserve(changes.len())?;
    make_all(rows, changes);
    Ok(())
}

impl Keeper for MemoryKeeper {
    ghost use Rattle.keeper.specs.InMemory.{keeper_seen};

    ghost seen = { keeper_seen };

    #[tactic(auto, using(crate::proofs::AccountLaws::kept_load, crate::proofs::AccountLaws::count_load, crate::proofs::SeenLaws::grows_one))]
    fn load(&mut self, alloc: Global) -> Result<Vec<Row>, KeepFault>
        ensures rising { IfOk result (λ rows. IsTrue (rising rows.items)) }
        ensures rows { IfOk result (λ rows. Lists (keeper_seen self.old).rows rows.items) }
        ensures same { (keeper_seen self.new).rows ≡ (keeper_seen self.old).rows }
        ensures none { self.new.calls ≡ self.old.calls }
        ensures account { MatchResult result
            (λ rows. self.new.account.list ≡ self.old.account.list ++ Load (Some rows.items) ∷ [])
            (λ _. self.new.account.list ≡ self.old.account.list ++ Load None ∷ []) }
        ensures on { KeeperGoesOn (keeper_seen self.old) (keeper_seen self.new) }
        ensures cause { HasCause KeepFailed (keeper_seen self.old).health (keeper_seen self.new).health result }
        // A load fails only if memory runs out. It changes nothing but the account.
        ensures value { IfOk result (λ rows. rows.items ≡ self.old.rows.items) }
        ensures never { IsErrOf result KeepFailed → ⊥ }
        ensures stored { self.new.rows.items ≡ self.old.rows.items }
        ensures fail { self.new.fail.items ≡ self.old.fail.items }
        ensures faults { self.new.faults ≡ self.old.faults }
        ensures began { self.new.began.list ≡ self.old.began.list }
    {
        match copied_items(&self.rows, alloc) {
            Ok(rows) => {
                self.account = self.account.with(&Loaded { rows: &rows });
                Ok(rows)
            }
            Err(OutOfMemory) => {
                self.account = self.account.with(&NotLoaded);
                Err(KeepFault::OutOfMemory)
            }
        }
    }

    #[tactic(auto, using(crate::proofs::AccountLaws::fails_refused, crate::proofs::SeenLaws::grows_one))]
    fn commit(&mut self, alloc: Global, changes: &[Change]) -> Result<(), KeepFault>
        ensures ok { OnOk result (Leads (keeper_seen self.old).rows changes.now (keeper_seen self.new).rows) }
        ensures err { OnErr result ((keeper_seen self.new).rows ≡ (keeper_seen self.old).rows) }
        ensures one { self.new.calls ≡ after self.old.calls }
        ensures account { AddsCommit self.old.account.list self.new.account.list changes.now result }
        ensures on { KeeperGoesOn (keeper_seen self.old) (keeper_seen self.new) }
        ensures cause { HasCause KeepFailed (keeper_seen self.old).health (keeper_seen self.new).health result }
        // The commit returns `Failed` exactly if its number is in `fail`.
        ensures planned { Fails (is_planned self.old.fail.items self.old.calls) result }
        ensures kept { OnErr result (self.new.rows.items ≡ self.old.rows.items) }
        ensures fail { self.new.fail.items ≡ self.old.fail.items }
        ensures began { self.new.began.list ≡ self.old.began.list }
        // A commit that fails was refused.
        ensures refused { OnErr result
            (self.new.account.list ≡ self.old.account.list ++ Commit changes.now Refused ∷ []) }
    {
        let call = self.calls;
        self.calls = call.saturating_add(1);
        if self.fail.contains(&call) {
            self.faults = self.faults.saturating_add(1);
            self.account = self.account.with(&Committed {
                changes,
                outcome: Outcome::Refused,
            });
            return Err(KeepFault::Failed);
        }
        match apply(&mut self.rows, alloc, changes) {
            Ok(()) => {
                self.account = self.account.with(&Committed {
                    changes,
                    outcome: Outcome::Done,
                });
                Ok(())
            }
            Err(OutOfMemory) => {
                self.account = self.account.with(&Committed {
                    changes,
                    outcome: Outcome::Refused,
                });
                Err(KeepFault::OutOfMemory)
            }
        }
    }

    fn faults(&self) -> u64 {
        self.faults
    }
}

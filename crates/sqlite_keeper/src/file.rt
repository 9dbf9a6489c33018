ghost use Rattle.std.specs.Prelude.{◌≡◌, ◌≤◌, ◌++◌, ◌∷◌, [], IsTrue, IfOk, IsErrOf, IsSomeAnd, MatchResult, None, Some};
ghost use mathlib.Core.List.{IsPrefix};
ghost use Rattle.desk_io.specs.Health.{GoesOn, HasCause, RoseOrFull, unsound};
ghost use Rattle.desk_io.specs.Planned.{after};
ghost use Rattle.keeper.specs.Account.{AddsCommit, count_of};
ghost use Rattle.keeper.specs.Order.{rising};
ghost use Rattle.keeper.specs.declared.account.AccountEntry.TheVariants.{Commit, Load};
ghost use Rattle.keeper.specs.declared.account.Outcome.TheVariants.{Refused};
ghost use Rattle.keeper.specs.declared.keeping.KeepFault.TheVariants.{Failed as KeepFailed};
ghost use Rattle.sqlite.specs.Files.{over_files, IsOpened};
ghost use Rattle.sqlite_keeper.specs.Transactions.{IsClean};
ghost use Rattle.sqlite_keeper.specs.Keeping as spec;
ghost use Rattle.sqlite_keeper.specs.Keeping.{AccountsOver, CommitsOver, IsReady, LoadsOver};
ghost use Rattle.sqlite_keeper.specs.Leaving.{LeavesAll};

use crate::leaving::copied;
use crate::table::{all_rows, make_all, make_table};
use crate::trouble::Trouble;
use desk_io::{Change, Record, Row};
use keeper::{AccountEntry, Committed, KeepFault, Keeper, Loaded, NotLoaded, Outcome};
use sqlite::{Connection, File, FileStore, Files};
use sqlite_disk::Unknown;
use sqlite_pager::Options;
use std::alloc::Global;
use std::hash::{BuildHasher, RandomState};

// The write-ahead log is checkpointed into the file once it has this many pages. A commit adds four or five. The log
// is truncated only when the file is closed, so that it takes about a megabyte of the disk.
const PAGES_OF_LOG: usize = 200;

/// Keeps rows in the table `kept` of an SQLite database file. Contracts don't know the rows, but exactly which rows
/// each load returned and what became of each commit. Every failure is a counted fault, except out of memory.
///
/// The first load opens the file. From then on the keeper holds the file's lock, so that no other program opens or
/// changes it. A commit is one transaction, and is on the disk once `commit` returns `Ok`.
///
/// The keeper accepts no commit before a successful load. If the file fails, the keeper closes it, because it can't
/// know whether the latest commit was made. It then accepts no commit until a load has reopened the file.
///
/// Its contracts state which statements the engine executed, committed and returned, by the engine's own contracts.
/// They hold while the disk returns what was written (`IsClean`). The contents of the file are left to the engine.
#[derive(Drop)]
pub struct KeeperOver<C: Drop> {
    rt: HostRuntime,
    path: String,
    conn: Option<C>,
    commits: u64,
    account: Record<AccountEntry>,
    faults: u64,
    ghost counted: { commits ≡ count_of account.list },
}

/// A keeper over a database file.
pub type SqliteKeeper = KeeperOver<Connection<FileStore<File>>>;

// The outcome of a transaction. A file that was lost may contain the changes or not.
fn outcome_of(made: Result<(), Trouble>) -> Outcome
    ensures { result ≡ spec.outcome_of made }
{
    match made {
        Ok(()) => Outcome::Done,
        Err(Trouble::OutOfMemory) => Outcome::Refused,
        Err(Trouble::Refused) => Outcome::Refused,
        Err(Trouble::Lost) => Outcome::Unknown,
    }
}

// The seed makes the salts of the write-ahead log.
fn options(rt: &HostRuntime) -> Result<Options, Trouble> {
    let Ok(state) = RandomState::new(rt) else {
        return Err(Trouble::Lost);
    };
    Ok(Options {
        checkpoint_frames: PAGES_OF_LOG,
        ..Options::new(state.hash_one(&0u8))
    })
}

fn connected(rt: &HostRuntime, path: &str) -> Result<Connection<FileStore<File>>, Trouble>
    ensures { IfOk result (λ conn. IsClean over_files conn → IsOpened conn) }
{
    let options = options(rt)?;
    let files = sqlite_std_file::open(rt, path, Unknown)?;
    match Connection::open_files_with(rt.alloc(), files, options, false) {
        Ok(conn) => Ok(conn),
        Err((error, _)) => Err(Trouble::from(error)),
    }
}

fn opened(rt: &HostRuntime, path: &str) -> Result<Connection<FileStore<File>>, Trouble>
    ensures { IfOk result (λ conn. IsClean over_files conn → IsReady over_files conn) }
{
    let mut conn = connected(rt, path)?;
    make_table(&mut conn)?;
    Ok(conn)
}

impl<C: Drop> KeeperOver<C> {
    // Counts a commit, and adds it to the account.
    #[tactic(auto, using(keeper::proofs::AccountLaws::count_commit))]
    fn enter(&mut self, changes: &[Change], outcome: Outcome)
        ensures account { self.new.account.list ≡ self.old.account.list ++ Commit changes.now outcome ∷ [] }
        ensures commits { self.new.commits ≡ after self.old.commits }
        ensures conn { self.new.conn ≡ self.old.conn }
        ensures faults { self.new.faults ≡ self.old.faults }
    {
        self.commits = self.commits.saturating_add(1);
        self.account = self.account.with(&Committed { changes, outcome });
    }

    // Adds a load that failed to the account.
    #[tactic(auto, using(keeper::proofs::AccountLaws::count_load))]
    fn enter_failed_load(&mut self)
        ensures account { self.new.account.list ≡ self.old.account.list ++ Load None ∷ [] }
        ensures commits { self.new.commits ≡ self.old.commits }
        ensures conn { self.new.conn ≡ self.old.conn }
        ensures faults { self.new.faults ≡ self.old.faults }
    {
        self.account = self.account.with(&NotLoaded);
    }

    // Adds a load of these rows to the account.
    #[tactic(auto, using(keeper::proofs::AccountLaws::count_load))]
    fn enter_load(&mut self, rows: &[Row])
        ensures account { self.new.account.list ≡ self.old.account.list ++ Load (Some rows.now) ∷ [] }
        ensures commits { self.new.commits ≡ self.old.commits }
        ensures conn { self.new.conn ≡ self.old.conn }
        ensures faults { self.new.faults ≡ self.old.faults }
    {
        self.account = self.account.with(&Loaded { rows });
    }

    // Counts a fault.
    fn fault(&mut self) -> KeepFault
        ensures failed { result ≡ KeepFault.Failed }
        ensures conn { self.new.conn ≡ self.old.conn }
        ensures rose { RoseOrFull self.old.faults self.new.faults }
        ensures later { self.old.faults ≤ self.new.faults }
        ensures commits { self.new.commits ≡ self.old.commits }
        ensures account { self.new.account.list ≡ self.old.account.list }
    {
        self.faults = self.faults.saturating_add(1);
        KeepFault::Failed
    }

    // Adds a commit that was refused to the account, and counts a fault.
    fn refuse(&mut self, changes: &[Change]) -> KeepFault
        ensures failed { result ≡ KeepFault.Failed }
        ensures account { self.new.account.list ≡ self.old.account.list ++ Commit changes.now Refused ∷ [] }
        ensures commits { self.new.commits ≡ after self.old.commits }
        ensures conn { self.new.conn ≡ self.old.conn }
        ensures rose { RoseOrFull self.old.faults self.new.faults }
        ensures later { self.old.faults ≤ self.new.faults }
    {
        self.enter(changes, Outcome::Refused);
        self.fault()
    }

    // Closes the file, and counts a fault.
    fn lose(&mut self) -> KeepFault
        ensures failed { result ≡ KeepFault.Failed }
        ensures let_go { self.new.conn ≡ None }
        ensures rose { RoseOrFull self.old.faults self.new.faults }
        ensures later { self.old.faults ≤ self.new.faults }
        ensures commits { self.new.commits ≡ self.old.commits }
        ensures account { self.new.account.list ≡ self.old.account.list }
    {
        self.conn = None;
        self.fault()
    }
}

impl KeeperOver<Connection<FileStore<File>>> {
    /// Creates a keeper of the rows in the file at `path`. Opens nothing yet.
    #[tactic(auto, using(keeper::proofs::AccountLaws::count_none))]
    pub fn new(rt: HostRuntime, path: String) -> SqliteKeeper
        ensures faults { result.faults ≡ 0 }
        ensures commits { result.commits ≡ 0 }
        ensures account { result.account.list ≡ [] }
    {
        KeeperOver {
            rt,
            path,
            conn: None,
            commits: 0,
            account: Record::new(),
            faults: 0,
        }
    }

    // Opens the file, and keeps it open if its rows can be read.
    fn open_rows(&mut self, alloc: Global) -> Result<Vec<Row>, Trouble>
        ensures rising { IfOk result (λ rows. IsTrue (rising rows.items)) }
        ensures rows { self.old.conn ≡ None → IfOk result (λ rows. IsSomeAnd self.new.conn
            (λ conn. IsClean over_files conn → LoadsOver over_files self.old.conn conn rows.items)) }
        ensures faults { self.new.faults ≡ self.old.faults }
        ensures commits { self.new.commits ≡ self.old.commits }
        ensures account { self.new.account.list ≡ self.old.account.list }
    {
        let mut conn = opened(&self.rt, self.path.as_str())?;
        let rows = all_rows(alloc, &mut conn)?;
        self.conn = Some(conn);
        Ok(rows)
    }

    fn load_rows(&mut self, alloc: Global) -> Result<Vec<Row>, Trouble>
        ensures rising { IfOk result (λ rows. IsTrue (rising rows.items)) }
        ensures rows { IfOk result (λ rows. IsSomeAnd self.new.conn
            (λ conn. IsClean over_files conn → LoadsOver over_files self.old.conn conn rows.items)) }
        ensures faults { self.new.faults ≡ self.old.faults }
        ensures commits { self.new.commits ≡ self.old.commits }
        ensures account { self.new.account.list ≡ self.old.account.list }
    {
        let Some(conn) = &mut self.conn else {
            return self.open_rows(alloc);
        };
        let rows = all_rows(alloc, conn)?;
        Ok(rows)
    }

    /// Closes the file at the end of a run. Checkpoints the log into the file and returns both, or None if no file
    /// was opened. If this fails, nothing is lost, because the log still holds what was committed.
    pub fn leave(self) -> Result<Option<Files<File>>, KeepFault>
        ensures { IfOk result (λ files. LeavesAll self.conn files) }
    {
        let KeeperOver { conn, .. } = self;
        match conn {
            None => Ok(None),
            Some(conn) => Ok(Some(copied(conn)?)),
        }
    }

    // Counts a commit, makes it, and adds it to the account.
    #[tactic(auto, using(crate::proofs::LoadLaws::adds_commit, crate::proofs::LoadLaws::adds_refused))]
    fn make(&mut self, changes: &[Change]) -> Result<(), KeepFault>
        ensures made { CommitsOver over_files changes.now self.old.conn self.new.conn result }
        ensures recorded { AccountsOver over_files changes.now self.old.conn self.new.conn
            self.old.account.list self.new.account.list }
        ensures account { AddsCommit self.old.account.list self.new.account.list changes.now result }
        ensures later { self.old.faults ≤ self.new.faults }
        ensures cause { IsErrOf result KeepFailed → RoseOrFull self.old.faults self.new.faults }
        ensures commits { self.new.commits ≡ after self.old.commits }
    {
        let Some(conn) = &mut self.conn else {
            return Err(self.refuse(changes));
        };
        let made = make_all(conn, changes);
        self.enter(changes, outcome_of(made));
        match made {
            Ok(()) => Ok(()),
            Err(Trouble::OutOfMemory) => Err(KeepFault::OutOfMemory),
            Err(Trouble::Refused) => Err(self.fault()),
            Err(Trouble::Lost) => Err(self.lose()),
        }
    }
}

impl Keeper for KeeperOver<Connection<FileStore<File>>> {
    ghost seen = { λ k. record {
      rows = None;
      commits = k.commits;
      account = k.account.list;
      health = unsound k.faults;
    } };

    #[tactic(auto, using(keeper::proofs::SeenLaws::grows_one))]
    fn load(&mut self, alloc: Global) -> Result<Vec<Row>, KeepFault>
        ensures rising { IfOk result (λ rows. IsTrue (rising rows.items)) }
        ensures none { self.new.commits ≡ self.old.commits }
        ensures account { MatchResult result
            (λ rows. self.new.account.list ≡ self.old.account.list ++ Load (Some rows.items) ∷ [])
            (λ _. self.new.account.list ≡ self.old.account.list ++ Load None ∷ []) }
        ensures grows { IsPrefix self.old.account.list self.new.account.list }
        ensures on { GoesOn (unsound self.old.faults) (unsound self.new.faults) }
        ensures cause { HasCause KeepFailed (unsound self.old.faults) (unsound self.new.faults) result }
        // The file is open, and the rows are those that the engine returned.
        ensures loaded { IfOk result (λ rows. IsSomeAnd self.new.conn
            (λ conn. IsClean over_files conn → LoadsOver over_files self.old.conn conn rows.items)) }
        // A file that failed is closed.
        ensures let_go { IsErrOf result KeepFailed → self.new.conn ≡ None }
    {
        match self.load_rows(alloc) {
            Ok(rows) => {
                self.enter_load(&rows);
                Ok(rows)
            }
            Err(Trouble::OutOfMemory) => {
                self.enter_failed_load();
                Err(KeepFault::OutOfMemory)
            }
            Err(_) => {
                self.enter_failed_load();
                Err(self.lose())
            }
        }
    }

    #[tactic(auto, using(keeper::proofs::SeenLaws::adds_grows))]
    fn commit(&mut self, _: Global, changes: &[Change]) -> Result<(), KeepFault>
        ensures one { self.new.commits ≡ after self.old.commits }
        ensures account { AddsCommit self.old.account.list self.new.account.list changes.now result }
        ensures grows { IsPrefix self.old.account.list self.new.account.list }
        ensures on { GoesOn (unsound self.old.faults) (unsound self.new.faults) }
        ensures cause { HasCause KeepFailed (unsound self.old.faults) (unsound self.new.faults) result }
        // All changes are made in one transaction, or none of them. Before a load, none is made.
        ensures made { CommitsOver over_files changes.now self.old.conn self.new.conn result }
        // The account calls the commit done exactly if the engine executed and committed all changes.
        ensures recorded { AccountsOver over_files changes.now self.old.conn self.new.conn
            self.old.account.list self.new.account.list }
    {
        self.make(changes)
    }

    fn faults(&self) -> u64 {
        self.faults
    }
}

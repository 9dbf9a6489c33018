ghost use Rattle.std.specs.Prelude.{◌≡◌, ◌≤◌, ◌++◌, ◌∷◌, [], false, IsTrue, IfOk, IsErr, IsErrOf, OnOk, MatchResult, None, Some, length};
ghost use Rattle.std.specs.Option.{option_map};
ghost use mathlib.Core.List.{IsPrefix};
ghost use Rattle.desk_io.specs.Health.{GoesOn, HasCause, RoseOrFull, unsound};
ghost use Rattle.desk_io.specs.Planned.{after};
ghost use Rattle.keeper.specs.Account.{AddsCommit, count_of};
ghost use Rattle.keeper.specs.Order.{rising};
ghost use Rattle.keeper.specs.declared.account.AccountEntry.TheVariants.{Commit, Load};
ghost use Rattle.keeper.specs.declared.keeping.KeepFault.TheVariants.{Failed as KeepFailed};
ghost use Rattle.pg_keeper.specs.Endings as spec;
ghost use Rattle.pg_keeper.specs.Batch.{batch};
ghost use Rattle.pg_keeper.specs.Endings.{Attempts, Commits, OnBoth, RecordsCommit};
ghost use Rattle.pg_keeper.specs.Loads.{LoadsOver};

use crate::batch::batch_of;
use crate::dial::Dial;
use crate::ending::{Cause, Ending, Trouble, is_lost, made_over, outcome_of};
use crate::opening::{Account, limit, opened};
use crate::rows::all_rows;
use desk_io::{Change, Record, Row, Text};
use desk_net::Link;
use keeper::{AccountEntry, Committed, KeepFault, Keeper, Loaded, NotLoaded, Outcome};
use pg_wire::{WriteFault, send};
use std::alloc::Global;

// The message that ends a session.
const TERMINATE: &[u8] = b"X\0\0\0\x04";

/// Keeps rows in the table `kept` of a PostgreSQL database. Contracts don't know the rows, but exactly what each commit
/// sent, what the server answered, and what the account says of it. Every failure is a counted fault, except out of
/// memory.
///
/// The first load connects, logs in and takes the lock, so that no second desk opens the database. The keeper accepts
/// no commit before a successful load. A commit is one transaction, sent at once, and no commit is sent twice.
///
/// A keeper whose connection is lost is broken for good, because it can't know whether the latest commit was made. It
/// then refuses each call and sends nothing. A new keeper learns the rows by a load.
#[derive(Drop)]
pub struct PgKeeper<D: Dial + Drop> {
    dial: D,
    login: Account,
    link: Option<D::Link>,
    broken: bool,
    commits: u64,
    account: Record<AccountEntry>,
    faults: u64,
    cause: Option<Cause>,
    holder: Option<Text>,
    ghost counted: { commits ≡ count_of account.list },
}

impl<D: Dial + Drop> PgKeeper<D> {
    /// Creates a keeper of the rows in a login's database. Connects to nothing yet.
    #[tactic(auto, using(keeper::proofs::AccountLaws::count_none))]
    pub fn new(dial: D, login: Account) -> Self
        ensures faults { result.faults ≡ 0 }
        ensures commits { result.commits ≡ 0 }
        ensures account { result.account.list ≡ [] }
        ensures broken { result.broken ≡ false }
    {
        PgKeeper {
            dial,
            login,
            link: None,
            broken: false,
            commits: 0,
            account: Record::new(),
            faults: 0,
            cause: None,
            holder: None,
        }
    }

    /// Returns why the latest call that failed did so.
    pub fn cause(&self) -> Option<Cause>
        ensures { result ≡ self.now.cause }
    {
        self.cause
    }

    /// Returns which session held the lock, if the opening asked for it.
    pub fn holder(&self) -> &Option<Text> {
        &self.holder
    }

    /// Ends the session, so that the server releases the lock.
    pub fn leave(self) {
        let PgKeeper { link, broken, .. } = self;
        if let Some(mut link) = link
            && !broken
        {
            let _ = send(&mut link, TERMINATE);
            link.end();
        }
    }

    /// Returns whether the connection was lost, so that the keeper refuses each call.
    pub fn is_broken(&self) -> bool
        ensures { result ≡ self.now.broken }
    {
        self.broken
    }

    // Counts a commit, and adds it to the account.
    #[tactic(auto, using(keeper::proofs::AccountLaws::count_commit))]
    fn enter(&mut self, changes: &[Change], outcome: Outcome)
        ensures account { self.new.account.list ≡ self.old.account.list ++ Commit changes.now outcome ∷ [] }
        ensures commits { self.new.commits ≡ after self.old.commits }
        ensures link { self.new.link ≡ self.old.link }
        ensures broken { self.new.broken ≡ self.old.broken }
        ensures faults { self.new.faults ≡ self.old.faults }
    {
        self.commits = self.commits.saturating_add(1);
        self.account = self.account.with(&Committed { changes, outcome });
    }

    // Adds a load that failed to the account.
    #[tactic(auto, using(keeper::proofs::AccountLaws::count_load))]
    fn enter_failed_load(&mut self)
        ensures account { self.new.account.list ≡ self.old.account.list ++ Load None ∷ [] }
        ensures commits { self.new.commits ≡ self.old.commits }
        ensures link { self.new.link ≡ self.old.link }
        ensures broken { self.new.broken ≡ self.old.broken }
        ensures faults { self.new.faults ≡ self.old.faults }
    {
        self.account = self.account.with(&NotLoaded);
    }

    // Adds a load of these rows to the account.
    #[tactic(auto, using(keeper::proofs::AccountLaws::count_load))]
    fn enter_load(&mut self, rows: &[Row])
        ensures account { self.new.account.list ≡ self.old.account.list ++ Load (Some rows.now) ∷ [] }
        ensures commits { self.new.commits ≡ self.old.commits }
        ensures link { self.new.link ≡ self.old.link }
        ensures broken { self.new.broken ≡ self.old.broken }
        ensures faults { self.new.faults ≡ self.old.faults }
    {
        self.account = self.account.with(&Loaded { rows });
    }

    // Counts a fault.
    fn fault(&mut self, cause: Cause) -> KeepFault
        ensures failed { result ≡ KeepFault.Failed }
        ensures rose { RoseOrFull self.old.faults self.new.faults }
        ensures later { self.old.faults ≤ self.new.faults }
        ensures link { self.new.link ≡ self.old.link }
        ensures broken { self.new.broken ≡ self.old.broken }
        ensures commits { self.new.commits ≡ self.old.commits }
        ensures account { self.new.account.list ≡ self.old.account.list }
    {
        self.faults = self.faults.saturating_add(1);
        self.cause = Some(cause);
        KeepFault::Failed
    }

    // Counts a fault, unless memory ran out.
    fn fault_of(&mut self, trouble: Trouble) -> KeepFault
        ensures rose { result ≡ KeepFault.Failed → RoseOrFull self.old.faults self.new.faults }
        ensures later { self.old.faults ≤ self.new.faults }
        ensures link { self.new.link ≡ self.old.link }
        ensures broken { self.new.broken ≡ self.old.broken }
        ensures commits { self.new.commits ≡ self.old.commits }
        ensures account { self.new.account.list ≡ self.old.account.list }
    {
        match trouble {
            Trouble::OutOfMemory => KeepFault::OutOfMemory,
            Trouble::Failed(cause) => self.fault(cause),
        }
    }

    // Connects, and keeps the connection if its rows can be read and its later statements are limited.
    fn open_rows(&mut self, alloc: Global) -> Result<Vec<Row>, Trouble>
        ensures rising { IfOk result (λ rows. IsTrue (rising rows.items)) }
        ensures loaded { self.old.link ≡ None → IfOk result (λ rows. LoadsOver
            (option_map (λ l. (D.Link.seen l).crossed) self.old.link)
            (option_map (λ l. (D.Link.seen l).crossed) self.new.link) rows.items) }
        ensures broken { self.new.broken ≡ self.old.broken }
        ensures faults { self.new.faults ≡ self.old.faults }
        ensures commits { self.new.commits ≡ self.old.commits }
        ensures account { self.new.account.list ≡ self.old.account.list }
    {
        let mut link = opened(alloc, &mut self.dial, &self.login, &mut self.holder)?;
        let rows = all_rows(alloc, &mut link)?;
        limit(&mut link)?;
        self.link = Some(link);
        Ok(rows)
    }

    // Reads the rows over the open connection. A connection that fails then is lost.
    fn load_again(&mut self, alloc: Global) -> Result<Vec<Row>, Trouble>
        ensures rising { IfOk result (λ rows. IsTrue (rising rows.items)) }
        ensures loaded { IfOk result (λ rows. LoadsOver
            (option_map (λ l. (D.Link.seen l).crossed) self.old.link)
            (option_map (λ l. (D.Link.seen l).crossed) self.new.link) rows.items) }
        ensures broken { IsTrue self.old.broken → IsTrue self.new.broken }
        ensures faults { self.new.faults ≡ self.old.faults }
        ensures commits { self.new.commits ≡ self.old.commits }
        ensures account { self.new.account.list ≡ self.old.account.list }
    {
        let Some(link) = &mut self.link else {
            return self.open_rows(alloc);
        };
        let rows = all_rows(alloc, link);
        if let Err(Trouble::Failed(Cause::Lost)) = &rows {
            self.broken = true;
        }
        rows
    }

    fn load_rows(&mut self, alloc: Global) -> Result<Vec<Row>, Trouble>
        ensures rising { IfOk result (λ rows. IsTrue (rising rows.items)) }
        ensures loaded { IfOk result (λ rows. LoadsOver
            (option_map (λ l. (D.Link.seen l).crossed) self.old.link)
            (option_map (λ l. (D.Link.seen l).crossed) self.new.link) rows.items) }
        ensures broken { IsTrue self.old.broken
            → IsTrue self.new.broken × (self.new.link ≡ self.old.link) × (IfOk result (λ _. ⊥)) }
        ensures faults { self.new.faults ≡ self.old.faults }
        ensures commits { self.new.commits ≡ self.old.commits }
        ensures account { self.new.account.list ≡ self.old.account.list }
    {
        if self.broken {
            return Err(Trouble::Failed(Cause::Broken));
        }
        self.load_again(alloc)
    }

    // Makes a commit over the connection, and breaks the keeper if the connection is lost.
    #[tactic(auto, using(crate::proofs::EndingLaws::attempts_refused))]
    fn attempt_over(&mut self, request: &[u8], changes: &[Change]) -> Ending
        requires whole { self.old.broken ≡ false }
        requires request { request.now ≡ batch changes.now }
        ensures attempted { Attempts changes.now self.old.broken self.new.broken
            (option_map (λ l. (D.Link.seen l).crossed) self.old.link)
            (option_map (λ l. (D.Link.seen l).crossed) self.new.link) result }
        ensures faults { self.new.faults ≡ self.old.faults }
        ensures commits { self.new.commits ≡ self.old.commits }
        ensures account { self.new.account.list ≡ self.old.account.list }
    {
        let Some(link) = &mut self.link else {
            return Ending::Refused(Cause::NotOpened);
        };
        let ending = made_over(link, request, changes.len() as u64);
        self.broken = is_lost(ending);
        ending
    }

    // Makes a commit, unless the keeper is broken or the request can't be written.
    #[tactic(auto, using(crate::proofs::EndingLaws::attempts_refused, crate::proofs::EndingLaws::attempts_memory))]
    fn attempt(&mut self, alloc: Global, changes: &[Change]) -> Ending
        ensures attempted { Attempts changes.now self.old.broken self.new.broken
            (option_map (λ l. (D.Link.seen l).crossed) self.old.link)
            (option_map (λ l. (D.Link.seen l).crossed) self.new.link) result }
        ensures broken { IsTrue self.old.broken
            → IsTrue self.new.broken × (self.new.link ≡ self.old.link) × (result ≡ Ending.Refused Cause.Broken) }
        ensures faults { self.new.faults ≡ self.old.faults }
        ensures commits { self.new.commits ≡ self.old.commits }
        ensures account { self.new.account.list ≡ self.old.account.list }
    {
        if self.broken {
            return Ending::Refused(Cause::Broken);
        }
        match batch_of(alloc, changes) {
            Ok(request) => self.attempt_over(&request, changes),
            Err(WriteFault::OutOfMemory) => Ending::OutOfMemory,
            Err(WriteFault::TooLong) => Ending::Refused(Cause::TooLong),
        }
    }

    // Counts a fault, unless the commit was made or memory ran out.
    fn result_of(&mut self, ending: Ending) -> Result<(), KeepFault>
        ensures said { result ≡ spec.said ending }
        ensures rose { IsErrOf result KeepFailed → RoseOrFull self.old.faults self.new.faults }
        ensures later { self.old.faults ≤ self.new.faults }
        ensures link { self.new.link ≡ self.old.link }
        ensures broken { self.new.broken ≡ self.old.broken }
        ensures commits { self.new.commits ≡ self.old.commits }
        ensures account { self.new.account.list ≡ self.old.account.list }
    {
        match ending {
            Ending::Done => Ok(()),
            Ending::OutOfMemory => Err(KeepFault::OutOfMemory),
            Ending::Refused(cause) => Err(self.fault(cause)),
            Ending::Lost => Err(self.fault(Cause::Lost)),
        }
    }
}

impl<D: Dial + Drop> PgKeeper<D> {
    // Makes a commit, and adds it to the account.
    #[tactic(auto, using(crate::proofs::EndingLaws::adds_commit, crate::proofs::EndingLaws::records_commit, crate::proofs::EndingLaws::kept_done))]
    fn make(&mut self, alloc: Global, changes: &[Change]) -> Result<(), KeepFault>
        ensures recorded { RecordsCommit changes.now self.old.broken self.new.broken
            (option_map (λ l. (D.Link.seen l).crossed) self.old.link)
            (option_map (λ l. (D.Link.seen l).crossed) self.new.link)
            self.old.account.list self.new.account.list }
        ensures kept { OnOk result (OnBoth (option_map (λ l. (D.Link.seen l).crossed) self.old.link)
            (option_map (λ l. (D.Link.seen l).crossed) self.new.link)
            (Commits (batch changes.now) (length changes.now))) }
        ensures broken { IsTrue self.old.broken
            → IsTrue self.new.broken × (self.new.link ≡ self.old.link) × IsErrOf result KeepFailed }
        ensures account { AddsCommit self.old.account.list self.new.account.list changes.now result }
        ensures later { self.old.faults ≤ self.new.faults }
        ensures cause { IsErrOf result KeepFailed → RoseOrFull self.old.faults self.new.faults }
        ensures commits { self.new.commits ≡ after self.old.commits }
    {
        let ending = self.attempt(alloc, changes);
        self.enter(changes, outcome_of(ending));
        self.result_of(ending)
    }
}

impl<D: Dial + Drop> Keeper for PgKeeper<D> {
    ghost seen = { λ k. record {
      rows = None;
      commits = k.commits;
      account = k.account.list;
      health = unsound k.faults;
    } };

    #[tactic(auto, using(keeper::proofs::SeenLaws::grows_one))]
    fn load(&mut self, alloc: Global) -> Result<Vec<Row>, KeepFault>
        ensures rising { IfOk result (λ rows. IsTrue (rising rows.items)) }
        ensures none { self.new.commits ≡ self.old.commits }
        ensures account { MatchResult result
            (λ rows. self.new.account.list ≡ self.old.account.list ++ Load (Some rows.items) ∷ [])
            (λ _. self.new.account.list ≡ self.old.account.list ++ Load None ∷ []) }
        ensures grows { IsPrefix self.old.account.list self.new.account.list }
        ensures on { GoesOn (unsound self.old.faults) (unsound self.new.faults) }
        ensures cause { HasCause KeepFailed (unsound self.old.faults) (unsound self.new.faults) result }
        // The request was sent once, and the rows are exactly those with which the server answered.
        ensures loaded { IfOk result (λ rows. LoadsOver
            (option_map (λ l. (D.Link.seen l).crossed) self.old.link)
            (option_map (λ l. (D.Link.seen l).crossed) self.new.link) rows.items) }
        // A broken keeper stays broken, and sends nothing.
        ensures broken { IsTrue self.old.broken
            → IsTrue self.new.broken × (self.new.link ≡ self.old.link) × IsErr result }
    {
        match self.load_rows(alloc) {
            Ok(rows) => {
                self.enter_load(&rows);
                Ok(rows)
            }
            Err(trouble) => {
                self.enter_failed_load();
                Err(self.fault_of(trouble))
            }
        }
    }

    #[tactic(auto, using(keeper::proofs::SeenLaws::adds_grows))]
    fn commit(&mut self, alloc: Global, changes: &[Change]) -> Result<(), KeepFault>
        ensures one { self.new.commits ≡ after self.old.commits }
        ensures account { AddsCommit self.old.account.list self.new.account.list changes.now result }
        ensures grows { IsPrefix self.old.account.list self.new.account.list }
        ensures on { GoesOn (unsound self.old.faults) (unsound self.new.faults) }
        ensures cause { HasCause KeepFailed (unsound self.old.faults) (unsound self.new.faults) result }
        // The account calls the commit done exactly if the request was sent once and whole, and the server answered
        // that it made and committed all changes; refused only if nothing was sent or the server refused; and unknown
        // only if the link is lost, which breaks the keeper.
        ensures recorded { RecordsCommit changes.now self.old.broken self.new.broken
            (option_map (λ l. (D.Link.seen l).crossed) self.old.link)
            (option_map (λ l. (D.Link.seen l).crossed) self.new.link)
            self.old.account.list self.new.account.list }
        // Only this batch was sent, and the server committed it.
        ensures kept { OnOk result (OnBoth (option_map (λ l. (D.Link.seen l).crossed) self.old.link)
            (option_map (λ l. (D.Link.seen l).crossed) self.new.link)
            (Commits (batch changes.now) (length changes.now))) }
        // A broken keeper stays broken, and sends nothing.
        ensures broken { IsTrue self.old.broken
            → IsTrue self.new.broken × (self.new.link ≡ self.old.link) × IsErrOf result KeepFailed }
    {
        self.make(alloc, changes)
    }

    fn faults(&self) -> u64 {
        self.faults
    }
}

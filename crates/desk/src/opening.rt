ghost use Rattle.std.specs.Prelude.{◌≡◌, ◌⊎◌, ◌++◌, ◌∷◌, [], None, Some, false, map, IfOk, IfErr, OnOk, OnErr, IsTrue, MatchResult};
ghost use Rattle.board.specs.declared.state.Restored.{Restored as ARestored};
ghost use Rattle.desk_io.specs.Health.{HasFailed};
ghost use Rattle.desk_io.specs.Rows.{Rows, rows_of, changed_by};
ghost use Rattle.keeper.specs.Account.{FailedCommit};
ghost use Rattle.keeper.specs.Kept.{AreSame, Lists, Leads};
ghost use Rattle.keeper.specs.Order.{rising};
ghost use Rattle.keeper.specs.Seen.{KeeperGoesOn, kept_rows};
ghost use Rattle.keeper.specs.declared.account.AccountEntry.TheVariants.{Load};
ghost use Rattle.keeper.specs.declared.keeping.KeepFault.TheVariants.{Failed as KeepFailed};
ghost use Rattle.board.specs.Below.{AreKept, IsChecked, AreOfDesk, reopened};
ghost use Rattle.desk_state.specs.State.{State};
ghost use Rattle.desk.specs.Keeping.{KeepsState};
ghost use Rattle.desk.specs.Opening.{commits_for, commits_to_open, AreAsked, MayHaveAsked, of_keeper, of_rows};
ghost use Rattle.desk.specs.Opening.{IsOfRows, IsOfKeeper, IsWhy};
ghost use Rattle.desk.specs.Opening.{AreLoaded, board_of, IsLeft, IsLoad, IsOpened, OpensOver, TellsRowsOf, under};
ghost use Rattle.desk.specs.Opening.{commits_of, opening_changes, NotEntered, NotRead, NotSaved};
ghost use Rattle.desk.specs.declared.opening.OpenWhy.TheVariants.{OutOfMemory as OpenMemory};

use crate::settling::{Desk, commit};
use alerts::{Bell, Ringer};
use board::{Board, Checked, Restored, RowWhy, RowsFault, check_rows};
use desk_io::{Change, OutOfMemory, Row};
use keeper::{KeepFault, Keeper};
use ops_tables::Tables;
use rules::Steps;
use std::alloc::Global;
use std::sync::ledger::Ledger;

/// Why a desk can't be opened.
#[derive(Debug, Drop)]
pub enum OpenWhy {
    /// The keeper failed, and counted the fault.
    KeeperFault,
    /// The row isn't one that a desk writes.
    BadRow { row: Row, why: RowWhy },
    /// The two rows contradict each other.
    BadPair { one: Row, two: Row },
    OutOfMemory,
}

impl From<OutOfMemory> for OpenWhy {
    ghost from_gives = { λ _ e. e ≡ OpenMemory };

    fn from(_: OutOfMemory) -> Self {
        OpenWhy::OutOfMemory
    }
}

/// Why a desk couldn't be opened. The caller gets back the keeper, whose rows are unchanged, and the ringer.
#[derive(Drop)]
pub struct OpenFault<K, B> {
    pub keeper: K,
    pub ringer: Ringer<B>,
    pub why: OpenWhy,
}

fn why_of_keeper(fault: KeepFault) -> OpenWhy
    ensures { result ≡ of_keeper fault }
{
    match fault {
        KeepFault::Failed => OpenWhy::KeeperFault,
        KeepFault::OutOfMemory => OpenWhy::OutOfMemory,
    }
}

fn why_of_rows(fault: RowsFault) -> OpenWhy
    ensures { result ≡ of_rows fault }
{
    match fault {
        RowsFault::BadRow { row, why } => OpenWhy::BadRow { row, why },
        RowsFault::BadPair { one, two } => OpenWhy::BadPair { one, two },
        RowsFault::OutOfMemory => OpenWhy::OutOfMemory,
    }
}

#[tactic(auto, using(keeper::proofs::SeenLaws::loaded_kept))]
fn load<K: Keeper>(alloc: Global, keeper: &mut K) -> Result<Vec<Row>, OpenWhy>
    ensures order { IfOk result (λ rows. IsTrue (rising rows.items)) }
    ensures rows { IfOk result (λ rows. Lists (K.seen keeper.old).rows rows.items) }
    ensures kept { IfOk result (λ rows. Lists (kept_rows (K.seen keeper.new)) rows.items) }
    ensures account { IfOk result (λ rows. (K.seen keeper.new).account ≡ (K.seen keeper.old).account ++ Load
        (Some rows.items) ∷ []) }
    ensures failed { OnErr result ((K.seen keeper.new).account ≡ (K.seen keeper.old).account ++ Load None ∷ []) }
    ensures same { (K.seen keeper.new).rows ≡ (K.seen keeper.old).rows }
    ensures why { IfErr result (IsOfKeeper (HasFailed (K.seen keeper.old).health (K.seen keeper.new).health)) }
    ensures none { (K.seen keeper.new).commits ≡ (K.seen keeper.old).commits }
    ensures on { KeeperGoesOn (K.seen keeper.old) (K.seen keeper.new) }
{
    match keeper.load(alloc) {
        Ok(rows) => Ok(rows),
        Err(fault) => Err(why_of_keeper(fault)),
    }
}

fn checked(alloc: Global, rows: &[Row]) -> Result<Checked, OpenWhy>
    ensures { MatchResult result (IsChecked rows.now) (IsOfRows rows.now) }
{
    match check_rows(alloc, rows) {
        Ok(found) => Ok(found),
        Err(fault) => Err(why_of_rows(fault)),
    }
}

// Loads the keeper's rows and checks them.
fn records_of<K: Keeper>(alloc: Global, keeper: &mut K) -> Result<Checked, OpenWhy>
    ensures loaded { IfOk result (λ found. AreLoaded (K.seen keeper.old).rows found.records.items found.is_old) }
    ensures kept { IfOk result (λ found. AreLoaded (kept_rows (K.seen keeper.new)) found.records.items found.is_old) }
    ensures entered { IfOk result (λ found. IsLoad (K.seen keeper.old).account (K.seen keeper.new).account
        found.records.items found.is_old) }
    ensures unread { IfErr result (NotRead (K.seen keeper.old).account (K.seen keeper.new).account) }
    ensures desk { IfOk result (λ found. AreOfDesk found.records.items) }
    ensures same { (K.seen keeper.new).rows ≡ (K.seen keeper.old).rows }
    ensures why { IfErr result (IsWhy (K.seen keeper.old).rows
        (HasFailed (K.seen keeper.old).health (K.seen keeper.new).health)) }
    ensures none { (K.seen keeper.new).commits ≡ (K.seen keeper.old).commits }
    ensures on { KeeperGoesOn (K.seen keeper.old) (K.seen keeper.new) }
{
    let rows = load(alloc, keeper)?;
    checked(alloc, &rows)
}

// Stores the changes that restoring the board made to the rows. Requests no commit if there are none.
#[tactic(auto, using(crate::proofs::Opened::leads_nowhere))]
fn keep_changes<K: Keeper>(alloc: Global, keeper: &mut K, changes: &[Change]) -> Result<(), OpenWhy>
    ensures ok { OnOk result (Leads (kept_rows (K.seen keeper.old)) changes.now (kept_rows (K.seen keeper.new))) }
    ensures err { OnErr result ((K.seen keeper.new).rows ≡ (K.seen keeper.old).rows) }
    ensures why { IfErr result (IsOfKeeper (HasFailed (K.seen keeper.old).health (K.seen keeper.new).health)) }
    ensures asked { (K.seen keeper.new).commits ≡ commits_for changes.now (K.seen keeper.old).commits }
    ensures account { OnOk result ((K.seen keeper.new).account ≡ (K.seen keeper.old).account ++ commits_of
        changes.now) }
    ensures failed { OnErr result (FailedCommit (K.seen keeper.old).account (K.seen keeper.new).account changes.now
        KeepFailed) }
    ensures on { KeeperGoesOn (K.seen keeper.old) (K.seen keeper.new) }
{
    if changes.is_empty() {
        return Ok(());
    }
    match commit(alloc, keeper, changes) {
        Ok(()) => Ok(()),
        Err(fault) => Err(why_of_keeper(fault)),
    }
}

// Drops a board whose changes couldn't be stored, in a function of its own, which keeps the caller's proof small.
fn drop_board(_: Board) {}

/// Drops tables for which no desk was opened, in a function of its own, which keeps the caller's proof small.
pub fn leave(_: Tables) {}

// Stores the changes of restoring the board, then returns the board.
fn finish<K: Keeper>(alloc: Global, keeper: &mut K, restored: Restored) -> Result<Board, OpenWhy>
    ensures board { IfOk result (λ b. b ≡ restored.board) }
    ensures ok { OnOk result (Leads (kept_rows (K.seen keeper.old)) restored.changes.items
        (kept_rows (K.seen keeper.new))) }
    ensures err { OnErr result ((K.seen keeper.new).rows ≡ (K.seen keeper.old).rows) }
    ensures why { IfErr result (IsOfKeeper (HasFailed (K.seen keeper.old).health (K.seen keeper.new).health)) }
    ensures asked { (K.seen keeper.new).commits ≡ commits_for restored.changes.items (K.seen keeper.old).commits }
    ensures account { OnOk result ((K.seen keeper.new).account ≡ (K.seen keeper.old).account ++ commits_of
        restored.changes.items) }
    ensures failed { OnErr result (FailedCommit (K.seen keeper.old).account (K.seen keeper.new).account
        restored.changes.items KeepFailed) }
    ensures on { KeeperGoesOn (K.seen keeper.old) (K.seen keeper.new) }
{
    let Restored { board, changes } = restored;
    match keep_changes(alloc, keeper, &changes) {
        Ok(()) => Ok(board),
        Err(why) => {
            drop_board(board);
            Err(why)
        }
    }
}

// Restores the board from loaded records, and stores what that changed.
fn restore<K: Keeper, L: Ledger>(
    alloc: Global,
    tables: Tables,
    found: Checked,
    keeper: &mut K,
    steps: &mut Steps<L>,
) -> Result<Board, OpenWhy>
    requires loaded { AreLoaded (kept_rows (K.seen keeper.old)) found.records.items found.is_old }
    requires desk { AreOfDesk found.records.items }
    ensures board { IfOk result (λ b. b ≡ board_of tables found.records.items false) }
    ensures kept { IfOk result (λ b. KeepsState (kept_rows (K.seen keeper.new)) b.state) }
    ensures err { OnErr result ((K.seen keeper.new).rows ≡ (K.seen keeper.old).rows) }
    ensures why { IfErr result (IsOfKeeper (HasFailed (K.seen keeper.old).health (K.seen keeper.new).health)) }
    ensures asked { IfOk result (λ b. (K.seen keeper.new).commits ≡ commits_to_open tables found.records.items
        found.is_old (K.seen keeper.old).commits) }
    ensures failed { OnErr result (((K.seen keeper.new).commits ≡ (K.seen keeper.old).commits)
        ⊎ ((K.seen keeper.new).commits ≡ commits_to_open tables found.records.items found.is_old
        (K.seen keeper.old).commits)) }
    ensures account { OnOk result ((K.seen keeper.new).account ≡ (K.seen keeper.old).account ++ commits_of
        (opening_changes tables found.records.items found.is_old)) }
    ensures unsaved { IfErr result (NotSaved (K.seen keeper.old).account (K.seen keeper.new).account tables
        found.records.items found.is_old) }
    ensures on { KeeperGoesOn (K.seen keeper.old) (K.seen keeper.new) }
{
    let Checked { records, is_old } = found;
    let restored = Board::restore(alloc, tables, records, is_old, steps)?;
    finish(alloc, keeper, restored)
}

fn open_over<K: Keeper, B: Bell, L: Ledger>(
    alloc: Global,
    tables: Tables,
    found: Checked,
    mut keeper: K,
    ringer: Ringer<B>,
    steps: &mut Steps<L>,
) -> Result<Desk<K, B>, OpenFault<K, B>>
    requires loaded { AreLoaded (kept_rows (K.seen keeper)) found.records.items found.is_old }
    requires desk { AreOfDesk found.records.items }
    ensures board { IfOk result (λ d. d.board ≡ board_of tables found.records.items false) }
    ensures kept { IfOk result (λ d. KeepsState (kept_rows (K.seen d.keeper)) d.board.state) }
    ensures same { IfErr result (λ f. (K.seen f.keeper).rows ≡ (K.seen keeper).rows) }
    ensures why { IfErr result (λ f. IsOfKeeper (HasFailed (K.seen keeper).health (K.seen f.keeper).health) f.why) }
    ensures asked { IfOk result (λ d. (K.seen d.keeper).commits ≡ commits_to_open tables found.records.items
        found.is_old (K.seen keeper).commits) }
    ensures failed { IfErr result (λ f. ((K.seen f.keeper).commits ≡ (K.seen keeper).commits)
        ⊎ ((K.seen f.keeper).commits ≡ commits_to_open tables found.records.items found.is_old
        (K.seen keeper).commits)) }
    ensures account { IfOk result (λ d. (K.seen d.keeper).account ≡ (K.seen keeper).account ++ commits_of
        (opening_changes tables found.records.items found.is_old)) }
    ensures unsaved { IfErr result (λ f. NotSaved (K.seen keeper).account (K.seen f.keeper).account tables
        found.records.items found.is_old f.why) }
    ensures on { MatchResult result (λ d. KeeperGoesOn (K.seen keeper) (K.seen d.keeper))
        (λ f. KeeperGoesOn (K.seen keeper) (K.seen f.keeper)) }
    ensures ringer { MatchResult result (λ d. d.ringer ≡ ringer) (λ f. f.ringer ≡ ringer) }
{
    match restore(alloc, tables, found, &mut keeper, steps) {
        Ok(board) => Ok(Desk {
            board,
            keeper,
            ringer,
        }),
        Err(why) => Err(OpenFault {
            keeper,
            ringer,
            why,
        }),
    }
}

// As `open`, without its clause `left`.
fn open_desk<K: Keeper, B: Bell, L: Ledger>(
    alloc: Global,
    tables: Tables,
    mut keeper: K,
    ringer: Ringer<B>,
    steps: &mut Steps<L>,
) -> Result<Desk<K, B>, OpenFault<K, B>>
    ensures opened { IfOk result (λ d. IsOpened (K.seen keeper).rows tables d.board) }
    ensures kept { IfOk result (λ d. OpensOver (K.seen keeper) (K.seen d.keeper) tables d.board) }
    ensures same { IfErr result (λ f. (K.seen f.keeper).rows ≡ (K.seen keeper).rows) }
    ensures why { IfErr result (λ f. IsWhy (K.seen keeper).rows
        (HasFailed (K.seen keeper).health (K.seen f.keeper).health) f.why) }
    ensures asked { IfOk result (λ d. AreAsked (K.seen keeper).rows tables (K.seen keeper).commits
        (K.seen d.keeper).commits) }
    ensures failed { IfErr result (λ f. MayHaveAsked (K.seen keeper).rows tables (K.seen keeper).commits
        (K.seen f.keeper).commits) }
    ensures unentered { IfErr result (λ f. NotEntered (K.seen keeper).account (K.seen f.keeper).account tables
        f.why) }
    ensures on { MatchResult result (λ d. KeeperGoesOn (K.seen keeper) (K.seen d.keeper))
        (λ f. KeeperGoesOn (K.seen keeper) (K.seen f.keeper)) }
    ensures ringer { MatchResult result (λ d. d.ringer ≡ ringer) (λ f. f.ringer ≡ ringer) }
{
    match records_of(alloc, &mut keeper) {
        Ok(found) => open_over(alloc, tables, found, keeper, ringer, steps),
        Err(why) => {
            leave(tables);
            Err(OpenFault {
                keeper,
                ringer,
                why,
            })
        }
    }
}

/// Opens a desk over the keeper's rows: loads and checks the rows, restores the board from them, and judges its
/// releases by the tables. Rows of the first version are rewritten. All changes to the rows are stored in one commit.
/// After an error the rows are unchanged. No bell is rung.
///
/// Rows that a desk left, in either version, open under any tables. The board gets the state in which the desk left
/// them, judged anew.
pub fn open<K: Keeper, B: Bell, L: Ledger>(
    alloc: Global,
    tables: Tables,
    keeper: K,
    ringer: Ringer<B>,
    steps: &mut Steps<L>,
) -> Result<Desk<K, B>, OpenFault<K, B>>
    ensures opened { IfOk result (λ d. IsOpened (K.seen keeper).rows tables d.board) }
    ensures kept { IfOk result (λ d. OpensOver (K.seen keeper) (K.seen d.keeper) tables d.board) }
    ensures same { IfErr result (λ f. (K.seen f.keeper).rows ≡ (K.seen keeper).rows) }
    ensures why { IfErr result (λ f. IsWhy (K.seen keeper).rows
        (HasFailed (K.seen keeper).health (K.seen f.keeper).health) f.why) }
    // A commit is requested exactly if an alert changed or the rows are of the first version.
    ensures asked { IfOk result (λ d. AreAsked (K.seen keeper).rows tables (K.seen keeper).commits
        (K.seen d.keeper).commits) }
    // If no desk is opened, at most that commit was requested.
    ensures failed { IfErr result (λ f. MayHaveAsked (K.seen keeper).rows tables (K.seen keeper).commits
        (K.seen f.keeper).commits) }
    // Its account has no commit that was done, and tells why.
    ensures unentered { IfErr result (λ f. NotEntered (K.seen keeper).account (K.seen f.keeper).account tables
        f.why) }
    ensures on { MatchResult result (λ d. KeeperGoesOn (K.seen keeper) (K.seen d.keeper))
        (λ f. KeeperGoesOn (K.seen keeper) (K.seen f.keeper)) }
    ensures ringer { MatchResult result (λ d. d.ringer ≡ ringer) (λ f. f.ringer ≡ ringer) }
    // Rows that a desk left have no fault: only the keeper or memory can fail.
    ensures left { (s : State) → IsLeft s → TellsRowsOf (K.seen keeper).rows s
        → MatchResult result (λ d. d.board.state ≡ reopened (under tables s))
        (λ f. IsOfKeeper (HasFailed (K.seen keeper).health (K.seen f.keeper).health) f.why) }
{
    open_desk(alloc, tables, keeper, ringer, steps)
}

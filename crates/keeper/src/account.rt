ghost use Rattle.std.specs.Prelude.{◌∷◌, [], None, Some};
ghost use Rattle.keeper.specs.declared.account.AccountEntry.TheVariants.{Commit, Load};

use desk_io::{Change, Event, Listed, Row};

/// What became of a commit.
#[derive(Clone, Copy, Debug, PartialEq, Eq)]
pub enum Outcome {
    /// All changes were made.
    Done,
    /// No change was made.
    Refused,
    /// All changes were made or none, and the keeper doesn't know which.
    Unknown,
}

/// One call of a keeper, with its outcome. Contracts list these values, and code makes none.
#[derive(Debug, Drop)]
pub enum AccountEntry {
    /// A load, with the rows that it returned, or None if it failed.
    Load(Option<Listed<Row>>),
    /// A commit of these changes.
    Commit(Listed<Change>, Outcome),
}

/// A load that returned these rows.
#[derive(Drop)]
pub struct Loaded<'a> {
    pub rows: &'a [Row],
}

impl<'a> Event<AccountEntry> for Loaded<'a> {
    ghost told = { λ l. Load (Some l.rows.now) ∷ [] };
}

/// A load that failed.
#[derive(Drop)]
pub struct NotLoaded;

impl Event<AccountEntry> for NotLoaded {
    ghost told = { λ _. Load None ∷ [] };
}

/// A commit of these changes, with its outcome.
#[derive(Drop)]
pub struct Committed<'a> {
    pub changes: &'a [Change],
    pub outcome: Outcome,
}

impl<'a> Event<AccountEntry> for Committed<'a> {
    ghost told = { λ c. Commit c.changes.now c.outcome ∷ [] };
}

// The rows with which a keeper begins.
#[derive(Drop)]
pub(crate) struct Begun<'a> {
    pub(crate) rows: &'a [Row],
}

impl<'a> Event<Row> for Begun<'a> {
    ghost told = { λ b. b.rows.now };
}

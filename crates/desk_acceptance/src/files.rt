use crate::steps::{Step, takes};
use desk_io::OutOfMemory;
use keeper::{KeepFault, Keeper};
use sqlite::{Alter, Connection};
use sqlite_keeper::SqliteKeeper;
use std::alloc::Global;
use std::fs;
use std::test::Fail;

// Removes the log of a file of SQLite, if there is one.
fn clear_log(rt: HostRuntime, name: &str) -> Result<(), OutOfMemory> {
    let log = format!(in rt.alloc(); "{name}-wal")?;
    let _ = fs::remove_file(&rt, log.as_str());
    Ok(())
}

// Removes a file of SQLite and its log, if they are there.
fn clear(rt: HostRuntime, name: &str) -> Result<(), OutOfMemory> {
    let _ = fs::remove_file(&rt, name);
    clear_log(rt, name)
}

// Opens keepers over files. The functions below know a keeper by this trait alone, so that only its impl pays for what
// SQLite's contracts say.
trait Opens {
    type Opened: Keeper + Drop;

    // A new keeper over the file of this name.
    fn open(&self, alloc: Global, name: &str) -> Result<Self::Opened, OutOfMemory>;

    // Closes the file at the end of a run. Returns whether it was opened, and the file alone now has all rows.
    fn leave(&self, keeper: Self::Opened) -> Result<bool, KeepFault>;
}

#[derive(Drop)]
struct Files {
    rt: HostRuntime,
}

impl Opens for Files {
    type Opened = SqliteKeeper;

    fn open(&self, alloc: Global, name: &str) -> Result<SqliteKeeper, OutOfMemory> {
        Ok(SqliteKeeper::new(self.rt, String::from_str(alloc, name)?))
    }

    fn leave(&self, keeper: SqliteKeeper) -> Result<bool, KeepFault> {
        Ok(keeper.leave()?.is_some())
    }
}

// Whether a new keeper over a file takes these steps. It closes the file at the end.
fn takes_at<O: Opens>(
    files: &O,
    alloc: Global,
    name: &str,
    steps: &[Step<'_>],
) -> Result<bool, KeepFault> {
    let mut keeper = files.open(alloc, name)?;
    takes(alloc, &mut keeper, steps)
}

// The same, and then it leaves the file.
fn leaves_at<O: Opens>(
    files: &O,
    alloc: Global,
    name: &str,
    steps: &[Step<'_>],
) -> Result<bool, KeepFault> {
    let mut keeper = files.open(alloc, name)?;
    let taken = takes(alloc, &mut keeper, steps);
    let left = files.leave(keeper);
    Ok(taken? && left?)
}

fn file_takes(rt: HostRuntime, name: &str, steps: &[Step<'_>]) -> Result<bool, KeepFault> {
    takes_at(&Files { rt }, rt.alloc(), name, steps)
}

const FIRST_ROWS: &str = "0 0 {\"a\":1}\n1 4 four\n1 9 n\u{e4}chste\n3 2 two\n";

#[test]
fn rows_in_a_file_are_found_by_the_next_keeper(rt: HostRuntime) -> Result<(), Fail> {
    let name = "desk_acceptance_found";
    clear(rt, name)?;
    let after =
        "0 0 {\"a\":2}\n1 4 four\n1 6 six\n1 9 n\u{e4}chste\n255 9223372036854775807 last\n";
    for (before, changes, lines) in [
        ("", FIRST_ROWS, FIRST_ROWS),
        (
            FIRST_ROWS,
            "1 6 six\n3 2\n2 4\n0 0 {\"a\":2}\n2 7 seven\n2 7\n255 9223372036854775807 last\n",
            after,
        ),
        (after, "", after),
    ] {
        let steps = [
            Step::Gives(before),
            Step::Commits(changes),
            Step::Gives(lines),
        ];
        assert!(rt; file_takes(rt, name, &steps)?, "{changes}");
    }
    clear(rt, name)?;
    Ok(())
}

#[test]
fn a_file_that_is_left_has_all_without_its_log(rt: HostRuntime) -> Result<(), Fail> {
    let name = "desk_acceptance_left";
    clear(rt, name)?;
    let steps = [Step::Gives(""), Step::Commits(FIRST_ROWS)];
    assert!(rt; leaves_at(&Files { rt }, rt.alloc(), name, &steps)?);
    clear_log(rt, name)?;
    assert!(rt; file_takes(rt, name, &[Step::Gives(FIRST_ROWS)])?);
    clear(rt, name)?;
    Ok(())
}

const FOUR: &str = "1 4 four\n";

// No commit is made before a load, nor that of a row that can't stand in the file.
#[test]
fn commits_that_cant_be_made_are_counted(rt: HostRuntime) -> Result<(), Fail> {
    let name = "desk_acceptance_refused";
    clear(rt, name)?;
    let steps = [
        Step::FailsToCommit(FOUR),
        Step::Gives(""),
        Step::FailsToCommit("1 4 four\n1 9223372036854775808 past\n"),
        Step::Gives(""),
    ];
    assert!(rt; file_takes(rt, name, &steps)?);
    let steps = [Step::Gives(""), Step::Commits(FOUR), Step::Gives(FOUR)];
    assert!(rt; file_takes(rt, name, &steps)?);
    clear(rt, name)?;
    Ok(())
}

// Whether a second keeper can't load the file of one that holds it, which goes on.
fn shuts_out<O: Opens>(
    files: &O,
    alloc: Global,
    name: &str,
    first: &mut O::Opened,
) -> Result<bool, KeepFault> {
    let steps = [Step::Commits(FOUR), Step::Gives(FOUR)];
    Ok(
        takes(alloc, first, &[Step::Gives("")])?
            && takes_at(files, alloc, name, &[Step::FailsToLoad])?
            && takes(alloc, first, &steps)?,
    )
}

fn is_shut_out<O: Opens>(files: &O, alloc: Global, name: &str) -> Result<bool, KeepFault> {
    let mut first = files.open(alloc, name)?;
    shuts_out(files, alloc, name, &mut first)
}

#[test]
fn a_file_has_one_keeper_at_a_time(rt: HostRuntime) -> Result<(), Fail> {
    let name = "desk_acceptance_held";
    clear(rt, name)?;
    assert!(rt; is_shut_out(&Files { rt }, rt.alloc(), name)?);
    let steps = [Step::Gives(FOUR), Step::Commits("1 4\n"), Step::Gives("")];
    assert!(rt; file_takes(rt, name, &steps)?);
    clear(rt, name)?;
    Ok(())
}

#[test]
fn a_file_that_is_no_database_is_a_fault(rt: HostRuntime) -> Result<(), Fail> {
    let name = "desk_acceptance_text";
    let text = b"The rows of the desk don't stand in this file, and it isn't touched.\n";
    clear(rt, name)?;
    fs::write(&rt, name, text.as_slice())?;
    let fails = file_takes(rt, name, &[Step::FailsToLoad])?;
    let left = fs::read(&rt, name)?;
    clear(rt, name)?;
    assert!(rt; fails && left.as_slice() == text.as_slice());
    Ok(())
}

fn execute<S: Alter>(conn: &mut Connection<S>, statement: &str) -> Result<(), sqlite::Error> {
    conn.execute(statement, &[])?;
    Ok(())
}

// Makes a file of SQLite by one statement.
fn make(rt: HostRuntime, name: &str, statement: &str) -> Result<(), sqlite::Error> {
    let mut conn = Connection::open(&rt, name)?;
    execute(&mut conn, statement)
}

const TABLE: &str =
    "CREATE TABLE kept (kind INTEGER NOT NULL, key INTEGER NOT NULL, body TEXT NOT NULL, PRIMARY KEY (kind, key)) STRICT";

#[test]
fn a_table_with_another_text_is_a_fault(rt: HostRuntime) -> Result<(), Fail> {
    let name = "desk_acceptance_table";
    clear(rt, name)?;
    make(rt, name, TABLE)?;
    let steps = [Step::Gives(""), Step::Commits(FOUR), Step::Gives(FOUR)];
    assert!(rt; file_takes(rt, name, &steps)?);
    for statement in [
        "CREATE TABLE kept(kind INTEGER, key INTEGER, body BLOB)",
        "CREATE TABLE kept (kind INTEGER NOT NULL, key INTEGER NOT NULL, body TEXT NOT NULL, PRIMARY KEY (kind, key))",
        "CREATE TABLE Kept (kind INTEGER NOT NULL, key INTEGER NOT NULL, body TEXT NOT NULL, PRIMARY KEY (kind, key)) STRICT",
    ] {
        clear(rt, name)?;
        make(rt, name, statement)?;
        assert!(rt; file_takes(rt, name, &[Step::FailsToLoad])?, "{statement}");
    }
    clear(rt, name)?;
    Ok(())
}

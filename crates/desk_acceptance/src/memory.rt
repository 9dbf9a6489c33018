ghost use Rattle.std.specs.Prelude.{◌≡◌, IsTrue};
ghost use Rattle.std.specs.List.{list_any};
ghost use Rattle.desk_io.specs.Rows.{is_row};
ghost use Rattle.keeper.specs.Order.{AreApart};

use crate::lines::rows_in;
use crate::steps::{Step, takes};
use desk_io::Row;
use keeper::{KeepFault, MemoryKeeper};
use std::alloc::Global;
use std::test::Fail;

const KEPT: &str = "0 0 meta\n1 4 four\n1 9 nine\n3 2 two\n";

// A row of the kind and the key of this one is among the others.
fn stands_in(row: &Row, others: &[Row]) -> bool
    ensures { result ≡ list_any (is_row row.now.kind row.now.key) others.now }
{
    others
        .iter()
        .any(|other| other.kind == row.kind && other.key == row.key)
}

// No two rows have the same kind and key.
fn are_apart(rows: &[Row]) -> bool
    ensures { IsTrue result → AreApart rows.now }
{
    let mut rest = rows;
    while let [row, others @ ..] = rest {
        if stands_in(row, others) {
            return false;
        }
        rest = others;
    }
    true
}

// A keeper of rows of which no two have the same kind and key, whose commits of those numbers fail.
fn keeper_of(alloc: Global, lines: &str, fail: &[u64]) -> Result<MemoryKeeper, KeepFault> {
    let fail = Vec::from_slice(alloc, fail)?;
    let rows = rows_in(alloc, lines)?;
    if are_apart(&rows) {
        Ok(MemoryKeeper::new(rows, fail))
    } else {
        Err(KeepFault::Failed)
    }
}

// Whether a keeper of some rows, whose commits of those numbers fail, takes these steps.
fn takes_from(
    alloc: Global,
    first: &str,
    fail: &[u64],
    steps: &[Step<'_>],
) -> Result<bool, KeepFault> {
    let mut keeper = keeper_of(alloc, first, fail)?;
    takes(alloc, &mut keeper, steps)
}

#[test]
fn a_keeper_begins_with_rows_in_any_order(rt: HostRuntime) -> Result<(), Fail> {
    for (first, lines) in [
        ("", ""),
        ("7 0 alone\n", "7 0 alone\n"),
        (KEPT, KEPT),
        ("3 2 two\n1 9 nine\n1 4 four\n0 0 meta\n", KEPT),
        ("1 9 nine\n0 0 meta\n3 2 two\n1 4 four\n", KEPT),
        (
            "255 1 c\n1 18446744073709551615 b\n255 0 the rest\n1 2 a\n",
            "1 2 a\n1 18446744073709551615 b\n255 0 the rest\n255 1 c\n",
        ),
    ] {
        assert!(rt;
            takes_from(rt.alloc(), first, &[], &[Step::Gives(lines)])?,
            "{first}"
        );
    }
    Ok(())
}

#[test]
fn changes_of_rows_are_made_each_in_its_turn(rt: HostRuntime) -> Result<(), Fail> {
    let another = "0 0 meta\n1 4 another\n1 9 nine\n3 2 two\n";
    let six = "0 0 meta\n1 4 four\n1 6 six\n1 9 nine\n3 2 two\n";
    for (changes, lines) in [
        ("", KEPT),
        ("1 4 another\n", another),
        ("1 6 six\n", six),
        ("3 2\n", "0 0 meta\n1 4 four\n1 9 nine\n"),
        ("2 4\n1 5\n", KEPT),
        (
            "255 18446744073709551615 last\n0 0\n",
            "1 4 four\n1 9 nine\n3 2 two\n255 18446744073709551615 last\n",
        ),
        // What came before is changed again.
        (
            "2 7 seven\n2 7\n1 9\n1 9 back\n2 7 once more\n2 7 for good\n",
            "0 0 meta\n1 4 four\n1 9 back\n2 7 for good\n3 2 two\n",
        ),
    ] {
        let steps = [Step::Commits(changes), Step::Gives(lines)];
        assert!(rt; takes_from(rt.alloc(), KEPT, &[], &steps)?, "{changes}");
    }
    Ok(())
}

const TWO_ROWS: &str = "1 4 four\n1 9 nine\n";

// Its second commit fails.
#[test]
fn a_commit_that_fails_is_counted_and_changes_no_row(rt: HostRuntime) -> Result<(), Fail> {
    let steps = [
        Step::Commits(TWO_ROWS),
        Step::Gives(TWO_ROWS),
        Step::FailsToCommit("1 4\n2 2 two\n"),
        Step::Gives(TWO_ROWS),
        Step::Commits("1 4\n2 2 two\n"),
        Step::Gives("1 9 nine\n2 2 two\n"),
    ];
    assert!(rt; takes_from(rt.alloc(), "", &[1], &steps)?);
    Ok(())
}

use crate::lines::rows_in;
use desk_io::OutOfMemory;
use records::{RowWhy, RowsFault, check_rows};
use std::alloc::Global;
use std::test::Fail;

// Eight events, and the next number of each kind is 9.
const NINE: &str =
    r#"0 0 {"events":8,"floors":{},"next_deferral":9,"next_kept":9,"next_release":9,"next_report":9,"now":"2025-03-23T06:15Z","version":2}"#;

// What is said of rows: that they fit, or which is bad and why, or which doesn't fit which.
#[derive(Clone, Copy, Debug, PartialEq, Eq)]
enum Checked {
    Fit,
    Bad(u8, u64, RowWhy),
    Pair(u8, u64, u8, u64),
}

// What is said of those counters and then of some rows.
fn answer(alloc: Global, lines: &str) -> Result<Checked, OutOfMemory> {
    let mut rows = rows_in(alloc, NINE)?;
    rows.append(&mut rows_in(alloc, lines)?)?;
    match check_rows(alloc, &rows) {
        Ok(_) => Ok(Checked::Fit),
        Err(RowsFault::BadRow { row, why }) => Ok(Checked::Bad(row.kind, row.key, why)),
        Err(RowsFault::BadPair { one, two }) => {
            Ok(Checked::Pair(one.kind, one.key, two.kind, two.key))
        }
        Err(RowsFault::OutOfMemory) => Err(OutOfMemory),
    }
}

// Rows of which two have the same kind and key, or which don't stand in order, as no keeper gives them.
#[test]
fn the_first_fault_of_rows_that_no_keeper_gives(rt: HostRuntime) -> Result<(), Fail> {
    for (lines, wanted) in [
        (
            r#"2 1 {"found":"2025-03-10T14:20Z","item":"34-1","tail":"N801DK"}
2 1 {"found":"2025-03-10T14:20Z","item":"34-1","tail":"N901DK"}
"#,
            Checked::Pair(2, 1, 2, 1),
        ),
        (
            r#"2 1 {"found":"2025-03-10T14:20Z","item":"34-1","tail":"N801DK"}
2 1 {"found":"2025-03-10T14:20Z","item":"34-1","tail":"N801DK"}
5 3 {"acknowledged":true,"ever":["121.625/1/1"],"failing":[],"opened":"2025-04-01T12:50Z","version":6}
"#,
            Checked::Bad(5, 3, RowWhy::Orphan),
        ),
        (
            r#"5 3 {"acknowledged":true,"ever":["121.625/1/1"],"failing":[],"opened":"2025-04-01T12:50Z","version":6}
3 3 {"active":null,"holder":"D2","pending":null,"phase":"CANCELLED 2025-04-01T00:24Z"}
"#,
            Checked::Pair(3, 3, 5, 3),
        ),
    ] {
        assert!(rt; answer(rt.alloc(), lines)? == wanted, "{wanted:?}");
    }
    Ok(())
}

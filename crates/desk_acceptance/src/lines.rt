use desk_io::{Change, OutOfMemory, Row, Text};
use keeper::{KeepFault, Keeper};
use std::alloc::Global;

// The kind and the key at the head of a line, and the body behind them.
fn parts_of(line: &str) -> Option<(u8, u64, &str)> {
    let (kind, rest) = line.split_once(" ")?;
    let (key, body) = rest.split_once(" ").unwrap_or((rest, ""));
    Some((kind.parse().ok()?, key.parse().ok()?, body))
}

fn row_of(alloc: Global, line: &str) -> Result<Option<Row>, OutOfMemory> {
    match parts_of(line) {
        None => Ok(None),
        Some((kind, key, body)) => Ok(Some(Row {
            kind,
            key,
            body: Text::of(alloc, body.as_bytes())?,
        })),
    }
}

/// The rows of lines, each with its kind, its key and its body.
pub fn rows_in(alloc: Global, lines: &str) -> Result<Vec<Row>, OutOfMemory> {
    let mut rows = Vec::new(alloc);
    for line in lines.split("\n") {
        if let Some(row) = row_of(alloc, line)? {
            rows.push(row)?;
        }
    }
    Ok(rows)
}

fn change_of(row: Row) -> Change {
    if row.body.bytes().is_empty() {
        Change::Remove {
            kind: row.kind,
            key: row.key,
        }
    } else {
        Change::Put(row)
    }
}

/// The changes of lines: one with a body puts that row, and one without takes it away.
pub fn changes_in(alloc: Global, lines: &str) -> Result<Vec<Change>, OutOfMemory> {
    let mut changes = Vec::new(alloc);
    for row in rows_in(alloc, lines)? {
        changes.push(change_of(row))?;
    }
    Ok(changes)
}

fn is_row(row: &Row, other: &Row) -> bool {
    row.kind == other.kind && row.key == other.key && row.body.bytes() == other.body.bytes()
}

/// Whether rows are those of lines.
pub fn are_rows(alloc: Global, rows: &[Row], lines: &str) -> Result<bool, OutOfMemory> {
    let wanted = rows_in(alloc, lines)?;
    Ok(
        rows.len() == wanted.len()
            && rows
                .iter()
                .zip(&wanted)
                .all(|(row, other)| is_row(row, other)),
    )
}

/// Whether a keeper gives the rows of lines, in order.
pub fn gives<K: Keeper>(alloc: Global, keeper: &mut K, lines: &str) -> Result<bool, KeepFault> {
    let rows = keeper.load(alloc)?;
    Ok(are_rows(alloc, &rows, lines)?)
}

/// Has a keeper make the changes of lines.
pub fn commit<K: Keeper>(alloc: Global, keeper: &mut K, lines: &str) -> Result<(), KeepFault> {
    let changes = changes_in(alloc, lines)?;
    keeper.commit(alloc, &changes)
}

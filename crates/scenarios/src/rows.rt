ghost use Rattle.std.specs.Prelude.{IfOk};
ghost use Rattle.keeper.specs.Order.{AreApart};

use crate::fault::CaseFault;
use desk_io::{OutOfMemory, Row, Text, push_all};
use keeper::is_rising;
use std::alloc::Global;
use std::str;

// The kind and the key at the start of a line, and the body after them.
fn parts_of(line: &str) -> Option<(u8, u64, &str)> {
    let (kind, rest) = line.split_once(" ")?;
    let (key, body) = rest.split_once(" ")?;
    Some((kind.parse().ok()?, key.parse().ok()?, body))
}

fn row_of(alloc: Global, line: &str) -> Result<Row, CaseFault<'static>> {
    match parts_of(line) {
        None => Err(CaseFault::Unread("rows")),
        Some((kind, key, body)) => Ok(Row {
            kind,
            key,
            body: Text::of(alloc, body.as_bytes())?,
        }),
    }
}

fn rows_in(alloc: Global, lines: &str) -> Result<Vec<Row>, CaseFault<'static>> {
    let mut rows = Vec::new(alloc);
    for line in lines.split("\n") {
        if !line.is_empty() {
            rows.push(row_of(alloc, line)?)?;
        }
    }
    Ok(rows)
}

/// The rows of lines `KIND KEY BODY`, in the order of the lines.
pub fn rows_of(alloc: Global, lines: &[u8]) -> Result<Vec<Row>, CaseFault<'static>> {
    match str::from_utf8(lines) {
        Ok(lines) => rows_in(alloc, lines),
        Err(_) => Err(CaseFault::Unread("rows")),
    }
}

fn push_row(alloc: Global, lines: &mut Vec<u8>, row: &Row) -> Result<(), OutOfMemory> {
    let kind = row.kind.to_string(alloc)?;
    let key = row.key.to_string(alloc)?;
    let body = row.body.bytes();
    push_all(lines, &[kind.as_bytes(), b" ", key.as_bytes(), b" ", body])?;
    lines.push(b'\n')?;
    Ok(())
}

/// A line `KIND KEY BODY` for each row.
pub fn lines_of(alloc: Global, rows: &[Row]) -> Result<Vec<u8>, OutOfMemory> {
    let mut lines = Vec::new(alloc);
    for row in rows {
        push_row(alloc, &mut lines, row)?;
    }
    Ok(lines)
}

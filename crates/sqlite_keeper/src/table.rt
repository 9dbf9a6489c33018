ghost use Rattle.std.specs.Prelude.{◌≡◌, false, IsTrue, IfOk, OnOk, map, take};
ghost use Rattle.keeper.specs.Order.{rising};
ghost use Rattle.desk_io.specs.declared.rows.Change.TheVariants.{Put, Remove};
ghost use Rattle.sqlite.specs.Held.{state};
ghost use Rattle.sqlite.specs.State.{Survives};
ghost use Rattle.sqlite.specs.Values.{bound};
ghost use Rattle.sqlite.specs.Order.{column};
ghost use Rattle.sqlite.specs.declared.types.Value.TheVariants.{Text as SqlText};
ghost use Rattle.sqlite_keeper.specs.Statements.{columns, line_of};
ghost use Rattle.sqlite_keeper.specs.Transactions.{IsClean, IsRun, Makes, MakesEach, Changes, IsAfter, ShowsAll, HasTable};

use crate::trouble::Trouble;
use desk_io::{Change, Row, Text};
use keeper::is_rising;
use sqlite::types::ValueRef;
use sqlite::{Alter, Connection, Row as Line, Transaction, params};
use std::alloc::Global;
use std::str;

// The file stores this text exactly as it is here. A table with another text is refused.
const TABLE: &str =
    "CREATE TABLE kept (kind INTEGER NOT NULL, key INTEGER NOT NULL, body TEXT NOT NULL, PRIMARY KEY (kind, key)) STRICT";

const TEXT_OF_TABLE: &str = "SELECT sql FROM sqlite_schema WHERE name = 'kept' COLLATE NOCASE";

const ALL: &str = "SELECT kind, key, body FROM kept ORDER BY kind, key";

const PUT: &str =
    "INSERT INTO kept (kind, key, body) VALUES (?1, ?2, ?3) ON CONFLICT (kind, key) DO UPDATE SET body = excluded.body";

const REMOVE: &str = "DELETE FROM kept WHERE kind = ?1 AND key = ?2";

fn is_text(line: &Line, text: &str) -> bool
    ensures { IsTrue result → column line.now 0 ≡ SqlText text.now }
{
    match line.get_ref(0) {
        Ok(ValueRef::Text(bytes)) => bytes == text.as_bytes(),
        _ => false,
    }
}

/// Creates the table, if nothing has its name yet. Returns `Lost` if anything but the desk's table has that name.
pub fn make_table<S: Alter>(conn: &mut Connection<S>) -> Result<(), Trouble>
    ensures has { IsClean S.Store conn.new → OnOk result (HasTable S.Store conn.old conn.new) }
    ensures clean { IsClean S.Store conn.new → IsClean S.Store conn.old }
{
    let found = conn.query_all(TEXT_OF_TABLE, &[])?;
    match found.as_slice() {
        [] => {
            conn.execute(TABLE, &[])?;
            Ok(())
        }
        [line] if is_text(line, TABLE) => Ok(()),
        _ => Err(Trouble::Lost),
    }
}

fn row_of(alloc: Global, line: &Line) -> Result<Row, Trouble>
    ensures { IfOk result (λ row. line_of row ≡ columns line.now) }
{
    let kind: u32 = line.get(0)?;
    let key: u64 = line.get(1)?;
    let (Ok(kind), ValueRef::Text(body)) = (u8::try_from(kind), line.get_ref(2)?) else {
        return Err(Trouble::Lost);
    };
    if str::from_utf8(body).is_err() {
        return Err(Trouble::Lost);
    }
    let body = Text::of(alloc, body)?;
    Ok(Row { kind, key, body })
}

fn rows_of(alloc: Global, lines: &[Line]) -> Result<Vec<Row>, Trouble>
    ensures { IfOk result (λ rows. map columns lines.now ≡ map line_of rows.items) }
{
    let mut rows = Vec::new(alloc);
    for line in lines {
        let row = row_of(alloc, line)?;
        rows.push(row)?;
    }
    Ok(rows)
}

/// Returns all rows of the table in order of kind, then key.
pub fn all_rows<S: Alter>(alloc: Global, conn: &mut Connection<S>) -> Result<Vec<Row>, Trouble>
    ensures rising { IfOk result (λ rows. IsTrue (rising rows.items)) }
    ensures shown { IfOk result (λ rows. IsClean S.Store conn.new → ShowsAll S.Store conn.old conn.new rows.items) }
    ensures clean { IsClean S.Store conn.new → IsClean S.Store conn.old }
{
    let lines = conn.query_all(ALL, &[])?;
    let rows = rows_of(alloc, &lines)?;
    if is_rising(&rows) {
        Ok(rows)
    } else {
        Err(Trouble::Lost)
    }
}

// Executes a statement inside a transaction.
fn run<S: Alter>(
    changing: &mut Transaction<'_, S>,
    text: &str,
    values: &[ValueRef<'_>],
) -> Result<(), Trouble>
    ensures same_reference { changing.new.conn.ghost_name ≡ changing.old.conn.ghost_name }
    ensures ran { IsClean S.Store changing.new.conn.now → IsTrue changing.old.conn.now.in_transaction
        → IsRun S.Store text.now (bound values.now) changing.old.conn.now changing.new.conn.now result }
    ensures survives { Survives (state S.Store changing.old.conn.now) (state S.Store changing.new.conn.now) (λ _. ⊥) }
{
    match changing.execute(text, values) {
        Ok(_) => Ok(()),
        Err(error) => Err(Trouble::from(error)),
    }
}

fn put<S: Alter>(changing: &mut Transaction<'_, S>, row: &Row) -> Result<(), Trouble>
    ensures same_reference { changing.new.conn.ghost_name ≡ changing.old.conn.ghost_name }
    ensures made { IsClean S.Store changing.new.conn.now → IsTrue changing.old.conn.now.in_transaction
        → Makes S.Store (Put row.now) changing.old.conn.now changing.new.conn.now result }
    ensures survives { Survives (state S.Store changing.old.conn.now) (state S.Store changing.new.conn.now) (λ _. ⊥) }
{
    let (Ok(key), Ok(body)) = (i64::try_from(row.key), str::from_utf8(row.body.bytes())) else {
        return Err(Trouble::Refused);
    };
    run(changing, PUT, params![u32::from(row.kind), key, body])
}

fn remove<S: Alter>(changing: &mut Transaction<'_, S>, kind: u8, key: u64) -> Result<(), Trouble>
    ensures same_reference { changing.new.conn.ghost_name ≡ changing.old.conn.ghost_name }
    ensures made { IsClean S.Store changing.new.conn.now → IsTrue changing.old.conn.now.in_transaction
        → Makes S.Store (Remove kind key) changing.old.conn.now changing.new.conn.now result }
    ensures survives { Survives (state S.Store changing.old.conn.now) (state S.Store changing.new.conn.now) (λ _. ⊥) }
{
    let Ok(key) = i64::try_from(key) else {
        return Err(Trouble::Refused);
    };
    run(changing, REMOVE, params![u32::from(kind), key])
}

fn make<S: Alter>(changing: &mut Transaction<'_, S>, change: &Change) -> Result<(), Trouble>
    ensures same_reference { changing.new.conn.ghost_name ≡ changing.old.conn.ghost_name }
    ensures made { IsClean S.Store changing.new.conn.now → IsTrue changing.old.conn.now.in_transaction
        → Makes S.Store change.now changing.old.conn.now changing.new.conn.now result }
    ensures survives { Survives (state S.Store changing.old.conn.now) (state S.Store changing.new.conn.now) (λ _. ⊥) }
{
    match change {
        Change::Put(row) => put(changing, row),
        Change::Remove { kind, key } => remove(changing, *kind, *key),
    }
}

fn make_each<S: Alter>(changing: &mut Transaction<'_, S>, changes: &[Change]) -> Result<(), Trouble>
    ensures same_reference { changing.new.conn.ghost_name ≡ changing.old.conn.ghost_name }
    ensures made { IsClean S.Store changing.new.conn.now → IsTrue changing.old.conn.now.in_transaction
        → MakesEach S.Store changes.now changing.old.conn.now changing.new.conn.now result }
    ensures survives { Survives (state S.Store changing.old.conn.now) (state S.Store changing.new.conn.now) (λ _. ⊥) }
{
    for change in changes {
        make(changing, change)?;
    }
    Ok(())
}

/// Applies all changes in order, in one transaction. If one can't be made, the transaction is dropped, which rolls
/// back those before it. If another transaction is open, this returns `Lost` and does nothing.
pub fn make_all<S: Alter>(conn: &mut Connection<S>, changes: &[Change]) -> Result<(), Trouble>
    ensures made { IsClean S.Store conn.new → Changes S.Store changes.now conn.old conn.new result }
    ensures crash { Survives (state S.Store conn.old) (state S.Store conn.new) (IsAfter S.Store changes.now conn.old) }
{
    if !conn.is_autocommit() {
        return Err(Trouble::Lost);
    }
    let mut changing = conn.transaction();
    make_each(&mut changing, changes)?;
    changing.commit()?;
    Ok(())
}

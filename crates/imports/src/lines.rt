ghost use Rattle.std.specs.Prelude.{◌≡◌, ℕ, List, [], IfOk, IfSome};
ghost use Rattle.std.specs.Option.{option_map};
ghost use Rattle.std.specs.List.{AllByRecursion};
ghost use Rattle.csv_text.specs.Records.{HasGiven};
ghost use Rattle.imports.specs.Lines as spec;
ghost use Rattle.imports.specs.Lines.{AreLeft, Begins, IsImport};
ghost use Rattle.imports.specs.Records.{HasForms};

use crate::records::{Line, read_record};
use csv_text::Records;
use desk_io::{OutOfMemory, Text};
use std::alloc::Global;

// The number of fields to read of a record: one more than a record may have, which shows that it is too long.
const MOST_FIELDS: usize = 6;

// Returns true if the fields are the column names.
fn is_header(fields: &[Text]) -> bool
    ensures { result ≡ spec.is_header fields.now }
{
    match fields {
        [actor, key, number, at, text] => {
            actor.bytes() == b"actor".as_slice()
                && key.bytes() == b"key".as_slice()
                && number.bytes() == b"number".as_slice()
                && at.bytes() == b"at".as_slice()
                && text.bytes() == b"text".as_slice()
        }
        _ => false,
    }
}

// Reads the first record. Returns true if it is the header.
fn has_header(alloc: Global, reader: &mut Records<'_>) -> Result<bool, OutOfMemory>
    ensures { IfOk result (λ good. (text : List ℕ) → HasGiven text [] reader.old → Begins text good reader.new) }
{
    match reader.next(alloc, MOST_FIELDS)? {
        None => Ok(false),
        Some(header) => Ok(is_header(header.as_slice())),
    }
}

// Reads the records that are left.
fn lines_left(alloc: Global, reader: &mut Records<'_>) -> Result<Vec<Line>, OutOfMemory>
    ensures left { IfOk result (λ lines. (text : List ℕ) → (earlier : List (List (List ℕ)))
        → HasGiven text earlier reader.old → AreLeft text earlier lines.items) }
    ensures forms { IfOk result (λ lines. AllByRecursion HasForms lines.items) }
{
    let mut lines = Vec::new(alloc);
    // A text has fewer records than this, so the loop ends inside.
    for _ in 0..u64::MAX {
        let Some(fields) = reader.next(alloc, MOST_FIELDS)? else {
            return Ok(lines);
        };
        lines.push(read_record(alloc, fields.as_slice())?)?;
    }
    Err(OutOfMemory)
}

/// Reads an import: for each record below the header `actor,key,number,at,text` its moment and call, or its first
/// fault. Returns None exactly if the first record isn't this header or is missing.
pub fn read_import(alloc: Global, file: &[u8]) -> Result<Option<Vec<Line>>, OutOfMemory>
    ensures lines { IfOk result (λ lines. IsImport file.now (option_map (λ v. v.items) lines)) }
    // Each moment and call is well-formed, so the call can be performed.
    ensures forms { IfOk result (λ lines. IfSome lines (λ v. AllByRecursion HasForms v.items)) }
{
    let mut reader = Records::of(file);
    if !has_header(alloc, &mut reader)? {
        return Ok(None);
    }
    Ok(Some(lines_left(alloc, &mut reader)?))
}

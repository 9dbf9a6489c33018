// Converts text to boxes, in one pass over the tokens.
ghost use Rattle.std.specs.Prelude.{◌≡◌, ◌<◌, [], length, Err, Some, None, OnOk};
ghost use Rattle.json.specs.Json.{value, items, members};
ghost use Rattle.serde_json.specs.Data.{no_members};
ghost use Rattle.serde_json.specs.Read.{of_json, of_items, of_members, converted, read as read_text};
ghost use Rattle.compact_json.specs.Kept.{data_of};
ghost use Rattle.compact_json.specs.Written.{HasData, HasItems, HasArray, HasMembers, HasObject};
ghost use Rattle.compact_json.specs.declared.writing.WriteFault.TheVariants.{NotJson, OutOfMemory as WriteMemory};

use crate::adding::{close_box, open_box, push_box, push_small};
use crate::numbers::is_number;
use desk_io::OutOfMemory;
use json::{Invalid, Reader, Scratch, Token};
use std::alloc::AllocError;

// The largest depth of nested arrays and objects.
const MAX_DEPTH: usize = 127;

/// Why a text wasn't written.
#[derive(Clone, Copy, Debug, PartialEq, Eq)]
pub(crate) enum WriteFault {
    /// The text isn't JSON.
    NotJson,
    /// Memory ran out.
    OutOfMemory,
}

impl From<Invalid> for WriteFault {
    ghost from_gives = { λ _ e. e ≡ NotJson };

    fn from(_: Invalid) -> Self {
        WriteFault::NotJson
    }
}

impl From<OutOfMemory> for WriteFault {
    ghost from_gives = { λ _ e. e ≡ WriteMemory };

    fn from(_: OutOfMemory) -> Self {
        WriteFault::OutOfMemory
    }
}

impl From<AllocError> for WriteFault {
    ghost from_gives = { λ _ e. e ≡ WriteMemory };

    fn from(_: AllocError) -> Self {
        WriteFault::OutOfMemory
    }
}

#[cycle(write)]
fn write(reader: &mut Reader<'_>, out: &mut Vec<u8>, depth: usize) -> Result<(), WriteFault>
    ensures ok { OnOk result
        (HasData out.old.items out.new.items (converted of_json (value depth reader.old)) reader.new) }
    ensures shorter { OnOk result (length reader.new < length reader.old) }
    ensures err { result ≡ Err NotJson → converted of_json (value depth reader.old) ≡ None }
{
    let token = reader.next().ok_or(WriteFault::NotJson)?;
    match token {
        Token::String(text) => Ok(push_box(out, 4, 6, text.as_bytes())?),
        Token::Number(text) => {
            if is_number(text.as_bytes()) {
                Ok(push_box(out, 3, 5, text.as_bytes())?)
            } else {
                Err(WriteFault::NotJson)
            }
        }
        Token::Bool(b) => {
            if b {
                Ok(push_small(out, 2)?)
            } else {
                Ok(push_small(out, 1)?)
            }
        }
        Token::Null => Ok(push_small(out, 0)?),
        Token::EndObject | Token::EndArray | Token::Key(_) | Token::Bad => Err(WriteFault::NotJson),
        Token::BeginArray => {
            if depth == 0 {
                return Err(WriteFault::NotJson);
            }
            write_array(reader, out, depth - 1)
        }
        Token::BeginObject => {
            if depth == 0 {
                return Err(WriteFault::NotJson);
            }
            write_object(reader, out, depth - 1)
        }
    }
}

#[cycle(write)]
fn write_array(reader: &mut Reader<'_>, out: &mut Vec<u8>, depth: usize) -> Result<(), WriteFault>
    ensures ok { OnOk result (HasArray out.old.items out.new.items
        (converted of_items (items (value depth) (length reader.old) reader.old)) reader.new) }
    ensures shorter { OnOk result (length reader.new < length reader.old) }
    ensures err { result ≡ Err NotJson
        → converted of_items (items (value depth) (length reader.old) reader.old) ≡ None }
{
    let start = open_box(out, 7)?;
    write_items(reader, out, depth)?;
    Ok(close_box(out, start)?)
}

#[cycle(write)]
fn write_items(reader: &mut Reader<'_>, out: &mut Vec<u8>, depth: usize) -> Result<(), WriteFault>
    ensures ok { OnOk result (HasItems out.old.items out.new.items
        (converted of_items (items (value depth) (length reader.old) reader.old)) reader.new) }
    ensures shorter { OnOk result (length reader.new < length reader.old) }
    ensures err { result ≡ Err NotJson
        → converted of_items (items (value depth) (length reader.old) reader.old) ≡ None }
{
    'items: while !reader.take_end_array() {
        write(reader, out, depth)?;
    }
    Ok(())
}

#[cycle(write)]
fn write_object(reader: &mut Reader<'_>, out: &mut Vec<u8>, depth: usize) -> Result<(), WriteFault>
    ensures ok { OnOk result (HasObject out.old.items out.new.items
        (converted (λ ms. of_members ms no_members) (members (value depth) (length reader.old) reader.old))
        reader.new) }
    ensures shorter { OnOk result (length reader.new < length reader.old) }
    ensures err { result ≡ Err NotJson
        → converted (λ ms. of_members ms no_members) (members (value depth) (length reader.old) reader.old) ≡ None }
{
    let start = open_box(out, 8)?;
    write_members(reader, out, depth)?;
    Ok(close_box(out, start)?)
}

#[cycle(write)]
fn write_members(reader: &mut Reader<'_>, out: &mut Vec<u8>, depth: usize) -> Result<(), WriteFault>
    ensures ok { OnOk result (HasMembers out.old.items out.new.items
        (converted (λ ms. of_members ms no_members) (members (value depth) (length reader.old) reader.old))
        reader.new) }
    ensures shorter { OnOk result (length reader.new < length reader.old) }
    ensures err { result ≡ Err NotJson
        → converted (λ ms. of_members ms no_members) (members (value depth) (length reader.old) reader.old) ≡ None }
{
    'members: while let Some(key) = reader.next_key()? {
        push_box(out, 4, 6, key.as_bytes())?;
        write(reader, out, depth)?;
    }
    Ok(())
}

/// Writes the boxes of a whole text, if it is JSON.
pub(crate) fn write_text(
    text: &str,
    scratch: &mut Scratch,
    out: &mut Vec<u8>,
) -> Result<(), WriteFault>
    requires { out.old.items ≡ [] }
    ensures ok { OnOk result (read_text text.now ≡ Some (data_of out.new.items)) }
    ensures err { result ≡ Err NotJson → read_text text.now ≡ None }
{
    let mut reader = Reader::new(text, scratch)?;
    write(&mut reader, out, MAX_DEPTH)?;
    if reader.next().is_some() {
        return Err(WriteFault::NotJson);
    }
    Ok(())
}

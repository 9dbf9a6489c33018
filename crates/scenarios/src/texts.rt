use crate::fault::CaseFault;
use crate::play::Play;
use desk_io::{OutOfMemory, Shelf, read_whole};
use hex::FromHexError;
use serde_json::Value;
use std::alloc::Global;

// How many pieces a text may have. Texts that refer to each other in a circle exceed it.
const PIECES: u32 = 10_000_000;

// A piece of a text that is still to be written, `times` times: as a whole text, or as a line of a list.
#[derive(Clone, Copy)]
struct Piece<'a> {
    value: &'a Value,
    is_line: bool,
    times: u64,
}

// An object that stands for a text.
#[derive(Clone, Copy)]
enum Reference<'a> {
    Named(&'a str, u64),
    Hex(&'a str),
    File(&'a str),
    Joined(&'a [Value]),
}

fn joined_of(value: &Value) -> Option<Reference<'_>> {
    let pieces = value.get("join")?.as_array()?;
    Some(Reference::Joined(pieces.as_slice()))
}

// The reference in an object of one member.
fn single_of(value: &Value) -> Option<Reference<'_>> {
    if let Some(name) = value.get("text") {
        return Some(Reference::Named(name.as_str()?, 1));
    }
    if let Some(digits) = value.get("hex") {
        return Some(Reference::Hex(digits.as_str()?));
    }
    if let Some(path) = value.get("file") {
        return Some(Reference::File(path.as_str()?));
    }
    joined_of(value)
}

fn repeated_of<'a>(play: &Play<'_>, value: &'a Value) -> Option<Reference<'a>> {
    let times = play.number(value.get("times")?)?;
    Some(Reference::Named(value.get("text")?.as_str()?, times))
}

fn reference_of<'a>(play: &Play<'_>, value: &'a Value) -> Option<Reference<'a>> {
    match value.as_object()?.len() {
        1 => single_of(value),
        2 => repeated_of(play, value),
        _ => None,
    }
}

// Pieces are taken from the end of the list, so the last one is pushed first.
fn push_pieces<'a>(
    left: &mut Vec<Piece<'a>>,
    values: &'a [Value],
    is_line: bool,
) -> Result<(), OutOfMemory> {
    for value in values.iter().rev() {
        left.push(Piece {
            value,
            is_line,
            times: 1,
        })?;
    }
    Ok(())
}

fn push_hex(alloc: Global, digits: &str, text: &mut Vec<u8>) -> Result<(), CaseFault<'static>> {
    match hex::decode(alloc, digits) {
        Ok(bytes) => Ok(text.extend_from_slice(&bytes)?),
        Err(FromHexError::OutOfMemory) => Err(CaseFault::OutOfMemory),
        Err(_) => Err(CaseFault::Unread("hex")),
    }
}

fn push_file<'a, F: Shelf>(
    alloc: Global,
    files: &mut F,
    path: &'a str,
    text: &mut Vec<u8>,
) -> Result<(), CaseFault<'a>> {
    match read_whole(alloc, files, path) {
        Ok(whole) => Ok(text.extend_from_slice(whole.bytes())?),
        Err(fault) => Err(CaseFault::of_file(fault, path)),
    }
}

fn put_reference<'a, F: Shelf>(
    play: &Play<'a>,
    files: &mut F,
    reference: Reference<'a>,
    left: &mut Vec<Piece<'a>>,
    text: &mut Vec<u8>,
) -> Result<(), CaseFault<'a>> {
    match reference {
        Reference::Named(name, times) => {
            let value = play.named(name)?;
            left.push(Piece {
                value,
                is_line: false,
                times,
            })?;
            Ok(())
        }
        Reference::Hex(digits) => push_hex(play.alloc, digits, text),
        Reference::File(path) => push_file(play.alloc, files, path, text),
        Reference::Joined(values) => Ok(push_pieces(left, values, false)?),
    }
}

fn put_line(line: &[u8], text: &mut Vec<u8>) -> Result<(), OutOfMemory> {
    text.extend_from_slice(line)?;
    text.push(b'\n')?;
    Ok(())
}

fn put_data(alloc: Global, value: &Value, text: &mut Vec<u8>) -> Result<(), OutOfMemory> {
    put_line(&value.to_vec(alloc)?, text)
}

fn put_whole<'a, F: Shelf>(
    play: &Play<'a>,
    files: &mut F,
    value: &'a Value,
    left: &mut Vec<Piece<'a>>,
    text: &mut Vec<u8>,
) -> Result<(), CaseFault<'a>> {
    match value {
        Value::String(whole) => Ok(text.extend_from_slice(whole.as_bytes())?),
        Value::Array(lines) => Ok(push_pieces(left, lines.as_slice(), true)?),
        _ => match reference_of(play, value) {
            Some(reference) => put_reference(play, files, reference, left, text),
            None => Err(CaseFault::Unread("text")),
        },
    }
}

fn put_in_list<'a, F: Shelf>(
    play: &Play<'a>,
    files: &mut F,
    value: &'a Value,
    left: &mut Vec<Piece<'a>>,
    text: &mut Vec<u8>,
) -> Result<(), CaseFault<'a>> {
    match value {
        Value::String(line) => Ok(put_line(line.as_bytes(), text)?),
        Value::Object(_) => match reference_of(play, value) {
            Some(reference) => put_reference(play, files, reference, left, text),
            None => Ok(put_data(play.alloc, value, text)?),
        },
        _ => Err(CaseFault::Unread("text")),
    }
}

// Writes a piece once, and puts it back if it is to be written again.
fn put<'a, F: Shelf>(
    play: &Play<'a>,
    files: &mut F,
    piece: Piece<'a>,
    left: &mut Vec<Piece<'a>>,
    text: &mut Vec<u8>,
) -> Result<(), CaseFault<'a>> {
    if piece.times > 1 {
        left.push(Piece {
            times: piece.times - 1,
            ..piece
        })?;
    }
    if piece.times == 0 {
        Ok(())
    } else if piece.is_line {
        put_in_list(play, files, piece.value, left, text)
    } else {
        put_whole(play, files, piece.value, left, text)
    }
}

/// The text of a value in a case.
pub fn text_of<'a, F: Shelf>(
    play: &Play<'a>,
    files: &mut F,
    value: &'a Value,
) -> Result<Vec<u8>, CaseFault<'a>> {
    let mut text = Vec::new(play.alloc);
    let mut left = vec![in play.alloc;
        Piece {
            value,
            is_line: false,
            times: 1
        },
    ]?;
    for _ in 0..PIECES {
        match left.pop() {
            Some(piece) => put(play, files, piece, &mut left, &mut text)?,
            None => return Ok(text),
        }
    }
    Err(CaseFault::Unread("text"))
}

/// The line of a value in a case: a string itself, or other JSON in its compact form.
pub fn line_of(alloc: Global, value: &Value) -> Result<Vec<u8>, OutOfMemory> {
    match value {
        Value::String(line) => Ok(Vec::from_slice(alloc, line.as_bytes())?),
        _ => Ok(value.to_vec(alloc)?),
    }
}

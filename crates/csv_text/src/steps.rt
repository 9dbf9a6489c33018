ghost use Rattle.std.specs.Prelude.{◌≡◌, ◌≤◌, IfOk, IfSome, OnOk, [], length, option_map};
ghost use Rattle.csv.specs.Machine.{step, is_end, ends_at_end, next_record};
ghost use Rattle.csv.specs.Machine as machine;
ghost use Rattle.csv.specs.Reading.{default_config};
ghost use Rattle.csv_text.specs.Steps.{state_of, action_of, taken_from, first_of, fields_kept, field_kept};

use desk_io::{Listed, OutOfMemory, Text};
use std::alloc::Global;
use std::mem;

/// The state of the reader between two bytes.
#[derive(Clone, Copy, Debug)]
pub(crate) enum Place {
    StartRecord,
    StartField,
    InField,
    InQuoted,
    AfterQuote,
    AfterCr,
}

/// What one byte does.
#[derive(Clone, Copy, Debug)]
enum Act {
    Skip,
    Copy,
    EndField,
    EndRecord,
}

fn in_field(b: u8) -> (Place, Act)
    ensures { (state_of result.0, action_of result.1) ≡ machine.in_field default_config b }
{
    match b {
        b',' => (Place::StartField, Act::EndField),
        b'\r' => (Place::AfterCr, Act::EndRecord),
        b'\n' => (Place::StartRecord, Act::EndRecord),
        _ => (Place::InField, Act::Copy),
    }
}

fn start_field(b: u8) -> (Place, Act)
    ensures { (state_of result.0, action_of result.1) ≡ machine.start_field default_config b }
{
    if b == b'"' {
        (Place::InQuoted, Act::Skip)
    } else {
        in_field(b)
    }
}

fn start_record(b: u8) -> (Place, Act)
    ensures { (state_of result.0, action_of result.1) ≡ machine.start_record default_config b }
{
    if b == b'\r' || b == b'\n' {
        (Place::StartRecord, Act::Skip)
    } else {
        start_field(b)
    }
}

fn step(place: Place, b: u8) -> (Place, Act)
    ensures { (state_of result.0, action_of result.1) ≡ step default_config (state_of place) b }
{
    match place {
        Place::StartRecord => start_record(b),
        Place::StartField => start_field(b),
        Place::InField => in_field(b),
        Place::InQuoted if b == b'"' => (Place::AfterQuote, Act::Skip),
        Place::InQuoted => (Place::InQuoted, Act::Copy),
        Place::AfterQuote if b == b'"' => (Place::InQuoted, Act::Copy),
        Place::AfterQuote => in_field(b),
        Place::AfterCr if b == b'\n' => (Place::StartRecord, Act::Skip),
        Place::AfterCr => start_record(b),
    }
}

fn ends(act: Act) -> bool
    ensures { result ≡ is_end (action_of act) }
{
    match act {
        Act::EndRecord => true,
        Act::Skip | Act::Copy | Act::EndField => false,
    }
}

// Returns true if the end of the text ends a record.
fn is_open(place: Place) -> bool
    ensures { result ≡ ends_at_end (state_of place) }
{
    match place {
        Place::StartRecord | Place::AfterCr => false,
        Place::StartField | Place::InField | Place::InQuoted | Place::AfterQuote => true,
    }
}

// Applies one byte to the fields of its record and to the current field. Keeps at most `most` fields.
fn take_byte(
    alloc: Global,
    most: usize,
    act: Act,
    b: u8,
    fields: &mut Vec<Text>,
    field: &mut Vec<u8>,
) -> Result<(), OutOfMemory>
    ensures fields { OnOk result
        (fields.new.items ≡ fields_kept most (action_of act) fields.old.items field.old.items) }
    ensures field { OnOk result
        (field.new.items ≡ field_kept most (action_of act) b fields.old.items field.old.items) }
{
    if fields.as_slice().len() >= most {
        return Ok(());
    }
    match act {
        Act::Skip => {}
        Act::Copy => field.push(b)?,
        Act::EndField | Act::EndRecord => {
            let whole = mem::replace(field, Vec::new(alloc));
            fields.push(Text::from_vec(whole))?;
        }
    }
    Ok(())
}

/// A record that was read: its first fields, the state of the reader after it, and how many bytes of the text it
/// took.
#[derive(Drop)]
pub(crate) struct Taken {
    pub fields: Listed<Text>,
    pub place: Place,
    pub length: usize,
}

/// Reads the next record of a text, with at most `most` of its fields.
pub(crate) fn read_record(
    alloc: Global,
    most: usize,
    start: Place,
    text: &[u8],
) -> Result<Option<Taken>, OutOfMemory>
    ensures value { IfOk result (λ taken. option_map (taken_from text.now) taken
        ≡ option_map (first_of most) (next_record default_config (state_of start) [] [] text.now)) }
    ensures within { IfOk result (λ taken. IfSome taken (λ t. t.length ≤ length text.now)) }
{
    let mut fields = Vec::new(alloc);
    let mut field = Vec::new(alloc);
    let mut place = start;
    for (i, b) in text.iter().enumerate() {
        let (next, act) = step(place, *b);
        take_byte(alloc, most, act, *b, &mut fields, &mut field)?;
        place = next;
        if ends(act) {
            return Ok(Some(Taken {
                fields: Listed::from_vec(fields),
                place,
                length: i + 1,
            }));
        }
    }
    if !is_open(place) {
        return Ok(None);
    }
    take_byte(alloc, most, Act::EndRecord, 0, &mut fields, &mut field)?;
    Ok(Some(Taken {
        fields: Listed::from_vec(fields),
        place: Place::StartRecord,
        length: text.len(),
    }))
}

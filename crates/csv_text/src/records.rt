ghost use Rattle.std.specs.Prelude.{◌≡◌, ◌≤◌, [], List, ℕ, IfOk, OnErr, drop, length};
ghost use Rattle.csv.specs.Reading.{strip_bom};
ghost use Rattle.csv_text.specs.Records.{HasGiven, GivesNext};

use crate::steps::{Place, read_record};
use desk_io::{Listed, OutOfMemory, Text};
use std::alloc::Global;

/// A reader that returns the records of a text one after another, each as its fields.
#[derive(Debug, Drop)]
pub struct Records<'a> {
    rest: &'a [u8],
    place: Place,
}

#[tactic(auto, unfolding(csv::specs::Reading::strip_bom))]
fn without_mark(text: &[u8]) -> &[u8]
    ensures { result.now ≡ strip_bom text.now }
{
    match text {
        [0xEF, 0xBB, 0xBF, rest @ ..] => rest,
        _ => text,
    }
}

fn after(text: &[u8], place: usize) -> &[u8]
    requires { place ≤ length text.now }
    ensures { result.now ≡ drop place text.now }
{
    &text[place..]
}

impl<'a> Records<'a> {
    /// Creates a reader at the first record of a text. It skips a byte order mark at the start.
    #[tactic(auto, unfolding(crate::specs::Records::HasGiven, csv::specs::Reading::Reached))]
    pub fn of(text: &'a [u8]) -> Records<'a>
        ensures { HasGiven text.now [] result }
    {
        Records {
            rest: without_mark(text),
            place: Place::StartRecord,
        }
    }

    /// Returns the first fields of the next record, at most `most` of them, or None after the last record. To detect
    /// too many fields, ask for one more than a record should have. If memory runs out, the reader is unchanged.
    pub fn next(&mut self, alloc: Global, most: usize) -> Result<Option<Listed<Text>>, OutOfMemory>
        ensures given { IfOk result (λ first. (text : List ℕ) → (earlier : List (List (List ℕ)))
            → HasGiven text earlier self.old → GivesNext most text earlier first self.new) }
        ensures kept { OnErr result (self.new ≡ self.old) }
    {
        match read_record(alloc, most, self.place, self.rest) {
            Err(fault) => Err(fault),
            Ok(None) => Ok(None),
            Ok(Some(taken)) => {
                self.rest = after(self.rest, taken.length);
                self.place = taken.place;
                Ok(Some(taken.fields))
            }
        }
    }
}

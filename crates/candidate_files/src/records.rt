ghost use Rattle.std.specs.Prelude.{◌≡◌, ◌≤◌, ◌+◌, [], List, ℕ, length, map, IfOk, Err};
ghost use Rattle.csv_text.specs.Records.{HasGiven};
ghost use Rattle.plan.specs.Check.{IsPlan};
ghost use Rattle.table_files.specs.Reading.{Begins};
ghost use Rattle.advise.specs.Candidates.{AreCandidates};
ghost use Rattle.candidate_files.specs.Candidates as spec;
ghost use Rattle.candidate_files.specs.Candidates.{AreCandidatesIn, AreLeft};
ghost use Rattle.candidate_files.specs.Good.{SaysFile};

use crate::fields::{CandidateWhy, candidate_after};
use advise::Candidate;
use csv_text::Records;
use desk_io::{Listed, OutOfMemory, Text};
use ops_tables::Tables;
use plan::Plan;
use std::alloc::Global;
use table_files::has_header;

// The number of fields to read of a record: one more than a record may have, which shows that it is too long.
const MOST_FIELDS: usize = 5;

/// The first bad record of a file of candidates.
#[derive(Clone, Copy, Debug, PartialEq, Eq)]
pub struct BadCandidate {
    /// The number of the record. The header is record 1, and an empty line isn't a record.
    pub line: u32,
    pub why: CandidateWhy,
}

// The column names.
fn columns() -> &'static [&'static str]
    ensures { map (λ name. name.now) result.now ≡ spec.columns }
{
    &["leg", "station", "minutes", "fuel"]
}

// Reads the first record. Returns true if it is the header.
fn has_columns(alloc: Global, reader: &mut Records<'_>) -> Result<bool, OutOfMemory>
    ensures { IfOk result (λ good. (text : List ℕ) → HasGiven text [] reader.old
        → Begins text spec.columns good reader.new) }
{
    has_header(alloc, reader, columns())
}

// Returns that the record after so many candidates is bad.
fn bad_after(count: usize, why: CandidateWhy) -> BadCandidate
    requires { count ≤ 100 }
    ensures { result ≡ record { line = count + 2; why = why } }
{
    BadCandidate {
        line: count as u32 + 2,
        why,
    }
}

// Reads the records that are left.
fn candidates_left(
    alloc: Global,
    reader: &mut Records<'_>,
    plan: &Plan,
    tables: &Tables,
) -> Result<Result<Listed<Candidate>, BadCandidate>, OutOfMemory>
    requires { IsPlan plan.now }
    ensures value { IfOk result (λ read. (text : List ℕ) → (earlier : List (List (List ℕ)))
        → HasGiven text earlier reader.old → AreLeft tables.now plan.now text earlier read) }
    ensures candidates { IfOk result (λ read. IfOk read (AreCandidates tables.now plan.now)) }
{
    let mut candidates = Listed::new(alloc);
    loop {
        let Some(fields) = reader.next(alloc, MOST_FIELDS)? else {
            return Ok(Ok(candidates));
        };
        let earlier = candidates.as_slice();
        match candidate_after(tables, plan, earlier, fields.as_slice()) {
            Ok(candidate) => candidates.push(candidate)?,
            Err(why) => return Ok(Err(bad_after(earlier.len(), why))),
        }
    }
}

// Reads the candidates of a file.
fn candidates_in(
    alloc: Global,
    text: &[u8],
    plan: &Plan,
    tables: &Tables,
) -> Result<Result<Listed<Candidate>, BadCandidate>, OutOfMemory>
    requires { IsPlan plan.now }
    ensures value { IfOk result (AreCandidatesIn tables.now plan.now text.now) }
    ensures candidates { IfOk result (λ read. IfOk read (AreCandidates tables.now plan.now)) }
{
    let mut reader = Records::of(text);
    if has_columns(alloc, &mut reader)? {
        candidates_left(alloc, &mut reader, plan, tables)
    } else {
        Ok(Err(BadCandidate {
            line: 1,
            why: CandidateWhy::BadField,
        }))
    }
}

/// Reads the candidates for the alternates of a plan from a file of comma-separated values with the header
/// `leg,station,minutes,fuel`, or returns the first bad record. At most 100 candidates are read. A record has the leg,
/// counted from 1, the station, and the flight minutes and the pounds of fuel from the leg's destination.
pub fn read_candidates(
    alloc: Global,
    text: &[u8],
    plan: &Plan,
    tables: &Tables,
) -> Result<Result<Listed<Candidate>, BadCandidate>, OutOfMemory>
    requires { IsPlan plan.now }
    ensures value { IfOk result (AreCandidatesIn tables.now plan.now text.now) }
    ensures candidates { IfOk result (λ read. IfOk read (AreCandidates tables.now plan.now)) }
    // Each record below the header states a candidate, and no two have the same leg and station. Otherwise the result
    // is the first record that states none, repeats an earlier one, or comes after 100 candidates.
    ensures says { IfOk result (SaysFile tables.now plan.now text.now) }
{
    candidates_in(alloc, text, plan, tables)
}

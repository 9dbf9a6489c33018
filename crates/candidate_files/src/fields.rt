ghost use Rattle.std.specs.Prelude.{◌≡◌, ◌<◌, true, length, IfOk, IfSome, OnOk};
ghost use Rattle.std.specs.List.{list_any};
ghost use Rattle.plan.specs.Check.{IsPlan};
ghost use Rattle.advise.specs.Candidates.{is_candidate};
ghost use Rattle.candidate_files.specs.Candidates as spec;

use advise::{Candidate, is_candidate};
use desk_io::{Station, Text};
use desk_time::read_number;
use ops_tables::Tables;
use plan::{Alternate, Plan};

/// Why a record of candidates is bad. The tests are made in this order.
#[derive(Clone, Copy, Debug, PartialEq, Eq)]
pub enum CandidateWhy {
    /// The record comes after 100 candidates.
    OverLimit,
    /// The header is another, a field is malformed, or the number of fields is wrong. Or the plan has no such leg, or
    /// its leg may not list the alternate.
    BadField,
    /// An earlier candidate has the same leg and station.
    Doubled,
}

// Reads a number of 32 bits in decimal.
fn number(field: &Text) -> Option<u32>
    ensures { result ≡ spec.number field.now }
{
    let number = read_number(4_294_967_295, field.bytes())?;
    Some(number as u32)
}

// Reads the fields of a record.
fn stated(fields: &[Text]) -> Option<Candidate>
    ensures { result ≡ spec.stated fields.now }
{
    let [leg, station, minutes, fuel] = fields else {
        return None;
    };
    Some(Candidate {
        leg: number(leg)?,
        alternate: Alternate {
            station: Station::read(station.bytes())?,
            minutes: number(minutes)?,
            fuel: number(fuel)?,
        },
    })
}

// Reads the candidate of a record, if its leg may list it.
fn candidate_of(tables: &Tables, plan: &Plan, fields: &[Text]) -> Option<Candidate>
    requires { IsPlan plan.now }
    ensures value { result ≡ spec.candidate_of tables.now plan.now fields.now }
    ensures allowed { IfSome result (λ c. is_candidate tables.now plan.now c ≡ true) }
{
    let candidate = stated(fields)?;
    if is_candidate(tables, plan, &candidate) {
        Some(candidate)
    } else {
        None
    }
}

fn is_same(candidate: &Candidate, other: &Candidate) -> bool
    ensures { result ≡ spec.is_same candidate.now other.now }
{
    candidate.leg == other.leg
        && candidate.alternate.station.bytes() == other.alternate.station.bytes()
}

fn is_doubled(candidate: &Candidate, earlier: &[Candidate]) -> bool
    ensures { result ≡ list_any (spec.is_same candidate.now) earlier.now }
{
    earlier.iter().any(|other| is_same(candidate, other))
}

/// Reads the candidate of a record that comes after others.
pub(crate) fn candidate_after(
    tables: &Tables,
    plan: &Plan,
    earlier: &[Candidate],
    fields: &[Text],
) -> Result<Candidate, CandidateWhy>
    requires { IsPlan plan.now }
    ensures value { result ≡ spec.candidate_after tables.now plan.now earlier.now fields.now }
    ensures room { OnOk result (length earlier.now < 100) }
    ensures new { IfOk result (spec.IsNew tables.now plan.now earlier.now) }
{
    if earlier.len() >= 100 {
        return Err(CandidateWhy::OverLimit);
    }
    match candidate_of(tables, plan, fields) {
        None => Err(CandidateWhy::BadField),
        Some(candidate) => {
            if is_doubled(&candidate, earlier) {
                Err(CandidateWhy::Doubled)
            } else {
                Ok(candidate)
            }
        }
    }
}

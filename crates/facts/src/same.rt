ghost use Rattle.std.specs.Prelude.{◌≡◌, find, filter};
ghost use Rattle.std.specs.List.{list_any, slice_get};
ghost use Rattle.std.specs.Map.{keys_of};
ghost use Rattle.std.specs.Option.{option_and_then, option_copied};
ghost use Rattle.desk_io.specs.ById.{AreRising};
ghost use Rattle.facts.specs.Same.{is_same, same_id};
ghost use Rattle.facts.specs.Index as spec;
ghost use Rattle.facts.specs.Index.{AreKeysOf, has_number, id_of, leads_to};

use crate::index::{at_place, fingerprint};
use crate::report::Report;
use desk_io::Keys;
use desk_time::Minute;

/// The key of a report: its moment, the fingerprint of its text, and its number.
pub(crate) fn key_of(report: &Report) -> (Minute, u64, u64)
    ensures { result ≡ spec.key_of report.now }
{
    (report.minute(), fingerprint(report.text.bytes()), report.id)
}

fn is_same(report: &Report, text: &[u8], minute: Minute) -> bool
    ensures { result ≡ is_same text.now minute report.now }
{
    report.text.bytes() == text && report.minute() == minute
}

fn is_under(minute: Minute, mark: u64, key: &(Minute, u64, u64)) -> bool
    ensures { result ≡ spec.is_under minute mark key.now }
{
    key.0 == minute && key.1 == mark
}

// Finds the place of the report with this number by binary search, if the numbers rise.
fn place_of_id(reports: &[Report], id: u64) -> Option<usize>
    ensures { AreRising id_of reports.now
        → option_and_then (slice_get reports.now) result ≡ find (has_number id) reports.now }
{
    reports
        .binary_search_by_key(
            &id,
            |report: &Report| -> u64
                ensures { result ≡ report.now.id }
            { report.id },
        )
        .ok()
}

fn report_of(reports: &[Report], id: u64) -> Option<&Report>
    ensures { AreRising id_of reports.now → option_copied result ≡ find (has_number id) reports.now }
{
    at_place(reports, place_of_id(reports, id))
}

fn is_there(reports: &[Report], id: u64) -> bool
    ensures { AreRising id_of reports.now → result ≡ list_any (has_number id) reports.now }
{
    report_of(reports, id).is_some()
}

fn id_if(report: Option<&Report>, text: &[u8], minute: Minute) -> Option<u64>
    ensures { result ≡ spec.id_if text.now minute (option_copied report.entry) }
{
    let report = report?;
    if is_same(report, text, minute) {
        Some(report.id)
    } else {
        None
    }
}

// The number of the first report with this text and moment, of those that the keys lead to. The search ends at the
// first key with another moment or fingerprint.
fn first_same(
    reports: &[Report],
    keys: &[((Minute, u64, u64), ())],
    text: &[u8],
    minute: Minute,
    mark: u64,
) -> Option<u64>
    requires { AreRising id_of reports.now }
    ensures { result ≡ spec.first_same text.now minute mark reports.now (keys_of keys.now) }
{
    for pair in keys {
        let key = pair.0;
        if !is_under(minute, mark, &key) {
            return None;
        }
        let found = id_if(report_of(reports, key.2), text, minute);
        if found.is_some() {
            return found;
        }
    }
    None
}

/// Finds the number of the first report with this text and moment. Examines only reports of that moment whose texts
/// have the same fingerprint.
pub(crate) fn same_in(
    reports: &[Report],
    keys: &Keys<(Minute, u64, u64)>,
    text: &[u8],
    minute: Minute,
) -> Option<u64>
    requires rising { AreRising id_of reports.now }
    requires keys { AreKeysOf reports.now keys.now.keys }
    ensures { result ≡ same_id reports.now text.now minute }
{
    let mark = fingerprint(text);
    let run = keys.from(&(minute, mark, 0));
    first_same(reports, run, text, minute, mark)
}

/// Removes the keys that lead to no report. Allocates nothing.
pub(crate) fn keep_leading(keys: &mut Keys<(Minute, u64, u64)>, reports: &[Report])
    requires { AreRising id_of reports.now }
    ensures { keys.new.keys ≡ filter (leads_to reports.now) keys.old.keys }
{
    keys.retain(
        |entry: &((Minute, u64, u64), ())| -> bool
            ensures { AreRising id_of reports.entry.now → result ≡ leads_to reports.entry.now entry.now.0 }
        {
            let key = entry.0;
            is_there(reports, key.2)
        },
    );
}

ghost use Rattle.std.specs.Prelude.{◌≡◌, ◌<◌, map, length, IfSome};
ghost use Rattle.std.specs.List.{list_any};
ghost use Rattle.records.specs.Faults as spec;
ghost use Rattle.records.specs.Kinds.{is_kind};
ghost use Rattle.records.specs.Marks.{marks_of, IsIndex};

use crate::marks::{Firsts, place_at};
use crate::record::Record;

fn is_meta_record(held: &Record) -> bool
    ensures { result ≡ is_kind 0 held.now }
{
    match held {
        Record::Meta(_) => true,
        _ => false,
    }
}

fn has_meta(records: &[Record]) -> bool
    ensures { result ≡ list_any (is_kind 0) records.now }
{
    records.iter().any(|record| is_meta_record(record))
}

/// If there are records but no meta row, returns 0, the place of the first.
pub(crate) fn lacks_meta(records: &[Record]) -> Option<usize>
    ensures value { result ≡ spec.lacks_meta records.now }
    ensures bound { IfSome result (λ place. place < length records.now) }
{
    if records.is_empty() || has_meta(records) {
        None
    } else {
        Some(0)
    }
}

fn is_release_of(held: &Record, id: u64) -> bool
    ensures { result ≡ spec.is_release_of id held.now }
{
    match held {
        Record::Release(release) => release.id == id,
        _ => false,
    }
}

// Returns true if a release with this id is among the records. The search starts at the first place of the release's
// mark.
fn has_release(records: &[Record], firsts: &Firsts, id: u64) -> bool
    requires { IsIndex firsts.now.entries (map marks_of records.now) }
    ensures { result ≡ list_any (spec.is_release_of id) records.now }
{
    let start = place_at(firsts, (3, id)).unwrap_or(records.len());
    for place in start..records.len() {
        if is_release_of(&records[place], id) {
            return true;
        }
    }
    false
}

fn is_orphan(records: &[Record], firsts: &Firsts, held: &Record) -> bool
    requires { IsIndex firsts.now.entries (map marks_of records.now) }
    ensures { result ≡ spec.is_orphan records.now held.now }
{
    match held {
        Record::Alert(alert) => !has_release(records, firsts, alert.release),
        _ => false,
    }
}

/// Returns the place of the first alert without a release.
pub(crate) fn first_orphan(records: &[Record], firsts: &Firsts) -> Option<usize>
    requires { IsIndex firsts.now.entries (map marks_of records.now) }
    ensures value { result ≡ spec.place_of (spec.is_orphan records.now) records.now }
    ensures bound { IfSome result (λ place. place < length records.now) }
{
    for (place, record) in records.iter().enumerate() {
        if is_orphan(records, firsts, record) {
            return Some(place);
        }
    }
    None
}

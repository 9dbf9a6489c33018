ghost use Rattle.std.specs.Prelude.{◌≡◌, ◌<◌, length, IfSome};
ghost use Rattle.std.specs.Option.{option_map, option_copied};
ghost use Rattle.records.specs.Faults as spec;

use crate::record::{Meta, Record};
use desk_state::Counters;
use plan::Revision;

fn is_late(events: u64, revision: Option<&Revision>) -> bool
    ensures { result ≡ spec.is_late events (option_copied revision.entry) }
{
    match revision {
        None => false,
        Some(revision) => events < revision.number,
    }
}

fn outruns(counters: &Counters) -> bool
    ensures { result ≡ spec.outruns counters.now }
{
    let bound = counters.events.saturating_add(1);
    bound < counters.next_report
        || bound < counters.next_deferral
        || bound < counters.next_release
        || bound < counters.next_kept
}

fn is_ahead(counters: &Counters, held: &Record) -> bool
    ensures { result ≡ spec.is_ahead counters.now held.now }
{
    match held {
        Record::Meta(meta) => outruns(&meta.counters),
        Record::Report(report) => counters.next_report <= report.id,
        Record::Deferral(deferral) => counters.next_deferral <= deferral.id,
        Record::Release(release) => {
            counters.next_release <= release.id
                || is_late(counters.events, release.pending.as_ref())
                || is_late(counters.events, release.active.as_ref())
        }
        Record::Kept(kept) => counters.next_kept <= kept.id,
        Record::Alert(alert) => counters.events < alert.version,
    }
}

fn first_ahead(counters: &Counters, records: &[Record]) -> Option<usize>
    ensures value { result ≡ spec.place_of (spec.is_ahead counters.now) records.now }
    ensures bound { IfSome result (λ place. place < length records.now) }
{
    for (place, record) in records.iter().enumerate() {
        if is_ahead(counters, record) {
            return Some(place);
        }
    }
    None
}

fn first_meta(records: &[Record]) -> Option<(usize, &Meta)>
    ensures value { option_map (λ found. (found.0, found.1.now)) result ≡ spec.meta_from 0 records.now }
    ensures bound { IfSome result (λ found. found.0 < length records.now) }
{
    for (place, record) in records.iter().enumerate() {
        if let Record::Meta(meta) = record {
            return Some((place, meta));
        }
    }
    None
}

/// Returns the places of the first record that is ahead of the counters, and of the meta row.
pub(crate) fn ahead_of(records: &[Record]) -> Option<(usize, usize)>
    ensures value { result ≡ spec.ahead_of records.now (spec.meta_from 0 records.now) }
    ensures bound { IfSome result (λ places. (places.0 < length records.now) × (places.1 < length records.now)) }
{
    let (two, meta) = first_meta(records)?;
    let one = first_ahead(&meta.counters, records)?;
    Some((one, two))
}

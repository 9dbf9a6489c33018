ghost use Rattle.std.specs.Prelude.{◌≡◌, ◌<◌, ◌++◌, ◌∷◌, [], List, length, false, IfSome};
ghost use Rattle.records.specs.Faults as spec;
ghost use Rattle.records.specs.declared.record.Record.{Record as Held};

use crate::record::Record;

/// The number of records of each kind that has a limit.
#[derive(Clone, Copy)]
pub(crate) struct Counts {
    reports: u64,
    deferrals: u64,
    releases: u64,
    kept: u64,
}

// Returns true if a record after these is one too many of its kind, or counts too many events.
fn is_past(before: Counts, held: &Record) -> bool
    ensures { result ≡ spec.is_past before held.now }
{
    match held {
        Record::Meta(meta) => meta.counters.events >= 999_999_999_999_999,
        Record::Report(_) => before.reports >= 200_000,
        Record::Deferral(_) => before.deferrals >= 50_000,
        Record::Release(_) => before.releases >= 20_000,
        Record::Kept(_) => before.kept >= 800_000,
        Record::Alert(_) => false,
    }
}

fn with_one(before: Counts, held: &Record) -> Counts
    requires { spec.is_past before held.now ≡ false }
    ensures { (earlier : List Held) → before ≡ spec.counts_of earlier
        → result ≡ spec.counts_of (earlier ++ held.now ∷ []) }
{
    let mut counts = before;
    match held {
        Record::Report(_) => counts.reports += 1,
        Record::Deferral(_) => counts.deferrals += 1,
        Record::Release(_) => counts.releases += 1,
        Record::Kept(_) => counts.kept += 1,
        Record::Meta(_) | Record::Alert(_) => {}
    }
    counts
}

/// Returns the place of the first record past its limit.
pub(crate) fn over_limit(records: &[Record]) -> Option<usize>
    ensures value { result ≡ spec.first_after spec.is_over [] records.now }
    ensures bound { IfSome result (λ place. place < length records.now) }
{
    let mut counts = Counts {
        reports: 0,
        deferrals: 0,
        releases: 0,
        kept: 0,
    };
    for (place, record) in records.iter().enumerate() {
        if is_past(counts, record) {
            return Some(place);
        }
        counts = with_one(counts, record);
    }
    None
}

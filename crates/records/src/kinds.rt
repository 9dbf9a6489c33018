ghost use Rattle.std.specs.Prelude.{◌≡◌, ◌≤◌};
ghost use Rattle.records.specs.Kinds as spec;
ghost use Rattle.records.specs.Lent.{lent};

use crate::lent::RecordRef;

/// Returns the kind of a record's row, from 0 to 5.
pub(crate) fn kind_of(held: &RecordRef<'_>) -> u8
    ensures value { result ≡ spec.kind_of (lent held.now) }
    ensures bound { result ≤ 5 }
{
    match held {
        RecordRef::Meta(_) => 0,
        RecordRef::Report(_) => 1,
        RecordRef::Deferral(_) => 2,
        RecordRef::Release(_) => 3,
        RecordRef::Kept(_) => 4,
        RecordRef::Alert(_) => 5,
    }
}

/// Returns the key of a record's row. It is the record's id; an alert has the id of its release, and the meta row has
/// 0.
pub(crate) fn key_of(held: &RecordRef<'_>) -> u64
    ensures { result ≡ spec.key_of (lent held.now) }
{
    match held {
        RecordRef::Meta(_) => 0,
        RecordRef::Report(report) => report.id,
        RecordRef::Deferral(deferral) => deferral.id,
        RecordRef::Release(release) => release.id,
        RecordRef::Kept(kept) => kept.id,
        RecordRef::Alert(alert) => alert.release,
    }
}

ghost use Rattle.std.specs.Prelude.{◌≡◌, IfOk};
ghost use Rattle.records.specs.Bodies.{HasMoments};
ghost use Rattle.records.specs.Lent.{lent};
ghost use Rattle.row_changes.specs.Changes as changes;
ghost use Rattle.row_changes.specs.Rows as spec;

use alerts::Alert;
use desk_io::{Change, OutOfMemory};
use facts::Report;
use records::{AlertRef, Record, RecordRef, ReportRef, row_of};
use std::alloc::Global;

/// Borrows what is stored of a report.
pub(crate) fn report_lent(report: &Report) -> RecordRef<'_>
    ensures { lent result ≡ Record.Report (spec.report_kept report.now) }
{
    RecordRef::Report(ReportRef {
        id: report.id,
        received: report.received,
        text: &report.text,
    })
}

/// Borrows what is stored of an alert.
pub(crate) fn alert_lent(alert: &Alert) -> RecordRef<'_>
    ensures { lent result ≡ Record.Alert (spec.alert_kept alert.now) }
{
    RecordRef::Alert(AlertRef {
        release: alert.release,
        version: alert.version,
        opened: alert.opened,
        failing: &alert.failing,
        ever: &alert.ever,
        acknowledged: alert.acknowledged,
    })
}

/// Returns the change that puts the row of a record.
pub(crate) fn put_row(alloc: Global, held: &RecordRef<'_>) -> Result<Change, OutOfMemory>
    requires { HasMoments (lent held.now) }
    ensures { IfOk result (λ c. c ≡ changes.put_row (lent held.now)) }
{
    Ok(Change::Put(row_of(alloc, held)?))
}

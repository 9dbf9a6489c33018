ghost use Rattle.std.specs.Prelude.{◌≡◌, Some, IfOk};
ghost use Rattle.std.specs.List.{AllByRecursion, filter_map};
ghost use Rattle.records.specs.Valid.{IsReport};
ghost use Rattle.row_changes.specs.Held as spec;

use codes::ReportFault;
use desk_io::OutOfMemory;
use facts::{Report, read_report};
use records::KeptReport;
use std::alloc::Global;

// Reads a stored report again, as of its receipt.
#[tactic(auto, unfolding(crate::specs::Held::report_of))]
fn read_again(alloc: Global, kept: KeptReport) -> Result<Report, OutOfMemory>
    requires { IsReport kept }
    ensures { IfOk result (λ report. spec.report_of kept ≡ Some report) }
{
    match read_report(alloc, kept.text.bytes(), kept.received) {
        Ok(read) => Ok(Report {
            id: kept.id,
            received: kept.received,
            text: kept.text,
            read,
        }),
        Err(ReportFault::Bad(_)) => unreachable!(),
        Err(ReportFault::OutOfMemory) => Err(OutOfMemory),
    }
}

/// Reads stored reports again, each as of its receipt.
pub(crate) fn reports_again(
    alloc: Global,
    kept: Vec<KeptReport>,
) -> Result<Vec<Report>, OutOfMemory>
    requires { AllByRecursion IsReport kept.items }
    ensures { IfOk result (λ reports. reports.items ≡ filter_map spec.report_of kept.items) }
{
    let mut reports = Vec::with_capacity(alloc, kept.len())?;
    for report in kept {
        reports.push(read_again(alloc, report)?)?;
    }
    Ok(reports)
}

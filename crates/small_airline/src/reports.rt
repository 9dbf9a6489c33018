ghost use Rattle.std.specs.Prelude.{◌≡◌, ◌<◌, All, IfOk, IsTrue};
ghost use Rattle.facts.specs.Reading.{IsRead};

use codes::ReportFault;
use desk_time::Minute;
use facts::{Received, Report, Reports, receive};
use std::alloc::Global;

/// 2025-03-12T00:00Z.
pub const DAY: Minute = 29_028_960;

fn report(alloc: Global, id: u64, text: &[u8]) -> Result<Report, ReportFault>
    ensures id { IfOk result (λ report. report.id ≡ id) }
    ensures read { IfOk result IsRead }
{
    let received = DAY + 1_060;
    let Received { text, read } = receive(alloc, text, received)?;
    Ok(Report {
        id,
        received,
        text,
        read,
    })
}

fn is_above(reports: &[Report], id: u64) -> bool
    ensures { IsTrue result → All (λ held. held.id < id) reports.now }
{
    reports.iter().all(|held| held.id < id)
}

/// Admits a report received at 17:40 on `DAY`, if its id is above all others.
pub fn admit(
    alloc: Global,
    reports: &mut Reports,
    id: u64,
    text: &[u8],
) -> Result<(), ReportFault> {
    let report = report(alloc, id, text)?;
    if is_above(reports.as_slice(), id) {
        reports.reserve(&report)?;
        reports.admit(report);
    }
    Ok(())
}

/// Reports received at 17:40 on `DAY`. A report is skipped if its id isn't above all before it.
pub fn reports_of(alloc: Global, rows: &[(u64, &[u8])]) -> Result<Reports, ReportFault> {
    let mut reports = Reports::new(alloc);
    for (id, text) in rows {
        admit(alloc, &mut reports, *id, text)?;
    }
    Ok(reports)
}

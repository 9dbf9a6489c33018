ghost use Rattle.plan.specs.Check.{IsPlan};

use crate::flights::{ETD, leg_of, plan_of};
use codes::ReportFault;
use desk_io::{Listed, OutOfMemory};
use facts::Reports;
use plan::{AttachedList, Phase, Plan};
use release_text::{attach, newer};
use small_airline::{may_be_checked, reports_of};
use std::alloc::Global;
use std::test::Fail;

/// A flight from Boston to Kennedy, with Philadelphia as its alternate.
pub fn plan(alloc: Global) -> Result<Plan, OutOfMemory> {
    let mut legs = Listed::new(alloc);
    if let Some(leg) = leg_of(alloc, b"KBOS KJFK ---- KPHL", ETD)? {
        legs.push(leg)?;
    }
    plan_of(alloc, b"N801DK", b"C7", legs)
}

/// The forecasts of the three airports, in an order of their own.
pub const HELD: &[(u64, &[u8])] = &[
    (1, b"TAF KBOS 121720Z 1218/1324 24010KT P6SM SCT040"),
    (2, b"TAF KJFK 121720Z 1218/1324 24010KT P6SM BKN030"),
    (3, b"TAF KPHL 121720Z 1218/1324 24010KT P6SM BKN030"),
];

/// The same, and then a special report of Kennedy, after which the flight needs an alternate.
pub const HELD_LATER: &[(u64, &[u8])] = &[
    (1, b"TAF KBOS 121720Z 1218/1324 24010KT P6SM SCT040"),
    (2, b"TAF KJFK 121720Z 1218/1324 24010KT P6SM BKN030"),
    (3, b"TAF KPHL 121720Z 1218/1324 24010KT P6SM BKN030"),
    (4, b"SPECI KJFK 121738Z 24012KT 4SM BR BKN015 11/09 A3008"),
];

fn are(attached: &AttachedList, numbers: &[u64]) -> bool {
    let attached = attached.as_slice();
    attached.len() == numbers.len()
        && attached
            .iter()
            .zip(numbers)
            .all(|(a, number)| a.report == *number)
}

// Whether these reports are attached, and none is newer then.
fn has_weather(
    alloc: Global,
    reports: &Reports,
    plan: &Plan,
    phase: Phase,
    numbers: &[u64],
) -> Result<bool, OutOfMemory>
    requires { IsPlan plan.now }
{
    let attached = attach(alloc, reports, plan, phase)?;
    Ok(are(&attached, numbers) && newer(reports, plan, phase, &attached).is_none())
}

// Whether a release that has the weather of some reports lacks number 4 of others.
fn lacks_number_4(
    alloc: Global,
    reports: &Reports,
    others: &Reports,
    plan: &Plan,
) -> Result<bool, OutOfMemory>
    requires { IsPlan plan.now }
{
    let attached = attach(alloc, reports, plan, Phase::Drafted)?;
    Ok(newer(others, plan, Phase::Ready, &attached) == Some(4))
}

// The same, and that a release has the weather of its own reports.
fn are_newer(
    alloc: Global,
    reports: &Reports,
    others: &Reports,
    plan: &Plan,
) -> Result<bool, OutOfMemory>
    requires { IsPlan plan.now }
{
    let cancelled = Phase::Cancelled { at: ETD };
    Ok(
        lacks_number_4(alloc, reports, others, plan)?
            && has_weather(alloc, reports, plan, Phase::Ready, &[1, 2, 3])?
            && has_weather(alloc, others, plan, Phase::Ready, &[1, 4, 2, 3])?
            && has_weather(alloc, others, plan, cancelled, &[])?,
    )
}

fn has_newer(alloc: Global, reports: &Reports, others: &Reports) -> Result<bool, OutOfMemory> {
    let plan = plan(alloc)?;
    Ok(may_be_checked(&plan) && are_newer(alloc, reports, others, &plan)?)
}

fn is_found_newer(alloc: Global) -> Result<bool, ReportFault> {
    let others = reports_of(alloc, HELD_LATER)?;
    let reports = reports_of(alloc, HELD)?;
    Ok(has_newer(alloc, &reports, &others)?)
}

#[test]
fn a_newer_report_is_found(rt: HostRuntime) -> Result<(), Fail> {
    assert!(rt; is_found_newer(rt.alloc())?);
    Ok(())
}

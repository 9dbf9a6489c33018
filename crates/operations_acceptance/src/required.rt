ghost use Rattle.plan.specs.Check.{IsPlan};

use crate::flights::ETD;
use crate::releases::{HELD, HELD_LATER, plan};
use codes::ReportFault;
use deferrals::Deferrals;
use desk_io::OutOfMemory;
use facts::Reports;
use ops_tables::Tables;
use plan::{Phase, Plan};
use rules::required_of;
use small_airline::{may_be_checked, reports_of, small_tables};
use std::alloc::Global;
use std::test::Fail;

// Whether the first leg of a plan requires an amount, and a leg that is flown or isn't there requires nothing.
fn needs_alone(
    alloc: Global,
    tables: &Tables,
    reports: &Reports,
    plan: &Plan,
    wanted: u64,
) -> Result<bool, OutOfMemory>
    requires { IsPlan plan.now }
{
    let deferrals = Deferrals::new(alloc);
    for (phase, leg, amount) in [
        (Phase::Ready, 1, wanted),
        (Phase::Flying { leg: 1 }, 1, wanted),
        (Phase::Completed { at: ETD }, 1, 0),
        (Phase::Ready, 0, 0),
        (Phase::Ready, 2, 0),
    ] {
        if required_of(alloc, plan, phase, leg, reports, &deferrals, tables)? != amount {
            return Ok(false);
        }
    }
    Ok(true)
}

fn needs(
    alloc: Global,
    tables: &Tables,
    reports: &Reports,
    wanted: u64,
) -> Result<bool, OutOfMemory> {
    let plan = plan(alloc)?;
    Ok(may_be_checked(&plan) && needs_alone(alloc, tables, reports, &plan, wanted)?)
}

fn is_required(
    alloc: Global,
    tables: &Tables,
    rows: &[(u64, &[u8])],
    wanted: u64,
) -> Result<bool, ReportFault> {
    let reports = reports_of(alloc, rows)?;
    Ok(needs(alloc, tables, &reports, wanted)?)
}

// Whether the flight requires 45 minutes of reserve in clear weather, and the fuel to its alternate besides once the
// weather at its destination asks for one.
fn are_required(alloc: Global, tables: &Tables) -> Result<bool, ReportFault> {
    Ok(is_required(alloc, tables, HELD, 16_500)? && is_required(alloc, tables, HELD_LATER, 19_500)?)
}

#[test]
fn a_leg_requires_its_fuel(rt: HostRuntime) -> Result<(), Fail> {
    let alloc = rt.alloc();
    let tables = small_tables(alloc)?;
    assert!(rt; are_required(alloc, &tables)?);
    Ok(())
}

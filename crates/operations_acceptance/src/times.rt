ghost use Rattle.std.specs.Prelude.{◌≡◌, ◌<◌};
ghost use Rattle.plan.specs.Check.{IsPlan};

use crate::flights::{ETD, leg_of, plan_of};
use deferrals::Deferrals;
use desk_io::{Listed, OutOfMemory, push_all};
use desk_time::Minute;
use facts::Reports;
use ops_tables::Tables;
use plan::{Finding, Findings, Kind, Phase, Plan, Rule, finding_text};
use rules::{Steps, judge, next_due};
use small_airline::{has_moment, holds, may_be_checked};
use std::alloc::Global;
use std::marker::Brand;
use std::sync::ledger::{Blank, Ledger};
use std::test::Fail;

// A plan of two legs of an hour each.
fn plan(alloc: Global, tail: &[u8], kind: Kind) -> Result<Plan, OutOfMemory> {
    let mut legs = Listed::new(alloc);
    for (line, etd) in [(b"KBOS KJFK ----", ETD), (b"KJFK KBOS ----", ETD + 60)] {
        if let Some(leg) = leg_of(alloc, line, etd)? {
            legs.push(leg)?;
        }
    }
    let mut plan = plan_of(alloc, tail, b"C7", legs)?;
    plan.kind = kind;
    Ok(plan)
}

// A stop before the second leg, so many minutes after the first etd.
fn stopped(minutes: u64, again: bool) -> Phase {
    Phase::Stopped {
        next: 2,
        since: ETD.saturating_add(minutes),
        again,
    }
}

// The minutes from the first etd to the next moment at which a rule of time begins to fail. No plan has one after no
// minute, which stands for what may not be asked.
fn due_after(tables: &Tables, plan: &Plan, phase: Phase, minutes: u64) -> Option<u64> {
    if !may_be_checked(plan) || !has_moment(phase) {
        return Some(0);
    }
    let due = next_due(plan, phase, tables, ETD.saturating_add(minutes))?;
    Some(due.saturating_sub(ETD))
}

fn are_due(tables: &Tables, domestic: &Plan, flag: &Plan) -> bool {
    for (plan, phase, minutes, due) in [
        (domestic, Phase::Drafted, 0, Some(61)),
        (domestic, Phase::Ready, 60, Some(61)),
        (domestic, Phase::Ready, 61, None),
        (domestic, Phase::Flying { leg: 1 }, 0, Some(91)),
        (flag, Phase::Flying { leg: 1 }, 90, Some(91)),
        (domestic, Phase::Flying { leg: 1 }, 91, None),
        (domestic, Phase::Flying { leg: 2 }, 91, Some(151)),
        (domestic, stopped(50, false), 50, Some(111)),
        (domestic, stopped(50, false), 110, Some(111)),
        (domestic, stopped(50, false), 111, Some(121)),
        (domestic, stopped(50, false), 121, None),
        (domestic, stopped(50, true), 50, Some(121)),
        (domestic, stopped(70, false), 70, Some(121)),
        (domestic, stopped(70, false), 121, Some(131)),
        (flag, stopped(50, false), 50, Some(121)),
        (flag, stopped(50, false), 121, Some(411)),
        (flag, stopped(50, false), 410, Some(411)),
        (flag, stopped(50, false), 411, None),
        (flag, stopped(50, true), 121, None),
        (domestic, Phase::Completed { at: ETD }, 0, None),
        (domestic, Phase::Cancelled { at: ETD }, 0, None),
    ] {
        if due_after(tables, plan, phase, minutes) != due {
            return false;
        }
    }
    true
}

// A rule of time, or that a plan fails its tests.
fn is_of_time(finding: &Finding) -> bool {
    matches!(
        finding.rule,
        Rule::No1 | Rule::No2 | Rule::No17 | Rule::No18 | Rule::No19
    )
}

fn push_findings(
    alloc: Global,
    out: &mut Vec<u8>,
    findings: &[Finding],
) -> Result<(), OutOfMemory> {
    for finding in findings {
        if is_of_time(finding) {
            let text = finding_text(alloc, finding)?;
            push_all(out, &[text.bytes(), b" "])?;
        }
    }
    Ok(())
}

fn findings_text(alloc: Global, findings: &[Finding]) -> Result<Vec<u8>, OutOfMemory> {
    let mut out = Vec::new(alloc);
    push_findings(alloc, &mut out, findings)?;
    Ok(out)
}

// What a plan fails at a moment at which no report and no deferral is held.
fn found<L: Ledger>(
    alloc: Global,
    tables: &Tables,
    plan: &Plan,
    phase: Phase,
    moment: Minute,
    steps: &mut Steps<L>,
) -> Result<Findings, OutOfMemory>
    requires plan { IsPlan plan.now }
{
    let reports = Reports::new(alloc);
    let deferrals = Deferrals::new(alloc);
    judge(
        alloc, plan, phase, &reports, &deferrals, tables, moment, steps,
    )
}

// The rules of time that a plan fails so many minutes after its first etd, each with a blank after it.
fn late_text<L: Ledger>(
    alloc: Global,
    tables: &Tables,
    plan: &Plan,
    phase: Phase,
    minutes: u64,
    blank: Blank,
) -> Result<Vec<u8>, OutOfMemory>
    requires plan { IsPlan plan.now }
    requires name { blank.name ≡ L.name }
    requires parts { blank.parts ≡ L.parts }
    requires some { 0 < blank.parts }
{
    let mut steps = Steps::<L>::new(blank);
    let moment = ETD.saturating_add(minutes);
    let findings = found(alloc, tables, plan, phase, moment, &mut steps)?;
    findings_text(alloc, findings.as_slice())
}

// The same of a plan that may be checked; a stroke for another.
fn late(
    alloc: Global,
    tables: &Tables,
    plan: &Plan,
    phase: Phase,
    minutes: u64,
) -> Result<Vec<u8>, OutOfMemory> {
    if may_be_checked(plan) {
        late_text::<Brand>(alloc, tables, plan, phase, minutes, Blank::new(1))
    } else {
        Ok(Vec::from_slice(alloc, b"-")?)
    }
}

// The same of the plan of an aircraft.
fn late_of(
    alloc: Global,
    tables: &Tables,
    tail: &[u8],
    kind: Kind,
    phase: Phase,
    minutes: u64,
) -> Result<Vec<u8>, OutOfMemory> {
    let plan = plan(alloc, tail, kind)?;
    late(alloc, tables, &plan, phase, minutes)
}

// Whether these are all rules of time that a plan fails, and of an unknown aircraft its lack in the tables besides.
fn is_late(
    alloc: Global,
    tables: &Tables,
    kind: Kind,
    phase: Phase,
    minutes: u64,
    wanted: &[u8],
) -> Result<bool, OutOfMemory> {
    let text = late_of(alloc, tables, b"N801DK", kind, phase, minutes)?;
    let more = late_of(alloc, tables, b"N999DK", kind, phase, minutes)?;
    Ok(text.as_slice() == wanted && more.strip_prefix(wanted) == Some(TABLES))
}

const OFF_1: &[u8] = b"DESK-LATE-OFF/1/0 ";

const OFF_2: &[u8] = b"DESK-LATE-OFF/2/0 ";

const STOP: &[u8] = b"121.593/2/0 ";

const STOP_OFF: &[u8] = b"121.593/2/0 DESK-LATE-OFF/2/0 ";

const FLAG_OFF: &[u8] = b"121.595/2/0 DESK-LATE-OFF/2/0 ";

const TABLES: &[u8] = b"DESK-TABLES/0/0 ";

fn are_late(alloc: Global, tables: &Tables) -> Result<bool, OutOfMemory> {
    let (domestic, flag) = (Kind::Domestic, Kind::Flag);
    for (kind, phase, minutes, wanted) in [
        (domestic, Phase::Drafted, 60, b"".as_slice()),
        (domestic, Phase::Drafted, 61, OFF_1),
        (flag, Phase::Ready, 60, b""),
        (flag, Phase::Ready, 61, OFF_1),
        (domestic, Phase::Flying { leg: 1 }, 90, b""),
        (domestic, Phase::Flying { leg: 1 }, 91, b"DESK-LATE-ON/1/0 "),
        (flag, Phase::Flying { leg: 2 }, 150, b""),
        (flag, Phase::Flying { leg: 2 }, 151, b"DESK-LATE-ON/2/0 "),
        (domestic, stopped(50, false), 110, b""),
        (domestic, stopped(50, false), 111, STOP),
        (domestic, stopped(50, false), 120, STOP),
        (domestic, stopped(50, false), 121, STOP_OFF),
        (domestic, stopped(50, true), 120, b""),
        (domestic, stopped(50, true), 121, OFF_2),
        (flag, stopped(50, false), 410, OFF_2),
        (flag, stopped(50, false), 411, FLAG_OFF),
        (flag, stopped(50, true), 411, OFF_2),
        (domestic, Phase::Completed { at: ETD }, 500, b""),
        (domestic, Phase::Cancelled { at: ETD }, 500, b""),
    ] {
        if !is_late(alloc, tables, kind, phase, minutes, wanted)? {
            return Ok(false);
        }
    }
    Ok(true)
}

fn have_dues(alloc: Global, tables: &Tables) -> Result<bool, OutOfMemory> {
    let domestic = plan(alloc, b"N801DK", Kind::Domestic)?;
    let flag = plan(alloc, b"N801DK", Kind::Flag)?;
    Ok(are_due(tables, &domestic, &flag))
}

#[test]
fn rules_of_time_begin_to_fail(rt: HostRuntime) -> Result<(), Fail> {
    assert!(rt; holds(rt.alloc(), have_dues)?);
    assert!(rt; holds(rt.alloc(), are_late)?);
    Ok(())
}

use crate::flights::{ETD, leg_of, plan_of, push_alternate};
use desk_io::{LineFeeds, Listed, OutOfMemory, Text, runs_between};
use desk_time::Minute;
use plan::{Kind, Leg, Legs, Phase, Plan, PlanWhy, check_change};
use small_airline::{fits, may_be_checked};
use std::alloc::Global;
use std::test::Fail;

const ONE: &[u8] = b"KBOS KJFK KPHL KPHL";

const TWO: &[u8] = b"KBOS KJFK KPHL KPHL\nKJFK KPHL ---- KBOS";

const THREE: &[u8] = b"KBOS KJFK KPHL KPHL\nKJFK KPHL ---- KBOS\nKPHL KBOS ----";

// Changes one member of a leg by its number: 1 to 8. Others change none.
fn alter(leg: &mut Leg, member: u8) -> Result<(), OutOfMemory> {
    match member {
        1 => leg.etd = ETD,
        2 => leg.eta = ETD + 500,
        3 => leg.minutes = 54,
        4 => leg.burn = 11_999,
        5 => leg.extra = 1,
        6 => leg.minimum = 19_501,
        7 => leg.onboard = 20_001,
        8 => push_alternate(leg, b"EGLL")?,
        _ => {}
    }
    Ok(())
}

// Adds the leg of a line, of which a member is changed.
fn push_leg(
    alloc: Global,
    legs: &mut Legs,
    line: &[u8],
    etd: Minute,
    member: u8,
) -> Result<(), OutOfMemory> {
    if let Some(mut leg) = leg_of(alloc, line, etd)? {
        alter(&mut leg, member)?;
        legs.push(leg)?;
    }
    Ok(())
}

// The legs of lines, an hour each, of which a member of the last is changed.
fn legs_of(alloc: Global, text: &[u8], member: u8) -> Result<Legs, OutOfMemory> {
    let lines = runs_between::<LineFeeds>(alloc, text)?;
    let mut legs = Listed::new(alloc);
    let mut etd = ETD + 1;
    for (i, line) in lines.as_slice().iter().enumerate() {
        let is_last = i + 1 == lines.as_slice().len();
        let member = if is_last { member } else { 0 };
        push_leg(alloc, &mut legs, line.bytes(), etd, member)?;
        etd = etd.saturating_add(60);
    }
    Ok(legs)
}

fn plan(alloc: Global, lines: &[u8], member: u8) -> Result<Plan, OutOfMemory> {
    plan_of(alloc, b"N801DK", b"C7", legs_of(alloc, lines, member)?)
}

/// A plan of one leg.
pub(crate) fn one_leg(alloc: Global) -> Result<Plan, OutOfMemory> {
    plan(alloc, ONE, 0)
}

// The test that fails for a plan that is to take the place of another. No plan fails a test of times, which stands for
// a plan that may not be checked.
fn fault_of(plan: &Plan, old: &Plan, phase: Phase) -> Option<(u32, PlanWhy)> {
    if !may_be_checked(old) || !fits(phase, old.legs.as_slice()) {
        return Some((0, PlanWhy::Times));
    }
    match check_change(plan, old, phase) {
        Ok(()) => None,
        Err(bad) => Some((bad.leg, bad.why)),
    }
}

// What lines fail in the place of a plan of two legs, where a member of the last leg is changed.
fn legs_fault(
    alloc: Global,
    old: &Plan,
    phase: Phase,
    lines: &[u8],
    member: u8,
) -> Result<Option<(u32, PlanWhy)>, OutOfMemory> {
    let plan = plan(alloc, lines, member)?;
    Ok(fault_of(&plan, old, phase))
}

const FIRST: Phase = Phase::Flying { leg: 1 };

const SECOND: Phase = Phase::Flying { leg: 2 };

const STOPPED: Phase = Phase::Stopped {
    next: 2,
    since: ETD + 61,
    again: true,
};

const COMPLETED: Phase = Phase::Completed { at: ETD + 121 };

const CANCELLED: Phase = Phase::Cancelled { at: ETD };

// That leg may not be so, or each may for 0.
fn flown(leg: u32) -> Option<(u32, PlanWhy)> {
    if leg == 0 {
        return None;
    }
    Some((leg, PlanWhy::Flown))
}

// The first leg that may not be so, or 0 where all may.
fn has_flown_faults(alloc: Global, old: &Plan) -> Result<bool, OutOfMemory> {
    for (phase, lines, leg) in [
        (Phase::Drafted, b"KPHL KBOS ----".as_slice(), 0),
        (Phase::Drafted, b"", 1),
        (Phase::Ready, b"KPHL KBOS ----", 0),
        (Phase::Ready, b"", 1),
        (FIRST, TWO, 0),
        (FIRST, b"", 1),
        (FIRST, b"KBOS KPHL KPHL ----", 0),
        (FIRST, b"KPHL KJFK KPHL KPHL", 1),
        (FIRST, b"KBOS KJFK ---- KPHL", 1),
        (FIRST, b"KBOS KJFK EINN KPHL", 1),
        (SECOND, TWO, 0),
        (SECOND, THREE, 0),
        (SECOND, b"", 1),
        (SECOND, ONE, 2),
        (SECOND, b"KBOS KJFK KPHL KPHL\nKJFK EINN ---- EGLL", 0),
        (SECOND, b"KBOS KJFK KPHL KPHL\nKBOS KPHL ---- KBOS", 2),
        (SECOND, b"KBOS KJFK KPHL KPHL\nKJFK KPHL EGLL KBOS", 2),
        (SECOND, b"KBOS KJFK KPHL ----\nKBOS KPHL ---- KBOS", 1),
        (STOPPED, TWO, 0),
        (STOPPED, THREE, 0),
        (STOPPED, b"", 1),
        (STOPPED, ONE, 2),
        (STOPPED, b"KBOS KJFK KPHL KPHL\nKPHL KBOS EGLL ----", 0),
        (STOPPED, b"KBOS KJFK EINN KPHL\nKJFK KPHL ---- KBOS", 1),
        (COMPLETED, TWO, 3),
        (COMPLETED, THREE, 0),
        (COMPLETED, ONE, 2),
        (COMPLETED, b"", 1),
        (CANCELLED, TWO, 3),
        (CANCELLED, THREE, 0),
    ] {
        if legs_fault(alloc, old, phase, lines, 0)? != flown(leg) {
            return Ok(false);
        }
    }
    Ok(true)
}

// A leg that is flown keeps each of its members. One in flight keeps its etd, and one at which a flight has stopped
// none.
fn has_member_faults(alloc: Global, old: &Plan) -> Result<bool, OutOfMemory> {
    for member in 1..9 {
        let (first, second) = if member == 1 { (1, 2) } else { (0, 0) };
        if legs_fault(alloc, old, COMPLETED, TWO, member)? != flown(2)
            || legs_fault(alloc, old, FIRST, ONE, member)? != flown(first)
            || legs_fault(alloc, old, SECOND, TWO, member)? != flown(second)
            || legs_fault(alloc, old, STOPPED, TWO, member)?.is_some()
        {
            return Ok(false);
        }
    }
    Ok(true)
}

fn set_head(alloc: Global, plan: &mut Plan, flight: &[u8], kind: Kind) -> Result<(), OutOfMemory> {
    plan.flight = Text::of(alloc, flight)?;
    plan.kind = kind;
    Ok(())
}

// What a plan with that head fails in the place of another, whose leg it lacks.
fn head_fault(
    alloc: Global,
    old: &Plan,
    phase: Phase,
    flight: &[u8],
    kind: Kind,
    tail: &[u8],
) -> Result<Option<(u32, PlanWhy)>, OutOfMemory> {
    let mut plan = plan_of(alloc, tail, b"C8", legs_of(alloc, TWO, 0)?)?;
    set_head(alloc, &mut plan, flight, kind)?;
    Ok(fault_of(&plan, old, phase))
}

fn has_head_faults(alloc: Global, old: &Plan) -> Result<bool, OutOfMemory> {
    let changed = Some((0, PlanWhy::Changed));
    let (domestic, flag) = (Kind::Domestic, Kind::Flag);
    for (phase, other_tail) in [
        (Phase::Drafted, None),
        (Phase::Ready, None),
        (FIRST, changed),
        (SECOND, changed),
        (STOPPED, None),
        (COMPLETED, flown(3)),
        (CANCELLED, flown(3)),
    ] {
        if head_fault(alloc, old, phase, b"DK102", domestic, b"N801DK")? != changed
            || head_fault(alloc, old, phase, b"DK101", flag, b"N801DK")? != changed
            || head_fault(alloc, old, phase, b"DK101", domestic, b"N802DK")? != other_tail
        {
            return Ok(false);
        }
    }
    Ok(true)
}

#[test]
fn a_plan_takes_the_place_of_another(rt: HostRuntime) -> Result<(), Fail> {
    let alloc = rt.alloc();
    let old = plan(alloc, TWO, 0)?;
    assert!(rt; has_flown_faults(alloc, &old)?);
    assert!(rt; has_member_faults(alloc, &old)?);
    assert!(rt; has_head_faults(alloc, &old)?);
    Ok(())
}

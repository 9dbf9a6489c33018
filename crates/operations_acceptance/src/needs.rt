use crate::flights::{ETD, leg_of};
use codes::{Cond, meets};
use desk_io::{OutOfMemory, Pair};
use plan::{Kind, in_range, is_marginal, needs_destination, needs_takeoff};
use std::alloc::Global;
use std::test::Fail;

fn known(ceiling: u32, vis: u32) -> Cond {
    Cond {
        ceiling: Some(ceiling),
        vis: Some(vis),
    }
}

fn pair(ceiling: u32, vis: u32) -> Pair {
    Pair { ceiling, vis }
}

// Whether a leg that takes so long needs an alternate for its destination.
fn needs(
    alloc: Global,
    minutes: u64,
    kind: Kind,
    window: Cond,
    floor: Option<Pair>,
) -> Result<Option<bool>, OutOfMemory> {
    let Some(mut leg) = leg_of(alloc, b"KBOS KJFK ----", ETD)? else {
        return Ok(None);
    };
    leg.eta = ETD.saturating_add(minutes);
    Ok(Some(needs_destination(&leg, kind, window, floor)))
}

#[test]
fn destinations_need_an_alternate(rt: HostRuntime) -> Result<(), Fail> {
    let clear = known(100_000, 10_000_000);
    let least = Some(pair(2_000, 4_828_032));
    for (minutes, kind, window, floor, needed) in [
        (60, Kind::Domestic, known(2_000, 4_800_000), None, true),
        (60, Kind::Domestic, known(2_000, 5_000_000), None, false),
        (60, Kind::Domestic, known(2_000, 4_828_032), None, false),
        (60, Kind::Domestic, known(1_900, 5_000_000), None, true),
        (60, Kind::Domestic, Cond::UNKNOWN, least, true),
        (361, Kind::Domestic, clear, least, false),
        (60, Kind::Flag, known(2_000, 4_800_000), least, true),
        (60, Kind::Flag, known(2_000, 4_828_032), least, false),
        (60, Kind::Flag, known(1_900, 5_000_000), least, true),
        (60, Kind::Flag, clear, None, true),
        (360, Kind::Flag, clear, least, false),
        (361, Kind::Flag, clear, least, true),
    ] {
        assert!(rt; needs(rt.alloc(), minutes, kind, window, floor)? == Some(needed));
    }
    Ok(())
}

#[test]
fn weather_and_distance_are_tested(rt: HostRuntime) {
    let landing = [pair(200, 804_672), pair(400, 1_609_344)];
    for (cond, takeoff, marginal) in [
        (known(200, 804_672), false, true),
        (known(199, 10_000_000), true, true),
        (known(400, 1_609_344), false, false),
        (known(399, 10_000_000), false, true),
        (known(400, 1_609_343), false, true),
        (known(400, 804_672), false, true),
        (Cond::UNKNOWN, true, true),
    ] {
        assert!(rt; needs_takeoff(cond, &landing) == takeoff);
        assert!(rt; is_marginal(cond, &landing, landing[0]) == marginal);
    }
    assert!(rt; meets(Cond::UNKNOWN, &[pair(0, 0)]) && !meets(Cond::UNKNOWN, &[]));
    assert!(rt; is_marginal(known(100_000, 10_000_000), &[], landing[0]));
    for (engines, miles, within) in [
        (2, Some(400), true),
        (2, Some(401), false),
        (3, Some(401), true),
        (3, None, false),
    ] {
        assert!(rt; in_range(engines, 400, miles) == within);
    }
}

use desk_io::{Blanks, Listed, OutOfMemory, Station, Text, runs_between};
use desk_time::Minute;
use plan::{Alternate, Kind, Leg, Legs, Plan, TakeoffAlternate};
use std::alloc::Global;

/// 2025-03-12 18:00.
pub const ETD: Minute = 29_030_040;

/// A plan of a domestic flight.
pub fn plan_of(
    alloc: Global,
    tail: &[u8],
    captain: &[u8],
    legs: Legs,
) -> Result<Plan, OutOfMemory> {
    Ok(Plan {
        flight: Text::of(alloc, b"DK101")?,
        tail: Text::of(alloc, tail)?,
        kind: Kind::Domestic,
        captain: Text::of(alloc, captain)?,
        legs,
    })
}

/// Adds the alternate of that name, half an hour and more away.
pub fn push_alternate(leg: &mut Leg, name: &[u8]) -> Result<(), OutOfMemory> {
    if let Some(station) = Station::read(name) {
        leg.alternates.push(Alternate {
            station,
            minutes: 35,
            fuel: 3_000,
        })?;
    }
    Ok(())
}

fn takeoff_alternate(name: &[u8]) -> Option<TakeoffAlternate> {
    let station = Station::read(name)?;
    Some(TakeoffAlternate {
        station,
        minutes: 35,
    })
}

/// The leg of an hour that a line says: where it begins, where it ends, its takeoff alternate or dashes for none,
/// and its alternates. Its amounts of fuel are in bounds.
pub fn leg_of(alloc: Global, line: &[u8], etd: Minute) -> Result<Option<Leg>, OutOfMemory> {
    let words = runs_between::<Blanks>(alloc, line)?;
    let [from, to, takeoff, alternates @ ..] = words.as_slice() else {
        return Ok(None);
    };
    let (Some(from), Some(to)) = (Station::read(from.bytes()), Station::read(to.bytes())) else {
        return Ok(None);
    };
    let mut leg = Leg {
        from,
        to,
        etd,
        eta: etd.saturating_add(60),
        minutes: 55,
        burn: 12_000,
        extra: 0,
        minimum: 19_500,
        onboard: 20_000,
        takeoff_alternate: takeoff_alternate(takeoff.bytes()),
        alternates: Listed::new(alloc),
    };
    for name in alternates {
        push_alternate(&mut leg, name.bytes())?;
    }
    Ok(Some(leg))
}

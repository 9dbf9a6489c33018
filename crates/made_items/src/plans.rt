ghost use Rattle.std.specs.Prelude.{◌≡◌, ◌∷◌, [], Some, IfOk};
ghost use Rattle.desk_io.specs.Station.{station_of};
ghost use Rattle.made_items.specs.Plans as spec;

use desk_io::{Listed, OutOfMemory, Station, Text, push_all};
use plan::{Alternate, Alternates, Kind, Leg, Legs, Plan};
use std::alloc::Global;

/// 2025-03-12T18:00Z.
pub(crate) const ETD: u64 = 29_030_040;

/// 2025-03-12T19:00Z.
pub(crate) const ETA: u64 = 29_030_100;

fn station(name: &[u8; 4]) -> Station
    requires { station_of name.now ≡ Some name.now }
    ensures { result ≡ name.now }
{
    match Station::read(name) {
        Some(station) => station,
        None => unreachable!(),
    }
}

fn alternates(alloc: Global) -> Result<Alternates, OutOfMemory>
    ensures { IfOk result (λ list. list ≡ spec.alternate ∷ []) }
{
    let mut alternates = Listed::new(alloc);
    alternates.push(Alternate {
        station: station(b"KPHL"),
        minutes: 35,
        fuel: 3_000,
    })?;
    Ok(alternates)
}

fn leg(alloc: Global, minimum: u32) -> Result<Leg, OutOfMemory>
    ensures { IfOk result (λ leg. leg ≡ spec.leg minimum) }
{
    Ok(Leg {
        from: station(b"KBOS"),
        to: station(b"KJFK"),
        etd: ETD,
        eta: ETA,
        minutes: 55,
        burn: 12_000,
        extra: 0,
        minimum,
        onboard: 20_000,
        takeoff_alternate: None,
        alternates: alternates(alloc)?,
    })
}

fn legs(alloc: Global, minimum: u32) -> Result<Legs, OutOfMemory>
    ensures { IfOk result (λ list. list ≡ spec.leg minimum ∷ []) }
{
    let mut legs = Listed::new(alloc);
    legs.push(leg(alloc, minimum)?)?;
    Ok(legs)
}

fn flight(alloc: Global, number: u64) -> Result<Text, OutOfMemory>
    ensures { IfOk result (λ flight. flight ≡ spec.flight number) }
{
    let number = number.to_string(alloc)?;
    let mut flight = Vec::new(alloc);
    push_all(&mut flight, &[b"DK", number.as_bytes()])?;
    Ok(Text::from_vec(flight))
}

/// Returns the plan of flight `number` with this minimum fuel, in pounds.
pub(crate) fn plan_of(alloc: Global, number: u64, minimum: u32) -> Result<Plan, OutOfMemory>
    ensures { IfOk result (λ plan. plan ≡ spec.plan_of number minimum) }
{
    Ok(Plan {
        flight: flight(alloc, number)?,
        tail: Text::of(alloc, b"N801DK")?,
        kind: Kind::Domestic,
        captain: Text::of(alloc, b"C7")?,
        legs: legs(alloc, minimum)?,
    })
}

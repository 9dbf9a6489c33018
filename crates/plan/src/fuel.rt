ghost use Rattle.std.specs.Prelude.{◌≡◌, ◌≤◌, ◌*◌};
ghost use Rattle.plan.specs.Fuel as spec;
ghost use Rattle.plan.specs.Distant.{IsToMostDistant};

use crate::flights::{Alternate, Leg};

/// The rule by which the fuel of a leg is counted.
#[derive(Clone, Copy, Debug, PartialEq, Eq)]
pub enum Basis {
    /// To the destination, then to the most distant alternate, then 45 minutes at the cruise rate (14 CFR 121.639;
    /// 121.645(a) between two airports of the 48 contiguous states).
    Domestic,
    /// To the destination, then ten percent of the time in the air, then to the most distant alternate, then 30
    /// minutes holding (14 CFR 121.645(b)).
    Flag,
    /// To a destination without an alternate, then two hours at the cruise rate (14 CFR 121.645(c)).
    NoAlternate,
}

// Returns the greatest fuel to an alternate; 0 if there is none.
fn most_fuel(alternates: &[Alternate]) -> u32
    ensures { result ≡ spec.most_fuel alternates.now }
{
    let mut most = 0;
    for alternate in alternates {
        most = most.max(alternate.fuel);
    }
    most
}

fn alternate_fuel(leg: &Leg, counted: bool) -> u32
    ensures { result ≡ spec.alternate_fuel leg.now counted }
{
    if counted {
        most_fuel(leg.alternates.as_slice())
    } else {
        0
    }
}

// Returns the fuel for a number of minutes at an hourly rate, rounded up.
fn fuel_for(pph: u32, minutes: u32) -> u64
    ensures { result ≡ spec.fuel_for pph minutes }
{
    (u64::from(pph) * u64::from(minutes)).div_ceil(60)
}

// Returns the fuel for a tenth of a number of minutes at an hourly rate, rounded up.
fn tenth_for(pph: u32, minutes: u32) -> u64
    ensures { result ≡ spec.tenth_for pph minutes }
{
    (u64::from(pph) * u64::from(minutes)).div_ceil(600)
}

/// Returns the fuel that a leg requires, in pounds. `counted` tells whether to count the fuel to the most distant
/// alternate, the one that takes the most fuel. `cruise_pph` and `hold_pph` are rates in pounds per hour.
/// `extra_fuel` is what open deferrals add, in pounds. Each division is rounded up. It allocates nothing.
#[tactic(auto, unfolding(crate::specs::Fuel::required), using(crate::proofs::Distances::most_is_to_most_distant))]
pub fn required(
    leg: &Leg,
    basis: Basis,
    counted: bool,
    cruise_pph: u32,
    hold_pph: u32,
    extra_fuel: u64,
) -> u64
    requires { extra_fuel ≤ 5_000_000_000 }
    ensures sum { result ≡ spec.required leg.now basis counted cruise_pph hold_pph extra_fuel }
    ensures distant { IsToMostDistant leg.now.alternates (spec.most_fuel leg.now.alternates) }
{
    let planned = u64::from(leg.burn) + u64::from(leg.extra);
    let alternate = u64::from(alternate_fuel(leg, counted));
    match basis {
        Basis::Domestic => planned + alternate + fuel_for(cruise_pph, 45) + extra_fuel,
        Basis::Flag => {
            let reserve = tenth_for(cruise_pph, leg.minutes) + fuel_for(hold_pph, 30);
            planned + alternate + reserve + extra_fuel
        }
        Basis::NoAlternate => planned + 2 * u64::from(cruise_pph) + extra_fuel,
    }
}

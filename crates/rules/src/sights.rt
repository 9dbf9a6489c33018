ghost use Rattle.std.specs.Prelude.{◌≡◌, ◌≤◌, length, IfOk, IfSome};
ghost use Rattle.std.specs.List.{AllByRecursion};
ghost use Rattle.std.specs.Option.{option_copied, option_map};
ghost use Rattle.plan.specs.Check.{HasMoments};
ghost use Rattle.rules.specs.Sights as spec;
ghost use Rattle.rules.specs.Sights.{case_by, IsWithin};

use crate::circumstances::Circumstances;
use crate::destination_alternates::{Arrival, Need};
use crate::equipment::Equipment;
use crate::required_fuel::Fuel;
use crate::takeoff_alternates::Takeoff;
use crate::time::{Late, Times};
use desk_io::{Listed, OutOfMemory};
use plan::{Leg, Rule, Standing, standing_of};
use std::alloc::Global;

/// What the rules on weather, alternates, equipment and fuel find on a leg.
#[derive(Drop)]
pub(crate) struct Seen {
    pub takeoff: Takeoff,
    pub arrival: Arrival,
    pub equipment: Equipment,
    pub fuel: Fuel,
}

/// What all rules find on a leg.
#[derive(Drop)]
pub(crate) struct Sight {
    pub late: Late,
    pub seen: Seen,
}

fn place_if(fails: bool) -> &'static [u64]
    ensures { result.now ≡ spec.whole_if fails }
{
    if fails { &[0] } else { &[] }
}

impl Seen {
    // Finds nothing, for a flown leg or a plan that fails its tests.
    fn clear(alloc: Global) -> Seen
        ensures { result ≡ spec.clear }
    {
        Seen {
            takeoff: Takeoff::CLEAR,
            arrival: Arrival {
                is_below_landing: false,
                need: Need::NONE,
                lacks_second: false,
                low: Listed::new(alloc),
            },
            equipment: Equipment {
                limiting: Listed::new(alloc),
                overdue: Listed::new(alloc),
                barred: Listed::new(alloc),
            },
            fuel: Fuel::CLEAR,
        }
    }
}

impl Sight {
    /// Returns the places at which the leg fails a rule, in order.
    pub(crate) fn places(&self, rule: Rule) -> &[u64]
        ensures { result.now ≡ spec.places_in rule self.now }
    {
        match rule {
            Rule::No1 => place_if(self.late.domestic_stop),
            Rule::No2 => place_if(self.late.flag_stop),
            Rule::No3 => place_if(self.seen.arrival.is_below_landing),
            Rule::No4 => place_if(self.seen.takeoff.lacks),
            Rule::No5 => place_if(self.seen.takeoff.is_far),
            Rule::No6 => place_if(self.seen.takeoff.is_low),
            Rule::No7 => place_if(self.seen.arrival.need.lacks_domestic),
            Rule::No8 => place_if(self.seen.arrival.lacks_second),
            Rule::No9 => place_if(self.seen.arrival.need.lacks_flag),
            Rule::No10 => self.seen.arrival.low.as_slice(),
            Rule::No11 => self.seen.equipment.limiting.as_slice(),
            Rule::No12 => self.seen.equipment.overdue.as_slice(),
            Rule::No13 => self.seen.equipment.barred.as_slice(),
            Rule::No14 => place_if(self.seen.fuel.is_short_domestic),
            Rule::No15 => place_if(self.seen.fuel.is_short_flag),
            Rule::No16 => place_if(self.seen.fuel.is_underfilled),
            Rule::No17 => place_if(self.late.departure),
            Rule::No18 => place_if(self.late.arrival),
            Rule::No19 => &[],
        }
    }
}

impl<'a> Circumstances<'a> {
    // Judges a leg that isn't flown.
    fn seen_of(&self, alloc: Global, ahead: bool, leg: &Leg) -> Result<Seen, OutOfMemory>
        requires within { IsWithin self.now }
        requires moments { HasMoments leg.now }
        ensures { IfOk result (λ s. s ≡ spec.seen_of (case_by self.now) ahead leg.now) }
    {
        let takeoff = if ahead {
            self.takeoff(alloc, leg)?
        } else {
            Takeoff::CLEAR
        };
        let arrival = self.arrival(alloc, leg)?;
        let equipment = self.equipment(alloc, ahead, leg)?;
        let fuel = self.fuel(leg, arrival.need);
        Ok(Seen {
            takeoff,
            arrival,
            equipment,
            fuel,
        })
    }

    fn seen(&self, alloc: Global, standing: Standing, leg: &Leg) -> Result<Seen, OutOfMemory>
        requires within { IsWithin self.now }
        requires moments { HasMoments leg.now }
        ensures { IfOk result (λ s. s ≡ spec.seen_at (case_by self.now) standing leg.now) }
    {
        match standing {
            Standing::Ahead => self.seen_of(alloc, true, leg),
            Standing::InFlight => self.seen_of(alloc, false, leg),
            Standing::Flown => Ok(Seen::clear(alloc)),
        }
    }
}

// Judges a leg. Without circumstances, because the plan fails its tests, nothing is found.
fn seen_in(
    alloc: Global,
    circumstances: Option<&Circumstances<'_>>,
    standing: Standing,
    leg: &Leg,
) -> Result<Seen, OutOfMemory>
    requires within { IfSome (option_copied circumstances) IsWithin }
    requires moments { HasMoments leg.now }
    ensures { IfOk result (λ s. s ≡ spec.seen_in (option_map case_by (option_copied circumstances.entry)) standing
        leg.now) }
{
    match circumstances {
        None => Ok(Seen::clear(alloc)),
        Some(circumstances) => circumstances.seen(alloc, standing, leg),
    }
}

fn sight_of(
    alloc: Global,
    times: &Times,
    circumstances: Option<&Circumstances<'_>>,
    number: u32,
    leg: &Leg,
) -> Result<Sight, OutOfMemory>
    requires within { IfSome (option_copied circumstances) IsWithin }
    requires moments { HasMoments leg.now }
    ensures { IfOk result (λ s. s ≡ spec.sight_of times.now (option_map case_by (option_copied circumstances.entry))
        number leg.now) }
{
    let seen = seen_in(alloc, circumstances, standing_of(times.phase, number), leg)?;
    Ok(Sight {
        late: times.late(number, leg),
        seen,
    })
}

/// Judges each leg in order: by the rules of time, and in the circumstances by the other rules.
pub(crate) fn sights_of_legs(
    alloc: Global,
    times: &Times,
    circumstances: Option<&Circumstances<'_>>,
    legs: &[Leg],
) -> Result<Vec<Sight>, OutOfMemory>
    requires within { IfSome (option_copied circumstances) IsWithin }
    requires few { length legs.now ≤ 1000 }
    requires moments { AllByRecursion HasMoments legs.now }
    ensures value { IfOk result (λ v. v.items ≡ spec.sights_from times.now
        (option_map case_by (option_copied circumstances.entry)) 1 legs.now) }
    ensures count { IfOk result (λ v. length v.items ≤ 1000) }
{
    let mut sights = Vec::new(alloc);
    for (i, leg) in legs.iter().enumerate() {
        let sight = sight_of(alloc, times, circumstances, i as u32 + 1, leg)?;
        sights.push(sight)?;
    }
    Ok(sights)
}

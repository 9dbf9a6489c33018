use desk_io::{Copied, Listed, OutOfMemory, Station, Text, copied_option};
use desk_time::Minute;
use std::alloc::Global;

/// The legs of a plan in the order of flight.
pub type Legs = Listed<Leg>;

/// The alternates of a leg in the order of the plan.
pub type Alternates = Listed<Alternate>;

/// The kind of operation, whose rules apply to the plan (14 CFR 110.2).
#[derive(Clone, Copy, Debug, PartialEq, Eq)]
pub enum Kind {
    Domestic,
    Flag,
}

/// A flight of one or more legs, as a dispatcher plans it.
#[derive(Debug, Drop)]
pub struct Plan {
    /// The flight number.
    pub flight: Text,
    /// The registration of the aircraft.
    pub tail: Text,
    /// The rules by which the plan is judged.
    pub kind: Kind,
    /// The name of the pilot in command.
    pub captain: Text,
    /// The legs in the order of flight.
    pub legs: Legs,
}

/// A flight from one airport to the next. Fuel is in pounds.
#[derive(Debug, Drop)]
pub struct Leg {
    /// The airport of departure.
    pub from: Station,
    /// The destination.
    pub to: Station,
    /// The estimated time of departure.
    pub etd: Minute,
    /// The estimated time of arrival.
    pub eta: Minute,
    /// The planned time in the air, in minutes.
    pub minutes: u32,
    /// The fuel to fly to the destination and land there, in pounds.
    pub burn: u32,
    /// The fuel that the dispatcher adds for the factors of 14 CFR 121.647, in pounds.
    pub extra: u32,
    /// The least fuel that the release states for the leg, in pounds.
    pub minimum: u32,
    /// The fuel on board at departure, in pounds.
    pub onboard: u32,
    /// The takeoff alternate, if one is listed (14 CFR 121.617).
    pub takeoff_alternate: Option<TakeoffAlternate>,
    /// The alternates of the destination (14 CFR 121.619, 121.621).
    pub alternates: Alternates,
}

/// An airport for the aircraft to go to if it can't return to the airport of departure.
#[derive(Clone, Copy, Debug, PartialEq, Eq)]
pub struct TakeoffAlternate {
    /// The airport.
    pub station: Station,
    /// The flight time from the departure, in minutes.
    pub minutes: u32,
}

/// An airport for the aircraft to go to if it can't land at the destination.
#[derive(Clone, Copy, Debug, PartialEq, Eq)]
pub struct Alternate {
    /// The airport.
    pub station: Station,
    /// The flight time from the destination, in minutes.
    pub minutes: u32,
    /// The fuel to fly there from the destination, in pounds.
    pub fuel: u32,
}

impl Copied for TakeoffAlternate {
    fn copy(&self, _alloc: Global) -> Result<TakeoffAlternate, OutOfMemory> {
        Ok(*self)
    }
}

impl Copied for Alternate {
    fn copy(&self, _alloc: Global) -> Result<Alternate, OutOfMemory> {
        Ok(*self)
    }
}

impl Copied for Leg {
    fn copy(&self, alloc: Global) -> Result<Leg, OutOfMemory> {
        Ok(Leg {
            from: self.from,
            to: self.to,
            etd: self.etd,
            eta: self.eta,
            minutes: self.minutes,
            burn: self.burn,
            extra: self.extra,
            minimum: self.minimum,
            onboard: self.onboard,
            takeoff_alternate: copied_option(&self.takeoff_alternate, alloc)?,
            alternates: self.alternates.copy(alloc)?,
        })
    }
}

impl Copied for Plan {
    fn copy(&self, alloc: Global) -> Result<Plan, OutOfMemory> {
        Ok(Plan {
            flight: self.flight.copy(alloc)?,
            tail: self.tail.copy(alloc)?,
            kind: self.kind,
            captain: self.captain.copy(alloc)?,
            legs: self.legs.copy(alloc)?,
        })
    }
}

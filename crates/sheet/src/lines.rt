ghost use Rattle.std.specs.Prelude.{◌≡◌};
ghost use Rattle.sheet.specs.Lines as spec;
ghost use Rattle.sheet.specs.Nearest.{nearest_of, is_nothing, IsNearest};

use crate::nearest::{Miss, nearest_of};
use codes::{Cond, meets};
use desk_io::{Listed, Pair, Pairs, Station, Text};
use desk_time::Minute;
use plan::{Basis, Finding, PlanWhy, Rule, is_marginal};

/// The lines of a plan, sorted by rule, leg and place.
pub type Sheet = Listed<Line>;

/// What one rule compares at one place of a leg.
#[derive(Drop)]
pub struct Line {
    pub rule: Rule,
    /// The leg, from 1; 0 if the line compares the plan as a whole.
    pub leg: u32,
    /// The number of an alternate or deferral, 9 for the takeoff alternate, and 0 if the rule compares only one thing.
    pub place: u64,
    pub compared: Compared,
}

/// The numbers that a rule compares. Each kind has one test, which reads nothing but these numbers.
#[derive(Drop)]
pub enum Compared {
    /// Minutes that have passed (14 CFR 121.593, 121.595, and the desk's own rules of time).
    Time(Elapsed),
    /// Weather and minima (14 CFR 121.613, 121.617(b), 121.625, 121.652).
    Weather(WeatherAt),
    /// The weather at the departure, and the takeoff alternate (14 CFR 121.617(a)).
    Takeoff(Departure),
    /// The distance to the takeoff alternate (14 CFR 121.617(a)(1), (2)).
    Distance(Range),
    /// Whether an alternate is needed (14 CFR 121.619(a), 121.621(a)).
    Need(AlternateNeed),
    /// Marginal weather at the destination and at the only alternate (14 CFR 121.619(a)).
    Margin(Second),
    /// The limits of a deferred item (14 CFR 121.628).
    Limit(ItemLimit),
    /// The repair of a deferred item (14 CFR 121.628).
    Due(Repair),
    /// An airport that the type must be allowed to use (14 CFR 121.631).
    Airport(AirportUse),
    /// Fuel (14 CFR 121.639, 121.645).
    Fuel(FuelSum),
    /// Fuel on board (the desk's own rule).
    Board(OnBoard),
    /// The first fault of the plan under the tables; None if it passes its tests (the desk's own rule).
    Tables(Option<TablesFault>),
}

/// The minutes since an arrival, an ETD or an ETA.
#[derive(Clone, Copy)]
pub struct Elapsed {
    /// The last arrival, the ETD of the leg that departs next, or the ETA of the leg in flight.
    pub since: Minute,
    /// The moment of the sheet.
    pub moment: Minute,
    /// The minutes from `since` to `moment`; 0 if `moment` isn't later.
    pub minutes: u64,
    /// How many minutes are allowed.
    pub allowed: u32,
}

impl Elapsed {
    /// Returns true if no more minutes have passed than are allowed.
    pub fn is_in_time(&self) -> bool
        ensures { result ≡ spec.is_in_time self.now }
    {
        self.minutes <= u64::from(self.allowed)
    }
}

/// What gives a value: a report, or a part of a forecast.
#[derive(Clone, Copy)]
pub struct Source {
    /// The number of the report.
    pub report: u64,
    /// The part of the forecast, counted from 1; None for a METAR or SPECI.
    pub part: Option<usize>,
}

/// What a pair of alternate minima stands for. A number is that of a row among those of the airport, from 1.
#[derive(Clone, Copy)]
pub enum AlternateOrigin {
    /// A row of `alternates.csv`.
    Row(usize),
    /// An approach of `approaches.csv`, plus the airline's single addend.
    One(usize),
    /// Two approaches to different runways: the higher numbers, plus the airline's double addend.
    Two { first: usize, second: usize },
}

/// What a pair of minima stands for. A number is that of a row of `approaches.csv` among those of the airport, from 1.
#[derive(Clone, Copy)]
pub enum Origin {
    /// The landing minima of an approach.
    Approach(usize),
    /// Alternate minima.
    Alternate(AlternateOrigin),
    /// The landing minima of an approach, raised for a captain with few hours (14 CFR 121.652). The airport has no
    /// alternate minima.
    RaisedFreely(usize),
    /// The landing minima of an approach, raised for a captain with few hours, but not above these alternate minima (14
    /// CFR 121.652).
    RaisedTo {
        approach: usize,
        limit: AlternateOrigin,
    },
}

/// What minima stand for, in the order of the minima.
pub type Origins = Listed<Origin>;

/// The controlling weather at a station at a minute, and the minima with which a rule compares it.
#[derive(Drop)]
pub struct WeatherAt {
    pub station: Station,
    pub minute: Minute,
    pub weather: Cond,
    /// What gives the ceiling; None if the ceiling is unknown.
    pub ceiling_from: Option<Source>,
    /// What gives the visibility; None if the visibility is unknown.
    pub vis_from: Option<Source>,
    /// The weather must meet one of these pairs in both numbers.
    pub minima: Pairs,
    /// What each of these pairs stands for, in the same order.
    pub origins: Origins,
}

impl WeatherAt {
    /// Returns true if the weather meets one of the minima.
    pub fn is_met(&self) -> bool
        ensures { result ≡ spec.is_met self.now }
    {
        meets(self.weather, self.minima.as_slice())
    }

    /// Returns the minima that the weather misses by the least, with what it lacks; None if there are no minima.
    /// Fewer feet count before less visibility, and an unknown element lacks all. The weather meets one of the minima
    /// exactly if nothing is lacking.
    pub fn nearest(&self) -> Option<Miss>
        ensures value { result ≡ nearest_of self.now.weather self.now.minima }
        ensures least { IsNearest self.now.weather self.now.minima result }
        ensures met { is_nothing result ≡ spec.is_met self.now }
    {
        nearest_of(self.weather, self.minima.as_slice())
    }

    /// Returns true if the weather meets one of the minima plus the margin.
    pub fn is_beyond(&self, margin: Pair) -> bool
        ensures { result ≡ spec.is_beyond self.now margin }
    {
        !is_marginal(self.weather, self.minima.as_slice(), margin)
    }
}

/// The weather at a departure, and the takeoff alternate that the leg lists.
#[derive(Drop)]
pub struct Departure {
    pub there: WeatherAt,
    pub listed: Option<Station>,
}

impl Departure {
    /// Returns true if the weather meets one of the minima, or a takeoff alternate is listed.
    pub fn is_covered(&self) -> bool
        ensures { result ≡ spec.is_covered self.now }
    {
        self.there.is_met() || self.listed.is_some()
    }
}

/// The distance from the departure to the takeoff alternate, and the distance that is allowed, in nautical miles.
#[derive(Clone, Copy)]
pub struct Range {
    /// The takeoff alternate.
    pub station: Station,
    /// The distance; None if `distances.csv` has no row.
    pub miles: Option<u32>,
    /// The number of engines.
    pub engines: u8,
    /// The cruise speed in still air with one engine inoperative, in knots.
    pub knots: u32,
    /// The distance that is allowed: that of one hour at this speed with two engines, and of two hours with more.
    pub allowed: u32,
}

impl Range {
    /// Returns true if the distance is known and no greater than allowed.
    pub fn is_near(&self) -> bool
        ensures { result ≡ spec.is_in_range self.now.miles self.now.allowed }
    {
        match self.miles {
            None => false,
            Some(miles) => miles <= self.allowed,
        }
    }
}

/// Whether a leg needs an alternate for its destination, and how many it lists.
#[derive(Clone, Copy)]
pub struct AlternateNeed {
    /// The destination.
    pub station: Station,
    /// The first minute of the window: an hour before the ETA.
    pub from: Minute,
    /// The last minute of the window: an hour after the ETA.
    pub to: Minute,
    /// The minutes from ETD to ETA.
    pub minutes: u64,
    /// The most minutes for which a flag leg may go without an alternate; None for a domestic leg.
    pub longest: Option<u64>,
    /// The worst weather at the destination in the window.
    pub weather: Cond,
    /// The least weather in which no alternate is needed; None if the aircraft can use no approach there.
    pub floor: Option<Pair>,
    /// The number of alternates that the leg lists.
    pub listed: usize,
    /// Whether the route of a flag leg is approved without an alternate; None for a domestic leg.
    pub is_free: Option<bool>,
}

impl AlternateNeed {
    fn is_long(&self) -> bool
        ensures { result ≡ spec.is_longer self.now.longest self.now.minutes }
    {
        match self.longest {
            None => false,
            Some(longest) => longest < self.minutes,
        }
    }

    fn is_below(&self) -> bool
        ensures { result ≡ spec.misses self.now.weather self.now.floor }
    {
        match self.floor {
            None => true,
            Some(floor) => !self.weather.is_at_least(floor),
        }
    }

    /// Returns true if an alternate is needed: the leg is long, or the weather is below the floor.
    pub fn is_needed(&self) -> bool
        ensures { result ≡ spec.is_needed self.now }
    {
        self.is_long() || self.is_below()
    }

    fn is_approved(&self) -> bool
        ensures { result ≡ spec.is_approved self.now.is_free }
    {
        match self.is_free {
            None => false,
            Some(is_free) => is_free,
        }
    }

    /// Returns true if no alternate is needed, or one is listed, or the route is approved without one.
    pub fn is_provided(&self) -> bool
        ensures { result ≡ spec.is_provided self.now }
    {
        !self.is_needed() || 0 < self.listed || self.is_approved()
    }
}

/// The weather at the destination and at the only alternate, and the margin above minima that one of them must have.
#[derive(Drop)]
pub struct Second {
    pub destination: WeatherAt,
    pub alternate: WeatherAt,
    pub margin: Pair,
}

impl Second {
    /// Returns true if the weather at one of the two meets one of its minima plus the margin.
    pub fn is_beyond_margin(&self) -> bool
        ensures { result ≡ spec.is_beyond_margin self.now }
    {
        self.destination.is_beyond(self.margin) || self.alternate.is_beyond(self.margin)
    }
}

/// What a type's minimum equipment list allows while an item is deferred.
#[derive(Clone, Copy)]
pub struct Allowance {
    /// Whether a flag flight may depart.
    pub flag_ok: bool,
    /// The longest leg in minutes; 0 if there is no limit.
    pub max_minutes: u32,
}

/// A deferred item, and the limits that it sets.
#[derive(Drop)]
pub struct ItemLimit {
    pub item: Text,
    /// Whether the flight is flag.
    pub is_flag: bool,
    /// The time in the air, in minutes.
    pub minutes: u32,
    /// What the type's list allows; None if the list lacks the item.
    pub allows: Option<Allowance>,
    /// The id of the first earlier deferral whose item may not be deferred together with this one.
    pub excluded_by: Option<u64>,
}

impl ItemLimit {
    fn is_exceeded(&self, max_minutes: u32) -> bool
        ensures { result ≡ spec.is_exceeded max_minutes self.now.minutes }
    {
        0 < max_minutes && max_minutes < self.minutes
    }

    /// Returns true if the list has the item, and the item forbids neither the kind of operation, nor the length of the
    /// leg, nor another deferral.
    pub fn allows_leg(&self) -> bool
        ensures { result ≡ spec.is_allowed_by self.now self.now.allows }
    {
        match self.allows {
            None => false,
            Some(allows) => {
                !(self.is_flag && !allows.flag_ok
                    || self.is_exceeded(allows.max_minutes)
                    || self.excluded_by.is_some())
            }
        }
    }
}

/// When a deferred item must be repaired, and the leg's ETA.
#[derive(Drop)]
pub struct Repair {
    pub item: Text,
    /// When the fault was found.
    pub found: Minute,
    /// The moment by which the item must be repaired; None if `found` is after the last moment that the desk reads.
    pub due: Option<Minute>,
    pub eta: Minute,
}

impl Repair {
    /// Returns true if the ETA is before the moment by which the item must be repaired.
    pub fn is_in_time(&self) -> bool
        ensures { result ≡ spec.arrives_before self.now.due self.now.eta }
    {
        match self.due {
            None => true,
            Some(due) => self.eta < due,
        }
    }
}

/// An airport of a leg, and whether `uses.csv` allows the type to use it.
#[derive(Drop)]
pub struct AirportUse {
    /// The type of the aircraft.
    pub kind: Text,
    pub station: Station,
    pub may_use: bool,
}

/// Why a plan doesn't fit the tables.
#[derive(Clone, Copy)]
pub enum TablesFault {
    /// The first test that the plan fails, on the leg of the line.
    Plan(PlanWhy),
    /// The aircraft has no type.
    NoType,
}

/// The stated minimum fuel of a leg, and the required fuel with its terms, in pounds (14 CFR 121.639, 121.645).
#[derive(Clone, Copy)]
pub struct FuelSum {
    /// The minimum fuel that the plan states.
    pub stated: u32,
    /// The fuel that the leg requires: the sum of the terms below.
    pub required: u64,
    /// The rule by which the terms are counted.
    pub basis: Basis,
    /// The fuel to the destination.
    pub burn: u32,
    /// The fuel that the dispatcher adds for the factors of 14 CFR 121.647.
    pub extra: u32,
    /// A tenth of the time in the air at the cruise rate, by basis Flag; otherwise 0.
    pub tenth: u64,
    /// The fuel to the most distant alternate; 0 if none is needed or none is listed.
    pub alternate: u32,
    /// 45 minutes at the cruise rate, 30 minutes of holding, or two hours at the cruise rate, by the basis.
    pub reserve: u64,
    /// What open deferrals add.
    pub deferred: u64,
}

impl FuelSum {
    /// Returns true if the minimum fuel is at least what is required.
    pub fn is_enough(&self) -> bool
        ensures { result ≡ spec.is_enough self.now }
    {
        self.required <= u64::from(self.stated)
    }
}

/// The fuel on board and the stated minimum fuel of a leg, in pounds.
#[derive(Clone, Copy)]
pub struct OnBoard {
    pub onboard: u32,
    pub minimum: u32,
}

impl OnBoard {
    /// Returns true if the fuel on board is at least the minimum fuel.
    pub fn is_enough(&self) -> bool
        ensures { result ≡ spec.is_filled self.now }
    {
        self.minimum <= self.onboard
    }
}

impl Compared {
    /// Returns true if what is compared passes the test of its kind.
    pub fn passes(&self) -> bool
        ensures { result ≡ spec.passes self.now }
    {
        match self {
            Compared::Time(elapsed) => elapsed.is_in_time(),
            Compared::Weather(there) => there.is_met(),
            Compared::Takeoff(departure) => departure.is_covered(),
            Compared::Distance(range) => range.is_near(),
            Compared::Need(need) => need.is_provided(),
            Compared::Margin(second) => second.is_beyond_margin(),
            Compared::Limit(limit) => limit.allows_leg(),
            Compared::Due(repair) => repair.is_in_time(),
            Compared::Airport(airport) => airport.may_use,
            Compared::Fuel(sum) => sum.is_enough(),
            Compared::Board(fuel) => fuel.is_enough(),
            Compared::Tables(fault) => fault.is_none(),
        }
    }
}

impl Line {
    /// Returns true if the rule holds here, by the numbers of this line alone.
    pub fn holds(&self) -> bool
        ensures { result ≡ spec.holds self.now }
    {
        self.compared.passes()
    }

    /// Returns the finding that the line is if it fails.
    pub fn key(&self) -> Finding
        ensures { result ≡ spec.key self.now }
    {
        Finding {
            rule: self.rule,
            leg: self.leg,
            place: self.place,
        }
    }
}

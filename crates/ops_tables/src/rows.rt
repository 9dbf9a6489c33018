use crate::capabilities::Capabilities;
use crate::short_text::ShortText;
use desk_io::{Listed, Station, Text};

/// The capabilities of an aircraft that its open deferrals take away.
pub type Lost = Listed<Text>;

/// The name of a type of aircraft, an approach, a runway or a capability.
pub type Name = ShortText<8>;

/// The registration of an aircraft.
pub type Registration = ShortText<8>;

/// The name of an item of a minimum equipment list.
pub type ItemName = ShortText<16>;

/// The settings of the airline: minutes, feet, and sixteenths of a statute mile.
#[derive(Clone, Copy, Debug, PartialEq, Eq)]
pub struct Settings {
    /// How many minutes a METAR counts after its observation.
    pub hold_minutes: u32,
    /// Added to a ceiling minimum to test whether weather is marginal.
    pub marginal_ceiling: u32,
    /// Added to the ceiling of one approach for an alternate minimum.
    pub single_ceiling: u32,
    /// Added to the higher ceiling of two approaches for an alternate minimum.
    pub double_ceiling: u32,
    /// Added to a visibility minimum to test whether weather is marginal.
    pub marginal_vis16: u32,
    /// Added to the visibility of one approach for an alternate minimum.
    pub single_vis16: u32,
    /// Added to the higher visibility of two approaches for an alternate minimum.
    pub double_vis16: u32,
    /// How many minutes after its ETD a leg may still depart.
    pub late_off: u32,
    /// How many minutes after its ETA a leg may still arrive.
    pub late_on: u32,
}

/// An airport that a plan or a report may name.
#[derive(Clone, Copy, Debug, PartialEq, Eq)]
pub struct Airport {
    pub station: Station,
    /// Whether the airport is in the 48 contiguous states or the District of Columbia.
    pub conus: bool,
    /// The lowest circling minimum that the airline uses there, in feet; 0 if it doesn't circle.
    pub circle: u32,
}

/// An approach at an airport, with its landing minima.
#[derive(Debug, Drop)]
pub struct Approach {
    pub station: Station,
    pub name: Name,
    pub runway: Name,
    /// The capability that an aircraft needs for the approach.
    pub capability: Name,
    /// The published minimum height above touchdown, in feet.
    pub height: u32,
    /// The landing minimum ceiling, in feet.
    pub ceiling: u32,
    /// The landing minimum visibility, in sixteenths of a statute mile.
    pub vis16: u32,
}

/// One of the alternate minima of an airport that has its own.
#[derive(Clone, Copy, Debug, PartialEq, Eq)]
pub struct AlternateRow {
    pub station: Station,
    /// In feet.
    pub ceiling: u32,
    /// In sixteenths of a statute mile.
    pub vis16: u32,
}

/// A type of aircraft.
#[derive(Debug, Drop)]
pub struct TypeRow {
    pub kind: Name,
    /// The number of engines, 2 to 4.
    pub engines: u8,
    /// The cruise speed in still air with one engine inoperative, in knots.
    pub oei_knots: u32,
    /// Fuel flow in normal cruise, in pounds per hour.
    pub cruise_pph: u32,
    /// Fuel flow in holding, in pounds per hour.
    pub hold_pph: u32,
    pub capabilities: Capabilities,
}

/// An aircraft and its type.
#[derive(Debug, Drop)]
pub struct Tail {
    pub tail: Registration,
    pub kind: Name,
}

/// An airport that a type may use.
#[derive(Debug, Drop)]
pub struct Use {
    pub kind: Name,
    pub station: Station,
}

/// The distance from one airport to another, in nautical miles. It holds in this direction only.
#[derive(Clone, Copy, Debug, PartialEq, Eq)]
pub struct Distance {
    pub from: Station,
    pub to: Station,
    pub miles: u32,
}

/// A route on which a flag flight may go without an alternate (14 CFR 121.621(a)(2)). It holds in this direction
/// only.
#[derive(Clone, Copy, Debug, PartialEq, Eq)]
pub struct Route {
    pub from: Station,
    pub to: Station,
}

/// The repair category of a deferred item, which sets how long the repair may wait.
#[derive(Clone, Copy, Debug, PartialEq, Eq)]
pub enum Category {
    /// The number of days in the item's row.
    A,
    /// Three days.
    B,
    /// Ten days.
    C,
    /// 120 days.
    D,
}

/// An item of a type's minimum equipment list (14 CFR 121.628).
#[derive(Debug, Drop)]
pub struct MelRow {
    pub kind: Name,
    pub item: ItemName,
    pub category: Category,
    /// The days of category A.
    pub days: u32,
    /// The capability that is lost while the item is deferred; empty if none.
    pub capability: Name,
    /// The additional fuel of each leg, in pounds.
    pub extra_fuel: u32,
    /// Whether a flag flight may depart with the item deferred.
    pub flag_ok: bool,
    /// The longest leg in minutes; 0 if there is no limit.
    pub max_minutes: u32,
}

/// The role of a person, which decides what he may ask.
#[derive(Clone, Copy, Debug, PartialEq, Eq)]
pub enum Role {
    /// A dispatcher.
    D,
    /// A captain.
    C,
    /// The feed of weather reports.
    F,
    /// Maintenance.
    M,
    /// The keeper of the records.
    S,
}

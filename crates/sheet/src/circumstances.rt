ghost use Rattle.std.specs.Prelude.{◌≡◌, IfOk};
ghost use Rattle.ops_tables.specs.Limits.{FitsType};
ghost use Rattle.rules.specs.Circumstances as rules;
ghost use Rattle.rules.specs.Circumstances.{case_of};
ghost use Rattle.sheet.specs.Circumstances.{case_by, grounds_of, IsWithin};

use codes::Cond;
use deferrals::{Deferral, Deferrals, Limits, limits_on};
use desk_io::{OutOfMemory, Station};
use desk_time::Minute;
use facts::Reports;
use ops_tables::{Tables, TypeRow};
use plan::{Kind, Plan};
use std::alloc::Global;
use weather_window::at;

/// What the desk holds when the lines are made.
#[derive(Clone, Copy)]
pub(crate) struct World<'a> {
    pub facts: &'a Reports,
    pub deferrals: &'a Deferrals,
    /// The operations tables of the airline.
    pub tables: &'a Tables,
    pub moment: Minute,
}

/// The circumstances in which the legs of a plan are compared, looked up once for all legs.
#[derive(Drop)]
pub(crate) struct Circumstances<'a> {
    pub world: World<'a>,
    /// The kind of operation.
    pub flight: Kind,
    /// The type of the aircraft.
    pub aircraft: &'a TypeRow,
    /// The captain's hours as pilot in command in the type.
    pub hours: u32,
    /// The open deferrals of the aircraft in the order of their ids.
    pub deferred: Vec<&'a Deferral>,
    /// What these deferrals cost in fuel and capabilities.
    pub limits: Limits,
}

impl<'a> Circumstances<'a> {
    /// Looks up the circumstances of a plan whose aircraft has this type.
    pub(crate) fn of(
        alloc: Global,
        world: World<'a>,
        plan: &Plan,
        aircraft: &'a TypeRow,
    ) -> Result<Circumstances<'a>, OutOfMemory>
        requires fits { FitsType aircraft.now }
        ensures value { IfOk result (λ c. case_by c ≡ case_of (grounds_of world.entry) plan.now aircraft.now) }
        ensures within { IfOk result IsWithin }
    {
        let deferred = world.deferrals.open_on(alloc, plan.tail.bytes())?;
        let limits = limits_on(alloc, &deferred, aircraft.kind.bytes(), world.tables)?;
        let hours = world
            .tables
            .hours(plan.captain.bytes(), aircraft.kind.bytes());
        Ok(Circumstances {
            world,
            flight: plan.kind,
            aircraft,
            hours,
            deferred,
            limits,
        })
    }

    /// Returns the controlling weather at a station.
    pub(crate) fn weather_at(&self, station: Station, minute: Minute) -> Cond
        ensures { result ≡ rules.weather_at (case_by self.now).grounds station minute }
    {
        let facts = self.world.facts;
        let hold = self.world.tables.settings().hold_minutes;
        at(
            facts.taf_latest(station),
            facts.metar_latest(station),
            hold,
            minute,
        )
    }
}

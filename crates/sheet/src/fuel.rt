ghost use Rattle.std.specs.Prelude.{◌≡◌, ◌++◌, OnOk};
ghost use Rattle.ops_tables.specs.Tables.{airport_of};
ghost use Rattle.plan.specs.Check.{HasMoments};
ghost use Rattle.plan.specs.Fuel as term;
ghost use Rattle.rules.specs.DestinationAlternates as need;
ghost use Rattle.rules.specs.Fuel as rule;
ghost use Rattle.sheet.specs.Circumstances.{case_by, IsWithin};
ghost use Rattle.sheet.specs.Fuel as spec;

use crate::circumstances::Circumstances;
use crate::lines::{Compared, FuelSum, Line, OnBoard, Sheet};
use airport_minima::flag_floor;
use codes::Cond;
use desk_io::{OutOfMemory, Station};
use ops_tables::Tables;
use plan::{Alternate, Basis, Kind, Leg, Rule, needs_destination, required};
use weather_window::worst;

pub(crate) fn is_domestic(flight: Kind) -> bool
    ensures { result ≡ need.is_domestic flight }
{
    match flight {
        Kind::Domestic => true,
        Kind::Flag => false,
    }
}

fn lists_none(alternates: &[Alternate]) -> bool
    ensures { result ≡ need.lists_none alternates.now }
{
    match alternates {
        [] => true,
        _ => false,
    }
}

fn is_contiguous(tables: &Tables, station: Station) -> bool
    ensures { result ≡ rule.is_contiguous (airport_of tables.now station) }
{
    match tables.airport(station) {
        None => false,
        Some(airport) => airport.conus,
    }
}

fn is_within_states(tables: &Tables, leg: &Leg) -> bool
    ensures { result ≡ rule.is_within_states tables.now leg.now }
{
    is_contiguous(tables, leg.from) && is_contiguous(tables, leg.to)
}

// Returns the greatest fuel to an alternate; 0 if there is none.
fn most_fuel(alternates: &[Alternate]) -> u32
    ensures { result ≡ term.most_fuel alternates.now }
{
    let mut most = 0;
    for alternate in alternates {
        most = most.max(alternate.fuel);
    }
    most
}

fn alternate_fuel(leg: &Leg, counted: bool) -> u32
    ensures { result ≡ term.alternate_fuel leg.now counted }
{
    if counted {
        most_fuel(leg.alternates.as_slice())
    } else {
        0
    }
}

fn tenth_term(basis: Basis, cruise_pph: u32, minutes: u32) -> u64
    ensures { result ≡ spec.tenth_term basis cruise_pph minutes }
{
    match basis {
        Basis::Flag => (u64::from(cruise_pph) * u64::from(minutes)).div_ceil(600),
        Basis::Domestic | Basis::NoAlternate => 0,
    }
}

fn alternate_term(basis: Basis, leg: &Leg, counted: bool) -> u32
    ensures { result ≡ spec.alternate_term basis leg.now counted }
{
    match basis {
        Basis::Domestic | Basis::Flag => alternate_fuel(leg, counted),
        Basis::NoAlternate => 0,
    }
}

fn reserve_term(basis: Basis, cruise_pph: u32, hold_pph: u32) -> u64
    ensures { result ≡ spec.reserve_term basis cruise_pph hold_pph }
{
    match basis {
        Basis::Domestic => (u64::from(cruise_pph) * 45).div_ceil(60),
        Basis::Flag => (u64::from(hold_pph) * 30).div_ceil(60),
        Basis::NoAlternate => 2 * u64::from(cruise_pph),
    }
}

impl<'a> Circumstances<'a> {
    /// Returns the worst weather at the destination from an hour before the ETA to an hour after it.
    pub(crate) fn arrival_weather(&self, leg: &Leg) -> Cond
        requires { HasMoments leg.now }
        ensures { result ≡ need.arrival_weather (case_by self.now) leg.now }
    {
        let facts = self.world.facts;
        let hold = self.world.tables.settings().hold_minutes;
        worst(
            facts.taf_latest(leg.to),
            facts.metar_latest(leg.to),
            hold,
            leg.eta - 60,
            leg.eta + 60,
        )
    }

    /// Returns true if the leg needs an alternate for its destination (14 CFR 121.619(a), 121.621(a)(1)).
    pub(crate) fn needs_alternate(&self, leg: &Leg) -> bool
        requires { HasMoments leg.now }
        ensures { result ≡ need.needs_alternate (case_by self.now) leg.now }
    {
        let floor = flag_floor(self.world.tables, self.aircraft, leg.to, &self.limits.lost);
        needs_destination(leg, self.flight, self.arrival_weather(leg), floor)
    }

    // Returns true if a flag leg that needs an alternate lists none, as its route allows.
    fn does_without(&self, leg: &Leg, is_needed: bool) -> bool
        requires { is_needed ≡ need.needs_alternate (case_by self.now) leg.now }
        ensures { result ≡ rule.does_without (case_by self.now) leg.now }
    {
        !is_domestic(self.flight)
            && is_needed
            && lists_none(leg.alternates.as_slice())
            && self.world.tables.route_free(leg.from, leg.to)
    }

    fn basis(&self, leg: &Leg, is_needed: bool) -> Basis
        requires { is_needed ≡ need.needs_alternate (case_by self.now) leg.now }
        ensures { result ≡ rule.basis_of (case_by self.now) leg.now }
    {
        if self.does_without(leg, is_needed) {
            Basis::NoAlternate
        } else if is_domestic(self.flight) || is_within_states(self.world.tables, leg) {
            Basis::Domestic
        } else {
            Basis::Flag
        }
    }

    fn sum_by(&self, leg: &Leg, basis: Basis, counted: bool) -> FuelSum
        requires within { IsWithin self.now }
        requires basis { basis ≡ rule.basis_of (case_by self.now) leg.now }
        requires counted { counted ≡ rule.counts_alternate (case_by self.now) leg.now }
        ensures { result ≡ spec.fuel_sum (case_by self.now) leg.now }
    {
        let (cruise, hold) = (self.aircraft.cruise_pph, self.aircraft.hold_pph);
        FuelSum {
            stated: leg.minimum,
            required: required(leg, basis, counted, cruise, hold, self.limits.extra_fuel),
            basis,
            burn: leg.burn,
            extra: leg.extra,
            tenth: tenth_term(basis, cruise, leg.minutes),
            alternate: alternate_term(basis, leg, counted),
            reserve: reserve_term(basis, cruise, hold),
            deferred: self.limits.extra_fuel,
        }
    }

    // Returns the stated and the required fuel of a leg, with the terms.
    fn fuel_sum(&self, leg: &Leg) -> FuelSum
        requires within { IsWithin self.now }
        requires moments { HasMoments leg.now }
        ensures { result ≡ spec.fuel_sum (case_by self.now) leg.now }
    {
        let is_needed = self.needs_alternate(leg);
        let basis = self.basis(leg, is_needed);
        let counted = is_needed && !lists_none(leg.alternates.as_slice());
        self.sum_by(leg, basis, counted)
    }

    /// Adds the line on the minimum fuel of a domestic leg (14 CFR 121.639).
    pub(crate) fn push_domestic(
        &self,
        sheet: &mut Sheet,
        number: u32,
        leg: &Leg,
    ) -> Result<(), OutOfMemory>
        requires within { IsWithin self.now }
        requires moments { HasMoments leg.now }
        ensures { OnOk result (sheet.new ≡ sheet.old ++ spec.domestic_lines (case_by self.now) number leg.now) }
    {
        if !is_domestic(self.flight) {
            return Ok(());
        }
        sheet.push(Line {
            rule: Rule::No14,
            leg: number,
            place: 0,
            compared: Compared::Fuel(self.fuel_sum(leg)),
        })
    }

    /// Adds the line on the minimum fuel of a flag leg (14 CFR 121.645).
    pub(crate) fn push_flag(
        &self,
        sheet: &mut Sheet,
        number: u32,
        leg: &Leg,
    ) -> Result<(), OutOfMemory>
        requires within { IsWithin self.now }
        requires moments { HasMoments leg.now }
        ensures { OnOk result (sheet.new ≡ sheet.old ++ spec.flag_lines (case_by self.now) number leg.now) }
    {
        if is_domestic(self.flight) {
            return Ok(());
        }
        sheet.push(Line {
            rule: Rule::No15,
            leg: number,
            place: 0,
            compared: Compared::Fuel(self.fuel_sum(leg)),
        })
    }
}

/// Adds the line on the fuel on board.
pub(crate) fn push_board(sheet: &mut Sheet, number: u32, leg: &Leg) -> Result<(), OutOfMemory>
    ensures { OnOk result (sheet.new ≡ sheet.old ++ spec.board_lines number leg.now) }
{
    sheet.push(Line {
        rule: Rule::No16,
        leg: number,
        place: 0,
        compared: Compared::Board(OnBoard {
            onboard: leg.onboard,
            minimum: leg.minimum,
        }),
    })
}

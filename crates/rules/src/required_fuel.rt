ghost use Rattle.std.specs.Prelude.{◌≡◌};
ghost use Rattle.ops_tables.specs.Tables.{airport_of};
ghost use Rattle.plan.specs.Check.{HasMoments};
ghost use Rattle.rules.specs.Fuel as spec;
ghost use Rattle.rules.specs.Sights.{case_by, need_of, fuel_of, IsWithin};

use crate::circumstances::Circumstances;
use crate::destination_alternates::{Need, is_domestic, lists_none};
use crate::weather::Reported;
use desk_io::Station;
use ops_tables::Tables;
use plan::{Basis, Leg, required};

/// What the rules on fuel find on a leg (14 CFR 121.639, 121.645).
#[derive(Clone, Copy)]
pub(crate) struct Fuel {
    /// The leg is domestic, and its minimum fuel is less than required.
    pub is_short_domestic: bool,
    /// The leg is flag, and its minimum fuel is less than required.
    pub is_short_flag: bool,
    /// The fuel on board is less than the minimum fuel.
    pub is_underfilled: bool,
}

impl Fuel {
    /// No rule on fuel fails.
    pub const CLEAR: Fuel = Fuel {
        is_short_domestic: false,
        is_short_flag: false,
        is_underfilled: false,
    };
}

fn is_contiguous(tables: &Tables, station: Station) -> bool
    ensures { result ≡ spec.is_contiguous (airport_of tables.now station) }
{
    match tables.airport(station) {
        None => false,
        Some(airport) => airport.conus,
    }
}

fn is_within_states(tables: &Tables, leg: &Leg) -> bool
    ensures { result ≡ spec.is_within_states tables.now leg.now }
{
    is_contiguous(tables, leg.from) && is_contiguous(tables, leg.to)
}

impl<'a> Circumstances<'a> {
    fn basis(&self, leg: &Leg, need: Need) -> Basis
        requires { need ≡ need_of (case_by self.now) leg.now }
        ensures { result ≡ spec.basis_of (case_by self.now) leg.now }
    {
        if need.does_without {
            Basis::NoAlternate
        } else if is_domestic(self.flight) || is_within_states(self.evidence.tables, leg) {
            Basis::Domestic
        } else {
            Basis::Flag
        }
    }

    fn required(&self, leg: &Leg, need: Need) -> u64
        requires within { IsWithin self.now }
        requires need { need ≡ need_of (case_by self.now) leg.now }
        ensures { result ≡ spec.required_fuel (case_by self.now) leg.now }
    {
        required(
            leg,
            self.basis(leg, need),
            need.is_needed && !lists_none(leg.alternates.as_slice()),
            self.aircraft.cruise_pph,
            self.aircraft.hold_pph,
            self.limits.extra_fuel,
        )
    }

    /// Returns the fuel that a leg requires, in pounds (14 CFR 121.639, 121.645).
    pub(crate) fn required_fuel(&self, leg: &Leg) -> u64
        requires within { IsWithin self.now }
        requires moments { HasMoments leg.now }
        ensures { result ≡ spec.required_fuel (case_by self.now) leg.now }
    {
        let reported = Reported::of(&self.evidence, leg.to);
        self.required(leg, self.need(leg, &reported))
    }

    /// Judges a leg by the rules on fuel.
    pub(crate) fn fuel(&self, leg: &Leg, need: Need) -> Fuel
        requires within { IsWithin self.now }
        requires need { need ≡ need_of (case_by self.now) leg.now }
        ensures { result ≡ fuel_of (case_by self.now) leg.now }
    {
        let domestic = is_domestic(self.flight);
        let is_short = u64::from(leg.minimum) < self.required(leg, need);
        Fuel {
            is_short_domestic: domestic && is_short,
            is_short_flag: !domestic && is_short,
            is_underfilled: leg.onboard < leg.minimum,
        }
    }
}

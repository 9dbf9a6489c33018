ghost use Rattle.std.specs.Prelude.{◌≡◌, true, Some, IfOk};
ghost use Rattle.plan.specs.Check.{HasMoments};
ghost use Rattle.rules.specs.Circumstances as spec;
ghost use Rattle.rules.specs.TakeoffAlternates as departure;
ghost use Rattle.rules.specs.Sights.{case_by, takeoff_by, takeoff_where, takeoff_of, IsWithin};

use crate::circumstances::Circumstances;
use desk_io::{OutOfMemory, Station};
use desk_time::Minute;
use plan::{Leg, TakeoffAlternate, in_range, needs_takeoff};
use std::alloc::Global;

/// What the rules on takeoff alternates find on a leg (14 CFR 121.617).
#[derive(Clone, Copy)]
pub(crate) struct Takeoff {
    /// A takeoff alternate is needed and none is listed.
    pub lacks: bool,
    /// A takeoff alternate is needed and the listed one is too far away.
    pub is_far: bool,
    /// A takeoff alternate is needed and the listed one is below its alternate minima.
    pub is_low: bool,
}

impl Takeoff {
    /// No rule on takeoff alternates fails.
    pub const CLEAR: Takeoff = Takeoff {
        lacks: false,
        is_far: false,
        is_low: false,
    };
}

impl<'a> Circumstances<'a> {
    fn is_far(&self, leg: &Leg, it: &TakeoffAlternate) -> bool
        requires { IsWithin self.now }
        ensures { result ≡ departure.is_far (case_by self.now) leg.now (Some it.now) }
    {
        let miles = self.evidence.tables.miles(leg.from, it.station);
        !in_range(self.aircraft.engines, self.aircraft.oei_knots, miles)
    }

    // Returns true if the takeoff alternate is below its alternate minima when the aircraft arrives there from the
    // departure.
    fn is_low(&self, leg: &Leg, it: &TakeoffAlternate) -> bool
        requires { HasMoments leg.now }
        ensures { result ≡ departure.is_below_there (case_by self.now) leg.now (Some it.now) }
    {
        let arrival = leg.etd + u64::from(it.minutes);
        self.is_below_alternate(it.station, self.weather_at(it.station, arrival))
    }

    // Judges the listed takeoff alternate, which is needed.
    fn takeoff_listed(&self, leg: &Leg, it: &TakeoffAlternate) -> Takeoff
        requires within { IsWithin self.now }
        requires moments { HasMoments leg.now }
        ensures { result ≡ takeoff_by true (case_by self.now) leg.now (Some it.now) }
    {
        Takeoff {
            lacks: false,
            is_far: self.is_far(leg, it),
            is_low: self.is_low(leg, it),
        }
    }

    // Judges a leg that needs a takeoff alternate.
    fn takeoff_needed(&self, leg: &Leg) -> Takeoff
        requires within { IsWithin self.now }
        requires moments { HasMoments leg.now }
        ensures { result ≡ takeoff_where true (case_by self.now) leg.now }
    {
        match &leg.takeoff_alternate {
            None => Takeoff {
                lacks: true,
                is_far: false,
                is_low: false,
            },
            Some(it) => self.takeoff_listed(leg, it),
        }
    }

    /// Judges a leg that hasn't departed by the rules on takeoff alternates.
    pub(crate) fn takeoff(&self, alloc: Global, leg: &Leg) -> Result<Takeoff, OutOfMemory>
        requires within { IsWithin self.now }
        requires moments { HasMoments leg.now }
        ensures { IfOk result (λ t. t ≡ takeoff_of (case_by self.now) leg.now) }
    {
        let landing = self.landing_at(alloc, leg.from)?;
        if needs_takeoff(self.weather_at(leg.from, leg.etd), landing.as_slice()) {
            Ok(self.takeoff_needed(leg))
        } else {
            Ok(Takeoff::CLEAR)
        }
    }
}

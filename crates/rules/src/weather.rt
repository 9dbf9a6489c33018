ghost use Rattle.std.specs.Prelude.{◌≡◌, ◌≤◌, ◌+◌, ◌-◌, not, IfOk};
ghost use Rattle.std.specs.Option.{option_copied};
ghost use Rattle.desk_time.specs.Limits.{IsMoment};
ghost use Rattle.weather_window.specs.Window.{cond_at, worst_cond};
ghost use Rattle.codes.specs.Minima.{meets};
ghost use Rattle.plan.specs.AlternateNeeds.{is_marginal};
ghost use Rattle.airport_minima.specs.Raised.{raised};
ghost use Rattle.rules.specs.Grounds.{grounds_of};
ghost use Rattle.rules.specs.Circumstances as spec;
ghost use Rattle.rules.specs.HighestMet.{met_within};
ghost use Rattle.rules.specs.Sights.{IsReported, case_by};

use crate::circumstances::Circumstances;
use crate::evidence::Evidence;
use crate::highest_met::{NO_MARGIN, highest_met};
use airport_minima::{Bounds, has_alternate_within, has_raised_within, landing};
use codes::{Cond, meets};
use desk_io::{OutOfMemory, Pair, Pairs, Station};
use desk_time::Minute;
use std::alloc::Global;
use weather_reports::{Metar, Taf};
use weather_window::{at, worst};

/// The latest reports of a station.
#[derive(Clone, Copy)]
pub(crate) struct Reported<'a> {
    /// The latest TAF.
    pub taf: Option<&'a Taf>,
    /// The latest METAR or SPECI.
    pub metar: Option<&'a Metar>,
    /// How many minutes a METAR counts after its observation.
    pub hold: u32,
}

impl<'a> Reported<'a> {
    /// Looks up the latest reports of a station.
    pub(crate) fn of(evidence: &Evidence<'a>, station: Station) -> Reported<'a>
        ensures { IsReported (grounds_of evidence.now) station result }
    {
        Reported {
            taf: evidence.taf_of(station),
            metar: evidence.metar_of(station),
            hold: evidence.tables.settings().hold_minutes,
        }
    }

    /// Returns the controlling weather at a minute.
    pub(crate) fn at(&self, minute: Minute) -> Cond
        ensures { result ≡ cond_at (option_copied self.now.taf) (option_copied self.now.metar) self.now.hold minute }
    {
        at(self.taf, self.metar, self.hold, minute)
    }

    /// Returns the worst weather from an hour before a minute to an hour after it.
    pub(crate) fn around(&self, minute: Minute) -> Cond
        requires hold { self.now.hold ≤ 1440 }
        requires minute { IsMoment minute }
        ensures { result ≡ worst_cond (option_copied self.now.taf) (option_copied self.now.metar) self.now.hold
            (minute - 60) (minute + 60) }
    {
        worst(self.taf, self.metar, self.hold, minute - 60, minute + 60)
    }
}

impl<'a> Circumstances<'a> {
    /// Returns the controlling weather at a station.
    pub(crate) fn weather_at(&self, station: Station, minute: Minute) -> Cond
        ensures { result ≡ spec.weather_at (case_by self.now).grounds station minute }
    {
        Reported::of(&self.evidence, station).at(minute)
    }

    /// Returns the landing minima of a station for the aircraft.
    pub(crate) fn landing_at(&self, alloc: Global, station: Station) -> Result<Pairs, OutOfMemory>
        ensures { IfOk result (λ pairs. pairs ≡ spec.landing_at (case_by self.now) station) }
    {
        landing(
            alloc,
            self.evidence.tables,
            self.aircraft,
            station,
            &self.limits.lost,
        )
    }

    /// Returns true if the weather is below the landing minima of a station, as they hold for the captain.
    pub(crate) fn is_below_landing(&self, station: Station, weather: Cond, landing: &Pairs) -> bool
        requires { landing.now ≡ spec.landing_at (case_by self.now) station }
        ensures { result ≡ not (meets weather (spec.arrival_minima (case_by self.now) station)) }
    {
        if self.hours < 100 {
            !self.meets_raised_landing(station, weather, landing)
        } else {
            !meets(weather, landing.as_slice())
        }
    }

    // Returns true if the weather meets one of the landing minima as raised for a captain with few hours in the type.
    #[tactic(auto, using(crate::proofs::HighestMet::met_unraised))]
    fn meets_raised_landing(&self, station: Station, weather: Cond, landing: &Pairs) -> bool
        ensures { result ≡ meets weather (raised landing.now (spec.alternate_at (case_by self.now) station)) }
    {
        self.has_raised_met(station, landing, highest_met(weather, NO_MARGIN))
    }

    // Returns true if one of the landing minima, as raised, is within the highest minima that the weather meets.
    fn has_raised_met(&self, station: Station, landing: &Pairs, highest: Option<Bounds>) -> bool
        ensures { result ≡ met_within highest (raised landing.now (spec.alternate_at (case_by self.now) station)) }
    {
        match highest {
            None => false,
            Some(bounds) => has_raised_within(
                self.evidence.tables,
                self.aircraft,
                station,
                &self.limits.lost,
                landing.as_slice(),
                bounds,
            ),
        }
    }

    /// Returns true if the weather is below the alternate minima of a station for the aircraft.
    #[tactic(auto, using(crate::proofs::HighestMet::met_unraised))]
    pub(crate) fn is_below_alternate(&self, station: Station, weather: Cond) -> bool
        ensures { result ≡ not (meets weather (spec.alternate_at (case_by self.now) station)) }
    {
        !self.has_alternate_met(station, highest_met(weather, NO_MARGIN))
    }

    /// Returns true if the weather is marginal for the alternate minima of a station for the aircraft.
    #[tactic(auto, using(crate::proofs::HighestMet::met_raised))]
    pub(crate) fn is_marginal_alternate(
        &self,
        station: Station,
        weather: Cond,
        margin: Pair,
    ) -> bool
        ensures { result ≡ is_marginal weather (spec.alternate_at (case_by self.now) station) margin }
    {
        !self.has_alternate_met(station, highest_met(weather, margin))
    }

    // Returns true if one of the station's alternate minima is within the highest minima that the weather meets.
    fn has_alternate_met(&self, station: Station, highest: Option<Bounds>) -> bool
        ensures { result ≡ met_within highest (spec.alternate_at (case_by self.now) station) }
    {
        match highest {
            None => false,
            Some(bounds) => has_alternate_within(
                self.evidence.tables,
                self.aircraft,
                station,
                &self.limits.lost,
                bounds,
            ),
        }
    }
}

ghost use Rattle.std.specs.Prelude.{◌≡◌, ◌≤◌, ◌++◌, ◌∷◌, [], IfOk, OnOk};
ghost use Rattle.desk_io.specs.Pair.{AreWithin};
ghost use Rattle.plan.specs.AlternateNeeds as needs;
ghost use Rattle.plan.specs.Check.{HasMoments};
ghost use Rattle.rules.specs.Circumstances as rules;
ghost use Rattle.rules.specs.TakeoffAlternates as takeoff;
ghost use Rattle.sheet.specs.Circumstances.{case_by, IsWithin};
ghost use Rattle.sheet.specs.Lines.{numbered};
ghost use Rattle.sheet.specs.Weather as spec;

use crate::circumstances::Circumstances;
use crate::lines::{Compared, Departure, Line, Origins, Range, Sheet, WeatherAt};
use crate::sources::Which;
use airport_minima::{alternate_pairs, landing, raised};
use desk_io::{OutOfMemory, Pairs, Station};
use desk_time::Minute;
use plan::{Alternate, Leg, Rule, TakeoffAlternate, needs_takeoff};
use std::alloc::Global;

// Returns the range in nautical miles at the speed with one engine inoperative: that of one hour with two engines, and
// of two hours with more.
fn range_allowed(engines: u8, knots: u32) -> u32
    requires { knots ≤ 1_000 }
    ensures { result ≡ needs.range engines knots }
{
    if engines >= 3 { 2 * knots } else { knots }
}

fn station_of(listed: Option<TakeoffAlternate>) -> Option<Station>
    ensures { result ≡ spec.station_of listed }
{
    match listed {
        None => None,
        Some(it) => Some(it.station),
    }
}

impl<'a> Circumstances<'a> {
    /// Returns the landing minima of a station.
    pub(crate) fn landing_at(&self, alloc: Global, station: Station) -> Result<Pairs, OutOfMemory>
        ensures value { IfOk result (λ pairs. pairs ≡ rules.landing_at (case_by self.now) station) }
        ensures within { IfOk result (λ pairs. AreWithin 20_000 16_093_440 pairs) }
    {
        landing(
            alloc,
            self.world.tables,
            self.aircraft,
            station,
            &self.limits.lost,
        )
    }

    /// Returns the alternate minima of a station.
    pub(crate) fn alternate_at(&self, alloc: Global, station: Station) -> Result<Pairs, OutOfMemory>
        ensures { IfOk result (λ pairs. pairs ≡ rules.alternate_at (case_by self.now) station) }
    {
        alternate_pairs(
            alloc,
            self.world.tables,
            self.aircraft,
            station,
            &self.limits.lost,
        )
    }

    // Returns the landing minima as raised for a captain with few hours in the type.
    fn raised_at(&self, alloc: Global, station: Station) -> Result<Pairs, OutOfMemory>
        ensures { IfOk result (λ pairs. pairs ≡ spec.raised_at (case_by self.now) station) }
    {
        let landing = self.landing_at(alloc, station)?;
        let alternate = self.alternate_at(alloc, station)?;
        raised(alloc, &landing, &alternate)
    }

    // Returns the landing minima of the destination that hold for the captain.
    fn arrival_minima(&self, alloc: Global, station: Station) -> Result<Pairs, OutOfMemory>
        ensures { IfOk result (λ pairs. pairs ≡ rules.arrival_minima (case_by self.now) station) }
    {
        if self.hours < 100 {
            self.raised_at(alloc, station)
        } else {
            self.landing_at(alloc, station)
        }
    }

    fn weather_with(
        &self,
        station: Station,
        minute: Minute,
        minima: Pairs,
        origins: Origins,
    ) -> WeatherAt
        ensures { result ≡ spec.weather_with (case_by self.now) station minute minima origins }
    {
        WeatherAt {
            station,
            minute,
            weather: self.weather_at(station, minute),
            ceiling_from: self.source_at(Which::Ceiling, station, minute),
            vis_from: self.source_at(Which::Visibility, station, minute),
            minima,
            origins,
        }
    }

    fn at_destination(&self, alloc: Global, leg: &Leg) -> Result<WeatherAt, OutOfMemory>
        ensures { IfOk result (λ w. w ≡ spec.at_destination (case_by self.now) leg.now) }
    {
        let minima = self.arrival_minima(alloc, leg.to)?;
        let origins = self.arrival_origins(alloc, leg.to)?;
        Ok(self.weather_with(leg.to, leg.eta, minima, origins))
    }

    /// Returns the weather at a station at a minute, with its landing minima, which no captain's hours raise.
    pub(crate) fn at_landing(
        &self,
        alloc: Global,
        station: Station,
        minute: Minute,
    ) -> Result<WeatherAt, OutOfMemory>
        ensures { IfOk result (λ w. w ≡ spec.at_landing (case_by self.now) station minute) }
    {
        let minima = self.landing_at(alloc, station)?;
        let origins = self.landing_origins(alloc, station)?;
        Ok(self.weather_with(station, minute, minima, origins))
    }

    /// Returns the weather at an alternate at a minute, with its alternate minima.
    pub(crate) fn at_alternate(
        &self,
        alloc: Global,
        station: Station,
        minute: Minute,
    ) -> Result<WeatherAt, OutOfMemory>
        ensures { IfOk result (λ w. w ≡ spec.at_alternate (case_by self.now) station minute) }
    {
        let minima = self.alternate_at(alloc, station)?;
        let origins = self.alternate_origins(alloc, station)?;
        Ok(self.weather_with(station, minute, minima, origins))
    }

    /// Adds the line on the weather at the destination (14 CFR 121.613, 121.652).
    pub(crate) fn push_landing(
        &self,
        alloc: Global,
        sheet: &mut Sheet,
        number: u32,
        leg: &Leg,
    ) -> Result<(), OutOfMemory>
        ensures { OnOk result (sheet.new ≡ sheet.old ++ spec.landing_lines (case_by self.now) number leg.now) }
    {
        let there = self.at_destination(alloc, leg)?;
        sheet.push(Line {
            rule: Rule::No3,
            leg: number,
            place: 0,
            compared: Compared::Weather(there),
        })
    }

    /// Adds the line on the weather at the departure, and the takeoff alternate that is listed (14 CFR 121.617(a)).
    pub(crate) fn push_departure(
        &self,
        alloc: Global,
        sheet: &mut Sheet,
        number: u32,
        leg: &Leg,
    ) -> Result<(), OutOfMemory>
        ensures { OnOk result (sheet.new ≡ sheet.old ++ spec.departure_lines (case_by self.now) number leg.now) }
    {
        let there = self.at_landing(alloc, leg.from, leg.etd)?;
        sheet.push(Line {
            rule: Rule::No4,
            leg: number,
            place: 0,
            compared: Compared::Takeoff(Departure {
                there,
                listed: station_of(leg.takeoff_alternate),
            }),
        })
    }

    fn needs_takeoff(&self, alloc: Global, leg: &Leg) -> Result<bool, OutOfMemory>
        ensures { IfOk result (λ b. b ≡ takeoff.needs_takeoff_alternate (case_by self.now) leg.now) }
    {
        let landing = self.landing_at(alloc, leg.from)?;
        Ok(needs_takeoff(self.weather_at(leg.from, leg.etd), landing.as_slice()))
    }

    fn range_of(&self, leg: &Leg, it: &TakeoffAlternate) -> Range
        requires { IsWithin self.now }
        ensures { result ≡ spec.range_of (case_by self.now) leg.now it.now }
    {
        Range {
            station: it.station,
            miles: self.world.tables.miles(leg.from, it.station),
            engines: self.aircraft.engines,
            knots: self.aircraft.oei_knots,
            allowed: range_allowed(self.aircraft.engines, self.aircraft.oei_knots),
        }
    }

    /// Adds the line on the distance to the takeoff alternate, if one is needed and listed (14 CFR 121.617(a)(1), (2)).
    pub(crate) fn push_range(
        &self,
        alloc: Global,
        sheet: &mut Sheet,
        number: u32,
        leg: &Leg,
    ) -> Result<(), OutOfMemory>
        requires { IsWithin self.now }
        ensures { OnOk result (sheet.new ≡ sheet.old ++ spec.range_lines (case_by self.now) number leg.now) }
    {
        let is_needed = self.needs_takeoff(alloc, leg)?;
        match &leg.takeoff_alternate {
            Some(it) if is_needed => sheet.push(Line {
                rule: Rule::No5,
                leg: number,
                place: 0,
                compared: Compared::Distance(self.range_of(leg, it)),
            }),
            _ => Ok(()),
        }
    }

    fn push_takeoff_at(
        &self,
        alloc: Global,
        sheet: &mut Sheet,
        number: u32,
        leg: &Leg,
        it: &TakeoffAlternate,
    ) -> Result<(), OutOfMemory>
        requires { HasMoments leg.now }
        ensures { OnOk result (sheet.new ≡ sheet.old ++ spec.takeoff_weather (case_by self.now) number leg.now it.now
            ∷ []) }
    {
        let there = self.at_alternate(alloc, it.station, leg.etd + u64::from(it.minutes))?;
        sheet.push(Line {
            rule: Rule::No6,
            leg: number,
            place: 0,
            compared: Compared::Weather(there),
        })
    }

    /// Adds the line on the weather at the takeoff alternate, if one is needed and listed (14 CFR 121.617(b)).
    pub(crate) fn push_takeoff(
        &self,
        alloc: Global,
        sheet: &mut Sheet,
        number: u32,
        leg: &Leg,
    ) -> Result<(), OutOfMemory>
        requires { HasMoments leg.now }
        ensures { OnOk result (sheet.new ≡ sheet.old ++ spec.takeoff_lines (case_by self.now) number leg.now) }
    {
        let is_needed = self.needs_takeoff(alloc, leg)?;
        match &leg.takeoff_alternate {
            Some(it) if is_needed => self.push_takeoff_at(alloc, sheet, number, leg, it),
            _ => Ok(()),
        }
    }

    fn push_alternate(
        &self,
        alloc: Global,
        sheet: &mut Sheet,
        number: u32,
        leg: &Leg,
        place: u64,
        it: &Alternate,
    ) -> Result<(), OutOfMemory>
        requires { HasMoments leg.now }
        ensures { OnOk result (sheet.new ≡ sheet.old ++ spec.alternate_weather (case_by self.now) number leg.now place
            it.now ∷ []) }
    {
        let there = self.at_alternate(alloc, it.station, leg.eta + u64::from(it.minutes))?;
        sheet.push(Line {
            rule: Rule::No10,
            leg: number,
            place,
            compared: Compared::Weather(there),
        })
    }

    fn push_each_alternate(
        &self,
        alloc: Global,
        sheet: &mut Sheet,
        number: u32,
        leg: &Leg,
        alternates: &[Alternate],
    ) -> Result<(), OutOfMemory>
        requires { HasMoments leg.now }
        ensures { OnOk result (sheet.new ≡ sheet.old ++ numbered (spec.alternate_weather (case_by self.now) number
            leg.now) 1 alternates.now) }
    {
        for (i, it) in alternates.iter().enumerate() {
            self.push_alternate(alloc, sheet, number, leg, i as u64 + 1, it)?;
        }
        Ok(())
    }

    /// Adds a line on the weather at each listed alternate (14 CFR 121.625).
    pub(crate) fn push_alternates(
        &self,
        alloc: Global,
        sheet: &mut Sheet,
        number: u32,
        leg: &Leg,
    ) -> Result<(), OutOfMemory>
        requires { HasMoments leg.now }
        ensures { OnOk result (sheet.new ≡ sheet.old ++ spec.alternate_lines (case_by self.now) number leg.now) }
    {
        self.push_each_alternate(alloc, sheet, number, leg, leg.alternates.as_slice())
    }
}

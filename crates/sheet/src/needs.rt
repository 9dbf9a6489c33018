ghost use Rattle.std.specs.Prelude.{◌≡◌, ◌++◌, ◌∷◌, [], true, length, IfOk, OnOk};
ghost use Rattle.ops_tables.specs.Limits.{FitsSettings};
ghost use Rattle.plan.specs.declared.flights.Kind.TheVariants.{Domestic, Flag};
ghost use Rattle.plan.specs.Check.{HasMoments};
ghost use Rattle.rules.specs.DestinationAlternates as rules;
ghost use Rattle.sheet.specs.Circumstances.{case_by};
ghost use Rattle.sheet.specs.Needs as spec;

use crate::circumstances::Circumstances;
use crate::fuel::is_domestic;
use crate::lines::{AlternateNeed, Compared, Line, Second, Sheet};
use airport_minima::{flag_floor, millimetres};
use desk_io::{MILE, OutOfMemory, Pair};
use ops_tables::Settings;
use plan::{Alternate, Kind, Leg, Rule};
use std::alloc::Global;

// The least weather in which a domestic flight needs no alternate (14 CFR 121.619(a)).
const DOMESTIC_FLOOR: Pair = Pair {
    ceiling: 2_000,
    vis: 3 * MILE,
};

// Returns the margin: weather that isn't this much above minima is marginal.
fn margin(settings: Settings) -> Pair
    requires { FitsSettings settings }
    ensures { result ≡ rules.margin settings }
{
    Pair {
        ceiling: settings.marginal_ceiling,
        vis: millimetres(settings.marginal_vis16),
    }
}

fn count(alternates: &[Alternate]) -> usize
    ensures { result ≡ length alternates.now }
{
    alternates.len()
}

impl<'a> Circumstances<'a> {
    fn domestic_need(&self, leg: &Leg) -> AlternateNeed
        requires { HasMoments leg.now }
        ensures { result ≡ spec.need_by Domestic (case_by self.now) leg.now }
    {
        AlternateNeed {
            station: leg.to,
            from: leg.eta - 60,
            to: leg.eta + 60,
            minutes: leg.eta.saturating_sub(leg.etd),
            longest: None,
            weather: self.arrival_weather(leg),
            floor: Some(DOMESTIC_FLOOR),
            listed: count(leg.alternates.as_slice()),
            is_free: None,
        }
    }

    fn flag_need(&self, leg: &Leg) -> AlternateNeed
        requires { HasMoments leg.now }
        ensures { result ≡ spec.need_by Flag (case_by self.now) leg.now }
    {
        let tables = self.world.tables;
        AlternateNeed {
            station: leg.to,
            from: leg.eta - 60,
            to: leg.eta + 60,
            minutes: leg.eta.saturating_sub(leg.etd),
            longest: Some(360),
            weather: self.arrival_weather(leg),
            floor: flag_floor(tables, self.aircraft, leg.to, &self.limits.lost),
            listed: count(leg.alternates.as_slice()),
            is_free: Some(tables.route_free(leg.from, leg.to)),
        }
    }

    // Returns why a leg needs an alternate.
    fn need(&self, leg: &Leg) -> AlternateNeed
        requires { HasMoments leg.now }
        ensures { result ≡ spec.need_by (case_by self.now).flight (case_by self.now) leg.now }
    {
        match self.flight {
            Kind::Domestic => self.domestic_need(leg),
            Kind::Flag => self.flag_need(leg),
        }
    }

    /// Adds the line on the alternate that a domestic leg may need (14 CFR 121.619(a)).
    pub(crate) fn push_domestic_need(
        &self,
        sheet: &mut Sheet,
        number: u32,
        leg: &Leg,
    ) -> Result<(), OutOfMemory>
        requires { HasMoments leg.now }
        ensures { OnOk result (sheet.new ≡ sheet.old ++ spec.domestic_needs (case_by self.now) number leg.now) }
    {
        if !is_domestic(self.flight) {
            return Ok(());
        }
        sheet.push(Line {
            rule: Rule::No7,
            leg: number,
            place: 0,
            compared: Compared::Need(self.need(leg)),
        })
    }

    /// Adds the line on the alternate that a flag leg may need (14 CFR 121.621(a)).
    pub(crate) fn push_flag_need(
        &self,
        sheet: &mut Sheet,
        number: u32,
        leg: &Leg,
    ) -> Result<(), OutOfMemory>
        requires { HasMoments leg.now }
        ensures { OnOk result (sheet.new ≡ sheet.old ++ spec.flag_needs (case_by self.now) number leg.now) }
    {
        if is_domestic(self.flight) {
            return Ok(());
        }
        sheet.push(Line {
            rule: Rule::No9,
            leg: number,
            place: 0,
            compared: Compared::Need(self.need(leg)),
        })
    }

    fn second(&self, alloc: Global, leg: &Leg, it: &Alternate) -> Result<Second, OutOfMemory>
        requires { HasMoments leg.now }
        ensures { IfOk result (λ s. s ≡ spec.second (case_by self.now) leg.now it.now) }
    {
        let destination = self.at_landing(alloc, leg.to, leg.eta)?;
        let alternate = self.at_alternate(alloc, it.station, leg.eta + u64::from(it.minutes))?;
        Ok(Second {
            destination,
            alternate,
            margin: margin(self.world.tables.settings()),
        })
    }

    fn push_second_at(
        &self,
        alloc: Global,
        sheet: &mut Sheet,
        number: u32,
        leg: &Leg,
        it: &Alternate,
    ) -> Result<(), OutOfMemory>
        requires { HasMoments leg.now }
        ensures { OnOk result (sheet.new ≡ sheet.old ++ spec.second_line (case_by self.now) number leg.now it.now
            ∷ []) }
    {
        let second = self.second(alloc, leg, it)?;
        sheet.push(Line {
            rule: Rule::No8,
            leg: number,
            place: 0,
            compared: Compared::Margin(second),
        })
    }

    fn push_only(
        &self,
        alloc: Global,
        sheet: &mut Sheet,
        number: u32,
        leg: &Leg,
        alternates: &[Alternate],
    ) -> Result<(), OutOfMemory>
        requires { HasMoments leg.now }
        ensures { OnOk result (sheet.new ≡ sheet.old ++ spec.of_only (spec.second_line (case_by self.now) number
            leg.now) true alternates.now) }
    {
        match alternates {
            [] => Ok(()),
            [it] => self.push_second_at(alloc, sheet, number, leg, it),
            [_, _, ..] => Ok(()),
        }
    }

    /// Adds the line on a second alternate, if the leg is domestic, needs an alternate and lists one (14 CFR
    /// 121.619(a)).
    pub(crate) fn push_second(
        &self,
        alloc: Global,
        sheet: &mut Sheet,
        number: u32,
        leg: &Leg,
    ) -> Result<(), OutOfMemory>
        requires { HasMoments leg.now }
        ensures { OnOk result (sheet.new ≡ sheet.old ++ spec.second_lines (case_by self.now) number leg.now) }
    {
        if !(is_domestic(self.flight) && self.needs_alternate(leg)) {
            return Ok(());
        }
        self.push_only(alloc, sheet, number, leg, leg.alternates.as_slice())
    }
}

ghost use Rattle.std.specs.Prelude.{◌≡◌, IfSome};
ghost use Rattle.std.specs.Option.{option_map};
ghost use Rattle.plan.specs.Check.{HasMoments};
ghost use Rattle.plan.specs.Texts.{HasMoment};
ghost use Rattle.desk_time.specs.Limits.{IsMoment};
ghost use Rattle.plan.specs.declared.findings.Rule.TheVariants.{No17, No18};
ghost use Rattle.rules.specs.DestinationAlternates as destination;
ghost use Rattle.rules.specs.Time as spec;
ghost use Rattle.rules.specs.Sights.{last_of, late_of};

use crate::destination_alternates::is_domestic;
use desk_time::Minute;
use ops_tables::Settings;
use plan::{Kind, Leg, Phase, is_flying};

/// How many minutes a domestic flight may stop without another release (14 CFR 121.593).
const DOMESTIC_STOP: u32 = 60;

/// How many minutes a flag flight may stop without another release (14 CFR 121.595).
const FLAG_STOP: u32 = 360;

/// The limit of a rule of time. The rule fails after `since` plus `minutes`.
#[derive(Clone, Copy)]
pub(crate) struct Limit {
    pub since: Minute,
    pub minutes: u32,
}

/// What the rules of time depend on.
#[derive(Clone, Copy)]
pub(crate) struct Times {
    pub settings: Settings,
    /// The kind of operation.
    pub flight: Kind,
    pub phase: Phase,
    pub moment: Minute,
}

/// What the rules of time find on a leg.
#[derive(Clone, Copy)]
pub(crate) struct Late {
    /// The flight is domestic and has stopped too long before this leg (14 CFR 121.593).
    pub domestic_stop: bool,
    /// The flight is flag and has stopped too long before this leg (14 CFR 121.595).
    pub flag_stop: bool,
    /// The leg departs next and is late.
    pub departure: bool,
    /// The leg is in flight and is late.
    pub arrival: bool,
}

impl Limit {
    // Returns true if the moment is after the limit.
    fn is_past(self, moment: Minute) -> bool
        ensures { result ≡ spec.is_past (Some (last_of self)) moment }
    {
        self.since < moment.saturating_sub(u64::from(self.minutes))
    }
}

fn is_past(limit: Option<Limit>, moment: Minute) -> bool
    ensures { result ≡ spec.is_past (option_map last_of limit) moment }
{
    match limit {
        None => false,
        Some(limit) => limit.is_past(moment),
    }
}

impl Times {
    // Returns the limit of a stop of this many minutes before a leg, unless the flight was released again.
    fn stop(&self, minutes: u32, number: u32) -> Option<Limit>
        ensures value { option_map last_of result ≡ spec.stop_limit minutes self.now.phase number }
        ensures within { HasMoment self.now.phase → IfSome result (λ l. IsMoment l.since) }
    {
        match self.phase {
            Phase::Stopped { next, since, again } if number == next && !again => {
                Some(Limit { since, minutes })
            }
            _ => None,
        }
    }

    fn departs_next(&self, number: u32) -> bool
        ensures { result ≡ spec.departs_next self.now.phase number }
    {
        match self.phase {
            Phase::Drafted | Phase::Ready => number == 1,
            Phase::Stopped { next, .. } => number == next,
            Phase::Flying { .. } | Phase::Completed { .. } | Phase::Cancelled { .. } => false,
        }
    }

    /// Returns the limit of a domestic flight's stop before a leg.
    pub(crate) fn domestic_stop(&self, number: u32) -> Option<Limit>
        ensures value { option_map last_of result ≡ spec.only_if (destination.is_domestic self.now.flight)
            (spec.stop_limit 60 self.now.phase number) }
        ensures within { HasMoment self.now.phase → IfSome result (λ l. IsMoment l.since) }
    {
        if is_domestic(self.flight) {
            self.stop(DOMESTIC_STOP, number)
        } else {
            None
        }
    }

    /// Returns the limit of a flag flight's stop before a leg.
    pub(crate) fn flag_stop(&self, number: u32) -> Option<Limit>
        ensures value { option_map last_of result ≡ spec.only_if (destination.is_flag self.now.flight)
            (spec.stop_limit 360 self.now.phase number) }
        ensures within { HasMoment self.now.phase → IfSome result (λ l. IsMoment l.since) }
    {
        if is_domestic(self.flight) {
            None
        } else {
            self.stop(FLAG_STOP, number)
        }
    }

    /// Returns the limit for a leg's departure, if it departs next.
    pub(crate) fn departure(&self, number: u32, leg: &Leg) -> Option<Limit>
        ensures value { option_map last_of result ≡ spec.limit_of No17 self.now.settings self.now.flight
            self.now.phase number leg.now }
        ensures within { HasMoments leg.now → IfSome result (λ l. IsMoment l.since) }
    {
        if self.departs_next(number) {
            Some(Limit {
                since: leg.etd,
                minutes: self.settings.late_off,
            })
        } else {
            None
        }
    }

    /// Returns the limit for a leg's arrival, if it is in flight.
    pub(crate) fn arrival(&self, number: u32, leg: &Leg) -> Option<Limit>
        ensures value { option_map last_of result ≡ spec.limit_of No18 self.now.settings self.now.flight
            self.now.phase number leg.now }
        ensures within { HasMoments leg.now → IfSome result (λ l. IsMoment l.since) }
    {
        if is_flying(self.phase, number) {
            Some(Limit {
                since: leg.eta,
                minutes: self.settings.late_on,
            })
        } else {
            None
        }
    }

    /// Judges a leg by the rules of time.
    pub(crate) fn late(&self, number: u32, leg: &Leg) -> Late
        ensures { result ≡ late_of self.now number leg.now }
    {
        Late {
            domestic_stop: is_past(self.domestic_stop(number), self.moment),
            flag_stop: is_past(self.flag_stop(number), self.moment),
            departure: is_past(self.departure(number, leg), self.moment),
            arrival: is_past(self.arrival(number, leg), self.moment),
        }
    }
}

ghost use Rattle.std.specs.Prelude.{◌≡◌, ◌++◌, OnOk};
ghost use Rattle.sheet.specs.Time as spec;

use crate::fuel::is_domestic;
use crate::lines::{Compared, Elapsed, Line, Sheet};
use desk_io::OutOfMemory;
use desk_time::Minute;
use ops_tables::Settings;
use plan::{Kind, Leg, Phase, Rule, is_flying};

/// What the rules of time depend on.
#[derive(Clone, Copy)]
pub(crate) struct Times {
    pub settings: Settings,
    /// The kind of operation.
    pub flight: Kind,
    pub phase: Phase,
    pub moment: Minute,
}

fn departs_next(phase: Phase, number: u32) -> bool
    ensures { result ≡ spec.departs_next phase number }
{
    match phase {
        Phase::Drafted | Phase::Ready => number == 1,
        Phase::Stopped { next, .. } => number == next,
        Phase::Flying { .. } | Phase::Completed { .. } | Phase::Cancelled { .. } => false,
    }
}

// Returns since when the aircraft has stopped before a leg, unless the flight was released again.
fn stopped_since(phase: Phase, number: u32) -> Option<Minute>
    ensures { result ≡ spec.stopped_since phase number }
{
    match phase {
        Phase::Stopped { next, since, again } if number == next && !again => Some(since),
        _ => None,
    }
}

impl Times {
    fn domestic_since(&self, number: u32) -> Option<Minute>
        ensures { result ≡ spec.only_if (spec.is_domestic self.now.flight) (spec.stopped_since self.now.phase number) }
    {
        if is_domestic(self.flight) {
            stopped_since(self.phase, number)
        } else {
            None
        }
    }

    fn flag_since(&self, number: u32) -> Option<Minute>
        ensures { result ≡ spec.only_if (spec.is_flag self.now.flight) (spec.stopped_since self.now.phase number) }
    {
        if is_domestic(self.flight) {
            None
        } else {
            stopped_since(self.phase, number)
        }
    }

    // Returns since when a rule of time counts on a leg, if it does.
    fn counts_since(&self, rule: Rule, number: u32, leg: &Leg) -> Option<Minute>
        ensures { result ≡ spec.counts_since rule self.now.flight self.now.phase number leg.now }
    {
        match rule {
            Rule::No1 => self.domestic_since(number),
            Rule::No2 => self.flag_since(number),
            Rule::No17 if departs_next(self.phase, number) => Some(leg.etd),
            Rule::No18 if is_flying(self.phase, number) => Some(leg.eta),
            _ => None,
        }
    }

    // Returns how many minutes a rule of time allows.
    fn allowed(&self, rule: Rule) -> u32
        ensures { result ≡ spec.allowed rule self.now.settings }
    {
        match rule {
            Rule::No1 => 60,
            Rule::No2 => 360,
            Rule::No17 => self.settings.late_off,
            Rule::No18 => self.settings.late_on,
            _ => 0,
        }
    }

    /// Adds the line of a rule of time on a leg, if the rule counts there (14 CFR 121.593, 121.595).
    pub(crate) fn push_time(
        &self,
        sheet: &mut Sheet,
        rule: Rule,
        number: u32,
        leg: &Leg,
    ) -> Result<(), OutOfMemory>
        ensures { OnOk result (sheet.new ≡ sheet.old ++ spec.time_lines rule self.now.settings self.now.flight
            self.now.phase number leg.now self.now.moment) }
    {
        match self.counts_since(rule, number, leg) {
            None => Ok(()),
            Some(since) => sheet.push(Line {
                rule,
                leg: number,
                place: 0,
                compared: Compared::Time(Elapsed {
                    since,
                    moment: self.moment,
                    minutes: self.moment.saturating_sub(since),
                    allowed: self.allowed(rule),
                }),
            }),
        }
    }
}

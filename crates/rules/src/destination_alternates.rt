ghost use Rattle.std.specs.Prelude.{◌≡◌, ◌≤◌, IfOk};
ghost use Rattle.std.specs.List.{list_all};
ghost use Rattle.ops_tables.specs.Limits.{FitsSettings};
ghost use Rattle.plan.specs.Check.{HasMoments};
ghost use Rattle.rules.specs.DestinationAlternates as spec;
ghost use Rattle.plan.specs.AlternateNeeds as needs;
ghost use Rattle.rules.specs.Sights.{case_by, lists_one, need_of, there_of, all_there_of, arrival_of, IsReported};

use crate::circumstances::Circumstances;
use crate::weather::Reported;
use airport_minima::{flag_floor, millimetres};
use codes::Cond;
use desk_io::{Listed, OutOfMemory, Pair};
use ops_tables::Settings;
use plan::{Alternate, Kind, Leg, is_marginal, needs_destination};
use std::alloc::Global;

/// Whether a leg needs an alternate for its destination, and what follows from that (14 CFR 121.619, 121.621).
#[derive(Clone, Copy)]
pub(crate) struct Need {
    /// The leg needs an alternate.
    pub is_needed: bool,
    /// The leg is domestic, needs an alternate and lists none.
    pub lacks_domestic: bool,
    /// The leg is flag, needs an alternate and lists none, and its route isn't free of them.
    pub lacks_flag: bool,
    /// The leg is flag, needs an alternate and lists none, and its route is free of them.
    pub does_without: bool,
}

impl Need {
    /// The leg needs no alternate.
    pub const NONE: Need = Need {
        is_needed: false,
        lacks_domestic: false,
        lacks_flag: false,
        does_without: false,
    };
}

/// The weather at one alternate, compared with its minima.
#[derive(Clone, Copy)]
struct There {
    /// The weather is below the alternate minima.
    is_low: bool,
    /// The weather is marginal.
    is_marginal: bool,
}

/// The weather at all alternates of a leg, compared with their minima.
#[derive(Drop)]
struct AllThere {
    /// The numbers, from 1, of the alternates that are below their minima.
    low: Listed<u64>,
    /// The weather is marginal at every alternate.
    are_marginal: bool,
}

/// What the rules on the destination and its alternates find on a leg.
#[derive(Drop)]
pub(crate) struct Arrival {
    /// The destination is below the landing minima that hold for the captain.
    pub is_below_landing: bool,
    pub need: Need,
    /// The leg is domestic, needs an alternate and lists one, and the weather is marginal at both.
    pub lacks_second: bool,
    /// The numbers, from 1, of the alternates that are below their minima.
    pub low: Listed<u64>,
}

pub(crate) fn is_domestic(flight: Kind) -> bool
    ensures { result ≡ spec.is_domestic flight }
{
    match flight {
        Kind::Domestic => true,
        Kind::Flag => false,
    }
}

pub(crate) fn lists_none(alternates: &[Alternate]) -> bool
    ensures { result ≡ spec.lists_none alternates.now }
{
    match alternates {
        [] => true,
        _ => false,
    }
}

fn lists_one(alternates: &[Alternate]) -> bool
    ensures { result ≡ lists_one alternates.now }
{
    match alternates {
        [_] => true,
        _ => false,
    }
}

// Returns the margin: weather that isn't this much above minima is marginal.
fn margin(settings: Settings) -> Pair
    requires { FitsSettings settings }
    ensures { result ≡ spec.margin settings }
{
    Pair {
        ceiling: settings.marginal_ceiling,
        vis: millimetres(settings.marginal_vis16),
    }
}

impl<'a> Circumstances<'a> {
    // Returns true if the weather is marginal for these minima.
    fn is_marginal(&self, weather: Cond, pairs: &[Pair]) -> bool
        ensures { result ≡ needs.is_marginal weather pairs.now (spec.margin self.now.evidence.tables.now.settings) }
    {
        is_marginal(weather, pairs, margin(self.evidence.tables.settings()))
    }

    #[tactic(auto, using(crate::proofs::Needs::needs_domestic))]
    fn needs_alternate(&self, leg: &Leg, reported: &Reported<'_>) -> bool
        requires reported { IsReported (case_by self.now).grounds leg.now.to reported.now }
        requires moments { HasMoments leg.now }
        ensures { result ≡ spec.needs_alternate (case_by self.now) leg.now }
    {
        let window = reported.around(leg.eta);
        match self.flight {
            Kind::Domestic => needs_destination(leg, Kind::Domestic, window, None),
            Kind::Flag => {
                let tables = self.evidence.tables;
                let floor = flag_floor(tables, self.aircraft, leg.to, &self.limits.lost);
                needs_destination(leg, Kind::Flag, window, floor)
            }
        }
    }

    /// Whether a leg needs an alternate, by the reports of its destination.
    pub(crate) fn need(&self, leg: &Leg, reported: &Reported<'_>) -> Need
        requires reported { IsReported (case_by self.now).grounds leg.now.to reported.now }
        requires moments { HasMoments leg.now }
        ensures { result ≡ need_of (case_by self.now) leg.now }
    {
        let is_needed = self.needs_alternate(leg, reported);
        let lists_none = lists_none(leg.alternates.as_slice());
        let domestic = is_domestic(self.flight);
        let flag_without = !domestic && is_needed && lists_none;
        let is_free = flag_without && self.evidence.tables.route_free(leg.from, leg.to);
        Need {
            is_needed,
            lacks_domestic: domestic && is_needed && lists_none,
            lacks_flag: flag_without && !is_free,
            does_without: is_free,
        }
    }

    fn there(&self, leg: &Leg, it: &Alternate) -> There
        requires { HasMoments leg.now }
        ensures { result ≡ there_of (case_by self.now) leg.now it.now }
    {
        let weather = self.weather_at(it.station, leg.eta + u64::from(it.minutes));
        let margin = margin(self.evidence.tables.settings());
        There {
            is_low: self.is_below_alternate(it.station, weather),
            is_marginal: self.is_marginal_alternate(it.station, weather, margin),
        }
    }

    fn all_there(&self, alloc: Global, leg: &Leg) -> Result<AllThere, OutOfMemory>
        requires { HasMoments leg.now }
        ensures { IfOk result (λ a. a ≡ all_there_of (case_by self.now) leg.now) }
    {
        let mut low = Listed::new(alloc);
        let mut are_marginal = true;
        for (i, it) in leg.alternates.as_slice().iter().enumerate() {
            let there = self.there(leg, it);
            are_marginal = are_marginal && there.is_marginal;
            if there.is_low {
                low.push(i as u64 + 1)?;
            }
        }
        Ok(AllThere { low, are_marginal })
    }

    // Returns true if one alternate is listed, and the weather is marginal both at it and at the destination.
    #[tactic(auto, using(crate::proofs::Needs::marginal_at_one))]
    fn are_marginal(&self, leg: &Leg, at_destination: bool, at_alternates: bool) -> bool
        requires destination { at_destination ≡ spec.is_marginal_landing (case_by self.now) leg.now }
        requires alternates { at_alternates ≡ list_all (spec.is_marginal_at (case_by self.now) leg.now)
            leg.now.alternates }
        ensures { result ≡ spec.are_marginal (case_by self.now) leg.now leg.now.alternates }
    {
        lists_one(leg.alternates.as_slice()) && at_destination && at_alternates
    }

    /// Judges a leg by the rules on the destination and its alternates.
    pub(crate) fn arrival(&self, alloc: Global, leg: &Leg) -> Result<Arrival, OutOfMemory>
        requires { HasMoments leg.now }
        ensures { IfOk result (λ a. a ≡ arrival_of (case_by self.now) leg.now) }
    {
        let reported = Reported::of(&self.evidence, leg.to);
        let need = self.need(leg, &reported);
        let weather = reported.at(leg.eta);
        let landing = self.landing_at(alloc, leg.to)?;
        let is_below_landing = self.is_below_landing(leg.to, weather, &landing);
        let is_marginal = self.is_marginal(weather, landing.as_slice());
        let there = self.all_there(alloc, leg)?;
        let are_marginal = self.are_marginal(leg, is_marginal, there.are_marginal);
        Ok(Arrival {
            is_below_landing,
            need,
            lacks_second: is_domestic(self.flight) && need.is_needed && are_marginal,
            low: there.low,
        })
    }
}

ghost use Rattle.std.specs.Prelude.{◌≡◌, ◌≤◌, ◌+◌, ◌++◌, length, ◌≢◌, IfOk, OnOk, None, option_to_list};
ghost use Rattle.std.specs.List.{slice_get};
ghost use Rattle.std.specs.Option.{option_map};
ghost use Rattle.plan.specs.Check.{IsPlan, plan_fault};
ghost use Rattle.plan.specs.Phases.{standing};
ghost use Rattle.rules.specs.Grounds.{grounds_held};
ghost use Rattle.advise.specs.Advice.{Advises};
ghost use Rattle.advise.specs.Candidates.{AreCandidates, choices_for};
ghost use Rattle.advise.specs.Legal.{question};
ghost use Rattle.advise.specs.Places.{listed_at};
ghost use Rattle.advise.specs.Search.{advice_at, advice_by, places_in};
ghost use Rattle.advise.specs.Verdicts.{verdict_in};

use crate::candidates::{Candidate, choices_for};
use crate::search::{Offer, Places, cheapest};
use crate::verdicts::Inquiry;
use deferrals::Deferrals;
use desk_io::{Listed, OutOfMemory};
use desk_time::Minute;
use facts::Reports;
use ops_tables::Tables;
use plan::{Alternate, Alternates, Phase, Plan, Standing};
use rules::Steps;
use std::alloc::Global;
use std::sync::ledger::Ledger;

/// The alternates that a leg should list.
#[derive(Debug, Drop)]
pub struct Advice {
    /// The alternates, in the order of the candidates. They may be none.
    pub alternates: Alternates,
    /// The fuel that the leg requires with them, in pounds.
    pub required: u64,
}

// Adds the alternate at a place.
fn push_at(listed: &mut Alternates, choices: &[Alternate], place: usize) -> Result<(), OutOfMemory>
    ensures { OnOk result (listed.new ≡ listed.old ++ option_to_list (slice_get choices.now place)) }
{
    match choices.get(place) {
        None => Ok(()),
        Some(it) => listed.push(*it),
    }
}

// Returns the alternates at these places.
fn listed_at(
    alloc: Global,
    choices: &[Alternate],
    places: Places,
) -> Result<Alternates, OutOfMemory>
    ensures { IfOk result (λ listed. listed ≡ listed_at choices.now (places_in places)) }
{
    let mut listed = Listed::new(alloc);
    match places {
        Places::Empty => {}
        Places::One(place) => push_at(&mut listed, choices, place)?,
        Places::Two(first, second) => {
            push_at(&mut listed, choices, first)?;
            push_at(&mut listed, choices, second)?;
        }
    }
    Ok(listed)
}

fn advice_at(
    alloc: Global,
    choices: &[Alternate],
    offer: Option<Offer>,
) -> Result<Option<Advice>, OutOfMemory>
    ensures { IfOk result (λ advice. advice ≡ option_map (advice_at choices.now) offer) }
{
    match offer {
        None => Ok(None),
        Some(offer) => Ok(Some(Advice {
            alternates: listed_at(alloc, choices, offer.places)?,
            required: offer.required,
        })),
    }
}

// Returns the advice on an inquiry, if one of these alternates may be chosen.
fn advice_among<L: Ledger>(
    alloc: Global,
    inquiry: &Inquiry<'_>,
    choices: &[Alternate],
    steps: &mut Steps<L>,
) -> Result<Option<Advice>, OutOfMemory>
    requires { IsPlan inquiry.now.plan.now }
    ensures value { IfOk result (λ advice. advice ≡ advice_by (verdict_in inquiry.now) choices.now) }
    ensures steps { steps.new ≤ steps.old + (1 + length choices.now) }
{
    let empty = inquiry.verdict(alloc, &[], steps)?;
    let alone = inquiry.verdicts_alone(alloc, choices, steps)?;
    advice_at(alloc, choices, cheapest(empty, &alone))
}

/// Advises which alternates a leg, counted from 1, should list in a phase, in place of those that it lists. The plan
/// must pass its tests, and the leg must not be flown. Each candidate must pass [`is_candidate`], and no two may have
/// the same leg and station.
///
/// A list of at most three different candidates of the leg is legal if three things hold with it. No rule asks for an
/// alternate, or for one more (14 CFR 121.619, 121.621). The weather at each alternate, when the aircraft arrives
/// there, meets its alternate minima (14 CFR 121.625). The type may use each (14 CFR 121.631). Every other rule may
/// still fail.
///
/// The legal list with the least required fuel is advised (14 CFR 121.639, 121.645). If several cost the same, the one
/// with the fewest alternates is advised, and of those the first in the order of the candidates. Returns None exactly
/// if no list is legal. It counts at most one step more than the leg has candidates.
pub fn advise<L: Ledger>(
    alloc: Global,
    plan: &Plan,
    phase: Phase,
    leg: u32,
    candidates: &[Candidate],
    facts: &Reports,
    deferrals: &Deferrals,
    tables: &Tables,
    moment: Minute,
    steps: &mut Steps<L>,
) -> Result<Option<Advice>, OutOfMemory>
    requires plan { IsPlan plan.now }
    requires valid { plan_fault tables.now plan.now ≡ None }
    requires leg { (1 ≤ leg) × (leg ≤ length plan.now.legs) }
    requires not_flown { standing phase leg ≢ Standing.Flown }
    requires candidates { AreCandidates tables.now plan.now candidates.now }
    ensures advice { IfOk result (Advises (question plan.now phase leg candidates.now (grounds_held tables.now
        facts.now.reports deferrals.now.list moment))) }
    ensures steps { steps.new ≤ steps.old + (1 + length (choices_for leg candidates.now)) }
{
    let choices = choices_for(alloc, leg, candidates)?;
    let inquiry = Inquiry {
        plan,
        phase,
        leg,
        facts,
        deferrals,
        tables,
        moment,
    };
    advice_among(alloc, &inquiry, &choices, steps)
}

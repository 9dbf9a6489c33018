ghost use Rattle.std.specs.Prelude.{◌≡◌, ◌≤◌, ◌<◌, ◌+◌, ◌-◌, ◌*◌};
ghost use Rattle.std.specs.Option.{option_copied};
ghost use Rattle.weather_window.specs.Changes.{part_count};
ghost use Rattle.weather_window.specs.Running as spec;
ghost use Rattle.weather_window.specs.Values.{ceiling as ceiling_element, visibility, is_normal, is_within, forecast_values, report_values};
ghost use Rattle.weather_window.specs.Window.{least_of, value_at, cond_at, worst_value, worst_cond};

use crate::changes::next_change;
use crate::parts::parts_at;
use crate::steps::Steps;
use codes::{Cond, lesser};
use desk_time::{Minute, SHOWN_LAST};
use std::marker::Brand;
use std::sync::ledger::{Blank, Ledger};
use weather_reports::{Metar, Taf, TafState};

fn is_normal(state: TafState) -> bool
    ensures { result ≡ is_normal state }
{
    match state {
        TafState::Normal => true,
        TafState::Nil | TafState::Cancelled => false,
    }
}

fn is_held(observed: Minute, hold: u32, minute: Minute) -> bool
    ensures { result ≡ is_within observed (observed + hold) minute }
{
    observed <= minute && minute - observed <= u64::from(hold)
}

#[tactic(auto, using(crate::proofs::PartsLaws::least_at_law))]
fn forecast_at(taf: Option<&Taf>, minute: Minute) -> Cond
    ensures ceiling { result.ceiling ≡ least_of (forecast_values ceiling_element minute (option_copied taf.entry)) }
    ensures vis { result.vis ≡ least_of (forecast_values visibility minute (option_copied taf.entry)) }
{
    match taf {
        Some(taf) if is_normal(taf.state) && taf.from <= minute && minute <= taf.to => parts_at(
            taf.parts.as_slice(),
            minute,
        ),
        _ => Cond::UNKNOWN,
    }
}

fn report_at(metar: Option<&Metar>, hold: u32, minute: Minute) -> Cond
    ensures ceiling { result.ceiling ≡ least_of (report_values ceiling_element hold minute
        (option_copied metar.entry)) }
    ensures vis { result.vis ≡ least_of (report_values visibility hold minute (option_copied metar.entry)) }
{
    match metar {
        Some(metar) if !metar.nil && is_held(metar.observed, hold, minute) => metar.cond,
        _ => Cond::UNKNOWN,
    }
}

#[tactic(auto, using(crate::proofs::WindowLaws::value_at_law))]
fn both_at(taf: Option<&Taf>, metar: Option<&Metar>, hold: u32, minute: Minute) -> Cond
    ensures ceiling { result.ceiling ≡ value_at ceiling_element (option_copied taf.entry)
        (option_copied metar.entry) hold minute }
    ensures vis { result.vis ≡ value_at visibility (option_copied taf.entry) (option_copied metar.entry) hold minute }
{
    let forecast = forecast_at(taf, minute);
    let report = report_at(metar, hold, minute);
    Cond {
        ceiling: lesser(forecast.ceiling, report.ceiling),
        vis: lesser(forecast.vis, report.vis),
    }
}

/// Returns the controlling weather at a moment: the least ceiling and the least visibility of the forecast and the
/// report. An element is unknown if neither gives it. Allocates nothing.
///
/// Within the forecast's validity, the last part that has replaced all earlier ones counts, and so do the parts after
/// it. A finished change replaces the values that it gives. Changes in progress and temporary parts count in
/// addition. A report counts from its observation on for `hold` minutes.
#[tactic(auto, unfolding(crate::specs::Window::cond_at))]
pub fn at(taf: Option<&Taf>, metar: Option<&Metar>, hold: u32, minute: Minute) -> Cond
    ensures { result ≡ cond_at (option_copied taf.entry) (option_copied metar.entry) hold minute }
{
    both_at(taf, metar, hold, minute)
}

fn worse(a: Option<u32>, b: Option<u32>) -> Option<u32>
    ensures { result ≡ spec.worse a b }
{
    match (a, b) {
        (Some(x), Some(y)) => Some(x.min(y)),
        _ => None,
    }
}

// Calls `at`, and counts one step.
#[tactic(auto, unfolding(crate::specs::Window::cond_at))]
fn counted_at<L: Ledger>(
    taf: Option<&Taf>,
    metar: Option<&Metar>,
    hold: u32,
    minute: Minute,
    steps: &mut Steps<L>,
) -> Cond
    ensures ceiling { result.ceiling ≡ value_at ceiling_element (option_copied taf.entry)
        (option_copied metar.entry) hold minute }
    ensures vis { result.vis ≡ value_at visibility (option_copied taf.entry) (option_copied metar.entry) hold minute }
    ensures step { steps.new ≡ steps.old + 1 }
{
    steps.tick();
    at(taf, metar, hold, minute)
}

fn worst_over<L: Ledger>(
    taf: Option<&Taf>,
    metar: Option<&Metar>,
    hold: u32,
    from: Minute,
    to: Minute,
    steps: &mut Steps<L>,
) -> Cond
    requires order { from ≤ to }
    requires moments { to ≤ SHOWN_LAST }
    ensures ceiling { result.ceiling ≡ worst_value ceiling_element (option_copied taf.entry)
        (option_copied metar.entry) hold from to }
    ensures vis { result.vis ≡ worst_value visibility (option_copied taf.entry)
        (option_copied metar.entry) hold from to }
    ensures some { steps.old < steps.new }
    ensures few { steps.new ≤ steps.old + (3 * part_count (option_copied taf.entry) + 5) }
{
    let mut worst = counted_at(taf, metar, hold, from, steps);
    let mut seen = from;
    while let Some(next) = next_change(taf, metar, hold, seen, to) {
        let there = counted_at(taf, metar, hold, next, steps);
        worst = Cond {
            ceiling: worse(worst.ceiling, there.ceiling),
            vis: worse(worst.vis, there.vis),
        };
        seen = next;
    }
    worst
}

/// Returns the worst of `at` over every minute from `from` to `to`, for each element separately. An element is
/// unknown if any minute is unknown, and otherwise has its least value. Allocates nothing.
///
/// This calls `at` for the first minute and for each later one at which the result can change. Each call is one step.
/// There are at most three steps for each part of the forecast, and five more.
#[tactic(auto, unfolding(crate::specs::Window::worst_cond))]
pub fn worst_counted<L: Ledger>(
    taf: Option<&Taf>,
    metar: Option<&Metar>,
    hold: u32,
    from: Minute,
    to: Minute,
    steps: &mut Steps<L>,
) -> Cond
    requires hold { hold ≤ 1440 }
    requires moments { to ≤ SHOWN_LAST }
    requires order { from ≤ to }
    requires span { to - from ≤ 1440 }
    ensures worst { result ≡ worst_cond (option_copied taf.entry) (option_copied metar.entry) hold from to }
    ensures some { steps.old < steps.new }
    ensures few { steps.new ≤ steps.old + (3 * part_count (option_copied taf.entry) + 5) }
{
    worst_over(taf, metar, hold, from, to, steps)
}

fn worst_uncounted<L: Ledger>(
    taf: Option<&Taf>,
    metar: Option<&Metar>,
    hold: u32,
    from: Minute,
    to: Minute,
    blank: Blank,
) -> Cond
    requires hold { hold ≤ 1440 }
    requires moments { to ≤ SHOWN_LAST }
    requires order { from ≤ to }
    requires span { to - from ≤ 1440 }
    requires name { blank.name ≡ L.name }
    requires parts { blank.parts ≡ L.parts }
    requires one { blank.parts ≡ 1 }
    ensures { result ≡ worst_cond (option_copied taf.entry) (option_copied metar.entry) hold from to }
{
    let mut steps = Steps::<L>::new(blank);
    worst_counted(taf, metar, hold, from, to, &mut steps)
}

/// Returns what `worst_counted` returns, without counting steps. Allocates nothing.
pub fn worst(taf: Option<&Taf>, metar: Option<&Metar>, hold: u32, from: Minute, to: Minute) -> Cond
    requires hold { hold ≤ 1440 }
    requires moments { to ≤ SHOWN_LAST }
    requires order { from ≤ to }
    requires span { to - from ≤ 1440 }
    ensures { result ≡ worst_cond (option_copied taf.entry) (option_copied metar.entry) hold from to }
{
    worst_uncounted::<Brand>(taf, metar, hold, from, to, Blank::new(1))
}

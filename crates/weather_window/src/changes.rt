ghost use Rattle.std.specs.Prelude.{◌≡◌, ◌≤◌, ◌+◌, drop};
ghost use Rattle.std.specs.Option.{option_copied};
ghost use Rattle.weather_window.specs.Changes.{part_changes, forecast_changes, report_changes, next_change};
ghost use Rattle.weather_window.specs.Running.{sooner, soonest};

use desk_time::{Minute, SHOWN_LAST};
use weather_reports::{Metar, Part, Taf};

// The moments after `after`, up to and including `to`.
#[derive(Clone, Copy)]
struct Stretch {
    after: Minute,
    to: Minute,
}

fn or_at(found: Option<Minute>, moment: Minute, stretch: Stretch) -> Option<Minute>
    ensures { result ≡ sooner stretch.after stretch.to found moment }
{
    match found {
        _ if moment <= stretch.after || stretch.to < moment => found,
        Some(sooner) => Some(sooner.min(moment)),
        None => Some(moment),
    }
}

fn or_past(found: Option<Minute>, last: Minute, stretch: Stretch) -> Option<Minute>
    requires { stretch.to ≤ SHOWN_LAST }
    ensures { result ≡ sooner stretch.after stretch.to found (last + 1) }
{
    if last < stretch.to {
        or_at(found, last + 1, stretch)
    } else {
        found
    }
}

fn with_parts(found: Option<Minute>, parts: &[Part], stretch: Stretch) -> Option<Minute>
    requires { stretch.to ≤ SHOWN_LAST }
    ensures { result ≡ soonest stretch.after stretch.to found (part_changes parts.now) }
{
    let mut soonest = found;
    for part in parts {
        soonest = or_at(soonest, part.from, stretch);
        soonest = or_at(soonest, part.to, stretch);
        soonest = or_past(soonest, part.to, stretch);
    }
    soonest
}

fn with_forecast(found: Option<Minute>, taf: Option<&Taf>, stretch: Stretch) -> Option<Minute>
    requires { stretch.to ≤ SHOWN_LAST }
    ensures { result ≡ soonest stretch.after stretch.to found (forecast_changes (option_copied taf.entry)) }
{
    let Some(taf) = taf else {
        return found;
    };
    let begun = or_at(found, taf.from, stretch);
    let over = or_past(begun, taf.to, stretch);
    with_parts(over, taf.parts.as_slice(), stretch)
}

fn report_change(metar: Option<&Metar>, hold: u32, stretch: Stretch) -> Option<Minute>
    requires { stretch.to ≤ SHOWN_LAST }
    ensures { result ≡ soonest stretch.after stretch.to None (report_changes hold (option_copied metar.entry)) }
{
    let metar = metar?;
    let made = or_at(None, metar.observed, stretch);
    or_past(
        made,
        metar.observed.saturating_add(u64::from(hold)),
        stretch,
    )
}

/// Finds the first moment after `after`, up to and including `to`, at which the controlling weather can change.
#[tactic(auto, using(crate::proofs::ChangeLaws::next_change_law))]
pub(crate) fn next_change(
    taf: Option<&Taf>,
    metar: Option<&Metar>,
    hold: u32,
    after: Minute,
    to: Minute,
) -> Option<Minute>
    requires { to ≤ SHOWN_LAST }
    ensures { result ≡ next_change (option_copied taf.entry) (option_copied metar.entry) hold after to }
{
    let stretch = Stretch { after, to };
    with_forecast(report_change(metar, hold, stretch), taf, stretch)
}

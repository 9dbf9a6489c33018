ghost use Rattle.std.specs.Prelude.{◌≡◌};
ghost use Rattle.desk_state.specs.Events as events;
ghost use Rattle.desk_state.specs.Step as step;
ghost use Rattle.records.specs.Lent.{lent};
ghost use Rattle.row_changes.specs.Rows as spec;
ghost use Rattle.row_changes.specs.Shown.{IsSmall, IsSmallReport, IsSmallDeferral, IsSmallRelease, AreSmall};

use asks::Floors;
use desk_state::{Content, Counters, Effect, Entry, OnDeferrals, Sweep, What};
use desk_time::Minute;
use facts::Report;
use records::{MetaRef, Record, RecordRef};
use release_index::OnReleases;

fn moment_after(to: Option<Minute>, moment: Minute) -> Minute
    ensures { result ≡ events.moment_after to moment }
{
    match to {
        Some(to) => to,
        None => moment,
    }
}

fn next_report(report: &Option<Report>, next: u64) -> u64
    requires { IsSmallReport report.now }
    ensures { result ≡ events.next_report report.now next }
{
    match report {
        Some(report) => report.id + 1,
        None => next,
    }
}

fn next_deferral(on: &OnDeferrals, next: u64) -> u64
    requires { IsSmallDeferral on.now }
    ensures { result ≡ events.next_deferral on.now next }
{
    match on {
        OnDeferrals::Open(deferral) => deferral.id + 1,
        OnDeferrals::Nothing | OnDeferrals::Clear { .. } => next,
    }
}

fn next_release(on: &OnReleases, next: u64) -> u64
    requires { IsSmallRelease on.now }
    ensures { result ≡ events.next_release on.now next }
{
    match on {
        OnReleases::File(release) => release.id + 1,
        OnReleases::Nothing | OnReleases::Put(_) | OnReleases::Remove { .. } => next,
    }
}

fn next_kept(what: &What, next: u64) -> u64
    requires { IsSmall next }
    ensures { result ≡ step.next_kept what.now next }
{
    match what {
        What::Tick { .. } => next,
        What::Asked { .. } => next + 1,
    }
}

fn floors_after<'a>(sweep: &'a Option<Sweep>, floors: &'a Floors) -> &'a Floors
    ensures { result.now ≡ events.floors_after sweep.now floors.now }
{
    match sweep {
        Some(sweep) => &sweep.floors,
        None => floors,
    }
}

fn counters_after(counters: Counters, effect: &Effect, entered: &Entry) -> Counters
    requires { AreSmall counters effect.now }
    ensures { result ≡ step.counted entered.now.what (events.counters_after effect.now counters) }
{
    Counters {
        events: counters.events + 1,
        next_report: next_report(&effect.report, counters.next_report),
        next_deferral: next_deferral(&effect.on_deferrals, counters.next_deferral),
        next_release: next_release(&effect.on_releases, counters.next_release),
        next_kept: next_kept(&entered.what, counters.next_kept),
    }
}

/// Returns the moment, the counters and the floors after an event.
pub(crate) fn meta_after<'a>(
    content: &'a Content,
    effect: &'a Effect,
    entered: &Entry,
) -> RecordRef<'a>
    requires { AreSmall content.now.state.counters effect.now }
    ensures { lent result ≡ Record.Meta (spec.meta_of (step.entered entered.now
        (events.effected effect.now content.now.state))) }
{
    RecordRef::Meta(MetaRef {
        moment: moment_after(effect.moment, content.moment()),
        counters: counters_after(content.counters(), effect, entered),
        floors: floors_after(&effect.sweep, content.replies().listed_floors()),
    })
}

ghost use Rattle.std.specs.Prelude.{◌≡◌, ◌≤◌, ◌++◌, Some, IsTrue, IfSome, length, option_to_list};
ghost use Rattle.std.specs.List.{AllByRecursion};
ghost use Rattle.asks.specs.Forms.{FloorsRise};
ghost use Rattle.release_index.specs.Releases.{changed};
ghost use Rattle.desk_state.specs.Contents.{state_of};
ghost use Rattle.desk_state.specs.Events as events;
ghost use Rattle.desk_state.specs.Events.{effected};
ghost use Rattle.desk_state.specs.Install.{HasOneMore, HasReportRoom, HasRoom, IsLatest, IsNextReply, IsOwn, IsSmall, IsSmallRelease, MayAdmit, MayBeMade, MayDefer, room_for_event, with_event};
ghost use Rattle.desk_state.specs.Sound.{InBounds};
ghost use Rattle.desk_state.specs.Step.{counted};

use crate::counters::Counters;
use crate::effect::{Effect, OnDeferrals, Sweep};
use crate::entry::{Entry, What};
use crate::event::Event;
use crate::held_alerts::put_changes;
use crate::holdings::Holdings;
use asks::KeptReply;
use deferrals::Deferrals;
use facts::{Report, Reports};
use kept_replies::Replies;
use release_index::{OnReleases, Releases};

fn admit(reports: &mut Reports, next: &mut u64, report: Option<Report>)
    requires room { HasReportRoom reports.old report }
    requires may { IfSome report (MayAdmit reports.old.reports) }
    ensures reports { reports.new.reports ≡ events.reports_after report reports.old.reports }
    ensures next { next.new ≡ events.next_report report next.old }
{
    if let Some(report) = report {
        *next = report.id + 1;
        reports.admit(report);
    }
}

fn change_deferrals(deferrals: &mut Deferrals, next: &mut u64, on: OnDeferrals)
    requires room { HasOneMore deferrals.old on }
    requires may { MayDefer deferrals.old.list on }
    ensures deferrals { deferrals.new.list ≡ events.deferrals_after on deferrals.old.list }
    ensures next { next.new ≡ events.next_deferral on next.old }
{
    match on {
        OnDeferrals::Nothing => {}
        OnDeferrals::Open(deferral) => {
            *next = deferral.id + 1;
            deferrals.add(deferral);
        }
        OnDeferrals::Clear { deferral } => {
            let _ = deferrals.clear(deferral);
        }
    }
}

fn next_release(on: &OnReleases, next: u64) -> u64
    requires { IsSmallRelease on.now }
    ensures { result ≡ events.next_release on.now next }
{
    match on {
        OnReleases::File(release) => release.id + 1,
        OnReleases::Nothing | OnReleases::Put(_) | OnReleases::Remove { .. } => next,
    }
}

fn change_releases(releases: &mut Releases, next: &mut u64, on: OnReleases)
    requires room { releases.old.room ≡ Some on }
    requires may { IsSmallRelease on }
    ensures releases { releases.new ≡ changed on releases.old }
    ensures next { next.new ≡ events.next_release on next.old }
{
    *next = next_release(&on, *next);
    releases.change(on);
}

fn sweep(reports: &mut Reports, replies: &mut Replies, sweep: Option<Sweep>)
    requires { IfSome sweep (λ w. FloorsRise w.floors) }
    ensures reports { reports.new.reports ≡ events.reports_swept sweep reports.old.reports }
    ensures kept { replies.new.list ≡ events.kept_after sweep replies.old.list }
    ensures floors { replies.new.floors ≡ events.floors_after sweep replies.old.floors }
    ensures room { replies.new.room ≡ replies.old.room }
{
    if let Some(sweep) = sweep {
        let Sweep {
            before,
            attached,
            floors,
        } = sweep;
        let _ = reports.sweep(before, attached.as_slice());
        replies.sweep(before, floors);
    }
}

// Applies the effect to every part except the alerts.
fn change(holdings: &mut Holdings, effect: Effect)
    requires report { HasReportRoom holdings.old.reports effect.report }
    requires deferral { HasOneMore holdings.old.deferrals effect.on_deferrals }
    requires release { holdings.old.releases.room ≡ Some effect.on_releases }
    requires may { MayBeMade (state_of holdings.old) effect }
    ensures state { state_of holdings.new ≡ record (effected effect (state_of holdings.old))
        { alerts = holdings.old.alerts.list } }
    ensures settings { holdings.new.releases.settings ≡ holdings.old.releases.settings }
    ensures alerts { holdings.new.alerts ≡ holdings.old.alerts }
    ensures history { holdings.new.history ≡ holdings.old.history }
    ensures room { holdings.new.replies.room ≡ holdings.old.replies.room }
    ensures events { holdings.new.counters.events ≡ holdings.old.counters.events }
    ensures accepted { holdings.new.counters.next_kept ≡ holdings.old.counters.next_kept }
{
    let counters = &mut holdings.counters;
    if let Some(to) = effect.moment {
        holdings.moment = to;
    }
    admit(
        &mut holdings.reports,
        &mut counters.next_report,
        effect.report,
    );
    change_deferrals(
        &mut holdings.deferrals,
        &mut counters.next_deferral,
        effect.on_deferrals,
    );
    change_releases(
        &mut holdings.releases,
        &mut counters.next_release,
        effect.on_releases,
    );
    sweep(&mut holdings.reports, &mut holdings.replies, effect.sweep);
}

fn count(counters: &mut Counters, entered: &Entry)
    requires events { IsSmall counters.old.events }
    requires accepted { IsSmall counters.old.next_kept }
    ensures { counters.new ≡ counted entered.now.what counters.old }
{
    counters.events += 1;
    if let What::Asked { .. } = entered.what {
        counters.next_kept += 1;
    }
}

// Keeps the reply to an accepted command.
fn keep(replies: &mut Replies, kept: Option<KeptReply>)
    requires room { IsTrue replies.old.room }
    requires newest { IfSome kept (λ k. IsLatest k replies.old.list) }
    ensures list { replies.new.list ≡ replies.old.list ++ option_to_list kept }
    ensures floors { replies.new.floors ≡ replies.old.floors }
{
    if let Some(kept) = kept {
        replies.push_reserved(kept);
    }
}

/// Installs an event, using reserved room. Allocates no memory.
#[tactic(auto, using(crate::proofs::InstallLaws::small_events, crate::proofs::InstallLaws::small_accepted))]
pub(crate) fn install(holdings: &mut Holdings, event: Event)
    requires room { HasRoom holdings.old (room_for_event event) }
    requires bounds { InBounds (state_of holdings.old) }
    requires own { AllByRecursion IsOwn event.changes.items }
    requires kept { IfSome event.kept (IsNextReply (state_of holdings.old)) }
    ensures state { state_of holdings.new ≡ with_event event (state_of holdings.old) }
    ensures settings { holdings.new.releases.settings ≡ holdings.old.releases.settings }
    ensures listed { holdings.new.history.listed ≡ holdings.old.history.listed }
{
    let Event {
        effect,
        changes,
        entered,
        kept,
    } = event;
    change(holdings, effect);
    count(&mut holdings.counters, &entered);
    put_changes(&mut holdings.alerts, changes);
    keep(&mut holdings.replies, kept);
    holdings.history.push_reserved(entered);
}

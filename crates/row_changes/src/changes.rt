ghost use Rattle.std.specs.Prelude.{◌≡◌, ◌++◌, ◌∷◌, All, IfOk, OnOk, map};
ghost use Rattle.std.specs.Option.{option_copied};
ghost use Rattle.desk_io.specs.declared.rows.Change.TheVariants as change;
ghost use Rattle.facts.specs.Swept.{leaving};
ghost use Rattle.desk_state.specs.Events.{effected, alert_changes, moment_after};
ghost use Rattle.desk_state.specs.Requests.{kept_before};
ghost use Rattle.desk_state.specs.Sound.{EffectFits, AreApart};
ghost use Rattle.desk_state.specs.Step as step;
ghost use Rattle.desk_state.specs.Step.{kept_of};
ghost use Rattle.desk_time.specs.Limits.{IsMoment};
ghost use Rattle.release_json.specs.Rows.{ReleaseHasMoments};
ghost use Rattle.row_changes.specs.Changes as spec;
ghost use Rattle.row_changes.specs.Rows.{meta_of};
ghost use Rattle.row_changes.specs.Shown.{AreSmall, WasReceived, WasFound, IsShownRelease, WasAccepted, WasOpened, AreShown};

use crate::held::{alert_lent, put_row, report_lent};
use crate::meta::meta_after;
use alerts::Alert;
use asks::KeptReply;
use desk_io::{Change, OutOfMemory};
use desk_state::{AlertChange, Content, Effect, Entry, OnDeferrals, Sweep};
use desk_time::Minute;
use facts::{Report, Reports};
use plan::Release;
use records::{Record, RecordRef};
use release_index::OnReleases;
use std::alloc::Global;

// The kinds of rows that may be removed.
const REPORT: u8 = 1;

const DEFERRAL: u8 = 2;

const RELEASE: u8 = 3;

const KEPT: u8 = 4;

const ALERT: u8 = 5;

fn push_removals(changes: &mut Vec<Change>, kind: u8, keys: &[u64]) -> Result<(), OutOfMemory>
    ensures { OnOk result (changes.new.items ≡ changes.old.items ++ map (λ key. change.Remove kind key) keys.now) }
{
    for key in keys {
        changes.push(Change::Remove { kind, key: *key })?;
    }
    Ok(())
}

fn push_report(
    alloc: Global,
    changes: &mut Vec<Change>,
    report: &Option<Report>,
) -> Result<(), OutOfMemory>
    requires { WasReceived report.now }
    ensures { OnOk result (changes.new.items ≡ changes.old.items ++ spec.report_changes report.now) }
{
    if let Some(report) = report {
        changes.push(put_row(alloc, &report_lent(report))?)?;
    }
    Ok(())
}

fn push_leaving(
    alloc: Global,
    changes: &mut Vec<Change>,
    sweep: &Sweep,
    reports: &Reports,
) -> Result<(), OutOfMemory>
    ensures { OnOk result (changes.new.items ≡ changes.old.items ++ map (λ r. change.Remove 1 r.id)
        (leaving sweep.now.before sweep.now.attached reports.now.reports)) }
{
    let ids = reports.leaving(alloc, sweep.before, sweep.attached.as_slice())?;
    push_removals(changes, REPORT, ids.as_slice())
}

fn push_swept_reports(
    alloc: Global,
    changes: &mut Vec<Change>,
    sweep: &Option<Sweep>,
    reports: &Reports,
) -> Result<(), OutOfMemory>
    ensures { OnOk result (changes.new.items ≡ changes.old.items ++ spec.swept_reports sweep.now reports.now.reports) }
{
    match sweep {
        Some(sweep) => push_leaving(alloc, changes, sweep, reports),
        None => Ok(()),
    }
}

#[tactic(auto, using(crate::proofs::Pushed::reports_pushed))]
fn push_reports(
    alloc: Global,
    changes: &mut Vec<Change>,
    content: &Content,
    effect: &Effect,
) -> Result<(), OutOfMemory>
    requires received { WasReceived effect.now.report }
    requires apart { AreApart effect.now.report effect.now.sweep }
    ensures { OnOk result (changes.new.items ≡ changes.old.items ++ spec.on_reports content.now.state effect.now) }
{
    push_report(alloc, changes, &effect.report)?;
    push_swept_reports(alloc, changes, &effect.sweep, content.reports())
}

fn push_deferral(
    alloc: Global,
    changes: &mut Vec<Change>,
    on: &OnDeferrals,
) -> Result<(), OutOfMemory>
    requires { WasFound on.now }
    ensures { OnOk result (changes.new.items ≡ changes.old.items ++ spec.deferral_changes on.now) }
{
    match on {
        OnDeferrals::Nothing => {}
        OnDeferrals::Open(deferral) => {
            changes.push(put_row(alloc, &RecordRef::Deferral(deferral))?)?;
        }
        OnDeferrals::Clear { deferral } => changes.push(Change::Remove {
            kind: DEFERRAL,
            key: *deferral,
        })?,
    }
    Ok(())
}

fn put_release(alloc: Global, release: &Release) -> Result<Change, OutOfMemory>
    requires { ReleaseHasMoments release.now }
    ensures { IfOk result (λ c. c ≡ spec.put_row (Record.Release release.now)) }
{
    put_row(alloc, &RecordRef::Release(release))
}

fn push_release(
    alloc: Global,
    changes: &mut Vec<Change>,
    on: &OnReleases,
) -> Result<(), OutOfMemory>
    requires { IsShownRelease on.now }
    ensures { OnOk result (changes.new.items ≡ changes.old.items ++ spec.release_changes on.now) }
{
    match on {
        OnReleases::Nothing => {}
        OnReleases::File(release) | OnReleases::Put(release) => {
            changes.push(put_release(alloc, release)?)?;
        }
        OnReleases::Remove { release } => changes.push(Change::Remove {
            kind: RELEASE,
            key: *release,
        })?,
    }
    Ok(())
}

fn push_kept_before(
    changes: &mut Vec<Change>,
    before: Minute,
    kept: &[KeptReply],
) -> Result<(), OutOfMemory>
    ensures { OnOk result (changes.new.items ≡ changes.old.items ++ map (λ k. change.Remove 4 k.id)
        (kept_before before kept.now)) }
{
    for reply in kept {
        if reply.at < before {
            changes.push(Change::Remove {
                kind: KEPT,
                key: reply.id,
            })?;
        }
    }
    Ok(())
}

fn push_swept_replies(
    changes: &mut Vec<Change>,
    sweep: &Option<Sweep>,
    kept: &[KeptReply],
) -> Result<(), OutOfMemory>
    ensures { OnOk result (changes.new.items ≡ changes.old.items ++ spec.swept_replies sweep.now kept.now) }
{
    match sweep {
        Some(sweep) => push_kept_before(changes, sweep.before, kept),
        None => Ok(()),
    }
}

fn push_reply(
    alloc: Global,
    changes: &mut Vec<Change>,
    kept: Option<&KeptReply>,
) -> Result<(), OutOfMemory>
    requires { WasAccepted (option_copied kept) }
    ensures { OnOk result (changes.new.items ≡ changes.old.items ++ spec.reply_changes (option_copied kept.entry)) }
{
    if let Some(kept) = kept {
        changes.push(put_row(alloc, &RecordRef::Kept(kept))?)?;
    }
    Ok(())
}

#[tactic(auto, using(crate::proofs::Pushed::two_pushed))]
fn push_replies(
    alloc: Global,
    changes: &mut Vec<Change>,
    content: &Content,
    effect: &Effect,
    kept: Option<&KeptReply>,
) -> Result<(), OutOfMemory>
    requires { WasAccepted (option_copied kept) }
    ensures { OnOk result (changes.new.items ≡ changes.old.items ++ spec.on_replies content.now.state effect.now
        (option_copied kept.entry)) }
{
    push_swept_replies(changes, &effect.sweep, content.replies().as_slice())?;
    push_reply(alloc, changes, kept)
}

fn alert_change(alloc: Global, release: u64, alert: &Option<Alert>) -> Result<Change, OutOfMemory>
    requires { WasOpened alert.now }
    ensures { IfOk result (λ c. c ≡ spec.alert_row release alert.now) }
{
    match alert {
        Some(alert) => put_row(alloc, &alert_lent(alert)),
        None => Ok(Change::Remove {
            kind: ALERT,
            key: release,
        }),
    }
}

/// Appends the changes to the rows of alerts that change.
pub(crate) fn push_alerts(
    alloc: Global,
    changes: &mut Vec<Change>,
    alerts: &[AlertChange],
) -> Result<(), OutOfMemory>
    requires { All (λ c. WasOpened c.after) alerts.now }
    ensures { OnOk result (changes.new.items ≡ changes.old.items ++ spec.alert_rows alerts.now) }
{
    for alert in alerts {
        changes.push(alert_change(alloc, alert.release, &alert.after)?)?;
    }
    Ok(())
}

fn put_meta(
    alloc: Global,
    content: &Content,
    effect: &Effect,
    entered: &Entry,
) -> Result<Change, OutOfMemory>
    requires moment { IsMoment (moment_after effect.now.moment content.now.state.moment) }
    requires small { AreSmall content.now.state.counters effect.now }
    ensures { IfOk result (λ c. c ≡ spec.put_row (Record.Meta (meta_of
        (step.entered entered.now (effected effect.now content.now.state))))) }
{
    put_row(alloc, &meta_after(content, effect, entered))
}

#[tactic(auto, using(crate::proofs::Pushed::five_pushed))]
fn push_parts(
    alloc: Global,
    changes: &mut Vec<Change>,
    content: &Content,
    effect: &Effect,
    kept: Option<&KeptReply>,
    alerts: &[AlertChange],
) -> Result<(), OutOfMemory>
    requires { AreShown content.now.state effect.now (option_copied kept) alerts.now }
    ensures { OnOk result (changes.new.items ≡ changes.old.items ++ spec.part_changes
        content.now.state effect.now (option_copied kept.entry) alerts.now) }
{
    push_reports(alloc, changes, content, effect)?;
    push_deferral(alloc, changes, &effect.on_deferrals)?;
    push_release(alloc, changes, &effect.on_releases)?;
    push_replies(alloc, changes, content, effect, kept)?;
    push_alerts(alloc, changes, alerts)
}

fn shown_changes(
    alloc: Global,
    content: &Content,
    effect: &Effect,
    entered: &Entry,
    kept: Option<&KeptReply>,
    alerts: &[AlertChange],
) -> Result<Vec<Change>, OutOfMemory>
    requires { AreShown content.now.state effect.now (option_copied kept) alerts.now }
    ensures { IfOk result (λ changes. changes.items ≡ spec.put_row
        (Record.Meta (meta_of (step.entered entered.now (effected effect.now content.now.state)))) ∷
        spec.part_changes content.now.state effect.now (option_copied kept.entry) alerts.now) }
{
    let mut changes = Vec::new(alloc);
    changes.push(put_meta(alloc, content, effect, entered)?)?;
    push_parts(alloc, &mut changes, content, effect, kept, alerts)?;
    Ok(changes)
}

/// Returns the changes that an event makes to the rows, before the desk installs it. The caller gives the reply to
/// keep and the alerts that change.
#[tactic(auto, unfolding(crate::specs::Changes::event_changes))]
pub fn event_changes(
    alloc: Global,
    content: &Content,
    effect: &Effect,
    entered: &Entry,
    kept: Option<&KeptReply>,
    alerts: &[AlertChange],
) -> Result<Vec<Change>, OutOfMemory>
    requires fits { EffectFits content.now.state effect.now }
    requires kept { option_copied kept ≡ kept_of (effected effect.now content.now.state) entered.now.what }
    requires alerts { alerts.now ≡ alert_changes effect.now content.now.state }
    ensures { IfOk result (λ changes. changes.items ≡ spec.event_changes
        content.now.state effect.now entered.now) }
{
    content.holds();
    shown_changes(alloc, content, effect, entered, kept, alerts)
}

ghost use Rattle.std.specs.Prelude.{◌≡◌, ◌++◌, ◌<◌, ◌≤◌, ◌+◌, option_to_list, IfOk, IfSome, OnOk};
ghost use Rattle.std.specs.Option.{option_copied};
ghost use Rattle.plan.specs.Check.{IsPlan};
ghost use Rattle.rules.specs.Grounds as grounds;
ghost use Rattle.rules.specs.Judgement.{findings_of};
ghost use Rattle.desk_state.specs.State as state;
ghost use Rattle.desk_state.specs.State.{release_at};
ghost use Rattle.desk_state.specs.Events as events;
ghost use Rattle.desk_state.specs.Events.{alert_changes};
ghost use Rattle.desk_state.specs.Counting.{count_touched};
ghost use Rattle.desk_state.specs.Sound.{Sound, ReleaseInBounds, EffectFits};
ghost use Rattle.alert_judging.specs.Prospect as spec;
ghost use Rattle.alert_judging.specs.Prospect.{prospect, IsBounded, AreOpenThen};

use crate::changes::push_change;
use alerts::{Alert, after};
use deferrals::Deferral;
use desk_io::{Copied, OutOfMemory};
use desk_state::{AlertChange, Alerted, Content, Effect, OnAlerts, OnDeferrals};
use desk_time::Minute;
use facts::Report;
use plan::{Findings, Phase, Plan, Release, is_active};
use release_index::OnReleases;
use rules::{Evidence, Steps, judge_by};
use std::alloc::Global;
use std::sync::ledger::Ledger;

/// The state to judge: what the board holds, after an effect.
#[derive(Clone, Copy)]
pub struct Prospect<'a> {
    /// What the board holds now.
    pub content: &'a Content,
    /// The effect to come.
    pub effect: &'a Effect,
}

impl<'a> Prospect<'a> {
    fn moment(&self) -> Minute
        ensures { result ≡ (prospect self.now).moment }
    {
        match self.effect.moment {
            Some(to) => to,
            None => self.content.moment(),
        }
    }

    // Returns the report to be admitted.
    #[tactic(auto, using(crate::proofs::Parts::reports_then))]
    fn fresh(&self) -> Option<&'a Report>
        ensures { events.reports_after self.now.effect.now.report self.now.content.now.state.reports
            ≡ self.now.content.now.state.reports ++ option_to_list (option_copied result) }
    {
        self.effect.report.as_ref()
    }

    // Returns the deferral to be opened.
    fn deferred(&self) -> Option<&'a Deferral>
        ensures { option_copied result ≡ spec.deferred_of self.now.effect.now.on_deferrals }
    {
        match &self.effect.on_deferrals {
            OnDeferrals::Open(deferral) => Some(deferral),
            OnDeferrals::Nothing | OnDeferrals::Clear { .. } => None,
        }
    }

    // Returns the id of the deferral to be cleared.
    fn cleared(&self) -> Option<u64>
        ensures { result ≡ spec.cleared_of self.now.effect.now.on_deferrals }
    {
        match &self.effect.on_deferrals {
            OnDeferrals::Clear { deferral } => Some(*deferral),
            OnDeferrals::Nothing | OnDeferrals::Open(_) => None,
        }
    }

    #[tactic(auto, using(crate::proofs::Parts::deferrals_then))]
    fn evidence(&self) -> Evidence<'a>
        ensures { grounds.grounds_of result ≡ spec.before_sweep self.now }
    {
        Evidence {
            held: self.content.reports(),
            fresh: self.fresh(),
            deferrals: self.content.deferrals(),
            deferred: self.deferred(),
            cleared: self.cleared(),
            tables: self.content.tables(),
            moment: self.moment(),
        }
    }

    // Returns the release with this id after the effect: the one that the effect brings, or else the stored one.
    fn found(&self, id: u64) -> Option<&'a Release>
        ensures { option_copied result ≡ spec.release_then self.now.effect.now.on_releases id
            (release_at id self.now.content.now.state.releases) }
    {
        match &self.effect.on_releases {
            OnReleases::File(release) | OnReleases::Put(release) if release.id == id => {
                Some(release)
            }
            OnReleases::Remove { release } if *release == id => None,
            _ => self.content.release(id),
        }
    }

    // Returns the release with this id after the effect.
    #[tactic(auto, using(crate::proofs::Then::then_is))]
    fn release(&self, id: u64) -> Option<&'a Release>
        requires { EffectFits self.now.content.now.state self.now.effect.now }
        ensures { option_copied result ≡ release_at id (prospect self.now).releases }
    {
        self.content.holds();
        self.found(id)
    }

    // Returns the rules that a plan fails after the effect.
    fn findings<L: Ledger>(
        &self,
        alloc: Global,
        plan: &Plan,
        phase: Phase,
        steps: &mut Steps<L>,
    ) -> Result<Findings, OutOfMemory>
        requires open { AreOpenThen self.now }
        requires plan { IsPlan plan.now }
        ensures value { IfOk result (λ f. f ≡ findings_of plan.now phase (state.grounds_of (prospect self.now))) }
        ensures steps { steps.new ≡ steps.old + 1 }
    {
        judge_by(alloc, plan, phase, self.evidence(), steps)
    }

    // Returns the rules that a release fails, if it is active.
    fn failing<L: Ledger>(
        &self,
        alloc: Global,
        release: &Release,
        steps: &mut Steps<L>,
    ) -> Result<Option<Findings>, OutOfMemory>
        requires release { ReleaseInBounds release.now }
        requires open { AreOpenThen self.now }
        ensures value { IfOk result (λ f. f ≡ state.failing_of (state.grounds_of (prospect self.now)) release.now) }
        ensures steps { steps.new ≤ steps.old + 1 }
    {
        match &release.active {
            Some(revision) if is_active(release.phase) => {
                let findings = self.findings(alloc, &revision.plan, release.phase, steps)?;
                Ok(Some(findings))
            }
            _ => Ok(None),
        }
    }

    // Returns the acknowledged alert of a release, if the effect acknowledges it.
    fn acknowledged(
        &self,
        alloc: Global,
        before: Option<&Alert>,
    ) -> Result<Option<Alert>, OutOfMemory>
        ensures { IfOk result (λ a. a ≡ spec.acknowledged_by self.now.effect.now.on_alerts
            (option_copied before.entry)) }
    {
        match (self.effect.on_alerts, before) {
            (OnAlerts::Acknowledge { release }, Some(alert)) if alert.release == release => {
                let mut alert = alert.copy(alloc)?;
                alert.acknowledged = true;
                Ok(Some(alert))
            }
            _ => Ok(None),
        }
    }

    // Returns the alert of a release, unless the effect removes it.
    fn left<'b>(&self, before: Option<&'b Alert>, id: u64) -> Option<&'b Alert>
        ensures { option_copied result ≡ spec.left_by self.now.effect.now.on_alerts id (option_copied before.entry) }
    {
        match self.effect.on_alerts {
            OnAlerts::Take { release } if id == release => None,
            _ => before,
        }
    }

    // Returns the alert of a release after the effect, before the judgement.
    #[tactic(auto, using(crate::proofs::Then::kept_seen, crate::proofs::Then::kept_left))]
    fn kept<'b>(
        &self,
        acknowledged: Option<&'b Alert>,
        before: Option<&'b Alert>,
        id: u64,
    ) -> Option<&'b Alert>
        requires { option_copied acknowledged ≡ spec.acknowledged_by self.now.effect.now.on_alerts
            (option_copied before) }
        ensures { option_copied result ≡ events.kept_alert self.now.effect.now.on_alerts id
            (option_copied before.entry) }
    {
        match acknowledged {
            Some(_) => acknowledged,
            None => self.left(before, id),
        }
    }

    fn judged<L: Ledger>(
        &self,
        alloc: Global,
        kept: Option<&Alert>,
        release: &Release,
        steps: &mut Steps<L>,
    ) -> Result<Option<Alert>, OutOfMemory>
        requires release { ReleaseInBounds release.now }
        requires open { AreOpenThen self.now }
        requires version { IfSome (option_copied kept) IsBounded }
        ensures value { IfOk result (λ a. a ≡ spec.judged_by self.now release.now (option_copied kept.entry)) }
        ensures steps { steps.new ≤ steps.old + 1 }
    {
        match self.failing(alloc, release, steps)? {
            None => Ok(None),
            Some(findings) => after(
                alloc,
                kept,
                release.id,
                &release.holder,
                &findings,
                self.moment(),
            ),
        }
    }

    #[tactic(auto, using(crate::proofs::Then::kept_bounded))]
    fn push_changes<L: Ledger>(
        &self,
        alloc: Global,
        out: &mut Vec<AlertChange>,
        before: Option<&'a Alert>,
        release: &Release,
        steps: &mut Steps<L>,
    ) -> Result<(), OutOfMemory>
        requires release { ReleaseInBounds release.now }
        requires open { AreOpenThen self.now }
        requires version { IfSome (option_copied before) IsBounded }
        ensures changes { OnOk result (out.new.items ≡ out.old.items ++ spec.changes_of self.now
            (option_copied before.entry) release.now) }
        ensures steps { steps.new ≤ steps.old + 1 }
    {
        let acknowledged = self.acknowledged(alloc, before)?;
        let kept = self.kept(acknowledged.as_ref(), before, release.id);
        let after = self.judged(alloc, kept, release, steps)?;
        push_change(alloc, out, release.id, before, kept)?;
        push_change(alloc, out, release.id, kept, after.as_ref())
    }

    // Appends the changes of the alert of the release with this id, if there is one.
    #[tactic(auto, using(crate::proofs::Then::open_then, crate::proofs::Then::alert_bounded, crate::proofs::Then::found_changes))]
    fn push_found<L: Ledger>(
        &self,
        alloc: Global,
        out: &mut Vec<AlertChange>,
        id: u64,
        steps: &mut Steps<L>,
    ) -> Result<(), OutOfMemory>
        requires { EffectFits self.now.content.now.state self.now.effect.now }
        ensures changes { OnOk result (out.new.items ≡ out.old.items ++ spec.changes_found self.now
            (release_at id (prospect self.now).releases)) }
        ensures steps { steps.new ≤ steps.old + spec.count_found (release_at id (prospect self.now).releases) }
    {
        self.content.holds();
        match self.release(id) {
            None => Ok(()),
            Some(release) => {
                let before = self.content.alert(release.id);
                self.push_changes(alloc, out, before, release, steps)
            }
        }
    }

    // Returns the changes of the alerts of the releases with these ids.
    fn changes_named<L: Ledger>(
        &self,
        alloc: Global,
        ids: &[u64],
        steps: &mut Steps<L>,
    ) -> Result<Vec<AlertChange>, OutOfMemory>
        requires { EffectFits self.now.content.now.state self.now.effect.now }
        ensures changes { IfOk result (λ v. v.items ≡ spec.changes_named self.now ids.now) }
        ensures steps { steps.new ≤ steps.old + spec.count_named self.now ids.now }
    {
        let mut out = Vec::new(alloc);
        for id in ids {
            self.push_found(alloc, &mut out, *id, steps)?;
        }
        Ok(out)
    }

    // Returns the changes of the alerts, which must be judged already. Judges only the releases that the effect
    // touches.
    fn changes<L: Ledger>(
        &self,
        alloc: Global,
        steps: &mut Steps<L>,
    ) -> Result<Vec<AlertChange>, OutOfMemory>
        requires sound { Sound self.now.content.now.state }
        requires fits { EffectFits self.now.content.now.state self.now.effect.now }
        ensures value { IfOk result (λ v. v.items ≡ alert_changes self.now.effect.now self.now.content.now.state) }
        ensures steps { steps.new ≤ steps.old + count_touched self.now.content.now.state self.now.effect.now }
    {
        self.content.holds();
        let ids = self.touched_ids(alloc)?;
        self.changes_named(alloc, &ids, steps)
    }

    /// Returns the changes of the alerts by the effect and by the judgement, in order of the releases. The alerts
    /// need not be judged yet, so it judges every active release.
    pub fn all_changes<L: Ledger>(
        &self,
        alloc: Global,
        steps: &mut Steps<L>,
    ) -> Result<Vec<AlertChange>, OutOfMemory>
        requires { EffectFits self.now.content.now.state self.now.effect.now }
        ensures { IfOk result (λ v. v.items ≡ alert_changes self.now.effect.now self.now.content.now.state) }
    {
        self.content.holds();
        let ids = self.all_ids(alloc)?;
        self.changes_named(alloc, &ids, steps)
    }
}

/// Returns the changes of the alerts by an effect and by the judgement after it, in order of the releases. Judges
/// only the releases that the effect touches, looked up by binary search. The findings of all others stay the same.
pub fn touched_changes<L: Ledger>(
    alloc: Global,
    held: &Alerted,
    effect: &Effect,
    steps: &mut Steps<L>,
) -> Result<Vec<AlertChange>, OutOfMemory>
    requires { EffectFits held.now.state effect.now }
    ensures value { IfOk result (λ v. v.items ≡ alert_changes effect.now held.now.state) }
    ensures steps { steps.new ≤ steps.old + count_touched held.now.state effect.now }
{
    let content = held.content();
    Prospect { content, effect }.changes(alloc, steps)
}

ghost use Rattle.std.specs.Prelude.{◌≡◌, ◌<◌, ◌≤◌, ◌^◌, ◌++◌, insert, length, IfOk, IfSome, OnOk, MatchOption};
ghost use Rattle.std.specs.Option.{option_copied};
ghost use Rattle.alerts.specs.Alerts as spec;
ghost use Rattle.alerts.specs.Follows.{Follows};

use desk_io::{Copied, HasId, OutOfMemory, Text};
use desk_time::Minute;
use plan::{Finding, Findings, is_before, is_same};
use std::alloc::Global;

/// The alert of a release. It opens at the first judgement at which a rule fails. It closes when a captain concurs
/// with another revision, when the release is cancelled, or when its last leg arrives.
#[derive(Debug, Drop)]
pub struct Alert {
    /// The number of the release.
    pub release: u64,
    /// The dispatcher who holds the release.
    pub desk: Text,
    /// The version, from 1. It increases by one whenever other rules fail than before.
    pub version: u64,
    /// The moment at which the alert was opened.
    pub opened: Minute,
    /// The findings of the last judgement.
    pub failing: Findings,
    /// All findings since the alert was opened.
    pub ever: Findings,
    /// Whether the dispatcher has acknowledged this version.
    pub acknowledged: bool,
}

impl HasId for Alert {
    ghost id_of = { λ a. a.release };

    // Each release has at most one alert.
    fn id(&self) -> u64 {
        self.release
    }
}

impl Copied for Alert {
    fn copy(&self, alloc: Global) -> Result<Alert, OutOfMemory> {
        Ok(Alert {
            release: self.release,
            desk: self.desk.copy(alloc)?,
            version: self.version,
            opened: self.opened,
            failing: self.failing.copy(alloc)?,
            ever: self.ever.copy(alloc)?,
            acknowledged: self.acknowledged,
        })
    }
}

fn are_same(one: &[Finding], two: &[Finding]) -> bool
    ensures { result ≡ spec.are_same one.now two.now }
{
    let mut left = two;
    for a in one {
        match left {
            [] => return false,
            [b, after @ ..] => {
                if !is_same(a, b) {
                    return false;
                }
                left = after;
            }
        }
    }
    left.is_empty()
}

// Returns the index at which to insert a finding into sorted findings, or None if it is already there.
fn place_of(findings: &[Finding], finding: &Finding) -> Option<usize>
    ensures place { MatchOption result (spec.with_finding finding.now findings.now ≡ findings.now)
        (λ i. spec.with_finding finding.now findings.now ≡ insert findings.now i finding.now) }
    ensures bound { IfSome result (λ i. i ≤ length findings.now) }
{
    for (i, other) in findings.iter().enumerate() {
        if is_before(finding, other) {
            return Some(i);
        }
        if is_same(finding, other) {
            return None;
        }
    }
    Some(findings.len())
}

fn with_findings(
    alloc: Global,
    ever: &Findings,
    findings: &[Finding],
) -> Result<Findings, OutOfMemory>
    ensures { IfOk result (λ f. f ≡ spec.with_findings ever.now findings.now) }
{
    let mut all = Vec::from_slice(alloc, ever.as_slice())?;
    for finding in findings {
        if let Some(place) = place_of(&all, finding) {
            all.insert(place, *finding)?;
        }
    }
    Ok(Findings::from_vec(all))
}

fn opened_alert(
    alloc: Global,
    release: u64,
    desk: &Text,
    findings: &Findings,
    moment: Minute,
) -> Result<Alert, OutOfMemory>
    ensures { IfOk result (λ a. a ≡ spec.opened_alert release desk.now findings.now moment) }
{
    Ok(Alert {
        release,
        desk: desk.copy(alloc)?,
        version: 1,
        opened: moment,
        failing: findings.copy(alloc)?,
        ever: findings.copy(alloc)?,
        acknowledged: false,
    })
}

fn changed_alert(alloc: Global, alert: &Alert, findings: &Findings) -> Result<Alert, OutOfMemory>
    requires { alert.now.version < 1_000_000_000_000_000 }
    ensures { IfOk result (λ a. a ≡ spec.changed_alert alert.now findings.now) }
{
    Ok(Alert {
        release: alert.release,
        desk: alert.desk.copy(alloc)?,
        version: alert.version + 1,
        opened: alert.opened,
        failing: findings.copy(alloc)?,
        ever: with_findings(alloc, &alert.ever, findings.as_slice())?,
        acknowledged: false,
    })
}

fn alert_once_open(alloc: Global, alert: &Alert, findings: &Findings) -> Result<Alert, OutOfMemory>
    requires { alert.now.version < 1_000_000_000_000_000 }
    ensures { IfOk result (λ a. a ≡ spec.alert_once_open (spec.are_same alert.now.failing findings.now) alert.now
        findings.now) }
{
    if are_same(alert.failing.as_slice(), findings.as_slice()) {
        alert.copy(alloc)
    } else {
        changed_alert(alloc, alert, findings)
    }
}

fn judged(
    alloc: Global,
    old: Option<&Alert>,
    release: u64,
    desk: &Text,
    findings: &Findings,
    moment: Minute,
) -> Result<Option<Alert>, OutOfMemory>
    requires { IfSome (option_copied old) (λ a. a.version < 1_000_000_000_000_000) }
    ensures { IfOk result (λ a. a ≡ spec.alert_after (option_copied old.entry) release desk.now findings.now moment) }
{
    match old {
        Some(alert) => Ok(Some(alert_once_open(alloc, alert, findings)?)),
        None => {
            if findings.as_slice().is_empty() {
                Ok(None)
            } else {
                Ok(Some(opened_alert(alloc, release, desk, findings, moment)?))
            }
        }
    }
}

/// Returns the alert of a release after a judgement. It is None exactly if no alert was open and no rule fails. A new
/// alert has version 1, this moment and the findings. An open alert stays unchanged if the same rules fail. Otherwise
/// its version increases by one, the findings replace the failing ones and are added to `ever`, and it is no longer
/// acknowledged.
#[tactic(auto, using(crate::proofs::Laws::follows_is))]
pub fn after(
    alloc: Global,
    old: Option<&Alert>,
    release: u64,
    desk: &Text,
    findings: &Findings,
    moment: Minute,
) -> Result<Option<Alert>, OutOfMemory>
    requires { IfSome (option_copied old) (λ a. a.version < 1_000_000_000_000_000) }
    ensures value { IfOk result (λ a. a ≡ spec.alert_after (option_copied old.entry) release desk.now findings.now
        moment) }
    ensures follows { IfOk result (λ a. Follows (option_copied old.entry) release desk.now findings.now moment a) }
{
    judged(alloc, old, release, desk, findings, moment)
}

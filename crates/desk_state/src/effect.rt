ghost use Rattle.std.specs.Prelude.{◌≡◌};
ghost use Rattle.desk_state.specs.Effects as spec;

use asks::{Done, Floors, Reply};
use deferrals::Deferral;
use desk_io::Listed;
use desk_time::Minute;
use facts::Report;
use plan::Release;
use release_index::OnReleases;

/// What an event changes in the open deferrals.
#[derive(Debug, Drop)]
pub enum OnDeferrals {
    Nothing,
    /// Adds a deferral.
    Open(Deferral),
    /// Removes the deferral with this id.
    Clear { deferral: u64 },
}

/// What an event changes in the alerts, before the desk judges active releases.
#[derive(Clone, Copy, Debug, PartialEq, Eq)]
pub enum OnAlerts {
    Nothing,
    /// Removes the alert of a release.
    Take { release: u64 },
    /// Marks the alert of a release as acknowledged.
    Acknowledge { release: u64 },
}

/// What a sweep removes.
#[derive(Debug, Drop)]
pub struct Sweep {
    /// The cut-off. Reports observed or issued before it are removed, except the attached ones and the latest of each
    /// station and kind. Kept replies to requests accepted before it are removed too.
    pub before: Minute,
    /// The ids of the reports that stay because a release has them attached, in order.
    pub attached: Listed<u64>,
    /// The floors of persons after the sweep.
    pub floors: Floors,
}

/// What an event changes, part by part, before the desk judges active releases.
#[derive(Debug, Drop)]
pub struct Effect {
    /// The new moment of the desk.
    pub moment: Option<Minute>,
    /// The report to admit.
    pub report: Option<Report>,
    /// What a sweep removes.
    pub sweep: Option<Sweep>,
    pub on_deferrals: OnDeferrals,
    pub on_releases: OnReleases,
    pub on_alerts: OnAlerts,
}

impl Effect {
    /// An effect that changes nothing itself. The judgement after it may still change alerts.
    pub fn nothing() -> Effect
        ensures { result ≡ spec.nothing }
    {
        Effect {
            moment: None,
            report: None,
            sweep: None,
            on_deferrals: OnDeferrals::Nothing,
            on_releases: OnReleases::Nothing,
            on_alerts: OnAlerts::Nothing,
        }
    }

    /// Moves the desk's moment forward.
    pub fn tick(to: Minute) -> Effect
        ensures { result ≡ spec.tick to }
    {
        Effect {
            moment: Some(to),
            ..Effect::nothing()
        }
    }

    /// Admits a report.
    pub fn admit(report: Report) -> Effect
        ensures { result ≡ spec.admit report }
    {
        Effect {
            report: Some(report),
            ..Effect::nothing()
        }
    }

    /// Opens a deferral.
    pub fn defer(deferral: Deferral) -> Effect
        ensures { result ≡ spec.defer deferral }
    {
        Effect {
            on_deferrals: OnDeferrals::Open(deferral),
            ..Effect::nothing()
        }
    }

    /// Removes the deferral with this id.
    pub fn clear(deferral: u64) -> Effect
        ensures { result ≡ spec.clear deferral }
    {
        Effect {
            on_deferrals: OnDeferrals::Clear { deferral },
            ..Effect::nothing()
        }
    }

    /// Adds a release.
    pub fn file(release: Release) -> Effect
        ensures { result ≡ spec.file release }
    {
        Effect {
            on_releases: OnReleases::File(release),
            ..Effect::nothing()
        }
    }

    /// Replaces the release with the same id.
    pub fn put(release: Release) -> Effect
        ensures { result ≡ spec.put release }
    {
        Effect {
            on_releases: OnReleases::Put(release),
            ..Effect::nothing()
        }
    }

    /// Replaces the release with the same id, and removes its alert.
    pub fn put_afresh(release: Release) -> Effect
        ensures { result ≡ spec.put_afresh release }
    {
        let id = release.id;
        Effect {
            on_releases: OnReleases::Put(release),
            on_alerts: OnAlerts::Take { release: id },
            ..Effect::nothing()
        }
    }

    /// Marks the alert of a release as acknowledged.
    pub fn acknowledge(release: u64) -> Effect
        ensures { result ≡ spec.acknowledge release }
    {
        Effect {
            on_alerts: OnAlerts::Acknowledge { release },
            ..Effect::nothing()
        }
    }

    /// Removes the release with this id.
    pub fn remove(release: u64) -> Effect
        ensures { result ≡ spec.remove release }
    {
        Effect {
            on_releases: OnReleases::Remove { release },
            ..Effect::nothing()
        }
    }

    /// Removes earlier reports, except those that must stay, and earlier kept replies. Raises the floors of persons.
    pub fn sweep(before: Minute, attached: Listed<u64>, floors: Floors) -> Effect
        ensures { result ≡ spec.sweep before attached floors }
    {
        Effect {
            sweep: Some(Sweep {
                before,
                attached,
                floors,
            }),
            ..Effect::nothing()
        }
    }
}

/// The decision on a call that isn't refused.
#[derive(Debug, Drop)]
pub enum Decision {
    /// Replies, and changes nothing.
    Show(Reply),
    /// Accepts the call: what it does, which is its reply, and its effect.
    Do(Done, Effect),
}

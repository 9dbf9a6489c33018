use desk_io::{Copied, OutOfMemory, Station, Text};
use desk_time::Minute;
use plan::Plan;
use std::alloc::Global;

/// What a person asks of the desk.
#[derive(Debug, Drop)]
pub enum Ask {
    /// Admit the text of a weather report.
    Admit {
        text: Text,
    },
    /// Defer the repair of an item of an aircraft (14 CFR 121.628).
    Defer {
        /// The registration of the aircraft, at most 64 bytes.
        tail: Text,
        /// The item, at most 64 bytes.
        item: Text,
        /// When the item was found inoperative.
        found: Minute,
    },
    /// Clear a deferral, because the item was repaired.
    Clear {
        deferral: u64,
    },
    /// Draft a release for a plan.
    Draft {
        plan: Plan,
    },
    /// Attach the latest weather to the pending revision, which makes its text.
    Prepare {
        release: u64,
    },
    /// Sign this pending revision as its dispatcher. The digest is that of its text (14 CFR 121.663).
    Sign {
        release: u64,
        revision: u64,
        /// The SHA-256 of the text.
        digest: [u8; 32],
    },
    /// Concur with this pending revision as its captain. The digest is that of its text (14 CFR 121.663).
    Concur {
        release: u64,
        revision: u64,
        /// The SHA-256 of the text.
        digest: [u8; 32],
    },
    /// File a plan as the pending revision, under the next number. The revision that both have signed stays in force
    /// until the captain concurs with the new one (14 CFR 121.631).
    Amend {
        release: u64,
        plan: Plan,
    },
    /// Cancel a release.
    Cancel {
        release: u64,
    },
    /// Report that a leg has departed.
    Depart {
        release: u64,
        /// The number of the leg, from 1.
        leg: u32,
    },
    /// Report that a leg has arrived.
    Arrive {
        release: u64,
        /// The number of the leg, from 1.
        leg: u32,
    },
    /// Acknowledge this version of the alert of a release.
    Acknowledge {
        release: u64,
        version: u64,
    },
    /// Remove an ended release. It must be kept for three months after the day on which it ended, and can be removed
    /// from the next day on (14 CFR 121.695).
    Purge {
        release: u64,
    },
    /// Remove old reports, observed or issued before this moment. Latest reports stay, and so do those attached to a
    /// release. Also remove the replies that are kept of requests accepted before this moment.
    Sweep {
        before: Minute,
    },
    /// View the releases.
    ViewBoard,
    /// View all alerts, including acknowledged ones.
    ViewAlerts,
    /// View the texts of a release.
    ViewRelease {
        release: u64,
    },
    /// View the latest weather of a station.
    ViewWeather {
        station: Station,
    },
    /// View the open deferrals of an aircraft.
    ViewDeferred {
        /// The registration of the aircraft, at most 64 bytes.
        tail: Text,
    },
}

/// A request of a person.
#[derive(Debug, Drop)]
pub struct Call {
    /// The person's name, at most 64 bytes.
    pub actor: Text,
    /// The person's key, at most 64 bytes.
    pub key: Text,
    /// The person's own number for the request, at most 10^12.
    pub number: u64,
    /// What the person asks.
    pub ask: Ask,
}

impl Copied for Ask {
    fn copy(&self, alloc: Global) -> Result<Ask, OutOfMemory> {
        let ask = match self {
            Ask::Admit { text } => Ask::Admit {
                text: text.copy(alloc)?,
            },
            Ask::Defer { tail, item, found } => Ask::Defer {
                tail: tail.copy(alloc)?,
                item: item.copy(alloc)?,
                found: *found,
            },
            Ask::Clear { deferral } => Ask::Clear {
                deferral: *deferral,
            },
            Ask::Draft { plan } => Ask::Draft {
                plan: plan.copy(alloc)?,
            },
            Ask::Prepare { release } => Ask::Prepare { release: *release },
            Ask::Sign {
                release,
                revision,
                digest,
            } => Ask::Sign {
                release: *release,
                revision: *revision,
                digest: *digest,
            },
            Ask::Concur {
                release,
                revision,
                digest,
            } => Ask::Concur {
                release: *release,
                revision: *revision,
                digest: *digest,
            },
            Ask::Amend { release, plan } => Ask::Amend {
                release: *release,
                plan: plan.copy(alloc)?,
            },
            Ask::Cancel { release } => Ask::Cancel { release: *release },
            Ask::Depart { release, leg } => Ask::Depart {
                release: *release,
                leg: *leg,
            },
            Ask::Arrive { release, leg } => Ask::Arrive {
                release: *release,
                leg: *leg,
            },
            Ask::Acknowledge { release, version } => Ask::Acknowledge {
                release: *release,
                version: *version,
            },
            Ask::Purge { release } => Ask::Purge { release: *release },
            Ask::Sweep { before } => Ask::Sweep { before: *before },
            Ask::ViewBoard => Ask::ViewBoard,
            Ask::ViewAlerts => Ask::ViewAlerts,
            Ask::ViewRelease { release } => Ask::ViewRelease { release: *release },
            Ask::ViewWeather { station } => Ask::ViewWeather { station: *station },
            Ask::ViewDeferred { tail } => Ask::ViewDeferred {
                tail: tail.copy(alloc)?,
            },
        };
        Ok(ask)
    }
}

impl Copied for Call {
    fn copy(&self, alloc: Global) -> Result<Call, OutOfMemory> {
        Ok(Call {
            actor: self.actor.copy(alloc)?,
            key: self.key.copy(alloc)?,
            number: self.number,
            ask: self.ask.copy(alloc)?,
        })
    }
}

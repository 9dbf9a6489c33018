ghost use Rattle.std.specs.Prelude.{◌≡◌};
ghost use Rattle.plan.specs.Phases as spec;

use crate::flights::Plan;
use desk_io::{Copied, HasId, Listed, OutOfMemory, Text, copied_option};
use desk_time::Minute;
use std::alloc::Global;

/// The phase of a release.
#[derive(Clone, Copy, Debug, PartialEq, Eq)]
pub enum Phase {
    /// No captain has concurred yet.
    Drafted,
    /// Dispatcher and captain have signed, and no leg has departed.
    Ready,
    /// Leg `leg`, counted from 1, has departed and hasn't arrived.
    Flying {
        leg: u32,
    },
    /// The legs before `next` have arrived, the last of them at `since`. `again` is true if a captain has concurred
    /// since then.
    Stopped {
        next: u32,
        since: Minute,
        again: bool,
    },
    /// The last leg arrived at this moment.
    Completed {
        at: Minute,
    },
    /// The release was cancelled at this moment.
    Cancelled {
        at: Minute,
    },
}

/// The state of one leg of a release.
#[derive(Clone, Copy, Debug, PartialEq, Eq)]
pub enum Standing {
    /// The leg hasn't departed.
    Ahead,
    /// The leg has departed and hasn't arrived.
    InFlight,
    /// The leg has arrived, or the release has ended.
    Flown,
}

// Returns the state of a leg while leg `in_flight` is in flight.
fn beside(in_flight: u32, leg: u32) -> Standing
    ensures { result ≡ spec.beside in_flight leg }
{
    if leg < in_flight {
        Standing::Flown
    } else if leg == in_flight {
        Standing::InFlight
    } else {
        Standing::Ahead
    }
}

// Returns the state of a leg while the aircraft is on the ground and leg `next` departs next.
fn before(next: u32, leg: u32) -> Standing
    ensures { result ≡ spec.before next leg }
{
    if leg < next {
        Standing::Flown
    } else {
        Standing::Ahead
    }
}

/// Returns the state of a leg, counted from 1, in this phase.
pub fn standing_of(phase: Phase, leg: u32) -> Standing
    ensures { result ≡ spec.standing phase leg }
{
    match phase {
        Phase::Drafted | Phase::Ready => Standing::Ahead,
        Phase::Flying { leg: in_flight } => beside(in_flight, leg),
        Phase::Stopped { next, .. } => before(next, leg),
        Phase::Completed { .. } | Phase::Cancelled { .. } => Standing::Flown,
    }
}

/// Returns true if the release is in force in this phase: its active revision may be flown, and it is judged.
pub fn is_active(phase: Phase) -> bool
    ensures { result ≡ spec.is_active phase }
{
    match phase {
        Phase::Ready | Phase::Flying { .. } | Phase::Stopped { .. } => true,
        Phase::Drafted | Phase::Completed { .. } | Phase::Cancelled { .. } => false,
    }
}

/// Returns true if this leg, counted from 1, is in flight.
pub fn is_flying(phase: Phase, number: u32) -> bool
    ensures { result ≡ spec.is_flying phase number }
{
    match phase {
        Phase::Flying { leg } => number == leg,
        Phase::Drafted
        | Phase::Ready
        | Phase::Stopped { .. }
        | Phase::Completed { .. }
        | Phase::Cancelled { .. } => false,
    }
}

/// A person's signature on the text of a release (14 CFR 121.663).
#[derive(Debug, Drop)]
pub struct Signature {
    /// The name of the person.
    pub actor: Text,
    /// When he signed.
    pub at: Minute,
    /// The SHA-256 of the text that was signed.
    pub digest: [u8; 32],
}

/// A weather report that is attached to a release (14 CFR 121.687(b)).
#[derive(Debug, Drop)]
pub struct Attached {
    /// The number of the report.
    pub report: u64,
    /// The canonical text of the report.
    pub text: Text,
}

/// The reports that are attached to a revision, in the order of its text.
pub type AttachedList = Listed<Attached>;

/// A plan that was filed for a release, its attached weather, and the signatures.
#[derive(Debug, Drop)]
pub struct Revision {
    /// The number of the revision, from 1.
    pub number: u64,
    pub plan: Plan,
    /// Whether the weather is attached, so that the revision has a text to sign.
    pub prepared: bool,
    /// The attached weather; empty until the revision is prepared.
    pub attached: AttachedList,
    pub dispatcher: Option<Signature>,
    pub captain: Option<Signature>,
    /// The captain's hours in the type when he concurred, by `hours.csv`. It is None until then, and in a record that
    /// has no hours.
    pub hours: Option<u32>,
}

/// A dispatch release (14 CFR 121.593, 121.595).
#[derive(Debug, Drop)]
pub struct Release {
    /// The number of the release, from 1.
    pub id: u64,
    /// The dispatcher who drafted the release.
    pub holder: Text,
    pub phase: Phase,
    /// The revision that waits for signatures, if any.
    pub pending: Option<Revision>,
    /// The revision that both have signed, if any.
    pub active: Option<Revision>,
}

impl HasId for Release {
    ghost id_of = { λ r. r.id };

    fn id(&self) -> u64 {
        self.id
    }
}

impl Copied for Signature {
    fn copy(&self, alloc: Global) -> Result<Signature, OutOfMemory> {
        Ok(Signature {
            actor: self.actor.copy(alloc)?,
            at: self.at,
            digest: self.digest,
        })
    }
}

impl Copied for Attached {
    fn copy(&self, alloc: Global) -> Result<Attached, OutOfMemory> {
        Ok(Attached {
            report: self.report,
            text: self.text.copy(alloc)?,
        })
    }
}

impl Copied for Revision {
    fn copy(&self, alloc: Global) -> Result<Revision, OutOfMemory> {
        Ok(Revision {
            number: self.number,
            plan: self.plan.copy(alloc)?,
            prepared: self.prepared,
            attached: self.attached.copy(alloc)?,
            dispatcher: copied_option(&self.dispatcher, alloc)?,
            captain: copied_option(&self.captain, alloc)?,
            hours: self.hours,
        })
    }
}

impl Copied for Release {
    fn copy(&self, alloc: Global) -> Result<Release, OutOfMemory> {
        Ok(Release {
            id: self.id,
            holder: self.holder.copy(alloc)?,
            phase: self.phase,
            pending: copied_option(&self.pending, alloc)?,
            active: copied_option(&self.active, alloc)?,
        })
    }
}

use asks::{Floors, KeptReply};
use deferrals::Deferral;
use desk_io::Text;
use desk_state::Counters;
use desk_time::Minute;
use plan::{Findings, Release};

/// The content of a stored row.
#[derive(Debug, Drop)]
pub enum Record {
    /// The desk's moment, counters and floors.
    Meta(Meta),
    /// A stored report.
    Report(KeptReport),
    /// An open deferral.
    Deferral(Deferral),
    /// A release.
    Release(Release),
    /// The kept reply to an accepted request.
    Kept(KeptReply),
    /// An open alert.
    Alert(KeptAlert),
}

/// The desk's moment, counters and floors.
#[derive(Debug, Drop)]
pub struct Meta {
    /// The desk's moment at its last event.
    pub moment: Minute,
    pub counters: Counters,
    /// For each person whose replies a sweep removed, the highest number of those. In byte order of the names.
    pub floors: Floors,
}

/// A stored report. Its content is read again from its text when the desk opens.
#[derive(Debug, Drop)]
pub struct KeptReport {
    /// Its id.
    pub id: u64,
    /// The moment of its receipt.
    pub received: Minute,
    /// Its canonical text.
    pub text: Text,
}

/// An open alert. The dispatcher isn't stored here, because the release has its holder.
#[derive(Debug, Drop)]
pub struct KeptAlert {
    /// The id of the release.
    pub release: u64,
    /// The version. It starts at 1, and increases by one whenever the failing rules change.
    pub version: u64,
    /// The moment at which it opened.
    pub opened: Minute,
    /// The rules that fail, by the last judgement.
    pub failing: Findings,
    /// The rules that have failed since it opened.
    pub ever: Findings,
    /// True if the dispatcher has acknowledged this version.
    pub acknowledged: bool,
}

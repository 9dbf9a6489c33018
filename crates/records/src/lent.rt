ghost use Rattle.std.specs.Prelude.{◌≡◌};
ghost use Rattle.records.specs.Lent as spec;

use crate::record::Record;
use asks::{Floors, KeptReply};
use deferrals::Deferral;
use desk_io::Text;
use desk_state::Counters;
use desk_time::Minute;
use plan::{Findings, Release};

/// A borrowed record, which can be written as a row without a copy.
#[derive(Clone, Copy)]
pub enum RecordRef<'a> {
    Meta(MetaRef<'a>),
    Report(ReportRef<'a>),
    Deferral(&'a Deferral),
    Release(&'a Release),
    Kept(&'a KeptReply),
    Alert(AlertRef<'a>),
}

/// The desk's moment, counters and floors.
#[derive(Clone, Copy)]
pub struct MetaRef<'a> {
    pub moment: Minute,
    pub counters: Counters,
    pub floors: &'a Floors,
}

/// A stored report.
#[derive(Clone, Copy)]
pub struct ReportRef<'a> {
    pub id: u64,
    pub received: Minute,
    pub text: &'a Text,
}

/// An open alert.
#[derive(Clone, Copy)]
pub struct AlertRef<'a> {
    pub release: u64,
    pub version: u64,
    pub opened: Minute,
    pub failing: &'a Findings,
    pub ever: &'a Findings,
    pub acknowledged: bool,
}

impl Record {
    /// Borrows the record.
    pub fn lent(&self) -> RecordRef<'_>
        ensures { spec.lent result ≡ self.now }
    {
        match self {
            Record::Meta(meta) => RecordRef::Meta(MetaRef {
                moment: meta.moment,
                counters: meta.counters,
                floors: &meta.floors,
            }),
            Record::Report(report) => RecordRef::Report(ReportRef {
                id: report.id,
                received: report.received,
                text: &report.text,
            }),
            Record::Deferral(deferral) => RecordRef::Deferral(deferral),
            Record::Release(release) => RecordRef::Release(release),
            Record::Kept(kept) => RecordRef::Kept(kept),
            Record::Alert(alert) => RecordRef::Alert(AlertRef {
                release: alert.release,
                version: alert.version,
                opened: alert.opened,
                failing: &alert.failing,
                ever: &alert.ever,
                acknowledged: alert.acknowledged,
            }),
        }
    }
}

use codes::Why;
use desk_io::{Copied, OutOfMemory, Text};
use desk_time::Minute;
use plan::{Findings, Phase, PlanWhy};
use std::alloc::Global;

/// The result of an accepted request.
#[derive(Clone, Copy, Debug, PartialEq, Eq)]
pub enum Done {
    /// The report has this id.
    Report(u64),
    /// The deferral has this id, or had it until it was cleared.
    Deferral(u64),
    /// A revision of a release was filed or signed.
    Filed {
        release: u64,
        revision: u64,
    },
    /// A revision of a release was prepared. Its text has this SHA-256.
    Prepared {
        release: u64,
        revision: u64,
        digest: [u8; 32],
    },
    /// The release was changed.
    Release(u64),
    /// This many old reports and kept replies were removed.
    Swept {
        reports: u64,
        kept: u64,
    },
}

/// Why a request was refused. Each comment begins with the number of the refusal.
#[derive(Debug, Drop)]
pub enum Refusal {
    /// 1: no person has this name.
    UnknownActor,
    /// 2: the person has another key.
    WrongKey,
    /// 3: the ask isn't for the person's role.
    NotYourRole,
    /// 4: the person used the number for another request, which is kept under this id.
    NumberReused {
        kept: u64,
    },
    /// 5: the report can't be read, for another reason than 6. `group` is the first malformed group, counted from 1.
    /// It is 0 if the text is too long.
    BadReport {
        group: u32,
        what: Why,
    },
    /// 6: the day in this group isn't among the five days in reach.
    DayOutOfReach {
        group: u32,
    },
    /// 7: the desk holds 200,000 reports.
    ReportsFull {
        held: u64,
    },
    /// 8: the tables have no such aircraft.
    UnknownTail,
    /// 9: no open deferral has this id.
    NoSuchDeferral,
    /// 10: no release has this id.
    NoSuchRelease,
    /// 11: the ask is for another person: the dispatcher who holds the release, or the captain of its plan.
    NotYours {
        holder: Text,
    },
    /// 12: the plan fails a test at this leg.
    BadPlan {
        leg: u32,
        what: PlanWhy,
    },
    /// 13: no revision is pending (0), it isn't prepared (1), or the dispatcher hasn't signed it (2).
    NotPending {
        stage: u8,
    },
    /// 14: the pending revision has this number.
    WrongRevision {
        current: u64,
    },
    /// 15: the text of the pending revision has this digest.
    WrongText {
        digest: [u8; 32],
    },
    /// 16: a latest report of a station that the release concerns isn't attached to the pending revision. Of several
    /// this is the least number.
    WeatherNewer {
        report: u64,
    },
    /// 17: these rules fail.
    RuleFails {
        findings: Findings,
    },
    /// 18: the ask isn't possible in this phase of the release.
    WrongPhase {
        phase: Phase,
    },
    /// 19: the dispatcher has already signed.
    AlreadySigned,
    /// 20: the release has no alert.
    NoSuchAlert,
    /// 21: the alert has this version now.
    AlertMoved {
        version: u64,
    },
    /// 22: it isn't allowed before this moment.
    TooYoung {
        until: Minute,
    },
    /// 23: the desk holds 20,000 releases.
    ReleasesFull {
        held: u64,
    },
    /// 24: the history has 400,000 entries, 400,000 replies are kept, or there were too many events.
    HistoryFull {
        entries: u64,
        kept: u64,
        events: u64,
    },
    /// 25: the station isn't in the table of airports.
    NoSuchStation,
    /// 26: the keeper failed, so the change wasn't made. `faults` counts its failures so far.
    Unkept {
        faults: u64,
    },
    /// 27: the number is at or below this floor, the greatest number of the person whose reply was swept.
    NumberSwept {
        floor: u64,
    },
    /// 28: the minimum equipment list of the type has no such item.
    UnknownItem,
    /// 29: the item was found after the desk's time, which is this moment.
    BadFound {
        moment: Minute,
    },
    /// 30: 50,000 deferrals are open.
    DeferralsFull {
        held: u64,
    },
}

/// The desk's reply to a request.
#[derive(Debug, Drop)]
pub enum Reply {
    /// The desk accepted the request.
    Done(Done),
    /// The text of a view.
    Seen(Text),
    /// The desk refused the request and changed nothing.
    Refused(Refusal),
}

impl Copied for Refusal {
    fn copy(&self, alloc: Global) -> Result<Refusal, OutOfMemory> {
        match self {
            Refusal::UnknownActor => Ok(Refusal::UnknownActor),
            Refusal::WrongKey => Ok(Refusal::WrongKey),
            Refusal::NotYourRole => Ok(Refusal::NotYourRole),
            Refusal::NumberReused { kept } => Ok(Refusal::NumberReused { kept: *kept }),
            Refusal::BadReport { group, what } => Ok(Refusal::BadReport {
                group: *group,
                what: *what,
            }),
            Refusal::DayOutOfReach { group } => Ok(Refusal::DayOutOfReach { group: *group }),
            Refusal::ReportsFull { held } => Ok(Refusal::ReportsFull { held: *held }),
            Refusal::UnknownTail => Ok(Refusal::UnknownTail),
            Refusal::NoSuchDeferral => Ok(Refusal::NoSuchDeferral),
            Refusal::NoSuchRelease => Ok(Refusal::NoSuchRelease),
            Refusal::NotYours { holder } => Ok(Refusal::NotYours {
                holder: holder.copy(alloc)?,
            }),
            Refusal::BadPlan { leg, what } => Ok(Refusal::BadPlan {
                leg: *leg,
                what: *what,
            }),
            Refusal::NotPending { stage } => Ok(Refusal::NotPending { stage: *stage }),
            Refusal::WrongRevision { current } => Ok(Refusal::WrongRevision { current: *current }),
            Refusal::WrongText { digest } => Ok(Refusal::WrongText { digest: *digest }),
            Refusal::WeatherNewer { report } => Ok(Refusal::WeatherNewer { report: *report }),
            Refusal::RuleFails { findings } => Ok(Refusal::RuleFails {
                findings: findings.copy(alloc)?,
            }),
            Refusal::WrongPhase { phase } => Ok(Refusal::WrongPhase { phase: *phase }),
            Refusal::AlreadySigned => Ok(Refusal::AlreadySigned),
            Refusal::NoSuchAlert => Ok(Refusal::NoSuchAlert),
            Refusal::AlertMoved { version } => Ok(Refusal::AlertMoved { version: *version }),
            Refusal::TooYoung { until } => Ok(Refusal::TooYoung { until: *until }),
            Refusal::ReleasesFull { held } => Ok(Refusal::ReleasesFull { held: *held }),
            Refusal::HistoryFull {
                entries,
                kept,
                events,
            } => Ok(Refusal::HistoryFull {
                entries: *entries,
                kept: *kept,
                events: *events,
            }),
            Refusal::NoSuchStation => Ok(Refusal::NoSuchStation),
            Refusal::Unkept { faults } => Ok(Refusal::Unkept { faults: *faults }),
            Refusal::NumberSwept { floor } => Ok(Refusal::NumberSwept { floor: *floor }),
            Refusal::UnknownItem => Ok(Refusal::UnknownItem),
            Refusal::BadFound { moment } => Ok(Refusal::BadFound { moment: *moment }),
            Refusal::DeferralsFull { held } => Ok(Refusal::DeferralsFull { held: *held }),
        }
    }
}

impl Copied for Reply {
    fn copy(&self, alloc: Global) -> Result<Reply, OutOfMemory> {
        match self {
            Reply::Done(done) => Ok(Reply::Done(*done)),
            Reply::Seen(text) => Ok(Reply::Seen(text.copy(alloc)?)),
            Reply::Refused(refusal) => Ok(Reply::Refused(refusal.copy(alloc)?)),
        }
    }
}

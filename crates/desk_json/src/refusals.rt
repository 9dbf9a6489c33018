ghost use Rattle.std.specs.Prelude.{◌≡◌, codes, IfOk};
ghost use Rattle.serde_json.specs.Data.{put};
ghost use Rattle.serde_json.specs.View.{view, members_view};
ghost use Rattle.plan.specs.Texts.{HasMoment, phase_text};
ghost use Rattle.asks.specs.Canonical.{text_data, list_data};
ghost use Rattle.asks.specs.Ranges.{RefusalHasMoment};
ghost use Rattle.release_json.specs.Findings.{finding_data};
ghost use Rattle.desk_json.specs.Replies as spec;

use asks::{
    Members, Refusal, name_value, with_count, with_digest, with_moment, with_name, with_text,
    with_value,
};
use codes::Why;
use desk_io::OutOfMemory;
use plan::{Finding, Phase, PlanWhy, phase_text};
use release_json::findings_value;
use serde_json::{Map, Value};
use std::alloc::Global;

/// Returns the name of the reason why a report can't be read.
pub fn why_name(why: Why) -> &'static str
    ensures { result.now ≡ spec.why_name why }
{
    match why {
        Why::TooLong => "TooLong",
        Why::Missing => "Missing",
        Why::NotStation => "NotStation",
        Why::NotTime => "NotTime",
        Why::DayOutOfReach => "DayOutOfReach",
        Why::BadVisibility => "BadVisibility",
        Why::BadSky => "BadSky",
        Why::BadPeriod => "BadPeriod",
    }
}

fn plan_why_name(why: PlanWhy) -> &'static str
    ensures { result.now ≡ spec.plan_why_name why }
{
    match why {
        PlanWhy::UnknownTail => "UnknownTail",
        PlanWhy::UnknownCaptain => "UnknownCaptain",
        PlanWhy::Count => "Count",
        PlanWhy::NoAirport => "NoAirport",
        PlanWhy::Repeated => "Repeated",
        PlanWhy::Unjoined => "Unjoined",
        PlanWhy::Times => "Times",
        PlanWhy::Amount => "Amount",
        PlanWhy::Changed => "Changed",
        PlanWhy::Flown => "Flown",
    }
}

/// Returns the number of a refusal, as its reply shows it.
pub fn refusal_number(refusal: &Refusal) -> u64
    ensures { result ≡ spec.refusal_number refusal.now }
{
    match refusal {
        Refusal::UnknownActor => 1,
        Refusal::WrongKey => 2,
        Refusal::NotYourRole => 3,
        Refusal::NumberReused { .. } => 4,
        Refusal::BadReport { .. } => 5,
        Refusal::DayOutOfReach { .. } => 6,
        Refusal::ReportsFull { .. } => 7,
        Refusal::UnknownTail => 8,
        Refusal::NoSuchDeferral => 9,
        Refusal::NoSuchRelease => 10,
        Refusal::NotYours { .. } => 11,
        Refusal::BadPlan { .. } => 12,
        Refusal::NotPending { .. } => 13,
        Refusal::WrongRevision { .. } => 14,
        Refusal::WrongText { .. } => 15,
        Refusal::WeatherNewer { .. } => 16,
        Refusal::RuleFails { .. } => 17,
        Refusal::WrongPhase { .. } => 18,
        Refusal::AlreadySigned => 19,
        Refusal::NoSuchAlert => 20,
        Refusal::AlertMoved { .. } => 21,
        Refusal::TooYoung { .. } => 22,
        Refusal::ReleasesFull { .. } => 23,
        Refusal::HistoryFull { .. } => 24,
        Refusal::NoSuchStation => 25,
        Refusal::Unkept { .. } => 26,
        Refusal::NumberSwept { .. } => 27,
        Refusal::UnknownItem => 28,
        Refusal::BadFound { .. } => 29,
        Refusal::DeferralsFull { .. } => 30,
    }
}

fn refusal_name(refusal: &Refusal) -> &'static str
    ensures { result.now ≡ spec.refusal_name refusal.now }
{
    match refusal {
        Refusal::UnknownActor => "UnknownActor",
        Refusal::WrongKey => "WrongKey",
        Refusal::NotYourRole => "NotYourRole",
        Refusal::NumberReused { .. } => "NumberReused",
        Refusal::BadReport { .. } => "BadReport",
        Refusal::DayOutOfReach { .. } => "DayOutOfReach",
        Refusal::ReportsFull { .. } => "ReportsFull",
        Refusal::UnknownTail => "UnknownTail",
        Refusal::NoSuchDeferral => "NoSuchDeferral",
        Refusal::NoSuchRelease => "NoSuchRelease",
        Refusal::NotYours { .. } => "NotYours",
        Refusal::BadPlan { .. } => "BadPlan",
        Refusal::NotPending { .. } => "NotPending",
        Refusal::WrongRevision { .. } => "WrongRevision",
        Refusal::WrongText { .. } => "WrongText",
        Refusal::WeatherNewer { .. } => "WeatherNewer",
        Refusal::RuleFails { .. } => "RuleFails",
        Refusal::WrongPhase { .. } => "WrongPhase",
        Refusal::AlreadySigned => "AlreadySigned",
        Refusal::NoSuchAlert => "NoSuchAlert",
        Refusal::AlertMoved { .. } => "AlertMoved",
        Refusal::TooYoung { .. } => "TooYoung",
        Refusal::ReleasesFull { .. } => "ReleasesFull",
        Refusal::HistoryFull { .. } => "HistoryFull",
        Refusal::NoSuchStation => "NoSuchStation",
        Refusal::Unkept { .. } => "Unkept",
        Refusal::NumberSwept { .. } => "NumberSwept",
        Refusal::UnknownItem => "UnknownItem",
        Refusal::BadFound { .. } => "BadFound",
        Refusal::DeferralsFull { .. } => "DeferralsFull",
    }
}

// Adds a place in a report or a plan, and the reason.
fn with_reason(
    alloc: Global,
    members: Members,
    key: &str,
    place: u32,
    what: &str,
) -> Result<Members, OutOfMemory>
    ensures { IfOk result (λ all. members_view all.entries
        ≡ spec.with_reason key.now place what.now (members_view members.entries)) }
{
    let members = with_count(alloc, members, key, place as u64)?;
    with_name(alloc, members, "what", what)
}

/// Adds findings to an object.
pub(crate) fn with_findings(
    alloc: Global,
    members: Members,
    findings: &[Finding],
) -> Result<Members, OutOfMemory>
    ensures { IfOk result (λ all. members_view all.entries
        ≡ put (codes "findings") (list_data finding_data findings.now) (members_view members.entries)) }
{
    let value = findings_value(alloc, findings)?;
    with_value(alloc, members, "findings", value)
}

fn with_phase(alloc: Global, members: Members, phase: Phase) -> Result<Members, OutOfMemory>
    requires { HasMoment phase }
    ensures { IfOk result (λ all. members_view all.entries
        ≡ put (codes "phase") (text_data (phase_text phase)) (members_view members.entries)) }
{
    let text = phase_text(alloc, phase)?;
    with_text(alloc, members, "phase", text.bytes())
}

// Adds the numbers of entries in the history, of kept replies, and of events.
fn with_counts(
    alloc: Global,
    members: Members,
    entries: u64,
    kept: u64,
    events: u64,
) -> Result<Members, OutOfMemory>
    ensures { IfOk result (λ all. members_view all.entries
        ≡ spec.with_counts entries kept events (members_view members.entries)) }
{
    let members = with_count(alloc, members, "entries", entries)?;
    let members = with_count(alloc, members, "events", events)?;
    with_count(alloc, members, "kept", kept)
}

// Adds the fields of a refusal, besides its number and its name.
fn with_fields(alloc: Global, refusal: &Refusal, members: Members) -> Result<Members, OutOfMemory>
    requires { RefusalHasMoment refusal.now }
    ensures { IfOk result (λ all. members_view all.entries
        ≡ spec.with_fields refusal.now (members_view members.entries)) }
{
    match refusal {
        Refusal::NumberReused { kept } => with_count(alloc, members, "kept", *kept),
        Refusal::BadReport { group, what } => {
            with_reason(alloc, members, "group", *group, why_name(*what))
        }
        Refusal::DayOutOfReach { group } => with_count(alloc, members, "group", *group as u64),
        Refusal::ReportsFull { held } => with_count(alloc, members, "held", *held),
        Refusal::NotYours { holder } => with_text(alloc, members, "holder", holder.bytes()),
        Refusal::BadPlan { leg, what } => {
            with_reason(alloc, members, "leg", *leg, plan_why_name(*what))
        }
        Refusal::NotPending { stage } => with_count(alloc, members, "stage", *stage as u64),
        Refusal::WrongRevision { current } => with_count(alloc, members, "current", *current),
        Refusal::WrongText { digest } => with_digest(alloc, members, digest),
        Refusal::WeatherNewer { report } => with_count(alloc, members, "report", *report),
        Refusal::RuleFails { findings } => with_findings(alloc, members, findings.as_slice()),
        Refusal::WrongPhase { phase } => with_phase(alloc, members, *phase),
        Refusal::AlertMoved { version } => with_count(alloc, members, "version", *version),
        Refusal::TooYoung { until } => with_moment(alloc, members, "until", *until),
        Refusal::ReleasesFull { held } => with_count(alloc, members, "held", *held),
        Refusal::HistoryFull {
            entries,
            kept,
            events,
        } => with_counts(alloc, members, *entries, *kept, *events),
        Refusal::Unkept { faults } => with_count(alloc, members, "faults", *faults),
        Refusal::NumberSwept { floor } => with_count(alloc, members, "floor", *floor),
        Refusal::BadFound { moment } => with_moment(alloc, members, "now", *moment),
        Refusal::DeferralsFull { held } => with_count(alloc, members, "held", *held),
        Refusal::UnknownActor
        | Refusal::WrongKey
        | Refusal::NotYourRole
        | Refusal::UnknownTail
        | Refusal::NoSuchDeferral
        | Refusal::NoSuchRelease
        | Refusal::AlreadySigned
        | Refusal::NoSuchAlert
        | Refusal::NoSuchStation
        | Refusal::UnknownItem => Ok(members),
    }
}

/// Returns the members that every refusal has: its number and its name.
pub(crate) fn numbered(alloc: Global, number: u64, name: &str) -> Result<Members, OutOfMemory>
    ensures { IfOk result (λ all. members_view all.entries ≡ spec.numbered number name.now) }
{
    let name = name_value(alloc, name)?;
    let mut members = Map::new(alloc);
    members.insert(String::from_str(alloc, "refused")?, Value::from(number))?;
    members.insert(String::from_str(alloc, "why")?, name)?;
    Ok(members)
}

fn refusal_members(alloc: Global, refusal: &Refusal) -> Result<Members, OutOfMemory>
    ensures { IfOk result (λ all. members_view all.entries ≡ spec.refusal_members refusal.now) }
{
    numbered(alloc, refusal_number(refusal), refusal_name(refusal))
}

/// Converts a refusal to a JSON object.
pub(crate) fn refusal_value(alloc: Global, refusal: &Refusal) -> Result<Value, OutOfMemory>
    requires { RefusalHasMoment refusal.now }
    ensures { IfOk result (λ v. view v ≡ spec.refusal_data refusal.now) }
{
    let members = refusal_members(alloc, refusal)?;
    Ok(Value::Object(with_fields(alloc, refusal, members)?))
}

ghost use Rattle.std.specs.Prelude.{◌≡◌, IfOk, IfSome};
ghost use Rattle.std.specs.Str.{bytes_eq};
ghost use Rattle.compact_json.specs.Elements.{data_at, items_left};
ghost use Rattle.asks.specs.Fields.{each_read};
ghost use Rattle.desk_json.specs.Replies.{reply_text};
ghost use Rattle.desk_json.specs.ReadReplies as spec;
ghost use Rattle.asks.specs.Ranges.{ReplyHasMoment};
ghost use Rattle.desk_json.specs.ReadReplies.{finding_in, reply_in, ReplyHasForms};
ghost use Rattle.desk_json.specs.ReadReplies.{AnswersReply, IsReplyOf, IsReplyAgain};

use crate::bad_call::{CallFault, bad};
use crate::replies::reply_text;
use asks::{
    CallWhy, Refusal, Reply, amount_at, digest_at, document_of, list_at, number_at, read_said_done,
    text_at,
};
use codes::Why;
use compact_json::{Element, Items};
use desk_io::{OutOfMemory, Text};
use desk_time::{Minute, read_shown};
use plan::{Finding, Findings, PlanWhy};
use release_json::{read_phase, read_said_finding};
use std::alloc::Global;

fn wide_at(key: &str, value: Element<'_>) -> Option<u64>
    ensures { result ≡ spec.wide_at key.now (data_at value.entry) }
{
    number_at(key, u64::MAX, value)
}

fn shown_at(key: &str, value: Element<'_>) -> Option<Minute>
    ensures { result ≡ spec.shown_at key.now (data_at value.entry) }
{
    read_shown(text_at(key, value)?.as_bytes())
}

fn why_of(name: &str) -> Option<Why>
    ensures { result ≡ spec.why_of name.now }
{
    if name == "TooLong" {
        Some(Why::TooLong)
    } else if name == "Missing" {
        Some(Why::Missing)
    } else if name == "NotStation" {
        Some(Why::NotStation)
    } else if name == "NotTime" {
        Some(Why::NotTime)
    } else if name == "DayOutOfReach" {
        Some(Why::DayOutOfReach)
    } else if name == "BadVisibility" {
        Some(Why::BadVisibility)
    } else if name == "BadSky" {
        Some(Why::BadSky)
    } else if name == "BadPeriod" {
        Some(Why::BadPeriod)
    } else {
        None
    }
}

fn plan_why_of(name: &str) -> Option<PlanWhy>
    ensures { result ≡ spec.plan_why_of name.now }
{
    if name == "UnknownTail" {
        Some(PlanWhy::UnknownTail)
    } else if name == "UnknownCaptain" {
        Some(PlanWhy::UnknownCaptain)
    } else if name == "Count" {
        Some(PlanWhy::Count)
    } else if name == "NoAirport" {
        Some(PlanWhy::NoAirport)
    } else if name == "Repeated" {
        Some(PlanWhy::Repeated)
    } else if name == "Unjoined" {
        Some(PlanWhy::Unjoined)
    } else if name == "Times" {
        Some(PlanWhy::Times)
    } else if name == "Amount" {
        Some(PlanWhy::Amount)
    } else if name == "Changed" {
        Some(PlanWhy::Changed)
    } else if name == "Flown" {
        Some(PlanWhy::Flown)
    } else {
        None
    }
}

// Refusals without fields of their own.
fn plain_of(number: u64) -> Option<Refusal>
    ensures { result ≡ spec.plain_of number }
{
    match number {
        1 => Some(Refusal::UnknownActor),
        2 => Some(Refusal::WrongKey),
        3 => Some(Refusal::NotYourRole),
        8 => Some(Refusal::UnknownTail),
        9 => Some(Refusal::NoSuchDeferral),
        10 => Some(Refusal::NoSuchRelease),
        19 => Some(Refusal::AlreadySigned),
        20 => Some(Refusal::NoSuchAlert),
        25 => Some(Refusal::NoSuchStation),
        28 => Some(Refusal::UnknownItem),
        _ => None,
    }
}

// Refusals with one 64-bit number as a field. Others go to `plain_of`.
fn counted_of(number: u64, value: Element<'_>) -> Option<Refusal>
    ensures { result ≡ spec.counted_of number (data_at value.entry) }
{
    match number {
        4 => Some(Refusal::NumberReused {
            kept: wide_at("kept", value)?,
        }),
        7 => Some(Refusal::ReportsFull {
            held: wide_at("held", value)?,
        }),
        14 => Some(Refusal::WrongRevision {
            current: wide_at("current", value)?,
        }),
        16 => Some(Refusal::WeatherNewer {
            report: wide_at("report", value)?,
        }),
        21 => Some(Refusal::AlertMoved {
            version: wide_at("version", value)?,
        }),
        23 => Some(Refusal::ReleasesFull {
            held: wide_at("held", value)?,
        }),
        26 => Some(Refusal::Unkept {
            faults: wide_at("faults", value)?,
        }),
        27 => Some(Refusal::NumberSwept {
            floor: wide_at("floor", value)?,
        }),
        30 => Some(Refusal::DeferralsFull {
            held: wide_at("held", value)?,
        }),
        _ => plain_of(number),
    }
}

fn bad_report_of(value: Element<'_>) -> Option<Refusal>
    ensures { result ≡ spec.bad_report_of (data_at value.entry) }
{
    let group = amount_at("group", value)?;
    let what = why_of(text_at("what", value)?)?;
    Some(Refusal::BadReport { group, what })
}

fn bad_plan_of(value: Element<'_>) -> Option<Refusal>
    ensures { result ≡ spec.bad_plan_of (data_at value.entry) }
{
    let leg = amount_at("leg", value)?;
    let what = plan_why_of(text_at("what", value)?)?;
    Some(Refusal::BadPlan { leg, what })
}

fn wrong_phase_of(value: Element<'_>) -> Option<Refusal>
    ensures { result ≡ spec.wrong_phase_of (data_at value.entry) }
{
    Some(Refusal::WrongPhase {
        phase: read_phase(text_at("phase", value)?.as_bytes())?,
    })
}

fn history_full_of(value: Element<'_>) -> Option<Refusal>
    ensures { result ≡ spec.history_full_of (data_at value.entry) }
{
    let entries = wide_at("entries", value)?;
    let kept = wide_at("kept", value)?;
    let events = wide_at("events", value)?;
    Some(Refusal::HistoryFull {
        entries,
        kept,
        events,
    })
}

// Refusals with other fields of fixed size. Others go to `counted_of`.
fn fixed_of(number: u64, value: Element<'_>) -> Option<Refusal>
    ensures { result ≡ spec.fixed_of number (data_at value.entry) }
{
    match number {
        5 => bad_report_of(value),
        6 => Some(Refusal::DayOutOfReach {
            group: amount_at("group", value)?,
        }),
        12 => bad_plan_of(value),
        13 => Some(Refusal::NotPending {
            stage: number_at("stage", 255, value)? as u8,
        }),
        15 => Some(Refusal::WrongText {
            digest: digest_at("digest", value)?,
        }),
        18 => wrong_phase_of(value),
        22 => Some(Refusal::TooYoung {
            until: shown_at("until", value)?,
        }),
        24 => history_full_of(value),
        29 => Some(Refusal::BadFound {
            moment: shown_at("now", value)?,
        }),
        _ => counted_of(number, value),
    }
}

fn not_yours_of(alloc: Global, value: Element<'_>) -> Result<Option<Refusal>, OutOfMemory>
    ensures { IfOk result (λ r. r ≡ spec.not_yours_of (data_at value.entry)) }
{
    match text_at("holder", value) {
        Some(holder) => Ok(Some(Refusal::NotYours {
            holder: Text::of(alloc, holder.as_bytes())?,
        })),
        None => Ok(None),
    }
}

fn finding_of(value: Element<'_>) -> Option<Finding>
    ensures { result ≡ finding_in (data_at value.entry) }
{
    read_said_finding(value.as_str()?.as_bytes())
}

fn findings_of(alloc: Global, items: Items<'_>) -> Result<Option<Findings>, OutOfMemory>
    ensures { IfOk result (λ findings. findings ≡ each_read finding_in (items_left items.entry)) }
{
    let mut left = items;
    let mut findings = Findings::new(alloc);
    'items: while let Some(item) = left.next() {
        match finding_of(item) {
            Some(finding) => findings.push(finding)?,
            None => return Ok(None),
        }
    }
    Ok(Some(findings))
}

fn rule_fails_of(alloc: Global, value: Element<'_>) -> Result<Option<Refusal>, OutOfMemory>
    ensures { IfOk result (λ r. r ≡ spec.rule_fails_of (data_at value.entry)) }
{
    let Some(items) = list_at("findings", value) else {
        return Ok(None);
    };
    match findings_of(alloc, items)? {
        Some(findings) => Ok(Some(Refusal::RuleFails { findings })),
        None => Ok(None),
    }
}

// Reads the refusal with this number, and its fields.
fn refusal_of(
    alloc: Global,
    number: u64,
    value: Element<'_>,
) -> Result<Option<Refusal>, OutOfMemory>
    ensures { IfOk result (λ r. r ≡ spec.refusal_of number (data_at value.entry)) }
{
    match number {
        11 => not_yours_of(alloc, value),
        17 => rule_fails_of(alloc, value),
        _ => Ok(fixed_of(number, value)),
    }
}

fn done_in(value: Element<'_>) -> Option<Reply>
    ensures { result ≡ spec.done_in (data_at value.entry) }
{
    Some(Reply::Done(read_said_done(value.get("done")?)?))
}

fn seen_in(alloc: Global, value: Element<'_>) -> Result<Option<Reply>, OutOfMemory>
    ensures { IfOk result (λ r. r ≡ spec.seen_in (data_at value.entry)) }
{
    match text_at("seen", value) {
        Some(text) => Ok(Some(Reply::Seen(Text::of(alloc, text.as_bytes())?))),
        None => Ok(None),
    }
}

fn refused_in(alloc: Global, value: Element<'_>) -> Result<Option<Reply>, OutOfMemory>
    ensures { IfOk result (λ r. r ≡ spec.refused_in (data_at value.entry)) }
{
    let Some(number) = wide_at("refused", value) else {
        return Ok(None);
    };
    match refusal_of(alloc, number, value)? {
        Some(refusal) => Ok(Some(Reply::Refused(refusal))),
        None => Ok(None),
    }
}

// Reads a reply from JSON, whatever else that contains.
fn reply_of(alloc: Global, value: Element<'_>) -> Result<Option<Reply>, OutOfMemory>
    ensures { IfOk result (λ r. r ≡ spec.reply_of (data_at value.entry)) }
{
    if value.get("done").is_some() {
        Ok(done_in(value))
    } else if value.get("seen").is_some() {
        seen_in(alloc, value)
    } else {
        refused_in(alloc, value)
    }
}

fn reply_with_forms(alloc: Global, value: Element<'_>) -> Result<Option<Reply>, OutOfMemory>
    ensures reply { IfOk result (λ r. r ≡ spec.reply_of (data_at value.entry)) }
    ensures forms { IfOk result (λ r. IfSome r ReplyHasForms) }
    ensures shown { IfOk result (λ r. IfSome r ReplyHasMoment) }
{
    reply_of(alloc, value)
}

fn is_text(alloc: Global, bytes: &[u8], reply: &Reply) -> Result<bool, OutOfMemory>
    requires { ReplyHasMoment reply.now }
    ensures { IfOk result (λ b. b ≡ bytes_eq (reply_text reply.now) bytes.now) }
{
    let text = reply_text(alloc, reply)?;
    Ok(text.bytes() == bytes)
}

#[tactic(auto, unfolding(crate::specs::ReadReplies::reply_in))]
fn reply_in(alloc: Global, bytes: &[u8]) -> Result<Option<Reply>, OutOfMemory>
    ensures reply { IfOk result (λ r. r ≡ reply_in bytes.now) }
    ensures forms { IfOk result (λ r. IfSome r ReplyHasForms) }
{
    let Some(document) = document_of(alloc, bytes)? else {
        return Ok(None);
    };
    let Some(reply) = reply_with_forms(alloc, document.root())? else {
        return Ok(None);
    };
    if is_text(alloc, bytes, &reply)? {
        Ok(Some(reply))
    } else {
        Ok(None)
    }
}

fn reply_answer(alloc: Global, bytes: &[u8]) -> Result<Reply, CallFault>
    ensures answer { AnswersReply (reply_in bytes.now) result }
    ensures forms { IfOk result ReplyHasForms }
{
    match reply_in(alloc, bytes)? {
        Some(reply) => Ok(reply),
        None => Err(bad(alloc, CallWhy::NotJson, "")),
    }
}

/// Reads a reply. The bytes must be exactly the text that `reply_text` writes. A phase has moments from 2000 to 2099;
/// other moments may be up to the last that the desk prints. Any other text is `NotJson`, with an empty key.
pub fn read_reply(alloc: Global, bytes: &[u8]) -> Result<Reply, CallFault>
    ensures answer { AnswersReply (reply_in bytes.now) result }
    // Only the text of a reply is read.
    ensures exact { IfOk result (IsReplyOf bytes.now) }
    // The text of any reply within its limits is read back as that reply.
    ensures again { IsReplyAgain bytes.now result }
{
    reply_answer(alloc, bytes)
}

ghost use Rattle.std.specs.Prelude.{◌≡◌, codes, IfOk, option_and_then};
ghost use Rattle.std.specs.Option.{option_map};
ghost use Rattle.desk_time.specs.Limits.{IsMoment};
ghost use Rattle.asks.specs.Dones.{done_of};
ghost use Rattle.asks.specs.Fields.{text_at};
ghost use Rattle.release_json.specs.Releases.{person_at};
ghost use Rattle.serde_json.specs.Find.{get};
ghost use Rattle.serde_json.specs.View.{view};
ghost use Rattle.records.specs.Reading as spec;
ghost use Rattle.records.specs.Valid as valid;

use crate::names::{is_item, is_person, is_tail};
use crate::record::KeptReport;
use asks::{Done, KeptReply, digest_at, has_members, moment_at, number_at, read_done, text_at};
use codes::ReportFault;
use deferrals::Deferral;
use desk_io::{OutOfMemory, Text};
use desk_time::Minute;
use facts::receive;
use serde_json::Value;
use std::alloc::Global;

// A kept reply without its id and its person.
#[derive(Clone, Copy)]
struct Stamp {
    at: Minute,
    digest: [u8; 32],
    number: u64,
    done: Done,
}

// Returns true if the text of a report is canonical and can be read as of its receipt.
#[tactic(auto, unfolding(crate::specs::Valid::is_report))]
fn is_report(alloc: Global, report: &KeptReport) -> Result<bool, OutOfMemory>
    requires { IsMoment report.now.received }
    ensures { IfOk result (λ good. good ≡ valid.is_report report.now) }
{
    match receive(alloc, report.text.bytes(), report.received) {
        Ok(received) => Ok(received.text.bytes() == report.text.bytes()),
        Err(ReportFault::Bad(_)) => Ok(false),
        Err(ReportFault::OutOfMemory) => Err(OutOfMemory),
    }
}

fn if_report(alloc: Global, report: KeptReport) -> Result<Option<KeptReport>, OutOfMemory>
    requires { IsMoment report.received }
    ensures { IfOk result (λ r. r ≡ spec.if_report report) }
{
    if is_report(alloc, &report)? {
        Ok(Some(report))
    } else {
        Ok(None)
    }
}

// Returns the report, if its text is canonical and can be read. The text is UTF-8, as every `str` is.
fn utf8_report(
    alloc: Global,
    id: u64,
    received: Minute,
    text: &str,
) -> Result<Option<KeptReport>, OutOfMemory>
    requires { IsMoment received }
    ensures { IfOk result (λ report. report ≡ spec.utf8_report (spec.report_with id received text.now)) }
{
    let text = Text::of(alloc, text.as_bytes())?;
    if_report(alloc, KeptReport { id, received, text })
}

/// Reads a report from the JSON of its row.
pub(crate) fn report_of(
    alloc: Global,
    id: u64,
    value: &Value,
) -> Result<Option<KeptReport>, OutOfMemory>
    ensures { IfOk result (λ report. report ≡ spec.report_of id (view value.now)) }
{
    let Some(received) = moment_at("received", value) else {
        return Ok(None);
    };
    match text_at("text", value) {
        Some(text) if has_members(2, value) => utf8_report(alloc, id, received, text),
        _ => Ok(None),
    }
}

fn item_at(value: &Value) -> Option<&str>
    ensures { option_map (λ t. t.now) result ≡ option_and_then spec.item (text_at (codes "item") (view value.now)) }
{
    match text_at("item", value) {
        Some(text) if is_item(text.as_bytes()) => Some(text),
        _ => None,
    }
}

fn tail_at(value: &Value) -> Option<&str>
    ensures { option_map (λ t. t.now) result ≡ option_and_then spec.tail (text_at (codes "tail") (view value.now)) }
{
    match text_at("tail", value) {
        Some(text) if is_tail(text.as_bytes()) => Some(text),
        _ => None,
    }
}

/// Reads a deferral from the JSON of its row.
pub(crate) fn deferral_of(
    alloc: Global,
    id: u64,
    value: &Value,
) -> Result<Option<Deferral>, OutOfMemory>
    ensures { IfOk result (λ deferral. deferral ≡ spec.deferral_of id (view value.now)) }
{
    let Some(found) = moment_at("found", value) else {
        return Ok(None);
    };
    let Some(item) = item_at(value) else {
        return Ok(None);
    };
    match tail_at(value) {
        Some(tail) if has_members(3, value) => Ok(Some(Deferral {
            id,
            tail: Text::of(alloc, tail.as_bytes())?,
            item: Text::of(alloc, item.as_bytes())?,
            found,
        })),
        _ => Ok(None),
    }
}

fn person_at<'a>(key: &str, value: &'a Value) -> Option<&'a str>
    ensures { option_map (λ t. t.now) result ≡ person_at key.now (view value.now) }
{
    match text_at(key, value) {
        Some(text) if is_person(text.as_bytes()) => Some(text),
        _ => None,
    }
}

fn done_in(value: &Value) -> Option<Done>
    ensures { result ≡ option_and_then done_of (get (codes "done") (view value.now)) }
{
    match value.get("done") {
        Some(found) => read_done(found),
        None => None,
    }
}

fn reply_of(value: &Value) -> Option<Done>
    ensures { result ≡ spec.reply_of (view value.now) }
{
    let done = done_in(value)?;
    if has_members(1, value) {
        Some(done)
    } else {
        None
    }
}

fn done_at(value: &Value) -> Option<Done>
    ensures { result ≡ spec.done_at (view value.now) }
{
    match value.get("reply") {
        Some(found) => reply_of(found),
        None => None,
    }
}

#[tactic(auto, unfolding(crate::specs::Reading::stamp_of))]
fn stamp_of(value: &Value) -> Option<Stamp>
    ensures { result ≡ spec.stamp_of (view value.now) }
{
    let at = moment_at("at", value)?;
    let digest = digest_at("digest", value)?;
    let number = number_at("number", 1_000_000_000_000, value)?;
    let done = done_at(value)?;
    if has_members(5, value) {
        Some(Stamp {
            at,
            digest,
            number,
            done,
        })
    } else {
        None
    }
}

fn kept_with(id: u64, actor: Text, stamp: Stamp) -> KeptReply
    ensures { result ≡ spec.kept_with id actor stamp }
{
    let Stamp {
        at,
        digest,
        number,
        done,
    } = stamp;
    KeptReply {
        id,
        actor,
        number,
        digest,
        at,
        done,
    }
}

/// Reads a kept reply from the JSON of its row.
pub(crate) fn kept_of(
    alloc: Global,
    id: u64,
    value: &Value,
) -> Result<Option<KeptReply>, OutOfMemory>
    ensures { IfOk result (λ kept. kept ≡ spec.kept_of id (view value.now)) }
{
    let Some(stamp) = stamp_of(value) else {
        return Ok(None);
    };
    match person_at("actor", value) {
        Some(actor) => {
            let actor = Text::of(alloc, actor.as_bytes())?;
            Ok(Some(kept_with(id, actor, stamp)))
        }
        None => Ok(None),
    }
}

ghost use Rattle.std.specs.Prelude.{◌≡◌, IfOk, Some};
ghost use Rattle.std.specs.List.{list_all};
ghost use Rattle.std.specs.Option.{option_map};
ghost use Rattle.serde_json.specs.View.{view, items_view};
ghost use Rattle.ops_tables.specs.Forms as form;
ghost use Rattle.asks.specs.Fields.{each_read};
ghost use Rattle.release_json.specs.Releases as spec;

use crate::version::{Version, members_of};
use asks::{digest_at, has_members, id_at, list_at, moment_at, read_plan, text_at};
use desk_io::{OutOfMemory, Text};
use plan::{Attached, AttachedList, Plan, Revision, Signature};
use serde_json::Value;
use std::alloc::Global;

// The number of a revision, whether it is prepared, and its captain's hours.
#[derive(Clone, Copy)]
struct Head {
    number: u64,
    prepared: bool,
    hours: Option<u32>,
}

// The signatures of a revision.
#[derive(Drop)]
struct Signatures {
    dispatcher: Option<Signature>,
    captain: Option<Signature>,
}

fn in_person(b: u8) -> bool
    ensures { result ≡ form.in_person b }
{
    b'A' <= b && b <= b'Z' || b'0' <= b && b <= b'9' || b'a' <= b && b <= b'z'
}

fn all_in_person(text: &[u8]) -> bool
    ensures { result ≡ list_all form.in_person text.now }
{
    text.iter().all(|b| in_person(*b))
}

#[tactic(auto, unfolding(ops_tables::specs::Forms::is_person))]
fn is_person(text: &[u8]) -> bool
    ensures { result ≡ form.is_person text.now }
{
    1 <= text.len() && text.len() <= 16 && all_in_person(text)
}

/// Reads the name of a person at a key: 1 to 16 letters and digits.
pub(crate) fn person_at<'a>(key: &str, value: &'a Value) -> Option<&'a str>
    ensures { option_map (λ t. t.now) result ≡ spec.person_at key.now (view value.now) }
{
    match text_at(key, value) {
        Some(text) if is_person(text.as_bytes()) => Some(text),
        _ => None,
    }
}

fn bool_at(key: &str, value: &Value) -> Option<bool>
    ensures { result ≡ spec.bool_at key.now (view value.now) }
{
    match value.get(key) {
        Some(found) => found.as_bool(),
        None => None,
    }
}

// Returns an attached report. Its text is UTF-8, as every `str` is.
fn attached_with(alloc: Global, report: u64, text: &str) -> Result<Attached, OutOfMemory>
    ensures { IfOk result (λ a. Some a ≡ spec.attached_with report text.now) }
{
    Ok(Attached {
        report,
        text: Text::of(alloc, text.as_bytes())?,
    })
}

fn attached_of(alloc: Global, value: &Value) -> Result<Option<Attached>, OutOfMemory>
    ensures { IfOk result (λ a. a ≡ spec.attached_of (view value.now)) }
{
    let Some(report) = id_at("report", value) else {
        return Ok(None);
    };
    match text_at("text", value) {
        Some(text) if has_members(2, value) => Ok(Some(attached_with(alloc, report, text)?)),
        _ => Ok(None),
    }
}

fn attached_in(alloc: Global, items: &[Value]) -> Result<Option<AttachedList>, OutOfMemory>
    ensures { IfOk result (λ all. all ≡ each_read spec.attached_of (items_view items.now)) }
{
    let mut all = AttachedList::new(alloc);
    for item in items {
        match attached_of(alloc, item)? {
            Some(attached) => all.push(attached)?,
            None => return Ok(None),
        }
    }
    Ok(Some(all))
}

fn attached_at(alloc: Global, value: &Value) -> Result<Option<AttachedList>, OutOfMemory>
    ensures { IfOk result (λ all. all ≡ spec.attached_at (view value.now)) }
{
    match list_at("attached", value) {
        Some(items) => attached_in(alloc, items),
        None => Ok(None),
    }
}

fn signature_of(alloc: Global, value: &Value) -> Result<Option<Signature>, OutOfMemory>
    ensures { IfOk result (λ s. s ≡ spec.signature_of (view value.now)) }
{
    let Some(actor) = person_at("actor", value) else {
        return Ok(None);
    };
    let Some(at) = moment_at("at", value) else {
        return Ok(None);
    };
    match digest_at("digest", value) {
        Some(digest) if has_members(3, value) => Ok(Some(Signature {
            actor: Text::of(alloc, actor.as_bytes())?,
            at,
            digest,
        })),
        _ => Ok(None),
    }
}

#[tactic(auto, unfolding(crate::specs::Releases::signature_in))]
fn signature_in(alloc: Global, value: &Value) -> Result<Option<Option<Signature>>, OutOfMemory>
    ensures { IfOk result (λ s. s ≡ spec.signature_in (view value.now)) }
{
    if value.is_null() {
        return Ok(Some(None));
    }
    match signature_of(alloc, value)? {
        Some(signature) => Ok(Some(Some(signature))),
        None => Ok(None),
    }
}

fn signature_at(
    alloc: Global,
    key: &str,
    value: &Value,
) -> Result<Option<Option<Signature>>, OutOfMemory>
    ensures { IfOk result (λ s. s ≡ spec.signature_at key.now (view value.now)) }
{
    match value.get(key) {
        Some(found) => signature_in(alloc, found),
        None => Ok(None),
    }
}

fn signatures_of(alloc: Global, value: &Value) -> Result<Option<Signatures>, OutOfMemory>
    ensures { IfOk result (λ s. s ≡ spec.signatures_of (view value.now)) }
{
    let Some(dispatcher) = signature_at(alloc, "dispatcher", value)? else {
        return Ok(None);
    };
    match signature_at(alloc, "captain", value)? {
        Some(captain) => Ok(Some(Signatures {
            dispatcher,
            captain,
        })),
        None => Ok(None),
    }
}

// Reads a number of hours, at most 100,000.
fn hours_of(value: &Value) -> Option<u32>
    ensures { result ≡ spec.hours_of (view value.now) }
{
    match value.as_u64() {
        Some(hours) if hours <= 100_000 => Some(hours as u32),
        _ => None,
    }
}

#[tactic(auto, unfolding(crate::specs::Releases::hours_in))]
fn hours_in(value: &Value) -> Option<Option<u32>>
    ensures { result ≡ spec.hours_in (view value.now) }
{
    if value.is_null() {
        return Some(None);
    }
    Some(Some(hours_of(value)?))
}

// Reads a captain's hours. Rows of the first version have none.
fn hours_at(version: Version, value: &Value) -> Option<Option<u32>>
    ensures { result ≡ spec.hours_at version (view value.now) }
{
    match version {
        Version::First => Some(None),
        Version::Second => match value.get("hours") {
            Some(found) => hours_in(found),
            None => None,
        },
    }
}

fn head_of(version: Version, value: &Value) -> Option<Head>
    ensures { result ≡ spec.head_of version (view value.now) }
{
    let number = id_at("number", value)?;
    let prepared = bool_at("prepared", value)?;
    let hours = hours_at(version, value)?;
    if has_members(members_of(version), value) {
        Some(Head {
            number,
            prepared,
            hours,
        })
    } else {
        None
    }
}

fn plan_at(alloc: Global, value: &Value) -> Result<Option<Plan>, OutOfMemory>
    ensures { IfOk result (λ p. p ≡ spec.plan_at (view value.now)) }
{
    match value.get("plan") {
        Some(found) => read_plan(alloc, found),
        None => Ok(None),
    }
}

fn revision_with(head: Head, plan: Plan, signatures: Signatures, attached: AttachedList) -> Revision
    ensures { result ≡ spec.revision_with head plan signatures attached }
{
    let Signatures {
        dispatcher,
        captain,
    } = signatures;
    Revision {
        number: head.number,
        plan,
        prepared: head.prepared,
        attached,
        dispatcher,
        captain,
        hours: head.hours,
    }
}

fn revision_of(
    alloc: Global,
    version: Version,
    value: &Value,
) -> Result<Option<Revision>, OutOfMemory>
    ensures { IfOk result (λ v. v ≡ spec.revision_of version (view value.now)) }
{
    let Some(head) = head_of(version, value) else {
        return Ok(None);
    };
    let Some(plan) = plan_at(alloc, value)? else {
        return Ok(None);
    };
    let Some(signatures) = signatures_of(alloc, value)? else {
        return Ok(None);
    };
    match attached_at(alloc, value)? {
        Some(attached) => Ok(Some(revision_with(head, plan, signatures, attached))),
        None => Ok(None),
    }
}

#[tactic(auto, unfolding(crate::specs::Releases::revision_in))]
fn revision_in(
    alloc: Global,
    version: Version,
    value: &Value,
) -> Result<Option<Option<Revision>>, OutOfMemory>
    ensures { IfOk result (λ v. v ≡ spec.revision_in version (view value.now)) }
{
    if value.is_null() {
        return Ok(Some(None));
    }
    match revision_of(alloc, version, value)? {
        Some(revision) => Ok(Some(Some(revision))),
        None => Ok(None),
    }
}

/// Reads the revision, or null, at a key.
pub(crate) fn revision_at(
    alloc: Global,
    version: Version,
    key: &str,
    value: &Value,
) -> Result<Option<Option<Revision>>, OutOfMemory>
    ensures { IfOk result (λ v. v ≡ spec.revision_at version key.now (view value.now)) }
{
    match value.get(key) {
        Some(found) => revision_in(alloc, version, found),
        None => Ok(None),
    }
}

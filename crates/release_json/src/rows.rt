ghost use Rattle.std.specs.Prelude.{◌≡◌, map, codes, IfOk, IfSome};
ghost use Rattle.serde_json.specs.Data.{put};
ghost use Rattle.serde_json.specs.View.{view, members_view};
ghost use Rattle.plan.specs.Texts.{HasMoment, phase_text};
ghost use Rattle.desk_time.specs.Limits.{IsMoment};
ghost use Rattle.asks.specs.Canonical.{list_data, text_data};
ghost use Rattle.release_json.specs.Rows as spec;

use crate::version::Version;
use asks::{
    Members, count_value, plan_value, with_count, with_digest, with_moment, with_text, with_value,
};
use desk_io::OutOfMemory;
use plan::{Attached, Phase, Release, Revision, Signature, phase_text};
use serde_json::{Map, Value};
use std::alloc::Global;

fn signature_members(alloc: Global, signature: &Signature) -> Result<Members, OutOfMemory>
    requires { IsMoment signature.now.at }
    ensures { IfOk result (λ all. members_view all.entries ≡ spec.signature_members signature.now) }
{
    let members = Map::new(alloc);
    let members = with_text(alloc, members, "actor", signature.actor.bytes())?;
    let members = with_moment(alloc, members, "at", signature.at)?;
    with_digest(alloc, members, &signature.digest)
}

#[tactic(auto, unfolding(crate::specs::Rows::signature_data))]
fn signature_value(alloc: Global, signature: &Option<Signature>) -> Result<Value, OutOfMemory>
    requires { spec.SignedAtMoment signature.now }
    ensures { IfOk result (λ v. view v ≡ spec.signature_data signature.now) }
{
    match signature {
        None => Ok(Value::Null),
        Some(signature) => Ok(Value::Object(signature_members(alloc, signature)?)),
    }
}

fn attached_value(alloc: Global, attached: &Attached) -> Result<Value, OutOfMemory>
    ensures { IfOk result (λ v. view v ≡ spec.attached_data attached.now) }
{
    let members = Map::new(alloc);
    let members = with_count(alloc, members, "report", attached.report)?;
    let members = with_text(alloc, members, "text", attached.text.bytes())?;
    Ok(Value::Object(members))
}

fn attached_values(alloc: Global, attached: &[Attached]) -> Result<Vec<Value>, OutOfMemory>
    ensures { IfOk result (λ values. map view values.items ≡ map spec.attached_data attached.now) }
{
    let mut values = Vec::new(alloc);
    for report in attached {
        values.push(attached_value(alloc, report)?)?;
    }
    Ok(values)
}

// Adds the attached reports to the members.
fn with_attached(
    alloc: Global,
    members: Members,
    attached: &[Attached],
) -> Result<Members, OutOfMemory>
    ensures { IfOk result (λ all. members_view all.entries ≡ put (codes "attached")
        (list_data spec.attached_data attached.now) (members_view members.entries)) }
{
    let values = attached_values(alloc, attached)?;
    with_value(alloc, members, "attached", Value::Array(values))
}

// Adds a signature, or null, to the members.
fn with_signature(
    alloc: Global,
    members: Members,
    key: &str,
    signature: &Option<Signature>,
) -> Result<Members, OutOfMemory>
    requires { spec.SignedAtMoment signature.now }
    ensures { IfOk result (λ all. members_view all.entries ≡ put key.now (spec.signature_data signature.now)
        (members_view members.entries)) }
{
    let value = signature_value(alloc, signature)?;
    with_value(alloc, members, key, value)
}

#[tactic(auto, unfolding(crate::specs::Rows::hours_data))]
fn hours_value(hours: Option<u32>) -> Value
    ensures { view result ≡ spec.hours_data hours }
{
    match hours {
        None => Value::Null,
        Some(hours) => count_value(hours as u64),
    }
}

// Returns all members except the captain's hours.
fn plain_members(alloc: Global, revision: &Revision) -> Result<Members, OutOfMemory>
    requires { spec.RevisionHasMoments revision.now }
    ensures { IfOk result (λ all. members_view all.entries ≡ spec.revision_members Version.First revision.now) }
{
    let members = Map::new(alloc);
    let members = with_attached(alloc, members, revision.attached.as_slice())?;
    let members = with_signature(alloc, members, "captain", &revision.captain)?;
    let members = with_signature(alloc, members, "dispatcher", &revision.dispatcher)?;
    let members = with_count(alloc, members, "number", revision.number)?;
    let plan = plan_value(alloc, &revision.plan)?;
    let members = with_value(alloc, members, "plan", plan)?;
    with_value(alloc, members, "prepared", Value::Bool(revision.prepared))
}

fn revision_members(
    alloc: Global,
    version: Version,
    revision: &Revision,
) -> Result<Members, OutOfMemory>
    requires { spec.RevisionHasMoments revision.now }
    ensures { IfOk result (λ all. members_view all.entries ≡ spec.revision_members version revision.now) }
{
    let members = plain_members(alloc, revision)?;
    match version {
        Version::First => Ok(members),
        Version::Second => with_value(alloc, members, "hours", hours_value(revision.hours)),
    }
}

#[tactic(auto, unfolding(crate::specs::Rows::revision_data))]
fn revision_value(
    alloc: Global,
    version: Version,
    revision: &Option<Revision>,
) -> Result<Value, OutOfMemory>
    requires { IfSome revision.now spec.RevisionHasMoments }
    ensures { IfOk result (λ v. view v ≡ spec.revision_data version revision.now) }
{
    match revision {
        None => Ok(Value::Null),
        Some(revision) => Ok(Value::Object(revision_members(alloc, version, revision)?)),
    }
}

// Adds a revision, or null, to the members.
fn with_revision(
    alloc: Global,
    members: Members,
    version: Version,
    key: &str,
    revision: &Option<Revision>,
) -> Result<Members, OutOfMemory>
    requires { IfSome revision.now spec.RevisionHasMoments }
    ensures { IfOk result (λ all. members_view all.entries ≡ put key.now (spec.revision_data version revision.now)
        (members_view members.entries)) }
{
    let value = revision_value(alloc, version, revision)?;
    with_value(alloc, members, key, value)
}

// Adds a phase to the members.
fn with_phase(alloc: Global, members: Members, phase: Phase) -> Result<Members, OutOfMemory>
    requires { HasMoment phase }
    ensures { IfOk result (λ all. members_view all.entries ≡ put (codes "phase") (text_data (phase_text phase))
        (members_view members.entries)) }
{
    let text = phase_text(alloc, phase)?;
    with_text(alloc, members, "phase", text.bytes())
}

fn release_members(
    alloc: Global,
    version: Version,
    release: &Release,
) -> Result<Members, OutOfMemory>
    requires { spec.ReleaseHasMoments release.now }
    ensures { IfOk result (λ all. members_view all.entries ≡ spec.release_members version release.now) }
{
    let members = Map::new(alloc);
    let members = with_revision(alloc, members, version, "active", &release.active)?;
    let members = with_text(alloc, members, "holder", release.holder.bytes())?;
    let members = with_revision(alloc, members, version, "pending", &release.pending)?;
    with_phase(alloc, members, release.phase)
}

/// Converts a release to the JSON of its row, in this version of rows. The id is the key of the row, and not part of
/// the JSON.
#[tactic(auto, unfolding(crate::specs::Rows::release_data))]
pub fn release_value(
    alloc: Global,
    version: Version,
    release: &Release,
) -> Result<Value, OutOfMemory>
    requires { spec.ReleaseHasMoments release.now }
    ensures { IfOk result (λ v. view v ≡ spec.release_data version release.now) }
{
    Ok(Value::Object(release_members(alloc, version, release)?))
}

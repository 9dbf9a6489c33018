ghost use Rattle.std.specs.Prelude.{◌≡◌, IfOk, IfSome};
ghost use Rattle.serde_json.specs.View.{view};
ghost use Rattle.release_json.specs.Kept.{IsKept};
ghost use Rattle.release_json.specs.Plans.{HasPlans};
ghost use Rattle.release_json.specs.Releases as spec;
ghost use Rattle.release_json.specs.Versions.{SaysRelease};
ghost use Rattle.release_text.specs.Valid.{HoursAreSigned};

use crate::kept::is_valid;
use crate::phases::read_phase;
use crate::revisions::{person_at, revision_at};
use crate::version::Version;
use asks::{has_members, text_at};
use desk_io::{OutOfMemory, Text};
use plan::{Phase, Release, Revision};
use serde_json::Value;
use std::alloc::Global;

// The revisions of a release.
#[derive(Drop)]
struct Revisions {
    pending: Option<Revision>,
    active: Option<Revision>,
}

fn revisions_of(
    alloc: Global,
    version: Version,
    value: &Value,
) -> Result<Option<Revisions>, OutOfMemory>
    ensures { IfOk result (λ v. v ≡ spec.revisions_of version (view value.now)) }
{
    let Some(pending) = revision_at(alloc, version, "pending", value)? else {
        return Ok(None);
    };
    match revision_at(alloc, version, "active", value)? {
        Some(active) => Ok(Some(Revisions { pending, active })),
        None => Ok(None),
    }
}

fn phase_at(value: &Value) -> Option<Phase>
    ensures { result ≡ spec.phase_at (view value.now) }
{
    read_phase(text_at("phase", value)?.as_bytes())
}

fn release_with(id: u64, holder: Text, phase: Phase, revisions: Revisions) -> Release
    ensures { result ≡ spec.release_with id holder phase revisions }
{
    let Revisions { pending, active } = revisions;
    Release {
        id,
        holder,
        phase,
        pending,
        active,
    }
}

#[tactic(auto, unfolding(crate::specs::Releases::release_in))]
fn release_in(
    alloc: Global,
    version: Version,
    id: u64,
    value: &Value,
) -> Result<Option<Release>, OutOfMemory>
    ensures { IfOk result (λ r. r ≡ spec.release_in version id (view value.now)) }
{
    let Some(holder) = person_at("holder", value) else {
        return Ok(None);
    };
    let Some(phase) = phase_at(value) else {
        return Ok(None);
    };
    match revisions_of(alloc, version, value)? {
        Some(revisions) if has_members(4, value) => {
            let holder = Text::of(alloc, holder.as_bytes())?;
            Ok(Some(release_with(id, holder, phase, revisions)))
        }
        _ => Ok(None),
    }
}

// Calls `release_in`, and adds the bounds of its plans, which the test of validity requires.
fn release_found(
    alloc: Global,
    version: Version,
    id: u64,
    value: &Value,
) -> Result<Option<Release>, OutOfMemory>
    ensures value { IfOk result (λ r. r ≡ spec.release_in version id (view value.now)) }
    ensures plans { IfOk result (λ r. IfSome r HasPlans) }
{
    release_in(alloc, version, id, value)
}

#[tactic(auto, unfolding(crate::specs::Releases::release_of))]
fn valid_release(
    alloc: Global,
    version: Version,
    id: u64,
    value: &Value,
) -> Result<Option<Release>, OutOfMemory>
    ensures { IfOk result (λ r. r ≡ spec.release_of version id (view value.now)) }
{
    match release_found(alloc, version, id, value)? {
        Some(release) => {
            if is_valid(alloc, &release)? {
                Ok(Some(release))
            } else {
                Ok(None)
            }
        }
        None => Ok(None),
    }
}

/// Reads a release from the JSON of its row, in this version of rows. The object must have exactly the keys of a
/// release, each with a value of its form. The release must be valid: its phase, revisions and signatures agree. In
/// the first version no revision has a captain's hours.
pub fn read_release(
    alloc: Global,
    version: Version,
    id: u64,
    value: &Value,
) -> Result<Option<Release>, OutOfMemory>
    ensures value { IfOk result (λ r. r ≡ spec.release_of version id (view value.now)) }
    ensures kept { IfOk result (λ r. IfSome r IsKept) }
    ensures signed { IfOk result (λ r. IfSome r HoursAreSigned) }
    ensures says { IfOk result (λ r. IfSome r (SaysRelease version)) }
    ensures again { IfOk result (spec.IsReleaseAgain version id (view value.now)) }
{
    valid_release(alloc, version, id, value)
}

ghost use Rattle.std.specs.Prelude.{◌≡◌, IfOk, IfSome};
ghost use Rattle.asks.specs.Canonical.{option_data};
ghost use Rattle.desk_state.specs.Sound.{ReleaseInBounds};
ghost use Rattle.plan.specs.Check.{IsPlan};
ghost use Rattle.serde_json.specs.View.{members_view, view};
ghost use Rattle.views.specs.Objects as spec;
ghost use Rattle.views.specs.Shown.{detail_shown};

use crate::alert_objects::{alert_of, optional_alert};
use asks::{Members, with_count, with_moment, with_text, with_value};
use desk_io::OutOfMemory;
use desk_state::Content;
use plan::{Release, Revision};
use release_json::{Version, release_value};
use release_text::{digits_of, written_text};
use serde_json::{Map, Value};
use std::alloc::Global;

fn signable_value(alloc: Global, revision: &Revision) -> Result<Value, OutOfMemory>
    requires { IsPlan revision.now.plan }
    ensures { IfOk result (λ v. view v ≡ spec.signable_data revision.now) }
{
    let written = written_text(alloc, revision)?;
    let members = with_text(
        alloc,
        Map::new(alloc),
        "digest",
        &digits_of(&written.digest),
    )?;
    let members = with_text(alloc, members, "text", written.text.bytes())?;
    Ok(Value::Object(members))
}

fn active_value(alloc: Global, revision: &Option<Revision>) -> Result<Value, OutOfMemory>
    requires { IfSome revision.now (λ v. IsPlan v.plan) }
    ensures { IfOk result (λ v. view v ≡ option_data spec.signable_data revision.now) }
{
    match revision {
        None => Ok(Value::Null),
        Some(revision) => signable_value(alloc, revision),
    }
}

// Only a prepared revision has a text to sign.
#[tactic(auto, unfolding(crate::specs::Objects::pending_text_data))]
fn pending_value(alloc: Global, revision: &Option<Revision>) -> Result<Value, OutOfMemory>
    requires { IfSome revision.now (λ v. IsPlan v.plan) }
    ensures { IfOk result (λ v. view v ≡ spec.pending_text_data revision.now) }
{
    match revision {
        Some(revision) if revision.prepared => signable_value(alloc, revision),
        _ => Ok(Value::Null),
    }
}

fn row_value(alloc: Global, release: &Release) -> Result<Value, OutOfMemory>
    requires { ReleaseInBounds release.now }
    ensures { IfOk result (λ v. view v ≡ spec.record_data release.now) }
{
    release_value(alloc, Version::Second, release)
}

fn detail_front(alloc: Global, content: &Content, release: &Release) -> Result<Members, OutOfMemory>
    requires { ReleaseInBounds release.now }
    ensures { IfOk result (λ all. members_view all.entries ≡ spec.detail_front
        (detail_shown content.now.state release.now)) }
{
    content.holds();
    let active = active_value(alloc, &release.active)?;
    let members = with_value(alloc, Map::new(alloc), "active", active)?;
    let alert = optional_alert(alloc, alert_of(content, release.id))?;
    let members = with_value(alloc, members, "alert", alert)?;
    with_moment(alloc, members, "at", content.moment())
}

/// The members of the view of a release.
pub(crate) fn detail_members(
    alloc: Global,
    content: &Content,
    release: &Release,
) -> Result<Members, OutOfMemory>
    requires { ReleaseInBounds release.now }
    ensures { IfOk result (λ all. members_view all.entries ≡ spec.detail_members
        (detail_shown content.now.state release.now)) }
{
    let members = detail_front(alloc, content, release)?;
    let pending = pending_value(alloc, &release.pending)?;
    let members = with_value(alloc, members, "pending", pending)?;
    let record = row_value(alloc, release)?;
    let members = with_value(alloc, members, "record", record)?;
    with_count(alloc, members, "release", release.id)
}

ghost use Rattle.std.specs.Prelude.{◌≡◌, ◌++◌, All, IfOk, OnOk, map};
ghost use Rattle.release_json.specs.Rows.{ReleaseHasMoments};
ghost use Rattle.records.specs.Lent.{lent};
ghost use Rattle.row_changes.specs.Changes.{put_row as put};
ghost use Rattle.row_changes.specs.Rows.{meta_of};
ghost use Rattle.row_changes.specs.Shown.{WasOpened};
ghost use Rattle.row_changes.specs.Upgraded as spec;

use crate::held::put_row;
use crate::judged::judged_changes;
use desk_io::{Change, OutOfMemory};
use desk_state::{AlertChange, Content};
use plan::Release;
use records::{MetaRef, Record, RecordRef};
use std::alloc::Global;

fn meta_now(content: &Content) -> RecordRef<'_>
    ensures { lent result ≡ Record.Meta (meta_of content.now.state) }
{
    RecordRef::Meta(MetaRef {
        moment: content.moment(),
        counters: content.counters(),
        floors: content.replies().listed_floors(),
    })
}

// Appends the rows of releases, as the desk writes them now.
fn push_releases(
    alloc: Global,
    changes: &mut Vec<Change>,
    releases: &[Release],
) -> Result<(), OutOfMemory>
    requires { All ReleaseHasMoments releases.now }
    ensures { OnOk result (changes.new.items ≡ changes.old.items ++ map (λ r. put (Record.Release r))
        releases.now) }
{
    for release in releases {
        changes.push(put_row(alloc, &RecordRef::Release(release))?)?;
    }
    Ok(())
}

// Returns the rows that differ between the versions, as the desk writes them now.
#[tactic(auto, unfolding(crate::specs::Upgraded::upgraded_changes), using(crate::proofs::UpgradedLaws::each_shown))]
fn upgraded_changes(alloc: Global, content: &Content) -> Result<Vec<Change>, OutOfMemory>
    ensures { IfOk result (λ changes. changes.items ≡ spec.upgraded_changes content.now.state) }
{
    content.holds();
    let mut changes = Vec::new(alloc);
    changes.push(put_row(alloc, &meta_now(content))?)?;
    push_releases(alloc, &mut changes, content.releases().as_slice())?;
    Ok(changes)
}

fn if_old(alloc: Global, is_old: bool, content: &Content) -> Result<Vec<Change>, OutOfMemory>
    ensures { IfOk result (λ changes. changes.items ≡ spec.if_old is_old content.now.state) }
{
    if is_old {
        upgraded_changes(alloc, content)
    } else {
        Ok(Vec::new(alloc))
    }
}

// Appends later changes to the first ones.
fn joined(first: Vec<Change>, later: Vec<Change>) -> Result<Vec<Change>, OutOfMemory>
    ensures { IfOk result (λ all. all.items ≡ first.items ++ later.items) }
{
    let mut all = first;
    for change in later {
        all.push(change)?;
    }
    Ok(all)
}

/// Returns the changes that opening a desk makes to the rows. If `is_old` is true, the rows are of the first version
/// and are rewritten. Then come the alerts that a judgement changes, and the meta row, because the judgement counts
/// as an event. If the rows are of the second version and no alert changes, there are no changes.
#[tactic(auto, unfolding(crate::specs::Upgraded::opened_changes))]
pub fn opened_changes(
    alloc: Global,
    content: &Content,
    is_old: bool,
    alerts: &[AlertChange],
) -> Result<Vec<Change>, OutOfMemory>
    requires { All (λ c. WasOpened c.after) alerts.now }
    ensures { IfOk result (λ changes. changes.items ≡ spec.opened_changes is_old content.now.state alerts.now) }
{
    let rewritten = if_old(alloc, is_old, content)?;
    let judged = judged_changes(alloc, content, alerts)?;
    joined(rewritten, judged)
}

ghost use Rattle.std.specs.Prelude.{◌≡◌, ◌++◌, ◌∷◌, [], ℕ, length, IfOk, OnOk};
ghost use Rattle.std.specs.List.Sorted.{IsNonDecreasing};
ghost use Rattle.asks.specs.Forms.{FloorsRise};
ghost use Rattle.desk_time.specs.Limits.{IsMoment};
ghost use Rattle.desk_state.specs.Decide as spec;
ghost use Rattle.desk_state.specs.Events as events;
ghost use Rattle.desk_state.specs.Requests as requests;
ghost use Rattle.decisions.specs.Answers.{Answers};
ghost use Rattle.decisions.specs.Attached.{ids_of, all_ids, is_among, ids_among};
ghost use Rattle.decisions.specs.Reads.{DecisionAdmitsRead};

use crate::chain::Stop;
use crate::floors::raise;
use crate::retention::too_young;
use asks::{Done, Floor, Floors, KeptReply};
use desk_io::{Listed, OutOfMemory, copied_items};
use desk_state::{Content, Decision, Effect};
use desk_time::Minute;
use facts::Report;
use plan::{Release, Revision};
use std::alloc::Global;

// The minimum time for which reports and replies are kept: three days.
const KEPT_MINUTES: Minute = 4320;

fn push_ids(ids: &mut Vec<u64>, revision: &Option<Revision>) -> Result<(), OutOfMemory>
    ensures { OnOk result (ids.new.items ≡ ids.old.items ++ ids_of revision.now) }
{
    if let Some(revision) = revision {
        for attached in revision.attached.as_slice() {
            ids.push(attached.report)?;
        }
    }
    Ok(())
}

fn collected_ids(alloc: Global, releases: &[Release]) -> Result<Vec<u64>, OutOfMemory>
    ensures { IfOk result (λ ids. ids.items ≡ all_ids releases.now) }
{
    let mut ids = Vec::new(alloc);
    for release in releases {
        push_ids(&mut ids, &release.pending)?;
        push_ids(&mut ids, &release.active)?;
    }
    Ok(ids)
}

// Returns the ids of the reports that releases have attached, sorted. An id may repeat.
fn attached_ids(alloc: Global, releases: &[Release]) -> Result<Vec<u64>, OutOfMemory>
    ensures rising { IfOk result (λ ids. IsNonDecreasing ids.items) }
    ensures among { IfOk result (λ ids. (id : ℕ) → is_among ids.items id ≡ spec.is_attached id releases.now) }
{
    let mut ids = collected_ids(alloc, releases)?;
    ids.sort_unstable();
    Ok(ids)
}

fn is_found(ids: &[u64], id: u64) -> bool
    requires { IsNonDecreasing ids.now }
    ensures { result ≡ is_among ids.now id }
{
    ids.binary_search(&id).is_ok()
}

// Returns the ids of the reports whose ids are in a sorted list.
fn reports_among(
    alloc: Global,
    reports: &[Report],
    among: &[u64],
) -> Result<Listed<u64>, OutOfMemory>
    requires { IsNonDecreasing among.now }
    ensures { IfOk result (λ ids. ids ≡ ids_among among.now reports.now) }
{
    let mut ids = Listed::new(alloc);
    for report in reports {
        if is_found(among, report.id) {
            ids.push(report.id)?;
        }
    }
    Ok(ids)
}

// Returns the ids of the stored reports that a release has attached.
#[tactic(auto, using(crate::proofs::AttachedLaws::reports_among))]
fn attached_reports(alloc: Global, content: &Content) -> Result<Listed<u64>, OutOfMemory>
    ensures { IfOk result (λ ids. ids ≡ spec.attached_reports content.now.state) }
{
    let attached = attached_ids(alloc, content.releases().as_slice())?;
    reports_among(alloc, content.reports().as_slice(), &attached)
}

fn is_since(before: Minute, reply: &KeptReply) -> bool
    ensures { result ≡ events.is_since before reply.now }
{
    before <= reply.at
}

// Counts the replies to requests accepted before a moment.
fn count_before(before: Minute, kept: &[KeptReply]) -> u64
    ensures { result ≡ length (requests.kept_before before kept.now) }
{
    let mut count = 0;
    for reply in kept {
        if !is_since(before, reply) {
            count += 1;
        }
    }
    count
}

// Raises the floor of a reply's person to its number, if the request was accepted before a moment.
fn raise_by(
    alloc: Global,
    before: Minute,
    floors: &mut Vec<Floor>,
    reply: &KeptReply,
) -> Result<(), OutOfMemory>
    requires { FloorsRise floors.old.items }
    ensures { OnOk result (floors.new.items
        ≡ requests.raised_by (requests.kept_before before (reply.now ∷ [])) floors.old.items) }
{
    if is_since(before, reply) {
        Ok(())
    } else {
        raise(alloc, floors, &reply.actor, reply.number)
    }
}

// Returns the floors after a sweep removes the replies to requests accepted before a moment.
fn raised(alloc: Global, before: Minute, content: &Content) -> Result<Floors, OutOfMemory>
    ensures { IfOk result (λ floors. floors ≡ requests.raised_by
        (requests.kept_before before content.now.state.kept) content.now.state.floors) }
{
    let mut floors = copied_items(content.replies().floors(), alloc)?;
    for reply in content.replies().as_slice() {
        raise_by(alloc, before, &mut floors, reply)?;
    }
    Ok(Listed::from_vec(floors))
}

/// Decides a sweep of earlier reports and kept replies. Refuses (22) a cut-off less than three days ago.
pub(crate) fn sweep(alloc: Global, content: &Content, before: Minute) -> Result<Decision, Stop>
    requires { IsMoment before }
    ensures value { Answers (λ d. d) result (spec.decide_sweep content.now.state before) }
    ensures read { IfOk result DecisionAdmitsRead }
{
    too_young(content, before + KEPT_MINUTES)?;
    let attached = attached_reports(alloc, content)?;
    let leaving = content
        .reports()
        .leaving(alloc, before, attached.as_slice())?;
    let reports = leaving.as_slice().len() as u64;
    let kept = count_before(before, content.replies().as_slice());
    let floors = raised(alloc, before, content)?;
    Ok(Decision::Do(
        Done::Swept { reports, kept },
        Effect::sweep(before, attached, floors),
    ))
}

ghost use Rattle.std.specs.Prelude.{◌≡◌, codes, IfOk, IfSome};
ghost use Rattle.serde_json.specs.Data.{put};
ghost use Rattle.serde_json.specs.View.{view, members_view};
ghost use Rattle.asks.specs.Canonical as spec;
ghost use Rattle.asks.specs.Dones as dones;
ghost use Rattle.asks.specs.Dones.{done_of, said_done_of, done_within};
ghost use Rattle.asks.specs.Forms.{DoneHasForms, DoneWithin, SaidDoneHasForms};

use crate::digests::{digest_at, with_digest};
use crate::fields::{has_members, number_at};
use crate::members::{Members, with_count};
use crate::reply::Done;
use compact_json::Json;
use desk_io::OutOfMemory;
use serde_json::{Map, Value};
use std::alloc::Global;

// Adds the number of a release and that of a revision.
fn with_revision(
    alloc: Global,
    members: Members,
    release: u64,
    revision: u64,
) -> Result<Members, OutOfMemory>
    ensures { IfOk result (λ all. members_view all.entries ≡ put (codes "revision") (spec.count revision)
        (put (codes "release") (spec.count release) (members_view members.entries))) }
{
    let members = with_count(alloc, members, "release", release)?;
    with_count(alloc, members, "revision", revision)
}

fn done_members(alloc: Global, done: &Done) -> Result<Members, OutOfMemory>
    ensures { IfOk result (λ all. members_view all.entries ≡ spec.done_members done.now) }
{
    let members = Map::new(alloc);
    match done {
        Done::Report(id) => with_count(alloc, members, "report", *id),
        Done::Deferral(id) => with_count(alloc, members, "deferral", *id),
        Done::Filed { release, revision } => with_revision(alloc, members, *release, *revision),
        Done::Prepared {
            release,
            revision,
            digest,
        } => {
            let members = with_digest(alloc, members, digest)?;
            with_revision(alloc, members, *release, *revision)
        }
        Done::Release(id) => with_count(alloc, members, "release", *id),
        Done::Swept { reports, kept } => {
            let members = with_count(alloc, members, "reports", *reports)?;
            with_count(alloc, members, "kept", *kept)
        }
    }
}

/// Returns the JSON of the result of a request.
pub fn done_value(alloc: Global, done: &Done) -> Result<Value, OutOfMemory>
    ensures { IfOk result (λ v. view v ≡ spec.done_data done.now) }
{
    Ok(Value::Object(done_members(alloc, done)?))
}

fn report_of<'a, V: Json<'a>>(ids: u64, value: V) -> Option<Done>
    ensures { result ≡ dones.report_of ids (V.told value) }
{
    let id = number_at("report", ids, value)?;
    if has_members(1, value) {
        Some(Done::Report(id))
    } else {
        None
    }
}

fn deferral_of<'a, V: Json<'a>>(ids: u64, value: V) -> Option<Done>
    ensures { result ≡ dones.deferral_of ids (V.told value) }
{
    let id = number_at("deferral", ids, value)?;
    if has_members(1, value) {
        Some(Done::Deferral(id))
    } else {
        None
    }
}

fn filed_of<'a, V: Json<'a>>(ids: u64, value: V) -> Option<Done>
    ensures { result ≡ dones.filed_of ids (V.told value) }
{
    let release = number_at("release", ids, value)?;
    let revision = number_at("revision", ids, value)?;
    if has_members(2, value) {
        Some(Done::Filed { release, revision })
    } else {
        None
    }
}

fn prepared_of<'a, V: Json<'a>>(ids: u64, value: V) -> Option<Done>
    ensures { result ≡ dones.prepared_of ids (V.told value) }
{
    let release = number_at("release", ids, value)?;
    let revision = number_at("revision", ids, value)?;
    let digest = digest_at("digest", value)?;
    if has_members(3, value) {
        Some(Done::Prepared {
            release,
            revision,
            digest,
        })
    } else {
        None
    }
}

fn release_of<'a, V: Json<'a>>(ids: u64, value: V) -> Option<Done>
    ensures { result ≡ dones.release_of ids (V.told value) }
{
    let id = number_at("release", ids, value)?;
    if has_members(1, value) {
        Some(Done::Release(id))
    } else {
        None
    }
}

fn swept_of<'a, V: Json<'a>>(counts: u64, value: V) -> Option<Done>
    ensures { result ≡ dones.swept_of counts (V.told value) }
{
    let reports = number_at("reports", counts, value)?;
    let kept = number_at("kept", counts, value)?;
    if has_members(2, value) {
        Some(Done::Swept { reports, kept })
    } else {
        None
    }
}

#[tactic(auto, unfolding(crate::specs::Dones::done_within))]
fn done_in<'a, V: Json<'a>>(ids: u64, counts: u64, value: V) -> Option<Done>
    ensures { result ≡ done_within ids counts (V.told value) }
{
    report_of(ids, value)
        .or(deferral_of(ids, value))
        .or(filed_of(ids, value))
        .or(prepared_of(ids, value))
        .or(release_of(ids, value))
        .or(swept_of(counts, value))
}

fn done_within<'a, V: Json<'a>>(ids: u64, counts: u64, value: V) -> Option<Done>
    ensures value { result ≡ done_within ids counts (V.told value) }
    ensures form { IfSome result (DoneWithin ids counts) }
{
    done_in(ids, counts, value)
}

/// Reads the result of a request as the desk keeps it. The object must have exactly the keys of one kind. Ids and
/// numbers of revisions are at most 10^15, counts at most 4,294,967,295, and a digest has 64 lower-case hexadecimal
/// digits.
pub fn read_done<'a, V: Json<'a>>(value: V) -> Option<Done>
    ensures value { result ≡ done_of (V.told value) }
    ensures form { IfSome result DoneHasForms }
{
    done_within(1_000_000_000_000_000, 4_294_967_295, value)
}

/// Reads the result of a request as a reply states it: the same, but with all 64-bit numbers.
pub fn read_said_done<'a, V: Json<'a>>(value: V) -> Option<Done>
    ensures value { result ≡ said_done_of (V.told value) }
    ensures form { IfSome result SaidDoneHasForms }
{
    done_within(u64::MAX, u64::MAX, value)
}

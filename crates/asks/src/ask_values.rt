ghost use Rattle.std.specs.Prelude.{◌≡◌, codes, IfOk};
ghost use Rattle.serde_json.specs.Data.{put};
ghost use Rattle.serde_json.specs.View.{view, members_view};
ghost use Rattle.serde_json.specs.Written.{compact_text};
ghost use Rattle.sha2.specs.Sha256.{sha256};
ghost use Rattle.plan.specs.Check.{IsPlan};
ghost use Rattle.desk_time.specs.Limits.{IsMoment};
ghost use Rattle.asks.specs.Ranges.{IsCall};
ghost use Rattle.asks.specs.Digests.{digest_data};
ghost use Rattle.asks.specs.Canonical as spec;
ghost use Rattle.asks.specs.Canonical.{ask_data};

use crate::call::Ask;
use crate::digests::with_digest;
use crate::members::{Members, with_count, with_moment, with_name, with_text, with_value};
use crate::plan_values::plan_value;
use desk_io::{OutOfMemory, Text};
use desk_time::Minute;
use plan::Plan;
use serde_json::{Map, Value};
use sha2::{Digest, Sha256};
use std::alloc::Global;

fn ask_name(ask: &Ask) -> &'static str
    ensures { result.now ≡ spec.ask_name ask.now }
{
    match ask {
        Ask::Admit { .. } => "admit",
        Ask::Defer { .. } => "defer",
        Ask::Clear { .. } => "clear",
        Ask::Draft { .. } => "draft",
        Ask::Prepare { .. } => "prepare",
        Ask::Sign { .. } => "sign",
        Ask::Concur { .. } => "concur",
        Ask::Amend { .. } => "amend",
        Ask::Cancel { .. } => "cancel",
        Ask::Depart { .. } => "depart",
        Ask::Arrive { .. } => "arrive",
        Ask::Acknowledge { .. } => "acknowledge",
        Ask::Purge { .. } => "purge",
        Ask::Sweep { .. } => "sweep",
        Ask::ViewBoard => "board",
        Ask::ViewAlerts => "alerts",
        Ask::ViewRelease { .. } => "release",
        Ask::ViewWeather { .. } => "weather",
        Ask::ViewDeferred { .. } => "deferred",
    }
}

// Adds an item of an aircraft and the moment at which it was found inoperative.
fn with_item(
    alloc: Global,
    members: Members,
    tail: &Text,
    item: &Text,
    found: Minute,
) -> Result<Members, OutOfMemory>
    requires { IsMoment found }
    ensures { IfOk result (λ all. members_view all.entries ≡ put (codes "tail") (spec.text_data tail.now)
        (put (codes "item") (spec.text_data item.now) (put (codes "found") (spec.moment_data found)
        (members_view members.entries)))) }
{
    let members = with_moment(alloc, members, "found", found)?;
    let members = with_text(alloc, members, "item", item.bytes())?;
    with_text(alloc, members, "tail", tail.bytes())
}

fn with_plan(alloc: Global, members: Members, plan: &Plan) -> Result<Members, OutOfMemory>
    requires { IsPlan plan.now }
    ensures { IfOk result (λ all. members_view all.entries ≡ put (codes "plan") (spec.plan_data plan.now)
        (members_view members.entries)) }
{
    let value = plan_value(alloc, plan)?;
    with_value(alloc, members, "plan", value)
}

fn with_release(alloc: Global, members: Members, release: u64) -> Result<Members, OutOfMemory>
    ensures { IfOk result (λ all. members_view all.entries ≡ put (codes "release") (spec.count release)
        (members_view members.entries)) }
{
    with_count(alloc, members, "release", release)
}

// Adds the number of a release and another number at `key`.
fn with_numbered(
    alloc: Global,
    members: Members,
    release: u64,
    key: &str,
    number: u64,
) -> Result<Members, OutOfMemory>
    ensures { IfOk result (λ all. members_view all.entries ≡ put key.now (spec.count number)
        (put (codes "release") (spec.count release) (members_view members.entries))) }
{
    let members = with_release(alloc, members, release)?;
    with_count(alloc, members, key, number)
}

// Adds a revision of a release and the digest of its text.
fn with_signed(
    alloc: Global,
    members: Members,
    release: u64,
    revision: u64,
    digest: &[u8; 32],
) -> Result<Members, OutOfMemory>
    ensures { IfOk result (λ all. members_view all.entries ≡ put (codes "digest") (digest_data digest.now)
        (put (codes "revision") (spec.count revision) (put (codes "release") (spec.count release)
        (members_view members.entries)))) }
{
    let members = with_numbered(alloc, members, release, "revision", revision)?;
    with_digest(alloc, members, digest)
}

// Adds a release and the plan that amends it.
fn with_amended(
    alloc: Global,
    members: Members,
    release: u64,
    plan: &Plan,
) -> Result<Members, OutOfMemory>
    requires { IsPlan plan.now }
    ensures { IfOk result (λ all. members_view all.entries ≡ put (codes "plan") (spec.plan_data plan.now)
        (put (codes "release") (spec.count release) (members_view members.entries))) }
{
    let members = with_release(alloc, members, release)?;
    with_plan(alloc, members, plan)
}

// Adds the members of an ask other than its name.
fn with_asked(alloc: Global, members: Members, ask: &Ask) -> Result<Members, OutOfMemory>
    requires { IsCall ask.now }
    ensures { IfOk result (λ all. members_view all.entries ≡ spec.with_asked ask.now (members_view members.entries)) }
{
    match ask {
        Ask::Admit { text } => with_text(alloc, members, "text", text.bytes()),
        Ask::Defer { tail, item, found } => with_item(alloc, members, tail, item, *found),
        Ask::Clear { deferral } => with_count(alloc, members, "deferral", *deferral),
        Ask::Draft { plan } => with_plan(alloc, members, plan),
        Ask::Prepare { release } => with_release(alloc, members, *release),
        Ask::Sign {
            release,
            revision,
            digest,
        } => with_signed(alloc, members, *release, *revision, digest),
        Ask::Concur {
            release,
            revision,
            digest,
        } => with_signed(alloc, members, *release, *revision, digest),
        Ask::Amend { release, plan } => with_amended(alloc, members, *release, plan),
        Ask::Cancel { release } => with_release(alloc, members, *release),
        Ask::Depart { release, leg } => {
            with_numbered(alloc, members, *release, "leg", *leg as u64)
        }
        Ask::Arrive { release, leg } => {
            with_numbered(alloc, members, *release, "leg", *leg as u64)
        }
        Ask::Acknowledge { release, version } => {
            with_numbered(alloc, members, *release, "version", *version)
        }
        Ask::Purge { release } => with_release(alloc, members, *release),
        Ask::Sweep { before } => with_moment(alloc, members, "before", *before),
        Ask::ViewBoard => Ok(members),
        Ask::ViewAlerts => Ok(members),
        Ask::ViewRelease { release } => with_release(alloc, members, *release),
        Ask::ViewWeather { station } => with_text(alloc, members, "station", &station.bytes()),
        Ask::ViewDeferred { tail } => with_text(alloc, members, "tail", tail.bytes()),
    }
}

/// Returns the JSON of an ask.
#[tactic(auto, unfolding(crate::specs::Canonical::ask_data))]
pub fn ask_value(alloc: Global, ask: &Ask) -> Result<Value, OutOfMemory>
    requires { IsCall ask.now }
    ensures { IfOk result (λ v. view v ≡ ask_data ask.now) }
{
    let members = with_name(alloc, Map::new(alloc), "do", ask_name(ask))?;
    Ok(Value::Object(with_asked(alloc, members, ask)?))
}

/// Returns the compact JSON text of an ask, without spaces and with the keys in byte order.
pub fn ask_text(alloc: Global, ask: &Ask) -> Result<Text, OutOfMemory>
    requires { IsCall ask.now }
    ensures { IfOk result (λ t. t ≡ compact_text (ask_data ask.now)) }
{
    let value = ask_value(alloc, ask)?;
    Ok(Text::from_vec(value.to_vec(alloc)?))
}

fn sha256_of(text: &[u8]) -> [u8; 32]
    ensures { result ≡ sha256 text.now }
{
    let mut hasher = Sha256::new();
    hasher.update(text);
    hasher.finalize()
}

/// Returns the SHA-256 of an ask's compact text, by which a repeated ask is recognized.
#[tactic(auto, unfolding(crate::specs::Canonical::ask_digest))]
pub fn ask_digest(alloc: Global, ask: &Ask) -> Result<[u8; 32], OutOfMemory>
    requires { IsCall ask.now }
    ensures { IfOk result (λ digest. digest ≡ spec.ask_digest ask.now) }
{
    let text = ask_text(alloc, ask)?;
    Ok(sha256_of(text.bytes()))
}

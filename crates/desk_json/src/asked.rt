ghost use Rattle.std.specs.Prelude.{◌≡◌};
ghost use Rattle.compact_json.specs.Elements.{data_at};
ghost use Rattle.desk_json.specs.Faults as spec;
ghost use Rattle.desk_json.specs.Faults.{Answers};

use crate::bad_call::{CallFault, bad, found, lack};
use crate::fields::{id_of, moment_of, plan_of, short_of, text_of};
use crate::keys::{AskKind, Object, kind_of, only_keys};
use asks::{Ask, CallWhy, amount_at, digest_at, station_at, text_at};
use compact_json::Element;
use std::alloc::Global;

// A revision of a release, and the digest of its text.
#[derive(Clone, Copy)]
struct Signed {
    release: u64,
    revision: u64,
    digest: [u8; 32],
}

// A leg of a release.
#[derive(Clone, Copy)]
struct Flown {
    release: u64,
    leg: u32,
}

/// Reads the release that an object names.
pub(crate) fn release_of(alloc: Global, value: Element<'_>) -> Result<u64, CallFault>
    ensures { Answers (spec.release_of (data_at value.entry)) result }
{
    id_of(alloc, "release", value)
}

fn defer_of(alloc: Global, value: Element<'_>) -> Result<Ask, CallFault>
    ensures { Answers (spec.defer_of (data_at value.entry)) result }
{
    let found = moment_of(alloc, "found", value)?;
    let item = short_of(alloc, "item", value)?;
    let tail = short_of(alloc, "tail", value)?;
    Ok(Ask::Defer { tail, item, found })
}

fn signed_of(alloc: Global, value: Element<'_>) -> Result<Signed, CallFault>
    ensures { Answers (spec.signed_of (data_at value.entry)) result }
{
    let digest = found(alloc, "digest", value, digest_at("digest", value))?;
    let release = release_of(alloc, value)?;
    let revision = id_of(alloc, "revision", value)?;
    Ok(Signed {
        release,
        revision,
        digest,
    })
}

fn sign_of(alloc: Global, value: Element<'_>) -> Result<Ask, CallFault>
    ensures { Answers (spec.ask_of_kind AskKind.Sign (data_at value.entry)) result }
{
    let Signed {
        release,
        revision,
        digest,
    } = signed_of(alloc, value)?;
    Ok(Ask::Sign {
        release,
        revision,
        digest,
    })
}

fn concur_of(alloc: Global, value: Element<'_>) -> Result<Ask, CallFault>
    ensures { Answers (spec.ask_of_kind AskKind.Concur (data_at value.entry)) result }
{
    let Signed {
        release,
        revision,
        digest,
    } = signed_of(alloc, value)?;
    Ok(Ask::Concur {
        release,
        revision,
        digest,
    })
}

fn amend_of(alloc: Global, value: Element<'_>) -> Result<Ask, CallFault>
    ensures { Answers (spec.amend_of (data_at value.entry)) result }
{
    let plan = plan_of(alloc, "plan", value)?;
    let release = release_of(alloc, value)?;
    Ok(Ask::Amend { release, plan })
}

fn flown_of(alloc: Global, value: Element<'_>) -> Result<Flown, CallFault>
    ensures { Answers (spec.flown_of (data_at value.entry)) result }
{
    let leg = found(alloc, "leg", value, amount_at("leg", value))?;
    let release = release_of(alloc, value)?;
    Ok(Flown { release, leg })
}

fn acknowledge_of(alloc: Global, value: Element<'_>) -> Result<Ask, CallFault>
    ensures { Answers (spec.acknowledge_of (data_at value.entry)) result }
{
    let release = release_of(alloc, value)?;
    let version = id_of(alloc, "version", value)?;
    Ok(Ask::Acknowledge { release, version })
}

fn weather_of(alloc: Global, value: Element<'_>) -> Result<Ask, CallFault>
    ensures { Answers (spec.ask_of_kind AskKind.Weather (data_at value.entry)) result }
{
    let station = found(alloc, "station", value, station_at("station", value))?;
    Ok(Ask::ViewWeather { station })
}

// Reads the fields of an ask of this kind.
fn ask_of_kind(alloc: Global, kind: AskKind, value: Element<'_>) -> Result<Ask, CallFault>
    ensures { Answers (spec.ask_of_kind kind (data_at value.entry)) result }
{
    match kind {
        AskKind::Admit => text_of(alloc, "text", value).map(|text| Ask::Admit { text }),
        AskKind::Defer => defer_of(alloc, value),
        AskKind::Clear => id_of(alloc, "deferral", value).map(|deferral| Ask::Clear { deferral }),
        AskKind::Draft => plan_of(alloc, "plan", value).map(|plan| Ask::Draft { plan }),
        AskKind::Prepare => release_of(alloc, value).map(|release| Ask::Prepare { release }),
        AskKind::Sign => sign_of(alloc, value),
        AskKind::Concur => concur_of(alloc, value),
        AskKind::Amend => amend_of(alloc, value),
        AskKind::Cancel => release_of(alloc, value).map(|release| Ask::Cancel { release }),
        AskKind::Depart => {
            flown_of(alloc, value).map(|Flown { release, leg }| Ask::Depart { release, leg })
        }
        AskKind::Arrive => {
            flown_of(alloc, value).map(|Flown { release, leg }| Ask::Arrive { release, leg })
        }
        AskKind::Acknowledge => acknowledge_of(alloc, value),
        AskKind::Purge => release_of(alloc, value).map(|release| Ask::Purge { release }),
        AskKind::Sweep => moment_of(alloc, "before", value).map(|before| Ask::Sweep { before }),
        AskKind::Board => Ok(Ask::ViewBoard),
        AskKind::Alerts => Ok(Ask::ViewAlerts),
        AskKind::Release => release_of(alloc, value).map(|release| Ask::ViewRelease { release }),
        AskKind::Weather => weather_of(alloc, value),
        AskKind::Deferred => short_of(alloc, "tail", value).map(|tail| Ask::ViewDeferred { tail }),
    }
}

/// Reads an ask from an object, or returns its first fault. Checks the name first, then for unexpected keys, then
/// each key.
pub(crate) fn ask_or_fault(alloc: Global, value: Element<'_>) -> Result<Ask, CallFault>
    ensures { Answers (spec.ask_or_fault (data_at value.entry)) result }
{
    let Some(name) = text_at("do", value) else {
        return Err(lack(alloc, "do", value));
    };
    let Some(kind) = kind_of(name) else {
        return Err(bad(alloc, CallWhy::UnknownAsk, "do"));
    };
    only_keys(alloc, Object::Asked(kind), value)?;
    ask_of_kind(alloc, kind, value)
}

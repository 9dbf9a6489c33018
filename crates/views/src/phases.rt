ghost use Rattle.std.specs.Prelude.{◌≡◌, IfOk};
ghost use Rattle.desk_time.specs.Limits.{IsMoment};
ghost use Rattle.plan.specs.Texts.{HasMoment};
ghost use Rattle.serde_json.specs.View.{members_view, view};
ghost use Rattle.views.specs.Objects as spec;

use crate::values::with_flag;
use asks::{Members, with_count, with_moment, with_name};
use desk_io::OutOfMemory;
use desk_time::Minute;
use plan::Phase;
use serde_json::{Map, Value};
use std::alloc::Global;

fn named(alloc: Global, name: &str) -> Result<Members, OutOfMemory>
    ensures { IfOk result (λ all. members_view all.entries ≡ spec.named name.now) }
{
    with_name(alloc, Map::new(alloc), "name", name)
}

fn flying(alloc: Global, leg: u32) -> Result<Members, OutOfMemory>
    ensures { IfOk result (λ all. members_view all.entries ≡ spec.phase_members (Phase.Flying leg)) }
{
    let members = with_count(alloc, Map::new(alloc), "leg", leg as u64)?;
    with_name(alloc, members, "name", "flying")
}

fn stopped(alloc: Global, next: u32, since: Minute, again: bool) -> Result<Members, OutOfMemory>
    requires { IsMoment since }
    ensures { IfOk result (λ all. members_view all.entries ≡ spec.phase_members (Phase.Stopped next since again)) }
{
    let members = with_flag(alloc, Map::new(alloc), "again", again)?;
    let members = with_name(alloc, members, "name", "stopped")?;
    let members = with_count(alloc, members, "next", next as u64)?;
    with_moment(alloc, members, "since", since)
}

fn ended(alloc: Global, name: &str, at: Minute) -> Result<Members, OutOfMemory>
    requires { IsMoment at }
    ensures { IfOk result (λ all. members_view all.entries ≡ spec.ended_members name.now at) }
{
    let members = with_moment(alloc, Map::new(alloc), "at", at)?;
    with_name(alloc, members, "name", name)
}

fn phase_members(alloc: Global, phase: Phase) -> Result<Members, OutOfMemory>
    requires { HasMoment phase }
    ensures { IfOk result (λ all. members_view all.entries ≡ spec.phase_members phase) }
{
    match phase {
        Phase::Drafted => named(alloc, "drafted"),
        Phase::Ready => named(alloc, "ready"),
        Phase::Flying { leg } => flying(alloc, leg),
        Phase::Stopped { next, since, again } => stopped(alloc, next, since, again),
        Phase::Completed { at } => ended(alloc, "completed", at),
        Phase::Cancelled { at } => ended(alloc, "cancelled", at),
    }
}

/// A phase by its name, with the leg in flight, the leg that departs next, or the moment of its end.
pub(crate) fn phase_value(alloc: Global, phase: Phase) -> Result<Value, OutOfMemory>
    requires { HasMoment phase }
    ensures { IfOk result (λ v. view v ≡ spec.phase_data phase) }
{
    Ok(Value::Object(phase_members(alloc, phase)?))
}

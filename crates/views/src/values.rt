ghost use Rattle.std.specs.Prelude.{◌≡◌, ◌≤◌, codes, IfOk, IfSome};
ghost use Rattle.serde_json.specs.Data.{boolean, put};
ghost use Rattle.serde_json.specs.View.{members_view, view};
ghost use Rattle.asks.specs.Canonical.{count, moment_data, option_data};
ghost use Rattle.views.specs.Objects as spec;

use asks::{Members, count_value, moment_value, with_value};
use desk_io::OutOfMemory;
use desk_time::{FIRST, Minute, SHOWN_LAST};
use serde_json::Value;
use std::alloc::Global;

/// A number, or null.
pub(crate) fn optional_count(value: Option<u32>) -> Value
    ensures { view result ≡ option_data count value }
{
    match value {
        None => Value::Null,
        Some(number) => count_value(number as u64),
    }
}

/// A long number, or null.
pub(crate) fn optional_number(value: Option<u64>) -> Value
    ensures { view result ≡ option_data count value }
{
    match value {
        None => Value::Null,
        Some(number) => count_value(number),
    }
}

/// A moment, or null.
pub(crate) fn optional_moment(alloc: Global, at: Option<Minute>) -> Result<Value, OutOfMemory>
    requires low { IfSome at (λ m. FIRST ≤ m) }
    requires high { IfSome at (λ m. m ≤ SHOWN_LAST) }
    ensures { IfOk result (λ v. view v ≡ option_data moment_data at) }
{
    match at {
        None => Ok(Value::Null),
        Some(at) => moment_value(alloc, at),
    }
}

/// Adds a flag to an object.
pub(crate) fn with_flag(
    alloc: Global,
    members: Members,
    key: &str,
    flag: bool,
) -> Result<Members, OutOfMemory>
    ensures { IfOk result (λ all. members_view all.entries ≡ put key.now (boolean flag) (members_view members.entries)) }
{
    with_value(alloc, members, key, Value::Bool(flag))
}

// A visibility in whole metres, or null.
fn metres_value(vis: Option<u32>) -> Value
    ensures { view result ≡ spec.metres_data vis }
{
    match vis {
        None => Value::Null,
        Some(vis) => count_value((vis / 1000) as u64),
    }
}

// Adds a number, or null, to an object.
fn with_optional(
    alloc: Global,
    members: Members,
    key: &str,
    value: Option<u32>,
) -> Result<Members, OutOfMemory>
    ensures { IfOk result (λ all. members_view all.entries ≡ put key.now (option_data count value)
        (members_view members.entries)) }
{
    with_value(alloc, members, key, optional_count(value))
}

// Adds a visibility in whole metres, or null, to an object.
fn with_metres(alloc: Global, members: Members, vis: Option<u32>) -> Result<Members, OutOfMemory>
    ensures { IfOk result (λ all. members_view all.entries ≡ put (codes "visibility_m") (spec.metres_data vis)
        (members_view members.entries)) }
{
    with_value(alloc, members, "visibility_m", metres_value(vis))
}

/// Adds a visibility in metres and in millimetres to an object.
pub(crate) fn with_visibility(
    alloc: Global,
    members: Members,
    vis: Option<u32>,
) -> Result<Members, OutOfMemory>
    ensures { IfOk result (λ all. members_view all.entries ≡ spec.with_visibility vis (members_view members.entries)) }
{
    let members = with_metres(alloc, members, vis)?;
    with_optional(alloc, members, "visibility_mm", vis)
}

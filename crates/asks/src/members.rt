ghost use Rattle.std.specs.Prelude.{◌≡◌, ◌≤◌, IfOk};
ghost use Rattle.serde_json.specs.Data.{string, put};
ghost use Rattle.serde_json.specs.View.{view, members_view};
ghost use Rattle.asks.specs.Canonical as spec;

use crate::values::{count_value, moment_value, name_value, text_value};
use desk_io::OutOfMemory;
use desk_time::{FIRST, Minute, SHOWN_LAST};
use serde_json::{Map, Value};
use std::alloc::Global;

/// The members of a JSON object.
pub type Members = Map<String, Value>;

/// Adds a member to an object.
#[tactic(auto, using(crate::proofs::Puts::put_member))]
pub fn with_value(
    alloc: Global,
    mut members: Members,
    key: &str,
    value: Value,
) -> Result<Members, OutOfMemory>
    ensures { IfOk result (λ all. members_view all.entries ≡ put key.now (view value) (members_view members.entries)) }
{
    members.insert(String::from_str(alloc, key)?, value)?;
    Ok(members)
}

/// Adds a number to an object.
pub fn with_count(
    alloc: Global,
    members: Members,
    key: &str,
    count: u64,
) -> Result<Members, OutOfMemory>
    ensures { IfOk result (λ all. members_view all.entries ≡ put key.now (spec.count count)
        (members_view members.entries)) }
{
    with_value(alloc, members, key, count_value(count))
}

/// Adds a name to an object.
pub fn with_name(
    alloc: Global,
    members: Members,
    key: &str,
    name: &str,
) -> Result<Members, OutOfMemory>
    ensures { IfOk result (λ all. members_view all.entries ≡ put key.now (string name.now)
        (members_view members.entries)) }
{
    let value = name_value(alloc, name)?;
    with_value(alloc, members, key, value)
}

/// Adds a text to an object.
pub fn with_text(
    alloc: Global,
    members: Members,
    key: &str,
    text: &[u8],
) -> Result<Members, OutOfMemory>
    ensures { IfOk result (λ all. members_view all.entries ≡ put key.now (spec.text_data text.now)
        (members_view members.entries)) }
{
    let value = text_value(alloc, text)?;
    with_value(alloc, members, key, value)
}

/// Adds a moment to an object.
pub fn with_moment(
    alloc: Global,
    members: Members,
    key: &str,
    at: Minute,
) -> Result<Members, OutOfMemory>
    requires low { FIRST ≤ at }
    requires high { at ≤ SHOWN_LAST }
    ensures { IfOk result (λ all. members_view all.entries ≡ put key.now (spec.moment_data at)
        (members_view members.entries)) }
{
    let value = moment_value(alloc, at)?;
    with_value(alloc, members, key, value)
}

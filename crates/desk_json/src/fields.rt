ghost use Rattle.std.specs.Prelude.{◌≡◌};
ghost use Rattle.std.specs.Option.{option_map};
ghost use Rattle.compact_json.specs.Elements.{data_at};
ghost use Rattle.asks.specs.Fields as fields;
ghost use Rattle.desk_json.specs.Keys.{need};
ghost use Rattle.desk_json.specs.Faults as spec;
ghost use Rattle.desk_json.specs.Faults.{Answers};

use crate::bad_call::{CallFault, found, lack};
use asks::{id_at, moment_at, read_plan, short_at, text_at};
use compact_json::Element;
use desk_io::Text;
use desk_time::Minute;
use plan::Plan;
use std::alloc::Global;

/// Reads the text at a key.
pub(crate) fn text_of(alloc: Global, key: &str, value: Element<'_>) -> Result<Text, CallFault>
    ensures { Answers (need fields.text_at key.now (data_at value.entry)) result }
{
    match text_at(key, value) {
        Some(text) => Ok(Text::of(alloc, text.as_bytes())?),
        None => Err(lack(alloc, key, value)),
    }
}

/// Reads the text at a key, which has at most 64 bytes.
pub(crate) fn short_of(alloc: Global, key: &str, value: Element<'_>) -> Result<Text, CallFault>
    ensures { Answers (need fields.short_at key.now (data_at value.entry)) result }
{
    match short_at(key, value) {
        Some(text) => Ok(Text::of(alloc, text.as_bytes())?),
        None => Err(lack(alloc, key, value)),
    }
}

/// Reads the id at a key.
pub(crate) fn id_of(alloc: Global, key: &str, value: Element<'_>) -> Result<u64, CallFault>
    ensures { Answers (need fields.id_at key.now (data_at value.entry)) result }
{
    found(alloc, key, value, id_at(key, value))
}

/// Reads the moment at a key.
pub(crate) fn moment_of(alloc: Global, key: &str, value: Element<'_>) -> Result<Minute, CallFault>
    ensures { Answers (need fields.moment_at key.now (data_at value.entry)) result }
{
    found(alloc, key, value, moment_at(key, value))
}

/// Reads the plan at a key.
pub(crate) fn plan_of(alloc: Global, key: &str, value: Element<'_>) -> Result<Plan, CallFault>
    ensures { Answers (need spec.plan_at key.now (data_at value.entry)) result }
{
    match value.get(key) {
        Some(plan) => found(alloc, key, value, read_plan(alloc, plan)?),
        None => Err(lack(alloc, key, value)),
    }
}

/// Returns the object at a key.
pub(crate) fn object_at<'a>(key: &str, value: Element<'a>) -> Option<Element<'a>>
    ensures { option_map data_at result ≡ spec.object_at key.now (data_at value.entry) }
{
    match value.get(key) {
        Some(found) if found.is_object() => Some(found),
        _ => None,
    }
}

ghost use Rattle.std.specs.Prelude.{◌≡◌, ◌≤◌, IfOk};
ghost use Rattle.std.specs.Option.{option_map};
ghost use Rattle.serde_json.specs.Data.{string};
ghost use Rattle.serde_json.specs.View.{view};
ghost use Rattle.asks.specs.Canonical as spec;

use desk_io::OutOfMemory;
use desk_time::{FIRST, Minute, SHOWN_LAST, show};
use serde_json::Value;
use std::alloc::Global;

/// Makes a JSON string of a name.
pub fn name_value(alloc: Global, name: &str) -> Result<Value, OutOfMemory>
    ensures { IfOk result (λ v. view v ≡ string name.now) }
{
    Ok(Value::String(String::from_str(alloc, name)?))
}

/// Makes a JSON string of a text. Bytes that aren't UTF-8 become the replacement character.
pub fn text_value(alloc: Global, text: &[u8]) -> Result<Value, OutOfMemory>
    ensures { IfOk result (λ v. view v ≡ spec.text_data text.now) }
{
    Ok(Value::String(String::from_utf8_lossy(alloc, text)?))
}

/// Makes a JSON number. It allocates nothing.
pub fn count_value(count: u64) -> Value
    ensures { view result ≡ spec.count count }
{
    Value::from(count)
}

/// Makes a JSON string of a moment, for example `2025-03-12T17:00Z`.
pub fn moment_value(alloc: Global, at: Minute) -> Result<Value, OutOfMemory>
    requires low { FIRST ≤ at }
    requires high { at ≤ SHOWN_LAST }
    ensures { IfOk result (λ v. view v ≡ spec.moment_data at) }
{
    text_value(alloc, &show(at))
}

/// Returns the value, or null if there is none. It allocates nothing.
pub fn option_value(value: Option<Value>) -> Value
    ensures { view result ≡ spec.option_data (λ d. d) (option_map view value) }
{
    match value {
        Some(value) => value,
        None => Value::Null,
    }
}

ghost use Rattle.std.specs.Prelude.{◌≡◌, IfOk};
ghost use Rattle.serde_json.specs.View.{view};
ghost use Rattle.asks.specs.Ranges.{IsCall};
ghost use Rattle.desk_json.specs.Canonical as spec;

use asks::{Call, ask_value, with_count, with_text, with_value};
use desk_io::{OutOfMemory, Text};
use serde_json::{Map, Value};
use std::alloc::Global;

fn call_value(alloc: Global, call: &Call) -> Result<Value, OutOfMemory>
    requires { IsCall call.now.ask }
    ensures { IfOk result (λ v. view v ≡ spec.call_data call.now) }
{
    let members = with_text(alloc, Map::new(alloc), "actor", call.actor.bytes())?;
    let ask = ask_value(alloc, &call.ask)?;
    let members = with_value(alloc, members, "ask", ask)?;
    let members = with_count(alloc, members, "number", call.number)?;
    Ok(Value::Object(members))
}

/// Writes a call as the history shows it, without the key of its person. It is JSON without white space, with its
/// keys in byte order.
pub fn call_text(alloc: Global, call: &Call) -> Result<Text, OutOfMemory>
    requires { IsCall call.now.ask }
    ensures { IfOk result (λ t. t ≡ spec.call_text call.now) }
{
    let value = call_value(alloc, call)?;
    Ok(Text::from_vec(value.to_vec(alloc)?))
}

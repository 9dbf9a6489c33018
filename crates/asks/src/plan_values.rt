ghost use Rattle.std.specs.Prelude.{◌≡◌, IfOk};
ghost use Rattle.serde_json.specs.View.{view};
ghost use Rattle.serde_json.specs.Written.{compact_text};
ghost use Rattle.plan.specs.Check.{IsPlan};
ghost use Rattle.asks.specs.Canonical as spec;
ghost use Rattle.asks.specs.Canonical.{plan_data};

use crate::leg_values::legs_value;
use crate::members::{with_name, with_text, with_value};
use desk_io::{OutOfMemory, Text};
use plan::{Kind, Plan};
use serde_json::{Map, Value};
use std::alloc::Global;

fn kind_name(kind: Kind) -> &'static str
    ensures { result.now ≡ spec.kind_name kind }
{
    match kind {
        Kind::Domestic => "domestic",
        Kind::Flag => "flag",
    }
}

/// Returns the JSON of a plan.
#[tactic(auto, unfolding(crate::specs::Canonical::plan_data))]
pub fn plan_value(alloc: Global, plan: &Plan) -> Result<Value, OutOfMemory>
    requires { IsPlan plan.now }
    ensures { IfOk result (λ v. view v ≡ plan_data plan.now) }
{
    let legs = legs_value(alloc, plan.legs.as_slice())?;
    let members = with_value(alloc, Map::new(alloc), "legs", legs)?;
    let members = with_name(alloc, members, "kind", kind_name(plan.kind))?;
    let members = with_text(alloc, members, "captain", plan.captain.bytes())?;
    let members = with_text(alloc, members, "flight", plan.flight.bytes())?;
    let members = with_text(alloc, members, "tail", plan.tail.bytes())?;
    Ok(Value::Object(members))
}

/// Returns the compact JSON text of a plan, without spaces and with the keys in byte order.
pub fn plan_text(alloc: Global, plan: &Plan) -> Result<Text, OutOfMemory>
    requires { IsPlan plan.now }
    ensures { IfOk result (λ t. t ≡ compact_text (plan_data plan.now)) }
{
    let value = plan_value(alloc, plan)?;
    Ok(Text::from_vec(value.to_vec(alloc)?))
}

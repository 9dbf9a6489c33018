ghost use Rattle.std.specs.Prelude.{◌≡◌, ◌≤◌, map, IfOk, IfSome};
ghost use Rattle.std.specs.List.{AllByRecursion};
ghost use Rattle.desk_time.specs.Limits.{IsMoment};
ghost use Rattle.serde_json.specs.View.{members_view, view};
ghost use Rattle.views.specs.Objects as spec;
ghost use Rattle.views.specs.Shown.{deferred_shown, due_shown, item_shown, items_shown};

use crate::values::optional_moment;
use asks::{Members, with_count, with_moment, with_text, with_value};
use deferrals::{Deferral, due};
use desk_io::{OutOfMemory, Text};
use desk_state::Content;
use desk_time::{FIRST, Minute, SHOWN_LAST};
use ops_tables::Tables;
use serde_json::{Map, Value};
use std::alloc::Global;

// The moment by which an item must be repaired, if the type's list has it.
fn due_of(tables: &Tables, kind: &[u8], deferral: &Deferral) -> Option<Minute>
    requires { IsMoment deferral.now.found }
    ensures due { result ≡ due_shown tables.now kind.now deferral.now }
    ensures low { IfSome result (λ m. FIRST ≤ m) }
    ensures high { IfSome result (λ m. m ≤ SHOWN_LAST) }
{
    match tables.item(kind, deferral.item.bytes()) {
        None => None,
        Some(row) => Some(due(row, deferral.found)),
    }
}

fn item_members(
    alloc: Global,
    tables: &Tables,
    kind: &[u8],
    deferral: &Deferral,
) -> Result<Members, OutOfMemory>
    requires { IsMoment deferral.now.found }
    ensures { IfOk result (λ all. members_view all.entries ≡ spec.item_members
        (item_shown tables.now kind.now deferral.now)) }
{
    let members = with_count(alloc, Map::new(alloc), "deferral", deferral.id)?;
    let due = optional_moment(alloc, due_of(tables, kind, deferral))?;
    let members = with_value(alloc, members, "due", due)?;
    let members = with_moment(alloc, members, "found", deferral.found)?;
    with_text(alloc, members, "item", deferral.item.bytes())
}

#[tactic(auto, unfolding(crate::specs::Objects::item_data))]
fn item_value(
    alloc: Global,
    tables: &Tables,
    kind: &[u8],
    deferral: &Deferral,
) -> Result<Value, OutOfMemory>
    requires { IsMoment deferral.now.found }
    ensures { IfOk result (λ v. view v ≡ spec.item_data (item_shown tables.now kind.now deferral.now)) }
{
    Ok(Value::Object(item_members(alloc, tables, kind, deferral)?))
}

fn item_values(
    alloc: Global,
    tables: &Tables,
    kind: &[u8],
    deferrals: &[&Deferral],
) -> Result<Vec<Value>, OutOfMemory>
    requires { AllByRecursion (λ d. IsMoment d.found) (map (λ d. d.now) deferrals.now) }
    ensures { IfOk result (λ values. map view values.items ≡ map spec.item_data
        (items_shown tables.now kind.now (map (λ d. d.now) deferrals.now))) }
{
    let mut values = Vec::new(alloc);
    for deferral in deferrals {
        values.push(item_value(alloc, tables, kind, deferral)?)?;
    }
    Ok(values)
}

/// The members of the view of an aircraft's deferred items. `kind` is its type.
pub(crate) fn deferred_members(
    alloc: Global,
    content: &Content,
    tail: &Text,
    kind: &[u8],
) -> Result<Members, OutOfMemory>
    ensures { IfOk result (λ all. members_view all.entries ≡ spec.deferred_members
        (deferred_shown content.now.state tail.now kind.now)) }
{
    content.holds();
    let members = with_moment(alloc, Map::new(alloc), "at", content.moment())?;
    let open = content.deferrals().open_on(alloc, tail.bytes())?;
    let values = item_values(alloc, content.tables(), kind, &open)?;
    let members = with_value(alloc, members, "deferrals", Value::Array(values))?;
    with_text(alloc, members, "tail", tail.bytes())
}

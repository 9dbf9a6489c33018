ghost use Rattle.std.specs.Prelude.{◌≡◌, true, IfOk, Some};
ghost use Rattle.ops_tables.specs.Limits.{FitsActor};
ghost use Rattle.ops_tables.specs.Names.{has_name};
ghost use Rattle.ops_tables.specs.Tables.{actor_of};
ghost use Rattle.relief.specs.Calls.{IsForDesk};
ghost use Rattle.relief.specs.Roster.{desks_of, is_dispatcher_role};

use asks::Call;
use desk_io::{Copied, OutOfMemory, Text};
use ops_tables::{Actor, Tables};
use std::alloc::Global;

// Returns the dispatcher after whom a desk is named.
#[tactic(auto, using(crate::proofs::NameLaws::is_dispatchers))]
fn namesake<'a>(tables: &'a Tables, desk: &[u8]) -> &'a Actor
    requires { has_name (desks_of tables.now) desk.now ≡ true }
    ensures value { actor_of tables.now desk.now ≡ Some result.now }
    ensures within { FitsActor result.now }
    ensures role { is_dispatcher_role result.now.role ≡ true }
{
    // No two people have the same name.
    let _ = tables.actors();
    match tables.actor(desk) {
        Some(person) => person,
        None => unreachable!(),
    }
}

fn renamed(alloc: Global, call: &Call, name: &[u8], key: &[u8]) -> Result<Call, OutOfMemory>
    ensures { IfOk result (λ made. made ≡ record call.now { actor = name.now; key = key.now }) }
{
    Ok(Call {
        actor: Text::of(alloc, name)?,
        key: Text::of(alloc, key)?,
        number: call.number,
        ask: call.ask.copy(alloc)?,
    })
}

/// Returns the same call under the name and the key of a desk.
pub(crate) fn call_for(
    alloc: Global,
    call: &Call,
    desk: &[u8],
    tables: &Tables,
) -> Result<Call, OutOfMemory>
    requires { has_name (desks_of tables.now) desk.now ≡ true }
    ensures { IfOk result (IsForDesk tables.now desk.now call.now) }
{
    renamed(alloc, call, desk, namesake(tables, desk).key())
}

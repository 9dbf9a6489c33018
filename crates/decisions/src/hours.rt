ghost use Rattle.std.specs.Prelude.{◌≡◌};
ghost use Rattle.desk_state.specs.Hours as spec;

use ops_tables::Tables;
use plan::Plan;

/// Returns the hours of a plan's captain in the type of its aircraft, by the tables. Returns 0 if the tables lack the
/// aircraft.
#[tactic(auto, unfolding(desk_state::specs::Hours::captain_hours))]
pub(crate) fn captain_hours(tables: &Tables, plan: &Plan) -> u32
    ensures { result ≡ spec.captain_hours tables.now plan.now }
{
    match tables.type_of(plan.tail.bytes()) {
        None => 0,
        Some(aircraft) => tables.hours(plan.captain.bytes(), aircraft.kind.bytes()),
    }
}

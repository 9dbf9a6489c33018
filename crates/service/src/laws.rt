//! What follows from the one list of a service.
ghost use Rattle.std.specs.Prelude.{◌≡◌, ◌≢◌, ◌++◌, ◌∷◌, [], true, List, Option, ℕ};
ghost use Rattle.desk.specs.Seen.{DeskAt};
ghost use Rattle.desk_io.specs.Over.{Over};
ghost use Rattle.desk_net.specs.Seen.{ClockSeen};
ghost use Rattle.service.specs.Shared.{AreTakenFrom, IsOneList, ticks_in};
ghost use Rattle.service.specs.Events.{entries_in, keeps};
ghost use Rattle.service.specs.declared.events.Event.{Event as AnEvent};
ghost use Rattle.service.specs.declared.events.Event.TheVariants.{Missed};
ghost use Rattle.service.specs.declared.misses.Miss.{Miss as AMiss};
ghost use Rattle.service.specs.declared.misses.MissOf.TheVariants as of;

/// Each tick of the history goes to an answer that the clock gave since the opening. The answers are taken in order,
/// and none is taken twice.
pub fn ticks_take_answers()
    ensures { (clock : Over ClockSeen) → (desk : Over DeskAt) → (list : List AnEvent) → IsOneList clock desk list
        → (asked : List (Option ℕ)) × (clock.after.answers ≡ clock.before.answers ++ asked)
        × AreTakenFrom asked (ticks_in desk.after.state.entries) }
{}

/// After a reply that couldn't be stored, rows count as kept again only once a later entry was stored.
#[tactic(auto, using(crate::proofs::KeepsLaws::kept_again))]
pub fn kept_again_by_an_entry()
    ensures { (front later : List AnEvent) → (m : AMiss) → m.source ≡ of.Keeper → keeps (front ++ Missed m ∷ later) ≡ true
        → entries_in later ≢ [] }
{}

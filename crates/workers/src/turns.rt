ghost use Rattle.std.specs.Prelude.{◌≡◌, ◌-◌, ◌<◌, ◌^◌, ◌++◌, ◌∷◌, [], Bool, true, IfNone, IfSome, length};
ghost use mathlib.Core.List.{IsPrefix};
ghost use Rattle.turn_lock.specs.Elements.{AddsNoneOf, elements_of};
ghost use Rattle.turn_lock.specs.Passes.{IsTurnOf, lock_id, pass_lock, pass_number, pass_numbers, pass_seen, turn_taken, turn_value};
ghost use Rattle.workers.specs.Passages.{failure, has_failed, worker_of};
ghost use Rattle.workers.specs.Work.{IsLater};
ghost use Rattle.workers.specs.declared.passages.Passage.TheVariants.{Came, Went};

use crate::doorway::Doorway;
use connections::Visited;
use desk_net::Door;
use std::sync::Wait;
use turn_lock::{Pass, Turn, TurnLock};

// Waits for a turn at the door. If the passages can't be counted any more, it waits forever.
fn take<R: Wait, D: Door>(
    rt: &R,
    doors: &TurnLock<Doorway<D>>,
    mut pass: Pass<Doorway<D>>,
) -> Turn<Doorway<D>>
    requires { pass_lock pass ≡ lock_id doors.now }
    ensures turn { IsTurnOf pass result }
    ensures taken { (turn_value result).passages ≡ turn_taken result }
    ensures seen { IsPrefix (pass_seen pass) (turn_taken result) }
    ensures own { AddsNoneOf worker_of (pass_numbers pass) (pass_seen pass) (turn_taken result) }
    ensures room { length (turn_value result).passages < 2 ^ 64 - 1 }
{
    for _ in rt.forever() {
        let mut turn = doors.take(rt, pass);
        if turn.value().has_room() {
            return turn;
        }
        pass = doors.give(turn);
    }
    unreachable!()
}

// Waits for the next link, in a turn at the door. There is none once the door has failed.
pub(crate) fn accept<R: Wait, D: Door>(
    rt: &R,
    doors: &TurnLock<Doorway<D>>,
    pass: Pass<Doorway<D>>,
    worker: u32,
) -> (Option<D::Link>, Pass<Doorway<D>>)
    requires { (pass_lock pass ≡ lock_id doors.now) × (pass_number pass ≡ worker) }
    ensures pass { IsLater pass result.1 }
    ensures came { IfSome result.0 (λ link. elements_of worker_of worker (pass_seen result.1)
        ≡ elements_of worker_of worker (pass_seen pass) ++ Came worker link ∷ []) }
    ensures none { IfNone result.0 ((failed : Bool) × (elements_of worker_of worker (pass_seen result.1)
        ≡ elements_of worker_of worker (pass_seen pass) ++ failure worker failed)) }
    ensures failed { IfNone result.0 (has_failed (pass_seen result.1) ≡ true) }
{
    let mut turn = take(rt, doors, pass);
    let next = turn.value().accept(worker);
    (next, doors.give(turn))
}

// Gives the link of a connection back, in a turn at the door.
pub(crate) fn give_back<R: Wait, D: Door>(
    rt: &R,
    doors: &TurnLock<Doorway<D>>,
    pass: Pass<Doorway<D>>,
    worker: u32,
    visited: Visited<D::Link>,
) -> Pass<Doorway<D>>
    requires { (pass_lock pass ≡ lock_id doors.now) × (pass_number pass ≡ worker) }
    ensures pass { IsLater pass result }
    ensures went { (back : Bool) × (elements_of worker_of worker (pass_seen result)
        ≡ elements_of worker_of worker (pass_seen pass) ++ Went worker visited back ∷ []) }
{
    let mut turn = take(rt, doors, pass);
    turn.value().give_back(worker, visited);
    doors.give(turn)
}

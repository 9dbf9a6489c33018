ghost use Rattle.std.specs.Prelude.{◌≡◌, ◌<◌};
ghost use mathlib.Core.List.{IsPrefix};
ghost use Rattle.service.specs.Doors.{IsServedInTurns};
ghost use Rattle.turn_lock.specs.Passes.{lock_id, pass_lock, pass_number, pass_numbers, pass_seen};

use crate::events::Event;
use crate::opened::Opened;
use crate::shared::Shared;
use crate::surface::Surface;
use crate::turns::serve_turns;
use alerts::Bell;
use connections::{Serving, Visited};
use desk::Gate;
use desk_net::{Clock, Link};
use keeper::Keeper;
use rules::Steps;
use std::alloc::Global;
use std::marker::Brand;
use std::sync::Wait;
use std::sync::ledger::{Blank, Ledger};
use turn_lock::{Pass, TurnLock};

fn serve_counted<R: Wait, K: Keeper, B: Bell, N: Link, C: Clock, A: Opened, S: Surface, L: Ledger>(
    rt: &R,
    alloc: Global,
    lock: &TurnLock<Shared<K, B, C, A>>,
    pass: Pass<Shared<K, B, C, A>>,
    lane: u32,
    surface: &S,
    mut link: N,
    blank: Blank,
) -> (Visited<N>, Pass<Shared<K, B, C, A>>)
    requires name { blank.name ≡ L.name }
    requires parts { blank.parts ≡ L.parts }
    requires some { 0 < blank.parts }
    requires lock { (pass_lock pass ≡ lock_id lock.now) × (pass_number pass ≡ lane) }
    ensures pass { (pass_lock result.1 ≡ pass_lock pass) × (pass_number result.1 ≡ lane) }
    ensures numbers { pass_numbers result.1 ≡ pass_numbers pass }
    ensures seen { IsPrefix (pass_seen pass) (pass_seen result.1) }
    ensures served { IsServedInTurns S.pages N.seen A.desk.opening A.clock lane (pass_seen pass) (pass_seen result.1) link
        result.0.link result.0.served }
{
    let mut steps = Steps::<L>::new(blank);
    let (served, pass) = serve_turns(rt, alloc, lock, pass, lane, surface, &mut link, &mut steps);
    link.end();
    (Visited { link, served }, pass)
}

// Serves a connection in turns, and ends its link. Doesn't count the plans that it judges.
fn serve_own<R: Wait, K: Keeper, B: Bell, N: Link, C: Clock, A: Opened, S: Surface>(
    rt: &R,
    alloc: Global,
    lock: &TurnLock<Shared<K, B, C, A>>,
    pass: Pass<Shared<K, B, C, A>>,
    lane: u32,
    surface: &S,
    link: N,
) -> (Visited<N>, Pass<Shared<K, B, C, A>>)
    requires lock { (pass_lock pass ≡ lock_id lock.now) × (pass_number pass ≡ lane) }
    ensures pass { (pass_lock result.1 ≡ pass_lock pass) × (pass_number result.1 ≡ lane) }
    ensures numbers { pass_numbers result.1 ≡ pass_numbers pass }
    ensures seen { IsPrefix (pass_seen pass) (pass_seen result.1) }
    ensures served { IsServedInTurns S.pages N.seen A.desk.opening A.clock lane (pass_seen pass) (pass_seen result.1) link
        result.0.link result.0.served }
{
    serve_counted::<R, K, B, N, C, A, S, Brand>(
        rt,
        alloc,
        lock,
        pass,
        lane,
        surface,
        link,
        Blank::new(1),
    )
}

/// Serves connections over a shared desk. The gate is called around each.
#[derive(Drop)]
pub(crate) struct OnDesk<'a, G, S> {
    pub gate: &'a G,
    pub surface: &'a S,
}

impl<'a, K: Keeper, B: Bell, N: Link, C: Clock, A: Opened, G: Gate, S: Surface> Serving<
    Event,
    TurnLock<Shared<K, B, C, A>>,
    Pass<Shared<K, B, C, A>>,
    N,
> for OnDesk<'a, G, S> {
    ghost use Rattle.connections.specs.Rounds.{of_turns};
    ghost use Rattle.service.specs.Doors.{IsServedInTurns};

    ghost sight = { of_turns };

    ghost says = { λ lane before seen came went how.
        IsServedInTurns S.pages N.seen A.desk.opening A.clock lane before seen came went how };

    fn serve<R: Wait>(
        &self,
        rt: &R,
        alloc: Global,
        lock: &TurnLock<Shared<K, B, C, A>>,
        pass: Pass<Shared<K, B, C, A>>,
        lane: u32,
        link: N,
    ) -> (Visited<N>, Pass<Shared<K, B, C, A>>)
        requires lock { (pass_lock pass ≡ lock_id lock.now) × (pass_number pass ≡ lane) }
        ensures pass { (pass_lock result.1 ≡ pass_lock pass) × (pass_number result.1 ≡ lane) }
        ensures numbers { pass_numbers result.1 ≡ pass_numbers pass }
        ensures seen { IsPrefix (pass_seen pass) (pass_seen result.1) }
        ensures says { IsServedInTurns S.pages N.seen A.desk.opening A.clock lane (pass_seen pass) (pass_seen result.1) link
            result.0.link result.0.served }
    {
        self.gate.before(lane, 1);
        let (visited, pass) = serve_own(rt, alloc, lock, pass, lane, self.surface, link);
        self.gate.after(lane, 1);
        (visited, pass)
    }
}

ghost use Rattle.std.specs.Prelude.{◌≡◌, ◌≢◌, [], Err, IfOk, length};
ghost use Rattle.asks.specs.Forms.{CallHasForms};
ghost use Rattle.desk.specs.Seen.{desk_seen};
ghost use Rattle.desk.specs.Shown.{IsShown};
ghost use Rattle.desk_io.specs.Health.{IsSound, IsStill};
ghost use Rattle.desk_time.specs.Limits.{IsMoment};
ghost use Rattle.service.specs.Events.{keeps, lane_of, state_at};
ghost use Rattle.service.specs.Looks.{LooksOnce};
ghost use Rattle.service.specs.Pages.{gauges_of};
ghost use Rattle.service.specs.Shared.{IsSharedSince, seen_by};
ghost use Rattle.service.specs.Turns.{ComesOnce, GoesInTurn};
ghost use Rattle.connections.specs.declared.answers.Unanswered.TheVariants.{ClockFault as ByClock};
ghost use Rattle.turn_lock.specs.Elements.{Continues};

use crate::answering::answer_over;
use crate::event_list::Events;
use crate::events::Event;
use crate::gauges::{Gauges, gauges_of};
use crate::opened::Opened;
use crate::pages::nobodys_call;
use alerts::Bell;
use asks::Call;
use connections::Unanswered;
use desk::{Answered, Desk};
use desk_net::Clock;
use keeper::Keeper;
use rules::Steps;
use std::alloc::Global;
use std::marker::{Model, PhantomData};
use std::sync::ledger::Ledger;
use turn_lock::Listed;

/// A desk that connections share, its clock, and the events so far.
#[derive(Drop)]
pub struct Shared<K: Keeper, B: Bell, C: Clock, A: Opened> {
    desk: Desk<K, B>,
    clock: C,
    events: Events,
    of: PhantomData<A>,
}

impl<K: Keeper, B: Bell, C: Clock, A: Opened> Model for Shared<K, B, C, A> {
    ghost use Rattle.service.specs.Shared.{parts_seen, IsSharedSince, SharedDesk};

    ghost Value = { SharedDesk K B C };

    ghost view = { λ s. record { desk = s.desk; clock = s.clock; events = s.events } };

    ghost invariant = { λ s. IsSharedSince A.desk A.clock
        (parts_seen K.seen B.seen C.seen s.desk s.clock s.events) };
}

impl<K: Keeper, B: Bell, C: Clock, A: Opened> Listed for Shared<K, B, C, A> {
    ghost use Rattle.service.specs.Events.{lane_of};

    type Element = Event;

    ghost list = { λ s. s.events };

    ghost bears = { lane_of };

    fn length(&self) -> u64 {
        self.events.len()
    }
}

impl<K: Keeper, B: Bell, C: Clock, A: Opened> Shared<K, B, C, A> {
    /// Starts with a desk that was just opened, and its clock. Allocates nothing.
    pub fn new(desk: Desk<K, B>, clock: C) -> Shared<K, B, C, A>
        requires desk { desk_seen K.seen B.seen desk ≡ A.desk }
        requires clock { C.seen clock ≡ A.clock }
        requires opened { desk.board.state ≡ desk.board.opening }
        requires none { desk.board.state.entries ≡ [] }
        ensures { result ≡ record { desk = desk; clock = clock; events = [] } }
    {
        Shared {
            desk,
            clock,
            events: Events::new(),
            of: PhantomData,
        }
    }

    /// Returns the desk and its clock.
    pub fn into_parts(self) -> (Desk<K, B>, C)
        ensures parts { result ≡ (self.desk, self.clock) }
        ensures since { IsSharedSince A.desk A.clock (seen_by K.seen B.seen C.seen self) }
    {
        let Shared { desk, clock, .. } = self;
        (desk, clock)
    }

    /// Answers a call of a lane at the clock's moment. The events that it adds come at the end of the list.
    pub fn answer<L: Ledger>(
        &mut self,
        alloc: Global,
        lane: u32,
        call: &Call,
        steps: &mut Steps<L>,
    ) -> Result<Answered, Unanswered>
        requires { CallHasForms call.now }
        ensures goes { GoesInTurn lane call.now (seen_by K.seen B.seen C.seen self.old)
            (seen_by K.seen B.seen C.seen self.new) result }
        ensures comes { ComesOnce A.desk.opening A.clock.dial lane self.old.events self.new.events call.now
            result }
        ensures list { Continues lane_of lane self.old.events self.new.events }
        ensures since { IsSharedSince A.desk A.clock (seen_by K.seen B.seen C.seen self.new) }
        ensures shown { IfOk result (λ a. IsShown a.outcome) }
        ensures still { result ≢ Err ByClock
            → IsStill (C.seen self.old.clock).health (C.seen self.new.clock).health }
        // A sound clock never leaves a call without an answer.
        ensures steady { IsSound A.clock.health → result ≢ Err ByClock }
    {
        if self.events.len() >= MOST {
            return Err(Unanswered::OutOfMemory);
        }
        let _ = self.desk.board.now();
        let answered = answer_over(
            alloc,
            &mut self.desk,
            &mut self.clock,
            &mut self.events,
            lane,
            call,
            steps,
        );
        let _ = self.desk.board.now();
        answered
    }

    /// Makes the call of nobody at the clock's moment, as each minute does, and measures the desk after it.
    pub fn look<L: Ledger>(
        &mut self,
        alloc: Global,
        lane: u32,
        steps: &mut Steps<L>,
    ) -> Result<Gauges, Unanswered>
        ensures comes { LooksOnce A.desk.opening A.clock.dial lane self.old.events self.new.events result }
        ensures list { Continues lane_of lane self.old.events self.new.events }
        ensures since { IsSharedSince A.desk A.clock (seen_by K.seen B.seen C.seen self.new) }
        ensures moment { IfOk result (λ g. IsMoment g.at) }
        ensures still { result ≢ Err ByClock
            → IsStill (C.seen self.old.clock).health (C.seen self.new.clock).health }
        // A sound clock never leaves the call without an answer.
        ensures steady { IsSound A.clock.health → result ≢ Err ByClock }
    {
        let call = nobodys_call(alloc);
        let _ = self.answer(alloc, lane, &call, steps)?;
        Ok(self.gauges())
    }

    fn gauges(&self) -> Gauges
        ensures gauges { result ≡ gauges_of (state_at A.desk.opening self.now.events (length self.now.events))
            (keeps self.now.events) }
        ensures moment { IsMoment result.at }
    {
        gauges_of(&self.desk.board, self.events.keeps())
    }
}

// The limit on events, so that their number stays within 64 bits. No service lives that long.
const MOST: u64 = 1 << 62;

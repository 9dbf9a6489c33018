ghost use Rattle.std.specs.Prelude.{◌≡◌, ◌≢◌, ◌-◌, ◌<◌, ◌^◌, ◌++◌, ◌∷◌, ◌||◌, [], Bool, false, true, IfNone, IfSome, IsTrue, length};
ghost use Rattle.desk_io.specs.Over.{over};
ghost use Rattle.turn_lock.specs.Elements.{Continues};
ghost use Rattle.workers.specs.Doorways.{IsAccepted, IsDoorway, IsGivenBack, at_door};
ghost use Rattle.workers.specs.Passages as spec;
ghost use Rattle.workers.specs.Passages.{failure, has_failed, ran_out, worker_of};
ghost use Rattle.workers.specs.declared.passages.Passage.TheVariants.{Began, Came, Went};

use crate::passages::{Beginning, Coming, Failing, Going, Passage};
use connections::{Served, Visited};
use desk_io::{Failed, OutOfMemory, Record};
use desk_net::Door;
use std::marker::Model;
use std::snapshot::Snapshot;
use turn_lock::Listed;

/// An open door that workers share, with the list of what has happened at it.
#[derive(Drop)]
pub struct Doorway<D: Door> {
    door: D,
    memory: bool,
    failed: bool,
    count: u64,
    passages: Record<Passage<D, D::Link>>,
}

impl<D: Door> Model for Doorway<D> {
    ghost use Rattle.std.specs.Prelude.{◌≡◌, length};
    ghost use Rattle.workers.specs.Doorways.{AtDoor, IsDoorway, at_door};

    ghost Value = { AtDoor D D.Link };

    ghost view = { λ s. at_door s.door s.memory s.failed s.passages.list };

    ghost invariant = { λ s. (length s.passages.list ≡ s.count)
        × IsDoorway D.seen (at_door s.door s.memory s.failed s.passages.list) };
}

impl<D: Door> Listed for Doorway<D> {
    ghost use Rattle.workers.specs.Passages.{worker_of};

    type Element = Passage<D, D::Link>;

    ghost list = { λ s. s.passages };

    ghost bears = { worker_of };

    fn length(&self) -> u64 {
        self.count
    }
}

// Whether memory ran out for a connection, or for its link.
fn lacks_memory(served: Served, back: bool) -> bool
    ensures { result ≡ spec.lacks_memory served back }
{
    match served {
        Served::OutOfMemory => true,
        _ => !back,
    }
}

// Accepts the next link, and records it. If the door fails, that is recorded.
fn accept_one<D: Door>(
    door: &mut D,
    passages: &mut Record<Passage<D, D::Link>>,
    worker: u32,
) -> Option<D::Link>
    ensures { IsAccepted worker (over D.seen door.old door.new) passages.old.list passages.new.list result }
{
    match door.accept() {
        Ok(link) => {
            *passages = passages.with(&Coming {
                worker,
                link: &link,
            });
            Some(link)
        }
        Err(Failed) => {
            *passages = passages.with(&Failing { worker });
            None
        }
    }
}

// Gives a link back, and records that. Returns whether memory ran out for the connection or for its link.
fn give_back_one<D: Door>(
    door: &mut D,
    passages: &mut Record<Passage<D, D::Link>>,
    worker: u32,
    visited: Visited<D::Link>,
) -> bool
    ensures { IsGivenBack worker visited (over D.seen door.old door.new) passages.old.list passages.new.list
        result }
{
    let told = Snapshot::of(&visited);
    let Visited { link, served } = visited;
    match door.done(link) {
        Ok(()) => {
            *passages = passages.with(&Going {
                worker,
                visited: told,
                back: true,
            });
            lacks_memory(served, true)
        }
        Err(OutOfMemory) => {
            *passages = passages.with(&Going {
                worker,
                visited: told,
                back: false,
            });
            lacks_memory(served, false)
        }
    }
}

fn either(first: bool, second: bool) -> bool
    ensures { result ≡ (first || second) }
{
    first || second
}

impl<D: Door> Doorway<D> {
    /// Starts at an open door. Allocates nothing.
    pub(crate) fn new(door: D) -> Doorway<D>
        ensures { result ≡ at_door door false false (Began door ∷ []) }
    {
        let passages = Record::of(&Beginning { door: &door });
        Doorway {
            door,
            memory: false,
            failed: false,
            count: 1,
            passages,
        }
    }

    /// Returns whether one more passage can be counted.
    pub(crate) fn has_room(&self) -> bool
        ensures { IsTrue result → length self.now.passages < 2 ^ 64 - 1 }
    {
        self.count < u64::MAX
    }

    /// Accepts the next link for a worker. There is none once the door has failed.
    pub(crate) fn accept(&mut self, worker: u32) -> Option<D::Link>
        requires { length self.old.passages < 2 ^ 64 - 1 }
        ensures came { IfSome result (λ link.
            self.new.passages ≡ self.old.passages ++ Came worker link ∷ []) }
        ensures none { IfNone result ((failed : Bool)
            × (self.new.passages ≡ self.old.passages ++ failure worker failed)) }
        ensures failed { IfNone result (has_failed self.new.passages ≡ true) }
        ensures list { Continues worker_of worker self.old.passages self.new.passages }
    {
        if self.failed {
            return None;
        }
        self.count = self.count.saturating_add(1);
        let next = accept_one(&mut self.door, &mut self.passages, worker);
        self.failed = next.is_none();
        next
    }

    /// Gives the link of a worker's connection back to the door. A link that can't be given back is dropped.
    pub(crate) fn give_back(&mut self, worker: u32, visited: Visited<D::Link>)
        requires { length self.old.passages < 2 ^ 64 - 1 }
        ensures went { (back : Bool) × (self.new.passages ≡ self.old.passages ++ Went worker visited back ∷ []) }
        ensures list { Continues worker_of worker self.old.passages self.new.passages }
    {
        self.count = self.count.saturating_add(1);
        let lacks = give_back_one(&mut self.door, &mut self.passages, worker, visited);
        self.memory = either(self.memory, lacks);
    }

    /// Returns the door, and whether memory ran out for a connection.
    pub(crate) fn into_parts(self) -> (D, bool)
        ensures parts { result ≡ (self.door, self.memory) }
        ensures is { IsDoorway D.seen self }
    {
        let Doorway { door, memory, .. } = self;
        (door, memory)
    }
}

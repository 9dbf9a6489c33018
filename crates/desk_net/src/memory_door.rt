ghost use Rattle.std.specs.Prelude.{◌≡◌, not, [], None, Some, OnOk, OnErr, is_ok};
ghost use Rattle.desk_io.specs.Health.{GoesOn, GoesOnWhere, HasFailed, HasFailedWhere};
ghost use Rattle.desk_io.specs.Planned.{is_planned, after};
ghost use Rattle.desk_net.specs.Doors.{Accepts, LetsIn, LetsOut, TakesBack, HasNext, accepts};

use crate::planned::Calls;
use crate::{Door, MemoryLink, Passing};
use desk_io::{Failed, OutOfMemory, Record};
use std::alloc::Global;
use std::collections::VecDeque;

/// A door in memory. It fails once all of its links were accepted. Calls of `bind` and `accept` are numbered together
/// from 0. A call whose number is in `fail` fails, and opens or accepts nothing. With an empty `fail` the door is
/// sound.
#[derive(Drop)]
pub struct MemoryDoor {
    coming: VecDeque<MemoryLink>,
    came: Record<MemoryLink>,
    ended: Vec<MemoryLink>,
    port: Option<u16>,
    calls: Calls,
}

impl MemoryDoor {
    /// Creates a door that accepts these links, in order. Allocates nothing.
    pub fn new(alloc: Global, links: Vec<MemoryLink>, fail: Vec<u64>) -> Self
        ensures coming { result.coming.items ≡ links.items }
        ensures came { result.came.list ≡ [] }
        ensures ended { result.ended.items ≡ [] }
        ensures port { result.port ≡ None }
        ensures fail { result.calls.fail.items ≡ fail.items }
        ensures calls { result.calls.made ≡ 0 }
        ensures faults { result.calls.faults ≡ 0 }
    {
        MemoryDoor {
            coming: VecDeque::from(links),
            came: Record::new(),
            ended: Vec::new(alloc),
            port: None,
            calls: Calls::new(fail),
        }
    }

    /// Returns the port that was opened last.
    pub fn port(&self) -> Option<u16>
        ensures { result ≡ self.now.port }
    {
        self.port
    }

    /// Returns the links that were given back, in order.
    pub fn ended(&self) -> &[MemoryLink]
        ensures { result.now ≡ self.now.ended.items }
    {
        &self.ended
    }
}

impl Door for MemoryDoor {
    ghost use Rattle.desk_net.specs.InMemory.{door_seen};

    type Link = MemoryLink;

    ghost seen = { door_seen };

    fn bind(&mut self, port: u16) -> Result<(), Failed>
        ensures same { (door_seen self.new).links ≡ (door_seen self.old).links }
        ensures passed { (door_seen self.new).passed ≡ (door_seen self.old).passed }
        ensures opened { OnOk result (self.new.port ≡ Some port) }
        ensures unopened { OnErr result (self.new.port ≡ self.old.port) }
        ensures on { GoesOn (door_seen self.old).health (door_seen self.new).health }
        ensures cause { OnErr result (HasFailed (door_seen self.old).health (door_seen self.new).health) }
        // The call fails exactly if its number is in `fail`.
        ensures planned { is_ok result ≡ not (is_planned self.old.calls.fail.items self.old.calls.made) }
        ensures fail { self.new.calls.fail.items ≡ self.old.calls.fail.items }
        ensures calls { self.new.calls.made ≡ after self.old.calls.made }
    {
        if self.calls.next_fails() {
            return Err(Failed);
        }
        self.port = Some(port);
        Ok(())
    }

    fn accept(&mut self) -> Result<MemoryLink, Failed>
        ensures told { Accepts (door_seen self.old).links (door_seen self.new).links result }
        ensures passed { LetsIn (door_seen self.old).passed (door_seen self.new).passed result }
        ensures port { self.new.port ≡ self.old.port }
        ensures on { GoesOnWhere (HasNext (door_seen self.old).links)
            (door_seen self.old).health (door_seen self.new).health }
        ensures cause { OnErr result (HasFailedWhere (HasNext (door_seen self.old).links)
            (door_seen self.old).health (door_seen self.new).health) }
        // The call succeeds exactly when a link is still to come and `fail` doesn't list the call.
        ensures planned { is_ok result ≡
            accepts self.old.coming.items (is_planned self.old.calls.fail.items self.old.calls.made) }
        ensures fail { self.new.calls.fail.items ≡ self.old.calls.fail.items }
        ensures calls { self.new.calls.made ≡ after self.old.calls.made }
    {
        if self.calls.next_fails() {
            return Err(Failed);
        }
        match self.coming.pop_front() {
            Some(link) => {
                self.came = self.came.with(&Passing { link: &link });
                Ok(link)
            }
            None => {
                self.calls.count_fault();
                Err(Failed)
            }
        }
    }

    fn done(&mut self, link: MemoryLink) -> Result<(), OutOfMemory>
        ensures told { TakesBack (door_seen self.old).links (door_seen self.new).links link result }
        ensures passed { LetsOut (door_seen self.old).passed (door_seen self.new).passed link result }
        ensures port { self.new.port ≡ self.old.port }
        ensures health { (door_seen self.new).health ≡ (door_seen self.old).health }
        // This call isn't numbered among the door's calls.
        ensures fail { self.new.calls.fail.items ≡ self.old.calls.fail.items }
        ensures calls { self.new.calls.made ≡ self.old.calls.made }
        ensures count { self.new.calls.faults ≡ self.old.calls.faults }
    {
        self.ended.push(link)?;
        Ok(())
    }

    fn faults(&self) -> u64 {
        self.calls.faults()
    }
}

ghost use Rattle.std.specs.Prelude.{◌≡◌, ◌<◌, ◌≤◌, Some, length, IfOk, OnOk, OnErr};
ghost use Rattle.desk_io.specs.Health.{GoesOn, GoesOnWhere, HasCause, HasFailed, HasFailedWhere, IsStill};
ghost use Rattle.desk_io.specs.declared.faults.PutFault.TheVariants.{Failed as PutFailed};
ghost use Rattle.desk_net.specs.Clocks.{AddsAnswer, Shows};
ghost use Rattle.desk_net.specs.Crossing.{Receives, Sends};
ghost use Rattle.desk_time.specs.Limits.{IsMoment};
ghost use Rattle.desk_net.specs.Doors.{Accepts, LetsIn, LetsOut, TakesBack, HasNext};
ghost use Rattle.desk_net.specs.Seen.{ClockSeen, LinkSeen, DoorSeen, ClockGoesOn, LinkGoesOn};
ghost use Rattle.desk_net.specs.Streams.{Reads, Writes};

use desk_io::{Failed, OutOfMemory, PutFault};
use desk_time::Minute;

/// The source of the current moment.
pub trait Clock {
    /// The dial, if contracts know it: the moments that the clock returns, in order, and the place of the next one. The
    /// dial of a clock over the system is unknown. Then, for every clock, its answers so far, in order, and its health.
    ghost seen: { Self → ClockSeen };

    /// Returns the current moment in minutes since 1970-01-01 00:00 UTC, from `FIRST` to `LAST` of `desk_time`. This
    /// is the moment at the dial's place, and the dial then advances. A later call may return an earlier moment.
    fn now(&mut self) -> Result<Minute, Failed>
        ensures range { IfOk result IsMoment }
        ensures told { Shows (seen self.old).dial (seen self.new).dial result }
        ensures answers { AddsAnswer (seen self.old).answers (seen self.new).answers result }
        ensures on { ClockGoesOn (seen self.old) (seen self.new) }
        ensures cause { OnErr result (HasFailed (seen self.old).health (seen self.new).health) }
        // A call that returns a moment counts no fault.
        ensures still { OnOk result (IsStill (seen self.old).health (seen self.new).health) };

    /// Returns the number of failures so far. It never falls.
    fn faults(&self) -> u64
        ensures { result ≡ (seen self.now).health.faults };
}

/// A connection, from which bytes are read and to which bytes are written.
pub trait Link {
    /// The whole input, how much of it was read, and what was written, if contracts know them. No call changes the
    /// input, or whether these are known. Then, for every link, what each read returned and each write accepted so
    /// far, in order, and the link's health.
    ghost seen: { Self → LinkSeen };

    /// Copies the next bytes of the input to the front of `into` and returns their number. The number is 0 exactly at
    /// the end of the input. A read that fails consumes nothing.
    fn read(&mut self, into: &mut [u8]) -> Result<usize, Failed>
        requires { 0 < length into.old }
        ensures bound { IfOk result (λ n. n ≤ length into.old) }
        ensures told { Reads (seen self.old).stream (seen self.new).stream into.new result }
        ensures crossed { Receives (seen self.old).crossed (seen self.new).crossed into.new result }
        ensures on { LinkGoesOn (seen self.old) (seen self.new) }
        ensures cause { OnErr result (HasFailed (seen self.old).health (seen self.new).health) };

    /// Writes all of the bytes. After `Failed` a prefix of them was written, after `OutOfMemory` nothing.
    fn write(&mut self, bytes: &[u8]) -> Result<(), PutFault>
        ensures told { Writes (seen self.old).stream (seen self.new).stream bytes.now result }
        ensures crossed { Sends (seen self.old).crossed (seen self.new).crossed bytes.now result }
        ensures on { LinkGoesOn (seen self.old) (seen self.new) }
        ensures cause { HasCause PutFailed (seen self.old).health (seen self.new).health result };

    /// Ends the connection once nothing more is to be written, so that everything written can arrive. It changes
    /// nothing that contracts know. An error in it isn't a fault, because no bytes are asked for.
    fn end(&mut self)
        ensures same { seen self.new ≡ seen self.old };

    /// Returns the number of failures so far. It never falls.
    fn faults(&self) -> u64
        ensures { result ≡ (seen self.now).health.faults };
}

/// Accepts connections. A sound door fails, and counts a fault, only if no link is left for an accept.
pub trait Door {
    /// The type of its connections.
    type Link: Link + Drop;

    /// The links still to come and those given back, if contracts know them. No call changes whether they are known.
    /// Then, for every door, the links that it has let in and out so far, the port opened last, and the door's health.
    ghost seen: { Self → DoorSeen Self.Link };

    /// Opens the door at a port of this machine.
    fn bind(&mut self, port: u16) -> Result<(), Failed>
        ensures same { (seen self.new).links ≡ (seen self.old).links }
        ensures passed { (seen self.new).passed ≡ (seen self.old).passed }
        ensures opened { OnOk result ((seen self.new).opened_at ≡ Some port) }
        ensures unopened { OnErr result ((seen self.new).opened_at ≡ (seen self.old).opened_at) }
        ensures on { GoesOn (seen self.old).health (seen self.new).health }
        ensures cause { OnErr result (HasFailed (seen self.old).health (seen self.new).health) };

    /// Accepts the next link. Fails if none is left.
    fn accept(&mut self) -> Result<Self::Link, Failed>
        ensures told { Accepts (seen self.old).links (seen self.new).links result }
        ensures passed { LetsIn (seen self.old).passed (seen self.new).passed result }
        ensures port { (seen self.new).opened_at ≡ (seen self.old).opened_at }
        ensures on { GoesOnWhere (HasNext (seen self.old).links) (seen self.old).health (seen self.new).health }
        ensures cause { OnErr result
            (HasFailedWhere (HasNext (seen self.old).links) (seen self.old).health (seen self.new).health) };

    /// Takes back the link of a connection that has ended. If memory runs out, the door is unchanged and the link is
    /// dropped.
    fn done(&mut self, link: Self::Link) -> Result<(), OutOfMemory>
        ensures told { TakesBack (seen self.old).links (seen self.new).links link result }
        ensures passed { LetsOut (seen self.old).passed (seen self.new).passed link result }
        ensures port { (seen self.new).opened_at ≡ (seen self.old).opened_at }
        ensures health { (seen self.new).health ≡ (seen self.old).health };

    /// Returns the number of failures so far. It never falls.
    fn faults(&self) -> u64
        ensures { result ≡ (seen self.now).health.faults };
}

ghost use Rattle.std.specs.Prelude.{◌≡◌, ◌-◌, ◌<◌, ◌≤◌, ◌++◌, ◌∷◌, min, not, [], length, IfOk, IsErrOf, OnErr, is_ok};
ghost use Rattle.desk_io.specs.Health.{HasCause, HasFailed};
ghost use Rattle.desk_io.specs.Planned.{is_planned, after, Fails};
ghost use Rattle.desk_io.specs.declared.faults.PutFault.TheVariants.{Failed as PutFailed};
ghost use Rattle.desk_net.specs.Crossing.{Receives, Sends};
ghost use Rattle.desk_net.specs.Seen.{LinkGoesOn};
ghost use Rattle.desk_net.specs.Streams.{Reads, Writes};
ghost use Rattle.desk_net.specs.declared.crossed.Crossed.TheVariants.{Took};

use crate::crossed::{Received, Written};
use crate::planned::Calls;
use crate::{Crossed, Link};
use desk_io::{Failed, PutFault, Record};
use std::alloc::Global;

/// A connection in memory. A read returns at most `cut` bytes. Calls of `read` and `write` are numbered together from
/// 0. A call whose number is in `fail` fails, and reads or writes nothing. With an empty `fail` the link is sound.
#[derive(Drop)]
pub struct MemoryLink {
    input: Vec<u8>,
    taken: usize,
    written: Vec<u8>,
    cut: usize,
    calls: Calls,
    crossed: Record<Crossed>,
    ghost some_cut: { 0 < cut },
    ghost within: { taken ≤ length input.items },
}

impl MemoryLink {
    /// Creates a connection with this input. `cut` must be at least 1. Allocates nothing.
    pub fn new(alloc: Global, input: Vec<u8>, cut: usize, fail: Vec<u64>) -> Self
        requires { 0 < cut }
        ensures input { result.input.items ≡ input.items }
        ensures taken { result.taken ≡ 0 }
        ensures written { result.written.items ≡ [] }
        ensures cut { result.cut ≡ cut }
        ensures fail { result.calls.fail.items ≡ fail.items }
        ensures calls { result.calls.made ≡ 0 }
        ensures faults { result.calls.faults ≡ 0 }
        ensures crossed { result.crossed.list ≡ [] }
    {
        MemoryLink {
            input,
            taken: 0,
            written: Vec::new(alloc),
            cut,
            calls: Calls::new(fail),
            crossed: Record::new(),
        }
    }

    /// Returns everything written so far.
    pub fn written(&self) -> &[u8]
        ensures { result.now ≡ self.now.written.items }
    {
        &self.written
    }
}

impl Link for MemoryLink {
    ghost use Rattle.desk_net.specs.InMemory.{link_seen};

    ghost seen = { link_seen };

    fn read(&mut self, into: &mut [u8]) -> Result<usize, Failed>
        requires { 0 < length into.old }
        ensures bound { IfOk result (λ n. n ≤ length into.old) }
        ensures told { Reads (link_seen self.old).stream (link_seen self.new).stream into.new result }
        ensures crossed { Receives self.old.crossed.list self.new.crossed.list into.new result }
        ensures on { LinkGoesOn (link_seen self.old) (link_seen self.new) }
        ensures cause { OnErr result (HasFailed (link_seen self.old).health (link_seen self.new).health) }
        // The call fails exactly if its number is in `fail`. Otherwise it returns as many bytes as it can.
        ensures planned { is_ok result ≡ not (is_planned self.old.calls.fail.items self.old.calls.made) }
        ensures count { IfOk result
            (λ n. n ≡ min (min (length self.old.input.items - self.old.taken) self.old.cut) (length into.old)) }
        ensures cut { self.new.cut ≡ self.old.cut }
        ensures fail { self.new.calls.fail.items ≡ self.old.calls.fail.items }
        ensures calls { self.new.calls.made ≡ after self.old.calls.made }
    {
        if self.calls.next_fails() {
            return Err(Failed);
        }
        let rest = &self.input[self.taken..];
        let count = rest.len().min(self.cut).min(into.len());
        into[..count].copy_from_slice(&rest[..count]);
        self.taken += count;
        self.crossed = self.crossed.with(&Received { into, count });
        Ok(count)
    }

    #[tactic(auto, using(crate::proofs::CrossingLaws::sends_none))]
    fn write(&mut self, bytes: &[u8]) -> Result<(), PutFault>
        ensures told { Writes (link_seen self.old).stream (link_seen self.new).stream bytes.now result }
        ensures crossed { Sends self.old.crossed.list self.new.crossed.list bytes.now result }
        ensures on { LinkGoesOn (link_seen self.old) (link_seen self.new) }
        ensures cause { HasCause PutFailed (link_seen self.old).health (link_seen self.new).health result }
        // The call returns `Failed` exactly if its number is in `fail`, and then writes nothing.
        ensures planned { Fails (is_planned self.old.calls.fail.items self.old.calls.made) result }
        ensures err { OnErr result (self.new.written.items ≡ self.old.written.items) }
        ensures lost { IsErrOf result PutFailed → self.new.crossed.list ≡ self.old.crossed.list ++ Took [] ∷ [] }
        ensures cut { self.new.cut ≡ self.old.cut }
        ensures fail { self.new.calls.fail.items ≡ self.old.calls.fail.items }
        ensures calls { self.new.calls.made ≡ after self.old.calls.made }
    {
        if self.calls.next_fails() {
            self.crossed = self.crossed.with(&Written { bytes: &[] });
            return Err(PutFault::Failed);
        }
        self.written.extend_from_slice(bytes)?;
        self.crossed = self.crossed.with(&Written { bytes });
        Ok(())
    }

    // A connection in memory needs no ending.
    fn end(&mut self)
        ensures same { link_seen self.new ≡ link_seen self.old }
        ensures cut { self.new.cut ≡ self.old.cut }
        ensures fail { self.new.calls.fail.items ≡ self.old.calls.fail.items }
        ensures calls { self.new.calls.made ≡ self.old.calls.made }
    {}

    fn faults(&self) -> u64 {
        self.calls.faults()
    }
}

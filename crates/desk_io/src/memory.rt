ghost use Rattle.std.specs.Prelude.{◌≡◌, ◌<◌, ◌≤◌, ◌++◌, ◌∷◌, [], length, IfOk, OnErr, is_ok};
ghost use Rattle.std.specs.Option.{option_copied};
ghost use Rattle.desk_io.specs.Told.{source_named, NextOf, OnSource, Puts};
ghost use Rattle.desk_io.specs.Health.{GoesOn, HasCause, HasFailedWhere};
ghost use Rattle.desk_io.specs.InMemory.{shelf_seen, sink_seen};
ghost use Rattle.desk_io.specs.Planned.{is_planned, after, gives, Fails};
ghost use Rattle.desk_io.specs.Reads.{read_as};
ghost use Rattle.desk_io.specs.Seen.{ShelfGoesOn, Holds};
ghost use Rattle.desk_io.specs.declared.faults.PutFault.TheVariants.{Failed as PutFailed};

use crate::reads::ReadResult;
use crate::{Failed, PutFault, Record, Shelf, Sink, SourceRead, Text};
use std::alloc::Global;

/// Sources in memory. Calls of `next` are numbered from 0, and a call whose number is in `fail` fails. With an empty
/// `fail` the shelf is sound.
#[derive(Drop)]
pub struct MemoryShelf {
    sources: Vec<(Text, Text)>,
    fail: Vec<u64>,
    calls: u64,
    reads: Record<SourceRead>,
    faults: u64,
}

impl MemoryShelf {
    /// Creates a shelf of named sources. If two have the same name, the first one is read. Allocates nothing.
    pub fn new(sources: Vec<(Text, Text)>, fail: Vec<u64>) -> Self
        ensures sources { result.sources.items ≡ sources.items }
        ensures fail { result.fail.items ≡ fail.items }
        ensures calls { result.calls ≡ 0 }
        ensures faults { result.faults ≡ 0 }
        ensures reads { result.reads.list ≡ [] }
    {
        MemoryShelf {
            sources,
            fail,
            calls: 0,
            reads: Record::new(),
            faults: 0,
        }
    }
}

// The first source with that name.
fn source<'a>(sources: &'a [(Text, Text)], name: &[u8]) -> Option<&'a Text>
    ensures { option_copied result ≡ source_named sources.now name.now }
{
    for s in sources {
        if s.0.bytes() == name {
            return Some(&s.1);
        }
    }
    None
}

// Copies the bytes from `place` on to the front of `into`, as many as fit, and returns their number.
fn copy_from(bytes: &[u8], place: u64, into: &mut [u8]) -> usize
    requires { 0 < length into.old }
    ensures bound { result ≤ length into.old }
    ensures next { NextOf bytes.now place result into.new }
{
    if place >= bytes.len() as u64 {
        return 0;
    }
    let rest = &bytes[place as usize..];
    let count = rest.len().min(into.len());
    into[..count].copy_from_slice(&rest[..count]);
    count
}

impl Shelf for MemoryShelf {
    ghost seen = { shelf_seen };

    fn next(&mut self, name: &str, place: u64, into: &mut [u8]) -> Result<usize, Failed>
        requires { 0 < length into.old }
        ensures bound { IfOk result (λ n. n ≤ length into.old) }
        ensures given { IfOk result
            (λ n. OnSource (shelf_seen self.old).sources name.now (λ bytes. NextOf bytes place n into.new)) }
        ensures reads { self.new.reads.list ≡ self.old.reads.list ++ read_as name.now place into.new result ∷ [] }
        ensures on { ShelfGoesOn (Holds (shelf_seen self.old) name.now) (shelf_seen self.old) (shelf_seen self.new) }
        ensures cause { OnErr result (HasFailedWhere (Holds (shelf_seen self.old) name.now)
            (shelf_seen self.old).health (shelf_seen self.new).health) }
        // The call succeeds exactly when the shelf holds the name and `fail` doesn't list the call.
        ensures planned { is_ok result ≡ gives (source_named self.old.sources.items name.now)
            (is_planned self.old.fail.items self.old.calls) }
        ensures sources { self.new.sources.items ≡ self.old.sources.items }
        ensures fail { self.new.fail.items ≡ self.old.fail.items }
        ensures calls { self.new.calls ≡ after self.old.calls }
    {
        let call = self.calls;
        self.calls = call.saturating_add(1);
        let failing = self.fail.contains(&call);
        let Some(bytes) = source(&self.sources, name.as_bytes()) else {
            self.faults = self.faults.saturating_add(1);
            self.reads = self.reads.with(&ReadResult {
                name,
                place,
                into,
                answer: Err(Failed),
            });
            return Err(Failed);
        };
        if failing {
            self.faults = self.faults.saturating_add(1);
            self.reads = self.reads.with(&ReadResult {
                name,
                place,
                into,
                answer: Err(Failed),
            });
            return Err(Failed);
        }
        let count = copy_from(bytes.bytes(), place, into);
        self.reads = self.reads.with(&ReadResult {
            name,
            place,
            into,
            answer: Ok(count),
        });
        Ok(count)
    }

    fn faults(&self) -> u64 {
        self.faults
    }
}

/// A sink in memory. Calls of `write` are numbered from 0. A call whose number is in `fail` fails and appends
/// nothing. With an empty `fail` the sink is sound.
#[derive(Drop)]
pub struct MemorySink {
    written: Vec<u8>,
    fail: Vec<u64>,
    calls: u64,
    faults: u64,
}

impl MemorySink {
    /// Creates an empty sink. Allocates nothing.
    pub fn new(alloc: Global, fail: Vec<u64>) -> Self
        ensures empty { result.written.items ≡ [] }
        ensures fail { result.fail.items ≡ fail.items }
        ensures calls { result.calls ≡ 0 }
        ensures faults { result.faults ≡ 0 }
    {
        MemorySink {
            written: Vec::new(alloc),
            fail,
            calls: 0,
            faults: 0,
        }
    }

    /// Returns everything appended so far.
    pub fn written(&self) -> &[u8]
        ensures { result.now ≡ self.now.written.items }
    {
        &self.written
    }
}

impl Sink for MemorySink {
    ghost seen = { sink_seen };

    fn write(&mut self, bytes: &[u8]) -> Result<(), PutFault>
        ensures appends { Puts (sink_seen self.old).content (sink_seen self.new).content bytes.now result }
        ensures on { GoesOn (sink_seen self.old).health (sink_seen self.new).health }
        ensures cause { HasCause PutFailed (sink_seen self.old).health (sink_seen self.new).health result }
        ensures planned { Fails (is_planned self.old.fail.items self.old.calls) result }
        ensures err { OnErr result (self.new.written.items ≡ self.old.written.items) }
        ensures fail { self.new.fail.items ≡ self.old.fail.items }
        ensures calls { self.new.calls ≡ after self.old.calls }
    {
        let call = self.calls;
        self.calls = call.saturating_add(1);
        if self.fail.contains(&call) {
            self.faults = self.faults.saturating_add(1);
            return Err(PutFault::Failed);
        }
        self.written.extend_from_slice(bytes)?;
        Ok(())
    }

    fn faults(&self) -> u64 {
        self.faults
    }
}

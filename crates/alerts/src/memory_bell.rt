ghost use Rattle.std.specs.Prelude.{◌≡◌, ◌++◌, ◌∷◌, [], Some, false, IfOk, OnOk, OnErr};
ghost use Rattle.std.specs.Option.{option_map};
ghost use Rattle.desk_io.specs.Health.{GoesOn, HasFailed};
ghost use Rattle.desk_io.specs.Planned.{is_planned, after};

use crate::Bell;
use crate::notices::{Notice, Notices};
use desk_io::{Copied, Failed, OutOfMemory, Text};
use std::alloc::Global;

/// A bell in memory. The calls of `ring` are numbered from 0, and the calls in `fail` fail. A call also fails if
/// there is no memory for its notice.
#[derive(Drop)]
pub struct MemoryBell {
    alloc: Global,
    desk: Text,
    heard: Notices,
    fail: Vec<u64>,
    calls: u64,
    faults: u64,
}

fn copied(alloc: Global, notice: &Notice) -> Result<Notice, OutOfMemory>
    ensures { IfOk result (λ copy. copy ≡ notice.now) }
{
    Ok(Notice {
        desk: notice.desk.copy(alloc)?,
        release: notice.release,
        version: notice.version,
        kind: notice.kind,
    })
}

impl MemoryBell {
    /// Makes a bell for a person, or for all if `desk` is `*`. It has received nothing yet. It allocates nothing.
    pub fn new(alloc: Global, desk: Text, fail: Vec<u64>) -> Self
        ensures desk { result.desk ≡ desk }
        ensures heard { result.heard ≡ [] }
        ensures fail { result.fail.items ≡ fail.items }
        ensures calls { result.calls ≡ 0 }
        ensures faults { result.faults ≡ 0 }
    {
        MemoryBell {
            alloc,
            desk,
            heard: Notices::new(alloc),
            fail,
            calls: 0,
            faults: 0,
        }
    }

    /// Returns the received notices in order.
    pub fn heard(&self) -> &[Notice]
        ensures { result.now ≡ self.now.heard }
    {
        self.heard.as_slice()
    }

    fn hear(&mut self, notice: &Notice) -> Result<(), OutOfMemory>
        ensures ok { OnOk result (self.new.heard ≡ self.old.heard ++ notice.now ∷ []) }
        ensures err { OnErr result (self.new.heard ≡ self.old.heard) }
        ensures desk { self.new.desk ≡ self.old.desk }
        ensures fail { self.new.fail.items ≡ self.old.fail.items }
        ensures calls { self.new.calls ≡ self.old.calls }
        ensures faults { self.new.faults ≡ self.old.faults }
    {
        let notice = copied(self.alloc, notice)?;
        self.heard.push(notice)
    }
}

impl Bell for MemoryBell {
    ghost use Rattle.alerts.specs.InMemory.{bell_seen};

    ghost seen = { bell_seen };

    fn desk(&self) -> &Text {
        &self.desk
    }

    fn ring(&mut self, notice: &Notice) -> Result<(), Failed>
        ensures desk { (bell_seen self.new).desk ≡ (bell_seen self.old).desk }
        ensures ok { OnOk result ((bell_seen self.new).heard
            ≡ option_map (λ all. all ++ notice.now ∷ []) (bell_seen self.old).heard) }
        ensures err { OnErr result ((bell_seen self.new).heard ≡ (bell_seen self.old).heard) }
        ensures on { GoesOn (bell_seen self.old).health (bell_seen self.new).health }
        ensures cause { OnErr result (HasFailed (bell_seen self.old).health (bell_seen self.new).health) }
        // The bell receives the notice only if the call isn't one of those that fail.
        ensures planned { OnOk result (is_planned self.old.fail.items self.old.calls ≡ false) }
        ensures fail { self.new.fail.items ≡ self.old.fail.items }
        ensures calls { self.new.calls ≡ after self.old.calls }
    {
        let call = self.calls;
        self.calls = call.saturating_add(1);
        if self.fail.contains(&call) || self.hear(notice).is_err() {
            self.faults = self.faults.saturating_add(1);
            return Err(Failed);
        }
        Ok(())
    }

    fn faults(&self) -> u64 {
        self.faults
    }
}

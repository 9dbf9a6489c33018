ghost use Rattle.std.specs.Prelude.{◌≡◌};
ghost use Rattle.compact_json.specs.Elements.{data_at};
ghost use Rattle.serde_json.specs.Find.{get};
ghost use Rattle.desk_json.specs.Keys as spec;
ghost use Rattle.desk_json.specs.Faults.{Answers, IsFault};
ghost use Rattle.desk_json.specs.declared.bad_call.CallFault.TheVariants.{OutOfMemory as FaultMemory};

use asks::{BadCall, CallWhy};
use compact_json::Element;
use desk_io::{OutOfMemory, Text};
use std::alloc::Global;

/// Why a text can't be read as a call, a line or a reply.
#[derive(Debug, Drop)]
pub enum CallFault {
    /// It has this fault.
    Bad(BadCall),
    /// Memory ran out.
    OutOfMemory,
}

impl From<OutOfMemory> for CallFault {
    ghost from_gives = { λ _ e. e ≡ FaultMemory };

    fn from(_: OutOfMemory) -> Self {
        CallFault::OutOfMemory
    }
}

/// Returns a fault at a key.
pub(crate) fn bad(alloc: Global, why: CallWhy, key: &str) -> CallFault
    ensures { IsFault (spec.bad why key.now) result }
{
    match Text::of(alloc, key.as_bytes()) {
        Ok(key) => CallFault::Bad(BadCall { why, key }),
        Err(_) => CallFault::OutOfMemory,
    }
}

/// Returns the fault of a key that can't be read. The key is missing, or its value is malformed or out of range.
pub(crate) fn lack(alloc: Global, key: &str, value: Element<'_>) -> CallFault
    ensures { IsFault (spec.bad (spec.lack (get key.now (data_at value.entry))) key.now) result }
{
    match value.get(key) {
        Some(_) => bad(alloc, CallWhy::BadValue, key),
        None => bad(alloc, CallWhy::Missing, key),
    }
}

/// Returns the value read at a key, or the fault if there is none.
pub(crate) fn found<T: Drop>(
    alloc: Global,
    key: &str,
    value: Element<'_>,
    read: Option<T>,
) -> Result<T, CallFault>
    ensures { Answers (spec.found key.now (data_at value.entry) read) result }
{
    match read {
        Some(read) => Ok(read),
        None => Err(lack(alloc, key, value)),
    }
}

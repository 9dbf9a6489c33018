ghost use Rattle.std.specs.Prelude.{◌≡◌, ◌≤◌, Ok, is_ok, IfOk, OnOk, OnErr};
ghost use Rattle.desk_io.specs.Health.{RoseOrFull};
ghost use Rattle.desk_io.specs.declared.faults.PutFault.TheVariants.{OutOfMemory as PutMemory};
ghost use Rattle.desk_io.specs.declared.faults.WholeFault.TheVariants.{OutOfMemory as WholeMemory, ReadFault as WholeRead};

use std::alloc::{AllocError, AllocFailed};
use std::io;

/// Memory ran out. The contract of each call states what it leaves unchanged.
#[derive(Clone, Copy, Debug, PartialEq, Eq)]
pub struct OutOfMemory;

/// An external object, such as a shelf, failed and counted the fault.
#[derive(Clone, Copy, Debug, PartialEq, Eq)]
pub struct Failed;

/// Why a write failed.
#[derive(Clone, Copy, Debug, PartialEq, Eq)]
pub enum PutFault {
    /// The external object failed after accepting a prefix of the bytes, and counted the fault.
    Failed,
    /// Memory ran out, and nothing was written.
    OutOfMemory,
}

/// Why a source couldn't be read whole.
#[derive(Clone, Copy, Debug, PartialEq, Eq)]
pub enum WholeFault {
    /// The shelf failed, and counted the fault.
    ReadFault,
    /// The source has more bytes than `SOURCE_LIMIT`.
    TooLong,
    /// Memory ran out.
    OutOfMemory,
}

impl From<AllocError> for OutOfMemory {
    fn from(_: AllocError) -> Self {
        OutOfMemory
    }
}

impl<T: Drop> From<AllocFailed<T>> for OutOfMemory {
    fn from(_: AllocFailed<T>) -> Self {
        OutOfMemory
    }
}

impl From<AllocError> for PutFault {
    ghost from_gives = { λ _ e. e ≡ PutMemory };

    fn from(_: AllocError) -> Self {
        PutFault::OutOfMemory
    }
}

impl From<OutOfMemory> for WholeFault {
    ghost from_gives = { λ _ e. e ≡ WholeMemory };

    fn from(_: OutOfMemory) -> Self {
        WholeFault::OutOfMemory
    }
}

impl From<AllocError> for WholeFault {
    ghost from_gives = { λ _ e. e ≡ WholeMemory };

    fn from(_: AllocError) -> Self {
        WholeFault::OutOfMemory
    }
}

impl From<Failed> for WholeFault {
    ghost from_gives = { λ _ e. e ≡ WholeRead };

    fn from(_: Failed) -> Self {
        WholeFault::ReadFault
    }
}

/// Counts an I/O error as a fault. The count rises by one, up to its maximum, on an error and never otherwise.
pub fn counted<T>(answer: io::Result<T>, faults: &mut u64) -> Result<T, Failed>
    ensures fails { is_ok result ≡ is_ok answer }
    ensures value { IfOk result (λ x. answer ≡ Ok x) }
    ensures later { faults.old ≤ faults.new }
    ensures rose { OnErr result (RoseOrFull faults.old faults.new) }
    ensures kept { OnOk result (faults.new ≡ faults.old) }
{
    match answer {
        Ok(x) => Ok(x),
        Err(_) => {
            *faults = faults.saturating_add(1);
            Err(Failed)
        }
    }
}

use desk_io::{OutOfMemory, WholeFault};
use std::alloc::{AllocError, AllocFailed, Global};

/// Why a case can't be played.
#[derive(Clone, Copy)]
pub enum CaseFault<'a> {
    /// The value at this key is missing or malformed, or the key isn't allowed there.
    Unread(&'a str),
    /// The file has no text of this name.
    NoText(&'a str),
    /// No file can be read at this path.
    NoFile(&'a str),
    /// Memory ran out.
    OutOfMemory,
}

impl<'a> CaseFault<'a> {
    /// Why the file at a path can't be read.
    pub fn of_file(fault: WholeFault, path: &'a str) -> Self {
        match fault {
            WholeFault::OutOfMemory => CaseFault::OutOfMemory,
            WholeFault::ReadFault | WholeFault::TooLong => CaseFault::NoFile(path),
        }
    }

    /// The fault as a message.
    pub fn shown(self, alloc: Global) -> Result<String, OutOfMemory> {
        match self {
            CaseFault::Unread(key) => Ok(format!(in alloc; "{key:?} can't be read")?),
            CaseFault::NoText(name) => Ok(format!(in alloc; "there is no text {name:?}")?),
            CaseFault::NoFile(path) => Ok(format!(in alloc; "there is no file {path:?}")?),
            CaseFault::OutOfMemory => Err(OutOfMemory),
        }
    }
}

impl<'a> From<OutOfMemory> for CaseFault<'a> {
    fn from(_: OutOfMemory) -> Self {
        CaseFault::OutOfMemory
    }
}

impl<'a> From<AllocError> for CaseFault<'a> {
    fn from(_: AllocError) -> Self {
        CaseFault::OutOfMemory
    }
}

impl<'a, T: Drop> From<AllocFailed<T>> for CaseFault<'a> {
    fn from(_: AllocFailed<T>) -> Self {
        CaseFault::OutOfMemory
    }
}

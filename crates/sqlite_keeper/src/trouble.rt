ghost use Rattle.std.specs.Prelude.{◌≡◌};
ghost use Rattle.sqlite_keeper.specs.Troubles as spec;
ghost use Rattle.sqlite_keeper.specs.declared.trouble.Trouble.TheVariants.{OutOfMemory as Memory};

use desk_io::OutOfMemory;
use sqlite::{Error, ErrorCode};
use sqlite_resolve::CompileError;
use sqlite_std_file::OpenError;
use sqlite_syntax::error::ParseError;
use std::alloc::AllocFailed;
use std::io::ErrorKind;

/// Why the table couldn't be read or written.
#[derive(Clone, Copy, Debug, PartialEq, Eq)]
pub enum Trouble {
    /// Memory ran out. Nothing was written.
    OutOfMemory,
    /// A change can't be stored. Nothing was written.
    Refused,
    /// The file failed, or its contents aren't the desk's. It must be opened and read again.
    Lost,
}

// The three errors by which the engine reports that memory ran out.
fn is_memory(error: Error) -> bool
    ensures { result ≡ spec.is_memory error }
{
    matches!(
        error,
        Error::SqliteFailure(ErrorCode::OutOfMemory)
            | Error::SqlInputError(CompileError::OutOfMemory)
            | Error::SqlInputError(CompileError::Parse(ParseError::OutOfMemory))
    )
}

impl From<Error> for Trouble {
    ghost from_gives = { λ error trouble. trouble ≡ spec.trouble_of error };

    fn from(error: Error) -> Self {
        if is_memory(error) {
            Trouble::OutOfMemory
        } else {
            Trouble::Lost
        }
    }
}

impl From<OpenError> for Trouble {
    fn from(error: OpenError) -> Self {
        match error {
            OpenError::OutOfMemory => Trouble::OutOfMemory,
            OpenError::Io(error) if error.kind() == ErrorKind::OutOfMemory => Trouble::OutOfMemory,
            _ => Trouble::Lost,
        }
    }
}

impl From<OutOfMemory> for Trouble {
    ghost from_gives = { λ _ trouble. trouble ≡ Memory };

    fn from(_: OutOfMemory) -> Self {
        Trouble::OutOfMemory
    }
}

impl<T: Drop> From<AllocFailed<T>> for Trouble {
    ghost from_gives = { λ _ trouble. trouble ≡ Memory };

    fn from(_: AllocFailed<T>) -> Self {
        Trouble::OutOfMemory
    }
}

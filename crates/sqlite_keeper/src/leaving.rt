ghost use Rattle.std.specs.Prelude.{IfOk};
ghost use Rattle.sqlite.specs.Closing.{IsCopied};
ghost use Rattle.sqlite_wal.specs.Reads.{AreClean};

use crate::trouble::Trouble;
use keeper::KeepFault;
use sqlite::{Connection, Error, FileStore, Files};
use sqlite_disk::Disk;

fn fault_of(error: Error) -> KeepFault {
    match Trouble::from(error) {
        Trouble::OutOfMemory => KeepFault::OutOfMemory,
        Trouble::Refused | Trouble::Lost => KeepFault::Failed,
    }
}

/// Checkpoints the log into the file, and returns both. The file alone then holds the last commit, even after a
/// crash.
pub(crate) fn copied<D: Disk + Drop>(conn: Connection<FileStore<D>>) -> Result<Files<D>, KeepFault>
    ensures { IfOk result (λ files. AreClean D.Disk files.log files.db → IsCopied conn files) }
{
    match conn.close_files() {
        Ok(files) => Ok(files),
        Err((error, _)) => Err(fault_of(error)),
    }
}

ghost use Rattle.std.specs.Prelude.{◌≡◌};
ghost use Rattle.pg_keeper.specs.Endings as spec;
ghost use Rattle.pg_keeper.specs.Endings.{Ends, Settles};
ghost use Rattle.pg_wire.specs.Crossing.{came, took};

use desk_io::OutOfMemory;
use desk_net::Link;
use keeper::Outcome;
use pg_scram::ScramFault;
use pg_wire::{Lost, SendFault, WriteFault, send, settle};

/// Why a call failed, for people to read.
#[derive(Clone, Copy, Debug, PartialEq, Eq)]
pub enum Cause {
    /// The server couldn't be reached.
    NotReached,
    /// No load has opened the connection yet.
    NotOpened,
    /// Another desk holds the lock.
    Locked,
    /// The server didn't prove that it knows the password.
    Unproved,
    /// The server is older than version 13.
    Version,
    /// The database or the session isn't encoded in UTF-8.
    Encoding,
    /// The setting `standard_conforming_strings` is off.
    Strings,
    /// The server is a standby, which takes no changes.
    Standby,
    /// Transactions aren't at the level `read committed`, or take no changes.
    Isolation,
    /// The server doesn't flush each commit to the disk.
    Unflushed,
    /// Commits don't wait for a standby.
    NoStandby,
    /// The table `kept` isn't the desk's.
    ForeignTable,
    /// The server refused, under this SQLSTATE.
    Refused([u8; 5]),
    /// The connection failed, the answer took too long, or its bytes make no sense.
    Lost,
    /// An earlier call lost the connection.
    Broken,
    /// The changes are too long for a request.
    TooLong,
}

/// Why rows weren't loaded.
#[derive(Clone, Copy, Debug, PartialEq, Eq)]
pub enum Trouble {
    /// Memory ran out.
    OutOfMemory,
    /// The call failed.
    Failed(Cause),
}

impl From<OutOfMemory> for Trouble {
    fn from(_: OutOfMemory) -> Self {
        Trouble::OutOfMemory
    }
}

impl From<Lost> for Trouble {
    fn from(_: Lost) -> Self {
        Trouble::Failed(Cause::Lost)
    }
}

impl From<WriteFault> for Trouble {
    fn from(fault: WriteFault) -> Self {
        match fault {
            WriteFault::TooLong => Trouble::Failed(Cause::TooLong),
            WriteFault::OutOfMemory => Trouble::OutOfMemory,
        }
    }
}

impl From<SendFault> for Trouble {
    fn from(fault: SendFault) -> Self {
        match fault {
            SendFault::Lost => Trouble::Failed(Cause::Lost),
            SendFault::OutOfMemory => Trouble::OutOfMemory,
        }
    }
}

impl From<ScramFault> for Trouble {
    fn from(fault: ScramFault) -> Self {
        match fault {
            ScramFault::Unreadable => Trouble::Failed(Cause::Unproved),
            ScramFault::OutOfMemory => Trouble::OutOfMemory,
        }
    }
}

/// How a commit ends.
#[derive(Clone, Copy, Debug, PartialEq, Eq)]
pub enum Ending {
    /// The server made all changes.
    Done,
    /// Memory ran out, and nothing was sent.
    OutOfMemory,
    /// Nothing was sent, or the server made no change.
    Refused(Cause),
    /// The connection is lost. Whether the changes were made isn't known.
    Lost,
}

/// Returns what the account calls an ending.
pub(crate) fn outcome_of(ending: Ending) -> Outcome
    ensures { result ≡ spec.outcome_of ending }
{
    match ending {
        Ending::Done => Outcome::Done,
        Ending::OutOfMemory => Outcome::Refused,
        Ending::Refused(_) => Outcome::Refused,
        Ending::Lost => Outcome::Unknown,
    }
}

// Reads the answer to a request of this number of commands. An answer that completes another number is no answer.
#[tactic(auto, using(crate::proofs::EndingLaws::has_made, crate::proofs::EndingLaws::has_refused))]
fn settled<L: Link>(link: &mut L, count: u64) -> Ending
    ensures read { Settles count (came (L.seen link.old).crossed) (came (L.seen link.new).crossed) result }
    ensures sent { took (L.seen link.new).crossed ≡ took (L.seen link.old).crossed }
{
    let Ok(answer) = settle(link) else {
        return Ending::Lost;
    };
    match answer.refused {
        Some(state) => Ending::Refused(Cause::Refused(state)),
        None => {
            if answer.completed == count {
                Ending::Done
            } else {
                Ending::Lost
            }
        }
    }
}

// Sends a request of this number of commands once, and reads its answer. This allocates nothing.
#[tactic(auto, using(crate::proofs::EndingLaws::ends_settled))]
fn exchanged<L: Link>(link: &mut L, request: &[u8], count: u64) -> Ending
    ensures { Ends request.now count (L.seen link.old).crossed (L.seen link.new).crossed result }
{
    match send(link, request) {
        Ok(()) => settled(link, count),
        Err(SendFault::Lost) => Ending::Lost,
        Err(SendFault::OutOfMemory) => Ending::OutOfMemory,
    }
}

/// Returns whether the connection is lost.
pub(crate) fn is_lost(ending: Ending) -> bool
    ensures { result ≡ spec.is_lost ending }
{
    match ending {
        Ending::Done => false,
        Ending::OutOfMemory => false,
        Ending::Refused(_) => false,
        Ending::Lost => true,
    }
}

/// Sends a request of this number of commands once, and reads its answer. A link that is lost is ended, so that the
/// server gives up the session.
pub(crate) fn made_over<L: Link>(link: &mut L, request: &[u8], count: u64) -> Ending
    ensures { Ends request.now count (L.seen link.old).crossed (L.seen link.new).crossed result }
{
    let ending = exchanged(link, request, count);
    if is_lost(ending) {
        link.end();
    }
    ending
}

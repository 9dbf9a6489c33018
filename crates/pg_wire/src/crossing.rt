ghost use Rattle.std.specs.Prelude.{◌≡◌, ◌<◌, ◌≤◌, ◌+◌, ◌++◌, length, take, drop, IfOk, IsErrOf, OnOk, OnErr};
ghost use Rattle.pg_wire.specs.Crossing.{came, took, TakesFront};

use desk_io::PutFault;
use desk_net::Link;

/// The connection failed, or its bytes make no sense. It can't be used again.
#[derive(Clone, Copy, Debug, PartialEq, Eq)]
pub struct Lost;

/// Why a request wasn't sent whole.
#[derive(Clone, Copy, Debug, PartialEq, Eq)]
pub enum SendFault {
    /// The connection failed. It accepted a prefix of the request, which may be empty.
    Lost,
    /// Memory ran out, and nothing was sent.
    OutOfMemory,
}

// Reads some bytes and returns their number, which is 0 exactly at the end.
#[tactic(auto, using(crate::proofs::Passed::came_more, crate::proofs::Passed::came_same, crate::proofs::Passed::took_read, crate::proofs::Passed::took_same))]
fn read_some<L: Link>(link: &mut L, into: &mut [u8]) -> Result<usize, Lost>
    requires { 0 < length into.old }
    ensures bound { IfOk result (λ n. n ≤ length into.old) }
    ensures read { IfOk result
        (λ n. came (L.seen link.new).crossed ≡ came (L.seen link.old).crossed ++ take n into.new) }
    ensures sent { took (L.seen link.new).crossed ≡ took (L.seen link.old).crossed }
{
    match link.read(into) {
        Ok(count) => Ok(count),
        Err(_) => Err(Lost),
    }
}

// Reads some bytes over those from a place on.
fn read_after<L: Link>(link: &mut L, into: &mut [u8], place: usize) -> Result<usize, Lost>
    requires { place < length into.old }
    ensures front { take place into.new ≡ take place into.old }
    ensures bound { IfOk result (λ n. place + n ≤ length into.new) }
    ensures read { IfOk result
        (λ n. came (L.seen link.new).crossed ≡ came (L.seen link.old).crossed ++ take n (drop place into.new)) }
    ensures sent { took (L.seen link.new).crossed ≡ took (L.seen link.old).crossed }
{
    read_some(link, &mut into[place..])
}

/// Fills the buffer with the next bytes.
pub fn read_exactly<L: Link>(link: &mut L, into: &mut [u8]) -> Result<(), Lost>
    ensures read { OnOk result (came (L.seen link.new).crossed ≡ came (L.seen link.old).crossed ++ into.new) }
    ensures sent { took (L.seen link.new).crossed ≡ took (L.seen link.old).crossed }
{
    let mut place = 0;
    while place < into.len() {
        let count = read_after(link, into, place)?;
        if count == 0 {
            return Err(Lost);
        }
        place += count;
    }
    Ok(())
}

/// Sends a request whole.
#[tactic(auto, using(crate::proofs::Passed::took_more, crate::proofs::Passed::took_same, crate::proofs::Passed::came_sent, crate::proofs::Passed::took_front, crate::proofs::Passed::took_none, crate::proofs::Passed::came_front, crate::proofs::Passed::came_same))]
pub fn send<L: Link>(link: &mut L, bytes: &[u8]) -> Result<(), SendFault>
    ensures ok { OnOk result (took (L.seen link.new).crossed ≡ took (L.seen link.old).crossed ++ bytes.now) }
    ensures err { OnErr result (TakesFront (L.seen link.old).crossed (L.seen link.new).crossed bytes.now) }
    ensures memory { IsErrOf result SendFault.OutOfMemory
        → took (L.seen link.new).crossed ≡ took (L.seen link.old).crossed }
    ensures came { came (L.seen link.new).crossed ≡ came (L.seen link.old).crossed }
{
    match link.write(bytes) {
        Ok(()) => Ok(()),
        Err(PutFault::Failed) => Err(SendFault::Lost),
        Err(PutFault::OutOfMemory) => Err(SendFault::OutOfMemory),
    }
}

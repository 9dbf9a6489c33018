ghost use Rattle.std.specs.Prelude.{◌≡◌, ◌≤◌, ◌++◌, ℕ, List, length, take, None, Some, IfOk, IfSome, OnOk, MatchOption};
ghost use Rattle.std.specs.Int.{w32, to_be_bytes};
ghost use Rattle.pg_wire.specs.Backend.{head_bytes, Skips, TakesContent, TakesMessage};
ghost use Rattle.pg_wire.specs.Crossing.{came, took};

use crate::{Lost, read_exactly};
use desk_net::Link;
use std::alloc::Global;

// How many bytes are read at once where they aren't all wanted, or their number isn't known to be small.
const PIECE: usize = 4096;

/// The head of a message: its tag, and the number of bytes of its content.
#[derive(Clone, Copy, Debug, PartialEq, Eq)]
pub struct Head {
    pub tag: u8,
    pub size: u32,
}

// Returns the number with these bytes, the highest first.
fn number_of(bytes: [u8; 4]) -> u32
    ensures { to_be_bytes w32 result ≡ bytes }
{
    u32::from_be_bytes(bytes)
}

// Reads the length of a message, which counts its own four bytes.
fn read_length<L: Link>(link: &mut L) -> Result<u32, Lost>
    ensures read { IfOk result
        (λ n. came (L.seen link.new).crossed ≡ came (L.seen link.old).crossed ++ to_be_bytes w32 n) }
    ensures counted { IfOk result (λ n. 4 ≤ n) }
    ensures sent { took (L.seen link.new).crossed ≡ took (L.seen link.old).crossed }
{
    let mut length = [0u8; 4];
    read_exactly(link, &mut length)?;
    let length = number_of(length);
    if length < 4 {
        return Err(Lost);
    }
    Ok(length)
}

/// Reads the head of the next message.
pub fn read_head<L: Link>(link: &mut L) -> Result<Head, Lost>
    ensures read { IfOk result
        (λ h. came (L.seen link.new).crossed ≡ came (L.seen link.old).crossed ++ head_bytes h.tag h.size) }
    ensures sent { took (L.seen link.new).crossed ≡ took (L.seen link.old).crossed }
{
    let mut tag = [0u8; 1];
    read_exactly(link, &mut tag)?;
    let length = read_length(link)?;
    let [tag] = tag;
    Ok(Head {
        tag,
        size: length - 4,
    })
}

// Reads and drops some bytes.
fn skip_some<L: Link>(link: &mut L, count: usize) -> Result<(), Lost>
    requires { count ≤ 4_096 }
    ensures read { OnOk result (Skips (came (L.seen link.old).crossed) (came (L.seen link.new).crossed) count) }
    ensures sent { took (L.seen link.new).crossed ≡ took (L.seen link.old).crossed }
{
    let mut piece = [0u8; PIECE];
    read_exactly(link, &mut piece[..count])
}

/// Reads and drops this number of bytes.
#[tactic(auto, using(crate::proofs::Reading::skips_none, crate::proofs::Reading::skips_more))]
pub fn skip<L: Link>(link: &mut L, count: usize) -> Result<(), Lost>
    ensures read { OnOk result (Skips (came (L.seen link.old).crossed) (came (L.seen link.new).crossed) count) }
    ensures sent { took (L.seen link.new).crossed ≡ took (L.seen link.old).crossed }
{
    let mut left = count;
    while left > 0 {
        let part = left.min(PIECE);
        skip_some(link, part)?;
        left -= part;
    }
    Ok(())
}

/// Reads a content of this size into the front of `into`, and drops what has no room. Returns how much is kept.
pub fn read_content<L: Link>(link: &mut L, size: u32, into: &mut [u8]) -> Result<usize, Lost>
    ensures bound { IfOk result (λ n. n ≤ length into.new) }
    ensures read { IfOk result (λ n. TakesContent (came (L.seen link.old).crossed) (came (L.seen link.new).crossed)
        size (length into.new) (take n into.new)) }
    ensures sent { took (L.seen link.new).crossed ≡ took (L.seen link.old).crossed }
{
    let kept = into.len().min(size as usize);
    read_exactly(link, &mut into[..kept])?;
    skip(link, size as usize - kept)?;
    Ok(kept)
}

/// A message of whose content a front is kept.
#[derive(Clone, Copy, Debug, PartialEq, Eq)]
pub struct Seen {
    pub tag: u8,
    pub kept: usize,
}

/// Reads the next message, and keeps as much of its content in `into` as has room.
pub fn read_message<L: Link>(link: &mut L, into: &mut [u8]) -> Result<Seen, Lost>
    ensures bound { IfOk result (λ m. m.kept ≤ length into.new) }
    ensures read { IfOk result (λ m. TakesMessage (came (L.seen link.old).crossed) (came (L.seen link.new).crossed)
        m.tag (length into.new) (take m.kept into.new)) }
    ensures sent { took (L.seen link.new).crossed ≡ took (L.seen link.old).crossed }
{
    let head = read_head(link)?;
    let kept = read_content(link, head.size, into)?;
    Ok(Seen {
        tag: head.tag,
        kept,
    })
}

// Appends the next bytes to a vector. If memory runs out, they are dropped.
fn read_onto<L: Link>(link: &mut L, out: &mut Vec<u8>, count: usize) -> Result<Option<()>, Lost>
    requires { count ≤ 4_096 }
    ensures read { IfOk result (λ o. Skips (came (L.seen link.old).crossed) (came (L.seen link.new).crossed) count) }
    ensures grown { IfOk result (λ o. IfSome o (λ _. (bytes : List ℕ) × (length bytes ≡ count)
        × (out.new.items ≡ out.old.items ++ bytes)
        × (came (L.seen link.new).crossed ≡ came (L.seen link.old).crossed ++ bytes))) }
    ensures sent { took (L.seen link.new).crossed ≡ took (L.seen link.old).crossed }
{
    let mut piece = [0u8; PIECE];
    let part = &mut piece[..count];
    read_exactly(link, part)?;
    match out.extend_from_slice(part) {
        Ok(()) => Ok(Some(())),
        Err(_) => Ok(None),
    }
}

/// Reads a content of this size. Returns None if memory runs out; the content is dropped then.
pub fn read_whole<L: Link>(alloc: Global, link: &mut L, size: u32) -> Result<Option<Vec<u8>>, Lost>
    ensures read { IfOk result (λ o. MatchOption o
        (Skips (came (L.seen link.old).crossed) (came (L.seen link.new).crossed) size)
        (λ v. (length v.items ≡ size)
        × (came (L.seen link.new).crossed ≡ came (L.seen link.old).crossed ++ v.items))) }
    ensures sent { took (L.seen link.new).crossed ≡ took (L.seen link.old).crossed }
{
    let mut content = Vec::new(alloc);
    let mut left = size as usize;
    while left > 0 {
        let part = left.min(PIECE);
        left -= part;
        if read_onto(link, &mut content, part)?.is_none() {
            skip(link, left)?;
            return Ok(None);
        }
    }
    Ok(Some(content))
}

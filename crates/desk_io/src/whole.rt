ghost use Rattle.std.specs.Prelude.{◌<◌, length, IfOk};
ghost use Rattle.desk_io.specs.Health.{HasCauseWhere};
ghost use Rattle.desk_io.specs.Reads.{ReadsTo};
ghost use Rattle.desk_io.specs.Seen.{ShelfGoesOn, Holds};
ghost use Rattle.desk_io.specs.Whole.{ReadsWhole};

use crate::{OutOfMemory, Shelf, Text, WholeFault};
use std::alloc::Global;

/// The largest source that `read_whole` accepts, in bytes: 64 MiB.
pub const SOURCE_LIMIT: u64 = 67_108_864;

// The number of bytes requested per read.
const PIECE: usize = 65_536;

fn room(alloc: Global) -> Result<Vec<u8>, OutOfMemory>
    ensures { IfOk result (λ piece. 0 < length piece.items) }
{
    let mut piece = Vec::new(alloc);
    piece.resize(PIECE, 0)?;
    Ok(piece)
}

// Reads the source in pieces, using `piece` as the buffer.
fn read_by<S: Shelf>(
    alloc: Global,
    shelf: &mut S,
    name: &str,
    piece: &mut [u8],
) -> Result<Text, WholeFault>
    requires { 0 < length piece.old }
    ensures whole { ReadsWhole (S.seen shelf.old).sources name.now result }
    ensures reads { ReadsTo name.now (S.seen shelf.old).reads (S.seen shelf.new).reads result }
    ensures on { ShelfGoesOn (Holds (S.seen shelf.old) name.now) (S.seen shelf.old) (S.seen shelf.new) }
    ensures cause { HasCauseWhere (Holds (S.seen shelf.old) name.now) WholeFault.ReadFault
        (S.seen shelf.old).health (S.seen shelf.new).health result }
{
    let mut text = Vec::new(alloc);
    loop {
        let count = shelf.next(name, text.len() as u64, piece)?;
        if count == 0 {
            return Ok(Text::from_vec(text));
        }
        text.extend_from_slice(&piece[..count])?;
        if text.len() as u64 > SOURCE_LIMIT {
            return Err(WholeFault::TooLong);
        }
    }
}

/// Reads the whole source of this name. `ReadFault` means that the shelf failed and counted the fault. `TooLong`
/// means that the source has more than `SOURCE_LIMIT` bytes. The shelf makes no other reads, and the text is exactly
/// what they returned.
pub fn read_whole<S: Shelf>(alloc: Global, shelf: &mut S, name: &str) -> Result<Text, WholeFault>
    ensures whole { ReadsWhole (S.seen shelf.old).sources name.now result }
    ensures reads { ReadsTo name.now (S.seen shelf.old).reads (S.seen shelf.new).reads result }
    ensures on { ShelfGoesOn (Holds (S.seen shelf.old) name.now) (S.seen shelf.old) (S.seen shelf.new) }
    ensures cause { HasCauseWhere (Holds (S.seen shelf.old) name.now) WholeFault.ReadFault
        (S.seen shelf.old).health (S.seen shelf.new).health result }
{
    let mut piece = room(alloc)?;
    read_by(alloc, shelf, name, &mut piece)
}

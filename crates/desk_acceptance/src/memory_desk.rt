ghost use Rattle.std.specs.Prelude.{◌≡◌, IsTrue};

use alerts::{MemoryBell, Ringer};
use desk::{Board, Desk};
use keeper::MemoryKeeper;
use ops_tables::Tables;
use std::alloc::Global;

/// A new board over these tables that stores the entries of its history.
pub fn listed_board(alloc: Global, tables: Tables) -> Board
    ensures { IsTrue result.listed }
{
    let mut board = Board::new(alloc, tables);
    board.hold_entries(alloc);
    board
}

/// A desk with this board over a keeper without rows, and without bells.
pub fn memory_desk(alloc: Global, board: Board) -> Desk<MemoryKeeper, MemoryBell>
    ensures { result.board ≡ board }
{
    Desk {
        board,
        keeper: MemoryKeeper::new(Vec::new(alloc), Vec::new(alloc)),
        ringer: Ringer::none(alloc),
    }
}

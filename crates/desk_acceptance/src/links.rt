ghost use Rattle.std.specs.Prelude.{◌≡◌, ◌<◌};

use crate::memory_desk::memory_desk;
use alerts::MemoryBell;
use connections::Served;
use desk::{Board, Desk};
use desk_io::OutOfMemory;
use desk_net::{MemoryClock, MemoryLink};
use keeper::MemoryKeeper;
use rules::Steps;
use service::serve_link;
use small_airline::small_tables;
use std::alloc::Global;
use std::marker::Brand;
use std::sync::Wait;
use std::sync::ledger::{Blank, Ledger};
use std::test::Fail;
use table_files::TableFault;

// A request for the board, and what it is answered at 17:00, where nothing is held.
const BOARD: &[u8] =
    b"GET /board HTTP/1.1\r\nHost: desk\r\nDesk-Actor: D1\r\nDesk-Key: kD1\r\n\r\n";

const BOARD_SEEN: &[u8] =
    b"HTTP/1.1 200 OK\r\nContent-Type: application/json\r\nContent-Length: 36\r\n\r\n{\"seen\":\"BOARD 2025-03-12T17:00Z\\n\"}";

// A call whose body is no JSON, and what it is answered.
const CALL: &[u8] = b"POST /call HTTP/1.1\r\nContent-Length: 1048576\r\n\r\n";

const CALL_REFUSED: &[u8] =
    b"HTTP/1.1 400 Bad Request\r\nContent-Type: application/json\r\nContent-Length: 26\r\n\r\n{\"bad\":\"NotJson\",\"key\":\"\"}";

fn link_of(alloc: Global, input: &[u8], cut: usize) -> Result<MemoryLink, OutOfMemory>
    requires { 0 < cut }
{
    let input = Vec::from_slice(alloc, input)?;
    Ok(MemoryLink::new(alloc, input, cut, Vec::new(alloc)))
}

// A clock at 17:00 on 2025-03-12.
fn clock_of(alloc: Global) -> Result<MemoryClock, OutOfMemory> {
    let moments = vec![in alloc; 29_029_980]?;
    Ok(MemoryClock::new(moments, Vec::new(alloc)))
}

fn serve_lent<R: Wait, L: Ledger>(
    rt: &R,
    alloc: Global,
    desk: &mut Desk<MemoryKeeper, MemoryBell>,
    link: &mut MemoryLink,
    clock: &mut MemoryClock,
    blank: Blank,
) -> Served
    requires name { blank.name ≡ L.name }
    requires parts { blank.parts ≡ L.parts }
    requires some { 0 < blank.parts }
{
    let mut steps = Steps::<L>::new(blank);
    serve_link(rt, alloc, desk, 1, link, clock, &mut steps)
}

// A desk over objects in memory serves the link, and is let go.
fn serve<R: Wait>(
    rt: &R,
    alloc: Global,
    board: Board,
    link: &mut MemoryLink,
    clock: &mut MemoryClock,
) -> Served {
    let mut desk = memory_desk(alloc, board);
    serve_lent::<R, Brand>(rt, alloc, &mut desk, link, clock, Blank::new(1))
}

fn served<R: Wait>(
    rt: &R,
    alloc: Global,
    link: &mut MemoryLink,
    clock: &mut MemoryClock,
) -> Result<Served, TableFault> {
    let board = Board::new(alloc, small_tables(alloc)?);
    Ok(serve(rt, alloc, board, link, clock))
}

// Whether what comes in, in pieces of so many bytes, is answered this before the connection ends.
fn is_answered<R: Wait>(
    rt: &R,
    alloc: Global,
    input: &[u8],
    cut: usize,
    written: &[u8],
) -> Result<bool, TableFault>
    requires { 0 < cut }
{
    let mut link = link_of(alloc, input, cut)?;
    let mut clock = clock_of(alloc)?;
    let served = served(rt, alloc, &mut link, &mut clock)?;
    Ok(served == Served::Ended && link.written() == written)
}

#[test]
fn a_desk_that_is_lent_shows_its_board_for_every_cut(rt: HostRuntime) -> Result<(), Fail> {
    for cut in 1..=BOARD.len() {
        assert!(rt;
            is_answered(&rt, rt.alloc(), BOARD, cut, BOARD_SEEN)?,
            "{cut}"
        );
    }
    Ok(())
}

// A request for the board whose head has 16,384 bytes.
fn long_head(alloc: Global) -> Result<Vec<u8>, OutOfMemory> {
    let mut head = Vec::from_slice(
        alloc,
        b"GET /board HTTP/1.1\r\nDesk-Actor: D1\r\nDesk-Key: kD1\r\nLong: ",
    )?;
    for _ in head.len()..16_380 {
        head.push(b'a')?;
    }
    head.extend_from_slice(b"\r\n\r\n")?;
    Ok(head)
}

// A call whose body has 1,048,576 bytes.
fn long_body(alloc: Global) -> Result<Vec<u8>, OutOfMemory> {
    let mut call = Vec::from_slice(alloc, CALL)?;
    for _ in 0..1_048_576 {
        call.push(b'x')?;
    }
    Ok(call)
}

#[test]
fn the_longest_head_is_read(rt: HostRuntime) -> Result<(), Fail> {
    let head = long_head(rt.alloc())?;
    assert!(rt; is_answered(&rt, rt.alloc(), &head, 4_096, BOARD_SEEN)?);
    Ok(())
}

#[test]
fn the_longest_body_is_read(rt: HostRuntime) -> Result<(), Fail> {
    let call = long_body(rt.alloc())?;
    assert!(rt; is_answered(&rt, rt.alloc(), &call, 4_096, CALL_REFUSED)?);
    Ok(())
}

use crate::streams::{shows, shows_failing};
use desk_io::OutOfMemory;
use std::alloc::Global;
use std::test::Fail;

// A call whose body looks like a head, and a view. Lines end in both ways.
const TWO: &[u8] =
    b"POST /call?a=/x HTTP/1.1\r\nHost: desk\r\nDesk-Key: kF1\r\nContent-Length: 19\r\n\r\n{\"one\":\r\n\r\n\"GET /\"}\r\n\r\nGET /board HTTP/1.1\nHOST:desk\ndesk-ACTOR: \t D1 \t\r\nDESK-KEY:kD1\r\nDesk-Key: k2\r\n\r\n";

// Ten requests, with blank lines between some of them, and what they show.
const TEN: &[u8] = b"GET /a HTTP/1.1\n\n\
    POST /b HTTP/1.1\nContent-Length:1\n\n1\
    \r\n\r\nGET /c HTTP/1.1\r\n\r\n\
    GET /d HTTP/1.1\nContent-Length: 4\n\nGET \
    POST /e HTTP/1.1\nContent-Length:0\n\n\
    \nPOST /f HTTP/1.1\nContent-Length:2\n\n\r\n\
    GET /g HTTP/1.0\n\n\
    GET /h?GET HTTP/1.1\n\n\
    POST /i HTTP/1.1\nContent-Length:00003\n\nabc\
    GET /j HTTP/1.1\nConnection:close\n\n";

const TEN_SHOWN: &[u8] =
    b"GET|/a||||on\nPOST|/b|||1|on\nGET|/c||||on\nGET|/d|||GET |on\nPOST|/e||||on\n\
    POST|/f|||\r\n|on\nGET|/g||||last\nGET|/h||||on\nPOST|/i|||abc|on\nGET|/j||||last\nEnd";

fn agrees_in_all_cuts(alloc: Global, input: &[u8], want: &[u8]) -> Result<bool, OutOfMemory> {
    for cut in 0..=input.len() {
        if !shows(alloc, input, cut, want)? {
            return Ok(false);
        }
    }
    Ok(true)
}

#[test]
fn the_pieces_of_a_stream_play_no_part(rt: HostRuntime) -> Result<(), Fail> {
    let two = b"POST|/call||kF1|{\"one\":\r\n\r\n\"GET /\"}|on\nGET|/board|D1|kD1||on\nEnd";
    let bytes = b"GET /a HTTP/1.1\r\nDesk-Actor: D 1\r\nDesk-Key: \xff\r\n\r\n";
    for (input, want) in [
        (TWO, two.as_slice()),
        (TEN, TEN_SHOWN),
        (bytes, b"GET|/a|D 1|\xff||on\nEnd"),
        (b"", b"End"),
        // blank lines are part of the next head
        (b"\r\n", b"Cut"),
        (b"GET /board HTTP/1.1\r\n\r\n\r\n", b"GET|/board||||on\nCut"),
        (b"G", b"Cut"),
        (b"GET /board HTTP/1.1\r\nHost: desk\r\n\r", b"Cut"),
        (b"POST /call HTTP/1.1\r\nContent-Length: 3\r\n\r\n", b"Cut"),
        (
            b"POST /call HTTP/1.1\r\nContent-Length: 3\r\n\r\n12",
            b"Cut",
        ),
    ] {
        assert!(rt; agrees_in_all_cuts(rt.alloc(), input, want)?, "{input:?}");
    }
    Ok(())
}

#[test]
fn a_read_that_fails_ends_the_requests(rt: HostRuntime) -> Result<(), Fail> {
    let alloc = rt.alloc();
    let input =
        b"GET /board HTTP/1.1\r\n\r\nPOST /call HTTP/1.1\r\nContent-Length: 9\r\n\r\n123456789";
    // 22 bytes are the first request, and 50 the second; each read gives 16, and the one after the last none.
    for (call, want) in [
        (0, b"ReadFault".as_slice()),
        (1, b"ReadFault"),
        (2, b"GET|/board||||on\nReadFault"),
        (3, b"GET|/board||||on\nReadFault"),
        (4, b"GET|/board||||on\nReadFault"),
        (5, b"GET|/board||||on\nPOST|/call|||123456789|on\nReadFault"),
    ] {
        assert!(rt;
            shows_failing(alloc, input.as_slice(), call, want)?,
            "call {call}"
        );
    }
    Ok(())
}

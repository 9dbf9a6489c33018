use crate::slow_peer::{Hands, SlowPeer};
use std::cell::Cell;
use std::io::{Read, Write};
use std::net::{OpenStream, Shutdown};
use std::test::Fail;
use std::time::Duration;
use timeouts::{Taken, TimedStream};

// Reads one byte after another until a read fails. Returns how many came.
fn read_all<S: Read>(stream: &mut S) -> u32 {
    let mut count = 0;
    let mut into = [0; 1];
    for _ in 0..100 {
        if stream.read(&mut into).is_err() {
            return count;
        }
        count = count.saturating_add(1);
    }
    count
}

// Writes two bytes at a time until a write fails. Returns how many writes didn't.
fn write_all<S: Write>(stream: &mut S) -> u32 {
    let mut count = 0;
    for _ in 0..100 {
        if stream.write(b"ab").is_err() {
            return count;
        }
        count = count.saturating_add(1);
    }
    count
}

#[test]
fn a_silent_connection_ends_after_five_seconds(rt: HostRuntime) -> Result<(), Fail> {
    let now = Cell::new(Duration::ZERO);
    let taken = Taken::new(1);
    let peer = SlowPeer::new(&now, Duration::from_secs(60));
    let mut stream = TimedStream::new(peer, Hands::new(&now), &taken, false);
    assert!(rt; read_all(&mut stream) == 0);
    assert!(rt; now.get() == Duration::from_secs(5));
    Ok(())
}

#[test]
fn a_silent_connection_ends_at_once_if_all_workers_are_taken(rt: HostRuntime) -> Result<(), Fail> {
    let now = Cell::new(Duration::ZERO);
    let taken = Taken::new(2);
    taken.begin();
    taken.begin();
    let peer = SlowPeer::new(&now, Duration::from_secs(60));
    let mut stream = TimedStream::new(peer, Hands::new(&now), &taken, false);
    assert!(rt; read_all(&mut stream) == 0);
    assert!(rt; now.get() == Duration::from_millis(200));
    Ok(())
}

#[test]
fn a_silent_connection_stays_while_a_worker_is_free(rt: HostRuntime) -> Result<(), Fail> {
    let now = Cell::new(Duration::ZERO);
    let taken = Taken::new(2);
    taken.begin();
    taken.begin();
    taken.end();
    let peer = SlowPeer::new(&now, Duration::from_secs(4));
    let mut stream = TimedStream::new(peer, Hands::new(&now), &taken, false);
    let mut into = [0; 1];
    assert!(rt; stream.read(&mut into).is_ok());
    assert!(rt; now.get() == Duration::from_secs(4));
    Ok(())
}

#[test]
fn a_request_goes_on_if_all_workers_are_taken(rt: HostRuntime) -> Result<(), Fail> {
    let now = Cell::new(Duration::ZERO);
    let taken = Taken::new(1);
    taken.begin();
    let peer = SlowPeer::new(&now, Duration::from_millis(150));
    let mut stream = TimedStream::new(peer, Hands::new(&now), &taken, false);
    // at 0.15 s, 0.3 s, .. 15 s
    assert!(rt; read_all(&mut stream) == 100);
    Ok(())
}

#[test]
fn a_request_has_twenty_seconds_from_its_first_byte(rt: HostRuntime) -> Result<(), Fail> {
    let now = Cell::new(Duration::ZERO);
    let taken = Taken::new(1);
    let peer = SlowPeer::new(&now, Duration::from_secs(3));
    let mut stream = TimedStream::new(peer, Hands::new(&now), &taken, false);
    // at 3 s, 6 s, .. 21 s
    assert!(rt; read_all(&mut stream) == 7);
    assert!(rt; now.get() == Duration::from_secs(23));
    Ok(())
}

#[test]
fn a_response_has_twenty_seconds_from_its_first_write(rt: HostRuntime) -> Result<(), Fail> {
    let now = Cell::new(Duration::ZERO);
    let taken = Taken::new(1);
    let peer = SlowPeer::new(&now, Duration::from_secs(3));
    let mut stream = TimedStream::new(peer, Hands::new(&now), &taken, false);
    // at 3 s, 6 s, .. 18 s
    assert!(rt; write_all(&mut stream) == 6);
    assert!(rt; now.get() == Duration::from_secs(20));
    Ok(())
}

#[test]
fn each_request_and_response_has_its_own_time(rt: HostRuntime) -> Result<(), Fail> {
    let now = Cell::new(Duration::ZERO);
    let taken = Taken::new(1);
    let peer = SlowPeer::new(&now, Duration::from_secs(4));
    let mut stream = TimedStream::new(peer, Hands::new(&now), &taken, false);
    let mut into = [0; 1];
    for _ in 0..10 {
        assert!(rt; stream.read(&mut into).is_ok());
        assert!(rt; stream.write(b"a").is_ok());
    }
    assert!(rt; now.get() == Duration::from_secs(80));
    // responses to requests that were read together
    for _ in 0..10 {
        assert!(rt; stream.write(b"a").is_ok());
    }
    assert!(rt; now.get() == Duration::from_secs(120));
    Ok(())
}

#[test]
fn a_silent_connection_ends_without_more_reads(rt: HostRuntime) -> Result<(), Fail> {
    let now = Cell::new(Duration::ZERO);
    let taken = Taken::new(1);
    let peer = SlowPeer::new(&now, Duration::from_secs(60));
    let mut stream = TimedStream::new(peer, Hands::new(&now), &taken, false);
    assert!(rt; read_all(&mut stream) == 0);
    assert!(rt; stream.shutdown(Shutdown::Write).is_ok());
    assert!(rt;
        stream
            .set_read_timeout(Some(Duration::from_secs(2)))
            .is_ok()
    );
    assert!(rt; read_all(&mut stream) == 0);
    assert!(rt; now.get() == Duration::from_secs(5));
    Ok(())
}

#[test]
fn a_free_stream_has_the_timeouts_of_its_caller(rt: HostRuntime) -> Result<(), Fail> {
    let now = Cell::new(Duration::ZERO);
    let taken = Taken::new(1);
    taken.begin();
    let peer = SlowPeer::new(&now, Duration::from_secs(25));
    let mut stream = TimedStream::new(peer, Hands::new(&now), &taken, true);
    assert!(rt;
        stream
            .set_read_timeout(Some(Duration::from_secs(30)))
            .is_ok()
    );
    assert!(rt; read_all(&mut stream) == 100);
    assert!(rt; now.get() == Duration::from_secs(2_500));
    Ok(())
}

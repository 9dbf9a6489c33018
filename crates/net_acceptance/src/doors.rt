use desk_io::{OutOfMemory, PutFault};
use desk_net::{Door, Link, MemoryDoor, MemoryLink, TcpDoor, TcpLink};
use std::alloc::Global;
use std::io::{Read, Write};
use std::net::{Ipv4Addr, Net, OpenStream, Shutdown, TcpStream};
use std::test::Fail;
use std::time::{Duration, Instant};
use std::{io, time};

fn link_of(alloc: Global, input: &[u8]) -> Result<MemoryLink, OutOfMemory> {
    let input = Vec::from_slice(alloc, input)?;
    Ok(MemoryLink::new(alloc, input, 4, Vec::new(alloc)))
}

// Takes the next link, reads once, writes back what it read, and gives the link back.
fn echo<D: Door>(door: &mut D) -> bool {
    let Ok(mut link) = door.accept() else {
        return false;
    };
    let mut into = [0; 4];
    let Ok(count) = link.read(&mut into) else {
        return false;
    };
    if count > 4 {
        return false;
    }
    link.write(&into[..count]).is_ok() && door.done(link).is_ok()
}

#[test]
fn a_door_gives_its_links_in_order(rt: HostRuntime) -> Result<(), Fail> {
    let alloc = rt.alloc();
    let links = vec![in alloc; link_of(alloc, b"one")?, link_of(alloc, b"two")?]?;
    let mut door = MemoryDoor::new(alloc, links, vec![in alloc; 2]?);
    assert!(rt; door.bind(80).is_ok());
    for (heard, faults) in [(true, 0), (false, 1), (true, 1), (false, 2)] {
        assert!(rt; echo(&mut door) == heard && door.faults() == faults);
    }
    let [one, two] = door.ended() else {
        panic!(rt; "two links have ended");
    };
    assert!(rt; one.written() == b"one".as_slice() && two.written() == b"two".as_slice());
    Ok(())
}

// Opens the door at the first port that is free, of forty.
fn open<R: Net + time::Clock + Copy>(door: &mut TcpDoor<R>) -> Option<u16> {
    for port in 28_461..28_501 {
        if door.bind(port).is_ok() {
            return Some(port);
        }
    }
    None
}

// What comes back to a caller that says a word.
fn call<N: Net>(net: &N, port: u16, word: &[u8]) -> io::Result<N::Stream> {
    let mut caller = TcpStream::connect(net, (Ipv4Addr::LOCALHOST, port))?;
    caller.write_all(word)?;
    caller.shutdown(Shutdown::Write)?;
    Ok(caller)
}

#[test]
fn two_callers_are_served_over_the_loopback(rt: HostRuntime) -> Result<(), Fail> {
    let mut door = TcpDoor::new(&rt);
    assert!(rt; !echo(&mut door) && door.faults() == 1);
    let Some(port) = open(&mut door) else {
        panic!(rt; "no port is free");
    };
    let mut first = call(&rt, port, b"ping".as_slice())?;
    let mut second = call(&rt, port, b"abc".as_slice())?;
    assert!(rt; echo(&mut door) && echo(&mut door));
    let mut heard = Vec::new(rt.alloc());
    first.read_to_end(&mut heard)?;
    assert!(rt; heard.as_slice() == b"ping".as_slice());
    second.read_to_end(&mut heard)?;
    assert!(rt; heard.as_slice() == b"pingabc".as_slice());
    // a port that is taken
    let mut other = TcpDoor::new(&rt);
    assert!(rt; other.bind(port).is_err() && other.faults() == 1);
    Ok(())
}

// Writes until the link fails, a hundred times at most.
fn fails_at_last<L: Link>(link: &mut L) -> bool {
    for _ in 0..100 {
        if link.write(&[0; 4_096]) == Err(PutFault::Failed) {
            return true;
        }
    }
    false
}

#[test]
fn a_link_ends_and_fails_as_its_caller_goes(rt: HostRuntime) -> Result<(), Fail> {
    let mut door = TcpDoor::new(&rt);
    let Some(port) = open(&mut door) else {
        panic!(rt; "no port is free");
    };
    let caller = call(&rt, port, b"ab".as_slice())?;
    let Ok(mut link) = door.accept() else {
        panic!(rt; "no link");
    };
    let mut into = [7; 8];
    assert!(rt; link.read(&mut into) == Ok(2));
    assert!(rt; into[..3] == [b'a', b'b', 7]);
    assert!(rt; link.read(&mut into) == Ok(0) && link.read(&mut into) == Ok(0));
    drop(caller);
    assert!(rt; fails_at_last(&mut link) && link.faults() == 1);
    Ok(())
}

#[test]
fn a_link_waits_half_a_minute_for_its_caller(rt: HostRuntime) -> Result<(), Fail> {
    let mut door = TcpDoor::new(&rt);
    let Some(port) = open(&mut door) else {
        panic!(rt; "no port is free");
    };
    let stream = TcpStream::connect(&rt, (Ipv4Addr::LOCALHOST, port))?;
    let twin = stream.try_clone()?;
    assert!(rt; twin.read_timeout()? == None && twin.write_timeout()? == None);
    let _link = TcpLink::new(stream, &rt)?;
    let limit = Some(Duration::from_secs(30));
    assert!(rt; twin.read_timeout()? == limit && twin.write_timeout()? == limit);
    Ok(())
}

// Of what this caller sends a few bytes are read before it gets its answer and the connection ends.
#[test]
fn a_caller_that_still_sends_gets_its_answer(rt: HostRuntime) -> Result<(), Fail> {
    let mut door = TcpDoor::new(&rt);
    let Some(port) = open(&mut door) else {
        panic!(rt; "no port is free");
    };
    let mut caller = call(&rt, port, &[b'a'; 20_000])?;
    assert!(rt; echo(&mut door) && door.faults() == 0);
    let mut heard = Vec::new(rt.alloc());
    caller.read_to_end(&mut heard)?;
    assert!(rt; heard.as_slice() == b"aaaa".as_slice());
    Ok(())
}

#[test]
fn a_silent_caller_holds_the_end_for_two_seconds(rt: HostRuntime) -> Result<(), Fail> {
    let mut door = TcpDoor::new(&rt);
    let Some(port) = open(&mut door) else {
        panic!(rt; "no port is free");
    };
    let mut caller = TcpStream::connect(&rt, (Ipv4Addr::LOCALHOST, port))?;
    caller.write_all(b"word".as_slice())?;
    let start = Instant::now(&rt)?;
    assert!(rt; echo(&mut door));
    let held = start.elapsed(&rt)?.as_secs();
    assert!(rt; 1 <= held && held <= 10);
    let mut heard = Vec::new(rt.alloc());
    caller.read_to_end(&mut heard)?;
    assert!(rt; heard.as_slice() == b"word".as_slice());
    Ok(())
}

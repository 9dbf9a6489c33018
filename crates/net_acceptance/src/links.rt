use crate::clocks::Standing;
use desk_io::{Failed, PutFault};
use desk_net::{Link, MemoryLink, TcpLink};
use std::io;
use std::io::{Read, Write};
use std::net::{OpenStream, Shutdown};
use std::sync::atomic::{AtomicBool, AtomicUsize, Ordering};
use std::test::Fail;
use std::time::Duration;

// Whether a read gives those bytes.
fn gives<L: Link>(link: &mut L, room: usize, want: Option<&[u8]>) -> bool {
    let mut into = [0; 16];
    if room == 0 || room > 16 {
        return false;
    }
    match (link.read(&mut into[..room]), want) {
        (Ok(count), Some(want)) => count <= 16 && &into[..count] == want,
        (Err(Failed), None) => true,
        _ => false,
    }
}

#[test]
fn a_link_gives_its_input_in_pieces(rt: HostRuntime) -> Result<(), Fail> {
    let input = Vec::from_slice(rt.alloc(), b"abcdefgh".as_slice())?;
    let fail = vec![in rt.alloc(); 1, 4]?;
    let mut link = MemoryLink::new(rt.alloc(), input, 3, fail);
    assert!(rt; gives(&mut link, 16, Some(b"abc".as_slice())));
    assert!(rt; gives(&mut link, 16, None));
    assert!(rt; gives(&mut link, 2, Some(b"de".as_slice())));
    assert!(rt; link.write(b"one ".as_slice()) == Ok(()));
    assert!(rt; link.write(b"lost".as_slice()) == Err(PutFault::Failed));
    assert!(rt; link.write(b"two".as_slice()) == Ok(()));
    for want in [b"fgh".as_slice(), b"", b""] {
        assert!(rt; gives(&mut link, 16, Some(want)));
    }
    assert!(rt; link.written() == b"one two".as_slice() && link.faults() == 2);
    Ok(())
}

// A stream that gives "ab", then fails, then gives "c", then ends. It takes two bytes a call, and fails at the
// fourth. It can limit how long a read waits, and may be unable to limit a write.
#[derive(Drop)]
struct Stumbling {
    reads: u8,
    writes: u8,
    limits_writes: bool,
}

fn made(limits_writes: bool) -> Stumbling {
    Stumbling {
        reads: 0,
        writes: 0,
        limits_writes,
    }
}

impl Read for Stumbling {
    fn read(&mut self, into: &mut [u8]) -> io::Result<usize> {
        self.reads = self.reads.saturating_add(1);
        let given = match self.reads {
            1 => b"ab".as_slice(),
            2 => return Err(io::Error::from(io::ErrorKind::Other)),
            3 => b"c".as_slice(),
            _ => b"".as_slice(),
        };
        if given.len() > into.len() {
            return Err(io::Error::from(io::ErrorKind::Other));
        }
        into[..given.len()].copy_from_slice(given);
        Ok(given.len())
    }
}

impl Write for Stumbling {
    fn write(&mut self, bytes: &[u8]) -> io::Result<usize> {
        self.writes = self.writes.saturating_add(1);
        if self.writes == 4 {
            return Err(io::Error::from(io::ErrorKind::Other));
        }
        Ok(bytes.len().min(2))
    }

    fn flush(&mut self) -> io::Result<()> {
        Ok(())
    }
}

impl OpenStream for Stumbling {
    fn set_read_timeout(&self, _limit: Option<Duration>) -> io::Result<()> {
        Ok(())
    }

    fn set_write_timeout(&self, _limit: Option<Duration>) -> io::Result<()> {
        if self.limits_writes {
            Ok(())
        } else {
            Err(io::Error::from(io::ErrorKind::Unsupported))
        }
    }
}

#[test]
fn an_error_of_the_stream_is_a_fault(rt: HostRuntime) -> Result<(), Fail> {
    assert!(rt; TcpLink::new(made(false), &rt).is_err());
    let mut link = TcpLink::new(made(true), &rt)?;
    assert!(rt; gives(&mut link, 16, Some(b"ab".as_slice())));
    assert!(rt; gives(&mut link, 16, None));
    assert!(rt; link.faults() == 1);
    assert!(rt; gives(&mut link, 16, Some(b"c".as_slice())));
    assert!(rt; gives(&mut link, 16, Some(b"".as_slice())));
    assert!(rt; link.write(b"12345".as_slice()) == Ok(()));
    assert!(rt; link.write(b"6789".as_slice()) == Err(PutFault::Failed));
    assert!(rt; link.faults() == 2);
    assert!(rt; link.write(b"".as_slice()) == Ok(()));
    // its end can't be told, which is no fault
    link.end();
    assert!(rt; link.faults() == 2);
    Ok(())
}

// A stream whose peer sends without end. It can be read once its writing has ended, and counts what was read.
#[derive(Drop)]
struct Endless<'a> {
    is_shut: &'a AtomicBool,
    given: &'a AtomicUsize,
}

impl<'a> Read for Endless<'a> {
    fn read(&mut self, into: &mut [u8]) -> io::Result<usize> {
        if !self.is_shut.load(Ordering::SeqCst) {
            return Err(io::Error::from(io::ErrorKind::WouldBlock));
        }
        self.given.fetch_add(into.len(), Ordering::SeqCst);
        Ok(into.len())
    }
}

impl<'a> Write for Endless<'a> {
    fn write(&mut self, bytes: &[u8]) -> io::Result<usize> {
        Ok(bytes.len())
    }

    fn flush(&mut self) -> io::Result<()> {
        Ok(())
    }
}

impl<'a> OpenStream for Endless<'a> {
    fn set_read_timeout(&self, _limit: Option<Duration>) -> io::Result<()> {
        Ok(())
    }

    fn set_write_timeout(&self, _limit: Option<Duration>) -> io::Result<()> {
        Ok(())
    }

    fn shutdown(&self, how: Shutdown) -> io::Result<()> {
        self.is_shut.store(how == Shutdown::Write, Ordering::SeqCst);
        Ok(())
    }
}

#[test]
fn an_end_ends_the_writing_and_then_drops_four_mebibytes(rt: HostRuntime) -> Result<(), Fail> {
    let (is_shut, given) = (AtomicBool::new(false), AtomicUsize::new(0));
    let stream = Endless {
        is_shut: &is_shut,
        given: &given,
    };
    let mut link = TcpLink::new(stream, Standing(Some(0)))?;
    link.end();
    assert!(rt; given.load(Ordering::SeqCst) == 4_194_304 && link.faults() == 0);
    Ok(())
}

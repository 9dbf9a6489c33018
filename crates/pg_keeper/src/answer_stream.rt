ghost use Rattle.std.specs.Prelude.{◌≡◌};
ghost use Rattle.std.specs.Io.{ReadsAtMost, WritesAtMost};
ghost use Rattle.std.specs.Io.KnownBytes.{Keeps, ReadConsumes, WriteAppends};

use std::io::{Read, Write};
use std::net::{OpenStream, Shutdown, SocketAddr};
use std::os::fd::{AsRawFd, RawFd};
use std::time::{Duration, Instant};
use std::{io, time};

/// How many milliseconds after the first write of its request an answer must be whole, apart from `BYTES_A_MILLI`.
pub const ANSWER_MILLIS: u64 = 5_500;

/// A long answer has a millisecond more for each of so many bytes that came.
pub const BYTES_A_MILLI: u64 = 500;

// The exchange of a request and its answer.
#[derive(Clone, Copy, Drop)]
enum Exchange {
    // No request was written since the stream was made.
    Unasked,
    // The first write of the request began at this time.
    Asked(Instant),
    // The same, and so many bytes of the answer came.
    Answered(Instant, u64),
}

/// A stream to a server that answers requests. A read or a write fails once the answer takes too long, however often
/// bytes come: `ANSWER_MILLIS` after the first write of the request, and for a long answer a millisecond later for each
/// `BYTES_A_MILLI` bytes. A write that follows a read begins the next request. The bytes are those of the stream below,
/// and so are they whole. Allocates nothing.
#[derive(Drop)]
pub struct AnswerStream<S, C> {
    stream: S,
    clock: C,
    exchange: Exchange,
}

// The time that is left for an answer of which so many bytes came. An error means that none is left, or that the clock
// failed.
fn left<C: time::Clock>(clock: &C, start: Instant, came: u64) -> io::Result<Duration> {
    let whole = Duration::from_millis(ANSWER_MILLIS.saturating_add(came / BYTES_A_MILLI));
    let rest = whole.saturating_sub(start.elapsed(clock)?);
    if rest.is_zero() {
        Err(io::Error::from(io::ErrorKind::TimedOut))
    } else {
        Ok(rest)
    }
}

impl<S: OpenStream, C: time::Clock> AnswerStream<S, C> {
    /// Starts at an open stream over which nothing was asked.
    pub fn new(stream: S, clock: C) -> Self
        ensures { result.stream ≡ stream }
    {
        AnswerStream {
            stream,
            clock,
            exchange: Exchange::Unasked,
        }
    }

    // Limits the next read to what is left for the answer. Returns when its request began, and how much of it came.
    fn begin_read(&self) -> io::Result<(Instant, u64)> {
        let (start, came) = match self.exchange {
            Exchange::Unasked => (Instant::now(&self.clock)?, 0),
            Exchange::Asked(start) => (start, 0),
            Exchange::Answered(start, came) => (start, came),
        };
        let rest = left(&self.clock, start, came)?;
        self.stream.set_read_timeout(Some(rest))?;
        Ok((start, came))
    }

    // Limits the next write. Returns when its request began.
    fn begin_write(&self) -> io::Result<Instant> {
        let start = match self.exchange {
            Exchange::Asked(start) => start,
            _ => Instant::now(&self.clock)?,
        };
        let rest = left(&self.clock, start, 0)?;
        self.stream.set_write_timeout(Some(rest))?;
        Ok(start)
    }
}

impl<S: Read + OpenStream, C: time::Clock> Read for AnswerStream<S, C> {
    ghost remaining = { λ s. S.remaining s.stream };

    fn read(&mut self, buf: &mut [u8]) -> io::Result<usize>
        ensures bound { ReadsAtMost result buf.new }
        ensures bytes { ReadConsumes (S.remaining self.old.stream) (S.remaining self.new.stream) result buf.new }
    {
        match self.begin_read() {
            Ok((start, came)) => {
                let answer = self.stream.read(buf);
                if let Ok(count) = answer {
                    self.exchange = Exchange::Answered(start, came.saturating_add(count as u64));
                }
                answer
            }
            Err(error) => Err(error),
        }
    }
}

impl<S: Write + OpenStream, C: time::Clock> Write for AnswerStream<S, C> {
    ghost contents = { λ s. S.contents s.stream };

    fn write(&mut self, buf: &[u8]) -> io::Result<usize>
        ensures bound { WritesAtMost result buf.now }
        ensures bytes { WriteAppends (S.contents self.old.stream) (S.contents self.new.stream) result buf.now }
    {
        match self.begin_write() {
            Ok(start) => {
                self.exchange = Exchange::Asked(start);
                self.stream.write(buf)
            }
            Err(error) => Err(error),
        }
    }

    fn flush(&mut self) -> io::Result<()> {
        self.stream.flush()
    }
}

// The timeouts are those of the answer, whatever the caller sets.
impl<S: OpenStream, C> OpenStream for AnswerStream<S, C> {
    fn peer_addr(&self) -> io::Result<SocketAddr> {
        self.stream.peer_addr()
    }

    fn local_addr(&self) -> io::Result<SocketAddr> {
        self.stream.local_addr()
    }

    fn shutdown(&self, how: Shutdown) -> io::Result<()> {
        self.stream.shutdown(how)
    }

    fn set_nodelay(&self, nodelay: bool) -> io::Result<()> {
        self.stream.set_nodelay(nodelay)
    }

    fn set_read_timeout(&self, _: Option<Duration>) -> io::Result<()> {
        Ok(())
    }

    fn set_write_timeout(&self, _: Option<Duration>) -> io::Result<()> {
        Ok(())
    }
}

impl<S: AsRawFd, C> AsRawFd for AnswerStream<S, C> {
    fn as_raw_fd(&self) -> RawFd {
        self.stream.as_raw_fd()
    }
}

ghost use Rattle.std.specs.Prelude.{◌≡◌};
ghost use Rattle.std.specs.Io.{ReadsAtMost, WritesAtMost};
ghost use Rattle.std.specs.Io.KnownBytes.{Keeps, ReadConsumes, WriteAppends};

use crate::limits::{left, timed_out};
use crate::taken::Taken;
use std::cell::Cell;
use std::io::{Read, Write};
use std::net::{OpenStream, Shutdown, SocketAddr};
use std::os::fd::{AsRawFd, RawFd};
use std::time::{Duration, Instant};
use std::{io, time};

/// How many seconds a connection may be silent before a request.
pub const IDLE_SECONDS: u64 = 5;

/// How many seconds after its first byte a request must be whole.
pub const REQUEST_SECONDS: u64 = 20;

/// How many seconds after its first write a response must be taken.
pub const RESPONSE_SECONDS: u64 = 20;

// How many milliseconds pass between two looks whether all workers are taken.
const STEP_MILLIS: u64 = 200;

const STEPS: u64 = IDLE_SECONDS * 1_000 / STEP_MILLIS;

// What a connection does.
#[derive(Clone, Copy, Drop)]
enum Phase {
    // It waits for a request.
    Idle,
    // The first byte of a request came at this time.
    Request(Instant),
    // The first write of a response began at this time.
    Response(Instant),
    // No request came in time.
    Silent,
}

fn is_timeout(error: &io::Error) -> bool {
    match error.kind() {
        io::ErrorKind::WouldBlock | io::ErrorKind::TimedOut => true,
        _ => false,
    }
}

/// A stream whose reads and writes fail if the peer takes too long:
///
/// - before a request, after `IDLE_SECONDS` without a byte, or after a fifth of a second if all workers are taken;
/// - during a request, `REQUEST_SECONDS` after its first byte, however many reads there were;
/// - during a response, `RESPONSE_SECONDS` after its first write, however many writes there were.
///
/// After `shutdown` the timeouts are those that the caller sets, and a stream on which no request came in time reads
/// nothing more. The timeouts of a stream that is `free` are those that the caller sets from the start. The bytes are
/// those of the stream below. Allocates nothing.
#[derive(Drop)]
pub struct TimedStream<'a, S, C> {
    stream: S,
    clock: C,
    taken: &'a Taken,
    phase: Phase,
    free: Cell<bool>,
}

impl<'a, S: OpenStream, C: time::Clock> TimedStream<'a, S, C> {
    /// Starts at an open stream that waits for a request.
    pub fn new(stream: S, clock: C, taken: &'a Taken, free: bool) -> Self
        ensures { result.stream ≡ stream }
    {
        TimedStream {
            stream,
            clock,
            taken,
            phase: Phase::Idle,
            free: Cell::new(free),
        }
    }

    // Waits for the first byte of a request. Returns whether it came in time.
    fn has_first(&self) -> io::Result<bool> {
        self.stream
            .set_read_timeout(Some(Duration::from_millis(STEP_MILLIS)))?;
        let mut first = [0; 1];
        for _ in 0..STEPS {
            match self.stream.peek(&mut first) {
                Ok(_) => return Ok(true),
                Err(error) => {
                    if !is_timeout(&error) {
                        return Err(error);
                    }
                }
            }
            if self.taken.are_all() {
                return Ok(false);
            }
        }
        Ok(false)
    }

    // When the request began of which the next read is a part.
    fn request_start(&mut self) -> io::Result<Instant>
        ensures { self.new.stream ≡ self.old.stream }
    {
        if let Phase::Request(start) = self.phase {
            return Ok(start);
        }
        if self.has_first()? {
            Instant::now(&self.clock)
        } else {
            self.phase = Phase::Silent;
            Err(timed_out())
        }
    }

    // When the response began of which the next write is a part.
    fn response_start(&self) -> io::Result<Instant> {
        match self.phase {
            Phase::Response(start) => Ok(start),
            _ => Instant::now(&self.clock),
        }
    }

    // Limits the next read to what is left for the request.
    fn limit_read(&mut self) -> io::Result<()>
        ensures { self.new.stream ≡ self.old.stream }
    {
        let start = self.request_start()?;
        self.phase = Phase::Request(start);
        let rest = left(&self.clock, start, REQUEST_SECONDS)?;
        self.stream.set_read_timeout(Some(rest))
    }

    // Limits the next write to what is left for the response, unless the stream is free.
    fn limit_write(&mut self) -> io::Result<()>
        ensures { self.new.stream ≡ self.old.stream }
    {
        if self.free.get() {
            return Ok(());
        }
        let start = self.response_start()?;
        self.phase = Phase::Response(start);
        let rest = left(&self.clock, start, RESPONSE_SECONDS)?;
        self.stream.set_write_timeout(Some(rest))
    }

    // Limits the next read, unless the stream is free.
    fn begin_read(&mut self) -> io::Result<()>
        ensures { self.new.stream ≡ self.old.stream }
    {
        if !self.free.get() {
            return self.limit_read();
        }
        match self.phase {
            Phase::Silent => Err(timed_out()),
            _ => Ok(()),
        }
    }
}

impl<'a, S: Read + OpenStream, C: time::Clock> Read for TimedStream<'a, S, C> {
    ghost remaining = { λ s. S.remaining s.stream };

    fn read(&mut self, buf: &mut [u8]) -> io::Result<usize>
        ensures bound { ReadsAtMost result buf.new }
        ensures bytes { ReadConsumes (S.remaining self.old.stream) (S.remaining self.new.stream) result buf.new }
    {
        match self.begin_read() {
            Ok(()) => self.stream.read(buf),
            Err(error) => Err(error),
        }
    }
}

impl<'a, S: Write + OpenStream, C: time::Clock> Write for TimedStream<'a, S, C> {
    ghost contents = { λ s. S.contents s.stream };

    fn write(&mut self, buf: &[u8]) -> io::Result<usize>
        ensures bound { WritesAtMost result buf.now }
        ensures bytes { WriteAppends (S.contents self.old.stream) (S.contents self.new.stream) result buf.now }
    {
        match self.limit_write() {
            Ok(()) => {
                let answer = self.stream.write(buf);
                if let Ok(count) = answer
                    && count == buf.len()
                {
                    self.phase = Phase::Idle;
                }
                answer
            }
            Err(error) => Err(error),
        }
    }

    fn flush(&mut self) -> io::Result<()> {
        self.stream.flush()
    }
}

impl<'a, S: OpenStream, C> OpenStream for TimedStream<'a, S, C> {
    fn peer_addr(&self) -> io::Result<SocketAddr> {
        self.stream.peer_addr()
    }

    fn local_addr(&self) -> io::Result<SocketAddr> {
        self.stream.local_addr()
    }

    fn shutdown(&self, how: Shutdown) -> io::Result<()> {
        self.free.set(true);
        self.stream.shutdown(how)
    }

    fn set_nodelay(&self, nodelay: bool) -> io::Result<()> {
        self.stream.set_nodelay(nodelay)
    }

    fn set_read_timeout(&self, dur: Option<Duration>) -> io::Result<()> {
        self.stream.set_read_timeout(dur)
    }

    fn set_write_timeout(&self, dur: Option<Duration>) -> io::Result<()> {
        self.stream.set_write_timeout(dur)
    }
}

impl<'a, S: AsRawFd, C> AsRawFd for TimedStream<'a, S, C> {
    fn as_raw_fd(&self) -> RawFd {
        self.stream.as_raw_fd()
    }
}

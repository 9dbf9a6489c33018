ghost use Rattle.std.specs.Prelude.{◌≡◌};

use std::cell::Cell;
use std::io;
use std::io::{Read, Write};
use std::net::{OpenStream, Shutdown};
use std::time::{Clock, Duration};

/// A clock that shows a time in memory.
#[derive(Drop)]
pub struct Hands<'a> {
    now: &'a Cell<Duration>,
}

impl<'a> Hands<'a> {
    pub fn new(now: &'a Cell<Duration>) -> Self {
        Hands { now }
    }
}

impl<'a> Clock for Hands<'a> {
    fn monotonic(&self) -> io::Result<Duration> {
        Ok(self.now.get())
    }

    fn since_1970(&self) -> io::Result<Duration> {
        Ok(self.now.get())
    }
}

/// A stream over which one byte passes at a time, each after the same pause. Waiting moves a time in memory.
#[derive(Drop)]
pub struct SlowPeer<'a> {
    now: &'a Cell<Duration>,
    pause: Duration,
    // when the next byte can be read
    next: Cell<Duration>,
    read_limit: Cell<Duration>,
    write_limit: Cell<Duration>,
}

impl<'a> SlowPeer<'a> {
    /// Starts a pause before the first byte.
    pub fn new(now: &'a Cell<Duration>, pause: Duration) -> Self {
        SlowPeer {
            now,
            pause,
            next: Cell::new(now.get().saturating_add(pause)),
            read_limit: Cell::new(Duration::ZERO),
            write_limit: Cell::new(Duration::ZERO),
        }
    }

    // Waits until a time, at most for so long.
    fn wait(&self, until: Duration, longest: Duration) -> io::Result<()> {
        let end = self.now.get().saturating_add(longest);
        if until > end {
            self.now.set(end);
            return Err(io::Error::from(io::ErrorKind::WouldBlock));
        }
        if until > self.now.get() {
            self.now.set(until);
        }
        Ok(())
    }
}

impl<'a> Read for SlowPeer<'a> {
    fn read(&mut self, buf: &mut [u8]) -> io::Result<usize> {
        self.wait(self.next.get(), self.read_limit.get())?;
        if buf.is_empty() {
            return Ok(0);
        }
        buf[0] = b'a';
        self.next.set(self.now.get().saturating_add(self.pause));
        Ok(1)
    }
}

impl<'a> Write for SlowPeer<'a> {
    fn write(&mut self, buf: &[u8]) -> io::Result<usize> {
        self.wait(
            self.now.get().saturating_add(self.pause),
            self.write_limit.get(),
        )?;
        self.next.set(self.now.get().saturating_add(self.pause));
        if buf.is_empty() { Ok(0) } else { Ok(1) }
    }

    fn flush(&mut self) -> io::Result<()> {
        Ok(())
    }
}

impl<'a> OpenStream for SlowPeer<'a> {
    fn peek(&self, buf: &mut [u8]) -> io::Result<usize> {
        self.wait(self.next.get(), self.read_limit.get())?;
        if buf.is_empty() {
            return Ok(0);
        }
        buf[0] = b'a';
        Ok(1)
    }

    fn shutdown(&self, _how: Shutdown) -> io::Result<()> {
        Ok(())
    }

    fn set_read_timeout(&self, dur: Option<Duration>) -> io::Result<()> {
        self.read_limit.set(dur.unwrap_or(Duration::MAX));
        Ok(())
    }

    fn set_write_timeout(&self, dur: Option<Duration>) -> io::Result<()> {
        self.write_limit.set(dur.unwrap_or(Duration::MAX));
        Ok(())
    }
}

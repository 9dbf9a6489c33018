use crate::streams::TimedStream;
use crate::taken::Taken;
use std::io;
use std::net::{Net, OpenListener, SocketAddr};
use std::os::fd::{AsRawFd, RawFd};
use std::time::{Clock, Duration};

/// A network whose streams are `TimedStream`s.
#[derive(Clone, Copy, Drop)]
pub struct TimedNet<'a, R> {
    net: R,
    taken: &'a Taken,
    free: bool,
}

impl<'a, R: Copy> TimedNet<'a, R> {
    /// Creates a network over another one. `taken` tells when a silent connection must make room. If `free`, the
    /// timeouts of its streams are those that the caller sets.
    pub fn new(net: R, taken: &'a Taken, free: bool) -> Self {
        TimedNet { net, taken, free }
    }
}

/// A listener that accepts `TimedStream`s.
#[derive(Drop)]
pub struct TimedListener<'a, R: Net> {
    listener: R::Listener,
    net: R,
    taken: &'a Taken,
    free: bool,
}

impl<'a, R: Net + Clock + Copy> OpenListener for TimedListener<'a, R> {
    type Stream = TimedStream<'a, R::Stream, R>;

    fn accept(&self) -> io::Result<(TimedStream<'a, R::Stream, R>, SocketAddr)> {
        let (stream, at) = self.listener.accept()?;
        Ok((
            TimedStream::new(stream, self.net, self.taken, self.free),
            at,
        ))
    }

    fn local_addr(&self) -> io::Result<SocketAddr> {
        self.listener.local_addr()
    }
}

impl<'a, R: Net> AsRawFd for TimedListener<'a, R> {
    fn as_raw_fd(&self) -> RawFd {
        self.listener.as_raw_fd()
    }
}

impl<'a, R: Net + Clock + Copy> Net for TimedNet<'a, R> {
    type Stream = TimedStream<'a, R::Stream, R>;

    type Listener = TimedListener<'a, R>;

    fn bind(&self, addr: SocketAddr) -> io::Result<TimedListener<'a, R>> {
        let listener = self.net.bind(addr)?;
        Ok(TimedListener {
            listener,
            net: self.net,
            taken: self.taken,
            free: self.free,
        })
    }

    fn connect(&self, addr: SocketAddr) -> io::Result<TimedStream<'a, R::Stream, R>> {
        let stream = self.net.connect(addr)?;
        Ok(TimedStream::new(stream, self.net, self.taken, self.free))
    }
}

impl<'a, R: Clock> Clock for TimedNet<'a, R> {
    fn monotonic(&self) -> io::Result<Duration> {
        self.net.monotonic()
    }

    fn since_1970(&self) -> io::Result<Duration> {
        self.net.since_1970()
    }

    fn sleep(&self, duration: Duration) {
        self.net.sleep(duration)
    }
}

use crate::answer_stream::AnswerStream;
use desk_io::Failed;
use desk_net::{Link, TcpLink};
use std::net::{Net, OpenStream, SocketAddr};
use std::random::RandomSource;
use std::time::Duration;
use std::{io, time};

/// How many seconds a connection may take to be made.
pub const DIAL_SECONDS: u64 = 5;

/// Makes connections to the server.
pub trait Dial {
    /// The type of its connections.
    type Link: Link + Drop;

    /// Makes a new connection.
    fn dial(&mut self) -> Result<Self::Link, Failed>;

    /// Returns bytes that nobody can predict.
    fn nonce(&mut self) -> Result<[u8; 24], Failed>;
}

/// Connects over TCP. A connection must be made within `DIAL_SECONDS`, and an answer over it must be whole in the time
/// that `AnswerStream` tells. The bytes aren't encrypted: use the same machine, a private network or a tunnel.
#[derive(Drop)]
pub struct TcpDial<R: Net + RandomSource + time::Clock + Copy> {
    net: R,
    address: Option<SocketAddr>,
}

impl<R: Net + RandomSource + time::Clock + Copy> TcpDial<R> {
    /// Creates a dial to this address. Connects to nothing yet. Without an address each dial fails.
    pub fn new(net: R, address: Option<SocketAddr>) -> Self {
        TcpDial { net, address }
    }

    fn connected(&self) -> io::Result<TcpLink<AnswerStream<R::Stream, R>, R>> {
        let Some(address) = self.address else {
            return Err(io::Error::from(io::ErrorKind::NotConnected));
        };
        let limit = Duration::from_secs(DIAL_SECONDS);
        let stream = self.net.connect_timeout(address, limit)?;
        stream.set_nodelay(true)?;
        TcpLink::new(AnswerStream::new(stream, self.net), self.net)
    }

    fn drawn(&self) -> io::Result<[u8; 24]> {
        let mut bytes = [0u8; 24];
        self.net.fill_bytes(&mut bytes)?;
        Ok(bytes)
    }
}

impl<R: Net + RandomSource + time::Clock + Copy> Dial for TcpDial<R> {
    type Link = TcpLink<AnswerStream<R::Stream, R>, R>;

    fn dial(&mut self) -> Result<TcpLink<AnswerStream<R::Stream, R>, R>, Failed> {
        match self.connected() {
            Ok(link) => Ok(link),
            Err(_) => Err(Failed),
        }
    }

    fn nonce(&mut self) -> Result<[u8; 24], Failed> {
        match self.drawn() {
            Ok(bytes) => Ok(bytes),
            Err(_) => Err(Failed),
        }
    }
}

ghost use Rattle.std.specs.Prelude.{◌≡◌, ◌<◌, ◌≤◌, [], false, true, length, take, None, Some, IsSome, IsSomeAnd, IfOk, IsOk, IsErr, OnOk, OnErr};
ghost use Rattle.std.proofs.Props.{props};
ghost use Rattle.std.specs.List.{AllByRecursion};
ghost use Rattle.std.specs.Io.KnownBytes.{Appends, ReadConsumes};
ghost use Rattle.desk_io.specs.Told.{AppendsFront};
ghost use Rattle.desk_io.specs.Health.{GoesOn, GoesOnWhere, HasCause, HasFailed, HasFailedWhere, unsound};
ghost use Rattle.desk_net.specs.Crossing.{Receives, Sends};
ghost use Rattle.desk_net.specs.Doors.{LetsIn, LetsOut, passed};
ghost use Rattle.desk_net.specs.System.{IsLocal, port_at};
ghost use Rattle.desk_io.specs.declared.faults.PutFault.TheVariants.{Failed as PutFailed};

use crate::crossed::{Piece, Received, Sent};
use crate::{Crossed, Door, Link, Passing};
use desk_io::{Failed, OutOfMemory, PutFault, Record, counted};
use std::io::{Read, Write};
use std::net::{
    Ipv4Addr, Net, OpenListener, OpenStream, Shutdown, SocketAddr, SocketAddrV4, TcpListener,
};
use std::time::{Duration, Instant};
use std::{io, time};

/// How many seconds a read or a write of a link waits for its peer.
pub const WAIT_SECONDS: u64 = 30;

/// How many seconds an ending link keeps reading.
pub const END_SECONDS: u64 = 2;

/// How many bytes an ending link drops before it stops reading.
pub const END_BYTES: usize = 4_194_304;

// How often a write is tried while signals interrupt it.
const MOST_TRIES: u32 = 1_000_000;

// Sets the timeouts. A read or a write that waits longer is an error of the stream.
fn limit_waits<S: OpenStream>(stream: &S) -> io::Result<()> {
    let limit = Duration::from_secs(WAIT_SECONDS);
    stream.set_read_timeout(Some(limit))?;
    stream.set_write_timeout(Some(limit))
}

// Reads some bytes and drops them. Returns how many they were, which is 0 at the end of the stream.
fn drop_some<S: Read>(stream: &mut S) -> io::Result<usize> {
    let mut into = [0; 4_096];
    stream.read(&mut into)
}

// Reads and drops bytes until the peer has ended too, within both limits.
fn drop_rest<S: Read + OpenStream, C: time::Clock>(stream: &mut S, clock: &C) -> io::Result<()> {
    let start = Instant::now(clock)?;
    let mut room = END_BYTES;
    while room > 0 {
        let rest = Duration::from_secs(END_SECONDS).saturating_sub(start.elapsed(clock)?);
        // an error if no time is left
        stream.set_read_timeout(Some(rest))?;
        let count = drop_some(stream)?;
        if count == 0 {
            return Ok(());
        }
        room = room.saturating_sub(count);
    }
    Ok(())
}

// Shuts down writing, so that the peer sees the end after everything written, and then reads to the end.
fn end_stream<S: Read + OpenStream, C: time::Clock>(stream: &mut S, clock: &C) -> io::Result<()> {
    stream.shutdown(Shutdown::Write)?;
    drop_rest(stream, clock)
}

fn read_some<S: Read>(stream: &mut S, into: &mut [u8]) -> io::Result<usize>
    ensures bound { IfOk result (λ n. n ≤ length into.old) }
    ensures bytes { ReadConsumes (S.remaining stream.old) (S.remaining stream.new) result into.new }
{
    stream.read(into)
}

// Writes some of the bytes, and tries again if a signal interrupts that.
#[tactic(auto, using(crate::proofs::Sending::kept_none, crate::proofs::Sending::kept_more, crate::proofs::Sending::appends_kept))]
fn write_some<S: Write>(stream: &mut S, bytes: &[u8]) -> Result<usize, Failed>
    ensures bound { IfOk result (λ n. n ≤ length bytes.now) }
    ensures told { IfOk result (λ n. Appends (S.contents stream.old) (S.contents stream.new) (take n bytes.now)) }
{
    for _ in 0..MOST_TRIES {
        match stream.write(bytes) {
            Ok(count) => return Ok(count),
            Err(error) => {
                if error.kind() != io::ErrorKind::Interrupted {
                    return Err(Failed);
                }
            }
        }
    }
    Err(Failed)
}

// Writes all of the bytes, unless a write fails, and records the bytes that each write accepted.
#[tactic(auto, using(crate::proofs::Sending::sent_none, crate::proofs::Sending::sent_more, crate::proofs::Sending::sent_front, crate::proofs::Sending::sent_all, crate::proofs::Sending::sent_told))]
fn write_out<S: Write>(stream: &mut S, taken: &mut Record<u8>, bytes: &[u8]) -> Result<(), Failed>
    ensures ok { OnOk result (Appends (Some taken.old.list) (Some taken.new.list) bytes.now) }
    ensures err { OnErr result (AppendsFront (Some taken.old.list) (Some taken.new.list) bytes.now) }
    ensures told { OnOk result (Appends (S.contents stream.old) (S.contents stream.new) bytes.now) }
{
    let mut rest = bytes;
    while !rest.is_empty() {
        match write_some(stream, rest) {
            Ok(0) => return Err(Failed),
            Ok(count) => {
                let (bytes, left) = rest.split_at(count);
                *taken = taken.with(&Piece { bytes });
                rest = left;
            }
            Err(_) => return Err(Failed),
        }
    }
    Ok(())
}

/// A connection over TCP (RFC 9293). Contracts know exactly what its reads returned and its writes accepted, and
/// nothing of what is still to come. Every error is a counted fault, and so is a read or a write that waits more than
/// `WAIT_SECONDS` for the peer. Dropping the link closes the connection. Allocates nothing.
#[derive(Drop)]
pub struct TcpLink<S: Read + Write + OpenStream + Drop, C: time::Clock + Drop> {
    stream: S,
    clock: C,
    ended: bool,
    crossed: Record<Crossed>,
    faults: u64,
}

impl<S: Read + Write + OpenStream + Drop, C: time::Clock + Drop> TcpLink<S, C> {
    /// Creates a link over an open stream, and sets its timeouts. The error means that they can't be set.
    pub fn new(stream: S, clock: C) -> io::Result<Self>
        ensures { IfOk result (λ link. (link.faults ≡ 0) × (link.ended ≡ false) × (link.crossed.list ≡ [])) }
    {
        limit_waits(&stream)?;
        Ok(TcpLink {
            stream,
            clock,
            ended: false,
            crossed: Record::new(),
            faults: 0,
        })
    }
}

impl<S: Read + Write + OpenStream + Drop, C: time::Clock + Drop> Link for TcpLink<S, C> {
    ghost seen = { λ l. record { stream = None; crossed = l.crossed.list; health = unsound l.faults } };

    fn read(&mut self, into: &mut [u8]) -> Result<usize, Failed>
        requires { 0 < length into.old }
        ensures bound { IfOk result (λ n. n ≤ length into.old) }
        ensures crossed { Receives self.old.crossed.list self.new.crossed.list into.new result }
        ensures on { GoesOn (unsound self.old.faults) (unsound self.new.faults) }
        ensures cause { OnErr result (HasFailed (unsound self.old.faults) (unsound self.new.faults)) }
        // The call returns what the stream returned.
        ensures bytes { ReadConsumes (S.remaining self.old.stream) (S.remaining self.new.stream) result into.new }
    {
        let answer = read_some(&mut self.stream, into);
        let count = counted(answer, &mut self.faults)?;
        self.crossed = self.crossed.with(&Received { into, count });
        Ok(count)
    }

    #[tactic(auto, using(crate::proofs::CrossingLaws::sends_front))]
    fn write(&mut self, bytes: &[u8]) -> Result<(), PutFault>
        ensures crossed { Sends self.old.crossed.list self.new.crossed.list bytes.now result }
        ensures on { GoesOn (unsound self.old.faults) (unsound self.new.faults) }
        ensures cause { HasCause PutFailed (unsound self.old.faults) (unsound self.new.faults) result }
        // The stream accepted all of the bytes.
        ensures bytes { OnOk result (Appends (S.contents self.old.stream) (S.contents self.new.stream) bytes.now) }
    {
        let mut taken = Record::new();
        let answer = write_out(&mut self.stream, &mut taken, bytes);
        self.crossed = self.crossed.with(&Sent { taken: &taken });
        match answer {
            Ok(()) => Ok(()),
            Err(Failed) => {
                self.faults = self.faults.saturating_add(1);
                Err(PutFault::Failed)
            }
        }
    }

    // Shuts down writing, then reads and drops bytes until the peer ends too. This stops after `END_SECONDS` or
    // `END_BYTES`. Closing a connection while bytes are in flight resets it, and a peer that is still sending then
    // loses what was written. A second call does nothing, and an error isn't a fault.
    fn end(&mut self)
        ensures faults { self.new.faults ≡ self.old.faults }
        ensures crossed { self.new.crossed.list ≡ self.old.crossed.list }
        ensures ended { self.new.ended ≡ true }
        ensures once { self.old.ended ≡ true → self.new.stream ≡ self.old.stream }
    {
        if !self.ended {
            self.ended = true;
            let _ = end_stream(&mut self.stream, &self.clock);
        }
    }

    fn faults(&self) -> u64 {
        self.faults
    }
}

// The address 127.0.0.1 with this port.
fn local(port: u16) -> SocketAddr
    ensures { IsLocal port result }
{
    SocketAddr::V4(SocketAddrV4::new(Ipv4Addr::LOCALHOST, port))
}

// Opens a socket that listens at this address. A socket that reports another address is closed again.
fn listen<R: Net>(net: &R, at: SocketAddr) -> io::Result<(R::Listener, SocketAddr)>
    ensures { IfOk result (λ socket. socket.1 ≡ at) }
{
    let listener = TcpListener::bind(net, at)?;
    let told = listener.local_addr()?;
    if told == at {
        Ok((listener, told))
    } else {
        Err(io::Error::from(io::ErrorKind::AddrNotAvailable))
    }
}

/// A door at 127.0.0.1, which only this machine can reach (RFC 1122, 3.2.1.3). Contracts know the links that it has
/// let in and out, and nothing of those still to come. Every error is a counted fault, and so is an accept at a door
/// that isn't open. An accept may wait for a connection without limit. Allocates nothing.
#[derive(Drop)]
pub struct TcpDoor<R: Net + time::Clock + Copy> {
    net: R,
    listener: Option<R::Listener>,
    at: Option<SocketAddr>,
    came: Record<TcpLink<R::Stream, R>>,
    went: Record<TcpLink<R::Stream, R>>,
    faults: u64,
    // Nothing had crossed a link when it was let in.
    ghost fresh: { AllByRecursion (λ link. link.crossed.list ≡ []) came.list } by { Prim.hlevel props },
}

impl<R: Net + time::Clock + Copy> TcpDoor<R> {
    /// Creates a door that isn't open yet.
    pub fn new(net: R) -> Self
        ensures faults { result.faults ≡ 0 }
        ensures at { result.at ≡ None }
        ensures came { result.came.list ≡ [] }
        ensures went { result.went.list ≡ [] }
    {
        TcpDoor {
            net,
            listener: None,
            at: None,
            came: Record::new(),
            went: Record::new(),
            faults: 0,
        }
    }

    // Opens the door at this port. If this fails, a door that was open stays open.
    fn open(&mut self, port: u16) -> io::Result<()>
        ensures faults { self.new.faults ≡ self.old.faults }
        ensures came { self.new.came.list ≡ self.old.came.list }
        ensures went { self.new.went.list ≡ self.old.went.list }
        ensures opened { OnOk result (IsSome self.new.listener × IsSomeAnd self.new.at (IsLocal port)) }
        ensures unopened { OnErr result (self.new.at ≡ self.old.at) }
    {
        let (listener, at) = listen(&self.net, local(port))?;
        self.listener = Some(listener);
        self.at = Some(at);
        Ok(())
    }

    fn next_link(&self) -> io::Result<TcpLink<R::Stream, R>>
        ensures shut { self.now.listener ≡ None → IsErr result }
        ensures fresh { IfOk result (λ link. link.faults ≡ 0) }
        ensures empty { IfOk result (λ link. link.crossed.list ≡ []) }
    {
        match &self.listener {
            None => Err(io::Error::from(io::ErrorKind::NotConnected)),
            Some(listener) => TcpLink::new(listener.accept()?.0, self.net),
        }
    }
}

impl<R: Net + time::Clock + Copy> Door for TcpDoor<R> {
    type Link = TcpLink<R::Stream, R>;

    ghost seen = { λ d. record {
      links = None;
      passed = passed d.came.list d.went.list;
      opened_at = port_at d.at;
      health = unsound d.faults;
    } };

    fn bind(&mut self, port: u16) -> Result<(), Failed>
        ensures passed { passed self.new.came.list self.new.went.list ≡ passed self.old.came.list self.old.went.list }
        ensures on { GoesOn (unsound self.old.faults) (unsound self.new.faults) }
        ensures cause { OnErr result (HasFailed (unsound self.old.faults) (unsound self.new.faults)) }
        ensures listens { OnOk result (IsSome self.new.listener) }
        // The socket reports that it listens at 127.0.0.1 and this port.
        ensures local { OnOk result (IsSomeAnd self.new.at (IsLocal port)) }
        ensures opened { OnOk result (port_at self.new.at ≡ Some port) }
        ensures unopened { OnErr result (self.new.at ≡ self.old.at) }
    {
        let answer = self.open(port);
        counted(answer, &mut self.faults)
    }

    fn accept(&mut self) -> Result<TcpLink<R::Stream, R>, Failed>
        ensures passed { LetsIn (passed self.old.came.list self.old.went.list)
            (passed self.new.came.list self.new.went.list) result }
        ensures on { GoesOnWhere (Unit {0}) (unsound self.old.faults) (unsound self.new.faults) }
        ensures cause { OnErr result (HasFailedWhere (Unit {0}) (unsound self.old.faults) (unsound self.new.faults)) }
        ensures at { self.new.at ≡ self.old.at }
        ensures shut { self.old.listener ≡ None → IsErr result }
        ensures fresh { IfOk result (λ link. link.faults ≡ 0) }
        // Nothing has crossed the link.
        ensures empty { IfOk result (λ link. link.crossed.list ≡ []) }
    {
        let answer = self.next_link();
        let link = counted(answer, &mut self.faults)?;
        self.came = self.came.with(&Passing { link: &link });
        Ok(link)
    }

    // Ends the link unless that was done, and closes the connection. Allocates nothing.
    fn done(&mut self, mut link: TcpLink<R::Stream, R>) -> Result<(), OutOfMemory>
        ensures passed { LetsOut (passed self.old.came.list self.old.went.list)
            (passed self.new.came.list self.new.went.list) link result }
        ensures at { self.new.at ≡ self.old.at }
        ensures health { unsound self.new.faults ≡ unsound self.old.faults }
        ensures always { IsOk result }
    {
        self.went = self.went.with(&Passing { link: &link });
        link.end();
        Ok(())
    }

    fn faults(&self) -> u64 {
        self.faults
    }
}

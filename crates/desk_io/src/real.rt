ghost use Rattle.std.specs.Prelude.{◌≡◌, ◌≤◌, length, [], None, Some, IfOk, OnOk, OnErr};
ghost use Rattle.std.specs.Io.KnownBytes.{Appends, ReadConsumes};
ghost use Rattle.desk_io.specs.Health.{unsound};
ghost use Rattle.desk_io.specs.Told.{AppendsFront};

use crate::reads::ReadResult;
use crate::{Event, Failed, PutFault, Record, Shelf, Sink, SourceRead, counted};
use std::fs::File;
use std::io;
use std::io::{Read, Seek, SeekFrom, Write};
use std::rt::Files;

// The longest name that is remembered, in bytes.
const NAME_LIMIT: usize = 255;

// A name in a fixed array, because a shelf allocates nothing.
#[derive(Clone, Copy)]
struct Name {
    bytes: [u8; NAME_LIMIT],
    length: usize,
}

impl Name {
    // Copies the name, or returns None if it is longer than `NAME_LIMIT`.
    fn of(name: &[u8]) -> Option<Name> {
        let length = name.len();
        if length > NAME_LIMIT {
            return None;
        }
        let mut bytes = [0; NAME_LIMIT];
        bytes[..length].copy_from_slice(name);
        Some(Name { bytes, length })
    }

    fn is(&self, name: &[u8]) -> bool {
        self.length <= NAME_LIMIT && &self.bytes[..self.length] == name
    }
}

// An open file that has been read up to `place`. The name is None if it is longer than `NAME_LIMIT`.
#[derive(Drop)]
struct Reading<F: Drop> {
    file: F,
    name: Option<Name>,
    place: u64,
}

impl<F: Read + Drop> Reading<F> {
    fn stands_at(&self, name: &str, place: u64) -> bool {
        match &self.name {
            None => false,
            Some(known) => self.place == place && known.is(name.as_bytes()),
        }
    }

    fn read_on(&mut self, into: &mut [u8]) -> io::Result<usize>
        ensures bound { IfOk result (λ n. n ≤ length into.old) }
        ensures bytes { ReadConsumes (F.remaining self.old.file) (F.remaining self.new.file) result into.new }
    {
        let count = self.file.read(into)?;
        self.place = self.place.saturating_add(count as u64);
        Ok(count)
    }
}

fn opened<R: Files>(files: &R, name: &str, place: u64) -> io::Result<Reading<R::File>> {
    let mut file = File::open(files, name)?;
    if place > 0 {
        file.seek(SeekFrom::Start(place))?;
    }
    let name = Name::of(name.as_bytes());
    Ok(Reading { file, name, place })
}

/// The files of the working directory. Contracts know exactly the bytes that each read returned, and nothing else of
/// the files. Every I/O error is a counted fault. The file read last stays open until its end, so that reading a source
/// in sequence opens it once. A source with a name of more than 255 bytes is opened for each read. Allocates nothing.
#[derive(Drop)]
pub struct FileShelf<R: Files + Drop> {
    files: R,
    reading: Option<Reading<R::File>>,
    reads: Record<SourceRead>,
    faults: u64,
}

impl<R: Files + Drop> FileShelf<R> {
    /// Creates a shelf over the working directory of the process. Opens nothing yet.
    pub fn new(files: R) -> Self
        ensures faults { result.faults ≡ 0 }
        ensures reads { result.reads.list ≡ [] }
    {
        FileShelf {
            files,
            reading: None,
            reads: Record::new(),
            faults: 0,
        }
    }

    fn read_at(&mut self, name: &str, place: u64, into: &mut [u8]) -> io::Result<usize>
        ensures bound { IfOk result (λ n. n ≤ length into.old) }
        ensures faults { self.new.faults ≡ self.old.faults }
        ensures reads { self.new.reads.list ≡ self.old.reads.list }
    {
        let mut reading = match self.reading.take() {
            Some(reading) if reading.stands_at(name, place) => reading,
            _ => opened(&self.files, name, place)?,
        };
        let count = reading.read_on(into)?;
        if count > 0 {
            self.reading = Some(reading);
        }
        Ok(count)
    }
}

impl<R: Files + Drop> Shelf for FileShelf<R> {
    ghost seen = { λ s. record { sources = None; reads = s.reads.list; health = unsound s.faults } };

    fn next(&mut self, name: &str, place: u64, into: &mut [u8]) -> Result<usize, Failed> {
        let count = self.read_at(name, place, into);
        let answer = counted(count, &mut self.faults);
        self.reads = self.reads.with(&ReadResult {
            name,
            place,
            into,
            answer,
        });
        answer
    }

    fn faults(&self) -> u64 {
        self.faults
    }
}

// Bytes that a write accepted.
#[derive(Drop)]
struct Taken<'a> {
    bytes: &'a [u8],
}

impl<'a> Event<u8> for Taken<'a> {
    ghost told = { λ t. t.bytes.now };
}

// Writes all of the bytes, unless a write fails, and records the bytes that each write accepted.
#[tactic(auto, using(crate::proofs::Writing::grew_none, crate::proofs::Writing::grew_more, crate::proofs::Writing::grew_front, crate::proofs::Writing::grew_all))]
fn write_out<W: Write>(writer: &mut W, taken: &mut Record<u8>, bytes: &[u8]) -> Result<(), Failed>
    ensures ok { OnOk result (Appends (Some taken.old.list) (Some taken.new.list) bytes.now) }
    ensures err { OnErr result (AppendsFront (Some taken.old.list) (Some taken.new.list) bytes.now) }
{
    let mut rest = bytes;
    while !rest.is_empty() {
        match writer.write(rest) {
            Ok(0) => return Err(Failed),
            Ok(count) => {
                let (bytes, left) = rest.split_at(count);
                *taken = taken.with(&Taken { bytes });
                rest = left;
            }
            Err(_) => return Err(Failed),
        }
    }
    Ok(())
}

/// Standard output. Contracts know exactly the bytes that its writes accepted. Every error is a counted fault.
#[derive(Drop)]
pub struct StdoutSink<R: Print + Drop> {
    out: R,
    taken: Record<u8>,
    faults: u64,
}

impl<R: Print + Drop> StdoutSink<R> {
    /// Creates a sink over standard output.
    pub fn new(out: R) -> Self
        ensures faults { result.faults ≡ 0 }
        ensures taken { result.taken.list ≡ [] }
    {
        StdoutSink {
            out,
            taken: Record::new(),
            faults: 0,
        }
    }
}

impl<R: Print + Drop> Sink for StdoutSink<R> {
    ghost seen = { λ s. record { content = Some s.taken.list; health = unsound s.faults } };

    fn write(&mut self, bytes: &[u8]) -> Result<(), PutFault> {
        match write_out(&mut io::writer(&self.out), &mut self.taken, bytes) {
            Ok(()) => Ok(()),
            Err(Failed) => {
                self.faults = self.faults.saturating_add(1);
                Err(PutFault::Failed)
            }
        }
    }

    fn faults(&self) -> u64 {
        self.faults
    }
}

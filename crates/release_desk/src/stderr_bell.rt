ghost use Rattle.std.specs.Prelude.{◌≡◌, None, codes};
ghost use Rattle.desk_io.specs.Health.{unsound};

use alerts::{Bell, Notice, NoticeKind};
use desk_io::{Failed, Text, counted};
use desk_net::{Clock, SystemClock};
use desk_time::show;
use std::io::Eprint;
use std::{io, str, time};

/// Prints a line to standard error for each notice, whoever its dispatcher is. The line has the current moment, the
/// dispatcher, who sits there if it is another, the release, and the change and the version of its alert. Contracts
/// don't know what was printed. A line that can't be printed is a counted fault.
#[derive(Drop)]
pub struct StderrBell<E: Eprint + Drop, T: time::Clock + Drop> {
    all: Text,
    out: E,
    clock: SystemClock<T>,
    faults: u64,
}

fn word_of(kind: NoticeKind) -> &'static str {
    match kind {
        NoticeKind::Opened => "opened",
        NoticeKind::Changed => "changed",
        NoticeKind::Closed => "closed",
    }
}

// The text for printing, or `?` if it isn't UTF-8.
fn printed(text: &[u8]) -> &str {
    match str::from_utf8(text) {
        Ok(text) => text,
        Err(_) => "?",
    }
}

// The other person who sits at the desk, if there is one.
fn relief_of<'a>(desk: &[u8], sitter: Option<&'a [u8]>) -> Option<&'a str> {
    match sitter {
        Some(sitter) if sitter != desk => Some(printed(sitter)),
        _ => None,
    }
}

fn tell<E: Eprint>(out: &E, at: &[u8], notice: &Notice, sitter: Option<&[u8]>) -> io::Result<()> {
    let desk = printed(notice.desk.bytes());
    let (release, version) = (notice.release, notice.version);
    let word = word_of(notice.kind);
    let at = printed(at);
    match relief_of(notice.desk.bytes(), sitter) {
        Some(sitter) => {
            eprintln!(out;
                "{at} {desk} ({sitter}): the alert of release {release} has {word}, version {version}"
            )
        }
        None => {
            eprintln!(out;
                "{at} {desk}: the alert of release {release} has {word}, version {version}"
            )
        }
    }
}

impl<E: Eprint + Drop, T: time::Clock + Drop> StderrBell<E, T> {
    /// Creates a bell over standard error. `all` must be `*`.
    pub fn new(all: Text, out: E, clock: T) -> Self
        ensures { result.faults ≡ 0 }
    {
        StderrBell {
            all,
            out,
            clock: SystemClock::new(clock),
            faults: 0,
        }
    }
}

impl<E: Eprint + Drop, T: time::Clock + Drop> Bell for StderrBell<E, T> {
    ghost seen = { λ b. record { desk = b.all; heard = None; health = unsound b.faults } };

    fn desk(&self) -> &Text {
        &self.all
    }

    fn ring(&mut self, notice: &Notice) -> Result<(), Failed> {
        self.ring_at(notice, None)
    }

    fn ring_at(&mut self, notice: &Notice, sitter: Option<&[u8]>) -> Result<(), Failed> {
        let answer = match self.clock.now() {
            Ok(moment) => tell(&self.out, &show(moment), notice, sitter),
            Err(Failed) => tell(&self.out, b"----------------Z".as_slice(), notice, sitter),
        };
        counted(answer, &mut self.faults)
    }

    fn faults(&self) -> u64 {
        self.faults
    }
}

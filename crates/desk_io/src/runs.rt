ghost use Rattle.std.specs.Prelude.{◌≡◌, ◌≤◌, ◌<◌, ◌+◌, ◌++◌, drop, length, List, ℕ, IfOk, OnOk, OnErr};
ghost use Rattle.std.specs.List.{position_or_len};
ghost use Rattle.desk_io.specs.Runs.{is_among, kept, runs_between, blanks, line_feeds};

use crate::OutOfMemory;
use std::alloc::Global;
use std::marker::Model;

/// A borrowed part of a text. Contracts model it as the list of its bytes.
#[derive(Debug, Drop)]
pub struct Run<'a> {
    bytes: &'a [u8],
}

impl<'a> Model for Run<'a> {
    ghost use Rattle.std.specs.Prelude.{List, ℕ};

    ghost Value = { List ℕ };

    ghost view = { λ run. run.bytes.now };
}

impl<'a> Run<'a> {
    /// Wraps these bytes without copying.
    pub fn of(bytes: &'a [u8]) -> Run<'a>
        ensures { result ≡ bytes.now }
    {
        Run { bytes }
    }

    /// Returns the bytes.
    pub fn bytes(&self) -> &'a [u8]
        ensures { result.now ≡ self.now }
    {
        self.bytes
    }
}

/// The bytes at which a text is split.
pub trait Separators {
    ghost separators: { List ℕ };

    /// Returns true if a byte is a separator.
    fn is_separator(b: u8) -> bool
        ensures { result ≡ is_among separators b };
}

/// Space, tab, carriage return and line feed, which separate the groups of a report.
pub struct Blanks;

/// The line feed, which ends a line.
pub struct LineFeeds;

impl Separators for Blanks {
    ghost separators = { blanks };

    fn is_separator(b: u8) -> bool {
        b == b' ' || b == b'\t' || b == b'\r' || b == b'\n'
    }
}

impl Separators for LineFeeds {
    ghost separators = { line_feeds };

    fn is_separator(b: u8) -> bool {
        b == b'\n'
    }
}

// The number of bytes before the first separator.
fn run_length<S: Separators>(text: &[u8]) -> usize
    ensures value { result ≡ position_or_len (is_among S.separators) text.now }
    ensures within { result ≤ length text.now }
{
    for (i, b) in text.iter().enumerate() {
        if S::is_separator(*b) {
            return i;
        }
    }
    text.len()
}

// The bytes after the separator at that index.
fn after(text: &[u8], place: usize) -> &[u8]
    requires { place < length text.now }
    ensures { result.now ≡ drop (place + 1) text.now }
{
    &text[place + 1..]
}

/// Appends a run unless it is empty. If memory runs out, the list is unchanged.
pub fn push_run<'a>(runs: &mut Vec<Run<'a>>, run: &'a [u8]) -> Result<(), OutOfMemory>
    ensures ok { OnOk result (runs.new.items ≡ runs.old.items ++ kept run.now) }
    ensures err { OnErr result (runs.new.items ≡ runs.old.items) }
{
    if !run.is_empty() {
        runs.push(Run::of(run))?;
    }
    Ok(())
}

/// Splits a text into its maximal runs of bytes that aren't separators, in order. These are, for example, the
/// non-empty lines of a script or the groups of a report. The runs borrow from the text.
#[tactic(auto, using(crate::proofs::RunLaws::last_run))]
pub fn runs_between<'a, S: Separators>(
    alloc: Global,
    text: &'a [u8],
) -> Result<Vec<Run<'a>>, OutOfMemory>
    ensures { IfOk result (λ v. v.items ≡ runs_between S.separators text.now) }
{
    let mut runs = Vec::with_capacity(alloc, FIRST_ROOM)?;
    let mut rest = text;
    loop {
        let end = run_length::<S>(rest);
        if end < rest.len() {
            push_run(&mut runs, &rest[..end])?;
            rest = after(rest, end);
        } else {
            push_run(&mut runs, rest)?;
            return Ok(runs);
        }
    }
}

// The initial capacity, enough for the groups of most forecasts.
const FIRST_ROOM: usize = 64;

ghost use Rattle.std.specs.Prelude.{◌≡◌, ◌++◌, Some, codes, IfOk, OnOk};
ghost use Rattle.commands.specs.Faults as spec;

use candidate_files::CandidateWhy;
use desk_io::{OutOfMemory, Row, Text, push_all};
use scripts::{OpenWhy, RowWhy};
use std::alloc::{AllocFailed, Global};
use table_files::{BadTable, TableFault, TableWhy};

/// Why an input of a command is bad.
#[derive(Clone, Copy, Debug, PartialEq, Eq)]
pub(crate) enum InputWhy {
    /// The file isn't the JSON of a plan.
    NotPlan,
    /// The plan fails a test that a draft must pass.
    BadPlan,
    /// A record of candidates is bad.
    Candidate(CandidateWhy),
}

/// A bad input of a command.
#[derive(Drop)]
pub(crate) struct BadInput {
    /// The name of the file.
    pub name: Text,
    /// The number of the record. A plan is record 1, and so is a header.
    pub line: u32,
    pub why: InputWhy,
}

/// Why a command fails.
#[derive(Drop)]
pub(crate) enum Fault {
    /// The arguments form no command.
    Usage,
    /// The source of this name can't be read.
    ReadFault(Text),
    /// The text can't be written.
    WriteFault,
    /// The keeper failed.
    KeeperFault,
    /// A table has a bad record, or an import lacks its header.
    BadTable(BadTable),
    /// The row isn't one that a desk writes.
    BadRow { row: Row, why: RowWhy },
    /// The two rows contradict each other.
    BadPair { one: Row, two: Row },
    /// Memory ran out.
    OutOfMemory,
    /// The door failed.
    DoorFault,
    /// The source of this name has more than 64 MiB.
    InputTooLong(Text),
    /// The clock failed.
    ClockFault,
    /// A plan or a record of candidates is bad.
    BadInput(BadInput),
}

impl From<OutOfMemory> for Fault {
    ghost use Rattle.commands.specs.declared.fault.Fault.TheVariants.{OutOfMemory as NoMemory};

    ghost from_gives = { λ _ e. e ≡ NoMemory };

    fn from(_: OutOfMemory) -> Self {
        Fault::OutOfMemory
    }
}

impl<T: Drop> From<AllocFailed<T>> for Fault {
    ghost use Rattle.commands.specs.declared.fault.Fault.TheVariants.{OutOfMemory as NoMemory};

    ghost from_gives = { λ _ e. e ≡ NoMemory };

    fn from(_: AllocFailed<T>) -> Self {
        Fault::OutOfMemory
    }
}

impl From<TableFault> for Fault {
    ghost use Rattle.commands.specs.Faults.{of_tables};

    ghost from_gives = { λ fault e. e ≡ of_tables fault };

    fn from(fault: TableFault) -> Self {
        match fault {
            TableFault::Bad(bad) => Fault::BadTable(bad),
            TableFault::ReadFault(name) => Fault::ReadFault(name),
            TableFault::TooLong(name) => Fault::InputTooLong(name),
            TableFault::OutOfMemory => Fault::OutOfMemory,
        }
    }
}

impl From<OpenWhy> for Fault {
    ghost use Rattle.commands.specs.Faults.{of_opening};

    ghost from_gives = { λ why e. e ≡ of_opening why };

    fn from(why: OpenWhy) -> Self {
        match why {
            OpenWhy::KeeperFault => Fault::KeeperFault,
            OpenWhy::BadRow { row, why } => Fault::BadRow { row, why },
            OpenWhy::BadPair { one, two } => Fault::BadPair { one, two },
            OpenWhy::OutOfMemory => Fault::OutOfMemory,
        }
    }
}

// A line that ends with the name of a source.
fn named(alloc: Global, front: &[u8], name: &[u8]) -> Result<Text, OutOfMemory>
    ensures { IfOk result (λ line. line ≡ front.now ++ name.now ++ codes "\n") }
{
    let mut line = Vec::new(alloc);
    push_all(&mut line, &[front, name, b"\n"])?;
    Ok(Text::from_vec(line))
}

fn why_name(why: TableWhy) -> &'static [u8]
    ensures { result.now ≡ spec.why_name why }
{
    match why {
        TableWhy::BadField => b"BadField",
        TableWhy::Doubled => b"Doubled",
        TableWhy::Unlinked => b"Unlinked",
        TableWhy::OverLimit => b"OverLimit",
    }
}

fn candidate_why_name(why: CandidateWhy) -> &'static [u8]
    ensures { result.now ≡ spec.candidate_why_name why }
{
    match why {
        CandidateWhy::OverLimit => b"OverLimit",
        CandidateWhy::BadField => b"BadField",
        CandidateWhy::Doubled => b"Doubled",
    }
}

fn input_why_name(why: InputWhy) -> &'static [u8]
    ensures { result.now ≡ spec.input_why_name why }
{
    match why {
        InputWhy::NotPlan => b"NotPlan",
        InputWhy::BadPlan => b"BadPlan",
        InputWhy::Candidate(why) => candidate_why_name(why),
    }
}

fn row_why_name(why: RowWhy) -> &'static [u8]
    ensures { result.now ≡ spec.row_why_name why }
{
    match why {
        RowWhy::NotCanonical => b"NotCanonical",
        RowWhy::NoMeta => b"NoMeta",
        RowWhy::Orphan => b"Orphan",
        RowWhy::OverLimit => b"OverLimit",
    }
}

// The kind and the key of a row.
fn push_row(alloc: Global, line: &mut Vec<u8>, row: &Row) -> Result<(), OutOfMemory>
    ensures { OnOk result (line.new.items ≡ line.old.items ++ spec.row_named row.now) }
{
    let kind = row.kind.to_string(alloc)?;
    let key = row.key.to_string(alloc)?;
    push_all(line, &[kind.as_bytes(), b" ", key.as_bytes()])
}

fn bad_row_line(alloc: Global, row: &Row, why: RowWhy) -> Result<Text, OutOfMemory>
    ensures { IfOk result (λ line. line ≡ spec.bad_row row.now why) }
{
    let mut line = Vec::from_slice(alloc, b"error 7 BadRow ")?;
    push_row(alloc, &mut line, row)?;
    push_all(&mut line, &[b" ", row_why_name(why), b"\n"])?;
    Ok(Text::from_vec(line))
}

fn bad_pair_line(alloc: Global, one: &Row, two: &Row) -> Result<Text, OutOfMemory>
    ensures { IfOk result (λ line. line ≡ spec.bad_pair one.now two.now) }
{
    let mut line = Vec::from_slice(alloc, b"error 7 BadPair ")?;
    push_row(alloc, &mut line, one)?;
    line.push(b' ')?;
    push_row(alloc, &mut line, two)?;
    line.push(b'\n')?;
    Ok(Text::from_vec(line))
}

// A line that ends with the name of a file, the number of its bad record, and why that is bad.
fn at_record(
    alloc: Global,
    front: &[u8],
    name: &[u8],
    number: u32,
    why: &[u8],
) -> Result<Text, OutOfMemory>
    ensures { IfOk result (λ line. line ≡ spec.at_record front.now name.now number why.now) }
{
    let number = number.to_string(alloc)?;
    let mut line = Vec::new(alloc);
    push_all(&mut line, &[front, name, b" "])?;
    push_all(&mut line, &[number.as_bytes(), b" ", why, b"\n"])?;
    Ok(Text::from_vec(line))
}

fn bad_table_line(alloc: Global, bad: &BadTable) -> Result<Text, OutOfMemory>
    ensures { IfOk result (λ line. line ≡ spec.bad_table bad.now) }
{
    let why = why_name(bad.why);
    at_record(alloc, b"error 6 BadTable ", bad.name.bytes(), bad.line, why)
}

fn bad_input_line(alloc: Global, bad: &BadInput) -> Result<Text, OutOfMemory>
    ensures { IfOk result (λ line. line ≡ spec.bad_input bad.now) }
{
    let why = input_why_name(bad.why);
    at_record(
        alloc,
        b"error 12 BadInput ",
        bad.name.bytes(),
        bad.line,
        why,
    )
}

impl Fault {
    /// The exit status for this fault.
    pub fn status(&self) -> u8
        ensures { result ≡ spec.status_of_fault self.now }
    {
        match self {
            Fault::Usage => 2,
            Fault::ReadFault(_) => 3,
            Fault::WriteFault => 4,
            Fault::KeeperFault => 5,
            Fault::BadTable(_) => 6,
            Fault::BadRow { .. } => 7,
            Fault::BadPair { .. } => 7,
            Fault::OutOfMemory => 8,
            Fault::DoorFault => 9,
            Fault::InputTooLong(_) => 10,
            Fault::ClockFault => 11,
            Fault::BadInput(_) => 12,
        }
    }

    /// The line for this fault. `WriteFault` and `OutOfMemory` have no line, and return out of memory.
    pub fn line(&self, alloc: Global) -> Result<Text, OutOfMemory>
        ensures { IfOk result (λ line. spec.line_of self.now ≡ Some line) }
    {
        match self {
            Fault::Usage => Text::of(alloc, b"error 2 Usage\n"),
            Fault::ReadFault(name) => named(alloc, b"error 3 ReadFault ", name.bytes()),
            Fault::KeeperFault => Text::of(alloc, b"error 5 KeeperFault\n"),
            Fault::BadTable(bad) => bad_table_line(alloc, bad),
            Fault::BadRow { row, why } => bad_row_line(alloc, row, *why),
            Fault::BadPair { one, two } => bad_pair_line(alloc, one, two),
            Fault::DoorFault => Text::of(alloc, b"error 9 DoorFault\n"),
            Fault::InputTooLong(name) => named(alloc, b"error 10 InputTooLong ", name.bytes()),
            Fault::ClockFault => Text::of(alloc, b"error 11 ClockFault\n"),
            Fault::BadInput(bad) => bad_input_line(alloc, bad),
            Fault::WriteFault | Fault::OutOfMemory => Err(OutOfMemory),
        }
    }
}

/// The text to write, and the exit status that goes with it.
#[derive(Drop)]
pub(crate) struct Told {
    pub status: u8,
    pub text: Text,
}

/// The text and the exit status for the answer of a command.
pub(crate) fn tell(alloc: Global, answer: Result<Text, Fault>) -> Result<Told, OutOfMemory>
    ensures status { IfOk result (λ t. t.status ≡ spec.status_of answer) }
    ensures text { IfOk result (λ t. spec.text_of answer ≡ Some t.text) }
{
    match answer {
        Ok(text) => Ok(Told { status: 0, text }),
        Err(fault) => Ok(Told {
            status: fault.status(),
            text: fault.line(alloc)?,
        }),
    }
}

ghost use Rattle.std.specs.Prelude.{◌<◌};

use crate::dial::Dial;
use crate::{Account, Cause, PgKeeper};
use desk_io::{Change, Failed, OutOfMemory, Text};
use desk_net::MemoryLink;
use keeper::{KeepFault, Keeper};
use std::alloc::Global;
use std::mem;
use std::test::Fail;

// Makes one link with planned bytes, which come in pieces of at most `cut`. Calls of the link whose numbers are in
// `fail` fail.
#[derive(Drop)]
struct Planned {
    alloc: Global,
    input: Vec<u8>,
    cut: usize,
    fail: Vec<u64>,
    ghost some_cut: { 0 < cut },
}

impl Dial for Planned {
    type Link = MemoryLink;

    fn dial(&mut self) -> Result<MemoryLink, Failed> {
        let input = mem::replace(&mut self.input, Vec::new(self.alloc));
        let fail = mem::replace(&mut self.fail, Vec::new(self.alloc));
        Ok(MemoryLink::new(self.alloc, input, self.cut, fail))
    }

    fn nonce(&mut self) -> Result<[u8; 24], Failed> {
        Ok([7; 24])
    }
}

// AuthenticationOk.
const LET_IN: &[u8] = b"R\0\0\0\x08\0\0\0\0";

// The reports of a server that is fit, and those of others.
const FIT: &[u8] =
    b"S\0\0\0\x18server_version\013.0\0S\0\0\0\x19server_encoding\0UTF8\0S\0\0\0\x19client_encoding\0UTF8\0\
S\0\0\0#standard_conforming_strings\0on\0K\0\0\0\x0c\0\0\0\0\0\0\0\0Z\0\0\0\x05I";

const OLD_SERVER: &[u8] =
    b"S\0\0\0\x18server_version\012.9\0S\0\0\0\x19server_encoding\0UTF8\0S\0\0\0\x19client_encoding\0UTF8\0\
S\0\0\0#standard_conforming_strings\0on\0K\0\0\0\x0c\0\0\0\0\0\0\0\0Z\0\0\0\x05I";

const OTHER_ENCODING: &[u8] =
    b"S\0\0\0\x18server_version\013.0\0S\0\0\0\x1eserver_encoding\0SQL_ASCII\0S\0\0\0\x19client_encoding\0UTF8\0\
S\0\0\0#standard_conforming_strings\0on\0K\0\0\0\x0c\0\0\0\0\0\0\0\0Z\0\0\0\x05I";

// The answers to a question, and to the other requests of an opening.
const TRUE: &[u8] =
    b"T\0\0\0\x07\0\x01xD\0\0\0\x0b\0\x01\0\0\0\x01tC\0\0\0\x0dSELECT 1\0Z\0\0\0\x05I";

const FALSE: &[u8] =
    b"T\0\0\0\x07\0\x01xD\0\0\0\x0b\0\x01\0\0\0\x01fC\0\0\0\x0dSELECT 1\0Z\0\0\0\x05I";

// The answers to the three questions about the server and its settings.
const INSPECTED: &[u8] =
    b"T\0\0\0\x07\0\x01xD\0\0\0\x0b\0\x01\0\0\0\x01tC\0\0\0\x0dSELECT 1\0Z\0\0\0\x05I\
T\0\0\0\x07\0\x01xD\0\0\0\x0b\0\x01\0\0\0\x01tC\0\0\0\x0dSELECT 1\0Z\0\0\0\x05I\
T\0\0\0\x07\0\x01xD\0\0\0\x0b\0\x01\0\0\0\x01tC\0\0\0\x0dSELECT 1\0Z\0\0\0\x05I";

// The lock isn't free, and the text that tells who holds it.
const TAKEN: &[u8] = b"E\0\0\0\x13SERROR\0C55P03\0\0Z\0\0\0\x05I";

const HELD: &[u8] =
    b"T\0\0\0\x07\0\x01xD\0\0\0\x13\0\x01\0\0\0\x09process 7C\0\0\0\x0dSELECT 1\0Z\0\0\0\x05I";

const TABLE: &[u8] = b"C\0\0\0\x11CREATE TABLE\0Z\0\0\0\x05I";

const PREPARED: &[u8] = b"1\0\0\0\x041\0\0\0\x041\0\0\0\x04Z\0\0\0\x05I";

// Answers to a load: rows in order, none, rows out of order, and a row of two columns.
const TWO_ROWS: &[u8] =
    b"2\0\0\0\x04D\0\0\0\x1d\0\x03\0\0\0\x02\0\0\0\0\0\x08\0\0\0\0\0\0\0\0\0\0\0\x01a\
D\0\0\0\x1c\0\x03\0\0\0\x02\0\x03\0\0\0\x08\x80\0\0\0\0\0\0\0\0\0\0\0C\0\0\0\x0dSELECT 2\0Z\0\0\0\x05I";

const NO_ROWS: &[u8] = b"2\0\0\0\x04C\0\0\0\x0dSELECT 0\0Z\0\0\0\x05I";

const FALLING: &[u8] =
    b"2\0\0\0\x04D\0\0\0\x1d\0\x03\0\0\0\x02\0\x03\0\0\0\x08\0\0\0\0\0\0\0\x05\0\0\0\x01a\
D\0\0\0\x1d\0\x03\0\0\0\x02\0\x03\0\0\0\x08\0\0\0\0\0\0\0\x04\0\0\0\x01bC\0\0\0\x0dSELECT 2\0Z\0\0\0\x05I";

const TWO_COLUMNS: &[u8] =
    b"2\0\0\0\x04D\0\0\0\x12\0\x02\0\0\0\x02\0\0\0\0\0\x02\0\0C\0\0\0\x0dSELECT 1\0Z\0\0\0\x05I";

// The answer to the limit of later statements.
const LIMITED: &[u8] = b"C\0\0\0\x08SET\0Z\0\0\0\x05I";

// Answers to a commit of one change.
const DONE: &[u8] = b"2\0\0\0\x04C\0\0\0\x0dDELETE 0\0Z\0\0\0\x05I";

const REFUSED: &[u8] = b"E\0\0\0\x13SERROR\0C22021\0\0Z\0\0\0\x05I";

const UNREADY: &[u8] = b"2\0\0\0\x04C\0\0\0\x0dDELETE 0\0";

const IN_TRANSACTION: &[u8] = b"2\0\0\0\x04C\0\0\0\x0dDELETE 0\0Z\0\0\0\x05T";

const WARNED: &[u8] = b"2\0\0\0\x04C\0\0\0\x0dDELETE 0\0N\0\0\0\x0eSWARNING\0\0Z\0\0\0\x05I";

const TWICE: &[u8] =
    b"2\0\0\0\x04C\0\0\0\x0dDELETE 0\02\0\0\0\x04C\0\0\0\x0dDELETE 0\0Z\0\0\0\x05I";

const CUT: &[u8] = b"2\0\0\0\x04C\0\0\0\x0dDE";

// Messages of a login. The client's nonce is 24 times the letter H, and the password is `pencil`.
const NO_PASSWORD: &[u8] = b"E\0\0\0\x13SFATAL\0C28P01\0\0";

const OFFER: &[u8] = b"R\0\0\0*\0\0\0\x0aSCRAM-SHA-256-PLUS\0SCRAM-SHA-256\0\0";

const OTHER_OFFER: &[u8] = b"R\0\0\0\x15\0\0\0\x0aSCRAM-SHA-1\0\0";

const SCRAM_FIRST: &[u8] =
    b"R\0\0\0J\0\0\0\x0br=HHHHHHHHHHHHHHHHHHHHHHHHserver,s=MDEyMzQ1Njc4OWFiY2RlZg==,i=4096";

const SCRAM_LAST: &[u8] = b"R\0\0\06\0\0\0\x0cv=2qi6k7QgWEzy73RdXQbitKuFdZquS+A3DmsDZwNd/V8=";

const WRONG_LAST: &[u8] = b"R\0\0\06\0\0\0\x0cv=Aqi6k7QgWEzy73RdXQbitKuFdZquS+A3DmsDZwNd/V8=";

const ONE: [Change; 1] = [Change::Remove { kind: 1, key: 2 }];

fn joined(alloc: Global, pieces: &[&[u8]]) -> Result<Vec<u8>, OutOfMemory> {
    let mut input = Vec::new(alloc);
    for piece in pieces {
        input.extend_from_slice(piece)?;
    }
    Ok(input)
}

fn account(alloc: Global, password: &[u8]) -> Result<Account, OutOfMemory> {
    account_with(alloc, password, false)
}

fn account_with(alloc: Global, password: &[u8], standby: bool) -> Result<Account, OutOfMemory> {
    Ok(Account {
        user: Text::of(alloc, b"desk")?,
        database: Text::of(alloc, b"desk")?,
        password: Text::of(alloc, password)?,
        standby,
    })
}

fn keeper(
    alloc: Global,
    password: &[u8],
    pieces: &[&[u8]],
) -> Result<PgKeeper<Planned>, OutOfMemory> {
    let input = joined(alloc, pieces)?;
    let login = account(alloc, password)?;
    let dial = Planned {
        alloc,
        input,
        cut: 7,
        fail: Vec::new(alloc),
    };
    Ok(PgKeeper::new(dial, login))
}

// The number of rows that a load returns, or why it fails.
fn rows_of(alloc: Global, keeper: &mut PgKeeper<Planned>) -> Result<usize, KeepFault> {
    let rows = keeper.load(alloc)?;
    Ok(rows.len())
}

// A load fails for this cause, and counts a fault.
fn fails_for(alloc: Global, password: &[u8], pieces: &[&[u8]], cause: Cause) -> bool {
    let Ok(mut keeper) = keeper(alloc, password, pieces) else {
        return false;
    };
    rows_of(alloc, &mut keeper) == Err(KeepFault::Failed)
        && keeper.faults() == 1
        && keeper.cause() == Some(cause)
}

// The result of a commit after a load, with this answer.
fn commit_with(alloc: Global, answer: &[u8], cause: Cause, is_broken: bool) -> bool {
    let rest: &[u8] = if is_broken { b"" } else { DONE };
    let pieces = [
        LET_IN, FIT, INSPECTED, TRUE, TABLE, TRUE, PREPARED, NO_ROWS, LIMITED, answer, rest,
    ];
    let Ok(mut keeper) = keeper(alloc, b"", &pieces) else {
        return false;
    };
    let loaded = rows_of(alloc, &mut keeper);
    let first = keeper.commit(alloc, &ONE);
    let why = keeper.cause();
    let second = keeper.commit(alloc, &ONE);
    let wanted = if is_broken {
        Err(KeepFault::Failed)
    } else {
        Ok(())
    };
    loaded == Ok(0)
        && first == Err(KeepFault::Failed)
        && why == Some(cause)
        && second == wanted
        && keeper.is_broken() == is_broken
}

#[test]
fn loads_and_commits(rt: HostRuntime) -> Result<(), Fail> {
    let alloc = rt.alloc();
    let pieces = [
        LET_IN, FIT, INSPECTED, TRUE, TABLE, TRUE, PREPARED, TWO_ROWS, LIMITED, DONE, NO_ROWS,
    ];
    let Ok(mut keeper) = keeper(alloc, b"", &pieces) else {
        return Ok(());
    };
    assert!(rt; keeper.commit(alloc, &ONE) == Err(KeepFault::Failed));
    assert!(rt; keeper.cause() == Some(Cause::NotOpened));
    assert!(rt; rows_of(alloc, &mut keeper) == Ok(2));
    assert!(rt; keeper.commit(alloc, &ONE) == Ok(()));
    assert!(rt; rows_of(alloc, &mut keeper) == Ok(0));
    assert!(rt; keeper.faults() == 1 && !keeper.is_broken());
    Ok(())
}

#[test]
fn logs_in_by_password(rt: HostRuntime) -> Result<(), Fail> {
    let alloc = rt.alloc();
    let pieces = [
        OFFER,
        SCRAM_FIRST,
        SCRAM_LAST,
        LET_IN,
        FIT,
        INSPECTED,
        TRUE,
        TABLE,
        TRUE,
        PREPARED,
        NO_ROWS,
        LIMITED,
    ];
    let Ok(mut keeper) = keeper(alloc, b"pencil", &pieces) else {
        return Ok(());
    };
    assert!(rt; rows_of(alloc, &mut keeper) == Ok(0));
    let refused = Cause::Refused(*b"28P01");
    assert!(rt; fails_for(alloc, b"pen", &[OFFER, SCRAM_FIRST, NO_PASSWORD], refused));
    assert!(rt;
        fails_for(
            alloc,
            b"pencil",
            &[OFFER, SCRAM_FIRST, WRONG_LAST, LET_IN, FIT],
            Cause::Unproved
        )
    );
    assert!(rt;
        fails_for(
            alloc,
            b"pencil",
            &[OFFER, SCRAM_FIRST, LET_IN, FIT],
            Cause::Unproved
        )
    );
    assert!(rt; fails_for(alloc, b"pencil", &[LET_IN, FIT], Cause::Unproved));
    let other = Cause::Refused(*b"28000");
    assert!(rt; fails_for(alloc, b"pencil", &[OTHER_OFFER], other));
    Ok(())
}

#[test]
fn refuses_other_servers(rt: HostRuntime) -> Result<(), Fail> {
    let alloc = rt.alloc();
    assert!(rt; fails_for(alloc, b"", &[LET_IN, OLD_SERVER], Cause::Version));
    assert!(rt; fails_for(alloc, b"", &[LET_IN, OTHER_ENCODING], Cause::Encoding));
    assert!(rt; fails_for(alloc, b"", &[LET_IN, FIT, FALSE], Cause::Standby));
    assert!(rt; fails_for(alloc, b"", &[LET_IN, FIT, TRUE, FALSE], Cause::Isolation));
    assert!(rt;
        fails_for(
            alloc,
            b"",
            &[LET_IN, FIT, TRUE, TRUE, FALSE],
            Cause::Unflushed
        )
    );
    let lock = [LET_IN, FIT, INSPECTED, FALSE];
    assert!(rt; fails_for(alloc, b"", &lock, Cause::Locked));
    let other = [LET_IN, FIT, INSPECTED, TRUE, TABLE, FALSE];
    assert!(rt; fails_for(alloc, b"", &other, Cause::ForeignTable));
    let cut = [LET_IN, FIT, INSPECTED, TRUE, TABLE];
    assert!(rt; fails_for(alloc, b"", &cut, Cause::Lost));
    let opened = [LET_IN, FIT, INSPECTED, TRUE, TABLE, TRUE, PREPARED, FALLING];
    assert!(rt; fails_for(alloc, b"", &opened, Cause::Lost));
    let opened = [
        LET_IN,
        FIT,
        INSPECTED,
        TRUE,
        TABLE,
        TRUE,
        PREPARED,
        TWO_COLUMNS,
    ];
    assert!(rt; fails_for(alloc, b"", &opened, Cause::Lost));
    Ok(())
}

// Whether a load over this input fails for the cause, with a standby required, and who it says holds the lock.
fn is_refused(
    alloc: Global,
    pieces: &[&[u8]],
    cause: Cause,
    holder: &[u8],
) -> Result<bool, OutOfMemory> {
    let dial = Planned {
        alloc,
        input: joined(alloc, pieces)?,
        cut: 7,
        fail: Vec::new(alloc),
    };
    let mut keeper = PgKeeper::new(dial, account_with(alloc, b"", true)?);
    let loaded = rows_of(alloc, &mut keeper);
    let told = match keeper.holder() {
        Some(text) => text.bytes() == holder,
        None => holder.is_empty(),
    };
    Ok(loaded == Err(KeepFault::Failed) && keeper.cause() == Some(cause) && told)
}

#[test]
fn wants_a_standby_and_the_lock(rt: HostRuntime) -> Result<(), Fail> {
    let alloc = rt.alloc();
    let alone = [LET_IN, FIT, INSPECTED, FALSE];
    assert!(rt; is_refused(alloc, &alone, Cause::NoStandby, b"") == Ok(true));
    let taken = [LET_IN, FIT, INSPECTED, TRUE, TAKEN, HELD];
    assert!(rt; is_refused(alloc, &taken, Cause::Locked, b"process 7") == Ok(true));
    Ok(())
}

#[test]
fn refuses_and_breaks(rt: HostRuntime) -> Result<(), Fail> {
    let alloc = rt.alloc();
    assert!(rt; commit_with(alloc, REFUSED, Cause::Refused(*b"22021"), false));
    assert!(rt; commit_with(alloc, UNREADY, Cause::Lost, true));
    assert!(rt; commit_with(alloc, IN_TRANSACTION, Cause::Lost, true));
    assert!(rt; commit_with(alloc, WARNED, Cause::Lost, true));
    assert!(rt; commit_with(alloc, TWICE, Cause::Lost, true));
    assert!(rt; commit_with(alloc, CUT, Cause::Lost, true));
    Ok(())
}

// The number of calls of a link, in an opening that ends with `NO_ROWS`, if each read returns all that is asked.
const OPENING_CALLS: u64 = 120;

// A commit fails if the call of this number after the opening fails. The keeper is broken then.
fn is_lost_at(alloc: Global, call: u64) -> Result<bool, OutOfMemory> {
    let pieces = [
        LET_IN, FIT, INSPECTED, TRUE, TABLE, TRUE, PREPARED, NO_ROWS, LIMITED, DONE, DONE,
    ];
    let input = joined(alloc, &pieces)?;
    let login = account(alloc, b"")?;
    let mut fail = Vec::new(alloc);
    fail.push(OPENING_CALLS.saturating_add(call))?;
    let dial = Planned {
        alloc,
        input,
        cut: 4_096,
        fail,
    };
    let mut keeper = PgKeeper::new(dial, login);
    let loaded = rows_of(alloc, &mut keeper);
    let first = keeper.commit(alloc, &ONE);
    let why = keeper.cause();
    let second = keeper.commit(alloc, &ONE);
    let failed = Err(KeepFault::Failed);
    let is_lost = why == Some(Cause::Lost) && keeper.cause() == Some(Cause::Broken);
    Ok(loaded == Ok(0) && first == failed && second == failed && is_lost && keeper.faults() == 2)
}

#[test]
fn breaks_amid_an_answer(rt: HostRuntime) -> Result<(), Fail> {
    let alloc = rt.alloc();
    // the write fails, the first read, and one amid the answer
    assert!(rt; is_lost_at(alloc, 0) == Ok(true));
    assert!(rt; is_lost_at(alloc, 1) == Ok(true));
    assert!(rt; is_lost_at(alloc, 4) == Ok(true));
    // no call of this number is made for the first commit
    assert!(rt; is_lost_at(alloc, 9) == Ok(false));
    Ok(())
}

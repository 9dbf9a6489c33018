use crate::choice::{ChoiceFault, Reason};
use chosen_keeper::{ConfFault, EitherKeeper, ServerKeeper};
use desk_io::{Blanks, runs_between};
use pg_keeper::Cause;
use std::alloc::Global;
use std::{io, str};

// The text for printing, or `?` if it isn't UTF-8.
fn printed(text: &[u8]) -> &str {
    match str::from_utf8(text) {
        Ok(text) => text,
        Err(_) => "?",
    }
}

// Prints why the text names no server.
fn tell_conf(rt: &HostRuntime, fault: ConfFault) -> io::Result<()> {
    match fault {
        ConfFault::NotPostgresql => {
            eprintln!(rt; "release_desk: rows.conf: the first word must be postgresql")
        }
        ConfFault::Unknown(_) => eprintln!(rt; "release_desk: rows.conf: unknown key"),
        ConfFault::Twice(_) => eprintln!(rt; "release_desk: rows.conf: a key is there twice"),
        ConfFault::Missing(key) => {
            let name = key.name();
            eprintln!(rt; "release_desk: rows.conf: {name}= is missing")
        }
        ConfFault::BadValue(key) => {
            let name = key.name();
            eprintln!(rt; "release_desk: rows.conf: the value of {name}= is malformed")
        }
        ConfFault::Remote => eprintln!(rt;
            "release_desk: rows.conf: host= isn't this machine, and the connection isn't encrypted: add insecure=yes \
             to accept that"
        ),
    }
}

// Prints a key that is unknown, or that is there twice, if memory allows.
fn tell_word(rt: &HostRuntime, text: &[u8], from_end: u64) -> io::Result<()> {
    let alloc: Global = rt.alloc();
    let Ok(words) = runs_between::<Blanks>(alloc, text) else {
        return Ok(());
    };
    let after = (from_end as usize).saturating_add(1);
    match words.get(words.len().saturating_sub(after)) {
        Some(word) => {
            let word = printed(word.bytes());
            eprintln!(rt; "release_desk: rows.conf: the word at fault is {word}")
        }
        None => Ok(()),
    }
}

fn tell_choice(rt: &HostRuntime, text: &[u8], fault: ChoiceFault) -> io::Result<()> {
    match fault {
        ChoiceFault::Unreadable => eprintln!(rt; "release_desk: rows.conf can't be read"),
        ChoiceFault::Passfile => {
            eprintln!(rt; "release_desk: rows.conf: the file that passfile= names can't be read")
        }
        ChoiceFault::Conf(fault) => {
            tell_conf(rt, fault)?;
            match fault {
                ConfFault::Unknown(place) | ConfFault::Twice(place) => tell_word(rt, text, place),
                _ => Ok(()),
            }
        }
    }
}

// What a cause means.
fn told(cause: Cause) -> &'static str {
    match cause {
        Cause::NotReached => "the server couldn't be reached",
        Cause::NotOpened => "the rows weren't loaded",
        Cause::Locked => "another desk has the database",
        Cause::Unproved => "the server didn't prove that it knows the password",
        Cause::Version => "the server is older than PostgreSQL 13",
        Cause::Encoding => "the database isn't encoded in UTF8",
        Cause::Strings => "standard_conforming_strings is off",
        Cause::Standby => "the server is a standby, which takes no changes",
        Cause::Isolation => {
            "transactions aren't read committed, or take no changes (a pooler in between?)"
        }
        Cause::Unflushed => "the server doesn't flush each commit to the disk: fsync is off",
        Cause::NoStandby => {
            "commits don't wait for a standby: set synchronous_standby_names, or standby=none in rows.conf"
        }
        Cause::ForeignTable => "the table kept isn't a desk's",
        Cause::Refused(_) => "the server refused",
        Cause::Lost => "the connection failed, or the server didn't answer in time",
        Cause::Broken => "an earlier call lost the connection: start the desk anew",
        Cause::TooLong => "the changes are too long for a request",
    }
}

fn tell_cause(rt: &HostRuntime, cause: Cause) -> io::Result<()> {
    let what = told(cause);
    match cause {
        Cause::Refused(state) => {
            let state = printed(&state);
            eprintln!(rt; "release_desk: PostgreSQL: {what}, SQLSTATE {state}")
        }
        _ => eprintln!(rt; "release_desk: PostgreSQL: {what}"),
    }
}

fn tell_holder(rt: &HostRuntime, keeper: &ServerKeeper) -> io::Result<()> {
    match (keeper.cause(), keeper.holder()) {
        (Some(Cause::Locked), Some(holder)) => {
            let holder = printed(holder.bytes());
            eprintln!(rt; "release_desk: PostgreSQL: its session is {holder}")
        }
        _ => Ok(()),
    }
}

fn tell_server(rt: &HostRuntime, keeper: &ServerKeeper) -> io::Result<()> {
    match keeper.cause() {
        Some(cause) => tell_cause(rt, cause)?,
        None => {}
    }
    tell_holder(rt, keeper)
}

/// Prints to standard error why rows couldn't be opened at a server. Of a file it prints nothing.
pub(crate) fn tell_why(rt: &HostRuntime, reason: &Reason, keeper: &EitherKeeper) -> io::Result<()> {
    match (reason.fault, keeper) {
        (Some(fault), _) => tell_choice(rt, reason.text.bytes(), fault),
        (None, EitherKeeper::Server(keeper)) => tell_server(rt, keeper),
        (None, EitherKeeper::File(_)) => Ok(()),
    }
}

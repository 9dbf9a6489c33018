//! The program of the dispatch release desk.
#![tactic(auto)]

mod busy_gate;
mod choice;
mod name;
mod reasons;
mod shipped;
mod stderr_bell;
mod stderr_progress;

use crate::busy_gate::BusyGate;
use crate::choice::{Choice, chosen, leave};
use crate::name::{name_of, shown};
use crate::reasons::tell_why;
use crate::shipped::{DeskBell, run_shipped};
use crate::stderr_bell::StderrBell;
use crate::stderr_progress::StderrProgress;
use commands::{Ending, WORKERS};
use desk_io::{FileShelf, OutOfMemory, StdoutSink, Text};
use desk_net::{SystemClock, TcpDoor};
use std::alloc::AllocError;
use std::env;
use std::io::{ErrorKind, IsTerminal};
use std::process::ExitCode;
use timeouts::{Taken, TimedNet};

// The arguments after the program's name. If one of them isn't text, the result is empty, and forms no command.
fn words_of(rt: &HostRuntime) -> Result<Vec<String>, AllocError> {
    let mut words = Vec::new(rt.alloc());
    match env::args(rt) {
        Ok(arguments) => {
            for word in arguments.skip(1) {
                words.push(word)?;
            }
            Ok(words)
        }
        Err(error) if error.kind() == ErrorKind::OutOfMemory => Err(AllocError),
        Err(_) => Ok(words),
    }
}

// The status of a keeper that failed.
const KEEPER_FAULT: u8 = 5;

// The only bell, which prints the notices for all dispatchers to standard error.
fn bells_of(rt: HostRuntime) -> Result<Vec<DeskBell>, OutOfMemory> {
    let all = Text::of(rt.alloc(), b"*".as_slice())?;
    let mut bells = Vec::new(rt.alloc());
    bells.push(StderrBell::new(all, rt, rt))?;
    Ok(bells)
}

// Whether the arguments are those of `stay`, whose connections have timeouts of their own.
fn is_staying(words: &[String]) -> bool {
    match words {
        [name, ..] => name.as_str() == "stay",
        [] => false,
    }
}

fn main(rt: HostRuntime) -> ExitCode {
    let (Ok(words), Ok(choice), Ok(bells)) = (words_of(&rt), chosen(rt), bells_of(rt)) else {
        return ExitCode::from(8);
    };
    let Choice { keeper, reason } = choice;
    let mut shelf = FileShelf::new(rt);
    let mut out = StdoutSink::new(rt);
    let clock = SystemClock::new(rt);
    let stays = is_staying(&words);
    let taken = Taken::new(WORKERS as u64);
    let door = TcpDoor::new(TimedNet::new(rt, &taken, !stays));
    let progress = StderrProgress::new(rt.stderr().is_terminal() && !stays, rt);
    let name = name_of(&rt);
    let gate = BusyGate::new(&taken, progress, shown(name.as_str()));
    let Ending { status, keeper, .. } = run_shipped(
        &rt,
        rt.alloc(),
        &words,
        &mut shelf,
        &mut out,
        clock,
        keeper,
        door,
        &gate,
        bells,
    );
    if status == KEEPER_FAULT {
        let _ = tell_why(&rt, &reason, &keeper);
    }
    leave(keeper);
    ExitCode::from(status)
}

//! Compares calls of the libraries with the results that files of cases expect.
//!
//! The arguments name the files, which have one JSON object per line. An object has the arguments of a call and its
//! expected result, and its keys determine the call. The tables of the small airline are in the working directory.
//! The program prints a line for each case that differs, and then a line with the counts.
//!
//! The exit status is 0 if no case differs, and 1 if one does. It is 3 if a file can't be read or memory ran out, and
//! 8 if the arguments didn't fit into memory.
#![tactic(auto)]

mod advice;
mod fields;
mod operations;
mod reports;
mod sheets;
mod tables;
mod written;

use crate::fields::{data_of, has_key};
use crate::tables::{Files, small_files};
use desk_io::{FileShelf, LineFeeds, OutOfMemory, WholeFault, read_whole, runs_between};
use serde_json::Value;
use std::alloc::Global;
use std::env;
use std::process::ExitCode;

// Whether the call of a case returns the expected result.
fn passes(alloc: Global, case: &Value, small: &Files) -> Result<bool, OutOfMemory> {
    if has_key(case, "text_hex") {
        reports::reads(alloc, case)
    } else if has_key(case, "worst") {
        reports::controls(alloc, case)
    } else if has_key(case, "data_hex") {
        tables::faults(alloc, case, small)
    } else if has_key(case, "advice") {
        advice::advises(alloc, case, small)
    } else if has_key(case, "sheet") {
        sheets::writes(alloc, case, small)
    } else if has_key(case, "tables") {
        operations::minima(alloc, case, small)
    } else if has_key(case, "raised") {
        operations::raises(alloc, case)
    } else if has_key(case, "basis") {
        operations::fuel(alloc, case)
    } else {
        reports::resolves(alloc, case)
    }
}

fn line_passes(alloc: Global, line: &[u8], small: &Files) -> Result<bool, OutOfMemory> {
    match data_of(alloc, line)? {
        Some(case) => passes(alloc, &case, small),
        None => Ok(false),
    }
}

// The places, from 0, of the cases of a file that differ, and how many cases there are.
fn differing(
    alloc: Global,
    text: &[u8],
    small: &Files,
) -> Result<(Vec<usize>, usize), OutOfMemory> {
    let mut differing = Vec::new(alloc);
    let lines = runs_between::<LineFeeds>(alloc, text)?;
    for (i, line) in lines.iter().enumerate() {
        if !line_passes(alloc, line.bytes(), small)? {
            differing.push(i)?;
        }
    }
    Ok((differing, lines.len()))
}

// The arguments after the program's name.
fn words_of(rt: &HostRuntime) -> Result<Vec<String>, OutOfMemory> {
    let mut words = Vec::new(rt.alloc());
    let Ok(arguments) = env::args(rt) else {
        return Ok(words);
    };
    for word in arguments.skip(1) {
        words.push(word)?;
    }
    Ok(words)
}

// Compares the cases of a file, and prints which differ. Returns how many there are, and how many differ.
fn compare(rt: &HostRuntime, name: &str, small: &Files) -> Result<(usize, usize), WholeFault> {
    let text = read_whole(rt.alloc(), &mut FileShelf::new(*rt), name)?;
    let (differing, count) = differing(rt.alloc(), text.bytes(), small)?;
    for i in &differing {
        let number = i.saturating_add(1);
        if println!(rt; "{name}: case {number} differs").is_err() {
            return Err(WholeFault::ReadFault);
        }
    }
    Ok((count, differing.len()))
}

// Compares the cases of each file. Returns how many passed, and how many failed.
fn compare_all(rt: &HostRuntime, names: &[String]) -> Result<(usize, usize), WholeFault> {
    if names.is_empty() {
        return Ok((0, 0));
    }
    let small = small_files(rt.alloc(), &mut FileShelf::new(*rt))?;
    let mut passed: usize = 0;
    let mut failed: usize = 0;
    for name in names {
        let (count, differing) = compare(rt, name, &small)?;
        passed = passed.saturating_add(count.saturating_sub(differing));
        failed = failed.saturating_add(differing);
    }
    Ok((passed, failed))
}

fn main(rt: HostRuntime) -> ExitCode {
    let Ok(names) = words_of(&rt) else {
        return ExitCode::from(8);
    };
    match compare_all(&rt, &names) {
        Ok((passed, failed)) => {
            let shown = println!(rt; "calls: {passed} passed, {failed} failed");
            ExitCode::from(u8::from(failed > 0 || shown.is_err()))
        }
        Err(_) => {
            let _ = println!(rt; "calls: a file can't be read");
            ExitCode::from(3)
        }
    }
}

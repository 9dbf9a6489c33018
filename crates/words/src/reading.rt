ghost use Rattle.std.specs.Prelude.{◌≡◌, false, true, drop, map, string_bytes, IfOk, IfErr, IfSome};
ghost use Rattle.std.specs.List.{list_all};
ghost use Rattle.std.specs.Option.{option_map};
ghost use Rattle.clap.specs.Words.{app_of, kind_of, subcommand_rows_of};
ghost use Rattle.clap.specs.declared.builder.command.Command.TheViews.{out-Command};
ghost use Rattle.words.specs.Names as names;
ghost use Rattle.words.specs.Words as spec;
ghost use Rattle.words.specs.Words.{command_of, IsWithin};

use crate::Task;
use crate::asked::{asked_of, command_named};
use crate::task::{COMMANDS, Form, Name};
use clap::error::ErrorKind;
use clap::{Arg, ArgMatches, Command, Error};
use desk_io::OutOfMemory;
use std::alloc::{AllocError, Global};

fn is_word(word: &str) -> bool
    ensures { result ≡ spec.is_word word.now }
{
    match word.as_bytes() {
        [] => false,
        [first, ..] => *first != b'-',
    }
}

fn are_words(words: &[String]) -> bool
    ensures { result ≡ list_all spec.is_word (map string_bytes words.now) }
{
    for word in words {
        if !is_word(word.as_str()) {
            return false;
        }
    }
    true
}

// Whether the first argument is the name of a command, and no other is empty or begins with a dash.
fn are_named(words: &[String]) -> bool
    ensures { result ≡ spec.are_named (map string_bytes words.now) }
{
    match words {
        [] => false,
        [name, rest @ ..] => command_named(name.as_str()).is_some() && are_words(rest),
    }
}

// The command of this name, with any arguments.
fn leaf<'a>(alloc: Global, name: &'a str) -> Result<Command<'a>, AllocError>
    ensures app { IfOk result (λ c. app_of c ≡ names.leaf name.entry.now) }
    ensures local { IfOk result (λ c. (out-Command c).has_globals ≡ false) }
{
    Command::new(alloc, name).arg(Arg::new(alloc, "words").num_args(..))
}

// Adds a command.
fn with_name<'a>(alloc: Global, desk: Command<'a>, name: &'a str) -> Result<Command<'a>, AllocError>
    ensures { IfOk result (λ c. app_of c ≡ names.with_name name.entry.now (app_of desk.entry)) }
{
    desk.subcommand(leaf(alloc, name)?)
}

// Adds commands.
fn with_commands<'a>(
    alloc: Global,
    desk: Command<'a>,
    commands: &[Name],
) -> Result<Command<'a>, AllocError>
    ensures { IfOk result (λ c. app_of c ≡ names.with_commands commands.now (app_of desk.entry)) }
{
    let mut desk = desk;
    for command in commands {
        desk = with_name(alloc, desk, command.row().name)?;
    }
    Ok(desk)
}

// The top level, with the options for help and version turned off.
fn top<'a>(alloc: Global) -> Command<'a>
    ensures { app_of result ≡ names.top }
{
    Command::new(alloc, "desk")
        .no_binary_name(true)
        .disable_help_flag(true)
        .disable_help_subcommand(true)
        .disable_version_flag(true)
        .subcommand_required(true)
}

// All commands.
fn desk<'a>(alloc: Global) -> Result<Command<'a>, AllocError>
    ensures { IfOk result (λ c. app_of c ≡ names.desk_app) }
{
    with_commands(alloc, top(alloc), &COMMANDS)
}

// Reads a name and the arguments after it. Fails only if memory runs out.
fn read<'a>(alloc: Global, words: &'a [String]) -> Result<ArgMatches<'a>, Error>
    requires { spec.are_named (map string_bytes words.now) ≡ true }
    ensures asked { IfOk result (λ m. names.asked_in (subcommand_rows_of m) ≡ spec.asked_in (map string_bytes words.now)) }
    ensures fails { IfErr result (λ e. kind_of e ≡ ErrorKind.OutOfMemory) }
{
    // clap counts the values in a `usize`.
    prove!(words.len() <= usize::MAX);
    desk(alloc)?.try_get_matches_from(words)
}

// The task of the name that clap found, with the arguments after it.
fn asked_by(matches: &ArgMatches<'_>) -> Option<(Task, Form)>
    ensures value { result ≡ names.asked_in (subcommand_rows_of matches.now) }
    ensures within { IfSome result (λ asked. IsWithin asked.0) }
{
    let (name, found) = matches.subcommand()?;
    match found.get_strs("words") {
        Some(rest) => asked_of(name, rest),
        None => asked_of(name, &[]),
    }
}

// The task in the arguments, if they form a command, and the form of those after the name.
fn asked_in(alloc: Global, words: &[String]) -> Result<Option<(Task, Form)>, OutOfMemory>
    ensures value { IfOk result (λ asked. asked ≡ spec.asked_in (map string_bytes words.now)) }
    ensures within { IfOk result (λ asked. IfSome asked (λ asked. IsWithin asked.0)) }
{
    if !are_named(words) {
        return Ok(None);
    }
    match read(alloc, words) {
        Ok(matches) => Ok(asked_by(&matches)),
        // Memory ran out.
        Err(_) => Err(OutOfMemory),
    }
}

// The arguments after the first.
fn rest_of(words: &[String]) -> &[String]
    ensures { map string_bytes result.now ≡ drop 1 (map string_bytes words.now) }
{
    match words {
        [] => words,
        [_, rest @ ..] => rest,
    }
}

// The names of the sources that a command of this form reads.
fn names_of(form: Form, words: &[String]) -> &[String]
    ensures { map string_bytes result.now ≡ spec.names_of form (drop 1 (map string_bytes words.now)) }
{
    match form {
        Form::Names(_) => rest_of(words),
        Form::Number(_) | Form::Numbers(_, _) => &[],
    }
}

/// The command in the arguments: its task, and the names of the sources that it reads.
pub fn command(alloc: Global, words: &[String]) -> Result<Option<(Task, &[String])>, OutOfMemory>
    ensures value { IfOk result (λ c. option_map (λ c. (c.0, map string_bytes c.1.now)) c
        ≡ command_of (map string_bytes words.now)) }
    // At most 20,000 flights are made.
    ensures within { IfOk result (λ c. IfSome c (λ c. IsWithin c.0)) }
{
    match asked_in(alloc, words)? {
        Some((task, form)) => Ok(Some((task, names_of(form, words)))),
        None => Ok(None),
    }
}

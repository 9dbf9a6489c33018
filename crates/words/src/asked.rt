ghost use Rattle.std.specs.Prelude.{◌≡◌, ◌≤◌, map, IfSome};
ghost use Rattle.words.specs.Words as spec;
ghost use Rattle.words.specs.Words.{Fits, IsWithin};

use crate::Task;
use crate::task::{COMMANDS, Form, Limits, Name};
use desk_time::read_number;

fn command_among(commands: &[Name], name: &str) -> Option<Name>
    ensures { result ≡ spec.command_among commands.now name.now }
{
    for command in commands {
        if command.row().name == name {
            return Some(*command);
        }
    }
    None
}

/// The command of this name.
pub(crate) fn command_named(name: &str) -> Option<Name>
    ensures { result ≡ spec.command_named name.now }
{
    command_among(&COMMANDS, name)
}

// A decimal number within the limits.
fn number_within(limits: Limits, word: &str) -> Option<u32>
    ensures value { result ≡ spec.number_within limits word.now }
    ensures bound { IfSome result (λ n. n ≤ limits.most) }
{
    match read_number(limits.most as u64, word.as_bytes()) {
        Some(number) if number >= limits.least as u64 => Some(number as u32),
        _ => None,
    }
}

// A number within the limits, and zero in place of a second.
fn one_number(limits: Limits, rest: &[&str]) -> Option<(u32, u32)>
    ensures value { result ≡ spec.one_number limits (map (λ w. w.now) rest.entry.now) }
    ensures bound { IfSome result (λ n. n.0 ≤ limits.most) }
{
    match rest {
        [word] => {
            let number = number_within(limits, word)?;
            Some((number, 0))
        }
        _ => None,
    }
}

fn both_within(one: Limits, two: Limits, first: &str, second: &str) -> Option<(u32, u32)>
    ensures value { result ≡ spec.both_within one two first.now second.now }
    ensures bound { IfSome result (λ n. (n.0 ≤ one.most) × (n.1 ≤ two.most)) }
{
    let first = number_within(one, first)?;
    let second = number_within(two, second)?;
    Some((first, second))
}

fn two_numbers(one: Limits, two: Limits, rest: &[&str]) -> Option<(u32, u32)>
    ensures value { result ≡ spec.two_numbers one two (map (λ w. w.now) rest.entry.now) }
    ensures bound { IfSome result (λ n. (n.0 ≤ one.most) × (n.1 ≤ two.most)) }
{
    match rest {
        [first, second] => both_within(one, two, first, second),
        _ => None,
    }
}

// Zeros in place of numbers, if there are as many names as the limits allow.
fn no_numbers(limits: Limits, names: usize) -> Option<(u32, u32)>
    ensures { result ≡ spec.no_numbers limits names }
{
    let names = names as u64;
    if limits.least as u64 <= names && names <= limits.most as u64 {
        Some((0, 0))
    } else {
        None
    }
}

// The numbers in the arguments, if they have this form.
#[tactic(auto, using(crate::proofs::Found::no_numbers_of_words))]
fn numbers_of(form: Form, rest: &[&str]) -> Option<(u32, u32)>
    ensures value { result ≡ spec.numbers_of form (map (λ w. w.now) rest.entry.now) }
    ensures within { IfSome result (Fits form) }
{
    match form {
        Form::Names(limits) => no_numbers(limits, rest.len()),
        Form::Number(limits) => one_number(limits, rest),
        Form::Numbers(one, two) => two_numbers(one, two, rest),
    }
}

/// The task of a name with the arguments after it, and the form of these.
pub(crate) fn asked_of(name: &str, rest: &[&str]) -> Option<(Task, Form)>
    ensures value { result ≡ spec.asked_of name.now (map (λ w. w.now) rest.entry.now) }
    ensures within { IfSome result (λ asked. IsWithin asked.0) }
{
    let command = command_named(name)?;
    let form = command.row().form;
    let numbers = numbers_of(form, rest)?;
    Some((command.task(numbers), form))
}

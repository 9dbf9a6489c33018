ghost use Rattle.std.specs.Prelude.{◌≡◌, ◌≤◌, length, IfOk, IfSome};
ghost use Rattle.std.specs.List.{AllByRecursion, list_all};
ghost use Rattle.std.specs.Option.{option_map};
ghost use Rattle.plan.specs.Check.{HasMoments, IsPlan};
ghost use Rattle.asks.specs.Plans as spec;
ghost use Rattle.desk_io.specs.Station.{is_capital_or_digit};
ghost use Rattle.asks.specs.Plans.{plan_of};

use crate::fields::{has_members, text_at};
use crate::legs::legs_at;
use compact_json::Json;
use desk_io::{OutOfMemory, Text};
use plan::{Kind, Legs, Plan};
use std::alloc::Global;

// What a name in a plan names.
#[derive(Clone, Copy)]
enum Form {
    Flight,
    Tail,
    Captain,
}

fn is_capital_or_digit(b: u8) -> bool
    ensures { result ≡ is_capital_or_digit b }
{
    b'A' <= b && b <= b'Z' || b'0' <= b && b <= b'9'
}

fn is_of_form(form: Form, b: u8) -> bool
    ensures { result ≡ spec.is_of_form form b }
{
    match form {
        Form::Flight => is_capital_or_digit(b),
        Form::Tail => is_capital_or_digit(b) || b == b'-',
        Form::Captain => is_capital_or_digit(b) || b'a' <= b && b <= b'z',
    }
}

fn longest(form: Form) -> usize
    ensures { result ≡ spec.longest form }
{
    match form {
        Form::Flight => 8,
        Form::Tail => 8,
        Form::Captain => 16,
    }
}

fn all_of_form(form: Form, text: &[u8]) -> bool
    ensures { result ≡ list_all (spec.is_of_form form) text.now }
{
    text.iter().all(|b| is_of_form(form, *b))
}

fn has_form(form: Form, text: &[u8]) -> bool
    ensures { result ≡ spec.has_form form text.now }
{
    1 <= text.len() && text.len() <= longest(form) && all_of_form(form, text)
}

fn name_at<'a, V: Json<'a>>(key: &str, form: Form, value: V) -> Option<&'a str>
    ensures { option_map (λ t. t.now) result ≡ spec.name_at key.now form (V.told value) }
{
    match text_at(key, value) {
        Some(text) if has_form(form, text.as_bytes()) => Some(text),
        _ => None,
    }
}

fn kind_of(name: &str) -> Option<Kind>
    ensures { result ≡ spec.kind_of name.now }
{
    if name == "domestic" {
        Some(Kind::Domestic)
    } else if name == "flag" {
        Some(Kind::Flag)
    } else {
        None
    }
}

fn kind_at<'a, V: Json<'a>>(value: V) -> Option<Kind>
    ensures { result ≡ spec.kind_at (V.told value) }
{
    kind_of(text_at("kind", value)?)
}

fn named_plan<'a, V: Json<'a>>(
    alloc: Global,
    value: V,
    kind: Kind,
    legs: Legs,
) -> Result<Option<Plan>, OutOfMemory>
    requires few { length legs ≤ 1000 }
    requires moments { AllByRecursion HasMoments legs }
    ensures value { IfOk result (λ p. p ≡ spec.named_plan (V.told value) kind legs) }
    ensures form { IfOk result (λ p. IfSome p IsPlan) }
{
    let Some(flight) = name_at("flight", Form::Flight, value) else {
        return Ok(None);
    };
    let Some(tail) = name_at("tail", Form::Tail, value) else {
        return Ok(None);
    };
    let Some(captain) = name_at("captain", Form::Captain, value) else {
        return Ok(None);
    };
    if !has_members(5, value) {
        return Ok(None);
    }
    Ok(Some(Plan {
        flight: Text::of(alloc, flight.as_bytes())?,
        tail: Text::of(alloc, tail.as_bytes())?,
        kind,
        captain: Text::of(alloc, captain.as_bytes())?,
        legs,
    }))
}

/// Reads a plan. The object must have exactly the keys of a plan, with well-formed values.
#[tactic(auto, unfolding(crate::specs::Plans::plan_of))]
pub fn read_plan<'a, V: Json<'a>>(alloc: Global, value: V) -> Result<Option<Plan>, OutOfMemory>
    ensures value { IfOk result (λ p. p ≡ plan_of (V.told value)) }
    ensures form { IfOk result (λ p. IfSome p IsPlan) }
{
    let Some(kind) = kind_at(value) else {
        return Ok(None);
    };
    match legs_at(alloc, value)? {
        Some(legs) => named_plan(alloc, value, kind, legs),
        None => Ok(None),
    }
}

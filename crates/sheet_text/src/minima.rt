ghost use Rattle.std.specs.Prelude.{◌≡◌, ◌++◌, IfOk};
ghost use Rattle.sheet.specs.declared.lines.AlternateOrigin.TheVariants as alternate;
ghost use Rattle.sheet.specs.declared.lines.Origin.TheVariants as origin;
ghost use Rattle.sheet_text.specs.Text as spec;

use crate::text::{joined, number, pair_text};
use desk_io::{OutOfMemory, Pair, Text, push_all};
use sheet::{AlternateOrigin, Origin};
use std::alloc::Global;

// Writes the number of an approach's row in `approaches.csv` among those of the airport.
fn approach_text(alloc: Global, row: usize) -> Result<Text, OutOfMemory>
    ensures { IfOk result (λ t. t ≡ spec.approach_text row) }
{
    let row = number(alloc, row as u64)?;
    joined(alloc, &[b"approach ", row.bytes()])
}

fn row_text(alloc: Global, row: usize) -> Result<Text, OutOfMemory>
    ensures { IfOk result (λ t. t ≡ spec.alternate_text (alternate.Row row)) }
{
    let row = number(alloc, row as u64)?;
    joined(alloc, &[b"row ", row.bytes(), b" of alternates.csv"])
}

fn one_text(alloc: Global, row: usize) -> Result<Text, OutOfMemory>
    ensures { IfOk result (λ t. t ≡ spec.alternate_text (alternate.One row)) }
{
    let approach = approach_text(alloc, row)?;
    joined(alloc, &[approach.bytes(), b" + single addend"])
}

fn two_text(alloc: Global, first: usize, second: usize) -> Result<Text, OutOfMemory>
    ensures { IfOk result (λ t. t ≡ spec.alternate_text (alternate.Two first second)) }
{
    let first = number(alloc, first as u64)?;
    let second = number(alloc, second as u64)?;
    joined(
        alloc,
        &[
            b"approaches ",
            first.bytes(),
            b" and ",
            second.bytes(),
            b" + double addend",
        ],
    )
}

// Writes what alternate minima stand for.
fn alternate_text(alloc: Global, origin: AlternateOrigin) -> Result<Text, OutOfMemory>
    ensures { IfOk result (λ t. t ≡ spec.alternate_text origin) }
{
    match origin {
        AlternateOrigin::Row(row) => row_text(alloc, row),
        AlternateOrigin::One(row) => one_text(alloc, row),
        AlternateOrigin::Two { first, second } => two_text(alloc, first, second),
    }
}

fn raised_freely(alloc: Global, row: usize) -> Result<Text, OutOfMemory>
    ensures { IfOk result (λ t. t ≡ spec.origin_text (origin.RaisedFreely row)) }
{
    let approach = approach_text(alloc, row)?;
    joined(alloc, &[approach.bytes(), b" raised"])
}

fn raised_to(alloc: Global, row: usize, limit: AlternateOrigin) -> Result<Text, OutOfMemory>
    ensures { IfOk result (λ t. t ≡ spec.origin_text (origin.RaisedTo row limit)) }
{
    let approach = approach_text(alloc, row)?;
    let limit = alternate_text(alloc, limit)?;
    joined(
        alloc,
        &[approach.bytes(), b" raised, limit ", limit.bytes()],
    )
}

// Writes what minima stand for.
fn origin_text(alloc: Global, origin: Origin) -> Result<Text, OutOfMemory>
    ensures { IfOk result (λ t. t ≡ spec.origin_text origin) }
{
    match origin {
        Origin::Approach(row) => approach_text(alloc, row),
        Origin::Alternate(from) => alternate_text(alloc, from),
        Origin::RaisedFreely(row) => raised_freely(alloc, row),
        Origin::RaisedTo { approach, limit } => raised_to(alloc, approach, limit),
    }
}

fn from_text(alloc: Global, origin: Option<Origin>) -> Result<Text, OutOfMemory>
    ensures { IfOk result (λ t. t ≡ spec.from_text origin) }
{
    match origin {
        None => Text::of(alloc, b""),
        Some(origin) => {
            let text = origin_text(alloc, origin)?;
            joined(alloc, &[b" (", text.bytes(), b")"])
        }
    }
}

// Writes minima, and what they stand for.
fn minimum_text(alloc: Global, pair: Pair, origin: Option<Origin>) -> Result<Text, OutOfMemory>
    ensures { IfOk result (λ t. t ≡ spec.minimum_text pair origin) }
{
    let pair = pair_text(alloc, pair)?;
    let from = from_text(alloc, origin)?;
    joined(alloc, &[pair.bytes(), from.bytes()])
}

fn next_minimum(alloc: Global, pair: Pair, origin: Option<Origin>) -> Result<Text, OutOfMemory>
    ensures { IfOk result (λ t. t ≡ spec.next_minimum pair origin) }
{
    let text = minimum_text(alloc, pair, origin)?;
    joined(alloc, &[b",", text.bytes()])
}

fn first_origin(origins: &[Origin]) -> Option<Origin>
    ensures { result ≡ spec.first_origin origins.now }
{
    match origins {
        [] => None,
        [first, ..] => Some(*first),
    }
}

fn other_origins(origins: &[Origin]) -> &[Origin]
    ensures { result.now ≡ spec.other_origins origins.now }
{
    match origins {
        [] => &[],
        [_, rest @ ..] => rest,
    }
}

fn next_minima(alloc: Global, pairs: &[Pair], origins: &[Origin]) -> Result<Text, OutOfMemory>
    ensures { IfOk result (λ t. t ≡ spec.next_minima pairs.now origins.now) }
{
    let mut out = Vec::new(alloc);
    let mut rest = origins;
    for pair in pairs {
        let text = next_minimum(alloc, *pair, first_origin(rest))?;
        push_all(&mut out, &[text.bytes()])?;
        rest = other_origins(rest);
    }
    Ok(Text::from_vec(out))
}

// Writes minima, separated by commas.
pub(crate) fn minima_text(
    alloc: Global,
    pairs: &[Pair],
    origins: &[Origin],
) -> Result<Text, OutOfMemory>
    ensures { IfOk result (λ t. t ≡ spec.minima_text pairs.now origins.now) }
{
    match pairs {
        [] => Text::of(alloc, b" none"),
        [first, rest @ ..] => {
            let first = minimum_text(alloc, *first, first_origin(origins))?;
            let rest = next_minima(alloc, rest, other_origins(origins))?;
            joined(alloc, &[first.bytes(), rest.bytes()])
        }
    }
}

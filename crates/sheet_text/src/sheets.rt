ghost use Rattle.std.specs.Prelude.{◌≡◌, ◌++◌, filter, IfOk, OnOk};
ghost use Rattle.sheet.specs.Lines.{fails, holds};
ghost use Rattle.sheet_text.specs.Sheets as spec;
ghost use Rattle.sheet_text.specs.Text.{lines_text};

use crate::text::{joined, line_text, moment_text, two_numbers};
use desk_io::{OutOfMemory, Text, push_all};
use desk_time::Minute;
use plan::Plan;
use sheet::Line;
use std::alloc::Global;

/// A revision of a release.
#[derive(Clone, Copy, Debug, PartialEq, Eq)]
pub enum Which {
    /// The one that both have signed, which is flown.
    Active,
    /// The one that waits for signatures.
    Pending,
}

// Adds the lines that fail.
fn push_failing(alloc: Global, out: &mut Vec<u8>, lines: &[Line]) -> Result<(), OutOfMemory>
    ensures { OnOk result (out.new.items ≡ out.old.items ++ lines_text (filter fails lines.now)) }
{
    for line in lines {
        if !line.holds() {
            let text = line_text(alloc, line)?;
            push_all(out, &[text.bytes()])?;
        }
    }
    Ok(())
}

// Adds the lines that hold.
fn push_holding(alloc: Global, out: &mut Vec<u8>, lines: &[Line]) -> Result<(), OutOfMemory>
    ensures { OnOk result (out.new.items ≡ out.old.items ++ lines_text (filter holds lines.now)) }
{
    for line in lines {
        if line.holds() {
            let text = line_text(alloc, line)?;
            push_all(out, &[text.bytes()])?;
        }
    }
    Ok(())
}

/// Writes a sheet in words, one line for each comparison: first the lines that fail, then those that hold, each group
/// in the order of findings.
#[tactic(auto, unfolding(crate::specs::Sheets::failing_first))]
pub fn failing_first(alloc: Global, lines: &[Line]) -> Result<Text, OutOfMemory>
    ensures { IfOk result (λ t. t ≡ spec.failing_first lines.now) }
{
    let mut out = Vec::new(alloc);
    push_failing(alloc, &mut out, lines)?;
    push_holding(alloc, &mut out, lines)?;
    Ok(Text::from_vec(out))
}

fn which_text(which: Which) -> &'static [u8]
    ensures { result.now ≡ spec.which_text which }
{
    match which {
        Which::Active => b" ACTIVE ",
        Which::Pending => b" PENDING ",
    }
}

/// Writes the moment of a sheet, as a line: such as `AT 2026-11-12T15:14Z`.
pub fn moment_line(alloc: Global, at: Minute) -> Result<Text, OutOfMemory>
    ensures { IfOk result (λ t. t ≡ spec.moment_line at) }
{
    let moment = moment_text(alloc, at)?;
    joined(alloc, &[b"AT ", moment.bytes(), b"\n"])
}

fn flight_and_tail(alloc: Global, plan: &Plan, at: Minute) -> Result<Text, OutOfMemory>
    ensures { IfOk result (λ t. t ≡ spec.flight_and_tail plan.now at) }
{
    let line = moment_line(alloc, at)?;
    joined(
        alloc,
        &[
            plan.flight.bytes(),
            b" ",
            plan.tail.bytes(),
            b" ",
            line.bytes(),
        ],
    )
}

/// Writes the heading over the sheet of a revision: such as
/// `RELEASE 7 REVISION 2 ACTIVE 117 N801MS AT 2026-11-12T15:14Z`. The moment is that of the sheet.
#[tactic(auto, unfolding(crate::specs::Sheets::heading))]
pub fn heading(
    alloc: Global,
    release: u64,
    revision: u64,
    which: Which,
    plan: &Plan,
    at: Minute,
) -> Result<Text, OutOfMemory>
    ensures { IfOk result (λ t. t ≡ spec.heading release revision which plan.now at) }
{
    let numbers = two_numbers(alloc, b"RELEASE ", release, b" REVISION ", revision)?;
    let flight = flight_and_tail(alloc, plan, at)?;
    joined(alloc, &[numbers.bytes(), which_text(which), flight.bytes()])
}

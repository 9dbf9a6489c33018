ghost use Rattle.std.specs.Prelude.{◌≡◌, ◌++◌, map, IfOk, IfSome, OnOk};
ghost use Rattle.std.specs.List.{AllByRecursion};
ghost use Rattle.std.specs.Option.{option_copied};
ghost use Rattle.ops_tables.specs.Limits.{FitsItem};
ghost use Rattle.desk_state.specs.Texts as spec;
ghost use Rattle.desk_time.specs.Limits.{IsMoment};

use deferrals::{Deferral, due};
use desk_io::{OutOfMemory, Text, push_all};
use desk_time::show;
use ops_tables::{MelRow, Tables};
use std::alloc::Global;

fn due_text(
    alloc: Global,
    row: Option<&MelRow>,
    deferral: &Deferral,
) -> Result<Vec<u8>, OutOfMemory>
    requires found { IsMoment deferral.now.found }
    requires row { IfSome row (λ r. FitsItem r.now) }
    ensures { IfOk result (λ v. v.items ≡ spec.due_text (option_copied row.entry) deferral.now) }
{
    let mut out = Vec::new(alloc);
    match row {
        None => out.push(b'-')?,
        Some(row) => out.extend_from_slice(&show(due(row, deferral.found)))?,
    }
    Ok(out)
}

fn push_deferral_head(
    alloc: Global,
    out: &mut Vec<u8>,
    deferral: &Deferral,
) -> Result<(), OutOfMemory>
    ensures { OnOk result (out.new.items ≡ out.old.items ++ spec.deferral_head deferral.now) }
{
    let id = deferral.id.to_string(alloc)?;
    push_all(out, &[id.as_bytes(), b" ", deferral.item.bytes(), b" "])
}

fn push_due(
    alloc: Global,
    out: &mut Vec<u8>,
    tables: &Tables,
    kind: &[u8],
    deferral: &Deferral,
) -> Result<(), OutOfMemory>
    requires { IsMoment deferral.now.found }
    ensures { OnOk result (out.new.items ≡ out.old.items ++ spec.deferral_due tables.now kind.now deferral.now) }
{
    let row = tables.item(kind, deferral.item.bytes());
    let due = due_text(alloc, row, deferral)?;
    push_all(out, &[&show(deferral.found), b" due ", &due, b"\n"])
}

#[tactic(auto, unfolding(desk_state::specs::Texts::deferral_line))]
fn push_deferral(
    alloc: Global,
    out: &mut Vec<u8>,
    tables: &Tables,
    kind: &[u8],
    deferral: &Deferral,
) -> Result<(), OutOfMemory>
    requires { IsMoment deferral.now.found }
    ensures { OnOk result (out.new.items ≡ out.old.items ++ spec.deferral_line tables.now kind.now deferral.now) }
{
    push_deferral_head(alloc, out, deferral)?;
    push_due(alloc, out, tables, kind, deferral)
}

/// Shows open deferrals on an aircraft of this type.
pub fn deferral_lines(
    alloc: Global,
    tables: &Tables,
    kind: &[u8],
    deferrals: &[&Deferral],
) -> Result<Text, OutOfMemory>
    requires { AllByRecursion (λ d. IsMoment d.found) (map (λ d. d.now) deferrals.now) }
    ensures { IfOk result (λ t. t ≡ spec.deferral_lines tables.now kind.now (map (λ d. d.now) deferrals.now)) }
{
    let mut out = Vec::new(alloc);
    for deferral in deferrals {
        push_deferral(alloc, &mut out, tables, kind, deferral)?;
    }
    Ok(Text::from_vec(out))
}

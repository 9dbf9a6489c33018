ghost use Rattle.std.specs.Prelude.{◌≡◌, ◌++◌, map, OnOk, IfOk};
ghost use Rattle.std.specs.List.{concat};
ghost use Rattle.pg_keeper.specs.Batch.{put_bytes, remove_bytes, change_bytes, batch};

use desk_io::{Change, Row};
use pg_wire::{WriteFault, push_bind, push_execute, push_sync};
use std::alloc::Global;

fn push_put(alloc: Global, out: &mut Vec<u8>, row: &Row) -> Result<(), WriteFault>
    ensures { OnOk result (out.new.items ≡ out.old.items ++ put_bytes row.now.kind row.now.key row.now.body) }
{
    let kind = u16::from(row.kind).to_be_bytes();
    let key = row.key.to_be_bytes();
    push_bind(alloc, out, b"p", &[&kind, &key, row.body.bytes()])?;
    push_execute(out)
}

fn push_remove(alloc: Global, out: &mut Vec<u8>, kind: u8, key: u64) -> Result<(), WriteFault>
    ensures { OnOk result (out.new.items ≡ out.old.items ++ remove_bytes kind key) }
{
    let kind = u16::from(kind).to_be_bytes();
    let key = key.to_be_bytes();
    push_bind(alloc, out, b"d", &[&kind, &key])?;
    push_execute(out)
}

fn push_change(alloc: Global, out: &mut Vec<u8>, change: &Change) -> Result<(), WriteFault>
    ensures { OnOk result (out.new.items ≡ out.old.items ++ change_bytes change.now) }
{
    match change {
        Change::Put(row) => push_put(alloc, out, row),
        Change::Remove { kind, key } => push_remove(alloc, out, *kind, *key),
    }
}

fn push_changes(alloc: Global, out: &mut Vec<u8>, changes: &[Change]) -> Result<(), WriteFault>
    ensures { OnOk result (out.new.items ≡ out.old.items ++ concat (map change_bytes changes.now)) }
{
    for change in changes {
        push_change(alloc, out, change)?;
    }
    Ok(())
}

/// Returns the request of all changes in order, in one transaction.
#[tactic(auto, unfolding(crate::specs::Batch::batch))]
pub fn batch_of(alloc: Global, changes: &[Change]) -> Result<Vec<u8>, WriteFault>
    ensures { IfOk result (λ v. v.items ≡ batch changes.now) }
{
    let mut out = Vec::new(alloc);
    push_changes(alloc, &mut out, changes)?;
    push_sync(&mut out)?;
    Ok(out)
}

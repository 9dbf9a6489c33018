ghost use Rattle.std.specs.Prelude.{◌≡◌, ◌++◌, IfOk, IfSome, IsTrue, OnOk};
ghost use Rattle.keeper.specs.Order.{rising};
ghost use Rattle.pg_keeper.specs.Loads.{row_content, load_request, HasSent, Loads, TakesRow};
ghost use Rattle.pg_wire.specs.Crossing.{came, took};

use crate::ending::{Cause, Trouble};
use desk_io::{Row, Text};
use desk_net::Link;
use keeper::is_rising;
use pg_wire::{
    Answer, FRONT, Lost, noted, push_bind, push_execute, push_sync, read_content, read_head,
    read_whole, send, settle,
};
use std::alloc::Global;

// The most messages of an answer.
const MOST_MESSAGES: u64 = 100_000_000;

// A row as the server sends it.
#[derive(Clone, Copy)]
struct RawRow<'a> {
    kind: u8,
    key: u64,
    body: &'a [u8],
}

// Reads a DataRow whose three columns are binary.
fn read_row(content: &[u8]) -> Option<RawRow<'_>>
    ensures { IfSome result (λ r. content.now ≡ row_content r.kind r.key r.body.now) }
{
    if content.len() < 24 || content.len() > 1_000_000_000 {
        return None;
    }
    let (head, body) = content.split_at(24);
    let kind = head[7];
    let [k0, k1, k2, k3, k4, k5, k6, k7] = [
        head[12], head[13], head[14], head[15], head[16], head[17], head[18], head[19],
    ];
    let key = u64::from_be_bytes([k0, k1, k2, k3, k4, k5, k6, k7]);
    let [l0, l1, l2, l3] = (body.len() as u32).to_be_bytes();
    let wanted = [
        0, 3, 0, 0, 0, 2, 0, kind, 0, 0, 0, 8, k0, k1, k2, k3, k4, k5, k6, k7, l0, l1, l2, l3,
    ];
    if head == wanted.as_slice() {
        Some(RawRow { kind, key, body })
    } else {
        None
    }
}

// Reads the content of a row, and appends the row.
#[tactic(auto, using(crate::proofs::LoadLaws::takes_row))]
fn take_row<L: Link>(
    alloc: Global,
    link: &mut L,
    size: u32,
    rows: &mut Vec<Row>,
) -> Result<(), Trouble>
    ensures read { OnOk result (TakesRow (came (L.seen link.old).crossed) (came (L.seen link.new).crossed) size
        rows.old.items rows.new.items) }
    ensures sent { took (L.seen link.new).crossed ≡ took (L.seen link.old).crossed }
{
    let Some(content) = read_whole(alloc, link, size)? else {
        return Err(Trouble::OutOfMemory);
    };
    let Some(row) = read_row(&content) else {
        return Err(Trouble::from(Lost));
    };
    let body = Text::of(alloc, row.body)?;
    match rows.push(Row {
        kind: row.kind,
        key: row.key,
        body,
    }) {
        Ok(()) => Ok(()),
        Err(_) => Err(Trouble::OutOfMemory),
    }
}

// Reads the rest of an answer with rows. If memory runs out, the link is between two messages.
#[tactic(auto, using(crate::proofs::LoadLaws::gather_none, crate::proofs::LoadLaws::gather_row, crate::proofs::LoadLaws::gather_other, crate::proofs::LoadLaws::gather_end))]
fn gathered<L: Link>(alloc: Global, link: &mut L) -> Result<Vec<Row>, Trouble>
    ensures read { IfOk result
        (λ rows. HasSent (came (L.seen link.old).crossed) (came (L.seen link.new).crossed) rows.items) }
    ensures sent { took (L.seen link.new).crossed ≡ took (L.seen link.old).crossed }
{
    let mut rows = Vec::new(alloc);
    let mut content = [0u8; FRONT];
    let mut answer = Answer::new();
    for _ in 0..MOST_MESSAGES {
        let head = read_head(link)?;
        if head.tag == b'D' {
            take_row(alloc, link, head.size, &mut rows)?;
        } else {
            let kept = read_content(link, head.size, &mut content)?;
            let front = &content[..kept];
            if head.tag == b'Z' {
                return match answer.refused {
                    Some(state) => Err(Trouble::Failed(Cause::Refused(state))),
                    None if front == b"I".as_slice() => Ok(rows),
                    None => Err(Trouble::from(Lost)),
                };
            }
            let Some(more) = noted(answer, head.tag, front) else {
                return Err(Trouble::from(Lost));
            };
            answer = more;
        }
    }
    Err(Trouble::from(Lost))
}

// If memory ran out within an answer, reads the answer to its end, so that the link can be used again.
fn drained<L: Link>(alloc: Global, link: &mut L) -> Result<Vec<Row>, Trouble>
    ensures read { IfOk result
        (λ rows. HasSent (came (L.seen link.old).crossed) (came (L.seen link.new).crossed) rows.items) }
    ensures sent { took (L.seen link.new).crossed ≡ took (L.seen link.old).crossed }
{
    match gathered(alloc, link) {
        Err(Trouble::OutOfMemory) => {
            settle(link)?;
            Err(Trouble::OutOfMemory)
        }
        other => other,
    }
}

#[tactic(auto, unfolding(crate::specs::Loads::load_request))]
fn request_of(alloc: Global) -> Result<Vec<u8>, Trouble>
    ensures { IfOk result (λ v. v.items ≡ load_request) }
{
    let mut request = Vec::new(alloc);
    push_bind(alloc, &mut request, b"a", &[])?;
    push_execute(&mut request)?;
    push_sync(&mut request)?;
    Ok(request)
}

/// Returns all rows in order of kind, then key.
#[tactic(auto, using(crate::proofs::LoadLaws::loads))]
pub fn all_rows<L: Link>(alloc: Global, link: &mut L) -> Result<Vec<Row>, Trouble>
    ensures rising { IfOk result (λ rows. IsTrue (rising rows.items)) }
    ensures loaded { IfOk result (λ rows. Loads (L.seen link.old).crossed (L.seen link.new).crossed rows.items) }
{
    let request = request_of(alloc)?;
    send(link, &request)?;
    let rows = drained(alloc, link)?;
    if is_rising(&rows) {
        Ok(rows)
    } else {
        Err(Trouble::from(Lost))
    }
}

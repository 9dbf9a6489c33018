ghost use Rattle.std.specs.Prelude.{◌≡◌, ◌++◌, ◌≤◌, map, take, length, OnOk, OnErr};
ghost use Rattle.std.specs.List.{concat};
ghost use Rattle.desk_io.specs.Grown.{BeginsWith};

use crate::OutOfMemory;

// Appends the pieces in order. If memory runs out, some of the pieces may remain appended.
#[tactic(auto, using(crate::proofs::Grown::begins_more))]
fn push_each(out: &mut Vec<u8>, pieces: &[&[u8]]) -> Result<(), OutOfMemory>
    ensures ok { OnOk result (out.new.items ≡ out.old.items ++ concat (map (λ x. x.now) pieces.now)) }
    ensures err { OnErr result (BeginsWith out.new.items out.old.items) }
{
    for piece in pieces {
        out.extend_from_slice(piece)?;
    }
    Ok(())
}

/// Appends the pieces in order. If memory runs out, the text is unchanged.
pub fn push_all(out: &mut Vec<u8>, pieces: &[&[u8]]) -> Result<(), OutOfMemory>
    ensures ok { OnOk result (out.new.items ≡ out.old.items ++ concat (map (λ x. x.now) pieces.now)) }
    ensures err { OnErr result (out.new.items ≡ out.old.items) }
{
    let before = out.len();
    let done = push_each(out, pieces);
    or_undone(out, before, done)
}

/// Completes several appends to a text, and returns their result `done`. If it is an error, this truncates the text
/// to its first `before` bytes.
pub fn or_undone(
    out: &mut Vec<u8>,
    before: usize,
    done: Result<(), OutOfMemory>,
) -> Result<(), OutOfMemory>
    ensures same { result ≡ done }
    ensures ok { OnOk result (out.new.items ≡ out.old.items) }
    ensures err { OnErr result (out.new.items ≡ take before out.old.items) }
{
    if done.is_err() {
        out.truncate(before);
    }
    done
}

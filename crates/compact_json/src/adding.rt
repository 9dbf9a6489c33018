ghost use Rattle.std.specs.Prelude.{◌≡◌, ◌+◌, ◌<◌, ◌≤◌, [], ◌∷◌, ◌++◌, length, IfOk, OnOk};
ghost use Rattle.compact_json.specs.Boxes.{kind_by};
ghost use Rattle.compact_json.specs.Written.{HasBox, SetsLength, FitsLength};

use desk_io::{OutOfMemory, push_all};

fn push_short(out: &mut Vec<u8>, byte: u8, text: &[u8]) -> Result<(), OutOfMemory>
    requires kind { (3 ≤ byte) × (byte < 5) }
    requires few { length text.now < 256 }
    ensures { OnOk result (HasBox (kind_by byte) text.now out.old.items out.new.items) }
{
    push_all(out, &[&[byte, text.len() as u8], text])
}

fn push_long(out: &mut Vec<u8>, byte: u8, text: &[u8]) -> Result<(), OutOfMemory>
    requires { 5 ≤ byte }
    ensures { OnOk result (HasBox (kind_by byte) text.now out.old.items out.new.items) }
{
    match u32::try_from(text.len()) {
        Ok(size) => push_all(out, &[&[byte], &size.to_le_bytes(), text]),
        Err(_) => Err(OutOfMemory),
    }
}

/// Adds a box with this content. Its first byte is `short` if the length fits in one byte, otherwise `long`.
pub(crate) fn push_box(
    out: &mut Vec<u8>,
    short: u8,
    long: u8,
    text: &[u8],
) -> Result<(), OutOfMemory>
    requires short { (3 ≤ short) × (short < 5) }
    requires long { 5 ≤ long }
    requires same { kind_by long ≡ kind_by short }
    ensures { OnOk result (HasBox (kind_by short) text.now out.old.items out.new.items) }
{
    if text.len() < 256 {
        push_short(out, short, text)
    } else {
        push_long(out, long, text)
    }
}

/// Adds a box of one byte, without content.
pub(crate) fn push_small(out: &mut Vec<u8>, byte: u8) -> Result<(), OutOfMemory>
    requires { byte < 3 }
    ensures { OnOk result (HasBox (kind_by byte) [] out.old.items out.new.items) }
{
    push_all(out, &[&[byte]])
}

/// Begins a box and returns its index. `close_box` sets its length.
pub(crate) fn open_box(out: &mut Vec<u8>, byte: u8) -> Result<usize, OutOfMemory>
    ensures longer { IfOk result (λ _. out.new.items ≡ out.old.items ++ byte ∷ 0 ∷ 0 ∷ 0 ∷ 0 ∷ []) }
    ensures start { IfOk result (λ start. start ≡ length out.old.items) }
{
    let start = out.as_slice().len();
    push_all(out, &[&[byte, 0, 0, 0, 0]])?;
    Ok(start)
}

fn set_length(out: &mut Vec<u8>, start: usize, size: u32)
    requires { start + 5 + size ≡ length out.old.items }
    ensures { SetsLength out.old.items out.new.items start }
{
    let four = size.to_le_bytes();
    out[start + 1] = four[0];
    out[start + 2] = four[1];
    out[start + 3] = four[2];
    out[start + 4] = four[3];
}

/// Ends the box that begins at this index.
pub(crate) fn close_box(out: &mut Vec<u8>, start: usize) -> Result<(), OutOfMemory>
    requires { start + 5 ≤ length out.old.items }
    ensures sets { OnOk result (SetsLength out.old.items out.new.items start) }
    ensures fits { OnOk result (FitsLength out.old.items start) }
{
    let size = out.as_slice().len() - start - 5;
    match u32::try_from(size) {
        Ok(size) => {
            set_length(out, start, size);
            Ok(())
        }
        Err(_) => Err(OutOfMemory),
    }
}

ghost use Rattle.std.specs.Prelude.{◌≡◌, ◌<◌, [], ◌∷◌, length, take, drop, get_or};
ghost use Rattle.std.specs.Int.{w32, from_le_bytes};
ghost use Rattle.compact_json.specs.Boxes.{first, kind_by, kind_of, before, four_bytes, size, content, after};

fn byte_at(bytes: &[u8], place: usize) -> u8
    ensures { result ≡ get_or bytes.now place 0 }
{
    if place < bytes.len() { bytes[place] } else { 0 }
}

fn front(bytes: &[u8], count: usize) -> &[u8]
    ensures { result.now ≡ take count bytes.now }
{
    if count < bytes.len() {
        &bytes[..count]
    } else {
        bytes
    }
}

fn rest(bytes: &[u8], count: usize) -> &[u8]
    ensures { result.now ≡ drop count bytes.now }
{
    if count < bytes.len() {
        &bytes[count..]
    } else {
        &[]
    }
}

fn first(bytes: &[u8]) -> u8
    ensures { result ≡ first bytes.now }
{
    byte_at(bytes, 0)
}

/// The kind of a box.
#[derive(Clone, Copy)]
pub(crate) enum Kind {
    Null,
    False,
    True,
    Number,
    Text,
    Array,
    Object,
}

fn kind_by(byte: u8) -> Kind
    ensures { result ≡ kind_by byte }
{
    match byte {
        1 => Kind::False,
        2 => Kind::True,
        3 | 5 => Kind::Number,
        4 | 6 => Kind::Text,
        7 => Kind::Array,
        8 => Kind::Object,
        _ => Kind::Null,
    }
}

/// Returns the kind of the first box.
#[tactic(auto, unfolding(crate::specs::Boxes::kind_of))]
pub(crate) fn kind_of(bytes: &[u8]) -> Kind
    ensures { result ≡ kind_of bytes.now }
{
    kind_by(first(bytes))
}

#[tactic(auto, unfolding(crate::specs::Boxes::before))]
fn before_content(bytes: &[u8]) -> usize
    ensures { result ≡ before bytes.now }
{
    let byte = first(bytes);
    if byte < 3 {
        1
    } else if byte < 5 {
        2
    } else {
        5
    }
}

fn four_at(bytes: &[u8]) -> u32
    ensures { result ≡ from_le_bytes w32 (four_bytes bytes.now) }
{
    u32::from_le_bytes([
        byte_at(bytes, 1),
        byte_at(bytes, 2),
        byte_at(bytes, 3),
        byte_at(bytes, 4),
    ])
}

#[tactic(auto, unfolding(crate::specs::Boxes::size))]
fn size_of_content(bytes: &[u8]) -> usize
    ensures { result ≡ size bytes.now }
{
    let byte = first(bytes);
    if byte < 3 {
        0
    } else if byte < 5 {
        byte_at(bytes, 1) as usize
    } else {
        four_at(bytes) as usize
    }
}

/// Returns the content of the first box.
#[tactic(auto, unfolding(crate::specs::Boxes::content))]
pub(crate) fn content_of(bytes: &[u8]) -> &[u8]
    ensures { result.now ≡ content bytes.now }
{
    front(rest(bytes, before_content(bytes)), size_of_content(bytes))
}

/// Returns the bytes after the first box.
#[tactic(auto, unfolding(crate::specs::Boxes::after))]
pub(crate) fn after_box(bytes: &[u8]) -> &[u8]
    ensures { result.now ≡ after bytes.now }
{
    rest(rest(bytes, before_content(bytes)), size_of_content(bytes))
}

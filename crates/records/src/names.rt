ghost use Rattle.std.specs.Prelude.{◌≡◌};
ghost use Rattle.std.specs.List.{list_all};
ghost use Rattle.ops_tables.specs.Forms as form;

fn in_name(b: u8) -> bool
    ensures { result ≡ form.in_name b }
{
    b'A' <= b && b <= b'Z' || b'0' <= b && b <= b'9'
}

fn in_mark(b: u8) -> bool
    ensures { result ≡ form.in_mark b }
{
    in_name(b) || b == b'-'
}

fn in_person(b: u8) -> bool
    ensures { result ≡ form.in_person b }
{
    in_name(b) || b'a' <= b && b <= b'z'
}

fn all_in_mark(text: &[u8]) -> bool
    ensures { result ≡ list_all form.in_mark text.now }
{
    text.iter().all(|b| in_mark(*b))
}

fn all_in_person(text: &[u8]) -> bool
    ensures { result ≡ list_all form.in_person text.now }
{
    text.iter().all(|b| in_person(*b))
}

/// Returns true if a text is a registration: 1 to 8 capital letters, digits and hyphens.
#[tactic(auto, unfolding(ops_tables::specs::Forms::is_tail))]
pub(crate) fn is_tail(text: &[u8]) -> bool
    ensures { result ≡ form.is_tail text.now }
{
    1 <= text.len() && text.len() <= 8 && all_in_mark(text)
}

/// Returns true if a text is an item of a minimum equipment list: 1 to 16 capital letters, digits and hyphens.
#[tactic(auto, unfolding(ops_tables::specs::Forms::is_item))]
pub(crate) fn is_item(text: &[u8]) -> bool
    ensures { result ≡ form.is_item text.now }
{
    1 <= text.len() && text.len() <= 16 && all_in_mark(text)
}

/// Returns true if a text is the name of a person: 1 to 16 letters and digits.
#[tactic(auto, unfolding(ops_tables::specs::Forms::is_person))]
pub(crate) fn is_person(text: &[u8]) -> bool
    ensures { result ≡ form.is_person text.now }
{
    1 <= text.len() && text.len() <= 16 && all_in_person(text)
}

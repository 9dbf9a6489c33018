ghost use Rattle.std.specs.Prelude.{◌≡◌, not, is_some, option_map, option_and_then};
ghost use Rattle.serde_json.specs.Find.{as_u64};
ghost use Rattle.compact_json.specs.Kept.{items_of, members_of};
ghost use Rattle.compact_json.specs.Looks.{str_by, number_by, bool_by, array_by, object_by, is_null_by};

use crate::boxes::Kind;
use crate::numbers::{is_number, whole_number};
use crate::texts::{text_in, text_of};

/// Returns the string in a box of this kind.
pub(crate) fn str_by(content: &[u8], kind: Kind) -> Option<&str>
    ensures { option_map (λ t. t.now) result ≡ str_by content.now kind }
{
    match kind {
        Kind::Text => text_in(content),
        _ => None,
    }
}

/// Returns the 64-bit natural number in a box of this kind.
pub(crate) fn whole_by(content: &[u8], kind: Kind) -> Option<u64>
    ensures { result ≡ option_and_then as_u64 (number_by content.now kind) }
{
    match kind {
        Kind::Number => whole_number(content),
        _ => None,
    }
}

/// Returns the boolean in a box of this kind.
pub(crate) fn bool_by(kind: Kind) -> Option<bool>
    ensures { result ≡ bool_by kind }
{
    match kind {
        Kind::False => Some(false),
        Kind::True => Some(true),
        _ => None,
    }
}

/// Returns the boxes of a list.
pub(crate) fn array_by(content: &[u8], kind: Kind) -> Option<&[u8]>
    ensures { option_map (λ s. items_of s.now) result ≡ array_by content.now kind }
{
    match kind {
        Kind::Array => Some(content),
        _ => None,
    }
}

/// Returns the boxes of an object.
pub(crate) fn object_by(content: &[u8], kind: Kind) -> Option<&[u8]>
    ensures { option_map (λ s. members_of s.now) result ≡ object_by content.now kind }
{
    match kind {
        Kind::Object => Some(content),
        _ => None,
    }
}

/// Returns true if the box is null.
pub(crate) fn is_null_by(content: &[u8], kind: Kind) -> bool
    ensures { result ≡ is_null_by content.now kind }
{
    match kind {
        Kind::Null => true,
        Kind::Number => !is_number(content),
        Kind::Text => text_of(content).is_none(),
        _ => false,
    }
}

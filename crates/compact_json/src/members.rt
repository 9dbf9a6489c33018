ghost use Rattle.std.specs.Prelude.{◌≡◌, Some, cond, option_map};
ghost use Rattle.std.specs.Str.{bytes_eq};
ghost use Rattle.serde_json.specs.Find.{get_member};
ghost use Rattle.compact_json.specs.Boxes.{content, after};
ghost use Rattle.compact_json.specs.Kept.{data_of, members_of};
ghost use Rattle.compact_json.specs.Elements.{data_at};

use crate::boxes::{after_box, content_of};
use crate::element::Element;

// Returns the value of the first member if it has this key, otherwise the value found before.
fn chosen<'a>(key: &str, left: &'a [u8], found: Option<Element<'a>>) -> Option<Element<'a>>
    ensures { option_map data_at result ≡ cond (bytes_eq (content left.now) key.now) (Some (data_of (after left.now)))
        (option_map data_at found.entry) }
{
    if content_of(left) == key.as_bytes() {
        Some(Element {
            bytes: after_box(left),
        })
    } else {
        found
    }
}

/// Returns the value at a key. If the key is repeated, the last one counts.
pub(crate) fn member_at<'a>(key: &str, members: &'a [u8]) -> Option<Element<'a>>
    ensures { option_map data_at result ≡ get_member key.now (members_of members.now) }
{
    let mut left = members;
    let mut found = None;
    'members: while !left.is_empty() {
        found = chosen(key, left, found);
        left = after_box(after_box(left));
    }
    found
}

ghost use Rattle.std.specs.Prelude.{◌≡◌, if◌then◌else◌, Some, None, option_map};
ghost use Rattle.serde_json.specs.Find.{as_str};
ghost use Rattle.compact_json.specs.Kept.{is_text, text_data};

use std::str;

/// Returns the text of these bytes, if they are UTF-8.
pub(crate) fn text_of(bytes: &[u8]) -> Option<&str>
    ensures { option_map (λ t. t.now) result ≡ (if is_text bytes.now then Some bytes.now else None) }
{
    match str::from_utf8(bytes) {
        Ok(text) => Some(text),
        Err(_) => None,
    }
}

/// Returns the string of a box with this content.
#[tactic(auto, using(crate::proofs::KindLaws::text_back))]
pub(crate) fn text_in(content: &[u8]) -> Option<&str>
    ensures { option_map (λ t. t.now) result ≡ as_str (text_data content.now) }
{
    text_of(content)
}

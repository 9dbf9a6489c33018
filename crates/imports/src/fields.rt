ghost use Rattle.std.specs.Prelude.{◌≡◌, IsTrue, IsUtf8};
ghost use Rattle.asks.specs.Forms.{IsShort};
ghost use Rattle.imports.specs.Records as spec;

use std::str;

/// Returns true if the field is UTF-8.
pub(crate) fn is_text(field: &[u8]) -> bool
    ensures value { result ≡ spec.is_text field.now }
    ensures form { IsTrue result → IsUtf8 field.now }
{
    match str::from_utf8(field) {
        Ok(_) => true,
        Err(_) => false,
    }
}

/// Returns true if the field is UTF-8 and has at most 64 bytes.
pub(crate) fn is_short(field: &[u8]) -> bool
    ensures value { result ≡ spec.is_short field.now }
    ensures form { IsTrue result → IsShort field.now }
{
    is_text(field) && field.len() <= 64
}

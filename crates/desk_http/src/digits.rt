ghost use Rattle.std.specs.Prelude.{◌≡◌, ◌≤◌, ◌&&◌, ℕ, IsTrue, length, nat_le, if◌then◌else◌, Some, None};
ghost use Rattle.desk_time.specs.Numbers.{digits_after};
ghost use Rattle.desk_http.specs.Digits as spec;

use desk_time::all_digits;

/// Returns true if a text has 1 to `most` bytes.
pub(crate) fn has_length(most: usize, text: &[u8]) -> bool
    ensures { result ≡ spec.has_length most text.now }
{
    1 <= text.len() && text.len() <= most
}

fn digits_value(digits: &[u8]) -> u64
    requires { length digits.now ≤ 10 }
    ensures { result ≡ digits_after 0 digits.now }
{
    let mut number = 0;
    for digit in digits {
        number = 10 * number + u64::from(digit.saturating_sub(b'0'));
    }
    number
}

/// Reads a number of 1 to `most` decimal digits. Leading zeros are allowed.
pub(crate) fn number_of(most: usize, text: &[u8]) -> Option<u64>
    requires { most ≤ 10 }
    ensures { result ≡ spec.number_of most text.now }
{
    if has_length(most, text) && all_digits(text) {
        Some(digits_value(text))
    } else {
        None
    }
}

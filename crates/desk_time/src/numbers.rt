ghost use Rattle.std.specs.Prelude.{◌≡◌, ◌↔◌, ℕ, decimal, ◌≤◌, IfSome, nat_le, if◌then◌else◌, Some, None};
ghost use Rattle.std.specs.List.{list_all};
ghost use Rattle.desk_time.specs.Numbers as spec;

/// Returns true if the byte is an ASCII digit.
pub fn is_digit(b: u8) -> bool
    ensures { result ≡ spec.is_digit b }
{
    b'0' <= b && b <= b'9'
}

/// Returns true if every byte is an ASCII digit. This holds for an empty text.
pub fn all_digits(text: &[u8]) -> bool
    ensures { result ≡ list_all spec.is_digit text.now }
{
    text.iter().all(|b| is_digit(*b))
}

fn is_decimal(text: &[u8]) -> bool
    ensures { result ≡ spec.is_decimal text.now }
{
    match text {
        [] => false,
        [first, rest @ ..] => all_digits(text) && (*first != b'0' || rest.is_empty()),
    }
}

// The value of these digits, if it is at most `limit`.
fn number_up_to(limit: u64, digits: &[u8]) -> Option<u64>
    ensures { result ≡ if nat_le (spec.digits_after 0 digits.now) limit then Some
        (spec.digits_after 0 digits.now) else None }
{
    let mut number: u64 = 0;
    for digit in digits {
        let next = 10 * u128::from(number) + u128::from(digit.saturating_sub(b'0'));
        if next > u128::from(limit) {
            return None;
        }
        number = next as u64;
    }
    Some(number)
}

fn number_in(limit: u64, text: &[u8]) -> Option<u64>
    ensures { result ≡ spec.number_in limit text.now }
{
    if is_decimal(text) {
        number_up_to(limit, text)
    } else {
        None
    }
}

/// Reads a number of at most `limit` in decimal: at least one digit, and no leading zeros.
pub fn read_number(limit: u64, text: &[u8]) -> Option<u64>
    ensures value { result ≡ spec.number_in limit text.now }
    ensures bound { IfSome result (λ n. n ≤ limit) }
    ensures exact { (n : ℕ) → (result ≡ Some n) ↔ ((n ≤ limit) × (text.now ≡ decimal n)) }
{
    number_in(limit, text)
}

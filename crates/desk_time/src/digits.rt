ghost use Rattle.std.specs.Prelude.{◌≡◌, ◌≤◌, IfSome};
ghost use Rattle.desk_time.specs.Digits as spec;

/// Returns the value of an ASCII digit.
pub fn digit(a: u8) -> Option<u8>
    ensures value { result ≡ spec.digit a }
    ensures bound { IfSome result (λ d. d ≤ 9) }
{
    if b'0' <= a && a <= b'9' {
        Some(a - b'0')
    } else {
        None
    }
}

/// Returns the value of a tens digit and a ones digit.
pub fn pair(a: u8, b: u8) -> Option<u8>
    ensures value { result ≡ spec.pair a b }
    ensures bound { IfSome result (λ n. n ≤ 99) }
{
    let tens = digit(a)?;
    let ones = digit(b)?;
    Some(10 * tens + ones)
}

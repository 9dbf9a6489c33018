ghost use Rattle.std.specs.Prelude.{◌≡◌, ◌<◌, ◌≤◌, ◌==◌, length, drop, IfSome};
ghost use Rattle.std.specs.List.{position};
ghost use Rattle.std.specs.Option.{option_map};
ghost use Rattle.release_json.specs.Cuts as spec;

use desk_time::read_number;

/// Reads the number of a leg, which is at most 4,294,967,295.
pub(crate) fn leg_of(text: &[u8]) -> Option<u32>
    ensures { result ≡ spec.leg_of text.now }
{
    Some(read_number(4_294_967_295, text)? as u32)
}

fn place_of(sign: u8, text: &[u8]) -> Option<usize>
    ensures value { result ≡ position (λ b. b == sign) text.now }
    ensures within { IfSome result (λ at. at < length text.now) }
{
    text.iter().position(|b| *b == sign)
}

// Returns the text from a place on.
fn rest_from(text: &[u8], place: usize) -> &[u8]
    requires { place ≤ length text.now }
    ensures { result.now ≡ drop place text.now }
{
    &text[place..]
}

/// Splits a text at the first byte equal to `sign`. Returns the text before it and the text after it.
pub(crate) fn cut(sign: u8, text: &[u8]) -> Option<(&[u8], &[u8])>
    ensures { option_map (λ halves. (halves.0.now, halves.1.now)) result ≡ spec.cut sign text.now }
{
    let place = place_of(sign, text)?;
    Some((&text[..place], rest_from(text, place + 1)))
}

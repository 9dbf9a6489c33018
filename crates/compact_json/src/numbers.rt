ghost use Rattle.std.specs.Prelude.{◌≡◌, ◌==◌, slice_index, true, false, is_some, option_and_then};
ghost use Rattle.serde_json.specs.Find.{as_u64};
ghost use Rattle.serde_json.specs.Read.{number_of, number_from, float_of};

use fast_float::Numeral;

fn has_minus(text: &[u8]) -> bool
    ensures { result ≡ (slice_index text.now 0 == 45) }
{
    !text.is_empty() && text[0] == b'-'
}

fn is_finite(negative: bool, numeral: &Numeral<'_>) -> bool
    ensures { result ≡ is_some (float_of negative numeral.now) }
{
    numeral.to_float::<f64>(negative).is_finite()
}

fn has_value(numeral: &Numeral<'_>) -> bool
    ensures { result ≡ is_some (number_from false numeral.now) }
{
    numeral.to_u64().is_some() || is_finite(false, numeral)
}

fn has_negative(numeral: &Numeral<'_>) -> bool
    ensures { result ≡ is_some (number_from true numeral.now) }
{
    if let Some(number) = numeral.to_i64(true) {
        if number < 0 {
            return true;
        }
    }
    is_finite(true, numeral)
}

/// Returns true if the text of a number has a value, because it isn't too large for a 64-bit float.
pub(crate) fn is_number(text: &[u8]) -> bool
    ensures { result ≡ is_some (number_of text.now) }
{
    if has_minus(text) {
        has_negative(&Numeral::scan(&text[1..]))
    } else {
        has_value(&Numeral::scan(text))
    }
}

fn whole_of(numeral: &Numeral<'_>) -> Option<u64>
    ensures { result ≡ option_and_then as_u64 (number_from false numeral.now) }
{
    numeral.to_u64()
}

/// Returns the number, if it is a 64-bit natural number.
pub(crate) fn whole_number(text: &[u8]) -> Option<u64>
    ensures { result ≡ option_and_then as_u64 (number_of text.now) }
{
    if has_minus(text) {
        None
    } else {
        whole_of(&Numeral::scan(text))
    }
}

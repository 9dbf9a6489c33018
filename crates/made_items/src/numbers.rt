ghost use Rattle.std.specs.Prelude.{◌≡◌};
ghost use Rattle.made_items.specs.Numbers as spec;

/// Returns the random number after x.
pub(crate) fn next_number(x: u32) -> u32
    ensures { result ≡ spec.next_number x }
{
    ((1_664_525 * u64::from(x) + 1_013_904_223) % 4_294_967_296) as u32
}

/// Returns the minimum fuel of a flight from its random number, in pounds.
pub(crate) fn minimum_of(x: u32) -> u32
    ensures { result ≡ spec.minimum_of x }
{
    if x / 65_536 % 4 == 0 { 16_499 } else { 16_500 }
}

ghost use Rattle.std.specs.Prelude.{◌≡◌, ◌≤◌, ◌<◌, ◌^◌, IfSome};
ghost use Rattle.std.specs.Option.{option_map};
ghost use Rattle.codes.specs.Shapes as spec;
ghost use Rattle.codes.specs.VisibilityTable.{IsTabledVisibility, IsTabledSum};
ghost use Rattle.codes.specs.SkyTable.{IsTabledSky};

use desk_time::{digit, pair};

/// What a group reports about an element, visibility or sky.
#[derive(Clone, Copy, Debug, PartialEq, Eq)]
pub enum Named {
    /// The group reports this value.
    Value(u32),
    /// The group reports a layer without its height.
    Unmeasured,
    /// The group reports nothing about the element.
    Nothing,
    /// The group begins or ends like one that reports the element, but is malformed.
    Bad,
}

/// What a group reports about each element, read without the groups beside it.
#[derive(Clone, Copy, Debug, PartialEq, Eq)]
pub(crate) struct Elements {
    /// The visibility in millimetres.
    pub vis: Named,
    /// The height of the sky in feet.
    pub sky: Named,
}

/// Reads what a group reports about each element, without the groups beside it.
pub(crate) fn elements_of(group: &[u8]) -> Elements
    ensures { result ≡ spec.elements_of group.now }
{
    Elements {
        vis: visibility(group),
        sky: sky(group),
    }
}

pub(crate) fn is_digit(b: u8) -> bool
    ensures { result ≡ spec.is_digit b }
{
    digit(b).is_some()
}

pub(crate) fn are_digits(text: &[u8]) -> bool
    ensures { result ≡ spec.are_digits text.now }
{
    text.iter().all(|b| is_digit(*b))
}

fn number(digits: &[u8]) -> Option<u8>
    ensures value { result ≡ spec.number digits.now }
    ensures bound { IfSome result (λ d. d ≤ 99) }
{
    match digits {
        [a] => digit(*a),
        [a, b] => pair(*a, *b),
        _ => None,
    }
}

fn miles(digits: &[u8]) -> Option<u32>
    ensures value { result ≡ spec.miles digits.now }
    ensures bound { IfSome result (λ d. d ≤ 159_325_056) }
{
    Some(1_609_344 * number(digits)? as u32)
}

fn sixteenths(n: u8, d: u8) -> Option<u32>
    ensures value { result ≡ spec.sixteenths n d }
    ensures bound { IfSome result (λ d. d ≤ 1_508_760) }
{
    let is_part = d == 2 || d == 4 || d == 8 || d == 16;
    if is_part && 1 <= n && n < d {
        Some(n as u32 * (16 / d as u32) * 100_584)
    } else {
        None
    }
}

fn part(n: u8, d: u8) -> Option<u32>
    ensures value { result ≡ spec.part n d }
    ensures bound { IfSome result (λ d. d ≤ 1_508_760) }
{
    sixteenths(digit(n)?, digit(d)?)
}

fn part_of_16(tens: u8, n: u8) -> Option<u32>
    requires { tens ≤ 10 }
    ensures value { result ≡ spec.part_of_16 tens n }
    ensures bound { IfSome result (λ d. d ≤ 1_508_760) }
{
    sixteenths(tens + digit(n)?, 16)
}

fn fraction(text: &[u8]) -> Option<u32>
    ensures value { result ≡ spec.fraction text.now }
    ensures bound { IfSome result (λ d. d ≤ 1_508_760) }
{
    match text {
        [n, b'/', d] => part(*n, *d),
        [n, b'/', b'1', b'6'] => part_of_16(0, *n),
        [b'1', n, b'/', b'1', b'6'] => part_of_16(10, *n),
        _ => None,
    }
}

// `P`, more than a distance, counts as one millimetre more.
fn above(value: Option<u32>) -> Option<u32>
    requires { IfSome value (λ d. d ≤ 2_000_000_000) }
    ensures { result ≡ spec.above value }
{
    Some(value? + 1)
}

// `M`, less than a distance, counts as one millimetre less.
fn below(value: Option<u32>) -> Option<u32>
    ensures { result ≡ spec.below value }
{
    Some(value?.saturating_sub(1))
}

// The distance in millimetres that the text before `SM` reports.
fn distance(text: &[u8]) -> Option<u32>
    ensures { result ≡ spec.distance text.now }
{
    match text {
        [b'P', digits @ ..] => above(miles(digits)),
        [b'M', part @ ..] => below(fraction(part)),
        _ => {
            let whole = miles(text);
            if whole.is_some() {
                whole
            } else {
                fraction(text)
            }
        }
    }
}

fn four_digits(a: u8, b: u8, c: u8, d: u8) -> Option<u32>
    ensures value { result ≡ spec.four_digits a b c d }
    ensures bound { IfSome result (λ m. m ≤ 9999) }
{
    Some(100 * pair(a, b)? as u32 + pair(c, d)? as u32)
}

fn metres(m: u32) -> u32
    requires { m ≤ 9999 }
    ensures { result ≡ spec.metres m }
{
    if m == 9999 { 10_000_000 } else { 1000 * m }
}

fn distance_in_metres(group: &[u8]) -> Option<u32>
    ensures { result ≡ spec.distance_in_metres group.now }
{
    match group {
        [a, b, c, d] => Some(metres(four_digits(*a, *b, *c, *d)?)),
        [a, b, c, d, b'N', b'D', b'V'] => Some(metres(four_digits(*a, *b, *c, *d)?)),
        _ => None,
    }
}

pub(crate) fn is_cavok(group: &[u8]) -> bool
    ensures { result ≡ spec.is_cavok group.now }
{
    match group {
        [b'C', b'A', b'V', b'O', b'K'] => true,
        _ => false,
    }
}

fn value_or_bad(value: Option<u32>) -> Named
    ensures { result ≡ spec.value_or_bad value }
{
    match value {
        Some(value) => Named::Value(value),
        None => Named::Bad,
    }
}

// The text before a final `SM`.
fn before_sm(group: &[u8]) -> Option<&[u8]>
    ensures { option_map (λ front. front.now) result ≡ spec.before_sm group.now }
{
    match group {
        [front @ .., b'S', b'M'] => Some(front),
        _ => None,
    }
}

fn visibility_in_metres(group: &[u8]) -> Named
    ensures { result ≡ spec.visibility_before None group.now }
{
    match distance_in_metres(group) {
        Some(value) => Named::Value(value),
        None if is_cavok(group) => Named::Value(10_000_000),
        None => Named::Nothing,
    }
}

#[tactic(auto, unfolding(crate::specs::Shapes::visibility))]
fn visibility_in_group(group: &[u8]) -> Named
    ensures { result ≡ spec.visibility group.now }
{
    if group.first() == Some(&b'/') {
        return Named::Nothing;
    }
    match before_sm(group) {
        Some(front) => value_or_bad(distance(front)),
        None => visibility_in_metres(group),
    }
}

/// Reads the visibility in millimetres that a group reports by itself. It is in statute miles and fractions of a mile
/// (FMH-1, 12.6.6), or in metres (WMO FM 15, 15.6). `CAVOK` counts as ten kilometres.
#[tactic(auto, using(crate::proofs::VisibilityLaws::visibility_is_tabled))]
pub fn visibility(group: &[u8]) -> Named
    ensures value { result ≡ spec.visibility group.now }
    ensures tabled { IsTabledVisibility group.now result }
{
    visibility_in_group(group)
}

fn fraction_of_mile(group: &[u8]) -> Option<u32>
    ensures value { result ≡ spec.fraction_of_mile group.now }
    ensures bound { IfSome result (λ d. d ≤ 1_508_760) }
{
    fraction(before_sm(group)?)
}

#[tactic(auto, unfolding(crate::specs::Shapes::mixed))]
fn sum_of_groups(before: &[u8], group: &[u8]) -> Option<u32>
    ensures { result ≡ spec.mixed before.now group.now }
{
    Some(miles(before)? + fraction_of_mile(group)?)
}

/// The visibility in millimetres of two groups, whole miles and a fraction of a mile.
#[tactic(auto, using(crate::proofs::VisibilityLaws::sum_is_tabled))]
pub(crate) fn mixed(before: &[u8], group: &[u8]) -> Option<u32>
    ensures value { result ≡ spec.mixed before.now group.now }
    ensures tabled { IsTabledSum before.now group.now result }
{
    sum_of_groups(before, group)
}

/// Returns the visibility of whole miles and a fraction in two groups, or else `alone`, that of the second group.
pub(crate) fn visibility_after(before: &[u8], group: &[u8], alone: Named) -> Named
    ensures { result ≡ spec.sum_or_alone (spec.mixed before.now group.now) alone }
{
    match mixed(before, group) {
        Some(sum) => Named::Value(sum),
        None => alone,
    }
}

fn hundreds(a: u8, b: u8, c: u8) -> Option<u32>
    ensures { result ≡ spec.hundreds a b c }
{
    Some(10_000 * digit(a)? as u32 + 1000 * digit(b)? as u32 + 100 * digit(c)? as u32)
}

fn is_cloud(rest: &[u8]) -> bool
    ensures { result ≡ spec.is_cloud rest.now }
{
    rest.is_empty()
        || rest == b"CB".as_slice()
        || rest == b"TCU".as_slice()
        || rest == b"///".as_slice()
}

fn layer_at(a: u8, b: u8, c: u8) -> Named
    ensures { result ≡ spec.layer_at a b c }
{
    if a == b'/' && b == b'/' && c == b'/' {
        Named::Unmeasured
    } else {
        value_or_bad(hundreds(a, b, c))
    }
}

fn layer(text: &[u8]) -> Named
    ensures { result ≡ spec.layer text.now }
{
    match text {
        [a, b, c, rest @ ..] if is_cloud(rest) => layer_at(*a, *b, *c),
        _ => Named::Bad,
    }
}

fn vertical(text: &[u8]) -> Named
    ensures { result ≡ spec.vertical text.now }
{
    match text {
        [a, b, c] => layer_at(*a, *b, *c),
        _ => Named::Bad,
    }
}

fn no_ceiling(layer: Named) -> Named
    ensures { result ≡ spec.no_ceiling layer }
{
    match layer {
        Named::Value(_) => Named::Value(100_000),
        Named::Unmeasured => Named::Value(100_000),
        Named::Nothing => Named::Nothing,
        Named::Bad => Named::Bad,
    }
}

fn sky_word(group: &[u8]) -> Named
    ensures { result ≡ spec.sky_word group.now }
{
    match group {
        [b'S', b'K', b'C'] => Named::Value(100_000),
        [b'C', b'L', b'R'] => Named::Value(12_000),
        [b'N', b'S', b'C'] => Named::Value(5000),
        [b'N', b'C', b'D'] => Named::Value(5000),
        _ if is_cavok(group) => Named::Value(5000),
        _ => Named::Nothing,
    }
}

fn layer_of(group: &[u8]) -> Named
    ensures { result ≡ spec.layer_of group.now }
{
    match group {
        [b'F', b'E', b'W', rest @ ..] => no_ceiling(layer(rest)),
        [b'S', b'C', b'T', rest @ ..] => no_ceiling(layer(rest)),
        [b'B', b'K', b'N', rest @ ..] => layer(rest),
        [b'O', b'V', b'C', rest @ ..] => layer(rest),
        [_, _, _, ..] => sky_word(group),
        _ => Named::Nothing,
    }
}

#[tactic(auto, unfolding(crate::specs::Shapes::sky))]
fn sky_in_group(group: &[u8]) -> Named
    ensures { result ≡ spec.sky group.now }
{
    match group {
        [b'V', b'V', rest @ ..] => vertical(rest),
        _ => layer_of(group),
    }
}

/// Reads the height in feet that a sky group reports (FMH-1, 12.6.9; WMO FM 15, 15.9). A layer that isn't a ceiling
/// and `SKC` count as 100,000, `CLR` as 12,000, and `NSC`, `NCD` and `CAVOK` as 5,000.
#[tactic(auto, using(crate::proofs::SkyLaws::sky_is_tabled))]
pub fn sky(group: &[u8]) -> Named
    ensures value { result ≡ spec.sky group.now }
    ensures tabled { IsTabledSky group.now result }
{
    sky_in_group(group)
}

ghost use Rattle.std.specs.Prelude.{◌≡◌, ◌≤◌, ◌-◌, [], length, drop, slice_index_or};
ghost use Rattle.codes.specs.Class as spec;
ghost use Rattle.codes.specs.Groups.{first_of};
ghost use Rattle.codes.specs.Shapes.{elements_of};

use crate::groups::{Groups, first_of};
use crate::shapes::{Elements, Named, are_digits, elements_of, is_cavok, is_digit, mixed};

/// The classes of groups (FMH-1, chapter 12; WMO FM 15).
#[derive(Clone, Copy, Debug, PartialEq, Eq)]
pub enum Class {
    /// A visibility, or whole miles whose fraction is in the next group.
    Visibility,
    /// A cloud layer, a vertical visibility, or a word for a sky without layers such as `SKC`.
    Sky,
    /// A direction and a speed, or the two directions between which the wind varies.
    Wind,
    /// Runway visual range or the state of a runway.
    Runway,
    /// Present weather.
    Weather,
    /// Temperature and dew point.
    Temperature,
    /// The altimeter setting.
    Altimeter,
    /// `AUTO` or `COR`.
    Mark,
    /// A group of none of these classes.
    Unread,
}

fn is_shaped(named: Named) -> bool
    ensures { result ≡ spec.is_shaped named }
{
    match named {
        Named::Value(_) => true,
        Named::Unmeasured => true,
        Named::Nothing => false,
        Named::Bad => false,
    }
}

fn is_visibility(elements: Elements, group: &[u8], next: &[u8]) -> bool
    ensures { result ≡ spec.is_visibility elements group.now next.now }
{
    is_shaped(elements.vis) && !is_cavok(group) || mixed(group, next).is_some()
}

fn is_speed(text: &[u8]) -> bool
    ensures { result ≡ spec.is_speed text.now }
{
    (text.len() == 2 || text.len() == 3) && are_digits(text)
}

fn are_speeds(text: &[u8]) -> bool
    ensures { result ≡ spec.are_speeds text.now }
{
    is_speed(text) || is_gust(2, text) || is_gust(3, text)
}

fn is_gust(digits: usize, text: &[u8]) -> bool
    requires { digits ≤ 3 }
    ensures { result ≡ spec.is_gust digits text.now }
{
    if text.len() < digits + 1 {
        return false;
    }
    let front = text.len() - (digits + 1);
    text[front] == b'G' && is_speed(&text[..front]) && are_digits(&text[front + 1..])
}

fn before_unit(group: &[u8]) -> &[u8]
    ensures { result.now ≡ spec.before_unit group.now }
{
    match group {
        [front @ .., b'K', b'T'] => front,
        [front @ .., b'M', b'P', b'S'] => front,
        _ => b"",
    }
}

fn is_direction(text: &[u8]) -> bool
    ensures { result ≡ spec.is_direction text.now }
{
    are_digits(text) || text == b"VRB".as_slice()
}

fn is_wind_at(text: &[u8]) -> bool
    ensures { result ≡ spec.is_wind_at text.now }
{
    match text {
        [a, b, c, speeds @ ..] => is_direction(&[*a, *b, *c]) && are_speeds(speeds),
        _ => false,
    }
}

fn is_variation(group: &[u8]) -> bool
    ensures { result ≡ spec.is_variation group.now }
{
    match group {
        [a, b, c, b'V', d, e, f] => are_digits(&[*a, *b, *c]) && are_digits(&[*d, *e, *f]),
        _ => false,
    }
}

fn is_wind(group: &[u8]) -> bool
    ensures { result ≡ spec.is_wind group.now }
{
    is_wind_at(before_unit(group)) || is_variation(group)
}

fn is_runway(group: &[u8]) -> bool
    ensures { result ≡ spec.is_runway group.now }
{
    match group {
        [b'R', a, b, rest @ ..] => is_digit(*a) && is_digit(*b) && rest.contains(&b'/'),
        _ => false,
    }
}

fn is_phenomenon(a: u8, b: u8) -> bool
    ensures { result ≡ spec.is_phenomenon a b }
{
    PHENOMENA.iter().any(|p| *p == [a, b])
}

// Descriptors and phenomena of present weather (FMH-1, table 8-2).
const PHENOMENA: [[u8; 2]; 30] = [
    *b"MI", *b"PR", *b"BC", *b"DR", *b"BL", *b"SH", *b"TS", *b"FZ", *b"DZ", *b"RA", *b"SN", *b"SG",
    *b"IC", *b"PL", *b"GR", *b"GS", *b"UP", *b"BR", *b"FG", *b"FU", *b"VA", *b"DU", *b"SA", *b"HZ",
    *b"PY", *b"PO", *b"SQ", *b"FC", *b"SS", *b"DS",
];

fn are_phenomena(text: &[u8]) -> bool
    ensures { result ≡ spec.are_phenomena text.now }
{
    let mut rest = text;
    while let [a, b, after @ ..] = rest {
        if !is_phenomenon(*a, *b) {
            return false;
        }
        rest = after;
    }
    rest.is_empty()
}

fn after_intensity(group: &[u8]) -> &[u8]
    ensures { result.now ≡ spec.after_intensity group.now }
{
    match group {
        [b'+', rest @ ..] => rest,
        [b'-', rest @ ..] => rest,
        [b'V', b'C', rest @ ..] => rest,
        _ => group,
    }
}

fn is_weather(group: &[u8]) -> bool
    ensures { result ≡ spec.is_weather group.now }
{
    let phenomena = after_intensity(group);
    !phenomena.is_empty() && are_phenomena(phenomena)
}

fn without_minus(text: &[u8]) -> &[u8]
    ensures { result.now ≡ spec.without_minus text.now }
{
    match text {
        [b'M', rest @ ..] => rest,
        _ => text,
    }
}

fn are_two_digits(text: &[u8]) -> bool
    ensures { result ≡ spec.are_two_digits text.now }
{
    match text {
        [a, b] => is_digit(*a) && is_digit(*b),
        _ => false,
    }
}

fn is_dew_point(rest: &[u8]) -> bool
    ensures { result ≡ spec.is_dew_point rest.now }
{
    rest.is_empty() || are_two_digits(without_minus(rest))
}

fn is_temperature(group: &[u8]) -> bool
    ensures { result ≡ spec.is_temperature group.now }
{
    match without_minus(group) {
        [a, b, b'/', rest @ ..] => is_digit(*a) && is_digit(*b) && is_dew_point(rest),
        _ => false,
    }
}

fn is_altimeter(group: &[u8]) -> bool
    ensures { result ≡ spec.is_altimeter group.now }
{
    match group {
        [b'A', rest @ ..] => rest.len() == 4 && are_digits(rest),
        [b'Q', rest @ ..] => rest.len() == 4 && are_digits(rest),
        _ => false,
    }
}

fn is_mark(group: &[u8]) -> bool
    ensures { result ≡ spec.is_mark group.now }
{
    group == b"AUTO".as_slice() || group == b"COR".as_slice()
}

fn other_class(group: &[u8]) -> Class
    ensures { result ≡ spec.other_class group.now }
{
    if is_wind(group) {
        Class::Wind
    } else if is_runway(group) {
        Class::Runway
    } else if is_weather(group) {
        Class::Weather
    } else if is_temperature(group) {
        Class::Temperature
    } else if is_altimeter(group) {
        Class::Altimeter
    } else if is_mark(group) {
        Class::Mark
    } else {
        Class::Unread
    }
}

// The class of a group whose visibility and sky are `elements`.
fn class_by(elements: Elements, group: &[u8], next: &[u8]) -> Class
    ensures { result ≡ spec.class_by elements group.now next.now }
{
    if is_visibility(elements, group, next) {
        Class::Visibility
    } else if is_shaped(elements.sky) {
        Class::Sky
    } else {
        other_class(group)
    }
}

#[tactic(auto, unfolding(crate::specs::Class::class_of))]
fn class_of(group: &[u8], next: &[u8]) -> Class
    ensures { result ≡ spec.class_of group.now next.now }
{
    class_by(elements_of(group), group, next)
}

/// Returns the class of group number `n`, counted from 1.
pub fn class_at(groups: &Groups<'_>, n: usize) -> Class
    requires low { 1 ≤ n }
    requires high { n ≤ length groups.now }
    ensures { result ≡ spec.class_of (slice_index_or groups.now (n - 1) []) (first_of (drop n groups.now)) }
{
    class_of(groups.group(n), first_of(&groups.as_slice()[n..]))
}

fn is_unread(class: Class) -> bool
    ensures { result ≡ spec.is_unread class }
{
    match class {
        Class::Unread => true,
        _ => false,
    }
}

/// Returns true if a group with these elements has class `Unread`.
#[tactic(auto, unfolding(crate::specs::Class::class_of))]
pub(crate) fn is_unread_by(elements: Elements, group: &[u8], next: &[u8]) -> bool
    requires { elements ≡ elements_of group.now }
    ensures { result ≡ spec.is_unread (spec.class_of group.now next.now) }
{
    is_unread(class_by(elements, group, next))
}

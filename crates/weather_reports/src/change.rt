ghost use Rattle.std.specs.Prelude.{◌≡◌};
ghost use Rattle.weather_reports.specs.Words as spec;
ghost use Rattle.weather_reports.specs.Words.{change_of};

use crate::forecast::PartKind;
use desk_time::digit;

// The kinds of change words.
#[derive(Clone, Copy)]
pub(crate) enum Change {
    // `FM` and six characters, of which the first is a digit: a part from that moment on.
    At([u8; 6]),
    // `BECMG` or `TEMPO`: a part of that kind, whose period follows.
    During(PartKind),
    // `PROB30` or `PROB40`: a part that may hold. Its period follows, possibly after `TEMPO`.
    Chance,
    // Malformed: `FM`, a digit, and not six characters in all after `FM`; or `PROB` without 30 or 40.
    Misshaped,
}

pub(crate) fn is_amended(group: &[u8]) -> bool
    ensures { result ≡ spec.is_amended group.now }
{
    group == b"AMD".as_slice()
}

pub(crate) fn is_corrected(group: &[u8]) -> bool
    ensures { result ≡ spec.is_corrected group.now }
{
    group == b"COR".as_slice()
}

pub(crate) fn is_modifier(group: &[u8]) -> bool
    ensures { result ≡ spec.is_modifier group.now }
{
    is_amended(group) || is_corrected(group)
}

pub(crate) fn is_nil(group: &[u8]) -> bool
    ensures { result ≡ spec.is_nil group.now }
{
    group == b"NIL".as_slice()
}

pub(crate) fn is_cancelled(group: &[u8]) -> bool
    ensures { result ≡ spec.is_cancelled group.now }
{
    group == b"CNL".as_slice()
}

pub(crate) fn is_remarks(group: &[u8]) -> bool
    ensures { result ≡ spec.is_remarks group.now }
{
    group == b"RMK".as_slice()
}

pub(crate) fn is_tempo(group: &[u8]) -> bool
    ensures { result ≡ spec.is_tempo group.now }
{
    group == b"TEMPO".as_slice()
}

fn moment_word(digits: &[u8]) -> Change
    ensures { result ≡ spec.moment_word digits.now }
{
    match digits {
        [a, b, c, d, e, f] => Change::At([*a, *b, *c, *d, *e, *f]),
        _ => Change::Misshaped,
    }
}

fn chance_word(percent: &[u8]) -> Change
    ensures { result ≡ spec.chance_word percent.now }
{
    if percent == b"30".as_slice() || percent == b"40".as_slice() {
        Change::Chance
    } else {
        Change::Misshaped
    }
}

fn period_word(group: &[u8]) -> Option<Change>
    ensures { result ≡ spec.period_word group.now }
{
    if group == b"BECMG".as_slice() {
        Some(Change::During(PartKind::Becoming))
    } else if is_tempo(group) {
        Some(Change::During(PartKind::Tempo))
    } else {
        None
    }
}

fn other_word(group: &[u8]) -> Option<Change>
    ensures { result ≡ spec.other_word group.now }
{
    match group {
        [b'P', b'R', b'O', b'B', percent @ ..] => Some(chance_word(percent)),
        [_, _, _, _, ..] => period_word(group),
        _ => None,
    }
}

// The kind of change word that a group is, if it is one.
#[tactic(auto, unfolding(crate::specs::Words::change_of))]
pub(crate) fn change_of(group: &[u8]) -> Option<Change>
    ensures { result ≡ change_of group.now }
{
    match group {
        [b'F', b'M', first, ..] if digit(*first).is_some() => Some(moment_word(&group[2..])),
        _ => other_word(group),
    }
}

fn is_chance(change: Option<Change>) -> bool
    ensures { result ≡ spec.is_chance change }
{
    match change {
        Some(Change::Chance) => true,
        _ => false,
    }
}

// The same, given the group before it. `TEMPO` after `PROB30` or `PROB40` belongs to that word.
pub(crate) fn change_after(before: &[u8], group: &[u8]) -> Option<Change>
    ensures { result ≡ spec.change_after before.now group.now }
{
    if is_tempo(group) && is_chance(change_of(before)) {
        None
    } else {
        change_of(group)
    }
}

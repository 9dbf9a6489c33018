ghost use Rattle.std.specs.Prelude.{◌≡◌, ◌≤◌, ◌<◌, [], map, take, length, false, IfSome};
ghost use Rattle.std.specs.List.{list_any, slice_index_or};
ghost use Rattle.records.specs.Faults as spec;
ghost use Rattle.records.specs.Marks.{marks_of, IsIndex};
ghost use Rattle.records.specs.declared.record.Record.{Record as Held};

use crate::kinds::{key_of, kind_of};
use crate::marks::{Firsts, Marks, place_at};
use crate::record::{KeptAlert, KeptReport, Record};
use asks::KeptReply;
use desk_time::Minute;
use plan::{Release, is_active};

fn are_of_one_row(one: &Record, two: &Record) -> bool
    ensures { result ≡ spec.is_same_row one.now two.now }
{
    let (one, two) = (one.lent(), two.lent());
    kind_of(&one) == kind_of(&two) && key_of(&one) == key_of(&two)
}

// Returns true if two reports have the same text and were observed or issued at the same minute.
fn is_same_report(
    one: &KeptReport,
    two: &KeptReport,
    minute_of_one: Minute,
    minute_of_two: Minute,
) -> bool
    requires one { minute_of_one ≡ spec.minute_of one.now }
    requires two { minute_of_two ≡ spec.minute_of two.now }
    ensures { result ≡ spec.is_same_report one.now two.now }
{
    one.text.bytes() == two.text.bytes() && minute_of_one == minute_of_two
}

fn is_same_request(one: &KeptReply, two: &KeptReply) -> bool
    ensures { result ≡ spec.is_same_request one.now two.now }
{
    one.actor.bytes() == two.actor.bytes() && one.number == two.number
}

fn is_idle(release: &Release, alert: &KeptAlert) -> bool
    ensures { result ≡ spec.is_idle release.now alert.now }
{
    release.id == alert.release && !is_active(release.phase)
}

fn are_at_odds(one: &Record, two: &Record, marks_of_one: Marks, marks_of_two: Marks) -> bool
    requires one { marks_of_one ≡ marks_of one.now }
    requires two { marks_of_two ≡ marks_of two.now }
    ensures { result ≡ spec.are_at_odds one.now two.now }
{
    match (one, two) {
        (Record::Report(a), Record::Report(b)) => {
            is_same_report(a, b, marks_of_one.other.0, marks_of_two.other.0)
        }
        (Record::Kept(a), Record::Kept(b)) => is_same_request(a, b),
        (Record::Release(release), Record::Alert(alert)) => is_idle(release, alert),
        (Record::Alert(alert), Record::Release(release)) => is_idle(release, alert),
        _ => false,
    }
}

fn is_bad_pair(one: &Record, two: &Record, marks_of_one: Marks, marks_of_two: Marks) -> bool
    requires one { marks_of_one ≡ marks_of one.now }
    requires two { marks_of_two ≡ marks_of two.now }
    ensures { result ≡ spec.is_bad_pair one.now two.now }
{
    are_of_one_row(one, two) || are_at_odds(one, two, marks_of_one, marks_of_two)
}

// Returns the marks of the record at a place.
fn marks_at(marks: &[Marks], place: usize, records: &[Record]) -> Marks
    requires same { marks.now ≡ map marks_of records.now }
    requires within { place < length records.now }
    ensures { (d : Held) → result ≡ marks_of (slice_index_or records.now place d) }
{
    marks[place]
}

// Returns a place before which no record conflicts with one that has these marks.
fn start_for(records: &[Record], firsts: &Firsts, marks: Marks, place: usize) -> usize
    requires { IsIndex firsts.now.entries (map marks_of records.now) }
    ensures bound { result ≤ place }
    ensures none { (r : Held) → marks ≡ marks_of r → list_any (spec.is_bad_pair r) (take result records.now) ≡ false }
{
    let own = place_at(firsts, marks.own).unwrap_or(place);
    let other = place_at(firsts, marks.other).unwrap_or(place);
    own.min(other).min(place)
}

// Returns the place of the first record before `end` that conflicts with another one. No record before `start` does.
fn first_against(
    records: &[Record],
    marks: &[Marks],
    held: &Record,
    marks_of_held: Marks,
    start: usize,
    end: usize,
) -> Option<usize>
    requires same { marks.now ≡ map marks_of records.now }
    requires held { marks_of_held ≡ marks_of held.now }
    requires within { end ≤ length records.now }
    requires before { start ≤ end }
    requires none { list_any (spec.is_bad_pair held.now) (take start records.now) ≡ false }
    ensures value { result ≡ spec.place_of (spec.is_bad_pair held.now) (take end records.now) }
    ensures bound { IfSome result (λ place. place < end) }
{
    for place in start..end {
        let others = marks_at(marks, place, records);
        if is_bad_pair(held, &records[place], marks_of_held, others) {
            return Some(place);
        }
    }
    None
}

/// Returns the places of the first record that conflicts with an earlier one, and of the earliest such one.
pub(crate) fn bad_pair(
    records: &[Record],
    marks: &[Marks],
    firsts: &Firsts,
) -> Option<(usize, usize)>
    requires same { marks.now ≡ map marks_of records.now }
    requires index { IsIndex firsts.now.entries (map marks_of records.now) }
    ensures value { result ≡ spec.pair_after spec.is_bad_pair [] records.now }
    ensures bound { IfSome result (λ places. (places.0 < length records.now) × (places.1 < length records.now)) }
{
    for (place, record) in records.iter().enumerate() {
        let own = marks_at(marks, place, records);
        let start = start_for(records, firsts, own, place);
        if let Some(two) = first_against(records, marks, record, own, start, place) {
            return Some((place, two));
        }
    }
    None
}

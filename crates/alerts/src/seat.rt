ghost use Rattle.std.specs.Prelude.{◌≡◌, ◌∷◌, []};
ghost use Rattle.alerts.specs.Ringing as spec;
ghost use Rattle.alerts.specs.Ringing.{AreRungFor, IsRungFor, due, hung, hung_all};

use crate::notices::Notice;
use crate::seating::is_sitter;
use crate::{Bell, Seating};
use desk_io::Failed;

/// A bell of a ringer: its place, from 0, how many notices it has received, and whether it stays.
#[derive(Drop)]
pub(crate) struct Seat<B> {
    pub place: u64,
    pub bell: B,
    pub heard: u64,
    pub stays: bool,
}

/// A bell that failed and receives nothing more.
#[derive(Drop)]
pub struct Dropped<B> {
    /// The place among the bells that were handed in, from 0.
    pub place: u64,
    pub bell: B,
    /// How many notices the bell received. The count stops at 2^64 - 1.
    pub heard: u64,
}

// Returns true if a bell of this person, or of `*`, receives the notice.
fn concerns<S: Seating>(seating: &S, person: &[u8], notice: &Notice) -> bool
    ensures { result ≡ spec.concerns (S.sitter_of seating.now) person.now notice.now }
{
    person == b"*".as_slice() || is_sitter(person, seating.sitter_of(notice.desk.bytes()))
}

#[tactic(auto, using(crate::proofs::RungLaws::passed, crate::proofs::RungLaws::unheard, crate::proofs::RungLaws::rings, crate::proofs::RungLaws::fails))]
fn ring_one<B: Bell, S: Seating>(seat: &mut Seat<B>, seating: &S, notice: &Notice)
    ensures { IsRungFor (due (S.sitter_of seating.now) (notice.now ∷ [])) (hung B.seen seat.old)
        (hung B.seen seat.new) }
{
    if !seat.stays {
        return;
    }
    if !concerns(seating, seat.bell.desk().bytes(), notice) {
        return;
    }
    let sitter = seating.sitter_of(notice.desk.bytes());
    match seat.bell.ring_at(notice, sitter) {
        Ok(()) => seat.heard = seat.heard.saturating_add(1),
        Err(Failed) => seat.stays = false,
    }
}

// Delivers the notices that concern the bell, in order, until it fails. It is then dropped and receives nothing more.
fn ring_seat<B: Bell, S: Seating>(seat: &mut Seat<B>, seating: &S, notices: &[Notice])
    ensures { IsRungFor (due (S.sitter_of seating.now) notices.now) (hung B.seen seat.old) (hung B.seen seat.new) }
{
    for notice in notices {
        ring_one(seat, seating, notice);
    }
}

/// Delivers to each bell the notices that concern it.
pub(crate) fn ring_seats<B: Bell, S: Seating>(
    seats: &mut [Seat<B>],
    seating: &S,
    notices: &[Notice],
)
    ensures { AreRungFor (due (S.sitter_of seating.now) notices.now) (hung_all B.seen seats.old)
        (hung_all B.seen seats.new) }
{
    for seat in seats.iter_mut() {
        ring_seat(seat, seating, notices);
    }
}

ghost use Rattle.std.specs.Prelude.{◌≡◌, ◌<◌, ◌≤◌, ◌+◌, ◌++◌, ◌∷◌, [], map, vec_len, vec_capacity, IfOk, IfErr};
ghost use Rattle.alerts.specs.Ringing.{AreRung, AreRungFor, due, hung, hung_all, fresh_from, staying, dropped, dropped_seen};

use crate::notices::Notice;
use crate::seat::{Dropped, Seat, ring_seats};
use crate::{Bell, Namesakes, Seating};
use desk_io::OutOfMemory;
use std::alloc::Global;
use std::collections::VecDeque;
use std::marker::Model;

/// The bells that are handed back because memory ran out.
#[derive(Drop)]
pub struct Unhung<B> {
    pub bells: Vec<B>,
}

// Reserved room for the bells: in their seats, and for when they are handed back.
#[derive(Drop)]
struct Rooms<B> {
    seats: Vec<Seat<B>>,
    bells: Vec<B>,
    gone: Vec<Dropped<B>>,
}

/// Delivers notices to bells. It allocates everything it needs when it is made.
#[derive(Drop)]
pub struct Ringer<B> {
    seats: Vec<Seat<B>>,
    bells: Vec<B>,
    gone: Vec<Dropped<B>>,
}

impl<B> Model for Ringer<B> {
    ghost use Rattle.std.specs.Prelude.{◌≡◌, ◌≤◌, List, [], vec_len, vec_capacity};
    ghost use Rattle.alerts.specs.declared.seat.Seat.{Seat};

    ghost Value = { List (Seat B) };

    ghost view = { λ r. r.seats.items };

    ghost invariant = { λ r. (r.bells.items ≡ []) × (r.gone.items ≡ []) × (vec_len r.bells ≡ 0) × (vec_len r.gone ≡ 0)
        × (vec_len r.seats ≤ vec_capacity r.bells) × (vec_len r.seats ≤ vec_capacity r.gone) };
}

fn room_for<B: Drop>(alloc: Global, count: usize) -> Result<Rooms<B>, OutOfMemory>
    ensures seats { IfOk result (λ r. (r.seats.items ≡ []) × (vec_len r.seats ≡ 0) × (count ≤ vec_capacity r.seats)) }
    ensures bells { IfOk result (λ r. (r.bells.items ≡ []) × (vec_len r.bells ≡ 0) × (count ≤ vec_capacity r.bells)) }
    ensures gone { IfOk result (λ r. (r.gone.items ≡ []) × (vec_len r.gone ≡ 0) × (count ≤ vec_capacity r.gone)) }
{
    Ok(Rooms {
        seats: Vec::with_capacity(alloc, count)?,
        bells: Vec::with_capacity(alloc, count)?,
        gone: Vec::with_capacity(alloc, count)?,
    })
}

// Puts the bells into seats, each with its index.
fn seated<B: Bell + Drop>(bells: Vec<B>, mut seats: Vec<Seat<B>>) -> Vec<Seat<B>>
    requires empty { seats.items ≡ [] }
    requires none { vec_len seats ≡ 0 }
    requires room { vec_len bells ≤ vec_capacity seats }
    ensures bells { hung_all B.seen result.items ≡ fresh_from 0 (map B.seen bells.items) }
    ensures count { vec_len result ≡ vec_len bells }
{
    let mut left = VecDeque::from(bells);
    while let Some(bell) = left.pop_front() {
        let place = seats.len() as u64;
        seats.push_reserved(Seat {
            place,
            bell,
            heard: 0,
            stays: true,
        });
    }
    seats
}

fn ringer_in<B: Bell + Drop>(rooms: Rooms<B>, bells: Vec<B>) -> Ringer<B>
    requires seats { (rooms.seats.items ≡ []) × (vec_len rooms.seats ≡ 0)
        × (vec_len bells ≤ vec_capacity rooms.seats) }
    requires bells { (rooms.bells.items ≡ []) × (vec_len rooms.bells ≡ 0)
        × (vec_len bells ≤ vec_capacity rooms.bells) }
    requires gone { (rooms.gone.items ≡ []) × (vec_len rooms.gone ≡ 0) × (vec_len bells ≤ vec_capacity rooms.gone) }
    ensures { hung_all B.seen result ≡ fresh_from 0 (map B.seen bells.items) }
{
    let Rooms {
        seats,
        bells: room,
        gone,
    } = rooms;
    Ringer {
        seats: seated(bells, seats),
        bells: room,
        gone,
    }
}

// Hands back one bell, to those that stayed or to those that were dropped.
fn hand_back<B: Bell + Drop>(seat: Seat<B>, bells: &mut Vec<B>, gone: &mut Vec<Dropped<B>>)
    requires bell_room { vec_len bells.old < vec_capacity bells.old }
    requires gone_room { vec_len gone.old < vec_capacity gone.old }
    ensures bells { map B.seen bells.new.items ≡ map B.seen bells.old.items ++ staying (hung B.seen seat ∷ []) }
    ensures gone { map (dropped_seen B.seen) gone.new.items
        ≡ map (dropped_seen B.seen) gone.old.items ++ dropped (hung B.seen seat ∷ []) }
    ensures bell_count { vec_len bells.new ≤ vec_len bells.old + 1 }
    ensures bell_rest { vec_capacity bells.new ≡ vec_capacity bells.old }
    ensures gone_count { vec_len gone.new ≤ vec_len gone.old + 1 }
    ensures gone_rest { vec_capacity gone.new ≡ vec_capacity gone.old }
{
    let Seat {
        place,
        bell,
        heard,
        stays,
    } = seat;
    if stays {
        bells.push_reserved(bell);
    } else {
        gone.push_reserved(Dropped { place, bell, heard });
    }
}

impl<B: Bell> Ringer<B> {
    /// Delivers the notices in order, each to the bells of its dispatcher and to those of `*`. A bell that fails is
    /// dropped, and the others receive everything. It allocates nothing.
    pub fn ring_all(&mut self, notices: &[Notice])
        ensures { AreRung notices.now (hung_all B.seen self.old) (hung_all B.seen self.new) }
    {
        self.ring_seated(&Namesakes, notices);
    }

    /// Delivers the notices in order, each to the bells of the person who sits at its desk and to those of `*`. A bell
    /// that fails is dropped, and the others receive everything. It allocates nothing.
    pub fn ring_seated<S: Seating>(&mut self, seating: &S, notices: &[Notice])
        ensures { AreRungFor (due (S.sitter_of seating.now) notices.now) (hung_all B.seen self.old)
            (hung_all B.seen self.new) }
    {
        ring_seats(self.seats.as_mut_slice(), seating, notices);
    }
}

impl<B: Bell + Drop> Ringer<B> {
    /// Makes a ringer of these bells, which have received nothing from it yet. If memory runs out, it hands the bells
    /// back.
    pub fn new(alloc: Global, bells: Vec<B>) -> Result<Ringer<B>, Unhung<B>>
        ensures ok { IfOk result (λ r. hung_all B.seen r ≡ fresh_from 0 (map B.seen bells.items)) }
        ensures err { IfErr result (λ u. u.bells ≡ bells) }
    {
        match room_for(alloc, bells.len()) {
            Ok(rooms) => Ok(ringer_in(rooms, bells)),
            Err(OutOfMemory) => Err(Unhung { bells }),
        }
    }

    /// Makes a ringer without bells. It allocates nothing.
    pub fn none(alloc: Global) -> Ringer<B>
        ensures { hung_all B.seen result ≡ [] }
    {
        Ringer {
            seats: Vec::new(alloc),
            bells: Vec::new(alloc),
            gone: Vec::new(alloc),
        }
    }

    /// Hands back the bells that stayed, in order, and those that were dropped, in the order of their places. It
    /// allocates nothing.
    pub fn finish(self) -> (Vec<B>, Vec<Dropped<B>>)
        ensures bells { map B.seen result.0.items ≡ staying (hung_all B.seen self) }
        ensures dropped { map (dropped_seen B.seen) result.1.items ≡ dropped (hung_all B.seen self) }
    {
        let Ringer {
            seats,
            mut bells,
            mut gone,
        } = self;
        let mut left = VecDeque::from(seats);
        while let Some(seat) = left.pop_front() {
            hand_back(seat, &mut bells, &mut gone);
        }
        (bells, gone)
    }
}

ghost use Rattle.std.specs.Prelude.{◌≡◌, map, MatchBool, false};
ghost use Rattle.std.specs.List.{AllByRecursion};
ghost use Rattle.desk.specs.Merge.{IsFresh};
ghost use Rattle.desk.specs.Round.{AreTaken, IsTaken, items_in};
ghost use Rattle.desk.specs.Seen.{desk_seen, DeskGoesOn};

use crate::lanes::Lane;
use crate::settling::Desk;
use alerts::Bell;
use desk_io::OutOfMemory;
use keeper::Keeper;
use std::alloc::Global;
use std::marker::{Brand, Model, PhantomData};

/// The desk and the items with which lanes begin to run. It exists only in contracts: each call of `run_lanes` has
/// its own.
pub trait Beginning {
    ghost use Rattle.desk.specs.Round.{Began};

    ghost began: { Began };
}

impl Beginning for Brand {
    ghost use Rattle.desk.specs.Round.{nowhere};

    ghost began = { nowhere };
}

/// The data under the lock of lanes that run at once: the desk, and each lane with its outcomes so far.
///
/// Whenever the lock is free, the outcomes so far form one history. Stored rows that matched the desk's state at the
/// start match it still.
#[derive(Drop)]
pub struct Round<J: Beginning, K: Keeper, B: Bell> {
    desk: Desk<K, B>,
    lanes: Vec<Lane>,
    // Whether memory ran out. No further item is answered then.
    ended: bool,
    of: PhantomData<J>,
}

impl<J: Beginning, K: Keeper, B: Bell> Model for Round<J, K, B> {
    ghost use Rattle.desk.specs.Round.{RoundShown, round_of, IsRound};
    ghost use Rattle.desk.specs.Seen.{desk_seen};

    ghost Value = { RoundShown };

    ghost view = { λ r. round_of r.desk.board.state r.lanes.items r.ended };

    ghost invariant = { λ r. IsRound J.began (desk_seen K.seen B.seen r.desk) r.lanes.items r.ended };
}

impl<J: Beginning, K: Keeper, B: Bell> Round<J, K, B> {
    /// Starts with lanes that have no outcomes yet.
    pub fn new(desk: Desk<K, B>, lanes: Vec<Lane>) -> Round<J, K, B>
        requires desk { J.began.desk ≡ desk_seen K.seen B.seen desk }
        requires items { J.began.items ≡ map items_in lanes.items }
        requires fresh { AllByRecursion IsFresh lanes.items }
    {
        Round {
            desk,
            lanes,
            ended: false,
            of: PhantomData,
        }
    }

    /// Returns how many items of a lane have an outcome, and how many items it has. `place` counts lanes from 0.
    pub fn lines(&self, place: usize) -> (usize, usize) {
        match self.lanes.get(place) {
            Some(lane) => (lane.done(), lane.items().len()),
            None => (0, 0),
        }
    }

    /// Answers the next item of a lane in the desk's present state. `place` counts lanes from 0. Returns false if no
    /// item was left, or memory ran out now or before. Then the lanes are unchanged.
    pub fn turn(&mut self, alloc: Global, place: usize) -> bool
        ensures taken { MatchBool result (IsTaken place self.old self.new) (self.new.lanes ≡ self.old.lanes) }
    {
        if self.ended || place >= self.lanes.len() || place >= 4_294_967_295 {
            return false;
        }
        let number = place as u32 + 1;
        match self.lanes[place].take_turn(alloc, &mut self.desk, number) {
            Ok(went) => went,
            Err(OutOfMemory) => {
                self.ended = true;
                false
            }
        }
    }

    /// Returns the desk, the lanes, and whether memory ran out.
    pub fn into_parts(self) -> (Desk<K, B>, Vec<Lane>, bool)
        ensures on { DeskGoesOn J.began.desk (desk_seen K.seen B.seen result.0) }
        ensures items { map items_in result.1.items ≡ J.began.items }
        ensures taken { AreTaken J.began (desk_seen K.seen B.seen result.0) result.1.items result.2 }
    {
        let Round {
            desk,
            lanes,
            ended,
            of: _,
        } = self;
        (desk, lanes, ended)
    }
}

ghost use Rattle.std.specs.Prelude.{◌≡◌, ◌==◌, ◌<◌, All, IfOk, IsTrue, OnErr, OnOk, [], length};
ghost use Rattle.std.specs.Option.{option_copied};
ghost use Rattle.desk_io.specs.ById.{AreRising};
ghost use Rattle.kept_replies.specs.Index.{id_of};
ghost use Rattle.kept_replies.specs.Replies as spec;
ghost use Rattle.kept_replies.specs.Requests as asked;
ghost use Rattle.kept_replies.specs.Requests.{FloorsRise, IsFoundFor, IsToldOf};

use crate::by_person::ByPerson;
use crate::floors::floor_at;
use crate::requests::{keep_since, kept_at, key_of, keys_by_person};
use asks::{Floor, Floors, KeptReply};
use desk_io::{ById, Listed, OutOfMemory};
use desk_time::Minute;
use std::alloc::Global;
use std::marker::Model;

/// The kept replies in increasing order of their ids, and the floors of persons in byte order of their names. A reply
/// is looked up by the person and the number of its request. Contracts model the replies, the floors, and whether
/// room for one more reply is reserved.
#[derive(Drop)]
pub struct Replies {
    held: ById<KeptReply>,
    // One key for each reply.
    requests: ByPerson,
    floors: Floors,
    room: bool,
}

impl Model for Replies {
    ghost use Rattle.kept_replies.specs.Replies.{HeldReplies, AreHeld};

    ghost Value = { HeldReplies };

    ghost view = { λ r. record { list = r.held.list; floors = r.floors; room = r.room } };

    ghost invariant = { λ r. AreHeld r.held.list r.held.room r.requests r.floors r.room };
}

impl Replies {
    /// Makes an empty list without floors and without reserved room. It allocates nothing.
    pub fn new(alloc: Global) -> Replies
        ensures { result ≡ spec.replies_of [] [] }
    {
        Replies {
            held: ById::new(alloc),
            requests: ByPerson::new(alloc),
            floors: Listed::new(alloc),
            room: false,
        }
    }

    /// Takes these replies and floors, without reserved room.
    pub fn from_parts(
        alloc: Global,
        kept: Vec<KeptReply>,
        floors: Floors,
    ) -> Result<Replies, OutOfMemory>
        requires rising { AreRising id_of kept.items }
        requires floors { FloorsRise floors }
        ensures { IfOk result (λ r. r ≡ spec.replies_of kept.items floors) }
    {
        let requests = keys_by_person(alloc, kept.as_slice())?;
        Ok(Replies {
            held: ById::from_vec(kept),
            requests,
            floors,
            room: false,
        })
    }

    /// Returns the replies in the order of their ids. It allocates nothing.
    pub fn as_slice(&self) -> &[KeptReply]
        ensures value { result.now ≡ self.now.list }
        ensures rising { AreRising id_of result.now }
    {
        self.held.as_slice()
    }

    /// Returns the number of replies.
    pub fn len(&self) -> usize
        ensures { result ≡ length self.now.list }
    {
        self.held.len()
    }

    /// Returns true if there is no reply.
    pub fn is_empty(&self) -> bool
        ensures { result ≡ (length self.now.list == 0) }
    {
        self.held.is_empty()
    }

    /// Returns the floors in byte order of the names. It allocates nothing.
    pub fn floors(&self) -> &[Floor]
        ensures value { result.now ≡ self.now.floors }
        ensures rising { FloorsRise result.now }
    {
        self.floors.as_slice()
    }

    /// Returns the floors as the list that holds them. It allocates nothing.
    pub fn listed_floors(&self) -> &Floors
        ensures value { result.now ≡ self.now.floors }
        ensures rising { FloorsRise result.now }
    {
        &self.floors
    }

    /// Returns the kept reply to the request of this person and number, by binary search. It allocates nothing.
    pub fn kept_at(&self, actor: &[u8], number: u64) -> Option<&KeptReply>
        ensures value { option_copied result ≡ asked.kept_at actor.now number self.now.list }
        ensures found { IsFoundFor actor.now number self.now.list (option_copied result) }
    {
        kept_at(&self.held, &self.requests, actor, number)
    }

    /// Returns the floor of a person, by binary search. It allocates nothing.
    pub fn floor_at(&self, actor: &[u8]) -> Option<u64>
        ensures value { result ≡ asked.floor_at actor.now self.now.floors }
        ensures told { IsToldOf actor.now self.now.floors result }
    {
        floor_at(self.floors.as_slice(), actor)
    }

    /// Reserves room for one more reply.
    pub fn reserve(&mut self, alloc: Global) -> Result<(), OutOfMemory>
        ensures ok { OnOk result (self.new ≡ spec.with_room self.old) }
        ensures err { OnErr result (self.new ≡ self.old) }
    {
        self.held.reserve(1)?;
        self.requests.reserve(alloc)?;
        self.room = true;
        Ok(())
    }

    /// Adds a reply whose id is above all others, in the reserved room, which is then used up. It allocates nothing.
    pub fn push_reserved(&mut self, reply: KeptReply)
        requires newest { All (λ k. k.id < reply.id) self.old.list }
        requires room { IsTrue self.old.room }
        ensures { self.new ≡ spec.with_reply reply self.old }
    {
        self.requests.put_reserved(key_of(&reply));
        self.held.push_reserved(reply);
        self.room = false;
    }

    /// Removes the replies to requests that were accepted before a moment, and replaces the floors. It allocates
    /// nothing.
    pub fn sweep(&mut self, before: Minute, floors: Floors)
        requires { FloorsRise floors }
        ensures { self.new ≡ spec.with_swept before floors self.old }
    {
        let _ = self.held.as_slice();
        keep_since(&mut self.held, before);
        self.requests.keep_leading(&self.held);
        self.floors = floors;
    }
}

use crate::reply::Done;
use desk_io::{Copied, HasId, Listed, OutOfMemory, Text};
use desk_time::Minute;
use std::alloc::Global;

/// The result of an accepted request, kept in case the request is repeated.
#[derive(Debug, Drop)]
pub struct KeptReply {
    /// The id of the reply.
    pub id: u64,
    /// The name of the person.
    pub actor: Text,
    /// The person's own number for the request.
    pub number: u64,
    /// The SHA-256 of the ask.
    pub digest: [u8; 32],
    /// When the request was accepted.
    pub at: Minute,
    /// What the request did.
    pub done: Done,
}

impl HasId for KeptReply {
    ghost id_of = { λ k. k.id };

    fn id(&self) -> u64 {
        self.id
    }
}

/// The greatest number of a person's requests whose replies were swept.
#[derive(Debug, Drop)]
pub struct Floor {
    /// The name of the person.
    pub actor: Text,
    /// The person's own number for the request.
    pub number: u64,
}

/// The floors of all persons in byte order of their names, without duplicates.
pub type Floors = Listed<Floor>;

impl Copied for KeptReply {
    fn copy(&self, alloc: Global) -> Result<KeptReply, OutOfMemory> {
        Ok(KeptReply {
            id: self.id,
            actor: self.actor.copy(alloc)?,
            number: self.number,
            digest: self.digest,
            at: self.at,
            done: self.done,
        })
    }
}

impl Copied for Floor {
    fn copy(&self, alloc: Global) -> Result<Floor, OutOfMemory> {
        Ok(Floor {
            actor: self.actor.copy(alloc)?,
            number: self.number,
        })
    }
}

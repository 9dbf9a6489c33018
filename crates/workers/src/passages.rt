ghost use Rattle.std.specs.Prelude.{◌∷◌, []};
ghost use Rattle.workers.specs.declared.passages.Passage.TheVariants.{Began, Came, Failed, Went};

use connections::Visited;
use desk_io::Event;
use std::snapshot::Snapshot;

/// What happened at a door. Contracts list these values, and code makes none.
pub enum Passage<D, L> {
    /// The door before the first passage.
    Began(D),
    /// A worker accepted a link.
    Came {
        worker: u32,
        link: L,
    },
    /// The connection of a worker ended. Its link was given back, or dropped if memory ran out.
    Went {
        worker: u32,
        visited: Visited<L>,
        back: bool,
    },
    /// The door failed when a worker asked for a link.
    Failed {
        worker: u32,
    },
}

#[derive(Drop)]
pub(crate) struct Beginning<'a, D> {
    pub(crate) door: &'a D,
}

impl<'a, D, L> Event<Passage<D, L>> for Beginning<'a, D> {
    ghost told = { λ b. Began b.door.now ∷ [] };
}

#[derive(Drop)]
pub(crate) struct Coming<'a, L> {
    pub(crate) worker: u32,
    pub(crate) link: &'a L,
}

impl<'a, D, L> Event<Passage<D, L>> for Coming<'a, L> {
    ghost told = { λ c. Came c.worker c.link.now ∷ [] };
}

#[derive(Drop)]
pub(crate) struct Going<L> {
    pub(crate) worker: u32,
    pub(crate) visited: Snapshot<Visited<L>>,
    pub(crate) back: bool,
}

impl<D, L> Event<Passage<D, L>> for Going<L> {
    ghost told = { λ g. Went g.worker g.visited.value g.back ∷ [] };
}

#[derive(Drop)]
pub(crate) struct Failing {
    pub(crate) worker: u32,
}

impl<D, L> Event<Passage<D, L>> for Failing {
    ghost told = { λ f. Failed f.worker ∷ [] };
}

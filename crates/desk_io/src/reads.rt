ghost use Rattle.std.specs.Prelude.{◌∷◌, []};
ghost use Rattle.desk_io.specs.Reads.{read_as};

use crate::{Event, Failed, SourceRead};

// A read of a source, with its result. A read that succeeded filled the front of a buffer.
#[derive(Drop)]
pub(crate) struct ReadResult<'a> {
    pub(crate) name: &'a str,
    pub(crate) place: u64,
    pub(crate) into: &'a [u8],
    pub(crate) answer: Result<usize, Failed>,
}

impl<'a> Event<SourceRead> for ReadResult<'a> {
    ghost told = { λ r. read_as r.name.now r.place r.into.now r.answer ∷ [] };
}

ghost use Rattle.std.specs.Prelude.{◌≡◌};
ghost use Rattle.std.specs.Option.{option_copied};
ghost use Rattle.relief.specs.Refusals.{IsMemory, Passes, bad_relief, not_offered_to, not_sitting};
ghost use Rattle.relief.specs.Roster.{has_dispatcher};

use crate::lines::{RosterLine, is_dispatcher_role};
use desk_io::{Copied, OutOfMemory, Text};
use ops_tables::Tables;
use std::alloc::Global;

/// Why an offer, an acceptance or a call for a desk fails. The comment of each refusal begins with its number.
#[derive(Debug, Drop)]
pub enum ReliefFault {
    /// 31: another person sits at the desk.
    NotSitting { sitter: Text },
    /// 32: no dispatcher has the desk's name.
    NoSuchDesk,
    /// 33: the desk isn't offered to the person. `offered` is the person to whom it is offered, if any.
    NotOffered { offered: Option<Text> },
    /// 34: the desk is offered to somebody who isn't a dispatcher, or who sits there already.
    BadRelief,
    /// Memory ran out.
    OutOfMemory,
}

impl From<OutOfMemory> for ReliefFault {
    ghost from_gives = { λ _ fault. IsMemory fault };

    fn from(_: OutOfMemory) -> Self {
        ReliefFault::OutOfMemory
    }
}

fn has_dispatcher(tables: &Tables, name: &[u8]) -> bool
    ensures { result ≡ has_dispatcher tables.now name.now }
{
    match tables.actor(name) {
        None => false,
        Some(person) => is_dispatcher_role(person.role()),
    }
}

/// Refuses (31) unless this person sits at the desk.
pub(crate) fn sits(alloc: Global, line: &RosterLine, person: &[u8]) -> Result<(), ReliefFault>
    ensures { Passes result (not_sitting person.now line.now) }
{
    if line.sitter.bytes() == person {
        return Ok(());
    }
    Err(ReliefFault::NotSitting {
        sitter: line.sitter.copy(alloc)?,
    })
}

/// Refuses (34) unless the desk can go to this person: another dispatcher than the one who sits there.
pub(crate) fn may_go(line: &RosterLine, to: &[u8], tables: &Tables) -> Result<(), ReliefFault>
    ensures { Passes result (bad_relief tables.now to.now line.now) }
{
    if !has_dispatcher(tables, to) || line.sitter.bytes() == to {
        return Err(ReliefFault::BadRelief);
    }
    Ok(())
}

/// Refuses (33) unless the desk is offered to this person.
pub(crate) fn is_offered(alloc: Global, line: &RosterLine, person: &[u8]) -> Result<(), ReliefFault>
    ensures { Passes result (not_offered_to person.now line.now.offered) }
{
    match &line.offered {
        None => Err(ReliefFault::NotOffered { offered: None }),
        Some(to) if to.bytes() == person => Ok(()),
        Some(to) => Err(ReliefFault::NotOffered {
            offered: Some(to.copy(alloc)?),
        }),
    }
}

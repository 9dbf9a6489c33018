ghost use Rattle.compact_json.specs.Elements.{data_at};
ghost use Rattle.desk_json.specs.Faults as spec;
ghost use Rattle.desk_json.specs.Faults.{Answers};

use crate::bad_call::CallFault;
use crate::fields::{moment_of, short_of};
use compact_json::Element;
use desk_io::Text;
use desk_time::Minute;
use std::alloc::Global;

/// Who sends a relief line or a planned line, when, and with which key.
#[derive(Drop)]
pub(crate) struct Sender {
    pub(crate) at: Minute,
    pub(crate) actor: Text,
    pub(crate) key: Text,
}

/// Reads the sender of a line.
pub(crate) fn sender_of(alloc: Global, value: Element<'_>) -> Result<Sender, CallFault>
    ensures { Answers (spec.sender_of (data_at value.entry)) result }
{
    let actor = short_of(alloc, "actor", value)?;
    let at = moment_of(alloc, "at", value)?;
    let key = short_of(alloc, "key", value)?;
    Ok(Sender { at, actor, key })
}

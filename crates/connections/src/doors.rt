ghost use Rattle.std.specs.Prelude.{◌≡◌};
ghost use Rattle.connections.specs.Doors as spec;

use crate::serving::Served;

/// How serving connections ended.
#[derive(Clone, Copy, Debug, PartialEq, Eq)]
pub enum ServeEnd {
    /// All connections that were asked for were served.
    Done,
    /// The door failed, and counted the fault.
    DoorFault,
    /// All connections were served, but the clock failed for at least one of them.
    ClockFault,
    /// Memory ran out, before the first connection or for at least one of them.
    OutOfMemory,
}

// Whether memory ran out for a connection so far, and whether the clock failed for one.
#[derive(Clone, Copy, Debug)]
pub(crate) struct Met {
    pub memory: bool,
    pub clock: bool,
}

impl Met {
    pub fn after(self, served: Served) -> Met
        ensures { result ≡ spec.met_after self served }
    {
        match served {
            Served::OutOfMemory => Met {
                memory: true,
                clock: self.clock,
            },
            Served::ClockFault => Met {
                memory: self.memory,
                clock: true,
            },
            _ => self,
        }
    }
}

// Out of memory takes precedence over a fault of the clock.
pub(crate) fn end_of(met: Met) -> ServeEnd
    ensures { result ≡ spec.end_of met }
{
    if met.memory {
        ServeEnd::OutOfMemory
    } else if met.clock {
        ServeEnd::ClockFault
    } else {
        ServeEnd::Done
    }
}

// Out of memory takes precedence over a fault of the door.
pub(crate) fn end_at_door(met: Met) -> ServeEnd
    ensures { result ≡ spec.end_at_door met }
{
    if met.memory {
        ServeEnd::OutOfMemory
    } else {
        ServeEnd::DoorFault
    }
}

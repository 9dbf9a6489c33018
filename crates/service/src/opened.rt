ghost use Rattle.desk.specs.Seen.{DeskSeen};
ghost use Rattle.desk_net.specs.Seen.{ClockSeen};

use std::marker::Brand;

/// The desk and the clock at the opening of a shared desk, to which the contracts of all turns refer. No value of it
/// exists.
pub trait Opened {
    ghost desk: { DeskSeen };

    ghost clock: { ClockSeen };
}

impl Opened for Brand {
    ghost use Rattle.service.specs.Opened.{no_clock, no_desk};

    ghost desk = { no_desk };

    ghost clock = { no_clock };
}

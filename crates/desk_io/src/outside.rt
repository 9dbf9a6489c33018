ghost use Rattle.std.specs.Prelude.{◌≡◌, ◌<◌, ◌≤◌, ◌++◌, ◌∷◌, [], length, IfOk, OnErr};
ghost use Rattle.desk_io.specs.Told.{NextOf, OnSource, Puts, TellsAsBefore};
ghost use Rattle.desk_io.specs.Health.{GoesOn, HasCause, HasFailedWhere};
ghost use Rattle.desk_io.specs.Reads.{read_as};
ghost use Rattle.desk_io.specs.Seen.{ShelfSeen, SinkSeen, ShelfGoesOn, Holds};
ghost use Rattle.desk_io.specs.declared.faults.PutFault.TheVariants.{Failed as PutFailed};

use crate::{Failed, PutFault};

/// Named sources of bytes. A sound shelf fails, and counts a fault, only if it doesn't hold the requested name.
pub trait Shelf {
    /// The sources, if contracts know them. The sources of a shelf over real files are unknown. Then, for every shelf,
    /// its reads so far, in order, each with the bytes that it returned, and the shelf's health.
    ghost seen: { Self → ShelfSeen };

    /// Copies bytes of a source, from `place` on, to the front of `into` and returns their number. The number is 0
    /// exactly at the end of the source. An unknown name is a fault.
    fn next(&mut self, name: &str, place: u64, into: &mut [u8]) -> Result<usize, Failed>
        requires { 0 < length into.old }
        ensures bound { IfOk result (λ n. n ≤ length into.old) }
        ensures given { IfOk result
            (λ n. OnSource (seen self.old).sources name.now (λ bytes. NextOf bytes place n into.new)) }
        ensures reads { (seen self.new).reads ≡ (seen self.old).reads ++ read_as name.now place into.new result ∷ [] }
        ensures on { ShelfGoesOn (Holds (seen self.old) name.now) (seen self.old) (seen self.new) }
        ensures cause { OnErr result
            (HasFailedWhere (Holds (seen self.old) name.now) (seen self.old).health (seen self.new).health) };

    /// Returns the number of failures so far. It never falls.
    fn faults(&self) -> u64
        ensures { result ≡ (seen self.now).health.faults };
}

/// An output to which bytes are appended.
pub trait Sink {
    /// Everything appended so far, if contracts know it, and the sink's health. No call changes whether they know it.
    ghost seen: { Self → SinkSeen };

    /// Appends all of the bytes. After `Failed` a prefix of them was appended, after `OutOfMemory` nothing.
    fn write(&mut self, bytes: &[u8]) -> Result<(), PutFault>
        ensures appends { Puts (seen self.old).content (seen self.new).content bytes.now result }
        ensures telling { TellsAsBefore (seen self.old).content (seen self.new).content }
        ensures on { GoesOn (seen self.old).health (seen self.new).health }
        ensures cause { HasCause PutFailed (seen self.old).health (seen self.new).health result };

    /// Returns the number of failures so far. It never falls.
    fn faults(&self) -> u64
        ensures { result ≡ (seen self.now).health.faults };
}

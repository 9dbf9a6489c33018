ghost use Rattle.std.specs.Prelude.{◌≡◌, ◌++◌, ◌∷◌, [], OnOk, OnErr};
ghost use Rattle.std.specs.Option.{option_map};
ghost use Rattle.alerts.specs.Seen.{BellSeen};
ghost use Rattle.desk_io.specs.Health.{GoesOn, HasFailed};

use crate::notices::Notice;
use desk_io::{Failed, Text};

/// A receiver of notices about alerts, for a person or for all.
pub trait Bell {
    /// The person for whom the bell rings, the notices received so far, if contracts know them, and the bell's health.
    /// Contracts don't know what a bell outside memory has received.
    ghost seen: { Self → BellSeen };

    /// Returns the person for whom the bell rings, or `*` if it rings for all.
    fn desk(&self) -> &Text
        ensures { result.now ≡ (seen self.now).desk };

    /// Delivers a notice. If the call fails, the bell hasn't received it.
    fn ring(&mut self, notice: &Notice) -> Result<(), Failed>
        ensures desk { (seen self.new).desk ≡ (seen self.old).desk }
        ensures ok { OnOk result ((seen self.new).heard
            ≡ option_map (λ all. all ++ notice.now ∷ []) (seen self.old).heard) }
        ensures err { OnErr result ((seen self.new).heard ≡ (seen self.old).heard) }
        ensures on { GoesOn (seen self.old).health (seen self.new).health }
        ensures cause { OnErr result (HasFailed (seen self.old).health (seen self.new).health) };

    /// Delivers a notice while this person sits at its desk, as `ring` does. A bell may show who it is.
    fn ring_at(&mut self, notice: &Notice, _sitter: Option<&[u8]>) -> Result<(), Failed>
        ensures desk { (seen self.new).desk ≡ (seen self.old).desk }
        ensures ok { OnOk result ((seen self.new).heard
            ≡ option_map (λ all. all ++ notice.now ∷ []) (seen self.old).heard) }
        ensures err { OnErr result ((seen self.new).heard ≡ (seen self.old).heard) }
        ensures on { GoesOn (seen self.old).health (seen self.new).health }
        ensures cause { OnErr result (HasFailed (seen self.old).health (seen self.new).health) }
    {
        self.ring(notice)
    }

    /// Returns how often the bell has failed. The count never decreases.
    fn faults(&self) -> u64
        ensures { result ≡ (seen self.now).health.faults };
}

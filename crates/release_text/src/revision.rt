ghost use Rattle.std.specs.Prelude.{◌≡◌, IfOk};
ghost use Rattle.plan.specs.Check.{IsPlan};
ghost use Rattle.release_text.specs.Revisions.{IsWritten, revision_digest};

use crate::digest::digest_of;
use crate::written::text_of;
use desk_io::{OutOfMemory, Text};
use plan::Revision;
use std::alloc::Global;

/// The text of a revision and its digest.
#[derive(Debug, Drop)]
pub struct Written {
    /// The text that dispatcher and captain sign.
    pub text: Text,
    /// The SHA-256 of the text.
    pub digest: [u8; 32],
}

/// Writes the text of a revision and computes its digest (14 CFR 121.687). Both signatures name this digest (14 CFR
/// 121.663).
#[tactic(auto, unfolding(crate::specs::Revisions::text_digest))]
pub fn written_text(alloc: Global, revision: &Revision) -> Result<Written, OutOfMemory>
    requires { IsPlan revision.now.plan }
    ensures { IfOk result (λ w. IsWritten revision.now w) }
{
    let text = text_of(alloc, &revision.plan, revision.number, &revision.attached)?;
    let digest = digest_of(text.bytes());
    Ok(Written { text, digest })
}

/// Returns the SHA-256 of a revision's text.
pub fn revision_digest(alloc: Global, revision: &Revision) -> Result<[u8; 32], OutOfMemory>
    requires { IsPlan revision.now.plan }
    ensures { IfOk result (λ d. d ≡ revision_digest revision.now) }
{
    Ok(written_text(alloc, revision)?.digest)
}

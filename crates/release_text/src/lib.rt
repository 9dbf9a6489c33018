//! The text of a release, the weather reports attached to it, and its digest (14 CFR 121.687).
#![tactic(auto)]

mod airports;
mod attached;
mod digest;
mod revision;
mod unattached;
mod written;

pub use attached::attach;
pub use digest::{digest_of, digits_of};
pub use revision::{Written, revision_digest, written_text};
pub use unattached::newer;
pub use written::text_of;

//! Stored releases and findings as JSON, written and read back. A release is read only if it is valid.
#![tactic(auto)]

mod cuts;
mod findings;
mod kept;
mod phases;
mod releases;
mod revisions;
mod rows;
mod version;

pub use findings::{findings_value, read_finding, read_findings, read_said_finding};
pub use phases::read_phase;
pub use releases::read_release;
pub use rows::release_value;
pub use version::Version;

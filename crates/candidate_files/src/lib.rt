//! Reads a file of candidates for the alternates of a plan, up to its first bad record.
#![tactic(auto)]

mod fields;
mod records;

pub use fields::CandidateWhy;
pub use records::{BadCandidate, read_candidates};

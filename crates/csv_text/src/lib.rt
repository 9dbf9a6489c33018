//! Reads the records of a text of comma-separated values (RFC 4180) one after another.
#![tactic(auto)]

mod records;
mod steps;

pub use records::Records;

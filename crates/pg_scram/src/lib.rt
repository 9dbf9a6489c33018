//! SCRAM-SHA-256 without channel binding, the client's side (RFC 5802, RFC 7677).
#![tactic(auto)]

mod exchange;
mod keyed;
#[cfg(test)]
mod tests;

pub use exchange::{Answer, Login, ScramFault, client_final, client_first, is_verified};
pub use keyed::{hmac, salted};

//! The kept replies, looked up by the person and the number of a request, and each person's floor of swept numbers.
#![tactic(auto)]

mod by_person;
mod floors;
mod replies;
mod requests;

pub use replies::Replies;

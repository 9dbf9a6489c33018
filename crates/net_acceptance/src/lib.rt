//! Tests of the outside of the service, in memory and over 127.0.0.1, and of requests in every cut, their routes and
//! responses. What heads and bodies come to is tested by the cases of `scenarios`. And two threads that add to one list
//! by turns, and what that list has afterwards.
#![tactic(auto)]

mod adding;
#[cfg(test)]
mod clocks;
#[cfg(test)]
mod cuts;
#[cfg(test)]
mod doors;
#[cfg(test)]
mod hundreds;
#[cfg(test)]
mod links;
mod record;
#[cfg(test)]
mod responses;
#[cfg(test)]
mod routes;
#[cfg(test)]
mod streams;

pub use adding::{add_all, added_by_two};
pub use record::{Mark, Record};

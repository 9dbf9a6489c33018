//! Keeps the desk's rows in one table of a PostgreSQL database.
#![tactic(auto)]

mod answer_stream;
mod batch;
mod dial;
mod ending;
mod login;
mod opening;
mod pg_keeping;
mod rows;
#[cfg(test)]
mod tests;

pub use answer_stream::{ANSWER_MILLIS, AnswerStream, BYTES_A_MILLI};
pub use dial::{Dial, TcpDial};
pub use ending::Cause;
pub use opening::Account;
pub use pg_keeping::PgKeeper;

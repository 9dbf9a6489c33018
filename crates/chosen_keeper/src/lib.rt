//! Chooses where the desk's rows are kept: one of two keepers, and the file that names a server.
#![tactic(auto)]

mod conf;
mod either;
#[cfg(test)]
mod tests;

pub use conf::{Conf, ConfFault, Key, read_conf, read_password};
pub use either::{EitherKeeper, ServerKeeper};

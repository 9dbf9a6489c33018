//! Keeps the desk's rows in one table of a database file that sqlite3 can read.
#![tactic(auto)]

mod file;
mod leaving;
mod table;
mod trouble;

pub use file::{KeeperOver, SqliteKeeper};

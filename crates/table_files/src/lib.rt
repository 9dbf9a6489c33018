//! Reads the thirteen operations tables from their CSV files and reports the first bad record. Reads the header of any
//! CSV file.
#![tactic(auto)]

mod faults;
mod fields;
mod files;
mod filling;
mod formats;
mod reading;
mod records;
mod settings;
mod whole;

pub use faults::{BadTable, TableFault, TableWhy};
pub use reading::has_header;
pub use whole::read_tables;

//! The stored rows of the desk: records to rows and back, and the tests that rows fit together.
#![tactic(auto)]

mod alert_rows;
mod alone;
mod bodies;
mod checking;
mod counters;
mod faults;
mod fitting;
mod kept_rows;
mod kinds;
mod lent;
mod limits;
mod marks;
mod meta_rows;
mod names;
mod pairs;
mod reading;
mod record;

pub use bodies::row_of;
pub use checking::{Checked, check_rows};
pub use faults::{RowWhy, RowsFault};
pub use lent::{AlertRef, MetaRef, RecordRef, ReportRef};
pub use reading::{RowFault, read_old_row, read_row};
pub use record::{KeptAlert, KeptReport, Meta, Record};

//! Interfaces to files and standard output, and the small types that all crates share: texts, stations, minima, rows
//! and sorted containers, and records of what crossed the edge.
#![tactic(auto)]

mod by_id;
mod faults;
mod keys;
mod listed;
mod memory;
mod outside;
mod pair;
mod pieces;
mod reads;
mod real;
mod record;
mod rows;
mod runs;
mod source_read;
mod station;
mod text;
mod vector;
mod whole;

pub use by_id::{ById, HasId};
pub use faults::{Failed, OutOfMemory, PutFault, WholeFault, counted};
pub use keys::Keys;
pub use listed::{Copied, Listed, copied_items, copied_option};
pub use memory::{MemoryShelf, MemorySink};
pub use outside::{Shelf, Sink};
pub use pair::{MILE, Pair, Pairs};
pub use pieces::{or_undone, push_all};
pub use real::{FileShelf, StdoutSink};
pub use record::{Event, Record};
pub use rows::{Change, Row};
pub use runs::{Blanks, LineFeeds, Run, Separators, push_run, runs_between};
pub use source_read::SourceRead;
pub use station::Station;
pub use text::Text;
pub use vector::Sorted;
pub use whole::{SOURCE_LIMIT, read_whole};

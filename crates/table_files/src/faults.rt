use desk_io::Text;

/// Why a record of a table is bad. The tests are made in this order: `OverLimit`, `BadField`, `Doubled`, `Unlinked`.
#[derive(Clone, Copy, Debug, PartialEq, Eq)]
pub enum TableWhy {
    /// The header isn't that of the table, the record has a wrong number of fields, or a field is malformed or out of
    /// range. In `settings.csv` also: a record is missing or out of order.
    BadField,
    /// An earlier record has the same key.
    Doubled,
    /// The record names an airport, type, item or captain that the tables don't have.
    Unlinked,
    /// The table already has as many records as it may have.
    OverLimit,
}

/// A bad record of a table.
#[derive(Clone, Copy, Debug, PartialEq, Eq)]
pub(crate) struct BadRecord {
    /// The number of the record. The header is record 1, and an empty line isn't a record.
    pub line: u32,
    pub why: TableWhy,
}

/// A table that has a bad record.
#[derive(Debug, Drop)]
pub struct BadTable {
    /// The name of its file.
    pub name: Text,
    /// The number of the first bad record. The header is record 1, and an empty line isn't a record. If a record is
    /// missing at the end, this is the number after the last record.
    pub line: u32,
    pub why: TableWhy,
}

/// Why the tables can't be read.
#[derive(Debug, Drop)]
pub enum TableFault {
    /// The first bad record of the first bad table, in the order of reading.
    Bad(BadTable),
    /// The shelf failed to read the file of this name and counted the fault. If the count is already full (2^64 - 1),
    /// it doesn't change.
    ReadFault(Text),
    /// The reads of the file of this name returned more than 64 MiB.
    TooLong(Text),
    /// Memory ran out.
    OutOfMemory,
}

use crate::Text;

/// One read of a source. Contracts list these values, and code makes none.
#[derive(Debug, Drop)]
pub struct SourceRead {
    /// The name of the source.
    pub name: Text,
    /// Where in the source the read began, in bytes from its start.
    pub place: u64,
    /// The bytes that the read returned, or None if it failed. They are empty exactly at the end of the source.
    pub bytes: Option<Text>,
}

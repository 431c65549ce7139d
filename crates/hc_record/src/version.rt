//! Versions of records.

/// A version of the record.
#[derive(Clone, Copy, Debug, PartialEq, Eq)]
pub enum Version {
    /// Without the line of the tag.
    First,
    /// With the line of the tag. Records are written so.
    Second,
}

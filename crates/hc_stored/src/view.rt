//! What is told of a representation.
use hc_record::Kind;

/// What is told of a representation that is kept. Positions and lengths are of bytes; consumers and
/// exchanges stand by their numbers.
#[derive(Clone, Copy, Debug, PartialEq, Eq)]
pub struct EntryView {
    pub status: u16,
    pub kind: Kind,
    /// Its length, where that is known.
    pub total: Option<u64>,
    /// Other parts can join it: it has a strong tag.
    pub has_tag: bool,
    /// Its origin takes no ranges.
    pub refuses_ranges: bool,
    /// Where the last of its bytes ends.
    pub reach: u64,
    /// How many bytes of it are stored.
    pub size: u64,
    /// How many consumers are bound to it.
    pub users: usize,
    /// Who of them came alone.
    pub first: Option<u64>,
    /// The exchange of its writer group, the last one.
    pub writer: Option<u64>,
    /// A write of it was refused.
    pub is_lost: bool,
    /// Who goes on with it after that.
    pub alone: Option<u64>,
    /// It isn't used for a new consumer any more.
    pub is_gone: bool,
}

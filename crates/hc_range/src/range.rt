//! Ranges as values.

/// Positions from `lo` up to `hi`, which is exclusive.
#[derive(Clone, Copy, Debug, PartialEq, Eq)]
pub struct Span {
    pub lo: u64,
    pub hi: u64,
}

/// The one range that a Range field asks for (RFC 9110 section 14.1.2).
#[derive(Clone, Copy, Debug, PartialEq, Eq)]
pub enum RangeSpec {
    /// From this position on.
    From(u64),
    /// From the first position to the last, which is inclusive.
    FromTo(u64, u64),
    /// The last bytes, so many.
    Last(u64),
}

/// What a Content-Range field tells (RFC 9110 section 14.4).
#[derive(Clone, Copy, Debug, PartialEq, Eq)]
pub enum ContentRange {
    /// The positions from `first` to `last`, which is inclusive, of `total`, where that is known.
    Part {
        first: u64,
        last: u64,
        total: Option<u64>,
    },
    /// The range asked for isn't within the representation, which has this length.
    Unsatisfied {
        total: u64,
    },
}

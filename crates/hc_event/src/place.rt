//! Where a consumer stands.
use crate::act::Cause;

/// How a consumer became bound to a representation.
#[derive(Clone, Copy, Debug, PartialEq, Eq)]
pub enum BoundBy {
    /// Its exchange founded the representation.
    Founding,
    /// It was bound by opening this exchange, for the first hole of what it reads.
    FirstHole(u64),
    /// It was shown the head of what is stored, or of what is being written.
    Plan,
}

/// Where a consumer stands.
#[derive(Clone, Copy, Debug, PartialEq, Eq)]
pub enum Place {
    /// In the line of its key.
    Line,
    /// It waits for the body of the representation `r`, and keeps the exchange by whose 304 it may
    /// read, if it has one.
    Passed {
        r: u64,
        kept: Option<u64>,
    },
    /// It has the turn of its key, and waits for the head of this exchange.
    Turn(u64),
    /// It reads the representation `r` from `lo` on, up to `hi` where that was known.
    Bound {
        r: u64,
        lo: u64,
        hi: Option<u64>,
        by: BoundBy,
    },
    /// It reads the answer of this exchange past the store.
    Direct(u64),
    /// It is to be told this failure.
    Down(Cause),
    /// It ended, failed or left.
    Over,
}

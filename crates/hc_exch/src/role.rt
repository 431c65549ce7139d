//! What an exchange is to the cache.

/// What an exchange is to the cache. Representations `r` are numbered by the exchanges that founded
/// them.
#[derive(Clone, Copy, Debug, PartialEq, Eq)]
pub enum Role {
    /// It goes past the store.
    Direct,
    /// It has the turn of its key. `aim` is the representation that it validates, if it does.
    Turn { aim: Option<u64> },
    /// It fills a hole of a representation.
    Hole { r: u64 },
    /// It founded the representation, or goes on with it.
    Body { r: u64 },
}

//! A head that comes.

/// A head that comes, and the exchange and consumer that it is for.
#[derive(Clone, Copy)]
pub struct Arrival {
    pub now: u64,
    pub x: u64,
    pub c: u64,
}

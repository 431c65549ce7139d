//! What is otherwise than it is to be.
use hc_wire::WireError;
use std::alloc::{AllocError, AllocFailed};

/// Why the trial ends with 1.
#[derive(Debug, Drop)]
pub(crate) enum Fault {
    NoMemory,
    /// A call of a wire failed.
    WireFailed,
    /// No port could be bound.
    NotBound,
    /// A connection broke.
    Broke,
    /// Behind so many bytes others came than were sent.
    OtherBytes(usize),
    /// The end came behind so many bytes, where so many were sent.
    EndedEarly(usize, usize),
    /// After more turns than are needed the end hasn't come.
    NeverEnded,
    /// Each send of a side took bytes.
    NeverFull,
    /// Something else came than a few bytes and what is behind them.
    OtherTalk,
    /// A client that connects while bytes of another come isn't told.
    Hidden,
    /// What came isn't told by calls that don't wait.
    Unasked,
    /// A connection that is broken isn't told so.
    NeverBroke,
    /// A connection that is broken didn't take all bytes.
    TookLess,
}

impl From<WireError> for Fault {
    fn from(error: WireError) -> Self {
        match error {
            WireError::WireFailed => Fault::WireFailed,
            WireError::NoMemory => Fault::NoMemory,
        }
    }
}

impl From<AllocError> for Fault {
    fn from(_: AllocError) -> Self {
        Fault::NoMemory
    }
}

impl<T: Drop> From<AllocFailed<T>> for Fault {
    fn from(_: AllocFailed<T>) -> Self {
        Fault::NoMemory
    }
}

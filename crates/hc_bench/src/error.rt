//! Why a bench doesn't come to its end.

use hc_fields::FieldError;
use hc_io::SourceFailed;
use hc_msg::MsgError;
use hc_sched::FeedError;
use hc_store::StoreError;
use hc_text::NoMemory;
use http_header::{HeaderMapError, HeaderNameError, HeaderValueError};
use std::alloc::{AllocError, AllocFailed};
use std::io::{Error, ErrorKind};

#[derive(Clone, Copy)]
pub(crate) enum BenchError {
    /// A call gave another answer than the right one.
    Wrong,
    /// The words name no bench.
    Usage,
    /// The input or the output failed.
    StreamFailed,
    /// There was not enough memory.
    NoMemory,
}

impl BenchError {
    /// The exit status.
    pub(crate) fn status(self) -> u8 {
        match self {
            BenchError::Wrong => 1,
            BenchError::Usage => 2,
            BenchError::StreamFailed => 3,
            BenchError::NoMemory => 6,
        }
    }
}

/// An answer is to be the right one.
pub(crate) fn expect(is_right: bool) -> Result<(), BenchError> {
    if is_right {
        Ok(())
    } else {
        Err(BenchError::Wrong)
    }
}

impl From<Error> for BenchError {
    fn from(e: Error) -> Self {
        match e.kind() {
            ErrorKind::OutOfMemory => BenchError::NoMemory,
            // A word that isn't UTF-8.
            ErrorKind::InvalidData => BenchError::Usage,
            _ => BenchError::StreamFailed,
        }
    }
}

impl From<AllocError> for BenchError {
    fn from(_: AllocError) -> Self {
        BenchError::NoMemory
    }
}

impl<T: Drop> From<AllocFailed<T>> for BenchError {
    fn from(_: AllocFailed<T>) -> Self {
        BenchError::NoMemory
    }
}

impl From<NoMemory> for BenchError {
    fn from(_: NoMemory) -> Self {
        BenchError::NoMemory
    }
}

impl From<SourceFailed> for BenchError {
    fn from(_: SourceFailed) -> Self {
        BenchError::StreamFailed
    }
}

impl From<FieldError> for BenchError {
    fn from(e: FieldError) -> Self {
        match e {
            FieldError::NoMemory => BenchError::NoMemory,
            _ => BenchError::Wrong,
        }
    }
}

impl From<HeaderNameError> for BenchError {
    fn from(e: HeaderNameError) -> Self {
        match e {
            HeaderNameError::OutOfMemory => BenchError::NoMemory,
            HeaderNameError::Invalid => BenchError::Wrong,
        }
    }
}

impl From<HeaderValueError> for BenchError {
    fn from(e: HeaderValueError) -> Self {
        match e {
            HeaderValueError::OutOfMemory => BenchError::NoMemory,
            HeaderValueError::Invalid => BenchError::Wrong,
        }
    }
}

impl From<HeaderMapError> for BenchError {
    fn from(e: HeaderMapError) -> Self {
        match e {
            HeaderMapError::OutOfMemory => BenchError::NoMemory,
            HeaderMapError::MaxSizeReached => BenchError::Wrong,
        }
    }
}

impl From<StoreError> for BenchError {
    fn from(e: StoreError) -> Self {
        match e {
            StoreError::NoMemory => BenchError::NoMemory,
            _ => BenchError::Wrong,
        }
    }
}

impl From<MsgError> for BenchError {
    fn from(e: MsgError) -> Self {
        match e {
            MsgError::NoMemory => BenchError::NoMemory,
            _ => BenchError::Wrong,
        }
    }
}

impl From<FeedError> for BenchError {
    fn from(e: FeedError) -> Self {
        match e {
            FeedError::NoMemory => BenchError::NoMemory,
            FeedError::Refused(_) => BenchError::Wrong,
        }
    }
}

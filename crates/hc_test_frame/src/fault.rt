//! Why a line has no value.
use hc_fields::FieldError;
use hc_text::NoMemory;
use std::alloc::{AllocError, AllocFailed};
use std::io;

/// Why a line has no value.
#[derive(Clone, Copy, Debug, PartialEq, Eq)]
pub enum Fault {
    /// A stream failed.
    Io(io::ErrorKind),
    NoMemory,
    /// A quote is open at the end of the line, or `%` begins no byte.
    BadQuoting,
    /// A number is past 2^64, or `*` has none before or behind it.
    BadNumber,
    /// No call of this name takes such arguments, or the call may not be made with them.
    NoSuchCall,
    /// A text lists no fields.
    Field(FieldError),
}

impl From<io::Error> for Fault {
    fn from(e: io::Error) -> Self {
        Fault::Io(e.kind())
    }
}

impl From<AllocError> for Fault {
    fn from(_: AllocError) -> Self {
        Fault::NoMemory
    }
}

impl<T: Drop> From<AllocFailed<T>> for Fault {
    fn from(_: AllocFailed<T>) -> Self {
        Fault::NoMemory
    }
}

impl From<NoMemory> for Fault {
    fn from(_: NoMemory) -> Self {
        Fault::NoMemory
    }
}

impl From<FieldError> for Fault {
    fn from(e: FieldError) -> Self {
        Fault::Field(e)
    }
}

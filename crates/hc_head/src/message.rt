//! A request as it is read, and why a message is not read on.
ghost use Rattle.hc_head.specs.declared.message.MsgError.TheVariants.{NoMemory as no_memory};
ghost use Rattle.std.specs.Prelude.{◌≡◌};

use hc_event::Request;
use hc_text::NoMemory;
use std::alloc::AllocError;

/// Why a message is not read on. A reader that answered one answers it again.
#[derive(Clone, Copy, Debug, PartialEq, Eq)]
pub enum MsgError {
    /// The head is off the grammar (RFC 9112 sections 2 to 5), has more than 64 fields or a value of
    /// more than 8,192 bytes, or breaks another rule of its kind.
    BadHead,
    /// There are more than 32,768 bytes without a whole head.
    HeadTooLong,
    /// The length of the body isn't told as it has to be (RFC 9112 section 6.3).
    BadLength,
    /// A chunk or the trailer section is off the grammar or too long (RFC 9112 section 7.1).
    BadChunk,
    /// The method is CONNECT (RFC 9110 section 9.3.6).
    UnsupportedMethod,
    /// The connection ended within the message (RFC 9112 section 8).
    CutOff,
    /// There was not enough memory.
    NoMemory,
}

impl From<AllocError> for MsgError {
    ghost from_gives = { λ _ e. e ≡ no_memory };

    fn from(_: AllocError) -> Self {
        MsgError::NoMemory
    }
}

impl From<NoMemory> for MsgError {
    ghost from_gives = { λ _ e. e ≡ no_memory };

    fn from(_: NoMemory) -> Self {
        MsgError::NoMemory
    }
}

/// A request from a client.
#[derive(Drop)]
pub struct WireRequest {
    pub request: Request,
    /// Whether the client spoke HTTP/1.0.
    pub old: bool,
}

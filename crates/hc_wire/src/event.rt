//! What a wire hands out, and why a call fails.
ghost use Rattle.std.specs.Prelude.{◌≡◌};

use hc_text::NoMemory;
use std::alloc::{AllocError, AllocFailed};

/// An IPv4 address and a port.
#[derive(Clone, Copy, Debug, PartialEq, Eq)]
pub struct Address {
    pub octets: [u8; 4],
    pub port: u16,
}

/// What happened on a wire. A connection is named by its number.
#[derive(Clone, Copy, Debug, PartialEq, Eq)]
pub enum WireEvent {
    /// A client connected.
    Accepted(u64),
    /// So many bytes of the connection stand first in the slice that was given.
    Got(u64, usize),
    /// The other side of the connection sends no more.
    Ended(u64),
    /// The connection is broken.
    Broke(u64),
    /// The connection takes bytes again.
    Room(u64),
    /// Nothing is due.
    Quiet,
}

/// Why a call fails.
#[derive(Clone, Copy, Debug, PartialEq, Eq)]
pub enum WireError {
    /// The wire failed, and counted that.
    WireFailed,
    /// There was not enough memory. Nothing changed.
    NoMemory,
}

impl From<NoMemory> for WireError {
    ghost use Rattle.hc_wire.specs.declared.event.WireError.TheVariants as error;

    ghost from_gives = { λ _ e. e ≡ error.NoMemory };

    fn from(_: NoMemory) -> Self {
        WireError::NoMemory
    }
}

impl From<AllocError> for WireError {
    ghost use Rattle.hc_wire.specs.declared.event.WireError.TheVariants as error;

    ghost from_gives = { λ _ e. e ≡ error.NoMemory };

    fn from(_: AllocError) -> Self {
        WireError::NoMemory
    }
}

impl<T: Drop> From<AllocFailed<T>> for WireError {
    ghost use Rattle.hc_wire.specs.declared.event.WireError.TheVariants as error;

    ghost from_gives = { λ _ e. e ≡ error.NoMemory };

    fn from(_: AllocFailed<T>) -> Self {
        WireError::NoMemory
    }
}

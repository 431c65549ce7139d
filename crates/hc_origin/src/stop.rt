//! Why the turns are not gone on with.
ghost use Rattle.std.specs.Prelude.{◌≡◌};
ghost use Rattle.hc_origin.specs.Stops.{ended_by};

use hc_sched::Ended;
use hc_text::NoMemory;
use hc_wire::WireError;
use std::alloc::{AllocError, AllocFailed};

/// Why a turn is not finished.
#[derive(Clone, Copy, Debug, PartialEq, Eq)]
pub(crate) enum Stop {
    /// The wire failed.
    WireFailed,
    /// There was not enough memory.
    NoMemory,
}

impl Stop {
    /// How the test origin ends by it.
    pub(crate) fn ended(self) -> Ended
        ensures { result ≡ ended_by self }
    {
        match self {
            Stop::WireFailed => Ended::WireFailed,
            Stop::NoMemory => Ended::NoMemory,
        }
    }
}

impl From<WireError> for Stop {
    ghost use Rattle.hc_origin.specs.Stops.{of_wire};

    ghost from_gives = { λ e stop. stop ≡ of_wire e };

    fn from(e: WireError) -> Self {
        match e {
            WireError::WireFailed => Stop::WireFailed,
            WireError::NoMemory => Stop::NoMemory,
        }
    }
}

impl From<NoMemory> for Stop {
    ghost use Rattle.hc_origin.specs.declared.stop.Stop.TheVariants as stop;

    ghost from_gives = { λ _ e. e ≡ stop.NoMemory };

    fn from(_: NoMemory) -> Self {
        Stop::NoMemory
    }
}

impl From<AllocError> for Stop {
    ghost use Rattle.hc_origin.specs.declared.stop.Stop.TheVariants as stop;

    ghost from_gives = { λ _ e. e ≡ stop.NoMemory };

    fn from(_: AllocError) -> Self {
        Stop::NoMemory
    }
}

impl<T: Drop> From<AllocFailed<T>> for Stop {
    ghost use Rattle.hc_origin.specs.declared.stop.Stop.TheVariants as stop;

    ghost from_gives = { λ _ e. e ≡ stop.NoMemory };

    fn from(_: AllocFailed<T>) -> Self {
        Stop::NoMemory
    }
}

//! Why a loop ends before its turns are made.
ghost use Rattle.std.specs.Prelude.{◌≡◌};
ghost use Rattle.hc_proxy.specs.Stops.{ended_by};

use hc_io::SinkError;
use hc_sched::Ended;
use hc_text::NoMemory;
use hc_wire::WireError;

/// Why a turn isn't finished.
#[derive(Clone, Copy, Debug, PartialEq, Eq)]
pub(crate) enum Stop {
    /// The record can't be written.
    SinkFailed,
    /// The wire failed.
    WireFailed,
    /// There was not enough memory.
    NoMemory,
}

impl Stop {
    /// How a loop ends by it.
    pub(crate) fn ended(self) -> Ended
        ensures { result ≡ ended_by self }
    {
        match self {
            Stop::SinkFailed => Ended::SinkFailed,
            Stop::WireFailed => Ended::WireFailed,
            Stop::NoMemory => Ended::NoMemory,
        }
    }
}

impl From<NoMemory> for Stop {
    ghost use Rattle.hc_proxy.specs.declared.stop.Stop.TheVariants as stop;

    ghost from_gives = { λ _ e. e ≡ stop.NoMemory };

    fn from(_: NoMemory) -> Self {
        Stop::NoMemory
    }
}

impl From<WireError> for Stop {
    ghost use Rattle.hc_proxy.specs.Stops.{of_wire};

    ghost from_gives = { λ e stop. stop ≡ of_wire e };

    fn from(e: WireError) -> Self {
        match e {
            WireError::WireFailed => Stop::WireFailed,
            WireError::NoMemory => Stop::NoMemory,
        }
    }
}

impl From<SinkError> for Stop {
    ghost use Rattle.hc_proxy.specs.Stops.{of_sink};

    ghost from_gives = { λ e stop. stop ≡ of_sink e };

    fn from(e: SinkError) -> Self {
        match e {
            SinkError::SinkFailed => Stop::SinkFailed,
            SinkError::NoMemory => Stop::NoMemory,
        }
    }
}

//! Why a schedule is not gone through any further.
ghost use Rattle.std.specs.Prelude.{◌≡◌};
ghost use Rattle.hc_driver.specs.Stops.{ended_by};

use hc_io::{SinkError, SourceFailed};
use hc_sched::{Ended, FeedError, Refused};
use hc_text::NoMemory;

/// Why a schedule is not gone through any further.
#[derive(Clone, Copy, Debug, PartialEq, Eq)]
pub enum Stop {
    /// Nothing more is answered.
    Over,
    /// A line is refused.
    Refused(Refused),
    /// The input failed.
    SourceFailed,
    /// The output failed.
    SinkFailed,
    /// There was not enough memory.
    NoMemory,
}

impl Stop {
    /// How a command ends by it.
    pub(crate) fn ended(self) -> Ended
        ensures { result ≡ ended_by self }
    {
        match self {
            Stop::Over => Ended::Done,
            Stop::Refused(refused) => Ended::Refused(refused),
            Stop::SourceFailed => Ended::SourceFailed,
            Stop::SinkFailed => Ended::SinkFailed,
            Stop::NoMemory => Ended::NoMemory,
        }
    }
}

impl From<FeedError> for Stop {
    ghost use Rattle.hc_driver.specs.Stops.{of_feed};

    ghost from_gives = { λ e stop. stop ≡ of_feed e };

    fn from(e: FeedError) -> Self {
        match e {
            FeedError::Refused(refused) => Stop::Refused(refused),
            FeedError::NoMemory => Stop::NoMemory,
        }
    }
}

impl From<SourceFailed> for Stop {
    ghost use Rattle.hc_driver.specs.declared.stop.Stop.TheVariants as stop;

    ghost from_gives = { λ _ e. e ≡ stop.SourceFailed };

    fn from(_: SourceFailed) -> Self {
        Stop::SourceFailed
    }
}

impl From<SinkError> for Stop {
    ghost use Rattle.hc_driver.specs.Stops.{of_sink};

    ghost from_gives = { λ e stop. stop ≡ of_sink e };

    fn from(e: SinkError) -> Self {
        match e {
            SinkError::SinkFailed => Stop::SinkFailed,
            SinkError::NoMemory => Stop::NoMemory,
        }
    }
}

impl From<NoMemory> for Stop {
    ghost use Rattle.hc_driver.specs.declared.stop.Stop.TheVariants as stop;

    ghost from_gives = { λ _ e. e ≡ stop.NoMemory };

    fn from(_: NoMemory) -> Self {
        Stop::NoMemory
    }
}

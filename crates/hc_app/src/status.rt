//! How the program ends.
ghost use Rattle.std.specs.Prelude.{◌≡◌};
ghost use Rattle.hc_app.specs.Statuses.{code_of, stopped_as, unbound_as};

use hc_io::SinkError;
use hc_wire::WireError;

/// How the program ended.
#[derive(Clone, Copy, Debug, PartialEq, Eq)]
pub enum Status {
    /// All that is due is written.
    Done,
    /// The schedule is refused. The report of all earlier events is written, where one is due, and
    /// `diag` has the line and why.
    Refused,
    /// The words are no command. `diag` has the usage.
    Usage,
    /// The input failed.
    SourceFailed,
    /// The output or the diagnostics failed.
    SinkFailed,
    /// The wire failed.
    WireFailed,
    /// There was not enough memory.
    NoMemory,
    /// The image is refused. Nothing is written, and `diag` has why.
    ImageRefused,
    /// An event ended the fetch, or its input ended before all of the body was written. `diag` has why.
    FetchStopped,
}

impl Status {
    /// The exit status.
    pub fn code(self) -> u8
        ensures { result ≡ code_of self }
    {
        match self {
            Status::Done => 0,
            Status::Refused => 1,
            Status::Usage => 2,
            Status::SourceFailed => 3,
            Status::SinkFailed => 4,
            Status::WireFailed => 5,
            Status::NoMemory => 6,
            Status::ImageRefused => 7,
            Status::FetchStopped => 8,
        }
    }
}

/// How the program ends where a write gave up.
pub(crate) fn stopped(error: SinkError) -> Status
    ensures { result ≡ stopped_as error }
{
    match error {
        SinkError::SinkFailed => Status::SinkFailed,
        SinkError::NoMemory => Status::NoMemory,
    }
}

/// How the program ends where nothing could be bound.
pub(crate) fn unbound(error: WireError) -> Status
    ensures { result ≡ unbound_as error }
{
    match error {
        WireError::WireFailed => Status::WireFailed,
        WireError::NoMemory => Status::NoMemory,
    }
}

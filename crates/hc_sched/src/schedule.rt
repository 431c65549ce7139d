//! What the text of a schedule says: events with their moments, or where it is refused.
ghost use Rattle.hc_sched.specs.declared.schedule.FeedError.TheVariants.{NoMemory as no_memory};
ghost use Rattle.std.specs.Prelude.{◌≡◌};

use hc_event::Event;
use hc_text::NoMemory;

/// An event and its moment, in seconds since 1970.
#[derive(Drop)]
pub struct Timed {
    pub now: u64,
    pub event: Event,
}

/// Why a line of a schedule is refused, in the order in which the reasons are tested.
#[derive(Clone, Copy, Debug, PartialEq, Eq)]
pub enum SchedRefusal {
    /// The line is off the grammar. Its number is 1.
    BadLine,
    /// The line has more than 140,000 bytes. Its number is 2; it is told as soon as they are there.
    LineTooLong,
    /// The target is no web URL in its one spelling (URL Standard), has a fragment, or has more
    /// than 8,192 bytes. Its number is 3.
    BadTarget,
    /// The moment is below `last`, the one that was set before. Its number is 4.
    MomentBack { last: u64 },
    /// The text ends within the line, or before it where it is a field line. Its number is 5.
    CutShort,
}

/// A refusal: its line, from 1, and why.
#[derive(Clone, Copy, Debug, PartialEq, Eq)]
pub struct Refused {
    pub line: u64,
    pub why: SchedRefusal,
}

/// Why a schedule is not read on.
#[derive(Clone, Copy, Debug, PartialEq, Eq)]
pub enum FeedError {
    /// A line is refused.
    Refused(Refused),
    /// There was not enough memory.
    NoMemory,
}

impl From<NoMemory> for FeedError {
    ghost from_gives = { λ _ e. e ≡ no_memory };

    fn from(_: NoMemory) -> Self {
        FeedError::NoMemory
    }
}

/// How a command that reads a schedule ends.
#[derive(Clone, Copy, Debug, PartialEq, Eq)]
pub enum Ended {
    /// The schedule was read to its end, and everything was written.
    Done,
    /// The schedule is refused.
    Refused(Refused),
    /// The input failed.
    SourceFailed,
    /// The output failed.
    SinkFailed,
    /// The network failed.
    WireFailed,
    /// There was not enough memory.
    NoMemory,
}

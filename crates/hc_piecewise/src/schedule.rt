//! A schedule of which a part was handed in.
ghost use Rattle.std.specs.Prelude.{◌≡◌, ◌+◌, ◌<◌, ◌≤◌, ◌^◌, ℕ, [], length, Some, None, OnOk, OnErr};
ghost use Rattle.hc_driver.specs.declared.stop.Stop.TheVariants as stop;
ghost use Rattle.hc_sched.specs.Feeding.{progress_at_end};
ghost use Rattle.hc_sched.specs.Reading.{beginning, refusal_at};

use hc_driver::{Answering, Stop};
use hc_event::Stepper;
use hc_io::PlainSink;
use hc_sched::{Feed, FeedError, Refused, Timed};
use hc_text::NoMemory;
use std::alloc::Global;

/// A schedule of which a part was handed in: how far it was read and answered, and the report of its
/// last piece.
#[derive(Drop)]
pub struct Schedule {
    feed: Feed,
    answering: Answering,
    /// Room for those of a piece.
    events: Vec<Timed>,
    /// That of the last piece.
    report: PlainSink,
    /// How many bytes were handed in.
    given: u64,
    /// Where it is refused.
    stopped: Option<Refused>,
}

impl Schedule {
    ghost use Rattle.hc_piecewise.specs.Schedules.{progress_in, entries_in, report_in, given_in, refusal_in, MayGoOn, IsStepped, IsLacking};

    /// Nothing was handed in. It begins at this moment, in seconds since 1970.
    pub fn new(alloc: Global, moment: u64) -> Schedule
        requires { moment < 2 ^ 62 }
        ensures progress { progress_in result ≡ beginning moment }
        ensures entries { entries_in result ≡ 0 }
        ensures report { report_in result ≡ [] }
        ensures given { given_in result ≡ 0 }
        ensures may { (last steps received : ℕ) → last ≤ moment → steps + received ≡ 0
            → ∥ MayGoOn last steps received result ∥₁ }
    {
        Schedule {
            feed: Feed::after(alloc, moment),
            answering: Answering::new(alloc),
            events: Vec::new(alloc),
            report: PlainSink::new(alloc),
            given: 0,
            stopped: None,
        }
    }

    /// Steps the events that a further piece brings, up to a refusal, and makes the report of them. A
    /// schedule that is refused stays so, and brings nothing more.
    ///
    /// At NoMemory some first of the events are stepped, and maybe the next one was refused memory.
    pub fn go_on<T: Stepper>(
        &mut self,
        alloc: Global,
        piece: &[u8],
        on: &mut T,
    ) -> Result<(), NoMemory>
        requires may { ∥ MayGoOn (T.moment on.old) (T.steps on.old) (T.received on.old)
            self.old ∥₁ }
        requires few { given_in self.old + length piece.now ≤ 2 ^ 60 }
        ensures stepped { OnOk result
            (IsStepped T.answers self.old self.new piece.now on.old on.new) }
        ensures lacking { OnErr result
            (IsLacking T.answers T.spent self.old self.new piece.now on.old on.new) }
        ensures given { given_in self.new ≡ given_in self.old + length piece.now }
        ensures may { OnOk result
            ∥ MayGoOn (T.moment on.new) (T.steps on.new) (T.received on.new) self.new ∥₁ }
    {
        self.report = PlainSink::new(alloc);
        self.given += piece.len() as u64;
        if self.stopped.is_some() {
            return Ok(());
        }
        let gone = self.answering.go_piece(
            &mut self.feed,
            piece,
            &mut self.events,
            on,
            &mut self.report,
        );
        match gone {
            Ok(()) => Ok(()),
            Err(Stop::Refused(refused)) => {
                self.stopped = Some(refused);
                Ok(())
            }
            Err(Stop::NoMemory) => Err(NoMemory),
            Err(Stop::Over | Stop::SourceFailed | Stop::SinkFailed) => unreachable!(),
        }
    }

    /// The text ends here. It is refused as CutShort where a line or field lines are missing.
    pub fn finish(&mut self) -> Option<Refused>
        requires may { (last : ℕ) × (steps : ℕ) × (received : ℕ)
            × ∥ MayGoOn last steps received self.old ∥₁ }
        ensures value { result ≡ refusal_at (progress_in self.old) }
        ensures progress { progress_in self.new ≡ progress_at_end (progress_in self.old) }
        ensures refusal { refusal_in self.new ≡ result }
        ensures entries { entries_in self.new ≡ entries_in self.old }
        ensures report { report_in self.new ≡ report_in self.old }
        ensures given { given_in self.new ≡ given_in self.old }
        ensures may { (last steps received : ℕ) → ∥ MayGoOn last steps received self.old ∥₁
            → ∥ MayGoOn last steps received self.new ∥₁ }
    {
        if self.stopped.is_some() {
            return self.stopped;
        }
        match self.feed.finish() {
            Ok(()) => None,
            Err(FeedError::Refused(refused)) => {
                self.stopped = Some(refused);
                self.stopped
            }
            Err(FeedError::NoMemory) => unreachable!(),
        }
    }

    /// The report of the last piece.
    pub fn report(&self) -> &[u8]
        ensures { result.now ≡ report_in self.now }
    {
        self.report.taken()
    }

    /// Where it is refused, if it is.
    pub fn refusal(&self) -> Option<Refused>
        ensures { result ≡ refusal_in self.now }
    {
        self.stopped
    }

    /// How many bytes were handed in.
    pub fn given(&self) -> u64
        ensures { result ≡ given_in self.now }
    {
        self.given
    }
}

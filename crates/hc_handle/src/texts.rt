//! A session whose events come as the text of a schedule.
ghost use Rattle.std.specs.Prelude.{◌≡◌, None, Some, false};
ghost use Rattle.hc_core.specs.Steps.{last_moment, steps, bytes_received};
ghost use Rattle.hc_piecewise.specs.Schedules.{MayGoOn};

use crate::session::Session;
use hc_binary::{CallRefusal, put};
use hc_piecewise::Schedule;
use hc_sched::Refused;
use hc_text::NoMemory;
use std::alloc::Global;

/// So many bytes of a text are read at most.
const MOST_BYTES: u64 = 1 << 60;

impl Session {
    ghost use Rattle.hc_handle.specs.Calls.{HasReport};
    ghost use Rattle.hc_handle.specs.Sessions.{IsSilent, has_text};
    ghost use Rattle.hc_handle.specs.Texts.{IsRead, IsFinished, IsTaken, given_at, report_at, refused_in, text_refusal_at};

    /// How many bytes of the text were handed in.
    fn given(&self) -> u64
        ensures { result ≡ given_at self.now }
    {
        match &self.schedule {
            Some(schedule) => schedule.given(),
            None => 0,
        }
    }

    /// Why a piece of so many bytes isn't read, if it isn't.
    fn text_refusal(&self, len: usize) -> Option<CallRefusal>
        ensures value { result ≡ text_refusal_at self.now len }
        ensures spent { result ≡ Some CallRefusal.NoMemory → IsSilent self.now }
    {
        if self.spent {
            return Some(CallRefusal::NoMemory);
        }
        if self.given().saturating_add(len as u64) > MOST_BYTES {
            return Some(CallRefusal::Exhausted);
        }
        if self.schedule.is_some() {
            return None;
        }
        if self.cache.steps() > 0 || self.cache.received() > 0 {
            return Some(CallRefusal::Late);
        }
        None
    }

    /// The schedule that goes on, or a new one. The session is left without it and without acts.
    fn take_schedule(&mut self, alloc: Global) -> Schedule
        requires ready { self.old.spent ≡ false }
        requires unused { has_text self.old ≡ false
            → (steps self.old.cache ≡ 0) × (bytes_received self.old.cache ≡ 0) }
        ensures taken { IsTaken self.old self.new result }
        ensures may { ∥ MayGoOn (last_moment self.new.cache) (steps self.new.cache)
            (bytes_received self.new.cache) result ∥₁ }
    {
        self.acts.clear();
        self.reported = 0;
        match self.schedule.take() {
            Some(schedule) => schedule,
            None => Schedule::new(alloc, self.cache.last_moment()),
        }
    }

    /// Reads a further piece of a text: the cache is stepped by the events that it brings, and their report
    /// is made.
    pub(crate) fn read_on(&mut self, alloc: Global, text: &[u8]) -> Result<(), CallRefusal>
        ensures { IsRead self.old self.new text.now result }
    {
        if let Some(why) = self.text_refusal(text.len()) {
            return Err(why);
        }
        let mut schedule = self.take_schedule(alloc);
        if let Err(NoMemory) = schedule.go_on(alloc, text, self) {
            self.spend();
            return Err(CallRefusal::NoMemory);
        }
        let is_refused = schedule.refusal().is_some();
        self.schedule = Some(schedule);
        if is_refused {
            return Err(CallRefusal::BadText);
        }
        Ok(())
    }

    /// The text ends here.
    pub(crate) fn finish(&mut self) -> Result<(), CallRefusal>
        ensures { IsFinished self.old self.new result }
    {
        if let Some(why) = self.text_refusal(0) {
            return Err(why);
        }
        let Some(mut schedule) = self.schedule.take() else {
            return Ok(());
        };
        let is_refused = schedule.finish().is_some();
        self.schedule = Some(schedule);
        if is_refused {
            return Err(CallRefusal::BadText);
        }
        Ok(())
    }

    /// Where the text is refused, if it is.
    pub(crate) fn refused(&self) -> Option<Refused>
        ensures { result ≡ refused_in self.now }
    {
        match &self.schedule {
            Some(schedule) => schedule.refusal(),
            None => None,
        }
    }

    /// The report of the last piece.
    fn report(&self) -> &[u8]
        ensures { result.now ≡ report_at self.now }
    {
        match &self.schedule {
            Some(schedule) => schedule.report(),
            None => b"",
        }
    }

    /// Copies the first bytes of the report of the last piece, as many as fit, and says how many it has in all.
    pub(crate) fn copy_report(&self, into: &mut [u8]) -> usize
        ensures { HasReport (report_at self.now) into.new result }
    {
        let report = self.report();
        put(report, into, 0);
        report.len()
    }
}

//! What is stepped is a course of which the report is written.
use crate::course::Course;
use hc_event::{Acts, Event, Stepper};
use hc_sched::write_acts;
use hc_text::NoMemory;

/// An event is answered by its entry in the report.
impl<T: Stepper> Course for T {
    ghost use Rattle.hc_driver.specs.Stepping.{Reports, never};

    ghost moment = { T.moment };

    ghost steps = { T.steps };

    ghost received = { T.received };

    ghost over = { never };

    ghost reports = { Reports T.answers };

    ghost spent = { T.spent };

    fn go(
        &mut self,
        number: u64,
        now: u64,
        event: &Event,
        acts: &mut Acts,
        text: &mut Vec<u8>,
    ) -> Result<(), NoMemory> {
        acts.clear();
        self.step(now, event, acts)?;
        write_acts(number, acts.list(), text)
    }

    fn is_over(&self) -> bool {
        false
    }
}

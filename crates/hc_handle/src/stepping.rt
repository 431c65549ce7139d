//! A session answers the events of a text.
use crate::session::Session;
use hc_event::{Acts, Event, Stepper};
use hc_text::NoMemory;

impl Stepper for Session {
    ghost use Rattle.hc_core.specs.Steps as core;
    ghost use Rattle.hc_handle.specs.Sessions.{IsSilent};
    ghost use Rattle.hc_handle.specs.Texts.{AnswersInText};

    ghost moment = { λ s. core.last_moment s.cache };

    ghost steps = { λ s. core.steps s.cache };

    ghost received = { λ s. core.bytes_received s.cache };

    ghost answers = { λ s now event acts u. AnswersInText s now event acts u };

    // Nothing is answered any more.
    ghost spent = { λ _ u. IsSilent u };

    fn step(&mut self, now: u64, event: &Event, out: &mut Acts) -> Result<(), NoMemory> {
        self.schedule = None;
        self.acts.clear();
        self.reported = 0;
        self.spent = true;
        self.cache.step(now, event, out)?;
        self.spent = false;
        Ok(())
    }
}

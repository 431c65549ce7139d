//! A cache that is stepped without a report.
use hc_core::Cache;
use hc_driver::Course;
use hc_event::{Acts, Event};
use hc_store::Memory;
use hc_text::NoMemory;

/// A cache in memory. An event is answered by no text.
#[derive(Drop)]
pub(crate) struct Silent {
    pub(crate) cache: Cache<Memory>,
}

impl Course for Silent {
    ghost use Rattle.hc_core.specs.Steps.{last_moment, steps, bytes_received};
    ghost use Rattle.hc_driver.specs.Stepping.{never};
    ghost use Rattle.hc_saving.specs.Silence.{AnswersSilently, IsSpent};

    ghost moment = { λ s. last_moment s.cache };

    ghost steps = { λ s. steps s.cache };

    ghost received = { λ s. bytes_received s.cache };

    ghost over = { never };

    ghost reports = { AnswersSilently };

    ghost spent = { IsSpent };

    fn go(
        &mut self,
        _number: u64,
        now: u64,
        event: &Event,
        acts: &mut Acts,
        _text: &mut Vec<u8>,
    ) -> Result<(), NoMemory> {
        acts.clear();
        self.cache.step(now, event, acts)
    }

    fn is_over(&self) -> bool {
        false
    }
}

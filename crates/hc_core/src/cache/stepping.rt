//! A cache answers events, one after another.
ghost use Rattle.std.specs.Prelude.{◌≡◌, true};

use crate::cache::Cache;
use hc_event::{Acts, Event, Stepper};
use hc_store::Backend;
use hc_text::NoMemory;

impl<B: Backend> Stepper for Cache<B> {
    ghost use Rattle.hc_core.specs.Steps as core;
    ghost use Rattle.hc_core.specs.Steps.{Answers};

    ghost moment = { λ s. core.last_moment s };

    ghost steps = { λ s. core.steps s };

    ghost received = { λ s. core.bytes_received s };

    ghost answers = { λ s now event acts u. Answers s u now event acts };

    // Each later step is refused too.
    ghost spent = { λ _ u. core.has_failed u ≡ true };

    fn step(&mut self, now: u64, event: &Event, out: &mut Acts) -> Result<(), NoMemory> {
        self.step(now, event, out)
    }
}

//! A front answers events, one after another.
ghost use Rattle.std.specs.Prelude.{◌≡◌, true};

use crate::front::Front;
use hc_event::{Acts, Event, Stepper};
use hc_store::Backend;
use hc_text::NoMemory;

impl<B: Backend> Stepper for Front<B> {
    ghost use Rattle.hc_front.specs.Steps as front;
    ghost use Rattle.hc_front.specs.Steps.{FrontAnswers};

    ghost moment = { λ s. front.last_moment s };

    ghost steps = { λ s. front.steps s };

    ghost received = { λ s. front.bytes_received s };

    ghost answers = { λ s now event acts u. FrontAnswers s u now event acts };

    // Each later step is refused too.
    ghost spent = { λ _ u. front.has_failed u ≡ true };

    fn step(&mut self, now: u64, event: &Event, out: &mut Acts) -> Result<(), NoMemory> {
        self.step(now, event, out)
    }
}

//! What a schedule leads through.
ghost use Rattle.std.specs.Prelude.{◌≡◌, ◌+◌, ◌<◌, ◌≤◌, ◌^◌, ℕ, List, [], Bool, false, OnOk, OnErr};
ghost use Rattle.hc_event.specs.declared.event.Event.{Event};
ghost use Rattle.hc_event.specs.Counting.{received_in};
ghost use Rattle.hc_event.specs.WithinLimits.{IsEventWithinLimits};

use hc_event::{Acts, Event};
use hc_text::NoMemory;

/// Answers events by texts, one after another, until it is over.
pub trait Course {
    ghost use Rattle.hc_driver.specs.Courses.{Lacks};

    /// The moment of the last event.
    ghost moment: { Self → ℕ };

    /// How many events it answered.
    ghost steps: { Self → ℕ };

    /// How many bytes their pieces had.
    ghost received: { Self → ℕ };

    /// It answers nothing more.
    ghost over: { Self → Bool };

    /// The event of this number was answered at a moment by this text, and led from the one to the
    /// other.
    ghost reports: { Self → ℕ → ℕ → Event → List ℕ → Self → Type 0 };

    /// An answer for which memory was refused led from the one to the other.
    ghost spent: { Self → Self → Type 0 };

    /// Answers the event of this number at a moment, in seconds since 1970: the text is put into
    /// `text`. `acts` is room for acts on the way. Where memory is refused for the text alone, the
    /// event is answered. No moment and no event is larger than those that a schedule can spell, and
    /// who starts has a number below 2^62 and asks for a target.
    fn go(
        &mut self,
        number: u64,
        now: u64,
        event: &Event,
        acts: &mut Acts,
        text: &mut Vec<u8>,
    ) -> Result<(), NoMemory>
        requires later { moment self.old ≤ now }
        requires early { now < 2 ^ 62 }
        requires within_limits { IsEventWithinLimits event.now }
        requires few { steps self.old < 2 ^ 59 }
        requires small { received self.old + received_in event.now < 2 ^ 61 }
        requires open { over self.old ≡ false }
        requires empty { text.old.items ≡ [] }
        ensures reported { OnOk result
            (reports self.old number now event.now text.new.items self.new) }
        ensures moment { OnOk result (moment self.new ≡ now) }
        ensures steps { OnOk result (steps self.new ≡ steps self.old + 1) }
        ensures received { OnOk result
            (received self.new ≡ received self.old + received_in event.now) }
        ensures lacks { OnErr result (Lacks reports spent self.old number now event.now self.new) };

    /// Whether it answers nothing more.
    fn is_over(&self) -> bool
        ensures { result ≡ over self.now };
}

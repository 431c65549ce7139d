//! What events are stepped on.
ghost use Rattle.std.specs.Prelude.{◌≡◌, ◌+◌, ◌<◌, ◌≤◌, ◌^◌, ℕ, List, OnOk, OnErr};
ghost use Rattle.hc_event.specs.Acts.{act_list};
ghost use Rattle.hc_event.specs.declared.act.Act.{Act};
ghost use Rattle.hc_event.specs.declared.event.Event.{Event};
ghost use Rattle.hc_event.specs.Counting.{received_in};
ghost use Rattle.hc_event.specs.WithinLimits.{IsEventWithinLimits};

use crate::acts::Acts;
use crate::event::Event;
use hc_text::NoMemory;

/// Answers events, one after another.
pub trait Stepper {
    ghost use Rattle.hc_event.specs.Answering.{Appends};

    /// The moment of the last event.
    ghost moment: { Self → ℕ };

    /// How many events it was stepped by.
    ghost steps: { Self → ℕ };

    /// How many bytes their pieces had.
    ghost received: { Self → ℕ };

    /// The event was answered at a moment by these acts, and led from the one to the other.
    ghost answers: { Self → ℕ → Event → List Act → Self → Type 0 };

    /// A step for which memory was refused led from the one to the other.
    ghost spent: { Self → Self → Type 0 };

    /// Answers an event at a moment, in seconds since 1970: its acts are appended. Where memory is
    /// refused the acts are as before. No moment and no event is larger than those that a schedule
    /// can spell, and who starts has a number below 2^62 and asks for a target.
    fn step(&mut self, now: u64, event: &Event, out: &mut Acts) -> Result<(), NoMemory>
        requires later { moment self.old ≤ now }
        requires early { now < 2 ^ 62 }
        requires within_limits { IsEventWithinLimits event.now }
        requires few { steps self.old < 2 ^ 60 }
        requires small { received self.old + received_in event.now < 2 ^ 61 }
        ensures answered { OnOk result (Appends answers self.old self.new now event.now
            (act_list out.old) (act_list out.new)) }
        ensures moment { OnOk result (moment self.new ≡ now) }
        ensures steps { OnOk result (steps self.new ≡ steps self.old + 1) }
        ensures received { OnOk result
            (received self.new ≡ received self.old + received_in event.now) }
        ensures kept { OnErr result (act_list out.new ≡ act_list out.old) }
        ensures spent { OnErr result (spent self.old self.new) };
}

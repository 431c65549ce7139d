//! Acts that are handed out by value.
ghost use Rattle.std.specs.Iterator.{item_count};

use crate::act::Act;
use crate::acts::Acts;

/// Hands out the acts of a list by value, in order, and leaves the list empty once dropped. The list
/// keeps its room.
pub struct Drain<'a> {
    // What is still to come, the last act first, so that a step pops.
    acts: &'a mut Acts,
}

impl<'a> Drain<'a> {
    ghost use Rattle.std.specs.Prelude.{◌≡◌};
    ghost use Rattle.hc_event.specs.Acts.{act_list, room};
    ghost use Rattle.hc_event.specs.Drain.{left_of, room_of, lender_of, KeepsAlong};

    /// Hands out these acts from the first on.
    pub(crate) fn new(acts: &'a mut Acts) -> Drain<'a>
        ensures left { left_of result ≡ act_list acts.old }
        ensures room { room_of result ≡ room acts.old }
        ensures same_reference { lender_of result ≡ acts.entry.ghost_name }
        ensures stays { KeepsAlong result }
    {
        acts.reverse();
        Drain { acts }
    }
}

impl Drop for Drain<'_> {
    ghost use Rattle.std.specs.Prelude.{◌≡◌, []};
    ghost use Rattle.hc_event.specs.Acts.{act_list, spare};
    ghost use Rattle.hc_event.specs.Drain.{room_of};

    fn drop(self)
        ensures empty { act_list self.exit.0.now ≡ [] }
        ensures room { spare self.exit.0.now ≡ room_of self.entry }
    {
        let Drain { acts } = self;
        acts.clear();
    }
}

impl Iterator for Drain<'_> {
    ghost use Rattle.hc_event.specs.Drain.{left_of, Steps};

    type Item = Act;

    ghost next_gives = { Steps };

    ghost remaining = { item_count left_of };

    fn next(&mut self) -> Option<Act> {
        self.acts.pop()
    }
}

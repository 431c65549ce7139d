//! The acts of a step, with room that can be made before.
ghost use Rattle.std.specs.Prelude.{◌≡◌, ◌+◌, ◌<◌, ◌≤◌, ◌∷◌, ◌++◌, [], take, length, reverse, OnOk, OnErr, IsOk, IfNone};
ghost use Rattle.std.specs.Option.{option_to_list};

use crate::act::Act;
use crate::drain::Drain;
use hc_text::NoMemory;
use std::alloc::Global;

/// The acts of a step, in order.
#[derive(Drop)]
pub struct Acts {
    acts: Vec<Act>,
}

impl Acts {
    ghost use Rattle.hc_event.specs.Acts.{act_list, spare, room};
    ghost use Rattle.hc_event.specs.Drain.{left_of, room_of, lender_of, KeepsAlong};

    /// No act.
    pub fn new(alloc: Global) -> Self
        ensures { act_list result ≡ [] }
    {
        Acts {
            acts: Vec::new(alloc),
        }
    }

    /// Makes room: afterwards `spare` is at least `n`.
    pub fn reserve(&mut self, n: usize) -> Result<(), NoMemory>
        ensures ok { OnOk result (n ≤ spare self.new) }
        ensures same { act_list self.new ≡ act_list self.old }
        ensures room { spare self.old ≤ spare self.new }
    {
        self.acts.reserve(n)?;
        Ok(())
    }

    /// How many acts surely fit.
    pub fn spare(&self) -> usize
        ensures { result ≡ spare self.now }
    {
        self.acts.capacity() - self.acts.len()
    }

    /// The act stands last, or nothing changes. Where there is room it takes no memory, and `spare`
    /// falls by one.
    pub fn push(&mut self, act: Act) -> Result<(), NoMemory>
        ensures ok { OnOk result (act_list self.new ≡ act_list self.old ++ act ∷ []) }
        ensures err { OnErr result (act_list self.new ≡ act_list self.old) }
        ensures fits { 0 < spare self.old → IsOk result }
        ensures room { 0 < spare self.old → spare self.new + 1 ≡ spare self.old }
    {
        if self.acts.capacity() > self.acts.len() {
            self.acts.push_reserved(act);
            return Ok(());
        }
        self.acts.push(act)?;
        Ok(())
    }

    /// The first `n` acts are left, and `spare` does not fall.
    pub fn truncate(&mut self, n: usize)
        requires { n ≤ length (act_list self.old) }
        ensures acts { act_list self.new ≡ take n (act_list self.old) }
        ensures room { spare self.old ≤ spare self.new }
    {
        self.acts.truncate(n);
    }

    /// No act is left, and the room is kept.
    pub fn clear(&mut self)
        ensures acts { act_list self.new ≡ [] }
        ensures room { spare self.old ≤ spare self.new }
        ensures kept { spare self.new ≡ length (act_list self.old) + spare self.old }
    {
        self.acts.clear();
    }

    /// Hands out the acts by value, in order. Once what it answers is dropped, no act is left, and the
    /// room is kept.
    pub fn drain(&mut self) -> Drain<'_>
        ensures left { left_of result ≡ act_list self.old }
        ensures room { room_of result ≡ length (act_list self.old) + spare self.old }
        ensures same_reference { lender_of result ≡ self.entry.ghost_name }
        ensures stays { KeepsAlong result }
    {
        Drain::new(self)
    }

    /// The last act goes.
    pub(crate) fn pop(&mut self) -> Option<Act>
        ensures acts { act_list self.old ≡ act_list self.new ++ option_to_list result }
        ensures none { IfNone result (act_list self.old ≡ []) }
        ensures room { room self.new ≡ room self.old }
    {
        self.acts.pop()
    }

    /// The last act stands first.
    pub(crate) fn reverse(&mut self)
        ensures acts { act_list self.new ≡ reverse (act_list self.old) }
        ensures room { room self.new ≡ room self.old }
    {
        self.acts.as_mut_slice().reverse();
    }

    /// The acts, in order.
    pub fn list(&self) -> &[Act]
        ensures { result.now ≡ act_list self.now }
    {
        self.acts.as_slice()
    }
}

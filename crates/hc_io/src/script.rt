//! Calls that are to fail, by their numbers.
ghost use Rattle.std.specs.Prelude.{◌≡◌, ◌≤◌, ◌↔◌, IsTrue, false, true};

use std::marker::Model;

/// The numbers of the calls that are to fail, from 1, and how many calls and faults there were. Both
/// counts stand still at the end of a `u64`.
#[derive(Drop)]
pub(crate) struct Failures {
    fails: Vec<u64>,
    calls: u64,
    faults: u64,
}

impl Model for Failures {
    ghost use Rattle.hc_io.specs.Memory.{Script};

    ghost Value = { Script };

    ghost view = { λ f. record { fails = f.fails.items; calls = f.calls; faults = f.faults } };
}

impl Failures {
    ghost use Rattle.hc_io.specs.Faults.{HasRisen};
    ghost use Rattle.hc_io.specs.Memory.{FailsNext, after_call, new_script};

    pub(crate) fn new(fails: Vec<u64>) -> Self
        ensures { result ≡ new_script fails.items }
    {
        Failures {
            fails,
            calls: 0,
            faults: 0,
        }
    }

    /// Whether the next call is to fail.
    pub(crate) fn is_next(&self) -> bool
        ensures { IsTrue result ↔ FailsNext self.now }
    {
        self.fails.contains(&self.calls.saturating_add(1))
    }

    /// Counts a call that does not fail.
    pub(crate) fn count_call(&mut self)
        ensures { self.new ≡ after_call self.old false }
    {
        self.calls = self.calls.saturating_add(1);
    }

    /// Counts a call that fails.
    pub(crate) fn count_fault(&mut self)
        ensures counted { self.new ≡ after_call self.old true }
        ensures later { self.old.faults ≤ self.new.faults }
        ensures risen { HasRisen self.old.faults self.new.faults }
    {
        self.calls = self.calls.saturating_add(1);
        self.faults = self.faults.saturating_add(1);
    }
}

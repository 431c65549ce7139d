//! Consumers under watch.
ghost use Rattle.std.specs.Prelude.{◌≡◌, ℕ, Some, None, OnOk, option_copied};
ghost use Rattle.hc_front.specs.Watching.{watched_in, newly, satisfied_now, settled, ChangesAt};
ghost use Rattle.hc_front.specs.Fronts.{is_ending};

use hc_event::Request;
use hc_text::NoMemory;
use std::alloc::Global;
use std::collections::BTreeMap;

/// What is kept of a consumer under watch: its own request, and whether it was told that its copy
/// holds.
#[derive(Drop)]
pub(crate) struct Watched {
    pub(crate) request: Request,
    pub(crate) satisfied: bool,
}

impl Watched {
    /// Whether a poll for so many bytes ends it: it was told that its copy holds.
    #[tactic(auto, unfolding(crate::specs::Fronts::is_ending))]
    pub(crate) fn is_ending(&self, want: u32) -> bool
        ensures { result ≡ is_ending (Some self.now) want }
    {
        self.satisfied && want > 0
    }
}

/// What is kept of consumers, by number.
#[derive(Drop)]
pub(crate) struct Watches {
    map: BTreeMap<u64, Watched>,
}

impl Watches {
    /// Nobody is under watch.
    pub(crate) fn new(alloc: Global) -> Watches
        ensures { (c : ℕ) → watched_in result c ≡ None }
    {
        Watches {
            map: BTreeMap::new(alloc),
        }
    }

    /// What is kept of a consumer.
    pub(crate) fn get(&self, c: u64) -> Option<&Watched>
        ensures { option_copied result ≡ watched_in self.now c }
    {
        self.map.get(&c)
    }

    /// A consumer is under watch from now on.
    pub(crate) fn watch(&mut self, c: u64, request: Request) -> Result<(), NoMemory>
        ensures { OnOk result (ChangesAt c (Some (newly request)) self.old self.new) }
    {
        let watched = Watched {
            request,
            satisfied: false,
        };
        self.map.insert(c, watched)?;
        Ok(())
    }

    /// A consumer that is under watch was told that its copy holds.
    fn satisfy(&mut self, c: u64)
        ensures { ChangesAt c (satisfied_now (watched_in self.old c)) self.old self.new }
    {
        if let Some(watched) = self.map.get_mut(&c) {
            watched.satisfied = true;
        }
    }

    /// A consumer under watch was polled: it leaves, or was told that its copy holds, or neither.
    pub(crate) fn settle(&mut self, c: u64, leaves: bool, reported: bool)
        ensures { ChangesAt c (settled leaves reported (watched_in self.old c)) self.old self.new }
    {
        match (leaves, reported) {
            (true, _) => self.forget(c),
            (false, true) => self.satisfy(c),
            (false, false) => {}
        }
    }

    /// A consumer isn't under watch any more.
    pub(crate) fn forget(&mut self, c: u64)
        ensures { ChangesAt c None self.old self.new }
    {
        self.map.remove(&c);
    }
}

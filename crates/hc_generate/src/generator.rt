//! The generator.
ghost use Rattle.std.specs.Prelude.{◌≡◌, ◌+◌, ◌<◌, ◌≤◌, ◌++◌, ◌^◌, [], IfOk, OnOk, OnErr};

mod rounds;

use crate::counts::Counts;
use crate::draws::Draws;
use crate::exchange::{Exchange, put_begun};
use crate::hearing::{begun_in, forget_closed, forget_gone};
use hc_event::{Act, Event};
use hc_text::NoMemory;
use std::alloc::Global;
use std::marker::Model;

/// Makes events round by round, each by what the seed draws, by what is wanted, and by what it heard
/// of the events before.
#[derive(Drop)]
pub struct Generator {
    alloc: Global,
    draws: Draws,
    moment: u64,
    /// The consumer that started last.
    last: u64,
    live: Vec<u64>,
    exchanges: Vec<Exchange>,
    counts: Counts,
}

impl Model for Generator {
    ghost use Rattle.hc_generate.specs.States.{State, IsInOrder};

    ghost Value = { State };

    ghost view = { λ g. record {
      draws = g.draws.state;
      moment = g.moment;
      last = g.last;
      live = g.live.items;
      exchanges = g.exchanges.items;
      counts = g.counts;
    } };

    ghost invariant = { λ g.
        IsInOrder g.last g.live.items g.exchanges.items };
}

impl Generator {
    ghost use Rattle.hc_generate.specs.States.{State, beginning};
    ghost use Rattle.hc_generate.specs.Hearing.{state_after};
    ghost use Rattle.hc_generate.specs.Rounds.{IsRound, IsShortIfMade, IsWithinLimitsIfMade};
    ghost use Rattle.hc_generate.specs.Summary.{summary_text};

    /// Nothing was made yet.
    pub fn new(alloc: Global, seed: u64) -> Generator
        ensures { result ≡ beginning seed }
    {
        Generator {
            alloc,
            draws: Draws::new(seed),
            moment: 1_000_000,
            last: 0,
            live: Vec::new(alloc),
            exchanges: Vec::new(alloc),
            counts: Counts::new(),
        }
    }

    /// The moment of the event that was made last, in whole seconds since 1970.
    pub fn moment(&self) -> u64
        ensures { result ≡ self.now.moment }
    {
        self.moment
    }

    /// A round, where the cache wants these exchanges, in ascending order of their numbers: its
    /// event, or none. Where memory is refused nothing changes.
    pub fn next(&mut self, wanted: &[u64]) -> Result<Option<Event>, NoMemory>
        requires moment { self.old.moment + 30 < 2 ^ 62 }
        requires last { self.old.last + 1 < 2 ^ 62 }
        ensures ok { IfOk result (λ made. IsRound wanted.now self.old made self.new) }
        ensures err { OnErr result (self.new ≡ self.old) }
        ensures short { IfOk result IsShortIfMade }
        ensures within_limits { IfOk result IsWithinLimitsIfMade }
        ensures later { self.old.moment ≤ self.new.moment }
        ensures moment_grows { self.new.moment ≤ self.old.moment + 30 }
        ensures last_grows { self.new.last ≤ self.old.last + 1 }
        ensures counts { self.new.counts ≡ self.old.counts }
    {
        let before = self.draws;
        let made = self.round(wanted);
        if made.is_err() {
            self.draws = before;
        }
        made
    }

    /// What the cache answered to the event that was made last. Where memory is refused nothing
    /// changes.
    pub fn hear(&mut self, acts: &[Act]) -> Result<(), NoMemory>
        ensures ok { OnOk result (self.new ≡ state_after acts.now self.old) }
        ensures err { OnErr result (self.new ≡ self.old) }
    {
        let begun = begun_in(acts)?;
        self.exchanges.reserve(1)?;
        put_begun(&mut self.exchanges, begun);
        forget_closed(&mut self.exchanges, acts);
        forget_gone(&mut self.live, acts);
        self.counts.add(acts);
        Ok(())
    }

    /// Appends the summary of all that was heard. Where memory is refused nothing changes.
    pub fn write_summary(&self, to: &mut Vec<u8>) -> Result<(), NoMemory>
        ensures ok { OnOk result (to.new.items ≡ to.old.items ++ summary_text self.now.counts) }
        ensures err { OnErr result (to.new.items ≡ to.old.items) }
    {
        let text = self.counts.text(self.alloc)?;
        to.extend_from_slice(text.as_slice())?;
        Ok(())
    }
}

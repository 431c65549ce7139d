//! Rounds of the generator on a cache in memory.
ghost use Rattle.std.specs.Prelude.{◌+◌, IfOk, OnOk, ℕ};
ghost use Rattle.hc_rules.specs.declared.room.Limits.{Limits};
ghost use Rattle.hc_replay.specs.Generates.{MayGoOn, Stands};

use hc_core::Cache;
use hc_event::Acts;
use hc_generate::Generator;
use hc_rules::Limits;
use hc_store::Memory;
use hc_text::NoMemory;
use std::alloc::Global;

/// A cache and a generator that knows what the cache wants and answers.
#[derive(Drop)]
pub(crate) struct Rounds {
    pub(crate) cache: Cache<Memory>,
    pub(crate) generator: Generator,
    /// Those of the last event.
    acts: Acts,
}

impl Rounds {
    /// No round was made yet.
    pub(crate) fn new(alloc: Global, limits: Limits, seed: u64) -> Result<Rounds, NoMemory>
        ensures { IfOk result (Stands limits seed 0) }
    {
        Ok(Rounds {
            cache: Cache::new(Memory::new(alloc, limits), limits, alloc)?,
            generator: Generator::new(alloc, seed),
            acts: Acts::new(alloc),
        })
    }

    /// A round more: where an event is made, the cache answers it, and the generator hears the
    /// answer.
    pub(crate) fn go_on(&mut self) -> Result<(), NoMemory>
        requires may { MayGoOn self.old }
        ensures { OnOk result ((limits : Limits) (seed n : ℕ)
            → Stands limits seed n self.old → Stands limits seed (n + 1) self.new) }
    {
        let Some(event) = self.generator.next(self.cache.wanted())? else {
            return Ok(());
        };
        self.acts.clear();
        let now = self.generator.moment();
        self.cache.step(now, &event, &mut self.acts)?;
        self.generator.hear(self.acts.list())?;
        Ok(())
    }
}

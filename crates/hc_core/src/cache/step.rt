//! The step of the cache.
ghost use Rattle.std.specs.Prelude.{◌≡◌, ◌+◌, ◌≤◌, ◌<◌, ◌^◌, [], true, false, IsErr, IsOk, IfOk, OnOk, OnErr};
ghost use Rattle.hc_event.specs.Acts.{act_list, spare};
ghost use Rattle.hc_event.specs.WithinLimits.{IsEventWithinLimits};
ghost use Rattle.hc_store.specs.Slots.{no_slots};
ghost use Rattle.hc_model.specs.Entries.{no_contents};
ghost use Rattle.hc_model.specs.Tables.{received_in};
ghost use Rattle.hc_state.specs.Good.{is_refused, takes_no_memory};
ghost use Rattle.hc_core.specs.Steps.{StandsFor, Steps, KeepsPromises, has_failed, last_moment, steps, bytes_received, store_in, limits_in};

use crate::cache::Cache;
use crate::rows::answer::answer;
use hc_entry::KeyTable;
use hc_event::{Acts, Event};
use hc_exch::Exchanges;
use hc_rules::Limits;
use hc_state::Rows;
use hc_store::Backend;
use hc_stored::Entries;
use hc_text::NoMemory;
use std::alloc::Global;
use std::collections::HashMap;

impl<B: Backend> Cache<B> {
    /// Stands for the empty history, over an empty store that may hold so much.
    pub fn new(store: B, limits: Limits, alloc: Global) -> Result<Cache<B>, NoMemory>
    where
        B: Drop,
        requires empty { B.slots store ≡ no_slots }
        requires limits { B.limits store ≡ limits }
        ensures stands { IfOk result (λ cache. StandsFor cache no_contents []) }
        ensures unused { IfOk result (λ cache. steps cache + bytes_received cache ≡ 0) }
        ensures store { IfOk result (λ cache. store_in cache ≡ store) }
        ensures limits { IfOk result (λ cache. limits_in cache ≡ limits) }
        ensures ready { IfOk result (λ cache. has_failed cache ≡ false) }
    {
        Ok(Cache {
            failed: false,
            last_moment: 0,
            steps: 0,
            received: 0,
            rows: Rows {
                last_start: 0,
                consumers: HashMap::new(alloc),
                exchanges: Exchanges::new(alloc),
                keys: KeyTable::new(alloc),
                entries: Entries::new(store, limits, alloc)?,
            },
        })
    }

    /// Answers an event at a moment, in seconds since 1970: its acts are appended. A denied event
    /// changes the moment and the counts alone. Where memory is refused the acts are as before, and
    /// each later step is refused too. No moment and no event is larger than those that a schedule
    /// can spell, and who starts has a number below 2^62 and asks for a target.
    pub fn step(&mut self, now: u64, event: &Event, out: &mut Acts) -> Result<(), NoMemory>
        requires later { last_moment self.old ≤ now }
        requires early { now < 2 ^ 62 }
        requires within_limits { IsEventWithinLimits event.now }
        requires few { steps self.old < 2 ^ 60 }
        requires small { bytes_received self.old + received_in event.now < 2 ^ 61 }
        ensures answered { OnOk result
            (Steps self.old self.new (act_list out.old) (act_list out.new) now event.now) }
        ensures denied { OnOk result (is_refused self.old.rows event.now ≡ true
            → self.new.rows ≡ self.old.rows) }
        ensures promised { KeepsPromises self.new }
        ensures moment { OnOk result (last_moment self.new ≡ now) }
        ensures steps { OnOk result (steps self.new ≡ steps self.old + 1) }
        ensures received { OnOk result
            (bytes_received self.new ≡ bytes_received self.old + received_in event.now) }
        ensures ready { OnOk result (has_failed self.new ≡ false) }
        ensures err { OnErr result (has_failed self.new ≡ true) }
        ensures kept { OnErr result (act_list out.new ≡ act_list out.old) }
        ensures again { has_failed self.old ≡ true → IsErr result }
        ensures frees { has_failed self.old ≡ false → takes_no_memory event.now ≡ true
            → 1024 ≤ spare out.old → IsOk result }
    {
        if self.failed {
            return Err(NoMemory);
        }
        self.failed = true;
        answer(&mut self.rows, now, event, out)?;
        self.last_moment = now;
        self.steps += 1;
        self.received += received_in(event);
        self.failed = false;
        Ok(())
    }
}

/// How many bytes a piece has.
fn received_in(event: &Event) -> u64
    ensures { result ≡ received_in event.now }
{
    match event {
        Event::Piece { bytes, .. } => bytes.len() as u64,
        _ => 0,
    }
}

//! A store in memory.
ghost use Rattle.std.specs.Prelude.{◌≡◌, ◌↔◌, ◌+◌, ◌<◌, ◌^◌, IsTrue, false};
ghost use Rattle.hc_store.specs.Slots.{weight, no_slots};
ghost use Rattle.hc_store.specs.Entries.{slots_of};

use crate::backend::{Backend, Slot};
use crate::entries::{entry_at, forget_in, keep_in, put_in, rewrite_in, seal_in};
use crate::entry::Entry;
use crate::error::StoreError;
use hc_record::{Kind, StoredHead};
use hc_rules::{Limits, SLOT_WEIGHT};
use hc_sparse::{Presence, Run, Span2, SparseBytes};
use hc_text::Key;
use slab::Slab;
use std::alloc::Global;

/// Slots in memory. It never fails.
#[derive(Drop)]
pub struct Memory {
    alloc: Global,
    limits: Limits,
    used: u64,
    entries: Slab<Entry>,
    ghost weighs: { used ≡ weight (slots_of entries) },
}

impl Memory {
    /// No slot is live.
    pub fn new(alloc: Global, limits: Limits) -> Memory
        ensures slots { ⟦<Memory as Backend>⟧.slots result ≡ no_slots }
        ensures limits { ⟦<Memory as Backend>⟧.limits result ≡ limits }
    {
        Memory {
            alloc,
            limits,
            used: 0,
            entries: Slab::new(alloc),
        }
    }

    /// Whether all slots would weigh too much with so much more.
    fn is_full(&self, more: u64) -> bool
        ensures full { IsTrue result ↔ (self.now.limits.max_total < self.now.used + more) }
        ensures fits { result ≡ false → self.now.used + more < 2 ^ 64 }
    {
        more > self.limits.max_total || self.used > self.limits.max_total - more
    }
}

impl Backend for Memory {
    ghost slots = { λ s. slots_of s.entries };

    ghost limits = { λ s. s.limits };

    ghost faults = { λ s. 0 };

    fn create(&mut self, _key: &Key, head: &StoredHead) -> Result<Slot, StoreError> {
        if self.is_full(SLOT_WEIGHT) {
            return Err(StoreError::Full);
        }
        let n = keep_in(self.alloc, &mut self.entries, head)?;
        self.used += SLOT_WEIGHT;
        Ok(Slot { n: n as u64 })
    }

    fn write_record(&mut self, slot: Slot, head: &StoredHead) -> Result<(), StoreError> {
        Ok(rewrite_in(&mut self.entries, slot.n as usize, head)?)
    }

    fn read_record(&mut self, slot: Slot) -> Result<StoredHead, StoreError> {
        Ok(entry_at(&self.entries, slot.n as usize).head.copy()?)
    }

    fn put(
        &mut self,
        slot: Slot,
        at: u64,
        x: u64,
        bytes: &[u8],
        last: Option<Kind>,
    ) -> Result<(), StoreError> {
        let n = slot.n as usize;
        let more = bytes.len() as u64;
        if entry_at(&self.entries, n).bytes.size() + more > self.limits.max_entry {
            return Err(StoreError::TooLarge);
        }
        if self.is_full(more) {
            return Err(StoreError::Full);
        }
        put_in(&mut self.entries, n, at, x, bytes, last)?;
        self.used += more;
        Ok(())
    }

    fn seal(&mut self, slot: Slot, kind: Kind, total: Option<u64>) -> Result<(), StoreError> {
        seal_in(&mut self.entries, slot.n as usize, kind, total);
        Ok(())
    }

    fn run_at(&mut self, slot: Slot, p: u64, want: usize) -> Result<Option<Run>, StoreError> {
        Ok(
            entry_at(&self.entries, slot.n as usize)
                .bytes
                .run_at(p, want)?,
        )
    }

    fn next_present(&self, slot: Slot, p: u64) -> Option<u64> {
        entry_at(&self.entries, slot.n as usize)
            .bytes
            .next_present(p)
    }

    fn covers(&self, slot: Slot, lo: u64, hi: u64) -> bool {
        entry_at(&self.entries, slot.n as usize)
            .bytes
            .covers(Span2 { lo, hi })
    }

    fn kind(&self, slot: Slot) -> Kind {
        entry_at(&self.entries, slot.n as usize).head.kind
    }

    fn used(&self) -> u64 {
        self.used
    }

    fn used_by(&self, slot: Slot) -> u64 {
        SLOT_WEIGHT + entry_at(&self.entries, slot.n as usize).bytes.size()
    }

    fn drop_slot(&mut self, slot: Slot) {
        let weight = self.used_by(slot);
        forget_in(&mut self.entries, slot.n as usize);
        self.used -= weight;
    }
}

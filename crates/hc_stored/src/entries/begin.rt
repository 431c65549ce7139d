//! Representations with which a store begins, and what gives the store back.
ghost use Rattle.std.specs.Prelude.{◌≡◌, ◌+◌, ◌≤◌, ℕ, Some, None, [], OnOk, OnErr, IfOk, IfErr};
ghost use Rattle.hc_rules.specs.declared.room.Limits.{Limits};
ghost use Rattle.hc_store.specs.Slots.{no_slots};
ghost use Rattle.hc_record.specs.Plain.{plain};
ghost use Rattle.hc_store.specs.Causes.{HasCause, IsWithin};
ghost use Rattle.hc_stored.specs.Begun.{kept_at_beginning};

use super::Entries;
use crate::entry::Entry;
use crate::order::Order;
use crate::rows::keep_in;
use hc_record::StoredHead;
use hc_rules::Limits;
use hc_store::{Backend, StoreError};
use hc_text::Key;
use std::alloc::Global;
use std::collections::HashMap;

impl<B: Backend> Entries<B> {
    ghost use Rattle.hc_stored.specs.Entries.{store_of, shelf_of};
    ghost use Rattle.hc_stored.specs.Shelf.{Becomes, Stays, first_in};

    /// Nothing is kept, as by `new`. The store comes back where memory is refused.
    pub fn over(store: B, limits: Limits, alloc: Global) -> Result<Entries<B>, B>
        requires empty { B.slots store ≡ no_slots }
        requires limits { B.limits store ≡ limits }
        ensures nothing { IfOk result (λ entries. (r : ℕ) → (shelf_of entries).kept r ≡ None) }
        ensures order { IfOk result (λ entries. (shelf_of entries).order ≡ []) }
        ensures used { IfOk result (λ entries. (shelf_of entries).used ≡ 0) }
        ensures store { IfOk result (λ entries. store_of entries ≡ store) }
        ensures back { IfErr result (λ back. back ≡ store) }
    {
        let Ok(order) = Order::new(alloc) else {
            return Err(store);
        };
        Ok(Entries {
            alloc,
            limits,
            rows: HashMap::new(alloc),
            order,
            store,
        })
    }

    /// Keeps a representation more, as `found` does, but nobody is bound to it.
    pub fn begin_with(&mut self, r: u64, key: Key, head: &StoredHead) -> Result<(), StoreError>
        requires new { (shelf_of self.old).kept r ≡ None }
        requires moments { head.now.requested ≤ head.now.answered }
        ensures ok { OnOk result (Becomes (λ _. Some (kept_at_beginning key (plain head.now)))
            (first_in r) r (shelf_of self.old) (shelf_of self.new)) }
        ensures used { OnOk result
            ((shelf_of self.new).used ≡ (shelf_of self.old).used + 32768) }
        ensures err { OnErr result (Stays (shelf_of self.old) (shelf_of self.new)) }
        ensures within { IsWithin (shelf_of self.old).limits 0
            ((shelf_of self.old).used + 32768) result }
        ensures cause { HasCause (shelf_of self.old).faults (shelf_of self.new).faults
            result }
    {
        let slot = self.store.create(&key, head)?;
        let Ok(entry) = Entry::begun(self.alloc, key, slot, head) else {
            self.store.drop_slot(slot);
            return Err(StoreError::NoMemory);
        };
        if let Err(refused) = keep_in(&mut self.rows, &mut self.order, r, entry) {
            self.store.drop_slot(slot);
            return Err(refused.into());
        }
        Ok(())
    }

    /// The store, with all that is kept.
    pub fn into_store(self) -> B
        ensures { result ≡ store_of self }
    {
        self.store
    }
}

//! What is kept of each representation, over a store.
ghost use Rattle.std.specs.Prelude.{◌≡◌, ◌+◌, ◌≤◌, ℕ, Some, None, [], IfOk, OnOk, OnErr};
ghost use Rattle.hc_record.specs.Plain.{plain};
ghost use Rattle.hc_rules.specs.declared.room.Limits.{Limits};
ghost use Rattle.hc_store.specs.Slots.{no_slots};
ghost use Rattle.hc_store.specs.Causes.{HasCause, IsWithin};
ghost use Rattle.hc_stored.specs.Kept.{founded_kept};
ghost use Rattle.hc_stored.specs.Rows.{rows_of};
ghost use Rattle.hc_stored.specs.Shelved.{AreShelved};

mod begin;
mod bytes;
mod heads;
mod idle;
mod users;
mod views;

use crate::entry::Entry;
use crate::order::Order;
use crate::rows::keep_in;
use hc_record::StoredHead;
use hc_rules::Limits;
use hc_store::{Backend, StoreError};
use hc_text::{Key, NoMemory};
use std::alloc::Global;
use std::collections::HashMap;

/// The representations that are current or to which a consumer is bound, each with its slot in a store, and
/// the order in which consumers last became bound to the current ones.
#[derive(Drop)]
pub struct Entries<B: Backend> {
    alloc: Global,
    limits: Limits,
    rows: HashMap<u64, Entry>,
    order: Order,
    store: B,
    ghost limited: { B.limits store ≡ limits },
    ghost shelved: { AreShelved (rows_of rows) order (B.slots store) },
}

impl<B: Backend> Entries<B> {
    ghost use Rattle.hc_stored.specs.Entries.{store_of, shelf_of};
    ghost use Rattle.hc_stored.specs.Shelf.{Becomes, Stays, first_in};

    /// Nothing is kept, over an empty store that may hold so much.
    pub fn new(store: B, limits: Limits, alloc: Global) -> Result<Entries<B>, NoMemory>
    where
        B: Drop,
        requires empty { B.slots store ≡ no_slots }
        requires limits { B.limits store ≡ limits }
        ensures nothing { IfOk result (λ entries. (r : ℕ) → (shelf_of entries).kept r ≡ None) }
        ensures order { IfOk result (λ entries. (shelf_of entries).order ≡ []) }
        ensures store { IfOk result (λ entries. store_of entries ≡ store) }
    {
        Ok(Entries {
            alloc,
            limits,
            rows: HashMap::new(alloc),
            order: Order::new(alloc)?,
            store,
        })
    }

    /// The store.
    pub fn store(&self) -> &B
        ensures { result.now ≡ store_of self.now }
    {
        &self.store
    }

    /// Keeps a representation more, with a new slot that has this head and no bytes. It stands first in the
    /// order, and a consumer is bound to it. Full exactly where all would weigh more than they may; a fault
    /// may come in its place.
    pub fn found(
        &mut self,
        r: u64,
        key: Key,
        head: &StoredHead,
        c: u64,
        first: bool,
        writer: Option<u64>,
    ) -> Result<(), StoreError>
        requires new { (shelf_of self.old).kept r ≡ None }
        requires moments { head.now.requested ≤ head.now.answered }
        ensures ok { OnOk result (Becomes
            (λ _. Some (founded_kept key (plain head.now) c first writer))
            (first_in r) r (shelf_of self.old) (shelf_of self.new)) }
        ensures err { OnErr result (Stays (shelf_of self.old) (shelf_of self.new)) }
        ensures within { IsWithin (shelf_of self.old).limits 0
            ((shelf_of self.old).used + 32768) result }
        ensures cause { HasCause (shelf_of self.old).faults (shelf_of self.new).faults
            result }
    {
        let slot = self.store.create(&key, head)?;
        let Ok(entry) = Entry::new(self.alloc, key, slot, head, c, first, writer) else {
            self.store.drop_slot(slot);
            return Err(StoreError::NoMemory);
        };
        if let Err(refused) = keep_in(&mut self.rows, &mut self.order, r, entry) {
            self.store.drop_slot(slot);
            return Err(refused.into());
        }
        Ok(())
    }
}

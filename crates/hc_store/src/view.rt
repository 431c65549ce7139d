//! The bytes of one slot.
ghost use Rattle.std.specs.Prelude.{◌≡◌, true};
ghost use Rattle.hc_store.specs.Slots.{is_live, cells_in};

use crate::backend::{Backend, Slot};
use hc_sparse::{Presence, Span2};

/// The bytes of one slot, which is live.
#[derive(Drop)]
pub struct SlotView<'a, B: Backend> {
    pub store: &'a B,
    pub slot: Slot,
    pub ghost live: { is_live (B.slots store.now) slot.n ≡ true },
}

impl<'a, B: Backend> Presence for SlotView<'a, B> {
    ghost cells = { λ v. cells_in (B.slots v.store.now) v.slot.n };

    fn covers(&self, span: Span2) -> bool {
        self.store.covers(self.slot, span.lo, span.hi)
    }

    fn next_present(&self, p: u64) -> Option<u64> {
        self.store.next_present(self.slot, p)
    }
}

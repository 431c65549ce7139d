//! The bytes of representations.
ghost use Rattle.std.specs.Prelude.{◌≡◌, ◌+◌, ◌≤◌, ◌<◌, ◌^◌, ◌↔◌, IsTrue, ℕ, true, length, option_map, IfOk, IfSome, OnOk, OnErr};
ghost use Rattle.hc_sparse.specs.Cells.{AreAbsent, Covers, IsNext};
ghost use Rattle.hc_sparse.specs.Stretch.{stretch};
ghost use Rattle.hc_store.specs.Causes.{HasCause, IsWithin, HasNoLimit};
ghost use Rattle.hc_store.specs.Slots.{cells_in};
ghost use Rattle.hc_stored.specs.Kept.{kept_with_bytes};

use super::Entries;
use crate::rows::{fill_in, slot_in};
use hc_record::Kind;
use hc_sparse::Run;
use hc_store::{Backend, SlotView, StoreError};

impl<B: Backend> Entries<B> {
    ghost use Rattle.hc_stored.specs.Entries.{shelf_of};
    ghost use Rattle.hc_stored.specs.Shelf.{is_kept, cells_at, size_at, same_order, Becomes, Stays};

    /// Puts bytes of the exchange `x` at absent positions, all of them or none, with the kind where `last`
    /// has one. TooLarge exactly where the representation would have more bytes than it may, and else Full
    /// exactly where all would weigh more than they may; a fault may come in place of either.
    pub fn put(
        &mut self,
        r: u64,
        at: u64,
        x: u64,
        bytes: &[u8],
        last: Option<Kind>,
    ) -> Result<(), StoreError>
        requires there { is_kept (shelf_of self.old) r ≡ true }
        requires some { 0 < length bytes.now }
        requires absent { AreAbsent (cells_at (shelf_of self.old) r) at (at + length bytes.now) }
        requires end { at + length bytes.now ≤ 2 ^ 62 }
        ensures ok { OnOk result (Becomes
            (option_map (kept_with_bytes at x bytes.now last)) same_order
            r (shelf_of self.old) (shelf_of self.new)) }
        ensures used { OnOk result
            ((shelf_of self.new).used ≡ (shelf_of self.old).used + length bytes.now) }
        ensures err { OnErr result (Stays (shelf_of self.old) (shelf_of self.new)) }
        ensures within { IsWithin (shelf_of self.old).limits
            (size_at (shelf_of self.old) r + length bytes.now)
            ((shelf_of self.old).used + length bytes.now) result }
        ensures cause { HasCause (shelf_of self.old).faults (shelf_of self.new).faults
            result }
    {
        let end = at + bytes.len() as u64;
        self.store.put(slot_in(&self.rows, r), at, x, bytes, last)?;
        fill_in(&mut self.rows, r, end, last);
        Ok(())
    }

    /// The longest stretch from `p` on that one exchange delivered, at most `want` bytes long. None where
    /// `p` is absent.
    pub fn run_at(&mut self, r: u64, p: u64, want: usize) -> Result<Option<Run>, StoreError>
        requires there { is_kept (shelf_of self.old) r ≡ true }
        requires want { 0 < want }
        ensures run { IfOk result (λ run. run ≡ stretch (cells_at (shelf_of self.old) r) p want) }
        ensures same { Stays (shelf_of self.old) (shelf_of self.new) }
        ensures no_limit { HasNoLimit result }
        ensures cause { HasCause (shelf_of self.old).faults (shelf_of self.new).faults
            result }
    {
        self.store.run_at(slot_in(&self.rows, r), p, want)
    }

    /// Whether all positions from `lo` to below `hi` are present.
    pub fn covers(&self, r: u64, lo: u64, hi: u64) -> bool
        requires { is_kept (shelf_of self.now) r ≡ true }
        ensures { IsTrue result ↔ Covers (cells_at (shelf_of self.now) r) lo hi }
    {
        self.store.covers(slot_in(&self.rows, r), lo, hi)
    }

    /// The least present position that is not below `p`.
    pub fn next_present(&self, r: u64, p: u64) -> Option<u64>
        requires { is_kept (shelf_of self.now) r ≡ true }
        ensures next { IsNext (cells_at (shelf_of self.now) r) p result }
        ensures below { IfSome result (λ n. n < 2 ^ 62) }
    {
        self.store.next_present(slot_in(&self.rows, r), p)
    }

    /// The bytes, as others look at them.
    pub fn bytes(&self, r: u64) -> SlotView<'_, B>
        requires { is_kept (shelf_of self.now) r ≡ true }
        ensures { cells_in (B.slots result.store.now) result.slot.n
            ≡ cells_at (shelf_of self.now) r }
    {
        SlotView {
            store: &self.store,
            slot: slot_in(&self.rows, r),
        }
    }
}

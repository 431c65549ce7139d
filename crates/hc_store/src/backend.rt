//! What a store is.
ghost use Rattle.std.specs.Prelude.{◌≡◌, ◌+◌, ◌≤◌, ◌<◌, ◌^◌, ◌↔◌, IsTrue, ℕ, Some, None, true, false, length, is_some, IfOk, OnOk, OnErr, IfSome, IsErrOf};

use crate::error::StoreError;
use hc_record::{Kind, StoredHead};
use hc_sparse::Run;
use hc_text::Key;

/// Names a slot.
#[derive(Clone, Copy, Debug, PartialEq, Eq)]
pub struct Slot {
    pub n: u64,
}

/// Slots, each with the record of a head and sparse bytes. A slot that a call names is live.
///
/// A call leaves every other slot as it was, and a refused one leaves all. Fault comes only where
/// the count of faults rose in that call; want of memory changes nothing and is no fault.
pub trait Backend {
    ghost use Rattle.hc_record.specs.declared.kind.Kind.{Kind};
    ghost use Rattle.hc_rules.specs.declared.room.Limits.{Limits};
    ghost use Rattle.hc_store.specs.declared.error.StoreError.{StoreError};
    ghost use Rattle.hc_store.specs.declared.error.StoreError.TheVariants.{Fault};
    ghost use Rattle.hc_record.specs.Plain.{plain};
    ghost use Rattle.hc_store.specs.Slots.{Slots, with_slot, with_bare, slots_after, rewrites, puts, seals, head_in, kind_in, cells_in, size_in, is_live, weigh, weight};
    ghost use Rattle.hc_store.specs.Causes.{HasCause, IsWithin, HasNoLimit};
    ghost use Rattle.hc_sparse.specs.Cells.{AreAbsent, Covers, IsNext};
    ghost use Rattle.hc_sparse.specs.Stretch.{stretch};

    /// What each live slot holds.
    ghost slots: { Self → Slots };

    /// How much it may hold.
    ghost limits: { Self → Limits };

    /// How often a call has failed.
    ghost faults: { Self → ℕ };

    /// A new slot with this head and no bytes. Full exactly where all slots would weigh more than
    /// they may; a fault may come in its place.
    fn create(&mut self, key: &Key, head: &StoredHead) -> Result<Slot, StoreError>
        ensures new { IfOk result (λ slot. is_live (slots self.old) slot.n ≡ false) }
        ensures ok { IfOk result
            (λ slot. slots self.new ≡ with_bare slot.n (plain head.now) (slots self.old)) }
        ensures err { OnErr result (slots self.new ≡ slots self.old) }
        ensures within { IsWithin (limits self.old) 0 (weight (slots self.old) + 32768) result }
        ensures limits { limits self.new ≡ limits self.old }
        ensures cause { HasCause (faults self.old) (faults self.new) result };

    /// Gives a slot another head, and keeps its bytes.
    fn write_record(&mut self, slot: Slot, head: &StoredHead) -> Result<(), StoreError>
        requires { is_live (slots self.old) slot.n ≡ true }
        ensures ok { OnOk result
            (slots self.new ≡ slots_after (rewrites (plain head.now)) slot.n (slots self.old)) }
        ensures err { OnErr result (slots self.new ≡ slots self.old) }
        ensures no_limit { HasNoLimit result }
        ensures limits { limits self.new ≡ limits self.old }
        ensures cause { HasCause (faults self.old) (faults self.new) result };

    /// The head that was written last.
    fn read_record(&mut self, slot: Slot) -> Result<StoredHead, StoreError>
        requires { is_live (slots self.old) slot.n ≡ true }
        ensures head { IfOk result (λ head. head_in (slots self.old) slot.n ≡ Some (plain head)) }
        ensures same { slots self.new ≡ slots self.old }
        ensures no_limit { HasNoLimit result }
        ensures limits { limits self.new ≡ limits self.old }
        ensures cause { HasCause (faults self.old) (faults self.new) result };

    /// Puts bytes of the exchange `x` at absent positions, all of them or none, with the kind where
    /// `last` has one. TooLarge exactly where the slot would have more bytes than it may, and else
    /// Full exactly where all slots would weigh more than they may; a fault may come in place of
    /// either.
    fn put(
        &mut self,
        slot: Slot,
        at: u64,
        x: u64,
        bytes: &[u8],
        last: Option<Kind>,
    ) -> Result<(), StoreError>
        requires live { is_live (slots self.old) slot.n ≡ true }
        requires absent { AreAbsent (cells_in (slots self.old) slot.n) at (at + length bytes.now) }
        requires end { at + length bytes.now ≤ 2 ^ 62 }
        ensures ok { OnOk result
            (slots self.new ≡ slots_after (puts at x bytes.now last) slot.n (slots self.old)) }
        ensures err { OnErr result (slots self.new ≡ slots self.old) }
        ensures within { IsWithin (limits self.old)
            (size_in (slots self.old) slot.n + length bytes.now)
            (weight (slots self.old) + length bytes.now) result }
        ensures limits { limits self.new ≡ limits self.old }
        ensures cause { HasCause (faults self.old) (faults self.new) result };

    /// Sets kind and total of a slot, and keeps all else. It takes no memory.
    fn seal(&mut self, slot: Slot, kind: Kind, total: Option<u64>) -> Result<(), StoreError>
        requires live { is_live (slots self.old) slot.n ≡ true }
        requires total { IfSome total (λ n. n < 2 ^ 62) }
        ensures ok { OnOk result
            (slots self.new ≡ slots_after (seals kind total) slot.n (slots self.old)) }
        ensures err { OnErr result (slots self.new ≡ slots self.old) }
        ensures only { (error : StoreError) → IsErrOf result error → error ≡ Fault }
        ensures limits { limits self.new ≡ limits self.old }
        ensures cause { HasCause (faults self.old) (faults self.new) result };

    /// The longest stretch of a slot from `p` on that one exchange delivered, at most `want` bytes
    /// long. None where `p` is absent.
    fn run_at(&mut self, slot: Slot, p: u64, want: usize) -> Result<Option<Run>, StoreError>
        requires live { is_live (slots self.old) slot.n ≡ true }
        requires want { 0 < want }
        ensures run { IfOk result (λ run. run ≡ stretch (cells_in (slots self.old) slot.n) p want) }
        ensures same { slots self.new ≡ slots self.old }
        ensures no_limit { HasNoLimit result }
        ensures limits { limits self.new ≡ limits self.old }
        ensures cause { HasCause (faults self.old) (faults self.new) result };

    /// The least present position of a slot that is not below `p`.
    fn next_present(&self, slot: Slot, p: u64) -> Option<u64>
        requires { is_live (slots self.now) slot.n ≡ true }
        ensures next { IsNext (cells_in (slots self.now) slot.n) p result }
        ensures below { IfSome result (λ n. n < 2 ^ 62) };

    /// Whether all positions of a slot from `lo` to below `hi` are present.
    fn covers(&self, slot: Slot, lo: u64, hi: u64) -> bool
        requires { is_live (slots self.now) slot.n ≡ true }
        ensures { IsTrue result ↔ Covers (cells_in (slots self.now) slot.n) lo hi };

    /// The kind of a slot's head.
    fn kind(&self, slot: Slot) -> Kind
        requires { is_live (slots self.now) slot.n ≡ true }
        ensures { kind_in (slots self.now) slot.n ≡ Some result };

    /// What all live slots weigh: their body bytes, and 32,768 for each.
    fn used(&self) -> u64
        ensures { result ≡ weight (slots self.now) };

    /// What a slot weighs: its body bytes, and 32,768.
    fn used_by(&self, slot: Slot) -> u64
        requires { is_live (slots self.now) slot.n ≡ true }
        ensures { result ≡ weigh (slots self.now slot.n) };

    /// Drops a slot with all that it holds.
    fn drop_slot(&mut self, slot: Slot)
        requires { is_live (slots self.old) slot.n ≡ true }
        ensures dropped { slots self.new ≡ with_slot slot.n None (slots self.old) }
        ensures limits { limits self.new ≡ limits self.old }
        ensures faults { faults self.new ≡ faults self.old };
}

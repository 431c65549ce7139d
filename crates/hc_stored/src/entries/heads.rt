//! The heads of representations.
ghost use Rattle.std.specs.Prelude.{◌≡◌, ◌≤◌, ◌<◌, ◌^◌, ℕ, Some, true, option_map, IfOk, IfSome, OnOk, OnErr, IsErrOf};
ghost use Rattle.hc_record.specs.Plain.{plain};
ghost use Rattle.hc_store.specs.declared.error.StoreError.{StoreError};
ghost use Rattle.hc_store.specs.declared.error.StoreError.TheVariants.{Fault};
ghost use Rattle.hc_store.specs.Causes.{HasCause, HasNoLimit};
ghost use Rattle.hc_stored.specs.Kept.{with_head, sealed_kept};

use super::Entries;
use crate::rows::{report_in, seal_in, slot_in};
use crate::summary::HeadSummary;
use hc_record::{Kind, StoredHead};
use hc_store::{Backend, StoreError};

impl<B: Backend> Entries<B> {
    ghost use Rattle.hc_stored.specs.Entries.{shelf_of};
    ghost use Rattle.hc_stored.specs.Shelf.{is_kept, head_at, same_order, Becomes, Stays};

    /// The head that was written last.
    pub fn head(&mut self, r: u64) -> Result<StoredHead, StoreError>
        requires { is_kept (shelf_of self.old) r ≡ true }
        ensures head { IfOk result (λ head. head_at (shelf_of self.old) r ≡ Some (plain head)) }
        ensures same { Stays (shelf_of self.old) (shelf_of self.new) }
        ensures no_limit { HasNoLimit result }
        ensures cause { HasCause (shelf_of self.old).faults (shelf_of self.new).faults
            result }
    {
        self.store.read_record(slot_in(&self.rows, r))
    }

    /// Another head, and the same bytes.
    pub fn update(&mut self, r: u64, head: &StoredHead) -> Result<(), StoreError>
        requires there { is_kept (shelf_of self.old) r ≡ true }
        requires moments { head.now.requested ≤ head.now.answered }
        ensures ok { OnOk result (Becomes (option_map (with_head (plain head.now))) same_order
            r (shelf_of self.old) (shelf_of self.new)) }
        ensures err { OnErr result (Stays (shelf_of self.old) (shelf_of self.new)) }
        ensures no_limit { HasNoLimit result }
        ensures cause { HasCause (shelf_of self.old).faults (shelf_of self.new).faults
            result }
    {
        let summary = HeadSummary::of(head)?;
        self.store.write_record(slot_in(&self.rows, r), head)?;
        report_in(&mut self.rows, r, summary);
        Ok(())
    }

    /// Another kind and total, and the same bytes. It takes no memory.
    pub fn seal(&mut self, r: u64, kind: Kind, total: Option<u64>) -> Result<(), StoreError>
        requires there { is_kept (shelf_of self.old) r ≡ true }
        requires total { IfSome total (λ n. n < 2 ^ 62) }
        ensures ok { OnOk result (Becomes (option_map (sealed_kept kind total)) same_order
            r (shelf_of self.old) (shelf_of self.new)) }
        ensures err { OnErr result (Stays (shelf_of self.old) (shelf_of self.new)) }
        ensures only { (error : StoreError) → IsErrOf result error → error ≡ Fault }
        ensures cause { HasCause (shelf_of self.old).faults (shelf_of self.new).faults
            result }
    {
        self.store.seal(slot_in(&self.rows, r), kind, total)?;
        seal_in(&mut self.rows, r, kind, total);
        Ok(())
    }
}

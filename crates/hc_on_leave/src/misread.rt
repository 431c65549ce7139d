//! What can't be read.
ghost use Rattle.std.specs.Prelude.{◌≡◌, ◌≢◌, ◌≤◌, true, is_some, nat_eq, OnOk, OnErr};
ghost use Rattle.std.specs.HashMap.{get};
ghost use Rattle.hc_event.specs.Acts.{act_list, spare};
ghost use Rattle.hc_stored.specs.Entries.{shelf_of};
ghost use Rattle.hc_store.specs.declared.error.StoreError.TheVariants as errors;
ghost use Rattle.hc_state.specs.Reads.{AnswersMisread};
ghost use Rattle.hc_state.specs.Stands.{Stands};

use crate::acts::put;
use crate::close::close;
use crate::evict::let_go;
use crate::gone::remove_consumer;
use hc_event::{Act, Acts, Cause};
use hc_state::Rows;
use hc_store::{Backend, StoreError};
use hc_text::NoMemory;

/// A read of what the consumer is bound to, or of what is current for it, failed: that is want of
/// memory, or the store failed. Then the consumer is told so and leaves, what nobody reads any more
/// is closed, and nobody new is bound to what can't be read.
pub fn misread_by<B: Backend>(
    rows: &mut Rows<B>,
    now: u64,
    c: u64,
    r: u64,
    error: StoreError,
    out: &mut Acts,
) -> Result<(), NoMemory>
    requires stands { ∥ Stands rows.old ∥₁ }
    requires live { is_some (get nat_eq rows.old.consumers c) ≡ true }
    requires room { 2 ≤ spare out.old }
    ensures failed { OnOk result (error ≢ errors.NoMemory) }
    ensures memory { OnErr result (error ≡ errors.NoMemory) }
    ensures answers { OnOk result (AnswersMisread rows.old rows.new
        (act_list out.old) (act_list out.new) now c r) }
    ensures faults { (shelf_of rows.new.entries).faults ≡ (shelf_of rows.old.entries).faults }
    ensures kept { OnErr result (act_list out.new ≡ act_list out.old) }
{
    if let StoreError::NoMemory = error {
        return Err(NoMemory);
    }
    let cause = Cause::StoreRead(r);
    put(out, Act::Failed { c, cause });
    let left = remove_consumer(rows, c);
    let_go(rows, now, r);
    if let Some(x) = left {
        close(rows, x, out);
    }
    Ok(())
}

//! What is lost while it is written for several.
ghost use Rattle.std.specs.Prelude.{◌≡◌, ◌+◌, ◌≤◌, ◌++◌, ◌∷◌, [], true, Some, option_map, IfOk, OnErr};
ghost use Rattle.hc_event.specs.Acts.{act_list, spare};
ghost use Rattle.hc_event.specs.declared.act.Act.TheVariants as act;
ghost use Rattle.hc_stored.specs.Entries.{shelf_of};
ghost use Rattle.hc_stored.specs.Shelf.{is_kept, Stays};
ghost use Rattle.hc_exch.specs.Exchanges.{table_of};
ghost use Rattle.hc_exch.specs.Known.{is_open};
ghost use Rattle.hc_model.specs.Rows.{Tables, Representation};
ghost use Rattle.hc_rules.specs.declared.room.Limits.{Limits};
ghost use Rattle.hc_state.specs.DetachedReaders.{MayLoseShared, LosesShared, LosesGroup};
ghost use Rattle.hc_state.specs.Stands.{RowsStand};
ghost use Rattle.hc_event.specs.declared.act.LostKind.{LostKind};
ghost use Rattle.hc_store.specs.declared.error.StoreError.TheVariants as errors;
ghost use Rattle.hc_state.specs.Room.{loss_by};
ghost use Rattle.hc_on_leave.specs.Leaves.{KeepsAround};
ghost use Rattle.hc_on_leave.specs.Reporting.{reported_among};
ghost use Rattle.hc_stored.specs.Grouped.{group_of};
ghost use Rattle.hc_stored.specs.Views.{bound_in};

use crate::acts::put;
use crate::close::close;
use crate::evict::let_go;
use hc_event::{Act, Acts, Cause, LostKind};
use hc_state::{Rows, part};
use hc_store::{Backend, StoreError};
use hc_stored::Entries;
use hc_text::NoMemory;
use hc_txn::Transaction;
use std::collections::HashMap;

/// A write of what the exchange writes for several was refused. Where one of them has read all
/// that is stored, it goes on alone with the exchange; to each other a failure is due. Who goes
/// on, if anybody.
pub fn lose_shared<B: Backend>(
    rows: &mut Rows<B>,
    now: u64,
    r: u64,
    x: u64,
    kind: LostKind,
    out: &mut Acts,
) -> Option<u64>
    requires there { is_kept (shelf_of rows.old.entries) r ≡ true }
    requires room { 1 ≤ spare out.old }
    ensures lost { (limits : Limits) (t : Tables) (v : Representation) → MayLoseShared t r x v
        → RowsStand limits rows.old t → LosesShared limits rows.new t now r x v result }
    ensures acts { act_list out.new ≡ act_list out.old ++ act.Lost r kind ∷ [] }
    ensures room { spare out.new + 1 ≡ spare out.old }
    ensures around { KeepsAround rows.old rows.new }
{
    report_offsets(&mut rows.entries, &rows.consumers, r);
    let survivor = rows.entries.lose_shared(r);
    let cause = Cause::StoreWrite(r);
    part(
        &mut rows.consumers,
        rows.entries.bound(r),
        survivor,
        x,
        cause,
    );
    put(out, Act::Lost { r, kind });
    let_go(rows, now, r);
    survivor
}

/// The same, and the exchange is closed where nobody goes on with it.
pub fn lose_group<B: Backend>(
    rows: &mut Rows<B>,
    now: u64,
    r: u64,
    x: u64,
    kind: LostKind,
    out: &mut Acts,
)
    requires there { is_kept (shelf_of rows.old.entries) r ≡ true }
    requires running { is_open x (table_of rows.old.exchanges) ≡ true }
    requires room { 2 ≤ spare out.old }
    ensures lost { (limits : Limits) (t : Tables) (v : Representation) → MayLoseShared t r x v
        → RowsStand limits rows.old t
        → LosesGroup limits rows.new t (act_list out.old) (act_list out.new) now r x v kind }
    ensures faults { (shelf_of rows.new.entries).faults ≡ (shelf_of rows.old.entries).faults }
{
    if lose_shared(rows, now, r, x, kind, out).is_none() {
        close(rows, x, out);
    }
}

/// The writer group of the representation is told where each of its members stands.
fn report_offsets<B: Backend>(
    entries: &mut Entries<B>,
    consumers: &HashMap<u64, Transaction>,
    r: u64,
)
    ensures stays { Stays (shelf_of entries.old) (shelf_of entries.new) }
    ensures faults { (shelf_of entries.new).faults ≡ (shelf_of entries.old).faults }
    ensures reported { group_of entries.new r ≡ option_map
        (reported_among consumers.now (bound_in ((shelf_of entries.old).kept r)))
        (group_of entries.old r) }
{
    for i in 0..entries.bound(r).len() {
        let c = entries.bound(r)[i];
        if let Some(consumer) = consumers.get(&c) {
            let offset = consumer.lo.saturating_add(consumer.given);
            entries.set_offset(r, c, offset);
        }
    }
}

/// Why what the store refuses is lost. Want of memory is no loss.
pub fn lost_kind(error: StoreError) -> Result<LostKind, NoMemory>
    ensures lost { IfOk result (λ kind. loss_by error ≡ Some kind) }
    ensures memory { OnErr result (error ≡ errors.NoMemory) }
{
    match error {
        StoreError::Fault => Ok(LostKind::Fault),
        StoreError::TooLarge => Ok(LostKind::TooLarge),
        StoreError::Full => Ok(LostKind::Full),
        StoreError::NoMemory => Err(NoMemory),
    }
}

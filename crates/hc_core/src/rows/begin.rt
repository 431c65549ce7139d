//! What is kept where a cache begins with contents.
ghost use Rattle.std.specs.Prelude.{◌≡◌, ◌+◌, ◌≤◌, ◌<◌, ◌^◌, ℕ, Some, None, [], true, option_map, IfOk, IfErr, OnOk};
ghost use Rattle.hc_store.specs.Slots.{no_slots};
ghost use Rattle.hc_store.specs.Causes.{HasCause, HasNoLimit};
ghost use Rattle.hc_stored.specs.Begun.{with_runs};
ghost use Rattle.hc_stored.specs.Entries.{shelf_of, store_of};
ghost use Rattle.hc_stored.specs.Shelf.{Becomes, is_kept, cells_at, same_order};
ghost use Rattle.hc_rules.specs.Rooms.{weight_of};
ghost use Rattle.hc_contents.specs.PlainContents.{plain_contents, plain_item};
ghost use Rattle.hc_model.specs.Beginnings.{may_begin, ascend_from};
ghost use Rattle.hc_model.specs.Tables.{first_tables, bytes_in, last_end};
ghost use Rattle.hc_state.specs.Stands.{RowsStand};
ghost use Rattle.hc_core.specs.Begins.{with_items, KeepsItem};

use hc_contents::{Content, Contents};
use hc_entry::KeyTable;
use hc_exch::Exchanges;
use hc_rules::Limits;
use hc_sparse::Run;
use hc_state::Rows;
use hc_store::{Backend, StoreError};
use hc_stored::Entries;
use std::alloc::Global;
use std::collections::HashMap;

/// Nothing is kept yet, over an empty store, and the numbers are those of the contents. The store
/// comes back where memory is refused.
pub(crate) fn before<B: Backend>(
    store: B,
    limits: Limits,
    contents: &Contents,
    alloc: Global,
) -> Result<Rows<B>, B>
    requires empty { B.slots store ≡ no_slots }
    requires limits { B.limits store ≡ limits }
    requires first { 0 < contents.now.next_exchange }
    requires below { contents.now.next_exchange < 2 ^ 62 }
    ensures stands { IfOk result
        (λ rows. RowsStand (shelf_of rows.entries).limits rows
        (first_tables (with_items [] (plain_contents contents.entry.now)))) }
    ensures limits { IfOk result (λ rows. (shelf_of rows.entries).limits ≡ limits) }
    ensures used { IfOk result (λ rows. (shelf_of rows.entries).used ≡ 0) }
    ensures store { IfOk result (λ rows. store_of rows.entries ≡ store) }
    ensures back { IfErr result (λ back. back ≡ store) }
{
    let entries = match Entries::over(store, limits, alloc) {
        Ok(entries) => entries,
        Err(store) => return Err(store),
    };
    Ok(Rows {
        last_start: contents.last_consumer,
        consumers: HashMap::new(alloc),
        exchanges: Exchanges::from_number(alloc, contents.next_exchange),
        keys: KeyTable::new(alloc),
        entries,
    })
}

/// Keeps the items of contents that fit, in their order.
pub(crate) fn begin_with<B: Backend>(
    rows: &mut Rows<B>,
    contents: &Contents,
) -> Result<(), StoreError>
    requires fit { may_begin (shelf_of rows.old.entries).limits
        (plain_contents contents.now) ≡ true }
    requires start { RowsStand (shelf_of rows.old.entries).limits rows.old
        (first_tables (with_items [] (plain_contents contents.now))) }
    requires none { (shelf_of rows.old.entries).used ≡ 0 }
    ensures ok { OnOk result
        (RowsStand (shelf_of rows.new.entries).limits rows.new
        (first_tables (plain_contents contents.entry.now))) }
    ensures bounds { (shelf_of rows.new.entries).limits ≡ (shelf_of rows.old.entries).limits }
    ensures no_limit { HasNoLimit result }
    ensures cause { HasCause (shelf_of rows.old.entries).faults
        (shelf_of rows.new.entries).faults result }
{
    for item in contents.items.as_slice() {
        begin_item(rows, item)?;
    }
    Ok(())
}

/// Keeps one, which is current then.
fn begin_item<B: Backend>(rows: &mut Rows<B>, item: &Content) -> Result<(), StoreError>
    requires new { (shelf_of rows.old.entries).kept item.now.r ≡ None }
    requires moments { item.now.head.requested ≤ item.now.head.answered }
    requires ascending { ascend_from 0 0 item.now.runs ≡ true }
    requires ends { last_end item.now.runs ≤ 2 ^ 62 }
    requires small { bytes_in item.now.runs ≤ (shelf_of rows.old.entries).limits.max_entry }
    requires light { (shelf_of rows.old.entries).used + weight_of (bytes_in item.now.runs)
        ≤ (shelf_of rows.old.entries).limits.max_total }
    ensures ok { OnOk result (KeepsItem rows.old rows.new (plain_item item.now)) }
    ensures used { OnOk result ((shelf_of rows.new.entries).used
        ≡ (shelf_of rows.old.entries).used + weight_of (bytes_in item.now.runs)) }
    ensures bounds { (shelf_of rows.new.entries).limits ≡ (shelf_of rows.old.entries).limits }
    ensures no_limit { HasNoLimit result }
    ensures cause { HasCause (shelf_of rows.old.entries).faults
        (shelf_of rows.new.entries).faults result }
{
    let key = item.key.copy()?;
    rows.entries.begin_with(item.r, key, &item.head)?;
    put_runs(&mut rows.entries, item.r, item.runs.as_slice())?;
    rows.keys.make_current(&item.key, item.r)?;
    Ok(())
}

/// Puts runs that rise into what has no byte yet. They are no more than it may have, and all weigh no
/// more than they may.
fn put_runs<B: Backend>(entries: &mut Entries<B>, r: u64, runs: &[Run]) -> Result<(), StoreError>
    requires there { is_kept (shelf_of entries.old) r ≡ true }
    requires bare { (p : ℕ) → cells_at (shelf_of entries.old) r p ≡ None }
    requires ascending { ascend_from 0 0 runs.now ≡ true }
    requires ends { last_end runs.now ≤ 2 ^ 62 }
    requires small { bytes_in runs.now ≤ (shelf_of entries.old).limits.max_entry }
    requires light { (shelf_of entries.old).used + bytes_in runs.now
        ≤ (shelf_of entries.old).limits.max_total }
    ensures ok { OnOk result (Becomes (option_map (with_runs runs.now)) same_order r
        (shelf_of entries.old) (shelf_of entries.new)) }
    ensures used { OnOk result ((shelf_of entries.new).used
        ≡ (shelf_of entries.old).used + bytes_in runs.now) }
    ensures bounds { (shelf_of entries.new).limits ≡ (shelf_of entries.old).limits }
    ensures no_limit { HasNoLimit result }
    ensures cause { HasCause (shelf_of entries.old).faults (shelf_of entries.new).faults
        result }
{
    for run in runs {
        entries.put(r, run.at, run.x, bytes_of(run), None)?;
    }
    Ok(())
}

fn bytes_of(run: &Run) -> &[u8]
    ensures { result.now ≡ run.now.bytes }
{
    run.bytes.as_slice()
}

//! As what consumers are bound to what is stored, and who of them writes it alone.
ghost use Rattle.std.specs.Prelude.{◌≡◌, ◌+◌, ◌<◌, ◌^◌, Some, None, true, option_map};
ghost use Rattle.hc_exch.specs.Exchanges.{table_of};
ghost use Rattle.hc_stored.specs.Entries.{shelf_of};
ghost use Rattle.hc_stored.specs.Shelf.{is_kept};
ghost use Rattle.hc_stored.specs.Views.{view_of};
ghost use Rattle.hc_state.specs.Candidates.{ExclusiveIs, HasMoreIs, KindIs};
ghost use Rattle.hc_state.specs.Leaving.{group_by};
ghost use Rattle.hc_state.specs.Stands.{Stands};

use crate::writer_group::{group_in, if_running};
use hc_rules::BoundKind;
use hc_state::{Rows, Transaction};
use hc_store::Backend;
use hc_stored::EntryView;

/// As what all are bound who are bound to the representation, of which this is told.
pub fn kind_of<B: Backend>(rows: &Rows<B>, r: u64, entry: &EntryView) -> BoundKind
    requires stands { ∥ Stands rows.now ∥₁ }
    requires entry { option_map view_of ((shelf_of rows.now.entries).kept r) ≡ Some entry.now }
    ensures { KindIs rows.now r result }
{
    if group_in(rows, entry).is_some() {
        return BoundKind::Shared;
    }
    match alone_in(rows, r, entry) {
        Some(_) => BoundKind::Exclusive,
        None => BoundKind::Reader,
    }
}

/// Who writes the representation alone: it came alone, has no failure due, and more to come.
pub fn exclusive<B: Backend>(rows: &Rows<B>, r: u64) -> Option<u64>
    requires stands { ∥ Stands rows.now ∥₁ }
    ensures { ExclusiveIs rows.now r result }
{
    let entry = rows.entries.entry(r)?;
    if group_in(rows, &entry).is_some() {
        return None;
    }
    alone_in(rows, r, &entry)
}

/// The same, where this is told of the representation, and no writer group of it is on.
fn alone_in<B: Backend>(rows: &Rows<B>, r: u64, entry: &EntryView) -> Option<u64>
    requires stands { ∥ Stands rows.now ∥₁ }
    requires entry { option_map view_of ((shelf_of rows.now.entries).kept r) ≡ Some entry.now }
    requires unwritten { group_by (table_of rows.now.exchanges) entry.now ≡ None }
    ensures { ExclusiveIs rows.now r result }
{
    let c = entry.first?;
    let consumer = rows.consumers.get(&c)?;
    if consumer.due.is_some() {
        return None;
    }
    if has_more(rows, r, consumer) {
        Some(c)
    } else {
        None
    }
}

/// Whether the consumer has more to come: an exchange of its own, or a hole ahead.
fn has_more<B: Backend>(rows: &Rows<B>, r: u64, consumer: &Transaction) -> bool
    requires there { is_kept (shelf_of rows.now.entries) r ≡ true }
    requires counts { consumer.now.lo + consumer.now.given < 2 ^ 63 }
    ensures { HasMoreIs rows.now r consumer.now result }
{
    if if_running(rows, consumer.own).is_some() {
        return true;
    }
    match consumer.hi {
        Some(hi) => !rows.entries.covers(r, consumer.offset(), hi),
        None => false,
    }
}

//! Entries by the numbers of their representations: one changes, and the others stay.
ghost use Rattle.std.specs.Prelude.{◌≡◌, ◌≤◌, ◌^◌, ℕ, ◌∷◌, Some, None, is_some, nat_eq, option_map, true, false, OnOk, OnErr};
ghost use Rattle.hc_text.specs.Sorted.{has, itself};
ghost use Rattle.std.specs.Option.{option_and_then};
ghost use Rattle.hc_writers.specs.Group.{survivor};
ghost use Rattle.hc_entry.specs.Used.{left_answer, moved_if_member};
ghost use Rattle.hc_stored.specs.Grouped.{group_at};
ghost use Rattle.hc_stored.specs.Rows.{row_of, rows_of, summary_in, with_row, Changes, with_summary, reaching, sealed_as, used_by, used_first_by, unused_by, going, losing, written_in, slot_at, users_at, is_lost_row, is_over, is_unused_row};

use crate::entry::Entry;
use crate::order::Order;
use crate::summary::HeadSummary;
use hc_record::Kind;
use hc_store::Slot;
use hc_text::NoMemory;
use hc_writers::Left;
use std::collections::HashMap;

/// The slot of one.
pub(crate) fn slot_in(rows: &HashMap<u64, Entry>, r: u64) -> Slot
    requires { is_some (rows_of rows.now r) ≡ true }
    ensures { slot_at (rows_of rows.now r) ≡ Some result.n }
{
    rows.get(&r).unwrap().slot
}

/// Whether it is gone and nobody is bound to it.
pub(crate) fn is_over(rows: &HashMap<u64, Entry>, r: u64) -> bool
    ensures { result ≡ is_over (rows_of rows.now r) }
{
    match rows.get(&r) {
        Some(entry) => entry.gone && entry.users.bound().is_empty(),
        None => false,
    }
}

/// Whether it is there and nobody is bound to it.
pub(crate) fn is_unused(rows: &HashMap<u64, Entry>, r: u64) -> bool
    ensures { result ≡ is_unused_row (rows_of rows.now r) }
{
    match rows.get(&r) {
        Some(entry) => entry.users.bound().is_empty(),
        None => false,
    }
}

/// One more, which stands first in the order.
pub(crate) fn keep_in(
    rows: &mut HashMap<u64, Entry>,
    order: &mut Order,
    r: u64,
    entry: Entry,
) -> Result<(), NoMemory>
    requires new { rows_of rows.old r ≡ None }
    requires unlisted { has itself r order.old ≡ false }
    ensures ok { OnOk result ((q : ℕ) → rows_of rows.new q
        ≡ with_row r (Some (row_of entry)) (rows_of rows.old) q) }
    ensures first { OnOk result (order.new ≡ r ∷ order.old) }
    ensures err { OnErr result ((q : ℕ) → rows_of rows.new q ≡ rows_of rows.old q) }
    ensures unmoved { OnErr result (order.new ≡ order.old) }
{
    rows.insert(r, entry)?;
    if let Err(refused) = order.put_first(r) {
        rows.remove(&r);
        return Err(refused);
    }
    Ok(())
}

/// It is there no more. Its slot.
pub(crate) fn drop_in(rows: &mut HashMap<u64, Entry>, r: u64) -> Slot
    requires { is_some (rows_of rows.old r) ≡ true }
    ensures slot { slot_at (rows_of rows.old r) ≡ Some result.n }
    ensures changes { (q : ℕ) → rows_of rows.new q ≡ with_row r None (rows_of rows.old) q }
{
    rows.remove(&r).unwrap().slot
}

/// Its head tells this.
pub(crate) fn report_in(rows: &mut HashMap<u64, Entry>, r: u64, summary: HeadSummary)
    ensures { Changes (with_summary (summary_in summary)) r (rows_of rows.old) (rows_of rows.new) }
{
    if let Some(entry) = rows.get_mut(&r) {
        entry.summary = summary;
    }
}

/// Bytes of it came that end there, and with the last of them another kind.
pub(crate) fn fill_in(rows: &mut HashMap<u64, Entry>, r: u64, end: u64, last: Option<Kind>)
    requires { end ≤ 2 ^ 62 }
    ensures { Changes (reaching end last) r (rows_of rows.old) (rows_of rows.new) }
{
    if let Some(entry) = rows.get_mut(&r) {
        entry.fill(end, last);
    }
}

/// Another kind and total.
pub(crate) fn seal_in(rows: &mut HashMap<u64, Entry>, r: u64, kind: Kind, total: Option<u64>)
    ensures { Changes (sealed_as kind total) r (rows_of rows.old) (rows_of rows.new) }
{
    if let Some(entry) = rows.get_mut(&r) {
        entry.summary.kind = kind;
        entry.summary.total = total;
    }
}

/// One more is bound to it.
pub(crate) fn bind_in(rows: &mut HashMap<u64, Entry>, r: u64, c: u64) -> Result<(), NoMemory>
    requires { has itself c (users_at (rows_of rows.old r)) ≡ false }
    ensures ok { OnOk result (Changes (used_by c) r (rows_of rows.old) (rows_of rows.new)) }
    ensures err { OnErr result ((q : ℕ) → rows_of rows.new q ≡ rows_of rows.old q) }
{
    if let Some(entry) = rows.get_mut(&r) {
        entry.bind(c)?;
    }
    Ok(())
}

/// One more is bound to it, which comes alone.
pub(crate) fn bind_first_in(rows: &mut HashMap<u64, Entry>, r: u64, c: u64) -> Result<(), NoMemory>
    requires { has itself c (users_at (rows_of rows.old r)) ≡ false }
    ensures ok { OnOk result (Changes (used_first_by c) r (rows_of rows.old) (rows_of rows.new)) }
    ensures err { OnErr result ((q : ℕ) → rows_of rows.new q ≡ rows_of rows.old q) }
{
    if let Some(entry) = rows.get_mut(&r) {
        entry.bind_first(c)?;
    }
    Ok(())
}

/// One isn't bound to it any more. What its writer group is then.
pub(crate) fn unbind_in(
    rows: &mut HashMap<u64, Entry>,
    r: u64,
    c: u64,
    keepable: bool,
) -> Option<Left>
    requires { has itself c (users_at (rows_of rows.old r)) ≡ true }
    ensures rows { Changes (unused_by c) r (rows_of rows.old) (rows_of rows.new) }
    ensures left { result ≡ option_map (left_answer keepable c) (group_at rows.old r) }
{
    match rows.get_mut(&r) {
        Some(entry) => entry.unbind(c, keepable),
        None => None,
    }
}

/// It is gone.
pub(crate) fn go_in(rows: &mut HashMap<u64, Entry>, r: u64)
    ensures { Changes going r (rows_of rows.old) (rows_of rows.new) }
{
    if let Some(entry) = rows.get_mut(&r) {
        entry.gone = true;
    }
}

/// It is lost, and this one, if any, goes on with it.
pub(crate) fn lose_in(rows: &mut HashMap<u64, Entry>, r: u64, alone: Option<u64>)
    ensures { Changes (losing alone) r (rows_of rows.old) (rows_of rows.new) }
{
    if let Some(entry) = rows.get_mut(&r) {
        entry.lose(alone);
    }
}

/// This exchange writes it for all who are bound to it.
pub(crate) fn write_in(rows: &mut HashMap<u64, Entry>, r: u64, x: u64) -> Result<(), NoMemory>
    requires { is_lost_row (rows_of rows.old r) ≡ false }
    ensures ok { OnOk result (Changes (written_in x) r (rows_of rows.old) (rows_of rows.new)) }
    ensures err { OnErr result ((q : ℕ) → rows_of rows.new q ≡ rows_of rows.old q) }
{
    if let Some(entry) = rows.get_mut(&r) {
        entry.write(x)?;
    }
    Ok(())
}

/// A consumer that reads it along stands there.
pub(crate) fn stand_in(rows: &mut HashMap<u64, Entry>, r: u64, c: u64, offset: u64)
    ensures rows { (q : ℕ) → rows_of rows.new q ≡ rows_of rows.old q }
    ensures group { group_at rows.new r
        ≡ option_map (moved_if_member c offset) (group_at rows.old r) }
    ensures others { (q : ℕ) → nat_eq q r ≡ false → group_at rows.new q ≡ group_at rows.old q }
{
    if let Some(entry) = rows.get_mut(&r) {
        entry.set_offset(c, offset);
    }
}

/// A write of it was refused while several read it along. Who goes on, if anybody.
pub(crate) fn lose_shared_in(rows: &mut HashMap<u64, Entry>, r: u64) -> Option<u64>
    ensures survivor { result ≡ option_and_then survivor (group_at rows.old r) }
    ensures rows { Changes (losing result) r (rows_of rows.old) (rows_of rows.new) }
{
    match rows.get_mut(&r) {
        Some(entry) => entry.lose_shared(),
        None => None,
    }
}

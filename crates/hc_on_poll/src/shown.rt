//! A head that is stored is shown to who is bound.
ghost use Rattle.std.specs.Prelude.{◌≡◌, ◌≤◌, ◌<◌, ℕ, Some, true, false, nat_eq, IsSomeAnd, OnOk};
ghost use Rattle.std.specs.HashMap.{get};
ghost use Rattle.hc_event.specs.Acts.{act_list, spare};
ghost use Rattle.hc_event.specs.declared.event.Event.TheVariants.{Poll};
ghost use Rattle.hc_record.specs.Plain.{plain};
ghost use Rattle.hc_stored.specs.Entries.{shelf_of};
ghost use Rattle.hc_stored.specs.Shelf.{head_at};
ghost use Rattle.hc_exch.specs.Exchanges.{table_of};
ghost use Rattle.hc_state.specs.Reads.{IsUnshownBy, is_headless_open, waits_for_first, is_part, why_shown, AnswersPolls};
ghost use Rattle.hc_state.specs.Stands.{Answers, Stands};
ghost use Rattle.hc_state.specs.Frames.{AddsNoFault, KeepsFaults};

use crate::show::{put_shown, span_to};
use crate::wait::wait;
use hc_event::{Acts, BoundBy, Wait, Why};
use hc_on_leave::misread::misread_by;
use hc_record::StoredHead;
use hc_rules::{RequestClass, brings_part};
use hc_state::{Rows, show};
use hc_store::Backend;
use hc_text::NoMemory;
use hc_validate::shown;

/// A consumer that is bound, and was shown no head, is shown the stored one, or waits for the
/// head of its first hole.
pub(crate) fn await_stored<B: Backend>(
    rows: &mut Rows<B>,
    now: u64,
    c: u64,
    r: u64,
    by: BoundBy,
    out: &mut Acts,
) -> Result<(), NoMemory>
    requires stands { ∥ Stands rows.old ∥₁ }
    requires unshown { IsSomeAnd (get nat_eq rows.old.consumers c) (IsUnshownBy r by) }
    requires room { 2 ≤ spare out.old }
    ensures answers { OnOk result ((want : ℕ) → Answers rows.old rows.new
        (act_list out.old) (act_list out.new) now (Poll c want)) }
    ensures kept { KeepsFaults result rows.old rows.new (act_list out.old) (act_list out.new) }
{
    if let BoundBy::FirstHole(x) = by {
        if is_headless(rows, x) {
            wait(c, Wait::Head(x), out);
            return Ok(());
        }
    }
    match rows.entries.head(r) {
        Ok(head) => show_stored(rows, c, r, by, head, out),
        Err(error) => misread_by(rows, now, c, r, error, out),
    }
}

/// A consumer that is bound is shown this head, which is stored. Its length may be known since.
fn show_stored<B: Backend>(
    rows: &mut Rows<B>,
    c: u64,
    r: u64,
    by: BoundBy,
    mut head: StoredHead,
    out: &mut Acts,
) -> Result<(), NoMemory>
    requires stands { ∥ Stands rows.old ∥₁ }
    requires unshown { IsSomeAnd (get nat_eq rows.old.consumers c) (IsUnshownBy r by) }
    requires headed { waits_for_first (table_of rows.old.exchanges) by ≡ false }
    requires head { head_at (shelf_of rows.old.entries) r ≡ Some (plain head) }
    requires room { 1 ≤ spare out.old }
    ensures answers { OnOk result
        (AnswersPolls rows.old rows.new (act_list out.old) (act_list out.new) c) }
    ensures exchanges { OnOk result (rows.new.exchanges ≡ rows.old.exchanges) }
    ensures kept { AddsNoFault result rows.old rows.new (act_list out.old) (act_list out.new) }
{
    let consumer = rows.consumers.get(&c).unwrap();
    let (lo, hi) = (consumer.lo, consumer.hi);
    let ranged = is_part(consumer.class, by, head.status);
    let why = why_shown(r, by);
    head.total = head.total.or(hi);
    let shown = shown(head, why, span_to(lo, hi), ranged)?;
    show(&mut rows.consumers, c);
    put_shown(c, r, why, shown, lo, hi, out);
    Ok(())
}

/// The exchange is open and has no head yet.
pub(crate) fn is_headless<B: Backend>(rows: &Rows<B>, x: u64) -> bool
    ensures { result ≡ is_headless_open (table_of rows.now.exchanges x).running }
{
    match rows.exchanges.view(x) {
        Some(view) => !view.headed,
        None => false,
    }
}

/// Whether a part is shown, of a head with this status: to who has a range, but not to who founded
/// with the whole.
fn is_part(class: RequestClass, by: BoundBy, status: u16) -> bool
    ensures { result ≡ is_part class by status }
{
    if class.range.is_none() {
        return false;
    }
    match by {
        BoundBy::Founding => brings_part(status),
        BoundBy::FirstHole(_) | BoundBy::Plan => true,
    }
}

/// Why it is shown.
fn why_shown(r: u64, by: BoundBy) -> Why
    ensures { result ≡ why_shown r by }
{
    match by {
        BoundBy::FirstHole(x) => Why::Validated(x),
        BoundBy::Founding | BoundBy::Plan => Why::Fetched(r),
    }
}

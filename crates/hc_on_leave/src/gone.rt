//! A consumer is gone.
ghost use Rattle.std.specs.Prelude.{◌≡◌, true, false, Some, is_some, nat_eq, IsSomeAnd};
ghost use Rattle.std.specs.HashMap.{get};
ghost use Rattle.std.specs.Option.{option_or};
ghost use Rattle.hc_entry.specs.Keys.{line_of};
ghost use Rattle.hc_entry.specs.Lines.{is_in};
ghost use Rattle.hc_stored.specs.Entries.{shelf_of};
ghost use Rattle.hc_exch.specs.Exchanges.{next_of, table_of};
ghost use Rattle.hc_model.specs.Effects.{with_consumer, as_over};
ghost use Rattle.hc_model.specs.Lawful.{Lawful};
ghost use Rattle.hc_model.specs.Rows.{Tables, Consumer};
ghost use Rattle.hc_rules.specs.declared.room.Limits.{Limits};
ghost use Rattle.hc_state.specs.Leaving.{LeavesKey, Forgets, IsUserAt, UnbindsAt, LeavesPlace, left_of};
ghost use Rattle.hc_state.specs.Stands.{RowsStand};
ghost use Rattle.hc_on_leave.specs.Leaves.{MayLeave, may_wait};
ghost use Rattle.hc_on_leave.specs.Groups.{LeavesGroup, is_keepable_at, writer_group_at, unless_others};

use crate::seal::is_keepable;
use crate::writer_group::{if_running, writer_group};
use hc_entry::KeyTable;
use hc_event::{BoundBy, Place};
use hc_exch::Exchanges;
use hc_state::Rows;
use hc_store::Backend;
use hc_stored::Entries;
use hc_text::Key;
use hc_writers::Left;

/// A consumer is gone. The exchange that nobody reads any more then: its own, or that of the writer
/// group that it read along as the last one.
pub(crate) fn remove_consumer<B: Backend>(rows: &mut Rows<B>, c: u64) -> Option<u64>
    requires may { MayLeave rows.old c }
    ensures left { IsSomeAnd (get nat_eq rows.old.consumers c)
        (λ k. result ≡ left_of rows.old c k) }
    ensures stands { (limits : Limits) (t : Tables) (k : Consumer) → Lawful t
        → t.consumer c ≡ Some k → RowsStand limits rows.old t
        → RowsStand limits rows.new (with_consumer c (Some (as_over k)) t) }
    ensures faults { (shelf_of rows.new.entries).faults ≡ (shelf_of rows.old.entries).faults }
{
    let consumer = rows.consumers.get(&c).unwrap();
    let own = if_running(rows, consumer.own);
    let shared = writer_group_at(rows, consumer.place);
    let left = leave_place(rows, c);
    rows.consumers.remove(&c);
    left_over(own, shared, left)
}

/// The exchange of the writer group of what a consumer that stands there is bound to, as long as
/// that is on.
fn writer_group_at<B: Backend>(rows: &Rows<B>, place: Place) -> Option<u64>
    ensures { result
        ≡ writer_group_at (table_of rows.now.exchanges) (shelf_of rows.now.entries) place }
{
    match place {
        Place::Bound { r, .. } => writer_group(rows, r),
        _ => None,
    }
}

/// What nobody reads any more: its own exchange, or the shared one where no others stay.
fn left_over(own: Option<u64>, shared: Option<u64>, left: Option<Left>) -> Option<u64>
    ensures { result ≡ option_or own (unless_others left shared) }
{
    if own.is_some() {
        return own;
    }
    match left {
        Some(Left::Others) => None,
        _ => shared,
    }
}

/// A consumer leaves where it stands: it waits for nothing and is bound to nothing, and what is
/// held of its own exchange is forgotten. What the writer group is then.
pub fn leave_place<B: Backend>(rows: &mut Rows<B>, c: u64) -> Option<Left>
    requires may { MayLeave rows.old c }
    ensures left { IsSomeAnd (get nat_eq rows.old.consumers c)
        (λ k. LeavesGroup k.place c rows.old.entries result) }
    ensures place { IsSomeAnd (get nat_eq rows.old.consumers c) (LeavesPlace rows.old rows.new c) }
    ensures faults { (shelf_of rows.new.entries).faults ≡ (shelf_of rows.old.entries).faults }
{
    let consumer = rows.consumers.get(&c).unwrap();
    leave_key_at(&mut rows.keys, &consumer.request.key, consumer.place, c);
    forget_own(&mut rows.exchanges, consumer.own);
    unbind_from(&mut rows.entries, consumer.place, c)
}

/// A consumer that stands there waits for the key no more, if it did.
// The key is looked up only where it may wait, since mostly one leaves that has read to the end.
fn leave_key_at(keys: &mut KeyTable, key: &Key, place: Place, c: u64)
    requires { may_wait place ≡ false → is_in c (line_of keys.old key.now) ≡ false }
    ensures { LeavesKey c key.now keys.old keys.new }
{
    if may_wait(place) {
        leave_key(keys, key, c);
    }
}

/// Whether a consumer that stands there may wait for its key: in line, passed, or for the head of its
/// first hole.
fn may_wait(place: Place) -> bool
    ensures { result ≡ may_wait place }
{
    match place {
        Place::Line | Place::Passed { .. } | Place::Turn(_) => true,
        Place::Bound { by, .. } => matches!(by, BoundBy::FirstHole(_)),
        Place::Direct(_) | Place::Down(_) | Place::Over => false,
    }
}

/// A consumer waits for the key no more, if it did.
pub fn leave_key(keys: &mut KeyTable, key: &Key, c: u64)
    ensures { LeavesKey c key.now keys.old keys.new }
{
    if keys.is_in(key, c) {
        keys.leave(key, c);
    }
}

/// What is held of its own exchange, if it has one, isn't wanted any more.
fn forget_own(exchanges: &mut Exchanges, own: Option<u64>)
    ensures { Forgets own exchanges.old exchanges.new }
{
    if let Some(x) = own {
        exchanges.forget(x);
    }
}

/// It isn't bound any more, if it was. What the writer group is then.
pub fn unbind_from<B: Backend>(entries: &mut Entries<B>, place: Place, c: u64) -> Option<Left>
    requires { IsUserAt place c (shelf_of entries.old) }
    ensures left { LeavesGroup place c entries.old result }
    ensures unbound { UnbindsAt place c (shelf_of entries.old) (shelf_of entries.new) }
    ensures faults { (shelf_of entries.new).faults ≡ (shelf_of entries.old).faults }
{
    let Place::Bound { r, .. } = place else {
        return None;
    };
    let keepable = is_keepable_at(entries, r);
    entries.unbind(r, c, keepable)
}

/// What is stored of the representation can be completed later.
fn is_keepable_at<B: Backend>(entries: &Entries<B>, r: u64) -> bool
    ensures { result ≡ is_keepable_at ((shelf_of entries.now).kept r) }
{
    match entries.entry(r) {
        Some(entry) => is_keepable(&entry),
        None => false,
    }
}

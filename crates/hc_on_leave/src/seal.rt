//! What becomes of what an exchange brought when that is closed.
ghost use Rattle.std.specs.Prelude.{◌≡◌, ◌+◌, ◌≤◌, ◌<◌, ◌^◌, ◌++◌, ◌∷◌, [], ℕ, Option, true, false, Some, None, is_some, if◌then◌else◌};
ghost use Rattle.hc_event.specs.Acts.{act_list, spare};
ghost use Rattle.hc_stored.specs.Entries.{shelf_of};
ghost use Rattle.hc_exch.specs.Exchanges.{next_of, table_of};
ghost use Rattle.hc_exch.specs.Known.{is_open};
ghost use Rattle.hc_stored.specs.Shelf.{is_kept, cells_at};
ghost use Rattle.hc_event.specs.declared.act.Act.TheVariants as act;
ghost use Rattle.hc_model.specs.Effects.{with_representation, let_go, lost_to};
ghost use Rattle.hc_model.specs.Kinds.{is_complete, is_prefix};
ghost use Rattle.hc_model.specs.LettingGo.{MayLetGo};
ghost use Rattle.hc_model.specs.Rows.{Tables, Consumer, Representation};
ghost use Rattle.hc_rules.specs.declared.room.Limits.{Limits};
ghost use Rattle.hc_state.specs.Changes.{KeepsLive};
ghost use Rattle.hc_state.specs.Facts.{Facts};
ghost use Rattle.hc_state.specs.declared.stop.Disposition.TheVariants as stop;
ghost use Rattle.hc_state.specs.Stopped.{with_consumers, HoldsNothing, MayStop, HasStopped};
ghost use Rattle.hc_state.specs.Stops.{stop_of, brought_by, may_complete, IsViewOf, kind_left};
ghost use Rattle.hc_state.specs.Stands.{RowsStand};
ghost use Rattle.hc_on_leave.specs.Leaves.{MayClose};

use crate::acts::put;
use crate::evict::let_go;
use hc_event::{Act, Acts, LostKind};
use hc_exch::Role;
use hc_record::Kind;
use hc_rules::brings_whole;
use hc_state::{Disposition, Rows};
use hc_store::Backend;
use hc_stored::EntryView;

/// What becomes of what the exchange brought when that is closed.
pub(crate) fn stop_of<B: Backend>(rows: &Rows<B>, x: u64) -> Disposition
    ensures { result ≡ stop_of x (table_of rows.now.exchanges x).running
        (shelf_of rows.now.entries) }
{
    let Some(r) = brought(rows, x) else {
        return Disposition::Nothing;
    };
    let Some(entry) = rows.entries.entry(r) else {
        return Disposition::Nothing;
    };
    if entry.is_gone {
        Disposition::Nothing
    } else if x == r && brings_whole(entry.status) && !is_keepable(&entry) {
        Disposition::LetGo(r)
    } else {
        Disposition::Seal(r)
    }
}

/// The representation that the exchange brings.
pub fn brought<B: Backend>(rows: &Rows<B>, x: u64) -> Option<u64>
    ensures { result ≡ brought_by (table_of rows.now.exchanges x).running }
{
    match rows.exchanges.view(x)?.role {
        Role::Body { r } => Some(r),
        _ => None,
    }
}

/// An exchange is closed that stops; what it brought is sealed, or let go where it can't be
/// completed later. Where the seal fails it is lost, and this one, if any, goes on with it.
pub fn stop_bringing<B: Backend>(
    rows: &mut Rows<B>,
    now: u64,
    x: u64,
    alone: Option<u64>,
    out: &mut Acts,
)
    requires may { MayClose rows.old x }
    requires room { 1 ≤ spare out.old }
    ensures stopped { (limits : Limits) (t : Tables) (f : ℕ → Option Consumer) → Facts limits t
        → MayStop t f x alone → RowsStand limits rows.old (with_consumers f t)
        → HasStopped limits (shelf_of rows.old.entries).faults rows.new t f
        (act_list out.old) (act_list out.new) now x }
    ensures faults { (shelf_of rows.old.entries).faults ≤ (shelf_of rows.new.entries).faults }
{
    match stop_of(rows, x) {
        Disposition::Nothing => rows.exchanges.close(x),
        Disposition::LetGo(r) => {
            let_go(rows, now, r);
            rows.exchanges.close(x);
        }
        Disposition::Seal(r) => seal_stopped(rows, now, x, r, alone, out),
    }
}

/// The exchange is closed, and what it brought is sealed, or lost.
fn seal_stopped<B: Backend>(
    rows: &mut Rows<B>,
    now: u64,
    x: u64,
    r: u64,
    alone: Option<u64>,
    out: &mut Acts,
)
    requires may { MayClose rows.old x }
    requires there { is_kept (shelf_of rows.old.entries) r ≡ true }
    requires room { 1 ≤ spare out.old }
    ensures stopped { (limits : Limits) (t : Tables) (f : ℕ → Option Consumer) → Facts limits t
        → MayStop t f x alone → RowsStand limits rows.old (with_consumers f t)
        → stop_of x (table_of rows.old.exchanges x).running (shelf_of rows.old.entries)
        ≡ stop.Seal r
        → HasStopped limits (shelf_of rows.old.entries).faults rows.new t f
        (act_list out.old) (act_list out.new) now x }
    ensures faults { (shelf_of rows.old.entries).faults ≤ (shelf_of rows.new.entries).faults }
{
    let entry = rows.entries.entry(r).unwrap();
    let kind = kind_without(rows, r, &entry);
    match rows.entries.seal(r, kind, entry.total) {
        Ok(()) => rows.exchanges.close(x),
        Err(_) => {
            lose_to(rows, now, r, alone, LostKind::Fault, out);
            rows.exchanges.close(x);
        }
    }
}

/// What is stored of a representation of which nothing more comes.
fn kind_without<B: Backend>(rows: &Rows<B>, r: u64, entry: &EntryView) -> Kind
    requires there { is_kept (shelf_of rows.now.entries) r ≡ true }
    ensures { (v : Representation) → IsViewOf v (cells_at (shelf_of rows.now.entries) r) entry.now
        → result ≡ kind_left v }
{
    if is_complete(rows, r, entry) {
        Kind::Whole
    } else if is_prefix(rows, r, entry) {
        Kind::Truncated
    } else {
        Kind::Ranges
    }
}

/// Its length is known, and all of it is stored.
#[tactic(auto, using(hc_state::proofs::StoredKinds::complete_as, hc_state::proofs::StoredKinds::incomplete_as))]
fn is_complete<B: Backend>(rows: &Rows<B>, r: u64, entry: &EntryView) -> bool
    requires there { is_kept (shelf_of rows.now.entries) r ≡ true }
    ensures { (v : Representation) → IsViewOf v (cells_at (shelf_of rows.now.entries) r) entry.now
        → result ≡ is_complete v }
{
    match entry.total {
        Some(total) => rows.entries.covers(r, 0, total),
        None => false,
    }
}

/// What is stored of it is some first bytes.
#[tactic(auto, using(hc_state::proofs::StoredKinds::front_as, hc_state::proofs::StoredKinds::no_front_as))]
fn is_prefix<B: Backend>(rows: &Rows<B>, r: u64, entry: &EntryView) -> bool
    requires there { is_kept (shelf_of rows.now.entries) r ≡ true }
    ensures { (v : Representation) → IsViewOf v (cells_at (shelf_of rows.now.entries) r) entry.now
        → result ≡ is_prefix v }
{
    if entry.size > 0 {
        rows.entries.covers(r, 0, entry.size)
    } else {
        false
    }
}

/// A write of the representation was refused, and nothing more of it is stored: it is let go,
/// and this one, if any, goes on with it.
pub fn lose_to<B: Backend>(
    rows: &mut Rows<B>,
    now: u64,
    r: u64,
    alone: Option<u64>,
    kind: LostKind,
    out: &mut Acts,
)
    requires there { is_kept (shelf_of rows.old.entries) r ≡ true }
    requires room { 1 ≤ spare out.old }
    ensures lost { (limits : Limits) (t : Tables) (v : Representation) → MayLetGo t
        → t.representation r ≡ Some v → v.alone ≡ None → HoldsNothing t r v alone
        → RowsStand limits rows.old t
        → RowsStand limits rows.new
        (let_go now r (with_representation r (Some (lost_to alone v)) t)) }
    ensures acts { act_list out.new ≡ act_list out.old ++ act.Lost r kind ∷ [] }
    ensures room { spare out.new + 1 ≡ spare out.old }
    ensures live { KeepsLive rows.old.consumers rows.new.consumers }
    ensures last_start { rows.new.last_start ≡ rows.old.last_start }
    ensures exchanges { rows.new.exchanges ≡ rows.old.exchanges }
    ensures faults { (shelf_of rows.new.entries).faults ≡ (shelf_of rows.old.entries).faults }
{
    put(out, Act::Lost { r, kind });
    rows.entries.lose(r, alone);
    let_go(rows, now, r);
}

/// What is stored can be completed later.
pub(crate) fn is_keepable(entry: &EntryView) -> bool
    ensures { result ≡ may_complete entry.now }
{
    entry.has_tag && entry.total.is_some() && entry.size > 0 && !entry.refuses_ranges
}

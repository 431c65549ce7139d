//! Ends and faults of exchanges.
ghost use Rattle.std.specs.Prelude.{◌≡◌, ◌≤◌, ◌<◌, ◌^◌, nat_eq, true, false, None, Some, is_some};
ghost use Rattle.std.specs.HashMap.{get};
ghost use Rattle.hc_event.specs.Acts.{act_list, spare};
ghost use Rattle.hc_event.specs.declared.act.Cause.TheVariants as cause;
ghost use Rattle.hc_event.specs.declared.event.Event.TheVariants.{End, Fault};
ghost use Rattle.hc_rules.specs.Refusals.{end_refusal, fault_refusal};
ghost use Rattle.hc_stored.specs.Entries.{shelf_of};
ghost use Rattle.hc_stored.specs.Shelf.{is_kept};
ghost use Rattle.hc_exch.specs.Exchanges.{table_of};
ghost use Rattle.hc_exch.specs.Known.{is_open};
ghost use Rattle.hc_model.specs.Effects.{with_consumer, with_exchange, put_down, over};
ghost use Rattle.hc_model.specs.Denials.{denial};
ghost use Rattle.hc_model.specs.LettingGo.{MayLetGo};
ghost use Rattle.hc_model.specs.Rows.{Tables, Exchange, Representation, Consumer};
ghost use Rattle.hc_rules.specs.declared.room.Limits.{Limits};
ghost use Rattle.hc_state.specs.Changes.{ChangesAmong};
ghost use Rattle.hc_txn.specs.Transactions.{with_due};
ghost use Rattle.hc_state.specs.Facts.{Facts};
ghost use Rattle.hc_state.specs.Stands.{Answered, Answers, KeepsRest, RowsStand, Stands, open_at};
ghost use Rattle.hc_state.specs.Stopped.{BrokeOff, IsBroken, Waited, SealedWhole, ReportsNoLength};
ghost use Rattle.hc_state.specs.Stops.{alone_in, readers_of, reads_from, goes_on, is_shown};
ghost use Rattle.hc_on_leave.specs.Leaves.{MayLeave};

use hc_event::{Acts, Cause, LostKind};
use hc_on_leave::evict::is_current;
use hc_on_leave::gone::leave_place;
use hc_on_leave::seal::{brought, lose_to, stop_bringing};
use hc_on_leave::writer_group::writer_group;
use hc_record::Kind;
use hc_state::{Readers, Rows, fail_with, know_end, know_ends, make_all_due, make_due};
use hc_store::Backend;

/// An exchange breaks. Before its head, whoever was shown nothing fails by that.
pub fn fault<B: Backend>(rows: &mut Rows<B>, now: u64, x: u64, out: &mut Acts)
    requires stands { ∥ Stands rows.old ∥₁ }
    requires accepted { fault_refusal (open_at rows.old x) ≡ None }
    requires room { 1 ≤ spare out.old }
    ensures answers { Answers rows.old rows.new (act_list out.old) (act_list out.new)
        now (Fault x) }
    ensures faults { (shelf_of rows.old.entries).faults ≤ (shelf_of rows.new.entries).faults }
{
    let view = rows.exchanges.view(x).unwrap();
    if view.headed || was_shown(rows, view.c) {
        break_off(rows, now, x, Cause::Net(x), out);
    } else {
        break_wait(rows, view.c, x);
    }
}

/// An exchange ends. With less than its head promised that is a failure.
pub fn end<B: Backend>(rows: &mut Rows<B>, now: u64, x: u64, out: &mut Acts)
    requires stands { ∥ Stands rows.old ∥₁ }
    requires accepted { end_refusal (open_at rows.old x) ≡ None }
    requires room { 1 ≤ spare out.old }
    ensures answers { Answers rows.old rows.new (act_list out.old) (act_list out.new) now (End x) }
    ensures faults { (shelf_of rows.old.entries).faults ≤ (shelf_of rows.new.entries).faults }
{
    let view = rows.exchanges.view(x).unwrap();
    let got = view.delivered;
    match view.promised {
        Some(promised) => break_off(rows, now, x, Cause::Short { x, got, promised }, out),
        None => end_whole(rows, now, x, out),
    }
}

/// An exchange ends whose head told no length: all of it came.
fn end_whole<B: Backend>(rows: &mut Rows<B>, now: u64, x: u64, out: &mut Acts)
    requires stands { ∥ Stands rows.old ∥₁ }
    requires running { is_open x (table_of rows.old.exchanges) ≡ true }
    requires room { 1 ≤ spare out.old }
    ensures answers { (limits : Limits) (t : Tables) → Facts limits t → RowsStand limits rows.old t
        → denial t (End x) ≡ None → ReportsNoLength t x
        → Answered limits (shelf_of rows.old.entries).faults rows.new t
        (act_list out.old) (act_list out.new) now (End x) }
    ensures faults { (shelf_of rows.old.entries).faults ≤ (shelf_of rows.new.entries).faults }
{
    let view = rows.exchanges.view(x).unwrap();
    let got = view.delivered;
    match brought(rows, x) {
        None => {
            know_end(&mut rows.consumers, view.c, got);
            rows.exchanges.close(x);
        }
        Some(r) => {
            seal_whole(rows, now, r, got, out);
            know_ends(&mut rows.consumers, rows.entries.bound(r), got);
            rows.exchanges.close(x);
        }
    }
}

/// What is stored is sealed as whole and so long, unless it is gone. Where that fails it is
/// lost.
fn seal_whole<B: Backend>(rows: &mut Rows<B>, now: u64, r: u64, length: u64, out: &mut Acts)
    requires there { is_kept (shelf_of rows.old.entries) r ≡ true }
    requires short { length < 2 ^ 62 }
    requires room { 1 ≤ spare out.old }
    ensures sealed { (limits : Limits) (t : Tables) (v : Representation) → MayLetGo t
        → t.representation r ≡ Some v → (v.is_gone ≡ false → v.alone ≡ None)
        → RowsStand limits rows.old t
        → SealedWhole limits (shelf_of rows.old.entries).faults rows.old rows.new t
        (act_list out.old) (act_list out.new) now r v length }
    ensures exchanges { rows.new.exchanges ≡ rows.old.exchanges }
    ensures faults { (shelf_of rows.old.entries).faults ≤ (shelf_of rows.new.entries).faults }
{
    if !is_current(rows, r) {
        return;
    }
    if rows.entries.seal(r, Kind::Whole, Some(length)).is_err() {
        lose_to(rows, now, r, None, LostKind::Fault, out);
    }
}

/// Whether the consumer is live, and was shown a head.
fn was_shown<B: Backend>(rows: &Rows<B>, c: u64) -> bool
    ensures { result ≡ is_shown (get nat_eq rows.now.consumers c) }
{
    rows.consumers
        .get(&c)
        .is_some_and(|consumer| consumer.shown)
}

/// An exchange breaks before its head, and its consumer, which was shown nothing, fails by that.
fn break_wait<B: Backend>(rows: &mut Rows<B>, c: u64, x: u64)
    requires may { MayLeave rows.old c }
    requires running { is_open x (table_of rows.old.exchanges) ≡ true }
    ensures broken { (limits : Limits) (t : Tables) (w : Exchange) (k : Consumer) → Facts limits t
        → RowsStand limits rows.old t → Waited t x c w k → RowsStand limits rows.new
        (with_consumer c (Some (put_down (cause.Net x) k))
        (with_exchange x (Some (over w)) t)) }
    ensures faults { (shelf_of rows.new.entries).faults ≡ (shelf_of rows.old.entries).faults }
{
    leave_place(rows, c);
    fail_with(&mut rows.consumers, c, Cause::Net(x));
    rows.exchanges.close(x);
}

/// An exchange stops with less than it should have brought: that is due to whoever reads from
/// it.
fn break_off<B: Backend>(rows: &mut Rows<B>, now: u64, x: u64, cause: Cause, out: &mut Acts)
    requires stands { ∥ Stands rows.old ∥₁ }
    requires running { is_open x (table_of rows.old.exchanges) ≡ true }
    requires room { 1 ≤ spare out.old }
    ensures broken { (limits : Limits) (t : Tables) (w : Exchange) → Facts limits t
        → RowsStand limits rows.old t → IsBroken t x w
        → BrokeOff limits (shelf_of rows.old.entries).faults rows.new t
        (act_list out.old) (act_list out.new) now x w cause }
    ensures faults { (shelf_of rows.old.entries).faults ≤ (shelf_of rows.new.entries).faults }
{
    let readers = readers(rows, x);
    make_due_to(rows, readers, cause);
    stop_bringing(rows, now, x, alone(readers), out);
}

/// Who reads from the exchange: all who are bound to what it writes for several, or the one whose
/// own it is, which goes on with what was lost, or for which it was opened.
fn readers<B: Backend>(rows: &Rows<B>, x: u64) -> Readers
    requires { is_open x (table_of rows.now.exchanges) ≡ true }
    ensures { result ≡ readers_of x (table_of rows.now.exchanges) (shelf_of rows.now.entries) }
{
    let c = rows.exchanges.view(x).unwrap().c;
    let Some(r) = brought(rows, x) else {
        return Readers::One(c);
    };
    if writer_group(rows, r) == Some(x) {
        return Readers::All(r);
    }
    Readers::One(detached_reader(rows, r).unwrap_or(c))
}

/// Who goes on with what was lost of the representation, if anybody.
fn detached_reader<B: Backend>(rows: &Rows<B>, r: u64) -> Option<u64>
    ensures { result ≡ alone_in ((shelf_of rows.now.entries).kept r) }
{
    rows.entries.entry(r)?.alone
}

/// The failure is due to whoever reads, unless another one is.
fn make_due_to<B: Backend>(rows: &mut Rows<B>, readers: Readers, cause: Cause)
    ensures consumers { ChangesAmong rows.old.consumers rows.new.consumers
        (reads_from (shelf_of rows.old.entries) readers) (with_due cause) }
    ensures exchanges { rows.new.exchanges ≡ rows.old.exchanges }
    ensures rest { KeepsRest rows.old rows.new }
{
    match readers {
        Readers::One(c) => make_due(&mut rows.consumers, c, cause),
        Readers::All(r) => make_all_due(&mut rows.consumers, rows.entries.bound(r), cause),
    }
}

/// The detached reader where what is read is lost.
fn alone(readers: Readers) -> Option<u64>
    ensures { result ≡ goes_on readers }
{
    match readers {
        Readers::One(c) => Some(c),
        Readers::All(_) => None,
    }
}

//! Who is cancelled, ends or fails, and who leaves the line.
ghost use Rattle.std.specs.Prelude.{◌≡◌, ◌≤◌, ◌<◌, ◌^◌, ℕ, nat_eq, true, is_some, IsSomeAnd, Some, None, ◌==◌, if◌then◌else◌};
ghost use Rattle.std.specs.HashMap.{get};
ghost use Rattle.hc_event.specs.Acts.{act_list, spare};
ghost use Rattle.hc_event.specs.declared.event.Event.TheVariants.{Cancel};
ghost use Rattle.hc_stored.specs.Entries.{shelf_of};
ghost use Rattle.hc_exch.specs.Exchanges.{table_of};
ghost use Rattle.hc_exch.specs.Known.{is_open};
ghost use Rattle.hc_model.specs.Moves.{Ends, Fails};
ghost use Rattle.hc_rules.specs.declared.room.Limits.{Limits};
ghost use Rattle.hc_state.specs.Stands.{Answers, AnswersMove, Stands, RowsStand};
ghost use Rattle.hc_state.specs.Handlers.{IsQueued, IsLeft, LeavesLine};
ghost use Rattle.hc_model.specs.Currents.{is_number};
ghost use Rattle.hc_model.specs.Effects.{with_consumer, as_over, left_by};
ghost use Rattle.hc_model.specs.Rows.{Tables, Consumer};
ghost use Rattle.hc_state.specs.Facts.{Facts};
ghost use Rattle.hc_state.specs.Left.{HasLeft};
ghost use Rattle.hc_on_leave.specs.Leaves.{MayLeave};

use crate::acts::put;
use crate::gone::remove_consumer;
use crate::seal::stop_bringing;
use hc_entry::KeyTable;
use hc_event::{Act, Acts, Cause};
use hc_state::Rows;
use hc_store::Backend;

/// A consumer is cancelled, and leaves.
pub fn cancel<B: Backend>(rows: &mut Rows<B>, now: u64, c: u64, out: &mut Acts)
    requires stands { ∥ Stands rows.old ∥₁ }
    requires live { is_some (get nat_eq rows.old.consumers c) ≡ true }
    requires room { 2 ≤ spare out.old }
    ensures answers { Answers rows.old rows.new (act_list out.old) (act_list out.new)
        now (Cancel c) }
    ensures faults { (shelf_of rows.old.entries).faults ≤ (shelf_of rows.new.entries).faults }
{
    leave(rows, now, c, out);
}

/// A consumer is told its failure, and leaves.
pub fn fail<B: Backend>(rows: &mut Rows<B>, now: u64, c: u64, cause: Cause, out: &mut Acts)
    requires stands { ∥ Stands rows.old ∥₁ }
    requires live { is_some (get nat_eq rows.old.consumers c) ≡ true }
    requires room { 3 ≤ spare out.old }
    ensures answers { (want : ℕ) → AnswersMove rows.old rows.new
        (act_list out.old) (act_list out.new) now c want (Fails cause) }
    ensures faults { (shelf_of rows.old.entries).faults ≤ (shelf_of rows.new.entries).faults }
{
    put(out, Act::Failed { c, cause });
    leave(rows, now, c, out);
}

/// A consumer is told that it was given all that it reads, and leaves.
pub fn end_reading<B: Backend>(rows: &mut Rows<B>, now: u64, c: u64, out: &mut Acts)
    requires stands { ∥ Stands rows.old ∥₁ }
    requires live { is_some (get nat_eq rows.old.consumers c) ≡ true }
    requires room { 3 ≤ spare out.old }
    ensures answers { (want : ℕ) → AnswersMove rows.old rows.new
        (act_list out.old) (act_list out.new) now c want Ends }
    ensures faults { (shelf_of rows.old.entries).faults ≤ (shelf_of rows.new.entries).faults }
{
    put(out, Act::Ended { c });
    leave(rows, now, c, out);
}

/// A consumer that waits with others leaves the line of its key.
pub fn leave_line<B: Backend>(rows: &mut Rows<B>, c: u64)
    requires { IsSomeAnd (get nat_eq rows.old.consumers c) (IsQueued rows.old.keys c) }
    ensures { LeavesLine rows.old rows.new c }
{
    let consumer = rows.consumers.get(&c).unwrap();
    leave_line_in(&mut rows.keys, consumer, c);
}

/// The same, of what is kept by key.
pub fn leave_line_in(keys: &mut KeyTable, consumer: &hc_state::Transaction, c: u64)
    requires { IsQueued keys.old c consumer.now }
    ensures { IsLeft keys.old keys.new c consumer.now }
{
    if consumer.queues() {
        keys.leave(&consumer.request.key, c);
    }
}

/// A consumer leaves: what only it read is closed, and sealed or let go.
fn leave<B: Backend>(rows: &mut Rows<B>, now: u64, c: u64, out: &mut Acts)
    requires may { MayLeave rows.old c }
    requires room { 2 ≤ spare out.old }
    ensures left { (limits : Limits) (t : Tables) (k : Consumer) → Facts limits t
        → RowsStand limits rows.old t → t.consumer c ≡ Some k
        → HasLeft limits (shelf_of rows.old.entries).faults rows.new t
        (act_list out.old) (act_list out.new) now c k }
    ensures faults { (shelf_of rows.old.entries).faults ≤ (shelf_of rows.new.entries).faults }
{
    let own = rows.consumers.get(&c).unwrap().own;
    let Some(x) = remove_consumer(rows, c) else {
        return;
    };
    put(out, Act::Close { x });
    stop_bringing(rows, now, x, if_own(own, x, c), out);
}

/// The consumer, where the exchange is its own.
fn if_own(own: Option<u64>, x: u64, c: u64) -> Option<u64>
    ensures { result ≡ (if is_number own x then Some c else None) }
{
    if own == Some(x) { Some(c) } else { None }
}

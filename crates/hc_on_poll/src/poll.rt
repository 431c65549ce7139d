//! A poll: what is done for a consumer by where it stands.
ghost use Rattle.std.specs.Prelude.{◌≡◌, ◌≤◌, ◌<◌, ◌^◌, ℕ, nat_eq, true, is_some, IsSomeAnd, OnOk, OnErr};
ghost use Rattle.std.specs.HashMap.{get};
ghost use Rattle.hc_event.specs.Acts.{act_list, spare};
ghost use Rattle.hc_event.specs.declared.event.Event.TheVariants.{Poll};
ghost use Rattle.hc_stored.specs.Entries.{shelf_of};
ghost use Rattle.hc_exch.specs.Exchanges.{next_of};
ghost use Rattle.hc_state.specs.Good.{StandsBy};
ghost use Rattle.hc_state.specs.Stands.{Answers};
ghost use Rattle.hc_state.specs.Handlers.{HasTurn};

use crate::carry::carry_out;
use crate::past::{await_answer, read_past};
use crate::read::{Reader, read_bound};
use crate::shown::await_stored;
use crate::wait::wait;
use hc_event::{Acts, Place, Wait};
use hc_on_leave::leave::fail;
use hc_state::Rows;
use hc_store::Backend;
use hc_text::NoMemory;

/// A poll of a live consumer.
pub fn poll<B: Backend>(
    rows: &mut Rows<B>,
    now: u64,
    c: u64,
    want: u32,
    out: &mut Acts,
) -> Result<(), NoMemory>
    requires stands { ∥ StandsBy rows.old now ∥₁ }
    requires early { now < 2 ^ 62 }
    requires live { is_some (get nat_eq rows.old.consumers c) ≡ true }
    requires wants { 0 < want }
    requires few { next_of rows.old.exchanges < 2 ^ 62 }
    requires room { 3 ≤ spare out.old }
    ensures answers { OnOk result
        (Answers rows.old rows.new (act_list out.old) (act_list out.new) now (Poll c want)) }
    ensures faults { (shelf_of rows.old.entries).faults ≤ (shelf_of rows.new.entries).faults }
    ensures kept { OnErr result (act_list out.new ≡ act_list out.old) }
{
    let consumer = rows.consumers.get(&c).unwrap();
    match consumer.place {
        Place::Line | Place::Passed { .. } => carry_out(rows, now, c, out),
        Place::Turn(x) => {
            await_head(rows, c, x, out);
            Ok(())
        }
        Place::Direct(x) if consumer.shown => read_past(rows, now, c, x, want, out),
        Place::Direct(x) => {
            await_answer(rows, c, x, out);
            Ok(())
        }
        Place::Down(cause) => {
            fail(rows, now, c, cause, out);
            Ok(())
        }
        Place::Bound { r, by, .. } if !consumer.shown => await_stored(rows, now, c, r, by, out),
        Place::Bound { r, .. } => {
            let reader = Reader::of(c, r, consumer);
            read_bound(rows, now, reader, want, out)
        }
        Place::Over => unreachable!(),
    }
}

/// A consumer that has the turn waits for the head of its exchange.
fn await_head<B: Backend>(rows: &Rows<B>, c: u64, x: u64, out: &mut Acts)
    requires turn { IsSomeAnd (get nat_eq rows.now.consumers c) (HasTurn x) }
    requires room { 1 ≤ spare out.old }
    ensures answers { (now want : ℕ)
        → Answers rows.now rows.now (act_list out.old) (act_list out.new) now (Poll c want) }
{
    wait(c, Wait::Head(x), out);
}

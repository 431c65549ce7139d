//! What a poll does for a consumer that goes past the store.
ghost use Rattle.std.specs.Prelude.{◌≡◌, ◌+◌, ◌≤◌, ◌<◌, ℕ, nat_eq, IsSomeAnd, OnOk};
ghost use Rattle.std.specs.HashMap.{get};
ghost use Rattle.hc_event.specs.Acts.{act_list, spare};
ghost use Rattle.hc_event.specs.declared.event.Event.TheVariants.{Poll};
ghost use Rattle.hc_exch.specs.Exchanges.{table_of};
ghost use Rattle.hc_state.specs.Handlers.{IsShown, IsUnshown, past_view};
ghost use Rattle.hc_state.specs.Stands.{Answers, Stands};
ghost use Rattle.hc_state.specs.Frames.{KeepsExchanges, KeepsFaults};

use crate::read::{ask, give, most};
use crate::show::put_shown;
use crate::wait::wait;
use hc_event::{Acts, Wait, Why};
use hc_on_leave::leave::{end_reading, fail};
use hc_on_leave::writer_group::if_running;
use hc_rules::{ReadStep, ReadView, read_step};
use hc_state::{Rows, Transaction, show_answer};
use hc_store::Backend;
use hc_text::NoMemory;

/// A consumer that goes past the store is shown the head of its exchange, or waits for it.
pub(crate) fn await_answer<B: Backend>(rows: &mut Rows<B>, c: u64, x: u64, out: &mut Acts)
    requires unshown { IsSomeAnd (get nat_eq rows.old.consumers c) (IsUnshown x) }
    requires room { 1 ≤ spare out.old }
    ensures answers { (now want : ℕ)
        → Answers rows.old rows.new (act_list out.old) (act_list out.new) now (Poll c want) }
    ensures keeps { KeepsExchanges rows.old rows.new }
{
    let consumer = rows.consumers.get(&c).unwrap();
    let (lo, hi) = (consumer.lo, consumer.hi);
    let Some(head) = show_answer(&mut rows.consumers, c) else {
        wait(c, Wait::Head(x), out);
        return;
    };
    put_shown(c, x, Why::Fetched(x), head, lo, hi, out);
}

/// A consumer reads on that was shown the head of its exchange past the store.
pub(crate) fn read_past<B: Backend>(
    rows: &mut Rows<B>,
    now: u64,
    c: u64,
    x: u64,
    want: u32,
    out: &mut Acts,
) -> Result<(), NoMemory>
    requires stands { ∥ Stands rows.old ∥₁ }
    requires shown { IsSomeAnd (get nat_eq rows.old.consumers c) (IsShown x) }
    requires wants { 0 < want }
    requires room { 3 ≤ spare out.old }
    ensures answers { OnOk result
        (Answers rows.old rows.new (act_list out.old) (act_list out.new) now (Poll c want)) }
    ensures kept { KeepsFaults result rows.old rows.new (act_list out.old) (act_list out.new) }
{
    let consumer = rows.consumers.get(&c).unwrap();
    let offset = consumer.lo + consumer.given;
    let hi = consumer.hi;
    match read_step(&past_view(rows, consumer, offset, x)) {
        ReadStep::Ended => {
            end_reading(rows, now, c, out);
            Ok(())
        }
        ReadStep::Failed(cause) => {
            fail(rows, now, c, cause, out);
            Ok(())
        }
        ReadStep::Held => {
            let bytes = rows.exchanges.take_held(x, most(hi, offset, want))?;
            give(rows, c, x, offset, bytes, out);
            Ok(())
        }
        ReadStep::Waits(_) => {
            ask(rows, c, x, out);
            Ok(())
        }
        // Nothing is stored of such an answer, and all of it came where it is over.
        ReadStep::Stored { .. } | ReadStep::Hole(_) => unreachable!(),
    }
}

/// What the reading of the consumer looks at.
fn past_view<B: Backend>(rows: &Rows<B>, consumer: &Transaction, offset: u64, x: u64) -> ReadView
    ensures { result ≡ past_view (table_of rows.now.exchanges x) x offset consumer.now }
{
    ReadView {
        offset,
        hi: consumer.hi,
        stored: None,
        held: rows.exchanges.held(x) > 0,
        due: consumer.due,
        source: if_running(rows, Some(x)),
        next_stored: None,
    }
}

//! An event, denied or accepted.
ghost use Rattle.std.specs.Prelude.{◌≡◌, ◌+◌, ◌-◌, ◌≤◌, ◌<◌, ◌^◌, ◌++◌, ◌∷◌, [], true, None, Some, IsOk, OnOk, OnErr};
ghost use Rattle.hc_event.specs.Acts.{act_list, spare};
ghost use Rattle.hc_event.specs.declared.act.Act.TheVariants as act;
ghost use Rattle.hc_event.specs.declared.act.Refusal.{Refusal};
ghost use Rattle.hc_event.specs.WithinLimits.{IsEventWithinLimits};
ghost use Rattle.hc_rules.specs.Refusals.{refusal_of};
ghost use Rattle.hc_stored.specs.Entries.{shelf_of};
ghost use Rattle.hc_exch.specs.Exchanges.{next_of};
ghost use Rattle.hc_state.specs.Stands.{gate_of, Answers};
ghost use Rattle.hc_state.specs.Good.{StandsUntil, takes_no_memory};

use crate::acts::MOST_ACTS;
use crate::rows::gate::refuses;
use hc_event::{Act, Acts, Event};
use hc_on_body::piece::take_piece;
use hc_on_body::stop::{end, fault};
use hc_on_head::doom::take_doom;
use hc_on_head::head::take_head;
use hc_on_leave::acts::put;
use hc_on_leave::leave::cancel;
use hc_on_poll::poll::poll;
use hc_on_poll::start::start;
use hc_state::Rows;
use hc_store::Backend;
use hc_text::NoMemory;

/// Appends the acts of an event: Denied and why, or what is owed to it. A denied event changes
/// nothing. After NoMemory the acts are as before.
pub(crate) fn answer<B: Backend>(
    rows: &mut Rows<B>,
    now: u64,
    event: &Event,
    out: &mut Acts,
) -> Result<(), NoMemory>
    requires stands { ∥ StandsUntil rows.old (2 ^ 61 - 1) now ∥₁ }
    requires early { now < 2 ^ 62 }
    requires within_limits { IsEventWithinLimits event.now }
    requires few { next_of rows.old.exchanges < 2 ^ 62 }
    ensures denied { OnOk result ((why : Refusal)
        → refusal_of (gate_of rows.old event.now) event.now ≡ Some why
        → (rows.new ≡ rows.old)
        × (act_list out.new ≡ act_list out.old ++ act.Denied why ∷ [])) }
    ensures accepted { OnOk result (refusal_of (gate_of rows.old event.now) event.now ≡ None
        → Answers rows.old rows.new (act_list out.old) (act_list out.new) now event.now) }
    ensures faults { OnOk result
        ((shelf_of rows.old.entries).faults ≤ (shelf_of rows.new.entries).faults) }
    ensures kept { OnErr result (act_list out.new ≡ act_list out.old) }
    ensures frees { takes_no_memory event.now ≡ true → 1024 ≤ spare out.old → IsOk result }
{
    if out.spare() < MOST_ACTS {
        out.reserve(MOST_ACTS)?;
    }
    let Some(refusal) = refuses(rows, event) else {
        return accept(rows, now, event, out);
    };
    put(out, Act::Denied { refusal });
    Ok(())
}

/// Does what an event says that isn't denied.
fn accept<B: Backend>(
    rows: &mut Rows<B>,
    now: u64,
    event: &Event,
    out: &mut Acts,
) -> Result<(), NoMemory>
    requires stands { ∥ StandsUntil rows.old (2 ^ 61 - 1) now ∥₁ }
    requires early { now < 2 ^ 62 }
    requires within_limits { IsEventWithinLimits event.now }
    requires accepted { refusal_of (gate_of rows.old event.now) event.now ≡ None }
    requires few { next_of rows.old.exchanges < 2 ^ 62 }
    requires room { MOST_ACTS ≤ spare out.old }
    ensures answers { OnOk result
        (Answers rows.old rows.new (act_list out.old) (act_list out.new) now event.now) }
    ensures faults { OnOk result
        ((shelf_of rows.old.entries).faults ≤ (shelf_of rows.new.entries).faults) }
    ensures kept { OnErr result (act_list out.new ≡ act_list out.old) }
    ensures frees { takes_no_memory event.now ≡ true → IsOk result }
{
    match event {
        Event::Start { c, request } => start(rows, now, *c, request),
        Event::Poll { c, want } => poll(rows, now, *c, *want, out),
        Event::Head { x, response } => take_head(rows, now, *x, response, out),
        Event::Piece { x, bytes } => take_piece(rows, now, *x, bytes.as_slice(), out),
        Event::End { x } => {
            end(rows, now, *x, out);
            Ok(())
        }
        Event::Fault { x } => {
            fault(rows, now, *x, out);
            Ok(())
        }
        Event::Cancel { c } => {
            cancel(rows, now, *c, out);
            Ok(())
        }
        Event::Doom { key } => {
            take_doom(rows, now, key, out);
            Ok(())
        }
    }
}

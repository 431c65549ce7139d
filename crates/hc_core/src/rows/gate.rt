//! Why an event is denied.
ghost use Rattle.std.specs.Prelude.{◌≡◌, nat_eq, option_map};
ghost use Rattle.std.specs.Option.{option_and_then};
ghost use Rattle.hc_rules.specs.Refusals.{refusal_of};
ghost use Rattle.hc_model.specs.Exchanges.{exchange_in};
ghost use Rattle.hc_state.specs.Stands.{names_kept, open_at, gate_of};

use hc_event::{Event, Refusal};
use hc_rules::{Gate, OpenExchange, refusal_of};
use hc_state::Rows;
use hc_store::Backend;

/// Why an event is denied: the first refusal that applies, or none.
pub(crate) fn refuses<B: Backend>(rows: &Rows<B>, event: &Event) -> Option<Refusal>
    ensures { result ≡ refusal_of (gate_of rows.now event.now) event.now }
{
    let gate = Gate {
        last_start: rows.last_start,
        live: rows.consumers.len() as u64,
        is_live: names_kept(rows, event),
        exchange: named_exchange(rows, event),
    };
    refusal_of(&gate, event)
}

/// Whether the consumer that the event names is kept.
fn names_kept<B: Backend>(rows: &Rows<B>, event: &Event) -> bool
    ensures { result ≡ names_kept rows.now event.now }
{
    match event {
        Event::Poll { c, .. } | Event::Cancel { c } => rows.consumers.contains_key(c),
        _ => false,
    }
}

/// The exchange that the event names, if it is open.
fn named_exchange<B: Backend>(rows: &Rows<B>, event: &Event) -> Option<OpenExchange>
    ensures { result ≡ option_and_then (open_at rows.now) (exchange_in event.now) }
{
    match event {
        Event::Head { x, .. } | Event::Piece { x, .. } | Event::End { x } | Event::Fault { x } =>
            open_at(rows, *x),
        _ => None,
    }
}

/// The exchange, if it is open.
fn open_at<B: Backend>(rows: &Rows<B>, x: u64) -> Option<OpenExchange>
    ensures { result ≡ open_at rows.now x }
{
    let view = rows.exchanges.view(x)?;
    Some(OpenExchange {
        headed: view.headed,
        asked: view.asked,
        delivered: view.delivered,
        promised: view.promised,
    })
}

//! What acts say of exchanges and consumers.
ghost use Rattle.std.specs.Prelude.{◌≡◌, true, IfOk};
ghost use Rattle.std.specs.List.{list_any};
ghost use Rattle.hc_text.specs.Sorted.{is_sorted, itself};
ghost use Rattle.hc_generate.specs.Sending.{number_of};
ghost use Rattle.hc_generate.specs.Hearing.{begun_in, closes, leaves, still_live, still_open};

use crate::exchange::{Exchange, Owed};
use hc_event::Act;
use hc_text::NoMemory;

/// The exchange that is opened, which is owed the answer to its request.
pub(crate) fn begun_in(acts: &[Act]) -> Result<Option<Exchange>, NoMemory>
    ensures { IfOk result (λ begun. begun ≡ begun_in acts.now) }
{
    for act in acts {
        if let Act::Opened { x, request, .. } = act {
            let request = request.copy()?;
            return Ok(Some(Exchange {
                x: *x,
                owed: Owed::Answer(request),
            }));
        }
    }
    Ok(None)
}

/// Those that are closed are forgotten.
pub(crate) fn forget_closed(exchanges: &mut Vec<Exchange>, acts: &[Act])
    requires { is_sorted number_of exchanges.old.items ≡ true }
    ensures items { exchanges.new.items ≡ still_open acts.now exchanges.old.items }
    ensures ordered { is_sorted number_of exchanges.new.items ≡ true }
{
    exchanges.retain(|exchange| !closes_in(exchange.x, acts));
}

/// Those that ended or failed are forgotten.
pub(crate) fn forget_gone(live: &mut Vec<u64>, acts: &[Act])
    requires { is_sorted itself live.old.items ≡ true }
    ensures items { live.new.items ≡ still_live acts.now live.old.items }
    ensures ordered { is_sorted itself live.new.items ≡ true }
{
    live.retain(|c| !leaves_in(*c, acts));
}

/// Whether the exchange is closed.
fn closes_in(x: u64, acts: &[Act]) -> bool
    ensures { result ≡ list_any (closes x) acts.now }
{
    acts.iter().any(|act| closes(x, act))
}

/// Whether the act closes the exchange.
fn closes(x: u64, act: &Act) -> bool
    ensures { result ≡ closes x act.now }
{
    matches!(act, Act::Close { x: y } if *y == x)
}

/// Whether the consumer ends or fails.
fn leaves_in(c: u64, acts: &[Act]) -> bool
    ensures { result ≡ list_any (leaves c) acts.now }
{
    acts.iter().any(|act| leaves(c, act))
}

/// Whether the consumer ends or fails by the act.
fn leaves(c: u64, act: &Act) -> bool
    ensures { result ≡ leaves c act.now }
{
    match act {
        Act::Ended { c: d } | Act::Failed { c: d, .. } => *d == c,
        _ => false,
    }
}

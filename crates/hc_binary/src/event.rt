//! Events, made of numbers and bytes.
ghost use Rattle.std.specs.Prelude.{◌≡◌, ◌≢◌, ◌<◌, ◌≤◌, ◌^◌, true, false, IfOk, Some, None, length, nat_lt, nat_le};
ghost use Rattle.hc_event.specs.WithinLimits.{IsEventWithinLimits};
ghost use Rattle.hc_binary.specs.Events.{numbered, start_made, poll_made, head_made, piece_made, doom_made, Makes};
ghost use Rattle.hc_event.specs.declared.event.Event.TheVariants as event;

use crate::fields::read_fields;
use crate::refused::CallRefusal;
use crate::request::{Asked, load_of, read_key, read_request};
use hc_event::{Event, Response};
use hc_text::Bytes;
use std::alloc::Global;

/// Numbers of consumers and exchanges are below this.
const LIMIT: u64 = 1 << 62;

/// A piece has at most this many bytes, and a consumer asks for at most as many.
const MOST_BYTES: usize = 65_536;

/// The number, if it may be that of a consumer or an exchange.
fn small(n: u64) -> Result<u64, CallRefusal>
    ensures { Makes (numbered n n) result }
{
    if n < LIMIT {
        Ok(n)
    } else {
        Err(CallRefusal::Limit)
    }
}

/// A consumer begins with its request.
pub fn start(alloc: Global, c: u64, asked: Asked<'_>) -> Result<Event, CallRefusal>
    ensures made { Makes (start_made c asked.entry.method.now asked.entry.mode
        asked.entry.target.now asked.entry.fields.now) result }
    ensures within_limits { IfOk result (λ e. IsEventWithinLimits e) }
{
    let c = small(c)?;
    let Some(load) = load_of(asked.mode) else {
        return Err(CallRefusal::Limit);
    };
    let request = read_request(alloc, asked, load)?;
    Ok(Event::Start { c, request })
}

/// A consumer asks for bytes.
pub fn poll(c: u64, want: u32) -> Result<Event, CallRefusal>
    ensures made { Makes (poll_made c want) result }
    ensures within_limits { IfOk result (λ e. IsEventWithinLimits e) }
{
    let c = small(c)?;
    if want as usize > MOST_BYTES {
        return Err(CallRefusal::Limit);
    }
    Ok(Event::Poll { c, want })
}

/// A consumer leaves.
pub fn cancel(c: u64) -> Result<Event, CallRefusal>
    ensures made { Makes (numbered c (event.Cancel c)) result }
    ensures within_limits { IfOk result (λ e. IsEventWithinLimits e) }
{
    Ok(Event::Cancel { c: small(c)? })
}

/// What is stored for a target is not to be used any more.
pub fn doom(alloc: Global, target: &[u8]) -> Result<Event, CallRefusal>
    ensures made { Makes (doom_made target.now) result }
    ensures within_limits { IfOk result (λ e. IsEventWithinLimits e) }
{
    let key = read_key(alloc, target)?;
    Ok(Event::Doom { key })
}

/// The head of an exchange came.
pub fn head(alloc: Global, x: u64, status: u32, fields: &[u8]) -> Result<Event, CallRefusal>
    ensures made { Makes (head_made x status fields.now) result }
    ensures within_limits { IfOk result (λ e. IsEventWithinLimits e) }
{
    let x = small(x)?;
    if status < 200 || status > 599 {
        return Err(CallRefusal::Limit);
    }
    let fields = read_fields(alloc, fields)?;
    let response = Response {
        status: status as u16,
        fields,
    };
    Ok(Event::Head { x, response })
}

/// Bytes of the body of an exchange came. They are copied.
pub fn piece(alloc: Global, x: u64, bytes: &[u8]) -> Result<Event, CallRefusal>
    ensures made { Makes (piece_made x bytes.now) result }
    ensures within_limits { IfOk result (λ e. IsEventWithinLimits e) }
{
    let x = small(x)?;
    if bytes.len() > MOST_BYTES {
        return Err(CallRefusal::Limit);
    }
    let bytes = bytes.to_vec(alloc).map_err(|_| CallRefusal::NoMemory)?;
    Ok(Event::Piece {
        x,
        bytes: Bytes::shared(bytes),
    })
}

/// An exchange ended cleanly.
pub fn end(x: u64) -> Result<Event, CallRefusal>
    ensures made { Makes (numbered x (event.End x)) result }
    ensures within_limits { IfOk result (λ e. IsEventWithinLimits e) }
{
    Ok(Event::End { x: small(x)? })
}

/// An exchange broke.
pub fn fault(x: u64) -> Result<Event, CallRefusal>
    ensures made { Makes (numbered x (event.Fault x)) result }
    ensures within_limits { IfOk result (λ e. IsEventWithinLimits e) }
{
    Ok(Event::Fault { x: small(x)? })
}

//! Refusals: why an event is denied.
ghost use Rattle.std.specs.Prelude.{◌≡◌};
ghost use Rattle.hc_rules.specs.Refusals.{refusal_of, start_refusal, consumer_refusal, poll_refusal, exchange_refusal, head_refusal, piece_refusal, end_refusal, fault_refusal};

use hc_event::{Event, Refusal};

/// How many consumers may be live at once.
const MOST_LIVE: u64 = 1024;

/// An open exchange as the refusals see it. Counts are of bytes.
#[derive(Clone, Copy)]
pub struct OpenExchange {
    /// It has its head.
    pub headed: bool,
    /// A piece was asked for since the last one came.
    pub asked: bool,
    /// How many bytes came.
    pub delivered: u64,
    /// How many its head promised, where that is told.
    pub promised: Option<u64>,
}

/// What the refusals look at.
#[derive(Clone, Copy)]
pub struct Gate {
    /// The number of the last accepted start, 0 before the first.
    pub last_start: u64,
    /// How many consumers are live.
    pub live: u64,
    /// Whether the consumer that the event names is live.
    pub is_live: bool,
    /// The exchange that the event names, where it is open.
    pub exchange: Option<OpenExchange>,
}

/// The first refusal that applies to the event, in the order of the variants of `Refusal`. None
/// exactly where the event is accepted.
#[tactic(auto, unfolding(crate::specs::Refusals::refusal_of))]
pub fn refusal_of(gate: &Gate, event: &Event) -> Option<Refusal>
    ensures { result ≡ refusal_of gate.now event.now }
{
    match event {
        Event::Start { c, .. } => start_refusal(gate, *c),
        Event::Poll { c, want } => poll_refusal(gate, *c, *want),
        Event::Cancel { c } => consumer_refusal(gate, *c),
        _ => exchange_refusal(gate.exchange, event),
    }
}

/// Why a start is denied.
fn start_refusal(gate: &Gate, c: u64) -> Option<Refusal>
    ensures { result ≡ start_refusal gate.now c }
{
    if c <= gate.last_start {
        return Some(Refusal::NotRising {
            last: gate.last_start,
        });
    }
    if gate.live >= MOST_LIVE {
        return Some(Refusal::TooManyConsumers);
    }
    None
}

/// Why an event of a consumer that should be live is denied.
fn consumer_refusal(gate: &Gate, c: u64) -> Option<Refusal>
    ensures { result ≡ consumer_refusal gate.now c }
{
    if c > gate.last_start {
        return Some(Refusal::NoConsumer);
    }
    if !gate.is_live {
        return Some(Refusal::Finished);
    }
    None
}

/// Why a poll is denied.
fn poll_refusal(gate: &Gate, c: u64, want: u32) -> Option<Refusal>
    ensures { result ≡ poll_refusal gate.now c want }
{
    let refusal = consumer_refusal(gate, c);
    if refusal.is_none() && want == 0 {
        return Some(Refusal::WantZero);
    }
    refusal
}

/// The first refusal that applies to an event of this exchange, which is None where it isn't open.
/// An event that names no exchange has none of these.
pub fn exchange_refusal(exchange: Option<OpenExchange>, event: &Event) -> Option<Refusal>
    ensures { result ≡ exchange_refusal exchange event.now }
{
    match event {
        Event::Head { .. } => head_refusal(exchange),
        Event::Piece { bytes, .. } => piece_refusal(exchange, bytes.len()),
        Event::End { .. } => end_refusal(exchange),
        Event::Fault { .. } => fault_refusal(exchange),
        _ => None,
    }
}

/// Why a head is denied.
fn head_refusal(exchange: Option<OpenExchange>) -> Option<Refusal>
    ensures { result ≡ head_refusal exchange }
{
    match exchange {
        None => Some(Refusal::NoExchange),
        Some(exchange) if exchange.headed => Some(Refusal::HeadTwice),
        Some(_) => None,
    }
}

/// Why a piece of so many bytes is denied.
fn piece_refusal(exchange: Option<OpenExchange>, count: usize) -> Option<Refusal>
    ensures { result ≡ piece_refusal exchange count }
{
    let Some(exchange) = exchange else {
        return Some(Refusal::NoExchange);
    };
    if !exchange.headed {
        return Some(Refusal::NoHeadYet);
    }
    if !exchange.asked {
        return Some(Refusal::NotAsked);
    }
    if count == 0 {
        return Some(Refusal::EmptyPiece);
    }
    let promised = exchange.promised?;
    if count as u64 > promised.saturating_sub(exchange.delivered) {
        return Some(Refusal::Overlong { promised });
    }
    None
}

/// Why an end is denied.
fn end_refusal(exchange: Option<OpenExchange>) -> Option<Refusal>
    ensures { result ≡ end_refusal exchange }
{
    match exchange {
        None => Some(Refusal::NoExchange),
        Some(exchange) if !exchange.headed => Some(Refusal::NoHeadYet),
        Some(_) => None,
    }
}

/// Why a fault is denied.
fn fault_refusal(exchange: Option<OpenExchange>) -> Option<Refusal>
    ensures { result ≡ fault_refusal exchange }
{
    match exchange {
        None => Some(Refusal::NoExchange),
        Some(_) => None,
    }
}

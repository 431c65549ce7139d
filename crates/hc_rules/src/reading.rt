//! What a consumer is answered that was shown a head.
ghost use Rattle.std.specs.Prelude.{◌≡◌};
ghost use Rattle.hc_rules.specs.Readings.{read_step, is_at_end, cut_at, hole_ahead};

use hc_event::Cause;
use hc_range::Span;

/// What is done for a consumer that was shown a head.
#[derive(Clone, Copy, Debug, PartialEq, Eq)]
pub enum ReadStep {
    /// It has all of its bytes.
    Ended,
    /// It is given stored bytes, from its offset up to this position at most.
    Stored { upto: u64 },
    /// It is given bytes that are held for it.
    Held,
    /// It fails with what is due.
    Failed(Cause),
    /// It waits for the next bytes of this exchange.
    Waits(u64),
    /// An exchange is to be opened for this hole.
    Hole(Span),
}

/// What the reading of a consumer looks at. Positions are those of its representation.
#[derive(Clone, Copy)]
pub struct ReadView {
    /// Where the consumer stands.
    pub offset: u64,
    /// Where what it reads ends, if that is known.
    pub hi: Option<u64>,
    /// Where the stored bytes end that stand from its offset on, if any do.
    pub stored: Option<u64>,
    /// Whether bytes from its offset on are held for it.
    pub held: bool,
    /// The failure that is due.
    pub due: Option<Cause>,
    /// The open exchange that it reads from.
    pub source: Option<u64>,
    /// The next position at which a byte is stored, where none is at its offset.
    pub next_stored: Option<u64>,
}

/// The first of the six cases of reading that applies.
#[tactic(auto, unfolding(crate::specs::Readings::read_step))]
pub fn read_step(view: &ReadView) -> ReadStep
    ensures { result ≡ read_step view.now }
{
    if is_at_end(view.hi, view.offset) {
        return ReadStep::Ended;
    }
    if let Some(end) = view.stored {
        let upto = cut_at(view.hi, end);
        return ReadStep::Stored { upto };
    }
    if view.held {
        return ReadStep::Held;
    }
    match (view.due, view.source) {
        (Some(cause), _) => ReadStep::Failed(cause),
        (None, Some(x)) => ReadStep::Waits(x),
        (None, None) => ReadStep::Hole(hole_ahead(view)),
    }
}

/// Whether the end is known and the offset is there.
fn is_at_end(hi: Option<u64>, offset: u64) -> bool
    ensures { result ≡ is_at_end hi offset }
{
    match hi {
        None => false,
        Some(hi) => hi <= offset,
    }
}

/// The position, or the end where that is known and comes before.
fn cut_at(hi: Option<u64>, position: u64) -> u64
    ensures { result ≡ cut_at hi position }
{
    match hi {
        None => position,
        Some(hi) => hi.min(position),
    }
}

/// The hole at the offset: up to the next stored byte, or to the end. Where neither is known there is
/// none to ask for, and it is empty.
fn hole_ahead(view: &ReadView) -> Span
    ensures { result ≡ hole_ahead view.now }
{
    let hi = match view.next_stored {
        Some(next) => cut_at(view.hi, next),
        None => view.hi.unwrap_or(view.offset),
    };
    Span {
        lo: view.offset,
        hi,
    }
}

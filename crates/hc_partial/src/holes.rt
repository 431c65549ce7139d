//! Where what is stored ends, and where a hole does.
ghost use Rattle.std.specs.Prelude.{◌≡◌, ◌≤◌};
ghost use Rattle.hc_partial.specs.Holes.{absent_from, present_from, first_hole};

use hc_range::Span;
use hc_sparse::{Presence, Span2};

/// The first position from `from` on at which no byte is stored, or `hi`.
pub fn stored_end<P: Presence>(store: &P, from: u64, hi: u64) -> u64
    requires { from ≤ hi }
    ensures { result ≡ absent_from (P.cells store.now) from hi }
{
    if store.covers(Span2 { lo: from, hi }) {
        return hi;
    }
    let mut lo = from;
    let mut end = hi;
    while end - lo > 1 {
        let middle = lo + (end - lo) / 2;
        if store.covers(Span2 { lo, hi: middle }) {
            lo = middle;
        } else {
            end = middle;
        }
    }
    lo
}

/// The first position from `from` on at which a byte is stored, or `hi`.
pub fn hole_end<P: Presence>(store: &P, from: u64, hi: u64) -> u64
    requires { from ≤ hi }
    ensures { result ≡ present_from (P.cells store.now) from hi }
{
    match store.next_present(from) {
        Some(next) => next.min(hi),
        None => hi,
    }
}

/// The first hole of the span in what is stored. None where all of it is.
pub fn first_hole<P: Presence>(store: &P, span: Span) -> Option<Span>
    ensures { result ≡ first_hole (P.cells store.now) span }
{
    if span.hi <= span.lo {
        return None;
    }
    let lo = stored_end(store, span.lo, span.hi);
    if span.hi <= lo {
        return None;
    }
    Some(Span {
        lo,
        hi: hole_end(store, lo, span.hi),
    })
}

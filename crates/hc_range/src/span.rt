//! The span that a range asks for.
ghost use Rattle.std.specs.Prelude.{◌≡◌, ℕ, ◌<◌, ◌≤◌, ◌↔◌, IfSome, IfNone};
ghost use Rattle.hc_range.specs.Spans.{Asks, IsInOrder, Holds, resolved_span};

use crate::range::{RangeSpec, Span};

/// The positions below `total` that are asked for (RFC 9110 section 14.1.2), and None exactly where
/// there is none: a suffix of an empty representation too is refused.
pub fn resolve(asked: RangeSpec, total: u64) -> Option<Span>
    requires { IsInOrder asked }
    ensures value { result ≡ resolved_span asked total }
    ensures bounds { IfSome result (λ span. (span.lo < span.hi) × (span.hi ≤ total)) }
    ensures positions { IfSome result (λ span.
        (p : ℕ) → Holds span p ↔ (Asks asked total p × (p < total))) }
    ensures none { IfNone result ((p : ℕ) → ¬ (Asks asked total p × (p < total))) }
{
    let (lo, hi) = match asked {
        RangeSpec::From(first) => (first, total),
        RangeSpec::FromTo(first, last) => (first, total.min(last.saturating_add(1))),
        RangeSpec::Last(n) => (total.saturating_sub(n), total),
    };
    if lo < hi { Some(Span { lo, hi }) } else { None }
}

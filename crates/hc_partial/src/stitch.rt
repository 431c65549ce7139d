//! A span that is read in part from the store and in part from the origin.
ghost use Rattle.std.specs.Prelude.{◌≡◌};
ghost use Rattle.hc_etag.specs.Tags.{value_of};
ghost use Rattle.hc_rules.specs.Joins.{hole_answer};
ghost use Rattle.hc_partial.specs.Parts.{IsNextPart, stored_to, hole_to};

use crate::holes::stored_end;
use hc_etag::Tag;
use hc_event::Response;
use hc_range::Span;
use hc_rules::{HoleAnswer, hole_answer};
use hc_sparse::Presence;

/// What stands next from a position on.
#[derive(Clone, Copy, Debug, PartialEq, Eq)]
pub enum Part {
    /// Stored bytes, up to this position.
    Stored { upto: u64 },
    /// A hole, up to the next stored byte, if there is one.
    Hole { upto: Option<u64> },
}

impl Part {
    /// Where the stored bytes end.
    pub fn stored_to(self) -> Option<u64>
        ensures { result ≡ stored_to self }
    {
        match self {
            Part::Stored { upto } => Some(upto),
            Part::Hole { .. } => None,
        }
    }

    /// The next stored byte behind a hole.
    pub fn hole_to(self) -> Option<u64>
        ensures { result ≡ hole_to self }
    {
        match self {
            Part::Stored { .. } => None,
            Part::Hole { upto } => upto,
        }
    }
}

/// What comes next: stored bytes up to the first that isn't, or a hole up to the next stored byte.
pub fn next<P: Presence>(store: &P, position: u64) -> Part
    ensures { IsNextPart (P.cells store.now) position result }
{
    match store.next_present(position) {
        // Nothing is at 2^62 or past it.
        Some(present) if present == position => Part::Stored {
            upto: stored_end(store, position, 1 << 62),
        },
        upto => Part::Hole { upto },
    }
}

/// What the answer is to the hole of a representation with this tag, whose whole length is `total`
/// bytes (RFC 9110 section 15.3.7.3).
pub fn accepts(tag: &Tag, total: u64, hole: Span, answer: &Response) -> HoleAnswer
    ensures { result ≡ hole_answer (value_of tag.now) total hole answer.now }
{
    hole_answer(tag, total, hole, answer)
}

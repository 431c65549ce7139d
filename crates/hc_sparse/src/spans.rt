//! Spans that somebody has without a gap.
ghost use Rattle.std.specs.Prelude.{◌≡◌, ◌≤◌, ◌<◌, ℕ, IfSome, OnOk};
ghost use Rattle.hc_sparse.specs.SpanMaps.{Rise};
ghost use Rattle.std.proofs.Props.{props};

use hc_text::NoMemory;
use std::alloc::Global;
use std::collections::BTreeMap;

/// Where spans begin, by where they end. They are a short cut: each position of a span is had, and
/// one that is in no span may be had all the same.
#[derive(Drop)]
pub(crate) struct Spans {
    begins: BTreeMap<u64, u64>,
    ghost rise: { Rise begins } by { Prim.hlevel props },
}

impl Spans {
    ghost use Rattle.hc_sparse.specs.Extents.{Marks, HaveAll};
    ghost use Rattle.hc_sparse.specs.SpanMaps.{IsSpan};
    ghost use Rattle.hc_sparse.specs.Spans.{AreHad, Have};

    /// No spans.
    pub(crate) fn new(alloc: Global) -> Spans
        ensures { (f : Marks) → AreHad result f }
    {
        Spans {
            begins: BTreeMap::new(alloc),
        }
    }

    /// Where the first span that ends past a position ends, if it has the position.
    pub(crate) fn end_from(&self, p: u64) -> Option<u64>
        ensures { IfSome result (λ end. (p < end) × Have self.now p end) }
    {
        let (begin, end) = self.first_past(p)?;
        if begin <= p { Some(end) } else { None }
    }

    /// Adds a span, joined with the one that ends where it begins and the one that begins where it ends.
    pub(crate) fn add(&mut self, at: u64, end: u64) -> Result<(), NoMemory>
        requires some { at < end }
        ensures had { (f : Marks) → AreHad self.old f → HaveAll f at end → AreHad self.new f }
        ensures reported { OnOk result (Have self.new at end) }
    {
        let begin = self.begin_of(at);
        let last = self.end_of(end);
        self.begins.insert(last, begin)?;
        self.begins.remove(&at);
        Ok(())
    }

    /// Where the span that ends at a position begins, or the position.
    fn begin_of(&self, at: u64) -> u64
        ensures by { result ≤ at }
        ensures reported { Have self.now result at }
    {
        match self.begins.get(&at) {
            Some(begin) => *begin,
            None => at,
        }
    }

    /// Where the span that begins at a position ends, or the position.
    fn end_of(&self, end: u64) -> u64
        ensures from { end ≤ result }
        ensures reported { Have self.now end result }
    {
        match self.end_from(end) {
            Some(last) => last,
            None => end,
        }
    }

    /// The first span that ends past a position.
    fn first_past(&self, p: u64) -> Option<(u64, u64)>
        ensures { IfSome result
            (λ span. (p < span.1) × IsSpan self.now.begins span.0 span.1) }
    {
        let (end, begin) = self.begins.range(p.checked_add(1)?..).next()?;
        Some((*begin, *end))
    }
}

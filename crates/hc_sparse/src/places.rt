//! Whose each position is, and where its byte stands.
ghost use Rattle.std.specs.Prelude.{◌≡◌, ◌+◌, ◌≤◌, ◌<◌, ◌^◌, ℕ, [], ◌∷◌, length, None, IfSome, IsNone, OnOk, OnErr};
ghost use Rattle.hc_sparse.specs.Extents.{end_of, marks_of, AreFree, Reaches, IsNextMark, IsExtentAt};
ghost use Rattle.hc_sparse.specs.BlockMaps.{marks, AreBelow, AreWithin};
ghost use Rattle.hc_sparse.specs.Spans.{AreHad};
ghost use Rattle.std.proofs.Props.{props};

use crate::block::Block;
use crate::blocks::{end_in, extent_in, next_in, part_len, put_part};
use crate::extents::{Extent, is_followed, rest_of};
use crate::spans::Spans;
use hc_text::NoMemory;
use std::alloc::Global;
use std::collections::BTreeMap;

/// Blocks by their number, and the tail: what was put last, with all that it goes on from. The blocks
/// don't have it yet, so what goes on from it only lengthens it, and looks nothing up. Spans of what
/// the blocks have, whoever delivered it, tell how far it goes on without a gap.
#[derive(Drop)]
pub(crate) struct Places {
    blocks: BTreeMap<u64, Block>,
    spans: Spans,
    tail: Extent,
    ghost below: { AreBelow blocks } by { Prim.hlevel props },
    ghost apart: { AreFree (marks blocks) tail.at (end_of tail) } by { Prim.hlevel props },
    ghost ends: { end_of tail ≤ 2 ^ 62 },
    ghost stands: { tail.from + tail.len < 2 ^ 64 },
    ghost had: { AreHad spans (marks blocks) } by { Prim.hlevel props },
}

impl Places {
    ghost use Rattle.hc_sparse.specs.Places.{marks_at, KeepsMarks, MarksExtent, IsReadyFor};

    /// Nobody has anything.
    pub(crate) fn new(alloc: Global) -> Places
        ensures { (q : ℕ) → marks_at result q ≡ None }
    {
        Places {
            blocks: BTreeMap::new(alloc),
            spans: Spans::new(alloc),
            tail: Extent {
                x: 0,
                at: 0,
                len: 0,
                from: 0,
            },
        }
    }

    /// Positions of one exchange from one on, whose bytes stand one after another.
    pub(crate) fn extent(&self, p: u64) -> Option<Extent>
        requires { AreWithin (marks_at self.now) (2 ^ 63) }
        ensures none { IsNone result → marks_at self.now p ≡ None }
        ensures some { IfSome result (IsExtentAt (marks_at self.now) p) }
    {
        let tail = &self.tail;
        let o = p as usize;
        if tail.at <= o && o - tail.at < tail.len {
            return Some(rest_of(*tail, o, o - tail.at));
        }
        extent_in(&self.blocks, p)
    }

    /// A position up to which somebody has each from one on.
    pub(crate) fn end(&self, p: u64) -> Option<u64>
        ensures none { IsNone result → marks_at self.now p ≡ None }
        ensures some { IfSome result (λ end. Reaches (marks_at self.now) p end) }
    {
        let tail = &self.tail;
        let o = p as usize;
        if tail.at <= o && o - tail.at < tail.len {
            return Some((tail.at + tail.len) as u64);
        }
        match self.spans.end_from(p) {
            Some(end) => Some(end),
            None => end_in(&self.blocks, p),
        }
    }

    /// The least position from one on that somebody has.
    pub(crate) fn next(&self, p: u64) -> Option<u64>
        ensures next { IsNextMark (marks_at self.now) p result }
        ensures below { IfSome result (λ n. n < 2 ^ 62) }
    {
        let behind = next_in(&self.blocks, p);
        match (next_of(&self.tail, p), behind) {
            (Some(own), Some(other)) => Some(own.min(other)),
            (Some(own), None) => Some(own),
            (None, _) => behind,
        }
    }

    /// Makes ready for an extent: the tail is one that it goes on from, or empty.
    pub(crate) fn make_ready(&mut self, alloc: Global, new: Extent) -> Result<(), NoMemory>
        ensures same { KeepsMarks self.old self.new }
        ensures ready { OnOk result (IsReadyFor new self.new) }
    {
        if is_followed(&self.tail, new) {
            return Ok(());
        }
        self.settle(alloc)
    }

    /// Gives positions that nobody has to an exchange.
    pub(crate) fn put(&mut self, new: Extent)
        requires ready { IsReadyFor new self.old }
        requires free { AreFree (marks_at self.old) new.at (end_of new) }
        requires end { end_of new ≤ 2 ^ 62 }
        requires room { new.from + new.len < 2 ^ 64 }
        ensures { MarksExtent self.old self.new new }
    {
        if is_followed(&self.tail, new) {
            self.tail.len += new.len;
        } else {
            self.tail = new;
        }
    }

    /// Gives the blocks what the tail has.
    fn settle(&mut self, alloc: Global) -> Result<(), NoMemory>
        ensures none { OnOk result (self.new.tail.len ≡ 0) }
        ensures same { KeepsMarks self.old self.new }
    {
        while self.tail.len > 0 {
            self.settle_part(alloc)?;
        }
        Ok(())
    }

    /// Gives the block in which the tail begins what the tail has of it.
    fn settle_part(&mut self, alloc: Global) -> Result<(), NoMemory>
        requires { 0 < self.old.tail.len }
        ensures less { OnOk result (self.new.tail.len < self.old.tail.len) }
        ensures same { KeepsMarks self.old self.new }
    {
        let tail = self.tail;
        let len = part_len(tail.at as u64, tail.len);
        put_part(alloc, &mut self.blocks, Extent { len, ..tail })?;
        self.tail = Extent {
            at: tail.at + len,
            len: tail.len - len,
            from: tail.from + len,
            ..tail
        };
        self.spans.add(tail.at as u64, (tail.at + len) as u64)
    }
}

/// The least position from one on that an extent has.
fn next_of(extent: &Extent, p: u64) -> Option<u64>
    requires { end_of extent.now ≤ 2 ^ 62 }
    ensures next { IsNextMark (marks_of (extent.now ∷ [])) p result }
    ensures below { IfSome result (λ n. n < 2 ^ 62) }
{
    let n = p.max(extent.at as u64);
    if n < (extent.at + extent.len) as u64 {
        Some(n)
    } else {
        None
    }
}

//! Bytes to which more are appended.
ghost use Rattle.std.specs.Prelude.{◌≡◌, ◌≤◌, ◌<◌, ◌+◌, ◌*◌, ◌%◌, ◌/◌, ◌^◌, ◌++◌, ℕ, List, [], length, take, drop, true, IfOk, OnOk, OnErr};
ghost use Rattle.std.specs.List.{concat};
ghost use Rattle.hc_sparse.specs.Growing.{are_whole, Begin};

use crate::parts::first_of;
use hc_text::{Bytes, NoMemory};
use std::alloc::Global;
use std::marker::Model;
use std::mem;

/// How many bytes a segment has.
const SEGMENT: usize = 16_384;

/// Bytes in order: segments, of which a reader may share a part, and those behind them, fewer than a
/// segment has.
#[derive(Drop)]
pub(crate) struct GrowingBytes {
    segments: Vec<Bytes>,
    last: Vec<u8>,
}

impl Model for GrowingBytes {
    ghost use Rattle.std.specs.Prelude.{◌≡◌, ◌<◌, ◌^◌, ◌++◌, ℕ, List, length, true};
    ghost use Rattle.std.specs.List.{concat};
    ghost use Rattle.hc_sparse.specs.Growing.{are_whole};

    ghost Value = { List ℕ };

    ghost view = { λ b. concat b.segments.items ++ b.last.items };

    ghost invariant = { λ b. (are_whole b.segments.items ≡ true) × (length b.last.items < 16384)
        × (length (concat b.segments.items ++ b.last.items) < 2 ^ 64) };
}

impl GrowingBytes {
    /// No bytes.
    pub(crate) fn new(alloc: Global) -> GrowingBytes
        ensures { result ≡ [] }
    {
        GrowingBytes {
            segments: Vec::new(alloc),
            last: Vec::new(alloc),
        }
    }

    /// How many there are.
    pub(crate) fn len(&self) -> usize
        ensures { result ≡ length self.now }
    {
        self.segments.len() * SEGMENT + self.last.len()
    }

    pub(crate) fn allocator(&self) -> Global {
        *self.last.allocator()
    }

    /// These come last, or nothing changes.
    pub(crate) fn append(&mut self, bytes: &[u8]) -> Result<(), NoMemory>
        requires { length self.old + length bytes.now < 2 ^ 64 }
        ensures ok { OnOk result (self.new ≡ self.old ++ bytes.now) }
        ensures err { OnErr result (self.new ≡ self.old) }
    {
        let room = SEGMENT - self.last.len();
        if bytes.len() < room {
            self.last.extend_from_slice(bytes)?;
            return Ok(());
        }
        let (first, more) = bytes.split_at(room);
        fill(&mut self.segments, &mut self.last, first, more)
    }

    /// Bytes from a place on that stand in one list.
    fn rest(&self, from: usize) -> &[u8]
        requires { from < length self.now }
        ensures some { 0 < length result.now }
        ensures begins { Begin result.now (drop from self.now) }
    {
        let n = from / SEGMENT;
        if n < self.segments.len() {
            behind(self.segments[n].as_slice(), from % SEGMENT)
        } else {
            behind(&self.last, from % SEGMENT)
        }
    }

    /// The first of those, at most so many.
    pub(crate) fn first(&self, from: usize, most: usize) -> &[u8]
        requires within { from < length self.now }
        requires some { 0 < most }
        ensures some { 0 < length result.now }
        ensures most { length result.now ≤ most }
        ensures begins { Begin result.now (drop from self.now) }
    {
        let rest = self.rest(from);
        first_of(rest, most)
    }

    /// So many bytes from a place on. They are shared where a segment has all of them.
    pub(crate) fn part(&self, from: usize, len: usize) -> Result<Bytes, NoMemory>
        requires some { 0 < len }
        requires within { from + len ≤ length self.now }
        ensures { IfOk result (λ part. part ≡ take len (drop from self.now)) }
    {
        let n = from / SEGMENT;
        let o = from % SEGMENT;
        if n < self.segments.len() && len <= SEGMENT - o {
            return self.segments[n].part(self.allocator(), o, o + len);
        }
        self.copied(from, len)
    }

    fn copied(&self, from: usize, len: usize) -> Result<Bytes, NoMemory>
        requires within { from + len ≤ length self.now }
        requires small { from + len < 2 ^ 64 }
        ensures { IfOk result (λ part. part ≡ take len (drop from self.now)) }
    {
        let mut bytes = Vec::with_capacity(self.allocator(), len)?;
        while bytes.len() < len {
            let more = self.first(from + bytes.len(), len - bytes.len());
            bytes.extend_from_slice(more)?;
        }
        Ok(Bytes::of(bytes))
    }
}

/// What stands behind the first bytes.
fn behind(bytes: &[u8], first: usize) -> &[u8]
    requires { first ≤ length bytes.now }
    ensures { result.now ≡ drop first bytes.now }
{
    &bytes[first..]
}

/// The first complete a segment of the last bytes. The others stand behind them.
fn fill(
    segments: &mut Vec<Bytes>,
    last: &mut Vec<u8>,
    first: &[u8],
    more: &[u8],
) -> Result<(), NoMemory>
    requires whole { are_whole segments.old.items ≡ true }
    requires few { length last.old.items < 16384 }
    requires fills { length last.old.items + length first.now ≡ 16384 }
    ensures whole { are_whole segments.new.items ≡ true }
    ensures few { length last.new.items < 16384 }
    ensures ok { OnOk result (concat segments.new.items ++ last.new.items
        ≡ (concat segments.old.items ++ last.old.items) ++ (first.now ++ more.now)) }
    ensures err { OnErr result (segments.new.items ≡ segments.old.items) }
    ensures same { OnErr result (last.new.items ≡ last.old.items) }
{
    let alloc = *last.allocator();
    let whole = more.len() / SEGMENT * SEGMENT;
    let mut behind = Vec::with_capacity(alloc, SEGMENT)?;
    behind.extend_from_slice(&more[whole..])?;
    let mut others = segments_of(alloc, more)?;
    segments.reserve(others.len() + 1)?;
    last.extend_from_slice(first)?;
    segments.push_reserved(Bytes::shared(mem::replace(last, behind)));
    segments.append(&mut others).unwrap();
    Ok(())
}

/// As many segments as so many bytes fill.
fn segments_of(alloc: Global, bytes: &[u8]) -> Result<Vec<Bytes>, NoMemory>
    ensures whole { IfOk result (λ segments. are_whole segments.items ≡ true) }
    ensures bytes { IfOk result (λ segments.
        concat segments.items ≡ take (length bytes.now / 16384 * 16384) bytes.now) }
{
    let mut segments = Vec::new(alloc);
    for n in 0..bytes.len() / SEGMENT {
        let at = n * SEGMENT;
        let segment = Vec::from_slice(alloc, &bytes[at..at + SEGMENT])?;
        segments.push(Bytes::shared(segment))?;
    }
    Ok(segments)
}

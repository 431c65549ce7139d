//! Sparse bytes read part by part, however they are kept.
ghost use Rattle.std.specs.Prelude.{◌≡◌, ◌↔◌, ◌+◌, ◌≤◌, ◌<◌, ◌^◌, IsTrue, ℕ, None, [], length, take, true, is_some, IfOk, IfSome, IsNone, OnOk, OnErr};
ghost use Rattle.hc_sparse.specs.Cells.{Cells, Covers, GoesTo};
ghost use Rattle.hc_sparse.specs.Stretch.{bytes_from, stretch, BeginsStretch, IsPart};

use crate::presence::Span2;
use crate::run::Run;
use hc_text::{Bytes, NoMemory};
use std::alloc::Global;

/// Gives the bytes of one exchange that are kept in one place.
pub(crate) trait Parts {
    /// What is at each position.
    ghost kept: { Self → Cells };

    /// The exchange that delivered what is at a position, and bytes of it from there on.
    fn part(&self, p: u64) -> Option<(u64, &[u8])>
        ensures none { IsNone result → kept self.now p ≡ None }
        ensures some { IfSome result (λ part. IsPart (kept self.now) p part.0 part.1.now) };

    /// A position up to which all is present from one on.
    fn end(&self, p: u64) -> Option<u64>
        ensures none { IsNone result → kept self.now p ≡ None }
        ensures some { IfSome result (λ end. GoesTo (kept self.now) p end) };
}

/// Whether all positions of the span are present.
pub(crate) fn covered<P: Parts>(kept: &P, span: Span2) -> bool
    ensures { IsTrue result ↔ Covers (P.kept kept.now) span.lo span.hi }
{
    let mut p = span.lo;
    while p < span.hi {
        match kept.end(p) {
            Some(end) => p = end,
            None => return false,
        }
    }
    true
}

/// The longest stretch from a position on, at most `want` long. Room for `most` bytes is made first.
pub(crate) fn stretch_at<P: Parts>(
    alloc: Global,
    kept: &P,
    p: u64,
    want: usize,
    most: usize,
) -> Result<Option<Run>, NoMemory>
    requires { 0 < want }
    ensures ok { IfOk result (λ run. run ≡ stretch (P.kept kept.now) p want) }
    ensures no_memory { OnErr result (is_some (P.kept kept.now p) ≡ true) }
{
    let Some((x, _)) = kept.part(p) else {
        return Ok(None);
    };
    let mut bytes = Vec::with_capacity(alloc, want.min(most))?;
    append_from(&mut bytes, kept, x, p, want)?;
    Ok(Some(Run {
        x,
        at: p,
        bytes: Bytes::of(bytes),
    }))
}

/// Appends the bytes of one exchange from a position on, at most so many.
fn append_from<P: Parts>(
    bytes: &mut Vec<u8>,
    kept: &P,
    x: u64,
    p: u64,
    want: usize,
) -> Result<(), NoMemory>
    requires { bytes.old.items ≡ [] }
    ensures { OnOk result (bytes.new.items ≡ bytes_from (P.kept kept.now) x p want) }
{
    let mut from = p;
    while bytes.len() < want {
        let part = part_of(kept, x, from, want - bytes.len());
        if part.is_empty() {
            break;
        }
        bytes.extend_from_slice(part)?;
        from += part.len() as u64;
    }
    Ok(())
}

/// Those of them that are kept in one place.
fn part_of<P: Parts>(kept: &P, x: u64, p: u64, most: usize) -> &[u8]
    ensures most { length result.now ≤ most }
    ensures whole { BeginsStretch (P.kept kept.now) x p most result.now }
    ensures none { length result.now ≡ 0 → bytes_from (P.kept kept.now) x p most ≡ [] }
    ensures end { 0 < length result.now → p + length result.now ≤ 2 ^ 62 }
{
    match kept.part(p) {
        Some((of, bytes)) if of == x => first_of(bytes, most),
        _ => &[],
    }
}

/// At most so many bytes, from the first on.
pub(crate) fn first_of(bytes: &[u8], most: usize) -> &[u8]
    ensures { result.now ≡ take most bytes.now }
{
    &bytes[..most.min(bytes.len())]
}

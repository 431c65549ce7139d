//! Sparse bytes as blocks.
#![tactic(auto, unfolding(crate::specs::Sparse::sparse_cells))]

ghost use Rattle.std.specs.Prelude.{◌≡◌, ◌+◌, ◌≤◌, ◌<◌, ◌^◌, ◌++◌, ℕ, length, IfSome, OnOk, OnErr};
ghost use Rattle.hc_sparse.specs.Cells.{nothing, size};
ghost use Rattle.hc_sparse.specs.Extents.{claimed_marks, AreFree, IsWhole};
ghost use Rattle.hc_sparse.specs.BlockMaps.{cells_by, AreWithin};
ghost use Rattle.hc_sparse.specs.Places.{marks_at, KeepsMarks};
ghost use Rattle.std.proofs.Props.{props};

use crate::extents::{Extent, is_followed};
use crate::growing::GrowingBytes;
use crate::parts::{Parts, covered, stretch_at};
use crate::places::Places;
use crate::presence::{Presence, Span2, SparseBytes};
use crate::run::Run;
use hc_text::NoMemory;
use std::alloc::Global;

/// Sparse bytes as blocks of 4,096 positions, found by their positions divided by 4,096. Each has the
/// list of its stretches by exchange, which tell where their bytes stand: the bytes of all blocks stand
/// in one list, in the order in which they came, so none is kept for an absent position.
///
/// That list is kept in segments of 16,384 bytes, and a reader whose bytes one segment has shares it
/// and copies none. A segment takes some 100 bytes beside these. Each but the first has its
/// whole room at once.
///
/// What was put last is kept beside the blocks, with all that it goes on from, and a put that goes on from
/// it looks nothing up. One that doesn't gives it to the blocks first, each position once, and looks up
/// each of their blocks once, whatever was put before. A block takes some 120 bytes, and some 32 for each
/// of its stretches but the first.
///
/// Beside the blocks are the spans that they have without a gap, whoever delivered them, so that whether
/// all of a span is there takes a few look-ups however many stretches there are. One takes 16 bytes.
#[derive(Drop)]
pub struct Sparse {
    places: Places,
    bytes: GrowingBytes,
    ghost within: { AreWithin (marks_at places) (length bytes) } by { Prim.hlevel props },
    ghost counts: { length bytes ≡ size (cells_by (marks_at places) bytes) },
}

impl Sparse {
    /// Nothing is anywhere.
    pub fn new(alloc: Global) -> Sparse
        ensures { ⟦<Sparse as Presence>⟧.cells result ≡ nothing }
    {
        Sparse {
            places: Places::new(alloc),
            bytes: GrowingBytes::new(alloc),
        }
    }
}

impl Presence for Sparse {
    ghost use Rattle.hc_sparse.specs.Sparse.{sparse_cells};

    ghost cells = { sparse_cells };

    fn covers(&self, span: Span2) -> bool {
        covered(self, span)
    }

    fn next_present(&self, p: u64) -> Option<u64> {
        self.places.next(p)
    }
}

impl Parts for Sparse {
    ghost use Rattle.hc_sparse.specs.Sparse.{sparse_cells};

    ghost kept = { sparse_cells };

    fn part(&self, p: u64) -> Option<(u64, &[u8])> {
        let extent = self.places.extent(p)?;
        Some((extent.x, self.bytes.first(extent.from, extent.len)))
    }

    fn end(&self, p: u64) -> Option<u64> {
        self.places.end(p)
    }
}

impl SparseBytes for Sparse {
    fn put(&mut self, at: u64, x: u64, bytes: &[u8]) -> Result<(), NoMemory> {
        if bytes.is_empty() {
            return Ok(());
        }
        put_in(&mut self.places, &mut self.bytes, at, x, bytes)?;
        Ok(())
    }

    fn run_at(&self, p: u64, want: usize) -> Result<Option<Run>, NoMemory> {
        let Some(whole) = joined_at(&self.places, p, want) else {
            return stretch_at(self.bytes.allocator(), self, p, want, self.bytes.len());
        };
        let bytes = self.bytes.part(whole.from, whole.len)?;
        Ok(Some(Run {
            x: whole.x,
            at: p,
            bytes,
        }))
    }

    fn size(&self) -> u64 {
        self.bytes.len() as u64
    }
}

/// The stretch from a position on, at most `want` long, where its bytes stand one after another.
fn joined_at(places: &Places, p: u64, want: usize) -> Option<Extent>
    requires within { AreWithin (marks_at places.now) (2 ^ 63) }
    requires wanted { 0 < want }
    ensures { IfSome result (IsWhole (marks_at places.now) p want) }
{
    let mut whole = places.extent(p)?;
    while whole.len < want {
        match places.extent((whole.at + whole.len) as u64) {
            Some(next) if is_followed(&whole, next) => whole.len += next.len,
            Some(next) if next.x == whole.x => return None,
            _ => break,
        }
    }
    whole.len = whole.len.min(want);
    Some(whole)
}

/// Puts bytes of an exchange at positions that nobody has, all of them or none. What may want memory is
/// done before anything shows.
fn put_in(
    places: &mut Places,
    bytes: &mut GrowingBytes,
    at: u64,
    x: u64,
    piece: &[u8],
) -> Result<(), NoMemory>
    requires free { AreFree (marks_at places.old) at (at + length piece.now) }
    requires end { at + length piece.now ≤ 2 ^ 62 }
    requires some { 0 < length piece.now }
    requires small { length bytes.old + length piece.now < 2 ^ 64 }
    ensures marks { OnOk result ((q : ℕ) → marks_at places.new q
        ≡ claimed_marks at (length piece.now) x (length bytes.old) (marks_at places.old) q) }
    ensures bytes { OnOk result (bytes.new ≡ bytes.old ++ piece.now) }
    ensures same { OnErr result (KeepsMarks places.old places.new) }
    ensures kept { OnErr result (bytes.new ≡ bytes.old) }
{
    let new = Extent {
        x,
        at: at as usize,
        len: piece.len(),
        from: bytes.len(),
    };
    places.make_ready(bytes.allocator(), new)?;
    bytes.append(piece)?;
    places.put(new);
    Ok(())
}

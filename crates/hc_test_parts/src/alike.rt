//! Many small pieces in a row, each of an exchange of its own: they cross the border of a block.
use crate::sparse::is_done;
use hc_sparse::{PlainSparse, Presence, Span2, Sparse, SparseBytes, SparseOp};
use hc_text::{Bytes, NoMemory};
use std::alloc::Global;

/// How many pieces there are.
const COUNT: u64 = 44;

/// Where the first begins.
const FIRST: u64 = 3000;

/// How long each is.
const SIZE: u64 = 100;

/// Whether blocks and runs tell the same behind each put, where every so many pieces on comes the next.
pub(crate) fn steps_are_alike(alloc: Global, apart: u64) -> Result<bool, NoMemory> {
    put_steps(
        alloc,
        &mut Sparse::new(alloc),
        &mut PlainSparse::new(alloc),
        apart,
    )
}

/// Whether both tell the same behind each put, and have all bytes in the end.
fn put_steps(
    alloc: Global,
    blocks: &mut Sparse,
    runs: &mut PlainSparse,
    apart: u64,
) -> Result<bool, NoMemory> {
    for k in 0..COUNT {
        let place = k.wrapping_mul(apart) % COUNT;
        let are_put = is_put(alloc, blocks, place)? && is_put(alloc, runs, place)?;
        if !are_put || !are_alike(blocks, runs) {
            return Ok(false);
        }
    }
    Ok(blocks.covers(Span2 {
        lo: FIRST,
        hi: FIRST + COUNT * SIZE,
    }))
}

/// Whether the put of this piece is done.
fn is_put<M: SparseBytes>(alloc: Global, map: &mut M, place: u64) -> Result<bool, NoMemory> {
    let bytes = vec![in alloc; b'a'; SIZE as usize]?;
    let op = SparseOp::Put {
        at: FIRST.saturating_add(place.saturating_mul(SIZE)),
        x: place,
        bytes: Bytes::of(bytes),
    };
    is_done(alloc, map, op)
}

/// Whether both tell the same between any two borders of pieces, and up to the position past the second.
fn are_alike(blocks: &Sparse, runs: &PlainSparse) -> bool {
    for pair in 0..(COUNT + 1) * (COUNT + 1) {
        let lo = FIRST + pair / (COUNT + 1) * SIZE;
        let hi = FIRST + pair % (COUNT + 1) * SIZE;
        if !report_the_same(blocks, runs, lo, hi) || !report_the_same(blocks, runs, lo, hi + 1) {
            return false;
        }
    }
    true
}

/// Whether both tell the same of the positions from one to below another.
fn report_the_same(blocks: &Sparse, runs: &PlainSparse, lo: u64, hi: u64) -> bool {
    let span = Span2 { lo, hi };
    blocks.covers(span) == runs.covers(span) && blocks.next_present(lo) == runs.next_present(lo)
}

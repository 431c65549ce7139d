//! Bodies read back in pieces.
ghost use Rattle.std.specs.Prelude.{◌≡◌, ◌≤◌, ◌^◌};
ghost use Rattle.hc_sparse.specs.Cells.{nothing};

use crate::error::{BenchError, expect};
use crate::order::Order;
use crate::sparse::{MOST, PIECE_LEN, put};
use crate::words::{number_of, times_of};
use hc_sparse::{PlainSparse, Run, Sparse, SparseBytes};
use std::alloc::Global;

/// How many bytes a read wants.
const WANT: u64 = 16_384;

/// `BODY PIECES COUNT`: a body of so many pieces is made once, and read back so many times.
pub(crate) fn run(alloc: Global, words: &[String]) -> Result<(), BenchError> {
    let [body, pieces, times] = words else {
        return Err(BenchError::Usage);
    };
    let pieces = number_of(pieces.as_str(), 1, MOST)?;
    let times = times_of(times.as_str())?;
    match body.as_str() {
        "list" => read_list(alloc, pieces, times),
        "blocks" => read_blocks(alloc, pieces, times),
        "runs" => read_runs(alloc, pieces, times),
        _ => Err(BenchError::Usage),
    }
}

/// Copies a list of bytes in pieces.
fn read_list(alloc: Global, pieces: u64, times: u64) -> Result<(), BenchError>
    requires { pieces ≤ 2 ^ 20 }
{
    let body = vec![in alloc; b'x'; (PIECE_LEN * pieces) as usize]?;
    copy_often(alloc, &body, times)
}

fn copy_often(alloc: Global, body: &[u8], times: u64) -> Result<(), BenchError> {
    for _round in 0..times {
        copy(alloc, body)?;
    }
    Ok(())
}

fn copy(alloc: Global, body: &[u8]) -> Result<(), BenchError> {
    for piece in body.chunks(WANT as usize) {
        copied(alloc, piece)?;
    }
    Ok(())
}

/// A copy of a piece, which isn't inlined, so that it is made.
#[inline(never)]
fn copied(alloc: Global, piece: &[u8]) -> Result<Vec<u8>, BenchError> {
    Ok(piece.to_vec(alloc)?)
}

/// Reads a body in blocks.
fn read_blocks(alloc: Global, pieces: u64, times: u64) -> Result<(), BenchError>
    requires { pieces ≤ 2 ^ 20 }
{
    let mut body = Sparse::new(alloc);
    read_sparse(&mut body, pieces, times)
}

/// Reads a body in a list of runs.
fn read_runs(alloc: Global, pieces: u64, times: u64) -> Result<(), BenchError>
    requires { pieces ≤ 2 ^ 20 }
{
    let mut body = PlainSparse::new(alloc);
    read_sparse(&mut body, pieces, times)
}

/// Puts the pieces into sparse bytes, and reads these in pieces.
fn read_sparse<M: SparseBytes>(body: &mut M, pieces: u64, times: u64) -> Result<(), BenchError>
    requires empty { M.cells body.old ≡ nothing }
    requires few { pieces ≤ 2 ^ 20 }
{
    let piece = [b'x'; PIECE_LEN as usize];
    put(body, Order::Forward, &piece, pieces)?;
    for _round in 0..times {
        read_all(body, PIECE_LEN * pieces / WANT)?;
    }
    Ok(())
}

/// Reads so many pieces.
fn read_all<M: SparseBytes>(body: &M, count: u64) -> Result<(), BenchError>
    requires { count ≤ 2 ^ 20 }
{
    for k in 0..count {
        read_at(body, WANT * k)?;
    }
    Ok(())
}

/// Reads one piece.
fn read_at<M: SparseBytes>(body: &M, at: u64) -> Result<(), BenchError> {
    let run = body.run_at(at, WANT as usize)?;
    expect(is_whole(&run))
}

/// Whether these are as many bytes as were wanted.
fn is_whole(run: &Option<Run>) -> bool {
    match run {
        Some(run) => run.bytes.len() == WANT as usize,
        None => false,
    }
}

//! Downloads: pieces of one exchange that make a body.
ghost use Rattle.std.specs.Prelude.{◌≡◌, ◌≤◌, ◌^◌, length};
ghost use Rattle.hc_sparse.specs.Cells.{nothing};

use crate::error::{BenchError, expect};
use crate::order::{Order, order_of, place};
use crate::words::{number_of, times_of};
use hc_sparse::{PlainSparse, Sparse, SparseBytes};
use std::alloc::Global;

/// How many bytes a piece has.
pub(crate) const PIECE_LEN: u64 = 1460;

/// The most pieces of a download.
pub(crate) const MOST: u64 = 1 << 20;

/// The exchange that brings the pieces.
const EXCHANGE: u64 = 1;

/// How far from one another single bytes stand, so that each has a block of its own.
const STEP: u64 = 1 << 20;

/// How a download is put together.
#[derive(Clone, Copy)]
enum Way {
    /// Each piece is appended to a list of bytes.
    Append,
    /// Pieces of one byte are put into blocks, each into a block of its own.
    Lone,
    /// The pieces are put into blocks, by `Sparse`.
    Blocks(Order),
    /// The pieces are put into a list of runs, by `PlainSparse`.
    Runs(Order),
}

/// `WAY PIECES COUNT`.
pub(crate) fn run(alloc: Global, words: &[String]) -> Result<(), BenchError> {
    let [way, pieces, times] = words else {
        return Err(BenchError::Usage);
    };
    let way = way_of(way.as_str())?;
    let pieces = number_of(pieces.as_str(), 1, MOST)?;
    let piece = [b'x'; PIECE_LEN as usize];
    for _round in 0..times_of(times.as_str())? {
        expect(download(alloc, way, &piece, pieces)? == size_by(way, pieces))?;
    }
    Ok(())
}

/// The way that the word names.
fn way_of(word: &str) -> Result<Way, BenchError> {
    match word {
        "append" => Ok(Way::Append),
        "lone" => Ok(Way::Lone),
        _ => match word.strip_prefix("runs-") {
            Some(order) => Ok(Way::Runs(order_of(order)?)),
            None => Ok(Way::Blocks(order_of(word)?)),
        },
    }
}

/// How many bytes a download of so many pieces has.
fn size_by(way: Way, pieces: u64) -> u64 {
    match way {
        Way::Append | Way::Blocks(_) | Way::Runs(_) => PIECE_LEN.wrapping_mul(pieces),
        Way::Lone => pieces,
    }
}

/// Makes a download of the piece, again and again, and answers how many bytes it has.
fn download(alloc: Global, way: Way, piece: &[u8], pieces: u64) -> Result<u64, BenchError>
    requires piece { length piece.now ≡ PIECE_LEN }
    requires few { pieces ≤ 2 ^ 20 }
{
    match way {
        Way::Append => append(alloc, piece, pieces),
        Way::Lone => put_alone(alloc, pieces),
        Way::Blocks(order) => put_into_blocks(alloc, order, piece, pieces),
        Way::Runs(order) => put_into_runs(alloc, order, piece, pieces),
    }
}

fn put_into_blocks(
    alloc: Global,
    order: Order,
    piece: &[u8],
    pieces: u64,
) -> Result<u64, BenchError>
    requires piece { length piece.now ≡ PIECE_LEN }
    requires few { pieces ≤ 2 ^ 20 }
{
    let mut body = Sparse::new(alloc);
    put(&mut body, order, piece, pieces)
}

fn put_into_runs(alloc: Global, order: Order, piece: &[u8], pieces: u64) -> Result<u64, BenchError>
    requires piece { length piece.now ≡ PIECE_LEN }
    requires few { pieces ≤ 2 ^ 20 }
{
    let mut body = PlainSparse::new(alloc);
    put(&mut body, order, piece, pieces)
}

/// Appends each piece to a list of bytes.
fn append(alloc: Global, piece: &[u8], pieces: u64) -> Result<u64, BenchError> {
    let mut body = Vec::new(alloc);
    for _k in 0..pieces {
        body.extend_from_slice(piece)?;
    }
    Ok(body.len() as u64)
}

/// Puts so many single bytes, each into a block of its own.
fn put_alone(alloc: Global, count: u64) -> Result<u64, BenchError>
    requires { count ≤ 2 ^ 20 }
{
    let mut body = Sparse::new(alloc);
    for k in 0..count {
        body.put(STEP * k, EXCHANGE, b"x")?;
    }
    Ok(body.size())
}

/// Puts the pieces into sparse bytes in this order.
pub(crate) fn put<M: SparseBytes>(
    body: &mut M,
    order: Order,
    piece: &[u8],
    pieces: u64,
) -> Result<u64, BenchError>
    requires empty { M.cells body.old ≡ nothing }
    requires piece { length piece.now ≡ PIECE_LEN }
    requires few { pieces ≤ 2 ^ 20 }
{
    for k in 0..pieces {
        body.put(PIECE_LEN * place(order, k, pieces), EXCHANGE, piece)?;
    }
    Ok(body.size())
}

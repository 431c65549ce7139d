//! Operations on sparse bytes, given as data.
ghost use Rattle.std.specs.Prelude.{◌≡◌, ◌≤◌, ◌<◌, ◌+◌, ◌^◌, ℕ, length, take, IfOk, OnOk, OnErr, IsTrue, ◌↔◌, true};
ghost use Rattle.std.specs.List.{All};
ghost use Rattle.hc_sparse.specs.Ops.{IsAllowed, IsAnswer, HasAnswered, after, cells_after, are_absent};

use crate::presence::SparseBytes;
use crate::run::Run;
use hc_text::{Bytes, NoMemory};
use std::alloc::Global;
use std::marker::Model;

/// One operation.
#[derive(Debug, Drop)]
pub enum SparseOp {
    /// Puts bytes of the exchange `x` at positions from `at` on. They end by 2^62.
    Put { at: u64, x: u64, bytes: Bytes },
    /// Asks for the stretch from `p` on, of at most `want` bytes, which isn't 0.
    RunAt { p: u64, want: usize },
    /// Asks for the least present position that is not below `p`.
    Next { p: u64 },
}

/// What an operation is answered.
#[derive(Debug, Drop)]
pub enum SparseAnswer {
    /// The bytes are put.
    Done,
    /// Some of the positions are present already, so nothing is put.
    Taken,
    /// The stretch, or none where the position is absent.
    Run(Option<Run>),
    /// The position, or none where nothing is from there on.
    Next(Option<u64>),
}

/// Answers in the order of their operations.
#[derive(Debug, Drop)]
pub struct SparseAnswers {
    pub items: Vec<SparseAnswer>,
}

impl Model for SparseAnswers {
    ghost use Rattle.std.specs.Prelude.{List};
    ghost use Rattle.hc_sparse.specs.declared.ops.SparseAnswer.{SparseAnswer};

    ghost Value = { List SparseAnswer };

    ghost view = { λ s. s.items.items };
}

/// Does the operations one after another, and answers each.
///
/// After NoMemory some first of them are done, and those behind them aren't.
pub fn run_ops<M: SparseBytes>(
    alloc: Global,
    map: &mut M,
    ops: &[SparseOp],
) -> Result<SparseAnswers, NoMemory>
    requires { All IsAllowed ops.now }
    ensures ok { IfOk result
        (λ answers. HasAnswered (M.cells map.old) (M.cells map.new) ops.now answers) }
    ensures err { OnErr result
        ((done : ℕ) × (M.cells map.new ≡ cells_after (M.cells map.old) (take done ops.now))) }
{
    let mut items = Vec::with_capacity(alloc, ops.len())?;
    for op in ops {
        let answer = answer_of(map, op)?;
        items.push(answer)?;
    }
    Ok(SparseAnswers { items })
}

/// Does one operation.
fn answer_of<M: SparseBytes>(map: &mut M, op: &SparseOp) -> Result<SparseAnswer, NoMemory>
    requires { IsAllowed op.now }
    ensures answer { IfOk result (λ answer. IsAnswer (M.cells map.old) op.now answer) }
    ensures ok { OnOk result (M.cells map.new ≡ after op.now (M.cells map.old)) }
    ensures err { OnErr result (M.cells map.new ≡ M.cells map.old) }
{
    match op {
        SparseOp::Put { at, x, bytes } => put_absent(map, *at, *x, bytes.as_slice()),
        SparseOp::RunAt { p, want } => Ok(SparseAnswer::Run(map.run_at(*p, *want)?)),
        SparseOp::Next { p } => Ok(SparseAnswer::Next(map.next_present(*p))),
    }
}

/// Puts bytes at positions if all are absent.
fn put_absent<M: SparseBytes>(
    map: &mut M,
    at: u64,
    x: u64,
    bytes: &[u8],
) -> Result<SparseAnswer, NoMemory>
    requires { at + length bytes.now ≤ 2 ^ 62 }
    ensures answer { IfOk result
        (λ answer. IsAnswer (M.cells map.old) (SparseOp.Put at x bytes.now) answer) }
    ensures ok { OnOk result
        (M.cells map.new ≡ after (SparseOp.Put at x bytes.now) (M.cells map.old)) }
    ensures err { OnErr result (M.cells map.new ≡ M.cells map.old) }
{
    if !are_absent(map, at, bytes.len() as u64) {
        return Ok(SparseAnswer::Taken);
    }
    map.put(at, x, bytes)?;
    Ok(SparseAnswer::Done)
}

/// Whether nothing is at so many positions from one on.
fn are_absent<M: SparseBytes>(map: &M, p: u64, len: u64) -> bool
    requires { p + len ≤ 2 ^ 62 }
    ensures { result ≡ are_absent (M.cells map.now) p len }
{
    match map.next_present(p) {
        Some(n) => p + len <= n,
        None => true,
    }
}

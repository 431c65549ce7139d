//! Calls of sparse bytes. Each is made on blocks and on a list of runs, however many orders of puts are
//! kept, and what differs is told.
ghost use Rattle.std.specs.Prelude.{IsTrue, ◌↔◌, ◌<◌};
ghost use Rattle.hc_sparse.specs.Ops.{IsAllowed};

use crate::alike::steps_are_alike;
use crate::order::{CODES, order_of};
use crate::stitching;
use crate::values::report_run;
use hc_sparse::{PlainSparse, Run, Span2, Sparse, SparseAnswer, SparseBytes, SparseOp, run_ops};
use hc_test_frame::{Fault, Vector, note};
use hc_text::{Bytes, NoMemory};
use std::alloc::Global;

/// Past the last position that there may be.
const END: u64 = 1 << 62;

/// The same bytes as blocks and as a list of runs.
#[derive(Drop)]
struct Both {
    blocks: Sparse,
    runs: PlainSparse,
}

impl Both {
    fn new(alloc: Global) -> Both {
        Both {
            blocks: Sparse::new(alloc),
            runs: PlainSparse::new(alloc),
        }
    }

    /// Makes the call on both, and writes what differs.
    fn note(&mut self, v: &Vector, to: &mut String) -> Result<(), Fault> {
        note_of(&mut self.blocks, v, to)?;
        let mut other = String::new(v.alloc());
        note_of(&mut self.runs, v, &mut other)?;
        if other.as_str() != to.as_str() {
            write!(to, ", in runs {other}")?;
        }
        Ok(())
    }

    /// Makes the call on both, and writes what comes where it differs from what was told.
    fn report_other(&mut self, v: &Vector, to: &mut String) -> Result<(), Fault> {
        let mut value = String::new(v.alloc());
        self.note(v, &mut value)?;
        if value.as_str() != to.as_str() {
            write!(to, ", in another order {value}")?;
        }
        Ok(())
    }

    /// Puts five pieces in this order. Whether all puts are done.
    fn put_in_order(&mut self, v: &Vector, order: [usize; 5]) -> Result<bool, NoMemory> {
        for place in order {
            if !put_at(&mut self.blocks, v, place)? || !put_at(&mut self.runs, v, place)? {
                return Ok(false);
            }
        }
        Ok(true)
    }
}

/// Bytes that were put in different orders: to be the same.
#[derive(Drop)]
pub(crate) struct ManyBytes {
    orders: Vec<Both>,
}

impl ManyBytes {
    /// There are none.
    pub(crate) fn new(alloc: Global) -> ManyBytes {
        ManyBytes {
            orders: Vec::new(alloc),
        }
    }

    /// Makes the call on all, and writes what came of the first, and what differs from it.
    pub(crate) fn note(&mut self, v: &Vector, to: &mut String) -> Result<(), Fault> {
        match v.call() {
            "bytes_new" => self.begin(v.alloc(), to),
            "bytes_in_every_order nntnntnntnntnnt" => self.put_in_every_order(v, to),
            "bytes_in_steps n" => note(&steps_are_alike(v.alloc(), v.number(0))?, to),
            _ => self.report_of_all(v, to),
        }
    }

    /// Keeps bytes in one order, which holds none yet.
    fn begin(&mut self, alloc: Global, to: &mut String) -> Result<(), Fault> {
        self.orders.clear();
        self.orders.push(Both::new(alloc))?;
        note(&self.orders.len(), to)
    }

    fn report_of_all(&mut self, v: &Vector, to: &mut String) -> Result<(), Fault> {
        let mut is_first = true;
        for both in self.orders.iter_mut() {
            if is_first {
                both.note(v, to)?;
            } else {
                both.report_other(v, to)?;
            }
            is_first = false;
        }
        if is_first {
            return Err(Fault::NoSuchCall);
        }
        Ok(())
    }

    /// Keeps what comes of five puts in each order in which all are done, and writes in how many.
    fn put_in_every_order(&mut self, v: &Vector, to: &mut String) -> Result<(), Fault> {
        self.orders.clear();
        for code in 0..CODES {
            if let Some(order) = order_of(code) {
                self.put_in_order(v, order)?;
            }
        }
        note(&self.orders.len(), to)
    }

    fn put_in_order(&mut self, v: &Vector, order: [usize; 5]) -> Result<(), NoMemory> {
        let mut both = Both::new(v.alloc());
        if both.put_in_order(v, order)? {
            self.orders.push(both)?;
        }
        Ok(())
    }
}

/// Makes the call on the bytes as they are kept in one of the two ways.
fn note_of<M: SparseBytes>(map: &mut M, v: &Vector, to: &mut String) -> Result<(), Fault> {
    let a = v.number(0);
    let b = v.number(1);
    match v.call() {
        "bytes_put nnt" => report_put(map, v, to),
        "bytes_run nn" => report_run_at(map, v, to),
        "bytes_next n" => report_next(map, v, to),
        "bytes_next_present n" => note(&map.next_present(a), to),
        "bytes_covers nn" => note(&map.covers(Span2 { lo: a, hi: b }), to),
        "bytes_size" => note(&map.size(), to),
        "bytes_copy nn" if b > 0 => report_copy(map, a, b as usize, to),
        _ => stitching::call(map, v, to),
    }
}

fn report_put<M: SparseBytes>(map: &mut M, v: &Vector, to: &mut String) -> Result<(), Fault> {
    let op = put_of(v, 0)?;
    report_op(map, v.alloc(), op, to)
}

fn report_run_at<M: SparseBytes>(map: &mut M, v: &Vector, to: &mut String) -> Result<(), Fault> {
    let op = SparseOp::RunAt {
        p: v.number(0),
        want: v.number(1) as usize,
    };
    report_op(map, v.alloc(), op, to)
}

fn report_next<M: SparseBytes>(map: &mut M, v: &Vector, to: &mut String) -> Result<(), Fault> {
    let op = SparseOp::Next { p: v.number(0) };
    report_op(map, v.alloc(), op, to)
}

fn report_copy<M: SparseBytes>(map: &M, p: u64, want: usize, to: &mut String) -> Result<(), Fault>
    requires { 0 < want }
{
    let copy = copy_at(map, p, want)?;
    report_run(&copy, to)
}

/// A copy of the run at this place.
fn copy_at<M: SparseBytes>(map: &M, p: u64, want: usize) -> Result<Option<Run>, NoMemory>
    requires { 0 < want }
{
    match map.run_at(p, want)? {
        Some(run) => Ok(Some(run.copy()?)),
        None => Ok(None),
    }
}

/// The put whose arguments begin at this place.
fn put_of(v: &Vector, at: usize) -> Result<SparseOp, NoMemory> {
    let bytes = v.text(at.saturating_add(2)).to_vec(v.alloc())?;
    Ok(SparseOp::Put {
        at: v.number(at),
        x: v.number(at.saturating_add(1)),
        bytes: Bytes::of(bytes),
    })
}

/// Makes one of five puts. Whether it is done.
fn put_at<M: SparseBytes>(map: &mut M, v: &Vector, place: usize) -> Result<bool, NoMemory> {
    let op = put_of(v, place.saturating_mul(3))?;
    is_done(v.alloc(), map, op)
}

/// Does the operation. Whether it is allowed and its answer is that it is done.
pub(crate) fn is_done<M: SparseBytes>(
    alloc: Global,
    map: &mut M,
    op: SparseOp,
) -> Result<bool, NoMemory> {
    let answer = answer(alloc, map, op)?;
    Ok(matches!(&answer, Some(SparseAnswer::Done)))
}

/// Does the operation, and writes its answer, where it is allowed.
fn report_op<M: SparseBytes>(
    map: &mut M,
    alloc: Global,
    op: SparseOp,
    to: &mut String,
) -> Result<(), Fault> {
    let answer = answer(alloc, map, op)?;
    match &answer {
        Some(answer) => report_answer(answer, to),
        None => Err(Fault::NoSuchCall),
    }
}

fn report_answer(answer: &SparseAnswer, to: &mut String) -> Result<(), Fault> {
    match answer {
        SparseAnswer::Run(run) => return report_run(run, to),
        SparseAnswer::Next(next) => return note(next, to),
        SparseAnswer::Done => to.push_str("Done")?,
        SparseAnswer::Taken => to.push_str("Taken")?,
    }
    Ok(())
}

/// The only answer to an operation, or none where it isn't allowed.
fn answer<M: SparseBytes>(
    alloc: Global,
    map: &mut M,
    op: SparseOp,
) -> Result<Option<SparseAnswer>, NoMemory> {
    if !is_allowed(&op) {
        return Ok(None);
    }
    let mut answers = run_ops(alloc, map, &[op])?;
    Ok(answers.items.pop())
}

fn is_allowed(op: &SparseOp) -> bool
    ensures { IsTrue result ↔ IsAllowed op.now }
{
    match op {
        SparseOp::Put { at, bytes, .. } => {
            let len = bytes.as_slice().len() as u64;
            *at <= END && len <= END - *at
        }
        SparseOp::RunAt { want, .. } => *want > 0,
        SparseOp::Next { .. } => true,
    }
}

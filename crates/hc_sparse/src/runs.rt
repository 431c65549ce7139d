//! Runs in the order of their positions, none of which overlap.
ghost use Rattle.std.specs.Prelude.{◌≡◌, ◌↔◌, ◌++◌, ◌+◌, ◌-◌, ◌≤◌, ◌<◌, ◌^◌, IsTrue, ℕ, List, [], length, take, drop, true, is_ok, if◌then◌else◌, IfOk, IfSome, IsNone, OnOk, OnErr};
ghost use Rattle.hc_sparse.specs.Cells.{AreAbsent, EndsBy, Covers, cells_with};
ghost use Rattle.hc_sparse.specs.Stretch.{bytes_from};
ghost use Rattle.hc_sparse.specs.Runs.{cells_of, ascend, place_of, end_of, longer_run, IsRunFrom};

use crate::run::Run;
use hc_text::{Bytes, NoMemory};
use std::alloc::Global;

/// Whether a run ends at a position or before it.
fn ends_by(run: &Run, p: u64) -> bool
    ensures { IsTrue result ↔ (end_of run.now ≤ p) }
{
    run.at <= p && run.bytes.as_slice().len() as u64 <= p - run.at
}

/// How many runs end at a position or before it.
pub(crate) fn place_of(runs: &[Run], p: u64) -> usize
    requires { ascend 0 runs.now ≡ true }
    ensures within { result ≤ length runs.now }
    ensures place { result ≡ place_of p runs.now }
{
    runs.partition_point(|run| ends_by(run, p))
}

/// The first run that ends past a position.
pub(crate) fn run_from(runs: &[Run], p: u64) -> Option<&Run>
    requires { ascend 0 runs.now ≡ true }
    ensures none { IsNone result → EndsBy p (cells_of runs.now) }
    ensures some { IfSome result (λ run. IsRunFrom runs.now p run.now) }
{
    runs.get(place_of(runs, p))
}

/// The run that has a position.
pub(crate) fn run_with(runs: &[Run], p: u64) -> Option<&Run>
    requires { ascend 0 runs.now ≡ true }
    ensures none { IsNone result → cells_of runs.now p ≡ None }
    ensures some { IfSome result (λ run. IsRunFrom runs.now p run.now × (run.now.at ≤ p)) }
{
    match run_from(runs, p) {
        Some(run) if run.at <= p => Some(run),
        _ => None,
    }
}

/// The bytes of a run from a position in it on.
pub(crate) fn rest_of(run: &Run, p: u64) -> &[u8]
    requires from { run.now.at ≤ p }
    requires past { p < end_of run.now }
    ensures { result.now ≡ drop (p - run.now.at) run.now.bytes }
{
    let place = (p - run.at) as usize;
    &run.bytes.as_slice()[place..]
}

/// Puts bytes of an exchange at absent positions, behind the runs that end there or before.
pub(crate) fn put_run(runs: &mut Vec<Run>, at: u64, x: u64, bytes: &[u8]) -> Result<(), NoMemory>
    requires ascend { ascend 0 runs.old.items ≡ true }
    requires absent { AreAbsent (cells_of runs.old.items) at (at + length bytes.now) }
    requires end { at + length bytes.now ≤ 2 ^ 62 }
    requires some { 0 < length bytes.now }
    ensures ascend { ascend 0 runs.new.items ≡ true }
    ensures ok { OnOk result
        ((p : ℕ) → cells_of runs.new.items p
        ≡ cells_with at x bytes.now (cells_of runs.old.items) p) }
    ensures err { OnErr result (runs.new.items ≡ runs.old.items) }
{
    let place = place_of(runs.as_slice(), at);
    if place > 0 && is_followed(&runs[place - 1], at, x) {
        let alloc = *runs.allocator();
        lengthen(alloc, &mut runs[place - 1], bytes)?;
        return Ok(());
    }
    let bytes = copy_of(*runs.allocator(), bytes)?;
    runs.insert(place, Run { x, at, bytes })?;
    Ok(())
}

/// Whether a run is of an exchange and ends just where more begins.
fn is_followed(run: &Run, at: u64, x: u64) -> bool
    ensures { IsTrue result ↔ (run.now.x ≡ x) × (end_of run.now ≡ at) }
{
    run.x == x && run.at <= at && run.bytes.as_slice().len() as u64 == at - run.at
}

/// Puts more bytes at the end of a run.
fn lengthen(alloc: Global, run: &mut Run, more: &[u8]) -> Result<(), NoMemory>
    ensures { run.new ≡ (if is_ok result then longer_run run.old more.now else run.old) }
{
    run.bytes.append(alloc, more)?;
    Ok(())
}

fn copy_of(alloc: Global, bytes: &[u8]) -> Result<Bytes, NoMemory>
    ensures { IfOk result (λ copy. copy ≡ bytes.now) }
{
    let bytes = bytes.to_vec(alloc)?;
    Ok(Bytes::of(bytes))
}

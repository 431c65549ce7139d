//! The runs of an item, read.
ghost use Rattle.std.specs.Prelude.{IfOk};
ghost use Rattle.hc_record.specs.Reading.{Takes};
ghost use Rattle.hc_image.specs.Images.{HasRunText, run_text, runs_text};
ghost use Rattle.hc_image.specs.Parts.{AreRuns, AreSmallRun, run_numbers_text};

use crate::cursor::Cursor;
use hc_contents::RunList;
use hc_sparse::Run;
use hc_text::{Bytes, NoMemory};
use std::alloc::Global;

/// Takes so many runs.
pub(crate) fn take_runs(
    alloc: Global,
    rest: &mut Cursor<'_>,
    count: u64,
) -> Result<Option<RunList>, NoMemory>
    ensures { IfOk result (λ read. Takes runs_text (AreRuns count) rest.old rest.new read) }
{
    let mut runs = RunList::new(alloc);
    for _ in 0..count {
        let Some(run) = take_run(alloc, rest)? else {
            return Ok(None);
        };
        runs.push(run)?;
    }
    Ok(Some(runs))
}

/// Takes a run.
fn take_run(alloc: Global, rest: &mut Cursor<'_>) -> Result<Option<Run>, NoMemory>
    ensures { IfOk result (λ read. Takes run_text HasRunText rest.old rest.new read) }
{
    let Some(line) = take_run_line(rest) else {
        return Ok(None);
    };
    let Some(bytes) = rest.take_block(line.count) else {
        return Ok(None);
    };
    let bytes = Bytes::of(Vec::from_slice(alloc, bytes)?);
    Ok(Some(Run {
        x: line.x,
        at: line.at,
        bytes,
    }))
}

/// The numbers in the line of a run.
#[derive(Clone, Copy)]
struct RunLine {
    x: u64,
    at: u64,
    count: u64,
}

/// Takes the line of a run.
fn take_run_line(rest: &mut Cursor<'_>) -> Option<RunLine>
    ensures { Takes run_numbers_text AreSmallRun rest.old rest.new result }
{
    rest.take_bytes(b"run ")?;
    let x = rest.take_number(b' ')?;
    let at = rest.take_number(b' ')?;
    let count = rest.take_number(b'\n')?;
    Some(RunLine { x, at, count })
}

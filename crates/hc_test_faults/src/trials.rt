//! Trials that are read line by line.

use crate::trial::Trial;
use hc_io::{ReadError, Sink, SinkError, Source, read_all, write_all};
use hc_text::NoMemory;
use std::alloc::{AllocError, Global};

/// Why the trials aren't all replayed.
#[derive(Clone, Copy)]
pub(crate) enum Stop {
    /// The line, from 1, is none of a trial.
    BadLine { line: u64 },
    /// A schedule has more than 2^60 bytes.
    TooLong,
    /// The input failed.
    SourceFailed,
    /// The output failed.
    SinkFailed,
    /// There was not enough memory.
    NoMemory,
}

impl From<ReadError> for Stop {
    fn from(e: ReadError) -> Self {
        match e {
            ReadError::SourceFailed => Stop::SourceFailed,
            ReadError::NoMemory => Stop::NoMemory,
        }
    }
}

impl From<SinkError> for Stop {
    fn from(e: SinkError) -> Self {
        match e {
            SinkError::SinkFailed => Stop::SinkFailed,
            SinkError::NoMemory => Stop::NoMemory,
        }
    }
}

impl From<NoMemory> for Stop {
    fn from(_: NoMemory) -> Self {
        Stop::NoMemory
    }
}

impl From<AllocError> for Stop {
    fn from(_: AllocError) -> Self {
        Stop::NoMemory
    }
}

/// Replays all trials of the input.
pub(crate) fn run<S: Source, K: Sink>(
    alloc: Global,
    source: &mut S,
    out: &mut K,
) -> Result<(), Stop> {
    let text = read_all(alloc, source)?;
    run_text(alloc, &text, out)
}

fn run_text<K: Sink>(alloc: Global, text: &[u8], out: &mut K) -> Result<(), Stop> {
    let mut open = None;
    take_lines(alloc, text, &mut open, out)?;
    end(alloc, &mut open, out)
}

fn take_lines<K: Sink>(
    alloc: Global,
    text: &[u8],
    open: &mut Option<Trial>,
    out: &mut K,
) -> Result<(), Stop> {
    let mut number = 0u64;
    for line in text.split_inclusive(|byte| *byte == b'\n') {
        number = number.wrapping_add(1);
        take_line(alloc, number, line, open, out)?;
    }
    Ok(())
}

/// Takes the next line. It ends the open trial, and is written, where it isn't one of its schedule.
fn take_line<K: Sink>(
    alloc: Global,
    number: u64,
    line: &[u8],
    open: &mut Option<Trial>,
    out: &mut K,
) -> Result<(), Stop> {
    let begins = line.starts_with(b"trial ") || line.starts_with(b"front ");
    if begins || is_comment(line) {
        end(alloc, open, out)?;
        write_all(out, line)?;
        if begins {
            *open = Some(begun(alloc, number, line)?);
        }
        return Ok(());
    }
    match open {
        Some(trial) => Ok(trial.add(line)?),
        None => Err(Stop::BadLine { line: number }),
    }
}

/// The trial that the line of this number begins.
fn begun(alloc: Global, number: u64, line: &[u8]) -> Result<Trial, Stop> {
    match Trial::new(alloc, line)? {
        Some(trial) => Ok(trial),
        None => Err(Stop::BadLine { line: number }),
    }
}

fn is_comment(line: &[u8]) -> bool {
    line.starts_with(b"#") || line.starts_with(b"\n")
}

/// Replays the open trial, if there is one.
fn end<K: Sink>(alloc: Global, open: &mut Option<Trial>, out: &mut K) -> Result<(), Stop> {
    match open.take() {
        Some(trial) => trial.replay(alloc, out),
        None => Ok(()),
    }
}

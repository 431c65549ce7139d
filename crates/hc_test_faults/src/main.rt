//! A program that replays schedules over small stores that fail where they are told to.
//!
//! Standard input has trials. A trial begins with a line `trial MAX_ENTRY MAX_TOTAL`, the most bytes
//! of one representation and of all, behind which pairs may stand, a call of the store and which of
//! these calls fails, from 1: `trial 100 65560 put 3 seal 1`. With `front` in place of `trial` a front
//! stands before the cache. The lines of its schedule follow. Empty lines and those that begin with
//! `#` end it, and are comments.
//!
//! The output has each comment and each line that begins a trial as they are, and behind the latter
//! the report and how the replay ended. Without a front, how much is stored then of what is current
//! for `http://a.test/x` follows, and how many events were stepped.
#![tactic(auto)]

mod trial;
mod trials;

use hc_io::{StdSink, StdSource};
use std::process::ExitCode;
use trials::{Stop, run};

/// Exits with 0 where all trials were replayed, with 1 where a line is none of a trial or a schedule is
/// too long, with 3 and 4 where a stream fails, and with 6 for want of memory.
fn main(rt: HostRuntime) -> ExitCode {
    let mut input = StdSource::new(rt.stdin());
    let mut out = StdSink::new(rt.stdout());
    let ran = run(rt.alloc(), &mut input, &mut out);
    ExitCode::from(status_of(&rt, ran))
}

/// The status, and why on standard error, where no other program can tell.
fn status_of(rt: &HostRuntime, ran: Result<(), Stop>) -> u8 {
    match ran {
        Ok(()) => 0,
        Err(Stop::BadLine { line }) => {
            let _ = eprintln!(rt; "line {line} is none of a trial");
            1
        }
        Err(Stop::TooLong) => {
            let _ = eprintln!(rt; "a schedule is too long");
            1
        }
        Err(Stop::SourceFailed) => 3,
        Err(Stop::SinkFailed) => 4,
        Err(Stop::NoMemory) => 6,
    }
}

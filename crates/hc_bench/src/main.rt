//! What the scripts of `bench` time: work of the libraries, again and again.
//!
//! `hc_bench SUBJECT WORDS.. COUNT` does what the words name COUNT times, and ends with 0, with 1
//! where an answer isn't the right one, with 2 where the words name nothing, with 3 where a stream
//! fails, and with 6 for want of memory. Without words it does nothing.
#![tactic(auto)]

mod error;
mod fields;
mod line;
mod maps;
mod messages;
mod order;
mod reading;
mod rules;
mod schedules;
mod sparse;
mod stores;
mod texts;
mod words;

use error::BenchError;
use hc_io::StdSource;
use std::env;
use std::process::ExitCode;

fn main(rt: HostRuntime) -> ExitCode {
    ExitCode::from(match bench(&rt) {
        Ok(()) => 0,
        Err(e) => e.status(),
    })
}

/// Does what the words after the program's name ask for.
fn bench(rt: &HostRuntime) -> Result<(), BenchError> {
    let words = arguments(rt)?;
    match words.as_slice() {
        [subject, words @ ..] => run(rt, subject.as_str(), words),
        [] => Ok(()),
    }
}

/// Does what the words ask for of this subject.
fn run(rt: &HostRuntime, subject: &str, words: &[String]) -> Result<(), BenchError> {
    let alloc = rt.alloc();
    match subject {
        "fields" => fields::run(alloc, words),
        "map" => maps::run(alloc, words),
        "sparse" => sparse::run(alloc, words),
        "read" => reading::run(alloc, words),
        "store" => stores::run(alloc, words),
        "call" => rules::run(alloc, words),
        "message" => messages::run(alloc, words),
        "line" => line::run(alloc, words),
        "schedule" => run_schedule(rt, words),
        _ => Err(BenchError::Usage),
    }
}

/// Does what they ask for over the program's streams.
fn run_schedule(rt: &HostRuntime, words: &[String]) -> Result<(), BenchError> {
    let mut input = StdSource::new(rt.stdin());
    schedules::run(rt.alloc(), words, &mut input, &mut rt.stdout())
}

/// The words after the program's name.
fn arguments(rt: &HostRuntime) -> Result<Vec<String>, BenchError> {
    let mut words = Vec::new(rt.alloc());
    for word in env::args(rt)?.skip(1) {
        words.push(word)?;
    }
    Ok(words)
}

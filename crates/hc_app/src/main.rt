//! The program. Schedules come in, and their reports go out; or what they leave is saved as an image,
//! from which a later run goes on. Schedules are generated, and their summary goes out. Clients are
//! served from an origin, and there is an origin for tests. A schedule is replayed behind a front that
//! answers requests on condition of a copy. One resource is read in parts, and its body is written.
#![tactic(auto)]

mod address;
mod command;
mod fetching;
mod run;
mod say;
mod status;

use hc_io::{StdSink, StdSource};
use hc_sockets::MioWire;
use run::run;
use status::Status;
use std::io::ErrorKind;
use std::process::ExitCode;
use std::{env, io};

/// Calls `run` with the words after the program's name, the standard streams and a wire over sockets,
/// and exits with what it answers.
fn main(rt: HostRuntime) -> ExitCode {
    let words = match words(&rt) {
        Ok(words) => words,
        Err(e) if e.kind() == ErrorKind::OutOfMemory => {
            return ExitCode::from(Status::NoMemory.code());
        }
        // A word that isn't UTF-8 is no command.
        Err(_) => Vec::new(rt.alloc()),
    };
    let mut input = StdSource::new(rt.stdin());
    let mut out = StdSink::new(rt.stdout());
    let mut diag = StdSink::new(rt.stderr());
    let alloc = rt.alloc();
    let mut wire = MioWire::new(rt);
    ExitCode::from(run(
        alloc,
        words.as_slice(),
        &mut input,
        &mut out,
        &mut diag,
        &mut wire,
    ))
}

/// The words after the program's name.
fn words(rt: &HostRuntime) -> io::Result<Vec<String>> {
    let mut words = Vec::new(rt.alloc());
    for word in env::args(rt)?.skip(1) {
        words.push(word)?;
    }
    Ok(words)
}

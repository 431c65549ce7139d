//! A proxy that one keeps. Its store outlives it, in a folder.
#![tactic(auto)]

mod ending;
mod nowhere;
mod proxy;
mod say;
mod serving;
mod words;

use ending::Ending;
use proxy::run;
use std::io::ErrorKind;
use std::process::ExitCode;
use std::{env, io};

/// Does what the words after the program's name say.
fn main(rt: HostRuntime) -> ExitCode {
    let words = match words_given(&rt) {
        Ok(words) => words,
        Err(e) if e.kind() == ErrorKind::OutOfMemory => {
            return ExitCode::from(Ending::NoMemory.code());
        }
        // A word that isn't UTF-8 is none that is taken.
        Err(_) => Vec::new(rt.alloc()),
    };
    ExitCode::from(run(rt, words.as_slice()).code())
}

/// The words after the program's name.
fn words_given(rt: &HostRuntime) -> io::Result<Vec<String>> {
    let mut words = Vec::new(rt.alloc());
    for word in env::args(rt)?.skip(1) {
        words.push(word)?;
    }
    Ok(words)
}

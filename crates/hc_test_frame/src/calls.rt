//! A program of vectors, over the calls that it knows.
use crate::fault::Fault;
use crate::vector::{Vector, read_vector};
use std::alloc::Global;
use std::io;
use std::process::ExitCode;

/// The calls that a program knows. It may keep what earlier lines made.
pub trait Calls {
    /// Writes the value of the call to `value`. `NoSuchCall` where no call has this name and such
    /// arguments.
    fn note(&mut self, vector: &Vector, value: &mut String) -> Result<(), Fault>;
}

/// Writes each line of standard input again, with its value where it is a vector. Empty lines and
/// lines that begin with `#` are written as they are.
///
/// At the first line that is not understood, standard error has its number and why, and the status is
/// 1.
pub fn report_all<R: Input + Print + Eprint + AllocGlobal, C: Calls>(
    rt: &R,
    calls: &mut C,
) -> ExitCode {
    let mut number = 0_u64;
    for line in rt.lines(rt.alloc()) {
        number = number.wrapping_add(1);
        if let Err(fault) = report_line(rt, calls, line) {
            let _ = eprintln!(rt; "line {number}: {fault:?}");
            return ExitCode::FAILURE;
        }
    }
    ExitCode::SUCCESS
}

fn report_line<R: Print + AllocGlobal, C: Calls>(
    rt: &R,
    calls: &mut C,
    line: io::Result<String>,
) -> Result<(), Fault> {
    let line = line?;
    if line.is_empty() || line.starts_with('#') {
        println!(rt; "{line}")?;
        return Ok(());
    }
    let value = value_of(rt.alloc(), calls, line.as_str())?;
    println!(rt; "{line} => {value}")?;
    Ok(())
}

/// The value of the call that the line spells.
fn value_of<C: Calls>(alloc: Global, calls: &mut C, line: &str) -> Result<String, Fault> {
    let vector = read_vector(alloc, line)?;
    let mut value = String::new(alloc);
    calls.note(&vector, &mut value)?;
    Ok(value)
}

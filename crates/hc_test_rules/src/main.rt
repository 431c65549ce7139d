//! Vectors of events, decisions and formats: each line of standard input names a call of the libraries
//! and its arguments, and is written again with the value that the call gives.
#![tactic(auto)]

mod acts;
mod answers;
mod drawing;
mod echo;
mod freshness;
mod given;
mod heads;
mod messages;
mod plans;
mod reported;
mod requests;
mod schedules;
mod validation;
mod words;

use acts::Report;
use hc_test_frame::{Calls, Fault, Vector, report_all};
use std::process::ExitCode;

/// The calls of the libraries.
#[derive(Drop)]
struct Libraries {
    /// The acts that were told since the last report.
    report: Report,
}

impl Calls for Libraries {
    fn note(&mut self, vector: &Vector, value: &mut String) -> Result<(), Fault> {
        let reported = call(vector, value);
        if is_of_none(reported) {
            self.report.call(vector, value)
        } else {
            reported
        }
    }
}

/// Writes the value of a call that keeps nothing. `NoSuchCall` where it is none of these.
fn call(vector: &Vector, value: &mut String) -> Result<(), Fault> {
    let mut reported = freshness::call(vector, value);
    if is_of_none(reported) {
        reported = validation::call(vector, value);
    }
    if is_of_none(reported) {
        reported = requests::call(vector, value);
    }
    if is_of_none(reported) {
        reported = plans::call(vector, value);
    }
    if is_of_none(reported) {
        reported = schedules::call(vector, value);
    }
    if is_of_none(reported) {
        reported = heads::call(vector, value);
    }
    if is_of_none(reported) {
        reported = messages::call(vector, value);
    }
    if is_of_none(reported) {
        reported = drawing::call(vector, value);
    }
    reported
}

/// Whether those that were asked so far have no such call.
fn is_of_none(reported: Result<(), Fault>) -> bool {
    reported == Err(Fault::NoSuchCall)
}

fn main(rt: HostRuntime) -> ExitCode {
    let report = Report::new(rt.alloc());
    report_all(&rt, &mut Libraries { report })
}

//! Vectors of the proxy: lines of standard input make a script of a wire, and the serving loop is run on
//! it. Each line is written again with its value: the record of a run, or what a connection was sent.
#![tactic(auto)]

mod runs;
mod trial;

use hc_test_frame::report_all;
use std::process::ExitCode;
use trial::Trial;

fn main(rt: HostRuntime) -> ExitCode {
    report_all(&rt, &mut Trial::new(rt.alloc()))
}

//! Vectors of images: what is read of a text, and what is written of it again.
#![tactic(auto)]

mod image;

use hc_test_frame::{Calls, Fault, Vector, report_all};
use std::process::ExitCode;

/// The calls of the library.
#[derive(Drop)]
struct Images {}

impl Calls for Images {
    fn note(&mut self, vector: &Vector, to: &mut String) -> Result<(), Fault> {
        if image::call(vector, to)? {
            Ok(())
        } else {
            Err(Fault::NoSuchCall)
        }
    }
}

fn main(rt: HostRuntime) -> ExitCode {
    report_all(&rt, &mut Images {})
}

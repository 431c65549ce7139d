//! Bytes as a text of a vector.
use hc_test_frame::{Fault, quote};
use std::alloc::Global;

/// So often a byte stands in a row where it is written once, with their number.
const LONG_RUN: usize = 16;

/// Writes the bytes as they stand in a vector, long runs of a byte by their number.
pub(crate) fn quote_runs(alloc: Global, bytes: &[u8], to: &mut String) -> Result<(), Fault> {
    let mut plain = Vec::new(alloc);
    for run in bytes.chunk_by(|a, b| a == b) {
        if run.len() < LONG_RUN {
            plain.extend_from_slice(run)?;
        } else {
            plain.extend_from_slice(&run[..1])?;
            quote(&plain, to)?;
            write!(to, "*{}", run.len())?;
            plain.clear();
        }
    }
    if !plain.is_empty() || bytes.is_empty() {
        quote(&plain, to)?;
    }
    Ok(())
}

//! How values are written.
use hc_sparse::Run;
use hc_store::StoreError;
use hc_test_frame::{Fault, note, quote};
use hc_text::NoMemory;
use std::fmt::Debug;

/// Up to so many bytes stand in quotes as they are.
const FEW: usize = 16;

/// Writes bytes: few in quotes, and of many each with how often it stands in a row.
fn report_bytes(bytes: &[u8], to: &mut String) -> Result<(), Fault> {
    if bytes.len() <= FEW {
        return Ok(quote(bytes, to)?);
    }
    for row in bytes.chunk_by(|a, b| a == b) {
        report_row(row, to)?;
    }
    Ok(())
}

/// Writes a byte that stands in a row.
fn report_row(row: &[u8], to: &mut String) -> Result<(), NoMemory> {
    quote(row.get(..1).unwrap_or(row), to)?;
    write!(to, "*{}", row.len())?;
    Ok(())
}

/// Writes a stretch: of which exchange, from where on, and its bytes.
pub(crate) fn report_run(run: &Option<Run>, to: &mut String) -> Result<(), Fault> {
    match run {
        Some(run) => report_stretch(run, to),
        None => Ok(to.push_str("None")?),
    }
}

fn report_stretch(run: &Run, to: &mut String) -> Result<(), Fault> {
    write!(to, "of {} at {} ", run.x, run.at)?;
    report_bytes(run.bytes.as_slice(), to)
}

/// Writes the stretch that a store read, or why it read none.
pub(crate) fn report_read(
    read: &Result<Option<Run>, StoreError>,
    to: &mut String,
) -> Result<(), Fault> {
    match read {
        Ok(run) => report_run(run, to),
        Err(error) => {
            write!(to, "Err({error:?})")?;
            Ok(())
        }
    }
}

/// Writes what the call answered, where it could be made.
pub(crate) fn report_some<T: Debug>(value: &Option<T>, to: &mut String) -> Result<(), Fault> {
    match value {
        Some(value) => note(value, to),
        None => Err(Fault::NoSuchCall),
    }
}

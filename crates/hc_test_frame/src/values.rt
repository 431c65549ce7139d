//! How values are written.
use crate::fault::Fault;
use hc_text::NoMemory;
use std::fmt::Debug;

/// Writes the value as Rust writes it.
pub fn show<T: Debug>(value: &T, to: &mut String) -> Result<(), NoMemory> {
    write!(to, "{value:?}")?;
    Ok(())
}

/// Writes the value in the same way, where that is all that a call does.
pub fn note<T: Debug>(value: &T, to: &mut String) -> Result<(), Fault> {
    Ok(show(value, to)?)
}

/// Writes the bytes as they stand in quotes in a vector.
pub fn quote(bytes: &[u8], to: &mut String) -> Result<(), NoMemory> {
    to.push('\'')?;
    for byte in bytes {
        if is_plain(*byte) {
            to.push(char::from(*byte))?;
        } else {
            to.push('%')?;
            to.push(digit(*byte / 16))?;
            to.push(digit(*byte % 16))?;
        }
    }
    to.push('\'')?;
    Ok(())
}

/// Whether the byte stands for itself in quotes.
fn is_plain(byte: u8) -> bool {
    byte >= b' ' && byte <= b'~' && byte != b'\'' && byte != b'%'
}

/// The digit of a number below 16.
fn digit(n: u8) -> char {
    if n < 10 {
        char::from(b'0'.wrapping_add(n))
    } else {
        char::from(b'W'.wrapping_add(n))
    }
}

//! Lists of fields as arguments.
use hc_fields::{FieldError, Fields};
use std::alloc::Global;

/// The fields that a text lists, a line `name: value` each.
pub fn fields_of(alloc: Global, text: &[u8]) -> Result<Fields, FieldError> {
    let mut fields = Fields::new(alloc)?;
    for line in text.split(|b| *b == b'\n') {
        if !line.is_empty() {
            append_line(&mut fields, line)?;
        }
    }
    Ok(fields)
}

fn append_line(fields: &mut Fields, line: &[u8]) -> Result<(), FieldError> {
    let Some(at) = line.iter().position(|b| *b == b':') else {
        return Err(FieldError::BadName);
    };
    let value = &line[at + 1..];
    fields.append(&line[..at], value.strip_prefix(b" ").unwrap_or(value))
}

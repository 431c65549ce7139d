//! What is told of lists of fields.
use hc_fields::Fields;
use hc_test_frame::{Vector, quote};
use hc_text::NoMemory;

/// The lines of the list, by `at`. Where the list as plain data, what it writes or its copy tell others,
/// these follow.
pub(crate) fn report_list(fields: &Fields, to: &mut String) -> Result<(), NoMemory> {
    let lines = lines_by_place(fields)?;
    report_lines(fields, &lines, to)
}

fn report_lines(fields: &Fields, lines: &[u8], to: &mut String) -> Result<(), NoMemory> {
    quote(lines, to)?;
    report_other(" listed ", lines_listed(fields)?, lines, to)?;
    report_other(" copied ", lines_copied(fields)?, lines, to)?;
    report_other(" written ", lines_of(fields)?, lines, to)
}

/// The lines that the list writes.
pub(crate) fn lines_of(fields: &Fields) -> Result<Vec<u8>, NoMemory> {
    let mut lines = Vec::new(fields.allocator());
    fields.write_lines(&mut lines)?;
    Ok(lines)
}

/// Writes what was found, where that isn't these lines.
fn report_other(name: &str, found: Vec<u8>, lines: &[u8], to: &mut String) -> Result<(), NoMemory> {
    if found.as_slice() == lines {
        return Ok(());
    }
    to.push_str(name)?;
    quote(&found, to)
}

fn lines_by_place(fields: &Fields) -> Result<Vec<u8>, NoMemory> {
    let mut lines = Vec::new(fields.allocator());
    for i in 0..fields.len() {
        let (name, value) = fields.at(i);
        push_line(name, value, &mut lines)?;
    }
    Ok(lines)
}

fn lines_copied(fields: &Fields) -> Result<Vec<u8>, NoMemory> {
    lines_by_place(&fields.copy()?)
}

fn lines_listed(fields: &Fields) -> Result<Vec<u8>, NoMemory> {
    let list = fields.listed()?.copy()?;
    let mut lines = Vec::new(fields.allocator());
    for (name, value) in list.items.as_slice() {
        push_line(&name.bytes, &value.bytes, &mut lines)?;
    }
    Ok(lines)
}

fn push_line(name: &[u8], value: &[u8], to: &mut Vec<u8>) -> Result<(), NoMemory> {
    to.extend_from_slice(name)?;
    to.extend_from_slice(b": ")?;
    to.extend_from_slice(value)?;
    to.push(b'\n')?;
    Ok(())
}

/// What is read of the field lines that a text begins with: how many fields, of how many bytes, and
/// whether just these bytes are written of them again.
pub(crate) fn report_read(
    v: &Vector,
    text: &[u8],
    count: u64,
    to: &mut String,
) -> Result<(), NoMemory> {
    let read = Fields::read_lines(v.alloc(), text, count)?;
    match &read {
        Some((fields, len)) => report_fields(fields, *len, text, to),
        None => Ok(to.push_str("None")?),
    }
}

fn report_fields(
    fields: &Fields,
    len: usize,
    text: &[u8],
    to: &mut String,
) -> Result<(), NoMemory> {
    let lines = lines_of(fields)?;
    let how = if text.get(..len) == Some(lines.as_slice()) {
        "written again"
    } else {
        "written otherwise"
    };
    write!(to, "{} fields, {len} bytes, {how}", fields.len())?;
    Ok(())
}

/// The same of a text that stands so many times.
pub(crate) fn report_read_of_many(v: &Vector, to: &mut String) -> Result<(), NoMemory> {
    let mut text = Vec::new(v.alloc());
    for _ in 0..v.number(1) {
        text.extend_from_slice(v.text(0))?;
    }
    report_read(v, &text, v.number(2), to)
}

/// Appends a field so often: how often it was done, and before how many of these times, and up to which of
/// them, the list was within limits.
pub(crate) fn append_often(
    fields: &mut Fields,
    v: &Vector,
    to: &mut String,
) -> Result<(), NoMemory> {
    let (mut done, mut within_limits, mut last) = (0_u64, 0_u64, 0_u64);
    for i in 0..v.number(2) {
        if fields.within_limits() {
            within_limits = within_limits.wrapping_add(1);
            last = i;
        }
        if fields.append(v.text(0), v.text(1)).is_ok() {
            done = done.wrapping_add(1);
        }
    }
    write!(
        to,
        "{done} done, within limits before {within_limits}, up to {last}"
    )?;
    Ok(())
}

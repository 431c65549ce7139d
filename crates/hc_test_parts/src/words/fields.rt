//! Calls of `hc_fields`, on the list that the lines before left.
use crate::words::lists::{append_often, report_list, report_read, report_read_of_many};
use hc_fields::{Fields, agree_on, has_field, only_value};
use hc_test_frame::{Fault, Vector, fields_of, quote, show};
use hc_text::NoMemory;

/// Writes the value of the call, if it is one that changes nothing.
pub(crate) fn ask(fields: &Fields, v: &Vector, to: &mut String) -> Result<bool, Fault> {
    let name = v.text(0);
    match v.call() {
        "list" => report_list(fields, to),
        "lines t" => report_lines(fields, name, to),
        "len" => show(&fields.len(), to),
        "size" => show(&fields.size(), to),
        "within_limits" => show(&fields.within_limits(), to),
        "count t" => show(&fields.count(name), to),
        "get t" => report_value(fields.get(name), to),
        "value tn" => report_value(fields.value(name, v.number(1) as usize), to),
        "joined t" => report_joined(fields, name, to),
        "has_field t" => show(&has_field(fields, name), to),
        "only_value t" => report_value(only_value(fields, name), to),
        "agree_on ttt" => return report_agreement(v, to),
        "read_lines tn" => report_read(v, name, v.number(1), to),
        "read_lines tnn" => report_read_of_many(v, to),
        _ => return Ok(false),
    }?;
    Ok(true)
}

/// Writes the value of the call, if it is one that changes the list.
pub(crate) fn change(fields: &mut Fields, v: &Vector, to: &mut String) -> Result<bool, Fault> {
    let (name, value) = (v.text(0), v.text(1));
    match v.call() {
        "append tt" => show(&fields.append(name, value), to),
        "append ttn" => append_often(fields, v, to),
        "set tt" => show(&fields.set(name, value), to),
        "remove t" => {
            fields.remove(name);
            show(&fields.len(), to)
        }
        _ => return begin(fields, v, to),
    }?;
    Ok(true)
}

/// Writes how many fields there are, if the call is one that begins another list.
fn begin(fields: &mut Fields, v: &Vector, to: &mut String) -> Result<bool, Fault> {
    let (count, bytes) = (v.number(0) as usize, v.number(1) as usize);
    *fields = match v.call() {
        "new" => Fields::new(v.alloc())?,
        "with_room nn" => Fields::with_room(v.alloc(), count, bytes)?,
        "fields t" => fields_of(v.alloc(), v.text(0))?,
        "copy" => fields.copy()?,
        _ => return Ok(false),
    };
    show(&fields.len(), to)?;
    Ok(true)
}

/// The lines of the list behind a text.
fn report_lines(fields: &Fields, text: &[u8], to: &mut String) -> Result<(), NoMemory> {
    let mut lines = text.to_vec(fields.allocator())?;
    fields.write_lines(&mut lines)?;
    quote(&lines, to)
}

fn report_joined(fields: &Fields, name: &[u8], to: &mut String) -> Result<(), NoMemory> {
    match fields.joined(name)? {
        Some(joined) => quote(joined.as_slice(), to),
        None => Ok(to.push_str("None")?),
    }
}

/// Whether the lists that two texts tell say the same under a name.
fn report_agreement(v: &Vector, to: &mut String) -> Result<bool, Fault> {
    let a = fields_of(v.alloc(), v.text(1))?;
    let b = fields_of(v.alloc(), v.text(2))?;
    show(&agree_on(&a, &b, v.text(0)), to)?;
    Ok(true)
}

/// The value in quotes, or that there is none.
fn report_value(value: Option<&[u8]>, to: &mut String) -> Result<(), NoMemory> {
    match value {
        Some(value) => quote(value, to),
        None => Ok(to.push_str("None")?),
    }
}

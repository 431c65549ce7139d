//! Calls of `hc_record`.
use crate::words::heads::{head_of, kind_of, record_of, report_head};
use crate::words::tally::report_changes;
use hc_etag::Tag;
use hc_fields::Fields;
use hc_record::{StoredHead, joining_tag, read_record, seal_record};
use hc_test_frame::{Fault, Vector, fields_of, quote};
use hc_text::NoMemory;

/// Writes the value of the call, if it is one of these.
pub(crate) fn call(v: &Vector, to: &mut String) -> Result<bool, Fault> {
    match v.call() {
        "read_record t" => report_read(v, to),
        "rewrite_record t" => report_rewritten(v, to),
        "write_record wnnnntt" => return report_written(v, to),
        "joining_tag t" => return report_joining(v, to),
        "seal_record twn" => return report_sealed(v, to),
        "changes_of_record t" => report_changes(v.alloc(), v.text(0), to),
        _ => return Ok(false),
    }?;
    Ok(true)
}

fn report_read(v: &Vector, to: &mut String) -> Result<(), NoMemory> {
    let head = read_record(v.alloc(), v.text(0))?;
    match &head {
        Some(head) => report_head(head, to),
        None => Ok(to.push_str("None")?),
    }
}

/// The record of the head that is read.
fn report_rewritten(v: &Vector, to: &mut String) -> Result<(), NoMemory> {
    let head = read_record(v.alloc(), v.text(0))?;
    match &head {
        Some(head) => report_record_of(head, to),
        None => Ok(to.push_str("None")?),
    }
}

fn report_record_of(head: &StoredHead, to: &mut String) -> Result<(), NoMemory> {
    let record = record_of(head)?;
    report_record(&record, to)
}

/// The record of a copy of the head that the arguments tell.
fn report_written(v: &Vector, to: &mut String) -> Result<bool, Fault> {
    let head = head_of(v)?;
    match &head {
        Some(head) => report_record_of_copy(head, to),
        None => Ok(false),
    }
}

fn report_record_of_copy(head: &StoredHead, to: &mut String) -> Result<bool, Fault> {
    let copy = head.copy()?;
    report_record_of(&copy, to)?;
    Ok(true)
}

/// How many bytes a record has, and these.
fn report_record(record: &[u8], to: &mut String) -> Result<(), NoMemory> {
    write!(to, "{} bytes ", record.len())?;
    quote(record, to)
}

/// What stands between the quotes of the tag, which isn't weak.
fn report_joining(v: &Vector, to: &mut String) -> Result<bool, Fault> {
    let fields = fields_of(v.alloc(), v.text(0))?;
    report_joining_in(&fields, to)
}

fn report_joining_in(fields: &Fields, to: &mut String) -> Result<bool, Fault> {
    let tag = joining_tag(fields.allocator(), fields)?;
    report_opaque(&tag, to)?;
    Ok(is_strong(&tag))
}

fn report_opaque(tag: &Option<Tag>, to: &mut String) -> Result<(), NoMemory> {
    match tag {
        Some(tag) => quote(tag.opaque.as_slice(), to),
        None => Ok(to.push_str("None")?),
    }
}

/// Whether it isn't weak, if there is one.
fn is_strong(tag: &Option<Tag>) -> bool {
    match tag {
        Some(tag) => !tag.weak,
        None => true,
    }
}

/// The text with this kind and this total.
fn report_sealed(v: &Vector, to: &mut String) -> Result<bool, Fault> {
    let mut record = v.text(0).to_vec(v.alloc())?;
    let (Some(kind), total) = (kind_of(v.word(1)), v.option(2)) else {
        return Ok(false);
    };
    if record.len() < 31 || total.is_some_and(|n| n >= 1 << 62) {
        return Ok(false);
    }
    seal_record(&mut record, kind, total);
    quote(&record, to)?;
    Ok(true)
}

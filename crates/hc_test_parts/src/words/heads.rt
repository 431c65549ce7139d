//! Stored heads as arguments and as values.
use crate::words::lists::lines_of;
use hc_fields::Fields;
use hc_record::{Kind, StoredHead, joining_tag, write_record};
use hc_rules::{brings_part, brings_whole};
use hc_test_frame::{Fault, Vector, fields_of, quote};
use hc_text::NoMemory;

/// Moments and totals are below this.
const LIMIT: u64 = 1 << 62;

/// The kind of this name.
pub(crate) fn kind_of(name: &str) -> Option<Kind> {
    match name {
        "Growing" => Some(Kind::Growing),
        "Whole" => Some(Kind::Whole),
        "Truncated" => Some(Kind::Truncated),
        "Ranges" => Some(Kind::Ranges),
        _ => None,
    }
}

/// The head that the arguments tell: kind, total, status, both moments, the fields of the request and those
/// of the head. None where no head may be so.
pub(crate) fn head_of(v: &Vector) -> Result<Option<StoredHead>, Fault> {
    let Some(kind) = kind_of(v.word(0)) else {
        return Ok(None);
    };
    let Ok(status) = u16::try_from(v.number(2)) else {
        return Ok(None);
    };
    if !brings_whole(status) && !brings_part(status) {
        return Ok(None);
    }
    let (total, requested, answered) = (v.option(1), v.number(3), v.number(4));
    if total.is_some_and(|n| n >= LIMIT) || requested >= LIMIT || answered >= LIMIT {
        return Ok(None);
    }
    let vary_fields = fields_of(v.alloc(), v.text(5))?;
    let fields = fields_of(v.alloc(), v.text(6))?;
    let joining = joining_tag(v.alloc(), &fields)?;
    if vary_fields.len() > 80 || !fields.within_limits() {
        return Ok(None);
    }
    Ok(Some(StoredHead {
        kind,
        total,
        status,
        requested,
        answered,
        joining,
        vary_fields,
        fields,
    }))
}

/// The record of the head.
pub(crate) fn record_of(head: &StoredHead) -> Result<Vec<u8>, NoMemory> {
    let mut record = Vec::new(head.fields.allocator());
    write_record(head, &mut record)?;
    Ok(record)
}

/// The head: kind, total, status, both moments, the joining tag, the fields of the request and its own.
pub(crate) fn report_head(head: &StoredHead, to: &mut String) -> Result<(), NoMemory> {
    write!(to, "{:?} {:?} {}", head.kind, head.total, head.status)?;
    write!(to, " {} {} ", head.requested, head.answered)?;
    match &head.joining {
        Some(tag) => quote(tag.opaque.as_slice(), to)?,
        None => to.push_str("None")?,
    }
    report_lines(&head.vary_fields, to)?;
    report_lines(&head.fields, to)
}

fn report_lines(fields: &Fields, to: &mut String) -> Result<(), NoMemory> {
    to.push(' ')?;
    let lines = lines_of(fields)?;
    quote(&lines, to)
}

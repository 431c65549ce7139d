//! Calls of `hc_validate`.
use crate::given::{fields_at, head_at, is_yes, request_at, response_at};
use crate::reported::{report_fields, report_response};
use crate::words::{span_at, why_at};
use hc_event::Request;
use hc_fields::Fields;
use hc_record::StoredHead;
use hc_test_frame::{Fault, Vector, note};
use hc_validate::{Answer, conditional, origin_answer, origin_byte, selects, shown, update};

/// Writes the value of the call. `NoSuchCall` where it is none of these.
pub(crate) fn call(v: &Vector, to: &mut String) -> Result<(), Fault> {
    match v.call() {
        "conditional tt" => report_conditional(v, to),
        "selects tt" => report_selects(v, to),
        "update tt" => report_update(v, to),
        "update_by_many tn" => report_update_by_many(v, to),
        "shown twnw" | "shown twww" => report_shown(v, to),
        "origin_answer t" => report_origin(v, to),
        "origin_byte n" => note(&char::from(origin_byte(v.number(0))), to),
        _ => Err(Fault::NoSuchCall),
    }
}

/// Writes the fields of the conditional request.
fn report_conditional(v: &Vector, to: &mut String) -> Result<(), Fault> {
    let head = head_at(v, 0)?;
    let request = request_at(v, 1)?;
    report_conditional_for(&head, &request, to)
}

fn report_conditional_for(
    head: &StoredHead,
    request: &Request,
    to: &mut String,
) -> Result<(), Fault> {
    if !request.fields.within_limits() {
        return Err(Fault::NoSuchCall);
    }
    let asked = conditional(head, request)?;
    report_fields(&asked.fields, to)
}

fn report_selects(v: &Vector, to: &mut String) -> Result<(), Fault> {
    let head = head_at(v, 0)?;
    let answer = response_at(v, 1)?;
    note(&selects(&head, &answer), to)
}

fn report_update(v: &Vector, to: &mut String) -> Result<(), Fault> {
    let from = fields_at(v, 1)?;
    let updated = updated_by(&from, v)?;
    report_fields(&updated, to)
}

/// Writes how many fields come of an update by so many.
fn report_update_by_many(v: &Vector, to: &mut String) -> Result<(), Fault> {
    let mut from = Fields::new(v.alloc())?;
    add_many(v.number(1), &mut from)?;
    let updated = updated_by(&from, v)?;
    note(&updated.len(), to)
}

fn add_many(count: u64, to: &mut Fields) -> Result<(), Fault> {
    for _ in 0..count {
        to.append(b"x-n", b"1")?;
    }
    Ok(())
}

/// What an update by these fields makes of those that the first argument lists.
fn updated_by(from: &Fields, v: &Vector) -> Result<Fields, Fault> {
    let stored = fields_at(v, 0)?;
    Ok(update(&stored, from)?)
}

/// Writes what is shown of a head: why, which span of it, and whether to a consumer with a range.
fn report_shown(v: &Vector, to: &mut String) -> Result<(), Fault> {
    let why = why_at(v, 1)?;
    let span = span_at(v, 2)?;
    let ranged = is_yes(v, 3)?;
    let is_within = span.is_some_and(|span| span.lo < span.hi && span.hi <= 6);
    if ranged && !is_within {
        return Err(Fault::NoSuchCall);
    }
    let response = shown(head_at(v, 0)?, why, span, ranged)?;
    report_response(&response, to)
}

/// Writes the bytes and the head of the answer.
fn report_origin(v: &Vector, to: &mut String) -> Result<(), Fault> {
    let answer = origin_answer(&request_at(v, 0)?)?;
    report_answer(&answer, to)
}

fn report_answer(answer: &Answer, to: &mut String) -> Result<(), Fault> {
    write!(to, "{} to {}, ", answer.lo, answer.hi)?;
    report_response(&answer.response, to)
}

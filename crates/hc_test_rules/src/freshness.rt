//! Calls of `hc_event` on methods, and of `hc_fresh`.
ghost use Rattle.std.specs.Prelude.{◌≤◌};

use crate::given::{CAME, fields_at, head_at, head_of, request_at};
use hc_event::{Request, is_safe};
use hc_fresh::{HeadFacts, RequestFacts, allowed_to, date_in, vary_matches};
use hc_record::StoredHead;
use hc_test_frame::{Fault, Vector, note};
use hc_text::MethodName;

/// Writes the value of the call. `NoSuchCall` where it is none of these.
pub(crate) fn call(v: &Vector, to: &mut String) -> Result<(), Fault> {
    match v.call() {
        "is_safe t" => report_safe(v, to),
        "date_in t" => report_date(v, to),
        "lifetime t" => report_lifetime(v, to),
        "age nnnt" => report_age(v, to),
        "allowed ntt" => report_allowed(v, to),
        "vary_matches ttt" => report_matches(v, to),
        _ => Err(Fault::NoSuchCall),
    }
}

fn report_safe(v: &Vector, to: &mut String) -> Result<(), Fault> {
    let bytes = v.text(0).to_vec(v.alloc())?;
    note(&is_safe(&MethodName { bytes }), to)
}

/// Writes the second that the field `date` shows.
fn report_date(v: &Vector, to: &mut String) -> Result<(), Fault> {
    note(&date_in(&fields_at(v, 0)?, b"date"), to)
}

fn report_lifetime(v: &Vector, to: &mut String) -> Result<(), Fault> {
    let head = head_at(v, 0)?;
    note(&HeadFacts::of(&head).lifetime, to)
}

/// Writes how old a head is that was asked for and came at the first two moments, at the third.
fn report_age(v: &Vector, to: &mut String) -> Result<(), Fault> {
    let head = head_of(v, v.number(0), v.number(1), 3, None)?;
    report_age_at(&head, v.number(2), to)
}

fn report_age_at(head: &StoredHead, now: u64, to: &mut String) -> Result<(), Fault>
    requires { head.now.requested ≤ head.now.answered }
{
    if head.answered > now || now >= 1 << 62 {
        return Err(Fault::NoSuchCall);
    }
    let facts = HeadFacts::of(head);
    note(&(facts.initial_age + (now - head.answered)), to)
}

fn report_allowed(v: &Vector, to: &mut String) -> Result<(), Fault> {
    let head = head_at(v, 1)?;
    let request = request_at(v, 2)?;
    report_allowed_to(&head, &request, v.number(0), to)
}

/// Writes why the head may be used.
fn report_allowed_to(
    head: &StoredHead,
    request: &Request,
    now: u64,
    to: &mut String,
) -> Result<(), Fault>
    requires { head.now.requested ≤ head.now.answered }
{
    if head.answered > now || now >= 1 << 62 {
        return Err(Fault::NoSuchCall);
    }
    let facts = HeadFacts::of(head);
    note(&allowed_to(&facts, &RequestFacts::of(request), now), to)
}

/// Writes whether the head with the first fields, for a request with the second, answers the request too.
fn report_matches(v: &Vector, to: &mut String) -> Result<(), Fault> {
    let head = head_of(v, CAME, CAME, 0, Some(1))?;
    let request = request_at(v, 2)?;
    note(&vary_matches(&head, &request), to)
}

//! What the front hands on, and what it tells.
ghost use Rattle.std.specs.Prelude.{◌≡◌, ◌++◌, ◌||◌, length, map, take, IfOk, OnOk, OnErr, bytes_eq};
ghost use Rattle.std.specs.List.{list_any};
ghost use Rattle.hc_event.specs.Acts.{act_list};
ghost use Rattle.hc_event.specs.Filters.{is_denied};
ghost use Rattle.hc_condition.specs.NotModified.{fields_of_304, names_of_304, unconditioned};
ghost use Rattle.hc_condition.specs.ShownActs.{act_shown, is_leaving, is_satisfying};

use crate::not_modified::is_not_modified;
use hc_event::{Act, Acts, Request};
use hc_fields::Fields;
use hc_text::NoMemory;
use std::alloc::Global;

/// The request without the condition of the copy.
pub fn unconditioned(request: &Request) -> Result<Request, NoMemory>
    ensures { IfOk result (λ other. other ≡ unconditioned request.now) }
{
    let mut other = request.copy()?;
    other.fields.remove(b"if-none-match");
    other.fields.remove(b"if-modified-since");
    Ok(other)
}

/// Whether these acts say that the event is denied.
pub fn is_denied(acts: &[Act]) -> bool
    ensures { result ≡ is_denied acts.now }
{
    match acts {
        [Act::Denied { .. }] => true,
        _ => false,
    }
}

/// Whether the consumer ends or fails by one of these acts.
pub fn leaves_in(c: u64, acts: &[Act]) -> bool
    ensures { result ≡ list_any (is_leaving c) acts.now }
{
    acts.iter().any(|act| is_leaving(c, act))
}

/// Whether the consumer ends or fails by the act.
fn is_leaving(c: u64, act: &Act) -> bool
    ensures { result ≡ is_leaving c act.now }
{
    match act {
        Act::Ended { c: d } | Act::Failed { c: d, .. } => *d == c,
        _ => false,
    }
}

/// Tells acts as the front does to who made the request: they are appended. Whether a head is among
/// them that would be that of the copy. Where memory is refused the acts are as before.
pub fn report_all(
    alloc: Global,
    request: &Request,
    heard: &mut Acts,
    out: &mut Acts,
) -> Result<bool, NoMemory>
    ensures reported { OnOk result (act_list out.new
        ≡ act_list out.old ++ map (act_shown request.now) (act_list heard.old)) }
    ensures satisfied { IfOk result
        (λ found. found ≡ list_any (is_satisfying request.now) (act_list heard.old)) }
    ensures kept { OnErr result (act_list out.new ≡ act_list out.old) }
{
    let start = out.list().len();
    let reported = report_each(alloc, request, heard, out);
    if reported.is_err() {
        out.truncate(start);
    }
    reported
}

/// The same. Where memory is refused the acts begin as before.
fn report_each(
    alloc: Global,
    request: &Request,
    heard: &mut Acts,
    out: &mut Acts,
) -> Result<bool, NoMemory>
    ensures reported { OnOk result (act_list out.new
        ≡ act_list out.old ++ map (act_shown request.now) (act_list heard.old)) }
    ensures satisfied { IfOk result
        (λ found. found ≡ list_any (is_satisfying request.now) (act_list heard.old)) }
    ensures front { take (length (act_list out.old)) (act_list out.new) ≡ act_list out.old }
{
    let mut satisfied = false;
    for act in heard.drain() {
        let (act, is_satisfying) = reported(alloc, request, act)?;
        satisfied = satisfied || is_satisfying;
        out.push(act)?;
    }
    Ok(satisfied)
}

/// The act as the front tells it to who made the request, and whether a head is shown that would be
/// that of the copy.
fn reported(alloc: Global, request: &Request, act: Act) -> Result<(Act, bool), NoMemory>
    ensures act { IfOk result (λ reported. reported.0 ≡ act_shown request.now act) }
    ensures satisfied { IfOk result (λ reported. reported.1 ≡ is_satisfying request.now act) }
{
    match act {
        Act::Shown {
            c,
            r,
            why,
            status,
            fields,
            lo,
            hi,
        } => {
            if is_not_modified(alloc, request, status, &fields)? {
                let reported = Act::Shown {
                    c,
                    r,
                    why,
                    status: 304,
                    fields: fields_of_304(&fields)?,
                    lo: 0,
                    hi: Some(0),
                };
                return Ok((reported, true));
            }
            let reported = Act::Shown {
                c,
                r,
                why,
                status,
                fields,
                lo,
                hi,
            };
            Ok((reported, false))
        }
        other => Ok((other, false)),
    }
}

/// The fields of a head that a 304 tells (RFC 9110 section 15.4.5).
pub fn fields_of_304(fields: &Fields) -> Result<Fields, NoMemory>
    ensures { IfOk result (λ reported. reported ≡ fields_of_304 fields.now) }
{
    let mut reported = fields.copy()?;
    for i in 0..fields.len() {
        let (name, _) = fields.at(i);
        if is_reported(name) {
            continue;
        }
        reported.remove(name);
    }
    Ok(reported)
}

/// Whether a 304 tells the fields of this name.
fn is_reported(name: &[u8]) -> bool
    ensures { result ≡ list_any (bytes_eq name.now) names_of_304 }
{
    name == b"age".as_slice()
        || name == b"cache-control".as_slice()
        || name == b"content-location".as_slice()
        || name == b"date".as_slice()
        || name == b"etag".as_slice()
        || name == b"expires".as_slice()
        || name == b"vary".as_slice()
}

//! The test origin: representations of known bytes.
ghost use Rattle.std.specs.Prelude.{◌≡◌, ◌≤◌, IfOk};
ghost use Rattle.hc_range.specs.Spans.{IsInOrder, IsWithin, resolved_span};
ghost use Rattle.hc_validate.specs.Origin.{IsOriginAnswer, common, cut_by, missing, origin_byte, part, not_modified_answer, unsatisfied_answer, whole};

use crate::asking::{asked_in, is_listed, may_cut, size_asked};
use crate::setting::set_field;
use crate::showing::{add_range, set_number};
use hc_event::{Request, Response};
use hc_fields::Fields;
use hc_range::{RangeSpec, Span, resolve};
use hc_text::{NoMemory, write_number};
use std::alloc::Global;

/// What the test origin answers.
#[derive(Drop)]
pub struct Answer {
    pub response: Response,
    /// The position of the first byte that follows the head.
    pub lo: u64,
    /// Where these bytes end, exclusive.
    pub hi: u64,
}

/// The answer of the test origin. At the path `/d/N`, N plain and at most 1,048,576, it has a
/// representation of N bytes (`origin_byte`) whose ETag is N in quotes.
///
/// It is 404 at another path and to another method than GET; 304 where If-None-Match is the asterisk or
/// lists the tag (RFC 9110 section 13.1.2); and where Range stands once and can be read, and no If-Range or
/// one strongly equal, 206 with the bytes that are asked for, or 416 where there are none; else 200.
pub fn origin_answer(request: &Request) -> Result<Answer, NoMemory>
    ensures { IfOk result (λ answer. IsOriginAnswer request.now answer) }
{
    let alloc = request.fields.allocator();
    let Some(size) = size_asked(request) else {
        return missing(alloc);
    };
    let mut opaque = Vec::new(alloc);
    write_number(size, &mut opaque)?;
    let listed = is_listed(&request.fields, opaque.as_slice())?;
    let may_cut = may_cut(&request.fields, opaque.as_slice());
    let asked = asked_in(&request.fields);
    let fields = common(alloc, size)?;
    if listed {
        return Ok(unchanged(size, fields));
    }
    match asked {
        Some(asked) if may_cut => cut(size, fields, asked),
        _ => whole(size, fields),
    }
}

/// The byte at this position of each representation.
pub fn origin_byte(at: u64) -> u8
    ensures { result ≡ origin_byte at }
{
    b'a' + (at % 26) as u8
}

/// The answer where there is nothing.
fn missing(alloc: Global) -> Result<Answer, NoMemory>
    ensures { IfOk result (λ answer. answer ≡ missing) }
{
    let mut fields = Fields::new(alloc)?;
    set_number(&mut fields, b"content-length", 0)?;
    Ok(Answer {
        response: Response {
            status: 404,
            fields,
        },
        lo: 0,
        hi: 0,
    })
}

/// The fields that each answer about a representation has.
fn common(alloc: Global, size: u64) -> Result<Fields, NoMemory>
    ensures { IfOk result (λ fields. fields ≡ common size) }
{
    let mut fields = Fields::new(alloc)?;
    set_field(&mut fields, b"accept-ranges", b"bytes")?;
    set_field(&mut fields, b"cache-control", b"max-age=60")?;
    let mut tag = Vec::new(alloc);
    tag.push(b'"')?;
    write_number(size, &mut tag)?;
    tag.push(b'"')?;
    set_field(&mut fields, b"etag", tag.as_slice())?;
    Ok(fields)
}

/// The answer that what the request has is what there is.
fn unchanged(size: u64, fields: Fields) -> Answer
    requires { fields ≡ common size }
    ensures { result ≡ not_modified_answer size }
{
    Answer {
        response: Response {
            status: 304,
            fields,
        },
        lo: 0,
        hi: 0,
    }
}

/// The answer with all bytes.
fn whole(size: u64, mut fields: Fields) -> Result<Answer, NoMemory>
    requires { fields ≡ common size }
    ensures { IfOk result (λ answer. answer ≡ whole size) }
{
    set_number(&mut fields, b"content-length", size)?;
    Ok(Answer {
        response: Response {
            status: 200,
            fields,
        },
        lo: 0,
        hi: size,
    })
}

/// The answer to a request for a range.
fn cut(size: u64, fields: Fields, asked: RangeSpec) -> Result<Answer, NoMemory>
    requires is { fields ≡ common size }
    requires order { IsInOrder asked }
    requires small { size ≤ 1048576 }
    ensures { IfOk result (λ answer. answer ≡ cut_by size (resolved_span asked size)) }
{
    match resolve(asked, size) {
        Some(span) => part(size, fields, span),
        None => unsatisfied(size, fields),
    }
}

/// The answer with the bytes of a span.
fn part(size: u64, mut fields: Fields, span: Span) -> Result<Answer, NoMemory>
    requires is { fields ≡ common size }
    requires within { IsWithin span size }
    ensures { IfOk result (λ answer. answer ≡ part size span) }
{
    add_range(&mut fields, span, size)?;
    Ok(Answer {
        response: Response {
            status: 206,
            fields,
        },
        lo: span.lo,
        hi: span.hi,
    })
}

/// The answer to a range without bytes.
fn unsatisfied(size: u64, mut fields: Fields) -> Result<Answer, NoMemory>
    requires { fields ≡ common size }
    ensures { IfOk result (λ answer. answer ≡ unsatisfied_answer size) }
{
    set_number(&mut fields, b"content-length", 0)?;
    let mut text = Vec::new(fields.allocator());
    text.extend_from_slice(b"bytes */")?;
    write_number(size, &mut text)?;
    set_field(&mut fields, b"content-range", text.as_slice())?;
    Ok(Answer {
        response: Response {
            status: 416,
            fields,
        },
        lo: 0,
        hi: 0,
    })
}

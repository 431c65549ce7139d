//! Calls of `hc_msg`: what is sent, and requests that come in pieces, however they are cut.
use crate::answers::report_answers;
use crate::given::{fields_at, is_yes, request_at};
use crate::reported::{CUTS, report_request, report_text};
use hc_event::{Request, Response};
use hc_msg::{RequestReader, Taken, WireRequest, write_chunk, write_request, write_response_head};
use hc_target::is_target;
use hc_test_frame::{Fault, Vector, show};
use std::alloc::Global;

/// Writes the value of the call. `NoSuchCall` where it is none of these.
pub(crate) fn call(v: &Vector, to: &mut String) -> Result<(), Fault> {
    match v.call() {
        "read_requests t" => report_requests(v, to),
        "read_answer wt" => report_answers(v, to),
        "write_chunk t" => report_chunk(v, to),
        "write_response_head nwt" => report_sent_head(v, to),
        "write_request t" => report_sent_request(v, to),
        _ => Err(Fault::NoSuchCall),
    }
}

fn report_chunk(v: &Vector, to: &mut String) -> Result<(), Fault> {
    let mut bytes = Vec::new(v.alloc());
    write_chunk(v.text(0), &mut bytes)?;
    report_text(&bytes, to)
}

/// Writes the head of an answer as it is sent: the status, whether the body comes in chunks, and fields.
fn report_sent_head(v: &Vector, to: &mut String) -> Result<(), Fault> {
    let status = v.number(0);
    if status > 599 {
        return Err(Fault::NoSuchCall);
    }
    let chunked = is_yes(v, 1)?;
    let response = Response {
        status: status as u16,
        fields: fields_at(v, 2)?,
    };
    report_head(v.alloc(), &response, chunked, to)
}

fn report_head(
    alloc: Global,
    response: &Response,
    chunked: bool,
    to: &mut String,
) -> Result<(), Fault> {
    let mut bytes = Vec::new(alloc);
    write_response_head(response, chunked, &mut bytes)?;
    report_text(&bytes, to)
}

/// Writes a request as it is sent.
fn report_sent_request(v: &Vector, to: &mut String) -> Result<(), Fault> {
    let request = request_at(v, 0)?;
    report_request_sent(v.alloc(), &request, to)
}

fn report_request_sent(alloc: Global, request: &Request, to: &mut String) -> Result<(), Fault> {
    if !is_target(alloc, &request.key.bytes)? {
        return Err(Fault::NoSuchCall);
    }
    let mut bytes = Vec::new(alloc);
    write_request(request, &mut bytes)?;
    report_text(&bytes, to)
}

/// Writes the requests of the text, and also what pieces of another size tell, where that is another.
fn report_requests(v: &Vector, to: &mut String) -> Result<(), Fault> {
    requests_in(v, 1, to)?;
    let mut other = String::new(v.alloc());
    report_other(v, to, &mut other)
}

/// Writes what pieces of the first of these sizes tell that tells another, in `other`.
fn report_other(v: &Vector, to: &mut String, other: &mut String) -> Result<(), Fault> {
    for size in CUTS {
        other.clear();
        requests_in(v, *size, other)?;
        if other.as_str() != to.as_str() {
            write!(to, " but by {size} {other}")?;
            break;
        }
    }
    Ok(())
}

/// Writes the requests of the text, which comes in pieces of `size` bytes, and its error or `ok`.
fn requests_in(v: &Vector, size: usize, to: &mut String) -> Result<(), Fault> {
    read_requests(&mut RequestReader::new(v.alloc()), v.text(0), size, to)
}

fn read_requests(
    reader: &mut RequestReader,
    text: &[u8],
    size: usize,
    to: &mut String,
) -> Result<(), Fault> {
    let mut rest = text;
    for _ in 0..100_000_u32 {
        let piece = &rest[..size.min(rest.len())];
        let Some(used) = take_request(reader, piece, to)? else {
            break;
        };
        rest = rest.get(used..).unwrap_or(&[]);
    }
    Ok(())
}

/// Writes what the piece completes, and tells how much of it was used. None at the end of the text, and
/// after an error.
fn take_request(
    reader: &mut RequestReader,
    piece: &[u8],
    to: &mut String,
) -> Result<Option<usize>, Fault> {
    match reader.take(piece) {
        Ok(taken) => report_taken(&taken, piece.is_empty(), to),
        Err(e) => {
            show(&e, to)?;
            Ok(None)
        }
    }
}

fn report_taken(
    taken: &Taken<WireRequest>,
    is_over: bool,
    to: &mut String,
) -> Result<Option<usize>, Fault> {
    match &taken.got {
        Some(asked) => {
            report_request(&asked.request, to)?;
            to.push_str(if asked.old { " of HTTP/1.0 | " } else { " | " })?;
        }
        None if is_over => {
            to.push_str("ok")?;
            return Ok(None);
        }
        None => {}
    }
    Ok(Some(taken.used))
}

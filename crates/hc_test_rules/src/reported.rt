//! How events, heads and fields are written as values.
use hc_event::{Event, Request, Response};
use hc_fields::Fields;
use hc_test_frame::{Fault, note, quote, show};

/// Of more bytes only their number and the first three are written.
const MOST_SHOWN: usize = 400;

/// How many bytes the pieces have into which messages are cut.
pub(crate) const CUTS: &[usize] = &[2, 3, 7, 16, 64, 999, 1 << 30];

/// Writes bytes in quotes.
pub(crate) fn report_bytes(bytes: &[u8], to: &mut String) -> Result<(), Fault> {
    if bytes.len() <= MOST_SHOWN {
        return Ok(quote(bytes, to)?);
    }
    show(&bytes.len(), to)?;
    to.push_str(" from ")?;
    Ok(quote(&bytes[..3], to)?)
}

/// Writes all bytes in quotes.
pub(crate) fn report_text(bytes: &[u8], to: &mut String) -> Result<(), Fault> {
    Ok(quote(bytes, to)?)
}

/// Writes the lines of the fields.
pub(crate) fn report_fields(fields: &Fields, to: &mut String) -> Result<(), Fault> {
    let mut lines = Vec::new(fields.allocator());
    fields.write_lines(&mut lines)?;
    report_bytes(&lines, to)
}

/// Writes the method, the load, the key and the fields.
pub(crate) fn report_request(request: &Request, to: &mut String) -> Result<(), Fault> {
    quote(&request.method.bytes, to)?;
    to.push(' ')?;
    show(&request.load, to)?;
    to.push(' ')?;
    report_bytes(&request.key.bytes, to)?;
    to.push(' ')?;
    report_fields(&request.fields, to)
}

/// Writes the status and the fields.
pub(crate) fn report_response(response: &Response, to: &mut String) -> Result<(), Fault> {
    show(&response.status, to)?;
    to.push(' ')?;
    report_fields(&response.fields, to)
}

/// Writes the event, in the words of schedules.
pub(crate) fn report_event(event: &Event, to: &mut String) -> Result<(), Fault> {
    match event {
        Event::Start { c, request } => report_start(*c, request, to),
        Event::Poll { c, want } => report_poll(*c, *want, to),
        Event::Head { x, response } => report_head(*x, response, to),
        Event::Piece { x, bytes } => report_piece(*x, bytes.as_slice(), to),
        Event::End { x } => report_number("end ", *x, to),
        Event::Fault { x } => report_number("fault ", *x, to),
        Event::Cancel { c } => report_number("cancel ", *c, to),
        Event::Doom { key } => report_doom(&key.bytes, to),
    }
}

/// Writes a word and a number.
fn report_number(word: &str, n: u64, to: &mut String) -> Result<(), Fault> {
    to.push_str(word)?;
    note(&n, to)
}

fn report_start(c: u64, request: &Request, to: &mut String) -> Result<(), Fault> {
    report_number("start ", c, to)?;
    to.push(' ')?;
    report_request(request, to)
}

fn report_poll(c: u64, want: u32, to: &mut String) -> Result<(), Fault> {
    report_number("poll ", c, to)?;
    to.push(' ')?;
    note(&want, to)
}

fn report_head(x: u64, response: &Response, to: &mut String) -> Result<(), Fault> {
    report_number("head ", x, to)?;
    to.push(' ')?;
    report_response(response, to)
}

fn report_piece(x: u64, bytes: &[u8], to: &mut String) -> Result<(), Fault> {
    report_number("piece ", x, to)?;
    to.push(' ')?;
    report_bytes(bytes, to)
}

fn report_doom(key: &[u8], to: &mut String) -> Result<(), Fault> {
    to.push_str("doom ")?;
    report_bytes(key, to)
}

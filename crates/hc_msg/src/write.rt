//! The bytes of messages that are sent.
ghost use Rattle.std.specs.Prelude.{◌≡◌, ◌++◌, true, false, length, string_bytes, IfOk, OnOk, OnErr, Ok, None};
ghost use Rattle.std.specs.Fmt.{digits};
ghost use Rattle.std.specs.Option.{option_copied};
ghost use Rattle.url.specs.Parts.{Parts};
ghost use Rattle.url.specs.Parser.{parse_url};
ghost use Rattle.hc_target.specs.Targets.{is_target};
ghost use Rattle.hc_msg.specs.Writing.{Keeps, line_of, lines_of, crlf, status_line, head_end, query_text, request_line, host_line, request_text, response_text, closing_of, size_line, chunk_text};

use hc_event::{Request, Response};
use hc_fields::Fields;
use hc_text::{Key, NoMemory, write_number};
use std::alloc::Global;
use std::str;
use url::{ParseError, Position, Url};

/// The size in lower-case hexadecimal.
fn size_text(alloc: Global, size: usize) -> Result<String, NoMemory>
    ensures { IfOk result (λ text. string_bytes text ≡ digits 16 false size) }
{
    match format!(in alloc; "{size:x}") {
        Ok(text) => Ok(text),
        Err(_) => Err(NoMemory),
    }
}

/// Appends the chunk, or what of it there is memory for.
fn put_chunk(size: &[u8], bytes: &[u8], to: &mut Vec<u8>) -> Result<(), NoMemory>
    ensures ok { OnOk result (to.new.items
        ≡ to.old.items ++ (size.now ++ (crlf ++ (bytes.now ++ crlf)))) }
    ensures kept { OnErr result (Keeps to.old.items to.new.items) }
{
    to.extend_from_slice(size)?;
    to.extend_from_slice(b"\r\n")?;
    to.extend_from_slice(bytes)?;
    to.extend_from_slice(b"\r\n")?;
    Ok(())
}

/// Appends a chunk of a body (RFC 9112 section 7.1): its size in lower-case hexadecimal, and its
/// bytes. No bytes are the last chunk, with which the body ends; it has no trailers. On an error
/// nothing is appended.
pub fn write_chunk(bytes: &[u8], to: &mut Vec<u8>) -> Result<(), NoMemory>
    ensures ok { OnOk result (to.new.items ≡ to.old.items ++ chunk_text bytes.now) }
    ensures err { OnErr result (to.new.items ≡ to.old.items) }
{
    let size = size_text(*to.allocator(), bytes.len())?;
    let start = to.as_slice().len();
    let written = put_chunk(size.as_bytes(), bytes, to);
    if written.is_err() {
        to.truncate(start);
    }
    written
}

/// Appends the line with the size, or what of it there is memory for.
fn put_size(size: &[u8], to: &mut Vec<u8>) -> Result<(), NoMemory>
    ensures ok { OnOk result (to.new.items ≡ to.old.items ++ (size.now ++ crlf)) }
    ensures kept { OnErr result (Keeps to.old.items to.new.items) }
{
    to.extend_from_slice(size)?;
    to.extend_from_slice(b"\r\n")?;
    Ok(())
}

/// Appends the line before a chunk of so many bytes (RFC 9112 section 7.1), so that they needn't be
/// copied: they and the end of a line follow it. On an error nothing is appended.
pub fn write_chunk_size(n: usize, to: &mut Vec<u8>) -> Result<(), NoMemory>
    ensures ok { OnOk result (to.new.items ≡ to.old.items ++ size_line n) }
    ensures err { OnErr result (to.new.items ≡ to.old.items) }
{
    let size = size_text(*to.allocator(), n)?;
    let start = to.as_slice().len();
    let written = put_size(size.as_bytes(), to);
    if written.is_err() {
        to.truncate(start);
    }
    written
}

/// Appends the line of a field.
#[tactic(auto, using(crate::proofs::Chains::keeps_more))]
fn put_line(name: &[u8], value: &[u8], to: &mut Vec<u8>) -> Result<(), NoMemory>
    ensures ok { OnOk result (to.new.items ≡ to.old.items ++ line_of (name.now, value.now)) }
    ensures kept { OnErr result (Keeps to.old.items to.new.items) }
{
    to.extend_from_slice(name)?;
    to.extend_from_slice(b": ")?;
    to.extend_from_slice(value)?;
    to.extend_from_slice(b"\r\n")?;
    Ok(())
}

/// Appends the lines of the fields, in order.
#[tactic(auto, using(crate::proofs::Chains::keeps_more))]
fn put_lines(fields: &Fields, to: &mut Vec<u8>) -> Result<(), NoMemory>
    ensures ok { OnOk result (to.new.items ≡ to.old.items ++ lines_of fields.now) }
    ensures kept { OnErr result (Keeps to.old.items to.new.items) }
{
    for i in 0..fields.len() {
        let (name, value) = fields.at(i);
        put_line(name, value, to)?;
    }
    Ok(())
}

/// Appends the status line (RFC 9112 section 4), without a reason.
#[tactic(auto, using(crate::proofs::Chains::keeps_more))]
fn put_status(status: u16, to: &mut Vec<u8>) -> Result<(), NoMemory>
    ensures ok { OnOk result (to.new.items ≡ to.old.items ++ status_line status) }
    ensures kept { OnErr result (Keeps to.old.items to.new.items) }
{
    to.extend_from_slice(b"HTTP/1.1 ")?;
    write_number(status as u64, to)?;
    to.extend_from_slice(b" \r\n")?;
    Ok(())
}

/// Appends the end of a head, and where it is told that the body comes in chunks.
#[tactic(auto, using(crate::proofs::Chains::keeps_more))]
fn put_end(chunked: bool, to: &mut Vec<u8>) -> Result<(), NoMemory>
    ensures ok { OnOk result (to.new.items ≡ to.old.items ++ head_end chunked) }
    ensures kept { OnErr result (Keeps to.old.items to.new.items) }
{
    let end: &[u8] = if chunked {
        b"transfer-encoding: chunked\r\n\r\n"
    } else {
        b"\r\n"
    };
    to.extend_from_slice(end)?;
    Ok(())
}

/// Appends the head of an answer, or a part of it.
#[tactic(auto, using(crate::proofs::Chains::keeps_more))]
fn put_response(response: &Response, chunked: bool, to: &mut Vec<u8>) -> Result<(), NoMemory>
    ensures ok { OnOk result (to.new.items ≡ to.old.items ++ response_text response.now chunked) }
    ensures kept { OnErr result (Keeps to.old.items to.new.items) }
{
    put_status(response.status, to)?;
    put_lines(&response.fields, to)?;
    put_end(chunked, to)
}

/// Appends the head of an answer (RFC 9112 section 4), and where it is told that the body comes in
/// chunks. On an error nothing is appended.
pub fn write_response_head(
    response: &Response,
    chunked: bool,
    to: &mut Vec<u8>,
) -> Result<(), NoMemory>
    ensures ok { OnOk result (to.new.items ≡ to.old.items ++ response_text response.now chunked) }
    ensures err { OnErr result (to.new.items ≡ to.old.items) }
{
    let start = to.as_slice().len();
    let written = put_response(response, chunked, to);
    if written.is_err() {
        to.truncate(start);
    }
    written
}

/// Appends the head of an answer whose connection is closed, or a part of it.
#[tactic(auto, using(crate::proofs::Chains::keeps_more))]
fn put_closing(response: &Response, to: &mut Vec<u8>) -> Result<(), NoMemory>
    ensures ok { OnOk result (to.new.items
        ≡ to.old.items ++ response_text (closing_of response.now) false) }
    ensures kept { OnErr result (Keeps to.old.items to.new.items) }
{
    put_status(response.status, to)?;
    put_lines(&response.fields, to)?;
    to.extend_from_slice(b"connection: close\r\n\r\n")?;
    Ok(())
}

/// Appends the head of an answer behind which the connection is closed (RFC 9112 section 9.6): the
/// last field says so. On an error nothing is appended.
pub fn write_closing_head(response: &Response, to: &mut Vec<u8>) -> Result<(), NoMemory>
    ensures ok { OnOk result (to.new.items
        ≡ to.old.items ++ response_text (closing_of response.now) false) }
    ensures err { OnErr result (to.new.items ≡ to.old.items) }
{
    let start = to.as_slice().len();
    let written = put_closing(response, to);
    if written.is_err() {
        to.truncate(start);
    }
    written
}

/// The URL of a target.
fn url_of(key: &Key) -> Result<Url, NoMemory>
    requires { is_target key.now ≡ true }
    ensures { IfOk result (λ url. parse_url None key.now ≡ Ok url) }
{
    let Ok(text) = str::from_utf8(&key.bytes) else {
        unreachable!();
    };
    match Url::parse(*key.bytes.allocator(), text) {
        Ok(url) => Ok(url),
        Err(e) => match e {
            ParseError::OutOfMemory => Err(NoMemory),
            ParseError::Overflow => Err(NoMemory),
            _ => unreachable!(),
        },
    }
}

/// Appends the query, where there is one.
#[tactic(auto, using(crate::proofs::Chains::keeps_more))]
fn put_query(query: Option<&str>, to: &mut Vec<u8>) -> Result<(), NoMemory>
    ensures ok { OnOk result (to.new.items
        ≡ to.old.items ++ query_text (option_copied query.entry)) }
    ensures kept { OnErr result (Keeps to.old.items to.new.items) }
{
    let Some(query) = query else {
        return Ok(());
    };
    to.extend_from_slice(b"?")?;
    to.extend_from_slice(query.as_bytes())?;
    Ok(())
}

/// Appends the request line, in the origin form (RFC 9112 section 3.2.1).
#[tactic(auto, using(crate::proofs::Chains::keeps_more))]
fn put_request_line(method: &[u8], url: &Url, to: &mut Vec<u8>) -> Result<(), NoMemory>
    ensures ok { OnOk result (to.new.items ≡ to.old.items ++ request_line method.now url.now) }
    ensures kept { OnErr result (Keeps to.old.items to.new.items) }
{
    to.extend_from_slice(method)?;
    to.extend_from_slice(b" ")?;
    to.extend_from_slice(url.path().as_bytes())?;
    put_query(url.query(), to)?;
    to.extend_from_slice(b" HTTP/1.1\r\n")?;
    Ok(())
}

/// Appends the line of the host, with the port, where the URL has one (RFC 9112 section 3.2).
#[tactic(auto, using(crate::proofs::Chains::keeps_more))]
fn put_host(url: &Url, to: &mut Vec<u8>) -> Result<(), NoMemory>
    ensures ok { OnOk result (to.new.items ≡ to.old.items ++ host_line url.now) }
    ensures kept { OnErr result (Keeps to.old.items to.new.items) }
{
    let host = url.slice(Position::BeforeHost, Position::AfterPort);
    to.extend_from_slice(b"host: ")?;
    to.extend_from_slice(host.as_bytes())?;
    to.extend_from_slice(b"\r\n")?;
    Ok(())
}

/// Appends the request of this URL, or a part of it.
#[tactic(auto, using(crate::proofs::Chains::keeps_more))]
fn put_request(request: &Request, url: &Url, to: &mut Vec<u8>) -> Result<(), NoMemory>
    ensures ok { OnOk result (to.new.items ≡ to.old.items ++ request_text request.now url.now) }
    ensures kept { OnErr result (Keeps to.old.items to.new.items) }
{
    put_request_line(&request.method.bytes, url, to)?;
    put_host(url, to)?;
    put_lines(&request.fields, to)?;
    to.extend_from_slice(b"connection: close\r\n\r\n")?;
    Ok(())
}

/// Appends the request of this URL. On an error nothing is appended.
fn put_whole_request(request: &Request, url: &Url, to: &mut Vec<u8>) -> Result<(), NoMemory>
    ensures ok { OnOk result (to.new.items ≡ to.old.items ++ request_text request.now url.now) }
    ensures err { OnErr result (to.new.items ≡ to.old.items) }
{
    let start = to.as_slice().len();
    let written = put_request(request, url, to);
    if written.is_err() {
        to.truncate(start);
    }
    written
}

/// Appends a request to an origin, which closes the connection behind its answer (RFC 9112 section
/// 9.6). The key is a target. On an error nothing is appended.
pub fn write_request(request: &Request, to: &mut Vec<u8>) -> Result<(), NoMemory>
    requires { is_target request.now.key ≡ true }
    ensures ok { OnOk result ((url : Parts) → parse_url None request.now.key ≡ Ok url
        → to.new.items ≡ to.old.items ++ request_text request.now url) }
    ensures err { OnErr result (to.new.items ≡ to.old.items) }
{
    let url = url_of(&request.key)?;
    put_whole_request(request, &url, to)
}

//! The whole head of an answer.
ghost use Rattle.std.specs.Prelude.{◌≡◌, ◌≤◌, true, length, option_map};
ghost use Rattle.hc_fields.specs.FieldList.{size_of};
ghost use Rattle.hc_head.specs.Responses.{framing_of, has_no_body, left_out, is_interim, heard_of};
ghost use Rattle.hc_head.specs.Held.{fields_in, AreGood};
ghost use Rattle.hc_head.specs.Replies.{Hears, RepliesTo};

use crate::fields::{Leaving, is_there, is_within_limits, kept_of};
use crate::framing::Framing;
use crate::head::MOST_FIELDS;
use crate::lengths::{content_length_of, is_chunked};
use crate::message::MsgError;
use hc_event::Response;
use httparse::{EMPTY_HEADER, Header, Response as Head, Status};
use std::alloc::Global;

/// What the head of an answer comes to.
#[derive(Drop)]
pub enum ParsedHead {
    /// An interim answer, which is passed over.
    Skips,
    Shows(Response, Framing),
}

impl Framing {
    /// What the framing takes the place of.
    fn left_out(self) -> Leaving
        ensures { result ≡ left_out self }
    {
        match self {
            Framing::Chunked => Leaving::Length,
            Framing::Bodiless | Framing::Counted(_) | Framing::ToClose => Leaving::Nothing,
        }
    }
}

/// How the body is framed, None where Transfer-Encoding can't be read.
fn framing_of(no_body: bool, status: u16, headers: &[Header<'_>]) -> Option<Framing>
    ensures { result ≡ framing_of no_body status (fields_in headers.now) }
{
    if no_body || status == 204 || status == 304 {
        return Some(Framing::Bodiless);
    }
    if !is_there(headers, b"transfer-encoding") {
        return Some(match content_length_of(headers).promise() {
            Some(n) => Framing::Counted(n),
            None => Framing::ToClose,
        });
    }
    if is_chunked(headers) {
        Some(Framing::Chunked)
    } else {
        None
    }
}

/// 100 to 199, but for 101, which asks for another protocol (RFC 9110 section 15.2).
fn is_interim(status: u16) -> bool
    ensures { result ≡ is_interim status }
{
    100 <= status && status < 200 && status != 101
}

/// What the status and the fields of a head of so many bytes say.
#[tactic(auto, unfolding(crate::specs::Responses::heard_of))]
fn heard_of(
    alloc: Global,
    no_body: bool,
    status: u16,
    headers: &[Header<'_>],
    bytes: usize,
) -> Result<ParsedHead, MsgError>
    requires good { AreGood headers.now }
    requires few { length headers.now ≤ 64 }
    requires small { size_of (fields_in headers.now) ≤ 32768 }
    ensures { Hears result (heard_of no_body status (fields_in headers.now)) }
{
    if !is_within_limits(headers) {
        return Err(MsgError::BadHead);
    }
    if is_interim(status) {
        return Ok(ParsedHead::Skips);
    }
    if status < 200 || 600 <= status {
        return Err(MsgError::BadHead);
    }
    let Some(framing) = framing_of(no_body, status, headers) else {
        return Err(MsgError::BadLength);
    };
    let fields = kept_of(alloc, framing.left_out(), headers, bytes)?;
    Ok(ParsedHead::Shows(Response { status, fields }, framing))
}

/// What the text says, which ends with the empty line of a head.
pub fn reply_of(alloc: Global, no_body: bool, text: &[u8]) -> Result<ParsedHead, MsgError>
    requires { length text.now ≤ 32768 }
    ensures { RepliesTo no_body text.now result }
{
    let mut room = [EMPTY_HEADER; MOST_FIELDS];
    let mut head = Head::new(&mut room);
    match head.parse(text) {
        Ok(Status::Complete(len)) => {
            if len < text.len() {
                return Err(MsgError::BadHead);
            }
            if head.headers.len() > MOST_FIELDS {
                return Err(MsgError::BadHead);
            }
            let status = head.code.unwrap();
            heard_of(alloc, no_body, status, head.headers, len)
        }
        Ok(Status::Partial) => Err(MsgError::BadHead),
        Err(_) => Err(MsgError::BadHead),
    }
}

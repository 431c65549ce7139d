//! The whole head of a request.
ghost use Rattle.std.specs.Prelude.{◌≡◌, ◌≤◌, ◌++◌, true, codes, length, option_map, IfOk, IfSome, IfNone};
ghost use Rattle.std.specs.List.{list_all};
ghost use Rattle.std.specs.Option.{option_copied, option_and_then};
ghost use Rattle.hc_fields.specs.FieldList.{size_of, values_of};
ghost use Rattle.hc_fields.specs.FirstValues.{only_of};
ghost use Rattle.hc_head.specs.Requests.{asked_of, asked_text, is_host_byte, is_host, key_of, own_key, may_have_body, says_zero, request_of};
ghost use Rattle.hc_head.specs.Held.{fields_in, field_in, AreGood};
ghost use Rattle.hc_head.specs.Rules.{is_within_limits};
ghost use Rattle.hc_head.specs.Calls.{Gives, CallsFor};
ghost use Rattle.httparse.specs.Spans.{RequestOverflows};

use crate::fields::{Leaving, has_name, is_there, is_within_limits, kept_of};
use crate::head::MOST_FIELDS;
use crate::message::{MsgError, WireRequest};
use hc_event::{Load, Request};
use hc_target::is_target;
use hc_text::{Key, MethodName, NoMemory};
use httparse::{EMPTY_HEADER, Error, Header, Request as Head, Status};
use std::alloc::Global;
use std::str;
use url::{ParseError, Url};

/// A method has at most this many bytes.
const MOST_METHOD: usize = 15;

/// Most requests have at most this many fields.
const FEW_FIELDS: usize = 16;

/// The value of Host, where it stands once.
fn host_of<'a>(headers: &[Header<'a>]) -> Option<&'a [u8]>
    ensures { option_copied result ≡ only_of (values_of (codes "host") (fields_in headers.now)) }
{
    let mut host = None;
    for header in headers {
        if has_name(header, b"host") {
            if host.is_some() {
                return None;
            }
            host = Some(header.value);
        }
    }
    host
}

/// Whether Content-Length is just `0`, where the field is that.
fn says_zero(header: &Header<'_>) -> bool
    ensures { result ≡ says_zero (field_in header.now) }
{
    !has_name(header, b"content-length") || header.value == b"0".as_slice()
}

/// Whether Content-Length is just `0`, wherever it stands.
fn all_say_zero(headers: &[Header<'_>]) -> bool
    ensures { result ≡ list_all says_zero (fields_in headers.now) }
{
    for header in headers {
        if !says_zero(header) {
            return false;
        }
    }
    true
}

/// Whether a body may follow.
fn may_have_body(headers: &[Header<'_>]) -> bool
    ensures { result ≡ may_have_body (fields_in headers.now) }
{
    is_there(headers, b"transfer-encoding") || !all_say_zero(headers)
}

/// The text of a URL without its fragment, where that is a target.
fn own_key(alloc: Global, url: &Url) -> Result<Option<Key>, NoMemory>
    ensures { IfOk result (λ key. key ≡ own_key url.now) }
{
    let text = url.as_str().as_bytes();
    if !is_target(alloc, text)? {
        return Ok(None);
    }
    let bytes = Vec::from_slice(alloc, text)?;
    Ok(Some(Key { bytes }))
}

/// What the URL Standard reads the text as, without its fragment, where that is a target.
#[tactic(auto, unfolding(crate::specs::Requests::key_of))]
fn read_key(alloc: Global, text: &[u8]) -> Result<Option<Key>, NoMemory>
    ensures { IfOk result (λ key. key ≡ key_of text.now) }
{
    let Ok(text) = str::from_utf8(text) else {
        return Ok(None);
    };
    match Url::parse(alloc, text) {
        Ok(url) => {
            let mut url = url;
            match url.set_fragment(None) {
                Ok(()) => own_key(alloc, &url),
                Err(_) => Err(NoMemory),
            }
        }
        Err(ParseError::OutOfMemory | ParseError::Overflow) => Err(NoMemory),
        Err(_) => Ok(None),
    }
}

/// The same, of a text that is most often its own key.
fn key_of(alloc: Global, text: Vec<u8>) -> Result<Option<Key>, NoMemory>
    ensures { IfOk result (λ key. key ≡ key_of text.items) }
{
    let own = is_target(alloc, &text)?;
    if own {
        return Ok(Some(Key { bytes: text }));
    }
    read_key(alloc, &text)
}

/// Whether the byte may stand in a host: it is no blank, and ends no authority and no user's name.
fn is_host_byte(b: u8) -> bool
    ensures { result ≡ is_host_byte b }
{
    !matches!(b, b' ' | b'\t' | b'/' | b'?' | b'#' | b'@' | b'\\')
}

/// Whether each byte may.
fn are_host_bytes(text: &[u8]) -> bool
    ensures { result ≡ list_all is_host_byte text.now }
{
    text.iter().all(|b| is_host_byte(*b))
}

/// Whether the value of Host names a host (RFC 9112 section 3.2).
fn is_host(host: &[u8]) -> bool
    ensures { result ≡ is_host host.now }
{
    !host.is_empty() && are_host_bytes(host)
}

/// The host and the target behind `http://`.
fn join(alloc: Global, host: &[u8], target: &[u8]) -> Result<Vec<u8>, NoMemory>
    ensures { IfOk result (λ text. text.items ≡ codes "http://" ++ (host.now ++ target.now)) }
{
    let mut text = Vec::with_capacity(
        alloc,
        host.len().saturating_add(target.len()).saturating_add(7),
    )?;
    text.extend_from_slice(b"http://")?;
    text.extend_from_slice(host)?;
    text.extend_from_slice(target)?;
    Ok(text)
}

/// The text of the URL that is asked for (RFC 9112 section 3.3), None where there is none: a target
/// that begins with `/` stands behind the one Host.
fn asked_text(
    alloc: Global,
    target: &[u8],
    headers: &[Header<'_>],
) -> Result<Option<Vec<u8>>, NoMemory>
    ensures { IfOk result (λ text. option_map (λ t. t.items) text
        ≡ asked_text target.now (fields_in headers.now)) }
{
    if target.starts_with(b"/") {
        let Some(host) = host_of(headers) else {
            return Ok(None);
        };
        if !is_host(host) {
            return Ok(None);
        }
        return Ok(Some(join(alloc, host, target)?));
    }
    if !target.starts_with(b"http://") {
        return Ok(None);
    }
    Ok(Some(Vec::from_slice(alloc, target)?))
}

/// The key of the request, None where there is none.
fn key_for(alloc: Global, target: &[u8], headers: &[Header<'_>]) -> Result<Option<Key>, NoMemory>
    ensures { IfOk result (λ key. key
        ≡ option_and_then key_of (asked_text target.now (fields_in headers.now))) }
{
    match asked_text(alloc, target, headers)? {
        Some(text) => key_of(alloc, text),
        None => Ok(None),
    }
}

/// The request with this key.
fn with_key(
    alloc: Global,
    method: &[u8],
    minor: u8,
    headers: &[Header<'_>],
    bytes: usize,
    key: Key,
) -> Result<WireRequest, NoMemory>
    requires good { AreGood headers.now }
    requires within_limits { is_within_limits (fields_in headers.now) ≡ true }
    requires few { length headers.now ≤ 64 }
    requires small { size_of (fields_in headers.now) ≤ 32768 }
    ensures { IfOk result (λ request. request
        ≡ request_of method.now minor (fields_in headers.now) key) }
{
    let fields = kept_of(alloc, Leaving::Address, headers, bytes)?;
    let method = MethodName {
        bytes: Vec::from_slice(alloc, method)?,
    };
    Ok(WireRequest {
        request: Request {
            method,
            key,
            load: Load::Normal,
            fields,
        },
        old: minor == 0,
    })
}

/// What the parts of a head of so many bytes ask for.
#[tactic(auto, unfolding(crate::specs::Requests::asked_of))]
fn asked_of(
    alloc: Global,
    method: &[u8],
    target: &[u8],
    minor: u8,
    headers: &[Header<'_>],
    bytes: usize,
) -> Result<WireRequest, MsgError>
    requires good { AreGood headers.now }
    requires few { length headers.now ≤ 64 }
    requires small { size_of (fields_in headers.now) ≤ 32768 }
    ensures { Gives result (asked_of method.now target.now minor (fields_in headers.now)) }
{
    if !is_within_limits(headers) {
        return Err(MsgError::BadHead);
    }
    if method == b"CONNECT".as_slice() {
        return Err(MsgError::UnsupportedMethod);
    }
    if method.len() > MOST_METHOD {
        return Err(MsgError::BadHead);
    }
    let Some(key) = key_for(alloc, target, headers)? else {
        return Err(MsgError::BadHead);
    };
    if may_have_body(headers) {
        return Err(MsgError::BadLength);
    }
    Ok(with_key(alloc, method, minor, headers, bytes, key)?)
}

/// What the text asks for, whose fields are read into this room. None where they are more.
fn call_in<'b>(
    alloc: Global,
    text: &'b [u8],
    room: &mut [Header<'b>],
) -> Option<Result<WireRequest, MsgError>>
    requires { length text.now ≤ 32768 }
    ensures call { IfSome result (CallsFor text.now) }
    ensures none { IfNone result (RequestOverflows (length room.old) text.now) }
{
    let mut head = Head::new(room);
    match head.parse(text) {
        Ok(Status::Complete(len)) => {
            if len < text.len() {
                return Some(Err(MsgError::BadHead));
            }
            if head.headers.len() > MOST_FIELDS {
                return Some(Err(MsgError::BadHead));
            }
            let method = head.method.unwrap().as_bytes();
            let target = head.path.unwrap().as_bytes();
            let minor = head.version.unwrap();
            Some(asked_of(alloc, method, target, minor, head.headers, len))
        }
        Ok(Status::Partial) => Some(Err(MsgError::BadHead)),
        Err(Error::TooManyHeaders) => None,
        Err(_) => Some(Err(MsgError::BadHead)),
    }
}

/// The same, with room for as many fields as a head may have.
fn long_call_of(alloc: Global, text: &[u8]) -> Result<WireRequest, MsgError>
    requires { length text.now ≤ 32768 }
    ensures { CallsFor text.now result }
{
    let mut room = [EMPTY_HEADER; MOST_FIELDS];
    match call_in(alloc, text, &mut room) {
        Some(call) => call,
        None => Err(MsgError::BadHead),
    }
}

/// What the text asks for, which ends with the empty line of a head. Most have few fields, so they are
/// read in a small room first: to make a large one costs more than to read them.
pub fn call_of(alloc: Global, text: &[u8]) -> Result<WireRequest, MsgError>
    requires { length text.now ≤ 32768 }
    ensures { CallsFor text.now result }
{
    let mut room = [EMPTY_HEADER; FEW_FIELDS];
    match call_in(alloc, text, &mut room) {
        Some(call) => call,
        None => long_call_of(alloc, text),
    }
}

//! Requests as numbers and bytes.
ghost use Rattle.std.specs.Prelude.{◌≡◌, ◌≢◌, true, IsTrue, IfOk, Some, None, MatchResult, length};
ghost use Rattle.std.specs.List.{list_all};
ghost use Rattle.http_header.specs.Token.{is_token_byte};
ghost use Rattle.hc_sched.specs.FirstLines.{is_method};
ghost use Rattle.hc_target.specs.Targets.{is_target};
ghost use Rattle.hc_fields.specs.FieldList.{IsWithinLimits};
ghost use Rattle.hc_binary.specs.Events.{load_of, key_made, request_made, Makes};

use crate::fields::read_fields;
use crate::refused::CallRefusal;
use hc_event::{Load, Request};
use hc_target::is_target;
use hc_text::{Key, MethodName};
use http_header::is_token_char;
use std::alloc::Global;

/// A request as numbers and bytes.
#[derive(Clone, Copy)]
pub struct Asked<'a> {
    pub method: &'a [u8],
    /// Of the loads, from 0, in the order of `Load`.
    pub mode: u32,
    pub target: &'a [u8],
    /// As lines.
    pub fields: &'a [u8],
}

/// The load of a number.
pub(crate) fn load_of(mode: u32) -> Option<Load>
    ensures { result ≡ load_of mode }
{
    match mode {
        0 => Some(Load::Normal),
        1 => Some(Load::Validate),
        2 => Some(Load::Bypass),
        3 => Some(Load::Skip),
        4 => Some(Load::Only),
        5 => Some(Load::Disable),
        _ => None,
    }
}

/// Whether each byte may stand in a token (RFC 9110 section 5.6.2).
fn is_token_text(text: &[u8]) -> bool
    ensures { result ≡ list_all is_token_byte text.now }
{
    text.iter().all(|b| is_token_char(*b))
}

/// Whether the text is a token of 1 to 15 bytes other than `CONNECT`.
#[tactic(auto, unfolding(hc_sched::specs::FirstLines::is_method))]
fn is_method(text: &[u8]) -> bool
    ensures { result ≡ is_method text.now }
{
    is_token_text(text) && 1 <= text.len() && text.len() <= 15 && text != b"CONNECT".as_slice()
}

/// The key of a target.
pub(crate) fn read_key(alloc: Global, target: &[u8]) -> Result<Key, CallRefusal>
    ensures made { Makes (key_made target.now) result }
    ensures target { IfOk result (λ key. is_target key ≡ true) }
{
    if !is_target(alloc, target)? {
        return Err(CallRefusal::BadTarget);
    }
    let bytes = target.to_vec(alloc).map_err(|_| CallRefusal::NoMemory)?;
    Ok(Key { bytes })
}

/// The request, which loads so.
pub(crate) fn read_request(
    alloc: Global,
    asked: Asked<'_>,
    load: Load,
) -> Result<Request, CallRefusal>
    ensures made { Makes (request_made asked.entry.method.now load asked.entry.target.now
        asked.entry.fields.now) result }
    ensures target { IfOk result (λ request. is_target request.key ≡ true) }
    ensures fields { IfOk result (λ request. IsWithinLimits request.fields) }
{
    if !is_method(asked.method) {
        return Err(CallRefusal::BadMethod);
    }
    let key = read_key(alloc, asked.target)?;
    let fields = read_fields(alloc, asked.fields)?;
    let bytes = asked
        .method
        .to_vec(alloc)
        .map_err(|_| CallRefusal::NoMemory)?;
    Ok(Request {
        method: MethodName { bytes },
        key,
        load,
        fields,
    })
}

//! Whether a request is on condition of a copy that the caller has.
ghost use Rattle.std.specs.Prelude.{◌≡◌, IfOk, is_some};
ghost use Rattle.http_header.specs.Token.{lowercase};
ghost use Rattle.hc_etag.specs.TagListTexts.{list_in};
ghost use Rattle.hc_condition.specs.External.{are_tags, asks_more, is_about_copy, is_date_or_absent, is_external, none_match_of, only_date};

use hc_cachectl::read_request;
use hc_etag::read_tag_list;
use hc_event::{Load, Request};
use hc_fields::{Fields, has_field, only_value};
use hc_text::NoMemory;
use httpdate::HttpDate;
use std::alloc::Global;

/// Whether the front may answer the request: a GET on condition of a copy that the caller has, and
/// of nothing else (RFC 9110 section 13.1).
#[tactic(auto, unfolding(crate::specs::External::is_external))]
pub fn is_external(alloc: Global, request: &Request) -> Result<bool, NoMemory>
    ensures { IfOk result (λ answer. answer ≡ is_external request.now) }
{
    let fields = &request.fields;
    if request.method.bytes.as_slice() != b"GET".as_slice() || request.load == Load::Disable {
        return Ok(false);
    }
    if asks_more(fields) || !is_about_copy(fields) || !is_date_or_absent(fields) {
        return Ok(false);
    }
    are_tags(alloc, fields)
}

/// Whether If-None-Match is absent, or a list of tags.
fn are_tags(alloc: Global, fields: &Fields) -> Result<bool, NoMemory>
    ensures { IfOk result (λ answer. answer ≡ are_tags (none_match_of fields.now)) }
{
    match fields.joined(b"if-none-match")? {
        Some(text) => is_tag_list(alloc, text.as_slice()),
        None => Ok(true),
    }
}

/// Whether the text is a list of tags.
fn is_tag_list(alloc: Global, text: &[u8]) -> Result<bool, NoMemory>
    ensures { IfOk result (λ answer. answer ≡ is_some (list_in text.now)) }
{
    let list = read_tag_list(alloc, text)?;
    Ok(list.is_some())
}

/// Whether it asks for a part, on condition of what has not changed, or for what isn't to be stored.
fn asks_more(fields: &Fields) -> bool
    ensures { result ≡ asks_more fields.now }
{
    has_field(fields, b"range")
        || has_field(fields, b"if-match")
        || has_field(fields, b"if-unmodified-since")
        || has_field(fields, b"if-range")
        || read_request(fields).no_store
}

/// Whether it is on condition of a copy.
fn is_about_copy(fields: &Fields) -> bool
    ensures { result ≡ is_about_copy fields.now }
{
    has_field(fields, b"if-none-match") || has_field(fields, b"if-modified-since")
}

/// Whether If-Modified-Since is absent, or stands once and is a date.
fn is_date_or_absent(fields: &Fields) -> bool
    ensures { result ≡ is_date_or_absent fields.now }
{
    !has_field(fields, b"if-modified-since") || only_date(fields, b"if-modified-since").is_some()
}

/// The second that a field shows, where it stands once and is a date (RFC 9110 section 5.6.7).
pub(crate) fn only_date(fields: &Fields, name: &[u8]) -> Option<u64>
    ensures { result ≡ only_date (lowercase name.now) fields.now }
{
    match HttpDate::parse_ascii(only_value(fields, name)?) {
        Ok(date) => Some(date.unix_secs()),
        Err(_) => None,
    }
}

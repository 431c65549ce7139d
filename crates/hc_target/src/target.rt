//! Targets: web URLs in the one spelling that the URL Standard gives them.
ghost use Rattle.std.specs.Prelude.{◌≡◌, ◌≤◌, true, length, IfOk, IsTrue};
ghost use Rattle.std.specs.List.{list_all};
ghost use Rattle.hc_target.specs.PlainTargets.{is_host_byte, is_path_byte, is_query_byte, is_plain_path, is_plain_path_and_query, is_plain_target};
ghost use Rattle.hc_text.specs.Texts.{cut};
ghost use Rattle.hc_target.specs.Targets.{is_target, is_short_word, has_own_text, ReadsTarget};

use hc_text::{NoMemory, cut, lacks};
use std::alloc::Global;
use std::str;
use url::{ParseError, Url};

/// A target has at most this many bytes.
const MOST_TARGET: usize = 8192;

/// Whether the text is 1 to 8,192 bytes without a space or a line feed.
#[tactic(auto, unfolding(crate::specs::Targets::is_short_word))]
fn is_short_word(text: &[u8]) -> bool
    ensures value { result ≡ is_short_word text.now }
    ensures short { IsTrue result → length text.now ≤ 8192 }
{
    1 <= text.len() && text.len() <= MOST_TARGET && lacks(text, b' ') && lacks(text, b'\n')
}

fn has_host_bytes(host: &[u8]) -> bool
    ensures { result ≡ list_all is_host_byte host.now }
{
    host.iter().all(|b| matches!(*b, b'a'..=b'z' | b'-' | b'.'))
}

/// What a path may have (RFC 3986 section 3.3): letters, digits, slashes and `!$%&'()*+,-.:;=@_~`.
fn is_path_byte(b: u8) -> bool
    ensures { result ≡ is_path_byte b }
{
    matches!(b, b'a'..=b'z' | b'@'..=b'Z' | b'$'..=b';' | b'!' | b'=' | b'_' | b'~')
}

/// The same or `?`, but for `'`, which the URL Standard escapes in a query.
fn is_query_byte(b: u8) -> bool
    ensures { result ≡ is_query_byte b }
{
    (is_path_byte(b) || b == b'?') && b != b'\''
}

fn has_query_bytes(query: &[u8]) -> bool
    ensures { result ≡ list_all is_query_byte query.now }
{
    query.iter().all(|b| is_query_byte(*b))
}

/// Whether the bytes are those of a path in which no segment begins as `.` and `..` do, which may
/// be written with `%2e`.
fn is_plain_path(path: &[u8]) -> bool
    ensures { result ≡ is_plain_path true path.now }
{
    let mut begins = true;
    for b in path {
        if !is_path_byte(*b) || (begins && matches!(*b, b'.' | b'%')) {
            return false;
        }
        begins = *b == b'/';
    }
    true
}

/// Whether the text is such a path, or one and a query that needs no escape.
fn is_plain_path_and_query(text: &[u8]) -> bool
    ensures { result ≡ is_plain_path_and_query text.now (cut 63 text.now) }
{
    match cut(text, b'?') {
        Some((path, query)) => is_plain_path(path) && has_query_bytes(query),
        None => is_plain_path(text),
    }
}

/// Whether the text is a target that needs no reading: a host of lower-case letters, dots and
/// hyphens, and a path and a query that the URL Standard takes as they stand.
#[tactic(auto, unfolding(hc_text::specs::Texts::behind, crate::specs::PlainTargets::is_plain_target))]
fn is_plain_target(text: &[u8]) -> bool
    ensures { result ≡ is_plain_target text.now }
{
    let Some(rest) = text.strip_prefix(b"http://") else {
        return false;
    };
    let Some((host, rest)) = cut(rest, b'/') else {
        return false;
    };
    1 <= host.len() && has_host_bytes(host) && is_plain_path_and_query(rest)
}

/// Whether the text is a target: 1 to 8,192 bytes without a space or a line feed, which are an
/// `http` or `https` URL without a fragment as the URL Standard writes it. So equal targets are
/// equal texts.
#[tactic(auto, unfolding(crate::specs::Targets::is_target))]
pub fn is_target(alloc: Global, text: &[u8]) -> Result<bool, NoMemory>
    ensures value { IfOk result (λ is. is ≡ is_target text.now) }
    ensures read { IfOk result (λ is. IsTrue is → ReadsTarget text.now) }
    ensures short { IfOk result (λ is. IsTrue is → length text.now ≤ 8192) }
{
    if text.len() <= MOST_TARGET && is_plain_target(text) {
        return Ok(true);
    }
    if !is_short_word(text) {
        return Ok(false);
    }
    let Ok(text) = str::from_utf8(text) else {
        return Ok(false);
    };
    match Url::parse(alloc, text) {
        Ok(url) => Ok(has_own_text(&url, text)),
        Err(ParseError::OutOfMemory | ParseError::Overflow) => Err(NoMemory),
        Err(_) => Ok(false),
    }
}

/// Whether the text is that of the URL, a web URL without a fragment.
fn has_own_text(url: &Url, text: &str) -> bool
    ensures { result ≡ has_own_text url.now text.now }
{
    let scheme = url.scheme();
    (scheme == "http" || scheme == "https") && url.fragment().is_none() && url.as_str() == text
}

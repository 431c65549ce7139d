//! What a request asks of the test origin.
ghost use Rattle.std.specs.Prelude.{◌≡◌, ◌≤◌, ◌↔◌, IfOk, IfSome, IsTrue, option_copied};
ghost use Rattle.std.specs.List.{list_any, prefix_len};
ghost use Rattle.hc_range.specs.Spans.{IsInOrder};
ghost use Rattle.hc_validate.specs.Origin.{behind_slash, if_range, is_just, is_other, is_tag, IsAsked, IsListed, Lists, may_cut, path_of, size_asked, size_at, size_in};

use hc_etag::{TagItems, TagList, read_tag_list, strong_in};
use hc_event::Request;
use hc_fields::{Fields, has_field, only_value};
use hc_range::{RangeSpec, read_range};
use hc_text::{NoMemory, read_plain};
use std::alloc::Global;

/// The most bytes of a representation.
const MOST: u64 = 1_048_576;

/// How many bytes a GET of a representation asks for; None for any other request.
pub(crate) fn size_asked(request: &Request) -> Option<u64>
    ensures value { result ≡ size_asked request.now }
    ensures small { IfSome result (λ n. n ≤ 1048576) }
{
    if request.method.bytes.as_slice() != b"GET".as_slice() {
        return None;
    }
    size_at(path_of(request.key.bytes.as_slice()))
}

/// N, where the path is `/d/N`.
fn size_at(path: &[u8]) -> Option<u64>
    ensures value { result ≡ size_at path.now }
    ensures small { IfSome result (λ n. n ≤ 1048576) }
{
    size_in(path.strip_prefix(b"d/")?)
}

/// The plain number, where it isn't too large.
fn size_in(text: &[u8]) -> Option<u64>
    ensures value { result ≡ size_in text.now }
    ensures small { IfSome result (λ n. n ≤ 1048576) }
{
    let n = read_plain(text)?;
    if n <= MOST { Some(n) } else { None }
}

/// What follows the third slash, up to a question mark.
fn path_of(key: &[u8]) -> &[u8]
    ensures { result.now ≡ path_of key.now }
{
    let rest = behind_slash(behind_slash(behind_slash(key)));
    &rest[..len_before(rest, b'?')]
}

/// What stands behind the first slash, nothing where there is none.
fn behind_slash(text: &[u8]) -> &[u8]
    ensures { result.now ≡ behind_slash text.now }
{
    let before = len_before(text, b'/');
    if before < text.len() {
        &text[before + 1..]
    } else {
        &[]
    }
}

/// How many bytes stand before the first such byte.
fn len_before(text: &[u8], byte: u8) -> usize
    ensures { result ≡ prefix_len (is_other byte) text.now }
{
    text.iter().take_while(|b| **b != byte).count()
}

/// Whether If-None-Match is the asterisk, or lists a tag with these bytes between its quotes.
pub(crate) fn is_listed(fields: &Fields, opaque: &[u8]) -> Result<bool, NoMemory>
    ensures { IfOk result (λ listed. IsTrue listed ↔ IsListed opaque.now fields.now) }
{
    match fields.joined(b"if-none-match")? {
        Some(text) => lists(fields.allocator(), text.as_slice(), opaque),
        None => Ok(false),
    }
}

/// Whether the text is the asterisk, or lists such a tag.
#[tactic(auto, using(crate::proofs::Listed::any_of))]
fn lists(alloc: Global, text: &[u8], opaque: &[u8]) -> Result<bool, NoMemory>
    ensures { IfOk result (λ listed. IsTrue listed ↔ Lists opaque.now text.now) }
{
    if text == b"*".as_slice() {
        return Ok(true);
    }
    match read_tag_list(alloc, text)? {
        Some(TagList::Tags(tags)) => Ok(has_tag(&tags, opaque)),
        _ => Ok(false),
    }
}

/// Whether one of the tags has these bytes between its quotes.
fn has_tag(tags: &TagItems, opaque: &[u8]) -> bool
    ensures { result ≡ list_any (is_tag opaque.now) tags.now }
{
    tags.items.iter().any(|tag| tag.opaque.as_slice() == opaque)
}

/// What Range asks for, where it stands once and can be read.
pub(crate) fn asked_in(fields: &Fields) -> Option<RangeSpec>
    ensures is { IsAsked fields.now result }
    ensures ordered { IfSome result IsInOrder }
{
    read_range(only_value(fields, b"range")?)
}

/// Whether a part may be answered: no If-Range stands, or one that is strongly equal.
pub(crate) fn may_cut(fields: &Fields, opaque: &[u8]) -> bool
    ensures { result ≡ may_cut opaque.now fields.now }
{
    !has_field(fields, b"if-range") || is_just(if_range(fields), opaque)
}

/// What If-Range has between its quotes, where it stands once and is a strong tag.
fn if_range(fields: &Fields) -> Option<&[u8]>
    ensures { option_copied result ≡ if_range fields.now }
{
    strong_in(only_value(fields, b"if-range")?)
}

/// Whether these bytes are there and are those.
fn is_just(found: Option<&[u8]>, opaque: &[u8]) -> bool
    ensures { result ≡ is_just (option_copied found.entry) opaque.now }
{
    found.is_some_and(|found| found == opaque)
}

//! Whether a head would be that of a copy that the caller has.
ghost use Rattle.std.specs.Prelude.{◌≡◌, IfOk, Some, option_map};
ghost use Rattle.std.specs.List.{list_any};
ghost use Rattle.hc_etag.specs.PlainTags.{plain_tag};
ghost use Rattle.hc_etag.specs.Tags.{values_of};
ghost use Rattle.hc_validate.specs.Origin.{is_tag};
ghost use Rattle.hc_validate.specs.Selection.{tag_of};
ghost use Rattle.hc_etag.specs.TagListTexts.{TheseTags, list_in, plain_list};
ghost use Rattle.hc_condition.specs.NotModified.{has_same, is_no_later, is_not_modified, lists};
ghost use Rattle.hc_condition.specs.External.{none_match_of};

use crate::external::only_date;
use hc_etag::{TagItems, TagList, TagText, read_tag_list, tag_in};
use hc_event::Request;
use hc_fields::{Fields, only_value};
use hc_text::NoMemory;
use std::alloc::Global;

/// Whether the head would be that of the copy on condition of which the request was made (RFC 9110
/// section 13.2.2).
#[tactic(auto, unfolding(crate::specs::NotModified::is_not_modified))]
pub fn is_not_modified(
    alloc: Global,
    request: &Request,
    status: u16,
    fields: &Fields,
) -> Result<bool, NoMemory>
    ensures { IfOk result (λ answer. answer ≡ is_not_modified request.now status fields.now) }
{
    if status != 200 {
        return Ok(false);
    }
    match request.fields.joined(b"if-none-match")? {
        Some(text) => lists(alloc, text.as_slice(), fields),
        None => Ok(is_no_later(
            only_date(fields, b"last-modified"),
            only_date(&request.fields, b"if-modified-since"),
        )),
    }
}

/// Whether the text lists the tag of a head, by the weak comparison (RFC 9110 section 13.1.2).
fn lists(alloc: Global, text: &[u8], fields: &Fields) -> Result<bool, NoMemory>
    ensures { IfOk result (λ answer. answer ≡ lists (list_in text.now) (tag_of fields.now)) }
{
    let list = read_tag_list(alloc, text)?;
    Ok(is_listed(&list, fields))
}

/// Whether the list has the tag of a head.
fn is_listed(list: &Option<TagList>, fields: &Fields) -> bool
    ensures { result ≡ lists (option_map plain_list list.now) (tag_of fields.now) }
{
    match list {
        None => false,
        Some(TagList::Any) => true,
        Some(TagList::Tags(tags)) => is_among(tags, fields),
    }
}

/// Whether one of the tags is that of a head.
fn is_among(tags: &TagItems, fields: &Fields) -> bool
    ensures { result ≡ lists (Some (TheseTags (values_of tags.now))) (tag_of fields.now) }
{
    match tag_of(fields) {
        Some(own) => has_opaque(tags, own.opaque),
        None => false,
    }
}

/// Whether one of the tags has these bytes between its quotes.
fn has_opaque(tags: &TagItems, opaque: &[u8]) -> bool
    ensures { result ≡ list_any (is_tag opaque.now) tags.now }
{
    tags.items.iter().any(|tag| tag.opaque.as_slice() == opaque)
}

/// The tag of a head, where its ETag stands once and is one.
fn tag_of(fields: &Fields) -> Option<TagText<'_>>
    ensures { option_map plain_tag result ≡ tag_of fields.now }
{
    tag_in(only_value(fields, b"etag")?)
}

/// Whether there are both moments, and the first isn't after the second.
fn is_no_later(last: Option<u64>, since: Option<u64>) -> bool
    ensures { result ≡ is_no_later last since }
{
    match (last, since) {
        (Some(last), Some(since)) => last <= since,
        _ => false,
    }
}

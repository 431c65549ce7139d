//! What a text says as an entity tag, without memory.
ghost use Rattle.std.specs.Prelude.{◌≡◌, option_copied, option_map};
ghost use Rattle.std.specs.List.{list_all};
ghost use Rattle.hc_etag.specs.Etags.{is_etagc};
ghost use Rattle.hc_etag.specs.PlainTags.{plain_tag};
ghost use Rattle.hc_etag.specs.TagTexts.{is_quoted, strong_in, tag_in};

use crate::leading::is_etagc;

/// What a strong entity tag has between its quotes (RFC 9110 section 8.8.3). None exactly where the
/// text is no strong tag.
#[tactic(auto, unfolding(crate::specs::TagTexts::strong_in))]
pub fn strong_in(text: &[u8]) -> Option<&[u8]>
    ensures value { option_copied result ≡ strong_in text.now }
{
    if is_quoted(text) {
        Some(&text[1..text.len() - 1])
    } else {
        None
    }
}

/// Whether the text stands in quotes, and what they enclose may stand in a tag.
fn is_quoted(text: &[u8]) -> bool
    ensures { result ≡ is_quoted text.now }
{
    text.len() >= 2
        && text[0] == b'"'
        && text[text.len() - 1] == b'"'
        && all_may_stand(&text[1..text.len() - 1])
}

/// Whether each of the bytes may stand between the quotes of a tag.
// The loop has no early exit, so that it is compiled to vector code.
fn all_may_stand(bytes: &[u8]) -> bool
    ensures { result ≡ list_all is_etagc bytes.now }
{
    let mut all = true;
    for b in bytes {
        all &= is_etagc(*b);
    }
    all
}

/// An entity tag as it stands in a text: whether it is weak, and the bytes between its quotes.
#[derive(Clone, Copy, Debug)]
pub struct TagText<'a> {
    pub weak: bool,
    pub opaque: &'a [u8],
}

/// The entity tag that the text is. None exactly where it is none.
pub fn tag_in(text: &[u8]) -> Option<TagText<'_>>
    ensures value { option_map plain_tag result ≡ tag_in text.now }
{
    match text.strip_prefix(b"W/") {
        Some(text) => Some(TagText {
            weak: true,
            opaque: strong_in(text)?,
        }),
        None => Some(TagText {
            weak: false,
            opaque: strong_in(text)?,
        }),
    }
}

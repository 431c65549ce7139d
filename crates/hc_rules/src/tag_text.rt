//! The strong entity tag of a head, read without memory (RFC 9110 section 8.8.3).
ghost use Rattle.std.specs.Prelude.{◌≡◌, option_copied};
ghost use Rattle.hc_rules.specs.TagTexts.{strong_of, strongly_equals};

use hc_etag::{Tag, strong_in};
use hc_fields::{Fields, only_value};

/// The strong tag of a head, between its quotes, where its ETag stands once and is one.
pub(crate) fn strong_of(fields: &Fields) -> Option<&[u8]>
    ensures { option_copied result ≡ strong_of fields.now }
{
    strong_in(only_value(fields, b"etag")?)
}

/// Whether the tag of the head is strongly equal to this one (RFC 9110 section 8.8.3.2).
pub(crate) fn strongly_equals(fields: &Fields, tag: &Tag) -> bool
    ensures { result ≡ strongly_equals fields.now tag.now.weak tag.now.opaque }
{
    if tag.weak {
        return false;
    }
    match strong_of(fields) {
        None => false,
        Some(opaque) => opaque == tag.opaque.as_slice(),
    }
}

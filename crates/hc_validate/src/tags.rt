//! The entity tag of a head.
ghost use Rattle.std.specs.Prelude.{◌≡◌, option_map};
ghost use Rattle.hc_etag.specs.PlainTags.{plain_tag};
ghost use Rattle.hc_validate.specs.Selection.{tag_of};

use hc_etag::{TagText, tag_in};
use hc_fields::{Fields, only_value};

/// The tag of a head, where its ETag stands once and is one.
pub(crate) fn tag_of(fields: &Fields) -> Option<TagText<'_>>
    ensures { option_map plain_tag result ≡ tag_of fields.now }
{
    tag_in(only_value(fields, b"etag")?)
}

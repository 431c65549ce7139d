//! Ranges in the fields of a head.
ghost use Rattle.std.specs.Prelude.{◌≡◌, IfSome};
ghost use Rattle.hc_range.specs.Spans.{IsInOrder};
ghost use Rattle.hc_rules.specs.Lengths.{IsPartInOrder};
ghost use Rattle.hc_rules.specs.RangeTexts.{asked_in, content_range_in, content_range_of};

use hc_fields::{Fields, only_value};
use hc_range::{ContentRange, RangeSpec, read_content_range, read_range};

/// The range that the value asks for, where it is one that is read.
pub(crate) fn asked_in(text: &[u8]) -> Option<RangeSpec>
    ensures value { result ≡ asked_in text.now }
    ensures ordered { IfSome result IsInOrder }
{
    read_range(text)
}

/// What the value of Content-Range tells, where it can be read.
fn content_range_in(text: &[u8]) -> Option<ContentRange>
    ensures value { result ≡ content_range_in text.now }
    ensures ordered { IfSome result IsPartInOrder }
{
    read_content_range(text)
}

/// What the Content-Range of a head tells, where it stands once and can be read.
pub fn content_range_of(fields: &Fields) -> Option<ContentRange>
    ensures value { result ≡ content_range_of fields.now }
    ensures ordered { IfSome result IsPartInOrder }
{
    content_range_in(only_value(fields, b"content-range")?)
}

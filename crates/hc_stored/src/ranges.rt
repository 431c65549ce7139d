//! Whether an origin takes ranges.
ghost use Rattle.std.specs.Prelude.{◌≡◌, codes};
ghost use Rattle.std.specs.List.{list_any};
ghost use Rattle.hc_text.specs.Elements.{elements};
ghost use Rattle.hc_fields.specs.FirstValues.{elements_in};
ghost use Rattle.hc_stored.specs.Heads.{is_none_element};

use hc_fields::Fields;
use hc_text::next_item;

const ACCEPT_RANGES: &[u8] = b"accept-ranges";

/// Whether the fields say that it takes none (RFC 9110 section 14.3).
pub(crate) fn refuses_ranges(fields: &Fields) -> bool
    ensures { result ≡ list_any is_none_element (elements_in (codes "accept-ranges") fields.now) }
{
    for i in 0..fields.count(ACCEPT_RANGES) {
        if lists_none(fields.value(ACCEPT_RANGES, i).unwrap()) {
            return true;
        }
    }
    false
}

/// Whether an element of the list is `none`.
fn lists_none(list: &[u8]) -> bool
    ensures { result ≡ list_any is_none_element (elements list.now) }
{
    let mut from = 0;
    while let Some(item) = next_item(list, from) {
        if list[item.start..item.end].eq_ignore_ascii_case(b"none") {
            return true;
        }
        from = item.next;
    }
    false
}

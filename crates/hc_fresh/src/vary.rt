//! Whether a stored head answers a request's fields too.
ghost use Rattle.std.specs.Prelude.{◌≡◌, IsTrue, ◌↔◌};
ghost use Rattle.std.specs.List.{list_all};
ghost use Rattle.hc_text.specs.Elements.{elements};
ghost use Rattle.hc_record.specs.Plain.{plain};
ghost use Rattle.hc_fresh.specs.Vary.{is_name, matches_on, matches_vary};

use hc_event::Request;
use hc_fields::agree_on;
use hc_record::StoredHead;
use hc_text::{is_token, next_item};

/// Whether each field that the head's Vary names has the same joined values in the request as it had
/// in the request that the head was stored for, or is absent in both (RFC 9111 section 4.1).
///
/// An asterisk, and an element that is no token, match nothing.
pub fn vary_matches(head: &StoredHead, request: &Request) -> bool
    ensures { result ≡ matches_vary (plain head.now) request.now }
{
    for i in 0..head.fields.count(VARY) {
        if !list_matches(head, request, head.fields.value(VARY, i).unwrap()) {
            return false;
        }
    }
    true
}

const VARY: &[u8] = b"vary";

/// Whether each field that one list names matches.
fn list_matches(head: &StoredHead, request: &Request, list: &[u8]) -> bool
    ensures { result ≡ list_all (matches_on (plain head.now) request.now) (elements list.now) }
{
    let mut from = 0;
    while let Some(item) = next_item(list, from) {
        if !matches_on(head, request, &list[item.start..item.end]) {
            return false;
        }
        from = item.next;
    }
    true
}

/// Whether the field that an element names matches.
fn matches_on(head: &StoredHead, request: &Request, element: &[u8]) -> bool
    ensures { result ≡ matches_on (plain head.now) request.now element.now }
{
    is_name(element) && agree_on(&head.vary_fields, &request.fields, element)
}

/// Whether the element names a field.
fn is_name(element: &[u8]) -> bool
    ensures { result ≡ is_name element.now }
{
    is_token(element) && element != b"*".as_slice()
}

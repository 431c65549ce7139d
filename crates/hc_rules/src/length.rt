//! The length of a body, as its head tells it.
ghost use Rattle.std.specs.Prelude.{◌≡◌, codes, IfSome};
ghost use Rattle.hc_text.specs.Elements.{elements};
ghost use Rattle.hc_fields.specs.FirstValues.{elements_in};
ghost use Rattle.hc_rules.specs.Lengths.{length_of, content_length_of, part_length, has_no_body, base_of, promise_of, is_bad, IsPartInOrder};
ghost use Rattle.hc_rules.specs.RangeTexts.{number_of};
ghost use Rattle.hc_rules.specs.LengthSoFar.{with_element, with_elements};

use crate::need::{Route, route_of};
use crate::range_text::content_range_of;
use crate::status::brings_part;
use hc_event::{Need, Request, Response};
use hc_fields::Fields;
use hc_range::ContentRange;
use hc_text::{next_item, read_number};

/// What a head says of the length of its body. Lengths and positions are counts of bytes.
#[derive(Clone, Copy, Debug, PartialEq, Eq)]
pub enum Length {
    /// Nothing is said: the body begins at 0.
    Unknown,
    /// So many bytes are promised, from 0 on.
    Promised(u64),
    /// So many bytes are promised, from the position `base` of the representation on.
    Part { base: u64, promised: u64 },
    /// The head breaks the rules of length: it is bad.
    Bad,
}

/// What a head says to an exchange that was opened for this need, with this request.
///
/// The answer to a HEAD, and the statuses 204 and 304, have no body. Else all elements of
/// Content-Length are to be the same number (RFC 9110 section 8.6). A part that doesn't go past the
/// store has one readable Content-Range (section 14.4), with which Content-Length agrees.
#[tactic(auto, unfolding(crate::specs::Lengths::length_of))]
pub fn length_of(need: Need, request: &Request, response: &Response) -> Length
    ensures { result ≡ length_of need request.now response.now }
{
    if has_no_body(request, response.status) {
        return Length::Promised(0);
    }
    let said = content_length_of(&response.fields);
    if !brings_part(response.status) || route_of(need) == Route::Direct {
        return said;
    }
    said.of_part(content_range_of(&response.fields))
}

/// Whether the answer has no body: to a HEAD (RFC 9110 section 9.3.2), or with status 204 or 304.
fn has_no_body(request: &Request, status: u16) -> bool
    ensures { result ≡ has_no_body request.now status }
{
    request.method.bytes.as_slice() == b"HEAD".as_slice() || status == 204 || status == 304
}

/// The number that all elements of all values of Content-Length are.
fn content_length_of(fields: &Fields) -> Length
    ensures { result ≡ content_length_of (elements_in (codes "content-length") fields.now) }
{
    let mut length = Length::Unknown;
    for i in 0..fields.count(CONTENT_LENGTH) {
        length = length.with_list(fields.value(CONTENT_LENGTH, i).unwrap());
    }
    length
}

impl Length {
    /// What is told with the elements of one more list.
    fn with_list(self, text: &[u8]) -> Length
        ensures { result ≡ with_elements self (elements text.now) }
    {
        let mut length = self;
        let mut from = 0;
        while let Some(item) = next_item(text, from) {
            length = length.with_element(&text[item.start..item.end]);
            from = item.next;
        }
        length
    }

    /// The position at which the body begins.
    pub fn base(self) -> u64
        ensures { result ≡ base_of self }
    {
        match self {
            Length::Part { base, .. } => base,
            _ => 0,
        }
    }

    /// How many bytes are promised, where that is told.
    pub fn promise(self) -> Option<u64>
        ensures { result ≡ promise_of self }
    {
        match self {
            Length::Promised(n) | Length::Part { promised: n, .. } => Some(n),
            Length::Unknown | Length::Bad => None,
        }
    }

    /// Whether the head is bad.
    pub fn is_bad(self) -> bool
        ensures { result ≡ is_bad self }
    {
        self == Length::Bad
    }

    /// What a part tells, of which Content-Length said this.
    fn of_part(self, reported: Option<ContentRange>) -> Length
        requires { IfSome reported IsPartInOrder }
        ensures { result ≡ part_length self reported }
    {
        let Some(ContentRange::Part { first, last, .. }) = reported else {
            return Length::Bad;
        };
        let promised = last - first + 1;
        match self {
            Length::Unknown => Length::Part {
                base: first,
                promised,
            },
            Length::Promised(n) if n == promised => Length::Part {
                base: first,
                promised,
            },
            _ => Length::Bad,
        }
    }

    /// What is told with one more element.
    fn with_element(self, element: &[u8]) -> Length
        ensures { result ≡ with_element self element.now }
    {
        match (self, number_of(element)) {
            (Length::Unknown, Some(n)) => Length::Promised(n),
            (Length::Promised(n), Some(m)) if n == m => self,
            _ => Length::Bad,
        }
    }
}

/// The number that the text is: 1 to 20 digits, below 2^62.
fn number_of(text: &[u8]) -> Option<u64>
    ensures { result ≡ number_of text.now }
{
    read_number(text)
}

const CONTENT_LENGTH: &[u8] = b"content-length";

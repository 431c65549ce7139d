//! What Content-Length and Transfer-Encoding say.
ghost use Rattle.std.specs.Prelude.{◌≡◌, codes, bytes_eq};
ghost use Rattle.http_header.specs.Token.{lowercase};
ghost use Rattle.hc_text.specs.Elements.{elements};
ghost use Rattle.hc_fields.specs.FirstValues.{elements_in};
ghost use Rattle.hc_rules.specs.Lengths.{content_length_of};
ghost use Rattle.hc_rules.specs.LengthSoFar.{with_element, with_elements};
ghost use Rattle.hc_rules.specs.RangeTexts.{number_of};
ghost use Rattle.hc_head.specs.Responses.{is_chunked};
ghost use Rattle.hc_head.specs.Codings.{with_coding, with_codings, is_coding, coding_with, length_with};
ghost use Rattle.hc_head.specs.Held.{field_in, fields_in};

use crate::fields::{has_name, is_name};
use hc_rules::Length;
use hc_text::{next_item, read_number};
use httparse::Header;

/// The codings of Transfer-Encoding so far (RFC 9112 section 6.1).
#[derive(Clone, Copy, Debug, PartialEq, Eq)]
enum Coding {
    /// None.
    Plain,
    /// `chunked` alone.
    Chunked,
    /// Another, or more.
    Other,
}

impl Coding {
    fn is_chunked(self) -> bool
        ensures { result ≡ is_coding self }
    {
        matches!(self, Coding::Chunked)
    }

    /// With one more element.
    fn with_element(self, element: &[u8]) -> Coding
        ensures { result ≡ with_coding self element.now }
    {
        match self {
            Coding::Plain if is_name(element, b"chunked") => Coding::Chunked,
            _ => Coding::Other,
        }
    }

    /// With the elements of one more list.
    fn with_list(self, text: &[u8]) -> Coding
        ensures { result ≡ with_codings self (elements text.now) }
    {
        let mut coding = self;
        let mut from = 0;
        while let Some(item) = next_item(text, from) {
            coding = coding.with_element(&text[item.start..item.end]);
            from = item.next;
        }
        coding
    }
}

/// With what one more field says.
fn coding_with(coding: Coding, header: &Header<'_>) -> Coding
    ensures { result ≡ coding_with coding (field_in header.now) }
{
    if has_name(header, b"transfer-encoding") {
        return coding.with_list(header.value);
    }
    coding
}

/// Whether Transfer-Encoding is `chunked` alone.
pub(crate) fn is_chunked(headers: &[Header<'_>]) -> bool
    ensures { result
        ≡ is_chunked (elements_in (codes "transfer-encoding") (fields_in headers.now)) }
{
    let mut coding = Coding::Plain;
    for header in headers {
        coding = coding_with(coding, header);
    }
    coding.is_chunked()
}

/// The number that the text is: 1 to 20 digits, below 2^62.
fn number_of(text: &[u8]) -> Option<u64>
    ensures { result ≡ number_of text.now }
{
    read_number(text)
}

/// With one more element.
fn with_element(length: Length, element: &[u8]) -> Length
    ensures { result ≡ with_element length element.now }
{
    match (length, number_of(element)) {
        (Length::Unknown, Some(n)) => Length::Promised(n),
        (Length::Promised(n), Some(m)) if n == m => length,
        _ => Length::Bad,
    }
}

/// With the elements of one more list.
fn with_list(length: Length, text: &[u8]) -> Length
    ensures { result ≡ with_elements length (elements text.now) }
{
    let mut length = length;
    let mut from = 0;
    while let Some(item) = next_item(text, from) {
        length = with_element(length, &text[item.start..item.end]);
        from = item.next;
    }
    length
}

/// With what one more field says.
fn length_with(length: Length, header: &Header<'_>) -> Length
    ensures { result ≡ length_with length (field_in header.now) }
{
    if has_name(header, b"content-length") {
        return with_list(length, header.value);
    }
    length
}

/// The number that all elements of all values of Content-Length are (RFC 9110 section 8.6).
pub(crate) fn content_length_of(headers: &[Header<'_>]) -> Length
    ensures { result
        ≡ content_length_of (elements_in (codes "content-length") (fields_in headers.now)) }
{
    let mut length = Length::Unknown;
    for header in headers {
        length = length_with(length, header);
    }
    length
}

//! The fields of a whole head, as they were read.
ghost use Rattle.std.specs.Prelude.{◌≡◌, ◌≤◌, ◌<◌, ◌+◌, ◌∷◌, [], true, codes, length, IfOk, OnOk, bytes_eq, All, IsTrue};
ghost use Rattle.std.specs.List.{list_any, list_all};
ghost use Rattle.std.specs.Option.{option_copied};
ghost use Rattle.http_header.specs.Token.{lowercase};
ghost use Rattle.hc_text.specs.Elements.{elements};
ghost use Rattle.hc_fields.specs.FieldList.{has_name, values_of, size_of};
ghost use Rattle.hc_fields.specs.FirstValues.{only_of};
ghost use Rattle.hc_head.specs.Rules.{is_there, is_within_limits, lists_name, is_option, is_hop_name, is_hop, is_left, is_kept, kept_of, put_all};
ghost use Rattle.hc_head.specs.Options.{names_other, lists_other, is_other, has_others};
ghost use Rattle.hc_head.specs.Held.{fields_in, field_in, IsGood, AreGood, with_field};

use hc_fields::{FieldError, Fields};
use hc_text::{NoMemory, next_item};
use httparse::Header;
use std::alloc::Global;

/// Fields that are not passed on, beside those that concern the connection alone.
#[derive(Clone, Copy, Debug, PartialEq, Eq)]
pub(crate) enum Leaving {
    Nothing,
    /// Content-Length, which a chunked body takes the place of.
    Length,
    /// Host and Content-Length of a request, which its key and its want of a body tell.
    Address,
}

/// A value has at most this many bytes.
const MOST_VALUE: usize = 8192;

/// Whether two names are the same (RFC 9110 section 5.1).
pub(crate) fn is_name(a: &[u8], b: &[u8]) -> bool
    ensures { result ≡ bytes_eq (lowercase a.now) (lowercase b.now) }
{
    a.eq_ignore_ascii_case(b)
}

/// Whether the field has this name.
pub(crate) fn has_name(header: &Header<'_>, name: &[u8]) -> bool
    ensures { result ≡ has_name (lowercase name.now) (field_in header.now) }
{
    is_name(header.name.as_bytes(), name)
}

/// Whether a field of this name is there.
pub(crate) fn is_there(headers: &[Header<'_>], name: &[u8]) -> bool
    ensures { result ≡ is_there (lowercase name.now) (fields_in headers.now) }
{
    for header in headers {
        if has_name(header, name) {
            return true;
        }
    }
    false
}

/// Whether no value has more than 8,192 bytes.
pub(crate) fn is_within_limits(headers: &[Header<'_>]) -> bool
    ensures { result ≡ is_within_limits (fields_in headers.now) }
{
    for header in headers {
        if header.value.len() > MOST_VALUE {
            return false;
        }
    }
    true
}

/// Whether an element of the list is this name.
fn lists_name(value: &[u8], name: &[u8]) -> bool
    ensures { result ≡ lists_name (lowercase name.now) value.now }
{
    let mut from = 0;
    while let Some(item) = next_item(value, from) {
        if is_name(&value[item.start..item.end], name) {
            return true;
        }
        from = item.next;
    }
    false
}

/// Whether the field is Connection, and names this one.
fn is_option(header: &Header<'_>, name: &[u8]) -> bool
    ensures { result ≡ is_option (lowercase name.now) (field_in header.now) }
{
    has_name(header, b"connection") && lists_name(header.value, name)
}

/// Whether a field of this name concerns the connection alone, whatever Connection names.
#[tactic(auto, using(crate::proofs::HopNames::other_length))]
fn is_hop_name(name: &[u8]) -> bool
    ensures { result ≡ is_hop_name (lowercase name.now) }
{
    match name.len() {
        2 => is_name(name, b"te"),
        7 => is_name(name, b"trailer") || is_name(name, b"upgrade"),
        10 => is_name(name, b"connection") || is_name(name, b"keep-alive"),
        16 => is_name(name, b"proxy-connection"),
        17 => is_name(name, b"transfer-encoding"),
        _ => false,
    }
}

/// Whether Connection names the field.
fn is_named(headers: &[Header<'_>], name: &[u8]) -> bool
    ensures { result ≡ list_any (is_option (lowercase name.now)) (fields_in headers.now) }
{
    for header in headers {
        if is_option(header, name) {
            return true;
        }
    }
    false
}

/// Whether the element names a field that is there and isn't left out anyway.
fn names_other(headers: &[Header<'_>], element: &[u8]) -> bool
    ensures { result ≡ names_other (fields_in headers.now) element.now }
{
    !is_hop_name(element) && is_there(headers, element)
}

/// Whether an element of the list does.
fn lists_other(headers: &[Header<'_>], value: &[u8]) -> bool
    ensures { result ≡ lists_other (fields_in headers.now) value.now }
{
    let mut from = 0;
    while let Some(item) = next_item(value, from) {
        if names_other(headers, &value[item.start..item.end]) {
            return true;
        }
        from = item.next;
    }
    false
}

/// Whether the field is Connection, and an element of it does.
fn is_other(headers: &[Header<'_>], header: &Header<'_>) -> bool
    ensures { result ≡ is_other (fields_in headers.now) (field_in header.now) }
{
    has_name(header, b"connection") && lists_other(headers, header.value)
}

/// Whether Connection names a field that is there and isn't left out anyway: few heads have that.
fn has_others(headers: &[Header<'_>]) -> bool
    ensures { result ≡ has_others (fields_in headers.now) }
{
    for header in headers {
        if is_other(headers, header) {
            return true;
        }
    }
    false
}

/// Whether a field of this name, which is there, concerns the connection alone (RFC 9110 section
/// 7.6.1).
#[tactic(auto, using(crate::proofs::Options::no_option))]
fn is_hop(headers: &[Header<'_>], others: bool, name: &[u8]) -> bool
    requires reported { others ≡ has_others (fields_in headers.now) }
    requires present { is_there (lowercase name.now) (fields_in headers.now) ≡ true }
    ensures { result ≡ is_hop (fields_in headers.now) (lowercase name.now) }
{
    is_hop_name(name) || (others && is_named(headers, name))
}

impl Leaving {
    /// Whether a field of this name is left out.
    fn leaves(self, name: &[u8]) -> bool
        ensures { result ≡ is_left self (lowercase name.now) }
    {
        match self {
            Leaving::Nothing => false,
            Leaving::Length => is_name(name, b"content-length"),
            Leaving::Address => is_name(name, b"host") || is_name(name, b"content-length"),
        }
    }
}

/// Whether the field, one of these, is passed on.
fn is_kept(leaving: Leaving, headers: &[Header<'_>], others: bool, header: &Header<'_>) -> bool
    requires reported { others ≡ has_others (fields_in headers.now) }
    requires present { is_there (lowercase header.now.name.now) (fields_in headers.now) ≡ true }
    ensures { result ≡ is_kept leaving (fields_in headers.now) (field_in header.now) }
{
    let name = header.name.as_bytes();
    !leaving.leaves(name) && !is_hop(headers, others, name)
}

/// The field is added to the fields.
fn add_field(fields: &mut Fields, header: &Header<'_>) -> Result<(), NoMemory>
    requires good { IsGood header.now }
    requires short { length header.now.value.now ≤ 8192 }
    requires few { length fields.old < 64 }
    requires small { size_of fields.old + size_of (field_in header.now ∷ []) ≤ 32768 }
    ensures value { OnOk result (fields.new ≡ put_all fields.old (field_in header.now ∷ [])) }
    ensures count { OnOk result (length fields.new ≡ length fields.old + 1) }
    ensures size { OnOk result (size_of fields.new
        ≡ size_of fields.old + size_of (field_in header.now ∷ [])) }
{
    match fields.append_checked(header.name.as_bytes(), header.value) {
        Ok(()) => Ok(()),
        Err(e) => match e {
            FieldError::NoMemory => Err(NoMemory),
            _ => unreachable!(),
        },
    }
}

/// The field is added where it is passed on.
fn pass_on(
    leaving: Leaving,
    headers: &[Header<'_>],
    others: bool,
    header: &Header<'_>,
    fields: &mut Fields,
) -> Result<(), NoMemory>
    requires reported { others ≡ has_others (fields_in headers.now) }
    requires present { is_there (lowercase header.now.name.now) (fields_in headers.now) ≡ true }
    requires good { IsGood header.now }
    requires short { length header.now.value.now ≤ 8192 }
    requires few { length fields.old < 64 }
    requires small { size_of fields.old + size_of (field_in header.now ∷ []) ≤ 32768 }
    ensures value { OnOk result (fields.new
        ≡ with_field leaving (fields_in headers.now) fields.old (field_in header.now)) }
    ensures count { OnOk result (length fields.new ≤ length fields.old + 1) }
    ensures size { OnOk result (size_of fields.new
        ≤ size_of fields.old + size_of (field_in header.now ∷ [])) }
{
    if is_kept(leaving, headers, others, header) {
        return add_field(fields, header);
    }
    Ok(())
}

/// The fields that are passed on, sorted, of a head of so many bytes.
pub(crate) fn kept_of(
    alloc: Global,
    leaving: Leaving,
    headers: &[Header<'_>],
    bytes: usize,
) -> Result<Fields, NoMemory>
    requires good { AreGood headers.now }
    requires within_limits { is_within_limits (fields_in headers.now) ≡ true }
    requires few { length headers.now ≤ 64 }
    requires small { size_of (fields_in headers.now) ≤ 32768 }
    ensures { IfOk result (λ fields. fields ≡ kept_of leaving (fields_in headers.now)) }
{
    let mut fields = Fields::with_room(alloc, headers.len(), bytes)?;
    let others = has_others(headers);
    for header in headers {
        pass_on(leaving, headers, others, header, &mut fields)?;
    }
    Ok(fields)
}

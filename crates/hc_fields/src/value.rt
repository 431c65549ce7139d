//! Which values a field may have.
ghost use Rattle.std.specs.Prelude.{◌≡◌};
ghost use Rattle.std.specs.List.{list_all};
ghost use Rattle.http_header.specs.Token.{is_value_byte};
ghost use Rattle.hc_fields.specs.FieldList.{is_own_value, has_own_ends};

use hc_text::is_blank;

/// Whether the byte is no control byte but a tab.
pub(crate) fn is_value_char(b: u8) -> bool
    ensures { result ≡ is_value_byte b }
{
    b == b'\t' || (b >= b' ' && b != 0x7f)
}

/// Whether no byte but a tab is a control byte.
// Bytes are tested 16 or 8 at a time. Those at the end are tested as such a group too, which may have bytes of the
// group before it, so that only the bytes of a short value are tested one by one.
pub(crate) fn has_value_chars(value: &[u8]) -> bool
    ensures { result ≡ list_all is_value_byte value.now }
{
    if value.len() < 8 {
        return are_value_chars(value);
    }
    if value.len() < 16 {
        let last = value.len() - 8;
        return are_value_chars(&value[last..]) & are_value_chars(&value[..8]);
    }
    let last = value.len() - 16;
    let mut valid = are_value_chars(&value[last..]);
    let mut at = 0;
    while at < last {
        valid &= are_value_chars(&value[at..at + 16]);
        at += 16;
    }
    valid
}

/// Whether none of these bytes but a tab is a control byte.
// The loop has no early exit, so that it is compiled to vector code where the number of bytes is known.
#[inline(always)]
fn are_value_chars(bytes: &[u8]) -> bool
    ensures { result ≡ list_all is_value_byte bytes.now }
{
    let mut valid = true;
    for b in bytes {
        valid &= is_value_char(*b);
    }
    valid
}

/// Whether no space or tab stands at an end.
pub(crate) fn has_own_ends(value: &[u8]) -> bool
    ensures { result ≡ has_own_ends value.now }
{
    if value.is_empty() {
        return true;
    }
    !(is_blank(value[0]) || is_blank(value[value.len() - 1]))
}

/// Whether no byte but a tab is a control byte, and no space or tab stands at an end.
pub(crate) fn is_own_value(value: &[u8]) -> bool
    ensures { result ≡ is_own_value value.now }
{
    has_value_chars(value) && has_own_ends(value)
}

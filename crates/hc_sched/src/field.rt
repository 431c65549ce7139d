//! The field lines of an item.
ghost use Rattle.std.specs.Prelude.{◌≡◌, ◌+◌, length, true, IfSome, option_map};
ghost use Rattle.std.specs.List.{list_all};
ghost use Rattle.http_header.specs.Token.{is_value_byte};
ghost use Rattle.hc_fields.specs.FieldList.{is_own_value, has_own_ends};
ghost use Rattle.hc_fields.specs.Lines.{is_lower_byte};
ghost use Rattle.hc_sched.specs.FieldLines.{field_parts, is_lower_token, keeps_order, has_room, may_follow, field_of};

use hc_fields::Fields;
use hc_text::{cut, is_blank};
use http_header::is_token_char;

/// The value of a field has at most this many bytes.
const MOST_VALUE: usize = 8192;

/// The names and the values of an item have at most this many bytes.
const MOST_SIZE: usize = 32_768;

/// The name and the value of a line `NAME: VALUE`.
#[tactic(auto, unfolding(hc_text::specs::Texts::behind, crate::specs::FieldLines::field_parts))]
fn named(line: &[u8]) -> Option<(&[u8], &[u8])>
    ensures value { option_map (λ field. (field.0.now, field.1.now)) result ≡ field_parts line.now }
    ensures len { IfSome result
        (λ field. length field.0.now + length field.1.now + 2 ≡ length line.now) }
{
    let (name, rest) = cut(line, b':')?;
    let value = rest.strip_prefix(b" ")?;
    Some((name, value))
}

/// Whether the byte may stand in a name in lower case.
fn is_lower_char(b: u8) -> bool
    ensures { result ≡ is_lower_byte b }
{
    is_token_char(b) && !b.is_ascii_uppercase()
}

fn has_lower_chars(name: &[u8]) -> bool
    ensures { result ≡ list_all is_lower_byte name.now }
{
    name.iter().all(|b| is_lower_char(*b))
}

/// Whether the text is a token in lower case (RFC 9110 section 5.6.2).
#[tactic(auto, unfolding(crate::specs::FieldLines::is_lower_token))]
fn is_lower_token(name: &[u8]) -> bool
    ensures { result ≡ is_lower_token name.now }
{
    1 <= name.len() && has_lower_chars(name)
}

/// Whether the byte is no control byte but a tab.
fn is_value_char(b: u8) -> bool
    ensures { result ≡ is_value_byte b }
{
    b == b'\t' || (b >= b' ' && b != 0x7f)
}

fn has_value_chars(value: &[u8]) -> bool
    ensures { result ≡ list_all is_value_byte value.now }
{
    value.iter().all(|b| is_value_char(*b))
}

/// Whether no space or tab stands at an end.
fn has_own_ends(value: &[u8]) -> bool
    ensures { result ≡ has_own_ends value.now }
{
    if value.is_empty() {
        return true;
    }
    !(is_blank(value[0]) || is_blank(value[value.len() - 1]))
}

/// Whether no byte but a tab is a control byte, and no space or tab stands at an end (RFC 9110
/// section 5.5).
fn is_own_value(value: &[u8]) -> bool
    ensures { result ≡ is_own_value value.now }
{
    has_value_chars(value) && has_own_ends(value)
}

/// Whether the name comes before none of these.
fn keeps_order(fields: &Fields, name: &[u8]) -> bool
    ensures { result ≡ keeps_order fields.now name.now }
{
    let len = fields.len();
    if len == 0 {
        return true;
    }
    let (last, _) = fields.at(len - 1);
    !name.cmp(last).is_lt()
}

/// Whether a value has at most 8,192 bytes, and all names and values have at most 32,768 with it.
#[tactic(auto, unfolding(crate::specs::FieldLines::has_room))]
fn has_room(fields: &Fields, name: &[u8], value: &[u8]) -> bool
    ensures { result ≡ has_room fields.now (name.now, value.now) }
{
    value.len() <= MOST_VALUE
        && name.len() <= MOST_SIZE
        && fields.size() + name.len() + value.len() <= MOST_SIZE
}

/// Whether the field may stand behind these in an item.
#[tactic(auto, unfolding(crate::specs::FieldLines::may_follow))]
fn may_follow(fields: &Fields, name: &[u8], value: &[u8]) -> bool
    ensures { result ≡ may_follow fields.now (name.now, value.now) }
{
    is_lower_token(name)
        && is_own_value(value)
        && has_room(fields, name, value)
        && keeps_order(fields, name)
}

/// The name and the value of a line behind these fields, or None where it can't stand there.
#[tactic(auto, unfolding(crate::specs::FieldLines::field_of))]
pub(crate) fn read_field<'a>(fields: &Fields, line: &'a [u8]) -> Option<(&'a [u8], &'a [u8])>
    ensures value { option_map (λ field. (field.0.now, field.1.now)) result
        ≡ field_of fields.now line.now }
    ensures follows { IfSome result
        (λ field. may_follow fields.now (field.0.now, field.1.now) ≡ true) }
    ensures len { IfSome result
        (λ field. length field.0.now + length field.1.now + 2 ≡ length line.now) }
{
    let (name, value) = named(line)?;
    if may_follow(fields, name, value) {
        Some((name, value))
    } else {
        None
    }
}

//! Field lines at the front of a text.
ghost use Rattle.std.specs.Prelude.{◌≡◌, ◌≢◌, ◌↔◌, ℕ, List, [], ◌∷◌, ◌++◌, ◌+◌, ◌≤◌, Bool, true, not, length, take, drop, IsTrue, IfOk, IfSome, IfNone, position, ◌==◌, vec_len};
ghost use Rattle.std.specs.List.{list_all};
ghost use Rattle.http_header.specs.Token.{is_value_byte};
ghost use Rattle.hc_fields.specs.FieldList.{IsField, IsFieldList, IsListOf, comes_before, size_of};
ghost use Rattle.hc_fields.specs.Lines.{field_text, fields_text, is_lower_byte, BeginsWith, IsCut};
ghost use Rattle.hc_fields.specs.Marks.{fields_at, field_at, IsLineAt, AreMarked};
ghost use Rattle.hc_fields.specs.Read.{IsRead};

use crate::mark::Mark;
use crate::value::{has_own_ends, has_value_chars};
use hc_text::NoMemory;
use memchr::memchr;

// 1 at each byte that may stand in a name in lower case.
#[rattlefmt::skip]
static LOWER_CHARS: [u8; 256] = [
    0, 0, 0, 0, 0, 0, 0, 0, 0, 0, 0, 0, 0, 0, 0, 0,
    0, 0, 0, 0, 0, 0, 0, 0, 0, 0, 0, 0, 0, 0, 0, 0,
    0, 1, 0, 1, 1, 1, 1, 1, 0, 0, 1, 1, 0, 1, 1, 0,
    1, 1, 1, 1, 1, 1, 1, 1, 1, 1, 0, 0, 0, 0, 0, 0,
    0, 0, 0, 0, 0, 0, 0, 0, 0, 0, 0, 0, 0, 0, 0, 0,
    0, 0, 0, 0, 0, 0, 0, 0, 0, 0, 0, 0, 0, 0, 1, 1,
    1, 1, 1, 1, 1, 1, 1, 1, 1, 1, 1, 1, 1, 1, 1, 1,
    1, 1, 1, 1, 1, 1, 1, 1, 1, 1, 1, 0, 1, 0, 1, 0,
    0, 0, 0, 0, 0, 0, 0, 0, 0, 0, 0, 0, 0, 0, 0, 0,
    0, 0, 0, 0, 0, 0, 0, 0, 0, 0, 0, 0, 0, 0, 0, 0,
    0, 0, 0, 0, 0, 0, 0, 0, 0, 0, 0, 0, 0, 0, 0, 0,
    0, 0, 0, 0, 0, 0, 0, 0, 0, 0, 0, 0, 0, 0, 0, 0,
    0, 0, 0, 0, 0, 0, 0, 0, 0, 0, 0, 0, 0, 0, 0, 0,
    0, 0, 0, 0, 0, 0, 0, 0, 0, 0, 0, 0, 0, 0, 0, 0,
    0, 0, 0, 0, 0, 0, 0, 0, 0, 0, 0, 0, 0, 0, 0, 0,
    0, 0, 0, 0, 0, 0, 0, 0, 0, 0, 0, 0, 0, 0, 0, 0,
];

/// Whether the byte may stand in a name in lower case.
#[inline(always)]
fn is_lower_char(b: u8) -> bool
    ensures { result ≡ is_lower_byte b }
{
    LOWER_CHARS[usize::from(b)] == 1
}

/// How many bytes stand before the first that no name in lower case has.
// By itself the loop takes half as many instructions a byte as where it is inlined.
#[inline(never)]
fn name_len(text: &[u8]) -> Option<usize>
    ensures { result ≡ position (λ b. not (is_lower_byte b)) text.now }
{
    for (i, b) in text.iter().enumerate() {
        if !is_lower_char(*b) {
            return Some(i);
        }
    }
    None
}

/// Where the first line feed stands.
fn feed_place(text: &[u8]) -> Option<usize>
    ensures { result ≡ position (λ b. b == 10) text.now }
{
    memchr(b'\n', text)
}

/// Takes the bytes of a name in lower case, a colon and a space from the front of the text.
fn take_name(text: &[u8]) -> Option<(&[u8], &[u8])>
    ensures found { IfSome result (λ cut. (list_all is_lower_byte cut.0.now ≡ true)
        × (cut.0.now ++ 58 ∷ 32 ∷ cut.1.now ≡ text.now)) }
    ensures none { IfNone result ((name rest : List ℕ)
        → list_all is_lower_byte name ≡ true → name ++ 58 ∷ 32 ∷ rest ≢ text.now) }
{
    let end = name_len(text)?;
    let (name, rest) = text.split_at(end);
    let rest = rest.strip_prefix(b": ")?;
    Some((name, rest))
}

/// Takes the bytes of a value and a line feed from the front of the text.
fn take_value(text: &[u8]) -> Option<(&[u8], &[u8])>
    ensures found { IfSome result (λ cut. (list_all is_value_byte cut.0.now ≡ true)
        × (cut.0.now ++ 10 ∷ cut.1.now ≡ text.now)) }
    ensures none { IfNone result ((value rest : List ℕ)
        → list_all is_value_byte value ≡ true → value ++ 10 ∷ rest ≢ text.now) }
{
    let end = feed_place(text)?;
    let value = &text[..end];
    if !has_value_chars(value) {
        return None;
    }
    Some((value, &text[end + 1..]))
}

/// The bytes of a name in lower case and, behind a colon and a space, those of a value, which a line
/// feed ends, at the front of the text.
fn cut_line(text: &[u8]) -> Option<(&[u8], &[u8])>
    ensures found { IfSome result (λ line. IsCut (line.0.now, line.1.now)
        × BeginsWith (field_text (line.0.now, line.1.now)) text.now) }
    ensures none { IfNone result ((f : List ℕ × List ℕ) (after : List ℕ)
        → IsCut f → field_text f ++ after ≢ text.now) }
{
    let (name, rest) = take_name(text)?;
    let (value, _) = take_value(rest)?;
    Some((name, value))
}

/// The name and the value of the field line that the text begins with.
pub(crate) fn read_line(text: &[u8]) -> Option<(&[u8], &[u8])>
    ensures found { IfSome result (λ line. IsField (line.0.now, line.1.now)
        × BeginsWith (field_text (line.0.now, line.1.now)) text.now) }
    ensures none { IfNone result ((f : List ℕ × List ℕ) (after : List ℕ)
        → IsField f → field_text f ++ after ≢ text.now) }
{
    let (name, value) = cut_line(text)?;
    if name.is_empty() || value.len() > 8192 || !has_own_ends(value) {
        return None;
    }
    Some((name, value))
}

/// How many bytes were read, and how many of them are bytes of names and values.
#[derive(Clone, Copy)]
pub(crate) struct Read {
    pub(crate) len: usize,
    pub(crate) size: usize,
}

/// Whether no field at the marks has a name that comes after this one.
fn is_last(text: &[u8], marks: &[Mark], name: &[u8]) -> bool
    requires { AreMarked text.now marks.now }
    ensures { result
        ≡ list_all (λ (f : List ℕ × List ℕ). not (comes_before name.now f.0))
        (fields_at text.now marks.now) }
{
    match marks {
        [] => true,
        [.., last] => !name.cmp(last.name(text)).is_lt(),
    }
}

/// Reads a line behind those that were read, and adds its mark. None exactly where no line follows
/// that makes a list with them.
fn read_next(text: &[u8], read: Read, marks: &mut Vec<Mark>) -> Result<Option<Read>, NoMemory>
    requires { IsRead text.now marks.old.items read }
    ensures found { IfOk result (λ next. IfSome next (λ next.
        IsRead text.now marks.new.items next × (vec_len marks.new ≡ vec_len marks.old + 1))) }
    ensures none { IfOk result (λ next. IfNone next ((f : List ℕ × List ℕ) (after : List ℕ)
        → IsFieldList (fields_at (take read.len text.now) marks.old.items ++ f ∷ [])
        → field_text f ++ after ≢ drop read.len text.now)) }
{
    let Some((name, value)) = read_line(&text[read.len..]) else {
        return Ok(None);
    };
    let size = read.size + name.len() + value.len();
    if marks.len() >= 80 || size > 49152 || !is_last(text, marks, name) {
        return Ok(None);
    }
    let mark = Mark::new(read.len, name.len(), value.len());
    marks.push(mark)?;
    Ok(Some(Read {
        len: mark.end + 1,
        size,
    }))
}

/// Reads so many lines from the front of the text, and adds their marks.
pub(crate) fn read_marks(
    text: &[u8],
    count: usize,
    marks: &mut Vec<Mark>,
) -> Result<Option<Read>, NoMemory>
    requires few { count ≤ 80 }
    requires none { marks.old.items ≡ [] }
    ensures found { IfOk result (λ read. IfSome read (λ read.
        IsRead text.now marks.new.items read × (vec_len marks.new ≡ count))) }
    ensures none { IfOk result (λ read. IfNone read
        ((fs : List (List ℕ × List ℕ)) (after : List ℕ)
        → IsListOf count fs → fields_text fs ++ after ≢ text.now)) }
{
    let mut read = Read { len: 0, size: 0 };
    for taken in 0..count {
        let Some(next) = read_next(text, read, marks)? else {
            return Ok(None);
        };
        read = next;
    }
    Ok(Some(read))
}

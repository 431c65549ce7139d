//! Lines of fields in a text.
ghost use Rattle.std.specs.Prelude.{◌≡◌, ◌+◌, ◌<◌, ◌≤◌, ◌∷◌, ◌++◌, length, OnOk, OnErr, IfOk, All, vec_len, vec_capacity, take, drop};
ghost use Rattle.std.specs.List.{remove_range};
ghost use Rattle.http_header.specs.Token.{lowercase};
ghost use Rattle.hc_fields.specs.Lines.{field_text, fields_text};
ghost use Rattle.hc_fields.specs.Marks.{fields_at, mark_of, IsLineAt, IsPacked};

use crate::mark::Mark;
use hc_text::NoMemory;
use std::alloc::Global;

/// How much room to ask for where so much is needed: a list that has none takes that of a usual head
/// at once, so that it seldom has to grow.
fn room(capacity: usize, needed: usize, usual: usize) -> usize
    ensures { needed ≤ result }
{
    if capacity == 0 {
        needed.max(usual)
    } else {
        needed
    }
}

/// Appends the line of a field, its name in lower case, or changes nothing.
fn push_line(text: &mut Vec<u8>, name: &[u8], value: &[u8]) -> Result<Mark, NoMemory>
    requires short_name { length name.now ≤ 49152 }
    requires short_value { length value.now ≤ 49152 }
    ensures ok { OnOk result
        (text.new.items ≡ text.old.items ++ field_text (lowercase name.now, value.now)) }
    ensures mark { IfOk result
        (λ mark. mark ≡ mark_of (vec_len text.old) (length name.now) (length value.now)) }
    ensures err { OnErr result (text.new.items ≡ text.old.items) }
{
    let start = text.len();
    text.reserve(room(text.capacity(), name.len() + value.len() + 3, 512))?;
    text.extend_from_slice(name).unwrap();
    text[start..].make_ascii_lowercase();
    text.extend_from_slice(b": ").unwrap();
    text.extend_from_slice(value).unwrap();
    text.push(b'\n').unwrap();
    Ok(Mark::new(start, name.len(), value.len()))
}

/// Puts the mark in the place of those from `start` up to `end`.
fn put_mark(marks: &mut Vec<Mark>, start: usize, end: usize, mark: Mark)
    requires order { start ≤ end }
    requires within { end ≤ vec_len marks.old }
    requires room { vec_len marks.old < vec_capacity marks.old }
    ensures { marks.new.items ≡ take start marks.old.items ++ mark ∷ drop end marks.old.items }
{
    if start == end {
        marks.insert(start, mark).unwrap();
        return;
    }
    marks[start] = mark;
    take_out(marks, start + 1, end);
}

/// Puts a field in the place of those from `start` up to `end`, or changes nothing. Its line comes
/// last in the text.
pub(crate) fn put_line(
    text: &mut Vec<u8>,
    marks: &mut Vec<Mark>,
    start: usize,
    end: usize,
    name: &[u8],
    value: &[u8],
) -> Result<(), NoMemory>
    requires order { start ≤ end }
    requires within { end ≤ vec_len marks.old }
    requires short_name { length name.now ≤ 49152 }
    requires short_value { length value.now ≤ 49152 }
    ensures text { OnOk result
        (text.new.items ≡ text.old.items ++ field_text (lowercase name.now, value.now)) }
    ensures marks { OnOk result (marks.new.items ≡ take start marks.old.items
        ++ mark_of (vec_len text.old) (length name.now) (length value.now)
        ∷ drop end marks.old.items) }
    ensures text_stays { OnErr result (text.new.items ≡ text.old.items) }
    ensures marks_stay { OnErr result (marks.new.items ≡ marks.old.items) }
{
    marks.reserve(room(marks.capacity(), 1, 16))?;
    let mark = push_line(text, name, value)?;
    put_mark(marks, start, end, mark);
    Ok(())
}

/// Appends the lines at the marks, or a part of them.
pub(crate) fn write_each(text: &[u8], marks: &[Mark], to: &mut Vec<u8>) -> Result<(), NoMemory>
    requires { All (IsLineAt text.now) marks.now }
    ensures ok { OnOk result
        (to.new.items ≡ to.old.items ++ fields_text (fields_at text.now marks.now)) }
    ensures err { OnErr result (take (vec_len to.old) to.new.items ≡ to.old.items) }
{
    for mark in marks {
        to.extend_from_slice(mark.line(text))?;
    }
    Ok(())
}

/// The text of the lines at the marks, in order, with their marks in it.
pub(crate) fn pack(
    alloc: Global,
    text: &[u8],
    marks: &[Mark],
) -> Result<(Vec<u8>, Vec<Mark>), NoMemory>
    requires { All (IsLineAt text.now) marks.now }
    ensures { IfOk result (λ packed. IsPacked text.now marks.now packed.0.items packed.1.items) }
{
    let mut lines = Vec::new(alloc);
    let mut places = Vec::with_capacity(alloc, marks.len())?;
    for mark in marks {
        let start = lines.len();
        lines.extend_from_slice(mark.line(text))?;
        places.push(Mark::new(start, mark.name(text).len(), mark.value(text).len()))?;
    }
    Ok((lines, places))
}

/// Takes out the marks from `start` up to `end`.
pub(crate) fn take_out(marks: &mut Vec<Mark>, start: usize, end: usize)
    requires order { start ≤ end }
    requires within { end ≤ vec_len marks.old }
    ensures { marks.new.items ≡ remove_range marks.old.items start end }
{
    marks.drain(start..end);
}

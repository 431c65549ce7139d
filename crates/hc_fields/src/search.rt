//! Where the fields of a name stand in a list sorted by name, by binary search.
ghost use Rattle.std.specs.Prelude.{◌≡◌, ◌≤◌, ◌<◌, length, filter, All, bytes_eq};
ghost use Rattle.std.specs.List.{position_or_len};
ghost use Rattle.std.specs.Bool.{OnTrue, OnFalse};
ghost use Rattle.std.specs.Ordering.{nat_cmp};
ghost use Rattle.std.specs.Cmp.Lexicographic.{slice_cmp};
ghost use Rattle.http_header.specs.Token.{lowercase};
ghost use Rattle.hc_fields.specs.FieldList.{comes_before, start_of, end_of, has_name, size_of};
ghost use Rattle.hc_fields.specs.Marks.{field_at, fields_at, AreMarked, IsLineAt};
ghost use Rattle.hc_fields.specs.Place.{IsPlace};

use crate::mark::Mark;
use std::cmp::Ordering;

/// How a name, once lowered, compares with bytes.
// A loop over places, since one over iterators takes twice as many instructions a byte.
fn compare_lowered(name: &[u8], bytes: &[u8]) -> Ordering
    ensures { result ≡ slice_cmp nat_cmp (lowercase name.now) bytes.now }
{
    for i in 0..name.len().min(bytes.len()) {
        let found = name[i].to_ascii_lowercase().cmp(&bytes[i]);
        if found.is_ne() {
            return found;
        }
    }
    name.len().cmp(&bytes.len())
}

/// How a name, once lowered, compares with that at the mark.
fn compare_at(text: &[u8], mark: Mark, name: &[u8]) -> Ordering
    requires { IsLineAt text.now mark }
    ensures { result ≡ slice_cmp nat_cmp (lowercase name.now) (field_at text.now mark).0 }
{
    compare_lowered(name, mark.name(text))
}

/// Whether the name at the mark comes after this one.
fn is_after(text: &[u8], mark: Mark, name: &[u8]) -> bool
    requires { IsLineAt text.now mark }
    ensures { result ≡ comes_before (lowercase name.now) (field_at text.now mark).0 }
{
    compare_at(text, mark, name).is_lt()
}

/// Where the fields of a name begin, past all whose names come before it, and whether there is one.
/// Where there is none, they end there too.
fn start_place(text: &[u8], marks: &[Mark], name: &[u8]) -> (usize, bool)
    requires { AreMarked text.now marks.now }
    ensures place { result.0 ≡ start_of (lowercase name.now) (fields_at text.now marks.now) }
    ensures absent { OnFalse result.1
        (result.0 ≡ end_of (lowercase name.now) (fields_at text.now marks.now)) }
    ensures present { OnTrue result.1
        (result.0 < end_of (lowercase name.now) (fields_at text.now marks.now)) }
    ensures within { result.0 ≤ length marks.now }
{
    let mut low = 0;
    let mut high = marks.len();
    let mut found = false;
    while low < high {
        let middle = low + (high - low) / 2;
        let order = compare_at(text, marks[middle], name);
        if order.is_gt() {
            low = middle + 1;
        } else {
            high = middle;
            found = order.is_eq();
        }
    }
    (low, found)
}

/// Where the fields of a name end: before all whose names come after it.
pub(crate) fn end_place(text: &[u8], marks: &[Mark], name: &[u8]) -> usize
    requires { AreMarked text.now marks.now }
    ensures place { result ≡ end_of (lowercase name.now) (fields_at text.now marks.now) }
    ensures within { result ≤ length marks.now }
{
    let mut low = 0;
    let mut high = marks.len();
    while low < high {
        let middle = low + (high - low) / 2;
        if is_after(text, marks[middle], name) {
            high = middle;
        } else {
            low = middle + 1;
        }
    }
    low
}

/// Whether a name, once lowered, is these bytes.
// The lengths are compared first, since most names of a head have another one.
fn is_lowered(name: &[u8], bytes: &[u8]) -> bool
    ensures { result ≡ bytes_eq bytes.now (lowercase name.now) }
{
    if name.len() != bytes.len() {
        return false;
    }
    for i in 0..name.len() {
        if name[i].to_ascii_lowercase() != bytes[i] {
            return false;
        }
    }
    true
}

/// Whether the field at the mark has this name, in any case of it.
fn is_named(text: &[u8], mark: Mark, name: &[u8]) -> bool
    requires { IsLineAt text.now mark }
    ensures { result ≡ has_name (lowercase name.now) (field_at text.now mark) }
{
    is_lowered(name, mark.name(text))
}

/// Where the first field of a name stands, or past all fields.
// They are walked, since names of other lengths cost little, and a head has few fields.
fn first_named(text: &[u8], marks: &[Mark], name: &[u8]) -> usize
    requires { All (IsLineAt text.now) marks.now }
    ensures place { result ≡ position_or_len (has_name (lowercase name.now))
        (fields_at text.now marks.now) }
    ensures within { result ≤ length marks.now }
{
    for start in 0..marks.len() {
        if is_named(text, marks[start], name) {
            return start;
        }
    }
    marks.len()
}

/// Where the fields of a name end, of which one stands just before `start`.
// They are walked, since mostly a name has one field.
fn end_from(text: &[u8], marks: &[Mark], name: &[u8], start: usize) -> usize
    requires marks { AreMarked text.now marks.now }
    requires behind { start_of (lowercase name.now) (fields_at text.now marks.now) < start }
    requires start { start ≤ end_of (lowercase name.now) (fields_at text.now marks.now) }
    ensures place { result ≡ end_of (lowercase name.now) (fields_at text.now marks.now) }
    ensures order { start ≤ result }
    ensures within { result ≤ length marks.now }
{
    for end in start..marks.len() {
        if !is_named(text, marks[end], name) {
            return end;
        }
    }
    marks.len()
}

/// Where the fields of a name begin and end.
fn places(text: &[u8], marks: &[Mark], name: &[u8]) -> (usize, usize)
    requires { AreMarked text.now marks.now }
    ensures start { result.0 ≡ start_of (lowercase name.now) (fields_at text.now marks.now) }
    ensures end { result.1 ≡ end_of (lowercase name.now) (fields_at text.now marks.now) }
    ensures order { result.0 ≤ result.1 }
    ensures within { result.1 ≤ length marks.now }
{
    let (start, found) = start_place(text, marks, name);
    if !found {
        return (start, start);
    }
    (start, end_from(text, marks, name, start + 1))
}

/// The marks of the fields of a name, in any case of it.
pub(crate) fn named<'a>(text: &[u8], marks: &'a [Mark], name: &[u8]) -> &'a [Mark]
    requires { AreMarked text.now marks.now }
    ensures fields { fields_at text.now result.now
        ≡ filter (has_name (lowercase name.now)) (fields_at text.now marks.now) }
    ensures lines { All (IsLineAt text.now) result.now }
{
    let start = first_named(text, marks, name);
    if start == marks.len() {
        return &marks[start..];
    }
    &marks[start..end_from(text, marks, name, start + 1)]
}

/// How many bytes the names and values of these fields have.
fn bytes_of(text: &[u8], marks: &[Mark]) -> usize
    requires lines { All (IsLineAt text.now) marks.now }
    requires small { size_of (fields_at text.now marks.now) ≤ 49152 }
    ensures { result ≡ size_of (fields_at text.now marks.now) }
{
    let mut total = 0;
    for mark in marks {
        total += mark.name(text).len() + mark.value(text).len();
    }
    total
}

/// Where the fields of a name begin, how many they are, and how many bytes they have.
#[derive(Clone, Copy)]
pub(crate) struct Place {
    pub(crate) start: usize,
    pub(crate) count: usize,
    pub(crate) size: usize,
}

/// The place of a name, in any case of it.
pub(crate) fn place_of(text: &[u8], marks: &[Mark], name: &[u8]) -> Place
    requires { AreMarked text.now marks.now }
    ensures { IsPlace (lowercase name.now) (fields_at text.now marks.now) result }
{
    let (start, end) = places(text, marks, name);
    Place {
        start,
        count: end - start,
        size: bytes_of(text, &marks[start..end]),
    }
}

//! The fields of a head.
ghost use Rattle.std.specs.Prelude.{◌≡◌, ◌≢◌, ℕ, List, ◌≤◌, ◌⊎◌, ◌∷◌, ◌++◌, [], length, true, OnOk, OnErr, IfOk, IfErr, IfSome, IfNone, MatchResult, MatchOption, ◌<◌, ◌↔◌, IsTrue, option_copied, slice_get, Some};
ghost use Rattle.http_header.specs.Token.{lowercase, IsToken};
ghost use Rattle.hc_fields.specs.FirstValues.{only_of};
ghost use Rattle.hc_fields.specs.FieldList.{field_list_with, size_of, HasPlace, LacksPlace, Refuses, IsAllowed, IsFieldList, IsWithinLimits, values_of, joined_of, without, KeepsOthers, is_own_value, is_sorted, IsListOf};
ghost use Rattle.hc_fields.specs.Lines.{fields_text, BeginsWith};
ghost use Rattle.hc_fields.specs.Place.{IsPlace};

use crate::error::FieldError;
use crate::joining::join;
use crate::lines::{pack, put_line, take_out, write_each};
use crate::list::FieldList;
use crate::mark::Mark;
use crate::reading::read_marks;
use crate::search::{Place, end_place, named, place_of};
use crate::value::is_own_value;
use hc_text::{Bytes, NoMemory, Value, is_token};
use std::alloc::Global;
use std::marker::Model;

/// Fields sorted by the bytes of their lower-case names, values of one name in order of arrival.
///
/// There are at most 80, a value has at most 8,192 bytes, and all names and values have at most
/// 49,152. A contract sees them as the list of their names and values.
///
/// Their lines stand in one text, and a mark tells where each of them stands. The marks are sorted;
/// the text has the lines in order of arrival, and still has those of fields that went.
#[derive(Drop)]
pub struct Fields {
    text: Vec<u8>,
    marks: Vec<Mark>,
    /// How many bytes all names and values have.
    size: usize,
    /// Whether the text has just the lines of the marks, in their order. It may be false of such a
    /// text too.
    in_order: bool,
}

impl Model for Fields {
    ghost use Rattle.std.specs.Prelude.{ℕ, List};

    ghost Value = { List (List ℕ × List ℕ) };

    ghost use Rattle.hc_fields.specs.Marks.{fields_at, IsKept};

    ghost view = { λ f. fields_at f.text.items f.marks.items };

    ghost invariant = { λ f. IsKept f.text.items f.marks.items f.size f.in_order };
}

/// A copy of some fields has room for two more, as the age and the length of an answer that is shown.
const MORE_FIELDS: usize = 2;

/// It has room for so many bytes more.
const MORE_BYTES: usize = 64;

/// Why a field that is a token and a value is refused beside `count` fields of `size` bytes.
fn excess(count: usize, size: usize, name: &[u8], value: &[u8]) -> Option<FieldError>
    requires within { size ≤ 49152 }
    requires is_name { IsToken name.now }
    requires is_value { is_own_value value.now ≡ true }
    ensures { MatchOption result (HasPlace count size name.now value.now)
        (λ e. LacksPlace e count size name.now value.now) }
{
    if count >= 80 {
        return Some(FieldError::TooMany);
    }
    if value.len() > 8192 {
        return Some(FieldError::TooLong);
    }
    if name.len() > 49152 - size || value.len() > 49152 - size - name.len() {
        return Some(FieldError::TooLong);
    }
    None
}

impl Fields {
    /// No field.
    pub fn new(alloc: Global) -> Result<Fields, NoMemory>
        ensures { result ≡ Ok [] }
    {
        Ok(Fields {
            text: Vec::new(alloc),
            marks: Vec::new(alloc),
            size: 0,
            in_order: true,
        })
    }

    /// No field, with memory for `count` fields whose names and values have `bytes` bytes. More than
    /// a list may have is not taken.
    pub fn with_room(alloc: Global, count: usize, bytes: usize) -> Result<Fields, NoMemory>
        ensures { IfOk result (λ fields. fields ≡ []) }
    {
        let count = count.min(80);
        let text = Vec::with_capacity(alloc, bytes.min(49152) + 3 * count)?;
        let marks = Vec::with_capacity(alloc, count)?;
        Ok(Fields {
            text,
            marks,
            size: 0,
            in_order: true,
        })
    }

    /// The list of the `count` field lines that the text begins with, and how many bytes they have.
    /// None exactly where it does not begin with so many that make a list: a line is as `write_lines`
    /// writes it, its name in lower case, and no name comes before an earlier one.
    ///
    /// Each byte is tested once. Memory is asked for before, so want of memory may be told before a
    /// fault in a line.
    pub fn read_lines(
        alloc: Global,
        text: &[u8],
        count: u64,
    ) -> Result<Option<(Fields, usize)>, NoMemory>
        ensures found { IfOk result (λ read. IfSome read (λ lines.
            IsListOf count lines.0 × BeginsWith (fields_text lines.0) text.now
            × (lines.1 ≡ length (fields_text lines.0)))) }
        ensures none { IfOk result (λ read. IfNone read
            ((fs : List (List ℕ × List ℕ)) (after : List ℕ)
            → IsListOf count fs → fields_text fs ++ after ≢ text.now)) }
        ensures err { OnErr result (count ≤ 80) }
    {
        if count > 80 {
            return Ok(None);
        }
        let mut marks = Vec::with_capacity(alloc, count as usize)?;
        let Some(read) = read_marks(text, count as usize, &mut marks)? else {
            return Ok(None);
        };
        let lines = Vec::from_slice(alloc, &text[..read.len])?;
        let fields = Fields {
            text: lines,
            marks,
            size: read.size,
            in_order: true,
        };
        Ok(Some((fields, read.len)))
    }

    /// An equal value of its own.
    pub fn copy(&self) -> Result<Fields, NoMemory>
        ensures { IfOk result (λ copy. copy ≡ self.now) }
    {
        let alloc = *self.text.allocator();
        if self.marks.is_empty() {
            return Fields::new(alloc);
        }
        if self.text.len() > self.size + 3 * self.marks.len() {
            return self.packed(alloc);
        }
        let mut text = Vec::with_capacity(alloc, self.text.len() + MORE_BYTES)?;
        text.extend_from_slice(&self.text).unwrap();
        let mut marks = Vec::with_capacity(alloc, self.marks.len() + MORE_FIELDS)?;
        marks.extend_from_slice(&self.marks).unwrap();
        Ok(Fields {
            text,
            marks,
            size: self.size,
            in_order: self.in_order,
        })
    }

    /// An equal value, in whose text only its own lines stand, in order.
    fn packed(&self, alloc: Global) -> Result<Fields, NoMemory>
        ensures { IfOk result (λ copy. copy ≡ self.now) }
    {
        let (text, marks) = pack(alloc, &self.text, &self.marks)?;
        Ok(Fields {
            text,
            marks,
            size: self.size,
            in_order: true,
        })
    }

    /// The allocator that the fields were made with.
    pub fn allocator(&self) -> Global {
        *self.text.allocator()
    }

    /// How many fields there are.
    pub fn len(&self) -> usize
        ensures value { result ≡ length self.now }
        ensures list { IsFieldList self.now }
    {
        self.marks.len()
    }

    /// How many bytes all names and values have.
    pub fn size(&self) -> usize
        ensures value { result ≡ size_of self.now }
        ensures list { IsFieldList self.now }
    {
        self.size
    }

    /// Adds the field after those of its name, which is lowered.
    pub fn append(&mut self, name: &[u8], value: &[u8]) -> Result<(), FieldError>
        ensures ok { OnOk result
            (self.new ≡ field_list_with (lowercase name.now) value.now self.old) }
        ensures refused { OnErr result (self.new ≡ self.old) }
        ensures answer { MatchResult result (λ _. IsAllowed self.old name.now value.now)
            (λ e. ((e ≡ FieldError.NoMemory) × IsAllowed self.old name.now value.now)
            ⊎ Refuses e self.old name.now value.now) }

        // What that says of the values of each name.
        ensures values { OnOk result (values_of (lowercase name.now) self.new
            ≡ values_of (lowercase name.now) self.old ++ value.now ∷ []) }
        ensures others { OnOk result (KeepsOthers (lowercase name.now) self.old self.new) }
    {
        if !is_token(name) {
            return Err(FieldError::BadName);
        }
        if !is_own_value(value) {
            return Err(FieldError::BadValue);
        }
        self.append_checked(name, value)
    }

    /// Adds the field as `append` does, where its name is known to be a token and its value one. Only
    /// TooMany, TooLong and NoMemory are left.
    pub fn append_checked(&mut self, name: &[u8], value: &[u8]) -> Result<(), FieldError>
        requires is_name { IsToken name.now }
        requires is_value { is_own_value value.now ≡ true }
        ensures ok { OnOk result
            (self.new ≡ field_list_with (lowercase name.now) value.now self.old) }
        ensures refused { OnErr result (self.new ≡ self.old) }
        ensures answer { MatchResult result (λ _. IsAllowed self.old name.now value.now)
            (λ e. ((e ≡ FieldError.NoMemory) × IsAllowed self.old name.now value.now)
            ⊎ Refuses e self.old name.now value.now) }
        ensures list { is_sorted self.old ≡ true }
    {
        if let Some(e) = excess(self.marks.len(), self.size, name, value) {
            return Err(e);
        }
        self.put_last(name, value)
    }

    /// Adds a field that is allowed after those of its name.
    fn put_last(&mut self, name: &[u8], value: &[u8]) -> Result<(), FieldError>
        requires { IsAllowed self.old name.now value.now }
        ensures ok { OnOk result
            (self.new ≡ field_list_with (lowercase name.now) value.now self.old) }
        ensures refused { OnErr result (self.new ≡ self.old) }
        ensures memory { IfErr result (λ e. e ≡ FieldError.NoMemory) }
        ensures list { is_sorted self.old ≡ true }
    {
        let at = end_place(&self.text, &self.marks, name);
        let is_last = at == self.marks.len();
        put_line(&mut self.text, &mut self.marks, at, at, name, value)?;
        self.in_order = self.in_order && is_last;
        self.size += name.len() + value.len();
        Ok(())
    }

    /// Why a field that is a token and a value is refused in place of those of its name.
    fn excess_in_place(&self, place: Place, name: &[u8], value: &[u8]) -> Option<FieldError>
        requires place { IsPlace (lowercase name.now) self.now place }
        requires is_name { IsToken name.now }
        requires is_value { is_own_value value.now ≡ true }
        ensures { MatchOption result
            (IsAllowed (without (lowercase name.now) self.now) name.now value.now)
            (λ e. Refuses e (without (lowercase name.now) self.now) name.now value.now) }
    {
        let count = self.marks.len() - place.count;
        excess(count, self.size - place.size, name, value)
    }

    /// One field takes the place of all of its name, which is lowered.
    pub fn set(&mut self, name: &[u8], value: &[u8]) -> Result<(), FieldError>
        ensures ok { OnOk result (self.new
            ≡ field_list_with (lowercase name.now) value.now
            (without (lowercase name.now) self.old)) }
        ensures refused { OnErr result (self.new ≡ self.old) }
        ensures answer { MatchResult result
            (λ _. IsAllowed (without (lowercase name.now) self.old) name.now value.now)
            (λ e. ((e ≡ FieldError.NoMemory)
            × IsAllowed (without (lowercase name.now) self.old) name.now value.now)
            ⊎ Refuses e (without (lowercase name.now) self.old) name.now value.now) }

        // What that says of the values of each name.
        ensures values { OnOk result (values_of (lowercase name.now) self.new ≡ value.now ∷ []) }
        ensures others { OnOk result (KeepsOthers (lowercase name.now) self.old self.new) }
    {
        if !is_token(name) {
            return Err(FieldError::BadName);
        }
        if !is_own_value(value) {
            return Err(FieldError::BadValue);
        }
        self.set_checked(name, value)
    }

    /// Sets the field as `set` does, where its name is known to be a token and its value one. Only
    /// TooMany, TooLong and NoMemory are left.
    pub fn set_checked(&mut self, name: &[u8], value: &[u8]) -> Result<(), FieldError>
        requires is_name { IsToken name.now }
        requires is_value { is_own_value value.now ≡ true }
        ensures ok { OnOk result (self.new
            ≡ field_list_with (lowercase name.now) value.now
            (without (lowercase name.now) self.old)) }
        ensures refused { OnErr result (self.new ≡ self.old) }
        ensures answer { MatchResult result
            (λ _. IsAllowed (without (lowercase name.now) self.old) name.now value.now)
            (λ e. ((e ≡ FieldError.NoMemory)
            × IsAllowed (without (lowercase name.now) self.old) name.now value.now)
            ⊎ Refuses e (without (lowercase name.now) self.old) name.now value.now) }
        ensures list { is_sorted self.old ≡ true }
    {
        let place = place_of(&self.text, &self.marks, name);
        if let Some(e) = self.excess_in_place(place, name, value) {
            return Err(e);
        }
        let end = place.start + place.count;
        let is_last = place.start == self.marks.len();
        put_line(
            &mut self.text,
            &mut self.marks,
            place.start,
            end,
            name,
            value,
        )?;
        self.in_order = self.in_order && is_last;
        self.size = self.size - place.size + name.len() + value.len();
        Ok(())
    }

    /// No field of this name is left, and all others stay.
    pub fn remove(&mut self, name: &[u8])
        ensures left { self.new ≡ without (lowercase name.now) self.old }
        ensures values { values_of (lowercase name.now) self.new ≡ [] }
        ensures others { KeepsOthers (lowercase name.now) self.old self.new }
    {
        let place = place_of(&self.text, &self.marks, name);
        take_out(&mut self.marks, place.start, place.start + place.count);
        self.in_order = self.in_order && place.count == 0;
        self.size -= place.size;
    }

    /// How many values a name has.
    pub fn count(&self, name: &[u8]) -> usize
        ensures { result ≡ length (values_of (lowercase name.now) self.now) }
    {
        named(&self.text, &self.marks, name).len()
    }

    /// The value at place `i` of a name, from 0. None exactly where it has no more than `i`.
    pub fn value(&self, name: &[u8], i: usize) -> Option<&[u8]>
        ensures { option_copied result ≡ slice_get (values_of (lowercase name.now) self.now) i }
    {
        let mark = named(&self.text, &self.marks, name).get(i)?;
        Some(mark.value(&self.text))
    }

    /// The first value of a name. None exactly where it has none.
    pub fn get(&self, name: &[u8]) -> Option<&[u8]>
        ensures { option_copied result ≡ slice_get (values_of (lowercase name.now) self.now) 0 }
    {
        self.value(name, 0)
    }

    /// The value of a name that stands once. None exactly where it is absent or stands more often.
    pub(crate) fn only(&self, name: &[u8]) -> Option<&[u8]>
        ensures { option_copied result ≡ only_of (values_of (lowercase name.now) self.now) }
    {
        match named(&self.text, &self.marks, name) {
            [mark] => Some(mark.value(&self.text)),
            _ => None,
        }
    }

    /// The name and the value at place `i` of the whole list.
    pub fn at(&self, i: usize) -> (&[u8], &[u8])
        requires { i < length self.now }
        ensures { slice_get self.now i ≡ Some (result.0.now, result.1.now) }
    {
        let mark = self.marks[i];
        (mark.name(&self.text), mark.value(&self.text))
    }

    /// Whether there are at most 64 fields of at most 32,768 bytes in all, as of a head from outside.
    pub fn within_limits(&self) -> bool
        ensures value { IsTrue result ↔ IsWithinLimits self.now }
        ensures list { IsFieldList self.now }
    {
        self.marks.len() <= 64 && self.size <= 32768
    }

    /// The values of a name joined by a comma and a space (RFC 9110 section 5.3). None exactly
    /// where the name has none.
    pub fn joined(&self, name: &[u8]) -> Result<Option<Bytes>, NoMemory>
        ensures { IfOk result
            (λ joined. joined ≡ joined_of (values_of (lowercase name.now) self.now)) }
    {
        let alloc = *self.text.allocator();
        match named(&self.text, &self.marks, name) {
            [] => Ok(None),
            [first, others @ ..] => {
                let first = first.value(&self.text);
                Ok(Some(join(alloc, &self.text, first, others)?))
            }
        }
    }

    /// The whole list as plain data.
    pub fn listed(&self) -> Result<FieldList, NoMemory>
        ensures { IfOk result (λ list. list ≡ self.now) }
    {
        let alloc = *self.text.allocator();
        let mut items = Vec::with_capacity(alloc, self.marks.len())?;
        for mark in self.marks.as_slice() {
            let name = Vec::from_slice(alloc, mark.name(&self.text))?;
            let value = Vec::from_slice(alloc, mark.value(&self.text))?;
            items.push((Value { bytes: name }, Value { bytes: value }))?;
        }
        Ok(FieldList { items })
    }

    /// Appends a line for each field, in order: the name, a colon, a space, the value and a line
    /// feed. On an error nothing is appended.
    pub fn write_lines(&self, to: &mut Vec<u8>) -> Result<(), NoMemory>
        ensures ok { OnOk result (to.new.items ≡ to.old.items ++ fields_text self.now) }
        ensures err { OnErr result (to.new.items ≡ to.old.items) }
    {
        if self.in_order {
            to.extend_from_slice(&self.text)?;
            return Ok(());
        }
        let start = to.len();
        let written = write_each(&self.text, &self.marks, to);
        if written.is_err() {
            to.truncate(start);
        }
        written
    }
}

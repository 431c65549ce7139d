//! The record at the front of a text.
ghost use Rattle.std.specs.Prelude.{◌≡◌, ◌≢◌, ◌≤◌, ◌++◌, ℕ, List, length, Some, IfOk, IfSome, MatchOption};
ghost use Rattle.hc_fields.specs.FieldList.{IsListOf};
ghost use Rattle.hc_fields.specs.Lines.{fields_text};
ghost use Rattle.hc_record.specs.Head.{Head, IsHead};
ghost use Rattle.hc_record.specs.Lines.{joining_text, tag_line};
ghost use Rattle.hc_record.specs.Plain.{plain};
ghost use Rattle.hc_record.specs.Record.{head_numbers, spelling};
ghost use Rattle.hc_record.specs.declared.version.Version.{Version};
ghost use Rattle.hc_image.specs.Counts.{HasCountsOf, version_text};
ghost use Rattle.hc_image.specs.Parts.{SpellsHead};
ghost use Rattle.hc_image.specs.Readings.{Reads};

use crate::cursor::Cursor;
use hc_record::{StoredHead, read_record};
use hc_text::NoMemory;
use std::alloc::Global;

/// Takes the record of a head, of either version.
pub(crate) fn take_record(
    alloc: Global,
    text: &mut Cursor<'_>,
) -> Result<Option<StoredHead>, NoMemory>
    ensures { IfOk result (λ read. Reads SpellsHead plain text.old text.new read) }
{
    let Some(len) = record_len(text.rest()) else {
        return Ok(None);
    };
    let (record, behind) = text.rest().split_at(len);
    let Some(head) = read_record(alloc, record)? else {
        return Ok(None);
    };
    *text = Cursor::new(behind);
    Ok(Some(head))
}

/// How many bytes the record has that the text begins with. Only its lines are told apart.
fn record_len(text: &[u8]) -> Option<usize>
    ensures within { IfSome result (λ len. len ≤ length text.now) }
    ensures len { (version : Version) (head : Head) (after : List ℕ) → IsHead head
        → spelling version head ++ after ≡ text.now
        → result ≡ Some (length (spelling version head)) }
{
    let mut rest = Cursor::new(text);
    skip_record(&mut rest)?;
    text.len().checked_sub(rest.rest().len())
}

/// Takes the lines of a record.
fn skip_record(rest: &mut Cursor<'_>) -> Option<()>
    ensures { MatchOption result ((version : Version) (head : Head) (after : List ℕ)
        → IsHead head → spelling version head ++ after ≢ rest.old)
        (λ _. (version : Version) (head : Head) (after : List ℕ)
        → IsHead head → spelling version head ++ after ≡ rest.old → rest.new ≡ after) }
{
    let version = rest.take_to(b'\n')?;
    let _seal = rest.take_to(b'\n')?;
    let counts = take_counts(rest)?;
    skip_tag(rest, version)?;
    skip_fields(rest, counts.vary)?;
    skip_fields(rest, counts.fields)?;
    Some(())
}

/// Takes the line of the tag, where the version whose text this is has one.
fn skip_tag(rest: &mut Cursor<'_>, version: &[u8]) -> Option<()>
    ensures { MatchOption result ((v : Version) (head : Head) (after : List ℕ)
        → IsHead head → version.now ≡ version_text v
        → tag_line v (joining_text head.joining) ++ after ≢ rest.old)
        (λ _. (v : Version) (head : Head) (after : List ℕ)
        → IsHead head → version.now ≡ version_text v
        → tag_line v (joining_text head.joining) ++ after ≡ rest.old → rest.new ≡ after) }
{
    if version != b"record 2".as_slice() {
        return Some(());
    }
    let _tag = rest.take_to(b'\n')?;
    Some(())
}

/// How many fields a record has.
#[derive(Clone, Copy)]
struct Counts {
    vary: u64,
    fields: u64,
}

/// Takes the line of numbers of a record.
fn take_counts(rest: &mut Cursor<'_>) -> Option<Counts>
    ensures { MatchOption result ((head : Head) (after : List ℕ)
        → IsHead head → head_numbers head ++ after ≢ rest.old)
        (λ counts. (head : Head) (after : List ℕ) → IsHead head
        → head_numbers head ++ after ≡ rest.old → HasCountsOf head counts × (rest.new ≡ after)) }
{
    let _status = rest.take_number(b' ')?;
    let _requested = rest.take_number(b' ')?;
    let _answered = rest.take_number(b' ')?;
    let vary = rest.take_number(b' ')?;
    let fields = rest.take_number(b'\n')?;
    Some(Counts { vary, fields })
}

/// Takes the lines of so many fields.
fn skip_fields(rest: &mut Cursor<'_>, count: u64) -> Option<()>
    ensures { MatchOption result ((fields : List (List ℕ × List ℕ)) (after : List ℕ)
        → IsListOf count fields → fields_text fields ++ after ≢ rest.old)
        (λ _. (fields : List (List ℕ × List ℕ)) (after : List ℕ) → IsListOf count fields
        → fields_text fields ++ after ≡ rest.old → rest.new ≡ after) }
{
    for _ in 0..count {
        rest.take_to(b'\n')?;
    }
    Some(())
}

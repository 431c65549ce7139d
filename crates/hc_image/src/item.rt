//! One item, read.
ghost use Rattle.std.specs.Prelude.{◌≡◌, ◌++◌, List, ℕ, IfOk};
ghost use Rattle.hc_record.specs.Reading.{Takes};
ghost use Rattle.hc_contents.specs.PlainContents.{plain_item};
ghost use Rattle.hc_image.specs.Parts.{IsKey, key_text, AreSmallNumbers, numbers_text, HasItemLine, line_text};
ghost use Rattle.hc_image.specs.Readings.{Reads};
ghost use Rattle.hc_image.specs.Spelled.{SpellsItem};

use crate::cursor::Cursor;
use crate::record::take_record;
use crate::runs::take_runs;
use hc_contents::Content;
use hc_target::is_target;
use hc_text::{Key, NoMemory};
use std::alloc::Global;

/// Takes an item.
pub(crate) fn take_item(alloc: Global, rest: &mut Cursor<'_>) -> Result<Option<Content>, NoMemory>
    ensures { IfOk result (λ read. Reads SpellsItem plain_item rest.old rest.new read) }
{
    let Some(line) = take_item_line(alloc, rest)? else {
        return Ok(None);
    };
    let Some(head) = take_record(alloc, rest)? else {
        return Ok(None);
    };
    let Some(runs) = take_runs(alloc, rest, line.numbers.count)? else {
        return Ok(None);
    };
    Ok(Some(Content {
        key: line.key,
        r: line.numbers.r,
        head,
        runs,
    }))
}

/// What stands in the line of an item.
#[derive(Drop)]
struct ItemLine {
    key: Key,
    numbers: ItemNumbers,
}

/// The number of an item, and how many runs it has.
#[derive(Clone, Copy)]
struct ItemNumbers {
    r: u64,
    count: u64,
}

/// Takes the line of an item.
fn take_item_line(alloc: Global, rest: &mut Cursor<'_>) -> Result<Option<ItemLine>, NoMemory>
    ensures { IfOk result (λ read. Takes line_text HasItemLine rest.old rest.new read) }
{
    let Some(()) = rest.take_bytes(b"item ") else {
        return Ok(None);
    };
    let Some(key) = take_key(alloc, rest)? else {
        return Ok(None);
    };
    let Some(numbers) = take_item_numbers(rest) else {
        return Ok(None);
    };
    Ok(Some(ItemLine { key, numbers }))
}

/// Takes a target and the space behind it.
fn take_key(alloc: Global, rest: &mut Cursor<'_>) -> Result<Option<Key>, NoMemory>
    ensures { IfOk result (λ read. Takes key_text IsKey rest.old rest.new read) }
{
    let Some(text) = rest.take_to(b' ') else {
        return Ok(None);
    };
    if !is_target(alloc, text)? {
        return Ok(None);
    }
    let bytes = Vec::from_slice(alloc, text)?;
    Ok(Some(Key { bytes }))
}

/// Takes the number of an item and its count of runs.
fn take_item_numbers(rest: &mut Cursor<'_>) -> Option<ItemNumbers>
    ensures { Takes numbers_text AreSmallNumbers rest.old rest.new result }
{
    let r = rest.take_number(b' ')?;
    let count = rest.take_number(b'\n')?;
    Some(ItemNumbers { r, count })
}

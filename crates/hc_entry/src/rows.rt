//! Rows by key: one changes, and the others stay.
ghost use Rattle.std.specs.Prelude.{◌≡◌, Some, None, true, false, is_some, OnOk, OnErr};
ghost use Rattle.std.specs.Bool.{OnTrue};
ghost use Rattle.std.specs.Option.{option_copied};
ghost use Rattle.hc_entry.specs.Seats.{moved_to};
ghost use Rattle.hc_entry.specs.Lines.{is_in, turn_of, line_with, held_by, left_by, all_back, passed_back};
ghost use Rattle.hc_entry.specs.Kept.{nothing, on_line, line_in, with_current, is_nothing};
ghost use Rattle.hc_entry.specs.KeyRows.{row_at, rows_of, RowChanges, RowsStay, IsTidyAt};

use crate::line::KeyLine;
use crate::seat::Stand;
use hc_text::{Key, NoMemory};
use std::alloc::Global;
use std::collections::HashMap;

/// What is kept of a key.
#[derive(Drop)]
pub(crate) struct KeyRow {
    pub(crate) line: KeyLine,
    /// The representation that is current.
    pub(crate) current: Option<u64>,
}

impl KeyRow {
    ghost use Rattle.hc_entry.specs.Kept.{kept_in, nothing, is_nothing};

    /// Whether nothing is kept: nobody waits, and none is current.
    fn says_nothing(&self) -> bool
        ensures value { result ≡ is_nothing (kept_in self.now.line self.now.current) }
        ensures nothing { OnTrue result (kept_in self.now.line self.now.current ≡ nothing) }
    {
        self.line.is_empty() && self.current.is_none()
    }
}

/// The row of the key.
pub(crate) fn row_in<'a>(rows: &'a HashMap<Vec<u8>, KeyRow>, key: &Key) -> Option<&'a KeyRow>
    ensures { option_copied result ≡ row_at rows.now key.now }
{
    rows.get(key.bytes.as_slice())
}

/// The consumer is in line.
pub(crate) fn enter_in(
    alloc: Global,
    rows: &mut HashMap<Vec<u8>, KeyRow>,
    key: &Key,
    c: u64,
) -> Result<(), NoMemory>
    requires { is_in c (line_in (rows_of rows.old key.now)) ≡ false }
    ensures ok { OnOk result (RowChanges (on_line (line_with c)) key.now rows.old rows.new) }
    ensures err { OnErr result (RowsStay rows.old rows.new) }
{
    if let Some(row) = rows.get_mut(key.bytes.as_slice()) {
        row.line.enter(c)?;
        return Ok(());
    }
    begin_in(alloc, rows, key, c)
}

/// The consumer is the first that waits for the key.
fn begin_in(
    alloc: Global,
    rows: &mut HashMap<Vec<u8>, KeyRow>,
    key: &Key,
    c: u64,
) -> Result<(), NoMemory>
    requires { row_at rows.old key.now ≡ None }
    ensures ok { OnOk result (RowChanges (on_line (line_with c)) key.now rows.old rows.new) }
    ensures err { OnErr result (RowsStay rows.old rows.new) }
{
    let mut line = KeyLine::new(alloc);
    line.enter(c)?;
    let bytes = key.bytes.to_vec(alloc)?;
    let row = KeyRow {
        line,
        current: None,
    };
    rows.insert(bytes, row)?;
    Ok(())
}

/// The consumer holds the turn.
pub(crate) fn hold_in(rows: &mut HashMap<Vec<u8>, KeyRow>, key: &Key, c: u64)
    requires inside { is_in c (line_in (rows_of rows.old key.now)) ≡ true }
    requires turn { turn_of (line_in (rows_of rows.old key.now)) ≡ Some c }
    ensures { RowChanges (on_line (held_by c)) key.now rows.old rows.new }
{
    let Some(row) = rows.get_mut(key.bytes.as_slice()) else {
        unreachable!()
    };
    row.line.hold(c);
}

/// The consumer stands there from now on, and doesn't hold the turn.
pub(crate) fn reseat_in(rows: &mut HashMap<Vec<u8>, KeyRow>, key: &Key, c: u64, stand: Stand)
    requires { is_in c (line_in (rows_of rows.old key.now)) ≡ true }
    ensures { RowChanges (on_line (moved_to stand c)) key.now rows.old rows.new }
{
    let Some(row) = rows.get_mut(key.bytes.as_slice()) else {
        unreachable!()
    };
    row.line.stands_at(c, stand);
}

/// Everyone is in line, and nobody holds the turn.
pub(crate) fn all_back_in(rows: &mut HashMap<Vec<u8>, KeyRow>, key: &Key)
    ensures changes { RowChanges (on_line all_back) key.now rows.old rows.new }
    ensures absent { row_at rows.old key.now ≡ None → row_at rows.new key.now ≡ None }
{
    if let Some(row) = rows.get_mut(key.bytes.as_slice()) {
        row.line.all_back();
    }
}

/// Whoever passed is in line.
pub(crate) fn passed_back_in(rows: &mut HashMap<Vec<u8>, KeyRow>, key: &Key)
    ensures changes { RowChanges (on_line passed_back) key.now rows.old rows.new }
    ensures absent { row_at rows.old key.now ≡ None → row_at rows.new key.now ≡ None }
{
    if let Some(row) = rows.get_mut(key.bytes.as_slice()) {
        row.line.passed_back();
    }
}

/// The consumer waits no more. A row that says nothing then goes.
pub(crate) fn leave_in(rows: &mut HashMap<Vec<u8>, KeyRow>, key: &Key, c: u64)
    requires { is_in c (line_in (rows_of rows.old key.now)) ≡ true }
    ensures changes { RowChanges (on_line (left_by c)) key.now rows.old rows.new }
    ensures tidy { IsTidyAt rows.new key.now }
{
    let bytes = key.bytes.as_slice();
    let Some(row) = rows.get_mut(bytes) else {
        unreachable!()
    };
    row.line.leave(c);
    if row.says_nothing() {
        rows.remove(bytes);
    }
}

/// None is current. A row that says nothing then goes.
pub(crate) fn clear_current_in(rows: &mut HashMap<Vec<u8>, KeyRow>, key: &Key)
    ensures changes { RowChanges (with_current None) key.now rows.old rows.new }
    ensures tidy { IsTidyAt rows.new key.now }
{
    let bytes = key.bytes.as_slice();
    let Some(row) = rows.get_mut(bytes) else {
        return;
    };
    row.current = None;
    if row.says_nothing() {
        rows.remove(bytes);
    }
}

/// This is current. Where nothing is kept of the key, that wants memory.
pub(crate) fn make_current_in(
    alloc: Global,
    rows: &mut HashMap<Vec<u8>, KeyRow>,
    key: &Key,
    r: u64,
) -> Result<(), NoMemory>
    ensures ok { OnOk result (RowChanges (with_current (Some r)) key.now rows.old rows.new) }
    ensures err { OnErr result (RowsStay rows.old rows.new) }
{
    if let Some(row) = rows.get_mut(key.bytes.as_slice()) {
        row.current = Some(r);
        return Ok(());
    }
    let bytes = key.bytes.to_vec(alloc)?;
    let row = KeyRow {
        line: KeyLine::new(alloc),
        current: Some(r),
    };
    rows.insert(bytes, row)?;
    Ok(())
}

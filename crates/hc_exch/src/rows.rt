//! Rows by the numbers of their exchanges: one changes, and the others stay.
ghost use Rattle.std.specs.Prelude.{◌≡◌, ℕ, ◌+◌, ◌<◌, ◌≤◌, ◌^◌, Some, None, is_some, true, length, IfOk, OnOk, OnErr, take, ◌≢◌, nat_eq};
ghost use Rattle.std.specs.Option.{option_copied};
ghost use Rattle.hc_rules.specs.declared.length.Length.{Length};
ghost use Rattle.hc_exch.specs.Known.{Changes, with_asking, turned_into, without_exchange, with_good_head, with_piece, without_first, forgotten, CountsTo};
ghost use Rattle.hc_exch.specs.Rows.{running_in, held_in, rows_of, begins, keeps};
ghost use Rattle.std.specs.HashMap.{get};

use crate::held::Held;
use crate::role::Role;
use crate::row::{Open, Row};
use hc_rules::Length;
use hc_text::{Bytes, NoMemory};
use std::alloc::Global;
use std::collections::HashMap;

/// What is open.
pub(crate) fn running_in(rows: &HashMap<u64, Row>, x: u64) -> Option<&Open>
    ensures { option_copied result ≡ running_in rows.now x }
{
    rows.get(&x)?.running.as_ref()
}

/// How many bytes are held.
pub(crate) fn held_in(rows: &HashMap<u64, Row>, x: u64) -> usize
    ensures { result ≡ length (held_in rows.now x) }
{
    match rows.get(&x) {
        Some(row) => row.held.len(),
        None => 0,
    }
}

/// One more is open, and nothing is held for it.
pub(crate) fn begin_in(
    alloc: Global,
    rows: &mut HashMap<u64, Row>,
    x: u64,
    begun: Open,
) -> Result<(), NoMemory>
    ensures ok { OnOk result (Changes (begins begun) x (rows_of rows.old) (rows_of rows.new)) }
    ensures err { OnErr result ((y : ℕ) → get nat_eq rows.new y ≡ get nat_eq rows.old y) }
    ensures others { (y : ℕ) → y ≢ x → get nat_eq rows.new y ≡ get nat_eq rows.old y }
{
    let row = Row {
        running: Some(begun),
        held: Held::new(alloc),
    };
    rows.insert(x, row)?;
    Ok(())
}

/// Its next piece was asked for.
pub(crate) fn ask_in(rows: &mut HashMap<u64, Row>, x: u64)
    ensures changes { Changes with_asking x (rows_of rows.old) (rows_of rows.new) }
    ensures others { (y : ℕ) → y ≢ x → get nat_eq rows.new y ≡ get nat_eq rows.old y }
{
    if let Some(row) = rows.get_mut(&x) {
        if let Some(open) = &mut row.running {
            open.asked = true;
        }
    }
}

/// It is something else to the cache.
pub(crate) fn turn_in(rows: &mut HashMap<u64, Row>, x: u64, role: Role)
    ensures changes { Changes (turned_into role) x (rows_of rows.old) (rows_of rows.new) }
    ensures others { (y : ℕ) → y ≢ x → get nat_eq rows.new y ≡ get nat_eq rows.old y }
{
    if let Some(row) = rows.get_mut(&x) {
        if let Some(open) = &mut row.running {
            open.role = role;
        }
    }
}

/// Its head came, which promises so much.
pub(crate) fn head_in(rows: &mut HashMap<u64, Row>, x: u64, length: Length)
    ensures changes { Changes (with_good_head length) x (rows_of rows.old) (rows_of rows.new) }
    ensures others { (y : ℕ) → y ≢ x → get nat_eq rows.new y ≡ get nat_eq rows.old y }
{
    if let Some(row) = rows.get_mut(&x) {
        row.head(length);
    }
}

/// A piece came. Whether it is the last one.
pub(crate) fn piece_in(
    rows: &mut HashMap<u64, Row>,
    x: u64,
    bytes: &[u8],
    hold: bool,
) -> Result<(), NoMemory>
    requires running { is_some (running_in rows.old x) ≡ true }
    requires counts { CountsTo (length bytes.now) (rows_of rows.old x) }
    ensures ok { OnOk result
        (Changes (with_piece bytes.now hold) x (rows_of rows.old) (rows_of rows.new)) }
    ensures err { OnErr result ((y : ℕ) → get nat_eq rows.new y ≡ get nat_eq rows.old y) }
    ensures others { (y : ℕ) → y ≢ x → get nat_eq rows.new y ≡ get nat_eq rows.old y }
{
    if let Some(row) = rows.get_mut(&x) {
        row.piece(bytes, hold)?;
    }
    Ok(())
}

/// It isn't open any more.
pub(crate) fn close_in(rows: &mut HashMap<u64, Row>, x: u64)
    ensures changes { Changes without_exchange x (rows_of rows.old) (rows_of rows.new) }
    ensures others { (y : ℕ) → y ≢ x → get nat_eq rows.new y ≡ get nat_eq rows.old y }
{
    if let Some(row) = rows.get_mut(&x) {
        row.running = None;
    }
}

/// The first bytes that are held, at most `want`, are given.
pub(crate) fn take_in(rows: &mut HashMap<u64, Row>, x: u64, want: usize) -> Result<Bytes, NoMemory>
    ensures bytes { IfOk result (λ bytes. bytes ≡ take want (held_in rows.old x)) }
    ensures ok { OnOk result
        (Changes (without_first want) x (rows_of rows.old) (rows_of rows.new)) }
    ensures err { OnErr result ((y : ℕ) → get nat_eq rows.new y ≡ get nat_eq rows.old y) }
    ensures others { (y : ℕ) → y ≢ x → get nat_eq rows.new y ≡ get nat_eq rows.old y }
{
    match rows.get_mut(&x) {
        Some(row) => row.held.take(want),
        None => Ok(Bytes::new()),
    }
}

/// Nothing is held for it.
pub(crate) fn forget_in(alloc: Global, rows: &mut HashMap<u64, Row>, x: u64)
    ensures changes { Changes forgotten x (rows_of rows.old) (rows_of rows.new) }
    ensures others { (y : ℕ) → y ≢ x → get nat_eq rows.new y ≡ get nat_eq rows.old y }
{
    if let Some(row) = rows.get_mut(&x) {
        row.held = Held::new(alloc);
    }
}

/// A row that says nothing goes. The others stay.
pub(crate) fn tidy_in(rows: &mut HashMap<u64, Row>, x: u64)
    ensures same { (y : ℕ) → rows_of rows.new y ≡ rows_of rows.old y }
    ensures tidy { keeps (get nat_eq rows.new x) ≡ true }
    ensures others { (y : ℕ) → y ≢ x → get nat_eq rows.new y ≡ get nat_eq rows.old y }
{
    let is_over = match rows.get(&x) {
        Some(row) => row.running.is_none() && row.held.len() == 0,
        None => false,
    };
    if is_over {
        rows.remove(&x);
    }
}

//! Entries by the numbers of their slots: one changes, and the others stay.
ghost use Rattle.std.specs.Prelude.{◌≡◌, ◌+◌, ◌≤◌, ◌<◌, ◌^◌, ℕ, None, Some, true, false, is_some, length, IfSome, IfOk, OnOk, OnErr};
ghost use Rattle.slab.specs.Slab.{get};
ghost use Rattle.hc_sparse.specs.Cells.{AreAbsent};
ghost use Rattle.hc_record.specs.Plain.{plain};
ghost use Rattle.hc_store.specs.Slots.{with_slot, with_bare, Changes, rewrites, puts, seals, cells_in, is_live};
ghost use Rattle.hc_store.specs.Entries.{slots_of};

use crate::entry::Entry;
use hc_record::{Kind, StoredHead};
use hc_text::NoMemory;
use slab::Slab;
use std::alloc::Global;

/// What a live slot holds.
pub(crate) fn entry_at(entries: &Slab<Entry>, n: usize) -> &Entry
    requires { is_live (slots_of entries.now) n ≡ true }
    ensures { get entries.now n ≡ Some result.now }
{
    entries.get(n).unwrap()
}

/// A new slot, with a head and no bytes.
pub(crate) fn keep_in(
    alloc: Global,
    entries: &mut Slab<Entry>,
    head: &StoredHead,
) -> Result<usize, NoMemory>
    ensures number { IfOk result (λ n. n < 2 ^ 64) }
    ensures new { IfOk result (λ n. is_live (slots_of entries.old) n ≡ false) }
    ensures ok { IfOk result
        (λ n. (m : ℕ) → slots_of entries.new m
        ≡ with_bare n (plain head.now) (slots_of entries.old) m) }
    ensures err { OnErr result ((m : ℕ) → slots_of entries.new m ≡ slots_of entries.old m) }
{
    let entry = Entry::new(alloc, head)?;
    Ok(entries.insert(entry)?)
}

/// Another head in a slot.
pub(crate) fn rewrite_in(
    entries: &mut Slab<Entry>,
    n: usize,
    head: &StoredHead,
) -> Result<(), NoMemory>
    ensures number { n < 2 ^ 64 }
    ensures ok { OnOk result
        (Changes (rewrites (plain head.now)) n (slots_of entries.old) (slots_of entries.new)) }
    ensures err { OnErr result ((m : ℕ) → slots_of entries.new m ≡ slots_of entries.old m) }
{
    if let Some(entry) = entries.get_mut(n) {
        entry.rewrite(head)?;
    }
    Ok(())
}

/// Bytes more in a slot.
pub(crate) fn put_in(
    entries: &mut Slab<Entry>,
    n: usize,
    at: u64,
    x: u64,
    bytes: &[u8],
    last: Option<Kind>,
) -> Result<(), NoMemory>
    requires absent { AreAbsent (cells_in (slots_of entries.old) n) at (at + length bytes.now) }
    requires end { at + length bytes.now ≤ 2 ^ 62 }
    ensures number { n < 2 ^ 64 }
    ensures ok { OnOk result
        (Changes (puts at x bytes.now last) n (slots_of entries.old) (slots_of entries.new)) }
    ensures err { OnErr result ((m : ℕ) → slots_of entries.new m ≡ slots_of entries.old m) }
{
    if let Some(entry) = entries.get_mut(n) {
        entry.put(at, x, bytes, last)?;
    }
    Ok(())
}

/// Another kind and total in a slot.
pub(crate) fn seal_in(entries: &mut Slab<Entry>, n: usize, kind: Kind, total: Option<u64>)
    requires { IfSome total (λ k. k < 2 ^ 62) }
    ensures number { n < 2 ^ 64 }
    ensures ok { Changes (seals kind total) n (slots_of entries.old) (slots_of entries.new) }
{
    if let Some(entry) = entries.get_mut(n) {
        entry.seal(kind, total);
    }
}

/// A slot less.
pub(crate) fn forget_in(entries: &mut Slab<Entry>, n: usize)
    ensures number { n < 2 ^ 64 }
    ensures ok { (m : ℕ) → slots_of entries.new m ≡ with_slot n None (slots_of entries.old) m }
{
    entries.try_remove(n);
}

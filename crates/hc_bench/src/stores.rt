//! Calls of a store in memory.
ghost use Rattle.std.specs.Prelude.{◌≡◌, ◌≤◌, ◌^◌, ℕ, length, None, true, IfOk, OnOk};
ghost use Rattle.hc_store.specs.Slots.{is_live, cells_in};
ghost use Rattle.hc_bench.specs.Stores.{slots_in};

use crate::error::BenchError;
use crate::rules::two_heads::TwoHeads;
use crate::words::{number_of, times_of};
use hc_record::{Kind, StoredHead};
use hc_store::{Backend, Limits, Memory, Slot};
use hc_text::Key;
use std::alloc::Global;

/// How many bytes are put and read.
const LEN: u64 = 100;

/// The exchange that brings them.
const EXCHANGE: u64 = 1;

/// The most slots.
const MOST: u64 = 1 << 16;

/// Nothing is too large.
const NO_LIMITS: Limits = Limits {
    max_entry: u64::MAX,
    max_total: u64::MAX,
};

/// `CALL SLOTS COUNT`: the slots are made, and then the calls.
pub(crate) fn run(alloc: Global, words: &[String]) -> Result<(), BenchError> {
    let [call, slots, times] = words else {
        return Err(BenchError::Usage);
    };
    let slots = number_of(slots.as_str(), 1, MOST)?;
    let times = times_of(times.as_str())?;
    let heads = TwoHeads::new(alloc)?;
    run_on(alloc, heads.at(0), call.as_str(), slots, times)
}

/// Makes so many slots with this head, and then the calls.
fn run_on(
    alloc: Global,
    head: &StoredHead,
    call: &str,
    slots: u64,
    times: u64,
) -> Result<(), BenchError>
    requires { times ≤ 2 ^ 32 }
{
    let mut store = Memory::new(alloc, NO_LIMITS);
    let slot = fill(&mut store, alloc, head, slots)?;
    match call {
        "create" => create_rounds(&mut store, alloc, head, times),
        _ => run_at(&mut store, slot, call, times),
    }
}

/// Makes the calls that are of an empty slot.
fn run_at(store: &mut Memory, slot: Slot, call: &str, times: u64) -> Result<(), BenchError>
    requires live { is_live (slots_in store.old) slot.n ≡ true }
    requires empty { (p : ℕ) → cells_in (slots_in store.old) slot.n p ≡ None }
    requires few { times ≤ 2 ^ 32 }
{
    let bytes = [b'x'; LEN as usize];
    match call {
        "put" => put_rounds(store, slot, &bytes, times),
        "read" => read_rounds(store, slot, times),
        "run" => run_rounds(store, slot, &bytes, times),
        "seal" => seal_rounds(store, slot, times),
        _ => Err(BenchError::Usage),
    }
}

/// Makes so many slots, of which the last one is answered.
fn fill(
    store: &mut Memory,
    alloc: Global,
    head: &StoredHead,
    slots: u64,
) -> Result<Slot, BenchError>
    ensures live { IfOk result (λ slot. is_live (slots_in store.new) slot.n ≡ true) }
    ensures empty { IfOk result (λ slot. (p : ℕ) → cells_in (slots_in store.new) slot.n p ≡ None) }
{
    for _k in 1..slots {
        make(store, alloc, head)?;
    }
    make(store, alloc, head)
}

/// A new slot, which is live and empty.
fn make(store: &mut Memory, alloc: Global, head: &StoredHead) -> Result<Slot, BenchError>
    ensures live { IfOk result (λ slot. is_live (slots_in store.new) slot.n ≡ true) }
    ensures empty { IfOk result (λ slot. (p : ℕ) → cells_in (slots_in store.new) slot.n p ≡ None) }
{
    let bytes = b"http://a.test/x".to_vec(alloc)?;
    let slot = store.create(&Key { bytes }, head)?;
    Ok(slot)
}

/// Makes a slot and drops it, so many times.
fn create_rounds(
    store: &mut Memory,
    alloc: Global,
    head: &StoredHead,
    times: u64,
) -> Result<(), BenchError> {
    for _round in 0..times {
        let slot = make(store, alloc, head)?;
        store.drop_slot(slot);
    }
    Ok(())
}

/// Puts bytes behind one another into an empty slot, so many times.
fn put_rounds(store: &mut Memory, slot: Slot, bytes: &[u8], times: u64) -> Result<(), BenchError>
    requires live { is_live (slots_in store.old) slot.n ≡ true }
    requires empty { (p : ℕ) → cells_in (slots_in store.old) slot.n p ≡ None }
    requires bytes { length bytes.now ≡ LEN }
    requires few { times ≤ 2 ^ 32 }
    ensures { OnOk result (is_live (slots_in store.new) slot.n ≡ true) }
{
    for round in 0..times {
        store.put(slot, LEN * round, EXCHANGE, bytes, None)?;
    }
    Ok(())
}

/// Reads the record of a slot, so many times.
fn read_rounds(store: &mut Memory, slot: Slot, times: u64) -> Result<(), BenchError>
    requires { is_live (slots_in store.old) slot.n ≡ true }
{
    for _round in 0..times {
        store.read_record(slot)?;
    }
    Ok(())
}

/// Puts bytes into an empty slot, and reads them so many times.
fn run_rounds(store: &mut Memory, slot: Slot, bytes: &[u8], times: u64) -> Result<(), BenchError>
    requires live { is_live (slots_in store.old) slot.n ≡ true }
    requires empty { (p : ℕ) → cells_in (slots_in store.old) slot.n p ≡ None }
    requires bytes { length bytes.now ≡ LEN }
{
    put_rounds(store, slot, bytes, 1)?;
    for _round in 0..times {
        let run = store.run_at(slot, 0, LEN as usize)?;
        if run.is_none() {
            return Err(BenchError::Wrong);
        }
    }
    Ok(())
}

/// Seals a slot, so many times.
fn seal_rounds(store: &mut Memory, slot: Slot, times: u64) -> Result<(), BenchError>
    requires live { is_live (slots_in store.old) slot.n ≡ true }
    requires few { times ≤ 2 ^ 32 }
{
    for round in 0..times {
        store.seal(slot, Kind::Whole, Some(round))?;
    }
    Ok(())
}

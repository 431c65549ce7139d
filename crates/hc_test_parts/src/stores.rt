//! Calls of a store, on a slot of it.
ghost use Rattle.std.specs.Prelude.{◌≡◌, true};
ghost use Rattle.hc_store.specs.Slots.{is_live};

use crate::samples::{Sample, fails_of, limits_of};
use crate::values::{report_read, report_some};
use hc_record::{Kind, StoredHead};
use hc_sparse::{Presence, Span2};
use hc_store::{Backend, Failing, Memory, Slot, SlotView, StoreError};
use hc_test_frame::{Fault, Vector, note};
use hc_text::NoMemory;

/// Past the last position that there may be.
const END: u64 = 1 << 62;

/// A store and a slot of it.
#[derive(Drop)]
struct Kept<B: Backend> {
    store: B,
    slot: Slot,
    ghost live: { is_live (B.slots store) slot.n ≡ true },
}

impl<B: Backend> Kept<B> {
    /// A slot is made.
    fn begun(mut store: B, sample: &Sample) -> Result<Kept<B>, StoreError>
    where
        B: Drop,
    {
        match store.create(&sample.key, &sample.head) {
            Ok(slot) => Ok(Kept { store, slot }),
            Err(error) => Err(error),
        }
    }

    /// One more slot is made, or why it isn't.
    fn create(&mut self, sample: &Sample) -> Option<StoreError> {
        self.store.create(&sample.key, &sample.head).err()
    }

    /// Puts bytes at positions that are absent, or says that they aren't.
    fn put(&mut self, at: u64, bytes: &[u8]) -> Option<Result<(), StoreError>> {
        let len = bytes.len() as u64;
        if len > END || at > END - len {
            return None;
        }
        match self.store.next_present(self.slot, at) {
            Some(n) if n < at + len => None,
            _ => Some(self.store.put(self.slot, at, 1, bytes, None)),
        }
    }

    fn report_run(&mut self, p: u64, to: &mut String) -> Result<(), Fault> {
        let read = self.store.run_at(self.slot, p, 9);
        report_read(&read, to)
    }

    fn seal(&mut self) -> Result<(), StoreError> {
        self.store.seal(self.slot, Kind::Truncated, Some(7))
    }

    fn write_record(&mut self, head: &StoredHead) -> Result<(), StoreError> {
        self.store.write_record(self.slot, head)
    }

    /// Reads the record, and writes the length of the body, the status and when it was asked for.
    fn report_record(&mut self, to: &mut String) -> Result<(), Fault> {
        let read = self.store.read_record(self.slot);
        note(&facts_of(&read), to)
    }

    fn view(&self) -> SlotView<'_, B> {
        SlotView {
            store: &self.store,
            slot: self.slot,
        }
    }

    /// Makes a call that changes nothing, or else one that may.
    fn note(&mut self, sample: &Sample, v: &Vector, to: &mut String) -> Result<(), Fault> {
        let lo = v.number(0);
        let hi = v.number(1);
        match v.call() {
            "store_covers nn" => note(&self.view().covers(Span2 { lo, hi }), to),
            "store_next n" => note(&self.view().next_present(lo), to),
            "store_kind" => note(&self.store.kind(self.slot), to),
            "store_used" => note(&self.store.used(), to),
            "store_used_by" => note(&self.store.used_by(self.slot), to),
            _ => self.change(sample, v, to),
        }
    }

    fn change(&mut self, sample: &Sample, v: &Vector, to: &mut String) -> Result<(), Fault> {
        match v.call() {
            "store_create" => note(&self.create(sample), to),
            "store_put nt" => report_some(&self.put(v.number(0), v.text(1)), to),
            "store_run n" => self.report_run(v.number(0), to),
            "store_seal" => note(&self.seal(), to),
            "store_write_record" => note(&self.write_record(&sample.head), to),
            "store_read_record" => self.report_record(to),
            _ => Err(Fault::NoSuchCall),
        }
    }

    /// What the store holds once the slot is dropped.
    fn dropped(self) -> u64
    where
        B: Drop,
    {
        let mut store = self.store;
        store.drop_slot(self.slot);
        store.used()
    }
}

/// What is told of a record that was read.
fn facts_of(read: &Result<StoredHead, StoreError>) -> Result<(Option<u64>, u16, u64), StoreError> {
    match read {
        Ok(head) => Ok((head.total, head.status, head.requested)),
        Err(error) => Err(*error),
    }
}

/// A store in memory that fails where it is told to, with a slot, if that was made.
#[derive(Drop)]
pub(crate) struct Cupboard {
    kept: Option<Kept<Failing<Memory>>>,
}

impl Cupboard {
    /// There is none.
    pub(crate) fn new() -> Cupboard {
        Cupboard { kept: None }
    }

    /// Makes the call, and writes what it answers.
    pub(crate) fn note(
        &mut self,
        sample: &Sample,
        v: &Vector,
        to: &mut String,
    ) -> Result<(), Fault> {
        match v.call() {
            call if call.starts_with("store_new nn") => self.begin(sample, v, to),
            "store_drop" => report_some(&self.drop_slot(), to),
            _ => self.report_of_slot(sample, v, to),
        }
    }

    /// What the store holds once the slot is dropped, if there is one.
    fn drop_slot(&mut self) -> Option<u64> {
        match self.kept.take() {
            Some(kept) => Some(kept.dropped()),
            None => None,
        }
    }

    fn report_of_slot(
        &mut self,
        sample: &Sample,
        v: &Vector,
        to: &mut String,
    ) -> Result<(), Fault> {
        match &mut self.kept {
            Some(kept) => kept.note(sample, v, to),
            None => Err(Fault::NoSuchCall),
        }
    }

    fn begin(&mut self, sample: &Sample, v: &Vector, to: &mut String) -> Result<(), Fault> {
        let store = failing_store(v)?;
        let error = self.keep(Kept::begun(store, sample));
        note(&error, to)
    }

    /// Keeps the slot, or tells why none was made.
    fn keep(&mut self, begun: Result<Kept<Failing<Memory>>, StoreError>) -> Option<StoreError> {
        match begun {
            Ok(kept) => {
                self.kept = Some(kept);
                None
            }
            Err(error) => {
                self.kept = None;
                Some(error)
            }
        }
    }
}

/// A store with the limits that the call tells, which fails where it says.
fn failing_store(v: &Vector) -> Result<Failing<Memory>, NoMemory> {
    let fails = fails_of(v)?;
    Ok(Failing::new(Memory::new(v.alloc(), limits_of(v)), fails))
}

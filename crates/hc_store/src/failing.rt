//! A store that fails at listed calls.
ghost use Rattle.std.specs.Prelude.{◌≡◌, ◌+◌, ◌≤◌, ◌<◌, ◌^◌, ◌==◌, ℕ, Some, None, true, false, length, is_some, position, IfOk, OnOk, OnErr, IfSome, IsErrOf, if◌then◌else◌};
ghost use Rattle.hc_record.specs.Plain.{plain};
ghost use Rattle.hc_store.specs.declared.error.StoreError.{StoreError};
ghost use Rattle.hc_store.specs.declared.error.StoreError.TheVariants.{Fault};
ghost use Rattle.hc_store.specs.Slots.{with_slot, with_bare, slots_after, rewrites, puts, seals, head_in, cells_in, size_in, is_live, weight};
ghost use Rattle.hc_store.specs.Causes.{HasCause, IsWithin, HasNoLimit};
ghost use Rattle.hc_store.specs.Calls.{is_entry_of};
ghost use Rattle.hc_sparse.specs.Cells.{AreAbsent};
ghost use Rattle.hc_sparse.specs.Stretch.{stretch};

use crate::backend::{Backend, Slot};
use crate::error::StoreError;
use hc_record::{Kind, StoredHead};
use hc_sparse::Run;
use hc_text::Key;

/// A call that may fail.
#[derive(Clone, Copy, Debug, PartialEq, Eq)]
pub enum Op {
    Create,
    WriteRecord,
    ReadRecord,
    Put,
    RunAt,
    Seal,
}

impl Op {
    ghost use Rattle.hc_store.specs.Calls.{rank};

    /// Its place among the kinds.
    fn rank(self) -> u8
        ensures { result ≡ rank self }
    {
        match self {
            Op::Create => 0,
            Op::WriteRecord => 1,
            Op::ReadRecord => 2,
            Op::Put => 3,
            Op::RunAt => 4,
            Op::Seal => 5,
        }
    }
}

/// How often each was called. A count that has come to its type's end stands still.
#[derive(Drop)]
struct Calls {
    create: u64,
    write_record: u64,
    read_record: u64,
    put: u64,
    run_at: u64,
    seal: u64,
}

impl Calls {
    ghost use Rattle.hc_store.specs.Calls.{calls_of, calls_with, next_of, no_calls};

    fn new() -> Calls
        ensures { result ≡ no_calls }
    {
        Calls {
            create: 0,
            write_record: 0,
            read_record: 0,
            put: 0,
            run_at: 0,
            seal: 0,
        }
    }

    /// How many calls of a kind there were.
    fn of(&self, op: Op) -> u64
        ensures { result ≡ calls_of self.now op }
    {
        match op {
            Op::Create => self.create,
            Op::WriteRecord => self.write_record,
            Op::ReadRecord => self.read_record,
            Op::Put => self.put,
            Op::RunAt => self.run_at,
            Op::Seal => self.seal,
        }
    }

    /// Counts a call, and tells which of its kind it is.
    fn count(&mut self, op: Op) -> u64
        ensures number { result ≡ next_of self.old op }
        ensures counted { self.new ≡ calls_with op self.old }
    {
        let number = self.of(op).saturating_add(1);
        match op {
            Op::Create => self.create = number,
            Op::WriteRecord => self.write_record = number,
            Op::ReadRecord => self.read_record = number,
            Op::Put => self.put = number,
            Op::RunAt => self.run_at = number,
            Op::Seal => self.seal = number,
        }
        number
    }
}

/// Another store, that fails at listed calls and changes nothing there.
#[derive(Drop)]
pub struct Failing<B> {
    inner: B,
    fails: Vec<(Op, u64)>,
    calls: Calls,
    failed: u64,
    ghost bounded: { failed + length fails.items < 2 ^ 64 },
}

impl<B: Backend> Failing<B> {
    ghost use Rattle.hc_store.specs.Calls.{calls_with, no_calls, place_in, list_without};

    /// Fails at the listed calls of each kind, counted from 1.
    pub fn new(inner: B, fails: Vec<(Op, u64)>) -> Failing<B>
        ensures slots { ⟦<Failing<B> as Backend>⟧.slots result ≡ B.slots inner }
        ensures limits { ⟦<Failing<B> as Backend>⟧.limits result ≡ B.limits inner }
        ensures faults { ⟦<Failing<B> as Backend>⟧.faults result ≡ B.faults inner }
        ensures inner { result.inner ≡ inner }
        ensures listed { result.fails ≡ fails }
        ensures uncalled { result.calls ≡ no_calls }
    {
        Failing {
            inner,
            fails,
            calls: Calls::new(),
            failed: 0,
        }
    }

    /// Whether this call is listed. It then counts as failed, and its entry is used up.
    fn is_listed(&mut self, op: Op) -> bool
        ensures inner { self.new.inner ≡ self.old.inner }
        ensures failed { self.new.failed ≡ self.old.failed + (if result then 1 else 0) }
        ensures listed { result ≡ is_some (place_in op self.old.calls self.old.fails.items) }
        ensures calls { self.new.calls ≡ calls_with op self.old.calls }
        ensures fails { self.new.fails.items
            ≡ list_without (place_in op self.old.calls self.old.fails.items) self.old.fails.items }
    {
        let call = self.calls.count(op);
        let Some(place) = place_of(self.fails.as_slice(), op, call) else {
            return false;
        };
        self.fails.remove(place);
        self.failed += 1;
        true
    }
}

/// Where a call is listed.
fn place_of(fails: &[(Op, u64)], op: Op, call: u64) -> Option<usize>
    ensures place { result ≡ position (is_entry_of op call) fails.now }
    ensures within { IfSome result (λ i. i < length fails.now) }
{
    fails
        .iter()
        .position(|fail| fail.0.rank() == op.rank() && fail.1 == call)
}

impl<B: Backend> Backend for Failing<B> {
    ghost use Rattle.hc_store.specs.Failures.{FailsAsListed};

    ghost slots = { λ s. B.slots s.inner };

    ghost limits = { λ s. B.limits s.inner };

    ghost faults = { λ s. B.faults s.inner + s.failed };

    fn create(&mut self, key: &Key, head: &StoredHead) -> Result<Slot, StoreError>
        ensures new { IfOk result (λ slot. is_live (B.slots self.old.inner) slot.n ≡ false) }
        ensures ok { IfOk result (λ slot. B.slots self.new.inner
            ≡ with_bare slot.n (plain head.now) (B.slots self.old.inner)) }
        ensures err { OnErr result (B.slots self.new.inner ≡ B.slots self.old.inner) }
        ensures within { IsWithin (B.limits self.old.inner) 0
            (weight (B.slots self.old.inner) + 32768) result }
        ensures limits { B.limits self.new.inner ≡ B.limits self.old.inner }
        ensures cause { HasCause (B.faults self.old.inner + self.old.failed)
            (B.faults self.new.inner + self.new.failed) result }
        ensures as_listed { FailsAsListed B.faults Op.Create self.old self.new result }
    {
        if self.is_listed(Op::Create) {
            return Err(StoreError::Fault);
        }
        self.inner.create(key, head)
    }

    fn write_record(&mut self, slot: Slot, head: &StoredHead) -> Result<(), StoreError>
        requires { is_live (B.slots self.old.inner) slot.n ≡ true }
        ensures ok { OnOk result (B.slots self.new.inner
            ≡ slots_after (rewrites (plain head.now)) slot.n (B.slots self.old.inner)) }
        ensures err { OnErr result (B.slots self.new.inner ≡ B.slots self.old.inner) }
        ensures no_limit { HasNoLimit result }
        ensures limits { B.limits self.new.inner ≡ B.limits self.old.inner }
        ensures cause { HasCause (B.faults self.old.inner + self.old.failed)
            (B.faults self.new.inner + self.new.failed) result }
        ensures as_listed { FailsAsListed B.faults Op.WriteRecord self.old self.new result }
    {
        if self.is_listed(Op::WriteRecord) {
            return Err(StoreError::Fault);
        }
        self.inner.write_record(slot, head)
    }

    fn read_record(&mut self, slot: Slot) -> Result<StoredHead, StoreError>
        requires { is_live (B.slots self.old.inner) slot.n ≡ true }
        ensures head { IfOk result
            (λ head. head_in (B.slots self.old.inner) slot.n ≡ Some (plain head)) }
        ensures same { B.slots self.new.inner ≡ B.slots self.old.inner }
        ensures no_limit { HasNoLimit result }
        ensures limits { B.limits self.new.inner ≡ B.limits self.old.inner }
        ensures cause { HasCause (B.faults self.old.inner + self.old.failed)
            (B.faults self.new.inner + self.new.failed) result }
        ensures as_listed { FailsAsListed B.faults Op.ReadRecord self.old self.new result }
    {
        if self.is_listed(Op::ReadRecord) {
            return Err(StoreError::Fault);
        }
        self.inner.read_record(slot)
    }

    fn put(
        &mut self,
        slot: Slot,
        at: u64,
        x: u64,
        bytes: &[u8],
        last: Option<Kind>,
    ) -> Result<(), StoreError>
        requires live { is_live (B.slots self.old.inner) slot.n ≡ true }
        requires absent { AreAbsent (cells_in (B.slots self.old.inner) slot.n) at
            (at + length bytes.now) }
        requires end { at + length bytes.now ≤ 2 ^ 62 }
        ensures ok { OnOk result (B.slots self.new.inner
            ≡ slots_after (puts at x bytes.now last) slot.n (B.slots self.old.inner)) }
        ensures err { OnErr result (B.slots self.new.inner ≡ B.slots self.old.inner) }
        ensures within { IsWithin (B.limits self.old.inner)
            (size_in (B.slots self.old.inner) slot.n + length bytes.now)
            (weight (B.slots self.old.inner) + length bytes.now) result }
        ensures limits { B.limits self.new.inner ≡ B.limits self.old.inner }
        ensures cause { HasCause (B.faults self.old.inner + self.old.failed)
            (B.faults self.new.inner + self.new.failed) result }
        ensures as_listed { FailsAsListed B.faults Op.Put self.old self.new result }
    {
        if self.is_listed(Op::Put) {
            return Err(StoreError::Fault);
        }
        self.inner.put(slot, at, x, bytes, last)
    }

    fn seal(&mut self, slot: Slot, kind: Kind, total: Option<u64>) -> Result<(), StoreError>
        requires live { is_live (B.slots self.old.inner) slot.n ≡ true }
        requires total { IfSome total (λ n. n < 2 ^ 62) }
        ensures ok { OnOk result (B.slots self.new.inner
            ≡ slots_after (seals kind total) slot.n (B.slots self.old.inner)) }
        ensures err { OnErr result (B.slots self.new.inner ≡ B.slots self.old.inner) }
        ensures only { (error : StoreError) → IsErrOf result error → error ≡ Fault }
        ensures limits { B.limits self.new.inner ≡ B.limits self.old.inner }
        ensures cause { HasCause (B.faults self.old.inner + self.old.failed)
            (B.faults self.new.inner + self.new.failed) result }
        ensures as_listed { FailsAsListed B.faults Op.Seal self.old self.new result }
    {
        if self.is_listed(Op::Seal) {
            return Err(StoreError::Fault);
        }
        self.inner.seal(slot, kind, total)
    }

    fn run_at(&mut self, slot: Slot, p: u64, want: usize) -> Result<Option<Run>, StoreError>
        requires live { is_live (B.slots self.old.inner) slot.n ≡ true }
        requires want { 0 < want }
        ensures run { IfOk result
            (λ run. run ≡ stretch (cells_in (B.slots self.old.inner) slot.n) p want) }
        ensures same { B.slots self.new.inner ≡ B.slots self.old.inner }
        ensures no_limit { HasNoLimit result }
        ensures limits { B.limits self.new.inner ≡ B.limits self.old.inner }
        ensures cause { HasCause (B.faults self.old.inner + self.old.failed)
            (B.faults self.new.inner + self.new.failed) result }
        ensures as_listed { FailsAsListed B.faults Op.RunAt self.old self.new result }
    {
        if self.is_listed(Op::RunAt) {
            return Err(StoreError::Fault);
        }
        self.inner.run_at(slot, p, want)
    }

    fn next_present(&self, slot: Slot, p: u64) -> Option<u64> {
        self.inner.next_present(slot, p)
    }

    fn covers(&self, slot: Slot, lo: u64, hi: u64) -> bool {
        self.inner.covers(slot, lo, hi)
    }

    fn kind(&self, slot: Slot) -> Kind {
        self.inner.kind(slot)
    }

    fn used(&self) -> u64 {
        self.inner.used()
    }

    fn used_by(&self, slot: Slot) -> u64 {
        self.inner.used_by(slot)
    }

    fn drop_slot(&mut self, slot: Slot)
        requires { is_live (B.slots self.old.inner) slot.n ≡ true }
        ensures dropped { B.slots self.new.inner
            ≡ with_slot slot.n None (B.slots self.old.inner) }
        ensures limits { B.limits self.new.inner ≡ B.limits self.old.inner }
        ensures faults { B.faults self.new.inner + self.new.failed
            ≡ B.faults self.old.inner + self.old.failed }
        ensures calls { self.new.calls ≡ self.old.calls }
        ensures listed { self.new.fails ≡ self.old.fails }
    {
        self.inner.drop_slot(slot);
    }
}

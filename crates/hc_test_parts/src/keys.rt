//! Calls of what is kept by key, for two keys.
use hc_entry::KeyTable;
use hc_test_frame::{Fault, Vector, note};
use hc_text::{Key, NoMemory};
use std::alloc::Global;

/// What is kept of the keys `x` and `y`.
#[derive(Drop)]
pub(crate) struct TwoKeys {
    table: KeyTable,
}

impl TwoKeys {
    /// Nothing is kept.
    pub(crate) fn new(alloc: Global) -> TwoKeys {
        TwoKeys {
            table: KeyTable::new(alloc),
        }
    }

    /// Makes the call, of the key that its first word names.
    pub(crate) fn note(&mut self, v: &Vector, to: &mut String) -> Result<(), Fault> {
        let key = key(v.alloc(), v.word(0))?;
        self.note_of(&key, v, to)
    }

    /// Makes the call. One that may change something writes then of each key whose turn it is, and
    /// what is current.
    fn note_of(&mut self, key: &Key, v: &Vector, to: &mut String) -> Result<(), Fault> {
        let c = v.number(1);
        match v.call() {
            "key_turn_with wn" => note(&self.table.turn_with(key, c), to),
            "key_met w" => self.report_met(key, to),
            _ => {
                self.change(key, v)?;
                self.look(v.alloc(), to)
            }
        }
    }

    /// Writes a bit for each who waits, which is set where the seats have him once.
    fn report_met(&self, key: &Key, to: &mut String) -> Result<(), Fault> {
        let mut met = 0u64;
        for i in 0..self.table.seats(key) {
            if let Some(c) = self.table.seated(key, i) {
                met ^= 1 << (c % 64);
            }
        }
        write!(to, "{met:b}")?;
        Ok(())
    }

    fn change(&mut self, key: &Key, v: &Vector) -> Result<(), Fault> {
        let c = v.number(1);
        match v.call() {
            "keys_new" => self.begin(v.alloc()),
            "key_enter wn" if !self.table.is_in(key, c) => self.table.enter(key, c)?,
            "key_make wn" => self.table.make_current(key, c)?,
            "key_clear w" => self.table.clear_current(key),
            "key_all_back w" => self.table.all_back(key),
            "key_passed_back w" => self.table.passed_back(key),
            _ => return self.step(key, c, v),
        }
        Ok(())
    }

    /// Nothing is kept any more.
    fn begin(&mut self, alloc: Global) {
        *self = TwoKeys::new(alloc);
    }

    /// One that waits for the key takes a step.
    fn step(&mut self, key: &Key, c: u64, v: &Vector) -> Result<(), Fault> {
        let table = &mut self.table;
        if !table.is_in(key, c) {
            return Err(Fault::NoSuchCall);
        }
        match v.call() {
            "key_hold wn" if table.turn(key) == Some(c) => table.hold(key, c),
            "key_pass wn" => table.pass(key, c),
            "key_away wn" => table.away(key, c),
            "key_back wn" => table.back(key, c),
            "key_leave wn" => table.leave(key, c),
            _ => return Err(Fault::NoSuchCall),
        }
        Ok(())
    }

    fn look(&self, alloc: Global, to: &mut String) -> Result<(), Fault> {
        self.look_at("x ", &key(alloc, "x")?, to)?;
        self.look_at(", y ", &key(alloc, "y")?, to)
    }

    fn look_at(&self, name: &str, key: &Key, to: &mut String) -> Result<(), Fault> {
        to.push_str(name)?;
        note(&(self.table.turn(key), self.table.current(key)), to)
    }
}

/// The key that the word names.
fn key(alloc: Global, word: &str) -> Result<Key, NoMemory> {
    let mut bytes = b"http://a.test/".to_vec(alloc)?;
    bytes.extend_from_slice(word.as_bytes())?;
    Ok(Key { bytes })
}

//! The bytes that are given ahead of what is written.
ghost use Rattle.std.specs.Prelude.{◌≡◌, ◌+◌, ◌≤◌, ℕ, List, length, true, false, IfSome, IsNone, OnOk};
ghost use Rattle.std.specs.Ordering.{nat_cmp};
ghost use Rattle.std.specs.BTreeMap.{btree_map_len, get};
ghost use Rattle.hc_sparse.specs.Cells.{Cells, cells_with, nothing};
ghost use Rattle.hc_fetch.specs.Ahead.{Appends, Fit, Keeps, KeepsAll, KeepsBut};

use hc_text::{Bytes, NoMemory};
use std::alloc::Global;
use std::collections::BTreeMap;

/// How many bytes were written, and what was given ahead of them, by its first position.
#[derive(Drop)]
pub(crate) struct Gathered {
    ahead: BTreeMap<u64, Bytes>,
    written: u64,
}

impl Gathered {
    /// Nothing was given.
    pub(crate) fn new(alloc: Global) -> Gathered
        ensures keeps { KeepsAll result.ahead result.written nothing }
        ensures none { result.written ≡ 0 }
    {
        Gathered {
            ahead: BTreeMap::new(alloc),
            written: 0,
        }
    }

    /// How many bytes were written.
    pub(crate) fn written(&self) -> u64
        ensures { result ≡ self.now.written }
    {
        self.written
    }

    /// Bytes were given from a position on: what can be written now is appended. A byte that was given
    /// before at its position is the same.
    pub(crate) fn give(
        &mut self,
        at: u64,
        bytes: &Bytes,
        text: &mut Vec<u8>,
    ) -> Result<(), NoMemory>
        ensures keeps { OnOk result ((f : Cells) (x : ℕ)
            → KeepsAll self.old.ahead self.old.written f → Fit f at bytes.now
            → KeepsAll self.new.ahead self.new.written (cells_with at x bytes.now f)) }
        ensures text { OnOk result ((f : Cells) (x : ℕ)
            → KeepsAll self.old.ahead self.old.written f → Fit f at bytes.now
            → Appends (cells_with at x bytes.now f) self.old.written self.new.written
            text.old.items text.new.items) }
    {
        if at > self.written {
            return self.keep(at, bytes);
        }
        self.write(at, bytes.as_slice(), text)?;
        self.write_ahead(text)
    }

    /// Keeps bytes that are ahead. Where two begin at one position the longer one is kept.
    fn keep(&mut self, at: u64, bytes: &Bytes) -> Result<(), NoMemory>
        ensures keeps { OnOk result ((f : Cells) (x : ℕ)
            → KeepsAll self.old.ahead self.old.written f → Fit f at bytes.now
            → self.old.written + 1 ≤ at
            → KeepsAll self.new.ahead self.new.written (cells_with at x bytes.now f)) }
        ensures written { OnOk result (self.new.written ≡ self.old.written) }
    {
        if self.has_longer(at, bytes) {
            return Ok(());
        }
        self.ahead.insert(at, bytes.copy()?)?;
        Ok(())
    }

    /// Whether no fewer bytes are ahead that begin at this position.
    fn has_longer(&self, at: u64, bytes: &Bytes) -> bool
        ensures yes { result ≡ true → (other : List ℕ)
            × (get nat_cmp self.now.ahead at ≡ Some other)
            × (length bytes.now ≤ length other) }
        ensures no { result ≡ false → (other : List ℕ)
            → get nat_cmp self.now.ahead at ≡ Some other → length other ≤ length bytes.now }
    {
        match self.ahead.get(&at) {
            Some(other) => bytes.len() <= other.len(),
            None => false,
        }
    }

    /// Writes what was ahead and is next.
    fn write_ahead(&mut self, text: &mut Vec<u8>) -> Result<(), NoMemory>
        ensures keeps { OnOk result ((f : Cells) → Keeps self.old.ahead self.old.written f
            → KeepsAll self.new.ahead self.new.written f) }
        ensures text { OnOk result ((f : Cells) → Keeps self.old.ahead self.old.written f
            → Appends f self.old.written self.new.written text.old.items text.new.items) }
    {
        while let Some((at, bytes)) = self.take_next() {
            self.write(at, bytes.as_slice(), text)?;
        }
        Ok(())
    }

    /// Takes the first that is ahead, where it begins where what was written ends, or before.
    fn take_next(&mut self) -> Option<(u64, Bytes)>
        ensures some { IfSome result (λ next. (f : Cells)
            → Keeps self.old.ahead self.old.written f
            → KeepsBut self.new.ahead self.new.written f next.0 next.1) }
        ensures fewer { IfSome result (λ next.
            (next.0 ≤ self.old.written)
            × (btree_map_len self.new.ahead + 1 ≡ btree_map_len self.old.ahead)) }
        ensures none { IsNone result → (f : Cells) → Keeps self.old.ahead self.old.written f
            → KeepsAll self.new.ahead self.new.written f }
        ensures written { self.new.written ≡ self.old.written }
    {
        let (at, _) = self.ahead.first_key_value()?;
        if *at > self.written {
            return None;
        }
        self.ahead.pop_first()
    }

    /// Appends the bytes from a position on, but for those that were written.
    fn write(&mut self, at: u64, bytes: &[u8], text: &mut Vec<u8>) -> Result<(), NoMemory>
        requires begins { at ≤ self.old.written }
        ensures keeps { OnOk result ((f : Cells)
            → KeepsBut self.old.ahead self.old.written f at bytes.now
            → Keeps self.new.ahead self.new.written f) }
        ensures text { OnOk result ((f : Cells)
            → KeepsBut self.old.ahead self.old.written f at bytes.now
            → Appends f self.old.written self.new.written text.old.items text.new.items) }
        ensures ahead { self.new.ahead ≡ self.old.ahead }
    {
        let skipped = self.written - at;
        let count = bytes.len() as u64;
        if skipped < count {
            text.extend_from_slice(&bytes[skipped as usize..])?;
            self.written = self.written.saturating_add(count - skipped);
        }
        Ok(())
    }
}

//! What a slot in memory holds.
ghost use Rattle.std.specs.Prelude.{◌≡◌, ◌+◌, ◌≤◌, ◌<◌, ◌^◌, length, IfOk, IfSome, OnOk, OnErr};
ghost use Rattle.hc_record.specs.declared.version.Version.TheVariants.{Second};
ghost use Rattle.hc_record.specs.Plain.{plain};
ghost use Rattle.hc_record.specs.Record.{spelling};
ghost use Rattle.hc_sparse.specs.Cells.{AreAbsent, Covers, IsNext, size};
ghost use Rattle.hc_sparse.specs.Sparse.{sparse_cells};

use hc_record::{Kind, StoredHead, seal_record, write_record};
use hc_sparse::{Sparse, SparseBytes};
use hc_text::NoMemory;
use std::alloc::Global;

/// A record, the head that it spells, and sparse bytes.
///
/// The head stands beside its record so that nobody reads the record again.
#[derive(Drop)]
pub(crate) struct Entry {
    text: Vec<u8>,
    pub(crate) head: StoredHead,
    pub(crate) bytes: Sparse,
    ghost spelled: { spelling Second (plain head) ≡ text.items },
}

impl Entry {
    ghost use Rattle.hc_store.specs.Slots.{bare, rewrites, puts, seals};
    ghost use Rattle.hc_store.specs.Entries.{entry_contents};

    /// A head, and no bytes.
    pub(crate) fn new(alloc: Global, head: &StoredHead) -> Result<Entry, NoMemory>
        ensures { IfOk result (λ entry. entry_contents entry ≡ bare (plain head.now)) }
    {
        let text = record_of(alloc, head)?;
        let head = head.copy()?;
        Ok(Entry {
            text,
            head,
            bytes: Sparse::new(alloc),
        })
    }

    /// Another head, and the same bytes.
    pub(crate) fn rewrite(&mut self, head: &StoredHead) -> Result<(), NoMemory>
        ensures ok { OnOk result
            (entry_contents self.new ≡ rewrites (plain head.now) (entry_contents self.old)) }
        ensures err { OnErr result (entry_contents self.new ≡ entry_contents self.old) }
    {
        let text = record_of(*self.text.allocator(), head)?;
        let head = head.copy()?;
        self.text = text;
        self.head = head;
        Ok(())
    }

    /// Bytes more, and where there is one another kind.
    pub(crate) fn put(
        &mut self,
        at: u64,
        x: u64,
        bytes: &[u8],
        last: Option<Kind>,
    ) -> Result<(), NoMemory>
        requires absent { AreAbsent (sparse_cells self.old.bytes) at (at + length bytes.now) }
        requires end { at + length bytes.now ≤ 2 ^ 62 }
        ensures ok { OnOk result
            (entry_contents self.new ≡ puts at x bytes.now last (entry_contents self.old)) }
        ensures err { OnErr result (entry_contents self.new ≡ entry_contents self.old) }
    {
        self.bytes.put(at, x, bytes)?;
        if let Some(kind) = last {
            self.seal(kind, self.head.total);
        }
        Ok(())
    }

    /// Another kind and total, written over the record's.
    pub(crate) fn seal(&mut self, kind: Kind, total: Option<u64>)
        requires { IfSome total (λ n. n < 2 ^ 62) }
        ensures { entry_contents self.new ≡ seals kind total (entry_contents self.old) }
    {
        seal_record(&mut self.text, kind, total);
        self.head.kind = kind;
        self.head.total = total;
    }
}

/// The record of a head.
fn record_of(alloc: Global, head: &StoredHead) -> Result<Vec<u8>, NoMemory>
    ensures { IfOk result (λ text. text.items ≡ spelling Second (plain head.now)) }
{
    let mut text = Vec::new(alloc);
    write_record(head, &mut text)?;
    Ok(text)
}

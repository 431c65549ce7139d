//! Records that differ in one byte.
use crate::words::heads::record_of;
use crate::words::lists::lines_of;
use hc_record::{StoredHead, read_record};
use hc_text::NoMemory;
use std::alloc::Global;

/// How many texts were records, and how many of these were written otherwise than they were read.
#[derive(Drop)]
struct Tally {
    records: u64,
    others: u64,
}

impl Tally {
    /// Counts what the text is.
    fn count(&mut self, alloc: Global, text: &[u8]) -> Result<(), NoMemory> {
        let head = read_record(alloc, text)?;
        match &head {
            Some(head) => self.count_head(text, head),
            None => Ok(()),
        }
    }

    /// Counts the head that was read of the text.
    fn count_head(&mut self, text: &[u8], head: &StoredHead) -> Result<(), NoMemory> {
        self.records = self.records.wrapping_add(1);
        if !is_written_as_read(text, head)? {
            self.others = self.others.wrapping_add(1);
        }
        Ok(())
    }

    /// Counts each text with another byte at this place.
    fn count_changes(&mut self, alloc: Global, text: &[u8], at: usize) -> Result<(), NoMemory> {
        let mut changed = text.to_vec(alloc)?;
        self.count_bytes(alloc, text, at, &mut changed)
    }

    /// The same, in a copy of the text.
    fn count_bytes(
        &mut self,
        alloc: Global,
        text: &[u8],
        at: usize,
        changed: &mut Vec<u8>,
    ) -> Result<(), NoMemory> {
        for byte in 0..=255_u8 {
            if let Some(place) = changed.get_mut(at) {
                *place = byte;
            }
            if changed.as_slice() != text {
                self.count(alloc, changed.as_slice())?;
            }
        }
        Ok(())
    }
}

/// Whether the record of the head is the text. One of the first version isn't, but is like it.
fn is_written_as_read(text: &[u8], head: &StoredHead) -> Result<bool, NoMemory> {
    let record = record_of(head)?;
    is_spelled(&record, text, head)
}

/// The same, of a record of the head.
fn is_spelled(record: &[u8], text: &[u8], head: &StoredHead) -> Result<bool, NoMemory> {
    if text.starts_with(b"record 2") {
        return Ok(record == text);
    }
    let lines = lines_of(&head.fields)?;
    Ok(are_alike(record, text, &lines))
}

/// Whether both texts have the same second line, and these lines at their end.
fn are_alike(a: &[u8], b: &[u8], lines: &[u8]) -> bool {
    a.get(9..32) == b.get(9..32) && a.ends_with(lines) && b.ends_with(lines)
}

/// What the texts are that differ from this one in one byte.
pub(crate) fn report_changes(alloc: Global, text: &[u8], to: &mut String) -> Result<(), NoMemory> {
    let mut tally = Tally {
        records: 0,
        others: 0,
    };
    for at in 0..text.len() {
        tally.count_changes(alloc, text, at)?;
    }
    let (records, others) = (tally.records, tally.others);
    write!(to, "{records} records, {others} written otherwise")?;
    Ok(())
}

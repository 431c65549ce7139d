//! One entry, and how it changes.
ghost use Rattle.std.specs.Prelude.{◌≡◌, ◌+◌, ◌≤◌, ◌<◌, ◌^◌, ℕ, true, false, length, IfOk, OnOk, OnErr, option_map};
ghost use Rattle.std.specs.Option.{option_and_then};
ghost use Rattle.hc_record.specs.Plain.{plain};
ghost use Rattle.hc_sparse.specs.Cells.{size};
ghost use Rattle.hc_text.specs.Sorted.{has, itself};
ghost use Rattle.hc_store.specs.Slots.{Held};
ghost use Rattle.hc_entry.specs.ActiveEntries.{used_of};
ghost use Rattle.hc_entry.specs.Used.{group_in, is_lost_in, left_answer, moved_if_member};
ghost use Rattle.hc_writers.specs.Group.{survivor};
ghost use Rattle.hc_stored.specs.Heads.{summary_of};
ghost use Rattle.hc_stored.specs.Begun.{begun_row};

use crate::entry::Entry;
use crate::summary::HeadSummary;
use crate::view::EntryView;
use hc_entry::ActiveEntry;
use hc_record::{Kind, StoredHead};
use hc_store::Slot;
use hc_text::{Key, NoMemory};
use hc_writers::Left;
use std::alloc::Global;

impl Entry {
    ghost use Rattle.hc_stored.specs.Rows.{row_of, founded_row, reaching, used_by, used_first_by, unused_by, written_in, losing};
    ghost use Rattle.hc_stored.specs.Views.{view_of_row};

    /// One that was just founded, without bytes.
    pub(crate) fn new(
        alloc: Global,
        key: Key,
        slot: Slot,
        head: &StoredHead,
        c: u64,
        first: bool,
        writer: Option<u64>,
    ) -> Result<Entry, NoMemory>
        requires { head.now.requested ≤ head.now.answered }
        ensures { IfOk result (λ entry. row_of entry
            ≡ founded_row key slot.n (summary_of (plain head.now)) c first writer) }
    {
        let summary = HeadSummary::of(head)?;
        let users = ActiveEntry::founded(alloc, c, first, writer)?;
        Ok(Entry {
            key,
            slot,
            summary,
            reach: 0,
            users,
            gone: false,
        })
    }

    /// One without bytes, to which nobody is bound.
    pub(crate) fn begun(
        alloc: Global,
        key: Key,
        slot: Slot,
        head: &StoredHead,
    ) -> Result<Entry, NoMemory>
        requires { head.now.requested ≤ head.now.answered }
        ensures { IfOk result (λ entry. row_of entry
            ≡ begun_row key slot.n (summary_of (plain head.now))) }
    {
        let summary = HeadSummary::of(head)?;
        Ok(Entry {
            key,
            slot,
            summary,
            reach: 0,
            users: ActiveEntry::new(alloc),
            gone: false,
        })
    }

    /// One more is bound.
    pub(crate) fn bind(&mut self, c: u64) -> Result<(), NoMemory>
        requires { has itself c (used_of self.old.users).bound ≡ false }
        ensures ok { OnOk result (row_of self.new ≡ used_by c (row_of self.old)) }
        ensures err { OnErr result (row_of self.new ≡ row_of self.old) }
    {
        self.users.bind(c)?;
        Ok(())
    }

    /// One more is bound, which comes alone.
    pub(crate) fn bind_first(&mut self, c: u64) -> Result<(), NoMemory>
        requires { has itself c (used_of self.old.users).bound ≡ false }
        ensures ok { OnOk result (row_of self.new ≡ used_first_by c (row_of self.old)) }
        ensures err { OnErr result (row_of self.new ≡ row_of self.old) }
    {
        self.users.bind_first(c)?;
        Ok(())
    }

    /// One isn't bound any more. What its writer group is then.
    pub(crate) fn unbind(&mut self, c: u64, keepable: bool) -> Option<Left>
        requires { has itself c (used_of self.old.users).bound ≡ true }
        ensures row { row_of self.new ≡ unused_by c (row_of self.old) }
        ensures left { result
            ≡ option_map (left_answer keepable c) (group_in (used_of self.old.users).way) }
    {
        self.users.leave(c, keepable)
    }

    /// Bytes came that end there, and with the last of them another kind.
    pub(crate) fn fill(&mut self, end: u64, last: Option<Kind>)
        requires { end ≤ 2 ^ 62 }
        ensures { row_of self.new ≡ reaching end last (row_of self.old) }
    {
        if self.reach < end {
            self.users.arrived(end - self.reach);
            self.reach = end;
        }
        if let Some(kind) = last {
            self.summary.kind = kind;
        }
    }

    /// This exchange writes it for all who are bound to it.
    pub(crate) fn write(&mut self, x: u64) -> Result<(), NoMemory>
        requires { is_lost_in (used_of self.old.users).way ≡ false }
        ensures ok { OnOk result (row_of self.new ≡ written_in x (row_of self.old)) }
        ensures err { OnErr result (row_of self.new ≡ row_of self.old) }
    {
        self.users.resume(x, self.reach)?;
        Ok(())
    }

    /// A consumer that reads along stands there.
    pub(crate) fn set_offset(&mut self, c: u64, offset: u64)
        ensures row { row_of self.new ≡ row_of self.old }
        ensures group { group_in (used_of self.new.users).way
            ≡ option_map (moved_if_member c offset) (group_in (used_of self.old.users).way) }
    {
        self.users.set_offset(c, offset);
    }

    /// A write of it was refused, and this one, if any, goes on with it.
    pub(crate) fn lose(&mut self, alone: Option<u64>)
        ensures { row_of self.new ≡ losing alone (row_of self.old) }
    {
        self.users.lose(alone);
    }

    /// A write of it was refused while several read along. Who goes on, if anybody.
    pub(crate) fn lose_shared(&mut self) -> Option<u64>
        ensures survivor { result
            ≡ option_and_then survivor (group_in (used_of self.old.users).way) }
        ensures row { row_of self.new ≡ losing result (row_of self.old) }
    {
        self.users.lose_shared()
    }

    /// What is told of it where so many bytes are stored.
    pub(crate) fn view(&self, size: u64) -> EntryView
        ensures { result ≡ view_of_row (row_of self.now) size }
    {
        EntryView {
            status: self.summary.status,
            kind: self.summary.kind,
            total: self.summary.total,
            has_tag: self.summary.tag.is_some(),
            refuses_ranges: self.summary.refuses_ranges,
            reach: self.reach,
            size,
            users: self.users.bound().len(),
            first: self.users.first(),
            writer: self.users.writer(),
            is_lost: self.users.is_lost(),
            alone: self.users.alone(),
            is_gone: self.gone,
        }
    }
}

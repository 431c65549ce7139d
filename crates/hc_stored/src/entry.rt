//! What is kept of a representation beside its slot.
ghost use Rattle.std.specs.Prelude.{◌≤◌, ◌^◌};
ghost use Rattle.std.proofs.Props.{props};
ghost use Rattle.hc_entry.specs.Used.{group_in};
ghost use Rattle.hc_stored.specs.Groups.{EndsAt};

use crate::summary::HeadSummary;
use hc_entry::ActiveEntry;
use hc_store::Slot;
use hc_text::Key;

/// What is kept of a representation beside the head and the bytes in its slot. Consumers and exchanges
/// stand by their numbers.
#[derive(Drop)]
pub(crate) struct Entry {
    pub(crate) key: Key,
    pub(crate) slot: Slot,
    pub(crate) summary: HeadSummary,
    /// Where the last of its bytes ends.
    pub(crate) reach: u64,
    /// Who uses it, and as what.
    pub(crate) users: ActiveEntry,
    /// It isn't used for a new consumer any more.
    pub(crate) gone: bool,
    ghost within: { reach ≤ 2 ^ 62 },
    ghost stored: { EndsAt reach (group_in users.way) } by { Prim.hlevel props },
}

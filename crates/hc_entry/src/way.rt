//! As what those are bound who use a representation.
ghost use Rattle.std.specs.Prelude.{◌≡◌, ◌+◌, ◌≤◌, ◌^◌, option_map, IfSome, IfOk, OnOk, OnErr};
ghost use Rattle.std.specs.Option.{option_and_then};
ghost use Rattle.hc_writers.specs.Group.{survivor};
ghost use Rattle.hc_entry.specs.Used.{admission_by, alone_in, begun_way, group_in, grown_way, is_lost_in, joined_way, left_answer, left_way, lost_way, moved_way, writer_in, MayJoin, MayLeave};

use hc_rules::{Admission, BoundKind};
use hc_text::NoMemory;
use hc_writers::{Left, Writers};
use std::alloc::Global;

/// One way for all who are bound: they read, or an exchange writes for them.
#[derive(Drop)]
pub(crate) enum Way {
    /// They read what is stored. Who came alone may write.
    Readers,
    /// They read along while an exchange writes for all of them, or did so last.
    Writers(Writers),
    /// A write was refused.
    Lost {
        /// Who goes on with what comes.
        alone: Option<u64>,
        /// The exchange that wrote for several before, the last one.
        writer: Option<u64>,
    },
}

impl Way {
    /// The way of one consumer, for whom and for others an exchange may write.
    pub(crate) fn begin(alloc: Global, c: u64, writer: Option<u64>) -> Result<Way, NoMemory>
        ensures { IfOk result (λ way. way ≡ begun_way c writer) }
    {
        match writer {
            Some(x) => Ok(Way::Writers(Writers::new(alloc, x, c, 0)?)),
            None => Ok(Way::Readers),
        }
    }

    /// The exchange that writes for several, the last one.
    pub(crate) fn writer(&self) -> Option<u64>
        ensures { result ≡ writer_in self.now }
    {
        match self {
            Way::Readers => None,
            Way::Writers(writers) => Some(writers.exchange()),
            Way::Lost { writer, .. } => *writer,
        }
    }

    /// Whether a write was refused.
    pub(crate) fn is_lost(&self) -> bool
        ensures { result ≡ is_lost_in self.now }
    {
        matches!(self, Way::Lost { .. })
    }

    /// Who goes on after a write was refused.
    pub(crate) fn alone(&self) -> Option<u64>
        ensures { result ≡ alone_in self.now }
    {
        match self {
            Way::Readers | Way::Writers(_) => None,
            Way::Lost { alone, .. } => *alone,
        }
    }

    /// One more is bound in this way.
    pub(crate) fn join(&mut self, c: u64) -> Result<(), NoMemory>
        requires { IfSome (group_in self.old) (MayJoin c) }
        ensures ok { OnOk result (self.new ≡ joined_way c self.old) }
        ensures err { OnErr result (self.new ≡ self.old) }
    {
        match self {
            Way::Writers(writers) => writers.join(c),
            Way::Readers | Way::Lost { .. } => Ok(()),
        }
    }

    /// One isn't bound any more. What its writer group is then.
    pub(crate) fn leave(&mut self, c: u64, keepable: bool) -> Option<Left>
        requires { IfSome (group_in self.old) (MayLeave c) }
        ensures way { self.new ≡ left_way c self.old }
        ensures answer { result ≡ option_map (left_answer keepable c) (group_in self.old) }
    {
        match self {
            Way::Writers(writers) => Some(writers.leave(c, keepable)),
            Way::Readers | Way::Lost { .. } => None,
        }
    }

    /// One stands there, if it is a member.
    pub(crate) fn set_offset(&mut self, c: u64, offset: u64)
        ensures { self.new ≡ moved_way c offset self.old }
    {
        if let Way::Writers(writers) = self {
            if writers.holds(c) {
                writers.moved(c, offset);
            }
        }
    }

    /// So many bytes more are stored.
    pub(crate) fn grow(&mut self, count: u64)
        requires { IfSome (group_in self.old) (λ g. g.end + count ≤ 2 ^ 62) }
        ensures { self.new ≡ grown_way count self.old }
    {
        if let Way::Writers(writers) = self {
            writers.arrived(count);
        }
    }

    /// A write was refused that is for several. Who of them goes on, if anybody.
    pub(crate) fn lose(&mut self) -> Option<u64>
        ensures survivor { result ≡ option_and_then survivor (group_in self.old) }
        ensures lost { self.new ≡ lost_way result self.old }
    {
        let alone = match self {
            Way::Writers(writers) => writers.lost(),
            Way::Readers | Way::Lost { .. } => None,
        };
        *self = Way::Lost {
            alone,
            writer: self.writer(),
        };
        alone
    }
}

/// How one more may be bound where all are bound so, of whom this is the least.
pub(crate) fn admission_by(
    kind: BoundKind,
    least: Option<u64>,
    ranged: bool,
    holes: bool,
) -> Admission
    ensures { result ≡ admission_by kind least ranged holes }
{
    let Some(d) = least else {
        return if holes {
            Admission::Exclusive
        } else {
            Admission::Reader
        };
    };
    match kind {
        BoundKind::Shared if !ranged => Admission::Shared,
        BoundKind::Reader if !holes => Admission::Reader,
        _ => Admission::Behind(d),
    }
}

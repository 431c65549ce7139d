//! Who uses a representation, and as what.
ghost use Rattle.std.proofs.Props.{props};
ghost use Rattle.std.specs.Prelude.{◌≡◌, ◌+◌, ◌≤◌, ◌^◌, true, false, option_map, IfOk, IfSome, OnOk, OnErr};
ghost use Rattle.std.specs.Option.{option_and_then};
ghost use Rattle.hc_text.specs.Sorted.{has, itself};
ghost use Rattle.hc_rules.specs.Admissions.{admission_of, least_bound};
ghost use Rattle.hc_writers.specs.Group.{survivor};
ghost use Rattle.hc_entry.specs.Used.{IsUsed};

use crate::way::{Way, admission_by};
use hc_rules::{Admission, BoundKind};
use hc_text::{NoMemory, has_item, put_reserved, take_out};
use hc_writers::{Left, Writers};
use std::alloc::Global;

/// Who uses a representation: readers of what is stored, the members of a writer group, or those who
/// are left after a write was refused. It is never two of these.
#[derive(Drop)]
pub struct ActiveEntry {
    bound: Vec<u64>,
    // Who of them came alone.
    first: Option<u64>,
    way: Way,
    ghost used: { IsUsed bound.items way } by { Prim.hlevel props },
}

impl ActiveEntry {
    ghost use Rattle.hc_entry.specs.ActiveEntries.{used_of};
    ghost use Rattle.hc_entry.specs.Used.{alone_in, bindings, first_of, founded_by, group_in, grown_way, is_lost_in, left_answer, lost_by, moved_way, nobody, resumed_by, with_first, with_user, without_user, writer_in};

    /// Nobody is bound.
    pub fn new(alloc: Global) -> ActiveEntry
        ensures { used_of result ≡ nobody }
    {
        ActiveEntry {
            bound: Vec::new(alloc),
            first: None,
            way: Way::Readers,
        }
    }

    /// One founds the representation, and comes alone or not. An exchange may write that for several.
    pub fn founded(
        alloc: Global,
        c: u64,
        first: bool,
        writer: Option<u64>,
    ) -> Result<ActiveEntry, NoMemory>
        ensures { IfOk result (λ entry. used_of entry ≡ founded_by c first writer) }
    {
        let way = Way::begin(alloc, c, writer)?;
        let mut bound = Vec::new(alloc);
        bound.push(c)?;
        Ok(ActiveEntry {
            bound,
            first: if first { Some(c) } else { None },
            way,
        })
    }

    /// Who is bound, by number.
    pub fn bound(&self) -> &[u64]
        ensures { result.now ≡ (used_of self.now).bound }
    {
        self.bound.as_slice()
    }

    /// Whether the consumer is bound.
    pub fn is_bound(&self, c: u64) -> bool
        ensures { result ≡ has itself c (used_of self.now).bound }
    {
        has_item(self.bound.as_slice(), c)
    }

    /// Who of them came alone.
    pub fn first(&self) -> Option<u64>
        ensures { result ≡ (used_of self.now).first }
    {
        self.first
    }

    /// The exchange of the writer group, the last one.
    pub fn writer(&self) -> Option<u64>
        ensures { result ≡ writer_in (used_of self.now).way }
    {
        self.way.writer()
    }

    /// Whether a write was refused.
    pub fn is_lost(&self) -> bool
        ensures { result ≡ is_lost_in (used_of self.now).way }
    {
        self.way.is_lost()
    }

    /// Who goes on after that.
    pub fn alone(&self) -> Option<u64>
        ensures { result ≡ alone_in (used_of self.now).way }
    {
        self.way.alone()
    }

    /// The least consumer that is bound.
    pub fn least_bound(&self) -> Option<u64>
        ensures { result ≡ first_of (used_of self.now).bound }
    {
        self.bound.first().copied()
    }

    /// How one more consumer may be bound where all are bound so, where it wants a range or not, and
    /// where what it wants has holes or not.
    pub fn admission(&self, kind: BoundKind, ranged: bool, holes: bool) -> Admission
        ensures { result ≡ admission_of (bindings kind (used_of self.now)) ranged holes }
    {
        admission_by(kind, self.least_bound(), ranged, holes)
    }

    /// One more is bound, as all the others are.
    pub fn bind(&mut self, c: u64) -> Result<(), NoMemory>
        requires { has itself c (used_of self.old).bound ≡ false }
        ensures ok { OnOk result (used_of self.new ≡ with_user c (used_of self.old)) }
        ensures err { OnErr result (used_of self.new ≡ used_of self.old) }
    {
        self.bound.reserve(1)?;
        self.way.join(c)?;
        put_reserved(&mut self.bound, c);
        Ok(())
    }

    /// One more is bound, which comes alone.
    pub fn bind_first(&mut self, c: u64) -> Result<(), NoMemory>
        requires { has itself c (used_of self.old).bound ≡ false }
        ensures ok { OnOk result (used_of self.new ≡ with_first c (used_of self.old)) }
        ensures err { OnErr result (used_of self.new ≡ used_of self.old) }
    {
        self.bind(c)?;
        self.first = Some(c);
        Ok(())
    }

    /// The exchange writes for all who are bound from now on, where so much is stored.
    pub fn resume(&mut self, x: u64, end: u64) -> Result<(), NoMemory>
        requires { is_lost_in (used_of self.old).way ≡ false }
        ensures ok { OnOk result (used_of self.new ≡ resumed_by x end (used_of self.old)) }
        ensures err { OnErr result (used_of self.new ≡ used_of self.old) }
    {
        let alloc = *self.bound.allocator();
        let writers = Writers::of(alloc, x, self.bound.as_slice(), end)?;
        self.way = Way::Writers(writers);
        Ok(())
    }

    /// Whoever is bound stands there, where it is a member of the writer group.
    pub fn set_offset(&mut self, c: u64, offset: u64)
        ensures { used_of self.new
            ≡ record (used_of self.old) { way = moved_way c offset (used_of self.old).way } }
    {
        self.way.set_offset(c, offset);
    }

    /// So many bytes more are stored.
    pub fn arrived(&mut self, count: u64)
        requires { IfSome (group_in (used_of self.old).way) (λ g. g.end + count ≤ 2 ^ 62) }
        ensures { used_of self.new
            ≡ record (used_of self.old) { way = grown_way count (used_of self.old).way } }
    {
        self.way.grow(count);
    }

    /// A write was refused, and this one, if any, goes on. All stay bound.
    pub fn lose(&mut self, alone: Option<u64>)
        ensures { used_of self.new ≡ lost_by alone (used_of self.old) }
    {
        self.way = Way::Lost {
            alone,
            writer: self.way.writer(),
        };
    }

    /// A write was refused that is for several. Who of them goes on, if anybody. All stay bound.
    pub fn lose_shared(&mut self) -> Option<u64>
        ensures survivor { result
            ≡ option_and_then survivor (group_in (used_of self.old).way) }
        ensures lost { used_of self.new ≡ lost_by result (used_of self.old) }
    {
        self.way.lose()
    }

    /// One isn't bound any more. What its writer group is then.
    pub fn leave(&mut self, c: u64, keepable: bool) -> Option<Left>
        requires { has itself c (used_of self.old).bound ≡ true }
        ensures left { used_of self.new ≡ without_user c (used_of self.old) }
        ensures answer { result
            ≡ option_map (left_answer keepable c) (group_in (used_of self.old).way) }
    {
        take_out(&mut self.bound, c);
        if self.first == Some(c) {
            self.first = None;
        }
        self.way.leave(c, keepable)
    }
}

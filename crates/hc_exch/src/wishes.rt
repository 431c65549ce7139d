//! Which open exchanges are wanted: each is found at once, and they are listed without the others.
ghost use Rattle.std.specs.Prelude.{◌≡◌, true, false, OnOk, OnErr};
ghost use Rattle.hc_exch.specs.Wishes.{nobody, wants_more, asks, rests, leaves};
ghost use Rattle.hc_text.specs.Sorted.{is_among, itself, is_sorted};

use hc_text::{NoMemory, has_item, leave_out, put_reserved, take_out};
use std::alloc::Global;
use std::marker::Model;

/// The wanted exchanges, and those that wait for an ask, each by number. Each list has room for all
/// of them, so that one that goes from list to list takes no memory.
#[derive(Drop)]
pub(crate) struct Wishes {
    wanted: Vec<u64>,
    idle: Vec<u64>,
}

impl Model for Wishes {
    ghost use Rattle.std.specs.Prelude.{vec_len, vec_capacity};
    ghost use Rattle.hc_exch.specs.Wishes.{Wished, HasRoom};

    ghost Value = { Wished };

    ghost view = { λ w. record { wanted = w.wanted.items; idle = w.idle.items } };

    ghost invariant = { λ w. HasRoom w.wanted.items w.idle.items
        (vec_len w.wanted) (vec_len w.idle) (vec_capacity w.wanted) (vec_capacity w.idle) };
}

impl Wishes {
    /// None is open.
    pub(crate) fn new(alloc: Global) -> Wishes
        ensures { result ≡ nobody }
    {
        Wishes {
            wanted: Vec::new(alloc),
            idle: Vec::new(alloc),
        }
    }

    /// Those that are wanted.
    pub(crate) fn wanted(&self) -> &[u64]
        ensures wanted { result.now ≡ self.now.wanted }
        ensures ascending { is_sorted itself result.now ≡ true }
    {
        self.wanted.as_slice()
    }

    /// Whether it waits for an ask.
    pub(crate) fn is_idle(&self, x: u64) -> bool
        ensures { result ≡ is_among x self.now.idle }
    {
        has_item(self.idle.as_slice(), x)
    }

    /// Whether it is wanted.
    pub(crate) fn is_wanted(&self, x: u64) -> bool
        ensures { result ≡ is_among x self.now.wanted }
    {
        has_item(self.wanted.as_slice(), x)
    }

    /// One more is wanted.
    pub(crate) fn launch(&mut self, x: u64) -> Result<(), NoMemory>
        requires { is_among x self.old.wanted ≡ false }
        ensures ok { OnOk result (self.new ≡ wants_more x self.old) }
        ensures err { OnErr result (self.new ≡ self.old) }
    {
        let more = self.idle.len() + 1;
        self.wanted.reserve(more)?;
        let more = self.wanted.len() + 1;
        self.idle.reserve(more)?;
        put_reserved(&mut self.wanted, x);
        Ok(())
    }

    /// One that waited for an ask is wanted.
    pub(crate) fn ask(&mut self, x: u64)
        requires idle { is_among x self.old.idle ≡ true }
        requires not_wanted { is_among x self.old.wanted ≡ false }
        ensures { self.new ≡ asks x self.old }
    {
        take_out(&mut self.idle, x);
        put_reserved(&mut self.wanted, x);
    }

    /// One that was wanted waits for an ask.
    pub(crate) fn rest(&mut self, x: u64)
        requires wanted { is_among x self.old.wanted ≡ true }
        requires not_idle { is_among x self.old.idle ≡ false }
        ensures { self.new ≡ rests x self.old }
    {
        take_out(&mut self.wanted, x);
        put_reserved(&mut self.idle, x);
    }

    /// It isn't open any more.
    pub(crate) fn leave(&mut self, x: u64)
        ensures { self.new ≡ leaves x self.old }
    {
        leave_out(&mut self.wanted, x);
        leave_out(&mut self.idle, x);
    }
}

//! The order of the current representations.
ghost use Rattle.std.specs.Prelude.{◌≡◌, ◌<◌, ◌^◌, [], ◌∷◌, length, true, false, IfOk, OnOk, OnErr};
ghost use Rattle.std.specs.Map.{keys_of};
ghost use Rattle.hc_text.specs.Sorted.{has, without, itself};

use hc_text::NoMemory;
use lru::{Iter, LruCache};
use std::alloc::Global;
use std::iter::Rev;
use std::marker::Model;

/// Numbers, each once, in the order in which they were put first, the last one first.
#[derive(Drop)]
pub(crate) struct Order {
    cache: LruCache<u64, ()>,
}

impl Model for Order {
    ghost use Rattle.std.specs.Prelude.{◌≡◌, ◌^◌, ◌-◌, ℕ, List, nat_eq};
    ghost use Rattle.std.specs.List.{IsDistinct};
    ghost use Rattle.std.specs.Map.{keys_of};

    ghost Value = { List ℕ };

    ghost view = { λ o. keys_of o.cache.entries };

    ghost invariant = { λ o. (o.cache.cap ≡ 2 ^ 64 - 1)
        × IsDistinct nat_eq (keys_of o.cache.entries) };
}

impl Order {
    /// No number.
    pub(crate) fn new(alloc: Global) -> Result<Order, NoMemory>
        ensures { IfOk result (λ order. order ≡ []) }
    {
        Ok(Order {
            cache: LruCache::unbounded(alloc)?,
        })
    }

    /// One more stands first.
    pub(crate) fn put_first(&mut self, n: u64) -> Result<(), NoMemory>
        requires { has itself n self.old ≡ false }
        ensures ok { OnOk result (self.new ≡ n ∷ self.old) }
        ensures err { OnErr result (self.new ≡ self.old) }
    {
        // There is room for more than there can be, so that none is pushed out.
        let count = self.cache.len();
        let room = self.cache.cap().get();
        prove!(count < room);
        self.cache.put(n, ())?;
        Ok(())
    }

    /// The numbers from the last one to the first.
    pub(crate) fn from_last(&self) -> Rev<Iter<'_, u64, ()>>
        ensures { keys_of result.iter ≡ self.now }
    {
        self.cache.iter().rev()
    }

    /// How many there are.
    pub(crate) fn len(&self) -> usize
        ensures len { result ≡ length self.now }
        ensures fits { result < 2 ^ 63 }
    {
        self.cache.len()
    }

    /// One of them stands first.
    pub(crate) fn move_first(&mut self, n: u64)
        requires { has itself n self.old ≡ true }
        ensures { self.new ≡ n ∷ without itself n self.old }
    {
        self.cache.promote(&n);
    }

    /// One stands there no more.
    pub(crate) fn take_out(&mut self, n: u64)
        ensures { self.new ≡ without itself n self.old }
    {
        self.cache.pop(&n);
    }
}

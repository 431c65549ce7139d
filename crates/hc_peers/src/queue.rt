//! Bytes that come at one end and are used at the other.
ghost use Rattle.std.specs.Prelude.{◌≡◌, ◌≤◌, ◌<◌, ◌==◌, ◌++◌, ℕ, [], length, drop, OnOk, OnErr};
ghost use Rattle.hc_wire.specs.Wires.{HasWireCause};
ghost use Rattle.hc_peers.specs.Offers.{Offers, OffersSome};

use hc_text::NoMemory;
use hc_wire::{Wire, WireError};
use std::alloc::Global;
use std::marker::Model;

/// Bytes in order, of which the first are used one after another. What was used is left out only
/// where that is half of all, so that a byte is moved once on average.
///
/// A contract sees it as the bytes that weren't used.
#[derive(Drop)]
pub struct Queue {
    bytes: Vec<u8>,
    used: usize,
}

impl Model for Queue {
    ghost use Rattle.std.specs.Prelude.{◌≤◌, ℕ, List, drop, length};

    ghost Value = { List ℕ };

    ghost view = { λ q. drop q.used q.bytes.items };

    ghost invariant = { λ q. q.used ≤ length q.bytes.items };
}

impl Queue {
    /// No byte.
    pub fn new(alloc: Global) -> Queue
        ensures { result ≡ [] }
    {
        Queue {
            bytes: Vec::new(alloc),
            used: 0,
        }
    }

    /// These bytes.
    pub fn of(bytes: Vec<u8>) -> Queue
        ensures { result ≡ bytes.items }
    {
        Queue { bytes, used: 0 }
    }

    pub fn is_empty(&self) -> bool
        ensures { result ≡ (length self.now == 0) }
    {
        self.used == self.bytes.len()
    }

    /// The bytes that weren't used.
    pub fn rest(&self) -> &[u8]
        ensures { result.now ≡ self.now }
    {
        &self.bytes[self.used..]
    }

    /// These come last, or nothing changes.
    pub fn push(&mut self, more: &[u8]) -> Result<(), NoMemory>
        ensures ok { OnOk result (self.new ≡ self.old ++ more.now) }
        ensures err { OnErr result (self.new ≡ self.old) }
    {
        self.pack();
        self.bytes.extend_from_slice(more)?;
        Ok(())
    }

    /// So many more were used.
    pub fn skip(&mut self, n: usize)
        requires { n ≤ length self.old }
        ensures { self.new ≡ drop n self.old }
    {
        self.used += n;
        if self.used == self.bytes.len() {
            self.clear();
        }
    }

    /// All were used.
    pub fn clear(&mut self)
        ensures { self.new ≡ [] }
    {
        self.bytes.clear();
        self.used = 0;
    }

    /// The connection is offered all of them, and what it takes is used.
    pub fn offer<W: Wire>(&mut self, k: u64, wire: &mut W) -> Result<(), WireError>
        ensures ok { OnOk result
            (Offers k self.old self.new (W.log wire.old) (W.log wire.new)) }
        ensures err { OnErr result (OffersSome k self.old (W.log wire.old) (W.log wire.new)) }
        ensures kept { OnErr result (self.new ≡ self.old) }
        ensures some { OnErr result (0 < length self.old) }
        ensures stages { (j : ℕ) → W.stages wire.new j ≡ W.stages wire.old j }
        ensures events { W.events wire.new ≡ W.events wire.old }
        ensures cause { HasWireCause (W.faults wire.old) (W.faults wire.new) result }
    {
        if self.is_empty() {
            return Ok(());
        }
        let n = wire.send(k, self.rest())?;
        self.skip(n);
        Ok(())
    }

    /// What was used is left out, where that is half of all.
    fn pack(&mut self)
        ensures { self.new ≡ self.old }
    {
        let left = self.bytes.len() - self.used;
        if left <= self.used {
            self.bytes.drain(..self.used);
            self.used = 0;
        }
    }
}

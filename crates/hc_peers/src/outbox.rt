//! What a connection is owed and hasn't taken.
ghost use Rattle.std.specs.Prelude.{◌≡◌, ◌<◌, ◌==◌, ◌++◌, ℕ, [], length, OnOk, OnErr};
ghost use Rattle.hc_wire.specs.Wires.{HasWireCause};
ghost use Rattle.hc_peers.specs.Offers.{Offers, OffersSome};

use crate::handed::Handed;
use crate::queue::Queue;
use hc_text::{Bytes, NoMemory};
use hc_wire::{Wire, WireError};
use std::alloc::Global;
use std::marker::Model;

/// Bytes that are to be sent, in order. Those of a body are kept as they were handed in, between what
/// stands before and behind them.
///
/// A contract sees it as the bytes that weren't taken.
#[derive(Drop)]
pub struct Outbox {
    front: Queue,
    body: Handed,
    back: Queue,
}

impl Model for Outbox {
    ghost use Rattle.std.specs.Prelude.{ℕ, List, ◌++◌};

    ghost Value = { List ℕ };

    ghost view = { λ o. (o.front ++ o.body) ++ o.back };
}

impl Outbox {
    /// No byte.
    pub fn new(alloc: Global) -> Outbox
        ensures { result ≡ [] }
    {
        Outbox {
            front: Queue::new(alloc),
            body: Handed::of(Bytes::new()),
            back: Queue::new(alloc),
        }
    }

    pub fn is_empty(&self) -> bool
        ensures { result ≡ (length self.now == 0) }
    {
        self.front.is_empty() && self.body.is_empty() && self.back.is_empty()
    }

    /// These come last, or nothing changes.
    pub fn push(&mut self, more: &[u8]) -> Result<(), NoMemory>
        ensures ok { OnOk result (self.new ≡ self.old ++ more.now) }
        ensures err { OnErr result (self.new ≡ self.old) }
    {
        if self.body.is_empty() && self.back.is_empty() {
            self.front.push(more)
        } else {
            self.back.push(more)
        }
    }

    /// These come last. They aren't copied where no body waits.
    pub fn hand(&mut self, bytes: Bytes) -> Result<(), NoMemory>
        ensures ok { OnOk result (self.new ≡ self.old ++ bytes) }
        ensures err { OnErr result (self.new ≡ self.old) }
    {
        if self.body.is_empty() && self.back.is_empty() {
            self.body = Handed::of(bytes);
            Ok(())
        } else {
            self.back.push(bytes.as_slice())
        }
    }

    /// The connection is offered all of them, in order, and what it takes is sent.
    pub fn offer<W: Wire>(&mut self, k: u64, wire: &mut W) -> Result<(), WireError>
        ensures ok { OnOk result
            (Offers k self.old self.new (W.log wire.old) (W.log wire.new)) }
        ensures err { OnErr result (OffersSome k self.old (W.log wire.old) (W.log wire.new)) }
        ensures some { OnErr result (0 < length self.old) }
        ensures left { OnErr result (0 < length self.new) }
        ensures stages { (j : ℕ) → W.stages wire.new j ≡ W.stages wire.old j }
        ensures events { W.events wire.new ≡ W.events wire.old }
        ensures cause { HasWireCause (W.faults wire.old) (W.faults wire.new) result }
    {
        self.front.offer(k, wire)?;
        if !self.front.is_empty() {
            return Ok(());
        }
        self.body.offer(k, wire)?;
        if !self.body.is_empty() {
            return Ok(());
        }
        self.back.offer(k, wire)
    }
}

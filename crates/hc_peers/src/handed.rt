//! Bytes of a body that are used from the first on.
ghost use Rattle.std.specs.Prelude.{◌≡◌, ◌<◌, ◌==◌, ℕ, [], length, drop, OnOk, OnErr};
ghost use Rattle.hc_wire.specs.Wires.{HasWireCause};
ghost use Rattle.hc_peers.specs.Offers.{Offers, OffersSome};

use hc_text::Bytes;
use hc_wire::{Wire, WireError};
use std::marker::Model;

/// Bytes as they were handed in, of which the first are used one after another.
///
/// A contract sees it as the bytes that weren't used.
#[derive(Drop)]
pub(crate) struct Handed {
    bytes: Bytes,
    used: usize,
}

impl Model for Handed {
    ghost use Rattle.std.specs.Prelude.{◌≤◌, ℕ, List, drop, length};

    ghost Value = { List ℕ };

    ghost view = { λ h. drop h.used h.bytes };

    ghost invariant = { λ h. h.used ≤ length h.bytes };
}

impl Handed {
    /// None of these is used.
    pub(crate) fn of(bytes: Bytes) -> Handed
        ensures { result ≡ bytes }
    {
        Handed { bytes, used: 0 }
    }

    pub(crate) fn is_empty(&self) -> bool
        ensures { result ≡ (length self.now == 0) }
    {
        self.used == self.bytes.len()
    }

    /// The connection is offered all of them, and what it takes is used.
    pub(crate) fn offer<W: Wire>(&mut self, k: u64, wire: &mut W) -> Result<(), WireError>
        ensures ok { OnOk result
            (Offers k self.old self.new (W.log wire.old) (W.log wire.new)) }
        ensures err { OnErr result (OffersSome k self.old (W.log wire.old) (W.log wire.new)) }
        ensures kept { OnErr result (self.new ≡ self.old) }
        ensures some { OnErr result (0 < length self.old) }
        ensures stages { (j : ℕ) → W.stages wire.new j ≡ W.stages wire.old j }
        ensures events { W.events wire.new ≡ W.events wire.old }
        ensures cause { HasWireCause (W.faults wire.old) (W.faults wire.new) result }
    {
        if self.is_empty() {
            return Ok(());
        }
        let left = self.bytes.len() - self.used;
        let n = wire.hand(k, &mut self.bytes, self.used)?;
        self.used = if n == left { 0 } else { self.used + n };
        Ok(())
    }
}

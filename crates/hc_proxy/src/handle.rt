//! The step *handle*: what an event of the wire does.
ghost use Rattle.std.specs.Prelude.{◌≡◌, ◌+◌, ◌<◌, ◌≤◌, ◌^◌, ℕ, List, false, length, OnOk};
ghost use Rattle.hc_core.specs.Steps.{faults_in, steps};
ghost use Rattle.hc_peers.specs.Agreement.{is_at};
ghost use Rattle.hc_peers.specs.Upstreams.{upstream_of};
ghost use Rattle.hc_wire.specs.Events.{FitsIn};
ghost use Rattle.hc_wire.specs.declared.event.WireEvent.TheVariants as wire;
ghost use Rattle.hc_proxy.specs.Connections.{exchange_of};
ghost use Rattle.hc_proxy.specs.Handling.{handled, client_comes, client_leaves, sends, ends, broke};
ghost use Rattle.hc_proxy.specs.Keeping.{Turn, Begun, IsBegun, AtEvent, IsAtEvent, HangsUp, KeepsQuiet, Goes};
ghost use Rattle.hc_proxy.specs.Rows as rows;

use crate::proxy::Proxy;
use hc_event::Event;
use hc_store::Backend;
use hc_text::NoMemory;
use hc_wire::WireEvent;

/// So many clients are connected at once, at most.
const MOST_CLIENTS: usize = 512;

impl<B: Backend> Proxy<B> {
    /// Handles the event. The bytes of a `Got` stand first in the slice.
    pub(crate) fn handle(&mut self, event: WireEvent, slice: &[u8]) -> Result<(), NoMemory>
        requires begun { ∥ IsBegun self.old event slice.now ∥₁ }
        requires fits { FitsIn event (length slice.now) }
        requires few { steps self.old.cache < 2 ^ 60 }
        ensures goes { (t : Turn) (p : rows.Proxy) → Begun t self.old p event slice.now
            → OnOk result (Goes (KeepsQuiet t) (faults_in self.old.cache) self.new
            (handled t.frame.limits t.dialled t.call p)) }
        ensures steps { OnOk result (steps self.new.cache ≤ steps self.old.cache + 1) }
    {
        match event {
            WireEvent::Accepted(k) => self.client_comes(k),
            WireEvent::Got(k, n) => self.got(k, &slice[..n]),
            WireEvent::Ended(k) => self.ended(k),
            WireEvent::Broke(k) => self.broke(k),
            WireEvent::Room(_) => Ok(()),
            WireEvent::Quiet => Ok(()),
        }
    }

    /// A client more, where there are fewer than 512. A further one is closed at once.
    fn client_comes(&mut self, k: u64) -> Result<(), NoMemory>
        requires begun { ∥ ((slice : List ℕ) × IsBegun self.old (wire.Accepted k) slice) ∥₁ }
        ensures goes { (t : Turn) (p : rows.Proxy) (slice : List ℕ)
            → Begun t self.old p (wire.Accepted k) slice
            → OnOk result (Goes (KeepsQuiet t) (faults_in self.old.cache) self.new
            (client_comes k p)) }
        ensures steps { OnOk result (steps self.new.cache ≡ steps self.old.cache) }
    {
        if self.clients.len() >= MOST_CLIENTS {
            self.closed.push(k)?;
            return Ok(());
        }
        self.clients.come(k)?;
        Ok(())
    }

    /// Bytes came of a connection.
    fn got(&mut self, k: u64, bytes: &[u8]) -> Result<(), NoMemory>
        ensures goes { (t : Turn) (p : rows.Proxy) → AtEvent t self.old p k
            → t.call.bytes ≡ bytes.now
            → OnOk result (Goes (KeepsQuiet t) (faults_in self.old.cache) self.new
            (sends (exchange_of t.dialled k) k bytes.now p)) }
        ensures steps { OnOk result (steps self.new.cache ≡ steps self.old.cache) }
    {
        match self.upstreams.exchange(k) {
            Some(x) => self.upstreams.receive(x, bytes)?,
            None => self.clients.receive(k, bytes)?,
        }
        Ok(())
    }

    /// No more comes of a connection.
    fn ended(&mut self, k: u64) -> Result<(), NoMemory>
        requires at { ∥ IsAtEvent self.old k ∥₁ }
        requires few { steps self.old.cache < 2 ^ 60 }
        ensures goes { (t : Turn) (p : rows.Proxy) → AtEvent t self.old p k
            → OnOk result (Goes (KeepsQuiet t) (faults_in self.old.cache) self.new
            (ends t.frame.limits (exchange_of t.dialled k) k p)) }
        ensures steps { OnOk result (steps self.new.cache ≤ steps self.old.cache + 1) }
    {
        match self.upstreams.exchange(k) {
            Some(x) => {
                self.upstreams.end(x)?;
                Ok(())
            }
            None => self.client_leaves(k),
        }
    }

    /// A connection is broken.
    fn broke(&mut self, k: u64) -> Result<(), NoMemory>
        requires at { ∥ IsAtEvent self.old k ∥₁ }
        requires few { steps self.old.cache < 2 ^ 60 }
        ensures goes { (t : Turn) (p : rows.Proxy) → AtEvent t self.old p k
            → OnOk result (Goes (KeepsQuiet t) (faults_in self.old.cache) self.new
            (broke t.frame.limits (exchange_of t.dialled k) k p)) }
        ensures steps { OnOk result (steps self.new.cache ≤ steps self.old.cache + 1) }
    {
        match self.upstreams.exchange(k) {
            Some(x) => {
                self.happen(Event::Fault { x })?;
                self.hang_up(x)
            }
            None => self.client_leaves(k),
        }
    }

    /// The client's consumer is cancelled, and its connection closed.
    fn client_leaves(&mut self, k: u64) -> Result<(), NoMemory>
        requires at { ∥ IsAtEvent self.old k ∥₁ }
        requires few { steps self.old.cache < 2 ^ 60 }
        ensures goes { (t : Turn) (p : rows.Proxy) → AtEvent t self.old p k
            → ((x : ℕ) → is_at k (upstream_of self.old.upstreams x) ≡ false)
            → OnOk result (Goes (KeepsQuiet t) (faults_in self.old.cache) self.new
            (client_leaves t.frame.limits k p)) }
        ensures steps { OnOk result (steps self.new.cache ≤ steps self.old.cache + 1) }
    {
        let Some(client) = self.clients.leave(k) else {
            return Ok(());
        };
        self.closed.push(k)?;
        if let Some(c) = client.consumer {
            self.happen(Event::Cancel { c })?;
        }
        Ok(())
    }

    /// The exchange is over: its connection is closed.
    pub(crate) fn hang_up(&mut self, x: u64) -> Result<(), NoMemory>
        ensures ok { OnOk result (HangsUp x self.old self.new) }
        ensures cache { self.new.cache ≡ self.old.cache }
    {
        if let Some(k) = self.upstreams.hang_up(x) {
            self.closed.push(k)?;
        }
        Ok(())
    }
}

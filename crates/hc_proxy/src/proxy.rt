//! What the loop keeps, and one step of its cache.
ghost use Rattle.std.specs.Prelude.{◌≡◌, ◌+◌, ◌<◌, ◌≤◌, ◌^◌, true, [], length, drop, OnOk, IfOk};
ghost use Rattle.hc_event.specs.Acts.{act_list};
ghost use Rattle.hc_event.specs.Filters.{is_denied};
ghost use Rattle.hc_model.specs.Tables.{received_in};
ghost use Rattle.hc_sched.specs.Schedule.{IsEvent};
ghost use Rattle.hc_core.specs.Steps.{steps, bytes_received};
ghost use Rattle.hc_wire.specs.Logs.{Log};
ghost use Rattle.hc_proxy.specs.Endings.{IsFresh};
ghost use Rattle.hc_proxy.specs.Keeping.{Frame, HasCache, IsUnused, StandsForSome, IsNumbered, Stepped, RestStays};
ghost use Rattle.hc_proxy.specs.Records.{text_of};
ghost use Rattle.hc_proxy.specs.Resting.{Rests};
ghost use Rattle.hc_proxy.specs.Invariants.{unread};
ghost use Rattle.hc_proxy.specs.Rows.{unused};
ghost use Rattle.hc_proxy.specs.Rows as rows;

use crate::record::Record;
use hc_core::Cache;
use hc_event::{Act, Acts, Event};
use hc_peers::{Clients, Upstreams};
use hc_sched::Timed;
use hc_store::Backend;
use hc_text::NoMemory;
use std::alloc::Global;

/// A cache that serves who is connected.
#[derive(Drop)]
pub(crate) struct Proxy<B: Backend> {
    pub(crate) cache: Cache<B>,
    pub(crate) record: Record,
    /// The acts of this turn.
    pub(crate) acts: Acts,
    /// The greatest moment that was seen.
    pub(crate) now: u64,
    /// The number of the last consumer.
    pub(crate) starts: u64,
    /// Whether a front answers requests on condition of a copy.
    pub(crate) front: bool,
    /// In this turn something happened beside polls whose consumers wait.
    pub(crate) moved: bool,
    pub(crate) clients: Clients,
    pub(crate) upstreams: Upstreams,
    /// The connections that are closed in this turn.
    pub(crate) closed: Vec<u64>,
    /// Those over which a step goes.
    pub(crate) round: Vec<u64>,
}

impl<B: Backend> Proxy<B> {
    /// Over a cache that stepped no event yet, with nobody connected. The last consumer of the contents
    /// that it began with has the number `last`.
    pub(crate) fn new(alloc: Global, cache: Cache<B>, last: u64, front: bool) -> Proxy<B>
        ensures cache { result.cache ≡ cache }
        ensures written { text_of result.«record» ≡ [] }
        ensures rests { (f : Frame) (log : Log) → IsUnused f cache
            → last ≡ f.setting.contents.last_consumer → front ≡ f.setting.front → IsFresh log
            → Rests f result (unused f.setting) log }
    {
        let now = cache.last_moment();
        Proxy {
            cache,
            record: Record::new(alloc, now),
            acts: Acts::new(alloc),
            now,
            starts: last,
            front,
            moved: false,
            clients: Clients::new(alloc),
            upstreams: Upstreams::new(alloc),
            closed: Vec::new(alloc),
            round: Vec::new(alloc),
        }
    }

    /// The cache answers an event, which is recorded. Where its acts begin among those of the turn.
    pub(crate) fn step(&mut self, event: Event) -> Result<usize, NoMemory>
        requires stands { ∥ StandsForSome self.old ∥₁ }
        requires spelled { IsEvent event }
        requires numbered { IsNumbered self.old.starts event }
        requires few { steps self.old.cache < 2 ^ 60 }
        requires small { bytes_received self.old.cache + received_in event < 2 ^ 61 }
        ensures first { IfOk result (λ n. n ≡ length (act_list self.old.acts)) }
        ensures stepped { OnOk result ((f : Frame) (p : rows.Proxy) → HasCache f self.old p
            → unread p + bytes_received self.old.cache + received_in event ≤ f.bytes
            → Stepped f self.old self.new event p) }
        ensures rest { OnOk result (RestStays self.old self.new) }
        ensures moved { self.new.moved ≡ self.old.moved }
        ensures steps { OnOk result (steps self.new.cache ≡ steps self.old.cache + 1) }
    {
        let timed = Timed {
            now: self.now,
            event,
        };
        self.record.add(&timed)?;
        let first = self.acts.list().len();
        self.cache.step(self.now, &timed.event, &mut self.acts)?;
        Ok(first)
    }

    /// The same, of an event that is no poll.
    pub(crate) fn happen(&mut self, event: Event) -> Result<usize, NoMemory>
        requires stands { ∥ StandsForSome self.old ∥₁ }
        requires spelled { IsEvent event }
        requires numbered { IsNumbered self.old.starts event }
        requires few { steps self.old.cache < 2 ^ 60 }
        requires small { bytes_received self.old.cache + received_in event < 2 ^ 61 }
        ensures first { IfOk result (λ n. n ≡ length (act_list self.old.acts)) }
        ensures stepped { OnOk result ((f : Frame) (p : rows.Proxy) → HasCache f self.old p
            → unread p + bytes_received self.old.cache + received_in event ≤ f.bytes
            → Stepped f self.old self.new event p) }
        ensures rest { OnOk result (RestStays self.old self.new) }
        ensures moved { self.new.moved ≡ true }
        ensures steps { OnOk result (steps self.new.cache ≡ steps self.old.cache + 1) }
    {
        self.moved = true;
        self.step(event)
    }

    /// Whether the last event was denied, whose acts begin there.
    pub(crate) fn is_denied(&self, first: usize) -> bool
        requires { first ≤ length (act_list self.now.acts) }
        ensures { result ≡ is_denied (drop first (act_list self.entry.now.acts)) }
    {
        matches!(&self.acts.list()[first..], [Act::Denied { .. }])
    }
}

//! The table of connections to the origin.
ghost use Rattle.std.specs.Prelude.{◌≡◌, ◌≤◌, ◌&&◌, ◌++◌, ℕ, length, true, false, Contains, OnOk, OnErr, IfOk, IfSome, IfNone};
ghost use Rattle.std.specs.List.Sorted.{IsStrictlySortedBy};
ghost use Rattle.std.specs.Option.{option_map, is_some};
ghost use Rattle.std.specs.Ordering.{nat_cmp};
ghost use Rattle.std.specs.Result.{is_ok};
ghost use Rattle.hc_msg.specs.Taking.{ending};
ghost use Rattle.hc_wire.specs.Wires.{HasWireCause};
ghost use Rattle.hc_peers.specs.Agreement.{IsDialledTable, AreThere, is_at};
ghost use Rattle.hc_peers.specs.Offers.{OffersSome};
ghost use Rattle.hc_peers.specs.Origins.{new_upstream, received, at_its_end, finished};

use crate::note::report_reading;
use crate::upstream::Upstream;
use hc_head::MsgError;
use hc_msg::{Look, WirePart};
use hc_text::NoMemory;
use hc_wire::{Wire, WireError};
use std::alloc::Global;
use std::collections::{BTreeSet, HashMap};

/// The connections to the origin by exchange, and which of them are looked at.
#[derive(Drop)]
pub struct Upstreams {
    alloc: Global,
    rows: HashMap<u64, Upstream>,
    /// The exchange of each connection.
    dialled: HashMap<u64, u64>,
    /// Of these something may be handed to the cache.
    news: BTreeSet<u64>,
    /// These are to be looked at when all is sent.
    touched: BTreeSet<u64>,
    ghost inverse: { IsDialledTable rows dialled },
    ghost there: { AreThere rows news },
}

impl Upstreams {
    ghost use Rattle.hc_peers.specs.Offering.{IsOfferedOrigin, unsent_up, number_at};
    ghost use Rattle.hc_peers.specs.Upstreams.{upstream_of, news_of, is_news, touched_of, is_touched, connections_of, count_of, has_news_at, has_ended_at, look_at, number_of, lacks_at, Becomes, Stays, OthersStay, ListsStay, Marks, TakesOf};

    /// No connection.
    pub fn new(alloc: Global) -> Upstreams
        ensures none { (x : ℕ) → upstream_of result x ≡ None }
        ensures lists { (x : ℕ) → is_news result x ≡ false }
    {
        Upstreams {
            alloc,
            rows: HashMap::new(alloc),
            dialled: HashMap::new(alloc),
            news: BTreeSet::new(alloc),
            touched: BTreeSet::new(alloc),
        }
    }

    /// The exchange `x` has the connection `k`, which is owed these bytes and is touched.
    pub fn open(&mut self, x: u64, k: u64, no_body: bool, owed: Vec<u8>) -> Result<(), NoMemory>
        requires new { upstream_of self.old x ≡ None }
        requires fresh { (y : ℕ) → is_at k (upstream_of self.old y) ≡ false }
        ensures ok { OnOk result
            (Becomes x (Some (new_upstream k no_body owed.items)) self.old self.new) }
        ensures news { OnOk result ((y : ℕ) → is_news self.new y ≡ is_news self.old y) }
        ensures touched { OnOk result
            (Marks (is_touched self.old) (is_touched self.new) x true) }
    {
        let upstream = Upstream::new(self.alloc, k, no_body, owed);
        self.touched.insert(x)?;
        self.dialled.insert(k, x)?;
        if let Err(refused) = self.rows.insert(x, upstream) {
            self.dialled.remove(&k);
            return Err(refused.into());
        }
        Ok(())
    }

    /// The exchange of a connection.
    pub fn exchange(&self, k: u64) -> Option<u64>
        ensures some { IfSome result (λ x. is_at k (upstream_of self.now x) ≡ true) }
        ensures none { IfNone result ((x : ℕ) → is_at k (upstream_of self.now x) ≡ false) }
    {
        self.dialled.get(&k).copied()
    }

    /// Bytes came of the exchange.
    pub fn receive(&mut self, x: u64, bytes: &[u8]) -> Result<(), NoMemory>
        ensures ok { OnOk result (Becomes x
            (option_map (received bytes.now) (upstream_of self.old x)) self.old self.new) }
        ensures news { OnOk result (Marks (is_news self.old) (is_news self.new) x
            (is_some (upstream_of self.old x))) }
        ensures touched { OnOk result ((y : ℕ) → is_touched self.new y ≡ is_touched self.old y) }
    {
        let Some(upstream) = self.rows.get_mut(&x) else {
            return Ok(());
        };
        upstream.input.push(bytes)?;
        self.news.insert(x)?;
        Ok(())
    }

    /// No more comes of the exchange.
    pub fn end(&mut self, x: u64) -> Result<(), NoMemory>
        ensures ok { OnOk result (Becomes x
            (option_map at_its_end (upstream_of self.old x)) self.old self.new) }
        ensures news { OnOk result (Marks (is_news self.old) (is_news self.new) x
            (is_some (upstream_of self.old x))) }
        ensures touched { OnOk result ((y : ℕ) → is_touched self.new y ≡ is_touched self.old y) }
    {
        let Some(upstream) = self.rows.get_mut(&x) else {
            return Ok(());
        };
        upstream.ended = true;
        self.news.insert(x)?;
        Ok(())
    }

    /// The cache asked for more of the exchange.
    pub fn ask(&mut self, x: u64) -> Result<(), NoMemory>
        ensures ok { OnOk result (Stays self.old self.new) }
        ensures news { OnOk result (Marks (is_news self.old) (is_news self.new) x
            (is_some (upstream_of self.old x))) }
        ensures touched { OnOk result
            (Marks (is_touched self.old) (is_touched self.new) x true) }
    {
        if self.rows.contains_key(&x) {
            self.news.insert(x)?;
        }
        self.touch(x)
    }

    /// The exchange is to be looked at when all is sent.
    pub fn touch(&mut self, x: u64) -> Result<(), NoMemory>
        ensures ok { OnOk result (Stays self.old self.new) }
        ensures news { OnOk result ((y : ℕ) → is_news self.new y ≡ is_news self.old y) }
        ensures touched { OnOk result
            (Marks (is_touched self.old) (is_touched self.new) x true) }
    {
        self.touched.insert(x)?;
        Ok(())
    }

    /// Nothing more is to be handed to the cache of the exchange.
    pub fn forget_news(&mut self, x: u64)
        ensures stays { Stays self.old self.new }
        ensures news { Marks (is_news self.old) (is_news self.new) x false }
        ensures touched { (y : ℕ) → is_touched self.new y ≡ is_touched self.old y }
    {
        self.news.remove(&x);
    }

    /// Appends those of which something may be handed to the cache, in ascending order. They are no
    /// more than there are connections.
    pub fn list_news(&self, to: &mut Vec<u64>) -> Result<(), NoMemory>
        ensures listed { OnOk result (to.new.items ≡ to.old.items ++ news_of self.now) }
        ensures few { length (news_of self.now) ≤ count_of self.now }
        ensures ordered { IsStrictlySortedBy nat_cmp (news_of self.now) }
    {
        for x in self.news.iter() {
            to.push(*x)?;
        }
        Ok(())
    }

    /// Appends those that are to be looked at, in ascending order.
    pub fn list_touched(&self, to: &mut Vec<u64>) -> Result<(), NoMemory>
        ensures listed { OnOk result (to.new.items ≡ to.old.items ++ touched_of self.now) }
        ensures ordered { IsStrictlySortedBy nat_cmp (touched_of self.now) }
    {
        for x in self.touched.iter() {
            to.push(*x)?;
        }
        Ok(())
    }

    /// Appends the connections of all.
    pub fn list_connections(&self, to: &mut Vec<u64>) -> Result<(), NoMemory>
        ensures listed { OnOk result (to.new.items ≡ to.old.items ++ connections_of self.now) }
        ensures all { (x : ℕ) (upstream : Upstream) → upstream_of self.now x ≡ Some upstream
            → Contains (connections_of self.now) upstream.k }
    {
        for k in self.dialled.keys() {
            to.push(*k)?;
        }
        Ok(())
    }

    /// Whether a part may stand next.
    pub fn has_news(&self, x: u64) -> bool
        ensures { result ≡ has_news_at (upstream_of self.now x) }
    {
        match self.rows.get(&x) {
            Some(upstream) => upstream.has_news(),
            None => false,
        }
    }

    /// Whether the connection of the exchange has ended.
    pub fn has_ended(&self, x: u64) -> bool
        ensures { result ≡ has_ended_at (upstream_of self.now x) }
    {
        match self.rows.get(&x) {
            Some(upstream) => upstream.ended,
            None => false,
        }
    }

    /// Reads what stands next of the exchange, of a body at most 16,384 bytes.
    pub fn take(&mut self, x: u64) -> Result<Option<WirePart>, MsgError>
        ensures some { (upstream : Upstream) → upstream_of self.old x ≡ Some upstream
            → TakesOf x self.old self.new upstream result }
        ensures none { upstream_of self.old x ≡ None
            → (result ≡ Ok None) × Stays self.old self.new }
        ensures lists { ListsStay self.old self.new }
    {
        match self.rows.get_mut(&x) {
            Some(upstream) => upstream.take(),
            None => Ok(None),
        }
    }

    /// What that would come to.
    pub fn look(&self, x: u64) -> Result<Look, NoMemory>
        ensures { IfOk result (λ found. found ≡ look_at (upstream_of self.now x)) }
    {
        match self.rows.get(&x) {
            Some(upstream) => upstream.reader.look(upstream.input.rest()),
            None => Ok(Look::Waits),
        }
    }

    /// The connection has ended: whether the answer is whole by that (RFC 9112 section 8).
    pub fn finish(&mut self, x: u64) -> bool
        ensures some { (upstream : Upstream) → upstream_of self.old x ≡ Some upstream
            → result ≡ is_ok (ending upstream.reader) }
        ensures row { (upstream : Upstream) → upstream_of self.old x ≡ Some upstream
            → Becomes x (Some (finished upstream)) self.old self.new }
        ensures others { OthersStay x self.old self.new }
        ensures lists { ListsStay self.old self.new }
    {
        match self.rows.get_mut(&x) {
            Some(upstream) => upstream.reader.finish().is_ok(),
            None => false,
        }
    }

    /// The exchange is over. Answers its connection.
    pub fn hang_up(&mut self, x: u64) -> Option<u64>
        ensures found { result ≡ option_map number_of (upstream_of self.old x) }
        ensures gone { Becomes x None self.old self.new }
        ensures news { Marks (is_news self.old) (is_news self.new) x false }
        ensures touched { Marks (is_touched self.old) (is_touched self.new) x false }
    {
        self.news.remove(&x);
        self.touched.remove(&x);
        let upstream = self.rows.remove(&x)?;
        self.dialled.remove(&upstream.k);
        Some(upstream.k)
    }

    /// The connection of the exchange is offered what it is owed, and the wire is told whether it is
    /// read. It stays touched while it lacks something.
    pub fn offer<W: Wire>(&mut self, x: u64, on: bool, wire: &mut W) -> Result<(), WireError>
        ensures ok { OnOk result
            (IsOfferedOrigin W.stages W.log x on self.old self.new wire.old wire.new) }
        ensures news { OnOk result ((y : ℕ) → is_news self.new y ≡ is_news self.old y) }
        ensures touched { OnOk result (Marks (is_touched self.old) (is_touched self.new) x
            (is_touched self.old x && lacks_at (upstream_of self.new x))) }
        ensures err { OnErr result (OffersSome (number_at (upstream_of self.old x))
            (unsent_up (upstream_of self.old x)) (W.log wire.old) (W.log wire.new)) }
        ensures events { W.events wire.new ≡ W.events wire.old }
        ensures cause { HasWireCause (W.faults wire.old) (W.faults wire.new) result }
    {
        let Some(upstream) = self.rows.get_mut(&x) else {
            self.touched.remove(&x);
            return Ok(());
        };
        upstream.unsent.offer(upstream.k, wire)?;
        report_reading(upstream.k, &mut upstream.reading, on, wire);
        if upstream.unsent.is_empty() {
            self.touched.remove(&x);
        }
        Ok(())
    }
}

//! The step *network*: what the origin sent is handed to the cache.
ghost use Rattle.std.specs.Prelude.{◌≡◌, ◌+◌, ◌<◌, ◌≤◌, ◌^◌, ◌&&◌, not, true, All, OnOk, IfOk};
ghost use Rattle.hc_core.specs.Steps.{faults_in, steps, bytes_received};
ghost use Rattle.hc_event.specs.declared.event.Event.TheVariants as event;
ghost use Rattle.hc_head.specs.declared.message.MsgError.TheVariants as error;
ghost use Rattle.hc_model.specs.Exchanges.{is_open, is_wanted};
ghost use Rattle.hc_msg.specs.declared.message.Look.TheVariants as look;
ghost use Rattle.hc_peers.specs.Upstreams.{upstream_of, is_news, has_news_at, has_ended_at, look_at};
ghost use Rattle.hc_sched.specs.Schedule.{IsSmall};
ghost use Rattle.hc_proxy.specs.Hearing.{IsFit, length_of, has_next, OnlyRound, PartStepped, IsHeardAt, MayTake, MayStep, IsOpenHere, HasHanded, HasFinished, HasHeard, NewsStays, NewsOff};
ghost use Rattle.hc_proxy.specs.Invariants.{unread};
ghost use Rattle.hc_proxy.specs.Keeping.{Frame, Turn, HasCache, StandsForSome, Stepped, RestStays, KeepsBut, KeepsQuiet, KeepsHeard, IsQuiet, Goes};
ghost use Rattle.hc_proxy.specs.Network.{handed, closed, heard};
ghost use Rattle.hc_proxy.specs.Resting.{Rests};
ghost use Rattle.hc_proxy.specs.Rows as rows;
ghost use Rattle.hc_proxy.specs.Waiting.{hears_nothing};
ghost use Rattle.hc_wire.specs.Logs.{Log};

use crate::proxy::Proxy;
use hc_event::Event;
use hc_head::MsgError;
use hc_msg::{Look, WirePart};
use hc_store::Backend;
use hc_text::NoMemory;

impl<B: Backend> Proxy<B> {
    /// For each open exchange in ascending order: a part, where it is wanted, and its end.
    pub(crate) fn network(&mut self) -> Result<(), NoMemory>
        requires stands { ∥ IsQuiet self.old ∥₁ }
        requires few { steps self.old.cache + 1024 ≤ 2 ^ 60 }
        ensures goes { (t : Turn) (p : rows.Proxy) → KeepsQuiet t self.old p
            → OnOk result (Goes (KeepsHeard t) (faults_in self.old.cache) self.new
            (heard t.frame.limits p)) }
        ensures steps { OnOk result (steps self.new.cache ≤ steps self.old.cache + 1024) }
    {
        self.round.clear();
        self.upstreams.list_news(&mut self.round)?;
        for i in 0..self.round.len() {
            let x = self.round[i];
            self.hear(x)?;
        }
        Ok(())
    }

    /// What is to be handed to the cache of an exchange, which is hung up if it is over by that.
    fn hear(&mut self, x: u64) -> Result<(), NoMemory>
        requires may { ∥ MayStep 2 x self.old ∥₁ }
        requires listed { is_news self.old.upstreams x ≡ true }
        ensures goes { (t : Turn) (p : rows.Proxy) → KeepsQuiet t self.old p
            → OnOk result (Goes (HasHeard x t p (steps self.old.cache)) (faults_in self.old.cache)
            self.new (closed t.frame.limits x (handed t.frame.limits x p))) }
        ensures news { OnOk result (NewsOff x self.old self.new) }
        ensures round { OnOk result (self.new.round ≡ self.old.round) }
    {
        self.hand(x)?;
        self.finish(x)?;
        self.settle(x)
    }

    /// What is over is hung up. The others are looked at when all is sent.
    fn settle(&mut self, x: u64) -> Result<(), NoMemory>
        ensures goes { (t : Turn) (p : rows.Proxy) → KeepsBut x t self.old p → IsHeardAt x p
            → is_news self.old.upstreams x ≡ true → OnOk result (KeepsQuiet t self.new p) }
        ensures cache { OnOk result (self.new.cache ≡ self.old.cache) }
        ensures news { OnOk result (NewsOff x self.old self.new) }
        ensures round { OnOk result (self.new.round ≡ self.old.round) }
    {
        if !self.cache.is_open(x) {
            return self.hang_up(x);
        }
        self.upstreams.touch(x)?;
        if self.is_wanted(x) {
            return Ok(());
        }
        self.upstreams.forget_news(x);
        Ok(())
    }

    /// The cache wants a part of the exchange, and one may stand next.
    fn is_wanted(&self, x: u64) -> bool
        ensures { (f : Frame) (p : rows.Proxy) → HasCache f self.entry.now p
            → result ≡ (is_wanted (p.tables.exchange x)
            && has_news_at (upstream_of self.entry.now.upstreams x)) }
    {
        self.cache.wants(x) && self.upstreams.has_news(x)
    }

    /// Hands a part to the cache, where that wants one.
    fn hand(&mut self, x: u64) -> Result<(), NoMemory>
        requires may { ∥ MayStep 2 x self.old ∥₁ }
        ensures goes { (t : Turn) (p : rows.Proxy) → KeepsBut x t self.old p
            → OnOk result (Goes (HasHanded x t p (steps self.old.cache)) (faults_in self.old.cache)
            self.new (handed t.frame.limits x p)) }
        ensures news { OnOk result (NewsStays self.old self.new) }
        ensures round { OnOk result (self.new.round ≡ self.old.round) }
    {
        if !self.is_wanted(x) {
            return Ok(());
        }
        match self.upstreams.take(x) {
            Ok(None) => Ok(()),
            Ok(Some(part)) => self.step_part(x, part),
            Err(e) => self.fail_by(x, e),
        }
    }

    /// What came is at an error, or memory was refused.
    fn fail_by(&mut self, x: u64, e: MsgError) -> Result<(), NoMemory>
        requires stands { ∥ StandsForSome self.old ∥₁ }
        requires small { IsSmall x }
        requires few { steps self.old.cache < 2 ^ 60 }
        ensures other { OnOk result (e ≡ error.NoMemory → ⊥) }
        ensures stepped { OnOk result ((f : Frame) (p : rows.Proxy) → HasCache f self.old p
            → Stepped f self.old self.new (event.Fault x) p) }
        ensures rest { OnOk result (RestStays self.old self.new) }
        ensures moved { OnOk result (self.new.moved ≡ true) }
        ensures steps { OnOk result (steps self.new.cache ≡ steps self.old.cache + 1) }
    {
        match e {
            MsgError::NoMemory => Err(NoMemory),
            _ => self.fail(x),
        }
    }

    /// The part is one event. A piece that is denied is followed by a fault.
    fn step_part(&mut self, x: u64, part: WirePart) -> Result<(), NoMemory>
        requires may { ∥ MayTake part self.old ∥₁ }
        requires small { IsSmall x }
        requires fit { IsFit part }
        requires few { steps self.old.cache + 2 ≤ 2 ^ 60 }
        ensures stepped { OnOk result ((f : Frame) (p : rows.Proxy) → HasCache f self.old p
            → unread p + bytes_received self.old.cache + length_of part ≤ f.bytes
            → PartStepped f self.old self.new x part p) }
        ensures rest { OnOk result (RestStays self.old self.new) }
        ensures moved { OnOk result (self.new.moved ≡ true) }
    {
        match part {
            WirePart::Head(response) => {
                self.happen(Event::Head { x, response })?;
                Ok(())
            }
            WirePart::Piece(bytes) => {
                are_bytes(bytes.as_slice());
                let first = self.happen(Event::Piece { x, bytes })?;
                if self.is_denied(first) {
                    return self.fail(x);
                }
                Ok(())
            }
            WirePart::End => {
                self.happen(Event::End { x })?;
                Ok(())
            }
        }
    }

    fn fail(&mut self, x: u64) -> Result<(), NoMemory>
        requires stands { ∥ StandsForSome self.old ∥₁ }
        requires small { IsSmall x }
        requires few { steps self.old.cache < 2 ^ 60 }
        ensures stepped { OnOk result ((f : Frame) (p : rows.Proxy) → HasCache f self.old p
            → Stepped f self.old self.new (event.Fault x) p) }
        ensures rest { OnOk result (RestStays self.old self.new) }
        ensures moved { OnOk result (self.new.moved ≡ true) }
        ensures steps { OnOk result (steps self.new.cache ≡ steps self.old.cache + 1) }
    {
        self.happen(Event::Fault { x })?;
        Ok(())
    }

    /// The connection has ended and no further part stands in what came: the answer is whole, or it
    /// was cut off (RFC 9112 section 8).
    fn finish(&mut self, x: u64) -> Result<(), NoMemory>
        requires may { ∥ MayStep 1 x self.old ∥₁ }
        ensures goes { (t : Turn) (p : rows.Proxy) → KeepsBut x t self.old p
            → OnOk result (Goes (HasFinished x t p (steps self.old.cache))
            (faults_in self.old.cache) self.new (closed t.frame.limits x p)) }
        ensures news { OnOk result (NewsStays self.old self.new) }
        ensures round { OnOk result (self.new.round ≡ self.old.round) }
    {
        if !self.cache.is_open(x) {
            return Ok(());
        }
        if !self.upstreams.has_ended(x) {
            return Ok(());
        }
        match self.upstreams.look(x)? {
            Look::Part => Ok(()),
            Look::Fails => self.fail(x),
            Look::Waits => self.close(x),
        }
    }

    /// What came is read to its end.
    fn close(&mut self, x: u64) -> Result<(), NoMemory>
        requires at { ∥ IsOpenHere x self.old ∥₁ }
        requires waits { look_at (upstream_of self.old.upstreams x) ≡ look.Waits }
        requires few { steps self.old.cache < 2 ^ 60 }
        ensures goes { (t : Turn) (p : rows.Proxy) → KeepsBut x t self.old p
            → is_open (p.tables.exchange x) ≡ true
            → has_ended_at (upstream_of self.old.upstreams x) ≡ true
            → OnOk result (Goes (HasFinished x t p (steps self.old.cache))
            (faults_in self.old.cache) self.new (closed t.frame.limits x p)) }
        ensures news { OnOk result (NewsStays self.old self.new) }
        ensures round { OnOk result (self.new.round ≡ self.old.round) }
    {
        match self.upstreams.take(x) {
            Ok(_) => {}
            Err(e) => match e {
                MsgError::NoMemory => return Err(NoMemory),
                _ => unreachable!(),
            },
        }
        if !self.upstreams.finish(x) {
            return self.fail(x);
        }
        self.happen(Event::End { x })?;
        Ok(())
    }

    /// Whether the step would hand something to the cache now.
    pub(crate) fn hears_something(&mut self) -> Result<bool, NoMemory>
        ensures answers { IfOk result (λ b. (f : Frame) (p : rows.Proxy) (log : Log)
            → Rests f self.old p log → b ≡ not (hears_nothing f.limits p)) }
        ensures rest { OnlyRound self.old self.new }
    {
        self.round.clear();
        self.upstreams.list_news(&mut self.round)?;
        for i in 0..self.round.len() {
            let x = self.round[i];
            if self.hears(x)? {
                return Ok(true);
            }
        }
        Ok(false)
    }

    /// Whether the cache wants a part of the exchange, and a part or an error stands next.
    fn hears(&self, x: u64) -> Result<bool, NoMemory>
        ensures { IfOk result (λ b. (f : Frame) (p : rows.Proxy) → HasCache f self.entry.now p
            → b ≡ (is_wanted (p.tables.exchange x)
            && has_news_at (upstream_of self.entry.now.upstreams x)
            && has_next (look_at (upstream_of self.entry.now.upstreams x)))) }
    {
        if !self.is_wanted(x) {
            return Ok(false);
        }
        match self.upstreams.look(x)? {
            Look::Waits => Ok(false),
            Look::Part | Look::Fails => Ok(true),
        }
    }
}

/// Each item of a slice of bytes is below 256.
fn are_bytes(_bytes: &[u8])
    ensures { All (λ b. b < 256) _bytes.now }
{}

//! The front.
ghost use Rattle.std.specs.Prelude.{◌≡◌, ◌+◌, ◌<◌, ◌≤◌, ◌^◌, [], true, false, Some, length, take, IfOk, OnOk, OnErr, IsErr, IsOk};
ghost use Rattle.hc_event.specs.Acts.{act_list, spare};
ghost use Rattle.hc_event.specs.Counting.{received_in};
ghost use Rattle.hc_event.specs.WithinLimits.{IsEventWithinLimits};
ghost use Rattle.hc_model.specs.Entries.{Contents, History};
ghost use Rattle.hc_model.specs.Tables.{tables};
ghost use Rattle.hc_state.specs.Good.{takes_no_memory};
ghost use Rattle.hc_core.specs.Steps as core;
ghost use Rattle.hc_core.specs.Steps.{StandsFor};
ghost use Rattle.hc_front.specs.Fronts.{is_ending, is_watched};
ghost use Rattle.hc_front.specs.Watching.{watched_in, newly, ChangesAt};
ghost use Rattle.hc_front.specs.Steps.{FrontStands, FrontSteps, HasStepped, last_moment, steps, bytes_received, faults_in, limits_in, has_failed};

use crate::watches::Watches;
use hc_condition::{is_denied, is_external, leaves_in, report_all, unconditioned};
use hc_core::Cache;
use hc_event::{Act, Acts, Event, Request};
use hc_store::Backend;
use hc_text::NoMemory;
use std::alloc::Global;

/// A front before a cache. It answers requests on condition of a copy that the caller has.
#[derive(Drop)]
pub struct Front<B: Backend> {
    /// Memory was refused in a step: it answers nothing any more.
    failed: bool,
    alloc: Global,
    cache: Cache<B>,
    /// Who is live and under watch.
    watches: Watches,
    /// Room for the answer of the cache.
    heard: Acts,
}

impl<B: Backend> Front<B> {
    /// Stands for the empty front history, with whatever the cache begins.
    pub fn new(alloc: Global, cache: Cache<B>) -> Front<B>
        ensures stands { (contents : Contents) → StandsFor cache contents []
            → FrontStands result contents [] }
        ensures moment { last_moment result ≡ core.last_moment cache }
        ensures unused { steps result + bytes_received result
            ≡ core.steps cache + core.bytes_received cache }
        ensures limits { limits_in result ≡ core.limits_in cache }
        ensures calm { faults_in result ≡ core.faults_in cache }
        ensures ready { has_failed result ≡ core.has_failed cache }
    {
        Front {
            failed: false,
            alloc,
            cache,
            watches: Watches::new(alloc),
            heard: Acts::new(alloc),
        }
    }

    /// Answers an event at a moment, in seconds since 1970: its acts are appended. Where memory is
    /// refused the acts are as before, and each later step is refused too. No moment and no event is
    /// larger than those that a schedule can spell, and who starts has a number below 2^62 and asks for
    /// a target.
    pub fn step(&mut self, now: u64, event: &Event, out: &mut Acts) -> Result<(), NoMemory>
        requires later { last_moment self.old ≤ now }
        requires early { now < 2 ^ 62 }
        requires within_limits { IsEventWithinLimits event.now }
        requires few { steps self.old < 2 ^ 60 }
        requires small { bytes_received self.old + received_in event.now < 2 ^ 61 }
        ensures answered { OnOk result
            (FrontSteps self.old self.new (act_list out.old) (act_list out.new) now event.now) }
        ensures moment { OnOk result (last_moment self.new ≡ now) }
        ensures steps { OnOk result (steps self.new ≡ steps self.old + 1) }
        ensures received { OnOk result
            (bytes_received self.new ≡ bytes_received self.old + received_in event.now) }
        ensures ready { OnOk result (has_failed self.new ≡ false) }
        ensures err { OnErr result (has_failed self.new ≡ true) }
        ensures kept { OnErr result (act_list out.new ≡ act_list out.old) }
        ensures again { has_failed self.old ≡ true → IsErr result }
        ensures frees { has_failed self.old ≡ false → takes_no_memory event.now ≡ true
            → 1024 ≤ spare out.old → IsOk result }
    {
        if self.failed {
            return Err(NoMemory);
        }
        self.failed = true;
        self.answer(now, event, out)?;
        self.failed = false;
        Ok(())
    }

    /// The same, whether it failed or not, by what is asked.
    fn answer(&mut self, now: u64, event: &Event, out: &mut Acts) -> Result<(), NoMemory>
        requires later { last_moment self.old ≤ now }
        requires early { now < 2 ^ 62 }
        requires within_limits { IsEventWithinLimits event.now }
        requires few { steps self.old < 2 ^ 60 }
        requires small { bytes_received self.old + received_in event.now < 2 ^ 61 }
        ensures stepped { OnOk result
            (HasStepped self.old self.new (act_list out.old) (act_list out.new) now event.now) }
        ensures same { self.new.failed ≡ self.old.failed }
        ensures kept { OnErr result (act_list out.new ≡ act_list out.old) }
        ensures again { core.has_failed self.old.cache ≡ true → IsErr result }
        ensures frees { core.has_failed self.old.cache ≡ false → takes_no_memory event.now ≡ true
            → 1024 ≤ spare out.old → IsOk result }
    {
        match event {
            Event::Start { c, request } => self.start(now, *c, request, event, out),
            Event::Poll { c, want } => self.poll(now, *c, *want, event, out),
            Event::Cancel { c } => {
                self.cache.step(now, event, out)?;
                self.watches.forget(*c);
                Ok(())
            }
            _ => self.cache.step(now, event, out),
        }
    }

    /// A request on condition of a copy is handed on without it where something is current.
    fn start(
        &mut self,
        now: u64,
        c: u64,
        request: &Request,
        event: &Event,
        out: &mut Acts,
    ) -> Result<(), NoMemory>
        requires is { event.now ≡ Event.Start c request.now }
        requires later { last_moment self.old ≤ now }
        requires early { now < 2 ^ 62 }
        requires within_limits { IsEventWithinLimits event.now }
        requires few { steps self.old < 2 ^ 60 }
        requires small { bytes_received self.old < 2 ^ 61 }
        ensures stepped { OnOk result
            (HasStepped self.old self.new (act_list out.old) (act_list out.new) now event.now) }
        ensures same { self.new.failed ≡ self.old.failed }
        ensures kept { OnErr result (act_list out.new ≡ act_list out.old) }
        ensures again { core.has_failed self.old.cache ≡ true → IsErr result }
    {
        let watched = self.is_watched(request)?;
        if watched {
            return self.start_watched(now, c, request, out);
        }
        self.cache.step(now, event, out)
    }

    /// Whether the request is on condition of a copy, and something is current for its key.
    fn is_watched(&self, request: &Request) -> Result<bool, NoMemory>
        ensures { IfOk result (λ answer. (contents : Contents) (h : History)
            → StandsFor self.now.cache contents h
            → answer ≡ is_watched (tables contents h) request.now) }
    {
        if self.cache.kind_of(&request.key).is_none() {
            return Ok(false);
        }
        is_external(self.alloc, request)
    }

    /// Such a request is handed on without the condition, and its consumer is under watch then.
    fn start_watched(
        &mut self,
        now: u64,
        c: u64,
        request: &Request,
        out: &mut Acts,
    ) -> Result<(), NoMemory>
        requires watched { (contents : Contents) (h : History) → StandsFor self.old.cache contents h
            → is_watched (tables contents h) request.now ≡ true }
        requires later { last_moment self.old ≤ now }
        requires early { now < 2 ^ 62 }
        requires within_limits { IsEventWithinLimits (Event.Start c request.now) }
        requires few { steps self.old < 2 ^ 60 }
        requires small { bytes_received self.old < 2 ^ 61 }
        ensures stepped { OnOk result (HasStepped self.old self.new (act_list out.old)
            (act_list out.new) now (Event.Start c request.now)) }
        ensures same { self.new.failed ≡ self.old.failed }
        ensures kept { OnErr result (act_list out.new ≡ act_list out.old) }
        ensures again { core.has_failed self.old.cache ≡ true → IsErr result }
    {
        let own = request.copy()?;
        let asked = Event::Start {
            c,
            request: unconditioned(request)?,
        };
        let start = out.list().len();
        self.cache.step(now, &asked, out)?;
        if is_denied(&out.list()[start..]) {
            return Ok(());
        }
        watch(&mut self.watches, c, own, start, out)
    }

    /// A poll of who was told that its copy holds ends it. One of who is under watch may tell that.
    fn poll(
        &mut self,
        now: u64,
        c: u64,
        want: u32,
        event: &Event,
        out: &mut Acts,
    ) -> Result<(), NoMemory>
        requires is { event.now ≡ Event.Poll c want }
        requires later { last_moment self.old ≤ now }
        requires early { now < 2 ^ 62 }
        requires few { steps self.old < 2 ^ 60 }
        requires small { bytes_received self.old < 2 ^ 61 }
        ensures stepped { OnOk result
            (HasStepped self.old self.new (act_list out.old) (act_list out.new) now event.now) }
        ensures same { self.new.failed ≡ self.old.failed }
        ensures kept { OnErr result (act_list out.new ≡ act_list out.old) }
        ensures again { core.has_failed self.old.cache ≡ true → IsErr result }
    {
        let Some(watched) = self.watches.get(c) else {
            return self.cache.step(now, event, out);
        };
        if watched.is_ending(want) {
            return self.end(now, c, want, out);
        }
        self.heard.clear();
        self.cache.step(now, event, &mut self.heard)?;
        let leaves = leaves_in(c, self.heard.list());
        let reported = report_all(self.alloc, &watched.request, &mut self.heard, out)?;
        self.watches.settle(c, leaves, reported);
        Ok(())
    }

    /// Who was told that its copy holds leaves, and is told its end.
    fn end(&mut self, now: u64, c: u64, want: u32, out: &mut Acts) -> Result<(), NoMemory>
        requires ending { is_ending (watched_in self.old.watches c) want ≡ true }
        requires later { last_moment self.old ≤ now }
        requires early { now < 2 ^ 62 }
        requires few { steps self.old < 2 ^ 60 }
        requires small { bytes_received self.old < 2 ^ 61 }
        ensures stepped { OnOk result (HasStepped self.old self.new (act_list out.old)
            (act_list out.new) now (Event.Poll c want)) }
        ensures same { self.new.failed ≡ self.old.failed }
        ensures kept { OnErr result (act_list out.new ≡ act_list out.old) }
        ensures again { core.has_failed self.old.cache ≡ true → IsErr result }
    {
        let start = out.list().len();
        self.cache.step(now, &Event::Cancel { c }, out)?;
        self.watches.forget(c);
        let reported = out.push(Act::Ended { c });
        if reported.is_err() {
            out.truncate(start);
        }
        reported
    }
}

/// A consumer is under watch from now on. Where memory is refused, the acts from `start` on are dropped.
fn watch(
    watches: &mut Watches,
    c: u64,
    own: Request,
    start: usize,
    out: &mut Acts,
) -> Result<(), NoMemory>
    requires { start ≤ length (act_list out.old) }
    ensures watched { OnOk result (ChangesAt c (Some (newly own)) watches.old watches.new) }
    ensures same { OnOk result (act_list out.new ≡ act_list out.old) }
    ensures kept { OnErr result (act_list out.new ≡ take start (act_list out.old)) }
{
    let watched = watches.watch(c, own);
    if watched.is_err() {
        out.truncate(start);
    }
    watched
}

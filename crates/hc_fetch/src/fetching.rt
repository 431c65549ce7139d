//! A fetch, event by event.
ghost use Rattle.std.specs.Prelude.{◌≡◌, ◌≤◌, None, true, IfSome};
ghost use Rattle.std.proofs.Props.{props};
ghost use Rattle.hc_core.specs.Steps.{last_moment, steps};
ghost use Rattle.hc_fetch.specs.Bounds.{AreFew, IsPlan, is_short};
ghost use Rattle.hc_fetch.specs.Deciding.{IsOwn};
ghost use Rattle.hc_fetch.specs.Firsts.{total_in};

use crate::deciding::{failure_in, is_foreign};
use crate::ended::FetchEnded;
use crate::first::{First, total_of};
use crate::gathering::Gathered;
use crate::plan::FetchPlan;
use hc_core::Cache;
use hc_driver::Course;
use hc_event::{Act, Acts, Event};
use hc_fields::Fields;
use hc_store::Backend;
use hc_text::NoMemory;
use std::alloc::Global;

/// A fetch, event by event.
#[derive(Drop)]
pub(crate) struct Fetching<B: Backend> {
    alloc: Global,
    plan: FetchPlan,
    cache: Cache<B>,
    moment: u64,
    /// How many events of the input were answered.
    count: u64,
    first: Option<First>,
    /// The first consumer has all of its bytes.
    has_ended: bool,
    gathered: Gathered,
    /// How it ends, once that is known. While an event is answered it is want of memory.
    decided: Option<FetchEnded>,
    ghost planned: { IsPlan plan },
    ghost later: { decided ≡ None → last_moment cache ≤ moment } by { Prim.hlevel props },
    ghost own: { IfSome decided IsOwn } by { Prim.hlevel props },
    ghost short: { is_short (total_in first) ≡ true },
    ghost few: { decided ≡ None → AreFew (steps cache) count first } by { Prim.hlevel props },
}

impl<B: Backend> Fetching<B> {
    ghost use Rattle.std.specs.Prelude.{◌+◌, ◌-◌, ◌<◌, ◌^◌, ℕ, Some, is_some, false, IfOk, OnOk, ◌∷◌, []};
    ghost use Rattle.hc_event.specs.Counting.{received_in};
    ghost use Rattle.hc_event.specs.WithinLimits.{IsEventWithinLimits};
    ghost use Rattle.hc_event.specs.Acts.{act_list};
    ghost use Rattle.hc_model.specs.Entries.{History, no_contents};
    ghost use Rattle.hc_core.specs.Steps.{StandsFor, bytes_received};
    ghost use Rattle.hc_fetch.specs.declared.ended.FetchEnded.{FetchEnded};
    ghost use Rattle.hc_fetch.specs.Deciding.{by_failure, is_foreign};
    ghost use Rattle.hc_fetch.specs.Fetches.{ended_with};
    ghost use Rattle.hc_fetch.specs.Firsts.{is_done_with, total_to_start};
    ghost use Rattle.hc_fetch.specs.Hearing.{Begins, Sees, Starts, Steps, Takes};
    ghost use Rattle.hc_fetch.specs.Plans.{part_count};
    ghost use Rattle.hc_fetch.specs.Steps.{IsAnswered, StandsForFetch};

    /// Nothing happened yet.
    pub(crate) fn new(alloc: Global, plan: FetchPlan, cache: Cache<B>) -> Fetching<B>
        requires unused { steps cache ≡ 0 }
        requires plan { IsPlan plan }
        requires new { StandsFor cache no_contents [] }
        ensures stands { ((a b : B) → B.faults a ≡ B.faults b) → StandsForFetch result [] }
        ensures plan { result.plan ≡ plan }
        ensures cache { result.cache ≡ cache }
        ensures moment { result.moment ≡ last_moment cache }
        ensures none { result.count ≡ 0 }
        ensures open { result.decided ≡ None }
    {
        let moment = cache.last_moment();
        Fetching {
            alloc,
            plan,
            cache,
            moment,
            count: 0,
            first: None,
            has_ended: false,
            gathered: Gathered::new(alloc),
            decided: None,
        }
    }

    /// Answers an event that is no start and no cancel. Gives what it decides.
    fn answer_event(
        &mut self,
        now: u64,
        event: &Event,
        acts: &mut Acts,
        text: &mut Vec<u8>,
    ) -> Result<Option<FetchEnded>, NoMemory>
        requires later { last_moment self.old.cache ≤ now }
        requires early { now < 2 ^ 62 }
        requires within_limits { IsEventWithinLimits event.now }
        requires own { is_foreign event.now ≡ false }
        requires count { (1 ≤ self.old.count) × (self.old.count ≤ 2 ^ 59) }
        requires few { AreFew (steps self.old.cache) (self.old.count - 1) self.old.first }
        requires small { bytes_received self.old.cache + received_in event.now < 2 ^ 61 }
        requires answering { is_some self.old.decided ≡ true }
        requires empty { text.old.items ≡ [] }
        ensures answered { IfOk result (λ decides. IsAnswered self.old self.new now event.now
            text.new.items decides) }
        ensures own { IfOk result (λ decides. IfSome decides IsOwn) }
    {
        let was_shown = self.first.is_some();
        self.step(now, event, acts)?;
        let decides = self.hear(acts.list(), text)?;
        if let Some(total) = self.total_to_start(was_shown, decides) {
            self.start_others(now, total, acts)?;
            return Ok(decides);
        }
        Ok(decides)
    }

    /// The length of the whole, where the others start now: the first consumer was shown a part of it
    /// by the last event, which decides nothing.
    fn total_to_start(&self, was_shown: bool, decides: Option<FetchEnded>) -> Option<u64>
        ensures { result ≡ total_to_start was_shown decides self.now.first }
    {
        if was_shown || decides.is_some() {
            return None;
        }
        let first = self.first?;
        first.total
    }

    /// Steps the cache by an event. Before the first event the first consumer starts.
    fn step(&mut self, now: u64, event: &Event, acts: &mut Acts) -> Result<(), NoMemory>
        requires later { last_moment self.old.cache ≤ now }
        requires early { now < 2 ^ 62 }
        requires within_limits { IsEventWithinLimits event.now }
        requires count { (1 ≤ self.old.count) × (self.old.count ≤ 2 ^ 59) }
        requires few { AreFew (steps self.old.cache) (self.old.count - 1) self.old.first }
        requires small { bytes_received self.old.cache + received_in event.now < 2 ^ 61 }
        requires answering { is_some self.old.decided ≡ true }
        ensures { OnOk result (Steps self.old self.new now event.now (act_list acts.new)) }
    {
        self.begin(now, acts)?;
        acts.clear();
        self.cache.step(now, event, acts)?;
        Ok(())
    }

    /// The first consumer starts, where nothing happened yet.
    fn begin(&mut self, now: u64, acts: &mut Acts) -> Result<(), NoMemory>
        requires later { last_moment self.old.cache ≤ now }
        requires early { now < 2 ^ 62 }
        requires count { (1 ≤ self.old.count) × (self.old.count ≤ 2 ^ 59) }
        requires few { AreFew (steps self.old.cache) (self.old.count - 1) self.old.first }
        requires small { bytes_received self.old.cache < 2 ^ 61 }
        requires answering { is_some self.old.decided ≡ true }
        ensures { OnOk result (Begins self.old self.new now) }
    {
        if self.count > 1 {
            return Ok(());
        }
        let start = self.plan.first_start(self.alloc)?;
        acts.clear();
        self.cache.step(now, &start, acts)?;
        Ok(())
    }

    /// The consumers of the other parts start, of so many bytes in all.
    fn start_others(&mut self, now: u64, total: u64, acts: &mut Acts) -> Result<(), NoMemory>
        requires moment { last_moment self.old.cache ≡ now }
        requires early { now < 2 ^ 62 }
        requires total { total < 2 ^ 62 }
        requires few { steps self.old.cache ≤ 2 ^ 59 + 1 }
        requires small { bytes_received self.old.cache < 2 ^ 61 }
        requires answering { is_some self.old.decided ≡ true }
        ensures { OnOk result
            (Starts self.old self.new now total (part_count self.old.plan total)) }
    {
        let count = self.plan.part_count(total);
        for part in 2..count + 1 {
            let start = self.plan.part_start(self.alloc, total, part)?;
            acts.clear();
            self.cache.step(now, &start, acts)?;
        }
        Ok(())
    }

    /// Takes what was answered: what can be written now is appended. Gives what it decides.
    fn hear(&mut self, acts: &[Act], text: &mut Vec<u8>) -> Result<Option<FetchEnded>, NoMemory>
        requires answering { is_some self.old.decided ≡ true }
        ensures takes { IfOk result (λ decides. Takes self.old self.new acts.now
            text.old.items text.new.items (by_failure acts.now) decides) }
        ensures own { IfOk result (λ decides. IfSome decides IsOwn) }
    {
        let mut decides = failure_in(acts);
        for act in acts {
            decides = decides.or(self.hear_act(act, text)?);
        }
        Ok(decides)
    }

    /// Takes one act.
    fn hear_act(&mut self, act: &Act, text: &mut Vec<u8>) -> Result<Option<FetchEnded>, NoMemory>
        requires answering { is_some self.old.decided ≡ true }
        ensures takes { IfOk result (λ decides. Takes self.old self.new (act.now ∷ [])
            text.old.items text.new.items None decides) }
        ensures own { IfOk result (λ decides. IfSome decides IsOwn) }
    {
        match act {
            Act::Shown {
                c,
                r,
                status,
                fields,
                ..
            } => Ok(self.see(*c, *r, *status, fields)),
            Act::Given { at, bytes, .. } => {
                self.gathered.give(*at, bytes, text)?;
                Ok(None)
            }
            Act::Ended { c } => {
                self.has_ended |= *c == 1;
                Ok(None)
            }
            _ => Ok(None),
        }
    }

    /// A consumer is shown a head. Gives what it decides.
    fn see(&mut self, c: u64, r: u64, status: u16, fields: &Fields) -> Option<FetchEnded>
        requires answering { is_some self.old.decided ≡ true }
        ensures sees { Sees self.old self.new
            (record { c = c; r = r; status = status; fields = fields.now }) result }
        ensures own { IfSome result IsOwn }
    {
        let decides = self.plan.decision(self.first, c, r, status, fields);
        if c == 1 && self.first.is_none() {
            self.first = Some(First {
                r,
                total: total_of(status, fields),
            });
        }
        decides
    }

    /// How it ended: as was decided, or with its input.
    pub(crate) fn answer(&self) -> FetchEnded
        ensures decided { (by : FetchEnded) → self.now.decided ≡ Some by → result ≡ by }
        ensures open { (f : History) → StandsForFetch self.now f → result ≡ ended_with f }
        ensures own { IsOwn result }
    {
        match self.decided {
            Some(decided) => decided,
            None => self.ended(),
        }
    }

    /// How it ends with its input, where nothing was decided.
    fn ended(&self) -> FetchEnded
        ensures ended { (f : History) → StandsForFetch self.now f → result ≡ ended_with f }
        ensures own { IsOwn result }
    {
        let written = self.gathered.written();
        if self.is_done() {
            FetchEnded::Done { total: written }
        } else {
            FetchEnded::Unfinished { written }
        }
    }

    /// Whether all of the body was written.
    fn is_done(&self) -> bool
        ensures { result ≡ is_done_with self.now.first self.now.has_ended
            self.now.gathered.written }
    {
        match self.first {
            None => false,
            Some(First { total: None, .. }) => self.has_ended,
            Some(
                First {
                    total: Some(total),
                    ..
                },
            ) => self.gathered.written() == total,
        }
    }
}

/// An event is answered by what can be written then. It is over once how it ends is decided.
impl<B: Backend> Course for Fetching<B> {
    ghost use Rattle.std.specs.Prelude.{is_some};
    ghost use Rattle.hc_core.specs.Steps.{bytes_received};
    ghost use Rattle.hc_fetch.specs.Steps.{Reports};

    ghost moment = { λ s. s.moment };

    ghost steps = { λ s. s.count };

    ghost received = { λ s. bytes_received s.cache };

    ghost over = { λ s. is_some s.decided };

    ghost reports = { Reports };

    ghost spent = { λ _ _. Unit {0} };

    fn go(
        &mut self,
        _number: u64,
        now: u64,
        event: &Event,
        acts: &mut Acts,
        text: &mut Vec<u8>,
    ) -> Result<(), NoMemory> {
        self.moment = now;
        self.count += 1;
        if is_foreign(event) {
            self.decided = Some(FetchEnded::Foreign { n: self.count });
            return Ok(());
        }
        self.decided = Some(FetchEnded::NoMemory);
        self.decided = self.answer_event(now, event, acts, text)?;
        Ok(())
    }

    fn is_over(&self) -> bool {
        self.decided.is_some()
    }
}

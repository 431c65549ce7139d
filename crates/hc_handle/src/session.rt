//! A cache, and what its last event led to.
ghost use Rattle.std.specs.Prelude.{◌≡◌, ◌≢◌, ◌<◌, ◌^◌, [], Option, Some, None, true, false, is_some, IfOk, IfErr, IfSome, OnOk, OnErr};
ghost use Rattle.std.proofs.Props.{props};
ghost use Rattle.hc_core.specs.Steps.{has_failed, last_moment, steps, bytes_received};
ghost use Rattle.hc_event.specs.Acts.{act_list};
ghost use Rattle.hc_handle.specs.Readings.{MayReadOn};

use crate::picture::{begin_with, image_of, read_whole};
use hc_binary::{ActNumbers, CallRefusal, copy_act, numbers_of, put};
use hc_core::Cache;
use hc_event::{Acts, Event};
use hc_piecewise::Schedule;
use hc_rules::Limits;
use hc_store::Memory;
use std::alloc::Global;

/// Moments are before this.
const LAST_MOMENT: u64 = 1 << 62;

/// So many events are answered at most.
const MOST_STEPS: u64 = 1 << 59;

/// So many bytes of pieces are taken at most.
const MOST_BYTES: u64 = 1 << 60;

/// A cache, the acts of its last event, and how many of them were told.
#[derive(Drop)]
pub struct Session {
    /// Memory was refused: nothing is answered any more.
    pub(crate) spent: bool,
    pub(crate) cache: Cache<Memory>,
    /// Those of the last event.
    pub(crate) acts: Acts,
    /// How many of them were told.
    pub(crate) reported: usize,
    /// That of the text that is handed in, if events come by it.
    pub(crate) schedule: Option<Schedule>,
    ghost tied: { spent ≡ false → has_failed cache ≡ false } by { Prim.hlevel props },
    ghost silent: { spent ≡ true → act_list acts ≡ [] } by { Prim.hlevel props },
    ghost unreported: { spent ≡ true → reported ≡ 0 } by { Prim.hlevel props },
    ghost no_text: { spent ≡ true → is_some schedule ≡ false } by { Prim.hlevel props },
    ghost early: { spent ≡ false → last_moment cache < 2 ^ 62 } by { Prim.hlevel props },
    ghost goes_on: { ∥ (spent ≡ false
        → MayReadOn schedule (last_moment cache) (steps cache) (bytes_received cache)) ∥₁ },
}

impl Session {
    ghost use Rattle.hc_handle.specs.Sessions.{Begins, BeginsWith, IsUnopened, refused_at, IsAnswered, Answered, IsNext, IsSilent, bytes_reported, IsCopied, moment_reported, live_reported};
    ghost use Rattle.hc_event.specs.WithinLimits.{IsEventWithinLimits};
    ghost use Rattle.hc_binary.specs.Copies.{HoldsPrefix};
    ghost use Rattle.hc_binary.specs.declared.refused.CallRefusal.TheVariants as refused;

    /// A cache that begins with nothing, and may hold so much.
    pub(crate) fn new(alloc: Global, limits: Limits) -> Result<Session, CallRefusal>
        ensures begins { IfOk result (Begins limits) }
        ensures memory { IfErr result (λ e. e ≡ CallRefusal.NoMemory) }
    {
        let cache = Cache::new(Memory::new(alloc, limits), limits, alloc)?;
        Ok(Session {
            spent: false,
            cache,
            acts: Acts::new(alloc),
            reported: 0,
            schedule: None,
        })
    }

    /// A cache that begins with what an image has, and may hold so much.
    pub(crate) fn open(alloc: Global, limits: Limits, image: &[u8]) -> Result<Session, CallRefusal>
        ensures begins { IfOk result (BeginsWith limits image.now) }
        ensures refused { IfErr result (IsUnopened limits image.now) }
    {
        let contents = read_whole(alloc, image)?;
        let cache = begin_with(alloc, limits, &contents)?;
        Ok(Session {
            spent: false,
            cache,
            acts: Acts::new(alloc),
            reported: 0,
            schedule: None,
        })
    }

    /// Why no event is answered at this moment, if none is.
    fn refusal(&self, now: u64) -> Option<CallRefusal>
        ensures value { result ≡ refused_at self.now now }
        ensures spent { result ≡ Some CallRefusal.NoMemory → IsSilent self.now }
    {
        if self.spent {
            return Some(CallRefusal::NoMemory);
        }
        if self.cache.steps() >= MOST_STEPS || self.cache.received() >= MOST_BYTES {
            return Some(CallRefusal::Exhausted);
        }
        if now < self.cache.last_moment() || now >= LAST_MOMENT {
            return Some(CallRefusal::BadMoment);
        }
        None
    }

    /// Memory was refused.
    pub(crate) fn spend(&mut self)
        ensures { IsSilent self.new }
    {
        self.spent = true;
        self.schedule = None;
        self.acts.clear();
        self.reported = 0;
    }

    /// Answers an event, if it is one.
    pub(crate) fn answer(
        &mut self,
        now: u64,
        given: Result<Event, CallRefusal>,
    ) -> Result<(), CallRefusal>
        requires { IfOk given (λ e. IsEventWithinLimits e) }
        ensures { IsAnswered self.old self.new now given result }
    {
        if let Some(why) = self.refusal(now) {
            return Err(why);
        }
        match given {
            Ok(event) => self.step(now, &event),
            Err(why) => {
                if why == CallRefusal::NoMemory {
                    self.spend();
                }
                Err(why)
            }
        }
    }

    /// Steps the cache by an event. No text goes on behind it.
    fn step(&mut self, now: u64, event: &Event) -> Result<(), CallRefusal>
        requires admitted { refused_at self.old now ≡ None }
        requires within_limits { IsEventWithinLimits event.now }
        ensures answered { OnOk result (Answered self.old self.new now event.now) }
        ensures memory { IfErr result (λ e. e ≡ CallRefusal.NoMemory) }
        ensures spent { OnErr result (IsSilent self.new) }
    {
        self.schedule = None;
        self.acts.clear();
        self.reported = 0;
        self.spent = true;
        self.cache.step(now, event, &mut self.acts)?;
        self.spent = false;
        Ok(())
    }

    /// The next act of the last event, in numbers.
    pub(crate) fn next_act(&mut self) -> Option<ActNumbers>
        ensures { IsNext self.old self.new result }
    {
        let act = self.acts.list().get(self.reported)?;
        let numbers = numbers_of(act);
        self.reported += 1;
        Some(numbers)
    }

    /// Copies the first of the bytes of the act that was told last, as many as fit.
    pub(crate) fn copy_reported(&self, into: &mut [u8]) -> usize
        ensures { HoldsPrefix into.new result (bytes_reported self.now) }
    {
        if self.reported == 0 {
            return 0;
        }
        match self.acts.list().get(self.reported - 1) {
            Some(act) => copy_act(act, into),
            None => 0,
        }
    }

    /// Copies the first bytes of the image of what the cache has, as many as fit, and says how many it has in all.
    pub(crate) fn copy_image(
        &mut self,
        alloc: Global,
        into: &mut [u8],
    ) -> Result<usize, CallRefusal>
        ensures { IsCopied self.old self.new into.new result }
    {
        if self.spent {
            return Err(CallRefusal::NoMemory);
        }
        if self.cache.live() > 0 {
            return Err(CallRefusal::Live);
        }
        let image = image_of(alloc, &mut self.cache)?;
        put(&image, into, 0);
        Ok(image.len())
    }

    /// The moment of the last event, or of the image; 0 where memory was refused.
    pub(crate) fn moment(&self) -> u64
        ensures { result ≡ moment_reported self.now }
    {
        if self.spent {
            return 0;
        }
        self.cache.last_moment()
    }

    /// How many consumers are live; 0 where memory was refused.
    pub(crate) fn live(&self) -> u64
        ensures { result ≡ live_reported self.now }
    {
        if self.spent {
            return 0;
        }
        self.cache.live() as u64
    }
}

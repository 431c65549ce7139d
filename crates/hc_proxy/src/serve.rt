//! The serving loop.
ghost use Rattle.std.specs.Prelude.{◌≡◌, ◌≢◌, ◌+◌, ◌<◌, ◌≤◌, ◌^◌, ℕ, false, [], length, IfOk, IfSome, OnOk, OnErr};
ghost use Rattle.hc_core.specs.Steps.{StandsFor, bytes_received, faults_in, limits_in, steps};
ghost use Rattle.hc_io.specs.Faults as sink;
ghost use Rattle.hc_model.specs.Entries.{Contents, no_contents};
ghost use Rattle.hc_sched.specs.declared.schedule.Ended.TheVariants as ended;
ghost use Rattle.hc_wire.specs.Events.{FitsIn, Unseen};
ghost use Rattle.hc_wire.specs.Logs as logs;
ghost use Rattle.hc_wire.specs.Wires.{HasRisen};
ghost use Rattle.hc_proxy.specs.Endings.{IsFresh, MayEnd};
ghost use Rattle.hc_proxy.specs.Keeping.{Frame, Turn, IsStocked, IsStockedSome, Begun, IsBegun, KeepsPolled, Goes};
ghost use Rattle.hc_proxy.specs.Logging.{Follows};
ghost use Rattle.hc_proxy.specs.Recorded.{Records};
ghost use Rattle.hc_proxy.specs.Resting.{Rests};
ghost use Rattle.hc_proxy.specs.Rows.{setting_of};
ghost use Rattle.hc_proxy.specs.Rows as rows;
ghost use Rattle.hc_proxy.specs.Serving.{Begins, EndsBy, HasCauses, IsBeginning, IsClosed, IsReady, IsStill, TurnStops, TurnsTo, FinishesTurn, CutsTurn};
ghost use Rattle.hc_proxy.specs.Served.{ServesAs, ServesWith};
ghost use Rattle.hc_proxy.specs.Stops.{ended_as};
ghost use Rattle.hc_proxy.specs.Turns.{happened};
ghost use Rattle.hc_proxy.specs.Underway.{IsPolledOn, OnWire};
ghost use Rattle.hc_proxy.specs.Waiting.{waits};

use crate::carry::close_each;
use crate::proxy::Proxy;
use crate::stop::Stop;
use hc_core::Cache;
use hc_io::Sink;
use hc_sched::Ended;
use hc_store::Backend;
use hc_text::NoMemory;
use hc_wire::{Wire, WireEvent};
use std::alloc::Global;

/// So many bytes of a connection are handed out at once, at most.
const SLICE: usize = 16_384;

/// Serves clients from a cache, and the cache from an origin, for so many turns. The events that
/// the cache steps are written to `log`, as a schedule. The wire is bound.
///
/// - `Done`: all turns were made, their record is written, and every connection is closed.
/// - `WireFailed`: the wire failed, and counted that.
/// - `SinkFailed`: the record couldn't be written, and `log` counted that.
/// - `NoMemory`: memory was refused.
///
/// By the last three the last turn may be cut short. A first part of the record is written then.
pub fn serve_on<B: Backend + Drop, W: Wire, K: Sink>(
    alloc: Global,
    cache: Cache<B>,
    wire: &mut W,
    log: &mut K,
    turns: u64,
) -> Ended
    requires new { StandsFor cache no_contents [] }
    requires unused { steps cache + bytes_received cache ≡ 0 }
    requires fresh { IfSome (W.log wire.old) IsFresh }
    requires unseen { (k : ℕ) → W.stages wire.old k ≡ Unseen }

    // Over a store whose count of failures is constant.
    ensures serves { ((a b : B) → B.faults a ≡ B.faults b) → ServesAs (limits_in cache) turns
        (W.log wire.old) (W.log wire.new) (K.taken log.old) (K.taken log.new) result }

    // What it writes, and how it ends, over any store.
    ensures recorded { Records (limits_in cache) no_contents
        (K.taken log.old) (K.taken log.new) result }
    ensures ends { MayEnd result }
    ensures wire { result ≡ ended.WireFailed → HasRisen (W.faults wire.old) (W.faults wire.new) }
    ensures wire_calm { result ≢ ended.WireFailed → W.faults wire.new ≡ W.faults wire.old }
    ensures sink { result ≡ ended.SinkFailed
        → sink.HasRisen (K.faults log.old) (K.faults log.new) }
    ensures sink_calm { result ≢ ended.SinkFailed → K.faults log.new ≡ K.faults log.old }
{
    serve_from(alloc, cache, 0, false, wire, log, turns)
}

/// The same from a cache that began with contents, and stepped no event yet. What is stored there is
/// served at once. `last` is the number of their last consumer: those of the clients go on behind it,
/// exchanges behind theirs, and the moments from theirs on. So does the record, which is a schedule
/// that goes on from their image. A front answers each request on condition of a copy that its client
/// has, where nothing else speaks against that: the cache is asked without the condition.
pub fn serve_from<B: Backend + Drop, W: Wire, K: Sink>(
    alloc: Global,
    cache: Cache<B>,
    last: u64,
    front: bool,
    wire: &mut W,
    log: &mut K,
    turns: u64,
) -> Ended
    requires stocked { ∥ IsStockedSome cache last ∥₁ }
    // Numbers below 2 ^ 62 have a spelling, so there is one for each consumer that comes.
    requires few { last < 2 ^ 61 }
    requires unused { steps cache + bytes_received cache ≡ 0 }
    requires fresh { IfSome (W.log wire.old) IsFresh }
    requires unseen { (k : ℕ) → W.stages wire.old k ≡ Unseen }

    // Over a store whose count of failures is constant.
    ensures serves { ((a b : B) → B.faults a ≡ B.faults b) → (contents : Contents)
        → IsStocked contents cache last
        → ServesWith (limits_in cache) (setting_of contents front) turns (W.log wire.old)
        (W.log wire.new) (K.taken log.old) (K.taken log.new) result }

    // What it writes, and how it ends, over any store.
    ensures recorded { (contents : Contents) → IsStocked contents cache last
        → Records (limits_in cache) contents (K.taken log.old) (K.taken log.new) result }
    ensures ends { MayEnd result }
    ensures wire { result ≡ ended.WireFailed → HasRisen (W.faults wire.old) (W.faults wire.new) }
    ensures wire_calm { result ≢ ended.WireFailed → W.faults wire.new ≡ W.faults wire.old }
    ensures sink { result ≡ ended.SinkFailed
        → sink.HasRisen (K.faults log.old) (K.faults log.new) }
    ensures sink_calm { result ≢ ended.SinkFailed → K.faults log.new ≡ K.faults log.old }
{
    let mut proxy = Proxy::new(alloc, cache, last, front);
    match proxy.serve(wire, log, turns) {
        Ok(()) => Ended::Done,
        Err(stop) => stop.ended(),
    }
}

impl<B: Backend> Proxy<B> {
    /// Makes so many turns, and closes all connections.
    fn serve<W: Wire, K: Sink>(&mut self, wire: &mut W, log: &mut K, turns: u64) -> Result<(), Stop>
        requires begins { ∥ IsBeginning (W.events wire.old) (W.log wire.old) (W.stages wire.old)
            self.old ∥₁ }
        ensures serves { ((a b : B) → B.faults a ≡ B.faults b) → (f : Frame) (before : logs.Log)
            → Begins (W.events wire.old) f self.old before (W.log wire.old) (W.stages wire.old)
            → EndsBy f.limits f.setting turns before (W.log wire.new) (K.taken log.old)
            (K.taken log.new) (ended_as result) }
        ensures recorded { (f : Frame) (before : logs.Log)
            → Begins (W.events wire.old) f self.old before (W.log wire.old) (W.stages wire.old)
            → Records f.limits f.setting.contents (K.taken log.old) (K.taken log.new)
            (ended_as result) }
        ensures causes { HasCauses (W.faults wire.old) (W.faults wire.new)
            (K.faults log.old) (K.faults log.new) result }
    {
        let mut slice = [0; SLICE];
        let mut wait = true;
        for _turn in 0..turns {
            wait = self.turn(wait, &mut slice, wire, log)?;
        }
        self.leave(wire)?;
        Ok(())
    }

    /// One turn. Whether the next one waits.
    fn turn<W: Wire, K: Sink>(
        &mut self,
        wait: bool,
        slice: &mut [u8],
        wire: &mut W,
        log: &mut K,
    ) -> Result<bool, Stop>
        requires ready { ∥ IsReady (W.events wire.old) (W.log wire.old) (W.stages wire.old) wait
            self.old ∥₁ }
        requires slice { length slice.old ≡ 16384 }
        ensures ok { (f : Frame) (p : rows.Proxy) (before : logs.Log)
            → IsStill (W.events wire.old) f self.old p before (W.log wire.old) (W.stages wire.old)
            → wait ≡ waits f.limits p
            → IfOk result (TurnsTo (W.events wire.new) f p before self.old self.new
            (W.log wire.new) (W.stages wire.new) (K.taken log.old) (K.taken log.new)) }
        ensures err { (f : Frame) (p : rows.Proxy) (before : logs.Log)
            → IsStill (W.events wire.old) f self.old p before (W.log wire.old) (W.stages wire.old)
            → wait ≡ waits f.limits p
            → OnErr result (TurnStops f p before self.old self.new (W.log wire.new)
            (K.taken log.old) (K.taken log.new)) }
        ensures slice { length slice.new ≡ length slice.old }
        ensures causes { HasCauses (W.faults wire.old) (W.faults wire.new)
            (K.faults log.old) (K.faults log.new) result }
    {
        let (moment, event) = wire.next(wait, slice)?;
        self.now = self.now.max(moment);
        self.moved = false;
        self.happens(event, slice)?;
        self.finish_turn(wire, log)
    }

    /// What happened is written, and then carried out. Whether the next turn waits.
    fn finish_turn<W: Wire, K: Sink>(&mut self, wire: &mut W, log: &mut K) -> Result<bool, Stop>
        requires polled { ∥ IsPolledOn (W.log wire.old) (W.stages wire.old) self.old ∥₁ }
        ensures ok { (t : Turn) (p : rows.Proxy) (before : logs.Log) → KeepsPolled t self.old p
            → OnWire t before (W.log wire.old) (W.stages wire.old)
            → IfOk result (FinishesTurn t p before self.old self.new (W.log wire.new)
            (W.stages wire.new) (K.taken log.old) (K.taken log.new)) }
        ensures err { (t : Turn) (p : rows.Proxy) (before : logs.Log) → KeepsPolled t self.old p
            → OnWire t before (W.log wire.old) (W.stages wire.old)
            → OnErr result (CutsTurn p before self.old (W.log wire.new)
            (K.taken log.old) (K.taken log.new)) }
        ensures cache { self.new.cache ≡ self.old.cache }
        ensures events { W.events wire.new ≡ W.events wire.old }
        ensures causes { HasCauses (W.faults wire.old) (W.faults wire.new)
            (K.faults log.old) (K.faults log.new) result }
    {
        self.record.write(log)?;
        self.carry_out(wire)?;
        self.send(wire)?;
        Ok(self.waits()?)
    }

    /// Whether the next turn waits.
    fn waits(&mut self) -> Result<bool, NoMemory>
        ensures waits { (f : Frame) (p : rows.Proxy) (before : logs.Log) → Rests f self.old p before
            → IfOk result (λ wait. wait ≡ waits f.limits p) }
        ensures rests { (f : Frame) (p : rows.Proxy) (before : logs.Log) → Rests f self.old p before
            → Rests f self.new p before }
        ensures cache { self.new.cache ≡ self.old.cache }
    {
        if self.moved {
            return Ok(false);
        }
        Ok(!self.hears_something()?)
    }

    /// All that happens in a turn before it is carried out.
    fn happens(&mut self, event: WireEvent, slice: &[u8]) -> Result<(), NoMemory>
        requires begun { ∥ IsBegun self.old event slice.now ∥₁ }
        requires fits { FitsIn event (length slice.now) }
        requires few { steps self.old.cache + 2049 ≤ 2 ^ 60 }
        ensures goes { (t : Turn) (p : rows.Proxy) → Begun t self.old p event slice.now
            → OnOk result (Goes (KeepsPolled t) (faults_in self.old.cache) self.new
            (happened t.frame.limits t.dialled t.call p)) }
        ensures steps { OnOk result (steps self.new.cache ≤ steps self.old.cache + 2049) }
    {
        self.handle(event, slice)?;
        self.network()?;
        self.starts()?;
        self.polls()
    }

    /// All connections are closed.
    fn leave<W: Wire>(&mut self, wire: &mut W) -> Result<(), NoMemory>
        ensures ok { (f : Frame) (p : rows.Proxy) (before : logs.Log) → Rests f self.old p before
            → Follows (W.log wire.old) (W.stages wire.old) before
            → OnOk result (IsClosed before (W.log wire.new)) }
        ensures err { OnErr result (W.log wire.new ≡ W.log wire.old) }
        ensures faults { W.faults wire.new ≡ W.faults wire.old }
    {
        self.round.clear();
        self.clients.list_all(&mut self.round)?;
        self.upstreams.list_connections(&mut self.round)?;
        close_each(self.round.as_slice(), wire);
        Ok(())
    }
}

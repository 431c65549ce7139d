//! A schedule that is replayed.
ghost use Rattle.std.specs.Prelude.{◌≡◌, ◌≢◌, ◌+◌, ◌<◌, ◌≤◌, ◌^◌};
ghost use Rattle.hc_io.specs.Faults.{HasRisen};
ghost use Rattle.hc_sched.specs.declared.schedule.Ended.TheVariants as ended;
ghost use Rattle.hc_core.specs.Steps.{last_moment, steps, bytes_received};
ghost use Rattle.hc_driver.specs.Endings.{Ends};
ghost use Rattle.hc_replay.specs.Replays.{Replays, Completes};

use hc_core::Cache;
use hc_driver::step_through;
use hc_io::{Sink, Source};
use hc_sched::Ended;
use hc_store::Backend;
use std::alloc::Global;

/// Reads a schedule from this moment on, in seconds since 1970, steps a cache by each of its events as
/// soon as its item is whole, and writes the report of each before the next one is stepped. The cache
/// is as it was made, and the moment is that of its beginning or a later one.
///
/// At Done the whole input is a schedule, and the report is that of a run. At Refused the grammar
/// refuses the input at that line, which ends in the last 16,384 bytes that were read, and the
/// report is that of the events before it. At SourceFailed no line of what was read is refused, and
/// the report is that of the events whose items are whole in it. At SinkFailed all events before
/// the last 16,384 bytes that were read are stepped, and maybe some of these. The report of all but
/// the last is written, and some first part of the last one's, and the cache stands for them. At
/// NoMemory it is so too, or a step was refused memory, as each later one is, and the report of all
/// events before it is written. WireFailed never comes.
pub fn replay<B: Backend, S: Source, K: Sink>(
    alloc: Global,
    moment: u64,
    cache: &mut Cache<B>,
    source: &mut S,
    sink: &mut K,
) -> Ended
    requires small { moment < 2 ^ 62 }
    requires later { last_moment cache.old ≤ moment }
    requires unused { steps cache.old + bytes_received cache.old ≡ 0 }
    ensures ends { Ends (Replays cache.old cache.new (K.taken sink.old) (K.taken sink.new))
        moment (S.left source.old) (S.left source.new) result }
    ensures complete { Completes moment (S.left source.old) result }

    // A fault comes only where one was counted, and none is counted where none comes.
    ensures source { result ≡ ended.SourceFailed
        → HasRisen (S.faults source.old) (S.faults source.new) }
    ensures source_calm { result ≢ ended.SourceFailed → S.faults source.new ≡ S.faults source.old }
    ensures sink { result ≡ ended.SinkFailed
        → HasRisen (K.faults sink.old) (K.faults sink.new) }
    ensures sink_calm { result ≢ ended.SinkFailed → K.faults sink.new ≡ K.faults sink.old }

    // At most 2^60 bytes are read, so there is room for more steps.
    ensures few { result ≡ ended.Done → steps cache.new ≤ 2 ^ 59 }
    ensures little { result ≡ ended.Done → bytes_received cache.new ≤ 2 ^ 60 }
{
    step_through(alloc, moment, cache, source, sink)
}

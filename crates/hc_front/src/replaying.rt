//! A schedule that is replayed behind a front.
ghost use Rattle.std.specs.Prelude.{◌≡◌, ◌≢◌, ◌+◌, ◌<◌, ◌≤◌, ◌^◌};
ghost use Rattle.hc_io.specs.Faults.{HasRisen};
ghost use Rattle.hc_sched.specs.declared.schedule.Ended.TheVariants as ended;
ghost use Rattle.hc_driver.specs.Endings.{Ends};
ghost use Rattle.hc_replay.specs.Replays.{Completes};
ghost use Rattle.hc_front.specs.Replays.{ReplaysFront};
ghost use Rattle.hc_front.specs.Steps.{last_moment, steps, bytes_received};

use crate::front::Front;
use hc_driver::step_through;
use hc_io::{Sink, Source};
use hc_sched::Ended;
use hc_store::Backend;
use std::alloc::Global;

/// Reads a schedule from this moment on, in seconds since 1970, steps a front by each of its events as
/// soon as its item is whole, and writes the report of each before the next one is stepped. The front
/// is as it was made, and the moment is that of its beginning or a later one.
///
/// It ends as `replay` does, where the report is that of what the front told, and the run is the
/// history of its cache.
pub fn replay_front<B: Backend, S: Source, K: Sink>(
    alloc: Global,
    moment: u64,
    front: &mut Front<B>,
    source: &mut S,
    sink: &mut K,
) -> Ended
    requires small { moment < 2 ^ 62 }
    requires later { last_moment front.old ≤ moment }
    requires unused { steps front.old + bytes_received front.old ≡ 0 }
    ensures ends { Ends (ReplaysFront front.old front.new (K.taken sink.old) (K.taken sink.new))
        moment (S.left source.old) (S.left source.new) result }
    ensures complete { Completes moment (S.left source.old) result }

    // A fault comes only where one was counted, and none is counted where none comes.
    ensures source { result ≡ ended.SourceFailed
        → HasRisen (S.faults source.old) (S.faults source.new) }
    ensures source_calm { result ≢ ended.SourceFailed → S.faults source.new ≡ S.faults source.old }
    ensures sink { result ≡ ended.SinkFailed
        → HasRisen (K.faults sink.old) (K.faults sink.new) }
    ensures sink_calm { result ≢ ended.SinkFailed → K.faults sink.new ≡ K.faults sink.old }
{
    step_through(alloc, moment, front, source, sink)
}

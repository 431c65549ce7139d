//! A whole fetch.
ghost use Rattle.std.specs.Prelude.{◌≡◌, ◌≢◌, ◌+◌, ◌≤◌, ◌^◌, []};
ghost use Rattle.hc_io.specs.Faults.{HasRisen};
ghost use Rattle.hc_model.specs.Entries.{no_contents};
ghost use Rattle.hc_core.specs.Steps.{StandsFor, steps, bytes_received, limits_in};
ghost use Rattle.hc_fetch.specs.declared.ended.FetchEnded.TheVariants as ended;
ghost use Rattle.hc_fetch.specs.Bounds.{IsPlan};
ghost use Rattle.hc_fetch.specs.Endings.{Fetches, ended_as};
ghost use Rattle.hc_sched.specs.declared.schedule.Ended.TheVariants as course;

use crate::ended::FetchEnded;
use crate::fetching::Fetching;
use crate::plan::FetchPlan;
use hc_core::Cache;
use hc_driver::go_through;
use hc_io::{Sink, Source};
use hc_sched::Ended;
use hc_store::Backend;
use std::alloc::Global;

/// Reads one resource in parts, by consumers of the cache whose polls and network events the schedule
/// has, and writes its body in order. The cache is as `Cache::new` made it.
pub fn fetch<B: Backend + Drop, S: Source, K: Sink>(
    alloc: Global,
    cache: Cache<B>,
    plan: FetchPlan,
    turns: &mut S,
    sink: &mut K,
) -> FetchEnded
    requires new { StandsFor cache no_contents [] }
    requires unused { steps cache + bytes_received cache ≡ 0 }
    requires plan { IsPlan plan }

    // Over a store whose count of failures is constant.
    ensures ends { ((a b : B) → B.faults a ≡ B.faults b) → Fetches (limits_in cache) plan
        (S.left turns.old) (S.left turns.new) (K.taken sink.old) (K.taken sink.new) result }

    // A fault comes only where one was counted, and none is counted where none comes.
    ensures source { result ≡ ended.SourceFailed
        → HasRisen (S.faults turns.old) (S.faults turns.new) }
    ensures source_calm { result ≢ ended.SourceFailed → S.faults turns.new ≡ S.faults turns.old }
    ensures sink { result ≡ ended.SinkFailed
        → HasRisen (K.faults sink.old) (K.faults sink.new) }
    ensures sink_calm { result ≢ ended.SinkFailed → K.faults sink.new ≡ K.faults sink.old }
{
    let mut fetching = Fetching::new(alloc, plan, cache);
    match go_through(alloc, 0, &mut fetching, turns, sink) {
        Ended::Done => fetching.answer(),
        ended => cut_off(ended),
    }
}

/// How a fetch ends by what ended its course, before that was over.
fn cut_off(ended: Ended) -> FetchEnded
    requires done { ended ≢ course.Done }
    requires wire { ended ≢ course.WireFailed }
    ensures { result ≡ ended_as ended }
{
    match ended {
        Ended::Refused(refused) => FetchEnded::Refused(refused),
        Ended::SourceFailed => FetchEnded::SourceFailed,
        Ended::SinkFailed => FetchEnded::SinkFailed,
        Ended::NoMemory => FetchEnded::NoMemory,
        Ended::Done | Ended::WireFailed => unreachable!(),
    }
}

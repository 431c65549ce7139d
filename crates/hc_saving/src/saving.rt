//! A run that is saved.
ghost use Rattle.std.specs.Prelude.{◌≡◌, ◌≢◌, ◌+◌, ◌<◌, ◌≤◌, ◌^◌, length, []};
ghost use Rattle.hc_io.specs.Faults.{HasRisen};
ghost use Rattle.hc_sched.specs.declared.schedule.Ended.TheVariants as ended;
ghost use Rattle.hc_model.specs.Entries.{History, no_contents};
ghost use Rattle.hc_core.specs.Steps.{StandsFor, last_moment, steps, bytes_received, limits_in};
ghost use Rattle.hc_saving.specs.LeftCaches.{StandsForAny};
ghost use Rattle.hc_saving.specs.Saves.{Saves, Writes};

use crate::leaving::image_left;
use crate::nowhere::Nowhere;
use crate::silent::Silent;
use hc_core::Cache;
use hc_driver::go_through;
use hc_io::{Sink, SinkError, Source, write_all};
use hc_sched::Ended;
use hc_store::Memory;
use std::alloc::Global;

/// Reads a schedule and steps a cache by its events. Then all who are live are cancelled, the lowest
/// number first, at the moment of the last event, and the image of what the cache leaves is written.
/// The cache is as `Cache::new` made it. No report is written.
///
/// At Done the whole input is a schedule, and `read_image` reads the image back, with which a store of
/// the same limits may begin. At Refused, and at SourceFailed, nothing is written; the refused line ends
/// in the last 16,384 bytes that were read. At SinkFailed some first part of the image is written, and
/// at NoMemory that or nothing. WireFailed never comes.
pub fn save<S: Source, K: Sink>(
    alloc: Global,
    cache: Cache<Memory>,
    source: &mut S,
    sink: &mut K,
) -> Ended
    requires new { StandsFor cache no_contents [] }
    requires unused { steps cache + bytes_received cache ≡ 0 }
    ensures ends { Saves (limits_in cache) (S.left source.old) (S.left source.new)
        (K.taken sink.old) (K.taken sink.new) result }

    // A fault comes only where one was counted, and none is counted where none comes.
    ensures source { result ≡ ended.SourceFailed
        → HasRisen (S.faults source.old) (S.faults source.new) }
    ensures source_calm { result ≢ ended.SourceFailed → S.faults source.new ≡ S.faults source.old }
    ensures sink { result ≡ ended.SinkFailed
        → HasRisen (K.faults sink.old) (K.faults sink.new) }
    ensures sink_calm { result ≢ ended.SinkFailed → K.faults sink.new ≡ K.faults sink.old }
{
    let mut silent = Silent { cache };
    match go_through(alloc, 0, &mut silent, source, &mut Nowhere) {
        Ended::Done => write_left(alloc, silent.cache, sink),
        ended => ended,
    }
}

/// Writes the image of what the cache leaves.
fn write_left<K: Sink>(alloc: Global, cache: Cache<Memory>, sink: &mut K) -> Ended
    requires stands { ∥ StandsForAny cache ∥₁ }
    requires early { last_moment cache < 2 ^ 62 }
    requires few { steps cache ≤ 2 ^ 59 }
    requires little { bytes_received cache ≤ 2 ^ 60 }
    ensures writes { (h : History) → StandsFor cache no_contents h → steps cache ≡ length h
        → Writes (limits_in cache) h (K.taken sink.old) (K.taken sink.new) result }
    ensures sink { result ≡ ended.SinkFailed
        → HasRisen (K.faults sink.old) (K.faults sink.new) }
    ensures sink_calm { result ≢ ended.SinkFailed → K.faults sink.new ≡ K.faults sink.old }
{
    let Ok(image) = image_left(alloc, cache) else {
        return Ended::NoMemory;
    };
    match write_all(sink, image.as_slice()) {
        Ok(()) => Ended::Done,
        Err(SinkError::SinkFailed) => Ended::SinkFailed,
        Err(SinkError::NoMemory) => Ended::NoMemory,
    }
}

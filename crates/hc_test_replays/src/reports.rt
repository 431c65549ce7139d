//! What tests of replays share: a schedule in parts as a source, an empty sink, and a cache that was
//! just made.
ghost use Rattle.std.specs.Prelude.{◌≡◌, ◌+◌, ◌<◌, ◌≤◌, IfOk};
ghost use Rattle.hc_store.specs.Slots.{no_slots};
ghost use Rattle.hc_core.specs.Steps.{last_moment, steps, bytes_received};

use hc_core::Cache;
use hc_io::{MemorySink, MemorySource};
use hc_rules::Limits;
use hc_store::Backend;
use hc_text::NoMemory;
use std::alloc::Global;
use std::process::Abort;
use std::test::Fail;

pub(crate) const AMPLE: Limits = Limits {
    max_entry: 1000,
    max_total: 1_000_000,
};

/// A source of the parts, one after another. It gives so many bytes at a time, and fails at these
/// reads.
pub(crate) fn source_of<R: Abort + AllocGlobal>(
    rt: &R,
    parts: &[&[u8]],
    step: usize,
    fails: Vec<u64>,
) -> Result<MemorySource, Fail>
    requires { 0 < step }
{
    let mut schedule = Vec::new(rt.alloc());
    for part in parts {
        schedule.extend_from_slice(part)?;
    }
    assert!(rt; schedule.len() < 10_000);
    Ok(MemorySource::new(schedule, step, fails))
}

/// An empty sink that fails at no write.
pub(crate) fn sink_of(alloc: Global) -> MemorySink {
    MemorySink::new(alloc, Vec::new(alloc))
}

/// A cache that no event reached, over this store, which is empty.
pub(crate) fn new_cache<B: Backend + Drop>(
    alloc: Global,
    store: B,
    limits: Limits,
) -> Result<Cache<B>, NoMemory>
    requires empty { B.slots store ≡ no_slots }
    requires limits { B.limits store ≡ limits }
    ensures moment { IfOk result (λ cache. last_moment cache ≤ 0) }
    ensures unused { IfOk result (λ cache. steps cache + bytes_received cache ≡ 0) }
{
    let cache = Cache::new(store, limits, alloc)?;
    Ok(cache)
}

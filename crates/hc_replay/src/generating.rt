//! A run of the generator.
ghost use Rattle.std.specs.Prelude.{◌≡◌, ◌≢◌, ◌≤◌, IfOk};
ghost use Rattle.hc_io.specs.Faults.{HasRisen};
ghost use Rattle.hc_sched.specs.declared.schedule.Ended.TheVariants as ended;
ghost use Rattle.hc_replay.specs.Generates.{Generates};
ghost use Rattle.hc_replay.specs.Summaries.{IsSummary, program_limits};

use crate::rounds::Rounds;
use hc_io::{Sink, SinkError, write_all};
use hc_rules::Limits;
use hc_sched::Ended;
use hc_text::NoMemory;
use std::alloc::Global;

/// How much the store of the program may hold, in bytes.
pub const PROGRAM_LIMITS: Limits = Limits {
    max_entry: 16_777_216,
    max_total: 268_435_456,
};

/// Makes so many rounds of the generator, which follow the seed, on a cache in memory, and writes the
/// summary.
///
/// At Done the sink took the summary of the run. At SinkFailed and NoMemory it took some first part
/// of that. No other end comes.
pub fn generate<K: Sink>(alloc: Global, seed: u64, count: u64, sink: &mut K) -> Ended
    requires few { count ≤ 1_000_000 }
    ensures ends { Generates program_limits seed count (K.taken sink.old) (K.taken sink.new)
        result }

    // A fault comes only where one was counted, and none is counted where none comes.
    ensures sink { result ≡ ended.SinkFailed
        → HasRisen (K.faults sink.old) (K.faults sink.new) }
    ensures sink_calm { result ≢ ended.SinkFailed → K.faults sink.new ≡ K.faults sink.old }
{
    match summary(alloc, seed, count) {
        Ok(text) => match write_all(sink, text.as_slice()) {
            Ok(()) => Ended::Done,
            Err(SinkError::SinkFailed) => Ended::SinkFailed,
            Err(SinkError::NoMemory) => Ended::NoMemory,
        },
        Err(NoMemory) => Ended::NoMemory,
    }
}

/// The summary of the run.
fn summary(alloc: Global, seed: u64, count: u64) -> Result<Vec<u8>, NoMemory>
    requires few { count ≤ 1_000_000 }
    ensures { IfOk result (λ text. IsSummary program_limits seed count text.items) }
{
    let mut rounds = Rounds::new(alloc, PROGRAM_LIMITS, seed)?;
    for _ in 0..count {
        rounds.go_on()?;
    }
    let mut text = Vec::new(alloc);
    rounds.generator.write_summary(&mut text)?;
    Ok(text)
}

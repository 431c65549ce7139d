//! A trial.
ghost use Rattle.std.specs.Prelude.{◌≡◌, ◌+◌, ◌≤◌, IfOk};
ghost use Rattle.hc_store.specs.Slots.{no_slots};
ghost use Rattle.hc_core.specs.Steps.{last_moment, steps, bytes_received};
ghost use Rattle.hc_front.specs.Steps as fronts;

use crate::trials::Stop;
use hc_core::Cache;
use hc_front::{Front, replay_front};
use hc_io::{MemorySource, Sink, write_all};
use hc_record::Kind;
use hc_replay::replay;
use hc_rules::Limits;
use hc_sched::{Ended, SchedRefusal};
use hc_store::{Backend, Failing, Memory, Op};
use hc_text::{Key, NoMemory, read_plain};
use std::alloc::Global;
use std::str;

/// How many bytes of a schedule are read at once: so few that most items are cut.
const PART: usize = 10;

/// The most bytes of a schedule.
const MOST: usize = 1 << 60;

/// How much a store may hold, which of its calls fail, whether a front stands before the cache, and a
/// schedule.
#[derive(Drop)]
pub(crate) struct Trial {
    has_front: bool,
    limits: Limits,
    fails: Vec<(Op, u64)>,
    schedule: Vec<u8>,
}

impl Trial {
    /// The trial that the line begins. None where it is no such line.
    pub(crate) fn new(alloc: Global, line: &[u8]) -> Result<Option<Trial>, NoMemory> {
        let Ok(line) = str::from_utf8(line) else {
            return Ok(None);
        };
        let words: Vec<&str> = line.split_whitespace().collect(alloc)?;
        Trial::of_words(alloc, words.as_slice())
    }

    fn of_words(alloc: Global, words: &[&str]) -> Result<Option<Trial>, NoMemory> {
        let [word, max_entry, max_total, calls @ ..] = words else {
            return Ok(None);
        };
        let (Some(max_entry), Some(max_total)) = (number_of(max_entry), number_of(max_total)) else {
            return Ok(None);
        };
        let Some(fails) = fails_of(alloc, calls)? else {
            return Ok(None);
        };
        Ok(Some(Trial {
            has_front: *word == "front",
            limits: Limits {
                max_entry,
                max_total,
            },
            fails,
            schedule: Vec::new(alloc),
        }))
    }

    /// The line is one of its schedule.
    pub(crate) fn add(&mut self, line: &[u8]) -> Result<(), NoMemory> {
        Ok(self.schedule.extend_from_slice(line)?)
    }

    /// Replays the schedule on a new cache over such a store, behind a front or not, and writes what
    /// comes of it.
    pub(crate) fn replay<K: Sink>(self, alloc: Global, out: &mut K) -> Result<(), Stop> {
        if self.schedule.len() > MOST {
            return Err(Stop::TooLong);
        }
        let store = Failing::new(Memory::new(alloc, self.limits), self.fails);
        let mut source = MemorySource::new(self.schedule, PART, Vec::new(alloc));
        let cache = new_cache(alloc, store, self.limits)?;
        replay_over(alloc, cache, self.has_front, &mut source, out)
    }
}

/// A cache that no event reached, over this store.
fn new_cache<B: Backend + Drop>(
    alloc: Global,
    store: B,
    limits: Limits,
) -> Result<Cache<B>, NoMemory>
    requires empty { B.slots store ≡ no_slots }
    requires limits { B.limits store ≡ limits }
    ensures moment { IfOk result (λ cache. last_moment cache ≤ 0) }
    ensures unused { IfOk result (λ cache. steps cache + bytes_received cache ≡ 0) }
{
    let cache = Cache::new(store, limits, alloc)?;
    Ok(cache)
}

/// Replays the source on the cache, behind a front or not, and writes what comes of it.
fn replay_over<B: Backend + Drop, K: Sink>(
    alloc: Global,
    mut cache: Cache<B>,
    has_front: bool,
    source: &mut MemorySource,
    out: &mut K,
) -> Result<(), Stop>
    requires moment { last_moment cache ≤ 0 }
    requires unused { steps cache + bytes_received cache ≡ 0 }
{
    if has_front {
        replay_before(alloc, &mut Front::new(alloc, cache), source, out)
    } else {
        replay_on(alloc, &mut cache, source, out)
    }
}

/// Replays the source on the front, and writes what comes of it.
fn replay_before<B: Backend, K: Sink>(
    alloc: Global,
    front: &mut Front<B>,
    source: &mut MemorySource,
    out: &mut K,
) -> Result<(), Stop>
    requires moment { fronts.last_moment front.old ≤ 0 }
    requires unused { fronts.steps front.old + fronts.bytes_received front.old ≡ 0 }
{
    let ended = replay_front(alloc, 0, front, source, out);
    let mut text = String::new(alloc);
    report_end(ended, &mut text)?;
    write_text(&text, out)
}

/// Replays the source on the cache, and writes what comes of it and what the cache has then.
fn replay_on<B: Backend, K: Sink>(
    alloc: Global,
    cache: &mut Cache<B>,
    source: &mut MemorySource,
    out: &mut K,
) -> Result<(), Stop>
    requires moment { last_moment cache.old ≤ 0 }
    requires unused { steps cache.old + bytes_received cache.old ≡ 0 }
{
    let ended = replay(alloc, 0, cache, source, out);
    let mut text = String::new(alloc);
    report_end(ended, &mut text)?;
    report_left(alloc, cache, &mut text)?;
    write_text(&text, out)
}

fn write_text<K: Sink>(text: &String, out: &mut K) -> Result<(), Stop> {
    Ok(write_all(out, text.as_bytes())?)
}

/// Tells how much is stored, and how many events were stepped.
fn report_left<B: Backend>(alloc: Global, cache: &Cache<B>, to: &mut String) -> Result<(), Stop> {
    let stored = stored(kind_in(alloc, cache)?);
    let steps = cache.steps();
    Ok(write!(to, "stored {stored}\nstepped {steps}\n")?)
}

fn kind_in<B: Backend>(alloc: Global, cache: &Cache<B>) -> Result<Option<Kind>, NoMemory> {
    let key = Key {
        bytes: b"http://a.test/x".to_vec(alloc)?,
    };
    Ok(cache.kind_of(&key))
}

/// The calls that fail, by their names and numbers. None where these are no pairs of such.
fn fails_of(alloc: Global, words: &[&str]) -> Result<Option<Vec<(Op, u64)>>, NoMemory> {
    let mut fails = Vec::new(alloc);
    if add_fails(words, &mut fails)? {
        Ok(Some(fails))
    } else {
        Ok(None)
    }
}

/// Adds the calls of the pairs. False where these are no pairs of a call and a number.
fn add_fails(words: &[&str], fails: &mut Vec<(Op, u64)>) -> Result<bool, NoMemory> {
    let pairs = words.chunks_exact(2);
    if !pairs.remainder().is_empty() {
        return Ok(false);
    }
    for pair in pairs {
        let (Some(op), Some(number)) = (op_of(pair[0]), number_of(pair[1])) else {
            return Ok(false);
        };
        fails.push((op, number))?;
    }
    Ok(true)
}

/// The call of a name.
fn op_of(name: &str) -> Option<Op> {
    match name {
        "create" => Some(Op::Create),
        "write_record" => Some(Op::WriteRecord),
        "read_record" => Some(Op::ReadRecord),
        "put" => Some(Op::Put),
        "run_at" => Some(Op::RunAt),
        "seal" => Some(Op::Seal),
        _ => None,
    }
}

fn number_of(word: &str) -> Option<u64> {
    read_plain(word.as_bytes())
}

/// Tells how a replay ended that came to an end of its schedule.
fn report_end(ended: Ended, to: &mut String) -> Result<(), Stop> {
    match ended {
        Ended::Done => Ok(to.push_str("ended done\n")?),
        Ended::Refused(refused) => {
            let (line, why) = (refused.line, refusal(refused.why));
            Ok(write!(to, "ended refused {line} {why}\n")?)
        }
        Ended::SourceFailed | Ended::WireFailed => Err(Stop::SourceFailed),
        Ended::SinkFailed => Err(Stop::SinkFailed),
        Ended::NoMemory => Err(Stop::NoMemory),
    }
}

/// The name of a refusal.
fn refusal(why: SchedRefusal) -> &'static str {
    match why {
        SchedRefusal::BadLine => "BadLine",
        SchedRefusal::LineTooLong => "LineTooLong",
        SchedRefusal::BadTarget => "BadTarget",
        SchedRefusal::MomentBack { .. } => "MomentBack",
        SchedRefusal::CutShort => "CutShort",
    }
}

/// How much is stored.
fn stored(kind: Option<Kind>) -> &'static str {
    match kind {
        Some(Kind::Growing) => "growing",
        Some(Kind::Whole) => "whole",
        Some(Kind::Truncated) => "truncated",
        Some(Kind::Ranges) => "ranges",
        None => "nothing",
    }
}

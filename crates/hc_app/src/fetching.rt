//! One resource is read in parts, and its body is written.
ghost use Rattle.std.specs.Prelude.{◌≡◌, ◌≢◌, ◌≤◌, ℕ, map, IfNone, IfSome, IfOk};
ghost use Rattle.std.specs.String.{string_bytes};
ghost use Rattle.hc_text.specs.Numbers.{IsPlain};
ghost use Rattle.hc_fetch.specs.Bounds.{IsPlan};
ghost use Rattle.hc_app.specs.Failing.{IsStreamStatus};
ghost use Rattle.hc_app.specs.Fetching.{ConcludesFetch, IsFetch, NoFetch, IsPlanOf, NoPlan, fetching};
ghost use Rattle.hc_app.specs.Owing.{streams, Does};

use crate::run::conclude;
use crate::say::say_fetch;
use crate::status::{Status, stopped};
use hc_core::Cache;
use hc_fetch::{FetchEnded, FetchPlan, fetch};
use hc_io::{Sink, Source};
use hc_replay::PROGRAM_LIMITS;
use hc_sched::Ended;
use hc_store::Memory;
use hc_target::is_target;
use hc_text::{Key, NoMemory, read_plain};
use std::alloc::Global;

/// Parts of a resource, at most.
const MOST_PARTS: u64 = 1_000;

/// Bytes of a part, at most.
const MOST_BYTES: u64 = 1 << 40;

/// What is to be fetched, where the words ask for a fetch.
pub(crate) fn fetch_of(alloc: Global, words: &[String]) -> Result<Option<FetchPlan>, NoMemory>
    ensures found { IfOk result (λ plan. IfSome plan (IsFetch (map string_bytes words.now))) }
    ensures none { IfOk result (λ plan. IfNone plan (NoFetch (map string_bytes words.now))) }
{
    match words {
        [word, target, parts, size] => plan_by(alloc, word, target, parts, size),
        _ => Ok(None),
    }
}

/// A plan, where the word asks for one, of a target, in so many parts of so many bytes.
fn plan_by(
    alloc: Global,
    word: &String,
    target: &String,
    parts: &String,
    size: &String,
) -> Result<Option<FetchPlan>, NoMemory>
    ensures found { IfOk result (λ plan. IfSome plan (IsPlanOf (string_bytes word.now)
        (string_bytes target.now) (string_bytes parts.now) (string_bytes size.now))) }
    ensures none { IfOk result (λ plan. IfNone plan (NoPlan (string_bytes word.now)
        (string_bytes target.now) (string_bytes parts.now) (string_bytes size.now))) }
{
    if word.as_str() != "fetch" {
        return Ok(None);
    }
    let Some(parts) = number_up_to(parts, MOST_PARTS) else {
        return Ok(None);
    };
    let Some(size) = number_up_to(size, MOST_BYTES) else {
        return Ok(None);
    };
    let target = target.as_bytes();
    if !is_target(alloc, target)? {
        return Ok(None);
    }
    let key = Key {
        bytes: target.to_vec(alloc)?,
    };
    Ok(Some(FetchPlan { key, parts, size }))
}

/// The plain number that the word spells, from 1 on and no more than this.
fn number_up_to(word: &String, most: u64) -> Option<u64>
    ensures found { IfSome result
        (λ n. IsPlain (string_bytes word.now) n × (1 ≤ n) × (n ≤ most)) }
    ensures none { IfNone result
        ((n : ℕ) → IsPlain (string_bytes word.now) n → 1 ≤ n → n ≤ most → ⊥) }
{
    let n = read_plain(word.as_bytes())?;
    if 1 <= n && n <= most { Some(n) } else { None }
}

/// Fetches by the input, on a new cache in memory.
pub(crate) fn fetch_input<S: Source, K: Sink, D: Sink>(
    alloc: Global,
    plan: FetchPlan,
    input: &mut S,
    out: &mut K,
    diag: &mut D,
) -> Status
    requires plan { IsPlan plan }
    ensures does { Does (fetching plan)
        (streams (S.left input.old) (K.taken out.old) (D.taken diag.old)
        (K.faults out.old) (D.faults diag.old))
        (streams (S.left input.new) (K.taken out.new) (D.taken diag.new)
        (K.faults out.new) (D.faults diag.new))
        result }
    ensures stream_faults { IsStreamStatus (S.faults input.old) (S.faults input.new)
        (K.faults out.old) (K.faults out.new) (D.faults diag.old) (D.faults diag.new) result }
    ensures wireless { result ≢ Status.WireFailed }
{
    let store = Memory::new(alloc, PROGRAM_LIMITS);
    let Ok(cache) = Cache::new(store, PROGRAM_LIMITS, alloc) else {
        return Status::NoMemory;
    };
    let end = fetch(alloc, cache, plan, input, out);
    conclude_fetch(alloc, end, diag)
}

/// Tells how a fetch ended, and answers the status.
fn conclude_fetch<D: Sink>(alloc: Global, end: FetchEnded, diag: &mut D) -> Status
    ensures { ConcludesFetch (D.taken diag.old) (D.taken diag.new) (D.faults diag.old)
        (D.faults diag.new) end result }
{
    match end {
        FetchEnded::Done { .. } => Status::Done,
        FetchEnded::Refused(refused) => conclude(alloc, Ended::Refused(refused), diag),
        FetchEnded::SourceFailed => Status::SourceFailed,
        FetchEnded::SinkFailed => Status::SinkFailed,
        FetchEnded::NoMemory => Status::NoMemory,
        _ => match say_fetch(alloc, end, diag) {
            Ok(()) => Status::FetchStopped,
            Err(e) => stopped(e),
        },
    }
}

//! What a cache leaves, and a cache that begins with that.
ghost use Rattle.std.specs.Prelude.{◌≡◌};
ghost use Rattle.hc_store.specs.Slots.{no_slots};

use crate::reports::{AMPLE, new_cache, sink_of, source_of};
use hc_contents::Contents;
use hc_core::{Cache, ContentsError};
use hc_io::{MemorySink, MemorySource};
use hc_record::Kind;
use hc_replay::replay;
use hc_rules::Limits;
use hc_sched::Ended;
use hc_store::{Backend, Failing, Memory, Op, StoreError};
use std::alloc::Global;
use std::process::Abort;
use std::test::Fail;

/// Who asked leaves when half of it came.
const LEFT: &[u8] = b"at 1000
start 1 GET normal http://a.test/x 0
poll 1 100
head 1 200 3
cache-control: max-age=60
content-length: 6
etag: \"a\"
poll 1 100
poll 1 100
piece 1 616263
cancel 1
";

/// Another has the rest fetched.
const RESUMED: &[u8] = b"start 2 GET normal http://a.test/x 0
poll 2 100
head 2 206 2
content-range: bytes 3-5/6
etag: \"a\"
poll 2 100
poll 2 100
poll 2 100
piece 2 646566
poll 2 100
poll 2 100
";

/// What is told of that, from the first event on.
const TOLD: &[u8] = b"> 1
> 2
open 2 2 hole:3-6 GET http://a.test/x 2
if-range: \"a\"
range: bytes=3-
pending 2 head:2
> 3
> 4
shown 2 1 validated:2 200 0 6 3
cache-control: max-age=60
content-length: 6
etag: \"a\"
> 5
data 2 1 0 616263
> 6
ask 2
pending 2 body:2
> 7
> 8
data 2 2 3 646566
> 9
ended 2
";

/// What a cache leaves after a schedule, over a store of which these calls fail. None where somebody
/// is live then.
fn left_after(
    alloc: Global,
    source: &mut MemorySource,
    fails: Vec<(Op, u64)>,
) -> Result<Option<Contents>, StoreError> {
    let store = Failing::new(Memory::new(alloc, AMPLE), fails);
    let mut cache = new_cache(alloc, store, AMPLE)?;
    let ended = replay(alloc, 0, &mut cache, source, &mut sink_of(alloc));
    left_in(&mut cache, ended)
}

/// What the cache leaves, none where it didn't come to the end or somebody is live.
fn left_in<B: Backend>(cache: &mut Cache<B>, ended: Ended) -> Result<Option<Contents>, StoreError> {
    if ended != Ended::Done || cache.live() > 0 {
        return Ok(None);
    }
    Ok(Some(cache.contents()?))
}

/// What a cache that begins with contents tells of a schedule, and leaves. None where it can't begin
/// with them, or doesn't come to the end.
fn replay_after(
    alloc: Global,
    contents: &Contents,
    source: &mut MemorySource,
    sink: &mut MemorySink,
) -> Result<Option<Contents>, StoreError> {
    let store = Memory::new(alloc, AMPLE);
    let Ok(mut cache) = Cache::with_contents(store, AMPLE, contents, alloc) else {
        return Ok(None);
    };
    let moment = cache.last_moment();
    if moment != 1000 {
        return Ok(None);
    }
    let ended = replay(alloc, moment, &mut cache, source, sink);
    left_in(&mut cache, ended)
}

/// What is left after these parts of a schedule.
fn left_by<R: Abort + AllocGlobal>(rt: &R, parts: &[&[u8]]) -> Result<Contents, Fail> {
    let alloc = rt.alloc();
    let mut source = source_of(rt, parts, 10, Vec::new(alloc))?;
    let left = left_after(alloc, &mut source, Vec::new(alloc))?;
    Ok(left.ok_or("somebody is live")?)
}

/// Whether the contents are one item of this kind, with these runs: by whom, from where, and what.
fn is_one(contents: &Contents, kind: Kind, runs: &[(u64, u64, &[u8])]) -> bool {
    let [item] = contents.items.as_slice() else {
        return false;
    };
    let found = item.runs.as_slice();
    item.key.bytes.as_slice() == b"http://a.test/x".as_slice()
        && item.r == 1
        && item.head.kind == kind
        && item.head.total == Some(6)
        && found.len() == runs.len()
        && found.iter().zip(runs).all(|(run, (x, at, bytes))| {
            run.x == *x && run.at == *at && run.bytes.as_slice() == *bytes
        })
}

#[test]
fn leaves_what_came(rt: HostRuntime) -> Result<(), Fail> {
    let contents = left_by(&rt, &[LEFT])?;
    assert_eq!(rt; contents.now, 1000);
    assert_eq!(rt; contents.last_consumer, 1);
    assert_eq!(rt; contents.next_exchange, 2);
    assert!(rt; is_one(&contents, Kind::Truncated, &[(1, 0, b"abc")]));
    Ok(())
}

#[test]
fn begins_with_what_was_left(rt: HostRuntime) -> Result<(), Fail> {
    let half = left_by(&rt, &[LEFT])?;
    expect_whole(&rt, &resumed(&rt, &half)?);

    // A cache that went on leaves the same.
    expect_whole(&rt, &left_by(&rt, &[LEFT, RESUMED])?);
    Ok(())
}

/// What a cache leaves that begins with half of it and has the rest fetched.
fn resumed<R: Abort + AllocGlobal>(rt: &R, half: &Contents) -> Result<Contents, Fail> {
    let alloc = rt.alloc();
    let mut source = source_of(rt, &[RESUMED], 10, Vec::new(alloc))?;
    let mut sink = sink_of(alloc);
    let left = replay_after(alloc, half, &mut source, &mut sink)?;
    assert!(rt; sink.taken() == TOLD);
    Ok(left.ok_or("not to its end")?)
}

/// All of it is left.
fn expect_whole<R: Abort>(rt: &R, contents: &Contents) {
    assert_eq!(rt; contents.now, 1000);
    assert_eq!(rt; contents.last_consumer, 2);
    assert_eq!(rt; contents.next_exchange, 3);
    assert!(rt; is_one(contents, Kind::Whole, &[(1, 0, b"abc"), (2, 3, b"def")]));
}

/// Why a cache can't begin with contents over this store, if it can't.
fn why_not<B: Backend + Drop>(
    alloc: Global,
    store: B,
    limits: Limits,
    contents: &Contents,
) -> Option<ContentsError>
    requires empty { B.slots store ≡ no_slots }
    requires limits { B.limits store ≡ limits }
{
    match Cache::with_contents(store, limits, contents, alloc) {
        Ok(_) => None,
        Err(refused) => Some(refused.why),
    }
}

/// Why not over a store in memory with these limits.
fn why_not_in(alloc: Global, limits: Limits, contents: &Contents) -> Option<ContentsError> {
    why_not(alloc, Memory::new(alloc, limits), limits, contents)
}

#[test]
fn begins_with_nothing_else(rt: HostRuntime) -> Result<(), Fail> {
    let alloc = rt.alloc();
    let mut contents = left_by(&rt, &[LEFT])?;
    let fits = Limits {
        max_entry: 3,
        max_total: 32_771,
    };
    assert_eq!(rt; why_not_in(alloc, fits, &contents), None);
    let tight = Limits {
        max_entry: 3,
        max_total: 32_770,
    };
    let full = Some(ContentsError::Full);
    assert_eq!(rt; why_not_in(alloc, tight, &contents), full);

    contents.now = 1 << 62;
    let bad_item = Some(ContentsError::BadContent { i: 1 });
    assert_eq!(rt; why_not_in(alloc, AMPLE, &contents), bad_item);
    contents.next_exchange = 1;
    let bad_number = Some(ContentsError::BadContent { i: 0 });
    assert_eq!(rt; why_not_in(alloc, AMPLE, &contents), bad_number);
    Ok(())
}

#[test]
fn reports_that_its_store_fails(rt: HostRuntime) -> Result<(), Fail> {
    let contents = left_by(&rt, &[LEFT])?;
    for op in &[Op::Create, Op::Put] {
        let fails = vec![in rt.alloc(); (*op, 1)]?;
        let why = why_not_over(rt.alloc(), fails, &contents);
        assert_eq!(rt; why, Some(ContentsError::Fault));
    }
    // One read of each kind is for the contents.
    assert_eq!(rt; faults_in(&rt, Op::ReadRecord)?, 1);
    assert_eq!(rt; faults_in(&rt, Op::RunAt)?, 1);
    Ok(())
}

/// Why not over a store of which these calls fail.
fn why_not_over(
    alloc: Global,
    fails: Vec<(Op, u64)>,
    contents: &Contents,
) -> Option<ContentsError> {
    let store = Failing::new(Memory::new(alloc, AMPLE), fails);
    why_not(alloc, store, AMPLE, contents)
}

/// How many of the first five calls of this kind are for the contents: where one fails, they do.
fn faults_in<R: Abort + AllocGlobal>(rt: &R, op: Op) -> Result<u64, Fail> {
    let mut faults = 0u64;
    for call in 1..=5 {
        if fails_at(rt, op, call)? {
            faults = faults.wrapping_add(1);
        }
    }
    Ok(faults)
}

/// Whether no contents are told where this call fails.
fn fails_at<R: Abort + AllocGlobal>(rt: &R, op: Op, call: u64) -> Result<bool, Fail> {
    let alloc = rt.alloc();
    let fails = vec![in alloc; (op, call)]?;
    let mut source = source_of(rt, &[LEFT], 10, Vec::new(alloc))?;
    let left = left_after(alloc, &mut source, fails);
    Ok(left.err() == Some(StoreError::Fault))
}

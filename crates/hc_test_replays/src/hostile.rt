//! Streams that fail at any call, schedules that are cut at any byte, and a store that fails at any
//! call.
use crate::reports::{AMPLE, new_cache, sink_of, source_of};
use hc_io::MemorySink;
use hc_replay::replay;
use hc_sched::{Ended, Refused, SchedRefusal};
use hc_store::{Failing, Memory, Op};
use std::process::Abort;
use std::str;
use std::test::Fail;

/// Two consumers share a download.
const SHARED: &[u8] = b"at 1000
start 1 GET normal http://a.test/x 0
poll 1 100
head 1 200 3
cache-control: max-age=60
content-length: 6
etag: \"a\"
poll 1 100
poll 1 100
piece 1 616263
start 2 GET normal http://a.test/x 0
poll 2 100
poll 2 100
poll 1 100
poll 1 100
poll 2 100
piece 1 646566
poll 2 100
poll 2 100
";

/// Who asked leaves, and another consumer has the rest fetched.
const RESUMED: &[u8] = b"at 1000
start 1 GET normal http://a.test/x 0
poll 1 100
head 1 200 3
cache-control: max-age=60
content-length: 6
etag: \"a\"
poll 1 100
poll 1 100
piece 1 616263
cancel 1
start 2 GET normal http://a.test/x 0
poll 2 100
head 2 206 2
content-range: bytes 3-5/6
etag: \"a\"
poll 2 100
poll 2 100
poll 2 100
piece 2 646566
poll 2 100
poll 2 100
";

/// How the replay of a schedule ends that is read byte by byte, where these reads fail.
fn replay_through<R: Abort + AllocGlobal>(
    rt: &R,
    text: &[u8],
    reads: Vec<u64>,
    sink: &mut MemorySink,
) -> Result<Ended, Fail> {
    let alloc = rt.alloc();
    let mut source = source_of(rt, &[text], 1, reads)?;
    let mut cache = new_cache(alloc, Memory::new(alloc, AMPLE), AMPLE)?;
    Ok(replay(alloc, 0, &mut cache, &mut source, sink))
}

/// How it ends where no read and no write fails.
fn end_of<R: Abort + AllocGlobal>(rt: &R, text: &[u8]) -> Result<Ended, Fail> {
    let alloc = rt.alloc();
    let mut sink = sink_of(alloc);
    replay_through(rt, text, Vec::new(alloc), &mut sink)
}

/// The report of the text, where no read and no write fails.
fn report_of<R: Abort + AllocGlobal>(rt: &R, text: &[u8]) -> Result<Vec<u8>, Fail> {
    let alloc = rt.alloc();
    let mut sink = sink_of(alloc);
    let ended = replay_through(rt, text, Vec::new(alloc), &mut sink)?;
    assert_eq!(rt; ended, Ended::Done);
    Ok(Vec::from_slice(alloc, sink.taken())?)
}

/// An item ends there: a line does, and the next one is no field.
fn ends_an_item(text: &[u8], at: usize) -> bool {
    if at == 0 {
        return true;
    }
    if at > text.len() || text[at - 1] != b'\n' {
        return false;
    }
    let mut line = text[at..].iter().take_while(|byte| **byte != b'\n');
    text[at..].starts_with(b"start") || !line.any(|byte| *byte == b':')
}

#[test]
fn a_read_fails(rt: HostRuntime) -> Result<(), Fail> {
    // The report of the items of which all was read.
    let mut due = Vec::new(rt.alloc());
    for read in 0..=SHARED.len() {
        if ends_an_item(SHARED, read) {
            due = report_of(&rt, &SHARED[..read])?;
        }
        expect_read_failure(&rt, read, &due)?;
    }
    Ok(())
}

/// The read behind so many bytes fails, and this is reported until then.
fn expect_read_failure<R: Abort + AllocGlobal>(
    rt: &R,
    read: usize,
    due: &[u8],
) -> Result<(), Fail> {
    let alloc = rt.alloc();
    let fails = vec![in alloc; (read as u64).saturating_add(1)]?;
    let mut sink = sink_of(alloc);
    let ended = replay_through(rt, SHARED, fails, &mut sink)?;
    assert_eq!(rt; ended, Ended::SourceFailed, "{read}");
    assert!(rt; sink.taken() == due, "{read}");
    Ok(())
}

#[test]
fn a_write_fails(rt: HostRuntime) -> Result<(), Fail> {
    let due = report_of(&rt, SHARED)?;
    let mut failed = 0;
    for write in 1..1000u64 {
        let ended = end_at_write(&rt, write, &due)?;
        if ended == Ended::Done {
            break;
        }
        assert_eq!(rt; ended, Ended::SinkFailed, "{write}");
        failed = write;
    }
    // There is a write for each event at least.
    assert!(rt; failed >= 15 && failed < 999, "{failed}");
    Ok(())
}

/// How it ends where this write fails, and a first part of what is due is reported.
fn end_at_write<R: Abort + AllocGlobal>(rt: &R, write: u64, due: &[u8]) -> Result<Ended, Fail> {
    let alloc = rt.alloc();
    let mut sink = MemorySink::new(alloc, vec![in alloc; write]?);
    let ended = replay_through(rt, SHARED, Vec::new(alloc), &mut sink)?;
    assert!(rt; due.starts_with(sink.taken()), "{write}");
    Ok(ended)
}

#[test]
fn a_schedule_is_cut(rt: HostRuntime) -> Result<(), Fail> {
    for cut in 0..=SHARED.len() {
        let ended = end_of(&rt, &SHARED[..cut])?;
        if ends_an_item(SHARED, cut) {
            assert_eq!(rt; ended, Ended::Done, "{cut}");
        } else {
            assert_eq!(rt; why_refused(ended), Some(SchedRefusal::CutShort), "{cut}");
        }
    }
    Ok(())
}

fn why_refused(ended: Ended) -> Option<SchedRefusal> {
    match ended {
        Ended::Refused(Refused { why, .. }) => Some(why),
        _ => None,
    }
}

#[test]
fn a_call_of_the_store_fails(rt: HostRuntime) -> Result<(), Fail> {
    for op in &[Op::WriteRecord, Op::ReadRecord, Op::RunAt] {
        for call in 1..=20 {
            resume_over(&rt, *op, call)?;
        }
    }
    Ok(())
}

/// Where this call fails, the replay comes to its end, and its report tells so.
fn resume_over<R: Abort + AllocGlobal>(rt: &R, op: Op, call: u64) -> Result<(), Fail> {
    let alloc = rt.alloc();
    let fails = vec![in alloc; (op, call)]?;
    let store = Failing::new(Memory::new(alloc, AMPLE), fails);
    let mut cache = new_cache(alloc, store, AMPLE)?;
    let mut source = source_of(rt, &[RESUMED], 10, Vec::new(alloc))?;
    let mut sink = sink_of(alloc);
    let ended = replay(alloc, 0, &mut cache, &mut source, &mut sink);
    assert_eq!(rt; ended, Ended::Done, "{call}");
    expect_first_part(rt, str::from_utf8(sink.taken())?)
}

/// What consumer 2 is given is a first part of the whole body, or of its end where that is all that
/// it is shown, and one failure of the store is told at most.
fn expect_first_part<R: Abort + AllocGlobal>(rt: &R, report: &str) -> Result<(), Fail> {
    let mut given = String::new(rt.alloc());
    let mut reported = 0u64;
    let mut is_rest = false;
    for line in report.lines() {
        is_rest = is_rest || line == "shown 2 2 fetched:2 206 3 6 2";
        if line.starts_with("data 2 ") {
            given.push_str(line.split_whitespace().last().unwrap_or(""))?;
        }
        if line.starts_with("lost") || line.contains("store-read") {
            reported = reported.wrapping_add(1);
        }
    }
    let whole = if is_rest { "646566" } else { "616263646566" };
    assert!(rt; whole.starts_with(given.as_str()), "{report}");
    assert!(rt; reported <= 1, "{report}");
    Ok(())
}

//! A schedule that is read in pieces of any size, and what fails on the way.
ghost use Rattle.std.specs.Prelude.{◌≡◌, ◌<◌, ◌^◌, ⊤, length};

use hc_driver::step_through;
use hc_event::{Act, Acts, Event, Stepper};
use hc_io::{MemorySink, MemorySource};
use hc_sched::{Ended, Refused, SchedRefusal};
use hc_text::NoMemory;
use std::alloc::Global;
use std::process::Abort;
use std::test::Fail;

/// Answers each poll by an end, and another event by nothing.
#[derive(Drop)]
struct Echo {
    moment: u64,
    steps: u64,
    received: u64,
}

impl Stepper for Echo {
    ghost moment = { λ s. s.moment };

    ghost steps = { λ s. s.steps };

    ghost received = { λ s. s.received };

    ghost answers = { λ _ _ _ _ _. ⊤ };

    ghost spent = { λ _ _. ⊤ };

    fn step(&mut self, now: u64, event: &Event, out: &mut Acts) -> Result<(), NoMemory> {
        if let Event::Poll { c, .. } = event {
            out.push(Act::Ended { c: *c })?;
        }
        self.moment = now;
        self.steps += 1;
        self.received += match event {
            Event::Piece { bytes, .. } => bytes.len() as u64,
            _ => 0,
        };
        Ok(())
    }
}

const SCHEDULE: &[u8] = b"poll 1 1\nat 7\nhead 1 200 1\na: b\npiece 1 6869\npoll 2 1\n";

const REPORT: &[u8] = b"> 1\nended 1\n> 2\n> 3\n> 4\nended 2\n";

/// A schedule that comes in pieces of `size` bytes, where reads fail at these calls.
fn source_of(
    alloc: Global,
    schedule: &[u8],
    size: usize,
    fails: &[u64],
) -> Result<MemorySource, Fail>
    requires some { 0 < size }
    requires short { length schedule.now < 2 ^ 40 }
{
    let bytes = Vec::from_slice(alloc, schedule)?;
    Ok(MemorySource::new(bytes, size, Vec::from_slice(alloc, fails)?))
}

/// The schedule ends in this way, and this report is written, where writes fail at these calls.
fn expect<R: Abort + AllocGlobal>(
    rt: &R,
    source: &mut MemorySource,
    fails: &[u64],
    how: Ended,
    report: &[u8],
) -> Result<(), Fail> {
    let fails = Vec::from_slice(rt.alloc(), fails)?;
    let mut sink = MemorySink::new(rt.alloc(), fails);
    expect_in(rt, source, &mut sink, how, report);
    Ok(())
}

fn expect_in<R: Abort + AllocGlobal>(
    rt: &R,
    source: &mut MemorySource,
    sink: &mut MemorySink,
    how: Ended,
    report: &[u8],
) {
    let mut echo = Echo {
        moment: 0,
        steps: 0,
        received: 0,
    };
    let ended = step_through(rt.alloc(), 0, &mut echo, source, sink);
    assert_eq!(rt; ended, how);
    assert_eq!(rt; sink.taken(), report);
}

#[test]
fn reports_however_the_schedule_is_cut(rt: HostRuntime) -> Result<(), Fail> {
    for size in 1..80 {
        let mut source = source_of(rt.alloc(), SCHEDULE, size, &[])?;
        expect(&rt, &mut source, &[], Ended::Done, REPORT)?;
    }
    Ok(())
}

#[test]
fn reports_what_comes_before_a_refusal(rt: HostRuntime) -> Result<(), Fail> {
    let bad_line = b"poll 1 1\npoll 01 1\npoll 2 1\n";
    let cut_short = b"poll 1 1\npoll 2";
    for size in [1, 5, 100] {
        expect_refused(&rt, bad_line, size, SchedRefusal::BadLine)?;
        expect_refused(&rt, cut_short, size, SchedRefusal::CutShort)?;
    }
    Ok(())
}

/// The second line is refused, behind one poll.
fn expect_refused<R: Abort + AllocGlobal>(
    rt: &R,
    schedule: &[u8],
    size: usize,
    why: SchedRefusal,
) -> Result<(), Fail>
    requires some { 0 < size }
    requires short { length schedule.now < 2 ^ 40 }
{
    let mut source = source_of(rt.alloc(), schedule, size, &[])?;
    let refused = Ended::Refused(Refused { line: 2, why });
    expect(rt, &mut source, &[], refused, b"> 1\nended 1\n")
}

#[test]
fn reports_until_a_read_fails(rt: HostRuntime) -> Result<(), Fail> {
    let mut source = source_of(rt.alloc(), SCHEDULE, 10, &[3])?;
    expect(
        &rt,
        &mut source,
        &[],
        Ended::SourceFailed,
        b"> 1\nended 1\n",
    )
}

#[test]
fn reports_until_a_write_fails(rt: HostRuntime) -> Result<(), Fail> {
    let mut source = source_of(rt.alloc(), SCHEDULE, 10, &[])?;
    expect(
        &rt,
        &mut source,
        &[3],
        Ended::SinkFailed,
        b"> 1\nended 1\n> 2\n",
    )
}

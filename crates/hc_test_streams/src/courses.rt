//! A course that is over before its schedule is.
ghost use Rattle.std.specs.Prelude.{◌≡◌, ◌<◌, ◌^◌, ⊤, nat_eq};

use hc_driver::{Course, go_through};
use hc_event::{Acts, Event};
use hc_io::{MemorySink, MemorySource};
use hc_sched::Ended;
use hc_text::NoMemory;
use std::alloc::Global;
use std::process::Abort;
use std::test::Fail;

/// Answers so many more events, each by its number in the schedule.
#[derive(Drop)]
struct Countdown {
    left: u64,
    moment: u64,
    steps: u64,
    received: u64,
}

impl Course for Countdown {
    ghost moment = { λ s. s.moment };

    ghost steps = { λ s. s.steps };

    ghost received = { λ s. s.received };

    ghost over = { λ s. nat_eq s.left 0 };

    ghost reports = { λ _ _ _ _ _ _. ⊤ };

    ghost spent = { λ _ _. ⊤ };

    fn go(
        &mut self,
        number: u64,
        now: u64,
        event: &Event,
        _acts: &mut Acts,
        text: &mut Vec<u8>,
    ) -> Result<(), NoMemory> {
        text.push(b'0' + (number % 10) as u8)?;
        self.left -= 1;
        self.moment = now;
        self.steps += 1;
        self.received += match event {
            Event::Piece { bytes, .. } => bytes.len() as u64,
            _ => 0,
        };
        Ok(())
    }

    fn is_over(&self) -> bool {
        self.left == 0
    }
}

const SCHEDULE: &[u8] = b"poll 1 1\npoll 2 1\nno line\n";

/// A source that gives the schedule byte by byte and fails at its 20th read.
fn source_of(alloc: Global) -> Result<MemorySource, Fail> {
    let schedule = Vec::from_slice(alloc, SCHEDULE)?;
    Ok(MemorySource::new(schedule, 1, vec![in alloc; 20]?))
}

/// Counts down from `left` over the schedule. It ends in this way, the course is over then or not, and
/// two events are written.
fn expect<R: Abort + AllocGlobal>(
    rt: &R,
    left: u64,
    source: &mut MemorySource,
    sink: &mut MemorySink,
    how: Ended,
    is_over: bool,
)
    requires { 0 < left }
{
    let mut on = Countdown {
        left,
        moment: 0,
        steps: 0,
        received: 0,
    };
    let ended = go_through(rt.alloc(), 0, &mut on, source, sink);
    assert_eq!(rt; ended, how);
    assert!(rt; on.is_over() == is_over);
    assert_eq!(rt; sink.taken(), b"12".as_slice());
}

#[test]
fn reads_on_until_it_is_over(rt: HostRuntime) -> Result<(), Fail> {
    let mut source = source_of(rt.alloc())?;
    let mut sink = MemorySink::new(rt.alloc(), Vec::new(rt.alloc()));
    expect(&rt, 2, &mut source, &mut sink, Ended::Done, true);
    Ok(())
}

#[test]
fn fails_before_it_is_over(rt: HostRuntime) -> Result<(), Fail> {
    let mut source = source_of(rt.alloc())?;
    let mut sink = MemorySink::new(rt.alloc(), Vec::new(rt.alloc()));
    expect(&rt, 3, &mut source, &mut sink, Ended::SourceFailed, false);
    Ok(())
}

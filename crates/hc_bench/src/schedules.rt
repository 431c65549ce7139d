//! Schedules that are read as a stream, and events that are written.
ghost use Rattle.std.specs.Prelude.{◌≡◌, ◌≤◌, IfOk};
ghost use Rattle.hc_sched.specs.Feeding.{lines_in};
ghost use Rattle.hc_sched.specs.Schedule.{IsEvent};

use crate::error::BenchError;
use crate::words::times_of;
use hc_event::Event;
use hc_io::Source;
use hc_sched::{Feed, Timed, write_event};
use hc_text::Bytes;
use std::alloc::Global;
use std::io::Write;

/// How many bytes are read at once.
const READ_LEN: usize = 16_384;

/// From how many bytes on they are written.
const WRITE_LEN: usize = 65_536;

/// How many bytes a piece has.
const PIECE_LEN: usize = 65_536;

/// The moment of each event.
const NOW: u64 = 1_700_000_000;

/// `read` reads a schedule to its end. `pieces COUNT` and `polls COUNT` write so many such events.
pub(crate) fn run<S: Source, W: Write>(
    alloc: Global,
    words: &[String],
    input: &mut S,
    output: &mut W,
) -> Result<(), BenchError> {
    match words {
        [what] if what.as_str() == "read" => read(alloc, input),
        [what, times] => {
            let times = times_of(times.as_str())?;
            write(alloc, what.as_str(), times, output)
        }
        _ => Err(BenchError::Usage),
    }
}

/// Reads a schedule to its end.
fn read<S: Source>(alloc: Global, source: &mut S) -> Result<(), BenchError> {
    let mut buffer = vec![in alloc; 0u8; READ_LEN]?;
    let mut feed = Feed::new(alloc);
    let mut events = Vec::new(alloc);
    read_into(source, &mut buffer, &mut feed, &mut events)
}

/// Reads it part by part.
fn read_into<S: Source>(
    source: &mut S,
    buffer: &mut [u8],
    feed: &mut Feed,
    events: &mut Vec<Timed>,
) -> Result<(), BenchError>
    requires { lines_in feed.old ≡ 0 }
{
    for _ in 0..u64::MAX {
        let n = source.read(buffer)?;
        if n == 0 {
            break;
        }
        feed.feed(&buffer[..n], events)?;
        events.clear();
    }
    feed.finish()?;
    Ok(())
}

/// The event that there are most of where there are many of these.
fn common_event(alloc: Global, what: &str) -> Result<Event, BenchError>
    ensures { IfOk result IsEvent }
{
    match what {
        "pieces" => piece(alloc, PIECE_LEN),
        "polls" => Ok(Event::Poll { c: 1, want: 4096 }),
        _ => Err(BenchError::Usage),
    }
}

/// A piece of so many bytes.
fn piece(alloc: Global, len: usize) -> Result<Event, BenchError>
    requires { len ≤ 65536 }
    ensures { IfOk result IsEvent }
{
    let bytes = vec![in alloc; b'x'; len]?;
    Ok(Event::Piece {
        x: 1,
        bytes: Bytes::of(bytes),
    })
}

/// Writes the event so many times.
fn write<W: Write>(
    alloc: Global,
    what: &str,
    times: u64,
    output: &mut W,
) -> Result<(), BenchError> {
    let event = common_event(alloc, what)?;
    let timed = Timed { now: NOW, event };
    let mut text = Vec::new(alloc);
    write_by(&timed, &mut text, times, output)
}

/// Writes it so many times, by way of a text.
fn write_by<W: Write>(
    timed: &Timed,
    text: &mut Vec<u8>,
    times: u64,
    output: &mut W,
) -> Result<(), BenchError>
    requires event { IsEvent timed.now.event }
    requires moment { timed.now.now ≡ NOW }
{
    for k in 0..times {
        let last = if k == 0 { 0 } else { NOW };
        write_event(last, timed, text)?;
        if text.len() >= WRITE_LEN {
            output.write_all(text.as_slice())?;
            text.clear();
        }
    }
    output.write_all(text.as_slice())?;
    Ok(())
}

//! Calls of `hc_sched`: schedules that are read, however they are cut, and events that are written.
ghost use Rattle.std.specs.Prelude.{◌+◌, ◌<◌, ◌≤◌, ◌^◌, length};
ghost use Rattle.hc_sched.specs.Feeding.{lines_in};

use crate::given::{MOST, event_at};
use crate::reported::{report_event, report_text};
use hc_event::Event;
use hc_sched::{Feed, FeedError, Refused, SchedRefusal, Timed, write_event};
use hc_target::is_target;
use hc_test_frame::{Fault, Vector, note};
use hc_text::NoMemory;
use std::alloc::Global;

/// Writes the value of the call. `NoSuchCall` where it is none of these.
pub(crate) fn call(v: &Vector, to: &mut String) -> Result<(), Fault> {
    match v.call() {
        "is_target t" => report_target(v, to),
        "copy t" => report_copy(v, to),
        "read_schedule nt" => report_alike(v, to),
        "read_schedule nnt" => report_read(v, to),
        "cut_schedule t" => report_cuts(v, to),
        "write_end nnn" => report_end(v, to),
        _ => Err(Fault::NoSuchCall),
    }
}

fn report_target(v: &Vector, to: &mut String) -> Result<(), Fault> {
    note(&is_target(v.alloc(), v.text(0))?, to)
}

/// Writes a copy of an event.
fn report_copy(v: &Vector, to: &mut String) -> Result<(), Fault> {
    let event = event_at(v, 0)?;
    report_event(&event.copy()?, to)
}

/// Writes the text of an end, behind a moment, at a moment, and of an exchange.
fn report_end(v: &Vector, to: &mut String) -> Result<(), Fault> {
    let (last, now, x) = (v.number(0), v.number(1), v.number(2));
    if last > now || now >= 1 << 62 || x >= 1 << 62 {
        return Err(Fault::NoSuchCall);
    }
    let mut text = Vec::new(v.alloc());
    write_end(last, now, x, &mut text)?;
    report_text(&text, to)
}

fn write_end(last: u64, now: u64, x: u64, text: &mut Vec<u8>) -> Result<(), NoMemory>
    requires later { last ≤ now }
    requires small_moment { now < 2 ^ 62 }
    requires small_number { x < 2 ^ 62 }
{
    let event = Event::End { x };
    write_event(last, &Timed { now, event }, text)
}

/// Writes what is told of a text in pieces of so many bytes.
fn report_read(v: &Vector, to: &mut String) -> Result<(), Fault> {
    read(v.alloc(), v.number(0), v.text(2), v.number(1) as usize, to)
}

/// Writes what is told of a text in pieces of 1 to 300 bytes, and also of the first size that tells
/// another.
fn report_alike(v: &Vector, to: &mut String) -> Result<(), Fault> {
    read(v.alloc(), v.number(0), v.text(1), 1, to)?;
    let mut other = String::new(v.alloc());
    report_other(v, to, &mut other)
}

/// Writes what is told of the first size from 2 that tells another, in `other`.
fn report_other(v: &Vector, to: &mut String, other: &mut String) -> Result<(), Fault> {
    for size in 2..301 {
        other.clear();
        read(v.alloc(), v.number(0), v.text(1), size, other)?;
        if other.as_str() != to.as_str() {
            write!(to, " but by {size} {other}")?;
            break;
        }
    }
    Ok(())
}

/// Writes what is told of the text, which comes in pieces of `size` bytes: its events, what the last
/// piece answered and what is held then, and the same of the end.
fn read(
    alloc: Global,
    moment: u64,
    text: &[u8],
    size: usize,
    to: &mut String,
) -> Result<(), Fault> {
    if moment >= 1 << 62 || size == 0 || text.len() > MOST {
        return Err(Fault::NoSuchCall);
    }
    let mut feed = Feed::after(alloc, moment);
    let mut events = Vec::new(alloc);
    report_pieces(&mut feed, text, size, &mut events, to)
}

fn report_pieces(
    feed: &mut Feed,
    text: &[u8],
    size: usize,
    events: &mut Vec<Timed>,
    to: &mut String,
) -> Result<(), Fault>
    requires some { 0 < size }
    requires few { lines_in feed.old + length text.now ≤ 2 ^ 60 }
{
    let fed = feed_pieces(feed, text, size, events);
    report_events(events, to)?;
    report_answer(fed, feed.held(), to)?;
    to.push_str(", ")?;
    let ended = feed.finish();
    report_answer(ended, feed.held(), to)
}

fn report_events(events: &[Timed], to: &mut String) -> Result<(), Fault> {
    for timed in events {
        write!(to, "{} ", timed.now)?;
        report_event(&timed.event, to)?;
        to.push_str(" | ")?;
    }
    Ok(())
}

/// Feeds the text in pieces of `size` bytes, those behind an error too, and answers as the last one.
fn feed_pieces(
    feed: &mut Feed,
    text: &[u8],
    size: usize,
    out: &mut Vec<Timed>,
) -> Result<(), FeedError>
    requires some { 0 < size }
    requires few { lines_in feed.old + length text.now ≤ 2 ^ 60 }
    ensures { lines_in feed.new ≤ lines_in feed.old + length text.now }
{
    let mut fed = Ok(());
    let mut rest = text;
    while !rest.is_empty() {
        let (piece, behind) = rest.split_at(size.min(rest.len()));
        fed = feed.feed(piece, out);
        rest = behind;
    }
    fed
}

/// Writes an answer, and how many bytes are held.
fn report_answer(answer: Result<(), FeedError>, held: usize, to: &mut String) -> Result<(), Fault> {
    match answer {
        Ok(()) => Ok(write!(to, "ok {held}")?),
        Err(FeedError::Refused(Refused { line, why })) => {
            Ok(write!(to, "line {line} {why:?} {held}")?)
        }
        Err(FeedError::NoMemory) => Err(Fault::NoMemory),
    }
}

/// Writes how many of the front parts of a schedule are whole, how many are cut short, and how many are
/// refused otherwise.
fn report_cuts(v: &Vector, to: &mut String) -> Result<(), Fault> {
    let text = v.text(0);
    if text.len() > MOST {
        return Err(Fault::NoSuchCall);
    }
    let (mut whole, mut cut, mut other) = (0_u64, 0_u64, 0_u64);
    for len in 0..=text.len() {
        match ending(v.alloc(), &text[..len]) {
            Ok(()) => whole = whole.saturating_add(1),
            Err(error) if is_cut_short(error) => cut = cut.saturating_add(1),
            Err(_) => other = other.saturating_add(1),
        }
    }
    write!(to, "{whole} whole, {cut} cut short, {other} other")?;
    Ok(())
}

fn is_cut_short(error: FeedError) -> bool {
    match error {
        FeedError::Refused(Refused { why, .. }) => why == SchedRefusal::CutShort,
        FeedError::NoMemory => false,
    }
}

/// What the end of the text answers.
fn ending(alloc: Global, text: &[u8]) -> Result<(), FeedError>
    requires { length text.now < 2 ^ 41 }
{
    let mut feed = Feed::new(alloc);
    let mut events = Vec::new(alloc);
    let fed = feed_pieces(&mut feed, text, 11, &mut events);
    fed.and(feed.finish())
}

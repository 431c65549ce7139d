//! The writer of schedules.
ghost use Rattle.std.specs.Fmt.{decimal};
ghost use Rattle.std.specs.Prelude.{◌≡◌, ◌≤◌, ◌++◌, ◌∷◌, [], OnOk, OnErr};
ghost use Rattle.hc_sched.specs.Parts.{IsKept};
ghost use Rattle.hc_sched.specs.Schedule.{Happens, Moment, IsEvent, IsSmall, load_word, item_text, items_of, text_of, timed_text};
ghost use Rattle.hc_sched.specs.Laws.{IsReadBack};

use crate::parts::Part::{Number, Text};
use crate::parts::{write_hex, write_parts};
use crate::schedule::Timed;
use hc_event::{Event, Load, Request, Response};
use hc_text::{Key, NoMemory, write_number};

/// A line of a poll has at most this many bytes: a word of 5, two numbers, a space and its end.
const POLL_LINE: usize = 47;

/// For so many bytes a proxy polls, so most lines end alike.
const USUAL_WANT: u32 = 16_384;

fn load_text(load: Load) -> &'static [u8]
    ensures { result.now ≡ load_word load }
{
    match load {
        Load::Normal => b"normal",
        Load::Validate => b"validate",
        Load::Bypass => b"bypass",
        Load::Skip => b"skip",
        Load::Only => b"only",
        Load::Disable => b"disable",
    }
}

/// Writes what a request asks for: its method, how it loads, and its key, each with a space behind it.
fn write_asked(request: &Request, to: &mut Vec<u8>) -> Result<(), NoMemory>
    ensures ok { OnOk result (to.new.items ≡ to.old.items ++ (request.now.method ++ 32 ∷
        (load_word request.now.load ++ 32 ∷ (request.now.key ++ 32 ∷ [])))) }
    ensures err { OnErr result (IsKept to.old.items to.new.items) }
{
    to.extend_from_slice(&request.method.bytes)?;
    to.push(b' ')?;
    to.extend_from_slice(load_text(request.load))?;
    to.push(b' ')?;
    to.extend_from_slice(&request.key.bytes)?;
    to.push(b' ')?;
    Ok(())
}

/// Writes the lines of a request.
fn write_start(c: u64, request: &Request, to: &mut Vec<u8>) -> Result<(), NoMemory>
    ensures ok { OnOk result (to.new.items
        ≡ to.old.items ++ item_text (Happens (Event.Start c request.now))) }
    ensures err { OnErr result (IsKept to.old.items to.new.items) }
{
    to.extend_from_slice(b"start ")?;
    write_number(c, to)?;
    to.push(b' ')?;
    write_asked(request, to)?;
    write_number(request.fields.len() as u64, to)?;
    to.push(b'\n')?;
    request.fields.write_lines(to)
}

/// Writes the line of a poll. Most lines are of polls, so its parts are appended as they come.
fn write_poll(c: u64, want: u32, to: &mut Vec<u8>) -> Result<(), NoMemory>
    ensures ok { OnOk result (to.new.items
        ≡ to.old.items ++ item_text (Happens (Event.Poll c want))) }
    ensures err { OnErr result (to.new.items ≡ to.old.items) }
{
    to.reserve(POLL_LINE)?;
    to.extend_from_slice(b"poll ").unwrap();
    write_number(c, to).unwrap();
    if want == USUAL_WANT {
        to.extend_from_slice(b" 16384\n").unwrap();
        return Ok(());
    }
    to.push_reserved(b' ');
    write_number(u64::from(want), to).unwrap();
    to.push_reserved(b'\n');
    Ok(())
}

/// Writes the lines of a head.
fn write_head(x: u64, response: &Response, to: &mut Vec<u8>) -> Result<(), NoMemory>
    ensures ok { OnOk result (to.new.items
        ≡ to.old.items ++ item_text (Happens (Event.Head x response.now))) }
    ensures err { OnErr result (IsKept to.old.items to.new.items) }
{
    let parts = [
        Text(b"head "),
        Number(x),
        Text(b" "),
        Number(u64::from(response.status)),
        Text(b" "),
        Number(response.fields.len() as u64),
        Text(b"\n"),
    ];
    write_parts(&parts, to)?;
    response.fields.write_lines(to)
}

/// Writes the line of a piece.
fn write_piece(x: u64, bytes: &[u8], to: &mut Vec<u8>) -> Result<(), NoMemory>
    ensures ok { OnOk result (to.new.items
        ≡ to.old.items ++ item_text (Happens (Event.Piece x bytes.now))) }
    ensures err { OnErr result (IsKept to.old.items to.new.items) }
{
    write_parts(&[Text(b"piece "), Number(x), Text(b" ")], to)?;
    if bytes.is_empty() {
        write_parts(&[Text(b"-")], to)?;
    } else {
        write_hex(bytes, to)?;
    }
    write_parts(&[Text(b"\n")], to)
}

/// Writes a line of a word and a number.
fn write_numbered(word: &[u8], n: u64, to: &mut Vec<u8>) -> Result<(), NoMemory>
    ensures ok { OnOk result (to.new.items
        ≡ to.old.items ++ (word.now ++ (decimal n ++ 10 ∷ []))) }
    ensures err { OnErr result (IsKept to.old.items to.new.items) }
{
    to.extend_from_slice(word)?;
    write_number(n, to)?;
    to.push(b'\n')?;
    Ok(())
}

/// Writes the line of a doom.
fn write_doom(key: &Key, to: &mut Vec<u8>) -> Result<(), NoMemory>
    ensures ok { OnOk result (to.new.items
        ≡ to.old.items ++ item_text (Happens (Event.Doom key.now))) }
    ensures err { OnErr result (IsKept to.old.items to.new.items) }
{
    let parts = [Text(b"doom "), Text(key.bytes.as_slice()), Text(b"\n")];
    write_parts(&parts, to)
}

/// Writes the lines of the event.
fn write_item(event: &Event, to: &mut Vec<u8>) -> Result<(), NoMemory>
    ensures ok { OnOk result (to.new.items ≡ to.old.items ++ item_text (Happens event.now)) }
    ensures err { OnErr result (IsKept to.old.items to.new.items) }
{
    match event {
        Event::Start { c, request } => write_start(*c, request, to),
        Event::Poll { c, want } => write_poll(*c, *want, to),
        Event::Head { x, response } => write_head(*x, response, to),
        Event::Piece { x, bytes } => write_piece(*x, bytes.as_slice(), to),
        Event::End { x } => write_numbered(b"end ", *x, to),
        Event::Fault { x } => write_numbered(b"fault ", *x, to),
        Event::Cancel { c } => write_numbered(b"cancel ", *c, to),
        Event::Doom { key } => write_doom(key, to),
    }
}

/// Writes the line of the moment.
fn write_moment(now: u64, to: &mut Vec<u8>) -> Result<(), NoMemory>
    ensures ok { OnOk result (to.new.items ≡ to.old.items ++ item_text (Moment now)) }
    ensures err { OnErr result (IsKept to.old.items to.new.items) }
{
    write_numbered(b"at ", now, to)
}

/// Writes the items of the event.
fn write_items(last: u64, timed: &Timed, to: &mut Vec<u8>) -> Result<(), NoMemory>
    ensures ok { OnOk result (to.new.items ≡ to.old.items ++ timed_text last timed.entry.now) }
    ensures err { OnErr result (IsKept to.old.items to.new.items) }
{
    if timed.now != last {
        write_moment(timed.now, to)?;
    }
    write_item(&timed.event, to)
}

/// Appends the text of an event behind the moment `last`, or nothing: a line with its moment, where
/// that is another, and its lines.
///
/// It is read back as that event, behind any schedule that ends at that moment.
pub fn write_event(last: u64, timed: &Timed, to: &mut Vec<u8>) -> Result<(), NoMemory>
    requires event { IsEvent timed.now.event }
    requires moment { IsSmall timed.now.now }
    requires later { last ≤ timed.now.now }
    ensures ok { OnOk result (to.new.items ≡ to.old.items ++ timed_text last timed.entry.now) }
    ensures err { OnErr result (to.new.items ≡ to.old.items) }
    ensures read_back { IsReadBack last timed.entry.now }
{
    let start = to.len();
    let written = write_items(last, timed, to);
    if written.is_err() {
        to.truncate(start);
    }
    written
}

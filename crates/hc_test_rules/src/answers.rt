//! Answers that come in pieces, however they are cut.
ghost use Rattle.std.specs.Prelude.{◌<◌};

use crate::reported::{CUTS, report_bytes, report_response};
use hc_msg::{MsgError, ResponseReader, Taken, WirePart};
use hc_test_frame::{Fault, Vector, note, quote};
use std::alloc::Global;

/// Writes what is told of an answer to a GET or a HEAD, and also what is told where it is cut
/// otherwise, where that is another.
pub(crate) fn report_answers(v: &Vector, to: &mut String) -> Result<(), Fault> {
    report_answer(v, 1, 9, to)?;
    let mut other = String::new(v.alloc());
    report_other(v, to, &mut other)
}

/// Writes what is told, in `other`, where the answer is cut by the first of these sizes that tells
/// another.
fn report_other(v: &Vector, to: &mut String, other: &mut String) -> Result<(), Fault> {
    for size in CUTS {
        other.clear();
        report_answer(v, *size, (*size).min(9), other)?;
        if other.as_str() != to.as_str() {
            write!(to, " but by {size} {other}")?;
            break;
        }
    }
    Ok(())
}

/// Writes what is heard of the answer, which comes in pieces of `size` bytes, of which `most` are taken
/// at once.
fn report_answer(v: &Vector, size: usize, most: usize, to: &mut String) -> Result<(), Fault>
    requires { 0 < most }
{
    let mut heard = Heard::new(v.alloc(), v.word(0) == "head");
    hear(&mut heard, v.text(1), size, most, to)
}

fn hear(
    heard: &mut Heard,
    text: &[u8],
    size: usize,
    most: usize,
    to: &mut String,
) -> Result<(), Fault>
    requires { 0 < most }
{
    let mut rest = text;
    for _ in 0..100_000_u32 {
        let piece = &rest[..size.min(rest.len())];
        let Some(used) = heard.take(piece, most)? else {
            break;
        };
        rest = rest.get(used..).unwrap_or(&[]);
    }
    heard.note(rest, to)
}

/// A reader of an answer, and what it told: a head, the bytes of a body, and how it ended.
#[derive(Drop)]
struct Heard {
    reader: ResponseReader,
    head: String,
    body: Vec<u8>,
    is_ended: bool,
    error: Option<MsgError>,
}

impl Heard {
    /// Nothing is told yet of an answer that has no body, or may have one.
    fn new(alloc: Global, no_body: bool) -> Heard {
        Heard {
            reader: ResponseReader::new(alloc, no_body),
            head: String::new(alloc),
            body: Vec::new(alloc),
            is_ended: false,
            error: None,
        }
    }

    /// Takes the next part of the piece, and tells how much of it was used. None where nothing follows.
    fn take(&mut self, piece: &[u8], most: usize) -> Result<Option<usize>, Fault>
        requires { 0 < most }
    {
        if self.is_ended {
            return Ok(None);
        }
        match self.reader.take(piece, most) {
            Ok(taken) => self.keep(&taken, piece.is_empty()),
            Err(e) => {
                self.error = Some(e);
                Ok(None)
            }
        }
    }

    fn keep(&mut self, taken: &Taken<WirePart>, is_over: bool) -> Result<Option<usize>, Fault> {
        match &taken.got {
            Some(WirePart::Head(response)) => report_response(response, &mut self.head)?,
            Some(WirePart::Piece(bytes)) => self.body.extend_from_slice(bytes.as_slice())?,
            Some(WirePart::End) => self.is_ended = true,
            None if is_over => return Ok(None),
            None => {}
        }
        Ok(Some(taken.used))
    }

    /// Writes all that was told, and how it ended: with an error, with the bytes behind it, or where the
    /// connection is closed.
    fn note(&mut self, rest: &[u8], to: &mut String) -> Result<(), Fault> {
        to.push_str(self.head.as_str())?;
        if !self.body.is_empty() {
            to.push(' ')?;
            report_bytes(&self.body, to)?;
        }
        match self.error {
            Some(e) => {
                to.push(' ')?;
                note(&e, to)
            }
            None if self.is_ended => report_end(rest, to),
            None => self.report_close(to),
        }
    }

    fn report_close(&mut self, to: &mut String) -> Result<(), Fault> {
        let closed = self.reader.finish();
        report_closed(&closed, to)
    }
}

/// Writes what the end of the connection comes to.
fn report_closed(closed: &Result<WirePart, MsgError>, to: &mut String) -> Result<(), Fault> {
    match closed {
        Ok(WirePart::End) => Ok(to.push_str(" closed end")?),
        Ok(_) => Ok(to.push_str(" closed")?),
        Err(e) => {
            to.push_str(" closed ")?;
            note(e, to)
        }
    }
}

/// Writes that the answer is whole, and the bytes behind it.
fn report_end(rest: &[u8], to: &mut String) -> Result<(), Fault> {
    to.push_str(" end")?;
    if !rest.is_empty() {
        to.push_str(" behind ")?;
        quote(rest, to)?;
    }
    Ok(())
}

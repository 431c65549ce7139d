//! Heads and chunked bodies that are read, beside `httparse` and a plain copy.
ghost use Rattle.std.specs.Prelude.{◌<◌, ◌≤◌, IfOk, length};

use crate::error::{BenchError, expect};
use crate::texts::{CHUNKED, LONG_ANSWERS, LONG_REQUESTS, SHORT_ANSWERS, SHORT_REQUESTS};
use crate::words::times_of;
use hc_msg::{RequestReader, ResponseReader, write_chunk};
use httparse::{EMPTY_HEADER, Request, Response, Status};
use std::alloc::Global;

/// How many bytes a piece has.
const PIECE_LEN: usize = 16_384;

/// `BY WHAT COUNT`.
pub(crate) fn run(alloc: Global, words: &[String]) -> Result<(), BenchError> {
    let [by, what, times] = words else {
        return Err(BenchError::Usage);
    };
    let times = times_of(times.as_str())?;
    match by.as_str() {
        "hc_msg" => read(alloc, what.as_str(), times),
        "plain" => read_plainly(alloc, what.as_str(), times),
        _ => Err(BenchError::Usage),
    }
}

/// Reads by `hc_msg`.
fn read(alloc: Global, what: &str, times: u64) -> Result<(), BenchError> {
    match what {
        "short-request" => requests(alloc, SHORT_REQUESTS, times),
        "long-request" => requests(alloc, LONG_REQUESTS, times),
        "short-answer" => answers(alloc, SHORT_ANSWERS, times),
        "long-answer" => answers(alloc, LONG_ANSWERS, times),
        "body" => body(alloc, times),
        _ => Err(BenchError::Usage),
    }
}

/// Reads heads by `httparse`, and copies a body.
fn read_plainly(alloc: Global, what: &str, times: u64) -> Result<(), BenchError> {
    match what {
        "short-request" => plain_requests(SHORT_REQUESTS, times),
        "long-request" => plain_requests(LONG_REQUESTS, times),
        "short-answer" => plain_answers(SHORT_ANSWERS, times),
        "long-answer" => plain_answers(LONG_ANSWERS, times),
        "body" => plain_body(alloc, times),
        _ => Err(BenchError::Usage),
    }
}

/// The one or the other, by turns.
fn by_turns(texts: [&str; 2], k: u64) -> &[u8] {
    let text = if k % 2 == 0 { texts[0] } else { texts[1] };
    text.as_bytes()
}

fn requests(alloc: Global, texts: [&str; 2], times: u64) -> Result<(), BenchError> {
    let mut reader = RequestReader::new(alloc);
    take_requests(&mut reader, texts, times)
}

fn take_requests(
    reader: &mut RequestReader,
    texts: [&str; 2],
    times: u64,
) -> Result<(), BenchError> {
    for k in 0..times {
        take_request(reader, by_turns(texts, k))?;
    }
    Ok(())
}

/// Takes a request that is whole.
fn take_request(reader: &mut RequestReader, text: &[u8]) -> Result<(), BenchError> {
    let taken = reader.take(text)?;
    expect(taken.got.is_some())
}

fn answers(alloc: Global, texts: [&str; 2], times: u64) -> Result<(), BenchError> {
    for k in 0..times {
        answer(alloc, by_turns(texts, k))?;
    }
    Ok(())
}

fn answer(alloc: Global, text: &[u8]) -> Result<(), BenchError> {
    let mut reader = ResponseReader::new(alloc, false);
    take_head(&mut reader, text)
}

/// Takes a head that is whole.
fn take_head(reader: &mut ResponseReader, text: &[u8]) -> Result<(), BenchError> {
    let taken = reader.take(text, PIECE_LEN)?;
    expect(taken.got.is_some())
}

fn plain_requests(texts: [&str; 2], times: u64) -> Result<(), BenchError> {
    for k in 0..times {
        let mut room = [EMPTY_HEADER; 64];
        match Request::new(&mut room).parse(by_turns(texts, k)) {
            Ok(Status::Complete(_)) => {}
            _ => return Err(BenchError::Wrong),
        }
    }
    Ok(())
}

fn plain_answers(texts: [&str; 2], times: u64) -> Result<(), BenchError> {
    for k in 0..times {
        let mut room = [EMPTY_HEADER; 64];
        match Response::new(&mut room).parse(by_turns(texts, k)) {
            Ok(Status::Complete(_)) => {}
            _ => return Err(BenchError::Wrong),
        }
    }
    Ok(())
}

/// A chunked body of so many pieces.
fn body(alloc: Global, times: u64) -> Result<(), BenchError> {
    let chunk = chunk(alloc)?;
    let mut reader = ResponseReader::new(alloc, false);
    take_chunks(&mut reader, &chunk, times)
}

/// A piece as a chunk.
fn chunk(alloc: Global) -> Result<Vec<u8>, BenchError> {
    let piece = vec![in alloc; b'x'; PIECE_LEN]?;
    chunk_of(alloc, &piece)
}

fn chunk_of(alloc: Global, piece: &[u8]) -> Result<Vec<u8>, BenchError> {
    let mut chunk = Vec::new(alloc);
    write_chunk(piece, &mut chunk)?;
    Ok(chunk)
}

/// Takes the head of an answer, and so many chunks.
fn take_chunks(reader: &mut ResponseReader, chunk: &[u8], times: u64) -> Result<(), BenchError> {
    take_head(reader, CHUNKED.as_bytes())?;
    for _ in 0..times {
        take_all(reader, chunk)?;
    }
    Ok(())
}

/// Takes all parts of the text.
fn take_all(reader: &mut ResponseReader, text: &[u8]) -> Result<(), BenchError> {
    let mut rest = text;
    for _ in 0..u64::MAX {
        if rest.is_empty() {
            break;
        }
        let used = take(reader, rest)?;
        expect(used > 0)?;
        rest = &rest[used..];
    }
    Ok(())
}

/// Takes a part of the text, and answers how long it is.
fn take(reader: &mut ResponseReader, text: &[u8]) -> Result<usize, BenchError>
    ensures { IfOk result (λ used. used ≤ length text.now) }
{
    let taken = reader.take(text, PIECE_LEN)?;
    Ok(taken.used)
}

/// The same bytes, each piece copied.
fn plain_body(alloc: Global, times: u64) -> Result<(), BenchError> {
    let piece = vec![in alloc; b'x'; PIECE_LEN]?;
    copy_often(alloc, &piece, times)
}

fn copy_often(alloc: Global, piece: &[u8], times: u64) -> Result<(), BenchError> {
    for k in 0..times {
        copy(alloc, piece, k as usize % PIECE_LEN)?;
    }
    Ok(())
}

/// Copies the piece, and looks at this place of the copy.
fn copy(alloc: Global, piece: &[u8], at: usize) -> Result<(), BenchError> {
    let copy = Vec::from_slice(alloc, piece)?;
    expect(copy.get(at) == Some(&b'x'))
}

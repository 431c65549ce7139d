//! Answers that come in pieces, however they are cut.
ghost use Rattle.std.specs.Prelude.{◌≡◌, ◌<◌, IfOk};

use crate::answer::{Answer, State};
use crate::message::{Look, Taken, WirePart};
use hc_head::MsgError;
use hc_text::NoMemory;
use std::alloc::Global;
use std::marker::Model;

/// A reader of one answer, which comes in pieces, however they are cut. 1xx answers before it are
/// passed over.
///
/// A contract sees it as where the reading of the bytes so far stands.
#[derive(Drop)]
pub struct ResponseReader {
    answer: Answer,
}

impl Model for ResponseReader {
    ghost use Rattle.hc_msg.specs.Reading.{Reading};
    ghost use Rattle.hc_msg.specs.Taking.{reading_of, IsKept};

    ghost Value = { Reading };

    ghost view = { λ r. reading_of r.answer };

    ghost invariant = { λ r. IsKept r.answer };
}

impl ResponseReader {
    ghost use Rattle.hc_msg.specs.Reading.{Responses, heading};
    ghost use Rattle.hc_msg.specs.Spelled.{IsSpelledPart, GivesSpelled};
    ghost use Rattle.hc_msg.specs.Taking.{Takes, AnswersAgain, StandsAt, is_whole, ending, reading_at_end};
    ghost use Rattle.hc_msg.specs.Inputs.{next_in, TakesNext, look_of};

    /// A reader at the beginning of an answer. `no_body` tells that the request was a HEAD, whose
    /// answer has no body (RFC 9110 section 9.3.2).
    pub fn new(alloc: Global, no_body: bool) -> ResponseReader
        ensures { result ≡ heading (Responses no_body) }
    {
        ResponseReader {
            answer: Answer::new(alloc, no_body),
        }
    }

    /// Reads the next bytes of the answer, up to the first part that they complete: its head, the
    /// longest run of bytes of the body that stand together in the piece, of one chunk where the
    /// body is chunked, of at most `most` bytes, or its end. Without a part all of the piece was
    /// used. No byte past the answer is used. After an error it is answered again at every call.
    pub fn take(&mut self, piece: &[u8], most: usize) -> Result<Taken<WirePart>, MsgError>
        requires { 0 < most }
        ensures takes { Takes self.old piece.now most result self.new }
        ensures next { TakesNext most self.old piece.now result self.new }
        ensures again { AnswersAgain self.old result }
        ensures stands { StandsAt result self.new }
        ensures spelled { GivesSpelled (IsSpelledPart most) result }
    {
        match self.answer.state {
            State::Failed(e) => return Err(e),
            State::Done => return Ok(Taken { used: 0, got: None }),
            _ => {}
        }
        match self.answer.take(piece, most) {
            Ok(taken) => Ok(taken),
            Err(e) => {
                self.answer.stop(e);
                Err(e)
            }
        }
    }

    /// What `take` would come to with these bytes: no part, a part, or an error. Nothing is taken. Only
    /// what is held of a head or of a chunk line is copied, and no bytes of a body.
    pub fn look(&self, piece: &[u8]) -> Result<Look, NoMemory>
        ensures { IfOk result (λ look. look ≡ look_of (next_in 1 self.now piece.now)) }
    {
        self.answer.look(piece)
    }

    /// Whether the answer is whole, and its end isn't told yet.
    pub fn is_whole(&self) -> bool
        ensures { result ≡ is_whole self.now }
    {
        matches!(self.answer.state, State::Whole)
    }

    /// The connection is closed, and no further byte comes. The answer is cut off where its head or
    /// its chunked body isn't whole; a body that is shorter than its Content-Length has its end, and
    /// whoever asked for it compares the lengths. An error is answered again.
    pub fn finish(&mut self) -> Result<WirePart, MsgError>
        ensures value { result ≡ ending self.old }
        ensures after { self.new ≡ reading_at_end self.old }
    {
        self.answer.finish()
    }
}

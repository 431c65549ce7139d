//! Requests that come in pieces, however they are cut.
ghost use Rattle.std.specs.Prelude.{◌≡◌};

use crate::call::Call;
use crate::message::Taken;
use hc_head::{MsgError, WireRequest};
use std::alloc::Global;
use std::marker::Model;

/// A reader of requests, one behind another, which come in pieces, however they are cut. None of
/// them has a body.
///
/// A contract sees it as where the reading of the bytes so far stands.
#[derive(Drop)]
pub struct RequestReader {
    call: Call,
    /// Why it is not read on.
    error: Option<MsgError>,
}

impl Model for RequestReader {
    ghost use Rattle.hc_msg.specs.Reading.{Reading};
    ghost use Rattle.hc_msg.specs.Asking.{asking_by, IsAsking};

    ghost Value = { Reading };

    ghost view = { λ r. asking_by r.error r.call };

    ghost invariant = { λ r. IsAsking r.call };
}

impl RequestReader {
    ghost use Rattle.hc_msg.specs.Reading.{Requests, heading};
    ghost use Rattle.hc_head.specs.Spellings.{IsSpelledRequest};
    ghost use Rattle.hc_msg.specs.Spelled.{GivesSpelled};
    ghost use Rattle.hc_msg.specs.Taking.{AnswersAgain, StandsAt};
    ghost use Rattle.hc_msg.specs.Asking.{TakesRequest};
    ghost use Rattle.hc_msg.specs.Inputs.{TakesNextRequest};

    /// A reader at the beginning of a request.
    pub fn new(alloc: Global) -> RequestReader
        ensures { result ≡ heading Requests }
    {
        RequestReader {
            call: Call::new(alloc),
            error: None,
        }
    }

    /// Reads the next bytes, up to the end of the first request. Without a request all of the piece
    /// was used. No byte past the request is used. After an error it is answered again at every call.
    pub fn take(&mut self, piece: &[u8]) -> Result<Taken<WireRequest>, MsgError>
        ensures takes { TakesRequest self.old piece.now result self.new }
        ensures next { TakesNextRequest 1 self.old piece.now result self.new }
        ensures again { AnswersAgain self.old result }
        ensures stands { StandsAt result self.new }
        ensures spelled { GivesSpelled (λ r. IsSpelledRequest r.request) result }
    {
        if let Some(e) = self.error {
            return Err(e);
        }
        match self.call.take(piece) {
            Ok(taken) => Ok(taken),
            Err(e) => {
                self.call.clear();
                self.error = Some(e);
                Err(e)
            }
        }
    }
}

//! What the next bytes of an answer would come to, while none is taken.
ghost use Rattle.std.specs.Prelude.{◌≡◌, ℕ, Bool, List, IfOk};
ghost use Rattle.hc_msg.specs.Inputs.{Next, next_in, stopped, is_in_body, IsNextError, look_of};
ghost use Rattle.hc_msg.specs.Taking.{reading_by, reading_of, IsSoundAt, IsSound, IsKept};

use crate::answer::{Answer, State};
use crate::message::Look;
use hc_head::MsgError;
use hc_text::NoMemory;

impl State {
    /// What stands next where nothing is read on.
    fn stopped(self) -> Look
        ensures { (no_body : Bool) (held : List ℕ)
            → result ≡ look_of (stopped (reading_by no_body self held)) }
    {
        match self {
            State::Whole => Look::Part,
            State::Failed(_) => Look::Fails,
            _ => Look::Waits,
        }
    }

    /// Whether the next byte is one of a body.
    fn is_in_body(self) -> bool
        ensures { (no_body : Bool) (held : List ℕ) → IsSoundAt self held
            → result ≡ is_in_body (reading_by no_body self held) }
    {
        matches!(self, State::Counts(_) | State::Runs | State::Chunk(_))
    }
}

/// What an error shows: it stands next, or memory was refused.
fn look_at_error(e: MsgError) -> Result<Look, NoMemory>
    ensures { IfOk result (λ look. (next : Next) → IsNextError next e → look ≡ look_of next) }
{
    match e {
        MsgError::NoMemory => Err(NoMemory),
        _ => Ok(Look::Fails),
    }
}

impl Answer {
    /// A copy.
    fn copy(&self) -> Result<Answer, NoMemory>
        requires { IsSound self.now }
        ensures reading { IfOk result (λ copy. reading_of copy ≡ reading_of self.now) }
        ensures sound { IfOk result IsSound }
    {
        Ok(Answer {
            no_body: self.no_body,
            state: self.state,
            held: self.held.clone()?,
        })
    }

    /// What a copy takes first of these bytes.
    fn look_ahead(&self, piece: &[u8]) -> Result<Look, NoMemory>
        requires { IsSound self.now }
        ensures { IfOk result (λ look. look ≡ look_of (next_in 1 (reading_of self.now) piece.now)) }
    {
        let mut copy = self.copy()?;
        match copy.take(piece, 1) {
            Ok(taken) => match taken.got {
                Some(_) => Ok(Look::Part),
                None => Ok(Look::Waits),
            },
            Err(e) => look_at_error(e),
        }
    }

    /// What the bytes would come to. Within a body, and where nothing is read on, none is copied.
    pub(crate) fn look(&self, piece: &[u8]) -> Result<Look, NoMemory>
        requires { IsKept self.now }
        ensures { IfOk result (λ look. look ≡ look_of (next_in 1 (reading_of self.now) piece.now)) }
    {
        if piece.is_empty() || !self.state.goes_on() {
            return Ok(self.state.stopped());
        }
        if self.state.is_in_body() {
            return Ok(Look::Part);
        }
        self.look_ahead(piece)
    }
}

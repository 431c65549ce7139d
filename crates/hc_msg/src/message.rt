//! What is read of messages.
use hc_event::Response;
use hc_text::Bytes;

/// How many of the bytes that were handed in were used, and what they completed.
#[derive(Drop)]
pub struct Taken<T> {
    pub used: usize,
    pub got: Option<T>,
}

/// A part of an answer.
#[derive(Drop)]
pub enum WirePart {
    /// The head, without the fields that concern the connection alone (RFC 9110 section 7.6.1).
    Head(Response),
    /// Bytes of the body, at least one.
    Piece(Bytes),
    /// The answer is whole.
    End,
}

/// What the next bytes of an answer would come to.
#[derive(Clone, Copy, Debug, PartialEq, Eq)]
pub enum Look {
    /// No part.
    Waits,
    /// A part.
    Part,
    /// An error.
    Fails,
}

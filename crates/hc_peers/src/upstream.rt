//! Connections to the origin.
ghost use Rattle.std.specs.Prelude.{◌≡◌, ◌≤◌, length};
ghost use Rattle.hc_peers.specs.Origins.{new_upstream, has_news, left_behind, Takes};

use crate::queue::Queue;
use hc_head::MsgError;
use hc_msg::{ResponseReader, WirePart};
use std::alloc::Global;

/// A piece has at most this many bytes.
const MOST_PIECE: usize = 16_384;

/// The connection of an exchange.
#[derive(Drop)]
pub struct Upstream {
    /// Its number.
    pub k: u64,
    pub reader: ResponseReader,
    /// What came of it and wasn't read.
    pub input: Queue,
    /// What it is owed and hasn't taken.
    pub unsent: Queue,
    /// No more comes of it.
    pub ended: bool,
    /// Whether the wire was told to read it.
    pub reading: bool,
}

impl Upstream {
    /// One of which nothing came, and which is owed these bytes. `no_body` tells that they are a HEAD.
    pub(crate) fn new(alloc: Global, k: u64, no_body: bool, owed: Vec<u8>) -> Upstream
        ensures { result ≡ new_upstream k no_body owed.items }
    {
        Upstream {
            k,
            reader: ResponseReader::new(alloc, no_body),
            input: Queue::new(alloc),
            unsent: Queue::of(owed),
            ended: false,
            reading: true,
        }
    }

    /// Whether a part may stand next: bytes came of it, or its end, or its message is whole.
    pub(crate) fn has_news(&self) -> bool
        ensures { result ≡ has_news self.now }
    {
        !self.input.is_empty() || self.ended || self.reader.is_whole()
    }

    /// Reads what stands next, of a body at most 16,384 bytes.
    pub(crate) fn take(&mut self) -> Result<Option<WirePart>, MsgError>
        ensures takes { Takes self.old self.new result }
        ensures number { self.new.k ≡ self.old.k }
    {
        match self.reader.take(self.input.rest(), MOST_PIECE) {
            Ok(taken) => {
                use_up(&mut self.input, &taken.got, taken.used);
                Ok(taken.got)
            }
            Err(e) => {
                self.input.clear();
                Err(e)
            }
        }
    }
}

/// What was taken is used. Behind the end, and where more is waited for, nothing is left.
fn use_up(input: &mut Queue, got: &Option<WirePart>, used: usize)
    requires { used ≤ length input.old }
    ensures { input.new ≡ left_behind got.now used input.old }
{
    match got {
        Some(WirePart::Head(_) | WirePart::Piece(_)) => input.skip(used),
        Some(WirePart::End) | None => input.clear(),
    }
}

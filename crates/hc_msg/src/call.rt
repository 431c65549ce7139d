//! The reading of requests that was not refused so far.
ghost use Rattle.std.specs.Prelude.{◌≡◌, ◌≤◌, ◌+◌, ◌++◌, [], length, OnOk};
ghost use Rattle.hc_msg.specs.Reading.{Requests, heading};
ghost use Rattle.hc_msg.specs.Asking.{asking, IsAsking, head_count, Called, TakesRequest};

use crate::message::Taken;
use hc_head::{MsgError, Scan, Sought, Start, WireRequest, call_of, find_end};
use std::alloc::Global;

/// A head has at most this many bytes.
const MOST_HEAD: usize = 32768;

/// The reading of a request.
#[derive(Drop)]
pub(crate) struct Call {
    scan: Scan,
    /// How its first line begins.
    start: Start,
    /// The bytes so far of its head.
    held: Vec<u8>,
}

/// How many of the bytes are of the head, by the search behind `held` bytes of it.
fn head_count(held: usize, piece: &[u8], found: &Result<Sought, MsgError>) -> usize
    requires { held ≤ 32768 }
    ensures { result ≡ head_count held piece.now found.now }
{
    match found {
        Ok(Sought::Ends(n)) => *n,
        Ok(Sought::Open(_)) => piece.len(),
        Err(_) => MOST_HEAD - held,
    }
}

impl Call {
    /// At the beginning of a request.
    pub(crate) fn new(alloc: Global) -> Call
        ensures reading { asking result ≡ heading Requests }
        ensures sound { IsAsking result }
    {
        Call {
            scan: Scan::Before,
            start: Start::Before,
            held: Vec::new(alloc),
        }
    }

    /// What the head asks for that ends with these bytes.
    fn whole_head(&mut self, end: &[u8]) -> Result<WireRequest, MsgError>
        requires { length self.old.held.items + length end.now ≤ 32768 }
        ensures called { Called (self.old.held.items ++ end.now) result }
        ensures empty { OnOk result (self.new.held.items ≡ []) }
    {
        let alloc = *self.held.allocator();
        if self.held.is_empty() {
            return call_of(alloc, end);
        }
        self.held.extend_from_slice(end)?;
        let request = call_of(alloc, &self.held);
        self.held.clear();
        request
    }

    /// Takes the first bytes of a piece, up to the end of the first request.
    pub(crate) fn take(&mut self, piece: &[u8]) -> Result<Taken<WireRequest>, MsgError>
        requires sound { IsAsking self.old }
        ensures takes { TakesRequest (asking self.old) piece.now result (asking self.new) }
        ensures sound { OnOk result (IsAsking self.new) }
    {
        let held = self.held.as_slice().len();
        let found = find_end(held, self.scan, piece);
        let count = head_count(held, piece, &found);
        let Some(start) = self.start.behind(&piece[..count]) else {
            return Err(MsgError::BadHead);
        };
        match found {
            Ok(Sought::Ends(n)) => {
                let request = self.whole_head(&piece[..n])?;
                self.scan = Scan::Before;
                self.start = Start::Before;
                Ok(Taken {
                    used: n,
                    got: Some(request),
                })
            }
            Ok(Sought::Open(next)) => {
                self.held.extend_from_slice(piece)?;
                self.scan = next;
                self.start = start;
                Ok(Taken {
                    used: piece.len(),
                    got: None,
                })
            }
            Err(e) => Err(e),
        }
    }

    /// Forgets what was given.
    pub(crate) fn clear(&mut self)
        ensures { IsAsking self.new }
    {
        self.held = Vec::new(*self.held.allocator());
        self.scan = Scan::Before;
        self.start = Start::Before;
    }
}

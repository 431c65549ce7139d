//! What a connection is to be sent.
ghost use Rattle.std.specs.Prelude.{◌≡◌, ◌≤◌, ◌==◌, ℕ, drop, length, IfOk};
ghost use Rattle.hc_wire.specs.Wires.{HasWireCause};
ghost use Rattle.hc_origin.specs.Answering.{Responds};
ghost use Rattle.hc_origin.specs.Replies.{IsPiece, Offers};

use crate::letters::Letters;
use hc_event::Request;
use hc_msg::write_closing_head;
use hc_text::NoMemory;
use hc_validate::origin_answer;
use hc_wire::{Wire, WireError};
use std::alloc::Global;
use std::marker::Model;

/// A connection, and what of its answer it hasn't taken. The body isn't built: its bytes are known.
#[derive(Drop)]
pub(crate) struct Reply {
    pub(crate) k: u64,
    head: Vec<u8>,
    /// So many bytes of the head were taken.
    used: usize,
    /// The position of the next byte of the body, and where it ends, exclusive.
    next: u64,
    end: u64,
}

impl Model for Reply {
    ghost use Rattle.std.specs.Prelude.{◌≤◌, ◌++◌, drop, length};
    ghost use Rattle.hc_origin.specs.Answering.{bytes_between};
    ghost use Rattle.hc_origin.specs.Replies.{Unsent};

    ghost Value = { Unsent };

    ghost view = { λ r. record {
      k = r.k;
      bytes = drop r.used r.head.items ++ bytes_between r.next r.end;
    } };

    ghost invariant = { λ r. r.used ≤ length r.head.items };
}

impl Reply {
    /// The whole answer to a request.
    pub(crate) fn new(alloc: Global, k: u64, request: &Request) -> Result<Reply, NoMemory>
        ensures number { IfOk result (λ reply. reply.k ≡ k) }
        ensures responds { IfOk result (λ reply. Responds request.now reply.bytes) }
    {
        let answer = origin_answer(request)?;
        let mut head = Vec::new(alloc);
        write_closing_head(&answer.response, &mut head)?;
        Ok(Reply {
            k,
            head,
            used: 0,
            next: answer.lo,
            end: answer.hi,
        })
    }

    /// Nothing is left.
    fn is_over(&self) -> bool
        ensures { result ≡ (length self.now.bytes == 0) }
    {
        self.used == self.head.len() && self.end <= self.next
    }

    /// What comes next.
    fn piece<'a>(&'a self, letters: &'a Letters) -> &'a [u8]
        ensures { IsPiece self.now.bytes result.now }
    {
        if self.used < self.head.len() {
            return &self.head[self.used..];
        }
        letters.part(self.next, self.end)
    }

    /// So many more bytes were taken.
    fn skip(&mut self, n: usize)
        requires { n ≤ length self.old.bytes }
        ensures number { self.new.k ≡ self.old.k }
        ensures bytes { self.new.bytes ≡ drop n self.old.bytes }
    {
        let of_head = n.min(self.head.as_slice().len() - self.used);
        self.used += of_head;
        self.next += (n - of_head) as u64;
    }

    /// The connection is offered all that it hasn't taken. Whether it took that.
    pub(crate) fn send<W: Wire>(
        &mut self,
        letters: &Letters,
        wire: &mut W,
    ) -> Result<bool, WireError>
        ensures offers { Offers (W.log wire.old) (W.log wire.new) self.old self.new result }
        ensures number { self.new.k ≡ self.old.k }
        ensures stages { (j : ℕ) → W.stages wire.new j ≡ W.stages wire.old j }
        ensures cause { HasWireCause (W.faults wire.old) (W.faults wire.new) result }
    {
        while !self.is_over() {
            let piece = self.piece(letters);
            let len = piece.len();
            let n = wire.send(self.k, piece)?;
            self.skip(n);
            if n < len {
                return Ok(false);
            }
        }
        Ok(true)
    }
}

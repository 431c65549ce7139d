//! Bytes that came and were not given yet.
ghost use Rattle.std.specs.Prelude.{◌≡◌, ◌==◌, ◌++◌, ◌+◌, ◌≤◌, ◌<◌, ◌^◌, [], length, take, drop, IfOk, OnOk, OnErr, vec_len, vec_capacity};
ghost use Rattle.std.specs.VecDeque.{deque_len};
ghost use Rattle.hc_exch.specs.Pieces.{bytes_of_pieces, first_length, TakesPrefix};

use hc_text::{Bytes, NoMemory};
use std::alloc::Global;
use std::collections::VecDeque;
use std::marker::Model;

/// Bytes in the order in which they came, as the pieces that brought them. Seen as the list of
/// those that are left.
#[derive(Drop)]
pub(crate) struct Held {
    pieces: VecDeque<Bytes>,
    // How many bytes of the first piece are gone.
    read: usize,
    len: usize,
}

impl Model for Held {
    ghost use Rattle.std.specs.Prelude.{List, ℕ, drop, vec_len, vec_capacity};
    ghost use Rattle.std.specs.VecDeque.{deque_len};
    ghost use Rattle.hc_exch.specs.Pieces.{bytes_of_pieces, IsCounted};

    ghost Value = { List ℕ };

    ghost view = { λ h. drop h.read (bytes_of_pieces h.pieces.items) };

    ghost invariant = { λ h. IsCounted h.pieces.items h.read h.len };
}

impl Held {
    /// No bytes.
    pub(crate) fn new(alloc: Global) -> Self
        ensures { result ≡ [] }
    {
        Held {
            pieces: VecDeque::new(alloc),
            read: 0,
            len: 0,
        }
    }

    /// How many are left.
    pub(crate) fn len(&self) -> usize
        ensures { result ≡ length self.now }
    {
        self.len
    }

    /// A copy of the bytes comes last, or nothing changes.
    pub(crate) fn put(&mut self, bytes: &[u8]) -> Result<(), NoMemory>
        requires { length self.old + length bytes.now < 2 ^ 63 }
        ensures ok { OnOk result (self.new ≡ self.old ++ bytes.now) }
        ensures err { OnErr result (self.new ≡ self.old) }
    {
        let count = bytes.len();
        let bytes = bytes.to_vec(*self.pieces.allocator())?;
        self.pieces.push_back(Bytes::of(bytes))?;
        self.len += count;
        Ok(())
    }

    /// The first bytes, at most `want`, which are gone then. The piece that brought them is moved
    /// where it has just these.
    pub(crate) fn take(&mut self, want: usize) -> Result<Bytes, NoMemory>
        ensures bytes { IfOk result (λ bytes. bytes ≡ take want self.old) }
        ensures ok { OnOk result (self.new ≡ drop want self.old) }
        ensures err { OnErr result (self.new ≡ self.old) }
    {
        let count = want.min(self.len);
        let (bytes, read) = take_prefix(&mut self.pieces, self.read, count)?;
        self.read = read;
        self.len -= count;
        Ok(bytes)
    }
}

/// How many bytes the first piece has.
fn first_len(pieces: &VecDeque<Bytes>) -> usize
    ensures { result ≡ first_length pieces.now.items }
{
    match pieces.front() {
        Some(piece) => piece.len(),
        None => 0,
    }
}

/// So many bytes behind those of the first piece that are read; and how many of the piece that is
/// then the first are read. A piece of just these bytes is moved, and else they are copied.
fn take_prefix(
    pieces: &mut VecDeque<Bytes>,
    read: usize,
    count: usize,
) -> Result<(Bytes, usize), NoMemory>
    requires front { read ≤ first_length pieces.old.items }
    requires there { count + read ≤ length (bytes_of_pieces pieces.old.items) }
    ensures ok { IfOk result
        (λ r. TakesPrefix count (drop read (bytes_of_pieces pieces.old.items))
        pieces.new.items r.0 r.1) }
    ensures err { OnErr result (pieces.new.items ≡ pieces.old.items) }
{
    if read == 0 && count > 0 && first_len(pieces) == count {
        return Ok((pieces.pop_front().unwrap(), 0));
    }
    let mut bytes = Vec::with_capacity(*pieces.allocator(), count)?;
    let mut read = read;
    while bytes.len() < count {
        let left = count - bytes.len();
        read = take_part(pieces, read, left, &mut bytes);
    }
    Ok((Bytes::of(bytes), read))
}

/// What is left of the first piece, or so many bytes of it, goes to the end of what is taken. How
/// many bytes are read then of the piece that is the first.
fn take_part(pieces: &mut VecDeque<Bytes>, read: usize, most: usize, taken: &mut Vec<u8>) -> usize
    requires front { read ≤ first_length pieces.old.items }
    requires some { 0 < deque_len pieces.old }
    requires wanted { 0 < most }
    requires room { vec_len taken.old + most ≤ vec_capacity taken.old }
    ensures all { taken.new.items ++ drop result (bytes_of_pieces pieces.new.items)
        ≡ taken.old.items ++ drop read (bytes_of_pieces pieces.old.items) }
    ensures front { result ≤ first_length pieces.new.items }
    ensures few { vec_len taken.new ≤ vec_len taken.old + most }
    ensures further { deque_len pieces.new + vec_len taken.old
        < deque_len pieces.old + vec_len taken.new }
    ensures room { vec_capacity taken.old ≤ vec_capacity taken.new }
{
    let rest = &pieces.front().unwrap().as_slice()[read..];
    let all = rest.len() <= most;
    let part = if all { rest } else { &rest[..most] };
    if taken.extend_from_slice(part).is_err() {
        unreachable!();
    }
    if all {
        pieces.pop_front();
        0
    } else {
        read + most
    }
}

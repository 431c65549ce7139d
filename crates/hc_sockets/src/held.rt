//! The bytes that a connection has taken and the system hasn't.
ghost use Rattle.std.specs.Prelude.{◌≡◌, ◌≤◌, [], length, OnOk, OnErr};

use hc_text::{Bytes, NoMemory};
use mio::net::TcpStream;
use std::alloc::Global;
use std::collections::VecDeque;
use std::io::{IoSlice, Write};
use std::{io, mem};

/// A list of fewer bytes than these is copied.
const FEW: usize = 4_096;

/// One write has so many bytes at most: what one segment has over loopback. A few more would be a segment
/// of their own, which costs about as much as a whole one.
const MOST: usize = 65_483;

/// Bytes in order: those that were copied while no list was kept, and behind them lists.
#[derive(Drop)]
pub(crate) struct Held {
    first: Vec<u8>,
    lists: VecDeque<Bytes>,
    /// How many bytes of `first` were sent or, where that has none, of the first list.
    sent: usize,
    /// How many bytes are held.
    len: usize,
}

impl Held {
    /// No byte.
    pub(crate) fn new(alloc: Global) -> Held {
        Held {
            first: Vec::new(alloc),
            lists: VecDeque::new(alloc),
            sent: 0,
            len: 0,
        }
    }

    pub(crate) fn is_empty(&self) -> bool {
        self.first.is_empty() && self.lists.is_empty()
    }

    /// How many bytes are held.
    pub(crate) fn len(&self) -> usize {
        self.len
    }

    /// None is held any more.
    pub(crate) fn clear(&mut self) {
        self.first.clear();
        self.lists.truncate(0);
        self.sent = 0;
        self.len = 0;
    }

    /// These come last.
    pub(crate) fn copy(&mut self, bytes: &[u8]) -> Result<(), NoMemory> {
        let alloc = *self.first.allocator();
        match self.lists.back_mut() {
            None => self.first.extend_from_slice(bytes)?,
            Some(last) if last.len() < FEW => last.append(alloc, bytes)?,
            Some(_) => self.lists.push_back(Bytes::of(bytes.to_vec(alloc)?))?,
        }
        self.len = self.len.saturating_add(bytes.len());
        Ok(())
    }

    /// Those of the list come last, which is empty then. It is kept itself, unless it has few.
    pub(crate) fn keep(&mut self, list: &mut Bytes) -> Result<(), NoMemory>
        ensures ok { OnOk result (list.new ≡ []) }
        ensures err { OnErr result (list.new ≡ list.old) }
    {
        if list.len() < FEW {
            self.copy(list.as_slice())?;
            *list = Bytes::new();
            return Ok(());
        }
        self.lists.reserve(1)?;
        self.len = self.len.saturating_add(list.len());
        self.lists
            .push_back_reserved(mem::replace(list, Bytes::new()));
        Ok(())
    }

    /// One write of the first of them. What the system takes isn't held any more.
    pub(crate) fn write(&mut self, stream: &TcpStream) -> io::Result<usize> {
        let n = self.send(stream)?;
        self.skip(n);
        Ok(n)
    }

    /// The write. How many bytes the system takes.
    fn send(&self, stream: &TcpStream) -> io::Result<usize> {
        let first = front(rest_of(self.first.as_slice(), self.sent), MOST);
        if self.lists.is_empty() {
            let mut stream = stream;
            return stream.write(first);
        }
        let most = MOST - first.len();
        let a = front(rest_of(self.list(0), self.sent_of_list()), most);
        let most = most - a.len();
        let b = front(self.list(1), most);
        let most = most - b.len();
        let c = front(self.list(2), most);
        let d = front(self.list(3), most - c.len());
        stream.write_vectored(&[
            IoSlice::new(first),
            IoSlice::new(a),
            IoSlice::new(b),
            IoSlice::new(c),
            IoSlice::new(d),
        ])
    }

    /// How many bytes of the first list were sent.
    fn sent_of_list(&self) -> usize {
        if self.first.is_empty() { self.sent } else { 0 }
    }

    /// The list at a place, if there is one.
    fn list(&self, at: usize) -> &[u8] {
        match self.lists.get(at) {
            Some(list) => list.as_slice(),
            None => &[],
        }
    }

    /// So many more were sent.
    fn skip(&mut self, n: usize) {
        self.len = self.len.saturating_sub(n);
        self.sent = self.sent.saturating_add(n);
        if self.sent < self.first.len() {
            return;
        }
        self.sent -= self.first.len();
        self.first.clear();
        for _ in 0..u64::MAX {
            let Some(n) = self.sent_whole() else {
                break;
            };
            self.sent = self.sent.saturating_sub(n);
            self.lists.pop_front();
        }
        if self.lists.is_empty() {
            self.clear();
        }
    }

    /// How many bytes the first list has, if all of them were sent.
    fn sent_whole(&self) -> Option<usize> {
        let list = self.lists.front()?;
        if list.len() <= self.sent {
            Some(list.len())
        } else {
            None
        }
    }
}

/// The bytes from a place on.
fn rest_of(bytes: &[u8], from: usize) -> &[u8] {
    bytes.get(from..).unwrap_or(&[])
}

/// The first of the bytes, so many at most.
fn front(bytes: &[u8], most: usize) -> &[u8]
    ensures { length result.now ≤ most }
{
    &bytes[..bytes.len().min(most)]
}

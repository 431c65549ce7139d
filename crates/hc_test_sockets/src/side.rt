//! One end of a connection between two wires.
ghost use Rattle.std.specs.Prelude.{◌<◌, length};

use crate::fault::Fault;
use crate::pattern::Pattern;
use hc_sockets::MioWire;
use hc_text::Bytes;
use hc_wire::{Wire, WireEvent};
use std::alloc::Global;
use std::net::Net;
use std::rt::Clock;

/// How many bytes go each way.
pub(crate) const TOTAL: usize = 100_000_000;

/// How many bytes are got at a time, at most.
pub(crate) const PIECE: usize = 16_384;

/// How many bytes are offered at a time, at most: more than the other side gets, so that the buffers of
/// the system become full.
pub(crate) const OFFER: usize = 40_000;

/// How a side sends.
#[derive(Clone, Copy, Debug, PartialEq, Eq)]
pub(crate) enum Manner {
    /// All bytes and no more. After a send that took less than it was offered it waits until there is
    /// room.
    Patient,
    /// On and on, whether there is room or not. Each second send hands a list over.
    Pressing,
}

/// One end of a connection, and what was moved through it.
#[derive(Drop)]
pub(crate) struct Side<R: Net + Clock + AllocGlobal + Drop> {
    alloc: Global,
    wire: MioWire<R>,
    /// The connection's number, while it is open here.
    k: Option<u64>,
    manner: Manner,
    /// The next send hands a list over.
    hands: bool,
    has_room: bool,
    /// The last send took none.
    is_stuck: bool,
    pub(crate) sent: usize,
    pub(crate) got: usize,
    /// How many sends took none.
    pub(crate) full: u64,
    pub(crate) ended: bool,
}

impl<R: Net + Clock + AllocGlobal + Drop> Side<R> {
    /// Nothing is moved yet.
    pub(crate) fn new(alloc: Global, wire: MioWire<R>, k: Option<u64>, manner: Manner) -> Side<R> {
        Side {
            alloc,
            wire,
            k,
            manner,
            hands: false,
            has_room: true,
            is_stuck: false,
            sent: 0,
            got: 0,
            full: 0,
            ended: false,
        }
    }

    /// One event, and a send. Whether anything was moved or told.
    pub(crate) fn turn(
        &mut self,
        wait: bool,
        pattern: &Pattern,
        into: &mut [u8],
    ) -> Result<bool, Fault>
        requires { 0 < length into.old }
    {
        let (_, event) = self.wire.next(wait, into)?;
        match event {
            WireEvent::Accepted(k) => self.k = Some(k),
            WireEvent::Got(_, n) => self.take(pattern, &into[..n])?,
            WireEvent::Ended(_) => self.ended = true,
            WireEvent::Broke(_) => return Err(Fault::Broke),
            WireEvent::Room(_) => self.has_room = true,
            WireEvent::Quiet => {}
        }
        let moved = self.offer(pattern)?;
        Ok(moved || event != WireEvent::Quiet)
    }

    /// Compares bytes that came.
    fn take(&mut self, pattern: &Pattern, bytes: &[u8]) -> Result<(), Fault> {
        if !pattern.behind(self.got).starts_with(bytes) {
            return Err(Fault::OtherBytes(self.got));
        }
        self.got = self.got.saturating_add(bytes.len());
        Ok(())
    }

    /// A send, where there is something to send. Whether any of it was taken.
    fn offer(&mut self, pattern: &Pattern) -> Result<bool, Fault> {
        let Some(k) = self.k else {
            return Ok(false);
        };
        let bytes = pattern.behind(self.sent);
        let len = self.to_offer().min(bytes.len());
        if len == 0 {
            return Ok(false);
        }
        let n = self.send(k, &bytes[..len])?;
        self.sent = self.sent.saturating_add(n);
        self.has_room = n == len;
        self.is_stuck = n == 0;
        if self.is_stuck {
            self.full = self.full.saturating_add(1);
        }
        Ok(n > 0)
    }

    /// How many of these are taken.
    fn send(&mut self, k: u64, bytes: &[u8]) -> Result<usize, Fault> {
        self.hands = self.manner == Manner::Pressing && !self.hands;
        if !self.hands {
            return Ok(self.wire.send(k, bytes)?);
        }
        let mut list = Bytes::of(Vec::from_slice(self.alloc, bytes)?);
        let n = self.wire.hand(k, &mut list, 0)?;
        if n < bytes.len() && list.as_slice() != bytes {
            return Err(Fault::OtherBytes(self.sent));
        }
        Ok(n)
    }

    /// How many bytes are offered next.
    fn to_offer(&self) -> usize {
        match self.manner {
            Manner::Pressing => OFFER,
            Manner::Patient if self.has_room => OFFER.min(TOTAL.saturating_sub(self.sent)),
            Manner::Patient => 0,
        }
    }

    /// Closes the connection once all bytes came, and as many were sent, of which the wire still holds
    /// some since the system takes no more.
    pub(crate) fn close_where_stuck(&mut self) {
        if self.got == TOTAL && self.sent >= TOTAL && self.is_stuck {
            if let Some(k) = self.k.take() {
                self.wire.close(k);
            }
        }
    }
}

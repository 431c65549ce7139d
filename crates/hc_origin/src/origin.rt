//! The connections of the test origin, and a turn.
ghost use Rattle.std.specs.Prelude.{◌≡◌, ◌≢◌, ◌<◌, ◌++◌, ◌∷◌, ◌==◌, [], ℕ, None, Bool, false, length, IfOk, OnOk};
ghost use Rattle.std.specs.Ordering.{nat_cmp};
ghost use Rattle.std.specs.BTreeMap.{get};
ghost use Rattle.hc_wire.specs.Events.{got_bytes, FitsIn};
ghost use Rattle.hc_wire.specs.Logs.{Log};
ghost use Rattle.hc_origin.specs.Coming.{Came};
ghost use Rattle.hc_origin.specs.Keeping.{AreLacking, Follows, Keeps, Rests};
ghost use Rattle.hc_origin.specs.Going.{asking_in, nobody, with_bytes, with_stop, AreKept, Asks, GoesTo, HandlesTo, Heard, Hears, IsEnding, IsGot, IsOver, IsTaken, Leaves, OffersTo, ReadsOn, SendsTo, TurnsTo, Welcomes};
ghost use Rattle.hc_origin.specs.Stops.{HasStopCause};

use crate::letters::Letters;
use crate::reply::Reply;
use crate::stop::Stop;
use hc_event::Request;
use hc_msg::{MsgError, RequestReader, Taken, WireRequest};
use hc_text::NoMemory;
use hc_wire::{Wire, WireEvent};
use std::alloc::Global;
use std::collections::BTreeMap;
use std::mem;

/// The connections that are open.
#[derive(Drop)]
pub(crate) struct Origin {
    alloc: Global,
    /// Those whose request isn't whole, by number.
    asking: BTreeMap<u64, RequestReader>,
    /// Those that lack bytes of their answer.
    answering: Vec<Reply>,
    /// Those of them that were offered theirs in this turn.
    offered: Vec<Reply>,
    letters: Letters,
}

impl Origin {
    /// No connection.
    pub(crate) fn new(alloc: Global) -> Result<Origin, NoMemory>
        ensures nobody { IfOk result (λ o. (k : ℕ) → asking_in o k ≡ None) }
        ensures nothing { IfOk result (λ o. o.answering.items ≡ []) }
    {
        Ok(Origin {
            alloc,
            asking: BTreeMap::new(alloc),
            answering: Vec::new(alloc),
            offered: Vec::new(alloc),
            letters: Letters::new(alloc)?,
        })
    }

    /// Waits for an event and takes it, and offers every connection what it lacks.
    pub(crate) fn turn<W: Wire>(&mut self, slice: &mut [u8], wire: &mut W) -> Result<(), Stop>
        requires { 0 < length slice.old }
        ensures turns { (reports : Bool) (log : Log)
            → Follows reports (W.log wire.old) (W.stages wire.old) log
            → Rests log (asking_in self.old) self.old.answering.items
            → TurnsTo reports self.new log (W.log wire.new) (W.stages wire.new) result }
        ensures len { length slice.new ≡ length slice.old }
        ensures cause { HasStopCause (W.faults wire.old) (W.faults wire.new) result }
    {
        let (_, event) = wire.next(true, slice)?;
        self.handle(event, slice, wire)?;
        self.send_all(wire)
    }

    /// What an event brings is taken.
    fn handle<W: Wire>(
        &mut self,
        event: WireEvent,
        slice: &[u8],
        wire: &mut W,
    ) -> Result<(), NoMemory>
        requires { FitsIn event (length slice.now) }
        ensures handles { (reports : Bool) (log : Log)
            → Follows reports (W.log wire.old) (W.stages wire.old) log
            → Heard event (got_bytes event slice.now) log (asking_in self.old)
            self.old.answering.items
            → HandlesTo reports self.new log (W.log wire.new) (W.stages wire.new) result }
        ensures calm { W.faults wire.new ≡ W.faults wire.old }
    {
        match event {
            WireEvent::Accepted(k) => self.accept(k),
            WireEvent::Got(k, n) => self.read(k, &slice[..n], wire),
            WireEvent::Ended(k) => self.stop(k, wire),
            WireEvent::Broke(k) => self.stop(k, wire),
            WireEvent::Room(_) | WireEvent::Quiet => Ok(()),
        }
    }

    /// A connection is new.
    fn accept(&mut self, k: u64) -> Result<(), NoMemory>
        ensures { (log : Log) → Welcomes k log (asking_in self.old) self.old.answering.items
            → OnOk result (AreKept self.new log) }
    {
        self.asking.insert(k, RequestReader::new(self.alloc))?;
        Ok(())
    }

    /// Bytes came. Those behind the first request are dropped, and a refused one closes its connection.
    fn read<W: Wire>(&mut self, k: u64, bytes: &[u8], wire: &mut W) -> Result<(), NoMemory>
        ensures handles { (reports : Bool) (log : Log) (before : Came)
            → Follows reports (W.log wire.old) (W.stages wire.old) log
            → Hears k before (with_bytes bytes.now before) log (asking_in self.old)
            self.old.answering.items
            → HandlesTo reports self.new log (W.log wire.new) (W.stages wire.new) result }
        ensures calm { W.faults wire.new ≡ W.faults wire.old }
    {
        match read_in(&mut self.asking, k, bytes) {
            Some(read) => self.take(k, read, wire),
            None => Ok(()),
        }
    }

    /// The request goes on, is whole or refused, or memory was refused.
    fn take<W: Wire>(
        &mut self,
        k: u64,
        read: Result<Taken<WireRequest>, MsgError>,
        wire: &mut W,
    ) -> Result<(), NoMemory>
        ensures handles { (reports : Bool) (log : Log)
            → Follows reports (W.log wire.old) (W.stages wire.old) log
            → IsTaken k read log (asking_in self.old) self.old.answering.items
            → HandlesTo reports self.new log (W.log wire.new) (W.stages wire.new) result }
        ensures calm { W.faults wire.new ≡ W.faults wire.old }
    {
        match read {
            Ok(taken) => self.go_on(k, taken.got),
            Err(e) => self.refuse(k, e, wire),
        }
    }

    /// It is answered, if it is whole.
    fn go_on(&mut self, k: u64, got: Option<WireRequest>) -> Result<(), NoMemory>
        ensures { (log : Log) → IsGot k got log (asking_in self.old) self.old.answering.items
            → OnOk result (AreKept self.new log) }
    {
        match got {
            Some(request) => self.answer(k, &request.request),
            None => Ok(()),
        }
    }

    /// Its request is refused, or memory was.
    fn refuse<W: Wire>(&mut self, k: u64, e: MsgError, wire: &mut W) -> Result<(), NoMemory>
        ensures handles { (reports : Bool) (log : Log)
            → Follows reports (W.log wire.old) (W.stages wire.old) log
            → (e ≢ MsgError.NoMemory → Leaves k log (asking_in self.old) self.old.answering.items)
            → HandlesTo reports self.new log (W.log wire.new) (W.stages wire.new) result }
        ensures calm { W.faults wire.new ≡ W.faults wire.old }
    {
        match e {
            MsgError::NoMemory => Err(NoMemory),
            _ => {
                self.close(k, wire);
                Ok(())
            }
        }
    }

    /// The first request is whole.
    fn answer(&mut self, k: u64, request: &Request) -> Result<(), NoMemory>
        ensures { (log : Log) → Asks k request.now log (asking_in self.old) self.old.answering.items
            → OnOk result (AreKept self.new log) }
    {
        let reply = Reply::new(self.alloc, k, request)?;
        self.answering.push(reply)?;
        self.asking.remove(&k);
        Ok(())
    }

    /// A connection that ends or breaks before its request is whole is closed.
    fn stop<W: Wire>(&mut self, k: u64, wire: &mut W) -> Result<(), NoMemory>
        ensures handles { (reports : Bool) (log : Log) (before : Came)
            → Follows reports (W.log wire.old) (W.stages wire.old) log
            → Hears k before (with_stop before) log (asking_in self.old) self.old.answering.items
            → HandlesTo reports self.new log (W.log wire.new) (W.stages wire.new) result }
        ensures calm { W.faults wire.new ≡ W.faults wire.old }
    {
        if self.asking.contains_key(&k) {
            self.close(k, wire);
        }
        Ok(())
    }

    /// One whose request isn't whole is closed.
    fn close<W: Wire>(&mut self, k: u64, wire: &mut W)
        ensures goes { (reports : Bool) (log : Log)
            → Follows reports (W.log wire.old) (W.stages wire.old) log
            → Leaves k log (asking_in self.old) self.old.answering.items
            → GoesTo reports log (W.log wire.new) (W.stages wire.new) (AreKept self.new) }
        ensures calm { W.faults wire.new ≡ W.faults wire.old }
    {
        self.asking.remove(&k);
        wire.close(k);
    }

    /// Each is offered what it lacks, and closed once it has taken all.
    fn send_all<W: Wire>(&mut self, wire: &mut W) -> Result<(), Stop>
        ensures sends { (reports : Bool) (log : Log)
            → Follows reports (W.log wire.old) (W.stages wire.old) log
            → AreKept self.old log
            → SendsTo reports self.new log (W.log wire.new) (W.stages wire.new) result }
        ensures cause { HasStopCause (W.faults wire.old) (W.faults wire.new) result }
    {
        self.offered.clear();
        while let Some(reply) = self.answering.pop() {
            self.offer(reply, wire)?;
        }
        mem::swap(&mut self.answering, &mut self.offered);
        Ok(())
    }

    /// One is.
    fn offer<W: Wire>(&mut self, mut reply: Reply, wire: &mut W) -> Result<(), Stop>
        ensures offers { (reports : Bool) (log : Log)
            → Follows reports (W.log wire.old) (W.stages wire.old) log
            → Keeps log (asking_in self.old)
            (self.old.answering.items ++ reply ∷ self.old.offered.items)
            → AreLacking log self.old.offered.items
            → OffersTo reports self.new log (W.log wire.new) (W.stages wire.new) result }
        ensures asking { (k : ℕ) → asking_in self.new k ≡ asking_in self.old k }
        ensures answering { self.new.answering.items ≡ self.old.answering.items }
        ensures cause { HasStopCause (W.faults wire.old) (W.faults wire.new) result }
    {
        if reply.send(&self.letters, wire)? {
            wire.close(reply.k);
            Ok(())
        } else {
            self.offered.push(reply)?;
            Ok(())
        }
    }

    /// All are closed.
    pub(crate) fn close_all<W: Wire>(&mut self, wire: &mut W)
        ensures goes { (reports : Bool) (log : Log)
            → Follows reports (W.log wire.old) (W.stages wire.old) log
            → IsEnding log (asking_in self.old) self.old.answering.items
            → GoesTo reports log (W.log wire.new) (W.stages wire.new) IsOver }
        ensures calm { W.faults wire.new ≡ W.faults wire.old }
    {
        while let Some((k, _)) = self.asking.pop_first() {
            wire.close(k);
        }
        self.close_answering(wire);
    }

    /// Those that lack bytes are.
    fn close_answering<W: Wire>(&mut self, wire: &mut W)
        ensures goes { (reports : Bool) (log : Log)
            → Follows reports (W.log wire.old) (W.stages wire.old) log
            → IsEnding log nobody self.old.answering.items
            → GoesTo reports log (W.log wire.new) (W.stages wire.new) IsOver }
        ensures calm { W.faults wire.new ≡ W.faults wire.old }
    {
        while let Some(reply) = self.answering.pop() {
            wire.close(reply.k);
        }
    }
}

/// What the bytes come to of a connection whose request isn't whole, if it is one.
fn read_in(
    asking: &mut BTreeMap<u64, RequestReader>,
    k: u64,
    bytes: &[u8],
) -> Option<Result<Taken<WireRequest>, MsgError>>
    ensures own { ReadsOn (get nat_cmp asking.old k) (get nat_cmp asking.new k) bytes.now result }
    ensures others { (j : ℕ) → (j == k) ≡ false
        → get nat_cmp asking.new j ≡ get nat_cmp asking.old j }
{
    let reader = asking.get_mut(&k)?;
    Some(reader.take(bytes))
}

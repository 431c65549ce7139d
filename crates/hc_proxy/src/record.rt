//! The record: the text of the events that are stepped, which is a schedule.
ghost use Rattle.std.specs.Prelude.{◌≡◌, ◌≤◌, ◌++◌, [], OnOk, OnErr, IsErrOf};
ghost use Rattle.hc_io.specs.Sink.{Takes, TakesPrefix, HasSinkCause};
ghost use Rattle.hc_sched.specs.Schedule.{IsEvent, IsSmall, timed_text};
ghost use Rattle.hc_proxy.specs.Records.{text_of, last_of};

use hc_io::{Sink, SinkError, write_all};
use hc_sched::{Timed, write_event};
use hc_text::NoMemory;
use std::alloc::Global;

/// The text of the events of a turn, behind what was written.
#[derive(Drop)]
pub(crate) struct Record {
    text: Vec<u8>,
    /// The moment of the last event; before the first, that behind which it stands.
    last: u64,
}

impl Record {
    /// Of no event, behind a moment.
    pub(crate) fn new(alloc: Global, moment: u64) -> Record
        ensures text { text_of result ≡ [] }
        ensures last { last_of result ≡ moment }
    {
        Record {
            text: Vec::new(alloc),
            last: moment,
        }
    }

    /// The event comes next.
    pub(crate) fn add(&mut self, timed: &Timed) -> Result<(), NoMemory>
        requires event { IsEvent timed.now.event }
        requires moment { IsSmall timed.now.now }
        requires later { last_of self.old ≤ timed.now.now }
        ensures text { OnOk result
            (text_of self.new ≡ text_of self.old ++ timed_text (last_of self.old) timed.entry.now) }
        ensures last { OnOk result (last_of self.new ≡ timed.entry.now.now) }
    {
        write_event(self.last, timed, &mut self.text)?;
        self.last = timed.now;
        Ok(())
    }

    /// Writes what wasn't written yet.
    pub(crate) fn write<K: Sink>(&mut self, log: &mut K) -> Result<(), SinkError>
        ensures ok { OnOk result (Takes (K.taken log.old) (K.taken log.new) (text_of self.old)) }
        ensures front { TakesPrefix (K.taken log.old) (K.taken log.new) (text_of self.old) }
        ensures empty { OnOk result (text_of self.new ≡ []) }
        ensures last { last_of self.new ≡ last_of self.old }
        ensures cause { HasSinkCause (K.faults log.old) (K.faults log.new) result }
        ensures calm { OnOk result (K.faults log.new ≡ K.faults log.old) }
        ensures no_fault { IsErrOf result SinkError.NoMemory → K.faults log.new ≡ K.faults log.old }
    {
        write_all(log, self.text.as_slice())?;
        self.text.clear();
        Ok(())
    }
}

//! How the events of a schedule are answered.
ghost use Rattle.std.specs.Prelude.{◌≡◌, ◌+◌, ◌<◌, ◌≤◌, ◌^◌, false, length, OnOk, OnErr, IsErrOf};
ghost use Rattle.hc_io.specs.Sink.{Takes, TakesPrefix, HasSinkCause};
ghost use Rattle.hc_sched.specs.Feeding.{lines_in};
ghost use Rattle.hc_sched.specs.Reading.{events_in};
ghost use Rattle.hc_sched.specs.Laws.{AreTimed};
ghost use Rattle.hc_sched.specs.Schedule.{IsEvent, IsSmall};
ghost use Rattle.hc_event.specs.Counting.{received_in};
ghost use Rattle.hc_driver.specs.Counting.{size_of, last_moment};
ghost use Rattle.hc_driver.specs.Courses.{Goes, Lacks};
ghost use Rattle.hc_driver.specs.Endings.{IsReading};
ghost use Rattle.hc_driver.specs.Pieces.{Comes, Passes};
ghost use Rattle.hc_driver.specs.Stops.{HasStopCause};

use crate::course::Course;
use crate::stop::Stop;
use hc_event::{Acts, Event};
use hc_io::{Sink, SinkError, write_all};
use hc_sched::{Feed, Timed};
use hc_text::NoMemory;
use std::alloc::Global;

/// Answers a schedule that comes in pieces: how many events were answered, and the acts and the text
/// of the last answer.
#[derive(Drop)]
pub struct Answering {
    number: u64,
    acts: Acts,
    text: Vec<u8>,
}

impl Answering {
    /// Of no event.
    pub fn new(alloc: Global) -> Answering
        ensures { result.number ≡ 0 }
    {
        Answering {
            number: 0,
            acts: Acts::new(alloc),
            text: Vec::new(alloc),
        }
    }

    /// Answers what a piece of the schedule brings, up to a refusal, and writes the answers, each
    /// before the next event is answered. `events` is room for them: it is cleared before.
    ///
    /// At Refused all events before the refused line are answered. At SinkFailed and at NoMemory some
    /// first of them are, and all answers are written but a last part of the last one; or the next
    /// answer was refused memory. SourceFailed never comes.
    pub fn go_piece<C: Course, K: Sink>(
        &mut self,
        feed: &mut Feed,
        piece: &[u8],
        events: &mut Vec<Timed>,
        on: &mut C,
        sink: &mut K,
    ) -> Result<(), Stop>
        requires lines { lines_in feed.old + length piece.now ≤ 2 ^ 60 }
        requires timed { AreTimed (C.moment on.old) (events_in feed.old piece.now) }
        requires few { C.steps on.old + C.received on.old + size_of (events_in feed.old piece.now)
            ≤ 2 ^ 60 }
        requires count { C.steps on.old + length (events_in feed.old piece.now) ≤ 2 ^ 59 }
        requires numbered { self.old.number ≤ C.steps on.old }
        requires reading { IsReading feed.old }
        requires open { C.over on.old ≡ false }
        ensures goes { Passes (Goes C.reports C.over C.spent self.old.number on.old on.new
            (K.taken sink.old) (K.taken sink.new)) feed.old piece.now feed.new result }
        ensures reads { OnOk result (IsReading feed.new) }
        ensures lines { lines_in feed.new ≤ lines_in feed.old + length piece.now }
        ensures number { OnOk result (self.new.number
            ≡ self.old.number + length (events_in feed.old piece.now)) }
        ensures steps { OnOk result (C.steps on.new
            ≡ C.steps on.old + length (events_in feed.old piece.now)) }
        ensures size { OnOk result (C.steps on.new + C.received on.new
            ≡ C.steps on.old + C.received on.old + size_of (events_in feed.old piece.now)) }
        ensures moment { OnOk result (C.moment on.new
            ≡ last_moment (C.moment on.old) (events_in feed.old piece.now)) }
        ensures open { OnOk result (C.over on.new ≡ false) }
        ensures cause { HasStopCause (K.faults sink.old) (K.faults sink.new) result }
    {
        events.clear();
        let fed = feed.feed(piece, events);
        self.go_all(events.as_slice(), on, sink)?;
        fed?;
        Ok(())
    }

    /// Answers the events, and writes each answer before the next event is answered.
    fn go_all<C: Course, K: Sink>(
        &mut self,
        events: &[Timed],
        on: &mut C,
        sink: &mut K,
    ) -> Result<(), Stop>
        requires timed { AreTimed (C.moment on.old) events.now }
        requires few { C.steps on.old + C.received on.old + size_of events.now ≤ 2 ^ 60 }
        requires count { C.steps on.old + length events.now ≤ 2 ^ 59 }
        requires numbered { self.old.number ≤ C.steps on.old }
        requires open { C.over on.old ≡ false }
        ensures comes { Comes (Goes C.reports C.over C.spent self.old.number on.old on.new
            (K.taken sink.old) (K.taken sink.new)) events.now result }
        ensures number { OnOk result (self.new.number ≡ self.old.number + length events.now) }
        ensures steps { OnOk result (C.steps on.new ≡ C.steps on.old + length events.now) }
        ensures size { OnOk result (C.steps on.new + C.received on.new
            ≡ C.steps on.old + C.received on.old + size_of events.now) }
        ensures moment { OnOk result
            (C.moment on.new ≡ last_moment (C.moment on.old) events.now) }
        ensures open { OnOk result (C.over on.new ≡ false) }
        ensures cause { HasStopCause (K.faults sink.old) (K.faults sink.new) result }
    {
        for timed in events {
            self.go(on, timed.now, &timed.event)?;
            self.write(sink)?;
            if on.is_over() {
                return Err(Stop::Over);
            }
        }
        Ok(())
    }

    /// Answers an event.
    fn go<C: Course>(&mut self, on: &mut C, now: u64, event: &Event) -> Result<(), NoMemory>
        requires later { C.moment on.old ≤ now }
        requires small { IsSmall now }
        requires spelled { IsEvent event.now }
        requires few { C.steps on.old < 2 ^ 59 }
        requires little { C.received on.old < 2 ^ 60 }
        requires numbered { self.old.number ≤ C.steps on.old }
        requires open { C.over on.old ≡ false }
        ensures reported { OnOk result
            (C.reports on.old self.new.number now event.now self.new.text.items on.new) }
        ensures number { OnOk result (self.new.number ≡ self.old.number + 1) }
        ensures moment { OnOk result (C.moment on.new ≡ now) }
        ensures steps { OnOk result (C.steps on.new ≡ C.steps on.old + 1) }
        ensures received { OnOk result
            (C.received on.new ≡ C.received on.old + received_in event.now) }
        ensures lacks { OnErr result
            (Lacks C.reports C.spent on.old (self.old.number + 1) now event.now on.new) }
    {
        let number = self.number + 1;
        self.text.clear();
        on.go(number, now, event, &mut self.acts, &mut self.text)?;
        self.number = number;
        Ok(())
    }

    /// Writes the last answer.
    fn write<K: Sink>(&mut self, sink: &mut K) -> Result<(), SinkError>
        ensures ok { OnOk result
            (Takes (K.taken sink.old) (K.taken sink.new) self.old.text.items) }
        ensures front { TakesPrefix (K.taken sink.old) (K.taken sink.new) self.old.text.items }
        ensures number { self.new.number ≡ self.old.number }
        ensures cause { HasSinkCause (K.faults sink.old) (K.faults sink.new) result }
        ensures calm { OnOk result (K.faults sink.new ≡ K.faults sink.old) }
        ensures no_fault { IsErrOf result SinkError.NoMemory
            → K.faults sink.new ≡ K.faults sink.old }
    {
        write_all(sink, self.text.as_slice())
    }
}

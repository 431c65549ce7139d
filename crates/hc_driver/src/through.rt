//! A whole schedule.
ghost use Rattle.std.specs.Prelude.{◌≡◌, ◌≢◌, ◌+◌, ◌<◌, ◌≤◌, ◌^◌, true, false, OnOk, IfOk, IfErr, IsErrOf};
ghost use Rattle.hc_io.specs.Faults.{HasRisen};
ghost use Rattle.hc_driver.specs.Courses.{Goes};
ghost use Rattle.hc_driver.specs.Breaks.{Breaks, IsReadOut};
ghost use Rattle.hc_driver.specs.Endings.{Ends};
ghost use Rattle.hc_driver.specs.Stepping.{Steps};
ghost use Rattle.hc_driver.specs.Stops.{ended_as};
ghost use Rattle.hc_sched.specs.declared.schedule.Ended.TheVariants as ended;
ghost use Rattle.hc_sched.specs.Feeding.{lines_in};

use crate::answering::Answering;
use crate::course::Course;
use crate::stop::Stop;
use hc_event::Stepper;
use hc_io::{Sink, Source};
use hc_sched::{Ended, Feed};
use std::alloc::Global;

/// How many bytes are read at once.
const PIECE: usize = 16_384;

/// Reads a schedule from this moment on, in seconds since 1970, steps its events as soon as their
/// items are whole, and writes the report of each before the next one is stepped.
///
/// It ends as `go_through` does, where an event is answered by its entry in the report. So at Done
/// the whole text is a schedule.
pub fn step_through<T: Stepper, S: Source, K: Sink>(
    alloc: Global,
    moment: u64,
    on: &mut T,
    source: &mut S,
    sink: &mut K,
) -> Ended
    requires small { moment < 2 ^ 62 }
    requires later { T.moment on.old ≤ moment }
    requires new { T.steps on.old + T.received on.old ≡ 0 }
    ensures ends { Ends (Steps T.answers T.spent on.old on.new
        (K.taken sink.old) (K.taken sink.new))
        moment (S.left source.old) (S.left source.new) result }

    // A fault comes only where one was counted, and none is counted where none comes.
    ensures source { result ≡ ended.SourceFailed
        → HasRisen (S.faults source.old) (S.faults source.new) }
    ensures source_calm { result ≢ ended.SourceFailed → S.faults source.new ≡ S.faults source.old }
    ensures sink { result ≡ ended.SinkFailed
        → HasRisen (K.faults sink.old) (K.faults sink.new) }
    ensures sink_calm { result ≢ ended.SinkFailed → K.faults sink.new ≡ K.faults sink.old }

    // Where all was read, of no more than 2^60 bytes.
    ensures few { result ≡ ended.Done → T.steps on.new ≤ 2 ^ 59 }
    ensures little { result ≡ ended.Done → T.received on.new ≤ 2 ^ 60 }
{
    go_through(alloc, moment, on, source, sink)
}

/// Reads a schedule from this moment on, in seconds since 1970, has each event answered as soon as
/// its item is whole, and writes each answer before the next event is answered. It reads at most
/// 16,384 bytes at once, and reads on only when all that it read is answered.
///
/// At Done the whole text is a schedule, or the course is over. At Refused the text is refused by
/// the grammar at that line, which ends in the last 16,384 bytes that were read, and all events
/// before it are answered. At SourceFailed no line of what was read is refused, and all events are
/// answered whose items are whole in it. At SinkFailed all events before the last 16,384 bytes that
/// were read are answered, and maybe some of these. All answers but the last are written, and some
/// first part of the last one. At NoMemory it is so too, or an answer was refused memory and all
/// answers before it are written. WireFailed never comes.
pub fn go_through<C: Course, S: Source, K: Sink>(
    alloc: Global,
    moment: u64,
    on: &mut C,
    source: &mut S,
    sink: &mut K,
) -> Ended
    requires small { moment < 2 ^ 62 }
    requires later { C.moment on.old ≤ moment }
    requires new { C.steps on.old + C.received on.old ≡ 0 }
    requires open { C.over on.old ≡ false }
    ensures ends { Ends (Goes C.reports C.over C.spent 0 on.old on.new
        (K.taken sink.old) (K.taken sink.new))
        moment (S.left source.old) (S.left source.new) result }
    ensures source { result ≡ ended.SourceFailed
        → HasRisen (S.faults source.old) (S.faults source.new) }
    ensures source_calm { result ≢ ended.SourceFailed → S.faults source.new ≡ S.faults source.old }
    ensures sink { result ≡ ended.SinkFailed
        → HasRisen (K.faults sink.old) (K.faults sink.new) }
    ensures sink_calm { result ≢ ended.SinkFailed → K.faults sink.new ≡ K.faults sink.old }

    // Where all was read, of no more than 2^60 bytes.
    ensures few { result ≡ ended.Done → C.over on.new ≡ false → C.steps on.new ≤ 2 ^ 59 }
    ensures little { result ≡ ended.Done → C.over on.new ≡ false → C.received on.new ≤ 2 ^ 60 }
{
    match run(alloc, moment, on, source, sink) {
        Ok(()) => Ended::Done,
        Err(stop) => stop.ended(),
    }
}

/// The same, up to what stops it.
fn run<C: Course, S: Source, K: Sink>(
    alloc: Global,
    moment: u64,
    on: &mut C,
    source: &mut S,
    sink: &mut K,
) -> Result<(), Stop>
    requires small { moment < 2 ^ 62 }
    requires later { C.moment on.old ≤ moment }
    requires new { C.steps on.old + C.received on.old ≡ 0 }
    requires open { C.over on.old ≡ false }
    ensures ends { Ends (Goes C.reports C.over C.spent 0 on.old on.new
        (K.taken sink.old) (K.taken sink.new))
        moment (S.left source.old) (S.left source.new) (ended_as result) }
    ensures source { IsErrOf result Stop.SourceFailed
        → HasRisen (S.faults source.old) (S.faults source.new) }
    ensures source_calm { ended_as result ≢ ended.SourceFailed
        → S.faults source.new ≡ S.faults source.old }
    ensures sink { IsErrOf result Stop.SinkFailed
        → HasRisen (K.faults sink.old) (K.faults sink.new) }
    ensures sink_calm { ended_as result ≢ ended.SinkFailed
        → K.faults sink.new ≡ K.faults sink.old }
    ensures over { IsErrOf result Stop.Over → C.over on.new ≡ true }
    ensures few { OnOk result (C.steps on.new ≤ 2 ^ 59) }
    ensures little { OnOk result (C.received on.new ≤ 2 ^ 60) }
{
    let mut feed = go_through_prefix(alloc, moment, on, source, sink)?;
    feed.finish()?;
    Ok(())
}

/// Reads a first part of a schedule from this moment on, in seconds since 1970, wherever it was cut.
/// It has each event answered whose item is whole, as `go_through` does. The feed stands where the
/// text ends.
///
/// At Ok all of the source was read, and no line is refused. It isn't asked whether the text ends
/// behind an item, so CutShort never comes. An error says what stopped it, as where `go_through`
/// ends so.
pub fn go_through_prefix<C: Course, S: Source, K: Sink>(
    alloc: Global,
    moment: u64,
    on: &mut C,
    source: &mut S,
    sink: &mut K,
) -> Result<Feed, Stop>
    requires small { moment < 2 ^ 62 }
    requires later { C.moment on.old ≤ moment }
    requires new { C.steps on.old + C.received on.old ≡ 0 }
    requires open { C.over on.old ≡ false }
    ensures read { IfOk result (IsReadOut (Goes C.reports C.over C.spent 0 on.old on.new
        (K.taken sink.old) (K.taken sink.new))
        moment (S.left source.old) (S.left source.new)) }
    ensures breaks { IfErr result (Breaks (Goes C.reports C.over C.spent 0 on.old on.new
        (K.taken sink.old) (K.taken sink.new))
        moment (S.left source.old) (S.left source.new)) }

    // A fault comes only where one was counted, and none is counted where none comes.
    ensures source { IsErrOf result Stop.SourceFailed
        → HasRisen (S.faults source.old) (S.faults source.new) }
    ensures source_calm { ended_as result ≢ ended.SourceFailed
        → S.faults source.new ≡ S.faults source.old }
    ensures sink { IsErrOf result Stop.SinkFailed
        → HasRisen (K.faults sink.old) (K.faults sink.new) }
    ensures sink_calm { ended_as result ≢ ended.SinkFailed
        → K.faults sink.new ≡ K.faults sink.old }
    ensures over { IsErrOf result Stop.Over → C.over on.new ≡ true }

    // No more than 2^60 bytes were read.
    ensures lines { IfOk result (λ feed. lines_in feed ≤ 2 ^ 60) }
    ensures few { OnOk result (C.steps on.new ≤ 2 ^ 59) }
    ensures little { OnOk result (C.received on.new ≤ 2 ^ 60) }
{
    let mut feed = Feed::after(alloc, moment);
    let mut answering = Answering::new(alloc);
    let mut events = Vec::new(alloc);
    let mut piece = [0; PIECE];
    loop {
        let n = source.read(&mut piece)?;
        if n == 0 {
            break;
        }
        answering.go_piece(&mut feed, &piece[..n], &mut events, on, sink)?;
    }
    Ok(feed)
}

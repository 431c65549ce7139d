//! The program as a function of its words and streams.
ghost use Rattle.std.specs.Prelude.{◌≡◌, ◌≢◌, ◌⊎◌, ◌≤◌, ℕ, List, Option, map, Some, IfSome};
ghost use Rattle.std.specs.String.{string_bytes};
ghost use Rattle.hc_io.specs.Faults.{HasRisen};
ghost use Rattle.hc_origin.specs.Endings.{IsFresh, MayEnd};
ghost use Rattle.hc_wire.specs.Events.{Unseen};
ghost use Rattle.hc_wire.specs.Wires as wires;
ghost use Rattle.hc_app.specs.Answering.{AnswersOrigin, IsEndedAs};
ghost use Rattle.hc_proxy.specs.Endings as serving;
ghost use Rattle.hc_app.specs.Serving.{ServesFrom, IsServedAs};
ghost use Rattle.hc_app.specs.Concluding.{Concludes};
ghost use Rattle.hc_app.specs.Failing.{IsStreamStatus, IsWireStatus};
ghost use Rattle.hc_app.specs.Fetching.{NoFetch};
ghost use Rattle.hc_app.specs.Fronting.{fronting};
ghost use Rattle.hc_app.specs.Generating.{generating};
ghost use Rattle.hc_app.specs.Owing.{streams, Does};
ghost use Rattle.hc_app.specs.Program.{Ends, Keeps, Completes};
ghost use Rattle.hc_app.specs.Replaying.{replaying};
ghost use Rattle.hc_app.specs.Saving.{saving};
ghost use Rattle.hc_app.specs.Opening.{opening, ConcludesOpen};
ghost use Rattle.hc_saving.specs.declared.open.OpenEnded.TheVariants as opened;
ghost use Rattle.hc_sched.specs.declared.schedule.Ended.TheVariants as ended;

use crate::command::{Command, command_of};
use crate::fetching::{fetch_input, fetch_of};
use crate::say::{say_image, say_refusal, say_usage};
use crate::status::{Status, stopped, unbound};
use hc_core::Cache;
use hc_front::{Front, replay_front};
use hc_io::{PlainSink, PlainSource, Sink, Source};
use hc_origin::origin_on;
use hc_proxy::serve_on;
use hc_replay::{PROGRAM_LIMITS, generate, replay};
use hc_saving::{OpenEnded, reopen, save};
use hc_sched::Ended;
use hc_store::Memory;
use hc_text::NoMemory;
use hc_wire::{Address, Wire};
use std::alloc::Global;

/// Does what the words say, and answers the exit status. `replay` reads a schedule from `input` and
/// writes its report to `out`; `generate SEED COUNT` writes the summary of so many rounds of the
/// generator to `out`, at most 1,000,000; `serve LISTEN ORIGIN TURNS` serves clients over `wire` for so
/// many turns, and writes what it steps to `out`, as a schedule; `origin LISTEN TURNS` answers as the
/// test origin over `wire` for so many turns, and uses no stream; `save` reads a schedule from `input`
/// and writes the image of what it leaves to `out`; `open` reads an image and a schedule behind it from
/// `input`, and writes the report of that to `out`; `conditional` is `replay` behind a front, which
/// answers requests on condition of a copy that the caller has; `fetch TARGET N SIZE` reads one resource
/// in up to N parts, by a schedule without starts and cancels from `input`, and writes its body. `diag` is
/// written for a refused line, for a refused image, for a fetch that ended early and for the usage alone,
/// and for a refused line only after the whole report.
///
/// - 0: all that is due is written: the input is a schedule and `out` has its report, which is that of
///   a run, or its image, or the body that is fetched, or the summary of the rounds; or the turns are
///   made, and `out` has the record of `serve`.
/// - 1: the input is refused at a line, which ends in the last 16,384 bytes that were read, but for `open`.
///   `out` has the report of all events before it, or at `save` nothing, and `diag` the line and why.
/// - 2: the words are no command. `diag` has the usage, and nothing is read.
/// - 3: `input` failed. At `save` and `open` `out` has nothing. Else no line of what was read is refused,
///   and `out` has the report of the events whose items are whole in it.
/// - 4: `out` failed: it has the report of all events that were stepped but the last, and some
///   first part of the last one's, or of the summary, the image or the record. Or `diag` failed: `out`
///   has all that was due.
/// - 5: `wire` failed, which `serve` and `origin` alone use.
/// - 6: there was not enough memory. Each has some first part of what was due.
/// - 7: the words are `open`, and the image is refused. `diag` has why, and `out` nothing.
/// - 8: the words are `fetch`, and an event ended it, as a start or a cancel does, or the input ended before
///   all of the body was written. `diag` has why, and `out` all that was given from the first byte on.
///
/// At 4 and 6 all events before the last 16,384 bytes that were read were stepped: nothing is read on
/// before what was read is stepped and reported. `open` reads all of its input first.
///
/// What `ends` says of bytes it says of streams that tell them, as those in memory do. Streams over
/// std tell none, so there it says which status comes.
pub fn run<S: Source, K: Sink, D: Sink, W: Wire>(
    alloc: Global,
    words: &[String],
    input: &mut S,
    out: &mut K,
    diag: &mut D,
    wire: &mut W,
) -> u8
    requires fresh { IfSome (W.log wire.old) IsFresh }
    requires unseen { (k : ℕ) → W.stages wire.old k ≡ Unseen }
    ensures ends { Ends result (map string_bytes words.now)
        (streams (S.left input.old) (K.taken out.old) (D.taken diag.old)
        (K.faults out.old) (D.faults diag.old))
        (streams (S.left input.new) (K.taken out.new) (D.taken diag.new)
        (K.faults out.new) (D.faults diag.new)) (W.log wire.old) (W.log wire.new) }

    // 3 comes only where the count of the input's faults rose, and 4 only where one of the others
    // did; with any other status they are as before.
    ensures source_failed { result ≡ 3 → HasRisen (S.faults input.old) (S.faults input.new) }
    ensures source_calm { result ≢ 3 → S.faults input.new ≡ S.faults input.old }
    ensures sink_failed { result ≡ 4 → HasRisen (K.faults out.old) (K.faults out.new)
        ⊎ HasRisen (D.faults diag.old) (D.faults diag.new) }
    ensures sinks_calm { result ≢ 4 → (K.faults out.new ≡ K.faults out.old)
        × (D.faults diag.new ≡ D.faults diag.old) }
    ensures wire_failed { result ≡ 5 → wires.HasRisen (W.faults wire.old) (W.faults wire.new) }
    ensures wire_calm { result ≢ 5 → W.faults wire.new ≡ W.faults wire.old }
{
    obey(alloc, words, input, out, diag, wire).code()
}

/// A run over streams that never fail. It ends with 0 where the input is a schedule, at `open` behind
/// an image, or the words ask for a summary, with 1 where the schedule is refused, with 2 where the words
/// are no command, with 7 where the image is refused, or for want of memory with 6. Where the words ask
/// for a fetch, `serve` or `origin`, `ends` alone says how it ends.
pub fn run_plain<W: Wire>(
    alloc: Global,
    words: &[String],
    input: &mut PlainSource,
    out: &mut PlainSink,
    diag: &mut PlainSink,
    wire: &mut W,
) -> u8
    requires fresh { IfSome (W.log wire.old) IsFresh }
    requires unseen { (k : ℕ) → W.stages wire.old k ≡ Unseen }
    ensures ends { Ends result (map string_bytes words.now)
        (streams (Some input.old.left) (Some out.old) (Some diag.old) 0 0)
        (streams (Some input.new.left) (Some out.new) (Some diag.new) 0 0)
        (W.log wire.old) (W.log wire.new) }
    ensures complete { Completes result (map string_bytes words.now) input.old.left }
{
    run(alloc, words, input, out, diag, wire)
}

/// Does what the words say.
fn obey<S: Source, K: Sink, D: Sink, W: Wire>(
    alloc: Global,
    words: &[String],
    input: &mut S,
    out: &mut K,
    diag: &mut D,
    wire: &mut W,
) -> Status
    requires fresh { IfSome (W.log wire.old) IsFresh }
    requires unseen { (k : ℕ) → W.stages wire.old k ≡ Unseen }
    ensures keeps { Keeps (map string_bytes words.now)
        (streams (S.left input.old) (K.taken out.old) (D.taken diag.old)
        (K.faults out.old) (D.faults diag.old))
        (streams (S.left input.new) (K.taken out.new) (D.taken diag.new)
        (K.faults out.new) (D.faults diag.new))
        (W.log wire.old) (W.log wire.new) result }
    ensures stream_faults { IsStreamStatus (S.faults input.old) (S.faults input.new)
        (K.faults out.old) (K.faults out.new) (D.faults diag.old) (D.faults diag.new) result }
    ensures wire_faults { IsWireStatus (W.faults wire.old) (W.faults wire.new) result }
{
    match fetch_of(alloc, words) {
        Ok(Some(plan)) => fetch_input(alloc, plan, input, out, diag),
        Ok(None) => obey_other(alloc, words, input, out, diag, wire),
        Err(NoMemory) => Status::NoMemory,
    }
}

/// Does what the words say, where they don't ask for a fetch.
fn obey_other<S: Source, K: Sink, D: Sink, W: Wire>(
    alloc: Global,
    words: &[String],
    input: &mut S,
    out: &mut K,
    diag: &mut D,
    wire: &mut W,
) -> Status
    requires fresh { IfSome (W.log wire.old) IsFresh }
    requires unseen { (k : ℕ) → W.stages wire.old k ≡ Unseen }
    requires other { NoFetch (map string_bytes words.now) }
    ensures keeps { Keeps (map string_bytes words.now)
        (streams (S.left input.old) (K.taken out.old) (D.taken diag.old)
        (K.faults out.old) (D.faults diag.old))
        (streams (S.left input.new) (K.taken out.new) (D.taken diag.new)
        (K.faults out.new) (D.faults diag.new))
        (W.log wire.old) (W.log wire.new) result }
    ensures stream_faults { IsStreamStatus (S.faults input.old) (S.faults input.new)
        (K.faults out.old) (K.faults out.new) (D.faults diag.old) (D.faults diag.new) result }
    ensures wire_faults { IsWireStatus (W.faults wire.old) (W.faults wire.new) result }
{
    match command_of(words) {
        Some(Command::Replay) => replay_input(alloc, input, out, diag),
        Some(Command::Generate { seed, count }) => write_summary(alloc, seed, count, out, diag),
        Some(Command::Origin { listen, turns }) => answer(alloc, listen, turns, wire),
        Some(
            Command::Serve {
                listen,
                origin,
                turns,
            },
        ) => serve(alloc, listen, origin, turns, out, wire),
        Some(Command::Save) => save_input(alloc, input, out, diag),
        Some(Command::Open) => open_input(alloc, input, out, diag),
        Some(Command::Conditional) => front_input(alloc, input, out, diag),
        None => match say_usage(diag) {
            Ok(()) => Status::Usage,
            Err(e) => stopped(e),
        },
    }
}

/// Replays the input on a new cache in memory.
fn replay_input<S: Source, K: Sink, D: Sink>(
    alloc: Global,
    input: &mut S,
    out: &mut K,
    diag: &mut D,
) -> Status
    ensures does { Does replaying
        (streams (S.left input.old) (K.taken out.old) (D.taken diag.old)
        (K.faults out.old) (D.faults diag.old))
        (streams (S.left input.new) (K.taken out.new) (D.taken diag.new)
        (K.faults out.new) (D.faults diag.new))
        result }
    ensures stream_faults { IsStreamStatus (S.faults input.old) (S.faults input.new)
        (K.faults out.old) (K.faults out.new) (D.faults diag.old) (D.faults diag.new) result }
    ensures wireless { result ≢ Status.WireFailed }
{
    let store = Memory::new(alloc, PROGRAM_LIMITS);
    let Ok(mut cache) = Cache::new(store, PROGRAM_LIMITS, alloc) else {
        return Status::NoMemory;
    };
    let end = replay(alloc, 0, &mut cache, input, out);
    conclude(alloc, end, diag)
}

/// Saves what a new cache in memory leaves behind the input.
fn save_input<S: Source, K: Sink, D: Sink>(
    alloc: Global,
    input: &mut S,
    out: &mut K,
    diag: &mut D,
) -> Status
    ensures does { Does saving
        (streams (S.left input.old) (K.taken out.old) (D.taken diag.old)
        (K.faults out.old) (D.faults diag.old))
        (streams (S.left input.new) (K.taken out.new) (D.taken diag.new)
        (K.faults out.new) (D.faults diag.new))
        result }
    ensures stream_faults { IsStreamStatus (S.faults input.old) (S.faults input.new)
        (K.faults out.old) (K.faults out.new) (D.faults diag.old) (D.faults diag.new) result }
    ensures wireless { result ≢ Status.WireFailed }
{
    let store = Memory::new(alloc, PROGRAM_LIMITS);
    let Ok(cache) = Cache::new(store, PROGRAM_LIMITS, alloc) else {
        return Status::NoMemory;
    };
    let end = save(alloc, cache, input, out);
    conclude(alloc, end, diag)
}

/// Goes on from the image in the input.
fn open_input<S: Source, K: Sink, D: Sink>(
    alloc: Global,
    input: &mut S,
    out: &mut K,
    diag: &mut D,
) -> Status
    ensures does { Does opening
        (streams (S.left input.old) (K.taken out.old) (D.taken diag.old)
        (K.faults out.old) (D.faults diag.old))
        (streams (S.left input.new) (K.taken out.new) (D.taken diag.new)
        (K.faults out.new) (D.faults diag.new))
        result }
    ensures stream_faults { IsStreamStatus (S.faults input.old) (S.faults input.new)
        (K.faults out.old) (K.faults out.new) (D.faults diag.old) (D.faults diag.new) result }
    ensures wireless { result ≢ Status.WireFailed }
{
    let end = reopen(alloc, PROGRAM_LIMITS, input, out);
    conclude_open(alloc, end, diag)
}

/// Tells how an open ended, and answers the status.
fn conclude_open<D: Sink>(alloc: Global, end: OpenEnded, diag: &mut D) -> Status
    requires wireless { end ≢ opened.Ran ended.WireFailed }
    ensures { ConcludesOpen (D.taken diag.old) (D.taken diag.new) (D.faults diag.old)
        (D.faults diag.new) end result }
{
    let OpenEnded::Ran(end) = end else {
        return match say_image(alloc, end, diag) {
            Ok(()) => Status::ImageRefused,
            Err(e) => stopped(e),
        };
    };
    conclude(alloc, end, diag)
}

/// Replays the input through a front before a new cache in memory.
fn front_input<S: Source, K: Sink, D: Sink>(
    alloc: Global,
    input: &mut S,
    out: &mut K,
    diag: &mut D,
) -> Status
    ensures does { Does fronting
        (streams (S.left input.old) (K.taken out.old) (D.taken diag.old)
        (K.faults out.old) (D.faults diag.old))
        (streams (S.left input.new) (K.taken out.new) (D.taken diag.new)
        (K.faults out.new) (D.faults diag.new))
        result }
    ensures stream_faults { IsStreamStatus (S.faults input.old) (S.faults input.new)
        (K.faults out.old) (K.faults out.new) (D.faults diag.old) (D.faults diag.new) result }
    ensures wireless { result ≢ Status.WireFailed }
{
    let store = Memory::new(alloc, PROGRAM_LIMITS);
    let Ok(cache) = Cache::new(store, PROGRAM_LIMITS, alloc) else {
        return Status::NoMemory;
    };
    let mut front = Front::new(alloc, cache);
    let end = replay_front(alloc, 0, &mut front, input, out);
    conclude(alloc, end, diag)
}

/// Writes the summary of so many rounds of the generator. What is left of the input is as before.
fn write_summary<K: Sink, D: Sink>(
    alloc: Global,
    seed: u64,
    count: u64,
    out: &mut K,
    diag: &mut D,
) -> Status
    requires few { count ≤ 1_000_000 }
    ensures does { (left : Option (List ℕ)) → Does (generating seed count)
        (streams left (K.taken out.old) (D.taken diag.old) (K.faults out.old) (D.faults diag.old))
        (streams left (K.taken out.new) (D.taken diag.new) (K.faults out.new) (D.faults diag.new))
        result }
    ensures stream_faults { (unread : ℕ) → IsStreamStatus unread unread
        (K.faults out.old) (K.faults out.new) (D.faults diag.old) (D.faults diag.new) result }
    ensures wireless { result ≢ Status.WireFailed }
{
    let end = generate(alloc, seed, count, out);
    conclude(alloc, end, diag)
}

/// Answers as the test origin.
fn answer<W: Wire>(alloc: Global, listen: Address, turns: u64, wire: &mut W) -> Status
    requires fresh { IfSome (W.log wire.old) IsFresh }
    requires unseen { (k : ℕ) → W.stages wire.old k ≡ Unseen }
    ensures answers { AnswersOrigin listen turns (W.log wire.old) (W.log wire.new) result }
    ensures unread { result ≢ Status.SourceFailed }
    ensures unwritten { result ≢ Status.SinkFailed }
    ensures wire_faults { IsWireStatus (W.faults wire.old) (W.faults wire.new) result }
{
    match wire.bind(Some(listen), None) {
        Ok(()) => answered(origin_on(alloc, wire, turns)),
        Err(e) => unbound(e),
    }
}

/// The status of how the test origin ended.
fn answered(end: Ended) -> Status
    requires { MayEnd end }
    ensures { IsEndedAs end result }
{
    match end {
        Ended::Done => Status::Done,
        Ended::WireFailed => Status::WireFailed,
        Ended::NoMemory => Status::NoMemory,
        _ => unreachable!(),
    }
}

/// Serves clients at one address, from the origin at the other, and writes the record.
fn serve<K: Sink, W: Wire>(
    alloc: Global,
    listen: Address,
    origin: Address,
    turns: u64,
    out: &mut K,
    wire: &mut W,
) -> Status
    requires fresh { IfSome (W.log wire.old) IsFresh }
    requires unseen { (k : ℕ) → W.stages wire.old k ≡ Unseen }
    ensures serves { ServesFrom listen origin turns (W.log wire.old) (W.log wire.new)
        (K.taken out.old) (K.taken out.new) result }
    ensures unread { result ≢ Status.SourceFailed }
    ensures sink_failed { result ≡ Status.SinkFailed
        → HasRisen (K.faults out.old) (K.faults out.new) }
    ensures sink_calm { result ≢ Status.SinkFailed → K.faults out.new ≡ K.faults out.old }
    ensures wire_faults { IsWireStatus (W.faults wire.old) (W.faults wire.new) result }
{
    let store = Memory::new(alloc, PROGRAM_LIMITS);
    let Ok(cache) = Cache::new(store, PROGRAM_LIMITS, alloc) else {
        return Status::NoMemory;
    };
    match wire.bind(Some(listen), Some(origin)) {
        Ok(()) => served(serve_on(alloc, cache, wire, out, turns)),
        Err(e) => unbound(e),
    }
}

/// The status of how the serving loop ended.
fn served(end: Ended) -> Status
    requires { serving.MayEnd end }
    ensures { IsServedAs end result }
{
    match end {
        Ended::Done => Status::Done,
        Ended::WireFailed => Status::WireFailed,
        Ended::SinkFailed => Status::SinkFailed,
        Ended::NoMemory => Status::NoMemory,
        _ => unreachable!(),
    }
}

/// Tells how a command ended, and answers the status.
pub(crate) fn conclude<D: Sink>(alloc: Global, end: Ended, diag: &mut D) -> Status
    requires wireless { end ≢ ended.WireFailed }
    ensures { Concludes (D.taken diag.old) (D.taken diag.new) (D.faults diag.old)
        (D.faults diag.new) end result }
{
    match end {
        Ended::Done => Status::Done,
        Ended::Refused(refused) => match say_refusal(alloc, refused, diag) {
            Ok(()) => Status::Refused,
            Err(e) => stopped(e),
        },
        Ended::SourceFailed => Status::SourceFailed,
        Ended::SinkFailed => Status::SinkFailed,
        Ended::NoMemory => Status::NoMemory,
        Ended::WireFailed => unreachable!(),
    }
}

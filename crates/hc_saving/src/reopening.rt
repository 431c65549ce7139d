//! A run that goes on from an image.
ghost use Rattle.std.specs.Prelude.{◌≡◌, ◌≢◌, ◌≤◌, ◌++◌, ℕ, List, Some, true, vec_len, IfOk, IfErr};
ghost use Rattle.hc_io.specs.Faults.{HasRisen};
ghost use Rattle.hc_sched.specs.declared.schedule.Ended.TheVariants as ended;
ghost use Rattle.hc_saving.specs.declared.open.OpenEnded.TheVariants as opened;
ghost use Rattle.hc_model.specs.Beginnings.{may_begin};
ghost use Rattle.hc_model.specs.Entries as model;
ghost use Rattle.hc_image.specs.Spelled.{SpellsImage};
ghost use Rattle.hc_contents.specs.PlainContents.{plain_contents};
ghost use Rattle.hc_saving.specs.Opens.{Opens, Completes, IsImageTaken, IsUnopened};
ghost use Rattle.hc_saving.specs.Continued.{IsOpened};
ghost use Rattle.hc_saving.specs.Saves.{IsLeft};

use crate::begin::begin;
use crate::open::OpenEnded;
use hc_contents::Contents;
use hc_image::read_image;
use hc_io::{PlainSource, ReadError, Sink, Source, read_all};
use hc_replay::replay;
use hc_rules::Limits;
use hc_sched::Ended;
use hc_text::NoMemory;
use std::alloc::Global;

/// Reads the whole input, an image and then a schedule. A cache in memory that may hold so much begins
/// with what the image has, and is stepped by the events of the schedule, whose report is written. The
/// moment is at first that of the image. Lines and events are counted from 1 behind it.
///
/// Where the image is refused, and where the input fails, nothing is written. What `save` wrote over
/// the same limits is never refused. Else it ends as `replay` does.
pub fn reopen<S: Source, K: Sink>(
    alloc: Global,
    limits: Limits,
    source: &mut S,
    sink: &mut K,
) -> OpenEnded
    ensures ends { Opens limits (S.left source.old) (S.left source.new)
        (K.taken sink.old) (K.taken sink.new) result }
    ensures complete { Completes limits (S.left source.old) result }

    // Contents with which a store may begin are never refused, so what `save` wrote isn't.
    ensures begins { (contents : model.Contents) (image schedule : List ℕ)
        → SpellsImage image contents → may_begin limits contents ≡ true
        → S.left source.old ≡ Some (image ++ schedule) → IsImageTaken result }
    ensures saved { (h : model.History) (image schedule : List ℕ) → IsLeft limits h image
        → S.left source.old ≡ Some (image ++ schedule) → IsImageTaken result }

    // A fault comes only where one was counted, and none is counted where none comes.
    ensures source { result ≡ opened.Ran ended.SourceFailed
        → HasRisen (S.faults source.old) (S.faults source.new) }
    ensures source_calm { result ≢ opened.Ran ended.SourceFailed
        → S.faults source.new ≡ S.faults source.old }
    ensures sink { result ≡ opened.Ran ended.SinkFailed
        → HasRisen (K.faults sink.old) (K.faults sink.new) }
    ensures sink_calm { result ≢ opened.Ran ended.SinkFailed
        → K.faults sink.new ≡ K.faults sink.old }
{
    let text = match read_all(alloc, source) {
        Ok(text) => text,
        Err(ReadError::SourceFailed) => return OpenEnded::Ran(Ended::SourceFailed),
        Err(ReadError::NoMemory) => return OpenEnded::Ran(Ended::NoMemory),
    };
    let Parts { contents, schedule } = match parts_of(alloc, text) {
        Ok(parts) => parts,
        Err(ended) => return ended,
    };
    let moment = contents.now;
    let mut cache = match begin(alloc, limits, contents) {
        Ok(cache) => cache,
        Err(e) => return OpenEnded::from(e),
    };
    let mut schedule = PlainSource::new(schedule);
    OpenEnded::Ran(replay(alloc, moment, &mut cache, &mut schedule, sink))
}

/// What an image has, and the schedule behind it.
#[derive(Drop)]
struct Parts {
    contents: Contents,
    schedule: Vec<u8>,
}

/// The parts of a text that begins with an image. The bytes of the image are let go.
fn parts_of(alloc: Global, text: Vec<u8>) -> Result<Parts, OpenEnded>
    ensures found { IfOk result (λ parts.
        IsOpened text.items (plain_contents parts.contents) parts.schedule.items) }
    ensures short { IfOk result (λ parts. vec_len parts.schedule ≤ vec_len text) }
    ensures none { IfErr result (IsUnopened text.items) }
{
    let mut text = text;
    let image = match read_image(alloc, text.as_slice()) {
        Ok(Some(image)) => image,
        Ok(None) => return Err(OpenEnded::BadImage),
        Err(NoMemory) => return Err(OpenEnded::Ran(Ended::NoMemory)),
    };
    match text.split_off(image.used) {
        Ok(schedule) => Ok(Parts {
            contents: image.contents,
            schedule,
        }),
        Err(_) => Err(OpenEnded::Ran(Ended::NoMemory)),
    }
}

//! What an image and the record behind it leave.
ghost use Rattle.std.specs.Prelude.{◌≡◌, ◌≢◌, ◌+◌, ◌<◌, ◌≤◌, ◌^◌, ◌++◌, ℕ, List, Option, Some, Err, true, IfOk, IfErr, IsErrOf};
ghost use Rattle.hc_io.specs.Faults.{HasRisen};
ghost use Rattle.hc_sched.specs.Schedule.{Item, Spells};
ghost use Rattle.hc_model.specs.Beginnings.{may_begin};
ghost use Rattle.hc_model.specs.Entries as model;
ghost use Rattle.hc_contents.specs.PlainContents.{plain_contents};
ghost use Rattle.hc_saving.specs.declared.recovering.RecoverError.TheVariants as error;
ghost use Rattle.hc_core.specs.Steps.{last_moment, steps, bytes_received};
ghost use Rattle.hc_saving.specs.Recovers.{BeginsAs, IsStepped, IsTaken, IsUnread, IsUnstepped, Recovers, bytes_of};

use crate::begin::{BeginError, begin};
use crate::leaving::contents_left;
use crate::nowhere::Nowhere;
use crate::silent::Silent;
use hc_contents::{ContentList, Contents, Unfit};
use hc_core::Cache;
use hc_driver::{Stop, go_through_prefix};
use hc_image::read_image;
use hc_io::Source;
use hc_rules::Limits;
use hc_sched::Refused;
use hc_store::Memory;
use hc_text::NoMemory;
use std::alloc::Global;

/// Why nothing is recovered.
#[derive(Clone, Copy, Debug, PartialEq, Eq)]
pub enum RecoverError {
    /// The text isn't an image.
    BadImage,
    /// No store may begin with what the image has.
    Unfit(Unfit),
    /// This line of the record can't stand where it is.
    BadRecord(Refused),
    /// The record couldn't be read.
    SourceFailed,
    /// There was not enough memory.
    NoMemory,
}

impl From<BeginError> for RecoverError {
    ghost use Rattle.hc_saving.specs.Recovers.{of_begin};

    ghost from_gives = { λ e error. error ≡ of_begin e };

    fn from(e: BeginError) -> Self {
        match e {
            BeginError::Unfit(why) => RecoverError::Unfit(why),
            BeginError::NoMemory => RecoverError::NoMemory,
        }
    }
}

impl From<NoMemory> for RecoverError {
    ghost use Rattle.hc_saving.specs.declared.recovering.RecoverError.TheVariants as error;

    ghost from_gives = { λ _ e. e ≡ error.NoMemory };

    fn from(_: NoMemory) -> Self {
        RecoverError::NoMemory
    }
}

/// What is left of an image and of the record behind it, of which any last part may be missing. A
/// cache in memory that may hold so much begins with what the image has; without an image it begins
/// empty. It is stepped by the whole events of the record, which is read from the moment of the image
/// on. Then all who are live are cancelled, the lowest number first, at the moment of the last event.
///
/// A line that is cut, or an item whose field lines are, is no refusal: it brings no event. Lines are
/// counted from 1. Where the image is refused, the record isn't read.
#[tactic(none)]
pub fn recover<S: Source>(
    alloc: Global,
    limits: Limits,
    image: Option<Vec<u8>>,
    behind: &mut S,
) -> Result<Contents, RecoverError>
    ensures recovers { Recovers limits (bytes_of image) (S.left behind.old) (S.left behind.new)
        result }

    // A first part of a schedule behind an image with which a store may begin is never refused.
    ensures taken { (contents : model.Contents) (text more : List ℕ) (items : List Item)
        → BeginsAs (bytes_of image) contents → may_begin limits contents ≡ true
        → S.left behind.old ≡ Some text → Spells contents.now (text ++ more) items
        → IsTaken result }

    // A fault comes only where one was counted, and none is counted where none comes.
    ensures source { IsErrOf result RecoverError.SourceFailed
        → HasRisen (S.faults behind.old) (S.faults behind.new) }
    ensures source_calm { result ≢ Err error.SourceFailed
        → S.faults behind.new ≡ S.faults behind.old }
{
    let contents = contents_in(alloc, image)?;
    recover_from(alloc, limits, contents, behind)
}

/// What is left of these contents and of the record behind them.
#[tactic(none)]
fn recover_from<S: Source>(
    alloc: Global,
    limits: Limits,
    contents: Contents,
    behind: &mut S,
) -> Result<Contents, RecoverError>
    ensures recovers { (image : Option (List ℕ)) → BeginsAs image (plain_contents contents)
        → Recovers limits image (S.left behind.old) (S.left behind.new) result }
    ensures source { IsErrOf result RecoverError.SourceFailed
        → HasRisen (S.faults behind.old) (S.faults behind.new) }
    ensures source_calm { result ≢ Err error.SourceFailed
        → S.faults behind.new ≡ S.faults behind.old }
{
    let moment = contents.now;
    let cache = begin(alloc, limits, contents)?;
    let cache = step_whole(alloc, moment, cache, behind)?;
    Ok(contents_left(alloc, cache)?)
}

/// What the image has. Where there is none, that is nothing.
fn contents_in(alloc: Global, image: Option<Vec<u8>>) -> Result<Contents, RecoverError>
    ensures found { IfOk result (λ contents.
        BeginsAs (bytes_of image) (plain_contents contents)) }
    ensures none { IfErr result (IsUnread (bytes_of image)) }
{
    let Some(image) = image else {
        return Ok(Contents {
            now: 0,
            last_consumer: 0,
            next_exchange: 1,
            items: ContentList::new(alloc),
        });
    };
    let Some(read) = read_image(alloc, image.as_slice())? else {
        return Err(RecoverError::BadImage);
    };
    if read.used < image.len() {
        return Err(RecoverError::BadImage);
    }
    Ok(read.contents)
}

/// Steps the cache by the whole events of the record.
fn step_whole<S: Source>(
    alloc: Global,
    moment: u64,
    cache: Cache<Memory>,
    behind: &mut S,
) -> Result<Cache<Memory>, RecoverError>
    requires small { moment < 2 ^ 62 }
    requires at { last_moment cache ≡ moment }
    requires unused { steps cache + bytes_received cache ≡ 0 }
    ensures stepped { IfOk result
        (IsStepped cache moment (S.left behind.old) (S.left behind.new)) }
    ensures none { IfErr result (IsUnstepped moment (S.left behind.old) (S.left behind.new)) }
    ensures source { IsErrOf result RecoverError.SourceFailed
        → HasRisen (S.faults behind.old) (S.faults behind.new) }
    ensures source_calm { result ≢ Err error.SourceFailed
        → S.faults behind.new ≡ S.faults behind.old }
    ensures few { IfOk result (λ cache. steps cache ≤ 2 ^ 59) }
    ensures little { IfOk result (λ cache. bytes_received cache ≤ 2 ^ 60) }
{
    let mut silent = Silent { cache };
    match go_through_prefix(alloc, moment, &mut silent, behind, &mut Nowhere) {
        Ok(_) => Ok(silent.cache),
        Err(Stop::Refused(refused)) => Err(RecoverError::BadRecord(refused)),
        Err(Stop::SourceFailed) => Err(RecoverError::SourceFailed),
        Err(Stop::NoMemory) => Err(RecoverError::NoMemory),
        Err(Stop::Over | Stop::SinkFailed) => unreachable!(),
    }
}

//! The record of a run that goes on.
ghost use Rattle.std.specs.Prelude.{◌≡◌, ◌≢◌, ◌<◌, ◌≤◌, ◌^◌, ◌++◌, ℕ, List, [], None, Some, Err, length, take, IfOk, IfSome, IsSomeAnd, OnOk, OnErr};
ghost use Rattle.hc_io.specs.Sink.{HasSinkCause, Takes};
ghost use Rattle.hc_io.specs.declared.sink.SinkError.TheVariants as error;
ghost use Rattle.hc_folder.specs.Causes.{HasFolderCause};
ghost use Rattle.hc_folder.specs.Files.{HasNoneFrom, OnFiles, IsRenewedOrLeft};
ghost use Rattle.hc_folder.specs.ImageFiles.{IsImageFileOf};
ghost use Rattle.hc_folder.specs.Unwritten.{unput_by};
ghost use Rattle.hc_folder.specs.Written.{HasTaken, tells};

use crate::block::write_block;
use crate::folder::{Folder, FolderError};
use crate::renewing::renew;
use crate::sum::Sum;
use hc_io::{Sink, SinkError};
use hc_text::NoMemory;
use std::alloc::Global;

/// A record has so many bytes, at most.
const MOST: u64 = 1 << 60;

/// Why something isn't in the folder.
#[derive(Clone, Copy, Debug, PartialEq, Eq)]
pub enum Unwritten {
    /// The folder failed, and counted that.
    Failed,
    /// The record would have more than 2^60 bytes.
    Full,
    /// There was not enough memory.
    NoMemory,
}

impl From<FolderError> for Unwritten {
    ghost use Rattle.std.specs.Prelude.{◌≡◌};
    ghost use Rattle.hc_folder.specs.Unwritten.{of_folder};

    ghost from_gives = { λ e why. why ≡ of_folder e };

    fn from(e: FolderError) -> Self {
        match e {
            FolderError::Failed => Unwritten::Failed,
            FolderError::NoMemory => Unwritten::NoMemory,
        }
    }
}

impl From<NoMemory> for Unwritten {
    ghost use Rattle.std.specs.Prelude.{◌≡◌};
    ghost use Rattle.hc_folder.specs.declared.recording.Unwritten.TheVariants as why;

    ghost from_gives = { λ _ e. e ≡ why.NoMemory };

    fn from(_: NoMemory) -> Self {
        Unwritten::NoMemory
    }
}

/// Why the image isn't in the folder, where it isn't.
fn unput(put: Result<(), FolderError>) -> Option<Unwritten>
    ensures { result ≡ unput_by put }
{
    match put {
        Ok(()) => None,
        Err(e) => Some(Unwritten::from(e)),
    }
}

/// What of a record stands in its folder.
#[derive(Clone, Copy, Debug, PartialEq, Eq)]
pub enum Standing {
    /// The image behind which it is to stand is still owed.
    Owed,
    /// A first part of what was taken. The rest waits.
    Part,
    /// All that was taken.
    Whole,
}

/// A folder behind its recorder.
#[derive(Drop)]
pub struct Closed<F> {
    pub folder: F,
    pub standing: Standing,
}

/// Writes what it takes into a folder, as the record behind an image. What can't be written waits, and
/// is tried again with what comes next.
#[derive(Drop)]
pub struct Recorder<F: Folder> {
    folder: F,
    /// The file of the image, where it isn't in the folder yet.
    owed: Option<Vec<u8>>,
    /// The number of the record.
    number: u64,
    /// The sum behind what the record has.
    sum: Sum,
    /// So many bytes of the record are whole blocks.
    at: u64,
    /// The block that comes next in the record, or nothing. It is made once, however often it is tried.
    block: Vec<u8>,
    /// The sum behind that block.
    next: Sum,
    /// What was taken and is in no block yet.
    waiting: Vec<u8>,
    /// Why something waits, where something does behind the last call.
    unwritten: Option<Unwritten>,
    ghost small: { number < 2 ^ 62 },
    // All that was taken stands in the record or waits, at each moment.
    ghost written: { ∥ IfSome (F.files folder)
        (HasTaken owed number sum at block.items next waiting.items) ∥₁ },
}

impl<F: Folder> Recorder<F> {
    ghost use Rattle.hc_folder.specs.Closing.{StandsAs, standing_of};
    ghost use Rattle.hc_folder.specs.ImageFiles.{image_file};
    ghost use Rattle.hc_folder.specs.Recording.{HasRecorded, HasUnwrittenCause, IsAsTold, IsNew, IsWritten, StaysRecorded, size_with, told_of};

    /// A recorder that took nothing yet. This file of an image is put at once, and a record of this number
    /// is to stand behind it. Where it can't be put, it is owed, and tried again with what comes next.
    #[tactic(none)]
    pub fn begin(alloc: Global, folder: F, file: Vec<u8>, number: u64, sum: Sum) -> Self
        requires image { IsImageFileOf file.items number sum }
        requires new { IfSome (F.files folder) (HasNoneFrom number) }
        ensures recorded { IfSome (F.files folder) (λ _.
            IfSome (F.files result.folder) (HasRecorded file.items sum [] result)) }
        ensures taken { IfSome (F.files folder) (λ _. told_of result ≡ Some (tells file.items [])) }

        // A record is gone only where the image is there.
        ensures renewed { OnFiles (IsRenewedOrLeft file.items number) (F.files folder)
            (F.files result.folder) }
        ensures told { IsAsTold (F.faults folder) (F.faults result.folder) result }
    {
        let mut recorder = Recorder::new(alloc, folder, file, number, sum);
        recorder.put_first();
        recorder
    }

    /// The same before the image is tried.
    #[tactic(none)]
    fn new(alloc: Global, folder: F, file: Vec<u8>, number: u64, sum: Sum) -> Self
        requires image { IsImageFileOf file.items number sum }
        requires new { IfSome (F.files folder) (HasNoneFrom number) }
        ensures recorded { IfSome (F.files folder) (HasRecorded file.items sum [] result) }
        ensures folder { result.folder ≡ folder }
        ensures new { IsNew file number result }
    {
        let block = Vec::new(alloc);
        let waiting = Vec::new(alloc);
        Recorder {
            folder,
            owed: Some(file),
            number,
            sum,
            at: 0,
            block,
            next: sum,
            waiting,
            unwritten: None,
        }
    }

    /// Puts the image before anything was taken. Where it can't be put, it is told why.
    #[tactic(none)]
    fn put_first(&mut self)
        requires block { self.old.block.items ≡ [] }
        requires waiting { self.old.waiting.items ≡ [] }
        ensures recorded { StaysRecorded [] self.old (F.files self.old.folder)
            self.new (F.files self.new.folder) }
        ensures renewed { IfSome self.old.owed (λ file. OnFiles
            (IsRenewedOrLeft file.items self.old.number) (F.files self.old.folder)
            (F.files self.new.folder)) }
        ensures told { IsAsTold (F.faults self.old.folder) (F.faults self.new.folder) self.new }
    {
        let put = self.put_owed();
        self.unwritten = unput(put);
    }

    /// Why something that was taken isn't in the folder behind the last call, if something isn't.
    pub fn unwritten(&self) -> Option<Unwritten>
        ensures { result ≡ self.now.unwritten }
    {
        self.unwritten
    }

    /// Gives the folder back, and says what of the record stands in it. What waits is lost.
    #[tactic(none)]
    pub fn close(self) -> Closed<F>
        ensures folder { result.folder ≡ self.folder }
        ensures standing { result.standing
            ≡ standing_of self.owed (self.block.items ++ self.waiting.items) }

        // What was told stands, as the folder's files are read. They are told on.
        ensures stands { (image text : List ℕ) (n : ℕ) → n < 2 ^ 62
            → told_of self ≡ Some (tells (image_file image n) text)
            → IsSomeAnd (F.files result.folder)
            (λ files. ∥ StandsAs image n text files result.standing ∥₁) }
    {
        let standing = self.standing();
        Closed {
            folder: self.folder,
            standing,
        }
    }

    /// What of the record stands in the folder.
    fn standing(&self) -> Standing
        ensures { result
            ≡ standing_of self.now.owed (self.now.block.items ++ self.now.waiting.items) }
    {
        if self.owed.is_some() {
            return Standing::Owed;
        }
        if self.block.is_empty() && self.waiting.is_empty() {
            Standing::Whole
        } else {
            Standing::Part
        }
    }

    /// Puts the image that is owed, and then all that waits. What can't be put waits on.
    #[tactic(none)]
    pub fn put_all(&mut self) -> Result<(), Unwritten>
        ensures recorded { StaysRecorded [] self.old (F.files self.old.folder)
            self.new (F.files self.new.folder) }
        ensures ok { OnOk result (IsWritten self.new) }
        ensures cause { HasUnwrittenCause (F.faults self.old.folder) (F.faults self.new.folder)
            (size_with self.new) result }
    {
        self.put_owed()?;
        self.put_block()?;
        self.make_block()?;
        self.put_block()
    }

    /// Puts the image that is owed.
    #[tactic(none)]
    fn put_owed(&mut self) -> Result<(), FolderError>
        ensures recorded { StaysRecorded [] self.old (F.files self.old.folder)
            self.new (F.files self.new.folder) }
        ensures renewed { IfSome self.old.owed (λ file. OnFiles
            (IsRenewedOrLeft file.items self.old.number) (F.files self.old.folder)
            (F.files self.new.folder)) }
        ensures ok { OnOk result (self.new.owed ≡ None) }
        ensures block { self.new.block ≡ self.old.block }
        ensures waiting { self.new.waiting ≡ self.old.waiting }
        ensures told { self.new.unwritten ≡ self.old.unwritten }
        ensures cause { HasFolderCause (F.faults self.old.folder) (F.faults self.new.folder)
            result }
    {
        let Some(file) = &self.owed else {
            return Ok(());
        };
        renew(&mut self.folder, file.as_slice(), self.number)?;
        self.owed = None;
        Ok(())
    }

    /// Puts the block that comes next, if one does.
    #[tactic(none)]
    fn put_block(&mut self) -> Result<(), Unwritten>
        ensures recorded { StaysRecorded [] self.old (F.files self.old.folder)
            self.new (F.files self.new.folder) }
        ensures ok { OnOk result (self.new.block.items ≡ []) }
        ensures owed { self.new.owed ≡ self.old.owed }
        ensures waiting { self.new.waiting ≡ self.old.waiting }
        ensures cause { HasUnwrittenCause (F.faults self.old.folder) (F.faults self.new.folder)
            (size_with self.new) result }
    {
        if self.block.is_empty() {
            return Ok(());
        }
        let size = self.block.len() as u64;
        if self.at.saturating_add(size) > MOST {
            return Err(Unwritten::Full);
        }
        self.folder
            .put_record(self.number, self.at, self.block.as_slice())?;
        self.at += size;
        self.sum = self.next;
        self.block.clear();
        Ok(())
    }

    /// Makes a block of what waits, if something does.
    #[tactic(none)]
    fn make_block(&mut self) -> Result<(), NoMemory>
        requires { self.old.block.items ≡ [] }
        ensures recorded { StaysRecorded [] self.old (F.files self.old.folder)
            self.new (F.files self.new.folder) }
        ensures ok { OnOk result (self.new.waiting.items ≡ []) }
        ensures owed { self.new.owed ≡ self.old.owed }
        ensures folder { self.new.folder ≡ self.old.folder }
    {
        if self.waiting.is_empty() {
            return Ok(());
        }
        let next = write_block(&self.sum, self.waiting.as_slice(), &mut self.block)?;
        self.next = next;
        self.waiting.clear();
        Ok(())
    }
}

impl<F: Folder> Sink for Recorder<F> {
    ghost use Rattle.hc_folder.specs.Recording.{IsAsTold, StaysRecorded, told_of};

    ghost faults = { λ _. 0 };

    ghost taken = { λ r. told_of r };

    fn write(&mut self, from: &[u8]) -> Result<usize, SinkError>
        ensures at_most { IfOk result (λ n. n ≤ length from.now) }
        ensures some { IfOk result (λ n. 0 < length from.now → 0 < n) }
        ensures cause { HasSinkCause 0 0 result }
        ensures never { result ≢ Err error.SinkFailed }
        ensures bytes { IfOk result (λ n.
            Takes (told_of self.old) (told_of self.new) (take n from.now)) }
        ensures none { OnErr result (told_of self.new ≡ told_of self.old) }

        // All is taken, and stands in the record or waits; or memory was refused, and nothing is.
        ensures all { IfOk result (λ n. n ≡ length from.now) }
        ensures ok { OnOk result (StaysRecorded from.now self.old (F.files self.old.folder)
            self.new (F.files self.new.folder)) }
        ensures err { OnErr result (StaysRecorded [] self.old (F.files self.old.folder)
            self.new (F.files self.new.folder)) }

        // Nothing waits but by a fault of the folder in this call, a full record, or want of memory.
        ensures told { OnOk result (IsAsTold (F.faults self.old.folder) (F.faults self.new.folder)
            self.new) }
        ensures folder { OnErr result (self.new.folder ≡ self.old.folder) }
    {
        self.waiting.extend_from_slice(from)?;
        // What can't be put now is tried again with what comes next.
        self.unwritten = self.put_all().err();
        Ok(from.len())
    }
}

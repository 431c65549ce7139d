//! A store's folder.
use hc_text::NoMemory;
use std::alloc::AllocError;

/// Why a folder doesn't do what it is asked.
#[derive(Clone, Copy, Debug, PartialEq, Eq)]
pub enum FolderError {
    /// It failed, and counted that.
    Failed,
    /// There was not enough memory, which is no fault.
    NoMemory,
}

impl From<AllocError> for FolderError {
    ghost use Rattle.std.specs.Prelude.{◌≡◌};
    ghost use Rattle.hc_folder.specs.declared.folder.FolderError.TheVariants as error;

    ghost from_gives = { λ _ e. e ≡ error.NoMemory };

    fn from(_: AllocError) -> Self {
        FolderError::NoMemory
    }
}

impl From<NoMemory> for FolderError {
    ghost use Rattle.std.specs.Prelude.{◌≡◌};
    ghost use Rattle.hc_folder.specs.declared.folder.FolderError.TheVariants as error;

    ghost from_gives = { λ _ e. e ≡ error.NoMemory };

    fn from(_: NoMemory) -> Self {
        FolderError::NoMemory
    }
}

/// What is found of an image.
#[derive(Drop)]
pub struct ImageFound {
    /// Its file, if there is one.
    pub file: Option<Vec<u8>>,
    /// The number of the newest record, or 0 where there is none.
    pub newest: u64,
}

/// The files of a store: an image, and records that have numbers. It counts its faults.
pub trait Folder {
    ghost use Rattle.std.specs.Prelude.{◌≡◌, ◌≤◌, ◌^◌, ℕ, Option, vec_len, IfOk, IfSome, OnOk, OnErr};
    ghost use Rattle.hc_folder.specs.Causes.{HasFolderCause};
    ghost use Rattle.hc_folder.specs.Files.{Files, OnFiles, IsFound, bytes_in, IsImagePut, IsImagePutOrLeft, IsRecordPut, IsRecordTorn, AreRemoved, AreSomeRemoved};

    /// How often it has failed.
    ghost faults: { Self → ℕ };

    /// What its files hold, if it tells that.
    ghost files: { Self → Option Files };

    /// The file of the image, and the number of the newest record.
    fn find_image(&mut self) -> Result<ImageFound, FolderError>
        ensures found { IfOk result (λ found.
            IfSome (files self.old) (IsFound found.file found.newest)) }
        ensures same { files self.new ≡ files self.old }
        ensures cause { HasFolderCause (faults self.old) (faults self.new) result };

    /// The bytes of the record of this number, at most 2^60. Where it isn't there they are none.
    fn read_record(&mut self, number: u64) -> Result<Vec<u8>, FolderError>
        ensures bytes { IfOk result (λ bytes.
            IfSome (files self.old) (λ files. bytes.items ≡ bytes_in files number)) }
        ensures small { IfOk result (λ bytes. vec_len bytes ≤ 2 ^ 60) }
        ensures same { files self.new ≡ files self.old }
        ensures cause { HasFolderCause (faults self.old) (faults self.new) result };

    /// Puts another image in the place of the one that is there, at once and for good. After an error
    /// either is there.
    fn put_image(&mut self, file: &[u8]) -> Result<(), FolderError>
        ensures ok { OnOk result
            (OnFiles (IsImagePut file.now) (files self.old) (files self.new)) }
        ensures err { OnErr result
            (OnFiles (IsImagePutOrLeft file.now) (files self.old) (files self.new)) }
        ensures cause { HasFolderCause (faults self.old) (faults self.new) result };

    /// Removes the records with lower numbers. After an error some may be left.
    fn remove_below(&mut self, number: u64) -> Result<(), FolderError>
        ensures ok { OnOk result
            (OnFiles (AreRemoved number) (files self.old) (files self.new)) }
        ensures err { OnErr result
            (OnFiles (AreSomeRemoved number) (files self.old) (files self.new)) }
        ensures cause { HasFolderCause (faults self.old) (faults self.new) result };

    /// Puts bytes into a record, which is made where there is none, behind its first `at`. All others
    /// that it had are gone. After an error it is as it was, or has a part of the bytes.
    fn put_record(&mut self, number: u64, at: u64, bytes: &[u8]) -> Result<(), FolderError>
        ensures ok { OnOk result
            (OnFiles (IsRecordPut number at bytes.now) (files self.old) (files self.new)) }
        ensures err { OnErr result
            (OnFiles (IsRecordTorn number at bytes.now) (files self.old) (files self.new)) }
        ensures cause { HasFolderCause (faults self.old) (faults self.new) result };
}

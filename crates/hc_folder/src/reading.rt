//! What the files of a folder say.
ghost use Rattle.std.specs.Prelude.{◌≡◌, ◌<◌, ◌≤◌, ◌^◌, vec_len, IfOk, IfSome};
ghost use Rattle.hc_folder.specs.Says.{HasFilesCause, IsSmall, Reads, ReadsBehind};

use crate::blocks::{RecordError, read_record};
use crate::folder::{Folder, FolderError};
use crate::image::{ImageFile, read_image_file};
use std::alloc::Global;

/// What the files of a folder say: an image, and the text of the record behind it. A new folder has
/// neither.
#[derive(Drop)]
pub struct Said {
    pub image: Option<Vec<u8>>,
    /// The number of the record, or 0 in a new folder.
    pub number: u64,
    pub text: Vec<u8>,
}

/// Why the files of a folder say nothing.
#[derive(Clone, Copy, Debug, PartialEq, Eq)]
pub enum FilesError {
    /// The file of the image isn't one that was written, or it was changed.
    BrokenImage,
    /// There is this record, and no image that it may stand behind.
    LostImage { number: u64 },
    /// What stands behind so many bytes of this record was never written there.
    BrokenRecord { number: u64, at: u64 },
    /// The folder failed, and counted that.
    FolderFailed,
    /// There was not enough memory.
    NoMemory,
}

impl From<FolderError> for FilesError {
    ghost use Rattle.std.specs.Prelude.{◌≡◌};
    ghost use Rattle.hc_folder.specs.Says.{of_folder};

    ghost from_gives = { λ e error. error ≡ of_folder e };

    fn from(e: FolderError) -> Self {
        match e {
            FolderError::Failed => FilesError::FolderFailed,
            FolderError::NoMemory => FilesError::NoMemory,
        }
    }
}

/// What the files of a folder say by their sums. The last block of the record may be cut. The files
/// are as they were, whatever is answered.
#[tactic(none)]
pub fn read_files<F: Folder>(alloc: Global, folder: &mut F) -> Result<Said, FilesError>
    ensures reads { IfSome (F.files folder.old) (λ files. Reads files result) }
    ensures small { IfOk result IsSmall }
    ensures same { F.files folder.new ≡ F.files folder.old }
    ensures cause { HasFilesCause (F.faults folder.old) (F.faults folder.new) result }
{
    let found = folder.find_image()?;
    let newest = found.newest;
    let file = found.file;
    let Some(file) = file else {
        if newest > 0 {
            return Err(FilesError::LostImage { number: newest });
        }
        let text = Vec::new(alloc);
        return Ok(Said {
            image: None,
            number: 0,
            text,
        });
    };
    let Some(image) = read_image_file(file) else {
        return Err(FilesError::BrokenImage);
    };
    let number = image.number;
    if newest > number {
        return Err(FilesError::LostImage { number: newest });
    }
    read_behind(alloc, image, folder)
}

/// What the record behind an image says.
#[tactic(none)]
fn read_behind<F: Folder>(
    alloc: Global,
    image: ImageFile,
    folder: &mut F,
) -> Result<Said, FilesError>
    requires { image.number < 2 ^ 62 }
    ensures reads { IfSome (F.files folder.old) (λ files. ReadsBehind image files result) }
    ensures small { IfOk result IsSmall }
    ensures same { F.files folder.new ≡ F.files folder.old }
    ensures cause { HasFilesCause (F.faults folder.old) (F.faults folder.new) result }
{
    let number = image.number;
    let file = folder.read_record(number)?;
    match read_record(alloc, image.sum, file.as_slice()) {
        Ok(text) => Ok(Said {
            image: Some(image.image),
            number,
            text,
        }),
        Err(RecordError::Broken { at }) => Err(FilesError::BrokenRecord { number, at }),
        Err(RecordError::NoMemory) => Err(FilesError::NoMemory),
    }
}

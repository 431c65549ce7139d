//! Another image takes the place of the one before and of its record.
ghost use Rattle.std.specs.Prelude.{OnOk, OnErr};
ghost use Rattle.hc_folder.specs.Causes.{HasFolderCause};
ghost use Rattle.hc_folder.specs.Files.{OnFiles, IsRenewed, IsRenewedOrLeft};

use crate::folder::{Folder, FolderError};

/// Puts another image into the folder, and removes the records before the one that is to stand behind
/// it. After an error nothing is lost: a record is gone only where the image is there.
pub fn renew<F: Folder>(folder: &mut F, file: &[u8], number: u64) -> Result<(), FolderError>
    ensures ok { OnOk result
        (OnFiles (IsRenewed file.now number) (F.files folder.old) (F.files folder.new)) }
    ensures err { OnErr result
        (OnFiles (IsRenewedOrLeft file.now number) (F.files folder.old) (F.files folder.new)) }
    ensures cause { HasFolderCause (F.faults folder.old) (F.faults folder.new) result }
{
    folder.put_image(file)?;
    folder.remove_below(number)
}

//! What a folder keeps.
ghost use Rattle.std.specs.Prelude.{◌≡◌, ℕ, List, Option, IfSome, IsSomeAnd, OnOk};
ghost use Rattle.hc_folder.specs.Says.{IsSmall, Says};
ghost use Rattle.hc_saving.specs.Recovers.{bytes_of};
ghost use Rattle.hc_keeping.specs.Keeps.{HasKeepCause, Keeps, KeepsText};

use hc_contents::Contents;
use hc_folder::{FilesError, Folder, Said, read_files};
use hc_io::PlainSource;
use hc_rules::Limits;
use hc_saving::{RecoverError, recover};
use std::alloc::Global;

/// What a folder keeps.
#[derive(Drop)]
pub struct Kept {
    pub contents: Contents,
    /// The number of the next record.
    pub next: u64,
}

/// Why nothing is recovered of a folder.
#[derive(Clone, Copy, Debug, PartialEq, Eq)]
pub enum KeepError {
    /// Its files say nothing.
    Files(FilesError),
    /// The image, or a line of the text of this record, is refused, or there was not enough memory.
    Refused { number: u64, why: RecoverError },
}

impl From<FilesError> for KeepError {
    ghost use Rattle.std.specs.Prelude.{◌≡◌};
    ghost use Rattle.hc_keeping.specs.declared.keeping.KeepError.TheVariants as error;

    ghost from_gives = { λ e of. of ≡ error.Files e };

    fn from(e: FilesError) -> Self {
        KeepError::Files(e)
    }
}

/// What a folder keeps: what a run leaves, of which its image and the record behind that tell. The
/// last turn of the record may be cut. Where there is neither, that is an empty store. The folder's
/// files are as they were, whatever is answered.
#[tactic(none)]
pub fn recover_kept<F: Folder>(
    alloc: Global,
    limits: Limits,
    folder: &mut F,
) -> Result<Kept, KeepError>
    ensures keeps { IfSome (F.files folder.old) (λ files. Keeps limits files result) }

    // What is found is what is left of the image and the text that the files say: they say one of each.
    ensures found { (image : Option (List ℕ)) (n : ℕ) (text : List ℕ)
        → IsSomeAnd (F.files folder.old) (λ files. Says files image n text)
        → OnOk result (KeepsText limits image n text result) }
    ensures same { F.files folder.new ≡ F.files folder.old }
    ensures cause { HasKeepCause (F.faults folder.old) (F.faults folder.new) result }
{
    let said = read_files(alloc, folder)?;
    recover_text(alloc, limits, said)
}

/// What an image and the text of the record behind it leave.
#[tactic(none)]
fn recover_text(alloc: Global, limits: Limits, said: Said) -> Result<Kept, KeepError>
    requires { IsSmall said }
    ensures { KeepsText limits (bytes_of said.image) said.number said.text.items result }
{
    let number = said.number;
    let mut behind = PlainSource::new(said.text);
    match recover(alloc, limits, said.image, &mut behind) {
        Ok(contents) => Ok(Kept {
            contents,
            next: number + 1,
        }),
        Err(why) => Err(KeepError::Refused { number, why }),
    }
}

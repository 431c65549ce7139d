//! How the program ends.
ghost use Rattle.std.specs.Prelude.{◌≡◌};
ghost use Rattle.hc_keep_app.specs.Endings.{code_of, ending_of, refused_as, unread_as, unrecovered_as};

use hc_folder::FilesError;
use hc_keeping::KeepError;
use hc_saving::RecoverError;
use hc_sched::Ended;

/// How the program ends.
#[derive(Clone, Copy)]
pub(crate) enum Ending {
    /// The turns are made, or the words are explained.
    Done,
    /// The words are none that it takes.
    Usage,
    /// The folder can't be read or locked.
    FolderFailed,
    /// The sockets failed.
    WireFailed,
    /// There was not enough memory.
    NoMemory,
    /// A file of the folder is refused.
    Refused,
}

impl Ending {
    /// The exit status.
    pub(crate) fn code(self) -> u8
        ensures { result ≡ code_of self }
    {
        match self {
            Ending::Done => 0,
            Ending::Usage => 2,
            Ending::FolderFailed => 3,
            Ending::WireFailed => 5,
            Ending::NoMemory => 6,
            Ending::Refused => 7,
        }
    }
}

/// How it ends where nothing is recovered.
pub(crate) fn unrecovered(why: KeepError) -> Ending
    ensures { result ≡ unrecovered_as why }
{
    match why {
        KeepError::Files(why) => unread(why),
        KeepError::Refused { why, .. } => refused(why),
    }
}

/// How it ends where the files say nothing.
fn unread(why: FilesError) -> Ending
    ensures { result ≡ unread_as why }
{
    match why {
        FilesError::FolderFailed => Ending::FolderFailed,
        FilesError::NoMemory => Ending::NoMemory,
        _ => Ending::Refused,
    }
}

/// How it ends where the image or the record is refused.
fn refused(why: RecoverError) -> Ending
    ensures { result ≡ refused_as why }
{
    match why {
        RecoverError::NoMemory => Ending::NoMemory,
        _ => Ending::Refused,
    }
}

/// How it ends behind the loop, which reads no input. Its record doesn't fail.
pub(crate) fn ended_as(ended: Ended) -> Ending
    ensures { result ≡ ending_of ended }
{
    match ended {
        Ended::Done => Ending::Done,
        Ended::NoMemory => Ending::NoMemory,
        _ => Ending::WireFailed,
    }
}

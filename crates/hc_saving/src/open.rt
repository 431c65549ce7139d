//! How an open ends.
use crate::begin::BeginError;
use hc_contents::Unfit;
use hc_sched::Ended;

/// How an open ends.
#[derive(Clone, Copy, Debug, PartialEq, Eq)]
pub enum OpenEnded {
    /// A store began with the image, and the schedule behind it ended so; or the input failed, or
    /// memory was refused, before that.
    Ran(Ended),
    /// The input begins with no image.
    BadImage,
    /// No store may begin with what the image has: the item at this place, from 0, isn't good. Where
    /// each is, the place is behind the last, and the moment or a number is too large.
    BadContent { i: u64 },
    /// All of it weighs more than a store may hold.
    Full,
}

impl From<BeginError> for OpenEnded {
    ghost use Rattle.std.specs.Prelude.{◌≡◌};
    ghost use Rattle.hc_saving.specs.Opens.{ended_by};

    ghost from_gives = { λ e ended. ended ≡ ended_by e };

    fn from(e: BeginError) -> Self {
        match e {
            BeginError::Unfit(Unfit::BadContent { i }) => OpenEnded::BadContent { i },
            BeginError::Unfit(Unfit::Full) => OpenEnded::Full,
            BeginError::NoMemory => OpenEnded::Ran(Ended::NoMemory),
        }
    }
}

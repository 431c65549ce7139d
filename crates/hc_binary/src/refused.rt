//! Why a call is refused.
ghost use Rattle.hc_binary.specs.declared.refused.CallRefusal.TheVariants.{NoMemory as no_memory};
ghost use Rattle.std.specs.Prelude.{◌≡◌};

use hc_text::NoMemory;

/// Why a call is refused. Of several causes the earliest here is told.
#[derive(Clone, Copy, Debug, PartialEq, Eq)]
pub enum CallRefusal {
    /// The handle has no cache.
    NoHandle,
    /// Memory was refused.
    NoMemory,
    /// The cache has taken as many events or bytes as it may.
    Exhausted,
    /// The moment is before that of the last event, or is 2^62 or later.
    BadMoment,
    /// A number or a length is outside of its limits.
    Limit,
    /// The method is no token of 1 to 15 bytes, or is `CONNECT`.
    BadMethod,
    /// The target is none.
    BadTarget,
    /// The bytes are no lines of fields, or of too many or too large ones.
    BadFields,
    /// Consumers are live.
    Live,
    /// The bytes are no image, or have more behind it.
    BadImage,
    /// No cache may begin with what the image has.
    BadContent,
    /// What the image has weighs more than the store may hold.
    Full,
    /// A text comes behind an event of another call.
    Late,
    /// A line of the text is refused.
    BadText,
}

impl CallRefusal {
    ghost use Rattle.hc_binary.specs.Refusals.{code_of};

    /// Its number, from 1.
    pub fn code(self) -> u32
        ensures { result ≡ code_of self }
    {
        match self {
            CallRefusal::NoHandle => 1,
            CallRefusal::NoMemory => 2,
            CallRefusal::Exhausted => 3,
            CallRefusal::BadMoment => 4,
            CallRefusal::Limit => 5,
            CallRefusal::BadMethod => 6,
            CallRefusal::BadTarget => 7,
            CallRefusal::BadFields => 8,
            CallRefusal::Live => 9,
            CallRefusal::BadImage => 10,
            CallRefusal::BadContent => 11,
            CallRefusal::Full => 12,
            CallRefusal::Late => 13,
            CallRefusal::BadText => 14,
        }
    }
}

impl From<NoMemory> for CallRefusal {
    ghost from_gives = { λ _ e. e ≡ no_memory };

    fn from(_: NoMemory) -> Self {
        CallRefusal::NoMemory
    }
}

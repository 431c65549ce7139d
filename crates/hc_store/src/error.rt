//! Why a store refuses.
ghost use Rattle.std.specs.Prelude.{◌≡◌};

use hc_text::NoMemory;

/// Why a call of a store was refused. Then no slot is changed, made or dropped.
#[derive(Clone, Copy, Debug, PartialEq, Eq)]
pub enum StoreError {
    /// The store failed, and counted it.
    Fault,
    /// The slot would have more body bytes than a slot may.
    TooLarge,
    /// All slots would weigh more than they may.
    Full,
    /// A growth was refused. This is no fault.
    NoMemory,
}

impl From<NoMemory> for StoreError {
    ghost use Rattle.hc_store.specs.declared.error.StoreError.TheVariants.{NoMemory};

    ghost from_gives = { λ _ e. e ≡ NoMemory };

    fn from(_: NoMemory) -> Self {
        StoreError::NoMemory
    }
}

//! Why a cache can't begin with contents.
ghost use Rattle.std.specs.Prelude.{◌≡◌, ◌≢◌, ℕ, None, false, IfNone, IfSome};
ghost use Rattle.hc_contents.specs.Fit.{unfit_of};
ghost use Rattle.hc_contents.specs.PlainContents.{plain_contents};
ghost use Rattle.hc_core.specs.Begins.{IsCause, is_unfit};

use hc_contents::{Contents, Unfit, why_unfit};
use hc_rules::Limits;
use hc_store::StoreError;
use hc_text::NoMemory;
use std::alloc::Global;

/// Why a cache can't begin with contents.
#[derive(Clone, Copy, Debug, PartialEq, Eq)]
pub enum ContentsError {
    /// The item at this place, from 0, isn't good. Where each is, the place is behind the last, and
    /// the moment or a number is too large.
    BadContent { i: u64 },
    /// All of it weighs more than it may.
    Full,
    /// The store failed, and counted it.
    Fault,
    /// A growth was refused.
    NoMemory,
}

/// A refusal, with the store that was handed in. Where the store failed, or memory was refused, it may
/// hold some of the contents.
#[derive(Drop)]
pub struct ContentsRefused<B> {
    pub why: ContentsError,
    pub backend: B,
}

/// Why no store could begin with these contents, if none could.
pub(crate) fn refusal_of(
    contents: &Contents,
    limits: Limits,
    alloc: Global,
) -> Option<ContentsError>
    ensures none { IfNone result (unfit_of limits (plain_contents contents.entry.now) ≡ None) }
    ensures some { IfSome result (λ why. (n : ℕ)
        → IsCause limits (plain_contents contents.entry.now) n n why) }
{
    match why_unfit(contents, limits, alloc) {
        Ok(None) => None,
        Ok(Some(Unfit::BadContent { i })) => Some(ContentsError::BadContent { i }),
        Ok(Some(Unfit::Full)) => Some(ContentsError::Full),
        Err(NoMemory) => Some(ContentsError::NoMemory),
    }
}

/// Why a store refuses contents that fit.
pub(crate) fn failure_of(error: StoreError) -> ContentsError
    requires too_large { error ≢ StoreError.TooLarge }
    requires full { error ≢ StoreError.Full }
    ensures fault { error ≡ StoreError.Fault → result ≡ ContentsError.Fault }
    ensures memory { error ≢ StoreError.Fault → result ≡ ContentsError.NoMemory }
    ensures fits { is_unfit result ≡ false }
{
    match error {
        StoreError::Fault => ContentsError::Fault,
        StoreError::NoMemory => ContentsError::NoMemory,
        StoreError::TooLarge | StoreError::Full => unreachable!(),
    }
}

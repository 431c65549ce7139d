//! A cache in memory that begins with contents.
ghost use Rattle.std.specs.Prelude.{◌≡◌, ◌≢◌, IfOk, IfErr};
ghost use Rattle.hc_core.specs.declared.begin.ContentsError.TheVariants as error;
ghost use Rattle.hc_contents.specs.PlainContents.{plain_contents};
ghost use Rattle.hc_saving.specs.Begins.{BeginsWith, IsUnbegun, refused_by};

use hc_contents::{Contents, Unfit};
use hc_core::{Cache, ContentsError};
use hc_rules::Limits;
use hc_store::Memory;
use std::alloc::Global;

/// Why no cache begins with contents.
#[derive(Clone, Copy, Debug, PartialEq, Eq)]
pub(crate) enum BeginError {
    /// None may begin with them.
    Unfit(Unfit),
    /// There was not enough memory.
    NoMemory,
}

/// Begins a cache with these contents.
pub(crate) fn begin(
    alloc: Global,
    limits: Limits,
    contents: Contents,
) -> Result<Cache<Memory>, BeginError>
    ensures begun { IfOk result (BeginsWith limits (plain_contents contents)) }
    ensures none { IfErr result (IsUnbegun limits (plain_contents contents)) }
{
    let store = Memory::new(alloc, limits);
    match Cache::with_contents(store, limits, &contents, alloc) {
        Ok(cache) => Ok(cache),
        Err(refused) => Err(refused_as(refused.why)),
    }
}

/// Why none begins. A store in memory doesn't fail.
fn refused_as(why: ContentsError) -> BeginError
    requires { why ≢ error.Fault }
    ensures { result ≡ refused_by why }
{
    match why {
        ContentsError::BadContent { i } => BeginError::Unfit(Unfit::BadContent { i }),
        ContentsError::Full => BeginError::Unfit(Unfit::Full),
        ContentsError::NoMemory => BeginError::NoMemory,
        ContentsError::Fault => unreachable!(),
    }
}

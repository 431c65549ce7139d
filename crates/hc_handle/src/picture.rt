//! What a cache has, as an image.
ghost use Rattle.std.specs.Prelude.{◌≡◌, ◌≢◌, [], IfOk, IfErr, true};
ghost use Rattle.hc_core.specs.declared.begin.ContentsError.TheVariants as error;
ghost use Rattle.hc_core.specs.Steps.{live_in, last_moment, steps, bytes_received, has_failed, limits_in};
ghost use Rattle.hc_contents.specs.PlainContents.{plain_contents};
ghost use Rattle.hc_handle.specs.Images.{IsRead, IsUnread, Begun, IsUnbegun, refused_by, IsImageOf, Stays};

use hc_binary::CallRefusal;
use hc_contents::Contents;
use hc_core::{Cache, ContentsError};
use hc_image::{images_spell_contents_apart, read_image, write_image};
use hc_rules::Limits;
use hc_saving::kept_contents;
use hc_store::Memory;
use hc_text::NoMemory;
use std::alloc::Global;

/// What an image has, if the text is one and nothing more.
pub(crate) fn read_whole(alloc: Global, text: &[u8]) -> Result<Contents, CallRefusal>
    ensures read { IfOk result (λ contents. IsRead text.now (plain_contents contents)) }
    ensures unread { IfErr result (IsUnread text.now) }
{
    images_spell_contents_apart();
    let Some(image) = read_image(alloc, text)? else {
        return Err(CallRefusal::BadImage);
    };
    if image.used != text.len() {
        return Err(CallRefusal::BadImage);
    }
    Ok(image.contents)
}

/// A cache that begins with these contents.
pub(crate) fn begin_with(
    alloc: Global,
    limits: Limits,
    contents: &Contents,
) -> Result<Cache<Memory>, CallRefusal>
    ensures begun { IfOk result (Begun limits (plain_contents contents.entry.now)) }
    ensures unbegun { IfErr result (IsUnbegun limits (plain_contents contents.entry.now)) }
{
    match Cache::with_contents(Memory::new(alloc, limits), limits, contents, alloc) {
        Ok(cache) => Ok(cache),
        Err(refused) => Err(refused_as(refused.why)),
    }
}

/// Why no cache begins. A store in memory doesn't fail.
fn refused_as(why: ContentsError) -> CallRefusal
    requires { why ≢ error.Fault }
    ensures { result ≡ refused_by why }
{
    match why {
        ContentsError::BadContent { .. } => CallRefusal::BadContent,
        ContentsError::Full => CallRefusal::Full,
        ContentsError::NoMemory => CallRefusal::NoMemory,
        ContentsError::Fault => unreachable!(),
    }
}

/// The image of what the cache has. Nobody is live.
pub(crate) fn image_of(alloc: Global, cache: &mut Cache<Memory>) -> Result<Vec<u8>, NoMemory>
    requires idle { live_in cache.old ≡ 0 }
    ensures image { IfOk result (λ image. IsImageOf cache.old image.items) }
    ensures stays { Stays cache.old cache.new }
{
    let contents = kept_contents(cache)?;
    write_image(alloc, &contents)
}

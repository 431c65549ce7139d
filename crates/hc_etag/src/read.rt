//! Entity tags as text.
ghost use Rattle.std.specs.Prelude.{◌≡◌, ◌++◌, OnOk, OnErr, IfOk, IfSome, IfNone};
ghost use Rattle.hc_etag.specs.Etags.{IsNoTag, IsTag, tag_text};
ghost use Rattle.hc_etag.specs.Tags.{IsOnlyTagOf, IsTagOf};

use crate::leading::leading_tag;
use crate::tag::Tag;
use hc_text::NoMemory;
use std::alloc::Global;

/// The entity tag that the text is: one tag at most, and None exactly where it is none.
///
/// Memory is asked for only where the text is a tag.
pub fn read_tag(alloc: Global, text: &[u8]) -> Result<Option<Tag>, NoMemory>
    ensures found { IfOk result (λ read. IfSome read (IsTagOf text.now)) }
    ensures only { IfOk result (λ read. IfSome read (IsOnlyTagOf text.now)) }
    ensures none { IfOk result (λ read. IfNone read (IsNoTag text.now)) }
    ensures err { OnErr result (IsTag text.now) }
{
    let Some(leading) = leading_tag(text) else {
        return Ok(None);
    };
    if !leading.rest.is_empty() {
        return Ok(None);
    }
    Ok(Some(leading.tag(alloc)?))
}

/// Appends the text of the tag, or nothing.
pub fn write_tag(tag: &Tag, to: &mut Vec<u8>) -> Result<(), NoMemory>
    ensures ok { OnOk result (to.new.items ≡ to.old.items ++ tag_text tag.now.weak tag.now.opaque) }
    ensures err { OnErr result (to.new.items ≡ to.old.items) }
{
    let opaque = tag.opaque.as_slice();
    to.reserve(opaque.len() + 4)?;
    to.extend_from_slice(if tag.weak { b"W/\"" } else { b"\"" })?;
    to.extend_from_slice(opaque)?;
    to.push(b'"')?;
    Ok(())
}

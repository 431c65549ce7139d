//! The entity tag that a text begins with.
ghost use Rattle.std.specs.Prelude.{◌≡◌, ◌+◌, IfOk, IfSome, IfNone};
ghost use Rattle.std.specs.List.{prefix_len};
ghost use Rattle.hc_etag.specs.Etags.{is_etagc, BeginsTag, BeginsWith, IsOpaque, IsQuoted, IsUnquoted};

use crate::tag::Tag;
use hc_text::{Bytes, NoMemory};
use std::alloc::Global;

/// An entity tag, and what follows it.
#[derive(Clone, Copy)]
pub struct LeadingTag<'a> {
    pub weak: bool,
    pub opaque: &'a [u8],
    pub rest: &'a [u8],
}

impl LeadingTag<'_> {
    /// The entity tag, as a value of its own.
    pub fn tag(&self, alloc: Global) -> Result<Tag, NoMemory>
        requires { IsOpaque self.now.opaque.now }
        ensures weak { IfOk result (λ tag. tag.weak ≡ self.now.weak) }
        ensures opaque { IfOk result (λ tag. tag.opaque ≡ self.now.opaque.now) }
    {
        let bytes = self.opaque.to_vec(alloc)?;
        Ok(Tag {
            weak: self.weak,
            opaque: Bytes::of(bytes),
        })
    }
}

/// The entity tag that the text begins with.
pub fn leading_tag(text: &[u8]) -> Option<LeadingTag<'_>>
    ensures opaque { IfSome result (λ leading. IsOpaque leading.opaque.now) }
    ensures found { IfSome result
        (λ leading. BeginsWith text.now leading.weak leading.opaque.now leading.rest.now) }
    ensures none { IfNone result (¬ (BeginsTag text.now)) }
{
    if text.len() >= 2 && text[0] == b'W' && text[1] == b'/' {
        let (opaque, rest) = leading_opaque(&text[2..])?;
        return Some(LeadingTag {
            weak: true,
            opaque,
            rest,
        });
    }
    let (opaque, rest) = leading_opaque(text)?;
    Some(LeadingTag {
        weak: false,
        opaque,
        rest,
    })
}

/// The bytes between the quotes that the text begins with, and what follows the second quote.
fn leading_opaque(text: &[u8]) -> Option<(&[u8], &[u8])>
    ensures opaque { IfSome result (λ leading. IsOpaque leading.0.now) }
    ensures found { IfSome result (λ leading. IsQuoted text.now leading.0.now leading.1.now) }
    ensures none { IfNone result (IsUnquoted text.now) }
{
    let (first, inside) = text.split_first()?;
    if *first != b'"' {
        return None;
    }
    let len = opaque_len(inside);
    if len == inside.len() {
        return None;
    }
    if inside[len] != b'"' {
        return None;
    }
    Some((&inside[..len], &inside[len + 1..]))
}

/// How many bytes the text begins with that may stand between the quotes of a tag.
fn opaque_len(text: &[u8]) -> usize
    ensures { result ≡ prefix_len is_etagc text.now }
{
    text.iter().take_while(|b| is_etagc(**b)).count()
}

/// Whether the byte may stand between the quotes of a tag: it is visible and no quote, or past ASCII.
// Without a branch, so that a loop over bytes is compiled to vector code.
pub(crate) fn is_etagc(byte: u8) -> bool
    ensures { result ≡ is_etagc byte }
{
    (byte > b' ') & (byte != b'"') & (byte != 0x7f)
}

//! Lists of entity tags.
ghost use Rattle.std.specs.Prelude.{◌≡◌, IfOk, IfSome, IfNone, OnErr, option_map};
ghost use Rattle.hc_etag.specs.Etags.{HasTag};
ghost use Rattle.hc_etag.specs.TagListTexts.{list_in, plain_list};
ghost use Rattle.hc_etag.specs.TagLists.{AreTagsOf, HasAll, HoldsOnly, IsNoList, SpellsList, SpellsNone};

use crate::leading::leading_tag;
use crate::tag::Tag;
use hc_text::{NoMemory, is_blank};
use std::alloc::Global;
use std::marker::Model;

/// Entity tags, seen as their list.
#[derive(Debug, Drop)]
pub struct TagItems {
    pub items: Vec<Tag>,
}

impl Model for TagItems {
    ghost use Rattle.std.specs.Prelude.{List};
    ghost use Rattle.hc_etag.specs.declared.tag.Tag.{Tag};

    ghost Value = { List Tag };

    ghost view = { λ t. t.items.items };
}

impl TagItems {
    /// An equal value of its own.
    pub fn copy(&self) -> Result<TagItems, NoMemory>
        ensures { IfOk result (λ copy. copy ≡ self.now) }
    {
        let mut items = Vec::with_capacity(*self.items.allocator(), self.items.len())?;
        for tag in self.items.as_slice() {
            items.push(tag.copy()?)?;
        }
        Ok(TagItems { items })
    }
}

/// What a field such as If-None-Match lists (RFC 9110 section 13.1.2).
#[derive(Debug, Drop)]
pub enum TagList {
    /// The asterisk: any entity tag.
    Any,
    /// These entity tags.
    Tags(TagItems),
}

impl TagList {
    /// An equal value of its own.
    pub fn copy(&self) -> Result<TagList, NoMemory>
        ensures { IfOk result (λ copy. copy ≡ self.now) }
    {
        match self {
            TagList::Any => Ok(TagList::Any),
            TagList::Tags(tags) => Ok(TagList::Tags(tags.copy()?)),
        }
    }
}

/// The list that the text is: an asterisk alone, or one entity tag or more between commas, read as
/// a recipient reads a list (RFC 9110 section 5.6.1), with empty elements, and with blanks round
/// each element, at both ends of the text too.
///
/// It is None exactly where the text is no such list. A backslash in a tag is an ordinary byte.
/// The text is read once, and memory is asked for at each tag, so want of memory may be told before a
/// fault further on, but of no text without a tag.
pub fn read_tag_list(alloc: Global, text: &[u8]) -> Result<Option<TagList>, NoMemory>
    ensures value { IfOk result (λ read. list_in text.now ≡ option_map plain_list read) }
    ensures found { IfOk result (λ read. IfSome read (SpellsList text.now)) }
    ensures only { IfOk result (λ read. IfSome read (HoldsOnly text.now)) }
    ensures none { IfOk result (λ read. IfNone read (IsNoList text.now)) }
    ensures err { OnErr result (HasTag text.now) }
{
    if text == b"*".as_slice() {
        return Ok(Some(TagList::Any));
    }
    let Some(items) = read_tags(alloc, text)? else {
        return Ok(None);
    };
    if items.is_empty() {
        return Ok(None);
    }
    Ok(Some(TagList::Tags(TagItems { items })))
}

/// The entity tags between commas that the text is, none of them too.
fn read_tags(alloc: Global, text: &[u8]) -> Result<Option<Vec<Tag>>, NoMemory>
    ensures found { IfOk result (λ read. IfSome read (λ tags. AreTagsOf text.now tags.items)) }
    ensures only { IfOk result (λ read. IfSome read (λ tags. HasAll text.now tags.items)) }
    ensures none { IfOk result (λ read. IfNone read (SpellsNone text.now)) }
    ensures err { OnErr result (HasTag text.now) }
{
    let mut tags = Vec::new(alloc);
    let mut rest = text;
    let mut may_come = true;
    while let Some((first, after)) = rest.split_first() {
        if *first == b',' {
            may_come = true;
            rest = after;
        } else if is_blank(*first) {
            rest = after;
        } else {
            if !may_come {
                return Ok(None);
            }
            let Some(leading) = leading_tag(rest) else {
                return Ok(None);
            };
            tags.push(leading.tag(alloc)?)?;
            may_come = false;
            rest = leading.rest;
        }
    }
    Ok(Some(tags))
}

//! Calls on entity tags.

use crate::error::{BenchError, expect};
use hc_etag::{Tag, TagList, read_tag, read_tag_list, weak_equal, write_tag};
use hc_text::Bytes;
use std::alloc::Global;

/// `read_tag` of a tag with 40 bytes or 13.
pub(super) fn read_tags(alloc: Global, times: u64) -> Result<(), BenchError> {
    for round in 0..times {
        let (text, opaque) = tag_case(round);
        read(alloc, text, opaque)?;
    }
    Ok(())
}

fn read(alloc: Global, text: &[u8], opaque: &[u8]) -> Result<(), BenchError> {
    let tag = read_tag(alloc, text)?;
    expect(is_tag(&tag, opaque))
}

/// Whether a tag was read, and this stands between its quotes.
fn is_tag(tag: &Option<Tag>, opaque: &[u8]) -> bool {
    match tag {
        Some(tag) => tag.opaque.as_slice() == opaque,
        None => false,
    }
}

/// A tag, and what stands between its quotes.
#[inline(never)]
fn tag_case(round: u64) -> (&'static [u8], &'static [u8]) {
    if round % 2 == 0 {
        (
            b"\"33a64df551425fcc55e4d42a148795d9f25f89d4\"",
            b"33a64df551425fcc55e4d42a148795d9f25f89d4",
        )
    } else {
        (b"\"6553f1f0-3113\"", b"6553f1f0-3113")
    }
}

/// `read_tag_list` of three tags or two.
pub(super) fn read_tag_lists(alloc: Global, times: u64) -> Result<(), BenchError> {
    for round in 0..times {
        let (text, count) = tag_list_case(round);
        read_list(alloc, text, count)?;
    }
    Ok(())
}

fn read_list(alloc: Global, text: &[u8], count: usize) -> Result<(), BenchError> {
    let list = read_tag_list(alloc, text)?;
    expect(count_of(&list) == Some(count))
}

/// How many tags the list has that was read, unless it is `*`.
fn count_of(list: &Option<TagList>) -> Option<usize> {
    match list {
        Some(TagList::Tags(tags)) => Some(tags.items.len()),
        _ => None,
    }
}

/// A list of tags, and how many there are.
#[inline(never)]
fn tag_list_case(round: u64) -> (&'static [u8], usize) {
    if round % 2 == 0 {
        (
            b"\"bfc13a64729c4290ef5b2c2730249c88ca92d82d\", W/\"67ab43\", \"7892dd\"",
            3,
        )
    } else {
        (
            b"\"33a64df551425fcc55e4d42a148795d9f25f89d4\", \"6553f1f0-3113\"",
            2,
        )
    }
}

/// `weak_equal` of two equal tags.
pub(super) fn compare_tags(alloc: Global, times: u64) -> Result<(), BenchError> {
    let tags = TwoTags::new(alloc)?;
    compare(&tags, times)
}

fn compare(tags: &TwoTags, times: u64) -> Result<(), BenchError> {
    for round in 0..times {
        expect(weak_equal(tags.at(round), tags.at(round ^ 1)))?;
    }
    Ok(())
}

/// How many bytes a tag has that is written: 40 and two quotes.
const TEXT_LEN: usize = 42;

/// `write_tag` of a tag of 40 bytes.
pub(super) fn write_tags(alloc: Global, times: u64, to: &mut Vec<u8>) -> Result<(), BenchError> {
    let tags = TwoTags::new(alloc)?;
    write(&tags, times, to)
}

fn write(tags: &TwoTags, times: u64, to: &mut Vec<u8>) -> Result<(), BenchError> {
    for round in 0..times {
        to.clear();
        write_tag(tags.at(round), to)?;
        expect(to.len() == TEXT_LEN)?;
    }
    Ok(())
}

/// Two strong tags of the same 40 bytes.
#[derive(Drop)]
struct TwoTags {
    first: Tag,
    second: Tag,
}

impl TwoTags {
    fn new(alloc: Global) -> Result<TwoTags, BenchError> {
        let first = hash_tag(alloc)?;
        let second = hash_tag(alloc)?;
        Ok(TwoTags { first, second })
    }

    /// One of the tags, by turns.
    #[inline(never)]
    fn at(&self, round: u64) -> &Tag {
        if round % 2 == 0 {
            &self.first
        } else {
            &self.second
        }
    }
}

/// A tag as many servers make one, of a hash in hexadecimal digits.
fn hash_tag(alloc: Global) -> Result<Tag, BenchError> {
    let bytes = b"33a64df551425fcc55e4d42a148795d9f25f89d4".to_vec(alloc)?;
    Ok(Tag {
        weak: false,
        opaque: Bytes::of(bytes),
    })
}

//! Calls of `hc_etag`.
use hc_etag::{
    Tag, TagList, read_tag, read_tag_list, strong_equal, strong_in, tag_in, weak_equal, write_tag,
};
use hc_test_frame::{Vector, quote, show};
use hc_text::NoMemory;

/// Writes the value of the call, if it is one of these.
pub(crate) fn call(v: &Vector, to: &mut String) -> Result<bool, NoMemory> {
    match v.call() {
        "read_tag t" => report_tag(v, to),
        "tag_in t" => report_tag_in(v.text(0), to),
        "strong_in t" => report_strong_in(v.text(0), to),
        "write_tag t" => return report_written(v, to),
        "equal_tags tt" => return compare(v, to),
        "read_tag_list t" => report_list(v, to),
        "tags_are tt" => report_same(v, to),
        _ => return Ok(false),
    }?;
    Ok(true)
}

fn report_tag(v: &Vector, to: &mut String) -> Result<(), NoMemory> {
    let tag = read_tag(v.alloc(), v.text(0))?;
    match &tag {
        Some(tag) => report_opaque(tag.weak, tag.opaque.as_slice(), to),
        None => report_none(to),
    }
}

fn report_tag_in(text: &[u8], to: &mut String) -> Result<(), NoMemory> {
    match tag_in(text) {
        Some(tag) => report_opaque(tag.weak, tag.opaque, to),
        None => report_none(to),
    }
}

fn report_strong_in(text: &[u8], to: &mut String) -> Result<(), NoMemory> {
    match strong_in(text) {
        Some(opaque) => quote(opaque, to),
        None => report_none(to),
    }
}

fn report_none(to: &mut String) -> Result<(), NoMemory> {
    to.push_str("None")?;
    Ok(())
}

/// What stands between the quotes of a tag, and whether it is weak.
fn report_opaque(weak: bool, opaque: &[u8], to: &mut String) -> Result<(), NoMemory> {
    to.push_str(if weak { "weak " } else { "strong " })?;
    quote(opaque, to)
}

/// What is written of the copy of a tag, where the text is one.
fn report_written(v: &Vector, to: &mut String) -> Result<bool, NoMemory> {
    let tag = read_tag(v.alloc(), v.text(0))?;
    match &tag {
        Some(tag) => report_copy(v, tag, to),
        None => Ok(false),
    }
}

fn report_copy(v: &Vector, tag: &Tag, to: &mut String) -> Result<bool, NoMemory> {
    let copy = tag.copy()?;
    report_text(v, &copy, to)?;
    Ok(true)
}

fn report_text(v: &Vector, tag: &Tag, to: &mut String) -> Result<(), NoMemory> {
    let mut text = Vec::new(v.alloc());
    write_tag(tag, &mut text)?;
    quote(&text, to)
}

/// How two tags are equal, where both texts are tags.
fn compare(v: &Vector, to: &mut String) -> Result<bool, NoMemory> {
    let a = read_tag(v.alloc(), v.text(0))?;
    match &a {
        Some(a) => compare_with(a, v, to),
        None => Ok(false),
    }
}

/// How a tag is equal to that of the second text.
fn compare_with(a: &Tag, v: &Vector, to: &mut String) -> Result<bool, NoMemory> {
    let b = read_tag(v.alloc(), v.text(1))?;
    match &b {
        Some(b) => report_equal(a, b, to),
        None => Ok(false),
    }
}

fn report_equal(a: &Tag, b: &Tag, to: &mut String) -> Result<bool, NoMemory> {
    let strong = strong_equal(a, b);
    let weak = weak_equal(a, b);
    write!(to, "strong {strong}, weak {weak}")?;
    Ok(true)
}

fn report_list(v: &Vector, to: &mut String) -> Result<(), NoMemory> {
    let list = read_tag_list(v.alloc(), v.text(0))?;
    match &list {
        Some(list) => report_list_copy(v, list, to),
        None => report_none(to),
    }
}

fn report_list_copy(v: &Vector, list: &TagList, to: &mut String) -> Result<(), NoMemory> {
    let copy = list.copy()?;
    report_tags(v, &copy, to)
}

/// The texts that are written of the tags of a list.
fn report_tags(v: &Vector, list: &TagList, to: &mut String) -> Result<(), NoMemory> {
    let TagList::Tags(tags) = list else {
        to.push_str("Any")?;
        return Ok(());
    };
    to.push_str("Tags")?;
    for tag in tags.items.as_slice() {
        to.push(' ')?;
        report_text(v, tag, to)?;
    }
    Ok(())
}

/// Whether the second text is that of the tags of a list, each with a blank behind it.
fn report_same(v: &Vector, to: &mut String) -> Result<(), NoMemory> {
    let list = read_tag_list(v.alloc(), v.text(0))?;
    match &list {
        Some(TagList::Tags(tags)) => report_same_tags(tags.items.as_slice(), v, to),
        _ => show(&false, to),
    }
}

fn report_same_tags(tags: &[Tag], v: &Vector, to: &mut String) -> Result<(), NoMemory> {
    let mut found = Vec::new(v.alloc());
    write_each(tags, &mut found)?;
    show(&(found.as_slice() == v.text(1)), to)
}

fn write_each(tags: &[Tag], to: &mut Vec<u8>) -> Result<(), NoMemory> {
    for tag in tags {
        write_tag(tag, to)?;
        to.push(b' ')?;
    }
    Ok(())
}

//! Reading images.
ghost use Rattle.std.specs.Prelude.{◌≡◌, ◌++◌, ℕ, List, map, IfOk, IfSome, IfNone, IsSome, OnErr};
ghost use Rattle.hc_record.specs.Reading.{Takes};
ghost use Rattle.hc_model.specs.Entries as model;
ghost use Rattle.hc_contents.specs.PlainContents.{plain_item};
ghost use Rattle.hc_image.specs.Parts.{AreSmall, lines_text, SpellsMany};
ghost use Rattle.hc_image.specs.Readings.{Reads, IsReadFrom, IsReadBack, BeginsWithNone, BeginsAsImage};
ghost use Rattle.hc_image.specs.Spelled.{SpellsImage};

use crate::cursor::Cursor;
use crate::item::take_item;
use hc_contents::{ContentList, Contents};
use hc_text::NoMemory;
use std::alloc::Global;

/// What an image has, and how many bytes the image has.
#[derive(Drop)]
pub struct ImageRead {
    pub contents: Contents,
    pub used: usize,
}

/// What the image has that the text begins with. None exactly where it begins with none.
///
/// Nothing is reserved: a list grows by what stands in the text. Memory is asked for only behind the
/// first two lines.
pub fn read_image(alloc: Global, text: &[u8]) -> Result<Option<ImageRead>, NoMemory>
    ensures found { IfOk result (λ read. IfSome read (IsReadFrom text.now)) }
    ensures none { IfOk result (λ read. IfNone read (BeginsWithNone text.now)) }

    // What an image was made of comes back, whatever stands behind the image.
    ensures back { (contents : model.Contents) (image rest : List ℕ) → SpellsImage image contents
        → image ++ rest ≡ text.now
        → IfOk result (λ read. IsSome read × IfSome read (IsReadBack contents image)) }
    ensures err { OnErr result (BeginsAsImage text.now) }
{
    let mut rest = Cursor::new(text);
    let Some(first) = take_first_lines(&mut rest) else {
        return Ok(None);
    };
    let Some(items) = take_items(alloc, &mut rest, first.count)? else {
        return Ok(None);
    };
    let contents = Contents {
        now: first.now,
        last_consumer: first.last_consumer,
        next_exchange: first.next_exchange,
        items,
    };
    let used = text.len() - rest.rest().len();
    Ok(Some(ImageRead { contents, used }))
}

/// The numbers of an image.
#[derive(Clone, Copy)]
struct FirstLines {
    now: u64,
    last_consumer: u64,
    next_exchange: u64,
    count: u64,
}

/// Takes the first two lines.
fn take_first_lines(rest: &mut Cursor<'_>) -> Option<FirstLines>
    ensures { Takes lines_text AreSmall rest.old rest.new result }
{
    rest.take_bytes(b"image 1\n")?;
    let now = rest.take_number(b' ')?;
    let last_consumer = rest.take_number(b' ')?;
    let next_exchange = rest.take_number(b' ')?;
    let count = rest.take_number(b'\n')?;
    Some(FirstLines {
        now,
        last_consumer,
        next_exchange,
        count,
    })
}

/// Takes so many items.
fn take_items(
    alloc: Global,
    rest: &mut Cursor<'_>,
    count: u64,
) -> Result<Option<ContentList>, NoMemory>
    ensures { IfOk result (λ read.
        Reads (SpellsMany count) (map plain_item) rest.old rest.new read) }
{
    let mut items = ContentList::new(alloc);
    for _ in 0..count {
        let Some(item) = take_item(alloc, rest)? else {
            return Ok(None);
        };
        items.push(item)?;
    }
    Ok(Some(items))
}

//! Writing images.
ghost use Rattle.std.specs.Prelude.{◌≡◌, ◌++◌, map, length, OnOk, IfOk};
ghost use Rattle.hc_record.specs.Lines.{number_and_end};
ghost use Rattle.hc_contents.specs.PlainContents.{plain_contents, plain_item};
ghost use Rattle.hc_image.specs.Images.{image_of, first_lines, items_text, item_text, item_line, runs_text, run_text};

use hc_contents::{Content, Contents};
use hc_record::write_record;
use hc_sparse::Run;
use hc_text::{NoMemory, write_number};
use std::alloc::Global;

/// The image of the contents, its records in the second version. `read_image` reads it back where each
/// key is a target and all numbers are below 2^62.
pub fn write_image(alloc: Global, contents: &Contents) -> Result<Vec<u8>, NoMemory>
    ensures { IfOk result
        (λ image. image.items ≡ image_of (plain_contents contents.entry.now)) }
{
    let mut image = Vec::new(alloc);
    write_first_lines(contents, &mut image)?;
    write_items(contents.items.as_slice(), &mut image)?;
    Ok(image)
}

/// Appends the first two lines, or a part of them.
fn write_first_lines(contents: &Contents, to: &mut Vec<u8>) -> Result<(), NoMemory>
    ensures { OnOk result
        (to.new.items ≡ to.old.items ++ first_lines (plain_contents contents.entry.now)) }
{
    write_bytes(b"image 1\n", to)?;
    write_ended(contents.now, b' ', to)?;
    write_ended(contents.last_consumer, b' ', to)?;
    write_ended(contents.next_exchange, b' ', to)?;
    write_ended(contents.items.as_slice().len() as u64, b'\n', to)?;
    Ok(())
}

/// Appends the items, or a part of them.
fn write_items(items: &[Content], to: &mut Vec<u8>) -> Result<(), NoMemory>
    ensures { OnOk result
        (to.new.items ≡ to.old.items ++ items_text (map plain_item items.now)) }
{
    for item in items {
        write_item(item, to)?;
    }
    Ok(())
}

/// Appends an item, or a part of it.
fn write_item(item: &Content, to: &mut Vec<u8>) -> Result<(), NoMemory>
    ensures { OnOk result (to.new.items ≡ to.old.items ++ item_text (plain_item item.now)) }
{
    write_item_line(item, to)?;
    write_record(&item.head, to)?;
    write_runs(item.runs.as_slice(), to)?;
    Ok(())
}

/// Appends the line of an item, or a part of it.
fn write_item_line(item: &Content, to: &mut Vec<u8>) -> Result<(), NoMemory>
    ensures { OnOk result (to.new.items
        ≡ to.old.items ++ item_line item.now.key item.now.r (length item.now.runs)) }
{
    write_bytes(b"item ", to)?;
    write_bytes(item.key.bytes.as_slice(), to)?;
    write_bytes(b" ", to)?;
    write_ended(item.r, b' ', to)?;
    write_ended(item.runs.as_slice().len() as u64, b'\n', to)?;
    Ok(())
}

/// Appends the runs, or a part of them.
fn write_runs(runs: &[Run], to: &mut Vec<u8>) -> Result<(), NoMemory>
    ensures { OnOk result (to.new.items ≡ to.old.items ++ runs_text runs.now) }
{
    for run in runs {
        write_run(run, to)?;
    }
    Ok(())
}

/// Appends a run, or a part of it.
fn write_run(run: &Run, to: &mut Vec<u8>) -> Result<(), NoMemory>
    ensures { OnOk result (to.new.items ≡ to.old.items ++ run_text run.now) }
{
    let bytes = run.bytes.as_slice();
    write_bytes(b"run ", to)?;
    write_ended(run.x, b' ', to)?;
    write_ended(run.at, b' ', to)?;
    write_ended(bytes.len() as u64, b'\n', to)?;
    write_bytes(bytes, to)?;
    write_bytes(b"\n", to)?;
    Ok(())
}

/// Appends the plain number and the byte behind it, or a part of that.
fn write_ended(n: u64, end: u8, to: &mut Vec<u8>) -> Result<(), NoMemory>
    ensures { OnOk result (to.new.items ≡ to.old.items ++ number_and_end end n) }
{
    write_number(n, to)?;
    to.push(end)?;
    Ok(())
}

/// Appends the bytes, or nothing.
fn write_bytes(bytes: &[u8], to: &mut Vec<u8>) -> Result<(), NoMemory>
    ensures { OnOk result (to.new.items ≡ to.old.items ++ bytes.now) }
{
    to.extend_from_slice(bytes)?;
    Ok(())
}

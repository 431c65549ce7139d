//! Calls of `hc_image`.
use hc_contents::{Content, Contents};
use hc_image::{ImageRead, read_image, write_image};
use hc_sparse::Run;
use hc_test_frame::{Fault, Vector, quote};
use hc_text::NoMemory;

/// Writes the value of the call, if it is one of these.
pub(crate) fn call(v: &Vector, to: &mut String) -> Result<bool, Fault> {
    match v.call() {
        "read_image t" => report_read(v, to),
        "rewrite_image t" => report_rewritten(v, to),
        "cuts_of_image t" => report_cuts(v, to),
        _ => return Ok(false),
    }?;
    Ok(true)
}

/// What is read of the text, and how many bytes of it are used.
fn report_read(v: &Vector, to: &mut String) -> Result<(), NoMemory> {
    match read_image(v.alloc(), v.text(0))? {
        Some(read) => report_image(&read, to),
        None => Ok(to.push_str("None")?),
    }
}

fn report_image(read: &ImageRead, to: &mut String) -> Result<(), NoMemory> {
    write!(to, "{} bytes, ", read.used)?;
    report_contents(&read.contents, to)
}

/// The moment, the two numbers and the items.
fn report_contents(contents: &Contents, to: &mut String) -> Result<(), NoMemory> {
    write!(to, "now {} last {}", contents.now, contents.last_consumer)?;
    write!(to, " next {}", contents.next_exchange)?;
    for item in contents.items.as_slice() {
        report_item(item, to)?;
    }
    Ok(())
}

/// The key, the number and the runs of an item, and what its head says of itself.
fn report_item(item: &Content, to: &mut String) -> Result<(), NoMemory> {
    to.push_str("; ")?;
    quote(item.key.bytes.as_slice(), to)?;
    write!(to, " {} {:?}", item.r, item.head.kind)?;
    write!(to, " {:?} {}", item.head.total, item.head.status)?;
    for run in item.runs.as_slice() {
        report_run(run, to)?;
    }
    Ok(())
}

fn report_run(run: &Run, to: &mut String) -> Result<(), NoMemory> {
    write!(to, " {}@{} ", run.x, run.at)?;
    quote(run.bytes.as_slice(), to)
}

/// The image that is written of what is read of the text.
fn report_rewritten(v: &Vector, to: &mut String) -> Result<(), NoMemory> {
    let Some(read) = read_image(v.alloc(), v.text(0))? else {
        to.push_str("None")?;
        return Ok(());
    };
    let image = write_image(v.alloc(), &read.contents)?;
    write!(to, "{} bytes ", image.len())?;
    quote(&image, to)
}

/// How many of the text's first parts begin with an image: each is cut off behind so many bytes.
fn report_cuts(v: &Vector, to: &mut String) -> Result<(), NoMemory> {
    let text = v.text(0);
    let mut images = 0_u64;
    for len in 0..text.len() {
        if read_image(v.alloc(), &text[..len])?.is_some() {
            images = images.saturating_add(1);
        }
    }
    write!(to, "{images} of {}", text.len())?;
    Ok(())
}

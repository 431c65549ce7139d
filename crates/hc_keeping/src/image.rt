//! A new image of what a store has.
ghost use Rattle.std.specs.Prelude.{◌<◌, ◌^◌, IfOk};
ghost use Rattle.hc_contents.specs.PlainContents.{plain_contents};
ghost use Rattle.hc_keeping.specs.Images.{IsNewImage};

use hc_contents::Contents;
use hc_folder::{Sum, make_image_file};
use hc_image::write_image;
use hc_text::NoMemory;
use std::alloc::Global;

/// A new image as a file, and its sum.
#[derive(Drop)]
pub struct NewImage {
    pub file: Vec<u8>,
    pub sum: Sum,
}

/// The image of these contents as a file, behind which the record of this number is to stand.
pub fn new_image(alloc: Global, contents: &Contents, number: u64) -> Result<NewImage, NoMemory>
    requires { number < 2 ^ 62 }
    ensures { IfOk result (IsNewImage (plain_contents contents.entry.now) number) }
{
    let mut file = write_image(alloc, contents)?;
    let sum = make_image_file(&mut file, number)?;
    Ok(NewImage { file, sum })
}

//! An image as a file.
ghost use Rattle.std.specs.Prelude.{◌≡◌, ◌<◌, ◌^◌, vec_len, take, IfOk, OnOk, OnErr, MatchOption};
ghost use Rattle.hc_folder.specs.ImageFiles.{IsImageFileOf, IsImageFile, IsNoImageFile, image_file, image_sum};

use crate::sum::{Sum, append, bytes_of, is_sum, number_in, sum_of};
use hc_text::NoMemory;

/// Record numbers are below this.
const NUMBERS: u64 = 1 << 62;

/// An image, and what its file says besides.
#[derive(Drop)]
pub struct ImageFile {
    pub image: Vec<u8>,
    /// The number of the record that stands behind it.
    pub number: u64,
    pub sum: Sum,
}

/// Makes a file of an image: the number of the record behind it comes last, and the sum of both, which
/// is answered. After an error it is the image.
pub fn make_image_file(image: &mut Vec<u8>, number: u64) -> Result<Sum, NoMemory>
    requires { number < 2 ^ 62 }
    ensures ok { OnOk result (image.new.items ≡ image_file image.old.items number) }
    ensures sum { IfOk result (λ sum. sum ≡ image_sum image.old.items number) }
    ensures err { OnErr result (image.new.items ≡ image.old.items) }
{
    image.reserve(24)?;
    let start = image.len();
    let written = write_ending(image, number);
    if written.is_err() {
        image.truncate(start);
    }
    written
}

/// Appends the number of the record and the sum, or a part of both.
fn write_ending(image: &mut Vec<u8>, number: u64) -> Result<Sum, NoMemory>
    ensures ok { OnOk result (image.new.items ≡ image_file image.old.items number) }
    ensures sum { IfOk result (λ sum. sum ≡ image_sum image.old.items number) }
    ensures err { OnErr result (take (vec_len image.old) image.new.items ≡ image.old.items) }
{
    let bytes = bytes_of(number);
    append(&bytes, image)?;
    let sum = sum_of(image.as_slice());
    append(&sum, image)?;
    Ok(sum)
}

/// The image that a file is of, or none where it is of none.
pub fn read_image_file(file: Vec<u8>) -> Option<ImageFile>
    ensures { MatchOption result (IsNoImageFile file.items) (IsImageFile file.items) }
{
    let mut file = file;
    let ending = ending_of(file.as_slice())?;
    let (number, sum) = ending;
    let end = file.len() - 24;
    file.truncate(end);
    Some(ImageFile {
        image: file,
        number,
        sum,
    })
}

/// The number and the sum that the file ends in, if they are right.
fn ending_of(file: &[u8]) -> Option<(u64, Sum)>
    ensures { MatchOption result (IsNoImageFile file.now)
        (λ ending. IsImageFileOf file.now ending.0 ending.1) }
{
    if file.len() < 24 {
        return None;
    }
    let (body, sum) = file.split_at(file.len() - 16);
    let (_, bytes) = body.split_at(body.len() - 8);
    let number = number_in(bytes);
    let due = sum_of(body);
    let right = is_sum(sum, &due);
    if number >= NUMBERS {
        return None;
    }
    if right { Some((number, due)) } else { None }
}

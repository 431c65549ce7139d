//! One block of a record.
ghost use Rattle.std.specs.Prelude.{◌≡◌, ◌++◌, vec_len, take, length, IfOk, OnOk, OnErr};
ghost use Rattle.hc_folder.specs.Blocks.{block, head_of, sum_after, IsShort, IsTaken};

use crate::sum::{Sum, append, bytes_of, is_sum, number_in, sum_of_more};
use hc_text::NoMemory;

/// A block that stands first in a file, the sum behind it, and what follows it.
#[derive(Drop)]
pub(crate) struct Block<'a> {
    pub(crate) text: &'a [u8],
    pub(crate) sum: Sum,
    pub(crate) rest: &'a [u8],
}

/// What stands first in a file.
#[derive(Drop)]
pub(crate) enum Taken<'a> {
    /// A block.
    Whole(Block<'a>),
    /// No block, and maybe the first part of one.
    Cut,
    /// No block, whatever follows the file.
    Broken,
}

/// Takes a block from the front of a file.
pub(crate) fn take_block<'a>(sum: &Sum, file: &'a [u8]) -> Taken<'a>
    ensures { IsTaken sum.now file.now result }
{
    if file.len() < 24 {
        return Taken::Cut;
    }
    let (head, behind) = file.split_at(24);
    let (number, head_sum) = head.split_at(8);
    let n = number_in(number);
    let due = sum_of_more(sum, n, &[]);
    let right = is_sum(head_sum, &due);
    if right {
        take_text(sum, n, behind)
    } else {
        Taken::Broken
    }
}

/// Takes a text of this length, and its sum, from what stands behind a head that says so.
fn take_text<'a>(sum: &Sum, n: u64, behind: &'a [u8]) -> Taken<'a>
    ensures { IsTaken sum.now (head_of sum.now n ++ behind.now) result }
{
    let left = behind.len() as u64;
    if left < 16 || left - 16 < n {
        return Taken::Cut;
    }
    let (text, behind) = behind.split_at(n as usize);
    let (text_sum, rest) = behind.split_at(16);
    let due = sum_of_more(sum, n, text);
    let right = is_sum(text_sum, &due);
    if right {
        Taken::Whole(Block {
            text,
            sum: due,
            rest,
        })
    } else {
        Taken::Broken
    }
}

/// Appends the block of a text that stands behind what has this sum, and answers the sum behind it. On
/// an error nothing is appended.
pub fn write_block(sum: &Sum, text: &[u8], to: &mut Vec<u8>) -> Result<Sum, NoMemory>
    ensures ok { OnOk result (to.new.items ≡ to.old.items ++ block sum.now text.now) }
    ensures sum { IfOk result (λ after. after ≡ sum_after sum.now text.now) }
    ensures short { OnOk result (IsShort text.now) }
    ensures err { OnErr result (to.new.items ≡ to.old.items) }
{
    let start = to.len();
    let written = write_parts(sum, text, to);
    if written.is_err() {
        to.truncate(start);
    }
    written
}

/// Appends the block of a text, or a part of it.
fn write_parts(sum: &Sum, text: &[u8], to: &mut Vec<u8>) -> Result<Sum, NoMemory>
    ensures ok { OnOk result (to.new.items ≡ to.old.items ++ block sum.now text.now) }
    ensures sum { IfOk result (λ after. after ≡ sum_after sum.now text.now) }
    ensures short { OnOk result (IsShort text.now) }
    ensures err { OnErr result (take (vec_len to.old) to.new.items ≡ to.old.items) }
{
    let n = text.len() as u64;
    let number = bytes_of(n);
    let head_sum = sum_of_more(sum, n, &[]);
    let text_sum = sum_of_more(sum, n, text);
    append(&number, to)?;
    append(&head_sum, to)?;
    append(text, to)?;
    append(&text_sum, to)?;
    Ok(text_sum)
}
